//! The time of a call.
use canary_client::outcome::Stop;
use std::time::Instant;

/// A watch, from which the time of a call is read in milliseconds.
#[derive(Clone, Copy)]
pub(crate) struct Watch {
    start: Instant,
}

impl Watch {
    /// A watch at 0.
    ///
    /// # Errors
    /// `Clock` if the clock cannot be read.
    pub(crate) fn new(rt: &HostRuntime) -> Result<Watch, Stop> {
        match Instant::now(rt) {
            Ok(start) => Ok(Watch { start }),
            Err(_) => Err(Stop::Clock),
        }
    }

    /// The milliseconds since it was at 0.
    ///
    /// # Errors
    /// `Clock` if the clock cannot be read.
    pub(crate) fn now(&self, rt: &HostRuntime) -> Result<u64, Stop> {
        match self.start.elapsed(rt) {
            Ok(passed) => Ok(u64::try_from(passed.as_millis()).unwrap_or(u64::MAX)),
            Err(_) => Err(Stop::Clock),
        }
    }
}
