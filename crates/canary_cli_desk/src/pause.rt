//! Pauses by the machine's steady clock.
use std::time::{self, Instant};

/// So many seconds from a moment on.
#[derive(Clone, Copy)]
pub(crate) struct Pause {
    // None if the clock could not be read.
    begin: Option<Instant>,
    seconds: u64,
}

impl Pause {
    /// A pause that begins now. If the clock cannot be read, it has no end.
    pub(crate) fn begun<P: time::Clock>(clock: &P, seconds: u64) -> Pause {
        Pause {
            begin: Instant::now(clock).ok(),
            seconds,
        }
    }

    /// Whether it is over, as far as the clock can be read.
    pub(crate) fn is_over<P: time::Clock>(&self, clock: &P) -> bool {
        let Some(begin) = self.begin else {
            return false;
        };
        match begin.elapsed(clock) {
            Ok(passed) => self.seconds <= passed.as_secs(),
            Err(_) => false,
        }
    }
}
