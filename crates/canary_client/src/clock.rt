//! How long a call, and each exchange of it, may take.
ghost use Rattle.std.specs.Prelude.{◌≡◌, option_map};
ghost use Rattle.std.specs.Duration.{as_nanos};
ghost use Rattle.canary_client.specs.Patience.{pause_after, left_of};

use crate::outcome::Stop;
use std::time::{Duration, Instant};

// The seconds between two looks at a desk.
const BETWEEN: u64 = 1;

// The first pause before a message is sent again, and the longest, in milliseconds.
const FIRST_PAUSE: u64 = 100;

const MAX_PAUSE: u64 = 5_000;

/// A span of time that began at some moment, and ends so much later, or never.
#[derive(Clone, Copy, Debug)]
pub struct Deadline {
    start: Instant,
    most: Option<Duration>,
}

impl Deadline {
    /// A span that begins now, of so many seconds, or without an end.
    ///
    /// # Errors
    /// `Clock` if the clock cannot be read.
    pub fn of_call(rt: &HostRuntime, seconds: Option<u64>) -> Result<Deadline, Stop> {
        match Instant::now(rt) {
            Ok(start) => Ok(Deadline {
                start,
                most: seconds.map(Duration::from_secs),
            }),
            Err(_) => Err(Stop::Clock),
        }
    }

    /// A span that begins now and lasts so long; none if the clock cannot be read.
    pub fn lasting(rt: &HostRuntime, time: Duration) -> Option<Deadline> {
        let start = Instant::now(rt).ok()?;
        Some(Deadline {
            start,
            most: Some(time),
        })
    }

    /// As much of this time as is left of the span: none if that is over, or if the clock cannot be
    /// read.
    pub fn cut(&self, rt: &HostRuntime, time: Duration) -> Option<Duration> {
        let passed = self.start.elapsed(rt).ok()?;
        let left = left_of(self.most, passed, time);
        if left.is_zero() { None } else { Some(left) }
    }

    /// Whether the span is over.
    pub fn is_over(&self, rt: &HostRuntime) -> bool {
        self.cut(rt, Duration::from_secs(BETWEEN)).is_none()
    }

    /// Waits for a second, or for what is left of the span if that is less.
    ///
    /// # Errors
    /// `TimeOut` if the span is over.
    pub fn go_on(&self, rt: &HostRuntime) -> Result<(), Stop> {
        match self.cut(rt, Duration::from_secs(BETWEEN)) {
            Some(time) => {
                std::thread::sleep(rt, time);
                Ok(())
            }
            None => Err(Stop::TimeOut),
        }
    }

    /// Why a call stopped: since its time is over, if no desk answered until then.
    pub fn stop(&self, rt: &HostRuntime, stop: Stop) -> Stop {
        if stop == Stop::NoDesk && self.is_over(rt) {
            return Stop::TimeOut;
        }
        stop
    }
}

// As much of this time as is left of a span in which so much has passed.
fn left_of(most: Option<Duration>, passed: Duration, time: Duration) -> Duration
    ensures { as_nanos result ≡ left_of (option_map as_nanos most) (as_nanos passed)
        (as_nanos time) }
{
    match most {
        Some(most) => most.saturating_sub(passed).min(time),
        None => time,
    }
}

/// The milliseconds before a message is sent again that was sent so often.
pub fn pause_after(tried: u32) -> u64
    ensures { result ≡ pause_after tried }
{
    let doubled = FIRST_PAUSE * (1u64 << tried.min(10)) / 2;
    doubled.min(MAX_PAUSE)
}
