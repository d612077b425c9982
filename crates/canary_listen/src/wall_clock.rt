//! The machine's clock.
ghost use Rattle.std.specs.Prelude.{◌≡◌};
ghost use Rattle.canary_listen.specs.Moments.{next_moment};

use canary_base::moments::{MAX_MOMENT, Moment};
use canary_once::clock::Clock;
use std::time::{self, SystemTime};

/// The machine's clock, in whole seconds of UTC, held within the limits of a moment. It goes back
/// as the machine's does. If that cannot be read, it reports the last moment again, at first 0.
#[derive(Drop)]
pub struct WallClock<'a, R> {
    machine: &'a R,
    last: Moment,
}

impl<'a, R: time::Clock> WallClock<'a, R> {
    /// The clock of this machine, which reported nothing yet.
    pub fn new(machine: &'a R) -> WallClock<'a, R>
        ensures { result.last ≡ 0 }
    {
        WallClock {
            machine,
            last: Moment::new(0).unwrap(),
        }
    }

    /// The moment that it reported last, at first 0.
    pub fn last(&self) -> Moment
        ensures { result ≡ self.now.last }
    {
        self.last
    }

    /// The present moment.
    pub fn tell(&mut self) -> Moment
        ensures { self.new.last ≡ result }
    {
        self.last = next_moment(self.last, read_seconds(self.machine));
        self.last
    }
}

impl<R: time::Clock> Clock for WallClock<'_, R> {
    // Nothing is known of the moments that are to come.
    ghost tells = { λ _ _. ⊥ };

    // The present moment, or the last one again if the machine's clock cannot be read.
    fn now(&mut self) -> Moment {
        self.tell()
    }
}

// The seconds since 1970-01-01T00:00:00Z, if the machine's clock can be read.
fn read_seconds<R: time::Clock>(machine: &R) -> Option<u64> {
    let now = SystemTime::now(machine).ok()?;
    let since = now.duration_since(SystemTime::UNIX_EPOCH).ok()?;
    Some(since.as_secs())
}

// The moment that is reported after `last` if the machine's clock reads so many seconds, or none.
fn next_moment(last: Moment, read: Option<u64>) -> Moment
    ensures { result ≡ next_moment last read }
{
    match read {
        Some(seconds) => Moment::new(seconds.min(MAX_MOMENT)).unwrap(),
        None => last,
    }
}
