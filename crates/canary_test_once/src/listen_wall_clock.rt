//! The machine's clock, if it falls, is beyond the limits, or cannot be read.
use crate::rows::{check, cut};
use canary_listen::wall_clock::WallClock;
use canary_once::clock::Clock;
use std::cell::Cell;
use std::io::{self, ErrorKind};
use std::time::{self, Duration};

// A machine whose clock reads so many seconds, or fails.
#[derive(Drop)]
struct Machine {
    seconds: Cell<Option<u64>>,
}

impl time::Clock for Machine {
    fn monotonic(&self) -> io::Result<Duration> {
        self.since_1970()
    }

    fn since_1970(&self) -> io::Result<Duration> {
        match self.seconds.get() {
            Some(seconds) => Ok(Duration::from_secs(seconds)),
            None => Err(ErrorKind::Unsupported.into()),
        }
    }
}

// What the machine's clock reads, `-` if it fails, and the moment that is given then.
const MOMENTS: &str = "\
    - 0
1767225600 1767225600
1767225599 1767225599
- 1767225599
1767225601 1767225601
18446744073709551615 1767225601
253370764800 253370764799
5 5";

#[test]
fn tells_the_machines_moment(rt: HostRuntime) {
    let machine = Machine {
        seconds: Cell::new(None),
    };
    let mut clock = WallClock::new(&machine);
    for row in MOMENTS.lines() {
        let (read, told) = cut(row, ' ');
        machine.seconds.set(read.parse::<u64>().ok());
        check(
            &rt,
            Some(clock.now().get()) == told.parse::<u64>().ok(),
            row,
        );
    }
}
