//! Measurements that are late.
ghost use Rattle.std.specs.Prelude.{◌≡◌, ◌<◌, ◌-◌, IsTrue, MatchOption};

use crate::look::Due;
use canary_base::error::Memory;
use canary_base::names::Label;
use canary_base::numbers::Number;
use std::alloc::Global;
use std::mem;

// Of a metric without an interval, a measurement is late after so many seconds.
const PATIENCE: u64 = 60;

// How long it is before the same is said again, in milliseconds.
const AGAIN: u64 = 60_000;

// How long the looks have found a measurement to be due before it may end its release, in
// milliseconds: longer than the agent takes to measure and report it.
const GRACE: u64 = 60_000;

// A late measurement that was said.
#[derive(Clone, Copy)]
struct LateNotice {
    run: Number,
    metric: Label,
    // When it may be said again, in milliseconds of the call.
    again_at: u64,
}

/// What was said of late measurements of a service.
#[derive(Drop)]
pub(crate) struct Lateness {
    told: Vec<LateNotice>,
}

impl Lateness {
    /// Nothing.
    pub(crate) fn new(alloc: Global) -> Lateness {
        Lateness {
            told: Vec::new(alloc),
        }
    }

    /// Whether a measurement that is late is to be said now: once a minute at most; or `Memory`.
    pub(crate) fn is_to_say(&mut self, alloc: Global, due: &Due, now: u64) -> Result<bool, Memory> {
        let told = mem::replace(&mut self.told, Vec::new(alloc));
        let mut is_told = false;
        for one in told {
            if one.again_at > now {
                is_told = is_told || (one.run == due.run && one.metric == due.metric);
                self.told.push(one)?;
            }
        }
        if !is_told {
            self.told.push(LateNotice {
                run: due.run,
                metric: due.metric,
                again_at: now.saturating_add(AGAIN),
            })?;
        }
        Ok(!is_told)
    }
}

// A measurement that looks found to be due.
#[derive(Clone, Copy)]
struct Sighting {
    run: Number,
    metric: Label,
    ordinal: Number,
    // When the first of these looks was, in milliseconds of the call.
    at: u64,
}

impl Sighting {
    // Whether it is of this measurement: of its run, metric and ordinal.
    fn is_of(&self, due: &Due) -> bool {
        self.run == due.run && self.metric == due.metric && self.ordinal == due.ordinal
    }
}

/// The measurements of a service that the last looks found to be due, and since when they do.
#[derive(Drop)]
pub(crate) struct Sightings {
    list: Vec<Sighting>,
}

impl Sightings {
    /// None.
    pub(crate) fn new(alloc: Global) -> Sightings {
        Sightings {
            list: Vec::new(alloc),
        }
    }

    /// Takes in what a look found, and forgets what it did not find; or `Memory`.
    pub(crate) fn take(&mut self, alloc: Global, due: &[Due], now: u64) -> Result<(), Memory> {
        let mut list = Vec::new(alloc);
        for due in due {
            list.push(self.sighting_of(due, now))?;
        }
        self.list = list;
        Ok(())
    }

    /// Forgets all of them.
    pub(crate) fn clear(&mut self) {
        self.list.clear();
    }

    /// Whether the looks have found a measurement to be due for a minute.
    pub(crate) fn are_long(&self, due: &Due, now: u64) -> bool {
        let at = self.sighting_of(due, now).at;
        now.saturating_sub(at) >= GRACE
    }

    // When a measurement that is due now was found so first.
    fn sighting_of(&self, due: &Due, now: u64) -> Sighting {
        for known in &self.list {
            if known.is_of(due) {
                return *known;
            }
        }
        Sighting {
            run: due.run,
            metric: due.metric,
            ordinal: due.ordinal,
            at: now,
        }
    }
}

/// By how many seconds a measurement is late at this moment.
pub(crate) fn seconds_late(due: &Due, moment: u64) -> u64
    ensures { result ≡ moment - due.now.since }
{
    moment.saturating_sub(due.since)
}

/// Whether a measurement that is late by so much is late by more than its interval.
pub(crate) fn is_late(late: u64, interval: Option<u32>) -> bool {
    match interval {
        Some(interval) => late > u64::from(interval),
        None => late > PATIENCE,
    }
}

/// Whether one that is late by so much is so late that it may end its release: later than is given.
pub(crate) fn is_too_late(late: u64, most: Option<u64>) -> bool
    ensures { IsTrue result → MatchOption most ⊥ (λ most. most < late) }
{
    match most {
        Some(most) => late > most,
        None => false,
    }
}
