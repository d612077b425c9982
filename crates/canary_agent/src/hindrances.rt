//! Why this machine asks no provider, and when that is said.
use canary_base::error::Memory;
use canary_fetch::local::LocalFault;
use std::alloc::Global;
use std::mem;

// How long it is before the same is said again, in milliseconds.
const AGAIN: u64 = 60_000;

// A fault that was said.
#[derive(Clone, Copy)]
struct HindranceNotice {
    fault: LocalFault,
    // When it may be said again, in milliseconds of the call.
    again_at: u64,
}

/// The faults of this machine that were said.
#[derive(Drop)]
pub(crate) struct Hindrances {
    told: Vec<HindranceNotice>,
}

impl Hindrances {
    /// None.
    pub(crate) fn new(alloc: Global) -> Hindrances {
        Hindrances {
            told: Vec::new(alloc),
        }
    }

    /// Whether a fault is to be said now: once a minute at most; or `Memory`.
    pub(crate) fn is_to_say(
        &mut self,
        alloc: Global,
        fault: LocalFault,
        now: u64,
    ) -> Result<bool, Memory> {
        let told = mem::replace(&mut self.told, Vec::new(alloc));
        let mut is_told = false;
        for one in told {
            if one.again_at > now {
                is_told = is_told || one.fault == fault;
                self.told.push(one)?;
            }
        }
        if !is_told {
            let again_at = now.saturating_add(AGAIN);
            self.told.push(HindranceNotice { fault, again_at })?;
        }
        Ok(!is_told)
    }
}
