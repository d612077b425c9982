//! When a service is looked at again.
use crate::look::Looked;
use canary_client::outcome::Stop;

// The milliseconds until a service is looked at again: if none of its runs is open, or it is not
// there; and at most otherwise.
const IDLE: u64 = 1_000;

const ABSENT: u64 = 5_000;

const MOST: u64 = 5_000;

// The longest pause before one is looked at again that could not be.
const MAX_PAUSE: u64 = 30_000;

/// When one is looked at that is not looked at any more.
pub(crate) const NEVER: u64 = u64::MAX;

/// Whether nobody answered.
pub(crate) fn is_away(stop: Stop) -> bool {
    match stop {
        Stop::NoDesk | Stop::NotBegun | Stop::Unanswered => true,
        _ => false,
    }
}

/// Whether the journal could not be written.
pub(crate) fn is_of_writing(stop: Stop) -> bool {
    match stop {
        Stop::Journal | Stop::JournalFull => true,
        _ => false,
    }
}

/// The pause after this one, before a service is looked at again that could not be.
pub(crate) fn pause_after(stop: Stop, pause: u64) -> u64 {
    if stop == Stop::NoService {
        return ABSENT;
    }
    pause.saturating_mul(2).max(IDLE).min(MAX_PAUSE)
}

/// When a service is looked at again of which a report was settled: at once, or after a second if
/// the desk refused it.
pub(crate) fn look_after(is_refused: bool, now: u64) -> u64 {
    if is_refused {
        now.saturating_add(IDLE)
    } else {
        now
    }
}

/// When a service is looked at again of which this machine could not measure something: after a
/// second, since what is missing may be missing at each try.
pub(crate) fn look_again(now: u64) -> u64 {
    now.saturating_add(IDLE)
}

/// When a service is looked at again that was found so.
pub(crate) fn look_at(looked: &Looked, now: u64, is_once: bool) -> u64 {
    if is_once {
        return NEVER;
    }
    if !looked.is_open {
        return now.saturating_add(IDLE);
    }
    let left = match looked.next {
        Some(next) => next
            .saturating_sub(looked.moment.get())
            .saturating_mul(1_000),
        None => MOST,
    };
    now.saturating_add(left.min(MOST))
}
