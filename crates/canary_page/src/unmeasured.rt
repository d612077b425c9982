//! Runs that ended without a measurement.
ghost use Rattle.canary_once.specs.BookCalls.{Stays};

use crate::fault::PageFault;
use crate::parts::attempts::{Attempt, last_done};
use crate::reading::{lines_of, passed_of, run_of};
use canary_base::moments::Moment;
use canary_base::names::Name;
use canary_once::book::Book;
use canary_once::record::RunRecord;
use canary_release::effect::Effect;
use canary_release::service::Passed;
use std::alloc::Global;

/// How many runs of a service's last release that is done, as it stands at this moment, ended
/// without a measurement: by the rules each of them is Successful, although nobody looked. 0 if no
/// release is done, or if there is no such service. The book is unchanged.
///
/// # Errors
/// `Memory` if an allocation was refused; `Storage` if the store failed.
pub fn unmeasured_runs<B: Book>(
    alloc: Global,
    book: &mut B,
    name: &Name,
    now: Moment,
) -> Result<u64, PageFault>
    ensures { Stays (B.state book.old) (B.state book.new) }
{
    match passed_of(alloc, book, name, now)? {
        Some(passed) => unmeasured_of_passed(alloc, book, name, &passed),
        None => Ok(0),
    }
}

// The same of a service that was passed to a moment. Without a run its history is not read.
fn unmeasured_of_passed<B: Book>(
    alloc: Global,
    book: &mut B,
    name: &Name,
    passed: &Passed,
) -> Result<u64, PageFault>
    ensures { Stays (B.state book.old) (B.state book.new) }
{
    if passed.service.run_count() == 0 {
        return Ok(0);
    }
    let effects = passed.effects.as_slice();
    let lines = lines_of(book, name, effects)?;
    match last_done(alloc, lines.as_slice())? {
        Some(attempt) => count_unmeasured(alloc, book, name, &attempt, effects),
        None => Ok(0),
    }
}

// How many runs of an attempt ended without a measurement, after these effects.
fn count_unmeasured<B: Book>(
    alloc: Global,
    book: &mut B,
    name: &Name,
    attempt: &Attempt,
    effects: &[Effect],
) -> Result<u64, PageFault>
    ensures { Stays (B.state book.old) (B.state book.new) }
{
    let mut count: u64 = 0;
    for place in 0..attempt.runs {
        let found = run_of(alloc, book, name, attempt.run_at(place), effects)?;
        if matches!(&found, Some(record) if is_unmeasured(record)) {
            count = count.saturating_add(1);
        }
    }
    Ok(count)
}

// Whether a run is closed, and nothing was measured in it.
pub(crate) fn is_unmeasured(record: &RunRecord) -> bool {
    let tallies = record.tallies.as_slice();
    record.closed.is_some() && tallies.iter().all(|tally| tally.measurements() == 0)
}
