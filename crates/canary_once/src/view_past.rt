//! What a book reports of a run, as the effects of time that passed leave it.
ghost use Rattle.std.specs.Prelude.{◌≡◌, [], IfOk, option_map, replicate};
ghost use Rattle.canary_metric.specs.Counts.{counts};
ghost use Rattle.canary_once.specs.Showing.{opened_record, closed_record, opened_of};
ghost use Rattle.canary_once.specs.Showing.{record_then, record_after};

use crate::record::RunRecord;
use canary_base::error::Memory;
use canary_metric::tally::Tally;
use canary_release::effect::{Closing, Effect, Opening};
use canary_release::runs::new_tallies;
use std::alloc::Global;

/// The run of that number after these effects, none of which is a measurement: it may be opened, or
/// closed, and its tallies stay.
pub(crate) fn record_after(
    alloc: Global,
    number: u32,
    found: Option<RunRecord>,
    effects: &[Effect],
) -> Result<Option<RunRecord>, Memory>
    ensures { IfOk result (λ run. run ≡ record_after number found effects.now) }
{
    let mut record = found;
    for effect in effects {
        record = record_then(alloc, number, record, effect)?;
    }
    Ok(record)
}

// The run of that number, if there is one, after an effect, which may open or close it.
fn record_then(
    alloc: Global,
    number: u32,
    found: Option<RunRecord>,
    effect: &Effect,
) -> Result<Option<RunRecord>, Memory>
    ensures { IfOk result (λ run. run ≡ record_then number found effect.now) }
{
    match effect {
        Effect::LineAdded(_) => Ok(found),
        Effect::RunOpened(opening) => opened_of(alloc, number, opening, found),
        Effect::MeasurementRecorded(_) => Ok(found),
        Effect::RunClosed { closing, .. } => Ok(closed(closing, found)),
    }
}

// The run of that number, if it was found, else the one that is opened if it has that number.
fn opened_of(
    alloc: Global,
    number: u32,
    opening: &Opening,
    found: Option<RunRecord>,
) -> Result<Option<RunRecord>, Memory>
    ensures { IfOk result (λ run. run ≡ opened_of number opening.now found) }
{
    match found {
        Some(run) => Ok(Some(run)),
        None => {
            if opening.run == number {
                Ok(Some(opened_record(alloc, opening)?))
            } else {
                Ok(None)
            }
        }
    }
}

// The record of a run that was just opened: not closed, and no metric of it measured.
fn opened_record(alloc: Global, opening: &Opening) -> Result<RunRecord, Memory>
    ensures { IfOk result (λ run. run ≡ opened_record opening.now) }
{
    Ok(RunRecord {
        number: opening.run,
        step: opening.step,
        analysis: opening.analysis.copy()?,
        started: opening.started,
        closed: None,
        tallies: new_tallies(alloc, opening.analysis.metrics().len() as u32)?,
    })
}

// The run that was found, if there is one, after `closing`, which may be of another run.
fn closed(closing: &Closing, found: Option<RunRecord>) -> Option<RunRecord>
    ensures { result ≡ option_map (closed_record closing.now) found }
{
    match found {
        Some(run) => Some(closed_record(closing, run)),
        None => None,
    }
}

// The run with `closing` in it if that has its number; another run stays as it is.
fn closed_record(closing: &Closing, run: RunRecord) -> RunRecord
    ensures { result ≡ closed_record closing.now run }
{
    if run.number != closing.run {
        return run;
    }
    let RunRecord {
        number,
        step,
        analysis,
        started,
        closed: _,
        tallies,
    } = run;
    RunRecord {
        number,
        step,
        analysis,
        started,
        closed: Some(*closing),
        tallies,
    }
}
