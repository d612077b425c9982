//! What happens to a service, one thing after another, as rows inside a transaction.
ghost use Rattle.std.specs.Prelude.{◌≡◌, ◌≢◌, length, string_bytes, Some, Err};
ghost use Rattle.std.specs.Prelude.{IfOk, IfErr, OnOk};
ghost use Rattle.std.specs.List.{AllByRecursion};
ghost use Rattle.sqlite.specs.Held.{state};
ghost use Rattle.canary_condition.specs.PhaseTexts.{phase_of_number};
ghost use Rattle.canary_plan.specs.Lines.{words};
ghost use Rattle.canary_plan.specs.Plans.{distinct};
ghost use Rattle.canary_release.specs.declared.effect.Effect.TheVariants.{LineAdded, RunOpened, MeasurementRecorded};
ghost use Rattle.canary_tables_rows.specs.Changes.{HasRun, HasTally, with_ending};
ghost use Rattle.canary_tables_schema.specs.Stores.{Writes, Wrote, WroteIf};
ghost use Rattle.canary_tables_contents.specs.Numbers.{phase_column};
ghost use Rattle.canary_tables_contents.specs.Values.{ending_of, measurement_row};
ghost use Rattle.canary_tables_contents.specs.Tables.{IsReadableLine, IsReadableMeasurement};
ghost use Rattle.canary_tables_contents.specs.Settling.{happened, all_happened, Asks, AllAsk};
ghost use Rattle.canary_tables_contents.specs.Settling.{IsReadableEffect};
ghost use Rattle.canary_tables_write.specs.Commits.{run_added};

use crate::bindings::bind_all;
use crate::inserts::{insert_line, insert_measurement, insert_run, insert_tallies};
use crate::updates::{close_run, count_measurement};
use canary_base::error::Memory;
use canary_base::lists::Listed;
use canary_base::names::Name;
use canary_condition::outcome::Phase;
use canary_plan::analysis_parts::{Revision, distinct};
use canary_plan::line::Line;
use canary_release::effect::{Closing, Effect, Opening, Recorded};
use canary_tables_contents::writing::phase_number;
use canary_tables_rows::rows::MeasurementRow;
use canary_tables_schema::fault::{StoreFault, fault_of};
use sqlite::{Alter, Transaction};
use std::alloc::Global;

// The words of a line, as its row has them.
fn words_of(alloc: Global, line: &Line) -> Result<String, StoreFault>
    ensures value { IfOk result (λ text. string_bytes text ≡ words line.now.event) }
    ensures readable { OnOk result (IsReadableLine line.now) }
    ensures unasked { result ≢ Err StoreFault.Storage }
{
    let mut text = String::new(alloc);
    line.words(&mut text)?;
    Ok(text)
}

// A line comes last in the service's history.
fn tell<S: Alter>(
    tx: &mut Transaction<'_, S>,
    alloc: Global,
    service: &Name,
    line: &Line,
) -> Result<(), StoreFault>
    ensures writes { Writes tx.old.conn.ghost_name tx.new.conn.ghost_name
        (state S.Store tx.old.conn.now) (state S.Store tx.new.conn.now) result }
    ensures wrote { Wrote (happened service.now (LineAdded line.now))
        (state S.Store tx.old.conn.now) (state S.Store tx.new.conn.now) result }
    ensures readable { OnOk result (IsReadableLine line.now) }
{
    let words = words_of(alloc, line)?;
    insert_line(tx, service, line.moment, words.as_str()).map_err(fault_of)?;
    Ok(())
}

// How many metrics the run has.
fn metric_count(opening: &Opening) -> u32
    ensures { result ≡ length opening.now.analysis.metrics }
{
    opening.analysis.metrics().len() as u32
}

// A run is there, with a tally of no measurements for each of its metrics.
fn add_run<S: Alter>(
    tx: &mut Transaction<'_, S>,
    service: &Name,
    opening: &Opening,
) -> Result<(), StoreFault>
    ensures writes { Writes tx.old.conn.ghost_name tx.new.conn.ghost_name
        (state S.Store tx.old.conn.now) (state S.Store tx.new.conn.now) result }
    ensures wrote { Wrote (run_added service.now opening.now)
        (state S.Store tx.old.conn.now) (state S.Store tx.new.conn.now) result }
{
    insert_run(tx, service, opening.run, opening.step, opening.started).map_err(fault_of)?;
    insert_tallies(tx, service, opening.run, metric_count(opening)).map_err(fault_of)?;
    Ok(())
}

// The revisions to which the run is bound, one of each template.
fn revisions_of(alloc: Global, opening: &Opening) -> Result<Listed<Revision>, Memory>
    ensures { IfOk result (λ found. found ≡ distinct opening.now.analysis.revisions) }
{
    distinct(alloc, opening.analysis.revisions())
}

// A run is opened, bound to the revisions of its analysis.
fn open_run<S: Alter>(
    tx: &mut Transaction<'_, S>,
    alloc: Global,
    service: &Name,
    opening: &Opening,
) -> Result<(), StoreFault>
    ensures writes { Writes tx.old.conn.ghost_name tx.new.conn.ghost_name
        (state S.Store tx.old.conn.now) (state S.Store tx.new.conn.now) result }
    ensures wrote { Wrote (happened service.now (RunOpened opening.now))
        (state S.Store tx.old.conn.now) (state S.Store tx.new.conn.now) result }
{
    let revisions = revisions_of(alloc, opening)?;
    add_run(tx, service, opening)?;
    bind_all(tx, service, opening.run, revisions.as_slice())?;
    Ok(())
}

// The number of a phase in a row. `Pending`, at which no run is closed, and of which no measurement
// is, has none, and is not stored.
fn number_of(phase: Phase) -> Result<u32, StoreFault>
    ensures number { IfOk result (λ number. number ≡ phase_column phase) }
    ensures read { OnOk result (phase_of_number (phase_column phase) ≡ Some phase) }
    ensures pending { IfErr result (λ fault. (fault ≡ StoreFault.Storage)
        × (phase ≡ Phase.Pending)) }
{
    match phase_number(phase) {
        Some(number) => Ok(number),
        None => Err(StoreFault::Storage),
    }
}

// The row of a measurement. One that is Pending, as none is, is not stored.
fn measurement_row(
    alloc: Global,
    service: &Name,
    recorded: &Recorded,
) -> Result<MeasurementRow, StoreFault>
    ensures value { IfOk result (λ row. row ≡ measurement_row service.now recorded.now) }
    ensures readable { OnOk result (IsReadableMeasurement recorded.now) }
    ensures pending { result ≡ Err StoreFault.Storage → recorded.now.phase ≡ Phase.Pending }
{
    let phase = number_of(recorded.phase)?;
    let outcome = recorded.outcome.text(alloc)?;
    Ok(MeasurementRow {
        service: *service,
        run: recorded.run,
        metric: recorded.metric,
        ordinal: recorded.ordinal,
        taken: recorded.taken,
        phase,
        outcome,
    })
}

// A measurement is recorded, and counted in its tally.
fn measure<S: Alter>(
    tx: &mut Transaction<'_, S>,
    alloc: Global,
    service: &Name,
    recorded: &Recorded,
) -> Result<(), StoreFault>
    ensures writes { Writes tx.old.conn.ghost_name tx.new.conn.ghost_name
        (state S.Store tx.old.conn.now) (state S.Store tx.new.conn.now) result }
    ensures wrote { WroteIf (HasTally service.now recorded.now.run recorded.now.metric)
        (happened service.now (MeasurementRecorded recorded.now))
        (state S.Store tx.old.conn.now) (state S.Store tx.new.conn.now) result }
    ensures readable { OnOk result (IsReadableMeasurement recorded.now) }
{
    let row = measurement_row(alloc, service, recorded)?;
    insert_measurement(tx, &row).map_err(fault_of)?;
    let (run, metric) = (recorded.run, recorded.metric);
    count_measurement(tx, service, run, metric, recorded.phase, recorded.taken).map_err(fault_of)?;
    Ok(())
}

// A run is closed. A verdict that is Pending, which no run is closed at, is not stored.
fn close<S: Alter>(
    tx: &mut Transaction<'_, S>,
    service: &Name,
    closing: &Closing,
) -> Result<(), StoreFault>
    ensures writes { Writes tx.old.conn.ghost_name tx.new.conn.ghost_name
        (state S.Store tx.old.conn.now) (state S.Store tx.new.conn.now) result }
    ensures wrote { WroteIf (HasRun service.now closing.now.run)
        (with_ending service.now closing.now.run (ending_of (Some closing.now)))
        (state S.Store tx.old.conn.now) (state S.Store tx.new.conn.now) result }
    ensures readable { OnOk result
        (phase_of_number (phase_column closing.now.verdict) ≡ Some closing.now.verdict) }
{
    let verdict = number_of(closing.verdict)?;
    let outside = u32::from(closing.outside);
    close_run(tx, service, closing.run, closing.at, outside, verdict).map_err(fault_of)?;
    Ok(())
}

// One thing happens.
fn apply_effect<S: Alter>(
    tx: &mut Transaction<'_, S>,
    alloc: Global,
    service: &Name,
    effect: &Effect,
) -> Result<(), StoreFault>
    ensures writes { Writes tx.old.conn.ghost_name tx.new.conn.ghost_name
        (state S.Store tx.old.conn.now) (state S.Store tx.new.conn.now) result }
    ensures wrote { WroteIf (Asks service.now effect.now) (happened service.now effect.now)
        (state S.Store tx.old.conn.now) (state S.Store tx.new.conn.now) result }
    ensures readable { OnOk result (IsReadableEffect effect.now) }
{
    match effect {
        Effect::LineAdded(line) => tell(tx, alloc, service, line),
        Effect::RunOpened(opening) => open_run(tx, alloc, service, opening),
        Effect::MeasurementRecorded(recorded) => measure(tx, alloc, service, recorded),
        Effect::RunClosed { closing, .. } => close(tx, service, closing),
    }
}

/// All of it happens, in order.
///
/// # Errors
/// `Memory` if an allocation was refused, `Storage` if the store failed.
pub(crate) fn apply_effects<S: Alter>(
    tx: &mut Transaction<'_, S>,
    alloc: Global,
    service: &Name,
    effects: &[Effect],
) -> Result<(), StoreFault>
    ensures writes { Writes tx.old.conn.ghost_name tx.new.conn.ghost_name
        (state S.Store tx.old.conn.now) (state S.Store tx.new.conn.now) result }
    ensures wrote { WroteIf (AllAsk service.now effects.now) (all_happened service.now effects.now)
        (state S.Store tx.old.conn.now) (state S.Store tx.new.conn.now) result }
    ensures readable { OnOk result (AllByRecursion IsReadableEffect effects.now) }
{
    for effect in effects {
        apply_effect(tx, alloc, service, effect)?;
    }
    Ok(())
}
