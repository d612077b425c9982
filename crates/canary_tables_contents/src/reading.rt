//! The values of rows.
ghost use Rattle.std.specs.Prelude.{◌≡◌, Some};
ghost use Rattle.canary_condition.specs.PhaseTexts.{phase_of_number};
ghost use Rattle.canary_plan.specs.Lines.{line_at};
ghost use Rattle.canary_plan.specs.LineReading.{event_of};
ghost use Rattle.canary_plan.specs.declared.command.Command.TheVariants as command;
ghost use Rattle.canary_canonical.specs.Readings.{canonical_in};
ghost use Rattle.canary_tables_contents.specs.Numbers.{state_of, truth_of, hold_of, status_of};
ghost use Rattle.canary_tables_contents.specs.Values.{receipt_of_row, made_from, stand_of, closing_of};
ghost use Rattle.canary_tables_contents.specs.Values.{measurement_of_row, line_of_row};
ghost use Rattle.canary_tables_contents.specs.Reads.{IsRowRead, IsRowTold, IsRevisionRead};

use crate::fault::RowFault;
use canary_base::lists::Text;
use canary_base::names::Name;
use canary_canonical::command::CanonicalCommand;
use canary_canonical::reading::from_canonical;
use canary_condition::outcome::{Outcome, Phase};
use canary_once::book::Receipt;
use canary_plan::bound::Bound;
use canary_plan::command::Command;
use canary_plan::fault::BindFault;
use canary_plan::line::Line;
use canary_plan::service::ServiceSpec;
use canary_plan::strategy::Strategy;
use canary_plan::template::Template;
use canary_plan::template_spec::TemplateSpec;
use canary_release::effect::{Closing, Recorded};
use canary_release::reply::{Reply, ReplyStatus};
use canary_release::state::{ReleaseState, ServiceState};
use canary_tables_rows::rows::{
    ClosingColumns, HistoryRow, KeptRow, MeasurementRow, RevisionRow, ServiceColumns,
};
use std::alloc::Global;

/// The receipt of a row, whose command's text it keeps.
///
/// # Errors
/// `Broken` if the text is no command's canonical text, or the status is neither 200 nor 422;
/// `Memory`.
pub fn receipt(alloc: Global, row: KeptRow) -> Result<Receipt, RowFault>
    ensures { IsRowRead (receipt_of_row row) result }
{
    let status = status_of(row.status)?;
    let command = CanonicalCommand::read(alloc, row.command)?;
    Ok(Receipt {
        command,
        reply: Reply {
            status,
            body: row.body,
        },
    })
}

// The status of a reply in a row: 200 or 422; any other number is `Broken`.
fn status_of(number: u32) -> Result<ReplyStatus, RowFault>
    ensures { IsRowTold (status_of number) result }
{
    match number {
        200 => Ok(ReplyStatus::Accepted),
        422 => Ok(ReplyStatus::Refused),
        _ => Err(RowFault::Broken),
    }
}

/// The revision of a template in a row.
///
/// # Errors
/// `Broken` if the text is not that of a command that adds a template, or if something refuses the
/// template; `Memory` in place of any.
pub fn revision(alloc: Global, row: &RevisionRow) -> Result<Template, RowFault>
    ensures { IsRevisionRead row.now.revision (canonical_in row.now.spec) result }
{
    match from_canonical(alloc, row.spec.as_str())? {
        Command::Template(spec) => bound(alloc, &spec, row.revision),
        _ => Err(RowFault::Broken),
    }
}

// The template as the revision of that number; `Broken` if something refuses it.
fn bound(alloc: Global, spec: &TemplateSpec, revision: u32) -> Result<Template, RowFault>
    ensures { IsRevisionRead revision (Some (command.Template spec.now)) result }
{
    match Template::bind(alloc, spec, revision) {
        Ok(template) => Ok(template),
        Err(BindFault::Refused(_)) => Err(RowFault::Broken),
        Err(BindFault::Memory) => Err(RowFault::Memory),
    }
}

/// The service that this text makes, as it was asked for.
///
/// # Errors
/// `Broken` if the text is not that of a command that makes a service; `Memory`.
pub fn made(alloc: Global, spec: &str) -> Result<ServiceSpec, RowFault>
    ensures { IsRowRead (made_from (canonical_in spec.now)) result }
{
    match from_canonical(alloc, spec)? {
        Command::Service(spec) => Ok(spec),
        _ => Err(RowFault::Broken),
    }
}

/// How the service of that name and strategy stands, which is bound so.
///
/// # Errors
/// `Broken` if a number is of no state, hold or truth value; `Memory`.
pub fn service(
    name: Name,
    strategy: &Strategy,
    bound: &Bound,
    row: &ServiceColumns,
) -> Result<ServiceState, RowFault>
    ensures { IsRowRead (stand_of name strategy.now bound.now row.now) result }
{
    let state = state_of(row.state)?;
    let (step_hold, background_hold) = hold_of(row.hold)?;
    let background = truth_of(row.background)?;
    Ok(ServiceState {
        name,
        strategy: strategy.copy()?,
        bound: bound.copy()?,
        stable: row.stable,
        version: row.version,
        state,
        step: row.step,
        entered: row.entered,
        step_hold,
        background_hold,
        background,
        last: row.last,
    })
}

// The state of a service in a row, 0 to 2; any other number is `Broken`.
fn state_of(number: u32) -> Result<ReleaseState, RowFault>
    ensures { IsRowTold (state_of number) result }
{
    match number {
        0 => Ok(ReleaseState::InProgress),
        1 => Ok(ReleaseState::Aborted),
        2 => Ok(ReleaseState::Done),
        _ => Err(RowFault::Broken),
    }
}

// The hold of the step, and that of the background.
fn hold_of(number: u32) -> Result<(bool, bool), RowFault>
    ensures { IsRowTold (hold_of number) result }
{
    match number {
        0 => Ok((false, false)),
        1 => Ok((true, false)),
        2 => Ok((false, true)),
        3 => Ok((true, true)),
        _ => Err(RowFault::Broken),
    }
}

// False for 0, and true for 1; any other number is `Broken`.
fn truth_of(number: u32) -> Result<bool, RowFault>
    ensures { IsRowTold (truth_of number) result }
{
    match number {
        0 => Ok(false),
        1 => Ok(true),
        _ => Err(RowFault::Broken),
    }
}

// The phase in a row, 0 to 4; any other number is `Broken`.
fn phase_of(number: u32) -> Result<Phase, RowFault>
    ensures { IsRowTold (phase_of_number number) result }
{
    match number {
        0 => Ok(Phase::Running),
        1 => Ok(Phase::Successful),
        2 => Ok(Phase::Inconclusive),
        3 => Ok(Phase::Error),
        4 => Ok(Phase::Failed),
        _ => Err(RowFault::Broken),
    }
}

/// How the run of that number was closed; none if it is open.
///
/// # Errors
/// `Broken` if a number is of no truth value or phase, or an open run has an outcome.
pub fn closing(number: u32, ending: &ClosingColumns) -> Result<Option<Closing>, RowFault>
    ensures { IsRowTold (closing_of number ending.now) result }
{
    match ending.closed {
        None if ending.outside == 0 && ending.verdict == 0 => Ok(None),
        None => Err(RowFault::Broken),
        Some(at) => Ok(Some(Closing {
            run: number,
            at,
            outside: truth_of(ending.outside)?,
            verdict: phase_of(ending.verdict)?,
        })),
    }
}

/// The measurement of a row.
///
/// # Errors
/// `Broken` if the number is of no phase that is kept, or the text of no outcome; `Memory`.
pub fn measurement(alloc: Global, row: &MeasurementRow) -> Result<Recorded, RowFault>
    ensures { IsRowRead (measurement_of_row row.now) result }
{
    let phase = phase_of(row.phase)?;
    let Some(outcome) = Outcome::read(alloc, row.outcome.as_str())? else {
        return Err(RowFault::Broken);
    };
    Ok(Recorded {
        run: row.run,
        metric: row.metric,
        ordinal: row.ordinal,
        taken: row.taken,
        outcome,
        phase,
    })
}

/// The line of a row.
///
/// # Errors
/// `Broken` if the words are of no event.
pub fn line(row: &HistoryRow) -> Result<Line, RowFault>
    ensures { IsRowTold (line_of_row row.now) result }
{
    match Line::read(row.moment, row.line.as_str()) {
        Some(line) => Ok(line),
        None => Err(RowFault::Broken),
    }
}
