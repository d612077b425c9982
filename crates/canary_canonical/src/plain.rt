//! Commands whose canonical text has the form in which they are asked for: all but templates and
//! services.
ghost use Rattle.std.specs.Prelude.{◌≡◌};
ghost use Rattle.serde_json.specs.View.{view, items_view};
ghost use Rattle.canary_canonical.specs.Forms.{each, list_of, signed_in};
ghost use Rattle.canary_canonical.specs.Readings.{result_in, failure_in, outcome_in};
ghost use Rattle.canary_canonical.specs.Readings.{entry_of, entry_in, report_with, report_in};
ghost use Rattle.canary_canonical.specs.Readings.{start_in, named_in, plain_of_kind};
ghost use Rattle.canary_canonical.specs.Reads.{IsRead};

use crate::form::{FormFault, is_object_of, label_at, moment_in, name_at, number_at, text_in};
use canary_base::lists::Listed;
use canary_base::moments::Moment;
use canary_base::names::{Label, Name};
use canary_condition::outcome::{FailureText, Outcome, Value as Measured};
use canary_plan::command::Command;
use canary_plan::report::{Entry, Report};
use serde_json::Value;
use std::alloc::Global;

/// The greatest number of a run.
pub const MAX_RUN: u32 = 1_000_000_000;

/// The greatest ordinal of a measurement.
pub const MAX_ORDINAL: u32 = 1_000_000_000;

/// The most entries of a report.
pub const MAX_ENTRIES: usize = 32;

/// The command of that kind, which is the key of a command's only member: Start, Promote,
/// PromoteFull, Abort, Retry, Tick or Report. Its objects have exactly the members that they are
/// written with.
///
/// # Errors
/// `Unreadable` if the value has another form, a part is beyond its limits, or the kind is
/// another; `Memory`.
#[tactic(auto, unfolding(crate::specs::Readings::plain_of_kind))]
pub fn plain_of_kind(alloc: Global, kind: &str, value: &Value) -> Result<Command, FormFault>
    ensures { IsRead (plain_of_kind kind.now (view value.now)) result }
{
    match kind {
        "start" => start_in(value).ok_or(FormFault::Unreadable),
        "promote" => Ok(Command::Promote {
            service: named_in(value)?,
        }),
        "promoteFull" => Ok(Command::PromoteFull {
            service: named_in(value)?,
        }),
        "abort" => Ok(Command::Abort {
            service: named_in(value)?,
        }),
        "retry" => Ok(Command::Retry {
            service: named_in(value)?,
        }),
        "tick" => Ok(Command::Tick {
            service: named_in(value)?,
        }),
        "report" => Ok(Command::Report(report_in(alloc, value)?)),
        _ => Err(FormFault::Unreadable),
    }
}

// The start that it is: an object of a service and a version alone; none for any other value.
#[tactic(auto, unfolding(crate::specs::Readings::start_in))]
fn start_in(value: &Value) -> Option<Command>
    ensures { result ≡ start_in (view value.now) }
{
    if !is_object_of(value, 2) {
        return None;
    }
    let service = name_at(value, "service")?;
    let version = label_at(value, "version")?;
    Some(Command::Start { service, version })
}

// The service that is named, in a command of a service alone.
fn named_in(value: &Value) -> Result<Name, FormFault>
    ensures { IsRead (named_in (view value.now)) result }
{
    if !is_object_of(value, 1) {
        return Err(FormFault::Unreadable);
    }
    name_at(value, "service").ok_or(FormFault::Unreadable)
}

// The report that it is: an object of `service`, `run` and `entries` alone.
#[tactic(auto, unfolding(crate::specs::Readings::report_in))]
fn report_in(alloc: Global, value: &Value) -> Result<Report, FormFault>
    ensures { IsRead (report_in (view value.now)) result }
{
    if !is_object_of(value, 3) {
        return Err(FormFault::Unreadable);
    }
    let service = name_at(value, "service").ok_or(FormFault::Unreadable)?;
    let run = number_at(value, "run", u32::MAX).ok_or(FormFault::Unreadable)?;
    let entries = value.get("entries").ok_or(FormFault::Unreadable)?;
    let entries = entries_of(alloc, entries)?;
    report_with(service, run, entries).ok_or(FormFault::Unreadable)
}

// The report, if its run and the number of its entries keep their limits.
fn report_with(service: Name, run: u32, entries: Listed<Entry>) -> Option<Report>
    ensures { result ≡ report_with service run entries }
{
    let count = entries.as_slice().len();
    let is_within = 1 <= run && run <= MAX_RUN && 1 <= count && count <= MAX_ENTRIES;
    if !is_within {
        return None;
    }
    Some(Report {
        service,
        run,
        entries,
    })
}

// The entries of a report's list; `Unreadable` if the value is no list.
fn entries_of(alloc: Global, value: &Value) -> Result<Listed<Entry>, FormFault>
    ensures { IsRead (list_of entry_in (view value.now)) result }
{
    match value.as_array() {
        Some(list) => entries_in(alloc, list),
        None => Err(FormFault::Unreadable),
    }
}

// The entries that these values are, in order, or the first fault.
#[tactic(auto, using(crate::proofs::Items::read_in_turn))]
fn entries_in(alloc: Global, list: &Vec<Value>) -> Result<Listed<Entry>, FormFault>
    ensures { IsRead (each entry_in (items_view list.now.items)) result }
{
    let mut entries = Vec::new(alloc);
    for item in list {
        let entry = entry_in(alloc, item)?;
        entries.push(entry)?;
    }
    Ok(Listed::of(entries))
}

// The entry that it is: an object of four members, one of which is a result or a failure.
#[tactic(auto, unfolding(crate::specs::Readings::entry_in))]
fn entry_in(alloc: Global, value: &Value) -> Result<Entry, FormFault>
    ensures { IsRead (entry_in (view value.now)) result }
{
    if !is_object_of(value, 4) {
        return Err(FormFault::Unreadable);
    }
    let metric = label_at(value, "metric").ok_or(FormFault::Unreadable)?;
    let ordinal = number_at(value, "ordinal", u32::MAX).ok_or(FormFault::Unreadable)?;
    let taken = value
        .get("taken")
        .and_then(moment_in)
        .ok_or(FormFault::Unreadable)?;
    let outcome = outcome_in(alloc, value)?;
    entry_of(metric, ordinal, taken, outcome).ok_or(FormFault::Unreadable)
}

// The entry, if its ordinal keeps its limits.
fn entry_of(metric: Label, ordinal: u32, taken: Moment, outcome: Outcome) -> Option<Entry>
    ensures { result ≡ entry_of metric ordinal taken outcome }
{
    let is_within = 1 <= ordinal && ordinal <= MAX_ORDINAL;
    if !is_within {
        return None;
    }
    Some(Entry {
        metric,
        ordinal,
        taken,
        outcome,
    })
}

// The outcome in an entry's object, which has either a result or a failure, not both.
fn outcome_in(alloc: Global, value: &Value) -> Result<Outcome, FormFault>
    ensures { IsRead (outcome_in (view value.now)) result }
{
    match (value.get("result"), value.get("failure")) {
        (Some(result), None) => Ok(Outcome::Result(result_in(alloc, result)?)),
        (None, Some(failure)) => Ok(Outcome::Failure(failure_in(alloc, failure)?)),
        _ => Err(FormFault::Unreadable),
    }
}

// The result that it is: a list of 1 to 16 numbers, or a number alone.
fn result_in(alloc: Global, value: &Value) -> Result<Measured, FormFault>
    ensures { IsRead (result_in (view value.now)) result }
{
    match value.as_array() {
        Some(list) => {
            let values = values_in(alloc, list)?;
            Measured::list(values.as_slice()).ok_or(FormFault::Unreadable)
        }
        None => match value.as_i64() {
            Some(number) => Ok(Measured::Whole(number)),
            None => Err(FormFault::Unreadable),
        },
    }
}

// The numbers of a list result, in order; `result_in` checks how many there are.
#[tactic(auto, using(crate::proofs::Items::read_in_turn))]
fn values_in(alloc: Global, list: &Vec<Value>) -> Result<Listed<i64>, FormFault>
    ensures { IsRead (each signed_in (items_view list.now.items)) result }
{
    let mut values = Vec::new(alloc);
    for item in list {
        let value = signed_in(item)?;
        values.push(value)?;
    }
    Ok(Listed::of(values))
}

// The number that it is, of 64 bits with a sign, without a point or an exponent.
fn signed_in(value: &Value) -> Result<i64, FormFault>
    ensures { IsRead (signed_in (view value.now)) result }
{
    value.as_i64().ok_or(FormFault::Unreadable)
}

// The text of a failure that it is; `Unreadable` outside 1 to 200 bytes.
fn failure_in(alloc: Global, value: &Value) -> Result<FailureText, FormFault>
    ensures { IsRead (failure_in (view value.now)) result }
{
    let text = text_in(alloc, value)?;
    FailureText::of(text).ok_or(FormFault::Unreadable)
}
