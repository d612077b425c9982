//! Reports of what was taken, over any network and any device.
ghost use Rattle.std.specs.Prelude.{◌≡◌, ◌<◌, ◌≤◌, length, IfOk, IfSome, OnOk};
ghost use Rattle.canary_plan.specs.declared.command.Command.TheVariants.{Abort};
ghost use Rattle.canary_client_journal.specs.Keeping.{IsKept};
ghost use Rattle.canary_client_journal.specs.Networks.{GoesOn};
ghost use Rattle.canary_agent.specs.Reports.{wish_of, IsOutcomeFor, IsEntryOf};
ghost use Rattle.canary_agent.specs.Reports.{IsWithEntry, AreEntriesOf};
ghost use Rattle.canary_agent.specs.Reports.{IsReportOf, IsCommandSettled, IsSentFor};
ghost use Rattle.canary_agent.specs.Reports.{IsReported, IsSentForReport};

use crate::plan::Served;
use crate::taken::{Came, Taken};
use canary_base::error::Memory;
use canary_base::lists::Listed;
use canary_base::names::{Label, Name};
use canary_base::numbers::Number;
use canary_canonical::plain::MAX_ENTRIES;
use canary_canonical::writing;
use canary_client::journals::asked;
use canary_client::outcome::Stop;
use canary_client_journal::entry::Wish;
use canary_client_journal::kept::KeptJournal;
use canary_client_journal::network::Network;
use canary_client_records::device::Device;
use canary_condition::outcome::Outcome;
use canary_measure::reported;
use canary_plan::command::Command;
use canary_plan::report::{Entry, Report};
use std::alloc::Global;

/// Reports what was taken of a run of a service, while nothing is pending: the report stands on the
/// device before it is sent, and so does its reply before the call returns. What the plan does not
/// have is not reported.
///
/// # Errors
/// `NoMetric` if the plan has none of it, and then nothing is sent; what `journals::asked` answers.
pub fn report<N: Network, D: Device>(
    alloc: Global,
    network: &mut N,
    kept: &mut KeptJournal<D>,
    served: &Served,
    run: Number,
    taken: &[Taken],
    tries: u32,
) -> Result<(), Stop>
    requires { IsKept D.seen D.may_leave kept.old }
    ensures kept { OnOk result (IsKept D.seen D.may_leave kept.new) }
    ensures settled { OnOk result (IsReported (N.was_told network.new)
        kept.old.journal served.now run taken.now kept.new.journal) }
    ensures sends { GoesOn N.was_sent N.was_told N.was_unanswered network.old network.new
        (IsSentForReport (N.was_told network.new) kept.old.journal served.now run taken.now) }
{
    let Some(report) = report_of(alloc, served, run, taken)? else {
        return Err(Stop::NoMetric);
    };
    command(alloc, network, kept, &Command::Report(report), tries)
}

/// Aborts a service, while nothing is pending, as `report` reports.
///
/// # Errors
/// What `journals::asked` answers.
pub fn abort<N: Network, D: Device>(
    alloc: Global,
    network: &mut N,
    kept: &mut KeptJournal<D>,
    service: Name,
    tries: u32,
) -> Result<(), Stop>
    requires { IsKept D.seen D.may_leave kept.old }
    ensures kept { OnOk result (IsKept D.seen D.may_leave kept.new) }
    ensures settled { OnOk result (IsCommandSettled (N.was_told network.new)
        kept.old.journal (Abort service) kept.new.journal) }
    ensures sends { GoesOn N.was_sent N.was_told N.was_unanswered network.old network.new
        (IsSentFor (N.was_told network.new) kept.old.journal (Abort service)) }
{
    command(alloc, network, kept, &Command::Abort { service }, tries)
}

// Asks a command, while nothing is pending.
fn command<N: Network, D: Device>(
    alloc: Global,
    network: &mut N,
    kept: &mut KeptJournal<D>,
    command: &Command,
    tries: u32,
) -> Result<(), Stop>
    requires { IsKept D.seen D.may_leave kept.old }
    ensures kept { OnOk result (IsKept D.seen D.may_leave kept.new) }
    ensures settled { OnOk result (IsCommandSettled (N.was_told network.new)
        kept.old.journal command.now kept.new.journal) }
    ensures sends { GoesOn N.was_sent N.was_told N.was_unanswered network.old network.new
        (IsSentFor (N.was_told network.new) kept.old.journal command.now) }
{
    let wish = wish_of(alloc, command)?;
    asked(alloc, network, kept, wish, tries)
}

// The wish of a command.
fn wish_of(alloc: Global, command: &Command) -> Result<Wish, Memory>
    ensures { IfOk result (λ wish. wish ≡ wish_of command.now) }
{
    let intent = writing::text(alloc, command)?;
    let body = intent.copy(alloc)?;
    Ok(Wish {
        intent,
        key: None,
        body,
    })
}

/// The report of what was taken of a run of a service: of the first 32 measurements of which the
/// plan has the metric. None if it has none.
///
/// # Errors
/// `Memory` if an allocation was refused.
pub fn report_of(
    alloc: Global,
    served: &Served,
    run: Number,
    taken: &[Taken],
) -> Result<Option<Report>, Memory>
    ensures { IfOk result (λ made. IfSome made (IsReportOf served.now run taken.now)) }
{
    let entries = entries_of(alloc, served, taken)?;
    if entries.as_slice().is_empty() {
        return Ok(None);
    }
    Ok(Some(Report {
        service: served.name,
        run: run.get(),
        entries,
    }))
}

// The entries of the first 32 of these of which the plan has the metric.
#[tactic(auto, using(crate::proofs::EntryLemmas::in_turn))]
fn entries_of(alloc: Global, served: &Served, taken: &[Taken]) -> Result<Listed<Entry>, Memory>
    ensures entries { IfOk result (AreEntriesOf served.now taken.now) }
    ensures few { IfOk result (λ entries. length entries ≤ 32) }
{
    let mut entries = Listed::of(Vec::new(alloc));
    for place in 0..taken.len() {
        if entries.as_slice().len() == MAX_ENTRIES {
            return Ok(entries);
        }
        entries = with_entry(alloc, served, &taken[place], entries)?;
    }
    Ok(entries)
}

// These entries, with that of a measurement, if the plan has its metric.
fn with_entry(
    alloc: Global,
    served: &Served,
    taken: &Taken,
    entries: Listed<Entry>,
) -> Result<Listed<Entry>, Memory>
    requires { length entries < 32 }
    ensures entries { IfOk result (IsWithEntry served.now taken.now entries) }
    ensures few { IfOk result (λ entries. length entries ≤ 32) }
{
    let Some(entry) = entry_of(alloc, served, taken)? else {
        return Ok(entries);
    };
    let mut entries = entries;
    entries.push(entry)?;
    Ok(entries)
}

// The entry of a measurement, if the plan has its metric.
fn entry_of(alloc: Global, served: &Served, taken: &Taken) -> Result<Option<Entry>, Memory>
    ensures { IfOk result (λ made. IfSome made (IsEntryOf served.now taken.now)) }
{
    if !served.has(&taken.metric) {
        return Ok(None);
    }
    Ok(Some(Entry {
        metric: taken.metric,
        ordinal: taken.ordinal.get(),
        taken: taken.moment,
        outcome: outcome_for(alloc, &taken.metric, &taken.came)?,
    }))
}

/// What is reported under a label of what came.
///
/// # Errors
/// `Memory` if an allocation was refused.
pub fn outcome_for(alloc: Global, metric: &Label, came: &Came) -> Result<Outcome, Memory>
    ensures { IfOk result (IsOutcomeFor metric.now came.now) }
{
    match came {
        Came::Measured(measured) => reported::outcome_of(alloc, metric.as_str(), measured),
        Came::Failed(text) => Ok(Outcome::Failure(text.copy(alloc)?)),
    }
}
