//! What is said and shown of a service.
use crate::journal::OpenJournal;
use crate::lines::{show_ask, show_settled, show_wished};
use crate::look::{Due, Looked};
use crate::options::AgentOptions;
use crate::plan::{MetricSource, Served};
use crate::reporting::report_of;
use crate::taken::Taken;
use canary_base::error::Memory;
use canary_base::names::Name;
use canary_base::numbers::Number;
use canary_canonical::writing;
use canary_client::outcome::{Stop, say};
use canary_plan::command::Command;
use std::alloc::Global;
use std::io::Write;

/// Says that a measurement is late; or `Memory`.
pub(crate) fn say_late<F: Write>(
    alloc: Global,
    service: Name,
    due: &Due,
    late: u64,
    errors: &mut F,
) -> Result<(), Memory> {
    let (run, metric, ordinal) = (due.run, due.metric, due.ordinal);
    let line = format!(in alloc;
        "{service} run {run} {metric}: measurement {ordinal} is late by {late} s"
    )?;
    say(errors, line.as_str());
    Ok(())
}

/// Shows what was settled last.
///
/// # Errors
/// `Output` if the output failed; `Memory`.
pub(crate) fn show_last<W: Write>(
    alloc: Global,
    journal: &OpenJournal,
    manner: &AgentOptions<'_>,
    output: &mut W,
) -> Result<(), Stop> {
    match journal.last() {
        Some(kept) => show_settled(alloc, kept, output, manner.is_terminal),
        None => Ok(()),
    }
}

/// Shows what would be asked for a measurement.
///
/// # Errors
/// `Output` if the output failed; `Memory`.
pub(crate) fn show_asked<W: Write>(
    alloc: Global,
    served: &Served,
    looked: &Looked,
    due: &Due,
    manner: &AgentOptions<'_>,
    output: &mut W,
) -> Result<(), Stop> {
    let Some(metric) = served.metric(&due.metric) else {
        return Ok(());
    };
    let MetricSource::Provider(query) = &metric.source else {
        return Ok(());
    };
    match query.provider(alloc, looked.latest.as_str(), looked.stable.as_str())? {
        Ok(provider) => show_ask(
            alloc,
            served.name,
            due,
            &provider,
            output,
            manner.is_terminal,
        ),
        Err(_) => Ok(()),
    }
}

/// Shows what would be reported of a run.
///
/// # Errors
/// `Output` if the output failed; `Memory`.
pub(crate) fn show_wish<W: Write>(
    alloc: Global,
    served: &Served,
    run: Number,
    taken: &[Taken],
    manner: &AgentOptions<'_>,
    output: &mut W,
) -> Result<(), Stop> {
    let Some(report) = report_of(alloc, served, run, taken)? else {
        return Ok(());
    };
    let body = writing::text(alloc, &Command::Report(report))?;
    show_wished(alloc, body.as_str(), output, manner.is_terminal)
}
