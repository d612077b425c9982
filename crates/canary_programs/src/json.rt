//! A service, and its open runs, as JSON (RFC 8259). Its texts are names, labels, words and
//! moments, none of which has a byte that JSON escapes. The keys of each object stand in ascending
//! order.
use canary_base::error::Memory;
use canary_base::moments::Moment;
use canary_condition::outcome::Phase;
use canary_metric::metric::Metric;
use canary_metric::tally::Tally;
use canary_metric::verdict::is_completed;
use canary_plan::analysis_parts::Revision;
use canary_release::runs::OpenRun;
use canary_release::service::Service;
use std::alloc::{AllocError, Global};

// Adds the line of a service.
pub(crate) fn add_value(alloc: Global, text: &mut String, service: &Service) -> Result<(), Memory> {
    let name = service.name();
    put(text, format!(in alloc; "{{\"name\":\"{name}\",\"runs\":["))?;
    for (place, run) in service.open_runs().iter().enumerate() {
        add_comma(text, place)?;
        add_run(alloc, text, run)?;
    }
    put(text, front(alloc, service))?;
    put(text, back(alloc, service))
}

// Adds a text, unless there was no memory to make it.
fn put(text: &mut String, made: Result<String, AllocError>) -> Result<(), Memory> {
    text.push_str(made?.as_str())?;
    Ok(())
}

// What a line has after its runs.
fn front(alloc: Global, service: &Service) -> Result<String, AllocError> {
    let (stable, status, step) = (service.stable(), service.status().text(), service.step());
    format!(in alloc; "],\"stable\":\"{stable}\",\"status\":\"{status}\",\"step\":{step}")
}

// The rest of a line, from the number of steps on, with the newline that ends it.
fn back(alloc: Global, service: &Service) -> Result<String, AllocError> {
    let steps = service.strategy().steps().len();
    let (version, weight) = (service.version(), service.weight());
    format!(in alloc; ",\"steps\":{steps},\"version\":\"{version}\",\"weight\":{weight}}}\n")
}

// Adds a comma, unless the place is 0: nothing comes before the first item of a list.
fn add_comma(text: &mut String, place: usize) -> Result<(), Memory> {
    if place > 0 {
        text.push_str(",")?;
    }
    Ok(())
}

// Adds the object of an open run: its metrics, its number, its step and its templates.
fn add_run(alloc: Global, text: &mut String, run: &OpenRun) -> Result<(), Memory> {
    text.push_str("{\"metrics\":[")?;
    let metrics = run.analysis.metrics().iter().zip(run.tallies.as_slice());
    for (place, (metric, tally)) in metrics.enumerate() {
        add_comma(text, place)?;
        add_metric(alloc, text, run, metric, tally)?;
    }
    put(text, number_and_step(alloc, run.number, run.step))?;
    for (place, revision) in run.analysis.revisions().iter().enumerate() {
        add_comma(text, place)?;
        add_template(alloc, text, *revision)?;
    }
    text.push_str("]}")?;
    Ok(())
}

// The step is null in a run of the background.
fn number_and_step(alloc: Global, run: u32, step: Option<u32>) -> Result<String, AllocError> {
    match step {
        Some(step) => format!(in alloc; "],\"run\":{run},\"step\":{step},\"templates\":["),
        None => format!(in alloc; "],\"run\":{run},\"step\":null,\"templates\":["),
    }
}

// Adds the object of a template: its name, and the number of the revision that the run is bound to.
fn add_template(alloc: Global, text: &mut String, revision: Revision) -> Result<(), Memory> {
    let (template, number) = (revision.template, revision.number);
    put(
        text,
        format!(in alloc; "{{\"name\":\"{template}\",\"revision\":{number}}}"),
    )
}

// Adds the object of a metric of an open run: how many are counted, when it is due, and its phase.
fn add_metric(
    alloc: Global,
    text: &mut String,
    run: &OpenRun,
    metric: &Metric,
    tally: &Tally,
) -> Result<(), Memory> {
    let phase = tally.phase(metric, false);
    let counted = tally.counted();
    put(text, format!(in alloc; "{{\"counted\":{counted},\"due\":"))?;
    add_due(text, tally.due(metric, run.started), phase)?;
    let name = metric.name();
    put(
        text,
        format!(in alloc; ",\"name\":\"{name}\",\"passAfter\":"),
    )?;
    put(text, passes(alloc, metric.pass_after(), tally.passes()))?;
    let phase = phase.text();
    put(text, format!(in alloc; "\"phase\":\"{phase}\"}}"))
}

// When the next measurement is due; null if none is wanted.
fn add_due(text: &mut String, due: u64, phase: Phase) -> Result<(), Memory> {
    match Moment::new(due) {
        Some(moment) if !is_completed(phase) => add_moment(text, moment),
        _ => Ok(text.push_str("null")?),
    }
}

// Adds a moment as a text in quotes, as RFC 3339 writes it.
fn add_moment(text: &mut String, moment: Moment) -> Result<(), Memory> {
    text.push_str("\"")?;
    moment.text(text)?;
    text.push_str("\"")?;
    Ok(())
}

// The value of `passAfter`, null for a metric without it, then the member `passes` and a comma.
fn passes(alloc: Global, wanted: Option<u32>, passes: u32) -> Result<String, AllocError> {
    match wanted {
        Some(wanted) => format!(in alloc; "{wanted},\"passes\":{passes},"),
        None => format!(in alloc; "null,\"passes\":{passes},"),
    }
}
