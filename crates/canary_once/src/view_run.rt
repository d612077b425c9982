//! The text of a run.
ghost use Rattle.std.specs.Prelude.{◌≡◌, IfOk, map, string_bytes};
ghost use Rattle.std.specs.List.{zip};
ghost use Rattle.canary_release.specs.Replies.{bracketed};
ghost use Rattle.canary_once.specs.Views.{null_or, bool_text, due_text, metric_front};
ghost use Rattle.canary_once.specs.Views.{metric_middle, metric_back, metric_view, closed_at};
ghost use Rattle.canary_once.specs.Views.{verdict_in, run_front, run_middle, run_back, run_view};

use crate::record::RunRecord;
use crate::view_text::{joined, with_item};
use canary_base::error::Memory;
use canary_condition::outcome::Phase;
use canary_metric::metric::Metric;
use canary_metric::tally::Tally;
use canary_metric::verdict::is_completed;
use canary_release::service::Service;
use std::alloc::Global;

/// The text that shows a run of a service.
pub(crate) fn run_text(alloc: Global, service: &Service, run: &RunRecord) -> Result<String, Memory>
    ensures { IfOk result (λ text. string_bytes text
        ≡ run_view service.now.service.name run.now.analysis.metrics run.now) }
{
    let front = run_front(alloc, run)?;
    let middle = run_middle(alloc, service, run)?;
    let back = run_back(alloc, run)?;
    joined(front, middle.as_str(), back.as_str())
}

// When it was closed, and its metrics.
fn run_front(alloc: Global, run: &RunRecord) -> Result<String, Memory>
    ensures { IfOk result (λ text. string_bytes text
        ≡ run_front run.now.analysis.metrics run.now) }
{
    let closed = null_or(alloc, closed_at(run))?;
    let metrics = metrics_text(alloc, run, run.analysis.metrics())?;
    Ok(format!(in alloc; "{{\"closed\":{closed},\"code\":\"ok\",\"metrics\":{metrics}")?)
}

// The second, from the start of 1970, at which the run was closed; none while it is open.
fn closed_at(run: &RunRecord) -> Option<u64>
    ensures { result ≡ closed_at run.now.closed }
{
    match run.closed {
        Some(closing) => Some(closing.at.get()),
        None => None,
    }
}

// Its number, the service and when it was started.
fn run_middle(alloc: Global, service: &Service, run: &RunRecord) -> Result<String, Memory>
    ensures { IfOk result (λ text. string_bytes text
        ≡ run_middle service.now.service.name run.now) }
{
    let number = run.number;
    let name = service.name();
    let started = run.started.get();
    Ok(format!(in alloc; ",\"run\":{number},\"service\":\"{name}\",\"started\":{started}")?)
}

// Its step and its verdict.
fn run_back(alloc: Global, run: &RunRecord) -> Result<String, Memory>
    ensures { IfOk result (λ text. string_bytes text ≡ run_back run.now) }
{
    let step = null_or(alloc, step_of(run))?;
    let verdict = verdict_in(run).text();
    Ok(format!(in alloc; ",\"step\":{step},\"verdict\":\"{verdict}\"}}")?)
}

// The step of the run, from 0; none for the background run.
fn step_of(run: &RunRecord) -> Option<u64>
    ensures { result ≡ run.now.step }
{
    match run.step {
        Some(step) => Some(u64::from(step)),
        None => None,
    }
}

// The verdict at which the run was closed, or `Running` while it is open.
fn verdict_in(run: &RunRecord) -> Phase
    ensures { result ≡ verdict_in run.now.closed }
{
    match run.closed {
        Some(closing) => closing.verdict,
        None => Phase::Running,
    }
}

// A number, or null.
fn null_or(alloc: Global, number: Option<u64>) -> Result<String, Memory>
    ensures { IfOk result (λ text. string_bytes text ≡ null_or number) }
{
    match number {
        Some(number) => Ok(format!(in alloc; "{number}")?),
        None => Ok(String::from_str(alloc, "null")?),
    }
}

// The metrics of a run, in square brackets.
fn metrics_text(alloc: Global, run: &RunRecord, metrics: &[Metric]) -> Result<String, Memory>
    ensures { IfOk result (λ text. string_bytes text
        ≡ bracketed (map (metric_view run.now) (zip metrics.now run.now.tallies))) }
{
    let tallies = run.tallies.as_slice();
    let count = metrics.len().min(tallies.len());
    let mut text = String::from_str(alloc, "[")?;
    for i in 0..count {
        let item = metric_text(alloc, run, &metrics[i], &tallies[i])?;
        text = with_item(text, i > 0, item.as_str())?;
    }
    text.push_str("]")?;
    Ok(text)
}

// The text of one metric of a run: an object in JSON, joined from three parts.
fn metric_text(
    alloc: Global,
    run: &RunRecord,
    metric: &Metric,
    tally: &Tally,
) -> Result<String, Memory>
    ensures { IfOk result (λ text. string_bytes text
        ≡ metric_view run.now (metric.now, tally.now)) }
{
    let front = metric_front(alloc, run, metric, tally)?;
    let middle = metric_middle(alloc, tally)?;
    let back = metric_back(alloc, run, metric, tally)?;
    joined(front, middle.as_str(), back.as_str())
}

// What was counted, whether it is a dry run, and when it is due.
fn metric_front(
    alloc: Global,
    run: &RunRecord,
    metric: &Metric,
    tally: &Tally,
) -> Result<String, Memory>
    ensures { IfOk result (λ text. string_bytes text
        ≡ metric_front run.now metric.now tally.now) }
{
    let consecutive = tally.consecutive();
    let counted = tally.counted();
    let dry_run = bool_text(metric.dry_run());
    let due = due_text(alloc, run, metric, tally)?;
    Ok(format!(in alloc;
        "{{\"consecutive\":{consecutive},\"counted\":{counted},\"dryRun\":{dry_run},\"due\":{due}"
    )?)
}

// The truth value as JSON writes it.
fn bool_text(value: bool) -> &'static str
    ensures { result.now ≡ bool_text value }
{
    if value { "true" } else { "false" }
}

// When the metric is due next; null if it is completed or the run is closed.
fn due_text(
    alloc: Global,
    run: &RunRecord,
    metric: &Metric,
    tally: &Tally,
) -> Result<String, Memory>
    ensures { IfOk result (λ text. string_bytes text
        ≡ due_text run.now metric.now tally.now) }
{
    if is_completed(tally.phase(metric, false)) || run.closed.is_some() {
        null_or(alloc, None)
    } else {
        null_or(alloc, Some(tally.due(metric, run.started)))
    }
}

// The numbers of errors, of failed and inconclusive measurements, and of all.
fn metric_middle(alloc: Global, tally: &Tally) -> Result<String, Memory>
    ensures { IfOk result (λ text. string_bytes text ≡ metric_middle tally.now) }
{
    let errors = tally.errors();
    let failed = tally.failed();
    let inconclusive = tally.inconclusive();
    let measurements = tally.measurements();
    Ok(format!(in alloc;
        ",\"errors\":{errors},\"failed\":{failed},\"inconclusive\":{inconclusive},\
         \"measurements\":{measurements}"
    )?)
}

// The name, the number of successes in a row, and the phase.
fn metric_back(
    alloc: Global,
    run: &RunRecord,
    metric: &Metric,
    tally: &Tally,
) -> Result<String, Memory>
    ensures { IfOk result (λ text. string_bytes text
        ≡ metric_back run.now metric.now tally.now) }
{
    let name = metric.name();
    let passes = tally.passes();
    let phase = tally.phase(metric, run.closed.is_some()).text();
    Ok(format!(in alloc; ",\"name\":\"{name}\",\"passes\":{passes},\"phase\":\"{phase}\"}}")?)
}
