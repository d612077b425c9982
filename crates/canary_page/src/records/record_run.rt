//! A run, with its metrics, as a value in JSON.
use crate::charts::conditions::{conditions_of, spec_in};
use crate::late::due_of;
use crate::records::sheet::Sheet;
use canary_base::error::Memory;
use canary_base::lists::Text;
use canary_condition::outcome::Phase;
use canary_decimal::shown::Shown;
use canary_metric::metric::Metric;
use canary_metric::tally::Tally;
use canary_once::record::RunRecord;
use canary_plan::analysis_parts::Revision;
use canary_plan::templates::Templates;
use std::alloc::Global;

// In the place of a run that the book does not have, so that each stands at its number.
pub(crate) fn missing_run(alloc: Global, number: u32) -> Sheet {
    let mut sheet = Sheet::new(alloc, number > 1);
    sheet.null();
    sheet
}

// A run, with the conditions that its templates have if they were not revised since.
pub(crate) fn run_sheet(alloc: Global, record: &RunRecord, templates: &Templates) -> Sheet {
    let mut sheet = Sheet::new(alloc, record.number > 1);
    sheet.begin();
    sheet.moment_at("closed", record.closed.map(|closing| closing.at));
    sheet.key("metrics");
    add_metrics(&mut sheet, record, templates);
    sheet.flag_at("outside", was_ended_outside(record));
    sheet.number_at("run", record.number);
    sheet.moment_at("started", Some(record.started));
    sheet.found_at("step", record.step);
    sheet.key("templates");
    add_templates(&mut sheet, record.analysis.revisions());
    sheet.text_at("verdict", verdict_of(record).text());
    sheet.end();
    sheet
}

// Whether it was ended by something else than its own metrics.
fn was_ended_outside(record: &RunRecord) -> bool {
    match record.closed {
        Some(closing) => closing.outside,
        None => false,
    }
}

// Its verdict, or Running while it is open.
fn verdict_of(record: &RunRecord) -> Phase {
    match record.closed {
        Some(closing) => closing.verdict,
        None => Phase::Running,
    }
}

// Adds the list of an analysis's templates, each with the number of its revision.
fn add_templates(sheet: &mut Sheet, revisions: &[Revision]) {
    sheet.begin_list();
    for revision in revisions {
        sheet.begin();
        sheet.text_at("name", revision.template.as_str());
        sheet.number_at("revision", revision.number);
        sheet.end();
    }
    sheet.end_list();
}

// Adds the list of a run's metrics, each with its tally.
fn add_metrics(sheet: &mut Sheet, record: &RunRecord, templates: &Templates) {
    sheet.begin_list();
    let metrics = record.analysis.metrics().iter();
    for (metric, tally) in metrics.zip(record.tallies.as_slice()) {
        add_metric(sheet, record, templates, metric, tally);
    }
    sheet.end_list();
}

// Adds the object of a metric. If memory runs out for its conditions, the sheet fails.
fn add_metric(
    sheet: &mut Sheet,
    record: &RunRecord,
    templates: &Templates,
    metric: &Metric,
    tally: &Tally,
) {
    sheet.begin();
    sheet.key("conditions");
    if add_conditions(sheet, record, templates, metric).is_err() {
        sheet.fail();
    }
    add_counts(sheet, record, metric, tally);
    add_limits(sheet, metric, tally);
    add_label(sheet, record, metric, tally);
    sheet.end();
}

// Null if its template was revised after the metric was bound.
fn add_conditions(
    sheet: &mut Sheet,
    record: &RunRecord,
    templates: &Templates,
    metric: &Metric,
) -> Result<(), Memory> {
    let revisions = record.analysis.revisions();
    let Some(spec) = spec_in(templates, revisions, metric.name()) else {
        sheet.null();
        return Ok(());
    };
    let shown = conditions_of(sheet.alloc(), templates, revisions, metric.name())?;
    sheet.begin();
    sheet.key("failure");
    add_condition(sheet, &spec.failure, &shown.failure);
    sheet.key("success");
    add_condition(sheet, &spec.success, &shown.success);
    sheet.end();
    Ok(())
}

// A condition as the template has it, and as people read it; null if there is none.
fn add_condition(sheet: &mut Sheet, text: &Option<Text>, shown: &Option<Text>) {
    match (text, shown) {
        (Some(text), Some(shown)) => {
            sheet.begin();
            sheet.text_at("shown", shown.as_str());
            sheet.text_at("text", text.as_str());
            sheet.end();
        }
        _ => sheet.null(),
    }
}

// Adds the members from `consecutive` to `due`, which is null if no measurement is wanted.
fn add_counts(sheet: &mut Sheet, record: &RunRecord, metric: &Metric, tally: &Tally) {
    sheet.number_at("consecutive", tally.consecutive());
    sheet.number_at("consecutiveErrorLimit", metric.consecutive_error_limit());
    sheet.found_at("count", metric.count());
    sheet.number_at("counted", tally.counted());
    sheet.flag_at("dryRun", metric.dry_run());
    let due = match record.closed {
        Some(_) => None,
        None => due_of(metric, tally, record.started),
    };
    sheet.moment_at("due", due);
}

// Adds the members from `errors` to `interval`.
fn add_limits(sheet: &mut Sheet, metric: &Metric, tally: &Tally) {
    sheet.number_at("errors", tally.errors());
    sheet.number_at("failed", tally.failed());
    sheet.number_at("failureLimit", metric.failure_limit());
    sheet.number_at("inconclusive", tally.inconclusive());
    sheet.number_at("inconclusiveLimit", metric.inconclusive_limit());
    sheet.number_at("initialDelay", metric.initial_delay().get());
    sheet.found_at("interval", metric.interval().map(|seconds| seconds.get()));
}

// Adds the last members, from `measurements` to `shown`, which is the label as people read it.
fn add_label(sheet: &mut Sheet, record: &RunRecord, metric: &Metric, tally: &Tally) {
    let label = metric.name();
    sheet.number_at("measurements", tally.measurements());
    sheet.text_at("name", label.as_str());
    sheet.found_at("passAfter", metric.pass_after());
    sheet.number_at("passes", tally.passes());
    let phase = tally.phase(metric, record.closed.is_some());
    sheet.text_at("phase", phase.text());
    sheet.text_at("shown", Shown::or_whole(label.as_str()).name);
}
