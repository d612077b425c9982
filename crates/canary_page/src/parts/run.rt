//! A run of an analysis.
use crate::charts::chart::Chart;
use crate::charts::conditions::Conditions;
use crate::charts::figure::{MetricFigure, badge, figure};
use crate::parts::attempts::Attempt;
use crate::shown::{ShownRun, ShownService};
use crate::time::{dated, is_far};
use canary_base::moments::Moment;
use canary_metric::metric::Metric;
use canary_metric::tally::Tally;
use canary_page_html::element::Element;
use canary_page_html::markup::Markup;
use canary_plan::analysis_parts::Revision;

// Draws the runs of an attempt, the newest first.
pub(crate) fn runs_of(page: &mut Markup, shown: &ShownService, attempt: &Attempt) {
    page.open(Element::Block, "runs");
    for run in shown.runs.iter().rev() {
        if attempt.has_run(run.record.number) {
            draw_run(page, run, shown.now);
        }
    }
    page.end(Element::Block);
}

// Draws a run, with a figure for each of its metrics.
fn draw_run(page: &mut Markup, run: &ShownRun, now: Moment) {
    page.open(Element::Section, "run");
    heading(page, run, now);
    page.open(Element::Block, "metrics");
    figures(page, run, now);
    page.end(Element::Block);
    page.end(Element::Section);
}

// Draws the heading of a run: its number, its analysis, when it was open, and its phase.
fn heading(page: &mut Markup, run: &ShownRun, now: Moment) {
    page.begin(Element::Heading3);
    page.text("Run ");
    page.number(u64::from(run.record.number));
    page.text(" ");
    page.begin(Element::Small);
    place(page, run.record.step);
    for revision in run.record.analysis.revisions() {
        template(page, *revision);
    }
    page.text(", ");
    let has_date = is_far(run.record.started, now);
    dated(page, run.record.started, has_date);
    end(page, run, has_date);
    page.end(Element::Small);
    page.text(" ");
    badge(page, run.phase().text());
    if run.is_unmeasured() {
        page.text(" ");
        page.leaf(Element::Strong, "unmeasured", "ended without a measurement");
    }
    page.end(Element::Heading3);
}

// The step of an analysis, or that it is the background's.
fn place(page: &mut Markup, step: Option<u32>) {
    match step {
        Some(step) => {
            page.text("step ");
            page.number(u64::from(step));
        }
        None => page.text("background"),
    }
}

// A template, with the number of its revision.
fn template(page: &mut Markup, revision: Revision) {
    page.text(", ");
    page.text(revision.template.as_str());
    page.text("@");
    page.number(u64::from(revision.number));
}

// Draws when a run was closed, with a date if its beginning has one, and whether from outside; or
// that it is open.
fn end(page: &mut Markup, run: &ShownRun, has_date: bool) {
    match run.record.closed {
        Some(closing) => {
            page.text(" to ");
            dated(page, closing.at, has_date);
            if closing.outside {
                page.text(", ended from outside");
            }
        }
        None => page.text(", open"),
    }
}

// Draws a figure for each metric of a run, in order.
fn figures(page: &mut Markup, run: &ShownRun, now: Moment) {
    let metrics = run.record.analysis.metrics();
    for (place, metric) in metrics.iter().enumerate() {
        let tally = run.record.tallies.as_slice().get(place);
        let chart = run.charts.as_slice().get(place);
        let conditions = run.conditions.as_slice().get(place);
        if let (Some(tally), Some(chart), Some(conditions)) = (tally, chart, conditions) {
            let shown = measured(run, now, metric, tally, chart, conditions);
            figure(page, &shown);
        }
    }
}

// A metric with all that its figure shows; if the run is open, its end is the present moment.
fn measured<'a>(
    run: &'a ShownRun,
    now: Moment,
    metric: &'a Metric,
    tally: &'a Tally,
    chart: &'a Chart,
    conditions: &'a Conditions,
) -> MetricFigure<'a> {
    MetricFigure {
        metric,
        tally,
        chart,
        conditions,
        started: run.record.started,
        end: run.end(now),
        is_closed: run.is_closed(),
        now,
    }
}
