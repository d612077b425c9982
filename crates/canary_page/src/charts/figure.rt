//! A metric of a run: its chart, its conditions, and its numbers.
use crate::charts::chart::{Chart, ChartRow};
use crate::charts::conditions::{Conditions, text_of};
use crate::charts::numbers::Span;
use crate::charts::plot::{Frame, axis, curve, outcome, points, thresholds};
use crate::charts::spot::{Spot, number_text, spot_text};
use crate::charts::thresholds::Threshold;
use crate::late::{due_of, late_since};
use crate::time::near;
use crate::words::metric_name;
use canary_base::lists::Text;
use canary_base::moments::Moment;
use canary_condition::outcome::Phase;
use canary_decimal::shown::{Shown, Units};
use canary_metric::metric::{Metric, effective_count};
use canary_metric::tally::Tally;
use canary_page_html::element::{Attribute, Element};
use canary_page_html::markup::Markup;

/// A metric of a run, with all that is shown of it.
#[derive(Clone, Copy)]
pub(crate) struct MetricFigure<'a> {
    pub(crate) metric: &'a Metric,
    pub(crate) tally: &'a Tally,
    pub(crate) chart: &'a Chart,
    pub(crate) conditions: &'a Conditions,
    pub(crate) started: Moment,
    pub(crate) end: Moment,
    pub(crate) is_closed: bool,
    pub(crate) now: Moment,
}

// Draws it.
pub(crate) fn figure(page: &mut Markup, shown: &MetricFigure<'_>) {
    page.open(Element::Figure, "metric");
    caption(page, shown);
    last_value(page, shown);
    page.open(Element::Block, "charts");
    for row in shown.chart.rows() {
        chart(page, shown, *row);
    }
    page.end(Element::Block);
    notes(page, shown);
    page.end(Element::Figure);
}

// The chart of what a row shows, under its name if that is a place of a list.
fn chart(page: &mut Markup, shown: &MetricFigure<'_>, row: ChartRow) {
    let frame = frame_of(shown, row);
    let conditions = shown.conditions;
    page.open(Element::Block, "chart");
    if row.spot != Spot::Whole {
        page.open(Element::Paragraph, "spot");
        spot_text(page, row.spot);
        page.end(Element::Paragraph);
    }
    begin_drawing(page, shown, row);
    axis(page, &frame);
    let (success, failure) = (&conditions.success_bounds, &conditions.failure_bounds);
    let text = text_of(&conditions.success);
    thresholds(page, &frame, "limit good", success.as_slice(), text);
    let text = text_of(&conditions.failure);
    thresholds(page, &frame, "limit bad", failure.as_slice(), text);
    curve(page, &frame, shown.chart);
    points(page, &frame, shown.chart);
    page.end(Element::Drawing);
    page.end(Element::Block);
}

// The frame of a row's chart: its span has the bounds of both conditions, too.
fn frame_of(shown: &MetricFigure<'_>, row: ChartRow) -> Frame {
    let conditions = shown.conditions;
    let units = conditions.units;
    let span = with_bounds(
        row.span,
        row.spot,
        units,
        conditions.success_bounds.as_slice(),
    );
    Frame {
        spot: row.spot,
        units,
        from: shown.started,
        to: last_of(shown),
        span: with_bounds(span, row.spot, units, conditions.failure_bounds.as_slice()),
    }
}

// Wide enough for the bounds of that spot, too.
fn with_bounds(
    span: Option<Span>,
    spot: Spot,
    units: Units,
    thresholds: &[Threshold],
) -> Option<Span> {
    let mut span = span;
    for bound in thresholds {
        if bound.is_drawn(spot, units) {
            span = Some(Span::with(span, bound.constant.number));
        }
    }
    span
}

// The end of the run, or what came after it: its start, if the present moment is before that, or
// its last measurement.
fn last_of(shown: &MetricFigure<'_>) -> Moment {
    let end = shown.end.max(shown.started);
    match shown.tally.last() {
        Some(last) => end.max(last),
        None => end,
    }
}

// The phase of the metric, judged as in a run that is closing if its run is closed.
fn phase_of(shown: &MetricFigure<'_>) -> Phase {
    shown.tally.phase(shown.metric, shown.is_closed)
}

// Draws the metric's name, whether it is a dry run, and its phase.
fn caption(page: &mut Markup, shown: &MetricFigure<'_>) {
    page.begin(Element::Caption);
    page.begin(Element::Strong);
    metric_name(page, shown.metric.name());
    page.end(Element::Strong);
    if shown.metric.dry_run() {
        page.text(" ");
        page.leaf(Element::Span, "dry", "dry run");
    }
    page.text(" ");
    badge(page, phase_of(shown).text());
    page.end(Element::Caption);
}

// The last measurement, in words.
fn last_value(page: &mut Markup, shown: &MetricFigure<'_>) {
    page.open(Element::Paragraph, "last");
    match shown.chart.points().last() {
        Some(point) => {
            page.text("Last, ");
            near(page, point.taken, shown.now);
            page.text(", ");
            page.text(point.phase.text());
            page.text(": ");
            page.begin(Element::Strong);
            outcome(page, &point.outcome, shown.conditions.units);
            page.end(Element::Strong);
        }
        None if shown.is_closed => page.text("Not measured"),
        None => page.text("Not measured yet"),
    }
    page.end(Element::Paragraph);
}

// A phase or a status.
pub(crate) fn badge(page: &mut Markup, word: &str) {
    page.start(Element::Span);
    page.value(Attribute::Class);
    page.text("badge ");
    page.text(word);
    page.value_end();
    page.start_end();
    page.text(word);
    page.end(Element::Span);
}

// The start of the drawing, with its numbers in words.
fn begin_drawing(page: &mut Markup, shown: &MetricFigure<'_>, row: ChartRow) {
    page.start(Element::Drawing);
    page.attribute(Attribute::Class, "plot");
    page.attribute(Attribute::View, "0 0 3000 900");
    page.attribute(Attribute::Width, "300");
    page.attribute(Attribute::Height, "90");
    page.attribute(Attribute::Role, "img");
    page.value(Attribute::Spoken);
    in_words(page, shown, row);
    page.value_end();
    page.start_end();
}

// Writes a drawing as a sentence for screen readers: counts by phase, the span, the last outcome.
fn in_words(page: &mut Markup, shown: &MetricFigure<'_>, row: ChartRow) {
    page.text(Shown::or_whole(shown.metric.name().as_str()).name);
    page.text(": ");
    counted(page, shown.chart.whole(), " measurement");
    let tally = shown.tally;
    let bad = tally.failed().saturating_add(tally.inconclusive());
    phase_count(page, tally.counted().saturating_sub(bad), Phase::Successful);
    phase_count(page, tally.failed(), Phase::Failed);
    phase_count(page, tally.inconclusive(), Phase::Inconclusive);
    phase_count(page, tally.errors(), Phase::Error);
    let units = shown.conditions.units;
    if let Some(span) = row.span {
        page.text("; ");
        spot_text(page, row.spot);
        page.text(" from ");
        number_text(page, units, row.spot, span.low);
        page.text(" to ");
        number_text(page, units, row.spot, span.high);
    }
    if let Some(last) = shown.chart.points().last() {
        page.text("; the last ");
        page.text(last.phase.text());
        page.text(": ");
        outcome(page, &last.outcome, units);
    }
}

// Draws how many measurements have a phase; nothing if none has it.
fn phase_count(page: &mut Markup, count: u32, phase: Phase) {
    if count > 0 {
        page.text(", ");
        page.number(u64::from(count));
        page.text(" ");
        page.text(phase.text());
    }
}

// So many of a thing, whose plural ends in `s`.
pub(crate) fn counted(page: &mut Markup, count: u64, thing: &str) {
    page.number(count);
    page.text(thing);
    if count != 1 {
        page.text("s");
    }
}

// The conditions, and the numbers by which the metric is judged.
fn notes(page: &mut Markup, shown: &MetricFigure<'_>) {
    page.open(Element::Block, "notes");
    conditions(page, shown.conditions);
    page.begin(Element::Paragraph);
    wanted(page, shown);
    limits(page, shown);
    due(page, shown);
    page.text(".");
    thinned(page, shown.chart);
    page.end(Element::Paragraph);
    page.end(Element::Block);
}

// Draws both conditions, or why they are not shown, and how many places have no chart.
fn conditions(page: &mut Markup, conditions: &Conditions) {
    if !conditions.is_known {
        sentence(
            page,
            "The template was revised since, so its conditions are not shown.",
        );
    }
    condition(page, "success: ", &conditions.success);
    condition(page, "failure: ", &conditions.failure);
    if conditions.left_out() > 0 {
        page.begin(Element::Paragraph);
        counted(page, conditions.left_out(), " further place");
        page.text(" not drawn.");
        page.end(Element::Paragraph);
    }
    if conditions.is_known && conditions.success.is_none() && conditions.failure.is_none() {
        sentence(page, "No condition: each result is a success.");
    }
}

// Draws a paragraph of one text.
fn sentence(page: &mut Markup, text: &str) {
    page.begin(Element::Paragraph);
    page.text(text);
    page.end(Element::Paragraph);
}

// Draws a paragraph with the kind of a condition and its text; nothing without a text.
fn condition(page: &mut Markup, kind: &str, text: &Option<Text>) {
    if let Some(text) = text {
        page.begin(Element::Paragraph);
        page.text(kind);
        page.begin(Element::Code);
        page.text(text.as_str());
        page.end(Element::Code);
        page.end(Element::Paragraph);
    }
}

// Draws how many measurements are counted, of how many, and the same of successes in a row.
fn wanted(page: &mut Markup, shown: &MetricFigure<'_>) {
    page.number(u64::from(shown.tally.counted()));
    if let Some(count) = effective_count(shown.metric) {
        page.text(" of ");
        page.number(u64::from(count));
    }
    page.text(" counted");
    if let Some(passes) = shown.metric.pass_after() {
        page.text(", ");
        page.number(u64::from(shown.tally.passes()));
        page.text(" of ");
        page.number(u64::from(passes));
        page.text(" successes in a row");
    }
}

// Draws how many failed, were inconclusive or errors, with the limits; that of errors is in a row.
fn limits(page: &mut Markup, shown: &MetricFigure<'_>) {
    let (tally, metric) = (shown.tally, shown.metric);
    allowed(page, tally.failed(), " failed", metric.failure_limit());
    allowed(
        page,
        tally.inconclusive(),
        " inconclusive",
        metric.inconclusive_limit(),
    );
    if tally.errors() > 0 {
        page.text(", ");
        counted(page, u64::from(tally.errors()), " error");
        allowed(
            page,
            tally.consecutive(),
            " in a row",
            metric.consecutive_error_limit(),
        );
    }
}

// Draws how many of a thing there are and how many are allowed; nothing if there are 0.
fn allowed(page: &mut Markup, count: u32, thing: &str, limit: u32) {
    if count > 0 {
        page.text(", ");
        page.number(u64::from(count));
        page.text(thing);
        page.text(" (");
        page.number(u64::from(limit));
        page.text(" allowed)");
    }
}

// When the next measurement is due, if one is wanted.
fn due(page: &mut Markup, shown: &MetricFigure<'_>) {
    if shown.is_closed {
        return;
    }
    let (metric, tally) = (shown.metric, shown.tally);
    let Some(due) = due_of(metric, tally, shown.started) else {
        return;
    };
    page.text(", due ");
    near(page, due, shown.now);
    if late_since(metric, tally, shown.started, shown.now).is_some() {
        page.text(", late");
    }
}

// Draws how many measurements are drawn, and which, unless all of them are.
fn thinned(page: &mut Markup, chart: &Chart) {
    let drawn = chart.points().len() as u64;
    if drawn < chart.whole() {
        page.text(" ");
        page.number(drawn);
        page.text(" of ");
        page.number(chart.whole());
        page.text(" are drawn: the first, the last, ");
        if chart.has_all_bad() {
            page.text("those that are not Successful, ");
        }
        page.text("and evenly some of the others.");
    }
}
