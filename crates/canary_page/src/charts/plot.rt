//! A chart as SVG. Its lengths are tenths of a pixel.
use crate::charts::chart::{Chart, Point};
use crate::charts::numbers::{Span, part};
use crate::charts::spot::{Spot, number_text};
use crate::charts::thresholds::Threshold;
use crate::time::clock;
use crate::words;
use canary_base::moments::Moment;
use canary_condition::outcome::{Outcome, Phase};
use canary_decimal::shown::Units;
use canary_page_html::element::{Attribute, Element};
use canary_page_html::markup::Markup;

const LEFT: u64 = 400;

const RIGHT: u64 = 2_940;

const TOP: u64 = 100;

const BOTTOM: u64 = 600;
// Where the points without a number stand, and the axis below them.
const BASE: u64 = 690;

const AXIS: u64 = 740;

const TICKS: u64 = 850;

/// From when to when a chart goes, what of a result it shows, in which units, and between which
/// numbers, if there are any.
#[derive(Clone, Copy)]
pub(crate) struct Frame {
    pub(crate) spot: Spot,
    pub(crate) units: Units,
    pub(crate) from: Moment,
    pub(crate) to: Moment,
    pub(crate) span: Option<Span>,
}

impl Frame {
    // How far from the left that moment is.
    fn left(&self, moment: Moment) -> u64 {
        let since = moment.get().saturating_sub(self.from.get());
        let whole = self.to.get().saturating_sub(self.from.get());
        LEFT.saturating_add(part(since, whole, RIGHT - LEFT))
    }

    // How far from the top that number is.
    fn top(&self, number: i64) -> u64 {
        match self.span {
            Some(span) => TOP.saturating_add(span.below(number, BOTTOM - TOP)),
            None => BASE,
        }
    }

    // How far from the top a measurement is.
    fn top_of(&self, outcome: &Outcome) -> u64 {
        match self.spot.drawn_of(self.units, outcome) {
            Some(number) => self.top(number),
            None => BASE,
        }
    }
}

// The axis, with the moments at its ends.
pub(crate) fn axis(page: &mut Markup, frame: &Frame) {
    level(page, "axis", AXIS);
    page.end(Element::Line);
    label(page, "tick", LEFT, TICKS);
    clock(page, frame.from);
    page.end(Element::Label);
    label(page, "tick end", RIGHT, TICKS);
    clock(page, frame.to);
    page.end(Element::Label);
}

// A line from the left to the right, up to its content.
fn level(page: &mut Markup, class: &str, top: u64) {
    page.start(Element::Line);
    page.attribute(Attribute::Class, class);
    page.measure(Attribute::FromLeft, LEFT);
    page.measure(Attribute::ToLeft, RIGHT);
    page.measure(Attribute::FromTop, top);
    page.measure(Attribute::ToTop, top);
    page.start_end();
}

// A text at that place, up to its content.
fn label(page: &mut Markup, class: &str, left: u64, top: u64) {
    page.start(Element::Label);
    page.attribute(Attribute::Class, class);
    page.measure(Attribute::Left, left);
    page.measure(Attribute::Top, top);
    page.start_end();
}

// The dashed line of each of these bounds of that condition that is one of what the chart shows.
pub(crate) fn thresholds(
    page: &mut Markup,
    frame: &Frame,
    class: &str,
    thresholds: &[Threshold],
    text: &str,
) {
    for bound in thresholds {
        if bound.is_drawn(frame.spot, frame.units) {
            limit(page, frame, class, bound.constant.number, text);
        }
    }
}

// Draws a bound as a line, with its condition as the title, and with its number left of it.
fn limit(page: &mut Markup, frame: &Frame, class: &str, bound: i64, text: &str) {
    let top = frame.top(bound);
    level(page, class, top);
    page.begin(Element::Title);
    page.text(text);
    page.end(Element::Title);
    page.end(Element::Line);
    label(page, "tick end", LEFT - 40, top.saturating_add(30));
    number_text(page, frame.units, frame.spot, bound);
    page.end(Element::Label);
}

// The line through all points that have a number.
pub(crate) fn curve(page: &mut Markup, frame: &Frame, chart: &Chart) {
    if frame.span.is_none() {
        return;
    }
    page.start(Element::Path);
    page.attribute(Attribute::Class, "curve");
    page.value(Attribute::Data);
    let mut step = "M";
    for point in chart.points() {
        if let Some(number) = frame.spot.drawn_of(frame.units, &point.outcome) {
            step_to(page, step, frame.left(point.taken), frame.top(number));
            step = "L";
        }
    }
    page.value_end();
    page.start_end();
    page.end(Element::Path);
}

// Writes a step of a path: its letter, `M` or `L`, and the place to which it goes.
fn step_to(page: &mut Markup, step: &str, left: u64, top: u64) {
    page.text(step);
    page.number(left);
    page.text(" ");
    page.number(top);
}

/// Draws each point of a chart; one without a number is drawn just above the axis.
pub(crate) fn points(page: &mut Markup, frame: &Frame, chart: &Chart) {
    for point in chart.points() {
        draw_point(page, frame, point);
    }
}

// A point, whose shape says its phase.
fn draw_point(page: &mut Markup, frame: &Frame, point: &Point) {
    let (left, top) = (frame.left(point.taken), frame.top_of(&point.outcome));
    let element = shape_of(point.phase);
    page.start(element);
    page.attribute(Attribute::Class, point.phase.text());
    match point.phase {
        Phase::Successful => circle(page, left, top),
        Phase::Failed => path(page, left, top, 40, 40, "l80 80m0-80l-80 80"),
        Phase::Inconclusive => path(page, left, top, 0, 45, "l45 80h-90z"),
        _ => square(page, left, top),
    }
    page.start_end();
    title(page, frame.units, point);
    page.end(element);
}

// The element of SVG that draws the shape of a phase.
fn shape_of(phase: Phase) -> Element {
    match phase {
        Phase::Successful => Element::Circle,
        Phase::Failed => Element::Path,
        Phase::Inconclusive => Element::Path,
        _ => Element::Rectangle,
    }
}

// The attributes of a circle that has its center at a place.
fn circle(page: &mut Markup, left: u64, top: u64) {
    page.measure(Attribute::CenterLeft, left);
    page.measure(Attribute::CenterTop, top);
    page.measure(Attribute::Radius, 30);
}

// The attributes of a square that has its center at a place.
fn square(page: &mut Markup, left: u64, top: u64) {
    page.measure(Attribute::Left, left.saturating_sub(30));
    page.measure(Attribute::Top, top.saturating_sub(30));
    page.measure(Attribute::Width, 60);
    page.measure(Attribute::Height, 60);
}

// A path that begins so far to the left of and above a place.
fn path(page: &mut Markup, left: u64, top: u64, before: u64, above: u64, rest: &str) {
    page.value(Attribute::Data);
    page.text("M");
    page.number(left.saturating_sub(before));
    page.text(" ");
    page.number(top.saturating_sub(above));
    page.text(rest);
    page.value_end();
}

// What a point says if it is pointed at.
fn title(page: &mut Markup, units: Units, point: &Point) {
    page.begin(Element::Title);
    page.text("#");
    page.number(u64::from(point.ordinal));
    page.text(", ");
    clock(page, point.taken);
    page.text(", ");
    page.text(point.phase.text());
    page.text(": ");
    outcome(page, &point.outcome, units);
    page.end(Element::Title);
}

// What a measurement brought.
pub(crate) fn outcome(page: &mut Markup, outcome: &Outcome, units: Units) {
    match outcome {
        Outcome::Result(value) => words::result(page, value, units),
        Outcome::Failure(text) => page.foreign(text.as_str()),
    }
}
