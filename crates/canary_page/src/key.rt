//! What the marks of a page mean.
use canary_condition::outcome::Phase;
use canary_page_html::element::{Attribute, Element};
use canary_page_html::markup::Markup;

/// Draws the paragraph that explains the marks of all charts, and what a weight is.
pub(crate) fn key(page: &mut Markup) {
    page.open(Element::Paragraph, "key");
    mark(page, Phase::Successful);
    mark(page, Phase::Failed);
    mark(page, Phase::Inconclusive);
    mark(page, Phase::Error);
    note(
        page,
        "Dashed: a number with which a condition compares the result.",
    );
    note(
        page,
        "On the axis: a failure, or a result without this number. Times of day are UTC.",
    );
    note(
        page,
        "A weight is the share of requests that the desk asks for: no router confirms it.",
    );
    page.end(Element::Paragraph);
}

// Draws a sentence of the key, and a space after it.
fn note(page: &mut Markup, text: &str) {
    page.begin(Element::Span);
    page.text(text);
    page.end(Element::Span);
    page.text(" ");
}

// The shape of a phase, and its word.
fn mark(page: &mut Markup, phase: Phase) {
    page.begin(Element::Span);
    page.start(Element::Drawing);
    page.attribute(Attribute::Class, "plot");
    page.attribute(Attribute::View, "0 0 140 140");
    page.attribute(Attribute::Width, "14");
    page.attribute(Attribute::Height, "14");
    page.start_end();
    shape(page, phase);
    page.end(Element::Drawing);
    page.text(" ");
    page.text(phase.text());
    page.end(Element::Span);
    page.text(" ");
}

// Draws the shape that the points of a phase have in charts; an error has a square.
fn shape(page: &mut Markup, phase: Phase) {
    page.start(Element::Path);
    page.attribute(Attribute::Class, phase.text());
    page.attribute(
        Attribute::Data,
        match phase {
            Phase::Successful => "M40 70a30 30 0 1 0 60 0a30 30 0 1 0-60 0z",
            Phase::Failed => "M30 30l80 80m0-80l-80 80",
            Phase::Inconclusive => "M70 25l45 80h-90z",
            _ => "M40 40h60v60h-60z",
        },
    );
    page.start_end();
    page.end(Element::Path);
}
