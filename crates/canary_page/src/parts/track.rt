//! The steps of a strategy, and the weight.
use crate::time::span;
use canary_base::names::Name;
use canary_page_html::element::{Attribute, Element};
use canary_page_html::markup::Markup;
use canary_plan::step::Step;
use canary_release::service::Service;
use canary_release::state::ReleaseState;

// Draws the steps as a row of marks, of which the present one is marked.
pub(crate) fn track(page: &mut Markup, service: &Service) {
    page.open(Element::Steps, "track");
    for (place, step) in service.strategy().steps().iter().enumerate() {
        mark(page, service, place as u64, step);
    }
    let end = if service.state() == ReleaseState::Done {
        "end past"
    } else {
        "end ahead"
    };
    page.open(Element::Item, end);
    page.leaf(Element::Span, "word", "done");
    page.end(Element::Item);
    page.end(Element::Steps);
}

// Draws a step, with its words in full as its title. The present one is marked for screen readers.
fn mark(page: &mut Markup, service: &Service, place: u64, step: &Step) {
    let (state, present) = (service.state(), u64::from(service.step()));
    let is_here = place == present && state != ReleaseState::Done;
    page.start(Element::Item);
    page.value(Attribute::Class);
    page.text(kind_of(step));
    page.text(place_of(service, place));
    page.value_end();
    page.value(Attribute::Title);
    page.text("step ");
    page.number(place);
    page.text(": ");
    words(page, step);
    page.value_end();
    if is_here {
        page.attribute(Attribute::Present, "step");
    }
    page.start_end();
    page.open(Element::Span, "word");
    short_words(page, step);
    page.end(Element::Span);
    page.end(Element::Item);
}

// The class of a step's kind. It ends with a space, since one more class comes after it.
fn kind_of(step: &Step) -> &'static str {
    match step {
        Step::SetWeight(_) => "set ",
        Step::Pause(_) => "pause ",
        Step::Analysis(_) => "analysis ",
    }
}

// Whether a step is past, present or to come, and how the release stands at the present one.
fn place_of(service: &Service, place: u64) -> &'static str {
    let present = u64::from(service.step());
    if place < present || service.state() == ReleaseState::Done {
        return "past";
    }
    if place > present {
        return "ahead";
    }
    if service.state() == ReleaseState::Aborted {
        return "here stopped";
    }
    if service.step_hold() || service.background_hold() {
        return "here held";
    }
    "here"
}

// Writes in full what a step does, for its title.
fn words(page: &mut Markup, step: &Step) {
    match step {
        Step::SetWeight(weight) => {
            page.text("setWeight ");
            page.number(u64::from(weight.get()));
        }
        Step::Pause(Some(seconds)) => {
            page.text("pause of ");
            span(page, u64::from(seconds.get()));
        }
        Step::Pause(None) => page.text("pause until it is promoted"),
        Step::Analysis(templates) => {
            page.text("analysis by ");
            names(page, templates.as_slice());
        }
    }
}

// Writes what a step does, as short as its mark needs it: a weight, a duration, names.
fn short_words(page: &mut Markup, step: &Step) {
    match step {
        Step::SetWeight(weight) => {
            page.number(u64::from(weight.get()));
            page.text("%");
        }
        Step::Pause(Some(seconds)) => span(page, u64::from(seconds.get())),
        Step::Pause(None) => page.text("pause"),
        Step::Analysis(templates) => names(page, templates.as_slice()),
    }
}

// Writes these names, with a comma between two of them.
fn names(page: &mut Markup, names: &[Name]) {
    let mut between = "";
    for name in names {
        page.text(between);
        page.text(name.as_str());
        between = ", ";
    }
}

// The weight, which is what the desk asks for, as a bar, and in percent.
pub(crate) fn bar(page: &mut Markup, service: &Service) {
    let weight = u64::from(service.weight());
    page.open(Element::Span, "weight");
    page.start(Element::Drawing);
    page.attribute(Attribute::Class, "bar");
    page.attribute(Attribute::View, "0 0 100 8");
    page.attribute(Attribute::Width, "150");
    page.attribute(Attribute::Height, "12");
    page.attribute(Attribute::Role, "img");
    page.value(Attribute::Spoken);
    page.text(service.version().as_str());
    page.text(" is to have ");
    page.number(weight);
    page.text(" percent");
    page.value_end();
    page.start_end();
    block(page, "rest", 100);
    block(page, "part", weight);
    page.end(Element::Drawing);
    page.begin(Element::Strong);
    page.number(weight);
    page.text("%");
    page.end(Element::Strong);
    page.end(Element::Span);
}

// Draws a part of the bar from its left end, so many of 100 units wide.
fn block(page: &mut Markup, class: &str, width: u64) {
    page.start(Element::Rectangle);
    page.attribute(Attribute::Class, class);
    page.measure(Attribute::Width, width);
    page.measure(Attribute::Height, 8);
    page.start_end();
    page.end(Element::Rectangle);
}
