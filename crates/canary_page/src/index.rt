//! The index of a page: a link to each service.
use crate::groups::PlacedService;
use crate::shown::AttentionLevel;
use canary_page_html::element::Element;
use canary_page_html::markup::Markup;

/// Begins the index, up to its first group.
pub(crate) fn begin_index(page: &mut Markup) {
    page.open(Element::Navigation, "index");
}

/// Ends the index, after its last group.
pub(crate) fn end_index(page: &mut Markup) {
    page.end(Element::Navigation);
}

// The start of a group, with its name and how many services it has.
pub(crate) fn begin_group(page: &mut Markup, name: &str, count: u64) {
    page.begin(Element::Paragraph);
    page.text(name);
    page.text(" (");
    page.number(count);
    page.text(")");
    page.end(Element::Paragraph);
    page.begin(Element::List);
}

/// Ends a group, after its last link.
pub(crate) fn end_group(page: &mut Markup) {
    page.end(Element::List);
}

// A link to a service, with why it waits for somebody, if it does.
pub(crate) fn link(page: &mut Markup, placed: &PlacedService) {
    page.begin(Element::Item);
    let name = placed.name;
    page.link(class_of(placed), name.as_str(), name.as_str());
    let why = why_of(placed.standing);
    if !why.is_empty() {
        page.text(" ");
        page.begin(Element::Small);
        page.text(why);
        page.end(Element::Small);
    }
    page.end(Element::Item);
}

// A service that waits for nobody has no colour.
fn class_of(placed: &PlacedService) -> &'static str {
    if placed.standing.waits() {
        placed.status.text()
    } else {
        "calm"
    }
}

// Why a service waits for somebody, in one word; empty if it does not wait.
fn why_of(standing: AttentionLevel) -> &'static str {
    match standing {
        AttentionLevel::Aborted => "aborted",
        AttentionLevel::Held => "held",
        AttentionLevel::Late => "late",
        AttentionLevel::Waits => "pause",
        AttentionLevel::Goes => "",
        AttentionLevel::Done => "",
    }
}
