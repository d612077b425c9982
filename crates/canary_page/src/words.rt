//! Texts of a history's lines, of results, and of the names of metrics.
use canary_base::names::Label;
use canary_condition::outcome::Value;
use canary_decimal::shown::{Shown, Units};
use canary_page_html::element::{Attribute, Element};
use canary_page_html::markup::Markup;
use canary_plan::line::Line;

// The words of a line of a history.
pub(crate) fn line(page: &mut Markup, line: &Line) {
    let mut text = String::new(page.alloc());
    match line.words(&mut text) {
        Ok(()) => page.text(text.as_str()),
        Err(_) => page.fail(),
    }
}

// A result in these units, as people read it: a list as `[0.95;-2]`.
pub(crate) fn result(page: &mut Markup, value: &Value, units: Units) {
    match value {
        Value::Whole(number) => page.text(units.text(None, *number).as_str()),
        Value::List(values) => list(page, values.as_slice(), units),
    }
}

// Writes a list in brackets, with semicolons, each number by the units of its place.
fn list(page: &mut Markup, values: &[i64], units: Units) {
    let mut before = "[";
    for (place, number) in values.iter().enumerate() {
        page.text(before);
        page.text(units.text(Some(place as u64), *number).as_str());
        before = ";";
    }
    page.text("]");
}

// The name of the metric with this label, as people read it. If that is not the label, the label
// stands in its title.
pub(crate) fn metric_name(page: &mut Markup, label: Label) {
    let label = label.as_str();
    match Shown::of(label) {
        Some(shown) => {
            page.start(Element::Span);
            page.attribute(Attribute::Title, label);
            page.start_end();
            page.text(shown.name);
            page.end(Element::Span);
        }
        None => page.text(label),
    }
}
