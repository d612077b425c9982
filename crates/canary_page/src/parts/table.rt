//! The services that are done.
use crate::charts::figure::badge;
use crate::parts::ended::ended;
use crate::parts::track::bar;
use crate::shown::ShownService;
use crate::time::stamp;
use crate::words;
use canary_page_html::element::{Attribute, Element};
use canary_page_html::markup::Markup;
use canary_plan::line::Line;
use canary_release::service::Service;
use std::alloc::Global;

// How many columns the table has.
const COLUMNS: u64 = 6;

// The start of the table, with its heading.
pub(crate) fn begin_table(page: &mut Markup) {
    page.open(Element::Table, "done");
    page.begin(Element::Row);
    heading(page, "Service");
    heading(page, "Status");
    heading(page, "Version");
    heading(page, "Weight");
    heading(page, "Steps");
    heading(page, "Last");
    page.end(Element::Row);
}

// Draws the heading of a column.
fn heading(page: &mut Markup, text: &str) {
    page.start(Element::Heading);
    page.attribute(Attribute::Scope, "col");
    page.start_end();
    page.text(text);
    page.end(Element::Heading);
}

/// Ends the table, after its last row.
pub(crate) fn end_table(page: &mut Markup) {
    page.end(Element::Table);
}

// The row of a service, and one with its attempts that ended not long ago, if there are any.
pub(crate) fn row(alloc: Global, shown: &ShownService) -> Markup {
    let mut page = Markup::new(alloc);
    draw_row(&mut page, &shown.service, shown.lines.as_slice());
    if !shown.attempts.recent.is_empty() {
        attempts(&mut page, shown);
    }
    page
}

// Draws a row of one cell, over all columns, with the attempts that ended not long ago.
fn attempts(page: &mut Markup, shown: &ShownService) {
    page.open(Element::Row, "attempts");
    page.start(Element::Cell);
    page.measure(Attribute::Columns, COLUMNS);
    page.start_end();
    ended(page, shown);
    page.end(Element::Cell);
    page.end(Element::Row);
}

// Draws the row of a service, with the last line of its history in the last cell.
fn draw_row(page: &mut Markup, service: &Service, lines: &[Line]) {
    page.start(Element::Row);
    page.attribute(Attribute::Id, service.name().as_str());
    page.start_end();
    page.start(Element::Heading);
    page.attribute(Attribute::Scope, "row");
    page.start_end();
    page.text(service.name().as_str());
    page.end(Element::Heading);
    page.begin(Element::Cell);
    badge(page, service.status().text());
    page.end(Element::Cell);
    page.leaf(Element::Cell, "version", service.version().as_str());
    page.begin(Element::Cell);
    bar(page, service);
    page.end(Element::Cell);
    page.begin(Element::Cell);
    page.number(service.strategy().steps().len() as u64);
    page.end(Element::Cell);
    last(page, lines);
    page.end(Element::Row);
}

// Draws the cell of the last line and its moment; an empty one if there is no line.
fn last(page: &mut Markup, lines: &[Line]) {
    page.begin(Element::Cell);
    if let Some(line) = lines.last() {
        words::line(page, line);
        page.text(", ");
        stamp(page, line.moment);
    }
    page.end(Element::Cell);
}
