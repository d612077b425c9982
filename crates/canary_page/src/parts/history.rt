//! A service's history.
use crate::charts::figure::counted;
use crate::time::stamp;
use crate::words;
use canary_base::names::Name;
use canary_page_html::element::Element;
use canary_page_html::markup::Markup;
use canary_plan::line::Line;

// The most lines of a history that a page has.
const MAX_LINES: usize = 200;

// Draws the history of a service, folded, its last line first.
pub(crate) fn history(page: &mut Markup, name: Name, lines: &[Line]) {
    page.open(Element::Details, "history");
    summary(page, lines);
    page.begin(Element::Table);
    for line in lines.iter().rev().take(MAX_LINES) {
        row(page, line);
    }
    page.end(Element::Table);
    earlier(page, name, lines.len());
    page.end(Element::Details);
}

// Draws what a folded history shows: how many lines it has, and the last one.
fn summary(page: &mut Markup, lines: &[Line]) {
    page.begin(Element::Summary);
    page.text("History, ");
    counted(page, lines.len() as u64, " line");
    if let Some(last) = lines.last() {
        page.text("; last: ");
        words::line(page, last);
        page.text(", ");
        stamp(page, last.moment);
    }
    page.end(Element::Summary);
}

// Draws a line as a row: its moment and its words.
fn row(page: &mut Markup, line: &Line) {
    page.begin(Element::Row);
    page.begin(Element::Cell);
    stamp(page, line.moment);
    page.end(Element::Cell);
    page.begin(Element::Cell);
    words::line(page, line);
    page.end(Element::Cell);
    page.end(Element::Row);
}

// What the page says of lines that it does not have.
fn earlier(page: &mut Markup, name: Name, lines: usize) {
    let left_out = lines.saturating_sub(MAX_LINES);
    if left_out > 0 {
        page.begin(Element::Paragraph);
        counted(page, left_out as u64, " earlier line");
        page.text(": canary history --db FILE ");
        page.text(name.as_str());
        page.end(Element::Paragraph);
    }
}
