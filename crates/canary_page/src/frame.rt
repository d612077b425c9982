//! What stands around the services of a page.
use crate::charts::figure::badge;
use crate::groups::{PlacedService, count_status, count_waiting};
use crate::jobs::PageSetup;
use crate::key::key;
use crate::page::{NO_DESK, View};
use crate::time::stamp;
use canary_page_html::element::Element;
use canary_page_html::markup::Markup;
use canary_page_html::piece::Piece;
use canary_release::state::Status;

// The page up to its first part.
pub(crate) fn head(page: &mut Markup, plan: &PageSetup<'_>) {
    page.add(Piece::Head);
    if let Some(seconds) = plan.view.every {
        page.add(Piece::Refresh(seconds));
    }
    title(page, plan.placed);
    page.add(Piece::Style);
    page.begin(Element::Body);
    page.begin(Element::Main);
    heading(page, plan.placed, plan.view);
}

// Draws the title of the page: how many services are degraded, and how many wait for somebody.
fn title(page: &mut Markup, placed: &[PlacedService]) {
    page.begin(Element::Title);
    page.number(count_status(placed, Status::Degraded));
    page.text(" degraded, ");
    page.number(count_waiting(placed));
    page.text(" waiting · canary");
    page.end(Element::Title);
}

// Draws the top of the page: its moment, how many services have each status, and that no desk has
// the file open, if that is so.
fn heading(page: &mut Markup, placed: &[PlacedService], view: View) {
    page.open(Element::Header, "top");
    page.begin(Element::Heading1);
    page.text("Canary desk");
    page.end(Element::Heading1);
    page.begin(Element::Paragraph);
    page.text("as it stood at ");
    stamp(page, view.now);
    page.end(Element::Paragraph);
    page.open(Element::List, "chips");
    chip(page, placed, Status::Degraded);
    chip(page, placed, Status::Paused);
    chip(page, placed, Status::Progressing);
    chip(page, placed, Status::Healthy);
    page.end(Element::List);
    if !view.is_served {
        unserved(page);
    }
    page.end(Element::Header);
}

// Says that no desk has the file open.
fn unserved(page: &mut Markup) {
    page.begin(Element::Paragraph);
    page.leaf(Element::Strong, "late", NO_DESK);
    page.end(Element::Paragraph);
}

// How many services have that status.
fn chip(page: &mut Markup, placed: &[PlacedService], status: Status) {
    page.begin(Element::Item);
    badge(page, status.text());
    page.text(" ");
    page.number(count_status(placed, status));
    page.end(Element::Item);
}

// The heading of a part, with how many services it has.
pub(crate) fn part(page: &mut Markup, name: &str, count: u64) {
    page.open(Element::Heading2, "kind");
    page.text(name);
    page.text(" (");
    page.number(count);
    page.text(")");
    page.end(Element::Heading2);
    if count == 0 {
        page.leaf(Element::Paragraph, "none", "None.");
    }
}

// The end of the page.
pub(crate) fn foot(page: &mut Markup) {
    key(page);
    page.end(Element::Main);
    page.end(Element::Body);
    page.add(Piece::Foot);
}
