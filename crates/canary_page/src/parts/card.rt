//! A service as a card.
use crate::charts::figure::{badge, counted};
use crate::parts::ended::ended;
use crate::parts::history::history;
use crate::parts::run::runs_of;
use crate::parts::track::{bar, track};
use crate::parts::waits::waits;
use crate::shown::ShownService;
use canary_page_html::element::{Attribute, Element};
use canary_page_html::markup::Markup;
use canary_release::service::Service;
use std::alloc::Global;

// The card of a service that is not done, with the runs of its attempt, the newest first.
pub(crate) fn card(alloc: Global, shown: &ShownService) -> Markup {
    let mut page = Markup::new(alloc);
    draw_card(&mut page, shown);
    page
}

// Draws a card from its heading to its history. Its id is the service's name, for links to it.
fn draw_card(page: &mut Markup, shown: &ShownService) {
    let service = &shown.service;
    page.start(Element::Article);
    page.attribute(Attribute::Class, service.status().text());
    page.attribute(Attribute::Id, service.name().as_str());
    page.start_end();
    heading(page, service);
    track(page, service);
    waits(page, shown);
    if let Some(attempt) = &shown.attempts.present {
        runs_of(page, shown, attempt);
    }
    ended(page, shown);
    older(page, service, shown.runs.len());
    history(page, service.name(), shown.lines.as_slice());
    page.end(Element::Article);
}

// Draws the head of a card: the name, the status, the stable and the new version, the weight.
fn heading(page: &mut Markup, service: &Service) {
    page.begin(Element::Header);
    page.begin(Element::Heading2);
    page.text(service.name().as_str());
    page.end(Element::Heading2);
    badge(page, service.status().text());
    page.open(Element::Span, "attempt");
    page.text(service.stable().as_str());
    page.text(" → ");
    page.begin(Element::Strong);
    page.text(service.version().as_str());
    page.end(Element::Strong);
    page.end(Element::Span);
    bar(page, service);
    page.end(Element::Header);
}

// How many runs of earlier attempts are not drawn.
fn older(page: &mut Markup, service: &Service, drawn: usize) {
    let older = u64::from(service.run_count()).saturating_sub(drawn as u64);
    if older > 0 {
        page.open(Element::Paragraph, "older");
        counted(page, older, " run");
        page.text(" of earlier attempts not drawn.");
        page.end(Element::Paragraph);
    }
}
