//! Attempts that ended.
use crate::charts::figure::counted;
use crate::parts::attempts::{Attempt, Ending};
use crate::parts::run::runs_of;
use crate::shown::ShownService;
use crate::time::stamp;
use canary_page_html::element::Element;
use canary_page_html::markup::Markup;

// Draws the attempts that ended not long ago, each folded, with its runs.
pub(crate) fn ended(page: &mut Markup, shown: &ShownService) {
    for attempt in &shown.attempts.recent {
        draw_ended(page, shown, attempt);
    }
}

// Draws an attempt that ended: its summary, and its runs, which are shown when it is unfolded.
fn draw_ended(page: &mut Markup, shown: &ShownService, attempt: &Attempt) {
    page.open(Element::Details, "ended");
    summary(page, shown, attempt);
    runs_of(page, shown, attempt);
    page.end(Element::Details);
}

// Draws what a folded attempt shows: its version, its start, its ending, and how many runs it has.
fn summary(page: &mut Markup, shown: &ShownService, attempt: &Attempt) {
    page.begin(Element::Summary);
    page.text("Attempt of ");
    page.text(attempt.version.as_str());
    page.text(", begun ");
    stamp(page, attempt.begun);
    ending(page, attempt);
    page.text("; ");
    counted(page, u64::from(attempt.runs), " run");
    unmeasured(page, shown.unmeasured(attempt));
    page.end(Element::Summary);
}

// Draws how and when an attempt ended; nothing if it is under way.
fn ending(page: &mut Markup, attempt: &Attempt) {
    let Some((moment, ending)) = attempt.end else {
        return;
    };
    match ending {
        Ending::Finished => page.text(", done "),
        Ending::Aborted => page.text(", aborted by a command "),
        Ending::AbortedBy(run) => {
            page.text(", aborted by run ");
            page.number(u64::from(run));
            page.text(" ");
        }
        Ending::Replaced => page.text(", until the next one began "),
    }
    stamp(page, moment);
}

// How many runs ended without a measurement, if some did.
fn unmeasured(page: &mut Markup, count: u64) {
    if count > 0 {
        page.text(", ");
        page.open(Element::Strong, "unmeasured");
        page.number(count);
        page.text(" without a measurement");
        page.end(Element::Strong);
    }
}
