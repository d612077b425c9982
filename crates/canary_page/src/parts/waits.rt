//! What a release waits for, and what can be said to it.
use crate::charts::figure::counted;
use crate::late::late_since;
use crate::shown::{AttentionLevel, ShownService, step_of};
use crate::time::{near, since, span};
use crate::words::metric_name;
use canary_base::durations::Seconds;
use canary_base::moments::Moment;
use canary_base::names::{Label, Name};
use canary_metric::metric::Metric;
use canary_metric::tally::Tally;
use canary_page_html::element::Element;
use canary_page_html::markup::Markup;
use canary_plan::line::{Line, LineEvent};
use canary_plan::step::Step;
use canary_release::runs::OpenRun;
use canary_release::service::Service;

// The most measurements of a run that are named as late.
const MAX_LATE: u64 = 8;

// What is late, that nothing is measured beside the steps any more, one sentence, and the commands
// that can be given now.
pub(crate) fn waits(page: &mut Markup, shown: &ShownService) {
    let (service, now) = (&shown.service, shown.now);
    late(page, shown);
    if shown.is_background_spent() {
        spent(page);
    }
    page.open(Element::Paragraph, "waits");
    match AttentionLevel::of(service, now) {
        AttentionLevel::Aborted => aborted(page, service, shown.lines.as_slice()),
        AttentionLevel::Held => held(page, service),
        AttentionLevel::Waits => at_pause(page, service, now),
        AttentionLevel::Late | AttentionLevel::Goes => goes(page, service, now),
        AttentionLevel::Done => done(page, service),
    }
    page.end(Element::Paragraph);
}

// Why a release was aborted, which version is to have all traffic, and what can be said to it.
fn aborted(page: &mut Markup, service: &Service, lines: &[Line]) {
    match cause_of(lines) {
        Some(run) => {
            page.text("Aborted by the verdict of run ");
            page.number(u64::from(run));
        }
        None => page.text("Aborted by a command"),
    }
    page.text(". ");
    page.text(service.stable().as_str());
    page.text(" is to have all traffic.");
    say(page, "canary do retry ", service.name());
    say_start(page, service.name(), service.stable());
}

// The run whose verdict aborted the release last; none if a command did.
fn cause_of(lines: &[Line]) -> Option<u32> {
    let mut cause = None;
    for line in lines {
        match line.event {
            LineEvent::AbortedBy { run } => cause = Some(run),
            LineEvent::Aborted => cause = None,
            _ => {}
        }
    }
    cause
}

// Which analyses hold a release, and what can be said to it.
fn held(page: &mut Markup, service: &Service) {
    page.text("Held: ");
    if service.step_hold() {
        page.text("the analysis of step ");
        page.number(u64::from(service.step()));
    }
    if service.step_hold() && service.background_hold() {
        page.text(", and ");
    }
    if service.background_hold() {
        page.text("the background analysis");
    }
    page.text(" is Inconclusive. Somebody has to decide.");
    say_in_progress(page, service);
}

// The commands that promote and abort a release, which can be given if it pauses or is held.
fn say_in_progress(page: &mut Markup, service: &Service) {
    say(page, "canary do promote ", service.name());
    say(page, "canary do abort ", service.name());
}

// Since when a release is at a pause without an end, and what can be said to it.
fn at_pause(page: &mut Markup, service: &Service, now: Moment) {
    page.text("Waits for a promotion, since ");
    near(page, service.entered(), now);
    page.text(" (");
    since(page, service.entered(), now);
    page.text(").");
    say_in_progress(page, service);
}

// What goes on by itself: a pause with an end, or else an analysis.
fn goes(page: &mut Markup, service: &Service, now: Moment) {
    match step_of(service) {
        Some(Step::Pause(Some(seconds))) => pauses(page, service, *seconds, now),
        _ => analysed(page, service, now),
    }
}

// How long a pause is, and when it ends, if that is a moment.
fn pauses(page: &mut Markup, service: &Service, seconds: Seconds, now: Moment) {
    let seconds = u64::from(seconds.get());
    page.text("Pauses for ");
    span(page, seconds);
    if let Some(end) = Moment::new(service.entered().get().saturating_add(seconds)) {
        page.text(", until ");
        near(page, end, now);
    }
    page.text(".");
    say_in_progress(page, service);
}

// Since when an analysis goes on, and the command that aborts it: there is no pause to end.
fn analysed(page: &mut Markup, service: &Service, now: Moment) {
    page.text("Is analysed, since ");
    near(page, service.entered(), now);
    page.text(" (");
    since(page, service.entered(), now);
    page.text(").");
    say(page, "canary do abort ", service.name());
}

// Which version is the stable one, after a release that is done.
fn done(page: &mut Markup, service: &Service) {
    page.text(service.version().as_str());
    page.text(" is the stable version.");
}

// A command of the client that can be given now, to copy: `canary do promote web`.
fn say(page: &mut Markup, words: &str, name: Name) {
    begin_say(page, words, name);
    page.end(Element::Code);
}

// The command that starts that version, to copy.
fn say_start(page: &mut Markup, name: Name, version: Label) {
    begin_say(page, "canary do start ", name);
    page.text(" ");
    page.text(version.as_str());
    page.end(Element::Code);
}

// The start of a command to copy, up to the service's name; its element does not end here.
fn begin_say(page: &mut Markup, words: &str, name: Name) {
    page.text(" ");
    page.open(Element::Code, "say");
    page.text(words);
    page.text(name.as_str());
}

// A paragraph that says why nothing is measured beside the steps any more.
fn spent(page: &mut Markup) {
    page.open(Element::Paragraph, "unmeasured");
    page.text("Nothing is measured beside the steps any more: the background analysis ended ");
    page.text("Inconclusive, the release was promoted, and the desk opens no other run of the ");
    page.text("background in this attempt.");
    page.end(Element::Paragraph);
}

// A paragraph for each measurement that is late: which one, and since when it has been due.
fn late(page: &mut Markup, shown: &ShownService) {
    for run in shown.service.open_runs() {
        late_of(page, run, shown.now);
    }
}

// A paragraph for each late measurement of a run: for the first 8, and one for all others.
fn late_of(page: &mut Markup, run: &OpenRun, now: Moment) {
    let metrics = run.analysis.metrics().iter();
    let mut count: u64 = 0;
    for (metric, tally) in metrics.zip(run.tallies.as_slice()) {
        if let Some(due) = late_since(metric, tally, run.started, now) {
            if count < MAX_LATE {
                late_one(page, run, metric, tally);
                since_due(page, due, now);
            }
            count = count.saturating_add(1);
        }
    }
    if count > MAX_LATE {
        further(page, count - MAX_LATE);
    }
}

// The start of the paragraph of a metric's next measurement.
fn late_one(page: &mut Markup, run: &OpenRun, metric: &Metric, tally: &Tally) {
    page.open(Element::Paragraph, "late");
    page.text("Late: measurement ");
    page.number(u64::from(tally.measurements()).saturating_add(1));
    page.text(" of ");
    metric_name(page, metric.name());
    page.text(", ");
    place(page, run);
}

// A paragraph that says how many more measurements of a run are late.
fn further(page: &mut Markup, count: u64) {
    page.open(Element::Paragraph, "late");
    page.text("Late: ");
    counted(page, count, " further measurement");
    page.text(".");
    page.end(Element::Paragraph);
}

// Which run that is.
fn place(page: &mut Markup, run: &OpenRun) {
    page.text("run ");
    page.number(u64::from(run.number));
    if run.step.is_none() {
        page.text(" of the background");
    }
}

// The end of the paragraph of a late measurement: since when it has been due.
fn since_due(page: &mut Markup, due: Moment, now: Moment) {
    page.text(", due since ");
    near(page, due, now);
    page.text(" (");
    since(page, due, now);
    page.text(").");
    page.end(Element::Paragraph);
}
