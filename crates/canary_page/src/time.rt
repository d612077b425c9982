//! Moments and spans of time, for people.
use canary_base::moments::Moment;
use canary_page_html::element::{Attribute, Element};
use canary_page_html::markup::Markup;

const MINUTE: u64 = 60;

const HOUR: u64 = 3_600;

const DAY: u64 = 86_400;

// A moment as an element, with its date.
pub(crate) fn stamp(page: &mut Markup, moment: Moment) {
    page.start(Element::Time);
    page.value(Attribute::Moment);
    page.moment(moment);
    page.value_end();
    page.start_end();
    page.moment(moment);
    page.end(Element::Time);
}

// The time of the day, in UTC, or the whole moment if that is more than a day away.
pub(crate) fn near(page: &mut Markup, moment: Moment, now: Moment) {
    dated(page, moment, is_far(moment, now));
}

// Whether a moment is more than a day away.
pub(crate) fn is_far(moment: Moment, now: Moment) -> bool {
    let (at, now) = (moment.get(), now.get());
    now.saturating_sub(at) > DAY || at.saturating_sub(now) > DAY
}

// The time of the day, in UTC, or with a date the whole moment.
pub(crate) fn dated(page: &mut Markup, moment: Moment, has_date: bool) {
    if has_date {
        page.moment(moment);
    } else {
        clock(page, moment);
    }
}

// The time of the day, in UTC: `HH:MM:SS`.
pub(crate) fn clock(page: &mut Markup, moment: Moment) {
    let second = moment.get() % DAY;
    two_digits(page, second / HOUR);
    page.text(":");
    two_digits(page, second % HOUR / MINUTE);
    page.text(":");
    two_digits(page, second % MINUTE);
}

// Writes a number below 100 in two digits.
fn two_digits(page: &mut Markup, number: u64) {
    if number < 10 {
        page.text("0");
    }
    page.number(number);
}

// So many seconds, as manifests write durations: `1h30m`.
pub(crate) fn span(page: &mut Markup, seconds: u64) {
    part(page, seconds / HOUR, "h");
    part(page, seconds % HOUR / MINUTE, "m");
    part(page, seconds % MINUTE, "s");
    if seconds == 0 {
        page.text("0s");
    }
}

// Writes a number with its unit; nothing if it is 0.
fn part(page: &mut Markup, number: u64, unit: &str) {
    if number > 0 {
        page.number(number);
        page.text(unit);
    }
}

// How long ago that was, in one unit.
pub(crate) fn since(page: &mut Markup, moment: Moment, now: Moment) {
    let seconds = now.get().saturating_sub(moment.get());
    if seconds < 2 * MINUTE {
        counted(page, seconds, " s");
    } else if seconds < 2 * HOUR {
        counted(page, seconds / MINUTE, " min");
    } else if seconds < 2 * DAY {
        counted(page, seconds / HOUR, " h");
    } else {
        counted(page, seconds / DAY, " days");
    }
}

// Writes a number with its unit, also if it is 0.
fn counted(page: &mut Markup, number: u64, unit: &str) {
    page.number(number);
    page.text(unit);
}
