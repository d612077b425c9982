//! What is found in a metric of a template.
use crate::condition::expected;
use crate::decimal::{decimal_at, numbers_of};
use crate::instead::instead;
use crate::json_place::JsonPlace;
use crate::lines::Lines;
use crate::members::{LABEL, tell_wrong};
use crate::trial::refusal_of_times;
use canary_base::durations::LONGEST;
use canary_base::error::Memory;
use canary_base::names::Label;
use canary_canonical::form::{FormFault, label_in};
use canary_condition::explanation::explain;
use canary_manifest::member::{
    condition_at, count_at, delay_at, duration_at, is_negative, limit_at, member_of,
};
use canary_plan::refusal::Refusal;
use serde_json::Value;
use std::alloc::Global;

const DURATION: &str = "a duration in a text, as 90s or 1h30m, up to 8760h";

const LIMIT: &str = "0 to 1,000,000, a whole number or a text of digits";

/// The name of a metric, if it is one.
pub(crate) fn metric_name(metric: &Value) -> Option<Label> {
    label_in(member_of(metric, "name")?)
}

/// Adds what is found in a metric, but for what its template refuses.
pub(crate) fn tell_metric(lines: &mut Lines, place: JsonPlace, metric: &Value) {
    if metric_name(metric).is_none() {
        tell_wrong(lines, place, metric, "name", LABEL);
    }
    tell_condition(lines, place, metric, "successCondition");
    tell_condition(lines, place, metric, "failureCondition");
    tell_times(lines, place, metric);
    tell_limits(lines, place, metric);
}

// Adds why the condition under that key has no reading, if it has none.
fn tell_condition(lines: &mut Lines, place: JsonPlace, metric: &Value, key: &str) {
    match condition_at(lines.alloc, metric, key) {
        Ok(None) => {}
        Ok(Some(text)) => tell_text(lines, place, metric, key, text.as_str()),
        Err(FormFault::Unreadable) => lines.tell(place, key, "a condition in a text"),
        Err(FormFault::Memory) => lines.refuse(),
    }
}

// Adds at which byte a text stops being a condition, if it does, and what to write instead.
fn tell_text(lines: &mut Lines, place: JsonPlace, metric: &Value, key: &str, text: &str) {
    let Some(explained) = explain(text) else {
        return;
    };
    lines.tell_byte(place, key, explained.at, expected(explained.why));
    lines.quote(text.as_bytes(), explained.at as usize);
    if let Some(decimal) = decimal_at(text, explained) {
        return decimal.tell(lines, numbers_of(metric));
    }
    lines.instead_if(instead(text.as_bytes(), explained));
}

// Adds what is found in when, how often and until when a metric is measured.
fn tell_times(lines: &mut Lines, place: JsonPlace, metric: &Value) {
    if duration_at(metric, "interval").is_none() {
        tell_duration(lines, place, metric, "interval");
    }
    if delay_at(metric, "initialDelay").is_none() {
        tell_duration(lines, place, metric, "initialDelay");
    }
    if count_at(metric, "count").is_none() {
        lines.tell(place, "count", LIMIT);
    }
    if count_at(metric, "passAfter").is_none() {
        lines.tell(place, "passAfter", LIMIT);
    }
    let needs_interval = needs_interval(lines.alloc, metric);
    if lines.holds(needs_interval) {
        lines.tell(place, "interval", "an interval, since the count is above 1");
    }
}

// Adds that a duration is expected under that key, and of a number of seconds how to write it.
fn tell_duration(lines: &mut Lines, place: JsonPlace, metric: &Value, key: &str) {
    lines.tell(place, key, DURATION);
    if let Some(seconds) = member_of(metric, key).and_then(seconds_in)
        && seconds <= LONGEST as u64
    {
        lines.instead_in_seconds(seconds);
    }
}

// The whole number that a member is, or that its text spells in digits alone.
fn seconds_in(member: &Value) -> Option<u64> {
    match member.as_str() {
        Some(text) if text.as_bytes().iter().all(|byte| byte.is_ascii_digit()) => {
            text.parse::<u64>().ok()
        }
        Some(_) => None,
        None => member.as_u64(),
    }
}

// Whether the desk wants an interval beside its count.
fn needs_interval(alloc: Global, metric: &Value) -> Result<bool, Memory> {
    let Some(interval) = duration_at(metric, "interval") else {
        return Ok(false);
    };
    let Some(count) = count_at(metric, "count") else {
        return Ok(false);
    };
    let refusal = refusal_of_times(alloc, interval, count)?;
    Ok(matches!(refusal, Some(Refusal::IntervalNeeded)))
}

// Adds which limits of a metric are invalid, and which the desk does not support.
fn tell_limits(lines: &mut Lines, place: JsonPlace, metric: &Value) {
    if member_of(metric, "failureLimit").is_some_and(is_negative) {
        lines.tell(place, "failureLimit", "no limit below 0 (unsupported)");
    } else {
        tell_limit(lines, place, metric, "failureLimit");
    }
    tell_limit(lines, place, metric, "inconclusiveLimit");
    tell_limit(lines, place, metric, "consecutiveErrorLimit");
    if member_of(metric, "consecutiveSuccessLimit").is_some() {
        lines.tell(
            place,
            "consecutiveSuccessLimit",
            "no such limit (unsupported)",
        );
    }
}

// Adds that the limit under that key is invalid; an absent one is fine.
fn tell_limit(lines: &mut Lines, place: JsonPlace, metric: &Value, key: &str) {
    match limit_at(metric, key, 0) {
        Some(_) => {}
        None => lines.tell(place, key, LIMIT),
    }
}
