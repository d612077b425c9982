//! What is found in a report.
use crate::json_place::JsonPlace;
use crate::lines::Lines;
use crate::members::{tell_label, tell_members, tell_name};
use canary_canonical::form::{label_at, moment_in, number_at};
use canary_canonical::plain::MAX_ENTRIES;
use canary_condition::outcome::{MAX_FAILURE_BYTES, MAX_VALUES};
use serde_json::Value;

// The greatest number of a run, and the greatest ordinal of a measurement.
const GREATEST: u32 = 1_000_000_000;

const MEMBERS: &str = "no member but service, run and entries";

const NUMBER: &str = "a whole number, 1 to 1,000,000,000";

const ENTRIES: &str = "a list of 1 to 32 entries";

const ENTRY_MEMBERS: &str = "no member but metric, ordinal, taken and one of result and failure";

const TAKEN: &str = "seconds from 1970 as a whole number, 0 to 253370764799";

const OUTCOME: &str = "exactly one of result and failure";

const RESULT: &str = "a signed whole number of 64 bits, or a list of 1 to 16 of them";

const FAILURE: &str = "a text of 1 to 200 bytes";

/// Adds what is found in the report there.
pub(crate) fn tell_report(lines: &mut Lines, place: JsonPlace, value: &Value) {
    tell_members(lines, place, value, &["service", "run", "entries"], MEMBERS);
    tell_name(lines, place, value, "service");
    tell_number(lines, place, value, "run");
    match value.get("entries").and_then(|entries| entries.as_array()) {
        Some(list) => tell_entries(lines, place, list),
        None => lines.tell(place, "entries", ENTRIES),
    }
}

// Adds that no number from 1 to 1,000,000,000 is under that key.
fn tell_number(lines: &mut Lines, place: JsonPlace, value: &Value, key: &str) {
    match number_at(value, key, GREATEST) {
        Some(number) if number > 0 => {}
        _ => lines.tell(place, key, NUMBER),
    }
}

// Adds that there are no entries or too many, and what is found in each.
fn tell_entries(lines: &mut Lines, place: JsonPlace, list: &Vec<Value>) {
    if list.is_empty() || list.len() > MAX_ENTRIES {
        lines.tell(place, "entries", ENTRIES);
    }
    for (index, entry) in list.iter().enumerate() {
        let place = place.item("entries", index);
        tell_entry(lines, place, entry);
        tell_if_repeated(lines, place, list, index);
    }
}

// Adds what is found in an entry by itself.
fn tell_entry(lines: &mut Lines, place: JsonPlace, entry: &Value) {
    tell_members(
        lines,
        place,
        entry,
        &["metric", "ordinal", "taken", "result", "failure"],
        ENTRY_MEMBERS,
    );
    tell_label(lines, place, entry, "metric");
    tell_number(lines, place, entry, "ordinal");
    if entry.get("taken").and_then(moment_in).is_none() {
        lines.tell(place, "taken", TAKEN);
    }
    match (entry.get("result"), entry.get("failure")) {
        (Some(result), None) => tell_result(lines, place, result),
        (None, Some(failure)) => tell_failure(lines, place, failure),
        _ => lines.tell(place, "", OUTCOME),
    }
}

// Adds that a result is invalid, and what to report instead.
fn tell_result(lines: &mut Lines, place: JsonPlace, measured: &Value) {
    if is_result(measured) {
        return;
    }
    lines.tell(place, "result", RESULT);
    match instead_of_result(measured) {
        Some(what) => lines.instead(what),
        None => {}
    }
}

// Whether it is an integer of 64 bits with a sign, or a list of 1 to 16 of them.
fn is_result(measured: &Value) -> bool {
    match measured.as_array() {
        Some(list) => {
            !list.is_empty()
                && list.len() <= MAX_VALUES
                && list.iter().all(|item| item.as_i64().is_some())
        }
        None => measured.as_i64().is_some(),
    }
}

// What to report in place of an invalid result; nothing of a list or an object.
fn instead_of_result(measured: &Value) -> Option<&'static str> {
    match measured {
        Value::Number(_) => Some("report whole numbers: a share of 0.95 as 95 hundredths"),
        Value::String(_) => Some("report 1 for the text that is wanted, and 0 for others"),
        Value::Bool(_) => Some("report 1 for true and 0 for false"),
        Value::Null => Some("report a failure if there is no value"),
        _ => None,
    }
}

// Adds that a failure is no text of 1 to 200 bytes.
fn tell_failure(lines: &mut Lines, place: JsonPlace, failure: &Value) {
    match failure.as_str() {
        Some(text) if !text.is_empty() && text.len() <= MAX_FAILURE_BYTES => {}
        _ => lines.tell(place, "failure", FAILURE),
    }
}

// Adds that an entry before this one names its metric.
fn tell_if_repeated(lines: &mut Lines, place: JsonPlace, list: &Vec<Value>, index: usize) {
    if index < MAX_ENTRIES && is_repeated(list, index) {
        return lines.tell(place, "metric", "a metric that no entry before it names");
    }
}

// Whether an entry before that index names the same metric; an invalid name is never repeated.
fn is_repeated(list: &Vec<Value>, index: usize) -> bool {
    let Some(name) = list.get(index).and_then(|entry| label_at(entry, "metric")) else {
        return false;
    };
    list.iter()
        .take(index)
        .any(|entry| label_at(entry, "metric") == Some(name))
}
