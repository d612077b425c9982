//! What is found in the members of any object.
use crate::json_place::JsonPlace;
use crate::lines::Lines;
use canary_base::names::Label;
use canary_canonical::form::{label_at, name_at};
use canary_manifest::member::member_of;
use serde_json::{Map, Value};

/// What a name is.
pub(crate) const NAME: &str = "1 to 63 bytes of a-z 0-9 -, the first and the last no -";

/// What a label is.
pub(crate) const LABEL: &str = "1 to 63 bytes of A-Z a-z 0-9 . _ -";

/// The key if it is a plain word, else nothing.
pub(crate) fn key_shown(key: &str) -> &str {
    match Label::read(key.as_bytes()) {
        Some(_) => key,
        None => "",
    }
}

/// Adds each member of an object whose key is none of these. Of what is no object the
/// members that lack are reported elsewhere.
pub(crate) fn tell_members(
    lines: &mut Lines,
    place: JsonPlace,
    value: &Value,
    known: &[&str],
    what: &str,
) {
    match value.as_object() {
        Some(members) => tell_foreign(lines, place, members, known, what),
        None => {}
    }
}

// The same of these members of an object. A key that is no label is not shown.
fn tell_foreign(
    lines: &mut Lines,
    place: JsonPlace,
    members: &Map<String, Value>,
    known: &[&str],
    what: &str,
) {
    for (key, _) in members.iter() {
        if !is_known(known, key.as_str()) {
            lines.tell(place, key_shown(key.as_str()), what);
        }
    }
}

/// Whether the key is one of these.
pub(crate) fn is_known(known: &[&str], key: &str) -> bool {
    known.iter().any(|name| *name == key)
}

/// Adds what is expected under that key, and if nothing is there, that it is missing.
pub(crate) fn tell_wrong(
    lines: &mut Lines,
    place: JsonPlace,
    value: &Value,
    key: &str,
    what: &str,
) {
    match member_of(value, key) {
        Some(_) => lines.tell(place, key, what),
        None => lines.tell_missing(place, key, what),
    }
}

/// Adds that the member of that key is no name.
pub(crate) fn tell_name(lines: &mut Lines, place: JsonPlace, value: &Value, key: &str) {
    match name_at(value, key) {
        Some(_) => {}
        None => tell_wrong(lines, place, value, key, NAME),
    }
}

/// Adds that the member of that key is no label.
pub(crate) fn tell_label(lines: &mut Lines, place: JsonPlace, value: &Value, key: &str) {
    match label_at(value, key) {
        Some(_) => {}
        None => tell_wrong(lines, place, value, key, LABEL),
    }
}
