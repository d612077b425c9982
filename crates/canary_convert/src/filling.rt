//! Places to be filled in: `{{args.NAME}}`, with spaces inside the brackets or without.
//!
//! A place in a text of JSON stands within a text, since two brackets in a row open nowhere else.
use crate::arguments::{ArgumentValue, Case, Lack, given_to};
use crate::draft::Draft;
use crate::json::push_escaped;
use crate::manifest_place::ManifestPlace;
use crate::work::Conversion;
use serde_json::Value;

/// In what text places are filled in.
#[derive(Clone, Copy)]
pub(crate) enum Mode {
    /// A text as it is, that the desk reads.
    Plain,
    /// A text of JSON that the desk reads.
    Json,
    /// A text of JSON for the agent. What it finds out as it measures stays as a place.
    Late,
}

/// Whether the text has a place.
pub(crate) fn has_place(text: &str) -> bool {
    for piece in text.split("}}") {
        if place_in(piece).is_some() {
            return true;
        }
    }
    false
}

/// Whether the text has a place for that argument.
pub(crate) fn has_place_of(text: &str, name: &str) -> bool {
    for piece in text.split("}}") {
        if let Some((_, found)) = place_in(piece) {
            if found == name {
                return true;
            }
        }
    }
    false
}

// Of a piece that ends before two closing brackets: what stands before the place at its end, and
// the name of the argument.
fn place_in(piece: &str) -> Option<(&str, &str)> {
    let (before, inside) = piece.rsplit_once("{{")?;
    let name = inside.trim().strip_prefix("args.")?;
    if name.contains("\"") {
        return None;
    }
    Some((before, name))
}

/// Appends the text with its places filled in. If one cannot be, it reports that,
/// and returns false.
pub(crate) fn push_filled(
    work: &mut Conversion,
    case: &Case,
    place: ManifestPlace,
    mode: Mode,
    text: &str,
    out: &mut Draft,
) -> bool {
    let mut is_filled = true;
    let mut held = None;
    for piece in text.split("}}") {
        if let Some(held) = held {
            let is_this = push_piece(work, case, place, mode, held, out);
            is_filled = is_filled && is_this;
        }
        held = Some(piece);
    }
    out.put(held.unwrap_or(""));
    is_filled
}

// The same of a piece, and the two closing brackets after it.
fn push_piece(
    work: &mut Conversion,
    case: &Case,
    place: ManifestPlace,
    mode: Mode,
    piece: &str,
    out: &mut Draft,
) -> bool {
    match place_in(piece) {
        Some((before, name)) => {
            out.put(before);
            push_argument(work, case, place, mode, name, out)
        }
        None => {
            out.put(piece);
            out.put("}}");
            true
        }
    }
}

// Appends what an argument is given.
fn push_argument(
    work: &mut Conversion,
    case: &Case,
    place: ManifestPlace,
    mode: Mode,
    name: &str,
    out: &mut Draft,
) -> bool {
    match given_to(case, name) {
        ArgumentValue::Value(value) => {
            push_given(mode, value, out);
            true
        }
        ArgumentValue::Late(_) if matches!(mode, Mode::Late) => {
            push_place(name, out);
            true
        }
        lacking => {
            tell_lack(work, case, place, name, lacking.lack());
            false
        }
    }
}

// Adds what an argument lacks, at the text that has a place of it.
fn tell_lack(work: &mut Conversion, case: &Case, place: ManifestPlace, name: &str, lack: Lack) {
    if lack.is_of_rollout {
        tell_parts(work, place, name, lack.what, case.service(), lack.instead);
    } else {
        tell_parts(work, place, name, lack.what, "", lack.instead);
    }
}

// The same in parts, with the name of the Rollout or none between the two.
fn tell_parts<'a>(
    work: &mut Conversion,
    place: ManifestPlace,
    name: &'a str,
    what: &'a str,
    rollout: &'a str,
    instead: &'a str,
) {
    work.tell(place, &["{{args.", name, "}} ", what, rollout, instead]);
}

// Appends a value: a text as it is in `Plain`, else escaped without quotes; any other as JSON.
fn push_given(mode: Mode, value: &Value, out: &mut Draft) {
    match value.as_str() {
        Some(text) if matches!(mode, Mode::Plain) => out.put(text),
        Some(text) => push_escaped(out, text),
        None => out.put_value(value),
    }
}

// Appends a place of that argument again, for the agent to fill in.
fn push_place(name: &str, out: &mut Draft) {
    out.put("{{args.");
    out.put(name);
    out.put("}}");
}

/// Whether each place of the text can be filled in, but for those of arguments that the template
/// does not list.
pub(crate) fn is_given(case: &Case, text: &str) -> bool {
    for piece in text.split("}}") {
        if let Some((_, name)) = place_in(piece) {
            if !given_to(case, name).is_given() {
                return false;
            }
        }
    }
    true
}
