//! The values of a template's arguments.
use crate::documents::ManifestObject;
use crate::draft::Draft;
use crate::filling::{has_place, has_place_of};
use crate::json::{list_at, member, push_key, text_at};
use crate::manifest_place::ManifestPlace;
use crate::unknown::{ARGUMENT, warn_of_others};
use crate::work::Conversion;
use canary_base::names::Label;
use serde_json::Value;

/// A template, as an analysis of a Rollout uses it.
#[derive(Clone, Copy)]
pub(crate) struct Case<'a> {
    pub(crate) template: ManifestObject<'a>,
    /// The Rollout and its analysis; none if no Rollout names the template.
    pub(crate) used_by: Option<(ManifestObject<'a>, &'a Value)>,
}

impl<'a> Case<'a> {
    /// The name of the Rollout, empty if there is none.
    pub(crate) fn service(&self) -> &'a str {
        match self.used_by {
            Some((rollout, _)) => rollout.name(),
            None => "",
        }
    }
}

/// What an argument is given.
#[derive(Clone, Copy)]
pub(crate) enum ArgumentValue<'a> {
    /// A text, a number or a truth.
    Value(&'a Value),
    /// What is known only as the agent measures: a `valueFrom`.
    Late(&'a Value),
    /// Nothing.
    Nothing,
    /// A field that the Rollout has not.
    NoField,
    /// A value that has a place to be filled in of its own.
    Nested,
    /// The template does not list the argument.
    Unlisted,
}

impl<'a> ArgumentValue<'a> {
    /// Whether there is a value, or the argument is not listed.
    pub(crate) fn is_given(self) -> bool {
        match self {
            ArgumentValue::Value(_) => true,
            ArgumentValue::Unlisted => true,
            _ => false,
        }
    }

    /// What it lacks, and what to write.
    pub(crate) fn lack(self) -> Lack {
        match self {
            ArgumentValue::Value(_) => lack_of_any("", ""),
            ArgumentValue::Late(_) => lack_of_any(
                "is known only as the agent measures",
                ": write a constant",
            ),
            ArgumentValue::Nothing => lack_of_rollout(
                "has no value for Rollout ",
                ": give it one in the args of its analysis",
            ),
            ArgumentValue::NoField => lack_of_rollout(
                "is a field that Rollout ",
                " has not, or that has no text: correct its fieldPath",
            ),
            ArgumentValue::Nested => lack_of_any(
                "has a value with {{args. in it",
                ": write that value out",
            ),
            ArgumentValue::Unlisted => lack_of_any(
                "is no argument of the template",
                ": add it to its spec.args",
            ),
        }
    }
}

/// What an argument lacks, and what to write.
#[derive(Clone, Copy)]
pub(crate) struct Lack {
    pub(crate) what: &'static str,
    /// Whether the name of the Rollout stands between the two.
    pub(crate) is_of_rollout: bool,
    pub(crate) instead: &'static str,
}

// What an argument lacks in every Rollout.
fn lack_of_any(what: &'static str, instead: &'static str) -> Lack {
    Lack {
        what,
        is_of_rollout: false,
        instead,
    }
}

// What an argument lacks in one Rollout, whose name stands between the two.
fn lack_of_rollout(what: &'static str, instead: &'static str) -> Lack {
    Lack {
        what,
        is_of_rollout: true,
        instead,
    }
}

/// What the argument of that name is given: by the analysis, or else by the template.
pub(crate) fn given_to<'a>(case: &Case<'a>, name: &str) -> ArgumentValue<'a> {
    let Some(own) = named(case.template.list("args"), name) else {
        return ArgumentValue::Unlisted;
    };
    match given_by_analysis(case, name) {
        ArgumentValue::Nothing => given_by(case, own),
        found => found,
    }
}

// What the Rollout's analysis gives that argument; `Nothing` also if no Rollout uses the template.
fn given_by_analysis<'a>(case: &Case<'a>, name: &str) -> ArgumentValue<'a> {
    let Some((_, analysis)) = case.used_by else {
        return ArgumentValue::Nothing;
    };
    match named(list_at(analysis, "args"), name) {
        Some(argument) => given_by(case, argument),
        None => ArgumentValue::Nothing,
    }
}

// The argument of that name in a list.
fn named<'a>(arguments: Option<&'a Vec<Value>>, name: &str) -> Option<&'a Value> {
    for argument in arguments? {
        if text_at(argument, "name") == name {
            return Some(argument);
        }
    }
    None
}

// What this argument gives: its `value`, or else what its `valueFrom` leads to.
fn given_by<'a>(case: &Case<'a>, argument: &'a Value) -> ArgumentValue<'a> {
    if let Some(value) = member(argument, "value") {
        return plain(value);
    }
    let Some(source) = member(argument, "valueFrom") else {
        return ArgumentValue::Nothing;
    };
    match (member(source, "fieldRef"), case.used_by) {
        (Some(field), Some((rollout, _))) => {
            match field_of(rollout.value, text_at(field, "fieldPath")) {
                Some(value) if is_plain(value) => plain(value),
                _ => ArgumentValue::NoField,
            }
        }
        (Some(_), None) => ArgumentValue::Nothing,
        (None, _) => ArgumentValue::Late(source),
    }
}

// This value, or `Nested` if it is a text with a place of its own: places are filled in once.
fn plain(value: &Value) -> ArgumentValue<'_> {
    if has_place(value.as_str().unwrap_or("")) {
        return ArgumentValue::Nested;
    }
    ArgumentValue::Value(value)
}

// Whether it is a text, a number or a truth.
fn is_plain(value: &Value) -> bool {
    !value.is_null() && !value.is_array() && !value.is_object()
}

// ---- fields of a Rollout

// The value to which a path leads, as `metadata.labels['app.kubernetes.io/name']`.
fn field_of<'a>(rollout: &'a Value, path: &str) -> Option<&'a Value> {
    let mut found = rollout;
    let mut is_quoted = false;
    for part in path.split("'") {
        found = if is_quoted {
            found.get(part)?
        } else {
            plain_field_of(found, part)?
        };
        is_quoted = !is_quoted;
    }
    Some(found)
}

// The same of a path without quotes. Brackets stand round quotes.
fn plain_field_of<'a>(value: &'a Value, path: &str) -> Option<&'a Value> {
    let mut found = value;
    for part in path.split(".") {
        let key = part.trim_start_matches("]").trim_end_matches("[");
        if !key.is_empty() {
            found = found.get(key)?;
        }
    }
    Some(found)
}

// ---- lists of arguments

const NAME: &str = "expected 1 to 63 bytes of A-Z a-z 0-9 . _ -";

const SOURCE: &str = "expected fieldRef with a fieldPath, podTemplateHashValue with Latest or \
    Stable, or secretKeyRef with a name and a key";

/// Adds what is wrong in a list of arguments at that place.
pub(crate) fn tell_arguments(
    work: &mut Conversion,
    place: ManifestPlace,
    inner: &'static str,
    arguments: &Vec<Value>,
) {
    for (index, argument) in arguments.iter().enumerate() {
        tell_argument(work, place.inner(inner, index), argument);
    }
}

// Adds that an argument has an invalid name, a list or an object as its value, or no such source,
// and warns of a member that Argo does not know.
fn tell_argument(work: &mut Conversion, place: ManifestPlace, argument: &Value) {
    warn_of_others(work, place, argument, &ARGUMENT);
    if Label::read(text_at(argument, "name").as_bytes()).is_none() {
        work.tell(place.end("name"), &[NAME]);
    }
    if !member(argument, "value").is_none_or(is_plain) {
        work.tell(place.end("value"), &["expected a text"]);
    }
    if !member(argument, "valueFrom").is_none_or(is_source) {
        work.tell(place.end("valueFrom"), &[SOURCE]);
    }
}

// Whether a `valueFrom` is a field, a secret or the hash of a pod template, with all it needs.
fn is_source(source: &Value) -> bool {
    if let Some(field) = member(source, "fieldRef") {
        return !text_at(field, "fieldPath").is_empty();
    }
    if let Some(secret) = member(source, "secretKeyRef") {
        return !text_at(secret, "name").is_empty() && !text_at(secret, "key").is_empty();
    }
    let hash = text_at(source, "podTemplateHashValue");
    hash == "Latest" || hash == "Stable"
}

/// Appends the arguments that are known only as the agent measures, and of which the provider has a
/// place: the members of an object.
pub(crate) fn push_late(case: &Case, provider: &str, out: &mut Draft) {
    let Some(arguments) = case.template.list("args") else {
        return;
    };
    for argument in arguments {
        let name = text_at(argument, "name");
        if has_place_of(provider, name) {
            push_if_late(given_to(case, name), name, out);
        }
    }
}

// Appends the argument as a member, if it is late, with its source as the value.
fn push_if_late(given: ArgumentValue, name: &str, out: &mut Draft) {
    if let ArgumentValue::Late(source) = given {
        push_key(out, name);
        out.put_value(source);
    }
}
