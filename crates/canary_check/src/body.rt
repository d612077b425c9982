//! What is found in the body of a request.
use crate::json_place::JsonPlace;
use crate::lines::Lines;
use crate::members::{is_known, key_shown, tell_label, tell_members, tell_name};
use crate::report::tell_report;
use crate::rollout::tell_rollout;
use crate::template::tell_template;
use canary_canonical::form::only_member;
use canary_manifest::member::member_of;
use serde_json::Value;

const BODY: &str = "an object with exactly one member, whose key is the command";

const COMMANDS: &str =
    "template, service, start, promote, promoteFull, abort, retry, tick or report";

// The keys of the commands of a service alone.
const SERVICE_ALONE: [&str; 5] = ["promote", "promoteFull", "abort", "retry", "tick"];

// The keys of those that say more.
const WITH_MORE: [&str; 4] = ["template", "service", "start", "report"];

const MANIFEST: &str = "write {\"template\":MANIFEST}, \
    or {\"service\":{\"version\":\"v1\",\"manifest\":MANIFEST}}";

/// Whether a command has this key.
pub(crate) fn is_command(key: &str) -> bool {
    is_known(&SERVICE_ALONE, key) || is_known(&WITH_MORE, key)
}

/// Adds what is found in the body.
pub(crate) fn tell_body(lines: &mut Lines, body: &Value) {
    match only_member(body) {
        Some((kind, value)) => tell_command(lines, kind, value),
        None => tell_no_command(lines, body),
    }
}

// Adds that a body is no object of one member, and for a bare manifest what to write instead.
fn tell_no_command(lines: &mut Lines, body: &Value) {
    lines.tell(JsonPlace::at(""), "body", BODY);
    match member_of(body, "kind") {
        Some(_) => lines.instead(MANIFEST),
        None => {}
    }
}

// Adds what is found in the value of a command of that kind, or that no command has that kind.
fn tell_command(lines: &mut Lines, kind: &str, value: &Value) {
    match kind {
        "template" => tell_template(lines, JsonPlace::at(kind), value),
        "service" => tell_service(lines, JsonPlace::at(kind), value),
        "start" => tell_start(lines, JsonPlace::at(kind), value),
        "report" => tell_report(lines, JsonPlace::at(kind), value),
        _ if is_known(&SERVICE_ALONE, kind) => { tell_named(lines, JsonPlace::at(kind), value) }
        _ => tell_kind(lines, kind),
    }
}

// Adds that no command has this key.
fn tell_kind(lines: &mut Lines, kind: &str) {
    let key = match key_shown(kind) {
        "" => "body",
        key => key,
    };
    lines.tell(JsonPlace::at(""), key, COMMANDS)
}

// Adds what is found in the registration of a service: its version, and its Rollout.
fn tell_service(lines: &mut Lines, place: JsonPlace, value: &Value) {
    tell_members(
        lines,
        place,
        value,
        &["manifest", "version"],
        "no member but manifest and version",
    );
    tell_label(lines, place, value, "version");
    match value.get("manifest") {
        Some(manifest) => { tell_rollout(lines, place.member("manifest"), manifest) }
        None => lines.tell(place, "manifest", "a Rollout"),
    }
}

// Adds what is found in the start of a release: the service's name, and the new version.
fn tell_start(lines: &mut Lines, place: JsonPlace, value: &Value) {
    tell_members(
        lines,
        place,
        value,
        &["service", "version"],
        "no member but service and version",
    );
    tell_name(lines, place, value, "service");
    tell_label(lines, place, value, "version")
}

// Adds what is found in a command of a service alone.
fn tell_named(lines: &mut Lines, place: JsonPlace, value: &Value) {
    tell_members(lines, place, value, &["service"], "no member but service");
    tell_name(lines, place, value, "service")
}
