//! What is found in a Rollout.
use crate::json_place::JsonPlace;
use crate::lines::Lines;
use crate::step::{tell_background, tell_step};
use crate::template::{tell_metadata, tell_other_kind};
use canary_manifest::member::{is_true, member_of};
use canary_manifest::rollout::canary_of;
use canary_plan::strategy::MAX_STEPS;
use serde_json::Value;

const CANARY: &str = "spec.strategy.canary";

const STEPS: &str = "a list of at most 64 steps";

/// Adds what is found in a Rollout there. Which templates a desk has is not looked at.
pub(crate) fn tell_rollout(lines: &mut Lines, place: JsonPlace, manifest: &Value) {
    tell_other_kind(lines, place, manifest, "Rollout");
    tell_metadata(lines, place, manifest);
    if let Some(spec) = member_of(manifest, "spec") {
        tell_unsupported(lines, place.member("spec"), spec);
    }
    match canary_of(manifest) {
        Some(canary) if canary.is_object() => { tell_canary(lines, place.member(CANARY), canary) }
        _ => lines.tell(place, CANARY, "an object"),
    }
}

// Adds `paused`, if it is true, and a `blueGreen` strategy: the desk supports neither.
fn tell_unsupported(lines: &mut Lines, place: JsonPlace, spec: &Value) {
    if member_of(spec, "paused").is_some_and(is_true) {
        lines.tell(place, "paused", "false or none (true is unsupported)");
    }
    let blue_green = member_of(spec, "strategy").and_then(|s| member_of(s, "blueGreen"));
    if blue_green.is_some() {
        lines.tell(place, "strategy.blueGreen", "no such member (unsupported)");
    }
}

// Adds what is found in the steps and in the analysis beside them, each of which may be absent.
fn tell_canary(lines: &mut Lines, place: JsonPlace, canary: &Value) {
    if let Some(steps) = member_of(canary, "steps") {
        tell_steps(lines, place, steps);
    }
    match member_of(canary, "analysis") {
        Some(analysis) => { tell_background(lines, place.member("analysis"), analysis) }
        None => {}
    }
}

// Adds that the steps are no list, or else what is found in the list.
fn tell_steps(lines: &mut Lines, place: JsonPlace, steps: &Value) {
    match steps.as_array() {
        Some(list) => tell_listed_steps(lines, place, list),
        None => lines.tell(place, "steps", STEPS),
    }
}

// Adds that there are more than 64 steps, and what is found in each.
fn tell_listed_steps(lines: &mut Lines, place: JsonPlace, list: &Vec<Value>) {
    if list.len() > MAX_STEPS {
        lines.tell(place, "steps", STEPS);
    }
    for (index, step) in list.iter().enumerate() {
        let place = place.item("steps", index);
        tell_step(lines, place, step);
    }
}
