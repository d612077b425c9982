//! What is found in a step of a Rollout, and in an analysis.
use crate::json_place::JsonPlace;
use crate::lines::Lines;
use crate::members::{NAME, key_shown, tell_wrong};
use crate::template::{RETENTION, tell_if_filled};
use crate::trial::{refusal_of_background, refusal_of_step};
use canary_canonical::form::FormFault;
use canary_manifest::member::member_of;
use canary_manifest::rollout::{
    background_in, is_of_the_cluster, is_step_key, starting_step_in, step_in, template_name,
};
use canary_plan::refusal::Refusal;
use canary_plan::service::Background;
use canary_plan::step::Step;
use serde_json::{Map, Value};

const WEIGHT: &str = "a whole number, 0 to 100";

const TEMPLATES: &str = "a list of 1 to 8 objects with templateName";

const DRY_RUN: &str = "write dryRun in the spec of the AnalysisTemplate";

const FORM: &str = "exactly one of setWeight, pause and analysis";

const OTHER: &str = "no member but setWeight, pause or analysis (others are unsupported)";

const PAUSE: &str = "90s or 1h30m, or seconds as a number or a text of digits, 31,536,000 at most";

/// Adds what is found in a step.
pub(crate) fn tell_step(lines: &mut Lines, place: JsonPlace, step: &Value) {
    if tell_other_members(lines, place, step) {
        return;
    }
    if let Some(analysis) = member_of(step, "analysis") {
        tell_analysis(lines, place.member("analysis"), analysis);
    }
    match step_in(lines.alloc, step) {
        Ok(step) => tell_refusal_of_step(lines, place, step),
        Err(FormFault::Unreadable) => tell_form(lines, place, step),
        Err(FormFault::Memory) => lines.refuse(),
    }
}

// Adds each member that no step of the desk has, and answers whether there is one.
fn tell_other_members(lines: &mut Lines, place: JsonPlace, step: &Value) -> bool {
    match step.as_object() {
        Some(members) => tell_others(lines, place, step, members),
        None => false,
    }
}

// The same of a step with these members; a null one is as if absent.
fn tell_others(
    lines: &mut Lines,
    place: JsonPlace,
    step: &Value,
    members: &Map<String, Value>,
) -> bool {
    let mut is_told = false;
    for (key, value) in members.iter() {
        if !is_step_key(key.as_str()) && !value.is_null() {
            lines.tell(place, key_shown(key.as_str()), OTHER);
            lines.instead(instead_of_member(step, key.as_str()));
            is_told = true;
        }
    }
    is_told
}

// What to write in place of a member that no step of the desk has.
fn instead_of_member(step: &Value, key: &str) -> &'static str {
    if has_step_key(step) {
        return "leave the member out";
    }
    for other in &OTHERS {
        if other.key == key {
            return other.instead;
        }
    }
    for meant in &MEANT {
        if meant.key.eq_ignore_ascii_case(key) {
            return meant.instead;
        }
    }
    "correct its name, or leave the step out"
}

// A key of a member, and what to write in its place.
struct StepKey {
    key: &'static str,
    instead: &'static str,
}

// Members of Argo's steps that the desk has not.
const OTHERS: [StepKey; 5] = [
    StepKey {
        key: "setCanaryScale",
        instead: "leave the step out: the desk scales no pods",
    },
    StepKey {
        key: "setHeaderRoute",
        instead: "leave the step out: the desk routes no requests",
    },
    StepKey {
        key: "setMirrorRoute",
        instead: "leave the step out: the desk routes no requests",
    },
    StepKey {
        key: "experiment",
        instead: "leave the step out, or write an analysis",
    },
    StepKey {
        key: "plugin",
        instead: "leave the step out",
    },
];

// Members that the desk has, in other letters.
const MEANT: [StepKey; 3] = [
    StepKey {
        key: "setWeight",
        instead: "write setWeight",
    },
    StepKey {
        key: "pause",
        instead: "write pause",
    },
    StepKey {
        key: "analysis",
        instead: "write analysis",
    },
];

// Whether the step has, not null, one of the three members that the desk reads.
fn has_step_key(step: &Value) -> bool {
    member_of(step, "setWeight").is_some()
        || member_of(step, "pause").is_some()
        || member_of(step, "analysis").is_some()
}

// Adds why a step is invalid, but for what its analysis holds.
fn tell_form(lines: &mut Lines, place: JsonPlace, step: &Value) {
    match (
        member_of(step, "setWeight"),
        member_of(step, "pause"),
        member_of(step, "analysis"),
    ) {
        (Some(_), None, None) => lines.tell(place, "setWeight", WEIGHT),
        (None, Some(pause), None) => tell_pause(lines, place, pause),
        (None, None, Some(_)) => {}
        (None, None, None) => tell_no_form(lines, place, step),
        _ => lines.tell(place, "", FORM),
    }
}

// Adds that a step has none of the three. A pause that is null is as if absent.
fn tell_no_form(lines: &mut Lines, place: JsonPlace, step: &Value) {
    lines.tell(place, "", FORM);
    match step.get("pause") {
        Some(_) => lines.instead("write {\"pause\":{}}"),
        None => {}
    }
}

// Adds why a pause is unreadable: it is no object, or has an invalid duration.
fn tell_pause(lines: &mut Lines, place: JsonPlace, pause: &Value) {
    if pause.is_object() {
        lines.tell(place, "pause.duration", PAUSE)
    } else {
        lines.tell(place, "pause", "an object, with or without a duration")
    }
}

// Adds why the desk refuses a step that is readable: its weight, or its templates.
fn tell_refusal_of_step(lines: &mut Lines, place: JsonPlace, step: Step) {
    let is_weight = matches!(&step, Step::SetWeight(_));
    match refusal_of_step(lines.alloc, step) {
        Ok(None) => {}
        Ok(Some(_)) if is_weight => lines.tell(place, "setWeight", WEIGHT),
        Ok(Some(refusal)) => tell_refusal(lines, place, "analysis.templates", refusal),
        Err(_) => lines.refuse(),
    }
}

// Adds why the templates under that key are refused: one is named twice, or else their number.
fn tell_refusal(lines: &mut Lines, place: JsonPlace, key: &str, refusal: Refusal) {
    match refusal {
        Refusal::DuplicateMetric => lines.tell(place, key, "each template once"),
        _ => lines.tell(place, key, TEMPLATES),
    }
}

/// Adds what is found in the analysis beside the steps.
pub(crate) fn tell_background(lines: &mut Lines, place: JsonPlace, analysis: &Value) {
    tell_analysis(lines, place, analysis);
    if starting_step_in(analysis).is_none() {
        lines.tell(place, "startingStep", "a whole number, 0 to 64");
    }
    match background_in(lines.alloc, analysis) {
        Ok(background) => tell_refusal_of_background(lines, place, background),
        Err(FormFault::Unreadable) => {}
        Err(FormFault::Memory) => lines.refuse(),
    }
}

// Adds why the desk refuses an analysis that is readable.
fn tell_refusal_of_background(lines: &mut Lines, place: JsonPlace, background: Background) {
    match refusal_of_background(lines.alloc, background) {
        Ok(Some(refusal)) => tell_refusal(lines, place, "templates", refusal),
        Ok(None) => {}
        Err(_) => lines.refuse(),
    }
}

// Adds what is found in an analysis, but for the number of its templates.
fn tell_analysis(lines: &mut Lines, place: JsonPlace, analysis: &Value) {
    tell_if_filled(lines, place, analysis, "dryRun", DRY_RUN);
    tell_if_filled(lines, place, analysis, "measurementRetention", RETENTION);
    match member_of(analysis, "templates").and_then(|templates| templates.as_array()) {
        Some(list) => tell_templates(lines, place, list),
        None => lines.tell(place, "templates", TEMPLATES),
    }
}

// Adds what is found in each item of an analysis's templates.
fn tell_templates(lines: &mut Lines, place: JsonPlace, list: &Vec<Value>) {
    for (index, template) in list.iter().enumerate() {
        let place = place.item("templates", index);
        tell_named_template(lines, place, template);
    }
}

// Adds that an item names a template of the cluster, and that its name is missing or invalid.
fn tell_named_template(lines: &mut Lines, place: JsonPlace, template: &Value) {
    if is_of_the_cluster(template) {
        lines.tell(place, "clusterScope", "false or none (true is unsupported)");
    }
    if template_name(template).is_none() {
        tell_wrong(lines, place, template, "templateName", NAME);
    }
}
