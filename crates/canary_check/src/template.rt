//! What is found in an AnalysisTemplate.
use crate::json_place::JsonPlace;
use crate::lines::Lines;
use crate::members::NAME;
use crate::metric::{metric_name, tell_metric};
use crate::text::instead_of_kind;
use crate::trial::refusal_of_names;
use canary_base::error::Memory;
use canary_base::lists::Listed;
use canary_base::names::Label;
use canary_canonical::form::{FormFault, name_in};
use canary_manifest::member::{is_no_empty_list, is_other_text, member_of};
use canary_manifest::template::dry_run_name;
use canary_plan::analysis::{MAX_METRICS, MIN_METRICS};
use canary_plan::refusal::Refusal;
use canary_plan::template_spec::DryRunName;
use serde_json::Value;
use std::alloc::Global;

const METRICS: &str = "a list of 1 to 32 metrics";

const TEMPLATES: &str = "name each template in the analysis of the Rollout";

/// What to write in place of `measurementRetention`.
pub(crate) const RETENTION: &str = "leave it out: the desk keeps every measurement";

const DRY_RUN: &str = "the name of a metric of the template, or .* for all";

/// Adds what is found in an AnalysisTemplate there.
pub(crate) fn tell_template(lines: &mut Lines, place: JsonPlace, manifest: &Value) {
    tell_other_kind(lines, place, manifest, "AnalysisTemplate");
    tell_metadata(lines, place, manifest);
    match member_of(manifest, "spec") {
        Some(spec) => tell_spec(lines, place.member("spec"), spec),
        None => lines.tell(place, "spec.metrics", METRICS),
    }
}

/// Adds that a manifest says another kind, if it says one.
pub(crate) fn tell_other_kind(lines: &mut Lines, place: JsonPlace, manifest: &Value, wanted: &str) {
    match member_of(manifest, "kind") {
        Some(kind) if is_other_text(kind, wanted) => tell_kind(lines, place, kind, wanted),
        _ => {}
    }
}

// Adds the kind that is wanted, and of some other kinds what to do instead.
fn tell_kind(lines: &mut Lines, place: JsonPlace, kind: &Value, wanted: &str) {
    lines.tell(place, "kind", wanted);
    lines.instead_if(kind.as_str().and_then(instead_of_kind));
}

/// Adds that a manifest has no name.
pub(crate) fn tell_metadata(lines: &mut Lines, place: JsonPlace, manifest: &Value) {
    match member_of(manifest, "metadata").and_then(|metadata| member_of(metadata, "name")) {
        Some(name) if name_in(name).is_some() => {}
        Some(_) => lines.tell(place, "metadata.name", NAME),
        None => lines.tell_missing(place, "metadata.name", NAME),
    }
}

// Adds what is found in a template's `spec`: what is unsupported, its metrics, its dry runs.
fn tell_spec(lines: &mut Lines, place: JsonPlace, spec: &Value) {
    tell_if_filled(lines, place, spec, "templates", TEMPLATES);
    tell_if_filled(lines, place, spec, "measurementRetention", RETENTION);
    match member_of(spec, "metrics").and_then(|metrics| metrics.as_array()) {
        Some(list) => tell_metrics(lines, place, spec, list),
        None => lines.tell(place, "metrics", METRICS),
    }
}

/// Adds that a list which is to be empty or absent is neither, and what to write instead.
pub(crate) fn tell_if_filled(
    lines: &mut Lines,
    place: JsonPlace,
    value: &Value,
    key: &str,
    instead: &str,
) {
    if member_of(value, key).is_some_and(is_no_empty_list) {
        lines.tell(place, key, "none or an empty list (others are unsupported)");
        lines.instead(instead);
    }
}

// Adds what is found in each metric, in their number and names, and then in the dry runs.
fn tell_metrics(lines: &mut Lines, place: JsonPlace, spec: &Value, list: &Vec<Value>) {
    if list.len() < MIN_METRICS || list.len() > MAX_METRICS {
        lines.tell(place, "metrics", METRICS);
    }
    let mut names = Vec::new(lines.alloc);
    for (index, metric) in list.iter().enumerate() {
        let place = metric_place(place, index, metric);
        tell_metric(lines, place, metric);
        add_name(lines, place, &mut names, metric);
    }
    tell_dry_run(lines, place, spec, names.as_slice());
}

/// The place of a metric in the list of a template's `spec`.
pub(crate) fn metric_place<'a>(
    place: JsonPlace<'a>,
    index: usize,
    metric: &'a Value,
) -> JsonPlace<'a> {
    let place = place.item("metrics", index);
    place.of_metric(name_shown(metric))
}

// The name of a metric, empty if it has none.
fn name_shown(metric: &Value) -> &str {
    match metric_name(metric) {
        Some(_) => member_of(metric, "name")
            .and_then(|name| name.as_str())
            .unwrap_or(""),
        None => "",
    }
}

// Adds the name of a metric to these, unless it is one of them, which is reported.
fn add_name(lines: &mut Lines, place: JsonPlace, names: &mut Vec<Label>, metric: &Value) {
    let Some(name) = metric_name(metric) else {
        return;
    };
    if names.push(name).is_err() {
        return lines.refuse();
    }
    let is_repeated = is_repeated(lines.alloc, names.as_slice());
    if lines.holds(is_repeated) {
        lines.tell(place, "name", "a name that no metric before it has");
        names.pop();
    }
    if names.len() > MAX_METRICS {
        names.pop();
    }
}

// Whether a template is refused for two metrics of one of these names.
fn is_repeated(alloc: Global, names: &[Label]) -> Result<bool, Memory> {
    let refusal = refusal_of_names(alloc, names, Listed::of(Vec::new(alloc)))?;
    Ok(matches!(refusal, Some(Refusal::DuplicateMetric)))
}

// Adds that `dryRun` is no list, or which of its items mark no metric; an absent one is fine.
fn tell_dry_run(lines: &mut Lines, place: JsonPlace, spec: &Value, names: &[Label]) {
    let Some(marked) = member_of(spec, "dryRun") else {
        return;
    };
    match marked.as_array() {
        Some(list) => tell_marks(lines, place, list, names),
        None => lines.tell(place, "dryRun", "a list of objects with metricName"),
    }
}

// Adds each item that marks none of these metrics.
fn tell_marks(lines: &mut Lines, place: JsonPlace, list: &Vec<Value>, names: &[Label]) {
    for (index, item) in list.iter().enumerate() {
        let is_mark = is_mark(lines.alloc, item, names);
        if !lines.holds(is_mark) {
            let place = place.item("dryRun", index);
            lines.tell(place, "metricName", DRY_RUN);
        }
    }
}

// Whether it marks one of these metrics, or all.
fn is_mark(alloc: Global, item: &Value, names: &[Label]) -> Result<bool, Memory> {
    match dry_run_name(alloc, item) {
        Ok(name) => is_known(alloc, name, names),
        Err(FormFault::Unreadable) => Ok(false),
        Err(FormFault::Memory) => Err(Memory),
    }
}

// Whether a template with these metrics may have this name in its dry runs.
fn is_known(alloc: Global, name: DryRunName, names: &[Label]) -> Result<bool, Memory> {
    let dry_run = Listed::of(vec![in alloc; name]?);
    let refusal = refusal_of_names(alloc, names, dry_run)?;
    Ok(refusal.is_none())
}
