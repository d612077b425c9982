//! An AnalysisTemplate.
use crate::arguments::{Case, tell_arguments};
use crate::documents::ManifestObject;
use crate::draft::Draft;
use crate::json::{
    list_at, member, push_comma, push_head, push_key, push_member, push_text, text_at,
};
use crate::manifest_place::ManifestPlace;
use crate::metric::{
    TemplateMetric, call, has_desk_place, is_desk_given, plan_metric, push_metric,
};
use crate::unknown::{METRIC, TEMPLATE, warn_of_others};
use crate::work::{Conversion, Made};
use canary_base::names::Name;
use serde_json::Value;

const METRICS: &str = "expected a list of metrics, 64 at most";

const RETENTION: &str = "ignored: the desk keeps every measurement";

const REPEATED: &str = "a metric before it has this name: write another one";

const DRY_RUN: &str = "expected the name of a metric of the template, or .* (Argo takes a regular \
    expression): write each name";

// ---- what is wrong with a template, however it is used

/// Adds what is wrong with a template, but for its metrics.
pub(crate) fn tell_template(work: &mut Conversion, template: &ManifestObject) {
    let place = template.place();
    match work.object_at(place.at("spec"), template.value, "spec") {
        Some(spec) => tell_spec(work, place, spec),
        None => work.tell(place.at("spec.metrics"), &[METRICS]),
    }
}

// Adds what is wrong in the `spec` of a template, and warns of a member that Argo does not know.
fn tell_spec(work: &mut Conversion, place: ManifestPlace, spec: &Value) {
    warn_of_others(work, place.at("spec"), spec, &TEMPLATE);
    if member(spec, "measurementRetention").is_some() {
        work.note(place.at("spec.measurementRetention"), &[RETENTION]);
    }
    if let Some(arguments) = work.list_at(place.at("spec.args"), spec, "args") {
        tell_arguments(work, place, "spec.args", arguments);
    }
    match list_at(spec, "metrics") {
        Some(metrics) => tell_metrics(work, place, metrics),
        None => work.tell(place.at("spec.metrics"), &[METRICS]),
    }
}

// Adds each metric that is no object, or has the name of one before it, and warns of a member that
// Argo does not know.
fn tell_metrics(work: &mut Conversion, place: ManifestPlace, metrics: &Vec<Value>) {
    for (index, metric) in metrics.iter().enumerate() {
        let place = place.item("spec.metrics", index);
        warn_of_others(work, place, metric, &METRIC);
        if !metric.is_object() {
            work.tell(place, &["expected an object"]);
        }
        if index_of(metrics, text_at(metric, "name")) != Some(index) {
            work.tell(place.end("name"), &[REPEATED]);
        }
    }
}

// The index of the first metric of that name.
fn index_of(metrics: &Vec<Value>, name: &str) -> Option<usize> {
    for (index, metric) in metrics.iter().enumerate() {
        if text_at(metric, "name") == name {
            return Some(index);
        }
    }
    None
}

// ---- the desk's template

/// Adds the desk's template for this case, and how its metrics are measured.
pub(crate) fn convert_template(work: &mut Conversion, case: &Case) {
    let name = made_name(work, case);
    look_at_name(work, case, name.as_str());
    let made = made_of(work, case, name.as_str());
    plan_metrics(work, case, name.as_str());
    work.add_template(case.template.place(), made);
}

// The name of the desk's template for this case.
fn made_name(work: &mut Conversion, case: &Case) -> String {
    let mut name = Draft::new(work.alloc);
    push_made_name(case, &mut name);
    work.end(name)
}

// The desk's template for this case, under that name.
fn made_of(work: &mut Conversion, case: &Case, name: &str) -> Made {
    let mut out = Draft::new(work.alloc);
    write_template(work, case, name, &mut out);
    work.made(&case.template, name, out)
}

// Adds that this is no name, if that of the template itself is one.
fn look_at_name(work: &mut Conversion, case: &Case, name: &str) {
    let is_own = Name::read(case.template.name().as_bytes()).is_some();
    if is_own && Name::read(name.as_bytes()).is_none() {
        let place = case.template.place().at("metadata.name");
        work.tell(
            place,
            &[name, " is no name of a template: write shorter ones"],
        );
    }
}

/// Appends the name of the desk's template for this case: if the desk reads what arguments fill in,
/// each Rollout has one of its own.
pub(crate) fn push_made_name(case: &Case, out: &mut Draft) {
    out.put(case.template.name());
    if case.used_by.is_some() && has_desk_places(&case.template) {
        out.put("-for-");
        out.put(case.service());
    }
}

// Whether a member of a metric that the desk reads has a place to be filled in.
fn has_desk_places(template: &ManifestObject) -> bool {
    let Some(metrics) = template.list("metrics") else {
        return false;
    };
    for metric in metrics {
        if has_desk_place(metric) {
            return true;
        }
    }
    false
}

/// Whether each place that the desk reads can be filled in.
pub(crate) fn is_ready(case: &Case) -> bool {
    let Some(metrics) = case.template.list("metrics") else {
        return true;
    };
    for metric in metrics {
        if !is_desk_given(case, metric) {
            return false;
        }
    }
    true
}

// Writes the desk's template in JSON; `templates` stay, for the check of the manifest to look at.
fn write_template(work: &mut Conversion, case: &Case, name: &str, out: &mut Draft) {
    let manifest = case.template.value;
    push_head(out, manifest, "AnalysisTemplate", name);
    push_key(out, "metrics");
    out.put("[");
    if let Some(metrics) = case.template.list("metrics") {
        push_metrics(work, case, metrics, out);
        out.put("]");
        push_dry_run(work, case, metrics, out);
    }
    if let Some(spec) = member(manifest, "spec") {
        push_member(out, spec, "templates");
    }
    out.put("}}");
}

// A metric of this case.
fn template_metric<'a>(case: &Case<'a>, index: usize, metric: &'a Value) -> TemplateMetric<'a> {
    TemplateMetric {
        case: *case,
        place: case.template.place().item("spec.metrics", index),
        metric,
    }
}

// Appends each metric as the desk reads it.
fn push_metrics<'a>(
    work: &mut Conversion,
    case: &Case<'a>,
    metrics: &'a Vec<Value>,
    out: &mut Draft,
) {
    for (index, metric) in metrics.iter().enumerate() {
        push_metric(work, &template_metric(case, index, metric), out);
    }
}

// Adds how each metric is measured, for the desk's template of that name, if a Rollout uses it.
fn plan_metrics(work: &mut Conversion, case: &Case, name: &str) {
    let Some(metrics) = case.template.list("metrics") else {
        return;
    };
    if case.used_by.is_none() {
        return;
    }
    for (index, metric) in metrics.iter().enumerate() {
        plan_metric(work, &template_metric(case, index, metric), name);
    }
}

// ---- dry runs

// Appends `dryRun`, if the template has it, with the names of its metrics at the desk.
fn push_dry_run<'a>(
    work: &mut Conversion,
    case: &Case<'a>,
    metrics: &'a Vec<Value>,
    out: &mut Draft,
) {
    let Some(spec) = member(case.template.value, "spec") else {
        return;
    };
    let place = case.template.place();
    if let Some(marked) = work.list_at(place.at("spec.dryRun"), spec, "dryRun") {
        push_marks(work, case, metrics, marked, out);
    }
}

// Appends `dryRun` with these marks.
fn push_marks<'a>(
    work: &mut Conversion,
    case: &Case<'a>,
    metrics: &'a Vec<Value>,
    marked: &Vec<Value>,
    out: &mut Draft,
) {
    push_key(out, "dryRun");
    out.put("[");
    for (index, mark) in marked.iter().enumerate() {
        let place = case.template.place().item("spec.dryRun", index);
        let name = text_at(mark, "metricName");
        push_mark(work, case, place.end("metricName"), metrics, name, out);
    }
    out.put("]");
}

// Appends a mark of all metrics, or of that one. If there is no such metric, that is reported.
fn push_mark<'a>(
    work: &mut Conversion,
    case: &Case<'a>,
    place: ManifestPlace,
    metrics: &'a Vec<Value>,
    name: &str,
    out: &mut Draft,
) {
    if name == ".*" {
        return push_marked(name, out);
    }
    match index_of(metrics, name) {
        Some(index) if !name.is_empty() => {
            note_others(work, place, metrics, name);
            push_marked_metric(work, case, metrics, index, out);
        }
        _ => work.tell(place, &[DRY_RUN]),
    }
}

// Appends a mark of the metric at that index, by its name at the desk, if it has one.
fn push_marked_metric<'a>(
    work: &mut Conversion,
    case: &Case<'a>,
    metrics: &'a Vec<Value>,
    index: usize,
    out: &mut Draft,
) {
    let Some(metric) = metrics.get(index) else {
        return;
    };
    if let Some(called) = call(work, &template_metric(case, index, metric)) {
        push_marked(called.label.as_str(), out);
    }
}

// Appends an item of `dryRun` with that name.
fn push_marked(name: &str, out: &mut Draft) {
    push_comma(out);
    out.put("{\"metricName\":");
    push_text(out, name);
    out.put("}");
}

// Notes each other metric whose name has that name in it.
fn note_others(work: &mut Conversion, place: ManifestPlace, metrics: &Vec<Value>, name: &str) {
    for metric in metrics {
        let other = text_at(metric, "name");
        if other != name && other.contains(name) {
            note_other(work, place, other, name);
        }
    }
}

// Notes that Argo makes a dry run of another metric, too.
fn note_other(work: &mut Conversion, place: ManifestPlace, other: &str, name: &str) {
    let parts = &[
        "Argo makes a dry run of ",
        other,
        " too; here of ",
        name,
        " alone",
    ];
    work.note(place, parts);
}
