//! A Rollout.
use crate::arguments::{Case, tell_arguments};
use crate::documents::{ManifestObject, index_of};
use crate::draft::Draft;
use crate::json::{
    list_at, member, push_comma, push_head, push_key, push_member, push_others, text_at,
};
use crate::manifest_place::ManifestPlace;
use crate::template::{convert_template, push_made_name};
use crate::unknown::{self, warn_of_others, warn_of_others_of_step};
use crate::work::Conversion;
use serde_json::Value;

const STEPS: &str = "spec.strategy.canary.steps";

const ANALYSIS: &str = "spec.strategy.canary.analysis";

const TEMPLATES: &str = "expected a list of objects with templateName";

const NO_NAME: &str = "expected the name of an AnalysisTemplate";

const CLUSTER: &str =
    "a template of the cluster: write an AnalysisTemplate, and leave clusterScope out";

/// A Rollout among all documents.
#[derive(Clone, Copy)]
struct RolloutContext<'a> {
    documents: &'a [ManifestObject<'a>],
    rollout: ManifestObject<'a>,
}

// An analysis of a Rollout.
#[derive(Clone, Copy)]
struct Use<'a> {
    site: RolloutContext<'a>,
    place: ManifestPlace,
    // The keys after the place that lead to its templates, and to its arguments.
    templates: &'static str,
    arguments: &'static str,
    analysis: &'a Value,
}

/// Adds the desk's Rollout, with the templates that it uses.
pub(crate) fn convert_rollout(
    work: &mut Conversion,
    documents: &[ManifestObject],
    rollout: &ManifestObject,
) {
    let site = RolloutContext {
        documents,
        rollout: *rollout,
    };
    let mut out = Draft::new(work.alloc);
    push_rollout(work, &site, &mut out);
    let made = work.made(rollout, rollout.name(), out);
    work.add_service(made);
}

// Appends the desk's Rollout in JSON; `paused` stays, for the check of the manifest to look at.
fn push_rollout(work: &mut Conversion, site: &RolloutContext, out: &mut Draft) {
    let manifest = site.rollout.value;
    push_head(out, manifest, "Rollout", site.rollout.name());
    let place = site.rollout.place().at("spec");
    if let Some(spec) = work.object_at(place, manifest, "spec") {
        push_member(out, spec, "paused");
        push_strategy(work, site, spec, out);
    }
    out.put("}}");
}

// Appends the strategy, with its canary if it has one; `blueGreen` stays, for that check, too.
fn push_strategy(work: &mut Conversion, site: &RolloutContext, spec: &Value, out: &mut Draft) {
    let place = site.rollout.place().at("spec.strategy");
    let Some(strategy) = work.object_at(place, spec, "strategy") else {
        return;
    };
    warn_of_others(work, place, strategy, &unknown::STRATEGY);
    push_key(out, "strategy");
    out.put("{");
    push_member(out, strategy, "blueGreen");
    let place = place.at("spec.strategy.canary");
    if let Some(canary) = work.object_at(place, strategy, "canary") {
        warn_of_others(work, place, canary, &unknown::CANARY);
        push_key(out, "canary");
        push_canary(work, site, canary, out);
    }
    out.put("}");
}

// Appends the steps and the analysis beside them; the desk reads no other member of a canary.
fn push_canary(work: &mut Conversion, site: &RolloutContext, canary: &Value, out: &mut Draft) {
    let place = site.rollout.place();
    out.put("{");
    if let Some(steps) = work.list_at(place.at(STEPS), canary, "steps") {
        push_key(out, "steps");
        push_steps(work, site, steps, out);
    }
    if let Some(analysis) = work.object_at(place.at(ANALYSIS), canary, "analysis") {
        warn_of_others(work, place.at(ANALYSIS), analysis, &unknown::BACKGROUND);
        let used = Use {
            site: *site,
            place,
            templates: "spec.strategy.canary.analysis.templates",
            arguments: "spec.strategy.canary.analysis.args",
            analysis,
        };
        push_analysis(work, &used, out);
    }
    out.put("}");
}

// Appends the list of steps, each at its index.
fn push_steps(work: &mut Conversion, site: &RolloutContext, steps: &Vec<Value>, out: &mut Draft) {
    out.put("[");
    for (index, step) in steps.iter().enumerate() {
        let place = site.rollout.place().item(STEPS, index);
        push_step(work, site, place, step, out);
    }
    out.put("]");
}

// Appends a step as it is, but for its analysis. If it is no object, that is reported.
fn push_step(
    work: &mut Conversion,
    site: &RolloutContext,
    place: ManifestPlace,
    step: &Value,
    out: &mut Draft,
) {
    if !step.is_object() {
        return work.tell(place, &["expected an object"]);
    }
    warn_of_step(work, place, step);
    push_comma(out);
    out.put("{");
    push_others(out, step, &["analysis"]);
    if let Some(analysis) = work.object_at(place.end("analysis"), step, "analysis") {
        warn_of_others(work, place.end("analysis"), analysis, &unknown::ANALYSIS);
        let used = Use {
            site: *site,
            place,
            templates: ".analysis.templates",
            arguments: ".analysis.args",
            analysis,
        };
        push_analysis(work, &used, out);
    }
    out.put("}");
}

// Warns of each member of a step, and of its pause, that Argo does not know.
fn warn_of_step(work: &mut Conversion, place: ManifestPlace, step: &Value) {
    warn_of_others_of_step(work, place, step);
    if let Some(pause) = member(step, "pause") {
        warn_of_others(work, place.end("pause"), pause, &unknown::PAUSE);
    }
}

// Appends an analysis of the desk's templates, without arguments: those are filled in there.
fn push_analysis(work: &mut Conversion, used: &Use, out: &mut Draft) {
    tell_arguments_of(work, used);
    push_key(out, "analysis");
    out.put("{");
    push_others(out, used.analysis, &["args", "templates"]);
    push_key(out, "templates");
    out.put("[");
    match list_at(used.analysis, "templates") {
        Some(templates) => push_templates(work, used, templates, out),
        None => work.tell(used.place.part(used.templates), &[TEMPLATES]),
    }
    out.put("]}");
}

// Adds what is wrong in the arguments of an analysis.
fn tell_arguments_of(work: &mut Conversion, used: &Use) {
    let place = used.place;
    let arguments = work.list_at(place.part(used.arguments), used.analysis, "args");
    if let Some(arguments) = arguments {
        tell_arguments(work, place, used.arguments, arguments);
    }
}

// Appends each item whose template is among the documents, and adds the desk's template for it.
fn push_templates(work: &mut Conversion, used: &Use, templates: &Vec<Value>, out: &mut Draft) {
    for (index, named) in templates.iter().enumerate() {
        let place = used.place.inner(used.templates, index);
        warn_of_others(work, place, named, &unknown::NAMED);
        if let Some(template) = template_of(work, used, place, named) {
            push_used(work, used, template, named, out);
        }
    }
}

// The template that an item of an analysis names. If there is none, that is reported.
fn template_of<'a>(
    work: &mut Conversion,
    used: &Use<'a>,
    place: ManifestPlace,
    named: &Value,
) -> Option<ManifestObject<'a>> {
    if is_of_the_cluster(named) {
        work.tell(place.end("clusterScope"), &[CLUSTER]);
        return None;
    }
    let name = text_at(named, "templateName");
    let place = place.end("templateName");
    if name.is_empty() {
        work.tell(place, &[NO_NAME]);
        return None;
    }
    let found = index_of(used.site.documents, "AnalysisTemplate", name);
    let Some(index) = found else {
        work.tell(
            place,
            &["AnalysisTemplate ", name, " is in none of the files"],
        );
        return None;
    };
    work.set_used(index);
    used.site.documents.get(index).copied()
}

// Whether an item of an analysis names a template of the cluster: its `clusterScope` is true.
fn is_of_the_cluster(named: &Value) -> bool {
    match member(named, "clusterScope") {
        Some(scope) => scope.as_bool().unwrap_or(false),
        None => false,
    }
}

// Appends the item, with the name of the desk's template; and adds that template.
fn push_used(
    work: &mut Conversion,
    used: &Use,
    template: ManifestObject,
    named: &Value,
    out: &mut Draft,
) {
    let case = Case {
        template,
        used_by: Some((used.site.rollout, used.analysis)),
    };
    convert_template(work, &case);
    push_comma(out);
    out.put("{");
    push_others(out, named, &["templateName"]);
    push_key(out, "templateName");
    out.put("\"");
    push_made_name(&case, out);
    out.put("\"}");
}
