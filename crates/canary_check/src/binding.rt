//! What is found in the analyses of a service as they are bound to templates.
use crate::json_place::JsonPlace;
use crate::lines::Lines;
use canary_base::error::Memory;
use canary_base::names::{Label, Name};
use canary_plan::analysis::MAX_METRICS;
use canary_plan::service::ServiceSpec;
use canary_plan::step::Step;
use canary_plan::template::Template;
use canary_plan::template_spec::MetricSpec;
use canary_plan::templates::Templates;
use std::alloc::Global;

const CANARY: &str = "spec.strategy.canary";

const STEPS: &str = "spec.strategy.canary.steps";

const ONCE: &str = "metrics of different names (the desk refuses each start: duplicate-metric)";

const WITH_END: &str =
    "metrics that end, since the step waits for them (the desk refuses each start: endless-metric)";

const METRICS: &str =
    "templates with 32 metrics at most, together (the desk refuses each start: bad-strategy)";

// A metric of one of the templates of an analysis.
#[derive(Clone, Copy)]
struct OwnedMetric {
    template: Name,
    name: Label,
    is_endless: bool,
}

/// Adds what is found in the analyses of this service, bound to these templates.
pub(crate) fn tell_spec(lines: &mut Lines, known: &Templates, spec: &ServiceSpec) {
    for (index, step) in spec.steps.as_slice().iter().enumerate() {
        if let Step::Analysis(names) = step {
            let place = JsonPlace::at("").item(STEPS, index).member("analysis");
            tell_analysis(lines, known, place, names.as_slice(), true);
        }
    }
    if let Some(background) = &spec.background {
        let place = JsonPlace::at("").member(CANARY).member("analysis");
        tell_analysis(lines, known, place, background.templates.as_slice(), false);
    }
}

// Adds what is found in an analysis of these templates, of a step or beside the steps.
fn tell_analysis(
    lines: &mut Lines,
    known: &Templates,
    place: JsonPlace,
    names: &[Name],
    is_step: bool,
) {
    match metrics_of(lines.alloc, known, names) {
        Ok(metrics) => tell_metrics(lines, place, metrics.as_slice(), is_step),
        Err(_) => lines.refuse(),
    }
}

// The metrics of these templates, in order.
fn metrics_of(
    alloc: Global,
    known: &Templates,
    names: &[Name],
) -> Result<Vec<OwnedMetric>, Memory> {
    let mut metrics = Vec::new(alloc);
    for name in names {
        if let Some(template) = known.get(*name) {
            push_metrics(&mut metrics, *name, template)?;
        }
    }
    Ok(metrics)
}

// Adds the metrics of the template of that name.
fn push_metrics(
    metrics: &mut Vec<OwnedMetric>,
    name: Name,
    template: &Template,
) -> Result<(), Memory> {
    for metric in template.spec.metrics.as_slice() {
        metrics.push(owned_metric(name, metric))?;
    }
    Ok(())
}

// A metric of the template of that name.
fn owned_metric(template: Name, metric: &MetricSpec) -> OwnedMetric {
    OwnedMetric {
        template,
        name: metric.name,
        is_endless: is_endless(metric),
    }
}

// Whether it is measured until its run is closed: it has an interval, and neither a count nor a
// number of successes in a row.
fn is_endless(metric: &MetricSpec) -> bool {
    metric.interval.is_some() && metric.count.is_none() && metric.pass_after.is_none()
}

// Adds that two of the metrics of an analysis have one name, that one of a step has no end, and
// that there are too many.
fn tell_metrics(lines: &mut Lines, place: JsonPlace, metrics: &[OwnedMetric], is_step: bool) {
    tell_repeated(lines, place, metrics);
    if is_step {
        tell_endless(lines, place, metrics);
    }
    if metrics.len() > MAX_METRICS {
        lines.tell(place, "", METRICS);
    }
}

// Adds each metric that has the name of one of another template.
fn tell_repeated(lines: &mut Lines, place: JsonPlace, metrics: &[OwnedMetric]) {
    for metric in metrics {
        if let Some(other) = other_of(metrics, *metric) {
            lines.tell(place, "", ONCE);
            tell_other_name(lines, *metric, other);
        }
    }
}

// Adds to the last finding that a metric wants another name than one of that template.
fn tell_other_name(lines: &mut Lines, metric: OwnedMetric, other: Name) {
    let (name, template) = (metric.name.as_str(), metric.template.as_str());
    let parts = &[
        "give ",
        name,
        " another name in ",
        template,
        " than in ",
        other.as_str(),
    ];
    lines.instead_in_parts(parts);
}

// The template of the first metric of that name, if it is another template.
fn other_of(metrics: &[OwnedMetric], metric: OwnedMetric) -> Option<Name> {
    match first_of(metrics, metric.name) {
        Some(template) if template != metric.template => Some(template),
        _ => None,
    }
}

// The template of the first metric of that name.
fn first_of(metrics: &[OwnedMetric], name: Label) -> Option<Name> {
    for metric in metrics {
        if metric.name == name {
            return Some(metric.template);
        }
    }
    None
}

// Adds each metric that has no end.
fn tell_endless(lines: &mut Lines, place: JsonPlace, metrics: &[OwnedMetric]) {
    for metric in metrics {
        if metric.is_endless {
            let (name, template) = (metric.name.as_str(), metric.template.as_str());
            lines.tell(place, "", WITH_END);
            lines.instead_in_parts(&["give ", name, " in ", template, " a count, or passAfter"]);
        }
    }
}
