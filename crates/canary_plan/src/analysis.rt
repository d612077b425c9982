//! What analyses ask for, among the templates that are known.
ghost use Rattle.std.specs.Prelude.{◌≡◌, [], ◌∷◌, ◌++◌, is_none, map, IfOk, option_copied};
ghost use Rattle.std.specs.List.{list_any, filter_map};
ghost use Rattle.std.specs.FinMap.{get};
ghost use Rattle.canary_metric.specs.Metrics.{MetricValue};
ghost use Rattle.canary_plan.specs.Plans.{metrics_in, metrics_named, has_unknown, binds};
ghost use Rattle.canary_plan.specs.Plans.{are_templates_of_run};
ghost use Rattle.canary_plan.specs.Fit.{are_metrics_of_run};
ghost use Rattle.canary_plan.specs.PlanRefusals.{names_of_step, analyses_in};
ghost use Rattle.canary_plan.specs.PlanRefusals.{repeats_metric, is_endless, is_without_end};

use crate::labels::has_duplicate;
use crate::service::Background;
use crate::step::Step;
use crate::templates::Templates;
use canary_base::error::Memory;
use canary_base::lists::Listed;
use canary_base::names::{Label, Name};
use canary_metric::metric::{Metric, effective_count};
use std::alloc::Global;

/// The least templates of an analysis.
pub const MIN_TEMPLATES: usize = 1;

/// The most templates of an analysis.
pub const MAX_TEMPLATES: usize = 8;

/// The least metrics of a run.
pub const MIN_METRICS: usize = 1;

/// The most metrics of a run.
pub const MAX_METRICS: usize = 32;

/// The templates' names of each step analysis.
pub(crate) fn step_analyses(alloc: Global, steps: &[Step]) -> Result<Listed<Listed<Name>>, Memory>
    ensures { IfOk result (λ found. found ≡ filter_map names_of_step steps.now) }
{
    let mut found = Listed::of(Vec::new(alloc));
    for step in steps {
        found = with_step(alloc, found, step)?;
    }
    Ok(found)
}

// Adds a copy of the step's template names if it is an analysis, or `Memory`.
fn with_step(
    alloc: Global,
    mut found: Listed<Listed<Name>>,
    step: &Step,
) -> Result<Listed<Listed<Name>>, Memory>
    ensures { IfOk result (λ all. all ≡ found ++ filter_map names_of_step (step.now ∷ [])) }
{
    match step {
        Step::SetWeight(_) => Ok(found),
        Step::Pause(_) => Ok(found),
        Step::Analysis(names) => {
            found.push(names.copy(alloc)?)?;
            Ok(found)
        }
    }
}

/// The templates' names of each analysis: of each step's, then of the background.
pub(crate) fn analyses(
    alloc: Global,
    steps: &[Step],
    background: Option<&Background>,
) -> Result<Listed<Listed<Name>>, Memory>
    ensures { IfOk result
        (λ found. found ≡ analyses_in steps.now (option_copied background.entry)) }
{
    let found = step_analyses(alloc, steps)?;
    match background {
        None => Ok(found),
        Some(background) => with_background(alloc, found, background),
    }
}

// Adds a copy of the background's template names at the end, or `Memory`.
fn with_background(
    alloc: Global,
    mut found: Listed<Listed<Name>>,
    background: &Background,
) -> Result<Listed<Listed<Name>>, Memory>
    ensures { IfOk result (λ all. all ≡ found ++ background.now.templates ∷ []) }
{
    found.push(background.templates.copy(alloc)?)?;
    Ok(found)
}

// The metrics of a template; none if it is not there.
fn metrics_of(known: &Templates, name: Name) -> &[Metric]
    ensures { result.now ≡ metrics_in (get known.now name) }
{
    match known.get(name) {
        Some(template) => template.metrics.as_slice(),
        None => &[],
    }
}

/// The metrics of these templates together, in order.
pub(crate) fn metrics_named(
    alloc: Global,
    known: &Templates,
    names: &[Name],
) -> Result<Listed<Metric>, Memory>
    ensures { IfOk result (λ metrics. metrics ≡ metrics_named (get known.now) names.now) }
{
    let mut metrics = Listed::of(Vec::new(alloc));
    for name in names {
        metrics = with_metrics(alloc, metrics, metrics_of(known, *name))?;
    }
    Ok(metrics)
}

// Adds copies of more metrics at the end, in order, or `Memory`.
fn with_metrics(
    alloc: Global,
    mut metrics: Listed<Metric>,
    more: &[Metric],
) -> Result<Listed<Metric>, Memory>
    ensures { IfOk result (λ all. all ≡ metrics ++ more.now) }
{
    for metric in more {
        metrics.push(metric.copy(alloc)?)?;
    }
    Ok(metrics)
}

/// Whether two metrics of these templates have one name.
pub(crate) fn repeats_metric(
    alloc: Global,
    known: &Templates,
    names: &[Name],
) -> Result<bool, Memory>
    ensures { IfOk result (λ repeats. repeats ≡ repeats_metric (get known.now) names.now) }
{
    let labels = labels_named(alloc, known, names)?;
    has_duplicate(alloc, labels.as_slice())
}

// The names of the metrics of these templates together, in order.
fn labels_named(alloc: Global, known: &Templates, names: &[Name]) -> Result<Listed<Label>, Memory>
    ensures { IfOk result (λ labels. labels
        ≡ map (λ (m : MetricValue). m.name) (metrics_named (get known.now) names.now)) }
{
    let mut labels = Listed::of(Vec::new(alloc));
    for name in names {
        labels = with_labels(labels, metrics_of(known, *name))?;
    }
    Ok(labels)
}

// Adds the names of these metrics at the end, in order, or `Memory`.
fn with_labels(mut labels: Listed<Label>, metrics: &[Metric]) -> Result<Listed<Label>, Memory>
    ensures { IfOk result (λ all. all ≡ labels ++ map (λ (m : MetricValue). m.name) metrics.now) }
{
    for metric in metrics {
        labels.push(metric.name())?;
    }
    Ok(labels)
}

/// Whether one of these templates is not there.
pub(crate) fn has_unknown(known: &Templates, names: &[Name]) -> bool
    ensures { result ≡ has_unknown (get known.now) names.now }
{
    names.iter().any(|name| known.get(*name).is_none())
}

/// Whether a metric of these templates has neither an effective count nor `passAfter`.
pub(crate) fn is_endless(known: &Templates, names: &[Name]) -> bool
    ensures { result ≡ is_endless (get known.now) names.now }
{
    for name in names {
        if has_endless(metrics_of(known, *name)) {
            return true;
        }
    }
    false
}

// Whether one of these metrics, dry-run or not, is without end.
fn has_endless(metrics: &[Metric]) -> bool
    ensures { result ≡ list_any is_without_end metrics.now }
{
    metrics.iter().any(is_without_end)
}

// Whether it has neither an effective count nor `passAfter`.
fn is_without_end(metric: &Metric) -> bool
    ensures { result ≡ is_without_end metric.now }
{
    effective_count(metric).is_none() && metric.pass_after().is_none()
}

/// Whether there are 1 to 8 templates.
pub(crate) fn are_templates_of_run(names: &[Name]) -> bool
    ensures { result ≡ are_templates_of_run names.now }
{
    MIN_TEMPLATES <= names.len() && names.len() <= MAX_TEMPLATES
}

/// Whether each of these templates is known, and they have 1 to 32 metrics together.
pub(crate) fn binds(known: &Templates, names: &[Name]) -> bool
    ensures { result ≡ binds (get known.now) names.now }
{
    !has_unknown(known, names) && are_metrics_of_run(known, names)
}

// Whether these templates have 1 to 32 metrics together.
fn are_metrics_of_run(known: &Templates, names: &[Name]) -> bool
    ensures { result ≡ are_metrics_of_run (metrics_named (get known.now) names.now) }
{
    let mut count = 0;
    for name in names {
        count += metrics_of(known, *name).len();
        if count > MAX_METRICS {
            return false;
        }
    }
    count >= MIN_METRICS
}
