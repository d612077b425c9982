//! AnalysisTemplate manifests of Argo Rollouts.
ghost use Rattle.std.specs.Prelude.{◌≡◌, codes, []};
ghost use Rattle.serde_json.specs.View.{view, items_view};
ghost use Rattle.canary_canonical.specs.Forms.{each, list_of};
ghost use Rattle.canary_canonical.specs.Reads.{IsRead};
ghost use Rattle.canary_manifest.specs.Members.{any_item, some_item, in_member_or};
ghost use Rattle.canary_manifest.specs.Templates.{metric_of, numbers_of, dry_run_name, template_of};
ghost use Rattle.canary_manifest.specs.Templates.{metric_by};
ghost use Rattle.canary_canonical.specs.Readings.{metric_with};
ghost use Rattle.canary_manifest.specs.Templates.{is_unsupported_metric, is_unsupported_template};
ghost use Rattle.canary_manifest.specs.Templates.{is_unsupported_analysis_spec};

use crate::member::{
    condition_at, count_at, delay_at, duration_at, is_negative, is_no_empty_list, is_other_text,
    limit_at, member_of,
};
use canary_base::durations::Seconds;
use canary_base::lists::{Listed, Text};
use canary_base::names::Label;
use canary_canonical::form::{FormFault, dry_run_name_in, label_in, name_in};
use canary_canonical::template_reading::{metric_with, template_with};
use canary_plan::template_spec::{DryRunName, MetricSpec, TemplateSpec};
use serde_json::Value;
use std::alloc::Global;

// The times, the counts and the limits of a metric.
#[derive(Clone, Copy)]
struct MetricLimits {
    interval: Option<Seconds>,
    delay: Seconds,
    count: Option<u32>,
    passes: Option<u32>,
    failed: u32,
    inconclusive: u32,
    errors: u32,
}

// The template that a manifest asks for.
#[tactic(auto, unfolding(crate::specs::Templates::template_of))]
pub(crate) fn template_of(alloc: Global, manifest: &Value) -> Result<TemplateSpec, FormFault>
    ensures { IsRead (template_of (view manifest.now)) result }
{
    let metadata = member_of(manifest, "metadata").ok_or(FormFault::Unreadable)?;
    let name = member_of(metadata, "name").ok_or(FormFault::Unreadable)?;
    let name = name_in(name).ok_or(FormFault::Unreadable)?;
    let spec = member_of(manifest, "spec").ok_or(FormFault::Unreadable)?;
    let metrics = member_of(spec, "metrics").ok_or(FormFault::Unreadable)?;
    let metrics = metrics_of(alloc, metrics)?;
    let dry_run = dry_run_at(alloc, spec)?;
    template_with(name, metrics, dry_run).ok_or(FormFault::Unreadable)
}

// The metrics of a list; `Unreadable` if it is no list.
fn metrics_of(alloc: Global, value: &Value) -> Result<Listed<MetricSpec>, FormFault>
    ensures { IsRead (list_of metric_of (view value.now)) result }
{
    match value.as_array() {
        Some(list) => metrics_in(alloc, list),
        None => Err(FormFault::Unreadable),
    }
}

// The metric that each item is, in order, or the first fault.
#[tactic(auto, using(canary_canonical::proofs::Items::read_in_turn))]
fn metrics_in(alloc: Global, list: &Vec<Value>) -> Result<Listed<MetricSpec>, FormFault>
    ensures { IsRead (each metric_of (items_view list.now.items)) result }
{
    let mut metrics = Vec::new(alloc);
    for item in list {
        let metric = metric_of(alloc, item)?;
        metrics.push(metric)?;
    }
    Ok(Listed::of(metrics))
}

// A metric, with its defaults.
#[tactic(auto, unfolding(crate::specs::Templates::metric_of))]
fn metric_of(alloc: Global, metric: &Value) -> Result<MetricSpec, FormFault>
    ensures { IsRead (metric_of (view metric.now)) result }
{
    let name = member_of(metric, "name").ok_or(FormFault::Unreadable)?;
    let name = label_in(name).ok_or(FormFault::Unreadable)?;
    let numbers = numbers_of(metric).ok_or(FormFault::Unreadable)?;
    let success = condition_at(alloc, metric, "successCondition")?;
    let failure = condition_at(alloc, metric, "failureCondition")?;
    metric_by(name, success, failure, &numbers).ok_or(FormFault::Unreadable)
}

// The metric, if its parts keep their limits.
fn metric_by(
    name: Label,
    success: Option<Text>,
    failure: Option<Text>,
    numbers: &MetricLimits,
) -> Option<MetricSpec>
    ensures { result ≡ metric_by (metric_with name success failure) numbers.now }
{
    metric_with(
        name,
        success,
        failure,
        numbers.interval,
        numbers.delay,
        numbers.count,
        numbers.passes,
        numbers.failed,
        numbers.inconclusive,
        numbers.errors,
    )
}

// The times, the counts and the limits of a metric, with their defaults.
fn numbers_of(metric: &Value) -> Option<MetricLimits>
    ensures { result ≡ numbers_of (view metric.now) }
{
    let interval = duration_at(metric, "interval")?;
    let delay = delay_at(metric, "initialDelay")?;
    let count = count_at(metric, "count")?;
    let passes = count_at(metric, "passAfter")?;
    let failed = limit_at(metric, "failureLimit", 0)?;
    let inconclusive = limit_at(metric, "inconclusiveLimit", 0)?;
    let errors = limit_at(metric, "consecutiveErrorLimit", 4)?;
    Some(MetricLimits {
        interval,
        delay,
        count,
        passes,
        failed,
        inconclusive,
        errors,
    })
}

// The names of the metrics that are dry-run; none if the member is absent.
fn dry_run_at(alloc: Global, spec: &Value) -> Result<Listed<DryRunName>, FormFault>
    ensures { IsRead (in_member_or (codes "dryRun") [] (list_of dry_run_name) (view spec.now))
        result }
{
    match member_of(spec, "dryRun") {
        Some(list) => dry_run_of(alloc, list),
        None => Ok(Listed::of(Vec::new(alloc))),
    }
}

// The names in a list of dry runs; `Unreadable` if it is no list.
fn dry_run_of(alloc: Global, value: &Value) -> Result<Listed<DryRunName>, FormFault>
    ensures { IsRead (list_of dry_run_name (view value.now)) result }
{
    match value.as_array() {
        Some(list) => dry_run_in(alloc, list),
        None => Err(FormFault::Unreadable),
    }
}

// The name in each item, in order, or the first fault.
#[tactic(auto, using(canary_canonical::proofs::Items::read_in_turn))]
fn dry_run_in(alloc: Global, list: &Vec<Value>) -> Result<Listed<DryRunName>, FormFault>
    ensures { IsRead (each dry_run_name (items_view list.now.items)) result }
{
    let mut names = Vec::new(alloc);
    for item in list {
        let name = dry_run_name(alloc, item)?;
        names.push(name)?;
    }
    Ok(Listed::of(names))
}

/// The name of a metric that is dry-run, or `.*` for all: the `metricName` of an item of `dryRun`.
///
/// # Errors
/// `Unreadable` if it is no text of 1 to 63 bytes; `Memory`.
pub fn dry_run_name(alloc: Global, value: &Value) -> Result<DryRunName, FormFault>
    ensures { IsRead (dry_run_name (view value.now)) result }
{
    let name = member_of(value, "metricName").ok_or(FormFault::Unreadable)?;
    dry_run_name_in(alloc, name)
}

// Whether a manifest asks for what the desk does not do: another kind of manifest, templates in a
// template, measurement retention, or a metric with a `consecutiveSuccessLimit` or a failure limit
// below 0.
#[tactic(auto, unfolding(crate::specs::Templates::is_unsupported_template))]
pub(crate) fn is_unsupported_template(manifest: &Value) -> bool
    ensures { result ≡ is_unsupported_template (view manifest.now) }
{
    member_of(manifest, "kind").is_some_and(|kind| is_other_text(kind, "AnalysisTemplate"))
        || member_of(manifest, "spec").is_some_and(is_unsupported_analysis_spec)
}

// Whether a `spec` has templates, measurement retention or an unsupported metric.
fn is_unsupported_analysis_spec(spec: &Value) -> bool
    ensures { result ≡ is_unsupported_analysis_spec (view spec.now) }
{
    member_of(spec, "templates").is_some_and(is_no_empty_list)
        || member_of(spec, "measurementRetention").is_some_and(is_no_empty_list)
        || member_of(spec, "metrics").is_some_and(has_unsupported_metric)
}

// Whether one metric of a list is unsupported; what is no list has no metric.
fn has_unsupported_metric(metrics: &Value) -> bool
    ensures { result ≡ some_item is_unsupported_metric (view metrics.now) }
{
    match metrics.as_array() {
        Some(list) => is_any_metric_unsupported(list),
        None => false,
    }
}

// Whether one of these metrics asks for what the desk does not do.
#[tactic(auto, using(crate::proofs::Items::tested_in_turn))]
fn is_any_metric_unsupported(list: &Vec<Value>) -> bool
    ensures { result ≡ any_item is_unsupported_metric (items_view list.now.items) }
{
    for metric in list {
        if is_unsupported_metric(metric) {
            return true;
        }
    }
    false
}

// Whether a metric has a `consecutiveSuccessLimit`, or a `failureLimit` below 0.
fn is_unsupported_metric(metric: &Value) -> bool
    ensures { result ≡ is_unsupported_metric (view metric.now) }
{
    member_of(metric, "consecutiveSuccessLimit").is_some()
        || member_of(metric, "failureLimit").is_some_and(is_negative)
}
