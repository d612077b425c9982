//! Templates whose conditions have been read.
ghost use Rattle.std.specs.Prelude.{◌≡◌, ◌||◌, false, map, IfOk, IsTrue};
ghost use Rattle.std.specs.List.{list_any};
ghost use Rattle.std.specs.Str.{bytes_eq};
ghost use Rattle.canary_plan.specs.Conditions.{condition_of};
ghost use Rattle.canary_plan.specs.Plans.{all_metrics, is_marked, bound_metric, condition_if};
ghost use Rattle.canary_plan.specs.PlanRefusals.{is_unreadable};
ghost use Rattle.canary_plan.specs.PlanRefusals.{has_bad_condition, template_refusal};
ghost use Rattle.canary_plan.specs.PlanRefusals.{needs_interval, has_duplicate, is_foreign};
ghost use Rattle.canary_metric.specs.Settings.{are_within_limits, metric_of};
ghost use Rattle.canary_plan.specs.Binding.{IsReadUnless};
ghost use Rattle.canary_plan.specs.Checking.{IsBound};

use crate::fault::BindFault;
use crate::labels::has_duplicate;
use crate::laws;
use crate::refusal::Refusal;
use crate::template_spec::{DryRunName, MetricSpec, TemplateSpec};
use canary_base::error::Memory;
use canary_base::lists::{Listed, Text};
use canary_base::names::Label;
use canary_condition::condition::{Condition, ConditionFault};
use canary_metric::metric::{Metric, MetricSettings};
use std::alloc::Global;

// The name that marks every metric of its template.
const ALL_METRICS: &str = ".*";

/// An analysis template whose conditions have been read.
#[derive(Drop)]
pub struct Template {
    pub spec: TemplateSpec,
    /// The number of its revision, from 1.
    pub revision: u32,
    pub metrics: Listed<Metric>,
}

impl Template {
    /// That revision of the template that is asked for, its conditions read and each metric marked
    /// that is dry-run.
    ///
    /// # Errors
    /// `Refused` with the first of these that holds: `BadCondition` if a condition has no
    /// reading; `IntervalNeeded` if a metric has a count above 1 and no interval;
    /// `DuplicateMetric` if two metrics have one name; `BadDryRun` if a name that is to be
    /// dry-run is neither a metric's nor `.*`. `Memory` in place of any.
    pub fn bind(alloc: Global, spec: &TemplateSpec, revision: u32) -> Result<Template, BindFault>
        ensures { IsBound spec.now revision result }
    {
        let metrics = bound_metrics(alloc, spec.metrics.as_slice(), spec.dry_run.as_slice())?;
        if let Some(refusal) = other_refusal(alloc, spec)? {
            return Err(BindFault::Refused(refusal));
        }
        let spec = spec.copy(alloc)?;
        Ok(Template {
            spec,
            revision,
            metrics,
        })
    }

    /// The number of its revision, from 1.
    pub fn revision(&self) -> u32
        ensures value { result ≡ self.now.revision }
    {
        self.revision
    }

    /// A copy of it, or `Memory`.
    pub fn copy(&self, alloc: Global) -> Result<Template, Memory>
        ensures { IfOk result (λ copy. copy ≡ self.now) }
    {
        let spec = self.spec.copy(alloc)?;
        let metrics = copy_metrics(alloc, self.metrics.as_slice())?;
        Ok(Template {
            spec,
            revision: self.revision,
            metrics,
        })
    }
}

// A copy of the metrics, in order, or `Memory`.
fn copy_metrics(alloc: Global, metrics: &[Metric]) -> Result<Listed<Metric>, Memory>
    ensures { IfOk result (λ copies. copies ≡ metrics.now) }
{
    let mut copies = Listed::of(Vec::new(alloc));
    for metric in metrics {
        copies.push(metric.copy(alloc)?)?;
    }
    Ok(copies)
}

// The metrics of a template, in order.
fn bound_metrics(
    alloc: Global,
    specs: &[MetricSpec],
    dry_run: &[DryRunName],
) -> Result<Listed<Metric>, BindFault>
    ensures { IsReadUnless (list_any has_bad_condition specs.now)
        (map (bound_metric dry_run.now) specs.now) result }
{
    let mut metrics = Listed::of(Vec::new(alloc));
    for spec in specs {
        metrics.push(bound_metric(alloc, spec, dry_run)?)?;
    }
    Ok(metrics)
}

// A metric with its conditions read, and its mark.
fn bound_metric(
    alloc: Global,
    spec: &MetricSpec,
    dry_run: &[DryRunName],
) -> Result<Metric, BindFault>
    ensures { IsReadUnless (has_bad_condition spec.now) (bound_metric dry_run.now spec.now) result }
{
    let success = read(alloc, &spec.success)?;
    let failure = read(alloc, &spec.failure)?;
    let settings = MetricSettings {
        name: spec.name,
        success,
        failure,
        interval: spec.interval,
        initial_delay: Some(spec.initial_delay),
        count: spec.count,
        pass_after: spec.pass_after,
        failure_limit: Some(spec.failure_limit),
        inconclusive_limit: Some(spec.inconclusive_limit),
        consecutive_error_limit: Some(spec.consecutive_error_limit),
        dry_run: is_marked(dry_run, spec.name),
    };
    Ok(metric_of(settings))
}

// The metric of these settings, which are within their limits, so that there is one.
fn metric_of(settings: MetricSettings) -> Metric
    requires { IsTrue (are_within_limits settings) }
    ensures { result ≡ metric_of settings }
{
    Metric::new(settings).unwrap()
}

// Whether these names mark that metric as dry-run.
fn is_marked(dry_run: &[DryRunName], name: Label) -> bool
    ensures { result ≡ is_marked dry_run.now name }
{
    dry_run.iter().any(|marked| marks(marked, name))
}

// Whether that name is the metric's, or `ALL_METRICS`.
fn marks(marked: &DryRunName, name: Label) -> bool
    ensures { result ≡ (bytes_eq marked.now all_metrics || bytes_eq marked.now name) }
{
    marked.as_str() == ALL_METRICS || marked.as_str() == name.as_str()
}

// The condition that is asked for, if one is.
fn read(alloc: Global, text: &Option<Text>) -> Result<Option<Condition>, BindFault>
    ensures { IsReadUnless (is_unreadable text.now) (condition_if text.now) result }
{
    let Some(text) = text else {
        return Ok(None);
    };
    match condition_of(alloc, text.as_str())? {
        Some(condition) => Ok(Some(condition)),
        None => Err(BindFault::Refused(Refusal::BadCondition)),
    }
}

// The condition of a text, or none if it is no condition.
fn condition_of(alloc: Global, text: &str) -> Result<Option<Condition>, Memory>
    ensures { IfOk result (λ found. found ≡ condition_of text.now) }
{
    laws::conditions();
    match Condition::parse(alloc, text) {
        Ok(condition) => Ok(Some(condition)),
        Err(fault) => {
            if fault == ConditionFault::Memory {
                return Err(Memory);
            }
            Ok(None)
        }
    }
}

// Why a template is refused whose conditions all have a reading.
fn other_refusal(alloc: Global, spec: &TemplateSpec) -> Result<Option<Refusal>, Memory>
    ensures { IfOk result (λ found. list_any has_bad_condition spec.now.metrics ≡ false → found
        ≡ template_refusal spec.now) }
{
    if some_needs_interval(spec.metrics.as_slice()) {
        return Ok(Some(Refusal::IntervalNeeded));
    }
    if repeats_name(alloc, spec.metrics.as_slice())? {
        return Ok(Some(Refusal::DuplicateMetric));
    }
    if some_is_foreign(spec) {
        return Ok(Some(Refusal::BadDryRun));
    }
    Ok(None)
}

// Whether one of the metrics has a count above 1 and no interval.
fn some_needs_interval(metrics: &[MetricSpec]) -> bool
    ensures { result ≡ list_any needs_interval metrics.now }
{
    metrics.iter().any(needs_interval)
}

// Whether it has a count above 1 and no interval.
fn needs_interval(metric: &MetricSpec) -> bool
    ensures { result ≡ needs_interval metric.now }
{
    match metric.count {
        Some(count) => count > 1 && metric.interval.is_none(),
        None => false,
    }
}

// Whether two metrics have one name.
fn repeats_name(alloc: Global, metrics: &[MetricSpec]) -> Result<bool, Memory>
    ensures { IfOk result (λ repeats. repeats
        ≡ has_duplicate (map (λ (m : MetricSpec). m.name) metrics.now)) }
{
    let mut names = Vec::new(alloc);
    for metric in metrics {
        names.push(metric.name)?;
    }
    has_duplicate(alloc, names.as_slice())
}

// Whether a name that is to be dry-run is neither a metric's nor the one for all.
fn some_is_foreign(spec: &TemplateSpec) -> bool
    ensures { result ≡ list_any (is_foreign spec.now) spec.now.dry_run }
{
    spec.dry_run
        .as_slice()
        .iter()
        .any(|name| is_foreign(spec, name))
}

// Whether that name is neither a metric's nor the one for all.
fn is_foreign(spec: &TemplateSpec, name: &DryRunName) -> bool
    ensures { result ≡ is_foreign spec.now name.now }
{
    !(name.as_str() == ALL_METRICS || is_metric(spec.metrics.as_slice(), name))
}

// Whether one of the metrics has that name.
fn is_metric(metrics: &[MetricSpec], name: &DryRunName) -> bool
    ensures { result ≡ list_any (λ (m : MetricSpec). bytes_eq m.name name.now) metrics.now }
{
    metrics
        .iter()
        .any(|metric| metric.name.as_str() == name.as_str())
}
