//! The template that a value of JSON is, in the form of a canonical text.
ghost use Rattle.std.specs.Prelude.{◌≡◌};
ghost use Rattle.serde_json.specs.Find.{as_str};
ghost use Rattle.serde_json.specs.View.{view, items_view};
ghost use Rattle.canary_plan.specs.Limits.{is_condition_asked, is_count};
ghost use Rattle.canary_canonical.specs.Forms.{at, at_if, each, list_of, null_or};
ghost use Rattle.canary_canonical.specs.Readings.{seconds_in, word_in, metric_with, metric_in};
ghost use Rattle.canary_canonical.specs.Readings.{dry_run_name_in, template_with, template_in};
ghost use Rattle.canary_canonical.specs.Reads.{IsRead};

use crate::form::{
    FormFault, dry_run_name_in, label_at, name_at, number_at, number_up_to, seconds_at,
    seconds_or_null, text_in,
};
use canary_base::durations::Seconds;
use canary_base::lists::{Listed, Text};
use canary_base::names::{Label, Name};
use canary_metric::metric::MAX_LIMIT;
use canary_plan::analysis::MAX_METRICS;
use canary_plan::template_spec::{DryRunName, MetricSpec, TemplateSpec};
use serde_json::Value;
use std::alloc::Global;

/// The template that it is.
///
/// # Errors
/// `Unreadable` if it has another form, or a part beyond its limits; `Memory`.
#[tactic(auto, unfolding(crate::specs::Readings::template_in))]
pub fn template_in(alloc: Global, value: &Value) -> Result<TemplateSpec, FormFault>
    ensures { IsRead (template_in (view value.now)) result }
{
    let name = name_at(value, "name").ok_or(FormFault::Unreadable)?;
    let metrics = value.get("metrics").ok_or(FormFault::Unreadable)?;
    let metrics = metrics_of(alloc, metrics)?;
    let dry_run = value.get("dryRun").ok_or(FormFault::Unreadable)?;
    let dry_run = dry_run_of(alloc, dry_run)?;
    template_with(name, metrics, dry_run).ok_or(FormFault::Unreadable)
}

/// The template, if the number of its metrics keeps its limits: 1 to 32.
pub fn template_with(
    name: Name,
    metrics: Listed<MetricSpec>,
    dry_run: Listed<DryRunName>,
) -> Option<TemplateSpec>
    ensures { result ≡ template_with name metrics dry_run }
{
    let count = metrics.as_slice().len();
    let is_within = 1 <= count && count <= MAX_METRICS;
    if !is_within {
        return None;
    }
    Some(TemplateSpec {
        name,
        metrics,
        dry_run,
    })
}

// The metrics of a template's list; `Unreadable` if the value is no list.
fn metrics_of(alloc: Global, value: &Value) -> Result<Listed<MetricSpec>, FormFault>
    ensures { IsRead (list_of metric_in (view value.now)) result }
{
    match value.as_array() {
        Some(list) => metrics_in(alloc, list),
        None => Err(FormFault::Unreadable),
    }
}

// The metrics that these values are, in order, or the first fault.
#[tactic(auto, using(crate::proofs::Items::read_in_turn))]
fn metrics_in(alloc: Global, list: &Vec<Value>) -> Result<Listed<MetricSpec>, FormFault>
    ensures { IsRead (each metric_in (items_view list.now.items)) result }
{
    let mut metrics = Vec::new(alloc);
    for item in list {
        let metric = metric_in(alloc, item)?;
        metrics.push(metric)?;
    }
    Ok(Listed::of(metrics))
}

// The metric that it is, within its limits; of its members only `passAfter` may be absent.
#[tactic(auto, unfolding(crate::specs::Readings::metric_in))]
fn metric_in(alloc: Global, value: &Value) -> Result<MetricSpec, FormFault>
    ensures { IsRead (metric_in (view value.now)) result }
{
    let name = label_at(value, "name").ok_or(FormFault::Unreadable)?;
    let success = condition_at(alloc, value, "successCondition")?;
    let failure = condition_at(alloc, value, "failureCondition")?;
    let interval = interval_at(value, "interval").ok_or(FormFault::Unreadable)?;
    let delay = seconds_at(value, "initialDelay").ok_or(FormFault::Unreadable)?;
    let count = count_at(value, "count").ok_or(FormFault::Unreadable)?;
    let passes = number_at_if(value, "passAfter").ok_or(FormFault::Unreadable)?;
    let failed = number_at(value, "failureLimit", u32::MAX).ok_or(FormFault::Unreadable)?;
    let inconclusive = number_at(value, "inconclusiveLimit", u32::MAX).ok_or(
        FormFault::Unreadable,
    )?;
    let errors = number_at(value, "consecutiveErrorLimit", u32::MAX).ok_or(FormFault::Unreadable)?;
    metric_with(
        name,
        success,
        failure,
        interval,
        delay,
        count,
        passes,
        failed,
        inconclusive,
        errors,
    )
    .ok_or(FormFault::Unreadable)
}

/// The metric, if its conditions, its counts and its limits keep their limits: a condition is not
/// empty, a count and `passAfter` are 1 to 1,000,000, and a limit is at most 1,000,000.
pub fn metric_with(
    name: Label,
    success: Option<Text>,
    failure: Option<Text>,
    interval: Option<Seconds>,
    initial_delay: Seconds,
    count: Option<u32>,
    pass_after: Option<u32>,
    failure_limit: u32,
    inconclusive_limit: u32,
    consecutive_error_limit: u32,
) -> Option<MetricSpec>
    ensures { result ≡ metric_with name success failure interval initial_delay count pass_after
        failure_limit inconclusive_limit consecutive_error_limit }
{
    let is_within = is_condition_asked(&success)
        && is_condition_asked(&failure)
        && is_count(count)
        && is_count(pass_after)
        && failure_limit <= MAX_LIMIT
        && inconclusive_limit <= MAX_LIMIT
        && consecutive_error_limit <= MAX_LIMIT;
    if !is_within {
        return None;
    }
    Some(MetricSpec {
        name,
        success,
        failure,
        interval,
        initial_delay,
        count,
        pass_after,
        failure_limit,
        inconclusive_limit,
        consecutive_error_limit,
    })
}

// Absent, or not empty.
fn is_condition_asked(condition: &Option<Text>) -> bool
    ensures { result ≡ is_condition_asked condition.now }
{
    match condition {
        Some(text) => !text.as_str().is_empty(),
        None => true,
    }
}

// Absent, or 1 to 1,000,000.
fn is_count(count: Option<u32>) -> bool
    ensures { result ≡ is_count count }
{
    match count {
        Some(count) => 1 <= count && count <= MAX_LIMIT,
        None => true,
    }
}

// A condition, or null.
fn condition_at(alloc: Global, value: &Value, key: &str) -> Result<Option<Text>, FormFault>
    ensures { IsRead (at key.now (null_or as_str) (view value.now)) result }
{
    let member = value.get(key).ok_or(FormFault::Unreadable)?;
    if member.is_null() {
        return Ok(None);
    }
    Ok(Some(text_in(alloc, member)?))
}

// A duration, or null.
fn interval_at(value: &Value, key: &str) -> Option<Option<Seconds>>
    ensures { result ≡ at key.now (null_or seconds_in) (view value.now) }
{
    seconds_or_null(value.get(key)?)
}

// A count, or null.
fn count_at(value: &Value, key: &str) -> Option<Option<u32>>
    ensures { result ≡ at key.now (null_or word_in) (view value.now) }
{
    let member = value.get(key)?;
    if member.is_null() {
        return Some(None);
    }
    Some(Some(number_up_to(member, u32::MAX)?))
}

// A number, or none if there is no such member.
fn number_at_if(value: &Value, key: &str) -> Option<Option<u32>>
    ensures { result ≡ at_if key.now word_in (view value.now) }
{
    match value.get(key) {
        None => Some(None),
        Some(member) => Some(Some(number_up_to(member, u32::MAX)?)),
    }
}

// The dry-run names of a template's list; `Unreadable` if the value is no list.
fn dry_run_of(alloc: Global, value: &Value) -> Result<Listed<DryRunName>, FormFault>
    ensures { IsRead (list_of dry_run_name_in (view value.now)) result }
{
    match value.as_array() {
        Some(list) => dry_run_in(alloc, list),
        None => Err(FormFault::Unreadable),
    }
}

// The dry-run names that these values are, in order, or the first fault.
#[tactic(auto, using(crate::proofs::Items::read_in_turn))]
fn dry_run_in(alloc: Global, list: &Vec<Value>) -> Result<Listed<DryRunName>, FormFault>
    ensures { IsRead (each dry_run_name_in (items_view list.now.items)) result }
{
    let mut names = Vec::new(alloc);
    for item in list {
        let name = dry_run_name_in(alloc, item)?;
        names.push(name)?;
    }
    Ok(Listed::of(names))
}
