//! Templates as they are asked for.
ghost use Rattle.std.specs.Prelude.{◌≡◌, IsTrue, IfOk, length};
ghost use Rattle.std.specs.Option.{SomeIff};
ghost use Rattle.canary_plan.specs.Limits.{are_metric_limits, is_metric_count, is_dry_run_name};

use canary_base::durations::Seconds;
use canary_base::error::Memory;
use canary_base::lists::{Listed, Text};
use canary_base::names::{Label, Name};
use std::alloc::Global;
use std::marker::Model;

/// The most bytes of a name under `dryRun`.
pub const MAX_DRY_RUN_BYTES: usize = 63;

/// The name of a metric that is to be dry-run, or `.*` for all: 1 to 63 bytes.
#[derive(Debug, Drop)]
pub struct DryRunName {
    text: Text,
}

impl Model for DryRunName {
    ghost use Rattle.std.specs.Prelude.{List, ℕ, IsTrue};
    ghost use Rattle.canary_plan.specs.Limits.{is_dry_run_name};

    ghost Value = { List ℕ };

    ghost view = { λ n. n.text };

    ghost invariant = { λ n. IsTrue (is_dry_run_name n.text) };
}

impl DryRunName {
    /// This name, or none outside 1 to 63 bytes.
    pub fn of(text: Text) -> Option<DryRunName>
        ensures { SomeIff result (IsTrue (is_dry_run_name text)) text }
    {
        let len = text.as_str().len();
        if 1 <= len && len <= MAX_DRY_RUN_BYTES {
            Some(DryRunName { text })
        } else {
            None
        }
    }

    /// The name.
    pub fn as_str(&self) -> &str
        ensures value { result.now ≡ self.now }
        ensures limits { IsTrue (is_dry_run_name self.now) }
    {
        self.text.as_str()
    }

    /// A copy of it, or `Memory`.
    pub fn copy(&self, alloc: Global) -> Result<DryRunName, Memory>
        ensures { IfOk result (λ copy. copy ≡ self.now) }
    {
        Ok(DryRunName {
            text: self.text.copy(alloc)?,
        })
    }
}

/// A metric as a template asks for it, with its defaults filled in. A condition is not empty, a
/// count and a number of successes in a row are not 0, and these and the limits are at most
/// 1,000,000.
#[derive(Drop)]
pub struct MetricSpec {
    pub name: Label,
    /// `successCondition`.
    pub success: Option<Text>,
    /// `failureCondition`.
    pub failure: Option<Text>,
    pub interval: Option<Seconds>,
    pub initial_delay: Seconds,
    pub count: Option<u32>,
    /// `passAfter`: so many successful measurements in a row complete the metric.
    pub pass_after: Option<u32>,
    pub failure_limit: u32,
    pub inconclusive_limit: u32,
    pub consecutive_error_limit: u32,
    ghost within: { IsTrue (are_metric_limits success failure count pass_after failure_limit
        inconclusive_limit consecutive_error_limit) },
}

impl MetricSpec {
    /// A copy of it, or `Memory`.
    pub fn copy(&self, alloc: Global) -> Result<MetricSpec, Memory>
        ensures { IfOk result (λ copy. copy ≡ self.now) }
    {
        let success = copy_text(alloc, &self.success)?;
        let failure = copy_text(alloc, &self.failure)?;
        Ok(MetricSpec {
            name: self.name,
            success,
            failure,
            interval: self.interval,
            initial_delay: self.initial_delay,
            count: self.count,
            pass_after: self.pass_after,
            failure_limit: self.failure_limit,
            inconclusive_limit: self.inconclusive_limit,
            consecutive_error_limit: self.consecutive_error_limit,
        })
    }
}

/// An analysis template as it is asked for: 1 to 32 metrics, and the names of those that are
/// dry-run: measured as the others, without a say in a run's verdict (`.*` for all).
#[derive(Drop)]
pub struct TemplateSpec {
    pub name: Name,
    pub metrics: Listed<MetricSpec>,
    pub dry_run: Listed<DryRunName>,
    ghost within: { IsTrue (is_metric_count (length metrics)) },
}

impl TemplateSpec {
    /// A copy of it, or `Memory`.
    pub fn copy(&self, alloc: Global) -> Result<TemplateSpec, Memory>
        ensures { IfOk result (λ copy. copy ≡ self.now) }
    {
        let metrics = copy_metric_specs(alloc, self.metrics.as_slice())?;
        let dry_run = copy_dry_run(alloc, self.dry_run.as_slice())?;
        Ok(TemplateSpec {
            name: self.name,
            metrics,
            dry_run,
        })
    }
}

// A copy of the metrics, in order, or `Memory`.
fn copy_metric_specs(alloc: Global, metrics: &[MetricSpec]) -> Result<Listed<MetricSpec>, Memory>
    ensures { IfOk result (λ copies. copies ≡ metrics.now) }
{
    let mut copies = Listed::of(Vec::new(alloc));
    for metric in metrics {
        copies.push(metric.copy(alloc)?)?;
    }
    Ok(copies)
}

// A copy of the dry-run names, in order, or `Memory`.
fn copy_dry_run(alloc: Global, names: &[DryRunName]) -> Result<Listed<DryRunName>, Memory>
    ensures { IfOk result (λ copies. copies ≡ names.now) }
{
    let mut copies = Listed::of(Vec::new(alloc));
    for name in names {
        copies.push(name.copy(alloc)?)?;
    }
    Ok(copies)
}

// A copy of a condition's text, if there is one, or `Memory`.
fn copy_text(alloc: Global, text: &Option<Text>) -> Result<Option<Text>, Memory>
    ensures { IfOk result (λ copy. copy ≡ text.now) }
{
    match text {
        None => Ok(None),
        Some(text) => Ok(Some(text.copy(alloc)?)),
    }
}
