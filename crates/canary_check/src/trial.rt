//! The desk's refusals, asked for a part of a manifest: in a template or a service that has nothing
//! else.
use crate::alone::{plain_metric, refusal_among, template_refusal};
use canary_base::durations::Seconds;
use canary_base::error::Memory;
use canary_base::lists::Listed;
use canary_base::names::{Label, Name};
use canary_canonical::template_reading::{metric_with, template_with};
use canary_plan::refusal::Refusal;
use canary_plan::service::{Background, ServiceSpec};
use canary_plan::step::Step;
use canary_plan::template_spec::{DryRunName, MetricSpec};
use std::alloc::Global;

/// Why a template is refused whose only metric has this interval and this count, or `Memory`.
pub(crate) fn refusal_of_times(
    alloc: Global,
    interval: Option<Seconds>,
    count: Option<u32>,
) -> Result<Option<Refusal>, Memory> {
    match timed_metric(interval, count) {
        Some(metric) => refusal_of_metric(alloc, metric),
        None => Ok(None),
    }
}

// A metric with nothing but a name, this interval and this count.
fn timed_metric(interval: Option<Seconds>, count: Option<u32>) -> Option<MetricSpec> {
    let name = Label::read("metric".as_bytes())?;
    let delay = Seconds::new(0)?;
    metric_with(name, None, None, interval, delay, count, None, 0, 0, 4)
}

// Why a template is refused with this metric alone.
fn refusal_of_metric(alloc: Global, metric: MetricSpec) -> Result<Option<Refusal>, Memory> {
    let metrics = Listed::of(vec![in alloc; metric]?);
    refusal_of(alloc, metrics, Listed::of(Vec::new(alloc)))
}

/// Why a template is refused that has metrics of these names, and marks these as dry-run; or
/// `Memory`. Nothing is reported of more metrics than a template may have.
pub(crate) fn refusal_of_names(
    alloc: Global,
    names: &[Label],
    dry_run: Listed<DryRunName>,
) -> Result<Option<Refusal>, Memory> {
    let mut metrics = Vec::new(alloc);
    for name in names {
        metrics.push(plain_metric(*name))?;
    }
    refusal_of(alloc, Listed::of(metrics), dry_run)
}

// Why a template of these parts is refused; nothing unless it has 1 to 32 metrics.
fn refusal_of(
    alloc: Global,
    metrics: Listed<MetricSpec>,
    dry_run: Listed<DryRunName>,
) -> Result<Option<Refusal>, Memory> {
    let Some(name) = Name::read("template".as_bytes()) else {
        return Ok(None);
    };
    match template_with(name, metrics, dry_run) {
        Some(spec) => template_refusal(alloc, &spec),
        None => Ok(None),
    }
}

/// Why a service with this step alone is refused, or `Memory`.
pub(crate) fn refusal_of_step(alloc: Global, step: Step) -> Result<Option<Refusal>, Memory> {
    let names = names_of(alloc, &step)?;
    let steps = Listed::of(vec![in alloc; step]?);
    refusal_of_service(alloc, names.as_slice(), steps, None)
}

// The names of the templates of an analysis; any other step has none.
fn names_of(alloc: Global, step: &Step) -> Result<Listed<Name>, Memory> {
    match step {
        Step::Analysis(names) => names.copy(alloc),
        _ => Ok(Listed::of(Vec::new(alloc))),
    }
}

/// Why a service with this background alone is refused, or `Memory`.
pub(crate) fn refusal_of_background(
    alloc: Global,
    background: Background,
) -> Result<Option<Refusal>, Memory> {
    let names = background.templates.copy(alloc)?;
    let steps = Listed::of(Vec::new(alloc));
    refusal_of_service(alloc, names.as_slice(), steps, Some(background))
}

// Why a service of these parts is refused if the templates of these names are there.
fn refusal_of_service(
    alloc: Global,
    names: &[Name],
    steps: Listed<Step>,
    background: Option<Background>,
) -> Result<Option<Refusal>, Memory> {
    let Some(name) = Name::read("service".as_bytes()) else {
        return Ok(None);
    };
    let Some(version) = Label::read("v1".as_bytes()) else {
        return Ok(None);
    };
    let spec = ServiceSpec {
        name,
        version,
        steps,
        background,
    };
    refusal_among(alloc, names, &spec)
}
