//! What is measured of services, by files of manifests.
ghost use Rattle.std.specs.Prelude.{Contains, IfSome, IsTrue};
ghost use Rattle.canary_agent.specs.Plans.{IsOf, IsNamed, IsPlanned};

use crate::query::ProviderQuery;
use canary_base::names::{Label, Name};
use canary_measure::label::form_of;

/// Where what is measured of a metric comes from.
#[derive(Drop)]
pub enum MetricSource {
    /// A provider, which is asked so.
    Provider(ProviderQuery),
    /// The lines of another program.
    Lines,
    /// Nowhere: its provider is not asked, and no other program gives lines.
    Nowhere,
}

/// A metric of a service.
#[derive(Drop)]
pub struct PlannedMetric {
    /// Its label at the desk, by the files.
    pub label: Label,
    /// Its name in the manifest.
    pub name: String,
    /// How long it is from one measurement to the next, in seconds, if the files say so.
    pub interval: Option<u32>,
    /// Where what is measured comes from.
    pub source: MetricSource,
}

/// A service, and what is measured of it.
#[derive(Drop)]
pub struct Served {
    /// Its name.
    pub name: Name,
    /// Its metrics.
    pub metrics: Vec<PlannedMetric>,
}

/// What is measured.
#[derive(Drop)]
pub struct Plan {
    /// The services.
    pub services: Vec<Served>,
}

impl PlannedMetric {
    // Whether a provider or another program measures it.
    fn is_measured(&self) -> bool {
        match &self.source {
            MetricSource::Provider(_) | MetricSource::Lines => true,
            MetricSource::Nowhere => false,
        }
    }
}

// Whether a label is this name with the ending of a form.
fn is_named(label: &Label, name: &str) -> bool
    ensures { IsTrue result → IsNamed label.now name.now }
{
    match form_of(label.as_str()) {
        Some(ending) => ending.name == name,
        None => false,
    }
}

impl Served {
    /// The metric that a run of the desk calls by that label: the one that has it, or the only one
    /// of which it is the name with another ending.
    pub fn metric(&self, label: &Label) -> Option<&PlannedMetric>
        ensures { IfSome result (λ metric.
            Contains self.now.metrics.items metric.now × IsOf metric.now label.now) }
    {
        match labelled(self.metrics.as_slice(), label) {
            Some(metric) => Some(metric),
            None => only_named(self.metrics.as_slice(), label),
        }
    }

    /// The label of the metric of this name in the manifest, or of this label, if another program
    /// gives its values.
    pub fn awaited(&self, metric: &str) -> Option<Label> {
        for known in &self.metrics {
            let is_named = known.label.as_str() == metric || known.name.as_str() == metric;
            if is_named && let MetricSource::Lines = known.source {
                return Some(known.label);
            }
        }
        None
    }

    /// Whether something measures the metric of that label: a provider, or another program.
    pub fn is_measured(&self, label: &Label) -> bool {
        match self.metric(label) {
            Some(metric) => metric.is_measured(),
            None => false,
        }
    }

    /// Whether the plan has a metric of that label.
    pub fn has(&self, label: &Label) -> bool
        ensures { IsTrue result → IsPlanned self.now label.now }
    {
        match self.metric(label) {
            Some(_) => true,
            None => false,
        }
    }
}

// The metric with that label.
fn labelled<'a>(metrics: &'a [PlannedMetric], label: &Label) -> Option<&'a PlannedMetric>
    ensures { IfSome result (λ metric. Contains metrics.now metric.now
        × IsOf metric.now label.now) }
{
    for metric in metrics {
        if metric.label == *label {
            return Some(metric);
        }
    }
    None
}

// The metric of which that label is the name with an ending, if it is of no other one.
fn only_named<'a>(metrics: &'a [PlannedMetric], label: &Label) -> Option<&'a PlannedMetric>
    ensures { IfSome result (λ metric. Contains metrics.now metric.now
        × IsOf metric.now label.now) }
{
    let mut found = None;
    for metric in metrics {
        if is_named(label, metric.name.as_str()) {
            if found.is_some() {
                return None;
            }
            found = Some(metric);
        }
    }
    found
}
