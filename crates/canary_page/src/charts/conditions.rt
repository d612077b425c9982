//! A metric's conditions, and what is drawn by them.
use crate::charts::spot::Spot;
use crate::charts::thresholds::{Mentions, Threshold, mentions_of};
use canary_base::error::Memory;
use canary_base::lists::Text;
use canary_base::names::Label;
use canary_decimal::shown::{Shown, Units, WHOLE};
use canary_plan::analysis_parts::Revision;
use canary_plan::template_spec::MetricSpec;
use canary_plan::templates::Templates;
use std::alloc::Global;

// The most charts of a metric.
const MAX_CHARTS: usize = 8;

/// The texts of a metric's conditions, as its template has them but for the numbers of its units,
/// and their bounds. They are not known if its template was revised after the metric was bound.
#[derive(Drop)]
pub(crate) struct Conditions {
    pub(crate) is_known: bool,
    /// The units of the metric's numbers.
    pub(crate) units: Units,
    pub(crate) success: Option<Text>,
    pub(crate) failure: Option<Text>,
    pub(crate) success_bounds: Vec<Threshold>,
    pub(crate) failure_bounds: Vec<Threshold>,
    /// What they name of a result, in order, each once: `result` itself if that is nothing.
    spots: Vec<Spot>,
}

impl Conditions {
    // What is drawn of a result, a chart each: the first 8 of what they name.
    pub(crate) fn drawn(&self) -> &[Spot] {
        let spots = self.spots.as_slice();
        spots.get(..MAX_CHARTS).unwrap_or(spots)
    }

    // How many places more they name.
    pub(crate) fn left_out(&self) -> u64 {
        self.spots.len().saturating_sub(MAX_CHARTS) as u64
    }
}

// Those of the metric of this name, by the templates as they are now.
pub(crate) fn conditions_of(
    alloc: Global,
    templates: &Templates,
    revisions: &[Revision],
    metric: Label,
) -> Result<Conditions, Memory> {
    let units = Shown::or_whole(metric.as_str()).units;
    match spec_in(templates, revisions, metric) {
        Some(spec) => with_mentions(alloc, true, units, &spec.success, &spec.failure),
        None => with_mentions(alloc, false, units, &None, &None),
    }
}

// The metric of this name, if one of these revisions has it and is still its template's newest one.
pub(crate) fn spec_in<'a>(
    templates: &'a Templates,
    revisions: &[Revision],
    metric: Label,
) -> Option<&'a MetricSpec> {
    for revision in revisions {
        if let Some(spec) = spec_of(templates, *revision, metric) {
            return Some(spec);
        }
    }
    None
}

// The metric of this name, if the template's newest revision is this one and has it.
fn spec_of(templates: &Templates, revision: Revision, metric: Label) -> Option<&MetricSpec> {
    let template = templates.get(revision.template)?;
    if template.revision() != revision.number {
        return None;
    }
    template
        .spec
        .metrics
        .as_slice()
        .iter()
        .find(|spec| spec.name == metric)
}

// The text of a condition, with its bounds in these units.
fn shown_text(
    alloc: Global,
    text: &Option<Text>,
    thresholds: &[Threshold],
    units: Units,
) -> Result<Option<Text>, Memory> {
    match text {
        None => Ok(None),
        Some(text) if units == WHOLE => Ok(Some(text.copy(alloc)?)),
        Some(text) => Ok(Some(Text::of(with_points(alloc, text.as_str(), thresholds, units)?))),
    }
}

// The text of a condition, in which the number of each bound is as people read it.
fn with_points(
    alloc: Global,
    text: &str,
    thresholds: &[Threshold],
    units: Units,
) -> Result<String, Memory> {
    let mut shown = String::new(alloc);
    let mut from = 0;
    for bound in thresholds {
        shown.push_str(text.get(from..bound.constant.begin).unwrap_or(""))?;
        let number = units.text(bound.spot.place(), bound.constant.number);
        shown.push_str(number.as_str())?;
        from = bound.constant.end;
    }
    shown.push_str(text.get(from..).unwrap_or(""))?;
    Ok(shown)
}

// The text of a condition as it is shown, and what the condition names of a result.
fn side_of(
    alloc: Global,
    units: Units,
    condition: &Option<Text>,
) -> Result<(Option<Text>, Mentions), Memory> {
    let mentions = mentions_of(alloc, text_of(condition))?;
    let text = shown_text(alloc, condition, mentions.thresholds.as_slice(), units)?;
    Ok((text, mentions))
}

// The conditions of these texts, with their bounds and all that they name of a result.
fn with_mentions(
    alloc: Global,
    is_known: bool,
    units: Units,
    success: &Option<Text>,
    failure: &Option<Text>,
) -> Result<Conditions, Memory> {
    let (success, in_success) = side_of(alloc, units, success)?;
    let (failure, in_failure) = side_of(alloc, units, failure)?;
    let spots = spots_of(alloc, &in_success, &in_failure)?;
    Ok(Conditions {
        is_known,
        units,
        success,
        failure,
        success_bounds: in_success.thresholds,
        failure_bounds: in_failure.thresholds,
        spots,
    })
}

// The text of a condition; an empty one if there is none.
pub(crate) fn text_of(condition: &Option<Text>) -> &str {
    match condition {
        Some(text) => text.as_str(),
        None => "",
    }
}

// What the two conditions name of a result, each once, in order; `Whole` if they name nothing.
fn spots_of(alloc: Global, success: &Mentions, failure: &Mentions) -> Result<Vec<Spot>, Memory> {
    let mut spots = Vec::new(alloc);
    add_named(&mut spots, success, failure)?;
    Ok(spots)
}

// Adds what the two conditions name to an empty list.
fn add_named(spots: &mut Vec<Spot>, success: &Mentions, failure: &Mentions) -> Result<(), Memory> {
    add_spots(spots, success.spots.as_slice())?;
    add_spots(spots, failure.spots.as_slice())?;
    if spots.is_empty() {
        spots.push(Spot::Whole)?;
    }
    spots.sort()?;
    Ok(())
}

// Adds those that are not there yet.
fn add_spots(spots: &mut Vec<Spot>, more: &[Spot]) -> Result<(), Memory> {
    for spot in more {
        if !spots.as_slice().contains(spot) {
            spots.push(*spot)?;
        }
    }
    Ok(())
}
