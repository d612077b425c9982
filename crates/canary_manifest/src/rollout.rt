//! Rollout manifests of Argo Rollouts.
ghost use Rattle.std.specs.Prelude.{◌≡◌, Some, option_map, codes};
ghost use Rattle.serde_json.specs.View.{view, items_view, members_view};
ghost use Rattle.canary_canonical.specs.Forms.{name_in, each, list_of};
ghost use Rattle.canary_canonical.specs.Readings.{starting_step_in};
ghost use Rattle.canary_canonical.specs.Reads.{IsRead};
ghost use Rattle.canary_manifest.specs.Members.{in_member, in_member_or, has, is_true};
ghost use Rattle.canary_manifest.specs.Members.{any_item, some_item};
ghost use Rattle.canary_manifest.specs.Rollouts.{rollout_name, pause_in, templates_in, step_in};
ghost use Rattle.canary_manifest.specs.Rollouts.{background_in, canary_steps, canary_background};
ghost use Rattle.canary_manifest.specs.Rollouts.{in_canary, is_unsupported_analysis, is_step_key};
ghost use Rattle.canary_manifest.specs.Rollouts.{any_other, has_other_member};
ghost use Rattle.canary_manifest.specs.Rollouts.{is_unsupported_step, is_unsupported_canary};
ghost use Rattle.canary_manifest.specs.Rollouts.{is_unsupported_strategy, is_unsupported_spec};
ghost use Rattle.canary_manifest.specs.Rollouts.{is_unsupported_rollout};

use crate::member::{is_no_empty_list, is_other_text, is_true, member_of, pause_seconds};
use canary_base::durations::Seconds;
use canary_base::lists::Listed;
use canary_base::names::Name;
use canary_canonical::form::{self, FormFault, name_in, weight_in};
use canary_plan::service::{Background, StartingStep};
use canary_plan::step::Step;
use serde_json::{Map, Value};
use std::alloc::Global;

// The name in a manifest.
pub(crate) fn rollout_name(manifest: &Value) -> Option<Name>
    ensures { result ≡ rollout_name (view manifest.now) }
{
    name_in(member_of(member_of(manifest, "metadata")?, "name")?)
}

// The steps of a manifest.
pub(crate) fn rollout_steps(alloc: Global, manifest: &Value) -> Result<Listed<Step>, FormFault>
    ensures { IsRead (in_canary canary_steps (view manifest.now)) result }
{
    let canary = canary_of(manifest).ok_or(FormFault::Unreadable)?;
    canary_steps(alloc, canary)
}

// The analysis beside the steps of a manifest, if there is one.
pub(crate) fn rollout_background(
    alloc: Global,
    manifest: &Value,
) -> Result<Option<Background>, FormFault>
    ensures { IsRead (in_canary canary_background (view manifest.now)) result }
{
    let canary = canary_of(manifest).ok_or(FormFault::Unreadable)?;
    canary_background(alloc, canary)
}

/// The canary strategy of a manifest.
pub fn canary_of(manifest: &Value) -> Option<&Value>
    ensures { option_map (λ canary. view canary.now) result
        ≡ in_canary (λ canary. Some canary) (view manifest.now) }
{
    let spec = member_of(manifest, "spec")?;
    let strategy = member_of(spec, "strategy")?;
    member_of(strategy, "canary")
}

// The steps of a canary strategy, none if they are absent; `Unreadable` if it is no object.
fn canary_steps(alloc: Global, canary: &Value) -> Result<Listed<Step>, FormFault>
    ensures { IsRead (canary_steps (view canary.now)) result }
{
    if !canary.is_object() {
        return Err(FormFault::Unreadable);
    }
    match member_of(canary, "steps") {
        Some(steps) => steps_of(alloc, steps),
        None => Ok(Listed::of(Vec::new(alloc))),
    }
}

// The steps of a list; `Unreadable` if it is no list.
fn steps_of(alloc: Global, steps: &Value) -> Result<Listed<Step>, FormFault>
    ensures { IsRead (list_of step_in (view steps.now)) result }
{
    match steps.as_array() {
        Some(list) => steps_in(alloc, list),
        None => Err(FormFault::Unreadable),
    }
}

// The step that each item is, in order, or the first fault.
#[tactic(auto, using(canary_canonical::proofs::Items::read_in_turn))]
fn steps_in(alloc: Global, list: &Vec<Value>) -> Result<Listed<Step>, FormFault>
    ensures { IsRead (each step_in (items_view list.now.items)) result }
{
    let mut steps = Vec::new(alloc);
    for item in list {
        let step = step_in(alloc, item)?;
        steps.push(step)?;
    }
    Ok(Listed::of(steps))
}

/// The step that it is.
///
/// # Errors
/// `Unreadable` if it has none or several of `setWeight`, `pause` and `analysis`, or the one that
/// it has is not read; `Memory`.
#[tactic(auto, unfolding(crate::specs::Rollouts::step_in))]
pub fn step_in(alloc: Global, step: &Value) -> Result<Step, FormFault>
    ensures { IsRead (step_in (view step.now)) result }
{
    match (
        member_of(step, "setWeight"),
        member_of(step, "pause"),
        member_of(step, "analysis"),
    ) {
        (Some(weight), None, None) => match weight_in(weight) {
            Some(percent) => Ok(Step::SetWeight(percent)),
            None => Err(FormFault::Unreadable),
        },
        (None, Some(pause), None) => match pause_in(pause) {
            Some(duration) => Ok(Step::Pause(duration)),
            None => Err(FormFault::Unreadable),
        },
        (None, None, Some(analysis)) => Ok(Step::Analysis(templates_in(alloc, analysis)?)),
        _ => Err(FormFault::Unreadable),
    }
}

/// How long a pause is, if it says so.
pub fn pause_in(pause: &Value) -> Option<Option<Seconds>>
    ensures { result ≡ pause_in (view pause.now) }
{
    if !pause.is_object() {
        return None;
    }
    match member_of(pause, "duration") {
        Some(duration) => Some(Some(pause_seconds(duration)?)),
        None => Some(None),
    }
}

// The names of the templates of an analysis.
fn templates_in(alloc: Global, analysis: &Value) -> Result<Listed<Name>, FormFault>
    ensures { IsRead (templates_in (view analysis.now)) result }
{
    let templates = member_of(analysis, "templates").ok_or(FormFault::Unreadable)?;
    match templates.as_array() {
        Some(list) => template_names(alloc, list),
        None => Err(FormFault::Unreadable),
    }
}

// The name in each item, in order; `Unreadable` if one has no valid name.
#[tactic(auto, using(canary_canonical::proofs::Items::read_in_turn))]
fn template_names(alloc: Global, list: &Vec<Value>) -> Result<Listed<Name>, FormFault>
    ensures { IsRead (each (in_member (codes "templateName") name_in)
        (items_view list.now.items)) result }
{
    let mut names = Vec::new(alloc);
    for item in list {
        let name = template_name(item).ok_or(FormFault::Unreadable)?;
        names.push(name)?;
    }
    Ok(Listed::of(names))
}

/// The name of a template: the `templateName` of an item of an analysis's `templates`.
pub fn template_name(template: &Value) -> Option<Name>
    ensures { result ≡ in_member (codes "templateName") name_in (view template.now) }
{
    name_in(member_of(template, "templateName")?)
}

// The analysis beside the steps, if there is one; `Unreadable` if the canary is no object.
fn canary_background(alloc: Global, canary: &Value) -> Result<Option<Background>, FormFault>
    ensures { IsRead (canary_background (view canary.now)) result }
{
    if !canary.is_object() {
        return Err(FormFault::Unreadable);
    }
    match member_of(canary, "analysis") {
        Some(analysis) => Ok(Some(background_in(alloc, analysis)?)),
        None => Ok(None),
    }
}

/// The analysis beside the steps.
///
/// # Errors
/// `Unreadable` if its templates or its `startingStep` are not read; `Memory`.
#[tactic(auto, unfolding(crate::specs::Rollouts::background_in))]
pub fn background_in(alloc: Global, analysis: &Value) -> Result<Background, FormFault>
    ensures { IsRead (background_in (view analysis.now)) result }
{
    let templates = templates_in(alloc, analysis)?;
    let starting_step = starting_step_in(analysis).ok_or(FormFault::Unreadable)?;
    Ok(Background {
        templates,
        starting_step,
    })
}

/// The step from which on the analysis runs, 0 to 64; the first if it does not say so.
pub fn starting_step_in(analysis: &Value) -> Option<StartingStep>
    ensures { result
        ≡ in_member_or (codes "startingStep") 0 starting_step_in (view analysis.now) }
{
    match member_of(analysis, "startingStep") {
        Some(step) => form::starting_step_in(step),
        None => StartingStep::new(0),
    }
}

// Whether a manifest asks for what the desk does not do: another kind of manifest, a paused
// rollout, blue-green, a step of another kind, or in an analysis a dry run, measurement retention
// or a template of the cluster.
#[tactic(auto, unfolding(crate::specs::Rollouts::is_unsupported_rollout))]
pub(crate) fn is_unsupported_rollout(manifest: &Value) -> bool
    ensures { result ≡ is_unsupported_rollout (view manifest.now) }
{
    member_of(manifest, "kind").is_some_and(|kind| is_other_text(kind, "Rollout"))
        || member_of(manifest, "spec").is_some_and(is_unsupported_spec)
}

// Whether a `spec` is paused, or its strategy asks for what the desk does not do.
fn is_unsupported_spec(spec: &Value) -> bool
    ensures { result ≡ is_unsupported_spec (view spec.now) }
{
    member_of(spec, "paused").is_some_and(is_true)
        || member_of(spec, "strategy").is_some_and(is_unsupported_strategy)
}

// Whether a strategy has `blueGreen`, or a canary that asks for what the desk does not do.
fn is_unsupported_strategy(strategy: &Value) -> bool
    ensures { result ≡ is_unsupported_strategy (view strategy.now) }
{
    member_of(strategy, "blueGreen").is_some()
        || member_of(strategy, "canary").is_some_and(is_unsupported_canary)
}

// Whether a step, or the analysis beside them, asks for what the desk does not do.
fn is_unsupported_canary(canary: &Value) -> bool
    ensures { result ≡ is_unsupported_canary (view canary.now) }
{
    member_of(canary, "steps").is_some_and(has_unsupported_step)
        || member_of(canary, "analysis").is_some_and(is_unsupported_analysis)
}

// Whether one step of a list is unsupported; what is no list has no step.
fn has_unsupported_step(steps: &Value) -> bool
    ensures { result ≡ some_item is_unsupported_step (view steps.now) }
{
    match steps.as_array() {
        Some(list) => is_any_step_unsupported(list),
        None => false,
    }
}

// Whether one of these steps asks for what the desk does not do.
#[tactic(auto, using(crate::proofs::Items::tested_in_turn))]
fn is_any_step_unsupported(list: &Vec<Value>) -> bool
    ensures { result ≡ any_item is_unsupported_step (items_view list.now.items) }
{
    for step in list {
        if is_unsupported_step(step) {
            return true;
        }
    }
    false
}

// Whether a step is of another kind than the desk's, or its analysis is unsupported.
#[tactic(auto, unfolding(crate::specs::Rollouts::is_unsupported_step))]
fn is_unsupported_step(step: &Value) -> bool
    ensures { result ≡ is_unsupported_step (view step.now) }
{
    has_other_member(step) || member_of(step, "analysis").is_some_and(is_unsupported_analysis)
}

// Whether a step has a member, not null, that no step of the desk has.
fn has_other_member(step: &Value) -> bool
    ensures { result ≡ has_other_member (view step.now) }
{
    match step.as_object() {
        Some(members) => is_any_other(members),
        None => false,
    }
}

// Whether one of these members is not null and has a key that no step of the desk has.
fn is_any_other(members: &Map<String, Value>) -> bool
    ensures { result ≡ any_other (members_view members.now.entries) }
{
    for (key, value) in members.iter() {
        if !is_step_key(key.as_str()) && !value.is_null() {
            return true;
        }
    }
    false
}

/// Whether a step has a member of that key: `setWeight`, `pause` or `analysis`.
pub fn is_step_key(key: &str) -> bool
    ensures { result ≡ is_step_key key.now }
{
    key == "setWeight" || key == "pause" || key == "analysis"
}

// Whether an analysis has a dry run, measurement retention or a template of the cluster.
fn is_unsupported_analysis(analysis: &Value) -> bool
    ensures { result ≡ is_unsupported_analysis (view analysis.now) }
{
    member_of(analysis, "dryRun").is_some_and(is_no_empty_list)
        || member_of(analysis, "measurementRetention").is_some_and(is_no_empty_list)
        || member_of(analysis, "templates").is_some_and(has_cluster_template)
}

// Whether one item of a list is a template of the cluster; what is no list has no item.
fn has_cluster_template(templates: &Value) -> bool
    ensures { result ≡ some_item (has (codes "clusterScope") is_true) (view templates.now) }
{
    match templates.as_array() {
        Some(list) => is_any_of_the_cluster(list),
        None => false,
    }
}

// Whether one of these items is a template of the cluster.
#[tactic(auto, using(crate::proofs::Items::tested_in_turn))]
fn is_any_of_the_cluster(list: &Vec<Value>) -> bool
    ensures { result ≡ any_item (has (codes "clusterScope") is_true) (items_view list.now.items) }
{
    for template in list {
        if is_of_the_cluster(template) {
            return true;
        }
    }
    false
}

/// Whether it is a template of the cluster: its `clusterScope` is true.
pub fn is_of_the_cluster(template: &Value) -> bool
    ensures { result ≡ has (codes "clusterScope") is_true (view template.now) }
{
    member_of(template, "clusterScope").is_some_and(is_true)
}
