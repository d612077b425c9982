//! The service that a value of JSON is, in the form of a canonical text.
ghost use Rattle.std.specs.Prelude.{◌≡◌};
ghost use Rattle.serde_json.specs.View.{view, items_view};
ghost use Rattle.canary_canonical.specs.Forms.{each, list_of, name_in, null_or};
ghost use Rattle.canary_canonical.specs.Readings.{step_of_kind, step_in, background_in, service_in};
ghost use Rattle.canary_canonical.specs.Reads.{IsRead};

use crate::form::{
    FormFault, label_at, name_at, name_in, only_member, seconds_or_null, starting_step_at,
    weight_in,
};
use canary_base::lists::Listed;
use canary_base::names::Name;
use canary_plan::service::{Background, ServiceSpec};
use canary_plan::step::Step;
use serde_json::Value;
use std::alloc::Global;

/// The service that it is.
///
/// # Errors
/// `Unreadable` if it has another form, or a part beyond its limits; `Memory`.
#[tactic(auto, unfolding(crate::specs::Readings::service_in))]
pub fn service_in(alloc: Global, value: &Value) -> Result<ServiceSpec, FormFault>
    ensures { IsRead (service_in (view value.now)) result }
{
    let name = name_at(value, "name").ok_or(FormFault::Unreadable)?;
    let version = label_at(value, "version").ok_or(FormFault::Unreadable)?;
    let steps = value.get("steps").ok_or(FormFault::Unreadable)?;
    let steps = steps_of(alloc, steps)?;
    let background = value.get("analysis").ok_or(FormFault::Unreadable)?;
    let background = background_or_null(alloc, background)?;
    Ok(ServiceSpec {
        name,
        version,
        steps,
        background,
    })
}

// The steps of a service's list; `Unreadable` if the value is no list.
fn steps_of(alloc: Global, value: &Value) -> Result<Listed<Step>, FormFault>
    ensures { IsRead (list_of step_in (view value.now)) result }
{
    match value.as_array() {
        Some(list) => steps_in(alloc, list),
        None => Err(FormFault::Unreadable),
    }
}

// The steps that these values are, in order, or the first fault.
#[tactic(auto, using(crate::proofs::Items::read_in_turn))]
fn steps_in(alloc: Global, list: &Vec<Value>) -> Result<Listed<Step>, FormFault>
    ensures { IsRead (each step_in (items_view list.now.items)) result }
{
    let mut steps = Vec::new(alloc);
    for item in list {
        let step = step_in(alloc, item)?;
        steps.push(step)?;
    }
    Ok(Listed::of(steps))
}

// The step that it is: an object of one member, whose key is the step's kind.
#[tactic(auto, unfolding(crate::specs::Readings::step_in))]
fn step_in(alloc: Global, value: &Value) -> Result<Step, FormFault>
    ensures { IsRead (step_in (view value.now)) result }
{
    match only_member(value) {
        Some((kind, value)) => step_of_kind(alloc, kind, value),
        None => Err(FormFault::Unreadable),
    }
}

// The step of that kind with this value; `Unreadable` for another kind or an invalid value.
fn step_of_kind(alloc: Global, kind: &str, value: &Value) -> Result<Step, FormFault>
    ensures { IsRead (step_of_kind kind.now (view value.now)) result }
{
    match kind {
        "setWeight" => match weight_in(value) {
            Some(percent) => Ok(Step::SetWeight(percent)),
            None => Err(FormFault::Unreadable),
        },
        "pause" => match seconds_or_null(value) {
            Some(duration) => Ok(Step::Pause(duration)),
            None => Err(FormFault::Unreadable),
        },
        "analysis" => Ok(Step::Analysis(names_of(alloc, value)?)),
        _ => Err(FormFault::Unreadable),
    }
}

// The background analysis that it is; none if it is null.
fn background_or_null(alloc: Global, value: &Value) -> Result<Option<Background>, FormFault>
    ensures { IsRead (null_or background_in (view value.now)) result }
{
    if value.is_null() {
        return Ok(None);
    }
    Ok(Some(background_in(alloc, value)?))
}

// The background analysis that it is: its templates' names, and the step at which it begins.
#[tactic(auto, unfolding(crate::specs::Readings::background_in))]
fn background_in(alloc: Global, value: &Value) -> Result<Background, FormFault>
    ensures { IsRead (background_in (view value.now)) result }
{
    let templates = value.get("templates").ok_or(FormFault::Unreadable)?;
    let templates = names_of(alloc, templates)?;
    let starting_step = starting_step_at(value, "startingStep").ok_or(FormFault::Unreadable)?;
    Ok(Background {
        templates,
        starting_step,
    })
}

// The template names of a list; `Unreadable` if the value is no list.
fn names_of(alloc: Global, value: &Value) -> Result<Listed<Name>, FormFault>
    ensures { IsRead (list_of name_in (view value.now)) result }
{
    match value.as_array() {
        Some(list) => names_in(alloc, list),
        None => Err(FormFault::Unreadable),
    }
}

// The names that these values are, in order, or the first fault.
#[tactic(auto, using(crate::proofs::Items::read_in_turn))]
fn names_in(alloc: Global, list: &Vec<Value>) -> Result<Listed<Name>, FormFault>
    ensures { IsRead (each name_in (items_view list.now.items)) result }
{
    let mut names = Vec::new(alloc);
    for item in list {
        let name = name_of(item)?;
        names.push(name)?;
    }
    Ok(Listed::of(names))
}

// The name that it is; `Unreadable` if it is no name.
fn name_of(value: &Value) -> Result<Name, FormFault>
    ensures { IsRead (name_in (view value.now)) result }
{
    name_in(value).ok_or(FormFault::Unreadable)
}
