//! Services in JSON.
ghost use Rattle.std.specs.Prelude.{◌≡◌, IsTrue, IfOk, OnOk, codes};
ghost use Rattle.std.specs.List.{list_all};
ghost use Rattle.canary_base.specs.Names.{is_name};
ghost use Rattle.serde_json.specs.Data.{put};
ghost use Rattle.serde_json.specs.View.{view, members_view};
ghost use Rattle.canary_canonical.specs.Texts.{data_or_null, list_data};
ghost use Rattle.canary_canonical.specs.Texts.{step_data, background_data, service_data};
ghost use Rattle.canary_canonical.specs.Laws.{is_starting_step, all_of};
ghost use Rattle.canary_canonical.specs.Laws.{keeps_step, keeps_background, keeps_service};

use crate::object::{Member, object_with, put_text};
use crate::parts::{names, only, seconds_or_null};
use canary_plan::service::{Background, ServiceSpec};
use canary_plan::step::Step;
use serde_json::{Map, Value, push, put};
use std::alloc::{AllocError, Global};

/// The service in JSON.
#[tactic(auto, unfolding(crate::specs::Texts::service_data, crate::specs::Laws::keeps_service))]
pub fn service_value(alloc: Global, service: &ServiceSpec) -> Result<Value, AllocError>
    ensures value { IfOk result (λ value. view value ≡ service_data service.now) }
    ensures kept { IfOk result (λ _. IsTrue (keeps_service service.now)) }
{
    let mut object = Map::new(alloc);
    put_background(&mut object, alloc, &service.background)?;
    put_text(&mut object, alloc, "name", service.name.as_str())?;
    put_steps(&mut object, alloc, service.steps.as_slice())?;
    put_text(&mut object, alloc, "version", service.version.as_str())?;
    Ok(Value::Object(object))
}

// Puts the background analysis into an object, or null if the service has no such analysis.
fn put_background(
    object: &mut Map<String, Value>,
    alloc: Global,
    background: &Option<Background>,
) -> Result<(), AllocError>
    ensures value { OnOk result (members_view object.new.entries ≡ put (codes "analysis")
        (data_or_null background_data background.now) (members_view object.old.entries)) }
    ensures kept { OnOk result (IsTrue (all_of keeps_background background.now)) }
{
    let value = background_or_null(alloc, background)?;
    put(object, alloc, "analysis", value)
}

// Puts the steps into an object.
fn put_steps(
    object: &mut Map<String, Value>,
    alloc: Global,
    steps: &[Step],
) -> Result<(), AllocError>
    ensures value { OnOk result (members_view object.new.entries ≡ put (codes "steps")
        (list_data step_data steps.now) (members_view object.old.entries)) }
    ensures kept { OnOk result (IsTrue (list_all keeps_step steps.now)) }
{
    let value = step_values(alloc, steps)?;
    put(object, alloc, "steps", value)
}

// The background analysis in JSON, or null if the service has no such analysis.
#[tactic(auto, unfolding(crate::specs::Laws::keeps_background))]
fn background_or_null(alloc: Global, background: &Option<Background>) -> Result<Value, AllocError>
    ensures value { IfOk result (λ value. view value
        ≡ data_or_null background_data background.now) }
    ensures kept { IfOk result (λ _. IsTrue (all_of keeps_background background.now)) }
{
    match background {
        Some(background) => background_value(alloc, background),
        None => Ok(Value::Null),
    }
}

// The background analysis in JSON: the step at which it begins, and its templates' names.
#[tactic(auto, unfolding(crate::specs::Objects::with_member, crate::specs::Texts::background_data))]
fn background_value(alloc: Global, background: &Background) -> Result<Value, AllocError>
    ensures value { IfOk result (λ value. view value ≡ background_data background.now) }
    ensures names { IfOk result (λ _. IsTrue (list_all is_name background.now.templates)) }
    ensures step { IfOk result (λ _. IsTrue (is_starting_step background.now.starting_step)) }
{
    let members = [Member::Number("startingStep", background.starting_step.get())];
    let templates = names(alloc, background.templates.as_slice())?;
    object_with(alloc, &members, "templates", templates)
}

// The steps in JSON, in order.
fn step_values(alloc: Global, steps: &[Step]) -> Result<Value, AllocError>
    ensures value { IfOk result (λ value. view value ≡ list_data step_data steps.now) }
    ensures kept { IfOk result (λ _. IsTrue (list_all keeps_step steps.now)) }
{
    let mut values = Vec::new(alloc);
    for step in steps {
        push(&mut values, step_value(alloc, step)?)?;
    }
    Ok(Value::Array(values))
}

// The step in JSON: an object of one member, whose key is the step's kind.
#[tactic(auto, unfolding(crate::specs::Texts::step_data, crate::specs::Laws::keeps_step))]
fn step_value(alloc: Global, step: &Step) -> Result<Value, AllocError>
    ensures value { IfOk result (λ value. view value ≡ step_data step.now) }
    ensures kept { IfOk result (λ _. IsTrue (keeps_step step.now)) }
{
    match step {
        Step::SetWeight(percent) => only(alloc, "setWeight", Value::from(percent.get())),
        Step::Pause(duration) => only(alloc, "pause", seconds_or_null(*duration)),
        Step::Analysis(templates) => only(alloc, "analysis", names(alloc, templates.as_slice())?),
    }
}
