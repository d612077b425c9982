//! The parts of commands in JSON.
ghost use Rattle.std.specs.Prelude.{◌≡◌, IsTrue, IfOk};
ghost use Rattle.std.specs.List.{list_all};
ghost use Rattle.canary_base.specs.Names.{is_name};
ghost use Rattle.serde_json.specs.Data.{string};
ghost use Rattle.serde_json.specs.View.{view};
ghost use Rattle.canary_plan.specs.Limits.{is_dry_run_name};
ghost use Rattle.canary_canonical.specs.Texts.{whole_data, data_or_null, list_data, only};
ghost use Rattle.canary_canonical.specs.Laws.{is_duration, all_of};

use crate::object::object_with;
use canary_base::durations::Seconds;
use canary_base::names::Name;
use canary_plan::template_spec::DryRunName;
use serde_json::{Value, push};
use std::alloc::{AllocError, Global};

/// The number, or null.
pub fn number_or_null(number: Option<u32>) -> Value
    ensures { view result ≡ data_or_null whole_data number }
{
    match number {
        Some(number) => Value::from(number),
        None => Value::Null,
    }
}

/// The seconds of a duration, if there is one.
pub fn seconds(duration: Option<Seconds>) -> Option<u32>
    ensures value { result ≡ duration }
    ensures kept { IsTrue (all_of is_duration duration) }
{
    match duration {
        Some(duration) => Some(duration.get()),
        None => None,
    }
}

/// The duration in seconds, or null.
pub fn seconds_or_null(duration: Option<Seconds>) -> Value
    ensures value { view result ≡ data_or_null whole_data duration }
    ensures kept { IsTrue (all_of is_duration duration) }
{
    number_or_null(seconds(duration))
}

/// An object of this member alone.
pub fn only(alloc: Global, key: &str, value: Value) -> Result<Value, AllocError>
    ensures { IfOk result (λ object. view object ≡ only key.now (view value)) }
{
    object_with(alloc, &[], key, value)
}

/// The names of metrics that are dry-run, in order.
pub fn dry_run_names(alloc: Global, names: &[DryRunName]) -> Result<Value, AllocError>
    ensures value { IfOk result (λ value. view value ≡ list_data string names.now) }
    ensures kept { IfOk result (λ _. IsTrue (list_all is_dry_run_name names.now)) }
{
    let mut values = Vec::new(alloc);
    for name in names {
        push(&mut values, dry_run_name_value(alloc, name)?)?;
    }
    Ok(Value::Array(values))
}

// The name of a metric that is dry-run in JSON.
fn dry_run_name_value(alloc: Global, name: &DryRunName) -> Result<Value, AllocError>
    ensures value { IfOk result (λ value. view value ≡ string name.now) }
    ensures kept { IfOk result (λ _. IsTrue (is_dry_run_name name.now)) }
{
    Value::try_from_str(alloc, name.as_str())
}

/// The names, in order.
pub fn names(alloc: Global, names: &[Name]) -> Result<Value, AllocError>
    ensures value { IfOk result (λ value. view value ≡ list_data string names.now) }
    ensures kept { IfOk result (λ _. IsTrue (list_all is_name names.now)) }
{
    let mut values = Vec::new(alloc);
    for name in names {
        push(&mut values, name_value(alloc, name)?)?;
    }
    Ok(Value::Array(values))
}

// The name in JSON.
fn name_value(alloc: Global, name: &Name) -> Result<Value, AllocError>
    ensures value { IfOk result (λ value. view value ≡ string name.now) }
    ensures kept { IfOk result (λ _. IsTrue (is_name name.now)) }
{
    Value::try_from_str(alloc, name.as_str())
}
