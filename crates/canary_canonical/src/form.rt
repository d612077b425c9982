//! What values of JSON (RFC 8259) hold: members of objects, names, labels, numbers and texts.
//!
//! Of a key that stands twice in an object the last value counts, and a number with a point or an
//! exponent, or `-0`, is no whole number.
ghost use Rattle.std.specs.Prelude.{◌≡◌, option_map, option_and_then};
ghost use Rattle.serde_json.specs.Find.{as_object, as_str};
ghost use Rattle.serde_json.specs.View.{view};
ghost use Rattle.canary_canonical.specs.Forms.{at, is_object_of, only_member};
ghost use Rattle.canary_canonical.specs.Forms.{name_in, label_in, number_up_to, null_or};
ghost use Rattle.canary_canonical.specs.Readings.{seconds_in, moment_in};
ghost use Rattle.canary_canonical.specs.Readings.{weight_in, starting_step_in, dry_run_name_in};
ghost use Rattle.canary_canonical.specs.Reads.{IsRead};

use canary_base::durations::Seconds;
use canary_base::error::Memory;
use canary_base::lists::Text;
use canary_base::moments::Moment;
use canary_base::names::{Label, Name};
use canary_plan::service::StartingStep;
use canary_plan::step::Weight;
use canary_plan::template_spec::DryRunName;
use serde_json::Value;
use std::alloc::{AllocError, AllocFailed, Global};
use thiserror::Error;

/// Why a value was not read.
#[derive(Clone, Copy, Debug, PartialEq, Eq, Error)]
pub enum FormFault {
    /// It has not the form that is asked for.
    #[error("the value has another form")]
    Unreadable,
    /// An allocation was refused.
    #[error("out of memory")]
    Memory,
}

impl From<AllocError> for FormFault {
    ghost use Rattle.canary_canonical.specs.declared.form.FormFault.TheVariants.{Memory};

    ghost from_gives = { λ _ fault. fault ≡ Memory };

    // A refused allocation of the standard library, as the fault of a reader.
    fn from(_: AllocError) -> FormFault {
        FormFault::Memory
    }
}

impl<T: Drop> From<AllocFailed<T>> for FormFault {
    ghost use Rattle.canary_canonical.specs.declared.form.FormFault.TheVariants.{Memory};

    ghost from_gives = { λ _ fault. fault ≡ Memory };

    // A refused allocation, as the fault of a reader; the value that found no room is dropped.
    fn from(_: AllocFailed<T>) -> FormFault {
        FormFault::Memory
    }
}

impl From<Memory> for FormFault {
    ghost use Rattle.canary_canonical.specs.declared.form.FormFault.TheVariants.{Memory};

    ghost from_gives = { λ _ fault. fault ≡ Memory };

    // A refused allocation of the desk's crates, as the fault of a reader.
    fn from(_: Memory) -> FormFault {
        FormFault::Memory
    }
}

/// Whether it is an object with so many members.
#[tactic(auto, using(crate::proofs::Members::members_len_view))]
pub fn is_object_of(value: &Value, count: usize) -> bool
    ensures { result ≡ is_object_of count (view value.now) }
{
    match value.as_object() {
        Some(members) => members.len() == count,
        None => false,
    }
}

/// The key and the value of the only member of an object.
#[tactic(auto, using(crate::proofs::Members::only_of_one, crate::proofs::Members::none_of_more))]
pub fn only_member(value: &Value) -> Option<(&str, &Value)>
    ensures { option_map (λ m. (m.0.now, view m.1.now)) result
        ≡ option_and_then only_member (as_object (view value.now)) }
{
    let members = value.as_object()?;
    if members.len() != 1 {
        return None;
    }
    let (key, value) = members.first_key_value()?;
    Some((key.as_str(), value))
}

/// The name that it is.
pub fn name_in(value: &Value) -> Option<Name>
    ensures { result ≡ name_in (view value.now) }
{
    match value.as_str() {
        Some(text) => Name::read(text.as_bytes()),
        None => None,
    }
}

/// The label that it is.
pub fn label_in(value: &Value) -> Option<Label>
    ensures { result ≡ label_in (view value.now) }
{
    match value.as_str() {
        Some(text) => Label::read(text.as_bytes()),
        None => None,
    }
}

/// The whole number that it is, up to that.
pub fn number_up_to(value: &Value, greatest: u32) -> Option<u32>
    ensures { result ≡ number_up_to greatest (view value.now) }
{
    match value.as_u64() {
        Some(number) if number <= greatest as u64 => Some(number as u32),
        _ => None,
    }
}

/// The duration that it is, in seconds.
pub fn seconds_in(value: &Value) -> Option<Seconds>
    ensures { result ≡ seconds_in (view value.now) }
{
    Seconds::new(value.as_u64()?)
}

/// A duration in seconds, or null.
pub fn seconds_or_null(value: &Value) -> Option<Option<Seconds>>
    ensures { result ≡ null_or seconds_in (view value.now) }
{
    if value.is_null() {
        return Some(None);
    }
    Some(Some(seconds_in(value)?))
}

/// The moment that it is, in seconds from 1970 in UTC.
pub fn moment_in(value: &Value) -> Option<Moment>
    ensures { result ≡ moment_in (view value.now) }
{
    Moment::new(value.as_u64()?)
}

/// The weight that it is, in percent.
pub fn weight_in(value: &Value) -> Option<Weight>
    ensures { result ≡ weight_in (view value.now) }
{
    Weight::new(value.as_u64()?)
}

/// The step at which a background analysis begins that it is.
pub fn starting_step_in(value: &Value) -> Option<StartingStep>
    ensures { result ≡ starting_step_in (view value.now) }
{
    StartingStep::new(value.as_u64()?)
}

/// The text that it is.
pub fn text_in(alloc: Global, value: &Value) -> Result<Text, FormFault>
    ensures { IsRead (as_str (view value.now)) result }
{
    let text = value.as_str().ok_or(FormFault::Unreadable)?;
    Ok(Text::of(String::from_str(alloc, text)?))
}

/// The name of a metric that is dry-run, or `.*`, that it is: 1 to 63 bytes.
pub fn dry_run_name_in(alloc: Global, value: &Value) -> Result<DryRunName, FormFault>
    ensures { IsRead (dry_run_name_in (view value.now)) result }
{
    let text = text_in(alloc, value)?;
    DryRunName::of(text).ok_or(FormFault::Unreadable)
}

/// The name under that key.
pub fn name_at(value: &Value, key: &str) -> Option<Name>
    ensures { result ≡ at key.now name_in (view value.now) }
{
    name_in(value.get(key)?)
}

/// The label under that key.
pub fn label_at(value: &Value, key: &str) -> Option<Label>
    ensures { result ≡ at key.now label_in (view value.now) }
{
    label_in(value.get(key)?)
}

/// The whole number under that key, up to that.
pub fn number_at(value: &Value, key: &str, greatest: u32) -> Option<u32>
    ensures { result ≡ at key.now (number_up_to greatest) (view value.now) }
{
    number_up_to(value.get(key)?, greatest)
}

/// The step at which a background analysis begins, under that key.
pub fn starting_step_at(value: &Value, key: &str) -> Option<StartingStep>
    ensures { result ≡ at key.now starting_step_in (view value.now) }
{
    starting_step_in(value.get(key)?)
}

/// The duration under that key, in seconds.
pub fn seconds_at(value: &Value, key: &str) -> Option<Seconds>
    ensures { result ≡ at key.now seconds_in (view value.now) }
{
    seconds_in(value.get(key)?)
}
