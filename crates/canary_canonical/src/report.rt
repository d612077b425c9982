//! Entries of reports in JSON.
ghost use Rattle.std.specs.Prelude.{◌≡◌, IsTrue, IfOk, nat_le};
ghost use Rattle.std.specs.List.{list_all};
ghost use Rattle.canary_base.specs.Names.{is_label};
ghost use Rattle.serde_json.specs.View.{view};
ghost use Rattle.canary_canonical.specs.Texts.{signed_data, list_data, result_data};
ghost use Rattle.canary_canonical.specs.Texts.{measured, failed, entry_data};
ghost use Rattle.canary_canonical.specs.Laws.{is_signed_word, keeps_outcome, keeps_entry};

use crate::object::{Member, object_of, object_with};
use canary_condition::outcome::{FailureText, Outcome, Value as Measured};
use canary_plan::report::Entry;
use serde_json::{Value, push};
use std::alloc::{AllocError, Global};

/// The entry in JSON.
#[tactic(auto, unfolding(crate::specs::Texts::entry_data, crate::specs::Laws::keeps_entry))]
pub(crate) fn entry_value(alloc: Global, entry: &Entry) -> Result<Value, AllocError>
    ensures value { IfOk result (λ value. view value ≡ entry_data entry.now) }
    ensures kept { IfOk result (λ _. IsTrue (keeps_entry entry.now)) }
{
    match &entry.outcome {
        Outcome::Result(result) => measured_value(alloc, entry, *result),
        Outcome::Failure(text) => failed_value(alloc, entry, text),
    }
}

// The entry, with this result.
#[tactic(auto, unfolding(crate::specs::Objects::with_member))]
fn measured_value(alloc: Global, entry: &Entry, outcome: Measured) -> Result<Value, AllocError>
    ensures value { IfOk result (λ value. view value
        ≡ measured entry.now.metric entry.now.ordinal entry.now.taken outcome) }
    ensures metric { IfOk result (λ _. IsTrue (is_label entry.now.metric)) }
    ensures taken { IfOk result (λ _. IsTrue (nat_le entry.now.taken 253370764799)) }
    ensures kept { IfOk result (λ _. IsTrue (keeps_outcome (Outcome.Result outcome))) }
{
    let members = [
        Member::Text("metric", entry.metric.as_str()),
        Member::Number("ordinal", entry.ordinal),
        Member::LongNumber("taken", entry.taken.get()),
    ];
    let result = result_value(alloc, outcome)?;
    object_with(alloc, &members, "result", result)
}

// The entry, with this failure.
#[tactic(auto, unfolding(crate::specs::Objects::with_member, crate::specs::Laws::keeps_outcome))]
fn failed_value<'a>(
    alloc: Global,
    entry: &'a Entry,
    text: &'a FailureText,
) -> Result<Value, AllocError>
    ensures value { IfOk result (λ value. view value
        ≡ failed entry.now.metric entry.now.ordinal entry.now.taken text.now) }
    ensures metric { IfOk result (λ _. IsTrue (is_label entry.now.metric)) }
    ensures taken { IfOk result (λ _. IsTrue (nat_le entry.now.taken 253370764799)) }
    ensures kept { IfOk result (λ _. IsTrue (keeps_outcome (Outcome.Failure text.now))) }
{
    let members = [
        Member::Text("failure", text.as_str()),
        Member::Text("metric", entry.metric.as_str()),
        Member::Number("ordinal", entry.ordinal),
        Member::LongNumber("taken", entry.taken.get()),
    ];
    object_of(alloc, &members)
}

// The result in JSON: a number, or a list of numbers.
#[tactic(auto, unfolding(crate::specs::Laws::keeps_outcome))]
fn result_value(alloc: Global, outcome: Measured) -> Result<Value, AllocError>
    ensures value { IfOk result (λ value. view value ≡ result_data outcome) }
    ensures kept { IfOk result (λ _. IsTrue (keeps_outcome (Outcome.Result outcome))) }
{
    match outcome {
        Measured::Whole(number) => Ok(Value::from(number)),
        Measured::List(numbers) => number_values(alloc, numbers.as_slice()),
    }
}

// The numbers of a list result in JSON, in order.
fn number_values(alloc: Global, numbers: &[i64]) -> Result<Value, AllocError>
    ensures value { IfOk result (λ value. view value ≡ list_data signed_data numbers.now) }
    ensures kept { IfOk result (λ _. IsTrue (list_all is_signed_word numbers.now)) }
{
    let mut values = Vec::new(alloc);
    for number in numbers {
        push(&mut values, number_value(number))?;
    }
    Ok(Value::Array(values))
}

// The number in JSON. Its contract recalls for the prover that it has 64 bits with its sign.
fn number_value(number: &i64) -> Value
    ensures value { view result ≡ signed_data number.now }
    ensures kept { IsTrue (is_signed_word number.now) }
{
    Value::from(*number)
}
