//! Answers of Prometheus to an instant query (its HTTP API, version 1).
ghost use Rattle.std.specs.Prelude.{◌≡◌, ◌↔◌, Some, IsTrue, IfOk, IfErr};
ghost use Rattle.json.specs.Find.{as_array};
ghost use Rattle.json.specs.Value.{value_view};
ghost use Rattle.canary_provider.specs.Answers.{text_at, text_item, IsList, IsScalar, IsResult};
ghost use Rattle.canary_provider.specs.Answers.{IsAnswer, Refutes};

use crate::failure::ReplyFault;
use crate::values::{Kind, items_of, number, text_at, text_item, values_of};
use canary_measure::measured::Measured;
use json::Value;
use std::alloc::Global;

/// What an answer says was measured.
pub(crate) fn answer<'a>(alloc: Global, value: &Value<'a>) -> Result<Measured, ReplyFault<'a>>
    ensures sound { IfOk result (λ m. IsAnswer (value_view value.now) m) }
    ensures complete { IfErr result (λ fault. Refutes (IsAnswer (value_view value.now)) fault) }
{
    if !is_text_at(value, "status", "success") {
        return Err(ReplyFault::Has("no answer of Prometheus"));
    }
    let Some(data) = value.get("data") else {
        return Err(ReplyFault::Has("an answer of Prometheus without data"));
    };
    let Some(found) = data.get("result") else {
        return Err(ReplyFault::Has("an answer of Prometheus without a result"));
    };
    match text_at(data, "resultType") {
        Some(kind) => result_of(alloc, kind, found),
        None => Err(ReplyFault::Has("a result of Prometheus without its type")),
    }
}

// Whether the member of that key is this text.
fn is_text_at(value: &Value<'_>, key: &str, text: &str) -> bool
    ensures { IsTrue result ↔ (text_at key.now (value_view value.now) ≡ Some text.now) }
{
    match text_at(value, key) {
        Some(found) => found == text,
        None => false,
    }
}

// What a result of that kind says.
fn result_of<'a>(
    alloc: Global,
    kind: &'a str,
    value: &Value<'a>,
) -> Result<Measured, ReplyFault<'a>>
    ensures sound { IfOk result (λ m. IsResult (Some kind.now) (value_view value.now) m) }
    ensures complete { IfErr result
        (λ fault. Refutes (IsResult (Some kind.now) (value_view value.now)) fault) }
{
    if kind == "vector" {
        vector(alloc, value)
    } else if kind == "scalar" {
        scalar(alloc, value)
    } else {
        Err(ReplyFault::Text("a result that is no vector and no scalar", kind))
    }
}

// The values of a vector.
fn vector<'a>(alloc: Global, value: &Value<'a>) -> Result<Measured, ReplyFault<'a>>
    ensures sound { IfOk result (λ m. IsList Kind.Sample (as_array (value_view value.now)) m) }
    ensures complete { IfErr result
        (λ fault. Refutes (IsList Kind.Sample (as_array (value_view value.now))) fault) }
{
    match items_of(value) {
        Some(items) => Ok(Measured::Several(values_of(alloc, Kind::Sample, items)?)),
        None => Err(ReplyFault::Has("a vector that is no list")),
    }
}

// The value of a scalar.
fn scalar<'a>(alloc: Global, value: &Value<'a>) -> Result<Measured, ReplyFault<'a>>
    ensures sound { IfOk result (λ m. IsScalar (text_item 1 (value_view value.now)) m) }
    ensures complete { IfErr result
        (λ fault. Refutes (IsScalar (text_item 1 (value_view value.now))) fault) }
{
    match text_item(value, 1) {
        Some(text) => Ok(Measured::One(number(alloc, text)?)),
        None => Err(ReplyFault::Has("a scalar without a value")),
    }
}
