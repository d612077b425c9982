//! What a plain scalar means: the core schema of YAML 1.2, as far as other readers agree.
//!
//! kubectl reads by YAML 1.1. A plain scalar that the two versions, or kubectl, read as different
//! values is refused. Two kinds are read as kubectl and JSON have them: 1e3 is a number, though
//! YAML 1.1 wants a point and a sign; and a date, like `=`, is a text, though YAML 1.1 has a value
//! of its own for it.
ghost use Rattle.std.specs.Prelude.{◌≡◌, IfOk};
ghost use Rattle.serde_json.specs.Data.{depth as nesting};
ghost use Rattle.serde_json.specs.View.{view};

use crate::cursor::Cursor;
use crate::fault::{YamlFault, YamlProblem};
use crate::number::{DecimalScalar, has_base, in_base_16, is_in_base_60, number_of_kubectl};
use serde_json::{Number, Value};
use std::alloc::Global;

/// What a plain scalar means.
#[derive(Clone, Copy)]
pub(crate) enum PlainScalar<'a> {
    Null,
    Bool(bool),
    Decimal(DecimalScalar<'a>),
    Whole(u64),
    Text,
    Refused(YamlProblem),
    // A number to kubectl, and another one or a text to others; None if 64 bits do not hold it.
    InOtherBase(Option<i64>),
}

/// What a plain scalar means.
pub(crate) fn meaning_of(text: &[u8]) -> PlainScalar<'_> {
    if text.is_empty() || is_word(text, "~ null Null NULL") {
        PlainScalar::Null
    } else if is_word(text, "true True TRUE") {
        PlainScalar::Bool(true)
    } else if is_word(text, "false False FALSE") {
        PlainScalar::Bool(false)
    } else if is_word(text, "y Y yes Yes YES on On ON") {
        PlainScalar::Refused(YamlProblem::OldTrue)
    } else if is_word(text, "n N no No NO off Off OFF") {
        PlainScalar::Refused(YamlProblem::OldFalse)
    } else if is_word(text, NOT_FINITE) {
        PlainScalar::Refused(YamlProblem::NotFinite)
    } else {
        meaning_of_number(text)
    }
}

const NOT_FINITE: &str = ".nan .NaN .NAN .inf .Inf .INF -.inf -.Inf -.INF +.inf +.Inf +.INF";

// Whether it is one of these words.
fn is_word(text: &[u8], words: &str) -> bool {
    for word in words.as_bytes().split(|byte| *byte == b' ') {
        if word == text {
            return true;
        }
    }
    false
}

// What a plain scalar means that is no word.
fn meaning_of_number(text: &[u8]) -> PlainScalar<'_> {
    if let Some(number) = DecimalScalar::read(text) {
        return meaning_of_decimal(text, number);
    }
    if let Some(number) = in_base_16(text) {
        return match number {
            Some(number) => PlainScalar::Whole(number),
            None => PlainScalar::Refused(YamlProblem::Range),
        };
    }
    if has_base(text) {
        return in_other_base(text);
    }
    if is_in_base_60(text) {
        return PlainScalar::Refused(YamlProblem::Base60);
    }
    PlainScalar::Text
}

// What a number in base 10 means, which the text spells.
fn meaning_of_decimal<'a>(text: &'a [u8], number: DecimalScalar<'a>) -> PlainScalar<'a> {
    if text.contains(&b'_') || number.has_leading_zero() {
        return in_other_base(text);
    }
    PlainScalar::Decimal(number)
}

// What a number means that is one to kubectl, and another one or a text to others.
fn in_other_base(text: &[u8]) -> PlainScalar<'_> {
    if text.contains(&b'_') {
        return PlainScalar::Refused(YamlProblem::Underscore);
    }
    PlainScalar::InOtherBase(number_of_kubectl(text))
}

/// The value of a plain scalar, which began here.
///
/// # Errors
/// `OldTrue`, `OldFalse`, `Underscore`, `Base60` or a `Number`, if not all read it as one value;
/// `NotFinite` or `Range`, if JSON has no such number; `Memory`.
#[tactic(auto, using(crate::proofs::Nesting::nests))]
pub(crate) fn value_of(alloc: Global, text: Vec<u8>, begin: &Cursor<'_>) -> Result<Value, YamlFault>
    ensures { IfOk result (λ v. nesting (view v) ≡ 0) }
{
    match meaning_of(text.as_slice()) {
        PlainScalar::Null => Ok(Value::Null),
        PlainScalar::Bool(truth) => Ok(Value::Bool(truth)),
        PlainScalar::Decimal(number) => number_of(alloc, number, begin),
        PlainScalar::Whole(number) => Ok(Value::Number(Number::from(number))),
        PlainScalar::Refused(why) => Err(begin.fault(why)),
        PlainScalar::InOtherBase(number) => Err(begin.fault_of(number)),
        PlainScalar::Text => Ok(Value::String(string_of(text, begin)?)),
    }
}

/// The text of these bytes.
pub(crate) fn string_of(text: Vec<u8>, begin: &Cursor<'_>) -> Result<String, YamlFault> {
    match String::from_utf8(text) {
        Ok(text) => Ok(text),
        Err(_) => Err(begin.fault(YamlProblem::Utf8)),
    }
}

// The number as JSON has it.
#[tactic(auto, using(crate::proofs::Nesting::nests))]
fn number_of(
    alloc: Global,
    number: DecimalScalar<'_>,
    begin: &Cursor<'_>,
) -> Result<Value, YamlFault>
    ensures { IfOk result (λ v. nesting (view v) ≡ 0) }
{
    let json = number.to_json(alloc)?;
    match Value::from_slice(alloc, json.as_slice()) {
        Ok(Value::Number(number)) => Ok(Value::Number(number)),
        Err(fault) if fault.is_memory() => Err(YamlFault::Memory),
        _ => Err(begin.fault(YamlProblem::Range)),
    }
}
