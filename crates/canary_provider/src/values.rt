//! The values of a reply, each by its very text.
ghost use Rattle.std.specs.Prelude.{◌≡◌, false, option_map, IfOk, IfErr};
ghost use Rattle.json.specs.Find.{as_array, as_str};
ghost use Rattle.json.specs.Value.{value_view, items_view};
ghost use Rattle.canary_provider.specs.Answers.{text_at, text_item, sample_text, is_memory};
ghost use Rattle.canary_provider.specs.Answers.{IsRead, IsTextIn, IsValue, AreValues, Refutes};

use crate::failure::ReplyFault;
use canary_decimal::reading::read;
use canary_decimal::text::number_of;
use canary_measure::measured::Given;
use json::Value;
use std::alloc::Global;

/// What the items of a list are.
#[derive(Clone, Copy)]
pub(crate) enum Kind {
    /// Values themselves.
    Plain,
    /// Series of Prometheus, each with a value and its moment.
    Sample,
}

/// The text of the member of that key.
pub(crate) fn text_at<'a>(value: &Value<'a>, key: &str) -> Option<&'a str>
    ensures { option_map (λ s. s.now) result ≡ text_at key.now (value_view value.now) }
{
    value.get(key)?.as_str()
}

/// The text of the item at that index.
pub(crate) fn text_item<'a>(value: &Value<'a>, index: usize) -> Option<&'a str>
    ensures { option_map (λ s. s.now) result ≡ text_item index (value_view value.now) }
{
    value.at(index)?.as_str()
}

/// The items of a list.
pub(crate) fn items_of<'v, 'a>(value: &'v Value<'a>) -> Option<&'v [Value<'a>]>
    ensures { option_map (λ s. items_view s.now) result ≡ as_array (value_view value.now) }
{
    match value {
        Value::Array(items) => Some(items.as_slice()),
        _ => None,
    }
}

// The text of a sample.
fn sample_text<'a>(value: &Value<'a>) -> Option<&'a str>
    ensures { option_map (λ s. s.now) result ≡ sample_text (value_view value.now) }
{
    text_item(value.get("value")?, 1)
}

/// The number, NaN or infinity that a text says.
pub(crate) fn number<'a>(alloc: Global, text: &'a str) -> Result<Given, ReplyFault<'a>>
    ensures sound { IfOk result (λ given. IsRead text.now given) }
    ensures complete { IfErr result (λ fault. Refutes (IsRead text.now) fault) }
{
    match read(alloc, text)? {
        Some(reading) => Ok(Given::Read(reading)),
        None => Err(ReplyFault::Text("not a number", text)),
    }
}

// What is no number and no text.
fn other<'a>(value: &Value<'a>) -> ReplyFault<'a>
    ensures { is_memory result ≡ false }
{
    match value {
        Value::Bool(_) => ReplyFault::Has("true or false, and no number"),
        Value::Array(_) => ReplyFault::Has("a list, and no number"),
        _ => ReplyFault::Has("an object, and no number"),
    }
}

// The value that is a text.
fn text<'a>(alloc: Global, value: &Value<'a>) -> Result<Given, ReplyFault<'a>>
    ensures sound { IfOk result (λ given. IsTextIn (as_str (value_view value.now)) given) }
    ensures complete { IfErr result
        (λ fault. Refutes (IsTextIn (as_str (value_view value.now))) fault) }
{
    match value.as_str() {
        Some(text) => Ok(Given::Text(number_of(alloc, text)?)),
        None => Err(other(value)),
    }
}

/// The value that is null, a number or a text.
pub(crate) fn plain<'a>(alloc: Global, value: &Value<'a>) -> Result<Given, ReplyFault<'a>>
    ensures sound { IfOk result (λ given. IsValue Kind.Plain (value_view value.now) given) }
    ensures complete { IfErr result
        (λ fault. Refutes (IsValue Kind.Plain (value_view value.now)) fault) }
{
    if value.is_null() {
        return Ok(Given::Null);
    }
    match value.as_number() {
        Some(text) => number(alloc, text),
        None => text(alloc, value),
    }
}

// The value of a series.
fn sample<'a>(alloc: Global, value: &Value<'a>) -> Result<Given, ReplyFault<'a>>
    ensures sound { IfOk result (λ given. IsValue Kind.Sample (value_view value.now) given) }
    ensures complete { IfErr result
        (λ fault. Refutes (IsValue Kind.Sample (value_view value.now)) fault) }
{
    match sample_text(value) {
        Some(text) => number(alloc, text),
        None => Err(ReplyFault::Has("a series without a value")),
    }
}

// The value of an item of a list, whose items are of that kind.
fn value_of<'a>(alloc: Global, kind: Kind, value: &Value<'a>) -> Result<Given, ReplyFault<'a>>
    ensures sound { IfOk result (λ given. IsValue kind (value_view value.now) given) }
    ensures complete { IfErr result (λ fault. Refutes (IsValue kind (value_view value.now)) fault) }
{
    match kind {
        Kind::Plain => plain(alloc, value),
        Kind::Sample => sample(alloc, value),
    }
}

/// The values of a list, in its order.
pub(crate) fn values_of<'a>(
    alloc: Global,
    kind: Kind,
    list: &[Value<'a>],
) -> Result<Vec<Given>, ReplyFault<'a>>
    ensures sound { IfOk result (λ values. AreValues kind (items_view list.now) values.items) }
    ensures complete { IfErr result
        (λ fault. Refutes (AreValues kind (items_view list.now)) fault) }
{
    let mut values = Vec::new(alloc);
    for item in list {
        values.push(value_of(alloc, kind, item)?)?;
    }
    Ok(values)
}
