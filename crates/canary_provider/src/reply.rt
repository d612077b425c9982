//! What a reply says was measured.
ghost use Rattle.std.specs.Prelude.{◌≡◌, false, Ok, Err, IfOk, IfErr, OnErr};
ghost use Rattle.json.specs.Find.{as_array};
ghost use Rattle.json.specs.Value.{value_view};
ghost use Rattle.canary_measure.specs.declared.measured.Measured.{Measured};
ghost use Rattle.canary_provider.specs.declared.failure.ReplyFault.{ReplyFault};
ghost use Rattle.canary_provider.specs.Answers.{is_success, is_memory, IsWhole, IsFound, Says};
ghost use Rattle.canary_provider.specs.Answers.{IsMeasured, Refutes};
ghost use Rattle.canary_provider.specs.Paths.{found};
ghost use Rattle.canary_provider.specs.Texts.{IsShown};

use crate::failure::{ReplyFault, front_of, status_text, text_of};
use crate::path::Path;
use crate::plan::ReplyFormat;
use crate::prometheus::answer;
use crate::values::{Kind, items_of, plain, text_at, values_of};
use canary_base::error::Memory;
use canary_condition::outcome::FailureText;
use canary_measure::measured::Measured;
use json::{Error, Scratch, Value};
use std::alloc::Global;

/// What a reply of that status with that body says was measured; or, in a text of 1 to 200 bytes,
/// what came in its place.
///
/// # Errors
/// `Memory` if an allocation was refused.
pub fn measured_of(
    alloc: Global,
    answer: &ReplyFormat,
    status: u16,
    body: &[u8],
) -> Result<Result<Measured, FailureText>, Memory>
    // What is measured is what the body says.
    ensures sound { IfOk result (λ told. IfOk told (IsMeasured answer.now status body.now)) }
    // If nothing is measured, the body says nothing.
    ensures complete { IfOk result
        (λ told. OnErr told ((m : Measured) → IsMeasured answer.now status body.now m → ⊥)) }
    // No character of the text is one that a terminal takes for more than one.
    ensures shown { IfOk result (λ told. IfErr told IsShown) }
{
    if !is_success(status) {
        return Ok(Err(refusal(alloc, status, body)?));
    }
    let mut scratch = Scratch::new(alloc);
    match Value::from_slice(alloc, body, &mut scratch) {
        Ok(value) => told_of(alloc, says(alloc, answer, &value), body),
        Err(Error::OutOfMemory) => Err(Memory),
        Err(_) => Ok(Err(text_of(alloc, ReplyFault::Has(no_json(body)), body)?)),
    }
}

// What a body is called that is no JSON: one that begins as gzip does was coded, though the message
// asks for it as it is.
fn no_json(body: &[u8]) -> &'static str {
    if body.starts_with(b"\x1f\x8b") {
        "compressed by gzip, and no JSON"
    } else {
        "no JSON"
    }
}

// Whether the status is 200 to 299.
fn is_success(status: u16) -> bool
    ensures { result ≡ is_success status }
{
    200 <= status && status <= 299
}

// What a reply of another status says: the error of Prometheus, or how the body begins.
fn refusal(alloc: Global, status: u16, body: &[u8]) -> Result<FailureText, Memory>
    ensures { IfOk result (λ text. IsShown text) }
{
    let mut scratch = Scratch::new(alloc);
    match Value::from_slice(alloc, body, &mut scratch) {
        Ok(value) => refusal_of(alloc, status, &value, body),
        Err(_) => status_text(alloc, status, "no answer", front_of(body)),
    }
}

// The same of a body in JSON: the error in it, or how it begins.
fn refusal_of(
    alloc: Global,
    status: u16,
    value: &Value<'_>,
    body: &[u8],
) -> Result<FailureText, Memory>
    ensures { IfOk result (λ text. IsShown text) }
{
    match text_at(value, "error") {
        Some(error) => error_text(alloc, status, text_at(value, "errorType"), error),
        None => status_text(alloc, status, "no answer", front_of(body)),
    }
}

// The text of an error of Prometheus, with its type; without a type it is called an error.
fn error_text(
    alloc: Global,
    status: u16,
    kind: Option<&str>,
    error: &str,
) -> Result<FailureText, Memory>
    ensures { IfOk result (λ text. IsShown text) }
{
    status_text(alloc, status, kind.unwrap_or("error"), error)
}

// What a value of JSON says.
fn says<'a>(
    alloc: Global,
    asked: &ReplyFormat,
    value: &Value<'a>,
) -> Result<Measured, ReplyFault<'a>>
    ensures sound { IfOk result (λ m. Says asked.now (value_view value.now) m) }
    ensures complete { IfErr result
        (λ fault. Refutes (Says asked.now (value_view value.now)) fault) }
{
    match asked {
        ReplyFormat::Prometheus => answer(alloc, value),
        ReplyFormat::Web(path) => at_path(alloc, path, value),
    }
}

// What stands at the path.
fn at_path<'a>(alloc: Global, path: &Path, value: &Value<'a>) -> Result<Measured, ReplyFault<'a>>
    ensures sound { IfOk result
        (λ m. IsFound (found path.now.steps.items (value_view value.now)) m) }
    ensures complete { IfErr result
        (λ fault. Refutes (IsFound (found path.now.steps.items (value_view value.now))) fault) }
{
    match path.find(value) {
        Some(found) => whole(alloc, found),
        None => Err(ReplyFault::Has("nothing at the jsonPath")),
    }
}

// What a value is: a list is several values, and any other is one.
fn whole<'a>(alloc: Global, value: &Value<'a>) -> Result<Measured, ReplyFault<'a>>
    ensures sound { IfOk result
        (λ m. IsWhole (as_array (value_view value.now)) (value_view value.now) m) }
    ensures complete { IfErr result (λ fault.
        Refutes (IsWhole (as_array (value_view value.now)) (value_view value.now)) fault) }
{
    match items_of(value) {
        Some(items) => Ok(Measured::Several(values_of(alloc, Kind::Plain, items)?)),
        None => Ok(Measured::One(plain(alloc, value)?)),
    }
}

// The same, with the text of a fault.
fn told_of(
    alloc: Global,
    outcome: Result<Measured, ReplyFault<'_>>,
    body: &[u8],
) -> Result<Result<Measured, FailureText>, Memory>
    ensures sound { IfOk result (λ told. IfOk told (λ m. outcome.entry ≡ Ok m)) }
    ensures fault { IfOk result (λ told. OnErr told
        ((fault : ReplyFault) × (outcome.entry ≡ Err fault) × (is_memory fault ≡ false))) }
    ensures shown { IfOk result (λ told. IfErr told (λ text. IsShown text)) }
{
    match outcome {
        Ok(measured) => Ok(Ok(measured)),
        Err(fault) => Ok(Err(text_of(alloc, fault, body)?)),
    }
}
