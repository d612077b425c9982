//! Replies as people and scripts see them: nothing that came from a server is a command of a
//! terminal.
ghost use Rattle.std.specs.Prelude.{◌≡◌, string_bytes, IfOk};
ghost use Rattle.canary_shown.specs.Showing.{shown};
ghost use Rattle.canary_shown.specs.declared.text.TextKind.TheVariants.{Json};

use crate::run_line::run_line;
use canary_base::error::Memory;
use canary_shown::text::{TextKind, shown};
use serde_json::Value;
use std::alloc::Global;

/// The plain line of a reply's body: how a service stands, why a run ended, or why a command was
/// refused. None if there is no plainer one than the body. Marks in it are escaped.
///
/// # Errors
/// `Memory` if an allocation was refused.
pub fn line_of(alloc: Global, body: &str) -> Result<Option<String>, Memory> {
    let value = match Value::from_str(alloc, body) {
        Ok(value) => value,
        Err(fault) if fault.is_memory() => return Err(Memory),
        Err(_) => return Ok(None),
    };
    match plainer(alloc, &value)? {
        Some(line) => Ok(Some(shown(alloc, line.as_str(), TextKind::Line)?)),
        None => Ok(None),
    }
}

// The plain line of a reply, with its marks.
fn plainer(alloc: Global, value: &Value) -> Result<Option<String>, Memory> {
    if let Some(line) = service_line(alloc, value)? {
        return Ok(Some(line));
    }
    match run_line(alloc, value)? {
        Some(line) => Ok(Some(line)),
        None => code_line(alloc, value),
    }
}

/// The body of a reply, which is JSON, with its marks escaped as JSON has it: the same value.
///
/// # Errors
/// `Memory` if an allocation was refused.
pub fn json_of(alloc: Global, body: &str) -> Result<String, Memory>
    ensures { IfOk result (λ text. string_bytes text ≡ shown Json body.now) }
{
    shown(alloc, body, TextKind::Json)
}

// A service: its status, step and weight, and its version and verdict if the reply has them.
fn service_line(alloc: Global, value: &Value) -> Result<Option<String>, Memory> {
    let Some((service, status)) = texts_of(value) else {
        return Ok(None);
    };
    let Some((step, weight)) = numbers_of(value) else {
        return Ok(None);
    };
    let mut line = format!(in alloc; "{service} {status}, step {step}, weight {weight}%")?;
    push_part(&mut line, value, "version")?;
    push_part(&mut line, value, "verdict")?;
    Ok(Some(line))
}

// Appends this member of a service's reply after its name, if the reply has it.
fn push_part(line: &mut String, value: &Value, name: &str) -> Result<(), Memory> {
    if let Some(part) = value.get(name).and_then(Value::as_str) {
        write!(line, ", {name} {part}")?;
    }
    Ok(())
}

// The name and the status in a service's reply; none if one is missing.
fn texts_of(value: &Value) -> Option<(&str, &str)> {
    let service = value.get("service").and_then(Value::as_str)?;
    let status = value.get("status").and_then(Value::as_str)?;
    Some((service, status))
}

// The step and the weight in a service's reply; none if one is missing.
fn numbers_of(value: &Value) -> Option<(u64, u64)> {
    let step = value.get("step").and_then(Value::as_u64)?;
    let weight = value.get("weight").and_then(Value::as_u64)?;
    Some((step, weight))
}

// A template with its revision, or a refusal by its code.
fn code_line(alloc: Global, value: &Value) -> Result<Option<String>, Memory> {
    let Some(code) = value.get("code").and_then(Value::as_str) else {
        return Ok(None);
    };
    if code != "ok" {
        return Ok(Some(format!(in alloc; "refused: {code}")?));
    }
    let name = value.get("template").and_then(Value::as_str);
    let revision = value.get("revision").and_then(Value::as_u64);
    match (name, revision) {
        (Some(name), Some(revision)) => {
            Ok(Some(format!(in alloc; "template {name}, revision {revision}")?))
        }
        _ => Ok(None),
    }
}
