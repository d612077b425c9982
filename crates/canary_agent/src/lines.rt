//! The lines that show what was reported.
use crate::look::Due;
use canary_base::error::Memory;
use canary_base::names::Name;
use canary_client::outcome::{Stop, show};
use canary_client_journal::entry::SettledNumber;
use canary_decimal::shown::{Shown, Units};
use canary_provider::plan::Provider;
use canary_shown::text::{TextKind, shown};
use serde_json::Value;
use std::alloc::Global;
use std::io::Write;
use std::str;

/// Shows what a command that was settled came to: of a report a line for each measurement, of an
/// abort one line. For people a measurement is `SERVICE METRIC VALUE PHASE`; else a line is an
/// object of JSON.
///
/// # Errors
/// `Output` if the output failed; `Memory`.
pub(crate) fn show_settled<W: Write>(
    alloc: Global,
    kept: &SettledNumber,
    output: &mut W,
    is_terminal: bool,
) -> Result<(), Stop> {
    let asked = value_of(alloc, kept.asked.wish.body.as_str())?;
    let reply = value_of(alloc, kept.reply.body.as_str())?;
    show_command(alloc, &asked, &reply, output, is_terminal)
}

/// Shows what would be reported.
///
/// # Errors
/// `Output` if the output failed; `Memory`.
pub(crate) fn show_wished<W: Write>(
    alloc: Global,
    body: &str,
    output: &mut W,
    is_terminal: bool,
) -> Result<(), Stop> {
    let asked = value_of(alloc, body)?;
    show_command(alloc, &asked, &Value::Null, output, is_terminal)
}

// The value of a text of JSON, or null if it is not JSON; `Memory`.
fn value_of(alloc: Global, text: &str) -> Result<Value, Stop> {
    match Value::from_str(alloc, text) {
        Ok(value) => Ok(value),
        Err(fault) if fault.is_memory() => Err(Stop::Memory),
        Err(_) => Ok(Value::Null),
    }
}

// Shows the lines of a report or an abort with the reply to it; nothing for another command.
fn show_command<W: Write>(
    alloc: Global,
    asked: &Value,
    reply: &Value,
    output: &mut W,
    is_terminal: bool,
) -> Result<(), Stop> {
    if let Some(report) = asked.get("report") {
        return show_report(alloc, report, reply, output, is_terminal);
    }
    match asked.get("abort") {
        Some(abort) => show_abort(alloc, abort, reply, output, is_terminal),
        None => Ok(()),
    }
}

// Shows a line for each measurement of a report, with what the reply says of it.
fn show_report<W: Write>(
    alloc: Global,
    report: &Value,
    reply: &Value,
    output: &mut W,
    is_terminal: bool,
) -> Result<(), Stop> {
    let Some(entries) = report.get("entries").and_then(Value::as_array) else {
        return Ok(());
    };
    for (place, entry) in entries.iter().enumerate() {
        let line = if is_terminal {
            plain_line(alloc, report, entry, ending_of(reply, place))?
        } else {
            json_line(alloc, report, entry, reply, place)?
        };
        show(output, line.as_str())?;
    }
    Ok(())
}

// What came of a measurement at this place of a report: its phase, or why the report was refused.
fn ending_of(reply: &Value, place: usize) -> &str {
    match phase_of(reply, place) {
        Some(phase) => phase,
        None => reply.get("code").and_then(Value::as_str).unwrap_or(""),
    }
}

// The phase of the measurement at this place, from 0; none if the reply does not have it.
fn phase_of(reply: &Value, place: usize) -> Option<&str> {
    reply.get("phases")?.as_array()?.get(place)?.as_str()
}

// The text of a member, or an empty one if the member is missing or is no text.
fn text_at<'a>(value: &'a Value, member: &str) -> &'a str {
    value.get(member).and_then(Value::as_str).unwrap_or("")
}

// ---- for people

// The line of a measurement for people: SERVICE METRIC VALUE, and its phase or a refusal's code.
fn plain_line(
    alloc: Global,
    report: &Value,
    entry: &Value,
    ending: &str,
) -> Result<String, Memory> {
    let label = Shown::or_whole(text_at(entry, "metric"));
    let value = value_text(alloc, entry, label.units)?;
    let (service, name, value) = (text_at(report, "service"), label.name, value.as_str());
    let line = format!(in alloc; "{service} {name} {value} {ending}")?;
    shown(alloc, line.as_str().trim_end(), TextKind::Line)
}

// The value of a measurement as people read it, or why there is none.
fn value_text(alloc: Global, entry: &Value, units: Units) -> Result<String, Memory> {
    if let Some(failure) = entry.get("failure").and_then(Value::as_str) {
        return Ok(format!(in alloc; "failure: {failure}:")?);
    }
    let Some(result) = entry.get("result") else {
        return Ok(String::new(alloc));
    };
    match (result.as_i64(), result.as_array()) {
        (Some(number), _) => number_text(alloc, units, None, number),
        (None, Some(list)) => list_text(alloc, units, list.as_slice()),
        _ => Ok(String::new(alloc)),
    }
}

// A number in these units: at a place of a list, or alone if no place is given.
fn number_text(
    alloc: Global,
    units: Units,
    place: Option<u64>,
    number: i64,
) -> Result<String, Memory> {
    Ok(String::from_str(alloc, units.text(place, number).as_str())?)
}

// A list in these units, in brackets with commas; an item that is no integer is read as 0.
fn list_text(alloc: Global, units: Units, list: &[Value]) -> Result<String, Memory> {
    let mut text = String::from_str(alloc, "[")?;
    for (place, item) in list.iter().enumerate() {
        if place > 0 {
            text.push_str(",")?;
        }
        let number = item.as_i64().unwrap_or(0);
        text.push_str(number_text(alloc, units, Some(place as u64), number)?.as_str())?;
    }
    text.push_str("]")?;
    Ok(text)
}

// ---- for programs

// The line of a measurement for programs: an object, whose members are in order of their names.
fn json_line(
    alloc: Global,
    report: &Value,
    entry: &Value,
    reply: &Value,
    place: usize,
) -> Result<String, Memory> {
    let mut line = String::from_str(alloc, "{")?;
    if phase_of(reply, place).is_none() {
        push_member(alloc, &mut line, "code", reply.get("code"))?;
    }
    push_member(alloc, &mut line, "failure", entry.get("failure"))?;
    push_member(alloc, &mut line, "metric", entry.get("metric"))?;
    push_member(alloc, &mut line, "ordinal", entry.get("ordinal"))?;
    push_phase(alloc, &mut line, phase_of(reply, place))?;
    push_member(alloc, &mut line, "result", entry.get("result"))?;
    push_member(alloc, &mut line, "run", report.get("run"))?;
    push_member(alloc, &mut line, "service", report.get("service"))?;
    push_member(alloc, &mut line, "taken", entry.get("taken"))?;
    line.push_str("}")?;
    shown(alloc, line.as_str(), TextKind::Json)
}

// Appends a member, if it is there.
fn push_member(
    alloc: Global,
    line: &mut String,
    name: &str,
    value: Option<&Value>,
) -> Result<(), Memory> {
    let Some(value) = value else {
        return Ok(());
    };
    let value = value.to_string(alloc)?;
    let comma = if line.as_str() == "{" { "" } else { "," };
    let value = value.as_str();
    line.push_str(format!(in alloc; "{comma}\"{name}\":{value}")?.as_str())?;
    Ok(())
}

// Appends the phase of a measurement, if the reply has one.
fn push_phase(alloc: Global, line: &mut String, phase: Option<&str>) -> Result<(), Memory> {
    match phase {
        Some(phase) => push_text(alloc, line, "phase", phase),
        None => Ok(()),
    }
}

// ---- of an abort

// Shows the line of an abort, with what the reply says of it.
fn show_abort<W: Write>(
    alloc: Global,
    abort: &Value,
    reply: &Value,
    output: &mut W,
    is_terminal: bool,
) -> Result<(), Stop> {
    let line = if is_terminal {
        abort_text(alloc, text_at(abort, "service"), reply)?
    } else {
        abort_json(alloc, abort, reply)?
    };
    show(output, line.as_str())
}

// The line of an abort for people: the service, and its status or a refusal's code.
fn abort_text(alloc: Global, service: &str, reply: &Value) -> Result<String, Memory> {
    let ending = match reply.get("status").and_then(Value::as_str) {
        Some(status) => status,
        None => text_at(reply, "code"),
    };
    let line = format!(in alloc; "{service} abort {ending}")?;
    shown(alloc, line.as_str(), TextKind::Line)
}

// The line of an abort for programs: an object of the service and the reply's code and status.
fn abort_json(alloc: Global, abort: &Value, reply: &Value) -> Result<String, Memory> {
    let mut line = String::from_str(alloc, "{")?;
    push_member(alloc, &mut line, "abort", abort.get("service"))?;
    push_member(alloc, &mut line, "code", reply.get("code"))?;
    push_member(alloc, &mut line, "status", reply.get("status"))?;
    line.push_str("}")?;
    shown(alloc, line.as_str(), TextKind::Json)
}

// ---- of what would be asked

/// Shows what a provider would be asked for a measurement: the method, the address and the query,
/// and no header.
///
/// # Errors
/// `Output` if the output failed; `Memory`.
pub(crate) fn show_ask<W: Write>(
    alloc: Global,
    service: Name,
    due: &Due,
    provider: &Provider,
    output: &mut W,
    is_terminal: bool,
) -> Result<(), Stop> {
    let host = str::from_utf8(provider.host.as_bytes()).unwrap_or("");
    let place = host.strip_prefix("Host: ").unwrap_or(host);
    let first = str::from_utf8(provider.first.as_bytes()).unwrap_or("");
    let asked = first.strip_suffix(" HTTP/1.1").unwrap_or(first);
    let line = if is_terminal {
        ask_text(alloc, service, due, place, asked)?
    } else {
        ask_json(alloc, service, due, place, asked)?
    };
    show(output, line.as_str())
}

// The line for people of what a provider would be asked, with the metric's name without its ending.
fn ask_text(
    alloc: Global,
    service: Name,
    due: &Due,
    place: &str,
    asked: &str,
) -> Result<String, Memory> {
    let name = Shown::or_whole(due.metric.as_str()).name;
    let service = service.as_str();
    let line = format!(in alloc; "{service} {name} asks {place}: {asked}")?;
    shown(alloc, line.as_str(), TextKind::Line)
}

// The line for programs of what a provider would be asked: an object with the metric's label.
fn ask_json(
    alloc: Global,
    service: Name,
    due: &Due,
    place: &str,
    asked: &str,
) -> Result<String, Memory> {
    let mut line = String::from_str(alloc, "{")?;
    push_text(alloc, &mut line, "ask", asked)?;
    push_text(alloc, &mut line, "metric", due.metric.as_str())?;
    push_text(alloc, &mut line, "of", place)?;
    push_text(alloc, &mut line, "service", service.as_str())?;
    line.push_str("}")?;
    shown(alloc, line.as_str(), TextKind::Json)
}

// Appends a member that is a text, as a JSON string.
fn push_text(alloc: Global, line: &mut String, name: &str, text: &str) -> Result<(), Memory> {
    let text = Value::try_from_str(alloc, text)?;
    push_member(alloc, line, name, Some(&text))
}
