//! The check of the body of a request, without a desk.
ghost use Rattle.std.specs.Prelude.{◌≡◌, false, IfOk, IsTrue};
ghost use Rattle.canary_check.specs.Taken.{is_request_taken, is_asked_taken};
ghost use Rattle.canary_check.specs.Waiting.{is_request_attended, is_command_attended};

use crate::alone::is_asked_taken;
use crate::body::tell_body;
use crate::check::{CheckReport, found, no_json};
use crate::ignored::warn_of_ignored;
use crate::json_place::JsonPlace;
use crate::lines::Lines;
use crate::waiting::warn_of_command;
use crate::warning::{warn_of_length, warn_of_template};
use canary_base::error::Memory;
use canary_canonical::form::only_member;
use canary_manifest::command::{WireFault, command_from_json};
use canary_manifest::member::member_of;
use canary_plan::command::Command;
use serde_json::Value;
use std::alloc::Global;

// Nothing else is known that the members do not show.
const COMMAND: &str = "body: expected a command\n";

/// What keeps the desk from taking this body of a request.
///
/// It is ok exactly if the desk reads the body as a command, and refuses nothing that the
/// command itself holds: a template and a service as `check` says of their manifests, and of a
/// report that two entries name one metric. What depends on what a desk has, or on when it is
/// asked, is no finding, and neither is a body of more than 65,536 bytes.
///
/// If nothing is warned of, it registers no service that time alone brings to 100 percent.
///
/// # Errors
/// `Memory` if an allocation was refused.
pub fn check_request(alloc: Global, body: &[u8]) -> Result<CheckReport, Memory>
    ensures taken { IfOk result (λ findings. findings.is_taken ≡ is_request_taken body.now) }
    ensures attended { IfOk result (λ findings.
        IsTrue findings.is_quiet → IsTrue (is_request_attended body.now)) }
{
    let warned = warned_of(alloc, body);
    match command_from_json(alloc, body) {
        Ok(command) => check_command(alloc, body, &command, warned),
        Err(WireFault::Unreadable) => not_taken(alloc, body, warned),
        Err(WireFault::Unsupported) => not_taken(alloc, body, warned),
        Err(WireFault::Memory) => Err(Memory),
    }
}

// What is found in a body that reads as this command, with what is warned of so far.
fn check_command(
    alloc: Global,
    body: &[u8],
    command: &Command,
    mut warned: Lines,
) -> Result<CheckReport, Memory>
    ensures taken { IfOk result (λ findings. findings.is_taken ≡ is_asked_taken command.now) }
    ensures attended { IfOk result (λ findings.
        IsTrue findings.is_quiet → IsTrue (is_command_attended command.now)) }
{
    warn_of_command(&mut warned, JsonPlace::at("service.manifest"), command);
    if is_asked_taken(alloc, command)? {
        return Ok(CheckReport::none(warned.warnings()?));
    }
    not_taken(alloc, body, warned)
}

// What is found in a body that is not taken.
fn not_taken(alloc: Global, body: &[u8], warned: Lines) -> Result<CheckReport, Memory>
    ensures taken { IfOk result (λ findings. findings.is_taken ≡ false) }
    ensures quiet { IfOk result (λ findings.
        IsTrue findings.is_quiet → warned.told ≡ 0) }
{
    match Value::from_slice(alloc, body) {
        Ok(value) => body_not_taken(alloc, &value, warned),
        Err(fault) if fault.is_memory() => Err(Memory),
        Err(fault) => no_json(alloc, body, &fault, warned),
    }
}

// The same of a body that is JSON, by its members.
fn body_not_taken(alloc: Global, body: &Value, warned: Lines) -> Result<CheckReport, Memory>
    ensures taken { IfOk result (λ findings. findings.is_taken ≡ false) }
    ensures quiet { IfOk result (λ findings.
        IsTrue findings.is_quiet → warned.told ≡ 0) }
{
    let warnings = warned.warnings()?;
    let mut lines = Lines::new(alloc);
    tell_body(&mut lines, body);
    found(lines, COMMAND, warnings)
}

// What is warned of a body, but for the steps of a service.
fn warned_of(alloc: Global, body: &[u8]) -> Lines {
    let mut lines = Lines::new(alloc);
    warn_of_length(&mut lines, "body", body.len());
    match Value::from_slice(alloc, body) {
        Ok(value) => warn_of_body(&mut lines, &value),
        Err(fault) if fault.is_memory() => lines.refuse(),
        Err(_) => (),
    }
    lines
}

// Warns of the manifest that a body has, of a template or of a service.
fn warn_of_body(lines: &mut Lines, body: &Value) {
    match only_member(body) {
        Some(("template", manifest)) => {
            warn_of_template(lines, JsonPlace::at("template"), manifest);
        }
        Some(("service", service)) => {
            if let Some(manifest) = member_of(service, "manifest") {
                warn_of_ignored(lines, JsonPlace::at("service.manifest"), manifest);
            }
        }
        _ => {}
    }
}
