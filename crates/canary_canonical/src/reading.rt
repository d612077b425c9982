//! The command that a canonical text is.
ghost use Rattle.std.specs.Prelude.{◌≡◌};
ghost use Rattle.serde_json.specs.View.{view};
ghost use Rattle.canary_canonical.specs.Readings.{command_of_kind, command_in};
ghost use Rattle.canary_canonical.specs.Readings.{spelt_in, canonical_in};
ghost use Rattle.canary_canonical.specs.Reads.{IsRead};

use crate::form::{FormFault, only_member};
use crate::plain::plain_of_kind;
use crate::service_reading::service_in;
use crate::template_reading::template_in;
use crate::writing;
use canary_plan::command::Command;
use serde_json::Value;
use std::alloc::Global;

/// The command with this canonical text.
///
/// # Errors
/// `Unreadable` if the text is no command's canonical text, as one with a space between its
/// members, with its members in another order, or with an invalid name; `Memory` at any point.
#[tactic(auto, unfolding(crate::specs::Readings::canonical_in))]
pub fn from_canonical(alloc: Global, text: &str) -> Result<Command, FormFault>
    ensures { IsRead (canonical_in text.now) result }
{
    let command = command_read(alloc, text)?;
    let again = writing::text(alloc, &command)?;
    if again.as_str() == text {
        Ok(command)
    } else {
        Err(FormFault::Unreadable)
    }
}

// The command that the text is in JSON, canonical or not.
fn command_read(alloc: Global, text: &str) -> Result<Command, FormFault>
    ensures { IsRead (spelt_in text.now) result }
{
    match Value::from_str(alloc, text) {
        Ok(value) => command_in(alloc, &value),
        Err(fault) if fault.is_memory() => Err(FormFault::Memory),
        Err(_) => Err(FormFault::Unreadable),
    }
}

// The command that it is: an object of one member, whose key is the command's kind.
fn command_in(alloc: Global, value: &Value) -> Result<Command, FormFault>
    ensures { IsRead (command_in (view value.now)) result }
{
    match only_member(value) {
        Some((kind, value)) => command_of_kind(alloc, kind, value),
        None => Err(FormFault::Unreadable),
    }
}

// The command of that kind with these parts; all but two kinds are left to `plain_of_kind`.
#[tactic(auto, unfolding(crate::specs::Readings::command_of_kind))]
fn command_of_kind(alloc: Global, kind: &str, value: &Value) -> Result<Command, FormFault>
    ensures { IsRead (command_of_kind kind.now (view value.now)) result }
{
    match kind {
        "template" => Ok(Command::Template(template_in(alloc, value)?)),
        "service" => Ok(Command::Service(service_in(alloc, value)?)),
        _ => plain_of_kind(alloc, kind, value),
    }
}
