//! Commands from JSON (RFC 8259).
//!
//! A command is an object with one member, whose key is its kind: `template`, with an
//! AnalysisTemplate manifest of Argo Rollouts as `kubectl get -o json` prints it; `service`, with a
//! Rollout manifest and the version that is stable; `start`, with a service and a version;
//! `promote`, `promoteFull`, `abort`, `retry` and `tick`, with a service; or `report`, with a
//! service, a run and its entries. These objects have exactly these members; in a manifest a null
//! member is as if absent, and a member that means nothing to the desk is passed over.
ghost use Rattle.std.specs.Prelude.{◌≡◌, codes};
ghost use Rattle.serde_json.specs.View.{view};
ghost use Rattle.canary_canonical.specs.Reads.{IsRead};
ghost use Rattle.canary_manifest.specs.Members.{has};
ghost use Rattle.canary_manifest.specs.Readings.{IsReading};
ghost use Rattle.canary_manifest.specs.Rollouts.{is_unsupported_rollout};
ghost use Rattle.canary_manifest.specs.Commands.{service_of, template_reading, service_reading};
ghost use Rattle.canary_manifest.specs.Commands.{reading_of_kind, command_reading, body_reading};

use crate::member::member_of;
use crate::rollout::{is_unsupported_rollout, rollout_background, rollout_name, rollout_steps};
use crate::template::{is_unsupported_template, template_of};
use canary_canonical::form::{FormFault, is_object_of, label_at, only_member};
use canary_canonical::plain::plain_of_kind;
use canary_plan::command::Command;
use canary_plan::service::ServiceSpec;
use serde_json::Value;
use std::alloc::Global;
use thiserror::Error;

/// Why no command was read.
#[derive(Clone, Copy, Debug, PartialEq, Eq, Error)]
pub enum WireFault {
    /// The bytes are no JSON in UTF-8, or no command in JSON.
    #[error("the body is no command")]
    Unreadable,
    /// The body asks for what the desk does not do.
    #[error("the body asks for what the desk does not do")]
    Unsupported,
    /// An allocation was refused.
    #[error("out of memory")]
    Memory,
}

impl From<FormFault> for WireFault {
    ghost use Rattle.canary_manifest.specs.Readings.{wire_fault};

    ghost from_gives = { λ form fault. fault ≡ wire_fault form };

    // For `?`: a fault of a form, which is never `Unsupported`, is the one of the same name here.
    fn from(fault: FormFault) -> WireFault {
        match fault {
            FormFault::Unreadable => WireFault::Unreadable,
            FormFault::Memory => WireFault::Memory,
        }
    }
}

/// The command that these bytes are.
///
/// Of a key that stands twice in an object the last value counts, and a number with a point or an
/// exponent, or `-0`, is no whole number. A strategy and conditions are not checked here: a
/// strategy may have more steps or greater weights than one may have, and a condition may be
/// invalid.
///
/// # Errors
/// `Unsupported` if a body of one member has a manifest that asks for what the desk does not do,
/// whatever else is wrong with it. Of a template: a `kind` other than `AnalysisTemplate`,
/// `templates` or `measurementRetention` that are neither null nor an empty list, a
/// `consecutiveSuccessLimit`, or a `failureLimit` below 0. Of a service: a `kind` other than
/// `Rollout`, `paused` if it is true, `blueGreen`, a step of another kind, or in an analysis a
/// `dryRun` or a `measurementRetention` that are neither null nor an empty list, or a template of
/// the cluster. `Unreadable` for anything else that is no command, as bytes that are not UTF-8,
/// arrays and objects nested deeper than 127, a member too many, or a number above its limit.
/// `Memory` at any point.
#[tactic(auto, using(crate::proofs::Bodies::body_is_json, crate::proofs::Bodies::body_is_no_json))]
pub fn command_from_json(alloc: Global, bytes: &[u8]) -> Result<Command, WireFault>
    ensures { IsReading (body_reading bytes.now) result }
{
    match Value::from_slice(alloc, bytes) {
        Ok(value) => command_in(alloc, &value),
        Err(fault) if fault.is_memory() => Err(WireFault::Memory),
        Err(_) => Err(WireFault::Unreadable),
    }
}

// The command that is the only member of this object; `Unreadable` if there is no such member.
fn command_in(alloc: Global, value: &Value) -> Result<Command, WireFault>
    ensures { IsReading (command_reading (view value.now)) result }
{
    match only_member(value) {
        Some((kind, value)) => command_of_kind(alloc, kind, value),
        None => Err(WireFault::Unreadable),
    }
}

// The command of that kind; all but templates and services are read in their canonical form.
#[tactic(auto, unfolding(crate::specs::Commands::reading_of_kind))]
fn command_of_kind(alloc: Global, kind: &str, value: &Value) -> Result<Command, WireFault>
    ensures { IsReading (reading_of_kind kind.now (view value.now)) result }
{
    match kind {
        "template" => template_command(alloc, value),
        "service" => service_command(alloc, value),
        _ => Ok(plain_of_kind(alloc, kind, value)?),
    }
}

// The command that registers a template.
fn template_command(alloc: Global, manifest: &Value) -> Result<Command, WireFault>
    ensures { IsReading (template_reading (view manifest.now)) result }
{
    if is_unsupported_template(manifest) {
        return Err(WireFault::Unsupported);
    }
    Ok(Command::Template(template_of(alloc, manifest)?))
}

// The command that registers a service.
fn service_command(alloc: Global, value: &Value) -> Result<Command, WireFault>
    ensures { IsReading (service_reading (view value.now)) result }
{
    if is_unsupported_service(value) {
        return Err(WireFault::Unsupported);
    }
    Ok(Command::Service(service_of(alloc, value)?))
}

// Whether the manifest in a registration asks for what the desk does not do.
fn is_unsupported_service(value: &Value) -> bool
    ensures { result ≡ has (codes "manifest") is_unsupported_rollout (view value.now) }
{
    member_of(value, "manifest").is_some_and(is_unsupported_rollout)
}

// A manifest, and the version that is stable.
#[tactic(auto, unfolding(crate::specs::Commands::service_of))]
fn service_of(alloc: Global, value: &Value) -> Result<ServiceSpec, FormFault>
    ensures { IsRead (service_of (view value.now)) result }
{
    if !is_object_of(value, 2) {
        return Err(FormFault::Unreadable);
    }
    let manifest = value.get("manifest").ok_or(FormFault::Unreadable)?;
    let name = rollout_name(manifest).ok_or(FormFault::Unreadable)?;
    let version = label_at(value, "version").ok_or(FormFault::Unreadable)?;
    let steps = rollout_steps(alloc, manifest)?;
    let background = rollout_background(alloc, manifest)?;
    Ok(ServiceSpec {
        name,
        version,
        steps,
        background,
    })
}
