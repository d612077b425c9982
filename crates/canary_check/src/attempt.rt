//! What the desk refuses of a Rollout as an attempt begins, on a desk that has the templates of
//! other manifests.
ghost use Rattle.std.specs.Prelude.{◌≡◌, ◌++◌, ◌||◌, false, IfOk, IsTrue, OnErr, is_none};
ghost use Rattle.std.specs.FinMap as map;
ghost use Rattle.canary_plan.specs.Plans.{has_unknown};
ghost use Rattle.canary_plan.specs.Commands.{names_looked_up};
ghost use Rattle.canary_manifest.specs.Commands.{body_reading};
ghost use Rattle.canary_check.specs.Taken.{refusal_on};
ghost use Rattle.canary_check.specs.Attempts.{with_spec, with_command, with_reading, with_template};
ghost use Rattle.canary_check.specs.Attempts.{is_command_bound, is_reading_bound, is_bound};

use crate::alone::refusal_on;
use crate::binding::tell_spec;
use crate::check::{CheckReport, body_of, found};
use crate::lines::Lines;
use canary_base::error::Memory;
use canary_base::names::Name;
use canary_manifest::command::{WireFault, command_from_json};
use canary_plan::command::Command;
use canary_plan::fault::BindFault;
use canary_plan::service::ServiceSpec;
use canary_plan::template::Template;
use canary_plan::template_spec::TemplateSpec;
use canary_plan::templates::Templates;
use std::alloc::Global;

// All that the analyses alone do not show.
const UNBOUND: &str = "spec.strategy.canary: expected analyses that the desk binds as it starts\n";

/// Adds the template that the manifest of this text registers, if it is an AnalysisTemplate that
/// the desk takes.
///
/// # Errors
/// `Memory` if an allocation was refused; the templates are then as before.
pub fn add_template(alloc: Global, known: &mut Templates, text: &[u8]) -> Result<(), Memory>
    ensures ok { IfOk result (λ _. known.new ≡ with_template known.old text.now) }
    ensures err { OnErr result (known.new ≡ known.old) }
{
    add_body(alloc, known, "{\"template\":", text, "}")
}

// The same of the body of this text, between a front and an end.
fn add_body(
    alloc: Global,
    known: &mut Templates,
    front: &str,
    text: &[u8],
    end: &str,
) -> Result<(), Memory>
    ensures ok { IfOk result (λ _. known.new
        ≡ with_reading known.old (body_reading (front.now ++ text.now ++ end.now))) }
    ensures err { OnErr result (known.new ≡ known.old) }
{
    let body = body_of(alloc, front, text, end)?;
    match command_from_json(alloc, body.as_slice()) {
        Ok(command) => add_command(alloc, known, &command),
        Err(WireFault::Unreadable) => Ok(()),
        Err(WireFault::Unsupported) => Ok(()),
        Err(WireFault::Memory) => Err(Memory),
    }
}

// Adds the template that this command registers; of any other command nothing.
fn add_command(alloc: Global, known: &mut Templates, command: &Command) -> Result<(), Memory>
    ensures ok { IfOk result (λ _. known.new ≡ with_command known.old command.now) }
    ensures err { OnErr result (known.new ≡ known.old) }
{
    match command {
        Command::Template(spec) => add_spec(alloc, known, spec),
        _ => Ok(()),
    }
}

// Adds the template that is asked for, unless it is refused.
fn add_spec(alloc: Global, known: &mut Templates, spec: &TemplateSpec) -> Result<(), Memory>
    ensures ok { IfOk result (λ _. known.new ≡ with_spec known.old spec.now) }
    ensures err { OnErr result (known.new ≡ known.old) }
{
    match Template::bind(alloc, spec, 1) {
        Ok(template) => known.insert(spec.name, template),
        Err(BindFault::Refused(_)) => Ok(()),
        Err(BindFault::Memory) => Err(Memory),
    }
}

/// What keeps a desk with these templates from starting an attempt of the Rollout of this text: in
/// an analysis two metrics of one name, or more than 32; in that of a step a metric that ends by
/// no count. Nothing is found in a Rollout that names another template, or that the desk does not
/// read: `check` says that. Nothing is warned of.
///
/// # Errors
/// `Memory` if an allocation was refused.
pub fn check_attempt(alloc: Global, known: &Templates, text: &[u8]) -> Result<CheckReport, Memory>
    ensures taken { IfOk result (λ findings. findings.is_taken ≡ is_bound known.now text.now) }
    ensures quiet { IfOk result (λ findings. IsTrue findings.is_quiet) }
{
    let front = "{\"service\":{\"version\":\"v1\",\"manifest\":";
    check_body(alloc, known, front, text, "}}")
}

// The same of the body of this text, between a front and an end.
fn check_body(
    alloc: Global,
    known: &Templates,
    front: &str,
    text: &[u8],
    end: &str,
) -> Result<CheckReport, Memory>
    ensures taken { IfOk result (λ findings. findings.is_taken
        ≡ is_reading_bound known.now (body_reading (front.now ++ text.now ++ end.now))) }
    ensures quiet { IfOk result (λ findings. IsTrue findings.is_quiet) }
{
    let body = body_of(alloc, front, text, end)?;
    match command_from_json(alloc, body.as_slice()) {
        Ok(command) => check_command(alloc, known, &command),
        Err(WireFault::Unreadable) => Ok(CheckReport::none(None)),
        Err(WireFault::Unsupported) => Ok(CheckReport::none(None)),
        Err(WireFault::Memory) => Err(Memory),
    }
}

// What is refused of the attempts of the service that this command registers.
fn check_command(alloc: Global, known: &Templates, command: &Command) -> Result<CheckReport, Memory>
    ensures taken { IfOk result (λ findings.
        findings.is_taken ≡ is_command_bound known.now command.now) }
    ensures quiet { IfOk result (λ findings. IsTrue findings.is_quiet) }
{
    match command {
        Command::Service(spec) => check_spec(alloc, known, command, spec),
        _ => Ok(CheckReport::none(None)),
    }
}

// The same of this service, which the command registers.
fn check_spec(
    alloc: Global,
    known: &Templates,
    command: &Command,
    spec: &ServiceSpec,
) -> Result<CheckReport, Memory>
    ensures taken { IfOk result (λ findings. findings.is_taken
        ≡ (has_unknown (map.get known.now) (names_looked_up None command.now)
        || is_none (refusal_on known.now spec.now))) }
    ensures quiet { IfOk result (λ findings. IsTrue findings.is_quiet) }
{
    let names = command.names_looked_up(alloc, None)?;
    if has_unknown(known, names.as_slice()) {
        return Ok(CheckReport::none(None));
    }
    check_bound(alloc, known, spec)
}

// Whether there is no template of one of these names.
fn has_unknown(known: &Templates, names: &[Name]) -> bool
    ensures { result ≡ has_unknown (map.get known.now) names.now }
{
    names.iter().any(|name| known.get(*name).is_none())
}

// What is refused of the attempts of a service whose templates are known.
fn check_bound(alloc: Global, known: &Templates, spec: &ServiceSpec) -> Result<CheckReport, Memory>
    ensures taken { IfOk result (λ findings.
        findings.is_taken ≡ is_none (refusal_on known.now spec.now)) }
    ensures quiet { IfOk result (λ findings. IsTrue findings.is_quiet) }
{
    match refusal_on(alloc, known, spec)? {
        None => Ok(CheckReport::none(None)),
        Some(_) => attempt_refused(alloc, known, spec),
    }
}

// What is found in a service whose attempts are refused.
fn attempt_refused(
    alloc: Global,
    known: &Templates,
    spec: &ServiceSpec,
) -> Result<CheckReport, Memory>
    ensures taken { IfOk result (λ findings. findings.is_taken ≡ false) }
    ensures quiet { IfOk result (λ findings. IsTrue findings.is_quiet) }
{
    let mut lines = Lines::new(alloc);
    tell_spec(&mut lines, known, spec);
    found(lines, UNBOUND, None)
}
