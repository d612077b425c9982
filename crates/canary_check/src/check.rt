//! The check of a manifest without a desk.
ghost use Rattle.std.specs.Prelude.{◌≡◌, ◌<◌, ◌++◌, ◌&&◌, Bool, true, false};
ghost use Rattle.std.specs.Prelude.{IfOk, IfSome, IsTrue, codes, is_none, length, string_bytes};
ghost use Rattle.serde_json.specs.View.{view};
ghost use Rattle.canary_manifest.specs.Commands.{body_reading};
ghost use Rattle.canary_check.specs.Taken.{is_taken, is_manifest_taken, is_reading_taken};
ghost use Rattle.canary_check.specs.Taken.{is_command_taken, is_of_kind, has_in_spec};
ghost use Rattle.canary_check.specs.Taken.{template_body, service_body};
ghost use Rattle.canary_check.specs.Waiting.{is_attended, is_manifest_attended};
ghost use Rattle.canary_check.specs.Waiting.{is_command_attended, is_request_attended};

use crate::alone::is_command_taken;
use crate::ignored::warn_of_ignored;
use crate::json_place::JsonPlace;
use crate::lines::Lines;
use crate::rollout::tell_rollout;
use crate::template::tell_template;
use crate::text::{instead_of_manifest, instead_of_text};
use crate::waiting::warn_of_command;
use crate::warning::{warn_of_length, warn_of_template};
use canary_base::error::Memory;
use canary_manifest::command::{WireFault, command_from_json};
use canary_manifest::member::{is_other_text, member_of};
use canary_plan::command::Command;
use serde_json::{Error, Value};
use std::alloc::Global;
use std::marker::Model;

// All that the members alone do not show: a command is JSON around the manifest.
const DEPTH: &str = "manifest: expected arrays and objects nested at most 125 deep in a Rollout, \
    and 126 deep in an AnalysisTemplate\n";

/// What was found: nothing, or findings; and what is warned of. Contracts see whether nothing was
/// found, and whether nothing is warned of.
#[derive(Drop)]
pub struct CheckReport {
    lines: Option<String>,
    warnings: Option<String>,
}

impl Model for CheckReport {
    ghost use Rattle.std.specs.Prelude.{◌<◌, IfSome, is_none, length, string_bytes};
    ghost use Rattle.canary_check.specs.Taken.{Found};

    ghost Value = { Found };

    ghost view = { λ f. record { is_taken = is_none f.lines; is_quiet = is_none f.warnings } };

    ghost invariant = { λ f. IfSome f.lines (λ lines. 3 < length (string_bytes lines))
        × IfSome f.warnings (λ lines. 3 < length (string_bytes lines)) };
}

impl CheckReport {
    /// Whether the desk takes what was checked.
    pub fn is_ok(&self) -> bool
        ensures { result ≡ self.now.is_taken }
    {
        self.lines.is_none()
    }

    /// The lines, each ended by a line feed: `ok`, or findings. A line that begins with four spaces
    /// belongs to the finding before it. There are 100 findings at most, and then a line that
    /// counts the others.
    pub fn text(&self) -> &str
        ensures ok { IsTrue self.now.is_taken → result.now ≡ codes "ok\n" }
        ensures found { self.now.is_taken ≡ false → 3 < length result.now }
    {
        match &self.lines {
            Some(lines) => lines.as_str(),
            None => "ok\n",
        }
    }

    /// The lines of warnings, which keep the desk from nothing, each ended by a line feed; empty
    /// if there are none. There are 100 at most, as of findings.
    pub fn warnings(&self) -> &str {
        match &self.warnings {
            Some(warnings) => warnings.as_str(),
            None => "",
        }
    }

    /// The same, with each warning as a finding after the others; or `Memory`.
    pub fn strict(self, alloc: Global) -> Result<CheckReport, Memory>
        ensures taken { IfOk result (λ found.
            found.is_taken ≡ (self.is_taken && self.is_quiet)) }
        ensures quiet { IfOk result (λ found. IsTrue found.is_quiet) }
    {
        let CheckReport { lines, warnings } = self;
        let lines = match (lines, warnings) {
            (None, warnings) => warnings,
            (Some(lines), None) => Some(lines),
            (Some(lines), Some(warnings)) => Some(joined(lines, warnings)?),
        };
        Ok(CheckReport {
            lines,
            warnings: None,
        })
    }

    // Nothing but these warnings.
    pub(crate) fn none(warnings: Option<String>) -> CheckReport
        requires { IfSome warnings (λ lines. 3 < length (string_bytes lines)) }
        ensures taken { IsTrue result.is_taken }
        ensures quiet { result.is_quiet ≡ is_none warnings }
    {
        CheckReport {
            lines: None,
            warnings,
        }
    }
}

// The lines, and these others after them.
fn joined(lines: String, others: String) -> Result<String, Memory>
    requires { 3 < length (string_bytes lines) }
    ensures { IfOk result (λ all. 3 < length (string_bytes all)) }
{
    let mut all = lines;
    all.push_str(others.as_str())?;
    Ok(all)
}

/// What keeps the desk from taking the manifest of this text, an AnalysisTemplate or a Rollout as
/// `kubectl get -o json` prints it. Which of the two it is its `kind` says; without one, that its
/// `spec` has `metrics` and no `strategy`, or a `strategy` and no `metrics`.
///
/// It is ok exactly if the desk reads the body of the command that registers the manifest, and
/// refuses nothing that the manifest itself holds: a template as the desk binds it; a Rollout as
/// the desk checks its strategy, and binds it as an attempt begins, if each template that it names
/// is there, with one metric, of the template's name. What depends on the templates that a desk
/// has, as `unknown-template` and `endless-metric`, is no finding, and neither is a service's name
/// that is taken, or a body of more than 65,536 bytes.
///
/// If nothing is warned of, it is no Rollout that time alone brings to 100 percent.
///
/// # Errors
/// `Memory` if an allocation was refused.
#[tactic(auto, using(crate::proofs::Texts::what_is_read))]
pub fn check(alloc: Global, text: &[u8]) -> Result<CheckReport, Memory>
    ensures taken { IfOk result (λ findings. findings.is_taken ≡ is_taken text.now) }
    ensures attended { IfOk result (λ findings.
        IsTrue findings.is_quiet → IsTrue (is_attended text.now)) }
{
    match Value::from_slice(alloc, text) {
        Ok(manifest) => check_manifest(alloc, text, &manifest),
        Err(fault) if fault.is_memory() => Err(Memory),
        Err(fault) => no_json(alloc, text, &fault, Lines::new(alloc)),
    }
}

/// What is warned of the members of this Rollout that the desk ignores, though they change in Argo
/// Rollouts what becomes of a release. Nothing is found.
///
/// # Errors
/// `Memory` if an allocation was refused.
pub fn check_ignored(alloc: Global, manifest: &Value) -> Result<CheckReport, Memory>
    ensures { IfOk result (λ findings. IsTrue findings.is_taken) }
{
    let mut lines = Lines::new(alloc);
    warn_of_ignored(&mut lines, JsonPlace::at(""), manifest);
    Ok(CheckReport::none(lines.warnings()?))
}

/// What is found in a text that is no JSON, or `Memory`.
pub(crate) fn no_json(
    alloc: Global,
    text: &[u8],
    fault: &Error,
    warned: Lines,
) -> Result<CheckReport, Memory>
    ensures taken { IfOk result (λ findings. findings.is_taken ≡ false) }
    ensures quiet { IfOk result (λ findings.
        IsTrue findings.is_quiet → warned.told ≡ 0) }
{
    let warnings = warned.warnings()?;
    let mut lines = Lines::new(alloc);
    lines.tell_no_json(fault.line(), fault.column());
    lines.instead_if(instead_of_text(text));
    found(lines, DEPTH, warnings)
}

// What is found in a manifest, by its kind; `text` is what it was read from.
fn check_manifest(alloc: Global, text: &[u8], manifest: &Value) -> Result<CheckReport, Memory>
    ensures taken { IfOk result
        (λ findings. findings.is_taken ≡ is_manifest_taken text.now (view manifest.now)) }
    ensures attended { IfOk result (λ findings.
        IsTrue findings.is_quiet → IsTrue (is_manifest_attended text.now (view manifest.now))) }
{
    if is_of_kind(manifest, "AnalysisTemplate", "metrics", "strategy") {
        return check_template(alloc, text, manifest);
    }
    if is_of_kind(manifest, "Rollout", "strategy", "metrics") {
        return check_rollout(alloc, text, manifest);
    }
    other_kind(alloc, manifest)
}

// What is found in a manifest of another kind.
fn other_kind(alloc: Global, manifest: &Value) -> Result<CheckReport, Memory>
    ensures { IfOk result (λ findings. findings.is_taken ≡ false) }
{
    let mut lines = Lines::new(alloc);
    lines.tell(JsonPlace::at(""), "kind", "AnalysisTemplate or Rollout");
    lines.instead_if(instead_of_manifest(manifest));
    found(lines, DEPTH, None)
}

// Whether its `kind` is that text; or it has none, and of these two keys its `spec` has the first
// alone.
fn is_of_kind(manifest: &Value, kind: &str, own: &str, other: &str) -> bool
    ensures { result ≡ is_of_kind kind.now own.now other.now (view manifest.now) }
{
    match member_of(manifest, "kind") {
        Some(value) => !is_other_text(value, kind),
        None => has_in_spec(manifest, own) && !has_in_spec(manifest, other),
    }
}

/// Whether its `spec` has a member of that key.
pub(crate) fn has_in_spec(manifest: &Value, key: &str) -> bool
    ensures { result ≡ has_in_spec key.now (view manifest.now) }
{
    match member_of(manifest, "spec") {
        Some(spec) => member_of(spec, key).is_some(),
        None => false,
    }
}

// What is found in an AnalysisTemplate. Its members are looked at if its body is not taken.
fn check_template(alloc: Global, text: &[u8], manifest: &Value) -> Result<CheckReport, Memory>
    ensures { IfOk result (λ findings.
        findings.is_taken ≡ is_reading_taken (body_reading (template_body text.now))) }
{
    let warnings = template_warnings(alloc, text, manifest)?;
    if is_body_taken(alloc, "{\"template\":", text, "}")? {
        return Ok(CheckReport::none(warnings));
    }
    let mut lines = Lines::new(alloc);
    tell_template(&mut lines, JsonPlace::at(""), manifest);
    found(lines, DEPTH, warnings)
}

// What is warned of an AnalysisTemplate, its length and its metrics, if there is anything.
fn template_warnings(alloc: Global, text: &[u8], manifest: &Value) -> Result<Option<String>, Memory>
    ensures { IfOk result (λ w. IfSome w (λ lines. 3 < length (string_bytes lines))) }
{
    let mut lines = Lines::new(alloc);
    warn_of_length(&mut lines, "manifest", text.len());
    warn_of_template(&mut lines, JsonPlace::at(""), manifest);
    lines.warnings()
}

// What is found in a Rollout, by the body that registers it under some version.
fn check_rollout(alloc: Global, text: &[u8], manifest: &Value) -> Result<CheckReport, Memory>
    ensures taken { IfOk result (λ findings.
        findings.is_taken ≡ is_reading_taken (body_reading (service_body text.now))) }
    ensures attended { IfOk result (λ findings.
        IsTrue findings.is_quiet → IsTrue (is_request_attended (service_body text.now))) }
{
    let mut lines = Lines::new(alloc);
    warn_of_length(&mut lines, "manifest", text.len());
    warn_of_ignored(&mut lines, JsonPlace::at(""), manifest);
    let front = "{\"service\":{\"version\":\"v1\",\"manifest\":";
    let body = body_of(alloc, front, text, "}}")?;
    check_service(alloc, manifest, body.as_slice(), lines)
}

// What is found in a Rollout that this body registers, with what is warned of so far.
fn check_service(
    alloc: Global,
    manifest: &Value,
    body: &[u8],
    warned: Lines,
) -> Result<CheckReport, Memory>
    ensures taken { IfOk result (λ findings.
        findings.is_taken ≡ is_reading_taken (body_reading body.now)) }
    ensures attended { IfOk result (λ findings.
        IsTrue findings.is_quiet → IsTrue (is_request_attended body.now)) }
{
    match command_from_json(alloc, body) {
        Ok(command) => check_command(alloc, manifest, &command, warned),
        Err(WireFault::Unreadable) => rollout_found(alloc, manifest, warned),
        Err(WireFault::Unsupported) => rollout_found(alloc, manifest, warned),
        Err(WireFault::Memory) => Err(Memory),
    }
}

// The same of a Rollout that reads as this command.
fn check_command(
    alloc: Global,
    manifest: &Value,
    command: &Command,
    mut warned: Lines,
) -> Result<CheckReport, Memory>
    ensures taken { IfOk result (λ findings.
        findings.is_taken ≡ is_command_taken command.now) }
    ensures attended { IfOk result (λ findings.
        IsTrue findings.is_quiet → IsTrue (is_command_attended command.now)) }
{
    warn_of_command(&mut warned, JsonPlace::at(""), command);
    if is_command_taken(alloc, command)? {
        return Ok(CheckReport::none(warned.warnings()?));
    }
    rollout_found(alloc, manifest, warned)
}

// What is found in a Rollout that is not taken.
fn rollout_found(alloc: Global, manifest: &Value, warned: Lines) -> Result<CheckReport, Memory>
    ensures taken { IfOk result (λ findings. findings.is_taken ≡ false) }
    ensures quiet { IfOk result (λ findings.
        IsTrue findings.is_quiet → warned.told ≡ 0) }
{
    let warnings = warned.warnings()?;
    let mut lines = Lines::new(alloc);
    tell_rollout(&mut lines, JsonPlace::at(""), manifest);
    found(lines, DEPTH, warnings)
}

/// What was found, in lines, or a general finding if they have none; or `Memory`.
pub(crate) fn found(
    lines: Lines,
    general: &str,
    warnings: Option<String>,
) -> Result<CheckReport, Memory>
    requires general { 3 < length general.now }
    requires warnings { IfSome warnings (λ lines. 3 < length (string_bytes lines)) }
    ensures taken { IfOk result (λ findings. findings.is_taken ≡ false) }
    ensures quiet { IfOk result (λ findings. findings.is_quiet ≡ is_none warnings) }
{
    let text = lines.finish(general)?;
    Ok(CheckReport {
        lines: Some(text),
        warnings,
    })
}

// Whether the body of this text, between a front and an end, is read and taken.
fn is_body_taken(alloc: Global, front: &str, text: &[u8], end: &str) -> Result<bool, Memory>
    ensures { IfOk result (λ taken. taken
        ≡ is_reading_taken (body_reading (front.now ++ text.now ++ end.now))) }
{
    let body = body_of(alloc, front, text, end)?;
    match command_from_json(alloc, body.as_slice()) {
        Ok(command) => is_command_taken(alloc, &command),
        Err(WireFault::Unreadable) => Ok(false),
        Err(WireFault::Unsupported) => Ok(false),
        Err(WireFault::Memory) => Err(Memory),
    }
}

/// This text between a front and an end, or `Memory`.
pub(crate) fn body_of(alloc: Global, front: &str, text: &[u8], end: &str) -> Result<Vec<u8>, Memory>
    ensures { IfOk result (λ body. body.items ≡ front.now ++ text.now ++ end.now) }
{
    let mut body = Vec::new(alloc);
    body.extend_from_slice(front.as_bytes())?;
    body.extend_from_slice(text)?;
    body.extend_from_slice(end.as_bytes())?;
    Ok(body)
}
