//! The canonical text of a command.
ghost use Rattle.std.specs.Prelude.{◌≡◌, IsTrue, Some, IfOk, string_bytes};
ghost use Rattle.canary_base.specs.Names.{is_name, is_label};
ghost use Rattle.serde_json.specs.View.{view};
ghost use Rattle.canary_plan.specs.declared.command.Command.TheVariants as command_of;
ghost use Rattle.canary_canonical.specs.Texts.{start_data, command_text};
ghost use Rattle.canary_canonical.specs.Readings.{canonical_in};
ghost use Rattle.canary_canonical.specs.Laws.{KeepsLimits, keeps_template, keeps_service};

use crate::direct::{named_text, report_text};
use crate::object::{Member, object_of};
use crate::parts::only;
use crate::service::service_value;
use crate::template::template_value;
use canary_base::error::Memory;
use canary_base::lists::Text;
use canary_base::names::{Label, Name};
use canary_plan::command::Command;
use canary_plan::service::ServiceSpec;
use canary_plan::template_spec::TemplateSpec;
use serde_json::Value;
use std::alloc::{AllocError, Global};

/// The canonical text of a command, or `Memory`: JSON with no space, the members of each object in
/// ascending order of the bytes of their keys. It is read as the command, and so is no other
/// command's.
pub fn text(alloc: Global, command: &Command) -> Result<Text, Memory>
    ensures value { IfOk result (λ text. text ≡ command_text command.now) }
    ensures back { IfOk result (λ text. canonical_in text ≡ Some command.now) }
    ensures kept { IfOk result (λ _. KeepsLimits command.now) }
{
    Ok(Text::of(written(alloc, command)?))
}

// The canonical text: of templates, services and starts by their value, of others piece by piece.
#[tactic(auto, unfolding(crate::specs::Laws::keeps_limits), using(crate::proofs::Pieces::written))]
fn written(alloc: Global, command: &Command) -> Result<String, AllocError>
    ensures value { IfOk result (λ text. string_bytes text ≡ command_text command.now) }
    ensures kept { IfOk result (λ _. KeepsLimits command.now) }
{
    match command {
        Command::Template(spec) => template_text(alloc, spec),
        Command::Service(spec) => service_text(alloc, spec),
        Command::Start { service, version } => start_text(alloc, service, version),
        Command::Promote { service } => {
            named_text(alloc, "{\"promote\":{\"service\":\"", service)
        }
        Command::PromoteFull { service } => {
            named_text(alloc, "{\"promoteFull\":{\"service\":\"", service)
        }
        Command::Abort { service } => { named_text(alloc, "{\"abort\":{\"service\":\"", service) }
        Command::Retry { service } => { named_text(alloc, "{\"retry\":{\"service\":\"", service) }
        Command::Tick { service } => named_text(alloc, "{\"tick\":{\"service\":\"", service),
        Command::Report(report) => report_text(alloc, report),
    }
}

// A template's command in JSON, by its value.
fn template_text(alloc: Global, spec: &TemplateSpec) -> Result<String, AllocError>
    ensures value { IfOk result (λ text. string_bytes text
        ≡ command_text (command_of.Template spec.now)) }
    ensures kept { IfOk result (λ _. IsTrue (keeps_template spec.now)) }
{
    let value = only(alloc, "template", template_value(alloc, spec)?)?;
    value.to_string(alloc)
}

// A service's command in JSON, by its value.
fn service_text(alloc: Global, spec: &ServiceSpec) -> Result<String, AllocError>
    ensures value { IfOk result (λ text. string_bytes text
        ≡ command_text (command_of.Service spec.now)) }
    ensures kept { IfOk result (λ _. IsTrue (keeps_service spec.now)) }
{
    let value = only(alloc, "service", service_value(alloc, spec)?)?;
    value.to_string(alloc)
}

// A start in JSON, by its value.
fn start_text(alloc: Global, service: &Name, version: &Label) -> Result<String, AllocError>
    ensures value { IfOk result (λ text. string_bytes text
        ≡ command_text (command_of.Start service.now version.now)) }
    ensures kept { IfOk result (λ _. IsTrue (is_name service.now) × IsTrue (is_label version.now)) }
{
    let value = only(alloc, "start", start_value(alloc, service, version)?)?;
    value.to_string(alloc)
}

// The parts of a start in JSON: the service, and the version to release.
#[tactic(auto, unfolding(crate::specs::Objects::with_member, crate::specs::Texts::start_data))]
fn start_value(alloc: Global, service: &Name, version: &Label) -> Result<Value, AllocError>
    ensures value { IfOk result (λ value. view value ≡ start_data service.now version.now) }
    ensures kept { IfOk result (λ _. IsTrue (is_name service.now) × IsTrue (is_label version.now)) }
{
    let members = [
        Member::Text("service", service.as_str()),
        Member::Text("version", version.as_str()),
    ];
    object_of(alloc, &members)
}
