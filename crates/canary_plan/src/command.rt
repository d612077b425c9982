//! Commands.
ghost use Rattle.std.specs.Prelude.{◌≡◌, IfOk};
ghost use Rattle.std.specs.Option.{option_copied};
ghost use Rattle.canary_plan.specs.Commands.{kind_of, subject_of, version_of};
ghost use Rattle.canary_plan.specs.Commands.{template_in, service_in, report_in};

use crate::report::Report;
use crate::service::ServiceSpec;
use crate::template_spec::TemplateSpec;
use canary_base::error::Memory;
use canary_base::names::{Label, Name};
use std::alloc::Global;

/// What release engineers and metric agents ask of the desk.
#[derive(Drop)]
pub enum Command {
    /// Registers a template, or the next revision of one that is there.
    Template(TemplateSpec),
    /// Registers a service with its strategy and its stable version.
    Service(ServiceSpec),
    /// Begins a release of that version, bound to the newest revisions of its templates.
    Start { service: Name, version: Label },
    /// Ends a hold, or the pause at which a release stands.
    Promote { service: Name },
    /// Goes to the end of a release.
    PromoteFull { service: Name },
    /// Aborts a release.
    Abort { service: Name },
    /// Begins a release anew with the version that was aborted, bound in the same way.
    Retry { service: Name },
    /// Lets time pass.
    Tick { service: Name },
    /// Brings measurements of one run.
    Report(Report),
}

/// What kind of command it is.
#[derive(Clone, Copy, Debug, PartialEq, Eq)]
pub enum CommandKind {
    Template,
    Service,
    Start,
    Promote,
    PromoteFull,
    Abort,
    Retry,
    Tick,
    Report,
}

impl Command {
    /// What kind of command it is.
    pub fn kind(&self) -> CommandKind
        ensures { result ≡ kind_of self.now }
    {
        match self {
            Command::Template(_) => CommandKind::Template,
            Command::Service(_) => CommandKind::Service,
            Command::Start { .. } => CommandKind::Start,
            Command::Promote { .. } => CommandKind::Promote,
            Command::PromoteFull { .. } => CommandKind::PromoteFull,
            Command::Abort { .. } => CommandKind::Abort,
            Command::Retry { .. } => CommandKind::Retry,
            Command::Tick { .. } => CommandKind::Tick,
            Command::Report(_) => CommandKind::Report,
        }
    }

    /// The service that it names, or the template.
    pub fn subject(&self) -> Name
        ensures { result ≡ subject_of self.now }
    {
        match self {
            Command::Template(spec) => spec.name,
            Command::Service(spec) => spec.name,
            Command::Report(report) => report.service,
            Command::Start { service, .. }
            | Command::Promote { service }
            | Command::PromoteFull { service }
            | Command::Abort { service }
            | Command::Retry { service }
            | Command::Tick { service } => *service,
        }
    }

    /// The version with which it begins a release, if it is a `Start`.
    pub fn version(&self) -> Option<Label>
        ensures { result ≡ version_of self.now }
    {
        match self {
            Command::Start { version, .. } => Some(*version),
            _ => None,
        }
    }

    /// The template that it registers, if it is a `Template`.
    pub fn template(&self) -> Option<&TemplateSpec>
        ensures { option_copied result ≡ template_in self.now }
    {
        match self {
            Command::Template(spec) => Some(spec),
            _ => None,
        }
    }

    /// The service that it registers, if it is a `Service`.
    pub fn service(&self) -> Option<&ServiceSpec>
        ensures { option_copied result ≡ service_in self.now }
    {
        match self {
            Command::Service(spec) => Some(spec),
            _ => None,
        }
    }

    /// The measurements that it brings, if it is a `Report`.
    pub fn report(&self) -> Option<&Report>
        ensures { option_copied result ≡ report_in self.now }
    {
        match self {
            Command::Report(report) => Some(report),
            _ => None,
        }
    }

    /// A copy of it, or `Memory`.
    pub fn copy(&self, alloc: Global) -> Result<Command, Memory>
        ensures { IfOk result (λ copy. copy ≡ self.now) }
    {
        Ok(match self {
            Command::Template(spec) => Command::Template(spec.copy(alloc)?),
            Command::Service(spec) => Command::Service(spec.copy(alloc)?),
            Command::Start { service, version } => Command::Start {
                service: *service,
                version: *version,
            },
            Command::Promote { service } => Command::Promote { service: *service },
            Command::PromoteFull { service } => Command::PromoteFull { service: *service },
            Command::Abort { service } => Command::Abort { service: *service },
            Command::Retry { service } => Command::Retry { service: *service },
            Command::Tick { service } => Command::Tick { service: *service },
            Command::Report(report) => Command::Report(report.copy(alloc)?),
        })
    }
}
