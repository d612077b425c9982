//! The desk as it is kept in memory.
ghost use Rattle.std.specs.Prelude.{◌≡◌, OnOk, OnErr};
ghost use Rattle.canary_plan.specs.declared.command.Command.{Command};
ghost use Rattle.canary_release.specs.Desks.{no_desk};
ghost use Rattle.canary_release.specs.Stored.{desk_with};
ghost use Rattle.canary_release.specs.Effects.{IsChange};
ghost use Rattle.canary_once.specs.InMemory.{name_in, IsKept};

use crate::revisions::Revisions;
use crate::services::Services;
use canary_base::error::Memory;
use canary_base::names::Name;
use canary_plan::template::Template;
use canary_release::decide::DeskChange;
use std::alloc::Global;
use std::marker::Model;

/// The revisions of templates and the services, by name, which contracts see as a desk.
#[derive(Drop)]
pub(crate) struct KeptDesk {
    templates: Revisions,
    services: Services,
}

impl Model for KeptDesk {
    ghost use Rattle.canary_release.specs.Desks.{Desk};
    ghost use Rattle.canary_once.specs.BookCodes.{desk_code};

    ghost Value = { Desk };

    ghost coded = { desk_code };

    ghost view = { λ d. record { templates = d.templates; services = d.services } };
}

impl KeptDesk {
    /// A desk with nothing on it, which takes no memory.
    pub(crate) fn new(alloc: Global) -> KeptDesk
        ensures { result ≡ no_desk }
    {
        KeptDesk {
            templates: Revisions::new(alloc),
            services: Services::new(alloc),
        }
    }

    /// The revisions of its templates.
    pub(crate) fn templates(&self) -> &Revisions
        ensures { result.now ≡ self.now.templates }
    {
        &self.templates
    }

    /// Its services.
    pub(crate) fn services(&self) -> &Services
        ensures { result.now ≡ self.now.services }
    {
        &self.services
    }

    /// Makes a change, under the name of what it brings, or `Memory`; the desk is then as before.
    pub(crate) fn change(&mut self, alloc: Global, change: DeskChange) -> Result<(), Memory>
        requires { IsKept self.old (name_in change) change }
        ensures ok { OnOk result ((command : Command) → IsChange self.old command change
            → self.new ≡ desk_with self.old command change) }
        ensures err { OnErr result (self.new ≡ self.old) }
    {
        match change {
            DeskChange::Nothing => Ok(()),
            DeskChange::Template(template) => {
                let name = name_of(&template);
                self.templates.push(alloc, name, template)
            }
            DeskChange::Service { service, effects } => {
                let name = service.name();
                self.services.change(alloc, name, service, effects)
            }
        }
    }
}

// The name of a template, under which its revisions are stored.
fn name_of(template: &Template) -> Name
    ensures { result ≡ template.now.spec.name }
{
    template.spec.name
}
