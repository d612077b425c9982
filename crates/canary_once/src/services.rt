//! Services by name, each with its past.
ghost use Rattle.std.specs.Prelude.{◌≡◌, option_copied, option_map, IfOk, OnOk, OnErr};
ghost use Rattle.std.specs.FinMap as map;
ghost use Rattle.canary_release.specs.Desks.{after};
ghost use Rattle.canary_release.specs.Stored.{stored_form};
ghost use Rattle.canary_once.specs.Records.{past_in, record_numbered};
ghost use Rattle.canary_once.specs.InMemory.{IsKeptAs};

use crate::kept_service::KeptService;
use crate::record::RunRecord;
use canary_base::error::Memory;
use canary_base::lists::Listed;
use canary_base::names::Name;
use canary_plan::line::Line;
use canary_release::effect::{Effect, Recorded};
use canary_release::service::Service;
use std::alloc::Global;
use std::collections::BTreeMap;
use std::marker::Model;

/// Services by name, which contracts see as a finite map of those of the model.
#[derive(Drop)]
pub(crate) struct Services {
    services: BTreeMap<Name, KeptService>,
}

impl Model for Services {
    ghost use Rattle.std.specs.Ordering.{nat_cmp};
    ghost use Rattle.std.specs.Cmp.Lexicographic.{slice_cmp};
    ghost use Rattle.std.specs.FinMap as map;
    ghost use Rattle.std.specs.Coded.{coded_ℕ, coded_list};
    ghost use Rattle.canary_release.specs.Desks.{ModelService};
    ghost use Rattle.canary_once.specs.ServiceCodes.{service_code};

    ghost Value = { map.FinMap (slice_cmp nat_cmp) ModelService };

    ghost coded = { map.code (coded_list coded_ℕ) service_code };

    ghost view = { λ s. map.from_entries s.services.entries };
}

impl Services {
    /// No services, which takes no memory.
    pub(crate) fn new(alloc: Global) -> Services
        ensures { result ≡ map.empty }
    {
        Services {
            services: BTreeMap::new(alloc),
        }
    }

    /// The service of that name.
    pub(crate) fn service(&self, name: Name) -> Option<&Service>
        ensures { option_copied result ≡ option_map stored_form (map.get self.now name) }
    {
        match self.kept(name) {
            Some(kept) => Some(kept.service()),
            None => None,
        }
    }

    /// The history of a service, oldest line first; none if there is no such service.
    pub(crate) fn history(&self, name: Name) -> &[Line]
        ensures { result.now ≡ (past_in (map.get self.now name)).history }
    {
        match self.kept(name) {
            Some(kept) => kept.history(),
            None => &[],
        }
    }

    /// The measurements of a service, in the order in which they were recorded; none if there is
    /// no such service.
    pub(crate) fn measurements(&self, name: Name) -> &[Recorded]
        ensures { result.now ≡ (past_in (map.get self.now name)).measurements }
    {
        match self.kept(name) {
            Some(kept) => kept.measurements(),
            None => &[],
        }
    }

    /// A run of a service, by its number, or `Memory`.
    pub(crate) fn run(
        &self,
        alloc: Global,
        name: Name,
        number: u32,
    ) -> Result<Option<RunRecord>, Memory>
        ensures { IfOk result (λ run.
            run ≡ record_numbered (past_in (map.get self.now name)) number) }
    {
        match self.kept(name) {
            Some(kept) => kept.run(alloc, number),
            None => Ok(None),
        }
    }

    /// A service, or a new one of that name, becomes this one by what happened, or `Memory`; the
    /// services are then as before. All memory is taken first, and what happened is moved.
    pub(crate) fn change(
        &mut self,
        alloc: Global,
        name: Name,
        service: Service,
        effects: Listed<Effect>,
    ) -> Result<(), Memory>
        requires { IsKeptAs (map.get self.old name) service effects }
        ensures ok { OnOk result (self.new
            ≡ map.insert self.old name (after (map.get self.old name) service.service effects)) }
        ensures err { OnErr result (self.new ≡ self.old) }
    {
        if let Some(kept) = self.services.get_mut(&name) {
            return kept.change(service, effects);
        }
        let kept = KeptService::new(alloc, service, effects)?;
        self.services.insert(name, kept)?;
        Ok(())
    }

    // The service of that name with its past, if there is one.
    fn kept(&self, name: Name) -> Option<&KeptService>
        ensures { option_copied result ≡ map.get self.now name }
    {
        self.services.get(&name)
    }
}
