//! A service, as a book in memory keeps it.
ghost use Rattle.std.specs.Prelude.{◌≡◌, IfOk, None, Some, OnOk, OnErr};
ghost use Rattle.canary_release.specs.Desks.{after};
ghost use Rattle.canary_release.specs.Stored.{stored_form};
ghost use Rattle.canary_once.specs.Records.{record_numbered};
ghost use Rattle.canary_once.specs.InMemory.{IsKeptAs};

use crate::kept_past::KeptPast;
use crate::record::RunRecord;
use canary_base::error::Memory;
use canary_base::lists::Listed;
use canary_base::names::{Label, Name};
use canary_plan::line::Line;
use canary_release::effect::{Effect, Recorded};
use canary_release::laws;
use canary_release::service::Service;
use std::alloc::Global;
use std::marker::Model;

/// A service with its past, which contracts see as one of the model: the command that made it, how
/// it stands, and its whole past.
#[derive(Drop)]
pub(crate) struct KeptService {
    /// The name and the version that the service was made with.
    name: Name,
    version: Label,
    service: Service,
    past: KeptPast,
}

impl Model for KeptService {
    ghost use Rattle.canary_release.specs.Desks.{ModelService};
    ghost use Rattle.canary_once.specs.ServiceCodes.{service_code};

    ghost Value = { ModelService };

    ghost coded = { service_code };

    ghost use Rattle.canary_once.specs.KeptServices.{kept_model, IsKeptWell};

    ghost view = { kept_model };

    ghost invariant = { IsKeptWell };
}

impl KeptService {
    /// A new service, with what happened as it was made, or `Memory`.
    pub(crate) fn new(
        alloc: Global,
        service: Service,
        effects: Listed<Effect>,
    ) -> Result<KeptService, Memory>
        requires { IsKeptAs None service effects }
        ensures { IfOk result (λ kept. kept ≡ after None service.service effects) }
    {
        laws::watching();
        let mut past = KeptPast::new(alloc);
        past.reserve(effects.as_slice())?;
        past.apply_effects(effects);
        Ok(KeptService {
            name: service.name(),
            version: service.version(),
            service,
            past,
        })
    }

    /// The service becomes this one by what happened, or `Memory`; it is then as before. All memory
    /// is taken first, and what happened is moved.
    pub(crate) fn change(&mut self, service: Service, effects: Listed<Effect>) -> Result<(), Memory>
        requires { IsKeptAs (Some self.old) service effects }
        ensures ok { OnOk result (self.new ≡ after (Some self.old) service.service effects) }
        ensures err { OnErr result (self.new ≡ self.old) }
    {
        laws::watching();
        self.past.reserve(effects.as_slice())?;
        self.past.apply_effects(effects);
        self.service = service;
        Ok(())
    }

    /// The run of that number, if there is one, or `Memory`.
    pub(crate) fn run(&self, alloc: Global, number: u32) -> Result<Option<RunRecord>, Memory>
        ensures { IfOk result (λ run. run ≡ record_numbered self.now.past number) }
    {
        match self.past.run(number) {
            Some(run) => run.record(alloc, self.service.open_runs()),
            None => Ok(None),
        }
    }

    /// The service, as it stands.
    pub(crate) fn service(&self) -> &Service
        ensures { result.now ≡ stored_form self.now }
    {
        &self.service
    }

    /// Its history, oldest line first.
    pub(crate) fn history(&self) -> &[Line]
        ensures { result.now ≡ self.now.past.history }
    {
        self.past.history.as_slice()
    }

    /// Its measurements, in the order in which they were recorded.
    pub(crate) fn measurements(&self) -> &[Recorded]
        ensures { result.now ≡ self.now.past.measurements }
    {
        self.past.measurements.as_slice()
    }
}
