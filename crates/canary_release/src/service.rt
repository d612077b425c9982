//! Services: what the desk keeps of each.
ghost use Rattle.std.specs.Prelude.{◌≡◌, false, IfOk, IsTrue};
ghost use Rattle.canary_plan.specs.Plans.{is_accepted, are_fit};
ghost use Rattle.canary_release.specs.Services.{status, weight};
ghost use Rattle.canary_release.specs.Rules.Passing.{pass};
ghost use Rattle.canary_release.specs.Parts.{is_broken};
ghost use Rattle.canary_release.specs.Stored.{stored_evolution, stored_after, evolution_of};

use crate::effect::{Effect, copy_effects};
use crate::laws;
use crate::rules::commands::recall_bounds;
use crate::runs::{OpenRun, Runs};
use crate::state::{ReleaseState, ServiceState, Status};
use crate::transition::Transition;
use canary_base::error::Memory;
use canary_base::lists::Listed;
use canary_base::moments::Moment;
use canary_base::names::{Label, Name};
use canary_plan::bound::Bound;
use canary_plan::strategy::Strategy;
use std::alloc::Global;
use std::marker::Model;

/// What a service is made of: how it stands, and what is kept of its runs.
#[derive(Drop)]
pub struct ServiceParts {
    pub service: ServiceState,
    pub runs: Runs,
}

impl ServiceParts {
    /// A copy of them, or `Memory`.
    pub fn copy(&self, alloc: Global) -> Result<ServiceParts, Memory>
        ensures { IfOk result (λ copy. copy ≡ self.now) }
    {
        Ok(ServiceParts {
            service: self.service.copy()?,
            runs: self.runs.copy(alloc)?,
        })
    }
}

/// A service: parts that are not broken.
#[derive(Drop)]
pub struct Service {
    parts: ServiceParts,
}

impl Model for Service {
    ghost use Rattle.std.specs.Prelude.{◌≡◌, false};
    ghost use Rattle.canary_release.specs.Parts.{is_broken};
    ghost use Rattle.canary_release.specs.declared.service.ServiceParts.{ServiceParts};
    ghost use Rattle.canary_release.specs.contracts.service.ServiceParts.{the_row};

    ghost Value = { ServiceParts };

    ghost coded = { the_row.coded };

    ghost view = { λ s. s.parts };

    ghost invariant = { λ s. is_broken s.parts ≡ false };
}

impl Service {
    ghost use Rattle.canary_release.specs.Stored.{IsPassing};

    /// A service of these parts.
    pub(crate) fn of(parts: ServiceParts) -> Service
        requires { is_broken parts ≡ false }
        ensures { result ≡ parts }
    {
        Service { parts }
    }

    /// What it is made of.
    pub fn parts(&self) -> &ServiceParts
        ensures value { result.now ≡ self.now }
        ensures unbroken { is_broken self.now ≡ false }
    {
        &self.parts
    }

    // The service with nothing changed.
    fn transition(&self, alloc: Global) -> Result<Transition, Memory>
        ensures unchanged { IfOk result (λ t. evolution_of t ≡ stored_evolution self.now) }
        ensures unbroken { IfOk result (λ t. is_broken (stored_after (evolution_of t)) ≡ false) }
    {
        Transition::of(alloc, &self.parts)
    }

    /// The limits of its strategy, which a checked strategy promises, and those of the analyses to
    /// which it is bound.
    pub(crate) fn recall_checked_strategy(&self)
        ensures accepted { IsTrue (is_accepted self.now.service.strategy) }
        ensures fit { IsTrue (are_fit self.now.service.bound) }
        ensures unbroken { is_broken self.now ≡ false }
    {
        let _steps = self.parts.service.strategy.steps();
        let _fit = self.parts.service.bound.analysis(None);
    }

    /// The service passed to a moment, as it changes.
    pub(crate) fn passed_transition(&self, alloc: Global, now: Moment) -> Result<Transition, Memory>
        ensures passed { IfOk result (λ t. evolution_of t ≡ pass (stored_evolution self.now) now) }
        ensures unbroken { IfOk result (λ t. is_broken (stored_after (evolution_of t)) ≡ false) }
    {
        laws::parts();
        self.recall_checked_strategy();
        let transition = self.transition(alloc)?;
        recall_bounds(&transition);
        transition.pass(alloc, now)
    }

    /// The service passed to a moment, or to its last one if that is later: to the end of the
    /// longest chain of moves up to then, with the effects along the chain. The service itself
    /// stays as it is.
    ///
    /// # Errors
    /// `Memory`.
    pub fn passed(&self, alloc: Global, now: Moment) -> Result<Passed, Memory>
        ensures { IfOk result (λ passed. IsPassing self.now now passed) }
    {
        let transition = self.passed_transition(alloc, now)?;
        let (parts, effects) = transition.end();
        Ok(Passed {
            service: Service::of(parts),
            effects,
        })
    }

    /// A copy of it, or `Memory`.
    pub fn copy(&self, alloc: Global) -> Result<Service, Memory>
        ensures { IfOk result (λ copy. copy ≡ self.now) }
    {
        let parts = self.parts.copy(alloc)?;
        Ok(Service { parts })
    }

    /// Its name.
    pub fn name(&self) -> Name
        ensures value { result ≡ self.now.service.name }
    {
        self.parts.service.name
    }

    /// Its strategy.
    pub fn strategy(&self) -> &Strategy
        ensures value { result.now ≡ self.now.service.strategy }
    {
        &self.parts.service.strategy
    }

    /// The revisions of templates to which its last attempt is bound; none if no release was
    /// begun.
    pub fn bound(&self) -> &Bound
        ensures value { result.now ≡ self.now.service.bound }
    {
        &self.parts.service.bound
    }

    /// Its stable version.
    pub fn stable(&self) -> Label
        ensures value { result ≡ self.now.service.stable }
    {
        self.parts.service.stable
    }

    /// The version of its last release, or the stable one if there was none.
    pub fn version(&self) -> Label
        ensures value { result ≡ self.now.service.version }
    {
        self.parts.service.version
    }

    /// Whether a release is going on.
    pub fn state(&self) -> ReleaseState
        ensures value { result ≡ self.now.service.state }
    {
        self.parts.service.state
    }

    /// The present step, from 0; the number of steps at the end.
    pub fn step(&self) -> u32
        ensures value { result ≡ self.now.service.step }
    {
        self.parts.service.step
    }

    /// When the present step was entered.
    pub fn entered(&self) -> Moment
        ensures value { result ≡ self.now.service.entered }
    {
        self.parts.service.entered
    }

    /// Whether the release is held, since the run of the present step was inconclusive.
    pub fn step_hold(&self) -> bool
        ensures value { result ≡ self.now.service.step_hold }
    {
        self.parts.service.step_hold
    }

    /// Whether the release is held, since the background run was inconclusive.
    pub fn background_hold(&self) -> bool
        ensures value { result ≡ self.now.service.background_hold }
    {
        self.parts.service.background_hold
    }

    /// Whether the background run was opened in the present attempt.
    pub fn background(&self) -> bool
        ensures value { result ≡ self.now.service.background }
    {
        self.parts.service.background
    }

    /// The last moment at which the service was judged.
    pub fn last(&self) -> Moment
        ensures value { result ≡ self.now.service.last }
    {
        self.parts.service.last
    }

    /// How many runs it has had.
    pub fn run_count(&self) -> u32
        ensures value { result ≡ self.now.runs.count }
    {
        self.parts.runs.count
    }

    /// Its open runs: by number in a service that the desk made, and in the order given in one that
    /// was made by `from_parts`.
    pub fn open_runs(&self) -> &[OpenRun]
        ensures value { result.now ≡ self.now.runs.open_runs }
    {
        self.parts.runs.open_runs.as_slice()
    }

    /// Its status: Healthy if the release is done, Degraded if it is aborted, Paused if it
    /// is held or at a pause, else Progressing.
    pub fn status(&self) -> Status
        ensures { result ≡ status self.now.service }
    {
        self.parts.service.status()
    }

    /// The weight of the new version, in percent: 0 if the release is aborted, 100 if it is
    /// done, else the last weight set at or before the present step, or 0.
    pub fn weight(&self) -> u32
        ensures { result ≡ weight self.now.service }
    {
        self.parts.service.weight()
    }
}

/// A service that was passed to a moment, with what happened on the way, in order.
#[derive(Drop)]
pub struct Passed {
    pub service: Service,
    pub effects: Listed<Effect>,
}

impl Passed {
    /// A copy of it, or `Memory`.
    pub fn copy(&self, alloc: Global) -> Result<Passed, Memory>
        ensures { IfOk result (λ copy. copy ≡ self.now) }
    {
        Ok(Passed {
            service: self.service.copy(alloc)?,
            effects: copy_effects(alloc, self.effects.as_slice())?,
        })
    }
}
