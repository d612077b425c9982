//! A service as it changes.
ghost use Rattle.std.specs.Prelude.{◌≡◌, ◌+◌, ◌<◌, ◌≤◌, true, IfOk, IsTrue};
ghost use Rattle.std.specs.Option.{option_copied};
ghost use Rattle.canary_release.specs.declared.effect.Effect.TheVariants as effect;
ghost use Rattle.canary_release.specs.Evolutions.{apply_effect, tell, runs_now, open_run_now, run_verdict};
ghost use Rattle.canary_release.specs.Evolutions.{next_run, open_run, close_run, end_run};
ghost use Rattle.canary_release.specs.Rules.Passing.{judged_at, with_last};
ghost use Rattle.canary_release.specs.Rules.Recording.{has_room, have_room};
ghost use Rattle.canary_release.specs.Rules.Reports.{record_all};
ghost use Rattle.canary_release.specs.Watching.{effect_applied};
ghost use Rattle.canary_release.specs.Stored.{stored_evolution, evolution_of, stored_after, run_total};

use crate::effect::{Closing, Effect, Opening, Recorded};
use crate::effect_log::TrackedRuns;
use crate::runs::{OpenRun, Runs};
use crate::service::ServiceParts;
use crate::state::ServiceState;
use canary_base::error::Memory;
use canary_base::lists::Listed;
use canary_base::moments::Moment;
use canary_plan::line::{Line, LineEvent};
use std::alloc::Global;

/// A service as it changes: how it stands, and what happened so far.
#[derive(Drop)]
pub(crate) struct Transition {
    pub service: ServiceState,
    pub tracked: TrackedRuns,
}

impl Transition {
    /// A service with nothing changed.
    pub(crate) fn of(alloc: Global, parts: &ServiceParts) -> Result<Transition, Memory>
        ensures { IfOk result (λ t. evolution_of t ≡ stored_evolution parts.now) }
    {
        Ok(Transition {
            service: parts.service.copy()?,
            tracked: TrackedRuns::of(alloc, &parts.runs)?,
        })
    }

    /// What is kept of it in the end, and what happened.
    pub(crate) fn end(self) -> (ServiceParts, Listed<Effect>)
        ensures { result ≡ (stored_after (evolution_of self), (evolution_of self).effects) }
    {
        let Transition { service, tracked } = self;
        let (runs, effects) = tracked.end();
        (ServiceParts { service, runs }, effects)
    }

    /// Its runs, as they are now.
    pub(crate) fn runs(&self) -> &Runs
        ensures { result.now ≡ runs_now (evolution_of self.now) }
    {
        self.tracked.runs()
    }

    /// The open run of that number, if there is one.
    pub(crate) fn open_run_now(&self, number: u32) -> Option<&OpenRun>
        ensures { option_copied result ≡ open_run_now (evolution_of self.now) number }
    {
        self.runs().open_run(number)
    }

    /// With one more line of the history.
    #[tactic(auto, using(crate::proofs::Pushes::after_all_push))]
    pub(crate) fn tell(self, moment: Moment, event: LineEvent) -> Result<Transition, Memory>
        ensures told { IfOk result (λ t. evolution_of t ≡ tell (evolution_of self) moment event) }
        ensures service { IfOk result (λ transition. transition.service ≡ self.service) }
        ensures made { IfOk result (λ transition. run_total transition ≡ run_total self) }
    {
        let Transition { service, tracked } = self;
        let tracked = tracked.told(Line { moment, event })?;
        Ok(Transition { service, tracked })
    }

    /// The number of the next run.
    pub(crate) fn next_run(&self) -> u32
        requires { run_total self.now < 4294967295 }
        ensures { result ≡ next_run (evolution_of self.now) }
    {
        self.runs().count + 1
    }

    /// The next run is opened, of the analysis that is bound at a step or behind it.
    #[tactic(auto, using(crate::proofs::Pushes::after_all_push))]
    pub(crate) fn open(
        self,
        alloc: Global,
        step: Option<u32>,
        at: Moment,
    ) -> Result<Transition, Memory>
        requires { run_total self < 4294967295 }
        ensures opened { IfOk result (λ t. evolution_of t ≡ open_run (evolution_of self) step at) }
        ensures service { IfOk result (λ transition. transition.service ≡ self.service) }
        ensures made { IfOk result (λ transition. run_total transition ≡ run_total self + 1) }
    {
        let opening = Opening {
            run: self.next_run(),
            step,
            analysis: self.service.bound.analysis_or_none(alloc, step)?,
            started: at,
        };
        let Transition { service, tracked } = self;
        let tracked = tracked.opened(alloc, opening)?;
        Ok(Transition { service, tracked })
    }

    /// A run is closed at its verdict.
    #[tactic(auto, using(crate::proofs::Pushes::after_all_push))]
    pub(crate) fn close(
        self,
        alloc: Global,
        run: &OpenRun,
        at: Moment,
        outside: bool,
    ) -> Result<Transition, Memory>
        ensures closed { IfOk result (λ transition. evolution_of transition
            ≡ close_run (evolution_of self) run.now at outside) }
        ensures service { IfOk result (λ transition. transition.service ≡ self.service) }
        ensures made { IfOk result (λ transition. run_total transition ≡ run_total self) }
    {
        let closing = Closing {
            run: run.number,
            at,
            outside,
            verdict: run.verdict(outside),
        };
        let Transition { service, tracked } = self;
        let tracked = tracked.closed(closing, run.tallies.copy(alloc)?)?;
        Ok(Transition { service, tracked })
    }

    /// A measurement is recorded.
    #[tactic(auto, using(crate::proofs::Pushes::after_all_push))]
    fn record(self, alloc: Global, recorded: Recorded) -> Result<Transition, Memory>
        requires { has_room (runs_now (evolution_of self)) recorded ≡ true }
        ensures recorded { IfOk result (λ transition. evolution_of transition
            ≡ apply_effect (evolution_of self) (effect.MeasurementRecorded recorded)) }
        ensures runs { IfOk result (λ t. runs_now (evolution_of t)
            ≡ effect_applied (runs_now (evolution_of self)) (effect.MeasurementRecorded recorded)) }
        ensures service { IfOk result (λ transition. transition.service ≡ self.service) }
        ensures made { IfOk result (λ transition. run_total transition ≡ run_total self) }
    {
        let Transition { service, tracked } = self;
        let tracked = tracked.measured(alloc, recorded)?;
        Ok(Transition { service, tracked })
    }

    /// Measurements are recorded, one after another.
    #[tactic(auto, using(crate::proofs::Counting::both))]
    pub(crate) fn record_all(
        self,
        alloc: Global,
        measurements: &[Recorded],
    ) -> Result<Transition, Memory>
        requires { have_room (runs_now (evolution_of self)) measurements.now ≡ true }
        ensures recorded { IfOk result (λ transition. evolution_of transition
            ≡ record_all (evolution_of self) measurements.now) }
        ensures service { IfOk result (λ transition. transition.service ≡ self.service) }
        ensures made { IfOk result (λ transition. run_total transition ≡ run_total self) }
    {
        let mut transition = self;
        for recorded in measurements {
            transition = transition.record(alloc, recorded.copy(alloc)?)?;
        }
        Ok(transition)
    }

    /// The later of a moment and the last one.
    pub(crate) fn judged_at(&self, now: Moment) -> Moment
        ensures { result ≡ judged_at self.now.service now }
    {
        self.service.judged_at(now)
    }

    /// Judged last at that moment.
    pub(crate) fn with_last(self, at: Moment) -> Transition
        ensures { evolution_of result ≡ with_last (evolution_of self) at }
    {
        let Transition { service, tracked } = self;
        let service = ServiceState {
            last: at,
            ..service
        };
        Transition { service, tracked }
    }
}
