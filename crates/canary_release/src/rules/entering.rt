//! Entering a step or the end, aborting, and passing time.
ghost use Rattle.std.specs.Prelude.{◌≡◌, ◌+◌, ◌≤◌, ◌<◌, Some, IfOk, slice_get};
ghost use Rattle.std.specs.Option.{option_copied};
ghost use Rattle.canary_plan.specs.declared.line.LineEvent.TheVariants.{AnalysisEntered};
ghost use Rattle.canary_release.specs.Evolutions.{tell, next_run, open_run};
ghost use Rattle.canary_release.specs.Evolutions.{end_run, end_runs, end_open_runs};
ghost use Rattle.canary_release.specs.Rules.Entering.{finish, begin_background};
ghost use Rattle.canary_release.specs.Rules.Entering.{open_background, show_step, enter, abort};
ghost use Rattle.canary_release.specs.Stored.{evolution_of, run_total};

use crate::runs::OpenRun;
use crate::state::{ReleaseState, ServiceState};
use crate::transition::Transition;
use canary_base::error::Memory;
use canary_base::moments::Moment;
use canary_plan::line::LineEvent;
use canary_plan::step::Step;
use canary_plan::strategy::Strategy;
use std::alloc::Global;

impl Transition {
    // A run is ended from outside.
    fn end_run(self, alloc: Global, at: Moment, run: &OpenRun) -> Result<Transition, Memory>
        ensures ended { IfOk result (λ t. evolution_of t ≡ end_run at (evolution_of self) run.now) }
        ensures service { IfOk result (λ transition. transition.service ≡ self.service) }
        ensures made { IfOk result (λ transition. run_total transition ≡ run_total self) }
    {
        let phase = run.verdict(true);
        let closed = self.close(alloc, run, at, true)?;
        closed.tell(
            at,
            LineEvent::Ended {
                run: run.number,
                phase,
            },
        )
    }

    /// The open runs are ended from outside, in the order of their numbers.
    pub(crate) fn end_open_runs(self, alloc: Global, at: Moment) -> Result<Transition, Memory>
        ensures ended { IfOk result (λ t. evolution_of t ≡ end_open_runs (evolution_of self) at) }
        ensures service { IfOk result (λ transition. transition.service ≡ self.service) }
        ensures made { IfOk result (λ transition. run_total transition ≡ run_total self) }
    {
        let runs = self.runs().copy(alloc)?.open_runs;
        self.end_runs(alloc, at, runs.as_slice())
    }

    // Ends these runs from outside, in order. A function of its own for its loop's invariant.
    fn end_runs(self, alloc: Global, at: Moment, runs: &[OpenRun]) -> Result<Transition, Memory>
        ensures ended { IfOk result
            (λ t. evolution_of t ≡ end_runs at (evolution_of self) runs.now) }
        ensures service { IfOk result (λ transition. transition.service ≡ self.service) }
        ensures made { IfOk result (λ transition. run_total transition ≡ run_total self) }
    {
        let mut transition = self;
        for run in runs {
            transition = transition.end_run(alloc, at, run)?;
        }
        Ok(transition)
    }

    // The end: open runs are ended, and the release is done with its version as the stable one.
    fn finish(self, alloc: Global, at: Moment) -> Result<Transition, Memory>
        ensures finished { IfOk result (λ t. evolution_of t ≡ finish (evolution_of self) at) }
        ensures on_step { IfOk result (λ t. (t.service.step ≡ self.service.step)
            × (t.service.strategy ≡ self.service.strategy)) }
        ensures made { IfOk result (λ transition. run_total transition ≡ run_total self) }
    {
        let Transition { service, tracked } = self.end_open_runs(alloc, at)?;
        let version = service.version;
        let service = ServiceState {
            stable: version,
            state: ReleaseState::Done,
            step_hold: false,
            background_hold: false,
            ..service
        };
        Transition { service, tracked }.tell(at, LineEvent::Finished { version })
    }

    // The background run is opened if it begins at this step.
    fn open_background(self, alloc: Global, step: u32, at: Moment) -> Result<Transition, Memory>
        requires { run_total self < 4294967295 }
        ensures opened { IfOk result
            (λ t. evolution_of t ≡ open_background (evolution_of self) step at) }
        ensures on_step { IfOk result (λ t. (t.service.step ≡ self.service.step)
            × (t.service.strategy ≡ self.service.strategy)) }
        ensures made { IfOk result (λ transition. run_total transition ≤ run_total self + 1) }
    {
        if self.service.begins_background(step) {
            self.begin_background(alloc, at)
        } else {
            Ok(self)
        }
    }

    // The background run is opened.
    fn begin_background(self, alloc: Global, at: Moment) -> Result<Transition, Memory>
        requires { run_total self < 4294967295 }
        ensures opened { IfOk result
            (λ t. evolution_of t ≡ begin_background (evolution_of self) at) }
        ensures on_step { IfOk result (λ t. (t.service.step ≡ self.service.step)
            × (t.service.strategy ≡ self.service.strategy)) }
        ensures made { IfOk result (λ transition. run_total transition ≡ run_total self + 1) }
    {
        let run = self.next_run();
        let Transition { service, tracked } = self;
        let service = ServiceState {
            background: true,
            ..service
        };
        let opened = Transition { service, tracked }.open(alloc, None, at)?;
        opened.tell(at, LineEvent::BackgroundOpened { run })
    }

    // The step's line, and its run if it is an analysis.
    fn show_step(
        self,
        alloc: Global,
        entered: Option<&Step>,
        step: u32,
        at: Moment,
    ) -> Result<Transition, Memory>
        requires { run_total self < 4294967295 }
        ensures shown { IfOk result (λ transition. evolution_of transition
            ≡ show_step (evolution_of self) (option_copied entered.entry) step at) }
        ensures service { IfOk result (λ transition. transition.service ≡ self.service) }
        ensures made { IfOk result (λ transition. run_total transition ≤ run_total self + 1) }
    {
        match entered {
            Some(Step::SetWeight(weight)) => {
                let weight = weight.get();
                self.tell(at, LineEvent::WeightEntered { step, weight })
            }
            Some(Step::Pause(None)) => self.tell(at, LineEvent::PauseEntered { step }),
            Some(Step::Pause(Some(seconds))) => {
                let seconds = *seconds;
                self.tell(at, LineEvent::TimedPauseEntered { step, seconds })
            }
            Some(Step::Analysis(_)) => self.enter_analysis(alloc, step, at),
            None => Ok(self),
        }
    }

    // The run of the analysis at a step is opened.
    fn enter_analysis(self, alloc: Global, step: u32, at: Moment) -> Result<Transition, Memory>
        requires { run_total self < 4294967295 }
        ensures shown { IfOk result (λ transition. evolution_of transition
            ≡ tell (open_run (evolution_of self) (Some step) at) at
            (AnalysisEntered step (next_run (evolution_of self)))) }
        ensures service { IfOk result (λ transition. transition.service ≡ self.service) }
        ensures made { IfOk result (λ transition. run_total transition ≡ run_total self + 1) }
    {
        let run = self.next_run();
        let opened = self.open(alloc, Some(step), at)?;
        opened.tell(at, LineEvent::AnalysisEntered { step, run })
    }

    /// Enters a step, or the end if the index is the number of steps.
    pub(crate) fn enter(self, alloc: Global, step: u32, at: Moment) -> Result<Transition, Memory>
        requires { run_total self + 1 < 4294967295 }
        ensures entered { IfOk result (λ t. evolution_of t ≡ enter (evolution_of self) step at) }
        ensures on_step { IfOk result (λ transition. (transition.service.step ≡ step)
            × (transition.service.strategy ≡ self.service.strategy)) }
        ensures made { IfOk result (λ transition. run_total transition ≤ run_total self + 2) }
    {
        let Transition { service, tracked } = self;
        let service = ServiceState {
            step,
            entered: at,
            ..service
        };
        let is_end = step as usize == service.strategy.steps().len();
        let there = Transition { service, tracked };
        if is_end {
            there.finish(alloc, at)
        } else {
            there.enter_step(alloc, step, at)
        }
    }

    // The background run is opened if it begins here, and the step is shown.
    fn enter_step(self, alloc: Global, step: u32, at: Moment) -> Result<Transition, Memory>
        requires { run_total self + 1 < 4294967295 }
        ensures entered { IfOk result (λ transition. evolution_of transition
            ≡ show_step (open_background (evolution_of self) step at)
            (slice_get self.service.strategy.steps step) step at) }
        ensures on_step { IfOk result (λ t. (t.service.step ≡ self.service.step)
            × (t.service.strategy ≡ self.service.strategy)) }
        ensures made { IfOk result (λ transition. run_total transition ≤ run_total self + 2) }
    {
        let strategy = self.service.strategy.copy()?;
        let opened = self.open_background(alloc, step, at)?;
        opened.show_step_of(alloc, &strategy, step, at)
    }

    // Adds the line of the step at that index, and opens its run if it is an analysis.
    fn show_step_of(
        self,
        alloc: Global,
        strategy: &Strategy,
        step: u32,
        at: Moment,
    ) -> Result<Transition, Memory>
        requires { run_total self < 4294967295 }
        ensures shown { IfOk result (λ transition. evolution_of transition
            ≡ show_step (evolution_of self) (slice_get strategy.now.steps step) step at) }
        ensures service { IfOk result (λ transition. transition.service ≡ self.service) }
        ensures made { IfOk result (λ transition. run_total transition ≤ run_total self + 1) }
    {
        self.show_step(alloc, step_at(strategy, step), step, at)
    }

    /// The release is aborted: holds are cleared, open runs are ended, and the step stays.
    pub(crate) fn abort(self, alloc: Global, at: Moment) -> Result<Transition, Memory>
        ensures aborted { IfOk result (λ t. evolution_of t ≡ abort (evolution_of self) at) }
        ensures on_step { IfOk result (λ t. (t.service.step ≡ self.service.step)
            × (t.service.strategy ≡ self.service.strategy)) }
        ensures made { IfOk result (λ transition. run_total transition ≡ run_total self) }
    {
        let Transition { service, tracked } = self;
        let service = ServiceState {
            state: ReleaseState::Aborted,
            step_hold: false,
            background_hold: false,
            ..service
        };
        Transition { service, tracked }.end_open_runs(alloc, at)
    }
}

// The step at an index.
fn step_at(strategy: &Strategy, step: u32) -> Option<&Step>
    ensures { option_copied result ≡ slice_get strategy.now.steps step }
{
    strategy.steps().get(step as usize)
}
