//! What happens to a service's runs, one thing after another.
ghost use Rattle.std.specs.Prelude.{◌≡◌, ◌++◌, ◌<◌, [], ◌∷◌, true, IfOk};
ghost use Rattle.canary_release.specs.Rules.Recording.{has_room};
ghost use Rattle.canary_release.specs.declared.effect.Effect.TheVariants as effect;
ghost use Rattle.canary_release.specs.Watching.{after_all};

use crate::effect::{Closing, Effect, Opening, Recorded};
use crate::runs::Runs;
use canary_base::error::Memory;
use canary_base::lists::Listed;
use canary_metric::tally::Tally;
use canary_plan::line::Line;
use std::alloc::Global;
use std::marker::Model;

/// What was kept of a service's runs, and what happened since, in order.
#[derive(Drop)]
pub struct EffectLog {
    pub kept: Runs,
    pub effects: Listed<Effect>,
}

impl EffectLog {
    // One thing more happened.
    fn with(self, happened: Effect) -> Result<EffectLog, Memory>
        ensures { IfOk result (λ log. log
            ≡ record self { effects = self.effects ++ happened ∷ [] }) }
    {
        let EffectLog { kept, effects } = self;
        let mut effects = effects;
        effects.push(happened)?;
        Ok(EffectLog { kept, effects })
    }
}

/// An effect log, with the runs as they are now.
#[derive(Drop)]
pub(crate) struct TrackedRuns {
    log: EffectLog,
    runs: Runs,
}

impl Model for TrackedRuns {
    ghost use Rattle.std.specs.Prelude.{◌≡◌};
    ghost use Rattle.canary_release.specs.Watching.{after_all};
    ghost use Rattle.canary_release.specs.declared.effect_log.EffectLog.{EffectLog};
    ghost use Rattle.canary_release.specs.contracts.effect_log.EffectLog.{the_row};

    ghost Value = { EffectLog };

    ghost coded = { the_row.coded };

    ghost view = { λ w. w.log };

    ghost invariant = { λ w. w.runs ≡ after_all w.log.kept w.log.effects };
}

impl TrackedRuns {
    /// Nothing happened to these runs.
    pub(crate) fn of(alloc: Global, runs: &Runs) -> Result<TrackedRuns, Memory>
        ensures { IfOk result (λ tracked. tracked ≡ record { kept = runs.now; effects = [] }) }
    {
        let log = EffectLog {
            kept: runs.copy(alloc)?,
            effects: Listed::of(Vec::new(alloc)),
        };
        let runs = runs.copy(alloc)?;
        Ok(TrackedRuns { log, runs })
    }

    /// The runs as they are now.
    pub(crate) fn runs(&self) -> &Runs
        ensures { result.now ≡ after_all self.now.kept self.now.effects }
    {
        &self.runs
    }

    /// A line is added.
    #[tactic(auto, using(crate::proofs::Pushes::after_all_push))]
    pub(crate) fn told(self, line: Line) -> Result<TrackedRuns, Memory>
        ensures { IfOk result (λ tracked. tracked
            ≡ record self { effects = self.effects ++ effect.LineAdded line ∷ [] }) }
    {
        let TrackedRuns { log, runs } = self;
        let log = log.with(Effect::LineAdded(line))?;
        Ok(TrackedRuns { log, runs })
    }

    /// A run is opened.
    #[tactic(auto, using(crate::proofs::Pushes::after_all_push))]
    pub(crate) fn opened(self, alloc: Global, opening: Opening) -> Result<TrackedRuns, Memory>
        requires { (after_all self.kept self.effects).count < 4294967295 }
        ensures { IfOk result (λ tracked. tracked
            ≡ record self { effects = self.effects ++ effect.RunOpened opening ∷ [] }) }
    {
        let TrackedRuns { log, runs } = self;
        let runs = runs.opened(alloc, &opening)?;
        let log = log.with(Effect::RunOpened(opening))?;
        Ok(TrackedRuns { log, runs })
    }

    /// A measurement is recorded.
    #[tactic(auto, using(crate::proofs::Pushes::after_all_push))]
    pub(crate) fn measured(self, alloc: Global, recorded: Recorded) -> Result<TrackedRuns, Memory>
        requires { has_room (after_all self.kept self.effects) recorded ≡ true }
        ensures { IfOk result (λ tracked. tracked
            ≡ record self { effects = self.effects ++ effect.MeasurementRecorded recorded ∷ [] }) }
    {
        let TrackedRuns { log, runs } = self;
        let runs = runs.measured(alloc, &recorded);
        let log = log.with(Effect::MeasurementRecorded(recorded))?;
        Ok(TrackedRuns { log, runs })
    }

    /// A run is closed, with its last tallies.
    #[tactic(auto, using(crate::proofs::Pushes::after_all_push))]
    pub(crate) fn closed(
        self,
        closing: Closing,
        tallies: Listed<Tally>,
    ) -> Result<TrackedRuns, Memory>
        ensures { IfOk result (λ tracked. tracked
            ≡ record self { effects = self.effects ++ effect.RunClosed closing tallies ∷ [] }) }
    {
        let TrackedRuns { log, runs } = self;
        let runs = runs.closed(&closing);
        let log = log.with(Effect::RunClosed { closing, tallies })?;
        Ok(TrackedRuns { log, runs })
    }

    /// The runs as they are now, and what happened.
    pub(crate) fn end(self) -> (Runs, Listed<Effect>)
        ensures { result ≡ (after_all self.kept self.effects, self.effects) }
    {
        let TrackedRuns { log, runs } = self;
        (runs, log.effects)
    }
}
