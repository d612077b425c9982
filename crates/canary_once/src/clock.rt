//! Clocks.
ghost use Rattle.std.specs.Prelude.{◌≡◌, ◌↔◌, ℕ, ◌+◌, ◌≤◌, min};
ghost use Rattle.canary_once.specs.Ticks.{TellsSteps};

use canary_base::moments::{MAX_MOMENT, Moment};
use std::marker::Model;

/// A clock, which is asked once for each message.
pub trait Clock {
    ghost use Rattle.std.specs.Prelude.{◌≡◌, ℕ, ◌+◌};
    ghost use Rattle.canary_base.specs.declared.moments.Moment.{Moment};

    /// Which moments it gives from now on: `tells clock moment_at` says that its next moment is
    /// `moment_at 0`, the one after it `moment_at 1`, and so on.
    ghost tells: { Self → (ℕ → Moment) → Type 0 };

    /// The first coming moment; each other moves up by one.
    fn now(&mut self) -> Moment
        ensures { (moment_at : ℕ → Moment) → tells self.old moment_at
            → (result ≡ moment_at 0) × tells self.new (λ k. moment_at (k + 1)) };
}

/// A clock that gives `at`, `at + step` and so on, each at most the greatest moment. Contracts see
/// it as its next moment and its step, in seconds.
#[derive(Clone, Copy, Debug)]
pub struct StepClock {
    at: Moment,
    step: Moment,
}

impl Model for StepClock {
    ghost use Rattle.std.specs.Prelude.{ℕ};

    ghost Value = { ℕ × ℕ };

    ghost view = { λ c. (c.at, c.step) };

    ghost inverse = { λ v. record { at = v.0; step = v.1 } };
}

impl StepClock {
    /// A clock whose first moment is `at`, and each next one `step` seconds later, at most the
    /// greatest moment: these are the moments that it gives.
    pub fn new(at: Moment, step: Moment) -> StepClock
        ensures value { result ≡ (at, step) }
        ensures tells { (moment_at : ℕ → ℕ) → TellsSteps at step moment_at
            ↔ ⟦<StepClock as Clock>⟧.tells result moment_at }
    {
        StepClock { at, step }
    }
}

impl Clock for StepClock {
    ghost use Rattle.canary_once.specs.Ticks.{TellsSteps};

    ghost tells = { λ c moment_at. TellsSteps c.0 c.1 moment_at };

    // The coming moment; the clock moves on by its step, to the greatest moment at most.
    fn now(&mut self) -> Moment {
        let now = self.at;
        self.at = later(now, self.step);
        now
    }
}

// So many seconds later, at most the greatest moment.
fn later(at: Moment, step: Moment) -> Moment
    ensures value { result ≡ min (at + step) MAX_MOMENT }
    ensures limit { at ≤ MAX_MOMENT }
{
    let seconds = (at.get() + step.get()).min(MAX_MOMENT);
    Moment::new(seconds).unwrap()
}
