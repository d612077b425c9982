//! Passing time: a chain of moves.
ghost use Rattle.std.specs.Prelude.{◌≡◌, ◌≤◌, IfOk};
ghost use Rattle.canary_release.specs.Rules.Passing.{followed, pass};
ghost use Rattle.canary_release.specs.Stored.{evolution_of, run_total};

use crate::transition::Transition;
use canary_base::error::Memory;
use canary_base::moments::Moment;
use std::alloc::Global;

impl Transition {
    // Follows the moves by time up to a moment.
    fn follow(self, alloc: Global, until: Moment) -> Result<Transition, Memory>
        requires { run_total self ≤ 2000000 }
        ensures { IfOk result (λ t. evolution_of t ≡ followed (evolution_of self) until) }
    {
        let mut transition = self;
        while let Some(moment) = transition.service.next_move_by(until) {
            let next = transition.service.step + 1;
            transition = transition.enter(alloc, next, moment)?;
        }
        Ok(transition)
    }

    /// Lets time pass up to a moment, or up to the last one if that is later.
    pub(crate) fn pass(self, alloc: Global, now: Moment) -> Result<Transition, Memory>
        requires { run_total self ≤ 2000000 }
        ensures { IfOk result (λ t. evolution_of t ≡ pass (evolution_of self) now) }
    {
        let at = self.judged_at(now);
        let transition = self.follow(alloc, at)?;
        Ok(transition.with_last(at))
    }
}
