//! Steps of a canary strategy.
ghost use Rattle.std.specs.Prelude.{◌≡◌, ◌≤◌, ℕ, IfOk};
ghost use Rattle.std.specs.Option.{SomeIff};

use canary_base::durations::Seconds;
use canary_base::error::Memory;
use canary_base::lists::Listed;
use canary_base::names::Name;
use std::alloc::Global;
use std::marker::Model;

/// The greatest weight that can be asked for. A strategy takes less (`MAX_WEIGHT`).
pub const MAX_WEIGHT_ASKED: u32 = 1_000_000;

/// A weight as a step asks for it, in percent: from 0 to 1,000,000.
#[derive(Clone, Copy, Debug, PartialEq, Eq)]
pub struct Weight {
    percent: u32,
}

impl Model for Weight {
    ghost Value = { ℕ };

    ghost view = { λ w. w.percent };

    ghost invariant = { λ w. w.percent ≤ 1000000 };

    ghost inverse = { λ n. record { percent = n } };
}

impl Weight {
    /// The weight of so many percent, or none above 1,000,000.
    pub fn new(percent: u64) -> Option<Weight>
        ensures { SomeIff result (percent ≤ MAX_WEIGHT_ASKED) percent }
    {
        let percent = u32::try_from(percent).ok()?;
        if percent <= MAX_WEIGHT_ASKED {
            Some(Weight { percent })
        } else {
            None
        }
    }

    /// The weight, in percent.
    pub fn get(self) -> u32
        ensures value { result ≡ self }
        ensures limit { result ≤ MAX_WEIGHT_ASKED }
    {
        self.percent
    }
}

/// A step of a canary strategy.
#[derive(Drop)]
pub enum Step {
    /// `setWeight`: that percentage of the traffic goes to the new version.
    SetWeight(Weight),
    /// `pause`: for so long, or until the release is promoted.
    Pause(Option<Seconds>),
    /// `analysis`: a run of the metrics of these templates.
    Analysis(Listed<Name>),
}

impl Step {
    /// A copy of it, or `Memory`.
    pub fn copy(&self, alloc: Global) -> Result<Step, Memory>
        ensures { IfOk result (λ copy. copy ≡ self.now) }
    {
        Ok(match self {
            Step::SetWeight(percent) => Step::SetWeight(*percent),
            Step::Pause(seconds) => Step::Pause(*seconds),
            Step::Analysis(names) => Step::Analysis(names.copy(alloc)?),
        })
    }
}

/// A copy of these steps, in order, or `Memory`.
pub fn copy_steps(alloc: Global, steps: &[Step]) -> Result<Listed<Step>, Memory>
    ensures { IfOk result (λ copies. copies ≡ steps.now) }
{
    let mut copies = Listed::of(Vec::new(alloc));
    for step in steps {
        copies.push(step.copy(alloc)?)?;
    }
    Ok(copies)
}
