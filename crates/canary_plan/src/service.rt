//! Services as they are asked for.
ghost use Rattle.std.specs.Prelude.{◌≡◌, ◌≤◌, ℕ, IfOk};
ghost use Rattle.std.specs.Option.{SomeIff};

use crate::step::{Step, copy_steps};
use canary_base::error::Memory;
use canary_base::lists::Listed;
use canary_base::names::{Label, Name};
use std::alloc::Global;
use std::marker::Model;

/// The last step at which a background analysis can be asked to begin, from 0.
pub const MAX_STARTING_STEP: u32 = 64;

/// The step at which a background analysis begins: from 0 to 64.
#[derive(Clone, Copy, Debug, PartialEq, Eq)]
pub struct StartingStep {
    step: u32,
}

impl Model for StartingStep {
    ghost Value = { ℕ };

    ghost view = { λ s. s.step };

    ghost invariant = { λ s. s.step ≤ 64 };

    ghost inverse = { λ n. record { step = n } };
}

impl StartingStep {
    /// That step, or none above 64.
    pub fn new(step: u64) -> Option<StartingStep>
        ensures { SomeIff result (step ≤ MAX_STARTING_STEP) step }
    {
        let step = u32::try_from(step).ok()?;
        if step <= MAX_STARTING_STEP {
            Some(StartingStep { step })
        } else {
            None
        }
    }

    /// The step, from 0.
    pub fn get(self) -> u32
        ensures value { result ≡ self }
        ensures limit { result ≤ MAX_STARTING_STEP }
    {
        self.step
    }
}

/// A background analysis, which begins at a step or at a later one.
#[derive(Drop)]
pub struct Background {
    pub templates: Listed<Name>,
    pub starting_step: StartingStep,
}

impl Background {
    /// A copy of it, or `Memory`.
    pub fn copy(&self, alloc: Global) -> Result<Background, Memory>
        ensures { IfOk result (λ copy. copy ≡ self.now) }
    {
        Ok(Background {
            templates: self.templates.copy(alloc)?,
            starting_step: self.starting_step,
        })
    }
}

/// A service as it is asked for.
#[derive(Drop)]
pub struct ServiceSpec {
    pub name: Name,
    pub version: Label,
    pub steps: Listed<Step>,
    pub background: Option<Background>,
}

impl ServiceSpec {
    /// A copy of it, or `Memory`.
    pub fn copy(&self, alloc: Global) -> Result<ServiceSpec, Memory>
        ensures { IfOk result (λ copy. copy ≡ self.now) }
    {
        Ok(ServiceSpec {
            name: self.name,
            version: self.version,
            steps: copy_steps(alloc, self.steps.as_slice())?,
            background: copy_background(alloc, &self.background)?,
        })
    }
}

/// A copy of a background analysis, if there is one, or `Memory`.
pub(crate) fn copy_background(
    alloc: Global,
    background: &Option<Background>,
) -> Result<Option<Background>, Memory>
    ensures { IfOk result (λ copy. copy ≡ background.now) }
{
    match background {
        None => Ok(None),
        Some(background) => Ok(Some(background.copy(alloc)?)),
    }
}
