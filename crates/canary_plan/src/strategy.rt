//! Strategies that have been checked.
ghost use Rattle.std.specs.Prelude.{◌≡◌, IsTrue, IfOk, option_copied};
ghost use Rattle.std.specs.FinMap.{get};
ghost use Rattle.canary_plan.specs.Plans.{is_accepted, unbound, bound_of};
ghost use Rattle.canary_plan.specs.Checking.{IsChecked, IsBoundTo};

use crate::bound::{self, Bound};
use crate::checking;
use crate::fault::CheckFault;
use crate::service::{Background, ServiceSpec};
use crate::step::Step;
use crate::templates::Templates;
use canary_base::error::Memory;
use canary_base::lists::Listed;
use std::alloc::Global;
use std::marker::Model;
use std::rc::Rc;

/// The most steps of a strategy.
pub const MAX_STEPS: usize = 64;

/// The greatest weight, in percent.
pub const MAX_WEIGHT: u32 = 100;

/// What a strategy asks for: its steps, and its background analysis. Its analyses name templates.
#[derive(Drop)]
pub struct CheckedStrategy {
    pub steps: Listed<Step>,
    pub background: Option<Background>,
}

/// A strategy that was checked: at most 64 steps, no weight above 100, and 1 to 8 templates of each
/// analysis. Its copies share it, so that a copy takes no memory.
#[derive(Drop)]
pub struct Strategy {
    checked: Rc<CheckedStrategy>,
}

impl Model for Strategy {
    ghost use Rattle.std.specs.Prelude.{IsTrue};
    ghost use Rattle.canary_plan.specs.Plans.{is_accepted};
    ghost use Rattle.canary_plan.specs.declared.strategy.CheckedStrategy.{CheckedStrategy};
    ghost use Rattle.canary_plan.specs.contracts.strategy.CheckedStrategy.{the_row};

    ghost Value = { CheckedStrategy };

    ghost coded = { the_row.coded };

    ghost view = { λ s. s.checked.value };

    ghost invariant = { λ s. IsTrue (is_accepted s.checked.value) };
}

impl Strategy {
    /// The strategy that a service asks for, whose analyses name templates that are known.
    ///
    /// # Errors
    /// `Refused` with the first of these that holds: `UnknownTemplate` if a template of an
    /// analysis is not known; `BadStrategy` if there are more than 64 steps, a weight above 100,
    /// or an analysis with no template or more than 8. `Memory` in place of any.
    pub fn check(
        alloc: Global,
        spec: &ServiceSpec,
        known: &Templates,
    ) -> Result<Strategy, CheckFault>
        ensures { IsChecked (get known.now) spec.now result }
    {
        if let Some(refusal) = checking::refusal(alloc, spec, known)? {
            return Err(CheckFault::Refused(refusal));
        }
        let checked = checking::strategy_of(alloc, spec)?;
        Ok(Strategy::of(alloc, checked)?)
    }

    // The strategy that was checked.
    fn of(alloc: Global, checked: CheckedStrategy) -> Result<Strategy, Memory>
        requires { IsTrue (is_accepted checked) }
        ensures { IfOk result (λ strategy. strategy ≡ checked) }
    {
        let checked = Rc::new(alloc, checked)?;
        Ok(Strategy { checked })
    }

    /// What it is bound to by the templates that are known: its analyses with the revisions of
    /// their templates, and their metrics.
    ///
    /// # Errors
    /// `Refused` with the first of these that holds: `DuplicateMetric` if two metrics of one
    /// analysis have one name, among the templates that are known; `EndlessMetric` if a step's
    /// analysis has a metric with neither an effective count nor a number of successes in a row;
    /// `BadStrategy` if a template of an analysis is not known, or an analysis has no metric or
    /// more than 32. `Memory` in place of any.
    pub fn bind(&self, alloc: Global, known: &Templates) -> Result<Bound, CheckFault>
        ensures { IsBoundTo (get known.now) self.now result }
    {
        if let Some(refusal) = checking::bound_refusal(alloc, self, known)? {
            return Err(CheckFault::Refused(refusal));
        }
        Ok(self.bound_to(alloc, known)?)
    }

    /// It with no analysis bound, or `Memory`.
    pub fn unbound(&self, alloc: Global) -> Result<Bound, Memory>
        ensures { IfOk result (λ bound. bound ≡ unbound self.now) }
    {
        self.bound_to(alloc, &Templates::new(alloc))
    }

    /// What these templates bind it to, whether or not binding would refuse it: each analysis whose
    /// templates are all there, with 1 to 32 metrics together, and no other; or `Memory`.
    pub fn bound_to(&self, alloc: Global, known: &Templates) -> Result<Bound, Memory>
        ensures { IfOk result (λ bound. bound ≡ bound_of (get known.now) self.now) }
    {
        let parts = bound::bound_parts(alloc, self.steps(), self.background(), known)?;
        Bound::of(alloc, parts)
    }

    /// A copy of it, which takes no memory; `Memory` if it has as many copies as can be counted.
    pub fn copy(&self) -> Result<Strategy, Memory>
        ensures { IfOk result (λ copy. copy ≡ self.now) }
    {
        let checked = self.checked.clone()?;
        Ok(Strategy { checked })
    }

    /// Its steps.
    pub fn steps(&self) -> &[Step]
        ensures value { result.now ≡ self.now.steps }
        ensures accepted { IsTrue (is_accepted self.now) }
    {
        self.checked.steps.as_slice()
    }

    /// Its background analysis, if it has one.
    pub fn background(&self) -> Option<&Background>
        ensures { option_copied result ≡ self.now.background }
    {
        self.checked.background.as_ref()
    }
}
