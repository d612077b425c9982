//! Analyses that are bound to revisions of templates.
ghost use Rattle.std.specs.Prelude.{◌≡◌, ◌≤◌, length, IfOk, IsTrue};
ghost use Rattle.canary_plan.specs.Fit.{has_few, no_analysis};

use crate::analysis_parts::{AnalysisParts, Revision};
use canary_base::error::Memory;
use canary_base::lists::Listed;
use canary_metric::metric::Metric;
use std::alloc::Global;
use std::marker::Model;
use std::rc::Rc;

/// An analysis that is bound, with at most 32 metrics. Its copies share it, so that a copy takes no
/// memory.
#[derive(Drop)]
pub struct BoundAnalysis {
    parts: Rc<AnalysisParts>,
}

impl Model for BoundAnalysis {
    ghost use Rattle.std.specs.Prelude.{IsTrue};
    ghost use Rattle.canary_plan.specs.Fit.{has_few};
    ghost use Rattle.canary_plan.specs.declared.analysis_parts.AnalysisParts.{AnalysisParts};
    ghost use Rattle.canary_plan.specs.contracts.analysis_parts.AnalysisParts.{the_row};

    ghost Value = { AnalysisParts };

    ghost coded = { the_row.coded };

    ghost view = { λ s. s.parts.value };

    ghost invariant = { λ s. IsTrue (has_few s.parts.value) };
}

impl BoundAnalysis {
    /// The analysis of these parts.
    pub(crate) fn of(alloc: Global, parts: AnalysisParts) -> Result<BoundAnalysis, Memory>
        requires { IsTrue (has_few parts) }
        ensures { IfOk result (λ analysis. analysis ≡ parts) }
    {
        let parts = Rc::new(alloc, parts)?;
        Ok(BoundAnalysis { parts })
    }

    /// That of no templates, or `Memory`.
    pub fn none(alloc: Global) -> Result<BoundAnalysis, Memory>
        ensures { IfOk result (λ analysis. analysis ≡ no_analysis) }
    {
        let parts = AnalysisParts {
            revisions: Listed::of(Vec::new(alloc)),
            metrics: Listed::of(Vec::new(alloc)),
        };
        BoundAnalysis::of(alloc, parts)
    }

    /// A copy of it, which takes no memory; `Memory` if it has as many copies as can be counted.
    pub fn copy(&self) -> Result<BoundAnalysis, Memory>
        ensures { IfOk result (λ copy. copy ≡ self.now) }
    {
        let parts = self.parts.clone()?;
        Ok(BoundAnalysis { parts })
    }

    /// The revisions of its templates, in order.
    pub fn revisions(&self) -> &[Revision]
        ensures value { result.now ≡ self.now.revisions }
    {
        self.parts.revisions.as_slice()
    }

    /// The metrics of its templates together, in order; at most 32.
    pub fn metrics(&self) -> &[Metric]
        ensures value { result.now ≡ self.now.metrics }
        ensures few { IsTrue (has_few self.now) }
        ensures limit { length result.now ≤ 32 }
    {
        self.parts.metrics.as_slice()
    }
}
