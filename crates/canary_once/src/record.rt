//! What a book reports of a run.
ghost use Rattle.std.specs.Prelude.{◌≡◌, IfOk};

use canary_base::error::Memory;
use canary_base::lists::Listed;
use canary_base::moments::Moment;
use canary_metric::tally::Tally;
use canary_plan::bound_analysis::BoundAnalysis;
use canary_release::effect::Closing;
use std::alloc::Global;

/// A run of a service: its number, from 1 on; the step of its analysis, or none for the background;
/// this analysis, bound as it was when the run was opened; when it was started; how it was closed,
/// if it was; and one tally for each of its metrics, in order.
#[derive(Drop)]
pub struct RunRecord {
    pub number: u32,
    pub step: Option<u32>,
    pub analysis: BoundAnalysis,
    pub started: Moment,
    pub closed: Option<Closing>,
    pub tallies: Listed<Tally>,
}

impl RunRecord {
    /// A copy of it, or `Memory`.
    pub fn copy(&self, alloc: Global) -> Result<RunRecord, Memory>
        ensures { IfOk result (λ copy. copy ≡ self.now) }
    {
        Ok(RunRecord {
            number: self.number,
            step: self.step,
            analysis: self.analysis.copy()?,
            started: self.started,
            closed: self.closed,
            tallies: self.tallies.copy(alloc)?,
        })
    }
}
