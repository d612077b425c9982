//! What a book in memory keeps of a run.
ghost use Rattle.std.specs.Prelude.{◌≡◌, IfOk, find, Some};
ghost use Rattle.std.specs.Option.{option_copied};
ghost use Rattle.canary_release.specs.Evolutions.{has_number};
ghost use Rattle.canary_once.specs.Kept.{closing_of, tallies_in, record_among};

use crate::record::RunRecord;
use canary_base::error::Memory;
use canary_base::lists::Listed;
use canary_metric::tally::Tally;
use canary_release::effect::{Closing, Opening};
use canary_release::runs::OpenRun;
use std::alloc::Global;

/// How a run was closed, with the last tallies of its metrics, in order.
#[derive(Drop)]
pub(crate) struct ClosedRun {
    pub closing: Closing,
    pub tallies: Listed<Tally>,
}

/// A run as it was opened and, once it is closed, how. The tallies of an open run stand in its
/// service.
#[derive(Drop)]
pub(crate) struct KeptRun {
    pub opening: Opening,
    pub closed: Option<ClosedRun>,
}

impl KeptRun {
    /// What is reported of it, or `Memory`. Of its service's open runs, that of its number has its
    /// tallies while it is open; if there is none such, there is nothing to report.
    pub(crate) fn record(
        &self,
        alloc: Global,
        open_runs: &[OpenRun],
    ) -> Result<Option<RunRecord>, Memory>
        ensures { IfOk result (λ found. found ≡ record_among (Some self.now) open_runs.now) }
    {
        match self.tallies(open_runs) {
            Some(tallies) => Ok(Some(RunRecord {
                number: self.opening.run,
                step: self.opening.step,
                analysis: self.opening.analysis.copy()?,
                started: self.opening.started,
                closed: self.closing(),
                tallies: tallies.copy(alloc)?,
            })),
            None => Ok(None),
        }
    }

    // How it was closed, if it was.
    fn closing(&self) -> Option<Closing>
        ensures { result ≡ closing_of self.now.closed }
    {
        match &self.closed {
            Some(closed) => Some(closed.closing),
            None => None,
        }
    }

    // Its tallies: its last ones if it is closed, else those of the open run of its number.
    fn tallies<'a>(&'a self, open_runs: &'a [OpenRun]) -> Option<&'a Listed<Tally>>
        ensures { option_copied result
            ≡ tallies_in self.now.closed self.now.opening.run open_runs.now }
    {
        match &self.closed {
            Some(closed) => Some(&closed.tallies),
            None => match open_run(self.opening.run, open_runs) {
                Some(run) => Some(&run.tallies),
                None => None,
            },
        }
    }
}

// The open run of that number, which has its tallies; none if no such run is open.
fn open_run(number: u32, open_runs: &[OpenRun]) -> Option<&OpenRun>
    ensures { option_copied result ≡ find (has_number number) open_runs.now }
{
    open_runs.iter().find(|run| run.number == number)
}
