//! The verdicts of runs, from their tallies.
ghost use Rattle.std.specs.Prelude.{◌↔◌, IsTrue};
ghost use Rattle.canary_tables_contents.specs.Services.{HasVerdictBy};
ghost use Rattle.canary_tables_contents.specs.Recounted.{HasOwnVerdict};

use canary_condition::outcome::Phase;
use canary_metric::metric::Metric;
use canary_metric::tally::Tally;
use canary_metric::verdict::{is_completed, verdict};
use canary_once::record::RunRecord;
use canary_release::effect::Closing;

/// Whether the run is closed, or open, as the verdict of its tallies says, by the metrics of its
/// own analysis.
pub fn has_own_verdict(run: &RunRecord) -> bool
    ensures { IsTrue result ↔ HasOwnVerdict run.now }
{
    has_verdict(run.analysis.metrics(), run.tallies.as_slice(), run.closed)
}

// Whether a run with these metrics and tallies is closed, or open, as their verdict says.
fn has_verdict(metrics: &[Metric], tallies: &[Tally], closed: Option<Closing>) -> bool
    ensures { IsTrue result ↔ HasVerdictBy metrics.now tallies.now closed }
{
    match closed {
        None => verdict(metrics, tallies, false) == Phase::Running,
        Some(closing) => {
            is_completed(closing.verdict)
                && closing.verdict == verdict(metrics, tallies, closing.outside)
        }
    }
}
