//! Measurements, counted one after another.
ghost use Rattle.std.specs.Prelude.{◌≡◌, ◌↔◌, ◌+◌, ◌≤◌, IsTrue, IfOk, length, slice_get};
ghost use Rattle.std.specs.Option.{option_copied};
ghost use Rattle.canary_metric.specs.Counts.{size};
ghost use Rattle.canary_release.specs.Sound.{IsJudgedBy};
ghost use Rattle.canary_tables_contents.specs.Counting.{at_run, of_metric, none_counted, counted_at};
ghost use Rattle.canary_tables_contents.specs.Counting.{IsNext};
ghost use Rattle.canary_tables_contents.specs.Services.{metrics_of_runs};

use crate::counts::{Counts, RunCounts};
use canary_base::error::Memory;
use canary_condition::measurement::measure;
use canary_metric::metric::Metric;
use canary_metric::tally::Tally;
use canary_once::record::RunRecord;
use canary_release::effect::Recorded;
use canary_release::runs::new_tallies;
use std::alloc::Global;

/// No measurements of any metric of the runs, which are numbered from 1 on.
///
/// # Errors
/// `Memory` if an allocation was refused.
pub fn none_counted(alloc: Global, runs: &[RunRecord]) -> Result<Counts, Memory>
    ensures { IfOk result (λ counts. counts ≡ none_counted (metrics_of_runs runs.now)) }
{
    let mut counts = Counts::new(alloc);
    for run in runs {
        let tallies = new_tallies(alloc, metric_count(run))?;
        counts.push(RunCounts::of(tallies))?;
    }
    Ok(counts)
}

// How many metrics the run has, by its own analysis.
fn metric_count(run: &RunRecord) -> u32
    ensures { result ≡ length run.now.analysis.metrics }
{
    run.analysis.metrics().len() as u32
}

/// Counts the measurement too, if it may come next: it is the next of a metric of its run, and of
/// the phase that the metric's conditions give its outcome. Answers whether it may. The runs are
/// numbered from 1 on, and the metrics of each are those of its own analysis.
pub fn count_next(runs: &[RunRecord], counts: &mut Counts, next: &Recorded) -> bool
    ensures next { IsTrue result ↔ IsNext (metrics_of_runs runs.now) counts.old next.now }
    ensures counted { IsTrue result → counts.new ≡ counted_at next.now counts.old }
{
    if !is_next(runs, counts, next) {
        return false;
    }
    counts.count(next);
    true
}

// Whether the measurement may come next.
fn is_next(runs: &[RunRecord], counts: &Counts, next: &Recorded) -> bool
    ensures { IsTrue result ↔ IsNext (metrics_of_runs runs.now) counts.now next.now }
{
    let Some(metric) = metric_of(runs, next) else {
        return false;
    };
    let Some(tally) = counts.tally(next) else {
        return false;
    };
    is_next_of(metric, tally, next)
}

// The metric of the measurement, if it is one of its run.
#[tactic(auto, using(crate::proofs::CountLemmas::unplanned, crate::proofs::CountLemmas::planned))]
fn metric_of<'a>(runs: &'a [RunRecord], measurement: &Recorded) -> Option<&'a Metric>
    ensures { option_copied result ≡ of_metric measurement.now.run measurement.now.metric
        (metrics_of_runs runs.now) }
{
    match run_of(runs, measurement.run) {
        Some(run) => metric_in(run, measurement.metric),
        None => None,
    }
}

// The run of that number, which is one more than its place; none if there is no such run.
fn run_of(runs: &[RunRecord], number: u32) -> Option<&RunRecord>
    ensures { option_copied result ≡ at_run number runs.now }
{
    let place = number.checked_sub(1)?;
    runs.get(place as usize)
}

// The metric at that place, from 0, of the run's own analysis; none if there is no such metric.
fn metric_in(run: &RunRecord, place: u32) -> Option<&Metric>
    ensures { option_copied result ≡ slice_get run.now.analysis.metrics place }
{
    run.analysis.metrics().get(place as usize)
}

// Whether it has the next ordinal, for which there is room, and is judged by the metric's
// conditions.
fn is_next_of(metric: &Metric, tally: &Tally, next: &Recorded) -> bool
    ensures { IsTrue result ↔ ((next.now.ordinal ≡ size tally.now + 1)
        × (size tally.now + 1 ≤ 1000000) × IsJudgedBy metric.now next.now) }
{
    !tally.full() && next.ordinal == tally.measurements() + 1 && is_judged_by(metric, next)
}

// Whether the measurement has the phase that the metric's conditions give its outcome.
fn is_judged_by(metric: &Metric, measurement: &Recorded) -> bool
    ensures { IsTrue result ↔ IsJudgedBy metric.now measurement.now }
{
    measurement.phase == measure(metric.success(), metric.failure(), &measurement.outcome)
}
