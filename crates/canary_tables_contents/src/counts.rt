//! Tallies of runs, as measurements are counted.
ghost use Rattle.std.specs.Prelude.{◌≡◌, ◌↔◌, ◌∷◌, ◌++◌, [], IsTrue, OnOk, map, slice_get};
ghost use Rattle.std.specs.Prelude.{true};
ghost use Rattle.std.specs.Option.{option_copied};
ghost use Rattle.canary_metric.specs.Measurements.{is_measured};
ghost use Rattle.canary_once.specs.declared.record.RunRecord.{RunRecord};
ghost use Rattle.canary_release.specs.Pasts.{change_at};
ghost use Rattle.canary_release.specs.Rules.Recording.{is_not_full};
ghost use Rattle.canary_release.specs.Watching.{counted};
ghost use Rattle.canary_tables_contents.specs.Counting.{of_metric, counted_at};

use canary_base::error::Memory;
use canary_base::lists::Listed;
use canary_metric::tally::Tally;
use canary_once::record::RunRecord;
use canary_release::effect::Recorded;
use std::alloc::Global;
use std::marker::Model;

/// The tallies of a run's metrics, in order.
#[derive(Drop)]
pub(crate) struct RunCounts {
    tallies: Vec<Tally>,
}

impl Model for RunCounts {
    ghost use Rattle.std.specs.Prelude.{List};
    ghost use Rattle.canary_metric.specs.Counts.{Counts};

    ghost Value = { List Counts };

    ghost view = { λ r. r.tallies.items };
}

impl RunCounts {
    /// These tallies.
    pub(crate) fn of(tallies: Listed<Tally>) -> RunCounts
        ensures { result ≡ tallies }
    {
        RunCounts {
            tallies: tallies.into_vec(),
        }
    }

    // The tally of the metric at that place, from 0; none if there is no such metric.
    fn tally(&self, metric: u32) -> Option<&Tally>
        ensures { option_copied result ≡ slice_get self.now metric }
    {
        self.tallies.as_slice().get(metric as usize)
    }

    // Counts the measurement at its metric, which has room; nothing if there is no such metric.
    fn count(&mut self, measurement: &Recorded)
        requires room { is_not_full (slice_get self.old measurement.now.metric) ≡ true }
        requires measured { is_measured measurement.now.phase ≡ true }
        ensures { self.new ≡ change_at measurement.now.metric (counted measurement.now) self.old }
    {
        if let Some(tally) = self.tallies.get_mut(measurement.metric as usize) {
            tally.add(measurement.phase, measurement.taken);
        }
    }
}

/// The tallies of a service's runs, the first of which has number 1.
#[derive(Drop)]
pub struct Counts {
    runs: Vec<RunCounts>,
}

impl Model for Counts {
    ghost use Rattle.std.specs.Prelude.{List};
    ghost use Rattle.canary_metric.specs.Counts.{Counts as Tallied};

    ghost Value = { List (List Tallied) };

    ghost view = { λ c. c.runs.items };
}

impl Counts {
    /// Of no runs.
    pub(crate) fn new(alloc: Global) -> Counts
        ensures { result ≡ [] }
    {
        Counts {
            runs: Vec::new(alloc),
        }
    }

    /// Of one run more, or `Memory`.
    pub(crate) fn push(&mut self, run: RunCounts) -> Result<(), Memory>
        ensures { OnOk result (self.new ≡ self.old ++ run ∷ []) }
    {
        self.runs.push(run)?;
        Ok(())
    }

    /// The tally of the measurement's metric, if there is one.
    pub(crate) fn tally(&self, measurement: &Recorded) -> Option<&Tally>
        ensures { option_copied result
            ≡ of_metric measurement.now.run measurement.now.metric self.now }
    {
        let place = measurement.run.checked_sub(1)?;
        let run = self.runs.as_slice().get(place as usize)?;
        run.tally(measurement.metric)
    }

    /// Counts the measurement at its metric.
    pub(crate) fn count(&mut self, measurement: &Recorded)
        requires room { is_not_full
            (of_metric measurement.now.run measurement.now.metric self.old) ≡ true }
        requires measured { is_measured measurement.now.phase ≡ true }
        ensures { self.new ≡ counted_at measurement.now self.old }
    {
        if measurement.run == 0 {
            return;
        }
        if let Some(run) = self.runs.get_mut(measurement.run as usize - 1) {
            run.count(measurement);
        }
    }

    /// Whether they are the tallies of these runs.
    pub fn are_of(&self, runs: &[RunRecord]) -> bool
        ensures { IsTrue result ↔ (map (λ (r : RunRecord). r.tallies) runs.now ≡ self.now) }
    {
        are_of(self.runs.as_slice(), runs)
    }
}

// Whether there are as many runs, and each has the tallies at its place.
fn are_of(counts: &[RunCounts], runs: &[RunRecord]) -> bool
    ensures { IsTrue result ↔ (map (λ (r : RunRecord). r.tallies) runs.now ≡ counts.now) }
{
    if counts.len() != runs.len() {
        return false;
    }
    for (counts, run) in counts.iter().zip(runs) {
        if !are_same(counts.tallies.as_slice(), run.tallies.as_slice()) {
            return false;
        }
    }
    true
}

// Whether both have equal tallies, in the same order.
fn are_same(ours: &[Tally], theirs: &[Tally]) -> bool
    ensures { IsTrue result ↔ (theirs.now ≡ ours.now) }
{
    if ours.len() != theirs.len() {
        return false;
    }
    for (ours, theirs) in ours.iter().zip(theirs) {
        if !is_same(ours, theirs) {
            return false;
        }
    }
    true
}

// Whether all counts of both tallies are equal.
fn is_same(ours: &Tally, theirs: &Tally) -> bool
    ensures { IsTrue result ↔ (theirs.now ≡ ours.now) }
{
    ours == theirs
}
