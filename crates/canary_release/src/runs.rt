//! What is kept of a service's runs.
ghost use Rattle.std.specs.Prelude.{◌≡◌, ◌<◌, [], true, IfOk, find, filter, map, replicate};
ghost use Rattle.std.specs.Prelude.{slice_get};
ghost use Rattle.std.specs.Option.{option_copied};
ghost use Rattle.std.specs.List.{list_all};
ghost use Rattle.canary_metric.specs.Counts.{counts, size};
ghost use Rattle.canary_metric.specs.Measurements.{is_measured};
ghost use Rattle.canary_release.specs.declared.effect.Effect.TheVariants as effect;
ghost use Rattle.canary_release.specs.Evolutions.{has_number, run_verdict};
ghost use Rattle.canary_release.specs.Pasts.{change_at};
ghost use Rattle.canary_release.specs.Rules.Recording.{is_not_full, takes, has_room};
ghost use Rattle.canary_release.specs.Watching.{no_runs, opened_now, counted, counted_in};
ghost use Rattle.canary_release.specs.Watching.{is_other, effect_applied};

use crate::effect::{Closing, Opening, Recorded};
use canary_base::error::Memory;
use canary_base::lists::Listed;
use canary_base::moments::Moment;
use canary_condition::outcome::Phase;
use canary_metric::tally::Tally;
use canary_metric::verdict::verdict;
use canary_plan::bound_analysis::BoundAnalysis;
use std::alloc::Global;
use std::mem;

/// The most runs that a service may have.
pub(crate) const MAX_RUNS: u32 = 1_000_000;

/// An open run of the analysis at a step, or of the background: one tally for each of its metrics,
/// in order.
#[derive(Drop)]
pub struct OpenRun {
    /// Its number, from 1 for the service's first run.
    pub number: u32,
    /// Its step, or none for the background.
    pub step: Option<u32>,
    /// Its analysis, with its metrics.
    pub analysis: BoundAnalysis,
    pub started: Moment,
    pub tallies: Listed<Tally>,
}

impl OpenRun {
    /// A copy of it, or `Memory`.
    pub fn copy(&self, alloc: Global) -> Result<OpenRun, Memory>
        ensures { IfOk result (λ copy. copy ≡ self.now) }
    {
        Ok(OpenRun {
            number: self.number,
            step: self.step,
            analysis: self.analysis.copy()?,
            started: self.started,
            tallies: self.tallies.copy(alloc)?,
        })
    }

    // A run that is opened has measured nothing.
    fn opened(alloc: Global, opening: &Opening) -> Result<OpenRun, Memory>
        ensures { IfOk result (λ run. run ≡ opened_now opening.now) }
    {
        Ok(OpenRun {
            number: opening.run,
            step: opening.step,
            analysis: opening.analysis.copy()?,
            started: opening.started,
            tallies: new_tallies(alloc, opening.analysis.metrics().len() as u32)?,
        })
    }

    // Counts a measurement if it is of this run.
    fn count(&mut self, alloc: Global, recorded: &Recorded)
        requires room { takes recorded.now self.old ≡ true }
        requires measured { is_measured recorded.now.phase ≡ true }
        ensures { self.new ≡ counted_in recorded.now self.old }
    {
        if self.number == recorded.run {
            let tallies = mem::replace(&mut self.tallies, Listed::of(Vec::new(alloc)));
            self.tallies = with_counted(tallies, recorded);
        }
    }

    /// Its verdict, by whether it is ended from outside.
    pub(crate) fn verdict(&self, outside: bool) -> Phase
        ensures { result ≡ run_verdict outside self.now }
    {
        verdict(self.analysis.metrics(), self.tallies.as_slice(), outside)
    }
}

// The tallies with a measurement counted in its metric's; the same if there is no such metric.
#[tactic(auto, using(crate::proofs::Counting::change_past_end))]
fn with_counted(tallies: Listed<Tally>, recorded: &Recorded) -> Listed<Tally>
    requires room { is_not_full (slice_get tallies recorded.now.metric) ≡ true }
    requires measured { is_measured recorded.now.phase ≡ true }
    ensures { result ≡ change_at recorded.now.metric (counted recorded.now) tallies }
{
    let place = recorded.metric as usize;
    let mut tallies = tallies.into_vec();
    if place >= tallies.len() {
        return Listed::of(tallies);
    }
    tallies[place] = counted(tallies[place], recorded);
    Listed::of(tallies)
}

// The tally with a measurement counted in it, for which it has to have room.
fn counted(tally: Tally, recorded: &Recorded) -> Tally
    requires room { size tally < 1000000 }
    requires measured { is_measured recorded.now.phase ≡ true }
    ensures { result ≡ counted recorded.now tally }
{
    let mut tally = tally;
    tally.add(recorded.phase, recorded.taken);
    tally
}

/// The tallies of a run that is opened with so many metrics, which have measured nothing, or
/// `Memory`.
pub fn new_tallies(alloc: Global, metrics: u32) -> Result<Listed<Tally>, Memory>
    ensures { IfOk result (λ tallies. tallies ≡ replicate metrics (counts [])) }
{
    let mut tallies = Listed::of(Vec::new(alloc));
    for _ in 0..metrics {
        tallies.push(Tally::new())?;
    }
    Ok(tallies)
}

/// What is kept of a service's runs: how many there are, and the open ones, which stand by number
/// in a service that the desk made.
#[derive(Drop)]
pub struct Runs {
    pub count: u32,
    pub open_runs: Listed<OpenRun>,
}

impl Runs {
    /// No runs.
    pub fn new(alloc: Global) -> Runs
        ensures { result ≡ no_runs }
    {
        Runs {
            count: 0,
            open_runs: Listed::of(Vec::new(alloc)),
        }
    }

    /// A copy of them, or `Memory`.
    pub fn copy(&self, alloc: Global) -> Result<Runs, Memory>
        ensures { IfOk result (λ copy. copy ≡ self.now) }
    {
        Ok(Runs {
            count: self.count,
            open_runs: copy_runs(alloc, self.open_runs.as_slice())?,
        })
    }

    /// The open run of that number, if there is one.
    pub(crate) fn open_run(&self, number: u32) -> Option<&OpenRun>
        ensures { option_copied result ≡ find (has_number number) self.now.open_runs }
    {
        self.open_runs
            .as_slice()
            .iter()
            .find(|run| run.number == number)
    }

    /// One run more is opened.
    pub(crate) fn opened(self, alloc: Global, opening: &Opening) -> Result<Runs, Memory>
        requires { self.count < 4294967295 }
        ensures { IfOk result (λ runs. runs ≡ effect_applied self (effect.RunOpened opening.now)) }
    {
        let Runs { count, open_runs } = self;
        let mut open_runs = open_runs;
        open_runs.push(OpenRun::opened(alloc, opening)?)?;
        let count = count + 1;
        Ok(Runs { count, open_runs })
    }

    /// A measurement is counted in its run.
    pub(crate) fn measured(self, alloc: Global, recorded: &Recorded) -> Runs
        requires { has_room self recorded.now ≡ true }
        ensures { result ≡ effect_applied self (effect.MeasurementRecorded recorded.now) }
    {
        let Runs { count, open_runs } = self;
        let open_runs = count_runs(alloc, open_runs, recorded);
        Runs { count, open_runs }
    }

    /// One run is no longer open.
    pub(crate) fn closed(self, closing: &Closing) -> Runs
        ensures { result ≡
            record self { open_runs = filter (is_other closing.now.run) self.open_runs } }
    {
        let Runs { count, open_runs } = self;
        let open_runs = without(open_runs, closing.run);
        Runs { count, open_runs }
    }
}

// The runs, in order, without that of this number.
fn without(runs: Listed<OpenRun>, number: u32) -> Listed<OpenRun>
    ensures { result ≡ filter (is_other number) runs }
{
    let mut runs = runs.into_vec();
    runs.retain(|run| run.number != number);
    Listed::of(runs)
}

// The runs, in order, with a measurement counted in that of its number.
fn count_runs(alloc: Global, runs: Listed<OpenRun>, recorded: &Recorded) -> Listed<OpenRun>
    requires room { list_all (takes recorded.now) runs ≡ true }
    requires measured { is_measured recorded.now.phase ≡ true }
    ensures { result ≡ map (counted_in recorded.now) runs }
{
    let mut counted = runs.into_vec();
    for run in counted.iter_mut() {
        run.count(alloc, recorded);
    }
    Listed::of(counted)
}

// A copy of these runs, in order, or `Memory`.
fn copy_runs(alloc: Global, runs: &[OpenRun]) -> Result<Listed<OpenRun>, Memory>
    ensures { IfOk result (λ copy. copy ≡ runs.now) }
{
    let mut copies = Listed::of(Vec::new(alloc));
    for run in runs {
        copies.push(run.copy(alloc)?)?;
    }
    Ok(copies)
}
