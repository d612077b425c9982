//! Reports: why one is refused, what is recorded, and what its run's verdict brings.
ghost use Rattle.std.specs.Prelude.{◌≡◌, ◌+◌, ◌≤◌, ◌<◌, [], ◌∷◌, nat_lt, nat_le, true, false};
ghost use Rattle.std.specs.Prelude.{IfOk, MatchOption, Option, Some, None, option_map, length, map};
ghost use Rattle.std.specs.Prelude.{ℕ, cond};
ghost use Rattle.std.specs.List.{list_any};
ghost use Rattle.canary_condition.specs.declared.outcome.Phase.TheVariants as phase;
ghost use Rattle.canary_metric.specs.Counts.{size};
ghost use Rattle.canary_metric.specs.MetricPhases.{due_of_counts};
ghost use Rattle.canary_plan.specs.declared.command.Command.TheVariants as command;
ghost use Rattle.canary_plan.specs.declared.refusal.Refusal.TheVariants as refusal;
ghost use Rattle.canary_plan.specs.Plans.{no_templates};
ghost use Rattle.canary_plan.specs.Refusals.{first_that_holds};
ghost use Rattle.canary_release.specs.declared.effect.Recorded.{Recorded as RecordedRow};
ghost use Rattle.canary_release.specs.Rules.Commands.{act};
ghost use Rattle.canary_release.specs.Evolutions.{runs_now, open_run_now, run_verdict};
ghost use Rattle.canary_release.specs.Parts.{repeats_number};
ghost use Rattle.canary_release.specs.Rules.Recording.{have_room};
ghost use Rattle.canary_release.specs.Rules.Reporting.{reported_as};
ghost use Rattle.canary_release.specs.Rules.Reports.{place_from, place_of, names_metric};
ghost use Rattle.canary_release.specs.Rules.Reports.{entry_refusal_at, entry_refusal, entries_refusal};
ghost use Rattle.canary_release.specs.Rules.Reports.{is_no_run, report_refusal, recorded_at, brought};
ghost use Rattle.canary_release.specs.Rules.Reports.{abort_by_run, hold_step, hold_background};
ghost use Rattle.canary_release.specs.Rules.Reports.{consequence, complete, assess_run, assess};
ghost use Rattle.canary_release.specs.Rules.Reports.{report_on, verdict_if, reported_on};
ghost use Rattle.canary_release.specs.Services.{IsOnSteps};
ghost use Rattle.canary_release.specs.Stored.{evolution_of, run_total};

use crate::effect::Recorded;
use crate::reply::Reported;
use crate::runs::{OpenRun, Runs};
use crate::state::ServiceState;
use crate::transition::Transition;
use canary_base::error::Memory;
use canary_base::lists::Listed;
use canary_base::moments::Moment;
use canary_base::names::Label;
use canary_condition::measurement::measure;
use canary_condition::outcome::Phase;
use canary_metric::metric::Metric;
use canary_metric::tally::{MAX_MEASUREMENTS, Tally};
use canary_metric::verdict::is_completed;
use canary_plan::line::LineEvent;
use canary_plan::refusal::Refusal;
use canary_plan::report::{Entry, Report};
use std::alloc::Global;

// A metric of an open run: its place there, from 0, and its tally.
#[derive(Clone, Copy)]
struct Place<'a> {
    place: u32,
    metric: &'a Metric,
    tally: Tally,
}

// The first metric of that name.
fn place_from<'a>(metrics: &'a [Metric], tallies: &[Tally], name: Label) -> Option<Place<'a>>
    requires { length metrics.now ≤ 32 }
    ensures { MatchOption result
        (place_from 0 name metrics.now tallies.now ≡ None)
        (λ p. place_from 0 name metrics.now tallies.now
        ≡ Some (record { place = p.place; metric = p.metric.now; tally = p.tally })) }
{
    let mut place = 0;
    let mut rest = tallies;
    for metric in metrics {
        let Some((tally, later)) = rest.split_first() else {
            return None;
        };
        if metric.name() == name {
            let tally = *tally;
            return Some(Place {
                place,
                metric,
                tally,
            });
        }
        rest = later;
        place += 1;
    }
    None
}

// Whether one of these entries is of the metric of that name.
fn names_metric(before: &[Entry], name: Label) -> bool
    ensures { result ≡ list_any (names_metric name) before.now }
{
    before.iter().any(|entry| entry.metric == name)
}

// Why an entry is refused by its ordinal and its moment, at that index.
fn turn_refusal(index: u32, entry: &Entry, size: u32, due: u64, now: Moment) -> Option<Refusal>
    requires { size ≤ 1000000 }
    ensures { result ≡ first_that_holds (
        (nat_le entry.now.ordinal size, refusal.AlreadyRecorded index)
        ∷ (nat_lt (size + 1) entry.now.ordinal, refusal.OutOfTurn index (size + 1))
        ∷ (nat_le 1000000 size, refusal.Spent index)
        ∷ (nat_lt now entry.now.taken, refusal.Future index)
        ∷ (nat_lt entry.now.taken due, refusal.TooEarly index due)
        ∷ []) }
{
    let at = index;
    if entry.ordinal <= size {
        return Some(Refusal::AlreadyRecorded { at });
    }
    let expected = size + 1;
    if expected < entry.ordinal {
        return Some(Refusal::OutOfTurn { at, expected });
    }
    if MAX_MEASUREMENTS <= size {
        return Some(Refusal::Spent { at });
    }
    if now < entry.taken {
        return Some(Refusal::Future { at });
    }
    if entry.taken.get() < due {
        return Some(Refusal::TooEarly { at, due });
    }
    None
}

// Why an entry is refused, after the entries before it, from its metric's tally.
fn entry_refusal_at(
    started: Moment,
    now: Moment,
    before: &[Entry],
    entry: &Entry,
    metric: &Metric,
    tally: &Tally,
) -> Option<Refusal>
    requires { length before.now < 32 }
    ensures { result ≡ entry_refusal_at started now before.now entry.now
        (record { place = 0; metric = metric.now; tally = tally.now }) }
{
    let at = before.len() as u32;
    if names_metric(before, entry.metric) {
        return Some(Refusal::RepeatedMetric { at });
    }
    if is_completed(tally.phase(metric, false)) {
        return Some(Refusal::MetricClosed { at });
    }
    let due = tally.due(metric, started);
    turn_refusal(at, entry, tally.measurements(), due, now)
}

// Why an entry is refused, after those before it; also if its run has no metric of that name.
fn entry_refusal(
    metrics: &[Metric],
    run: &OpenRun,
    now: Moment,
    before: &[Entry],
    entry: &Entry,
) -> Option<Refusal>
    requires few { length metrics.now ≤ 32 }
    requires short { length before.now < 32 }
    ensures { result ≡ entry_refusal run.now.started now before.now entry.now
        (place_of metrics.now run.now entry.now) }
{
    match place_from(metrics, run.tallies.as_slice(), entry.metric) {
        None => Some(Refusal::UnknownMetric {
            at: before.len() as u32,
        }),
        Some(place) => {
            let tally = place.tally;
            entry_refusal_at(run.started, now, before, entry, place.metric, &tally)
        }
    }
}

// The refusal of the first bad entry.
fn entries_refusal(
    metrics: &[Metric],
    run: &OpenRun,
    now: Moment,
    entries: &[Entry],
) -> Option<Refusal>
    requires few { length metrics.now ≤ 32 }
    requires short { length entries.now ≤ 32 }
    ensures { result ≡ entries_refusal metrics.now run.now now [] entries.now }
{
    for (index, entry) in entries.iter().enumerate() {
        let before = &entries[..index];
        let refusal = entry_refusal(metrics, run, now, before, entry);
        if refusal.is_some() {
            return refusal;
        }
    }
    None
}

// An entry as it is recorded, judged by its metric's conditions.
fn recorded(
    alloc: Global,
    metrics: &[Metric],
    run: &OpenRun,
    entry: &Entry,
) -> Result<Option<Recorded>, Memory>
    requires { length metrics.now ≤ 32 }
    ensures { IfOk result (λ found. found
        ≡ option_map (recorded_at run.now entry.now) (place_of metrics.now run.now entry.now)) }
{
    match place_from(metrics, run.tallies.as_slice(), entry.metric) {
        None => Ok(None),
        Some(place) => {
            let metric = place.metric;
            Ok(Some(Recorded {
                run: run.number,
                metric: place.place,
                ordinal: entry.ordinal,
                taken: entry.taken,
                outcome: entry.outcome.copy(alloc)?,
                phase: measure(metric.success(), metric.failure(), &entry.outcome),
            }))
        }
    }
}

// The measurements that the entries bring.
fn brought(
    alloc: Global,
    metrics: &[Metric],
    run: &OpenRun,
    entries: &[Entry],
) -> Result<Listed<Recorded>, Memory>
    requires { length metrics.now ≤ 32 }
    ensures { IfOk result (λ list. list ≡ brought metrics.now run.now entries.now) }
{
    let mut list = Listed::of(Vec::new(alloc));
    for entry in entries {
        if let Some(measurement) = recorded(alloc, metrics, run, entry)? {
            list.push(measurement)?;
        }
    }
    Ok(list)
}

// The phases of measurements.
fn phases_of(alloc: Global, measurements: &[Recorded]) -> Result<Listed<Phase>, Memory>
    ensures { IfOk result (λ phases. phases ≡ map (λ (x : RecordedRow). x.phase) measurements.now) }
{
    let mut phases = Listed::of(Vec::new(alloc));
    for measurement in measurements {
        phases.push(measurement.phase)?;
    }
    Ok(phases)
}

impl OpenRun {
    // Why an entry of a report on the run is refused.
    fn entries_refusal(&self, now: Moment, entries: &[Entry]) -> Option<Refusal>
        requires { length entries.now ≤ 32 }
        ensures { result
            ≡ entries_refusal self.now.analysis.metrics self.now now [] entries.now }
    {
        entries_refusal(self.analysis.metrics(), self, now, entries)
    }

    // The measurements that the entries bring.
    fn brought(&self, alloc: Global, entries: &[Entry]) -> Result<Listed<Recorded>, Memory>
        ensures { IfOk result (λ list. list
            ≡ brought self.now.analysis.metrics self.now entries.now) }
    {
        brought(alloc, self.analysis.metrics(), self, entries)
    }
}

impl Runs {
    // Why a run isn't open: there is no run of that number, or it is closed.
    fn missing(&self, number: u32) -> Refusal
        ensures { result ≡ cond (is_no_run self.now number) refusal.UnknownRun refusal.RunClosed }
    {
        if number == 0 || self.count < number {
            Refusal::UnknownRun
        } else {
            Refusal::RunClosed
        }
    }
}

impl Transition {
    // A copy of the open run of that number, if there is one.
    fn copy_open_run(&self, alloc: Global, number: u32) -> Result<Option<OpenRun>, Memory>
        ensures { IfOk result (λ run. run ≡ open_run_now (evolution_of self.now) number) }
    {
        match self.open_run_now(number) {
            Some(run) => Ok(Some(run.copy(alloc)?)),
            None => Ok(None),
        }
    }

    // The release is aborted by a run.
    fn abort_by_run(self, alloc: Global, run: u32, at: Moment) -> Result<Transition, Memory>
        ensures aborted { IfOk result
            (λ t. evolution_of t ≡ abort_by_run (evolution_of self) run at) }
        ensures strategy { IfOk result (λ t. t.service.strategy ≡ self.service.strategy) }
        ensures made { IfOk result (λ transition. run_total transition ≡ run_total self) }
    {
        let told = self.tell(at, LineEvent::AbortedBy { run })?;
        told.abort(alloc, at)
    }

    // The release is held by the run of its step.
    fn hold_step(self, at: Moment) -> Result<Transition, Memory>
        ensures held { IfOk result (λ t. evolution_of t ≡ hold_step (evolution_of self) at) }
        ensures strategy { IfOk result (λ t. t.service.strategy ≡ self.service.strategy) }
        ensures made { IfOk result (λ transition. run_total transition ≡ run_total self) }
    {
        let Transition { service, tracked } = self;
        let step = service.step;
        let service = ServiceState {
            step_hold: true,
            ..service
        };
        Transition { service, tracked }.tell(at, LineEvent::StepHeld { step })
    }

    // The release is held by its background run, and an open step run is ended from outside.
    fn hold_background(self, alloc: Global, at: Moment) -> Result<Transition, Memory>
        ensures held { IfOk result (λ t. evolution_of t ≡ hold_background (evolution_of self) at) }
        ensures strategy { IfOk result (λ t. t.service.strategy ≡ self.service.strategy) }
        ensures made { IfOk result (λ transition. run_total transition ≡ run_total self) }
    {
        let Transition { service, tracked } = self;
        let service = ServiceState {
            background_hold: true,
            ..service
        };
        let held = Transition { service, tracked }.tell(at, LineEvent::BackgroundHeld)?;
        held.end_open_runs(alloc, at)
    }

    // What the verdict of a run brings once it is closed.
    fn consequence(
        self,
        alloc: Global,
        run: u32,
        step: Option<u32>,
        verdict: Phase,
        at: Moment,
    ) -> Result<Transition, Memory>
        requires room { run_total self + 1 < 4294967295 }
        requires on_step { self.service.step < 4294967295 }
        ensures brought { IfOk result (λ transition. evolution_of transition
            ≡ consequence (evolution_of self) run step verdict at) }
        ensures strategy { IfOk result (λ t. t.service.strategy ≡ self.service.strategy) }
        ensures made { IfOk result (λ transition. run_total transition ≤ run_total self + 2) }
    {
        match verdict {
            Phase::Failed => self.abort_by_run(alloc, run, at),
            Phase::Error => self.abort_by_run(alloc, run, at),
            Phase::Inconclusive => self.hold(alloc, step, at),
            Phase::Successful => self.pass_step(alloc, step, at),
            Phase::Pending => Ok(self),
            Phase::Running => Ok(self),
        }
    }

    // The release is held by a run.
    fn hold(self, alloc: Global, step: Option<u32>, at: Moment) -> Result<Transition, Memory>
        ensures held { (run : ℕ)
            → IfOk result (λ transition. evolution_of transition
            ≡ consequence (evolution_of self) run step phase.Inconclusive at) }
        ensures strategy { IfOk result (λ t. t.service.strategy ≡ self.service.strategy) }
        ensures made { IfOk result (λ transition. run_total transition ≡ run_total self) }
    {
        match step {
            Some(_) => self.hold_step(at),
            None => self.hold_background(alloc, at),
        }
    }

    // After a successful run, the next step is entered, if the run was that of the present one.
    fn pass_step(self, alloc: Global, step: Option<u32>, at: Moment) -> Result<Transition, Memory>
        requires room { run_total self + 1 < 4294967295 }
        requires on_step { self.service.step < 4294967295 }
        ensures passed { (run : ℕ)
            → IfOk result (λ transition. evolution_of transition
            ≡ consequence (evolution_of self) run step phase.Successful at) }
        ensures strategy { IfOk result (λ t. t.service.strategy ≡ self.service.strategy) }
        ensures made { IfOk result (λ transition. run_total transition ≤ run_total self + 2) }
    {
        match step {
            Some(_) => {
                let next = self.service.step + 1;
                self.enter(alloc, next, at)
            }
            None => Ok(self),
        }
    }

    // An open run is closed at its verdict, with what follows.
    fn complete(
        self,
        alloc: Global,
        run: &OpenRun,
        verdict: Phase,
        at: Moment,
    ) -> Result<Transition, Memory>
        requires room { run_total self + 1 < 4294967295 }
        requires on_step { self.service.step < 4294967295 }
        ensures completed { IfOk result (λ transition. evolution_of transition
            ≡ complete (evolution_of self) run.now verdict at) }
        ensures strategy { IfOk result (λ t. t.service.strategy ≡ self.service.strategy) }
        ensures made { IfOk result (λ transition. run_total transition ≤ run_total self + 2) }
    {
        let number = run.number;
        let step = run.step;
        let closed = self.close(alloc, run, at, false)?;
        let told = closed.tell(
            at,
            LineEvent::Completed {
                run: number,
                phase: verdict,
            },
        )?;
        told.consequence(alloc, number, step, verdict, at)
    }

    // An open run that is no longer Running is closed, with what follows.
    fn assess_run(self, alloc: Global, run: &OpenRun, at: Moment) -> Result<Transition, Memory>
        requires room { run_total self + 1 < 4294967295 }
        requires on_step { self.service.step < 4294967295 }
        ensures assessed { IfOk result
            (λ t. evolution_of t ≡ assess_run (evolution_of self) run.now at) }
        ensures strategy { IfOk result (λ t. t.service.strategy ≡ self.service.strategy) }
        ensures made { IfOk result (λ transition. run_total transition ≤ run_total self + 2) }
    {
        let verdict = run.verdict(false);
        if is_completed(verdict) {
            self.complete(alloc, run, verdict, at)
        } else {
            Ok(self)
        }
    }

    // The run of that number is assessed, if it is open.
    fn assess(self, alloc: Global, number: u32, at: Moment) -> Result<Transition, Memory>
        requires room { run_total self + 1 < 4294967295 }
        requires on_step { self.service.step < 4294967295 }
        ensures assessed { IfOk result (λ transition. evolution_of transition
            ≡ assess (evolution_of self) (open_run_now (evolution_of self) number) at) }
        ensures strategy { IfOk result (λ t. t.service.strategy ≡ self.service.strategy) }
        ensures made { IfOk result (λ transition. run_total transition ≤ run_total self + 2) }
    {
        if !is_completed(self.verdict_of(number)) {
            return Ok(self);
        }
        match self.copy_open_run(alloc, number)? {
            Some(run) => self.assess_run(alloc, &run, at),
            None => Ok(self),
        }
    }

    // The verdict of the open run of that number, Running if there is none.
    fn verdict_of(&self, number: u32) -> Phase
        ensures { result ≡ verdict_if (evolution_of self.now)
            (open_run_now (evolution_of self.now) number) }
    {
        match self.open_run_now(number) {
            Some(run) => run.verdict(false),
            None => Phase::Running,
        }
    }

    // The entries are recorded, and then the run is assessed once.
    fn report_on(
        self,
        alloc: Global,
        run: &OpenRun,
        entries: &[Entry],
        at: Moment,
    ) -> Result<(Transition, Reported), Memory>
        requires fits { have_room (runs_now (evolution_of self))
            (brought run.now.analysis.metrics run.now entries.now) ≡ true }
        requires room { run_total self + 1 < 4294967295 }
        requires on_step { self.service.step < 4294967295 }
        ensures reported { IfOk result (λ done. evolution_of done.0
            ≡ report_on (evolution_of self) run.now entries.now at) }
        ensures shows { IfOk result (λ done. done.1
            ≡ reported_on (evolution_of self) run.now entries.now) }
        ensures strategy { IfOk result (λ done. done.0.service.strategy ≡ self.service.strategy) }
        ensures made { IfOk result (λ done. run_total done.0 ≤ run_total self + 2) }
    {
        let measurements = run.brought(alloc, entries)?;
        let all = self.record_all(alloc, measurements.as_slice())?;
        let number = run.number;
        let phases = phases_of(alloc, measurements.as_slice())?;
        let verdict = all.verdict_of(number);
        let assessed = all.assess(alloc, number, at)?;
        let reported = Reported {
            phases,
            run: number,
            verdict,
        };
        Ok((assessed, reported))
    }

    // A report on an open run, or why it is refused.
    #[tactic(auto, using(crate::proofs::Room::has_room_for))]
    fn report_open(
        self,
        alloc: Global,
        run: &OpenRun,
        at: Moment,
        report: &Report,
    ) -> Result<Result<(Transition, Reported), Refusal>, Memory>
        requires open { open_run_now (evolution_of self) report.now.run ≡ Some run.now }
        requires once { repeats_number (runs_now (evolution_of self)).open_runs ≡ false }
        requires room { run_total self + 1 < 4294967295 }
        requires on_step { self.service.step < 4294967295 }
        ensures reported { IfOk result (λ answer. reported_as answer
            ≡ act no_templates (command.Report report.now) (evolution_of self) at) }
        ensures strategy { IfOk result (λ answer. IfOk answer (λ done. done.0.service.strategy
            ≡ self.service.strategy)) }
        ensures made { IfOk result
            (λ answer. IfOk answer (λ done. run_total done.0 ≤ run_total self + 2)) }
    {
        let entries = report.entries.as_slice();
        match run.entries_refusal(at, entries) {
            Some(refusal) => Ok(Err(refusal)),
            None => Ok(Ok(self.report_on(alloc, run, entries, at)?)),
        }
    }

    /// A report on a service that was passed to that moment: the service with it and what it adds
    /// to its reply, or why it is refused; `Memory` if memory is refused.
    pub(crate) fn report(
        self,
        alloc: Global,
        at: Moment,
        report: &Report,
    ) -> Result<Result<(Transition, Reported), Refusal>, Memory>
        requires once { repeats_number (runs_now (evolution_of self)).open_runs ≡ false }
        requires room { run_total self ≤ 1000000 }
        requires on_step { IsOnSteps self.service }
        ensures reported { IfOk result (λ answer. reported_as answer
            ≡ act no_templates (command.Report report.now) (evolution_of self) at) }
        ensures strategy { IfOk result (λ answer. IfOk answer (λ done. done.0.service.strategy
            ≡ self.service.strategy)) }
        ensures made { IfOk result
            (λ answer. IfOk answer (λ done. run_total done.0 ≤ run_total self + 2)) }
    {
        let _steps = self.service.strategy.steps();
        match self.copy_open_run(alloc, report.run)? {
            Some(run) => self.report_open(alloc, &run, at, report),
            None => Ok(Err(self.runs().missing(report.run))),
        }
    }
}
