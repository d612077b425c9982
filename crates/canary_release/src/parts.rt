//! Parts that make a service, and those that make none.
ghost use Rattle.std.specs.Prelude.{◌≡◌, ◌-◌, ◌≤◌, true, ◌||◌, ◌&&◌, not, nat_lt};
ghost use Rattle.std.specs.Prelude.{length, map, filter, Option, is_none, is_some};
ghost use Rattle.std.specs.Option.{option_copied};
ghost use Rattle.std.specs.List.{list_any, list_all};
ghost use Rattle.std.specs.Str.{bytes_eq};
ghost use Rattle.std.specs.Cmp.Lexicographic.{pointwise};
ghost use Rattle.canary_metric.specs.Metrics.{MetricValue as MetricRow};
ghost use Rattle.canary_plan.specs.declared.analysis_parts.AnalysisParts.{AnalysisParts as Parts};
ghost use Rattle.canary_plan.specs.declared.analysis_parts.Revision.{Revision as RevisionRow};
ghost use Rattle.canary_plan.specs.Commands.{same_names};
ghost use Rattle.canary_plan.specs.PlanRefusals.{has_duplicate, is_without_end};
ghost use Rattle.canary_release.specs.Evolutions.{has_number};
ghost use Rattle.canary_release.specs.Rules.Passing.{next_move, is_by};
ghost use Rattle.canary_release.specs.Services.{is_in_progress, is_done, is_held};
ghost use Rattle.canary_release.specs.Parts.{IsAccepted, is_broken, is_misplaced, runs_wanted};
ghost use Rattle.canary_release.specs.Parts.{background_wanted, is_misnumbered};
ghost use Rattle.canary_release.specs.Parts.{repeats_number, has_wrong_tallies, is_astray};
ghost use Rattle.canary_release.specs.Parts.{is_judged, is_background_run, is_step_run};
ghost use Rattle.canary_release.specs.Parts.{has_background_run, has_other_revisions};
ghost use Rattle.canary_release.specs.Parts.{same_revision, is_misbound, is_bound, is_unbound};
ghost use Rattle.canary_release.specs.Parts.{is_step_bound, is_background_bound, is_bound_to};
ghost use Rattle.canary_release.specs.Parts.{repeats_metric_in, has_endless, is_refused};

use crate::runs::{MAX_RUNS, OpenRun};
use crate::service::{Service, ServiceParts};
use crate::state::{ReleaseState, ServiceState};
use canary_base::names::{Label, Name};
use canary_metric::metric::{Metric, effective_count};
use canary_metric::verdict::is_completed;
use canary_plan::analysis_parts::Revision;
use canary_plan::bound::Bound;
use canary_plan::bound_analysis::BoundAnalysis;
use canary_plan::step::Step;
use std::error::Error;
use std::fmt;

/// Why parts make no service.
#[derive(Clone, Copy, Debug, PartialEq, Eq)]
pub enum PartsFault {
    /// No service can stand so: its step is out of place, a run is out of place or number, a hold
    /// or a background run is where there can be none, something is left undone that is due, or it
    /// is bound to other templates than its strategy's, or to such as no strategy is bound to.
    Broken,
}

impl fmt::Display for PartsFault {
    // Writes what the fault is, in words.
    fn fmt<W: fmt::Write>(&self, f: &mut fmt::Formatter<W>) -> fmt::Result {
        match self {
            PartsFault::Broken => f.write_str("the parts make no service"),
        }
    }
}

impl Error for PartsFault {}

impl Service {
    /// The service that is made of these parts, which takes no memory. Its open runs stand in the
    /// order given, and are ended in it: only of services that the desk made do they always stand
    /// by number.
    ///
    /// # Errors
    /// `Broken` if no service can stand so.
    pub fn from_parts(parts: ServiceParts) -> Result<Service, PartsFault>
        ensures { IsAccepted parts result }
    {
        if is_broken(&parts) {
            return Err(PartsFault::Broken);
        }
        Ok(Service::of(parts))
    }
}

/// Whether the parts make no service: some cause holds.
#[tactic(auto, using(crate::proofs::Broken::in_groups))]
pub fn is_broken(parts: &ServiceParts) -> bool
    ensures { result ≡ is_broken parts.now }
{
    is_behind(parts)
        || has_stray_run(parts)
        || has_bad_runs(parts)
        || has_bad_mark(parts)
        || has_bad_binding(parts)
}

// A step or an entry out of place, or runs beyond their limit.
fn is_behind(parts: &ServiceParts) -> bool
    ensures { result ≡ (is_misplaced parts.now.service
        || (nat_lt parts.now.service.last parts.now.service.entered
        || (nat_lt 1000000 parts.now.runs.count
        || (is_in_progress parts.now.service.state
        && nat_lt (1000000 - parts.now.runs.count) (runs_wanted parts.now))))) }
{
    is_misplaced(&parts.service)
        || is_entered_late(&parts.service)
        || parts.runs.count > MAX_RUNS
        || lacks_runs(parts)
}

// Open runs out of number, with wrong tallies, or though no release is going on.
fn has_bad_runs(parts: &ServiceParts) -> bool
    ensures { result ≡ (list_any (is_misnumbered parts.now.runs.count) parts.now.runs.open_runs
        || (repeats_number parts.now.runs.open_runs
        || (list_any has_wrong_tallies parts.now.runs.open_runs
        || (not (is_in_progress parts.now.service.state)
        && nat_lt 0 (length parts.now.runs.open_runs))))) }
{
    let runs = parts.runs.open_runs.as_slice();
    some_is_misnumbered(parts.runs.count, runs)
        || repeats_number(runs)
        || some_has_wrong_tallies(runs)
        || is_left_open(&parts.service, runs)
}

// More than one run of a kind, a run of a step astray, or a background run though there can be
// none.
fn has_stray_run(parts: &ServiceParts) -> bool
    ensures { result ≡ (nat_lt 1 (length (filter is_background_run parts.now.runs.open_runs))
        || (nat_lt 1 (length (filter is_step_run parts.now.runs.open_runs))
        || (list_any (is_astray parts.now.service) parts.now.runs.open_runs
        || (has_background_run parts.now
        && (not parts.now.service.background || parts.now.service.background_hold))))) }
{
    let runs = parts.runs.open_runs.as_slice();
    repeats_background(runs)
        || repeats_step(runs)
        || some_is_astray(&parts.service, runs)
        || has_stray_background(parts)
}

// A hold or a background analysis though there can be none, a run whose verdict is due, or a step
// that has been left by time.
fn has_bad_mark(parts: &ServiceParts) -> bool
    ensures { result ≡ ((is_held parts.now.service && not (is_in_progress parts.now.service.state))
        || ((parts.now.service.background && is_none parts.now.service.strategy.background)
        || ((parts.now.service.background_hold && not parts.now.service.background)
        || (list_any is_judged parts.now.runs.open_runs
        || is_by parts.now.service.last (next_move parts.now.service))))) }
{
    let service = &parts.service;
    has_stray_hold(service)
        || lacks_background(service)
        || has_stray_background_hold(service)
        || some_is_judged(parts.runs.open_runs.as_slice())
        || has_move_due(service)
}

// It is bound to other templates than its strategy's, or an open run to other revisions.
fn has_bad_binding(parts: &ServiceParts) -> bool
    ensures { result ≡ (is_misbound parts.now.service
        || list_any (has_other_revisions parts.now.service) parts.now.runs.open_runs) }
{
    is_misbound(&parts.service)
        || some_has_other_revisions(&parts.service, parts.runs.open_runs.as_slice())
}

// Whether the step is above the end, or at the end though not done, or below the end though done.
fn is_misplaced(service: &ServiceState) -> bool
    ensures { result ≡ is_misplaced service.now }
{
    let steps = service.strategy.steps().len();
    let step = service.step as usize;
    if step > steps {
        return true;
    }
    (step == steps) != (service.state == ReleaseState::Done)
}

// Whether the present step was entered after the last moment at which the service was judged.
fn is_entered_late(service: &ServiceState) -> bool
    ensures { result ≡ nat_lt service.now.last service.now.entered }
{
    service.last < service.entered
}

// Fewer numbers of runs are left than the present attempt may still take.
fn lacks_runs(parts: &ServiceParts) -> bool
    ensures { result ≡ (is_in_progress parts.now.service.state
        && nat_lt (1000000 - parts.now.runs.count) (runs_wanted parts.now)) }
{
    if parts.service.state != ReleaseState::InProgress {
        return false;
    }
    (MAX_RUNS.saturating_sub(parts.runs.count) as usize) < runs_wanted(parts)
}

// How many runs the present attempt may still open: one for each later step, and the background's.
fn runs_wanted(parts: &ServiceParts) -> usize
    requires { is_in_progress parts.now.service.state ≡ true }
    ensures { result ≡ runs_wanted parts.now }
{
    let steps = parts.service.strategy.steps().len();
    let later = steps.saturating_sub(parts.service.step as usize + 1);
    if parts.service.strategy.background().is_some() {
        later + background_wanted(parts)
    } else {
        later
    }
}

// How many of them are the background's: 2 before its run, 1 while that is open or holds, else 0.
fn background_wanted(parts: &ServiceParts) -> usize
    ensures value { result ≡ background_wanted parts.now }
    ensures limit { result ≤ 2 }
{
    if !parts.service.background {
        return 2;
    }
    if parts.service.background_hold || has_background_run(parts.runs.open_runs.as_slice()) {
        return 1;
    }
    0
}

// Whether one of the runs is of the background.
fn has_background_run(runs: &[OpenRun]) -> bool
    ensures { result ≡ list_any is_background_run runs.now }
{
    runs.iter().any(|run| run.step.is_none())
}

// Whether one of the runs has the number 0, or one above the count.
fn some_is_misnumbered(count: u32, runs: &[OpenRun]) -> bool
    ensures { result ≡ list_any (is_misnumbered count) runs.now }
{
    runs.iter().any(|run| run.number == 0 || run.number > count)
}

// Whether two of the runs have one number.
fn repeats_number(runs: &[OpenRun]) -> bool
    ensures { result ≡ repeats_number runs.now }
{
    match runs {
        [] => false,
        [run, later @ ..] => some_has_number(run.number, later) || repeats_number(later),
    }
}

// Whether one of the runs has that number.
fn some_has_number(number: u32, runs: &[OpenRun]) -> bool
    ensures { result ≡ list_any (has_number number) runs.now }
{
    runs.iter().any(|run| run.number == number)
}

// Whether one of the runs does not have one tally for each metric.
fn some_has_wrong_tallies(runs: &[OpenRun]) -> bool
    ensures { result ≡ list_any has_wrong_tallies runs.now }
{
    runs.iter().any(has_wrong_tallies)
}

// Whether the run has more or fewer tallies than metrics.
fn has_wrong_tallies(run: &OpenRun) -> bool
    ensures { result ≡ has_wrong_tallies run.now }
{
    run.analysis.metrics().len() != run.tallies.as_slice().len()
}

// Whether one of the runs has other revisions than those to which its analysis is bound.
fn some_has_other_revisions(service: &ServiceState, runs: &[OpenRun]) -> bool
    ensures { result ≡ list_any (has_other_revisions service.now) runs.now }
{
    runs.iter().any(|run| has_other_revisions(service, run))
}

// Whether the run has other revisions than its analysis is bound to, or that is not bound.
fn has_other_revisions(service: &ServiceState, run: &OpenRun) -> bool
    ensures { result ≡ has_other_revisions service.now run.now }
{
    match service.bound.analysis(run.step) {
        Some(analysis) => !are_same(analysis.revisions(), run.analysis.revisions()),
        None => true,
    }
}

// Whether the lists have the same revisions of the same templates, in the same order.
fn are_same(revisions: &[Revision], others: &[Revision]) -> bool
    ensures { result ≡ pointwise same_revision revisions.now others.now }
{
    match (revisions, others) {
        ([], []) => true,
        ([first, rest @ ..], [other, later @ ..]) => {
            first.template == other.template
                && first.number == other.number
                && are_same(rest, later)
        }
        _ => false,
    }
}

// It is bound to other templates than its strategy's, or to none once a release was begun, or to
// what no strategy is bound to.
fn is_misbound(service: &ServiceState) -> bool
    ensures { result ≡ is_misbound service.now }
{
    !is_well_bound(service) || is_refused(&service.bound)
}

// Whether each analysis is bound to its own templates, or none is bound and the service is done.
fn is_well_bound(service: &ServiceState) -> bool
    ensures { result ≡ (is_bound service.now
        || (is_done service.now.state && is_unbound service.now)) }
{
    is_bound(service) || (service.state == ReleaseState::Done && is_unbound(service))
}

// Each analysis of the strategy is bound, to its own templates.
fn is_bound(service: &ServiceState) -> bool
    ensures { result ≡ is_bound service.now }
{
    are_steps_bound(service.strategy.steps(), service.bound.steps()) && is_background_bound(service)
}

// Whether each step is bound as it has to be, and both lists are of one length.
fn are_steps_bound(steps: &[Step], bound: &[Option<BoundAnalysis>]) -> bool
    ensures { result ≡ pointwise is_step_bound steps.now bound.now }
{
    match (steps, bound) {
        ([], []) => true,
        ([step, rest @ ..], [analysis, later @ ..]) => {
            is_step_bound(step, analysis.as_ref()) && are_steps_bound(rest, later)
        }
        _ => false,
    }
}

// Whether a step of an analysis is bound to its own templates, or any other step to nothing.
fn is_step_bound(step: &Step, analysis: Option<&BoundAnalysis>) -> bool
    ensures { result ≡ is_step_bound step.now (option_copied analysis.entry) }
{
    match step {
        Step::SetWeight(_) => analysis.is_none(),
        Step::Pause(_) => analysis.is_none(),
        Step::Analysis(names) => is_bound_to(names.as_slice(), analysis),
    }
}

// Whether the background is bound to its own templates, or to nothing if the strategy has none.
fn is_background_bound(service: &ServiceState) -> bool
    ensures { result
        ≡ is_background_bound service.now.strategy.background service.now.bound.background }
{
    match service.strategy.background() {
        None => service.bound.analysis(None).is_none(),
        Some(background) => {
            is_bound_to(
                background.templates.as_slice(),
                service.bound.analysis(None),
            )
        }
    }
}

// An analysis of these names is bound, to revisions of just these templates.
fn is_bound_to(names: &[Name], analysis: Option<&BoundAnalysis>) -> bool
    ensures { result ≡ is_bound_to names.now (option_copied analysis.entry) }
{
    match analysis {
        None => false,
        Some(analysis) => are_named(names, analysis.revisions()),
    }
}

// Whether the revisions are of the templates of these names, in the same order.
fn are_named(names: &[Name], revisions: &[Revision]) -> bool
    ensures { result ≡ same_names names.now (map (λ (r : RevisionRow). r.template) revisions.now) }
{
    match (names, revisions) {
        ([], []) => true,
        ([name, rest @ ..], [revision, later @ ..]) => {
            *name == revision.template && are_named(rest, later)
        }
        _ => false,
    }
}

// No analysis is bound.
fn is_unbound(service: &ServiceState) -> bool
    ensures { result ≡ is_unbound service.now }
{
    let steps = service.bound.steps();
    steps.len() == service.strategy.steps().len()
        && are_none(steps)
        && service.bound.analysis(None).is_none()
}

// Whether no step has an analysis that is bound.
fn are_none(analyses: &[Option<BoundAnalysis>]) -> bool
    ensures { result ≡ list_all (λ (a : Option Parts). is_none a) analyses.now }
{
    analyses.iter().all(|analysis| analysis.is_none())
}

// No strategy is bound to such: two metrics of one name, or a metric without end in a step's run.
fn is_refused(bound: &Bound) -> bool
    ensures { result ≡ is_refused bound.now }
{
    let steps = bound.steps();
    some_repeats_metric(steps) || repeats_metric_in(bound.analysis(None)) || some_has_endless(steps)
}

// Whether two metrics of one analysis of a step have one name.
fn some_repeats_metric(analyses: &[Option<BoundAnalysis>]) -> bool
    ensures { result ≡ list_any repeats_metric_in analyses.now }
{
    analyses
        .iter()
        .any(|analysis| repeats_metric_in(analysis.as_ref()))
}

// Two metrics of an analysis have one name.
fn repeats_metric_in(analysis: Option<&BoundAnalysis>) -> bool
    ensures { result ≡ repeats_metric_in (option_copied analysis.entry) }
{
    match analysis {
        None => false,
        Some(analysis) => repeats_name(analysis.metrics()),
    }
}

// Whether two of the metrics have one name.
fn repeats_name(metrics: &[Metric]) -> bool
    ensures { result ≡ has_duplicate (map (λ (m : MetricRow). m.name) metrics.now) }
{
    match metrics {
        [] => false,
        [metric, later @ ..] => some_is_named(metric.name(), later) || repeats_name(later),
    }
}

// Whether one of the metrics has that name.
fn some_is_named(name: Label, metrics: &[Metric]) -> bool
    ensures { result ≡ list_any (bytes_eq name) (map (λ (m : MetricRow). m.name) metrics.now) }
{
    match metrics {
        [] => false,
        [metric, later @ ..] => name == metric.name() || some_is_named(name, later),
    }
}

// Whether the analysis of a step has a metric without an end.
fn some_has_endless(analyses: &[Option<BoundAnalysis>]) -> bool
    ensures { result ≡ list_any has_endless analyses.now }
{
    analyses
        .iter()
        .any(|analysis| has_endless(analysis.as_ref()))
}

// A metric of an analysis has no end.
fn has_endless(analysis: Option<&BoundAnalysis>) -> bool
    ensures { result ≡ has_endless (option_copied analysis.entry) }
{
    match analysis {
        None => false,
        Some(analysis) => analysis.metrics().iter().any(is_without_end),
    }
}

// It has neither an effective count nor a number of successes in a row that completes it.
fn is_without_end(metric: &Metric) -> bool
    ensures { result ≡ is_without_end metric.now }
{
    effective_count(metric).is_none() && metric.pass_after().is_none()
}

// Runs are open, and no release is in progress.
fn is_left_open(service: &ServiceState, runs: &[OpenRun]) -> bool
    ensures { result ≡ (not (is_in_progress service.now.state) && nat_lt 0 (length runs.now)) }
{
    service.state != ReleaseState::InProgress && runs.len() > 0
}

// Whether two of the runs are of the background.
fn repeats_background(runs: &[OpenRun]) -> bool
    ensures { result ≡ nat_lt 1 (length (filter is_background_run runs.now)) }
{
    runs.iter().filter(|run| run.step.is_none()).count() > 1
}

// Whether two of the runs are of a step, be it the same one or not.
fn repeats_step(runs: &[OpenRun]) -> bool
    ensures { result ≡ nat_lt 1 (length (filter is_step_run runs.now)) }
{
    runs.iter().filter(|run| run.step.is_some()).count() > 1
}

// Whether one of the runs is of a step, and is not the run that the present step may have.
fn some_is_astray(service: &ServiceState, runs: &[OpenRun]) -> bool
    ensures { result ≡ list_any (is_astray service.now) runs.now }
{
    runs.iter().any(|run| is_astray(service, run))
}

// Whether a step's run is of another step, of one without an analysis, or open during a hold.
fn is_astray(service: &ServiceState, run: &OpenRun) -> bool
    ensures { result ≡ is_astray service.now run.now }
{
    let Some(step) = run.step else {
        return false;
    };
    step != service.step || service.bound.analysis(Some(step)).is_none() || service.is_held()
}

// The background run is open that was not begun, or that is held.
fn has_stray_background(parts: &ServiceParts) -> bool
    ensures { result ≡ (has_background_run parts.now
        && (not parts.now.service.background || parts.now.service.background_hold)) }
{
    has_background_run(parts.runs.open_runs.as_slice())
        && (!parts.service.background || parts.service.background_hold)
}

// Whether there is a hold, and no release is in progress.
fn has_stray_hold(service: &ServiceState) -> bool
    ensures { result ≡ (is_held service.now && not (is_in_progress service.now.state)) }
{
    service.is_held() && service.state != ReleaseState::InProgress
}

// The background run was opened that the strategy does not have.
fn lacks_background(service: &ServiceState) -> bool
    ensures { result ≡ (service.now.background && is_none service.now.strategy.background) }
{
    service.background && service.strategy.background().is_none()
}

// Whether the background holds the release, and its run was not opened in the present attempt.
fn has_stray_background_hold(service: &ServiceState) -> bool
    ensures { result ≡ (service.now.background_hold && not service.now.background) }
{
    service.background_hold && !service.background
}

// Whether one of the runs is completed by its own metrics.
fn some_is_judged(runs: &[OpenRun]) -> bool
    ensures { result ≡ list_any is_judged runs.now }
{
    runs.iter().any(is_judged)
}

// Whether the run is completed by its own metrics, after which it may not be open.
fn is_judged(run: &OpenRun) -> bool
    ensures { result ≡ is_judged run.now }
{
    is_completed(run.verdict(false))
}

// The present step has been left by time.
fn has_move_due(service: &ServiceState) -> bool
    ensures { result ≡ is_by service.now.last (next_move service.now) }
{
    service.next_move_by(service.last).is_some()
}
