//! What each command does to a service that was passed to a moment, and why it is refused.
ghost use Rattle.std.specs.Prelude.{◌≡◌, ◌+◌, ◌<◌, ◌≤◌, false, length, Ok, IfOk, IsTrue, MatchResult, Some, None};
ghost use Rattle.canary_plan.specs.declared.command.Command.TheVariants as command_of;
ghost use Rattle.canary_release.specs.Services.{is_in_progress};
ghost use Rattle.std.specs.FinMap.{get};
ghost use Rattle.canary_plan.specs.PlanRefusals.{bound_refusal};
ghost use Rattle.canary_plan.specs.Plans.{bound_of, no_templates, are_fit};
ghost use Rattle.canary_plan.specs.Refusals.{or_refusal};
ghost use Rattle.canary_release.specs.Rules.Commands.{is_spent, start_refusal_at, retry_refusal_at};
ghost use Rattle.canary_release.specs.Rules.Commands.{start_refusal, retry_refusal};
ghost use Rattle.canary_release.specs.Rules.Commands.{promote_refusal, progress_refusal, begun};
ghost use Rattle.canary_release.specs.Rules.Commands.{started_at, start, retry, promoted_to, promote};
ghost use Rattle.canary_release.specs.Rules.Commands.{promote_full, abort_by_command, succeeds_with, unless, act};
ghost use Rattle.canary_release.specs.Rules.Passing.{pass};
ghost use Rattle.canary_release.specs.Replies.{accepted};
ghost use Rattle.canary_release.specs.Parts.{is_broken, repeats_number};
ghost use Rattle.canary_release.specs.Evolutions.{with_service_state, runs_now};
ghost use Rattle.canary_release.specs.Rules.Entering.{without_holds};
ghost use Rattle.canary_release.specs.Stored.{evolution_of, stored_after, run_total, command_result_of, model_result_of};

use crate::reply::{Reply, Reported};
use crate::runs::{MAX_RUNS, Runs};
use crate::state::{ReleaseState, ServiceState, Status};
use crate::transition::Transition;
use canary_base::error::Memory;
use canary_base::moments::Moment;
use canary_base::names::Label;
use canary_plan::bound::Bound;
use canary_plan::command::Command;
use canary_plan::fault::CheckFault;
use canary_plan::line::LineEvent;
use canary_plan::refusal::Refusal;
use canary_plan::report::Report;
use canary_plan::templates::Templates;
use std::alloc::Global;

// The numbers of runs that an attempt may take: one for each of 64 steps, one for the background,
// and one more if a promotion clears its hold.
const RUNS_OF_AN_ATTEMPT: u32 = 66;

/// Where a command leads a service, and what it adds to its reply if it is a report.
#[derive(Drop)]
pub(crate) struct CommandResult {
    pub transition: Transition,
    pub reported: Option<Reported>,
}

impl CommandResult {
    /// Where a command leads that is no report: it adds nothing to its reply.
    pub(crate) fn to(transition: Transition) -> CommandResult
        ensures command_result { command_result_of result
            ≡ succeeds_with (evolution_of transition) }
        ensures transition { result.transition ≡ transition }
    {
        CommandResult {
            transition,
            reported: None,
        }
    }

    /// The reply that shows it.
    pub(crate) fn reply(&self, alloc: Global) -> Result<Reply, Memory>
        ensures { IfOk result (λ reply. reply
            ≡ accepted ((command_result_of self.now).shows self.now.transition.service)) }
    {
        match &self.reported {
            None => Reply::shows(alloc, &self.transition.service),
            Some(reported) => Reply::reports(alloc, &self.transition.service, reported),
        }
    }

    /// It is bound to analyses that are fit for runs, as each that is bound is.
    pub(crate) fn recalling_fit_bound(self) -> CommandResult
        ensures same { result ≡ self }
        ensures fit { IsTrue (are_fit self.transition.service.bound) }
    {
        let _fit = self.transition.service.bound.analysis(None);
        self
    }

    /// Passed to a moment.
    pub(crate) fn pass(self, alloc: Global, at: Moment) -> Result<CommandResult, Memory>
        requires { run_total self.transition ≤ 2000000 }
        ensures { IfOk result (λ r. command_result_of r
            ≡ record (command_result_of self) {
              evolution = pass
                  (evolution_of self.transition) at;
            }) }
    {
        let CommandResult {
            transition,
            reported,
        } = self;
        let transition = transition.pass(alloc, at)?;
        Ok(CommandResult {
            transition,
            reported,
        })
    }
}

/// Where a command leads a service that was passed to a moment, or why it is refused.
pub(crate) fn act(
    alloc: Global,
    templates: &Templates,
    transition: Transition,
    at: Moment,
    command: &Command,
) -> Result<Result<CommandResult, Refusal>, Memory>
    requires { is_broken (stored_after (evolution_of transition)) ≡ false }
    ensures acted { IfOk result
        (λ acted. model_result_of acted
        ≡ act (get templates.now) command.now (evolution_of transition) at) }
    ensures made { IfOk result (λ acted. IfOk acted (λ r. run_total r.transition ≤ 1000002)) }
{
    match command {
        Command::Template(_) => Ok(Err(Refusal::ServiceExists)),
        Command::Service(_) => Ok(Err(Refusal::ServiceExists)),
        Command::Start { version, .. } => start(alloc, templates, transition, at, *version),
        Command::Promote { .. } => promote(alloc, transition, at),
        Command::PromoteFull { .. } => promote_full(alloc, transition, at),
        Command::Abort { .. } => abort(alloc, transition, at),
        Command::Retry { .. } => retry(alloc, templates, transition, at),
        Command::Tick { .. } => tick(transition),
        Command::Report(brought) => report(alloc, transition, at, brought),
    }
}

// What unbroken parts keep within.
pub(crate) fn recall_bounds(transition: &Transition)
    requires { is_broken (stored_after (evolution_of transition.now)) ≡ false }
    ensures made { run_total transition.now ≤ 1000000 }
    ensures on_steps { transition.now.service.step ≤ length transition.now.service.strategy.steps }
    ensures steps { length transition.now.service.strategy.steps ≤ 64 }
    ensures going { IsTrue (is_in_progress transition.now.service.state)
        → transition.now.service.step < length transition.now.service.strategy.steps }
    ensures numbers { repeats_number (runs_now (evolution_of transition.now)).open_runs ≡ false }
{
    let _steps = transition.service.strategy.steps();
}

// Begins an attempt with that version: at the first step, or at the end if an aborted release
// goes back to its stable version.
fn start(
    alloc: Global,
    templates: &Templates,
    transition: Transition,
    at: Moment,
    version: Label,
) -> Result<Result<CommandResult, Refusal>, Memory>
    requires { is_broken (stored_after (evolution_of transition)) ≡ false }
    ensures acted { IfOk result (λ acted. model_result_of acted
        ≡ unless (start_refusal (get templates.now) (evolution_of transition) version)
        (succeeds_with (start (get templates.now) (evolution_of transition) at version))) }
    ensures made { IfOk result (λ acted. IfOk acted (λ r. run_total r.transition ≤ 1000002)) }
{
    recall_bounds(&transition);
    let refusal = start_refusal(&transition, version);
    match bound_for(alloc, templates, &transition, refusal)? {
        Ok(bound) => {
            Ok(Ok(CommandResult::to(transition.start(alloc, templates, bound, at, version)?)))
        }
        Err(refusal) => Ok(Err(refusal)),
    }
}

// What these templates bind the strategy to, or why the command is refused: that the strategy
// cannot be bound comes before this refusal.
fn bound_for(
    alloc: Global,
    templates: &Templates,
    transition: &Transition,
    refusal: Option<Refusal>,
) -> Result<Result<Bound, Refusal>, Memory>
    ensures { let known = get templates.now in let strategy = transition.now.service.strategy
        in IfOk result (λ bound. MatchResult bound
        (λ b. (refusal ≡ None) × (bound_refusal known strategy ≡ None)
        × (b ≡ bound_of known strategy))
        (λ r. or_refusal (bound_refusal known strategy) refusal ≡ Some r)) }
{
    match transition.service.strategy.bind(alloc, templates) {
        Ok(bound) => Ok(unless_refused(refusal, bound)),
        Err(CheckFault::Refused(refusal)) => Ok(Err(refusal)),
        Err(CheckFault::Memory) => Err(Memory),
    }
}

// What a strategy is bound to, unless the command is refused.
fn unless_refused(refusal: Option<Refusal>, bound: Bound) -> Result<Bound, Refusal>
    ensures { MatchResult result (λ b. (refusal ≡ None) × (b ≡ bound)) (λ r. refusal ≡ Some r) }
{
    match refusal {
        Some(refusal) => Err(refusal),
        None => Ok(bound),
    }
}

// Why a Start of that version is refused, beside that its strategy cannot be bound.
fn start_refusal(transition: &Transition, version: Label) -> Option<Refusal>
    ensures { result ≡ start_refusal_at (evolution_of transition.now) version }
{
    if transition.service.state == ReleaseState::InProgress {
        return Some(Refusal::InProgress);
    }
    if transition.service.state == ReleaseState::Done && version == transition.service.stable {
        return Some(Refusal::AlreadyStable);
    }
    if is_spent(transition.runs()) {
        return Some(Refusal::RunsSpent);
    }
    None
}

// Whether fewer numbers of runs are left than an attempt may take.
fn is_spent(runs: &Runs) -> bool
    ensures { result ≡ is_spent runs.now }
{
    MAX_RUNS.saturating_sub(runs.count) < RUNS_OF_AN_ATTEMPT
}

// Begins an attempt anew with the version that was aborted.
fn retry(
    alloc: Global,
    templates: &Templates,
    transition: Transition,
    at: Moment,
) -> Result<Result<CommandResult, Refusal>, Memory>
    requires { is_broken (stored_after (evolution_of transition)) ≡ false }
    ensures acted { IfOk result (λ acted. model_result_of acted
        ≡ unless (retry_refusal (get templates.now) (evolution_of transition))
        (succeeds_with (retry (get templates.now) (evolution_of transition) at))) }
    ensures made { IfOk result (λ acted. IfOk acted (λ r. run_total r.transition ≤ 1000002)) }
{
    recall_bounds(&transition);
    let refusal = retry_refusal(&transition);
    match bound_for(alloc, templates, &transition, refusal)? {
        Ok(bound) => Ok(Ok(CommandResult::to(transition.retry(alloc, templates, bound, at)?))),
        Err(refusal) => Ok(Err(refusal)),
    }
}

// Why a Retry is refused, beside that its strategy cannot be bound.
fn retry_refusal(transition: &Transition) -> Option<Refusal>
    ensures { result ≡ retry_refusal_at (evolution_of transition.now) }
{
    if transition.service.state != ReleaseState::Aborted {
        return Some(Refusal::NotAborted);
    }
    if is_spent(transition.runs()) {
        return Some(Refusal::RunsSpent);
    }
    None
}

// Ends a hold, or the pause at which the release stands.
fn promote(
    alloc: Global,
    transition: Transition,
    at: Moment,
) -> Result<Result<CommandResult, Refusal>, Memory>
    requires { is_broken (stored_after (evolution_of transition)) ≡ false }
    ensures acted { IfOk result (λ acted. model_result_of acted
        ≡ unless (promote_refusal transition.service)
        (succeeds_with (promote (evolution_of transition) at))) }
    ensures made { IfOk result (λ acted. IfOk acted (λ r. run_total r.transition ≤ 1000002)) }
{
    recall_bounds(&transition);
    match promote_refusal(&transition.service) {
        Some(refusal) => Ok(Err(refusal)),
        None => Ok(Ok(CommandResult::to(transition.promote(alloc, at)?))),
    }
}

// Why a Promote is refused: no release is in progress, or it is neither held nor at a pause.
fn promote_refusal(service: &ServiceState) -> Option<Refusal>
    ensures { result ≡ promote_refusal service.now }
{
    if service.state != ReleaseState::InProgress {
        return Some(Refusal::NotInProgress);
    }
    if service.status() == Status::Progressing {
        return Some(Refusal::NotPaused);
    }
    None
}

// Why a PromoteFull or an Abort is refused: no release is in progress.
fn progress_refusal(service: &ServiceState) -> Option<Refusal>
    ensures { result ≡ progress_refusal service.now }
{
    if service.state != ReleaseState::InProgress {
        return Some(Refusal::NotInProgress);
    }
    None
}

// Goes to the end.
fn promote_full(
    alloc: Global,
    transition: Transition,
    at: Moment,
) -> Result<Result<CommandResult, Refusal>, Memory>
    requires { is_broken (stored_after (evolution_of transition)) ≡ false }
    ensures acted { IfOk result (λ acted. model_result_of acted
        ≡ unless (progress_refusal transition.service)
        (succeeds_with (promote_full (evolution_of transition) at))) }
    ensures made { IfOk result (λ acted. IfOk acted (λ r. run_total r.transition ≤ 1000002)) }
{
    recall_bounds(&transition);
    match progress_refusal(&transition.service) {
        Some(refusal) => Ok(Err(refusal)),
        None => Ok(Ok(CommandResult::to(transition.promote_full(alloc, at)?))),
    }
}

// Aborts the release: holds are cleared, open runs are ended, and the step stays.
fn abort(
    alloc: Global,
    transition: Transition,
    at: Moment,
) -> Result<Result<CommandResult, Refusal>, Memory>
    requires { is_broken (stored_after (evolution_of transition)) ≡ false }
    ensures acted { IfOk result (λ acted. model_result_of acted
        ≡ unless (progress_refusal transition.service)
        (succeeds_with (abort_by_command (evolution_of transition) at))) }
    ensures made { IfOk result (λ acted. IfOk acted (λ r. run_total r.transition ≤ 1000002)) }
{
    recall_bounds(&transition);
    match progress_refusal(&transition.service) {
        Some(refusal) => Ok(Err(refusal)),
        None => Ok(Ok(CommandResult::to(transition.abort_by_command(alloc, at)?))),
    }
}

// Measurements are recorded, and their run is assessed.
fn report(
    alloc: Global,
    transition: Transition,
    at: Moment,
    brought: &Report,
) -> Result<Result<CommandResult, Refusal>, Memory>
    requires { is_broken (stored_after (evolution_of transition)) ≡ false }
    ensures acted { IfOk result (λ acted. model_result_of acted
        ≡ act no_templates (command_of.Report brought.now) (evolution_of transition) at) }
    ensures made { IfOk result (λ acted. IfOk acted (λ r. run_total r.transition ≤ 1000002)) }
{
    recall_bounds(&transition);
    match transition.report(alloc, at, brought)? {
        Ok((transition, reported)) => Ok(Ok(CommandResult {
            transition,
            reported: Some(reported),
        })),
        Err(refusal) => Ok(Err(refusal)),
    }
}

// Time alone passes.
fn tick(transition: Transition) -> Result<Result<CommandResult, Refusal>, Memory>
    requires { is_broken (stored_after (evolution_of transition)) ≡ false }
    ensures acted { IfOk result
        (λ acted. model_result_of acted ≡ Ok (succeeds_with (evolution_of transition))) }
    ensures made { IfOk result (λ acted. IfOk acted (λ r. run_total r.transition ≤ 1000002)) }
{
    recall_bounds(&transition);
    Ok(Ok(CommandResult::to(transition)))
}

impl Transition {
    // Begins an attempt with that version, adds its line, and enters the step at which it starts.
    fn start(
        self,
        alloc: Global,
        templates: &Templates,
        bound: Bound,
        at: Moment,
        version: Label,
    ) -> Result<Transition, Memory>
        requires made { run_total self ≤ 1000000 }
        requires bound { bound ≡ bound_of (get templates.now) self.service.strategy }
        ensures started { IfOk result
            (λ t. evolution_of t ≡ start (get templates.now) (evolution_of self) at version) }
        ensures made { IfOk result (λ transition. run_total transition ≤ run_total self + 2) }
    {
        let step = self.service.started_at(version);
        let event = LineEvent::Started { version };
        let told = self.begun(templates, bound, version).tell(at, event)?;
        told.enter(alloc, step, at)
    }

    // Begins an attempt anew with the present version, adds its line, and enters step 0.
    fn retry(
        self,
        alloc: Global,
        templates: &Templates,
        bound: Bound,
        at: Moment,
    ) -> Result<Transition, Memory>
        requires made { run_total self ≤ 1000000 }
        requires bound { bound ≡ bound_of (get templates.now) self.service.strategy }
        ensures retried { IfOk result
            (λ t. evolution_of t ≡ retry (get templates.now) (evolution_of self) at) }
        ensures made { IfOk result (λ transition. run_total transition ≤ run_total self + 2) }
    {
        let version = self.version();
        let event = LineEvent::Retried { version };
        let told = self.begun(templates, bound, version).tell(at, event)?;
        told.enter(alloc, 0, at)
    }

    // The version of the last attempt, which a retry begins anew.
    fn version(&self) -> Label
        ensures { result ≡ self.now.service.version }
    {
        self.service.version
    }

    // Clears both holds, adds the line of the promotion, and enters the step to which it leads.
    fn promote(self, alloc: Global, at: Moment) -> Result<Transition, Memory>
        requires room { run_total self ≤ 1000000 }
        requires step { self.service.step < 4294967295 }
        ensures promoted { IfOk result (λ t. evolution_of t ≡ promote (evolution_of self) at) }
        ensures made { IfOk result (λ transition. run_total transition ≤ run_total self + 2) }
    {
        let step = self.service.promoted_to();
        let told = self.without_holds().tell(at, LineEvent::Promoted)?;
        told.enter(alloc, step, at)
    }

    // Adds the line of the full promotion, and enters the end: the steps between are left out.
    fn promote_full(self, alloc: Global, at: Moment) -> Result<Transition, Memory>
        requires room { run_total self ≤ 1000000 }
        requires steps { length self.service.strategy.steps ≤ 64 }
        ensures promoted { IfOk result (λ t. evolution_of t ≡ promote_full (evolution_of self) at) }
        ensures made { IfOk result (λ transition. run_total transition ≤ run_total self + 2) }
    {
        let end = self.service.end();
        let told = self.tell(at, LineEvent::PromotedFull)?;
        told.enter(alloc, end, at)
    }

    // Adds the line that a command aborts the release, and aborts it.
    fn abort_by_command(self, alloc: Global, at: Moment) -> Result<Transition, Memory>
        ensures aborted { IfOk result
            (λ t. evolution_of t ≡ abort_by_command (evolution_of self) at) }
        ensures made { IfOk result (λ transition. run_total transition ≡ run_total self) }
    {
        let told = self.tell(at, LineEvent::Aborted)?;
        told.abort(alloc, at)
    }

    // An attempt with that version is in progress, bound so, with no holds and no background run
    // yet.
    fn begun(self, templates: &Templates, bound: Bound, version: Label) -> Transition
        requires { bound ≡ bound_of (get templates.now) self.service.strategy }
        ensures begun { evolution_of result
            ≡ begun (get templates.now) (evolution_of self) version }
        ensures made { run_total result ≡ run_total self }
    {
        let Transition { service, tracked } = self;
        let service = ServiceState {
            bound,
            version,
            state: ReleaseState::InProgress,
            background: false,
            ..service
        };
        Transition { service, tracked }.without_holds()
    }

    // Both holds are cleared.
    fn without_holds(self) -> Transition
        ensures cleared { evolution_of result
            ≡ with_service_state (evolution_of self) (without_holds self.service) }
        ensures made { run_total result ≡ run_total self }
    {
        let Transition { service, tracked } = self;
        let service = ServiceState {
            step_hold: false,
            background_hold: false,
            ..service
        };
        Transition { service, tracked }
    }
}

impl ServiceState {
    // The step at which a release of that version starts.
    fn started_at(&self, version: Label) -> u32
        ensures { result ≡ started_at self.now version }
    {
        if self.state == ReleaseState::Aborted && version == self.stable {
            self.end()
        } else {
            0
        }
    }

    // The index after the last step.
    fn end(&self) -> u32
        ensures { result ≡ length self.now.strategy.steps }
    {
        self.strategy.steps().len() as u32
    }

    // The step to which a promotion leads.
    fn promoted_to(&self) -> u32
        requires { self.now.step < 4294967295 }
        ensures { result ≡ promoted_to self.now }
    {
        if self.step_hold {
            return self.step + 1;
        }
        if self.background_hold {
            return self.step;
        }
        self.step + 1
    }
}
