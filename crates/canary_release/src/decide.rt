//! Decisions: what a command answers, and what it changes.
ghost use Rattle.std.specs.Prelude.{◌≡◌, [], ◌∷◌, nat_le, Ok, Err, false, IfOk, IsTrue, option_map};
ghost use Rattle.std.specs.Option.{option_copied};
ghost use Rattle.std.specs.FinMap.{get};
ghost use Rattle.canary_plan.specs.declared.command.Command.TheVariants as command_of;
ghost use Rattle.canary_plan.specs.declared.refusal.Refusal.TheVariants as refusal_of;
ghost use Rattle.canary_plan.specs.Plans.{Agree, strategy_of, unbound, are_fit};
ghost use Rattle.canary_plan.specs.Refusals.{first_that_holds};
ghost use Rattle.canary_plan.specs.Commands.{subject_of, names_looked_up};
ghost use Rattle.canary_release.specs.Desks.{Desk, rules, refuses, new_service_state, new_service};
ghost use Rattle.canary_release.specs.Desks.{act_new, act_passed, rule_template, rule_service};
ghost use Rattle.canary_release.specs.Desks.{adds_unless, newest_number, newest, model_decision};
ghost use Rattle.canary_release.specs.Parts.{is_broken};
ghost use Rattle.canary_release.specs.Replies.{accepted, template_text};
ghost use Rattle.canary_release.specs.Stored.{stored_service, strategy_kept, evolution_of, stored_evolution, stored_after};
ghost use Rattle.canary_release.specs.Stored.{command_result_of, model_result_of, decision_of, IsStep};

use crate::effect::{Effect, copy_effects};
use crate::laws;
use crate::reply::Reply;
use crate::rules::commands::{self, CommandResult};
use crate::runs::Runs;
use crate::service::{Service, ServiceParts};
use crate::state::{ReleaseState, ServiceState};
use crate::transition::Transition;
use canary_base::error::Memory;
use canary_base::lists::Listed;
use canary_base::moments::Moment;
use canary_base::names::Name;
use canary_plan::bound::Bound;
use canary_plan::command::Command;
use canary_plan::fault::{BindFault, CheckFault};
use canary_plan::line::LineEvent;
use canary_plan::refusal::Refusal;
use canary_plan::service::ServiceSpec;
use canary_plan::strategy::Strategy;
use canary_plan::template::Template;
use canary_plan::template_spec::TemplateSpec;
use canary_plan::templates::Templates;
use std::alloc::Global;

/// The greatest number of a template's revision.
pub const MAX_REVISIONS: u32 = 1_000_000;

/// What a command does to the desk.
#[derive(Drop)]
pub enum DeskChange {
    /// It changes nothing.
    Nothing,
    /// This revision of a template is added.
    Template(Template),
    /// The service that it names becomes this one, with these effects, in order.
    Service {
        service: Service,
        effects: Listed<Effect>,
    },
}

impl DeskChange {
    /// A copy of it, or `Memory`.
    pub fn copy(&self, alloc: Global) -> Result<DeskChange, Memory>
        ensures { IfOk result (λ copy. copy ≡ self.now) }
    {
        Ok(match self {
            DeskChange::Nothing => DeskChange::Nothing,
            DeskChange::Template(template) => DeskChange::Template(template.copy(alloc)?),
            DeskChange::Service { service, effects } => DeskChange::Service {
                service: service.copy(alloc)?,
                effects: copy_effects(alloc, effects.as_slice())?,
            },
        })
    }
}

/// What a command answers and does.
#[derive(Drop)]
pub struct Decision {
    pub reply: Reply,
    pub change: DeskChange,
}

impl Decision {
    /// A copy of it, or `Memory`.
    pub fn copy(&self, alloc: Global) -> Result<Decision, Memory>
        ensures { IfOk result (λ copy. copy ≡ self.now) }
    {
        Ok(Decision {
            reply: self.reply.copy(alloc)?,
            change: self.change.copy(alloc)?,
        })
    }
}

/// Decides a command at a moment: one step of the small machine, on every desk that has this
/// service, or none, under the name that the command names, and whose newest revisions agree with
/// these templates on the names that the command looks up: a Start and a Retry look up those of the
/// service's strategy. A service is judged at the later of the moment and its last one. A refusal
/// is a reply of status 422, and changes nothing.
///
/// # Errors
/// `Memory`.
pub fn decide(
    alloc: Global,
    templates: &Templates,
    service: Option<&Service>,
    now: Moment,
    command: &Command,
) -> Result<Decision, Memory>
    ensures { IfOk result (λ d. (desk : Desk)
        → Agree (get templates.now) (newest desk.templates)
        (names_looked_up (option_map strategy_kept (option_copied service.entry)) command.now)
        → option_copied service.entry ≡ stored_service desk (subject_of command.now)
        → IsStep desk now command.now d) }
{
    laws::watching();
    rule(alloc, templates, service, now, command)
}

// What the command does and answers, from the templates and the service alone.
fn rule(
    alloc: Global,
    templates: &Templates,
    service: Option<&Service>,
    now: Moment,
    command: &Command,
) -> Result<Decision, Memory>
    ensures { IfOk result (λ d. d
        ≡ decision_of
        (model_decision (get templates.now)
        (option_map stored_evolution (option_copied service.entry)) now command.now)) }
{
    match command.template() {
        Some(spec) => rule_template(alloc, templates, spec),
        None => rule_service(alloc, templates, service, now, command),
    }
}

// The next revision of a template is added.
fn rule_template(
    alloc: Global,
    templates: &Templates,
    spec: &TemplateSpec,
) -> Result<Decision, Memory>
    ensures { IfOk result (λ d. d
        ≡ decision_of (rule_template (get templates.now spec.now.name) spec.now)) }
{
    let newest = newest_revision(templates, spec.name);
    match Template::bind(alloc, spec, newest.saturating_add(1)) {
        Ok(template) => add_revision(alloc, newest, template),
        Err(BindFault::Refused(refusal)) => refuse(alloc, refusal),
        Err(BindFault::Memory) => Err(Memory),
    }
}

// The number of a template's newest revision, 0 if there is none.
fn newest_revision(templates: &Templates, name: Name) -> u32
    ensures { result ≡ newest_number (get templates.now name) }
{
    match templates.get(name) {
        Some(template) => template.revision(),
        None => 0,
    }
}

// The template is added, unless its name has as many revisions as it may have.
fn add_revision(alloc: Global, newest: u32, template: Template) -> Result<Decision, Memory>
    ensures { IfOk result (λ d. d
        ≡ decision_of (adds_unless
        (first_that_holds ((nat_le 1000000 newest, refusal_of.RevisionsSpent) ∷ [])) template)) }
{
    if newest >= MAX_REVISIONS {
        return refuse(alloc, Refusal::RevisionsSpent);
    }
    let reply = names(alloc, &template)?;
    Ok(Decision {
        reply,
        change: DeskChange::Template(template),
    })
}

// The reply that names a new revision of a template.
fn names(alloc: Global, template: &Template) -> Result<Reply, Memory>
    ensures { IfOk result (λ reply. reply
        ≡ accepted (template_text template.now.spec.name template.now.revision)) }
{
    Reply::names_template(alloc, template.spec.name, template.revision())
}

// A command on a service, which may be there.
fn rule_service(
    alloc: Global,
    templates: &Templates,
    service: Option<&Service>,
    now: Moment,
    command: &Command,
) -> Result<Decision, Memory>
    ensures { IfOk result (λ d. d
        ≡ decision_of
        (rule_service (get templates.now)
        (option_map stored_evolution (option_copied service.entry)) now command.now)) }
{
    let acted = act_on(alloc, templates, service, now, command)?;
    say(alloc, acted)
}

// Where the command leads its service, or a new one if there is no such service; or its refusal.
fn act_on(
    alloc: Global,
    templates: &Templates,
    service: Option<&Service>,
    now: Moment,
    command: &Command,
) -> Result<Result<CommandResult, Refusal>, Memory>
    ensures acted { IfOk result (λ acted. rules (model_result_of acted)
        ≡ rule_service (get templates.now)
        (option_map stored_evolution (option_copied service.entry)) now command.now) }
    ensures unbroken { IfOk result
        (λ acted. IfOk acted (λ r. is_broken (stored_after (evolution_of r.transition)) ≡ false)) }
{
    match service {
        Some(service) => act_passed(alloc, templates, service, now, command),
        None => act_new(alloc, templates, now, command),
    }
}

// A refusal changes nothing; else the service becomes what the command leads to, and is shown.
fn say(alloc: Global, acted: Result<CommandResult, Refusal>) -> Result<Decision, Memory>
    requires { IfOk acted (λ r. is_broken (stored_after (evolution_of r.transition)) ≡ false) }
    ensures { IfOk result (λ d. d ≡ decision_of (rules (model_result_of acted))) }
{
    match acted {
        Ok(command_result) => show(alloc, command_result),
        Err(refusal) => refuse(alloc, refusal),
    }
}

// The decision that refuses a command: it changes nothing.
fn refuse(alloc: Global, refusal: Refusal) -> Result<Decision, Memory>
    ensures { IfOk result (λ d. d ≡ decision_of (refuses refusal)) }
{
    Ok(Decision {
        reply: Reply::refuses(alloc, refusal)?,
        change: DeskChange::Nothing,
    })
}

// The decision that accepts a command: the service becomes what it leads to, with its effects.
fn show(alloc: Global, command_result: CommandResult) -> Result<Decision, Memory>
    requires { is_broken (stored_after (evolution_of command_result.transition)) ≡ false }
    ensures { IfOk result (λ d. d ≡ decision_of (rules (Ok (command_result_of command_result)))) }
{
    let reply = command_result.reply(alloc)?;
    let (parts, effects) = command_result.transition.end();
    Ok(Decision {
        reply,
        change: DeskChange::Service {
            service: Service::of(parts),
            effects,
        },
    })
}

// A command on a service, which is passed before and after.
fn act_passed(
    alloc: Global,
    templates: &Templates,
    service: &Service,
    now: Moment,
    command: &Command,
) -> Result<Result<CommandResult, Refusal>, Memory>
    ensures acted { IfOk result (λ acted. model_result_of acted
        ≡ act_passed (get templates.now) command.now (stored_evolution service.now) now) }
    ensures unbroken { IfOk result
        (λ acted. IfOk acted (λ r. is_broken (stored_after (evolution_of r.transition)) ≡ false)) }
{
    laws::parts();
    service.recall_checked_strategy();
    act_within(alloc, templates, service, now, command)
}

// Does all of `act_passed`, but promises fit analyses, from which that has unbroken parts.
fn act_within(
    alloc: Global,
    templates: &Templates,
    service: &Service,
    now: Moment,
    command: &Command,
) -> Result<Result<CommandResult, Refusal>, Memory>
    ensures acted { IfOk result (λ acted. model_result_of acted
        ≡ act_passed (get templates.now) command.now (stored_evolution service.now) now) }
    ensures fit { IfOk result
        (λ acted. IfOk acted (λ r. IsTrue (are_fit r.transition.service.bound))) }
{
    let at = service.parts().service.judged_at(now);
    let passed = service.passed_transition(alloc, now)?;
    match commands::act(alloc, templates, passed, at, command)? {
        Ok(command_result) => Ok(Ok(command_result.pass(alloc, at)?.recalling_fit_bound())),
        Err(refusal) => Ok(Err(refusal)),
    }
}

// A command if there is no service of its name.
fn act_new(
    alloc: Global,
    templates: &Templates,
    now: Moment,
    command: &Command,
) -> Result<Result<CommandResult, Refusal>, Memory>
    ensures acted { IfOk result (λ acted. model_result_of acted
        ≡ act_new (get templates.now) command.now now) }
    ensures unbroken { IfOk result
        (λ acted. IfOk acted (λ r. is_broken (stored_after (evolution_of r.transition)) ≡ false)) }
{
    match command.service() {
        Some(spec) => add(alloc, templates, spec, now),
        None => Ok(Err(Refusal::UnknownService)),
    }
}

// A new service, if its strategy is accepted.
fn add(
    alloc: Global,
    templates: &Templates,
    spec: &ServiceSpec,
    now: Moment,
) -> Result<Result<CommandResult, Refusal>, Memory>
    ensures acted { IfOk result (λ acted. model_result_of acted
        ≡ act_new (get templates.now) (command_of.Service spec.now) now) }
    ensures unbroken { IfOk result
        (λ acted. IfOk acted (λ r. is_broken (stored_after (evolution_of r.transition)) ≡ false)) }
{
    match Strategy::check(alloc, spec, templates) {
        Ok(strategy) => Ok(Ok(CommandResult::to(new_service(alloc, spec, strategy, now)?))),
        Err(CheckFault::Refused(refusal)) => Ok(Err(refusal)),
        Err(CheckFault::Memory) => Err(Memory),
    }
}

// A new service has no past but the line that reports it.
fn new_service(
    alloc: Global,
    spec: &ServiceSpec,
    strategy: Strategy,
    now: Moment,
) -> Result<Transition, Memory>
    requires { strategy ≡ strategy_of spec.now }
    ensures new { IfOk result (λ t. evolution_of t ≡ new_service spec.now now) }
    ensures unbroken { IfOk result (λ t. is_broken (stored_after (evolution_of t)) ≡ false) }
{
    laws::parts();
    new_transition(alloc, spec, strategy, now)
}

// The transition that makes a service: it has no runs, and one line of its history.
fn new_transition(
    alloc: Global,
    spec: &ServiceSpec,
    strategy: Strategy,
    now: Moment,
) -> Result<Transition, Memory>
    requires { strategy ≡ strategy_of spec.now }
    ensures { IfOk result (λ transition. evolution_of transition ≡ new_service spec.now now) }
{
    laws::watching();
    let bound = strategy.unbound(alloc)?;
    let parts = ServiceParts {
        service: new_service_state(spec, strategy, bound, now),
        runs: Runs::new(alloc),
    };
    let version = spec.version;
    Transition::of(alloc, &parts)?.tell(now, LineEvent::Created { version })
}

// A new service is done and bound to no templates: its version is the stable one.
fn new_service_state(
    spec: &ServiceSpec,
    strategy: Strategy,
    bound: Bound,
    now: Moment,
) -> ServiceState
    requires of_spec { strategy ≡ strategy_of spec.now }
    requires unbound { bound ≡ unbound strategy }
    ensures { result ≡ new_service_state spec.now now }
{
    let step = strategy.steps().len() as u32;
    ServiceState {
        name: spec.name,
        strategy,
        bound,
        stable: spec.version,
        version: spec.version,
        state: ReleaseState::Done,
        step,
        entered: now,
        step_hold: false,
        background_hold: false,
        background: false,
        last: now,
    }
}
