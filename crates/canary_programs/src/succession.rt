//! A new desk that goes on where an old one stands.
ghost use Rattle.std.specs.Prelude.{◌≡◌, ◌≢◌, ◌≤◌, [], ◌++◌, false, true, Err, All, IfOk, OnOk};
ghost use Rattle.std.specs.Option.{option_copied};
ghost use Rattle.std.specs.List.{filter_map, cons_option};
ghost use Rattle.canary_once.specs.BookCalls.{Stays};
ghost use Rattle.canary_release.specs.Services.{is_in_progress};
ghost use Rattle.canary_once.specs.Single.{request_of};
ghost use Rattle.canary_programs.specs.declared.fault.Fault.TheVariants as fault;
ghost use Rattle.canary_programs.specs.Successions.{is_going_on, are_going_on, stand_at};
ghost use Rattle.canary_programs.specs.Successions.{spec_again, template_again, service_again};
ghost use Rattle.canary_programs.specs.Successions.{commands_again, requests_from};
ghost use Rattle.canary_programs.specs.Successions.{requests_again, IsAccepted, Succeeds};

use crate::fault::Fault;
use crate::show::name_of;
use canary_base::error::Memory;
use canary_base::lists::Listed;
use canary_base::moments::Moment;
use canary_base::names::Name;
use canary_base::numbers::Number;
use canary_once::book::Book;
use canary_once::event::{Answer, Event, Request};
use canary_once::run::run;
use canary_plan::command::Command;
use canary_plan::service::{Background, ServiceSpec};
use canary_plan::step::copy_steps;
use canary_release::reply::ReplyStatus;
use canary_release::service::Service;
use canary_release::state::ReleaseState;
use std::alloc::Global;

// The caller of the requests by which a new desk is made.
const CALLER: &str = "succeed";

/// Makes in the book `new` the desk that succeeds the one of the book `old`, at a moment, by
/// requests of the caller `succeed`, numbered from 1: the newest revision of each of these
/// templates, and then each of these services, with its strategy and, as its version, the one that
/// is stable. A name that `old` does not have is left out. The book `old` is unchanged.
///
/// # Errors
/// `InProgress` if a release of one of the services, passed to that moment, is going on. `Storage`
/// if a store failed, or gave back what nobody wrote; `Memory` if an allocation was refused, as for
/// more than 1,000,000,000 requests. Some of them may be settled in `new` after the last two.
pub fn succeed<A: Book, B: Book>(
    alloc: Global,
    old: &mut A,
    templates: &[Name],
    services: &[Name],
    now: Moment,
    new: &mut B,
) -> Result<(), Fault>
    ensures stays { Stays (A.state old.old) (A.state old.new) }
    ensures idle { (A.state old.new).is_honest → OnOk result
        (are_going_on (A.state old.old).contents.desk now services.now ≡ false) }
    ensures going { (A.state old.new).is_honest → result ≡ Err fault.InProgress
        → are_going_on (A.state old.old).contents.desk now services.now ≡ true }
    ensures made { (A.state old.new).is_honest → (B.state new.new).is_honest → OnOk result
        (Succeeds (requests_again (A.state old.old).contents.desk now templates.now services.now)
        (B.state new.old).contents (B.state new.new).contents) }
{
    let commands = commands_again(alloc, old, templates, services, now)?;
    let requests = requests_of(alloc, commands, now)?;
    settle(alloc, new, requests.as_slice())
}

// The commands that make these templates and services anew.
fn commands_again<B: Book>(
    alloc: Global,
    book: &mut B,
    templates: &[Name],
    services: &[Name],
    now: Moment,
) -> Result<Listed<Command>, Fault>
    ensures stays { Stays (B.state book.old) (B.state book.new) }
    ensures idle { (B.state book.new).is_honest → IfOk result (λ _.
        are_going_on (B.state book.old).contents.desk now services.now ≡ false) }
    ensures going { (B.state book.new).is_honest → result ≡ Err fault.InProgress
        → are_going_on (B.state book.old).contents.desk now services.now ≡ true }
    ensures made { (B.state book.new).is_honest → IfOk result (λ commands. commands
        ≡ commands_again (B.state book.old).contents.desk now templates.now services.now) }
{
    let commands = with_templates(alloc, book, templates)?;
    with_services(alloc, book, services, now, commands)
}

// The commands that make these templates anew.
fn with_templates<B: Book>(
    alloc: Global,
    book: &mut B,
    names: &[Name],
) -> Result<Listed<Command>, Fault>
    ensures stays { Stays (B.state book.old) (B.state book.new) }
    ensures made { (B.state book.new).is_honest → IfOk result (λ commands. commands
        ≡ filter_map (template_again (B.state book.old).contents.desk) names.now) }
    ensures other { result ≢ Err fault.InProgress }
{
    let mut commands = Listed::of(Vec::new(alloc));
    for name in names {
        let command = template_again(alloc, book, name)?;
        push_if(&mut commands, command)?;
    }
    Ok(commands)
}

// These commands, and after them those that make these services anew.
fn with_services<B: Book>(
    alloc: Global,
    book: &mut B,
    names: &[Name],
    now: Moment,
    commands: Listed<Command>,
) -> Result<Listed<Command>, Fault>
    ensures stays { Stays (B.state book.old) (B.state book.new) }
    ensures idle { (B.state book.new).is_honest → IfOk result (λ _.
        are_going_on (B.state book.old).contents.desk now names.now ≡ false) }
    ensures going { (B.state book.new).is_honest → result ≡ Err fault.InProgress
        → are_going_on (B.state book.old).contents.desk now names.now ≡ true }
    ensures made { (B.state book.new).is_honest → IfOk result (λ all. all
        ≡ commands ++ filter_map (service_again (B.state book.old).contents.desk now) names.now) }
{
    let mut commands = commands;
    for name in names {
        let command = service_again(alloc, book, name, now)?;
        push_if(&mut commands, command)?;
    }
    Ok(commands)
}

// Adds the command after the others, if there is one; or `Memory`.
fn push_if(commands: &mut Listed<Command>, command: Option<Command>) -> Result<(), Memory>
    ensures ok { OnOk result (commands.new ≡ commands.old ++ cons_option command []) }
{
    match command {
        Some(command) => commands.push(command),
        None => Ok(()),
    }
}

// The command that makes the newest revision of a template anew, if there is one.
fn template_again<B: Book>(
    alloc: Global,
    book: &mut B,
    name: &Name,
) -> Result<Option<Command>, Fault>
    ensures stays { Stays (B.state book.old) (B.state book.new) }
    ensures made { (B.state book.new).is_honest → IfOk result (λ command. command
        ≡ template_again (B.state book.old).contents.desk name.now) }
    ensures other { result ≢ Err fault.InProgress }
{
    let found = book.templates(&[*name])?;
    match found.get(*name) {
        Some(template) => Ok(Some(Command::Template(template.spec.copy(alloc)?))),
        None => Ok(None),
    }
}

// The command that makes a service anew, as it stands at that moment, if there is such a service.
fn service_again<B: Book>(
    alloc: Global,
    book: &mut B,
    name: &Name,
    now: Moment,
) -> Result<Option<Command>, Fault>
    ensures stays { Stays (B.state book.old) (B.state book.new) }
    ensures idle { (B.state book.new).is_honest → IfOk result (λ _.
        is_going_on (B.state book.old).contents.desk now name.now ≡ false) }
    ensures going { (B.state book.new).is_honest → result ≡ Err fault.InProgress
        → is_going_on (B.state book.old).contents.desk now name.now ≡ true }
    ensures made { (B.state book.new).is_honest → IfOk result (λ command. command
        ≡ service_again (B.state book.old).contents.desk now name.now) }
{
    match book.service(name)? {
        Some(service) => Ok(Some(Command::Service(made_again(alloc, &service, now)?))),
        None => Ok(None),
    }
}

// The service as it is asked for anew, if no release of it is going on at that moment.
fn made_again(alloc: Global, service: &Service, now: Moment) -> Result<ServiceSpec, Fault>
    ensures idle { IfOk result (λ _. is_in_progress (stand_at now service.now).state ≡ false) }
    ensures going { result ≡ Err fault.InProgress
        → is_in_progress (stand_at now service.now).state ≡ true }
    ensures made { IfOk result (λ spec. spec ≡ spec_again (stand_at now service.now)) }
    ensures unasked { result ≢ Err fault.Storage }
{
    let passed = service.passed(alloc, now)?;
    if is_in_progress(passed.service.state()) {
        return Err(Fault::InProgress);
    }
    Ok(spec_again(alloc, &passed.service)?)
}

// Whether a release is going on in this state of a service.
fn is_in_progress(state: ReleaseState) -> bool
    ensures { result ≡ is_in_progress state }
{
    matches!(state, ReleaseState::InProgress)
}

// The service as it is asked for anew: with its strategy, and its stable version.
fn spec_again(alloc: Global, service: &Service) -> Result<ServiceSpec, Memory>
    ensures { IfOk result (λ spec. spec ≡ spec_again service.now.service) }
{
    let strategy = service.strategy();
    let steps = copy_steps(alloc, strategy.steps())?;
    let background = copied(alloc, strategy.background())?;
    Ok(ServiceSpec {
        name: service.name(),
        version: service.stable(),
        steps,
        background,
    })
}

// A copy of the background, if there is one; or `Memory`.
fn copied(alloc: Global, background: Option<&Background>) -> Result<Option<Background>, Memory>
    ensures { IfOk result (λ copy. copy ≡ option_copied background.entry) }
{
    match background {
        Some(background) => Ok(Some(background.copy(alloc)?)),
        None => Ok(None),
    }
}

// These commands as requests of one caller, numbered from 1, all at one moment.
fn requests_of(
    alloc: Global,
    commands: Listed<Command>,
    now: Moment,
) -> Result<Listed<Event>, Fault>
    ensures made { IfOk result (λ requests. requests ≡ requests_from now 1 commands) }
    ensures other { result ≢ Err fault.InProgress }
{
    let caller = name_of(CALLER)?;
    let mut requests = Listed::of(Vec::new(alloc));
    let mut number = 1;
    for command in commands.into_vec() {
        let request = request_of(caller, number, command, now)?;
        requests.push(request)?;
        number += 1;
    }
    Ok(requests)
}

// The command as a request; `Memory` also if the number is invalid, as above 1,000,000,000.
fn request_of(caller: Name, number: u32, command: Command, now: Moment) -> Result<Event, Memory>
    ensures made { IfOk result
        (λ request. request ≡ Event.Request (request_of now caller number command)) }
    ensures limit { OnOk result (number ≤ 1000000000) }
{
    let Some(number) = Number::new(number) else {
        return Err(Memory);
    };
    Ok(Event::Request(Request {
        moment: now,
        caller,
        number,
        command,
    }))
}

// Settles these requests, each of which is accepted.
fn settle<B: Book>(alloc: Global, book: &mut B, requests: &[Event]) -> Result<(), Fault>
    ensures made { (B.state book.new).is_honest → OnOk result
        (Succeeds requests.now (B.state book.old).contents (B.state book.new).contents) }
    ensures other { result ≢ Err fault.InProgress }
{
    let answers = run(alloc, book, requests)?;
    are_accepted(answers.as_slice())
}

// That each answer is an accepted reply, or the fault of the first that is not.
fn are_accepted(answers: &[Answer]) -> Result<(), Fault>
    ensures ok { OnOk result (All IsAccepted answers.now) }
    ensures other { result ≢ Err fault.InProgress }
{
    for answer in answers {
        is_accepted(answer)?;
    }
    Ok(())
}

// That the answer is an accepted reply; a refused one is `Storage`.
fn is_accepted(answer: &Answer) -> Result<(), Fault>
    ensures ok { OnOk result (IsAccepted answer.now) }
    ensures other { result ≢ Err fault.InProgress }
{
    match answer {
        Answer::Replied(reply) => {
            if reply.status == ReplyStatus::Accepted {
                Ok(())
            } else {
                Err(Fault::Storage)
            }
        }
        Answer::Unavailable(fault) => Err((*fault).into()),
    }
}
