//! Copies that no program makes. What a copy has is proved, and here that one is made. Each call is
//! made twice on the same arguments: if memory is refused the first time, it leaves them as they
//! were.

use crate::once::RELEASE;
use crate::rows::{B, check, command, found, is_right, made, moment, name};
use crate::sending::send_story;
use canary_base::error::Memory;
use canary_base::lists::Listed;
use canary_base::moments::Moment;
use canary_base::names::Name;
use canary_base::numbers::Number;
use canary_canonical::command::CanonicalCommand;
use canary_condition::outcome::Phase;
use canary_once::book::{Book, BookFault, Receipt, Settlement};
use canary_once::memory::MemoryBook;
use canary_plan::command::Command;
use canary_plan::templates::Templates;
use canary_release::decide::{Decision, DeskChange, decide};
use canary_release::effect::{Effect, Recorded};
use canary_release::reply::Reported;
use canary_release::service::{Passed, Service};
use std::alloc::Global;
use std::process::Abort;

/// A report of a failure, which leaves the run open, and its reply.
const FAILED: &str = concat!(
    r#"{"report":{"entries":[{"failure":"down","metric":"m","ordinal":2,"taken":1767225660}],"#,
    r#""run":2,"service":"web"}}"#
);

const REPLY: &str = concat!(
    r#"{"code":"ok","phases":["Error"],"run":2,"service":"web","status":"Progressing","step":1,"#,
    r#""verdict":"Running","weight":10}"#
);

/// What the report comes to.
fn decided(
    alloc: Global,
    templates: Option<&Templates>,
    service: &Service,
    asked: Option<&Command>,
) -> Result<Decision, Memory> {
    let (Some(templates), Some(asked), Some(at)) = (templates, asked, moment("60")) else {
        return Err(Memory);
    };
    decide(alloc, templates, Some(service), at, asked)
}

fn decision_copy(alloc: Global, decision: Option<&Decision>) -> Result<Decision, Memory> {
    match decision {
        Some(decision) => decision.copy(alloc),
        None => Err(Memory),
    }
}

/// A copy of what the report comes to, by a copy of the templates.
fn decided_copy(
    alloc: Global,
    templates: Option<&Templates>,
    service: &Service,
) -> Result<Decision, Memory> {
    let asked = command(alloc, FAILED);
    decision_copy(
        alloc,
        made(&decided(alloc, templates, service, asked.as_ref())),
    )
}

fn effects(change: &DeskChange) -> &[Effect] {
    match change {
        DeskChange::Service {
            service: _,
            effects,
        } => effects.as_slice(),
        _ => &[],
    }
}

fn is_measurement(copy: &Recorded) -> bool {
    copy.run == 2 && copy.ordinal == 2 && copy.phase == Phase::Error
}

fn has_measurement(effects: &[Effect]) -> bool {
    for effect in effects {
        if let Effect::MeasurementRecorded(recorded) = effect {
            return is_measurement(recorded);
        }
    }
    false
}

fn is_settled(copy: Option<&Settlement>) -> Option<bool> {
    let copy = copy?;
    let is_receipt = copy.receipt.reply.body.as_str() == REPLY
        && copy.receipt.command.text() == FAILED;
    Some(is_receipt && has_measurement(effects(&copy.change)))
}

/// The command of the report as it is kept.
fn failed(alloc: Global, asked: Option<&Command>) -> Result<CanonicalCommand, Memory> {
    match asked {
        Some(asked) => CanonicalCommand::of(alloc, asked),
        None => Err(Memory),
    }
}

/// Whether the report has a copy as it is settled.
fn is_copied(
    alloc: Global,
    (caller, number): (Name, Number),
    command: CanonicalCommand,
    decision: Decision,
) -> Option<bool> {
    let Decision { reply, change } = decision;
    let settlement = Settlement {
        caller,
        number,
        receipt: Receipt { command, reply },
        change,
    };
    is_settled(made(&settlement.copy(alloc)))
}

fn is_decision_copied(
    alloc: Global,
    by: (Name, Number),
    templates: Option<&Templates>,
    service: &Service,
) -> Option<bool> {
    let command = failed(alloc, command(alloc, FAILED).as_ref()).ok()?;
    match decided_copy(alloc, templates, service) {
        Ok(decision) => is_copied(alloc, by, command, decision),
        Err(_) => None,
    }
}

fn is_settlement_copied(
    alloc: Global,
    templates: Option<&Templates>,
    service: Option<&Service>,
) -> Option<bool> {
    let by = (name("ops")?, Number::new(1)?);
    let (templates, service) = (templates?, service?);
    is_decision_copied(alloc, by, made(&templates.copy(alloc)), service)
}

/// Whether the service stands in the analysis of step 1, at its second run.
fn stands(service: &Service) -> bool {
    service.step() == 1 && service.run_count() == 2 && service.open_runs().len() == 1
}

fn is_passed(copy: Option<&Passed>) -> Option<bool> {
    let passed = copy?;
    Some(stands(&passed.service) && passed.service.last().get() == B + 90)
}

fn is_copy_passed(alloc: Global, passed: Option<&Passed>) -> Option<bool> {
    is_passed(made(&passed?.copy(alloc)))
}

fn is_passed_copied(alloc: Global, service: Option<&Service>) -> Option<bool> {
    let at = Moment::new(B + 90)?;
    is_copy_passed(alloc, made(&service?.passed(alloc, at)))
}

fn is_reported(copy: Option<&Reported>) -> Option<bool> {
    let copy = copy?;
    Some(copy.run == 2 && copy.phases.as_slice().len() == 1)
}

fn is_report_copied(alloc: Global) -> Option<bool> {
    let phases = Listed::of(Vec::from_slice(alloc, &[Phase::Error]).ok()?);
    let reported = Reported {
        phases,
        run: 2,
        verdict: Phase::Running,
    };
    is_reported(made(&reported.copy(alloc)))
}

/// What `of_desk` copies, in its order.
const CALLS: &str = "\
a settlement
a service that is passed
a report";

fn of_desk(
    alloc: Global,
    templates: Option<&Templates>,
    service: Option<&Service>,
    call: usize,
) -> Option<bool> {
    match call {
        0 => is_settlement_copied(alloc, templates, service),
        1 => is_passed_copied(alloc, service),
        _ => is_report_copied(alloc),
    }
}

fn of_templates(
    alloc: Global,
    book: &mut MemoryBook,
    templates: Result<&Templates, &BookFault>,
    call: usize,
) -> Option<bool> {
    let web = name("web")?;
    of_desk(alloc, templates.ok(), found(&book.service(&web)), call)
}

/// Whether a call makes a copy, of the template and the service that the book has.
fn of_copy(alloc: Global, book: &mut MemoryBook, call: usize) -> Option<bool> {
    let template = name("t")?;
    let templates = book.templates(&[template]);
    of_templates(alloc, book, templates.as_ref(), call)
}

fn check_copies(rt: &impl Abort, alloc: Global, book: &mut MemoryBook) {
    for (call, what) in CALLS.lines().enumerate() {
        let first = of_copy(alloc, book, call);
        check(rt, is_right(first, of_copy(alloc, book, call)), what);
    }
}

#[test]
fn of_copies(rt: HostRuntime) {
    check_copies(&rt, rt.alloc(), &mut send_story(&rt, rt.alloc(), RELEASE));
}
