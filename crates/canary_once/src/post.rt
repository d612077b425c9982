//! One request.
ghost use Rattle.std.specs.Prelude.{◌≡◌, ◌+◌, IfOk, option_map};
ghost use Rattle.std.specs.Option.{option_copied};
ghost use Rattle.canary_plan.specs.Commands.{names_looked_up};
ghost use Rattle.canary_release.specs.Stored.{strategy_kept};
ghost use Rattle.canary_once.specs.Contents.{count_of};
ghost use Rattle.canary_once.specs.Answers.{reused_reply, ahead_reply, repeat_reply};
ghost use Rattle.canary_once.specs.Single.{request_of, reply_to, after_one, new_reply, settle};
ghost use Rattle.canary_once.specs.Single.{IsAnsweredBy, RepliesBy, DecidesOn};

use crate::book::{Book, BookFault, Receipt, Settlement};
use crate::event::{Answer, Event};
use crate::laws;
use canary_base::error::Memory;
use canary_base::lists::{Listed, Text};
use canary_base::moments::Moment;
use canary_base::names::Name;
use canary_base::numbers::Number;
use canary_canonical::command::CanonicalCommand;
use canary_plan::command::Command;
use canary_release::decide::{Decision, decide};
use canary_release::reply::{Reply, ReplyStatus};
use canary_release::service::Service;
use std::alloc::Global;

/// Answers one request: a new one is settled, a repeat gets the reply of its receipt, and one ahead
/// of its turn is refused. If an allocation was refused, the book's or its own, or the book's
/// store failed, the answer is 503 and nothing changed.
pub fn post<B: Book>(
    alloc: Global,
    book: &mut B,
    moment: Moment,
    caller: Name,
    number: Number,
    command: &Command,
) -> Answer
    ensures { IsAnsweredBy (B.state book.old) (B.state book.new)
        (Event.Request (request_of moment caller number command.now)) result }
{
    laws::soundness();
    match reply(alloc, book, moment, caller, number, command) {
        Ok(reply) => Answer::Replied(reply),
        Err(fault) => Answer::Unavailable(fault),
    }
}

// The reply to a request: new at the caller's next number, a repeat below it, and ahead above it.
fn reply<B: Book>(
    alloc: Global,
    book: &mut B,
    moment: Moment,
    caller: Name,
    number: Number,
    command: &Command,
) -> Result<Reply, BookFault>
    ensures { let r = request_of moment caller number command.now
        in RepliesBy (λ c. reply_to c r) (λ c. after_one c r)
        (B.state book.old) (B.state book.new) result }
{
    let next = u64::from(book.settled(&caller)?) + 1;
    let asked = u64::from(number.get());
    if asked == next {
        return settle_new(alloc, book, moment, caller, number, command);
    }
    if asked > next {
        return Ok(refuse_ahead(alloc, next)?);
    }
    let receipt = book.receipt(&caller, number)?;
    Ok(repeat(alloc, receipt, command)?)
}

// Settles a new request. Its reply is made before the commit.
fn settle_new<B: Book>(
    alloc: Global,
    book: &mut B,
    moment: Moment,
    caller: Name,
    number: Number,
    command: &Command,
) -> Result<Reply, BookFault>
    requires { (B.state book.old).is_honest
        → number ≡ count_of (B.state book.old).contents caller + 1 }
    ensures { let r = request_of moment caller number command.now
        in RepliesBy (λ c. new_reply c r) (λ c. settle c r)
        (B.state book.old) (B.state book.new) result }
{
    let decision = decide_on(alloc, book, moment, command)?;
    let reply = decision.reply.copy(alloc)?;
    let settlement = Settlement {
        caller,
        number,
        receipt: Receipt {
            command: CanonicalCommand::of(alloc, command)?,
            reply: decision.reply,
        },
        change: decision.change,
    };
    book.commit(settlement)?;
    Ok(reply)
}

// Decides a command by the service that it names and the newest revisions of the templates that it
// looks up: which these are may depend on the service. The book is asked for the service before
// anything is allocated: its answer says what holds of its contents, also if memory is refused
// after it.
fn decide_on<B: Book>(
    alloc: Global,
    book: &mut B,
    moment: Moment,
    command: &Command,
) -> Result<Decision, BookFault>
    ensures { DecidesOn moment command.now (B.state book.old) (B.state book.new) result }
{
    let service = book.service(&command.subject())?;
    let names = names_looked_up(alloc, command, service.as_ref())?;
    let templates = book.templates(names.as_slice())?;
    Ok(decide(alloc, &templates, service.as_ref(), moment, command)?)
}

// The templates that a command on this service looks up.
fn names_looked_up(
    alloc: Global,
    command: &Command,
    service: Option<&Service>,
) -> Result<Listed<Name>, Memory>
    ensures { IfOk result (λ names. names
        ≡ names_looked_up (option_map strategy_kept (option_copied service.entry)) command.now) }
{
    match service {
        Some(service) => command.names_looked_up(alloc, Some(service.strategy())),
        None => command.names_looked_up(alloc, None),
    }
}

// The reply of the receipt, if it is of the same command: their canonical texts are compared.
fn repeat(alloc: Global, receipt: Option<Receipt>, command: &Command) -> Result<Reply, Memory>
    ensures { IfOk result (λ reply. reply ≡ repeat_reply receipt command.now) }
{
    let asked = CanonicalCommand::of(alloc, command)?;
    match receipt {
        Some(receipt) => {
            if receipt.command.is_same(&asked) {
                Ok(receipt.reply)
            } else {
                refuse_reused(alloc)
            }
        }
        None => refuse_reused(alloc),
    }
}

// The conflict for a number that is settled, but not with the same command.
fn refuse_reused(alloc: Global) -> Result<Reply, Memory>
    ensures { IfOk result (λ reply. reply ≡ reused_reply) }
{
    Reply::of_code(alloc, ReplyStatus::Conflict, "reused")
}

// The conflict for a number above the caller's next one, which is `expected`.
fn refuse_ahead(alloc: Global, expected: u64) -> Result<Reply, Memory>
    ensures { IfOk result (λ reply. reply ≡ ahead_reply expected) }
{
    let body = format!(in alloc; "{{\"code\":\"ahead\",\"expected\":{expected}}}")?;
    Ok(Reply {
        status: ReplyStatus::Conflict,
        body: Text::of(body),
    })
}
