//! One query.
ghost use Rattle.canary_once.specs.declared.event.Event.TheVariants as event;
ghost use Rattle.canary_once.specs.declared.event.Query.TheVariants as asks;
ghost use Rattle.canary_once.specs.Records.{past_of};
ghost use Rattle.canary_once.specs.Single.{IsAnsweredBy, RepliesBy};
ghost use Rattle.canary_once.specs.Views.{asked_of, view_of};
ghost use Rattle.canary_once.specs.Showing.{shown, Shows};

use crate::book::{Book, BookFault};
use crate::event::{Answer, Query};
use crate::{history, view_past, view_text};
use canary_base::moments::Moment;
use canary_base::names::Name;
use canary_base::numbers::Number;
use canary_release::laws;
use canary_release::reply::Reply;
use canary_release::service::Passed;
use std::alloc::Global;

/// Answers one query on a copy of the service, passed to the moment: 200 with what it asks for, or
/// 404 if there is no such service, or no such run. It changes nothing. If an allocation was
/// refused, the book's or its own, or the book's store failed, the answer is 503.
pub fn view<B: Book>(alloc: Global, book: &mut B, moment: Moment, query: &Query) -> Answer
    ensures { IsAnsweredBy (B.state book.old) (B.state book.new)
        (event.Query moment query.now) result }
{
    match look(alloc, book, moment, query) {
        Ok(reply) => Answer::Replied(reply),
        Err(fault) => Answer::Unavailable(fault),
    }
}

// The reply to a query, or the fault that `view` answers by 503; it recalls laws for the prover.
fn look<B: Book>(
    alloc: Global,
    book: &mut B,
    moment: Moment,
    query: &Query,
) -> Result<Reply, BookFault>
    ensures { RepliesBy (λ c. view_of c.desk moment query.now) (λ c. c)
        (B.state book.old) (B.state book.new) result }
{
    laws::watching();
    laws::changes();
    laws::time();
    laws::quiet();
    match book.service(&query.service())? {
        None => Ok(view_text::not_found(alloc, "unknown-service")?),
        Some(service) => {
            let passed = service.passed(alloc, moment)?;
            show(alloc, book, &passed, query)
        }
    }
}

// What the query asks for, of the service that was passed.
fn show<B: Book>(
    alloc: Global,
    book: &mut B,
    passed: &Passed,
    query: &Query,
) -> Result<Reply, BookFault>
    ensures { Shows (λ c. shown passed.now query.now (past_of c (asked_of query.now)))
        (B.state book.old) (B.state book.new) result }
{
    match query {
        Query::Service(_) => Ok(view_text::service_reply(alloc, &passed.service)?),
        Query::History(name) => show_history(alloc, book, passed, name),
        Query::Run(name, number) => show_run(alloc, book, passed, name, *number),
    }
}

// The reply with the stored history, and after it the lines of the passed service's effects.
fn show_history<B: Book>(
    alloc: Global,
    book: &mut B,
    passed: &Passed,
    name: &Name,
) -> Result<Reply, BookFault>
    ensures { Shows (λ c. shown passed.now (asks.History name.now) (past_of c name.now))
        (B.state book.old) (B.state book.new) result }
{
    let history = book.history(name)?;
    let lines = history::lines_after(history, passed.effects.as_slice())?;
    Ok(view_text::history_reply(alloc, passed.service.name(), lines.as_slice())?)
}

// The reply with the stored run, as the passed service's effects leave it, or that it is unknown.
fn show_run<B: Book>(
    alloc: Global,
    book: &mut B,
    passed: &Passed,
    name: &Name,
    number: Number,
) -> Result<Reply, BookFault>
    ensures { Shows (λ c. shown passed.now (asks.Run name.now number) (past_of c name.now))
        (B.state book.old) (B.state book.new) result }
{
    let found = book.run(name, number)?;
    let run = view_past::record_after(alloc, number.get(), found, passed.effects.as_slice())?;
    Ok(view_text::run_reply(alloc, &passed.service, run.as_ref())?)
}
