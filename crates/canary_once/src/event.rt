//! Requests as they arrive, and their answers.
ghost use Rattle.std.specs.Prelude.{◌≡◌, IfOk};
ghost use Rattle.canary_once.specs.AnswerTexts.{answer_status, answer_body};
ghost use Rattle.canary_once.specs.Views.{asked_of};

use crate::book::BookFault;
use canary_base::error::Memory;
use canary_base::moments::Moment;
use canary_base::names::Name;
use canary_base::numbers::Number;
use canary_plan::command::Command;
use canary_release::reply::Reply;
use std::alloc::Global;

/// A request as it arrives: when, from whom, under which number, and what it asks.
#[derive(Drop)]
pub struct Request {
    pub moment: Moment,
    pub caller: Name,
    pub number: Number,
    pub command: Command,
}

impl Request {
    /// A copy of it, or `Memory`.
    pub fn copy(&self, alloc: Global) -> Result<Request, Memory>
        ensures { IfOk result (λ copy. copy ≡ self.now) }
    {
        Ok(Request {
            moment: self.moment,
            caller: self.caller,
            number: self.number,
            command: self.command.copy(alloc)?,
        })
    }
}

/// What is asked of the desk, which shows it and keeps nothing.
#[derive(Clone, Copy, Debug, PartialEq, Eq)]
pub enum Query {
    /// How a service stands.
    Service(Name),
    /// The history of a service.
    History(Name),
    /// A run of a service.
    Run(Name, Number),
}

impl Query {
    /// The service that it asks for.
    pub fn service(&self) -> Name
        ensures { result ≡ asked_of self.now }
    {
        match self {
            Query::Service(name) => *name,
            Query::History(name) => *name,
            Query::Run(name, _) => *name,
        }
    }
}

/// What arrives at the desk: a request, or a query at its moment.
#[derive(Drop)]
pub enum Event {
    Request(Request),
    Query { moment: Moment, query: Query },
}

impl Event {
    /// A copy of it, or `Memory`.
    pub fn copy(&self, alloc: Global) -> Result<Event, Memory>
        ensures { IfOk result (λ copy. copy ≡ self.now) }
    {
        match self {
            Event::Request(request) => Ok(Event::Request(request.copy(alloc)?)),
            Event::Query { moment, query } => Ok(Event::Query {
                moment: *moment,
                query: *query,
            }),
        }
    }
}

/// The answer to an event.
#[derive(Drop)]
pub enum Answer {
    /// A reply: to a request the machine's if it is new, that of its receipt if it is
    /// repeated, and else a conflict; to a query what it asks for, or that it is not there.
    Replied(Reply),
    /// No reply, and nothing changed: an allocation was refused (`Memory`), or the store failed
    /// (`Storage`). The same event may be sent again.
    Unavailable(BookFault),
}

impl Answer {
    /// A copy of it, or `Memory`.
    pub fn copy(&self, alloc: Global) -> Result<Answer, Memory>
        ensures { IfOk result (λ copy. copy ≡ self.now) }
    {
        Ok(match self {
            Answer::Replied(reply) => Answer::Replied(reply.copy(alloc)?),
            Answer::Unavailable(fault) => Answer::Unavailable(*fault),
        })
    }

    /// Its status code of HTTP (RFC 9110): the reply's, or 503.
    pub fn status(&self) -> u16
        ensures { result ≡ answer_status self.now }
    {
        match self {
            Answer::Replied(reply) => reply.status.code(),
            Answer::Unavailable(_) => 503,
        }
    }

    /// Its body of JSON: the reply's, or `{"code":"no-memory"}` or `{"code":"storage"}`.
    pub fn body(&self) -> &str
        ensures { result.now ≡ answer_body self.now }
    {
        match self {
            Answer::Replied(reply) => reply.body.as_str(),
            Answer::Unavailable(BookFault::Memory) => "{\"code\":\"no-memory\"}",
            Answer::Unavailable(BookFault::Storage) => "{\"code\":\"storage\"}",
        }
    }
}
