//! Replies to settled requests.
ghost use Rattle.std.specs.Prelude.{◌≡◌, ◌++◌, IfOk, codes, decimal, string_bytes};
ghost use Rattle.canary_release.specs.Replies.{status_code, service_text, template_text};
ghost use Rattle.canary_release.specs.Replies.{accepted, refused, refusal_text, status_text};
ghost use Rattle.canary_release.specs.Replies.{code_alone, code_at, code_at_with};
ghost use Rattle.canary_release.specs.Services.{status, weight};

use crate::state::ServiceState;
use crate::words::{with, with_number, with_two};
use canary_base::error::Memory;
use canary_base::lists::{Listed, Text};
use canary_base::names::Name;
use canary_condition::outcome::Phase;
use canary_plan::refusal::Refusal;
use std::alloc::Global;

// The bytes that the text of a service has room for at first: a longer one asks for more.
const ROOM: usize = 128;

/// What a reply says of its request or query.
#[derive(Clone, Copy, Debug, PartialEq, Eq)]
pub enum ReplyStatus {
    /// The command was accepted, or what a query asks for is there.
    Accepted,
    /// The command was refused, which is kept.
    Refused,
    /// The request conflicts with what is settled, which changes nothing.
    Conflict,
    /// What a query asks for is not there.
    NotFound,
}

impl ReplyStatus {
    /// Its status code of HTTP (RFC 9110): 200, 422, 409 or 404.
    pub fn code(self) -> u16
        ensures { result ≡ status_code self }
    {
        match self {
            ReplyStatus::Accepted => 200,
            ReplyStatus::Refused => 422,
            ReplyStatus::Conflict => 409,
            ReplyStatus::NotFound => 404,
        }
    }
}

/// A reply: what it says of its request or query, and a body of JSON. A command's is Accepted or
/// Refused.
#[derive(Drop)]
pub struct Reply {
    pub status: ReplyStatus,
    pub body: Text,
}

impl Reply {
    /// A copy of it, or `Memory`.
    pub fn copy(&self, alloc: Global) -> Result<Reply, Memory>
        ensures { IfOk result (λ copy. copy ≡ self.now) }
    {
        Ok(Reply {
            status: self.status,
            body: self.body.copy(alloc)?,
        })
    }

    /// The reply of that status whose body has a code and nothing else, or `Memory`.
    pub fn of_code(alloc: Global, status: ReplyStatus, code: &str) -> Result<Reply, Memory>
        ensures { IfOk result (λ reply. reply
            ≡ record { status = status; body = code_alone code.now }) }
    {
        let body = code_alone(alloc, code)?;
        Ok(Reply {
            status,
            body: Text::of(body),
        })
    }

    /// The reply that accepts a command, with that body.
    pub(crate) fn accepts(body: String) -> Reply
        ensures { result ≡ accepted (string_bytes body) }
    {
        Reply {
            status: ReplyStatus::Accepted,
            body: Text::of(body),
        }
    }

    /// The reply that shows how a service stands.
    pub(crate) fn shows(alloc: Global, service: &ServiceState) -> Result<Reply, Memory>
        ensures { IfOk result (λ reply. reply ≡ accepted (service_text service.now)) }
    {
        Ok(Reply::accepts(service_body(alloc, service)?))
    }

    /// The reply that names a template that was added, and the number of its revision.
    pub(crate) fn names_template(alloc: Global, name: Name, revision: u32) -> Result<Reply, Memory>
        ensures { IfOk result (λ reply. reply ≡ accepted (template_text name revision)) }
    {
        Ok(Reply::accepts(template_body(alloc, name, revision)?))
    }

    /// The reply that refuses a command.
    pub(crate) fn refuses(alloc: Global, refusal: Refusal) -> Result<Reply, Memory>
        ensures { IfOk result (λ reply. reply ≡ refused refusal) }
    {
        let body = refusal_body(alloc, refusal)?;
        Ok(Reply {
            status: ReplyStatus::Refused,
            body: Text::of(body),
        })
    }
}

// The body that shows a service: its name, its status, its step and its weight.
fn service_body(alloc: Global, service: &ServiceState) -> Result<String, Memory>
    ensures { IfOk result (λ body. string_bytes body ≡ service_text service.now) }
{
    let text = String::with_capacity(alloc, ROOM)?;
    let text = with_place(text, "{\"code\":\"ok\",\"service\":\"", service)?;
    with_weight(text, ",\"weight\":", service)
}

// The text with a piece, a service's name, its status and its step after it.
pub(crate) fn with_place(
    text: String,
    piece: &str,
    service: &ServiceState,
) -> Result<String, Memory>
    ensures { IfOk result (λ all. string_bytes all
        ≡ string_bytes text ++ (piece.now ++ (service.now.name
        ++ (codes "\",\"status\":\"" ++ (status_text (status service.now)
        ++ (codes "\",\"step\":" ++ decimal service.now.step)))))) }
{
    let name = service.name;
    let text = with_two(text, piece, name.as_str())?;
    let text = with_two(text, "\",\"status\":\"", service.status().text())?;
    with_number(text, "\",\"step\":", service.step)
}

// The text with a piece, a service's weight and the end of a reply after it.
pub(crate) fn with_weight(
    text: String,
    piece: &str,
    service: &ServiceState,
) -> Result<String, Memory>
    ensures { IfOk result (λ all. string_bytes all
        ≡ string_bytes text ++ (piece.now ++ (decimal (weight service.now) ++ codes "}"))) }
{
    let text = with_number(text, piece, service.weight())?;
    with(text, "}")
}

// The body that names a template, and the number of the revision that was added.
fn template_body(alloc: Global, name: Name, revision: u32) -> Result<String, Memory>
    ensures { IfOk result (λ body. string_bytes body ≡ template_text name revision) }
{
    Ok(format!(in alloc; "{{\"code\":\"ok\",\"revision\":{revision},\"template\":\"{name}\"}}")?)
}

// The code, and if a refusal has a place, that too.
fn refusal_body(alloc: Global, refusal: Refusal) -> Result<String, Memory>
    ensures { IfOk result (λ body. string_bytes body ≡ refusal_text refusal) }
{
    match refusal {
        Refusal::UnknownMetric { at }
        | Refusal::RepeatedMetric { at }
        | Refusal::MetricClosed { at }
        | Refusal::AlreadyRecorded { at }
        | Refusal::Spent { at }
        | Refusal::Future { at } => code_at(alloc, at, refusal.code()),
        Refusal::OutOfTurn { at, expected } => {
            code_at_with(alloc, at, refusal.code(), "expected", u64::from(expected))
        }
        Refusal::TooEarly { at, due } => code_at_with(alloc, at, refusal.code(), "due", due),
        _ => code_alone(alloc, refusal.code()),
    }
}

// A body of a code and nothing else, as that of a refusal that is about no entry of a report.
fn code_alone(alloc: Global, code: &str) -> Result<String, Memory>
    ensures { IfOk result (λ body. string_bytes body ≡ code_alone code.now) }
{
    Ok(format!(in alloc; "{{\"code\":\"{code}\"}}")?)
}

// The body of a refusal of a report's entry, with the index of the entry.
fn code_at(alloc: Global, at: u32, code: &str) -> Result<String, Memory>
    ensures { IfOk result (λ body. string_bytes body ≡ code_at at code.now) }
{
    Ok(format!(in alloc; "{{\"at\":{at},\"code\":\"{code}\"}}")?)
}

// The same, with a number under one more key: the next ordinal, or the second when it is due.
fn code_at_with(
    alloc: Global,
    at: u32,
    code: &str,
    key: &str,
    number: u64,
) -> Result<String, Memory>
    ensures { IfOk result (λ body. string_bytes body ≡ code_at_with at code.now key.now number) }
{
    Ok(format!(in alloc; "{{\"at\":{at},\"code\":\"{code}\",\"{key}\":{number}}}")?)
}

/// What a report adds to its reply: the phases of its entries, its run, and the run's verdict.
#[derive(Drop)]
pub struct Reported {
    pub phases: Listed<Phase>,
    pub run: u32,
    pub verdict: Phase,
}

impl Reported {
    /// A copy of it, or `Memory`.
    pub fn copy(&self, alloc: Global) -> Result<Reported, Memory>
        ensures { IfOk result (λ copy. copy ≡ self.now) }
    {
        Ok(Reported {
            phases: self.phases.copy(alloc)?,
            run: self.run,
            verdict: self.verdict,
        })
    }
}
