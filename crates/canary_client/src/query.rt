//! Queries, sent until they are answered.
ghost use Rattle.std.specs.Prelude.{◌≡◌};
ghost use Rattle.canary_client_journal.specs.Meanings.{is_among};
ghost use Rattle.canary_client_journal.specs.Messages.{query_text};
ghost use Rattle.canary_client_journal.specs.Networks.{GoesOn};
ghost use Rattle.canary_client.specs.Promises.{IsQuery};
ghost use Rattle.canary_client.specs.Queries.{why_again, not_found_codes};

use crate::outcome::Stop;
use canary_client_journal::meaning::is_of_message;
use canary_client_journal::network::{Heard, Network, RetryReason, query};
use canary_client_journal::settle::rest;
use serde_json::Value;
use std::alloc::Global;

/// Sends a query of this path until the desk answers it, `tries` times at most, and has the reply,
/// of whatever status.
///
/// # Errors
/// `NoDesk` if it was not answered; `Memory`.
pub fn answer<N: Network>(
    alloc: Global,
    network: &mut N,
    path: &str,
    tries: u32,
) -> Result<Heard, Stop>
    ensures { GoesOn N.was_sent N.was_told N.was_unanswered network.old network.new
        (λ m. m ≡ query_text path.now) }
{
    let message = query(alloc, path)?;
    for tried in 0..tries {
        let why = match network.exchange(alloc, message.as_str()) {
            Ok(response) => match why_again(alloc, &response)? {
                None => return Ok(response),
                Some(why) => why,
            },
            Err(RetryReason::Memory) => return Err(Stop::Memory),
            Err(why) => why,
        };
        rest(network, tried + 1, tries, why);
    }
    Err(Stop::NoDesk)
}

// Why a query has to be sent again that got this reply: none if a desk answers a query so.
fn why_again(alloc: Global, response: &Heard) -> Result<Option<RetryReason>, Stop> {
    let value = match Value::from_str(alloc, response.body.as_str()) {
        Ok(value) => value,
        Err(fault) if fault.is_memory() => return Err(Stop::Memory),
        Err(_) => return Ok(Some(RetryReason::Foreign)),
    };
    match value.get("code").and_then(Value::as_str) {
        Some(code) => Ok(why_with(response.status, code)),
        None => Ok(Some(RetryReason::Foreign)),
    }
}

// Why a query is sent again after this status and code; none if the desk answered it with them.
fn why_with(status: u16, code: &str) -> Option<RetryReason>
    ensures { result ≡ why_again status code.now }
{
    match status {
        200 if code == "ok" => None,
        404 if is_not_found(code) => None,
        400 if is_of_message(code) => None,
        405 if code == "method" => None,
        503 if code == "no-memory" || code == "storage" => Some(RetryReason::Unavailable),
        _ => Some(RetryReason::Foreign),
    }
}

// Whether a desk answers 404 with this code.
fn is_not_found(code: &str) -> bool
    ensures { result ≡ is_among not_found_codes code.now }
{
    matches!(code, "unknown-service" | "unknown-run" | "no-route")
}

/// The value of the reply to a query of this path.
///
/// # Errors
/// What `answer` answers; `NoService` or `NoRun` if there is none; `Query` if the desk refused it
/// for another reason; `ReplyUnread` if the reply is no JSON; `Memory`.
pub fn value_at<N: Network>(
    alloc: Global,
    network: &mut N,
    path: &str,
    tries: u32,
) -> Result<Value, Stop>
    ensures { GoesOn N.was_sent N.was_told N.was_unanswered network.old network.new IsQuery }
{
    let response = answer(alloc, network, path, tries)?;
    value_of(alloc, &response)
}

// The value of a reply; or why the desk refused the query, if its status is not 200.
fn value_of(alloc: Global, response: &Heard) -> Result<Value, Stop> {
    match Value::from_str(alloc, response.body.as_str()) {
        Ok(value) if response.status == 200 => Ok(value),
        Ok(value) => Err(refusal(&value)),
        Err(fault) if fault.is_memory() => Err(Stop::Memory),
        Err(_) => Err(Stop::ReplyUnread),
    }
}

// Why the desk refused a query.
fn refusal(value: &Value) -> Stop {
    match value.get("code").and_then(Value::as_str) {
        Some("unknown-service") => Stop::NoService,
        Some("unknown-run") => Stop::NoRun,
        _ => Stop::Query,
    }
}
