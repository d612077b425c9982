//! What a reply means for the request that it answers.
ghost use Rattle.std.specs.Prelude.{◌≡◌, ◌==◌, ◌&&◌, [], ◌∷◌, IfOk, codes, map};
ghost use Rattle.serde_json.specs.View.{view};
ghost use Rattle.std.specs.Prelude.{Some};
ghost use Rattle.canary_client_journal.specs.Meanings.{meaning_of, meaning_in, meaning_with, ahead};
ghost use Rattle.canary_client_journal.specs.Meanings.{is_among, refusal_codes, message_codes};

use canary_base::error::Memory;
use canary_canonical::form::number_at;
use serde_json::Value;
use std::alloc::Global;

/// What a reply means.
#[derive(Clone, Copy, Debug, PartialEq, Eq)]
pub enum Meaning {
    /// The number is settled, and this is its reply.
    Settled,
    /// The desk could not do it now: it may be sent again under its number.
    Unavailable,
    /// Another command was settled under the number.
    Reused,
    /// The number is not the next one of this caller, which is this.
    Ahead(u32),
    /// The desk cannot read the request, so as it stands it will never be settled.
    Unread,
    /// It is no reply of a desk.
    Foreign,
}

/// What a reply with this status and this body means, or `Memory`. It is a desk's if its status and
/// its code are a pair with which a desk answers a request (docs/API.md, "Codes"), and else
/// `Foreign`, as is what a proxy answers in a desk's place.
pub fn meaning_of(alloc: Global, status: u16, body: &str) -> Result<Meaning, Memory>
    ensures { IfOk result (λ meaning. meaning ≡ meaning_of status body.now) }
{
    match Value::from_str(alloc, body) {
        Ok(value) => Ok(meaning_in(status, &value)),
        Err(fault) if fault.is_memory() => Err(Memory),
        Err(_) => Ok(Meaning::Foreign),
    }
}

// What a reply with this status and this body means; without a code it is `Foreign`.
fn meaning_in(status: u16, value: &Value) -> Meaning
    ensures { result ≡ meaning_in status (Some (view value.now)) }
{
    match value.get("code").and_then(Value::as_str) {
        Some(code) => meaning_with(status, code, number_at(value, "expected", u32::MAX)),
        None => Meaning::Foreign,
    }
}

// What a status and a code mean together. With `expected` the desk names the next number.
fn meaning_with(status: u16, code: &str, expected: Option<u32>) -> Meaning
    ensures { result ≡ meaning_with status code.now expected }
{
    if is_pair(status, 200, is_code(code, "ok")) {
        Meaning::Settled
    } else if is_pair(status, 422, is_refusal(code)) {
        Meaning::Settled
    } else if is_pair(status, 409, is_code(code, "reused")) {
        Meaning::Reused
    } else if is_pair(status, 409, is_code(code, "ahead")) {
        ahead(expected)
    } else if is_pair(status, 400, is_of_message(code)) {
        Meaning::Unread
    } else if is_pair(status, 404, is_code(code, "no-route")) {
        Meaning::Unread
    } else if is_pair(status, 405, is_code(code, "method")) {
        Meaning::Unread
    } else if is_pair(status, 411, is_code(code, "length")) {
        Meaning::Unread
    } else if is_pair(status, 413, is_code(code, "too-long")) {
        Meaning::Unread
    } else if is_pair(status, 503, is_of_fault(code)) {
        Meaning::Unavailable
    } else {
        Meaning::Foreign
    }
}

// Whether a reply has this status, and a code that goes with it.
fn is_pair(status: u16, own: u16, has_code: bool) -> bool
    ensures { result ≡ (status == own && has_code) }
{
    status == own && has_code
}

// Whether the code is this one. The contract has it as a list of one.
fn is_code(code: &str, own: &str) -> bool
    ensures { result ≡ is_among (own.now ∷ []) code.now }
{
    if code == own {
        return true;
    }
    false
}

// Whether a desk that could not do it now answers with this code.
fn is_of_fault(code: &str) -> bool
    ensures { result ≡ is_among (codes "no-memory" ∷ codes "storage" ∷ []) code.now }
{
    matches!(code, "no-memory" | "storage")
}

// `Ahead` with the number that the desk expects; `Foreign` if the reply names no such number.
fn ahead(expected: Option<u32>) -> Meaning
    ensures { result ≡ ahead expected }
{
    match expected {
        Some(expected) => Meaning::Ahead(expected),
        None => Meaning::Foreign,
    }
}

// Whether a desk refuses a command by its rules with this code.
fn is_refusal(code: &str) -> bool
    ensures { result ≡ is_among refusal_codes code.now }
{
    static CODES: [&str; 26] = [
        "unknown-service",
        "service-exists",
        "bad-condition",
        "interval-needed",
        "duplicate-metric",
        "bad-dry-run",
        "unknown-template",
        "endless-metric",
        "bad-strategy",
        "in-progress",
        "already-stable",
        "not-in-progress",
        "not-paused",
        "not-aborted",
        "runs-spent",
        "unknown-run",
        "run-closed",
        "unknown-metric",
        "repeated-metric",
        "metric-closed",
        "recorded",
        "out-of-turn",
        "spent",
        "future",
        "too-early",
        "revisions-spent",
    ];
    is_one_of(code, &CODES)
}

// Whether the code is one of these.
fn is_one_of(code: &str, own: &[&str]) -> bool
    ensures { result ≡ is_among (map (λ text. text.now) own.now) code.now }
{
    for text in own {
        if code == *text {
            return true;
        }
    }
    false
}

/// Whether a desk refuses a message that it cannot read with this code and the status 400.
pub fn is_of_message(code: &str) -> bool
    ensures { result ≡ is_among message_codes code.now }
{
    static CODES: [&str; 5] = [
        "malformed",
        "bad-name",
        "bad-number",
        "unsupported",
        "unreadable",
    ];
    is_one_of(code, &CODES)
}
