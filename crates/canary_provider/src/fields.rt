//! The fields of a message's head: those of the plan, and the agent's own.
ghost use Rattle.std.specs.Prelude.{◌≡◌, ◌≤◌, ◌++◌, [], length, decimal, codes, IfOk, OnOk};
ghost use Rattle.std.specs.Prelude.{IsTrue, IfSome, false, option_map, unwrap_or, position};
ghost use Rattle.std.specs.List.{list_all, list_any};
ghost use Rattle.std.specs.Str.{str_eq_ignore_ascii_case};
ghost use Rattle.json.specs.Value.{value_view, items_view};
ghost use Rattle.canary_provider.specs.Plans.{given_at, IsHeader, AreHeaders, AreHeadersAt};
ghost use Rattle.canary_provider.specs.Plans.{is_token, is_token_byte, is_token_mark, is_own};
ghost use Rattle.canary_provider.specs.Plans.{is_colon, name_of, has_name, with_own, with_type};
ghost use Rattle.canary_provider.specs.Plans.{with_length, HasFields};

use crate::line::HeaderLine;
use crate::refusal::ProviderRefusal;
use crate::stop::PlanFault;
use crate::target::Method;
use crate::values::{items_of, text_at};
use itoa::Buffer;
use json::Value;
use std::alloc::Global;

const USER_AGENT: &str = "User-Agent: canary";

const ACCEPT: &str = "Accept: application/json";

const ENCODING: &str = "Accept-Encoding: identity";

const CONNECTION: &str = "Connection: close";

const CONTENT_TYPE: &str = "Content-Type: application/json";

const LENGTH: &str = "Content-Length: ";

/// The member of that key, if it is there and not null.
pub(crate) fn given_at<'v, 'a>(value: &'v Value<'a>, key: &str) -> Option<&'v Value<'a>>
    ensures { option_map (λ v. value_view v.now) result ≡ given_at key.now (value_view value.now) }
{
    match value.get(key) {
        Some(member) if !member.is_null() => Some(member),
        _ => None,
    }
}

/// The fields that a plan has, and those that each message has besides.
#[tactic(auto, unfolding(crate::specs::Plans::with_all_own))]
pub(crate) fn fields_of(alloc: Global, value: &Value<'_>) -> Result<Vec<HeaderLine>, PlanFault>
    ensures { IfOk result (λ fields. HasFields (value_view value.now) fields.items) }
{
    let mut fields = headers_at(alloc, given_at(value, "headers"))?;
    add_own(alloc, &mut fields, USER_AGENT)?;
    add_own(alloc, &mut fields, ACCEPT)?;
    add_own(alloc, &mut fields, ENCODING)?;
    add_own(alloc, &mut fields, CONNECTION)?;
    Ok(fields)
}

/// Adds what says of which kind a body is, if it is JSON.
pub(crate) fn add_type(
    alloc: Global,
    fields: &mut Vec<HeaderLine>,
    is_json: bool,
) -> Result<(), PlanFault>
    ensures { OnOk result (fields.new.items ≡ with_type is_json fields.old.items) }
{
    if is_json {
        add_own(alloc, fields, CONTENT_TYPE)
    } else {
        Ok(())
    }
}

/// Adds how long a body is, if the method has one.
pub(crate) fn add_length(
    alloc: Global,
    fields: &mut Vec<HeaderLine>,
    method: Method,
    length: usize,
) -> Result<(), PlanFault>
    ensures { OnOk result (fields.new.items ≡ with_length method length fields.old.items) }
{
    match method {
        Method::Get => Ok(()),
        Method::Post | Method::Put => {
            let line = length_line(alloc, length)?;
            fields.push(line)?;
            Ok(())
        }
    }
}

// The field Content-Length with that number, in decimal.
fn length_line(alloc: Global, length: usize) -> Result<HeaderLine, PlanFault>
    ensures { IfOk result (λ line. line ≡ LENGTH.now ++ decimal length) }
{
    let mut buffer = Buffer::new();
    let digits = buffer.format(length);
    line_of(alloc, LENGTH.as_bytes(), digits.as_bytes(), &[])
}

// The line of these three parts, one after another; refused as `HeaderValue` if they are no line.
fn line_of(
    alloc: Global,
    first: &[u8],
    second: &[u8],
    third: &[u8],
) -> Result<HeaderLine, PlanFault>
    ensures { IfOk result (λ line. line ≡ first.now ++ second.now ++ third.now) }
{
    match HeaderLine::of_parts(alloc, first, second, third)? {
        Some(line) => Ok(line),
        None => Err(PlanFault::Refused(ProviderRefusal::HeaderValue)),
    }
}

// ---- the fields of the plan

// The fields that the plan's `headers` ask for, if they are there; refused if they are no list.
fn headers_at(alloc: Global, headers: Option<&Value<'_>>) -> Result<Vec<HeaderLine>, PlanFault>
    ensures { IfOk result (λ lines. AreHeadersAt
        (option_map (λ v. value_view v.now) headers.entry) lines.items) }
{
    match headers {
        Some(list) => match items_of(list) {
            Some(items) => headers_of(alloc, items),
            None => Err(PlanFault::Refused(ProviderRefusal::Headers)),
        },
        None => Ok(Vec::new(alloc)),
    }
}

// The field that each item asks for, in order, or the first refusal.
fn headers_of(alloc: Global, list: &[Value<'_>]) -> Result<Vec<HeaderLine>, PlanFault>
    ensures { IfOk result (λ lines. AreHeaders (items_view list.now) lines.items) }
{
    let mut lines = Vec::new(alloc);
    for item in list {
        lines.push(header_of(alloc, item)?)?;
    }
    Ok(lines)
}

// The field that an object with `key` and `value` asks for; refused if one of them is no text.
fn header_of(alloc: Global, value: &Value<'_>) -> Result<HeaderLine, PlanFault>
    ensures { IfOk result (λ line. IsHeader (value_view value.now) line) }
{
    let Some(key) = text_at(value, "key") else {
        return Err(PlanFault::Refused(ProviderRefusal::Headers));
    };
    let Some(text) = text_at(value, "value") else {
        return Err(PlanFault::Refused(ProviderRefusal::Headers));
    };
    header(alloc, key.as_bytes(), text.as_bytes())
}

// The field of that name with that text; refused if the name is no token, or no plan may have it.
fn header(alloc: Global, key: &[u8], text: &[u8]) -> Result<HeaderLine, PlanFault>
    ensures name { OnOk result (IsTrue (is_token key.now)) }
    ensures own { OnOk result (is_own key.now ≡ false) }
    ensures line { IfOk result (λ line. line ≡ key.now ++ codes ": " ++ text.now) }
{
    if !is_token(key) {
        return Err(PlanFault::Refused(ProviderRefusal::HeaderName));
    }
    if is_own(key) {
        return Err(PlanFault::Refused(ProviderRefusal::OwnHeader));
    }
    line_of(alloc, key, b": ", text)
}

// Whether a plan may not have a field of that name.
fn is_own(name: &[u8]) -> bool
    ensures { result ≡ is_own name.now }
{
    is_same_name(b"Host", name)
        || is_same_name(b"Connection", name)
        || is_same_name(b"Content-Length", name)
        || is_same_name(b"Transfer-Encoding", name)
        || is_same_name(b"Accept-Encoding", name)
        || is_same_name(b"Keep-Alive", name)
        || is_same_name(b"Expect", name)
        || is_same_name(b"TE", name)
        || is_same_name(b"Trailer", name)
        || is_same_name(b"Upgrade", name)
}

// Whether both names are the same but for the case of their letters.
fn is_same_name(one: &[u8], other: &[u8]) -> bool
    ensures { result ≡ str_eq_ignore_ascii_case one.now other.now }
{
    one.eq_ignore_ascii_case(other)
}

// Whether it is a token (RFC 9110, section 5.6.2).
fn is_token(bytes: &[u8]) -> bool
    ensures { result ≡ is_token bytes.now }
{
    !bytes.is_empty() && are_token_bytes(bytes)
}

// Whether each byte may be in a token; so it is if there are no bytes.
fn are_token_bytes(bytes: &[u8]) -> bool
    ensures { result ≡ list_all is_token_byte bytes.now }
{
    bytes.iter().all(|byte| is_token_byte(*byte))
}

// Whether the byte may be in a token: a letter, a digit or a mark.
fn is_token_byte(byte: u8) -> bool
    ensures { result ≡ is_token_byte byte }
{
    byte.is_ascii_alphanumeric() || is_token_mark(byte)
}

// Whether the byte is one of the 15 marks that a token may have.
fn is_token_mark(byte: u8) -> bool
    ensures { result ≡ is_token_mark byte }
{
    "!#$%&'*+-.^_`|~"
        .as_bytes()
        .iter()
        .any(|mark| *mark == byte)
}

// ---- the agent's own

// Adds a field, unless there is one of its name.
fn add_own(alloc: Global, fields: &mut Vec<HeaderLine>, own: &str) -> Result<(), PlanFault>
    ensures { OnOk result (fields.new.items ≡ with_own own.now fields.old.items) }
{
    if has_name(fields.as_slice(), own.as_bytes()) {
        return Ok(());
    }
    let line = line_of(alloc, own.as_bytes(), &[], &[])?;
    fields.push(line)?;
    Ok(())
}

// Whether one of them has the name of that one.
fn has_name(fields: &[HeaderLine], own: &[u8]) -> bool
    ensures { result ≡ list_any (has_name own.now) fields.now }
{
    fields.iter().any(|line| is_named_as(line.as_bytes(), own))
}

// Whether the line of a field has the name of that other line.
fn is_named_as(line: &[u8], own: &[u8]) -> bool
    ensures { result ≡ has_name own.now line.now }
{
    is_same_name(name_of(line), name_of(own))
}

// What stands before the first colon.
fn name_of(line: &[u8]) -> &[u8]
    ensures { result.now ≡ name_of line.now }
{
    &line[..name_len(line)]
}

// How many bytes the name of a field has: all of the line if it has no colon.
fn name_len(line: &[u8]) -> usize
    ensures value { result ≡ unwrap_or (position is_colon line.now) (length line.now) }
    ensures within { result ≤ length line.now }
{
    colon(line).unwrap_or(line.len())
}

// The place of the first colon.
fn colon(line: &[u8]) -> Option<usize>
    ensures place { result ≡ position is_colon line.now }
    ensures within { IfSome result (λ place. place ≤ length line.now) }
{
    line.iter().position(|byte| *byte == b':')
}
