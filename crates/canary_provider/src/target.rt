//! Addresses, and the first line of a message.
//!
//! ```text
//! address := "http://" authority target
//! ```
//!
//! An authority is `HOST` or `HOST:PORT`; a target is empty, or a path, which may have a query. A
//! user's name and a fragment are refused, as is any byte that is to be percent-encoded.
ghost use Rattle.std.specs.Prelude.{◌≡◌, ◌≤◌, ◌++◌, [], length, codes, IfOk};
ghost use Rattle.std.specs.Prelude.{string_bytes};
ghost use Rattle.std.specs.List.{list_all};
ghost use Rattle.percent_encoding.specs.Percent.{percent_encode};
ghost use Rattle.canary_provider.specs.Plans.{is_authority, is_authority_byte, is_target};
ghost use Rattle.canary_provider.specs.Plans.{is_target_byte, begins_target, IsAddress, IsBase};
ghost use Rattle.canary_provider.specs.Plans.{IsQueryLine, web_target, web_line, method_text};

use crate::line::HeaderLine;
use crate::refusal::ProviderRefusal;
use crate::stop::PlanFault;
use canary_base::error::Memory;
use percent_encoding::{AsciiSet, NON_ALPHANUMERIC, ascii_set, percent_encode};
use std::alloc::Global;

/// The bytes of a query that are percent-encoded: all but the unreserved ones (RFC 3986, section
/// 2.3).
pub(crate) const QUERY: AsciiSet = ascii_set!(
    NON_ALPHANUMERIC
        .remove(b'-')
        .remove(b'.')
        .remove(b'_')
        .remove(b'~')
);

const API: &str = "/api/v1/query?query=";

const VERSION: &str = " HTTP/1.1";

/// Where a provider is, and what is asked there.
#[derive(Clone, Copy)]
pub(crate) struct ProviderTarget<'t> {
    /// The address, as it stands in the plan.
    pub(crate) address: &'t str,
    pub(crate) authority: &'t [u8],
    pub(crate) target: &'t [u8],
}

/// The method of a message.
#[derive(Clone, Copy, PartialEq, Eq)]
pub(crate) enum Method {
    Get,
    Post,
    Put,
}

impl Method {
    /// Its name in the first line of a message.
    pub(crate) fn text(self) -> &'static str
        ensures { result.now ≡ method_text self }
    {
        match self {
            Method::Get => "GET",
            Method::Post => "POST",
            Method::Put => "PUT",
        }
    }
}

/// The place at an address.
pub(crate) fn provider_target(text: &str) -> Result<ProviderTarget<'_>, ProviderRefusal>
    ensures address { IfOk result (λ place. place.address.now ≡ text.now) }
    ensures parts { IfOk result
        (λ place. IsAddress text.now place.authority.now place.target.now) }
{
    if text.starts_with("https:") {
        return Err(ProviderRefusal::Https);
    }
    let Some(rest) = text.strip_prefix("http://") else {
        return Err(ProviderRefusal::Address);
    };
    let rest = rest.as_bytes();
    let (authority, target) = rest.split_at(authority_len(rest));
    if is_authority(authority) && is_target(target) {
        Ok(ProviderTarget {
            address: text,
            authority,
            target,
        })
    } else {
        Err(ProviderRefusal::Address)
    }
}

// How many bytes stand before a path, a query or a fragment.
fn authority_len(text: &[u8]) -> usize
    ensures { result ≤ length text.now }
{
    text.iter()
        .position(|byte| !is_authority_byte(*byte))
        .unwrap_or(text.len())
}

// Whether these bytes may be a host and a port, by themselves; there is one at least.
fn is_authority(bytes: &[u8]) -> bool
    ensures { result ≡ is_authority bytes.now }
{
    !bytes.is_empty() && are_authority_bytes(bytes)
}

// Whether each byte may be in an authority; so it is if there are no bytes.
fn are_authority_bytes(bytes: &[u8]) -> bool
    ensures { result ≡ list_all is_authority_byte bytes.now }
{
    bytes.iter().all(|byte| is_authority_byte(*byte))
}

// Whether the byte may be in a host or a port, so not the @ after a user's name.
fn is_authority_byte(byte: u8) -> bool
    ensures { result ≡ is_authority_byte byte }
{
    byte.is_ascii_alphanumeric()
        || byte == b'.'
        || byte == b'-'
        || byte == b'_'
        || byte == b':'
        || byte == b'['
        || byte == b']'
}

// Whether these bytes may be a target: nothing, or a path, without a fragment.
fn is_target(bytes: &[u8]) -> bool
    ensures { result ≡ is_target bytes.now }
{
    begins_target(bytes) && are_target_bytes(bytes)
}

// Whether each byte may be in a target; so it is if there are no bytes.
fn are_target_bytes(bytes: &[u8]) -> bool
    ensures { result ≡ list_all is_target_byte bytes.now }
{
    bytes.iter().all(|byte| is_target_byte(*byte))
}

// Whether a target may begin so: it is empty, or a slash is first.
fn begins_target(bytes: &[u8]) -> bool
    ensures { result ≡ begins_target bytes.now }
{
    match bytes {
        [] => true,
        [first, ..] => *first == b'/',
    }
}

// Visible, and no `#`.
fn is_target_byte(byte: u8) -> bool
    ensures { result ≡ is_target_byte byte }
{
    33 <= byte && byte <= 126 && byte != b'#'
}

// The line of these three parts, one after another; refused as `Address` if they are no line.
fn line_of(
    alloc: Global,
    first: &[u8],
    second: &[u8],
    third: &[u8],
) -> Result<HeaderLine, PlanFault>
    ensures { IfOk result (λ line. line ≡ first.now ++ second.now ++ third.now) }
{
    match HeaderLine::of_parts(alloc, first, second, third)? {
        Some(line) => Ok(line),
        None => Err(PlanFault::Refused(ProviderRefusal::Address)),
    }
}

/// The field `Host`.
pub(crate) fn host_line(alloc: Global, place: ProviderTarget<'_>) -> Result<HeaderLine, PlanFault>
    ensures { IfOk result (λ line. line ≡ codes "Host: " ++ place.entry.authority.now) }
{
    line_of(alloc, b"Host: ", place.authority, &[])
}

/// The first line of a query of Prometheus at one moment.
pub(crate) fn query_line(
    alloc: Global,
    place: ProviderTarget<'_>,
    query: &str,
) -> Result<HeaderLine, PlanFault>
    ensures { IfOk result (IsQueryLine place.entry.target.now query.now) }
{
    if place.target.contains(&b'?') {
        return Err(PlanFault::Refused(ProviderRefusal::Address));
    }
    let asked = asked_of(alloc, query)?;
    let base = base_of(place.target);
    let front = joined(alloc, b"GET ", base)?;
    line_of(
        alloc,
        front.as_slice(),
        asked.as_bytes(),
        VERSION.as_bytes(),
    )
}

// Two parts, one after the other.
fn joined(alloc: Global, first: &[u8], second: &[u8]) -> Result<Vec<u8>, Memory>
    ensures { IfOk result (λ both. both.items ≡ first.now ++ second.now) }
{
    let mut both = Vec::from_slice(alloc, first)?;
    both.extend_from_slice(second)?;
    Ok(both)
}

// What is asked below the base.
fn asked_of(alloc: Global, query: &str) -> Result<String, Memory>
    ensures { IfOk result
        (λ asked. string_bytes asked ≡ API.now ++ percent_encode QUERY query.now) }
{
    let mut asked = String::from_str(alloc, API)?;
    percent_encode(query.as_bytes(), QUERY).append_to(&mut asked)?;
    Ok(asked)
}

// The path below which the API stands: without a slash at its end.
fn base_of(target: &[u8]) -> &[u8]
    ensures { IsBase target.now result.now }
{
    match target {
        [base @ .., b'/'] => base,
        base => base,
    }
}

/// The first line of a message to a service.
pub(crate) fn web_line(
    alloc: Global,
    method: Method,
    place: ProviderTarget<'_>,
) -> Result<HeaderLine, PlanFault>
    ensures { IfOk result (λ line. line ≡ web_line method place.entry.target.now) }
{
    let front = joined(alloc, method.text().as_bytes(), b" ")?;
    let target = web_target(place.target);
    line_of(alloc, front.as_slice(), target, VERSION.as_bytes())
}

// A target, which is a slash if the address has none.
fn web_target(target: &[u8]) -> &[u8]
    ensures { result.now ≡ web_target target.now }
{
    match target {
        [] => b"/",
        target => target,
    }
}
