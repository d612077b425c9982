//! The heads of replies in HTTP/1.1 (RFC 9112).
ghost use Rattle.std.specs.Prelude.{◌≡◌, ◌≤◌, IfOk, OnErr, length};
ghost use Rattle.httparse.specs.Grammar.{HasNoResponse};
ghost use Rattle.httparse.specs.Spans.{IsResponseWithin, IsResponseOf};
ghost use Rattle.canary_fetch.specs.Fronts.{IsFront};
ghost use Rattle.canary_fetch.specs.Replies.{is_interim, NeverReplies};

use crate::fault::ExchangeFault;
use http1::fields::KnownFields;
use http1::framing::{Framing, MethodKind, response_framing};
use httparse::spans::{EMPTY_HEADER_SPAN, HeaderSpan, ResponseSpans, parse_response};
use httparse::{Error, Status};

// The most fields of a head.
const MAX_FIELDS: usize = 64;

// The most bytes of the head of a reply.
const MAX_REPLY_HEAD: usize = 16_384;

/// The most bytes of a body.
pub(crate) const MAX_BODY: usize = 1_048_576;

/// What some bytes begin with.
#[derive(Clone, Copy)]
pub(crate) enum Front {
    /// A head that is not whole yet.
    Part,
    /// The head of a reply that others follow (RFC 9110, section 15.2), of so many bytes.
    Interim(usize),
    /// The head of a reply.
    Final(Head),
}

/// The head of a reply.
#[derive(Clone, Copy)]
pub(crate) struct Head {
    /// The status.
    pub(crate) status: u16,
    /// How many bytes it has.
    pub(crate) len: usize,
    /// Where the body ends.
    pub(crate) framing: Framing,
}

/// What these bytes begin with.
///
/// # Errors
/// `TooLong` if the head is too long, or says that the body is; `Coded` if the body is coded other
/// than in chunks; `NotHttp` if no head of a reply begins so, or one whose fields do not say where
/// the body ends, as with a `Content-Length` and a `Transfer-Encoding` (RFC 9112, section 6.3).
pub(crate) fn front_of(bytes: &[u8]) -> Result<Front, ExchangeFault>
    ensures ok { IfOk result (IsFront bytes.now) }
    ensures err { OnErr result (NeverReplies bytes.now) }
{
    let mut fields = [EMPTY_HEADER_SPAN; MAX_FIELDS];
    match parse_response(bytes, &mut fields) {
        Ok(Status::Complete(head)) => front_with(bytes, &fields, head),
        Ok(Status::Partial) => front_of_part(bytes),
        Err(Error::TooManyHeaders) => Err(ExchangeFault::TooLong),
        Err(_) => Err(ExchangeFault::NotHttp),
    }
}

// What a head is that is not whole.
fn front_of_part(bytes: &[u8]) -> Result<Front, ExchangeFault>
    requires { HasNoResponse bytes.now }
    ensures ok { IfOk result (IsFront bytes.now) }
    ensures err { OnErr result (NeverReplies bytes.now) }
{
    if bytes.len() > MAX_REPLY_HEAD {
        return Err(ExchangeFault::TooLong);
    }
    Ok(Front::Part)
}

// What a whole head is. 101 would answer an `Upgrade`, which no message asks for.
fn front_with(
    bytes: &[u8],
    fields: &[HeaderSpan],
    head: ResponseSpans,
) -> Result<Front, ExchangeFault>
    requires within { IsResponseWithin bytes.now fields.now head }
    requires is { IsResponseOf bytes.now fields.now head }
    requires few { length fields.now ≤ 64 }
    ensures ok { IfOk result (IsFront bytes.now) }
    ensures err { OnErr result (NeverReplies bytes.now) }
{
    if head.len > MAX_REPLY_HEAD {
        return Err(ExchangeFault::TooLong);
    }
    if is_interim(head.code) {
        return Ok(Front::Interim(head.len));
    }
    if head.code < 200 {
        return Err(ExchangeFault::NotHttp);
    }
    final_front(bytes, fields, head)
}

// What the head of a reply is.
fn final_front(
    bytes: &[u8],
    fields: &[HeaderSpan],
    head: ResponseSpans,
) -> Result<Front, ExchangeFault>
    requires within { IsResponseWithin bytes.now fields.now head }
    requires is { IsResponseOf bytes.now fields.now head }
    requires few { length fields.now ≤ 64 }
    requires short { head.len ≤ 16384 }
    requires high { 200 ≤ head.code }
    ensures ok { IfOk result (IsFront bytes.now) }
    ensures err { OnErr result (NeverReplies bytes.now) }
{
    let known = KnownFields::from_spans(bytes, &fields[..head.headers]);
    if known.other_coding {
        return Err(ExchangeFault::Coded);
    }
    match response_framing(MethodKind::Other, head.code, head.version, &known) {
        Ok(Framing::Length(length)) if length > MAX_BODY as u64 => Err(ExchangeFault::TooLong),
        Ok(framing) => Ok(Front::Final(Head {
            status: head.code,
            len: head.len,
            framing,
        })),
        Err(_) => Err(ExchangeFault::NotHttp),
    }
}

// Whether another head follows one with this status.
fn is_interim(status: u16) -> bool
    ensures { result ≡ is_interim status }
{
    100 <= status && status < 200 && status != 101
}
