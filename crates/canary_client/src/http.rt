//! The heads of replies in HTTP/1.1 (RFC 9112).
ghost use Rattle.std.specs.Prelude.{◌≡◌, length, codes, All};
ghost use Rattle.std.specs.Str.{str_eq_ignore_ascii_case};
ghost use Rattle.httparse.specs.Spans.{IsHeaderWithin, IsResponseWithin, span_bytes};

use canary_client_journal::network::RetryReason;
use httparse::Status;
use httparse::spans::{EMPTY_HEADER_SPAN, HeaderSpan, ResponseSpans, parse_response};
use std::str;

// The most fields of the head of a desk's reply.
const MAX_DESK_FIELDS: usize = 64;

/// The most bytes of the heads of a reply: the desk's own have fewer than 200.
pub const MAX_DESK_HEAD: usize = 16_384;

/// The most bytes of a body: a history has no limit of its own.
pub const MAX_BODY: usize = 1 << 26;

/// The head of a reply.
#[derive(Clone, Copy, Debug)]
pub struct ReplyHead {
    /// The status.
    pub status: u16,
    /// Where the body begins.
    pub end: usize,
    /// How long the body is.
    pub length: usize,
}

/// What some bytes begin with.
#[derive(Clone, Copy, Debug)]
pub enum HeadProgress {
    /// A head that is not whole yet.
    Part,
    /// The head of a reply that others follow (RFC 9110, section 15.2), up to this place.
    Interim(usize),
    /// The head of a reply.
    Whole(ReplyHead),
}

/// What these bytes begin with.
///
/// # Errors
/// `Foreign` if no head of a reply begins so, or if it is not one that a desk writes: with a
/// `Transfer-Encoding`, whether or not a `Content-Length` stands beside it (RFC 9112, section 6.3),
/// without exactly one `Content-Length`, of digits alone, that is `MAX_BODY` at most, or of more
/// than `MAX_DESK_HEAD` bytes.
pub fn front_of(bytes: &[u8]) -> Result<HeadProgress, RetryReason> {
    let mut fields = [EMPTY_HEADER_SPAN; MAX_DESK_FIELDS];
    match parse_response(bytes, &mut fields) {
        Ok(Status::Complete(head)) => front_with(bytes, &fields, head),
        Ok(Status::Partial) => Ok(HeadProgress::Part),
        Err(_) => Err(RetryReason::Foreign),
    }
}

// What a whole head is. 101 would answer an `Upgrade`, which no message asks for.
fn front_with(
    bytes: &[u8],
    fields: &[HeaderSpan],
    head: ResponseSpans,
) -> Result<HeadProgress, RetryReason>
    requires { IsResponseWithin bytes.now fields.now head }
{
    if head.code == 100 || (102 <= head.code && head.code <= 199) {
        return Ok(HeadProgress::Interim(head.len));
    }
    let fields = &fields[..head.headers];
    if head.len > MAX_DESK_HEAD || has_encoding(bytes, fields) {
        return Err(RetryReason::Foreign);
    }
    match length_in(bytes, fields) {
        Some(length) if length <= MAX_BODY => Ok(HeadProgress::Whole(ReplyHead {
            status: head.code,
            end: head.len,
            length,
        })),
        _ => Err(RetryReason::Foreign),
    }
}

// Whether one of these fields is Transfer-Encoding, with which a reply is no desk's.
fn has_encoding(bytes: &[u8], fields: &[HeaderSpan]) -> bool
    requires { All (IsHeaderWithin (length bytes.now)) fields.now }
{
    for field in fields {
        if is_encoding(bytes, *field) {
            return true;
        }
    }
    false
}

// The number of the field `Content-Length`, if it stands there once.
fn length_in(bytes: &[u8], fields: &[HeaderSpan]) -> Option<usize>
    requires { All (IsHeaderWithin (length bytes.now)) fields.now }
{
    let mut found = None;
    for field in fields {
        if is_length(bytes, *field) {
            if found.is_some() {
                return None;
            }
            found = Some(number_in(field.value.of(bytes))?);
        }
    }
    found
}

// Whether a field is `Transfer-Encoding`, in any case.
fn is_encoding(bytes: &[u8], field: HeaderSpan) -> bool
    requires { IsHeaderWithin (length bytes.now) field }
    ensures { result ≡ str_eq_ignore_ascii_case (span_bytes bytes.now field.name)
        (codes "Transfer-Encoding") }
{
    field
        .name
        .of(bytes)
        .eq_ignore_ascii_case(b"transfer-encoding")
}

// Whether a field is `Content-Length`, in any case.
fn is_length(bytes: &[u8], field: HeaderSpan) -> bool
    requires { IsHeaderWithin (length bytes.now) field }
    ensures { result ≡ str_eq_ignore_ascii_case (span_bytes bytes.now field.name)
        (codes "Content-Length") }
{
    field.name.of(bytes).eq_ignore_ascii_case(b"content-length")
}

// A number of digits alone, without a sign.
fn number_in(bytes: &[u8]) -> Option<usize> {
    if !bytes.iter().all(|byte| byte.is_ascii_digit()) {
        return None;
    }
    str::from_utf8(bytes).ok()?.parse::<usize>().ok()
}
