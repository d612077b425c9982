//! What stands first in a stream.
ghost use Rattle.std.specs.Prelude.{◌≡◌, ℕ, ◌≤◌, length, All, take};
ghost use Rattle.httparse.specs.Spans.{IsRequestWithin, IsRequestOf};
ghost use Rattle.canary_wire.specs.Cut.{Cuts};

use crate::framing::{Framing, closes, frame, is_bare};
use crate::rejection::Rejection;
use httparse::Status;
use httparse::spans::{EMPTY_HEADER_SPAN, HeaderSpan, RequestSpans, Span, parse_request};

// The most bytes of a head.
pub(crate) const MAX_HEAD: usize = 16_384;

// The most header lines.
const MAX_LINES: usize = 64;

// Where the parts of a message are, and what its head asks of the reply.
#[derive(Clone, Copy)]
pub(crate) struct MessageSpans {
    pub method: Span,
    pub target: Span,
    // The length of the head.
    pub len: usize,
    // The length of the message.
    pub end: usize,
    // Whether the stream ends after the reply.
    pub is_last: bool,
    // Whether the reply is its head alone.
    pub head_alone: bool,
}

// What stands first: a message, a rejection that ends the stream, with whether its reply is its
// head alone, or less than either.
#[derive(Clone, Copy)]
pub(crate) enum FirstMessage {
    Message(MessageSpans),
    Rejected(Rejection, bool),
    Unfinished,
}

// What stands first.
pub(crate) fn first_message(bytes: &[u8]) -> FirstMessage
    ensures { Cuts bytes.now result }
{
    let mut headers = [EMPTY_HEADER_SPAN; MAX_LINES];
    match parse_request(bytes, &mut headers) {
        Ok(Status::Complete(head)) => first_with_head(bytes, &headers, head),
        Ok(Status::Partial) if bytes.len() < MAX_HEAD => FirstMessage::Unfinished,
        Ok(Status::Partial) => FirstMessage::Rejected(Rejection::Malformed, false),
        Err(_) => FirstMessage::Rejected(Rejection::Malformed, false),
    }
}

// What stands first if a whole head does.
fn first_with_head(bytes: &[u8], headers: &[HeaderSpan], head: RequestSpans) -> FirstMessage
    requires within { IsRequestWithin bytes.now headers.now head }
    requires of { IsRequestOf bytes.now headers.now head }
    requires lines { length headers.now ≤ 64 }
    ensures { Cuts bytes.now result }
{
    if head.len > MAX_HEAD {
        return FirstMessage::Rejected(Rejection::Malformed, false);
    }
    let method = head.method.of(bytes);
    let fields = &headers[..head.headers];
    let head_alone = is_bare(method);
    match frame(bytes, method, fields) {
        Framing::Rejected(rejection) => FirstMessage::Rejected(rejection, head_alone),
        Framing::Body(n) => {
            let end = head.len + n;
            if bytes.len() < end {
                return FirstMessage::Unfinished;
            }
            FirstMessage::Message(MessageSpans {
                method: head.method,
                target: head.path,
                len: head.len,
                end,
                is_last: closes(bytes, head.version, fields),
                head_alone,
            })
        }
    }
}
