//! Replies (RFC 9112), and writing them.
ghost use Rattle.std.specs.Prelude.{◌≡◌, ◌++◌, ◌≤◌, length};
ghost use Rattle.canary_base.specs.Writes.{Writes};
ghost use Rattle.canary_wire.specs.ReplyTexts.{response_status, response_body, allow_line};
ghost use Rattle.canary_wire.specs.ReplyTexts.{status_code, reason_of, line_if};
ghost use Rattle.canary_wire.specs.ReplyTexts.{head_text, reply_text};

use crate::rejection::Rejection;
use arrayvec::ArrayString;
use canary_base::writing::{WriteFault, write_all};
use canary_once::event::Answer;
use http::StatusCode;
use std::io::Write;

// Room for the head of any reply, and after it for most bodies.
const ROOM: usize = 512;

// What the reply to a message says.
#[derive(Drop)]
pub(crate) enum Response {
    Rejected(Rejection),
    NoMemory,
    Answered(Answer),
}

// What a reply is made of: its body in JSON, its status, and the field line that names the method
// of the route, or none.
#[derive(Clone, Copy)]
struct ReplyParts<'a> {
    body: &'a str,
    status: StatusCode,
    allow: &'static str,
}

impl Response {
    // The parts of the reply, whose status is 503 if memory was refused.
    fn parts(&self) -> ReplyParts<'_>
        ensures body { result.body.now ≡ response_body self.now }
        ensures status { result.status ≡ response_status self.now }
        ensures allow { result.allow.now ≡ allow_line self.now }
        ensures short { length result.allow.now ≤ 12 }
    {
        match self {
            Response::Rejected(rejection) => ReplyParts {
                body: rejection.body(),
                status: rejection.status(),
                allow: rejection.allow_line(),
            },
            Response::NoMemory => ReplyParts {
                body: "{\"code\":\"no-memory\"}",
                status: StatusCode::SERVICE_UNAVAILABLE,
                allow: "",
            },
            Response::Answered(answer) => ReplyParts {
                body: answer.body(),
                status: status_code(answer.status()),
                allow: "",
            },
        }
    }
}

// Writes the reply that says this: its head alone if that is asked, and with `Connection: close` if
// the stream ends after it. It takes no memory. What went out before a fault are the first bytes of
// the reply.
#[tactic(auto, unfolding(crate::specs::ReplyTexts::reply_text))]
pub(crate) fn write_reply<W: Write>(
    writer: &mut W,
    response: &Response,
    is_last: bool,
    head_alone: bool,
) -> Result<(), WriteFault>
    ensures { Writes (W.contents writer.old) (W.contents writer.new)
        (reply_text response.now is_last head_alone) result }
{
    let ReplyParts {
        body,
        status,
        allow,
    } = response.parts();
    let head = reply_head(status, body.len(), allow, is_last);
    if head_alone {
        return write_all(writer, head.as_str().as_bytes());
    }
    write_both(writer, head, body)
}

// The status code, or 500 if the number is invalid.
fn status_code(status: u16) -> StatusCode
    ensures { result ≡ status_code status }
{
    StatusCode::from_u16(status).unwrap_or(StatusCode::INTERNAL_SERVER_ERROR)
}

// The status line, the fields and the empty line.
#[tactic(auto, unfolding(crate::specs::ReplyTexts::head_text))]
fn reply_head(status: StatusCode, size: usize, allow: &str, is_last: bool) -> ArrayString<ROOM>
    requires { length allow.now ≤ 12 }
    ensures { result.bytes ≡ head_text status size allow.now is_last }
{
    let mut digits = itoa::Buffer::new();
    let mut head = ArrayString::new();
    head.push_str("HTTP/1.1 ");
    head.push_str(status.as_str());
    head.push_str(" ");
    head.push_str(reason(status.as_u16()));
    head.push_str("\r\nContent-Type: application/json\r\nContent-Length: ");
    head.push_str(digits.format(size));
    head.push_str("\r\n");
    head.push_str(allow);
    head.push_str(line_if(is_last, "Connection: close\r\n"));
    head.push_str("\r\n");
    head
}

// The reason phrase of a status with which a desk answers; empty for any other.
fn reason(status: u16) -> &'static str
    ensures is { result.now ≡ reason_of status }
    ensures short { length result.now ≤ 21 }
{
    match status {
        200 => "OK",
        400 => "Bad Request",
        404 => "Not Found",
        405 => "Method Not Allowed",
        409 => "Conflict",
        411 => "Length Required",
        413 => "Content Too Large",
        422 => "Unprocessable Content",
        503 => "Service Unavailable",
        _ => "",
    }
}

// The line, or an empty text if it is left out.
fn line_if(stands: bool, line: &str) -> &str
    ensures is { result.now ≡ line_if stands line.now }
    ensures short { length result.now ≤ length line.now }
{
    if stands { line } else { "" }
}

// By one write, if there is room for both.
fn write_both<W: Write>(
    writer: &mut W,
    mut head: ArrayString<ROOM>,
    body: &str,
) -> Result<(), WriteFault>
    ensures { Writes (W.contents writer.old) (W.contents writer.new)
        (head.bytes ++ body.now) result }
{
    if body.len() <= head.remaining_capacity() {
        head.push_str(body);
        return write_all(writer, head.as_str().as_bytes());
    }
    if let Err(fault) = write_all(writer, head.as_str().as_bytes()) {
        return Err(fault);
    }
    write_all(writer, body.as_bytes())
}
