//! Serving a stream.
ghost use Rattle.std.specs.Prelude.{◌≡◌, [], ◌++◌, IfOk, Err};
ghost use Rattle.std.specs.List.{list_all};
ghost use Rattle.canary_once.specs.BookCalls.{StaysInMemory};
ghost use Rattle.canary_once.specs.Contents.{KeepsReceipts};
ghost use Rattle.canary_once.specs.Messages.{desk_state};
ghost use Rattle.canary_wire.specs.Cut.{is_newline, rejecting};
ghost use Rattle.canary_wire.specs.Routes.{the_rows};
ghost use Rattle.canary_wire.specs.Buffers.{bytes_held};
ghost use Rattle.canary_wire.specs.Serving.{last_reply, end_of, ServesTo, ServesSome, ServesUntil};
ghost use Rattle.canary_wire.specs.Serving.{TurnsTo, AnswersHeld, RejectsAll};

use crate::answer::answer;
use crate::buffer::Buffer;
use crate::cut::{FirstMessage, first_message};
use crate::rejection::Rejection;
use crate::reply::{Response, write_reply};
use crate::routes::{Route, routes};
use canary_base::writing::WriteFault;
use canary_once::book::Book;
use canary_once::clock::Clock;
use canary_once::laws::running_on;
use matchit::Router;
use std::alloc::Global;
use std::io::{Read, Write};
use thiserror::Error;

// The most reads of one stream.
const MAX_READS: u32 = 1_000_000_000;

/// How a stream ended.
#[derive(Clone, Copy, Debug, PartialEq, Eq)]
pub enum Ended {
    /// The input ended, and nothing but line ends stood after the last message.
    EndOfInput,
    /// The last message asked for that, or was rejected in a way that ends the stream.
    Closed,
    /// The input ended in the midst of a message.
    Truncated,
    /// The stream went on after the most reads.
    TurnsSpent,
}

/// Why a stream was not served to its end.
#[derive(Clone, Copy, Debug, PartialEq, Eq, Error)]
pub enum ServeFault {
    /// The reader failed.
    #[error("the input could not be read")]
    Read,
    /// The writer failed, or took no byte.
    #[error("the output could not be written")]
    Write,
    /// An allocation was refused.
    #[error("out of memory")]
    Memory,
}

// Whether a stream goes on.
#[derive(Clone, Copy)]
pub(crate) enum Turn {
    Continues,
    Ends,
}

/// Serves a stream of requests of HTTP (RFC 9110, RFC 9112), each answered as soon as it is whole.
///
/// The bytes that are read are cut into messages. For each the clock is asked once, the register is
/// asked if the message is a request or a query, and its reply is written before more is read. The
/// stream ends at the end of the input, after a message of HTTP/1.0 or with `Connection: close`, at
/// a message that is rejected as `malformed`, `length` or `too-long`, or after 1,000,000,000 reads.
/// If memory runs out after the first read, the reply is 503.
///
/// # Errors
/// `Memory` if there was none for the buffer of 81,920 bytes or for the routes: nothing was read,
/// written or asked. `Read` if the reader failed, also if it was interrupted: all that was read
/// before is answered. `Write` if the writer failed or took no byte: what was written are the
/// replies up to the midst of one; the message of that one is the last that was answered, and if it
/// was a new request, and not answered 503, it is settled.
pub fn serve<R: Read, W: Write, C: Clock, B: Book>(
    alloc: Global,
    reader: &mut R,
    writer: &mut W,
    clock: &mut C,
    book: &mut B,
) -> Result<Ended, ServeFault>
    ensures ok { IfOk result (λ ended. ServesTo (R.remaining reader.old) (R.remaining reader.new)
        (W.contents writer.old) (W.contents writer.new)
        (desk_state (C.tells clock.old) (B.state book.old))
        (desk_state (C.tells clock.new) (B.state book.new)) ended) }
    ensures read { result ≡ Err ServeFault.Read → ServesSome (R.remaining reader.old)
        (R.remaining reader.new) (W.contents writer.old) (W.contents writer.new)
        (desk_state (C.tells clock.old) (B.state book.old))
        (desk_state (C.tells clock.new) (B.state book.new)) }
    ensures write { result ≡ Err ServeFault.Write → ServesUntil (R.remaining reader.old)
        (R.remaining reader.new) (W.contents writer.old) (W.contents writer.new)
        (desk_state (C.tells clock.old) (B.state book.old))
        (desk_state (C.tells clock.new) (B.state book.new)) }
    ensures memory { result ≡ Err ServeFault.Memory → (reader.new ≡ reader.old)
        × (writer.new ≡ writer.old) × (clock.new ≡ clock.old) × (book.new ≡ book.old) }
    ensures honest { (B.state book.new).is_honest → (B.state book.old).is_honest }
    ensures in_memory { StaysInMemory (B.state book.old) (B.state book.new) }
    ensures sure { (B.state book.new).is_sure ≡ (B.state book.old).is_sure }
    ensures receipts { (B.state book.new).is_honest
        → KeepsReceipts (B.state book.old).contents (B.state book.new).contents }
{
    let Ok(mut buffer) = Buffer::new(alloc) else {
        return Err(ServeFault::Memory);
    };
    let Ok(router) = routes(alloc) else {
        return Err(ServeFault::Memory);
    };
    match serve_turns(alloc, &router, &mut buffer, reader, writer, clock, book) {
        Ok(ended) => Ok(ended),
        Err(TurnFault::Read) => Err(ServeFault::Read),
        Err(TurnFault::Write) => Err(ServeFault::Write),
    }
}

// Why the turns of a stream ended early.
#[derive(Clone, Copy)]
pub(crate) enum TurnFault {
    Read,
    Write,
}

// Reads and answers in turn, from an empty buffer on. That what is answered turn by turn is what
// the register answers to the whole stream is its law `running_on`.
fn serve_turns<R: Read, W: Write, C: Clock, B: Book>(
    alloc: Global,
    router: &Router<Route>,
    buffer: &mut Buffer,
    reader: &mut R,
    writer: &mut W,
    clock: &mut C,
    book: &mut B,
) -> Result<Ended, TurnFault>
    requires empty { bytes_held buffer.old ≡ [] }
    requires routes { router.now ≡ the_rows }
    ensures { TurnsTo (R.remaining reader.old) (R.remaining reader.new)
        (W.contents writer.old) (W.contents writer.new)
        (desk_state (C.tells clock.old) (B.state book.old))
        (desk_state (C.tells clock.new) (B.state book.new)) result }
{
    running_on();
    'turns: for _turn in 0..MAX_READS {
        let Ok(count) = buffer.fill(reader) else {
            return Err(TurnFault::Read);
        };
        if count == 0 {
            return Ok(end_of(buffer.as_slice()));
        }
        match answer_held(alloc, router, buffer, writer, clock, book) {
            Ok(Turn::Continues) => {}
            Ok(Turn::Ends) => return Ok(Ended::Closed),
            Err(_) => return Err(TurnFault::Write),
        }
    }
    Ok(Ended::TurnsSpent)
}

// How a stream ended whose input ended with these bytes after the last message.
fn end_of(rest: &[u8]) -> Ended
    ensures { result ≡ end_of rest.now }
{
    if is_blank(rest) {
        Ended::EndOfInput
    } else {
        Ended::Truncated
    }
}

// Whether there are only line ends.
pub(crate) fn is_blank(rest: &[u8]) -> bool
    ensures { result ≡ list_all is_newline rest.now }
{
    rest.iter().all(|byte| *byte == b'\r' || *byte == b'\n')
}

// Answers each message that the buffer holds whole.
fn answer_held<W: Write, C: Clock, B: Book>(
    alloc: Global,
    router: &Router<Route>,
    buffer: &mut Buffer,
    writer: &mut W,
    clock: &mut C,
    book: &mut B,
) -> Result<Turn, WriteFault>
    requires routes { router.now ≡ the_rows }
    ensures { AnswersHeld (W.contents writer.old) (W.contents writer.new)
        (desk_state (C.tells clock.old) (B.state book.old))
        (desk_state (C.tells clock.new) (B.state book.new))
        (bytes_held buffer.old) (bytes_held buffer.new) result }
{
    'messages: loop {
        match first_message(buffer.as_slice()) {
            FirstMessage::Message(parts) => {
                if let Err(fault) = answer(
                    alloc,
                    router,
                    buffer.as_slice(),
                    parts,
                    writer,
                    clock,
                    book,
                ) {
                    return Err(fault);
                }
                if parts.is_last {
                    return Ok(Turn::Ends);
                }
                buffer.consume(parts.end);
            }
            FirstMessage::Rejected(rejection, head_alone) => {
                return reject(writer, rejection, head_alone);
            }
            FirstMessage::Unfinished => return Ok(Turn::Continues),
        }
    }
}

// Writes the reply of a rejection that ends the stream.
pub(crate) fn reject<W: Write>(
    writer: &mut W,
    rejection: Rejection,
    head_alone: bool,
) -> Result<Turn, WriteFault>
    ensures { RejectsAll (W.contents writer.old) (W.contents writer.new)
        (last_reply (rejecting rejection head_alone)) result }
{
    let response = Response::Rejected(rejection);
    match write_reply(writer, &response, true, head_alone) {
        Ok(()) => Ok(Turn::Ends),
        Err(fault) => Err(fault),
    }
}
