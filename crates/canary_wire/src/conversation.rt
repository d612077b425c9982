//! A conversation with one client, turn by turn: `serve` waits for its reader and its writer, but a
//! turn never does, so many clients can be served at once.
ghost use Rattle.std.specs.Prelude.{◌≡◌, ◌≢◌, None, [], length, IfOk, IfSome};
ghost use Rattle.canary_base.specs.Writes.{Known};
ghost use Rattle.canary_once.specs.Messages.{desk_state};
ghost use Rattle.canary_wire.specs.Buffers.{bytes_held};
ghost use Rattle.canary_wire.specs.Conversing.{begun, IsListening, end_cause, Awaits, StandsAt};
ghost use Rattle.canary_wire.specs.Conversing.{IsOver};
ghost use Rattle.canary_wire.specs.Conversing.{Receives, Sends, AnswersMore, Replies, TakesTurn};
ghost use Rattle.canary_wire.specs.Conversing.{AnswersNext};
ghost use Rattle.canary_wire.specs.Unsent.{HasRoom};
ghost use Rattle.canary_wire.specs.Routes.{the_rows};

use crate::answer::answer;
use crate::buffer::{Buffer, ReadFault};
use crate::cut::{FirstMessage, first_message};
use crate::routes::{Route, is_history, routes};
use crate::serve::{is_blank, reject};
use crate::write_buffer::WriteBuffer;
use canary_base::error::Memory;
use canary_once::book::Book;
use canary_once::clock::Clock;
use matchit::Router;
use std::alloc::Global;
use std::io::{Read, Write};

// The most messages that are answered at a stretch, so that the others have their turn.
const MAX_MESSAGES_A_TURN: u32 = 64;

/// How long a turn goes on, and which queries it answers. Whoever gives the turns decides it.
pub trait Pace {
    /// Whether the turn answers one more message. It is asked after each that was answered, and not
    /// before the first.
    fn goes_on(&mut self) -> bool;

    /// Whether a query is answered: its reply may be long, and is held until the client takes it.
    fn answers_queries(&self) -> bool;

    /// Whether a query of a history is answered, if queries are: to make its reply may take long.
    fn answers_histories(&self) -> bool;
}

/// The routes of the desk, which all conversations share.
#[derive(Drop)]
pub struct Routes {
    router: Router<Route>,
    ghost rows: { router ≡ the_rows },
}

impl Routes {
    /// The routes.
    ///
    /// # Errors
    /// `Memory` if an allocation was refused.
    pub fn new(alloc: Global) -> Result<Routes, Memory> {
        match routes(alloc) {
            Ok(router) => Ok(Routes { router }),
            Err(_) => Err(Memory),
        }
    }
}

/// Where a conversation stands.
#[derive(Clone, Copy, Debug, PartialEq, Eq)]
pub enum ConversationState {
    /// More messages may come.
    Open,
    /// The last reply is owed, or was written.
    Over,
    /// There was no memory for a reply: what is owed is all that will be written.
    Broken,
}

/// What a conversation waits for after a turn.
#[derive(Clone, Copy, Debug, PartialEq, Eq)]
pub enum Wants {
    /// For bytes of the client: it is open, nothing is owed, and no whole message is held.
    Read,
    /// For the writer to take more of what is owed.
    Write,
    /// For its next turn: it is open, nothing is owed, and more messages may be held. If the first
    /// of them is a query (`begins_with_query`), it may be that queries were not answered, or that
    /// histories were not (`begins_with_history`).
    Yield,
    /// For nothing: the last reply was written. The client may still be sending: what it sends is
    /// to be read and thrown away for a while, so that it can read that reply.
    Drain,
    /// For nothing: it ended otherwise.
    Close(Cause),
}

/// Why a conversation ended before a last reply.
#[derive(Clone, Copy, Debug, PartialEq, Eq)]
pub enum Cause {
    /// The client ended its sending side, and nothing but line ends stood after its last message.
    /// Everything was answered and written: this is no fault.
    EndOfInput,
    /// The client ended its sending side in the midst of a message. All before it was answered and
    /// written.
    Truncated,
    /// The reader failed. All that was read before was answered and written.
    Read,
    /// The writer failed, or took no byte, with something still owed.
    Write,
    /// There was no memory for the reply to a query: room for a request's is taken before the
    /// request is settled. What was owed of it was written.
    Memory,
}

/// A conversation with one client: what came of it and is not answered yet, and what is still to
/// be written to it.
#[derive(Drop)]
pub struct Conversation {
    buffer: Buffer,
    unsent: WriteBuffer,
    stage: ConversationState,
    max_unsent: usize,
    answered: u64,
}

impl Conversation {
    ghost use Rattle.canary_wire.specs.Talks.{talk_of};

    /// A conversation in which nothing was said.
    ///
    /// No further message is answered while at least `max_unsent` bytes are owed, and at least one:
    /// so, if the client does not read, what is owed to it stays below `max_unsent` bytes and one
    /// reply.
    ///
    /// # Errors
    /// `Memory` if there was none for the buffer of 81,920 bytes, or for a first reply.
    pub fn new(alloc: Global, max_unsent: usize) -> Result<Conversation, Memory>
        ensures { IfOk result (λ conversation. talk_of conversation ≡ begun) }
    {
        let buffer = Buffer::new(alloc)?;
        let unsent = WriteBuffer::new(alloc)?;
        Ok(Conversation {
            buffer,
            unsent,
            stage: ConversationState::Open,
            max_unsent,
            answered: 0,
        })
    }

    /// One in which nothing was said, with the memory of this one, so that it takes none.
    pub fn renewed(self, max_unsent: usize) -> Conversation
        ensures { talk_of result ≡ begun }
    {
        let (mut buffer, mut unsent) = (self.buffer, self.unsent);
        buffer.clear();
        unsent.clear();
        Conversation {
            buffer,
            unsent,
            stage: ConversationState::Open,
            max_unsent,
            answered: 0,
        }
    }

    /// How many bytes were read that are not answered yet.
    pub fn unanswered_bytes(&self) -> usize
        ensures { result ≡ length (talk_of self.now).held }
    {
        self.buffer.as_slice().len()
    }

    /// Whether the message that stands first is a query, as far as it is held.
    pub fn begins_with_query(&self) -> bool {
        is_query(self.buffer.as_slice())
    }

    /// Whether a message stands first that is whole and is a query of a history.
    pub fn begins_with_history(&self) -> bool {
        let bytes = self.buffer.as_slice();
        asks_for_history(bytes) && is_whole(bytes)
    }

    /// How many messages were answered, the last not counted if it ended the conversation.
    pub fn answered(&self) -> u64 {
        self.answered
    }

    /// How many bytes are still to be written.
    pub fn unsent_bytes(&self) -> usize
        ensures { result ≡ length (talk_of self.now).unsent }
    {
        self.unsent.as_slice().len()
    }

    /// Where it stands.
    pub fn stage(&self) -> ConversationState
        ensures { result ≡ (talk_of self.now).stage }
    {
        self.stage
    }

    /// A turn of this conversation, and what it waits for then.
    ///
    /// What is owed is written first. If nothing is owed then, up to 64 of the messages that are
    /// held are answered, and their replies written by one write. If that leaves no whole message
    /// and nothing owed, it is read once, and up to 64 of the messages that are whole then are
    /// answered and written in the same way. `pace` ends either of the two earlier, after its first
    /// message. A reader or a writer that would block, or was interrupted, ends the turn and is no
    /// fault.
    ///
    /// While `pace` answers no queries, a query that stands first is left where it is, and so is
    /// what is held after it. While it answers no histories, so is the whole query of one.
    ///
    /// For each message the clock is asked once, the register is asked if the message is a request
    /// or a query, and its reply is owed. If there is no memory for one more reply to a request,
    /// what is owed is written first. A client that ends its sending side still gets its replies:
    /// the end is read only if nothing is owed.
    ///
    /// After `Rest` or `Nothing` no further turn is needed. A turn after `Rest`, or if there was no
    /// memory for a reply, reads, writes and asks nothing.
    pub fn turn<R: Read, W: Write, C: Clock, B: Book, P: Pace>(
        &mut self,
        alloc: Global,
        routes: &Routes,
        reader: &mut R,
        writer: &mut W,
        clock: &mut C,
        book: &mut B,
        pace: &mut P,
    ) -> Wants
        ensures turn { TakesTurn (R.remaining reader.old) (R.remaining reader.new)
            (W.contents writer.old) (W.contents writer.new)
            (desk_state (C.tells clock.old) (B.state book.old))
            (desk_state (C.tells clock.new) (B.state book.new))
            (talk_of self.old) (talk_of self.new) }
        ensures awaits { Awaits (R.remaining reader.new) (talk_of self.new) result }
        ensures rest { IsOver (talk_of self.old) → (reader.new ≡ reader.old)
            × (clock.new ≡ clock.old) × (book.new ≡ book.old) }
    {
        if let Some(wants) = self.write_unsent(writer) {
            return wants;
        }
        if let Some(wants) = self.reply(alloc, routes, writer, clock, book, pace) {
            return wants;
        }
        if let Some(wants) = self.read_more(reader) {
            return wants;
        }
        if let Some(wants) = self.reply(alloc, routes, writer, clock, book, pace) {
            return wants;
        }
        Wants::Read
    }

    // Writes what is owed, once: none if nothing is owed then.
    fn write_unsent<W: Write>(&mut self, writer: &mut W) -> Option<Wants>
        ensures sends { Sends (W.contents writer.old) (W.contents writer.new)
            (talk_of self.old) (talk_of self.new) }
        ensures awaits { (r : Known) → IfSome result (Awaits r (talk_of self.new)) }
        ensures written { result ≡ None → (talk_of self.new).unsent ≡ [] }
    {
        if let Err(_) = self.unsent.write_to(writer) {
            return Some(Wants::Close(Cause::Write));
        }
        if self.unsent_bytes() > 0 {
            return Some(Wants::Write);
        }
        None
    }

    // Reads once: none if more came.
    fn read_more<R: Read>(&mut self, reader: &mut R) -> Option<Wants>
        requires { IsListening (talk_of self.old) }
        ensures receives { Receives (R.remaining reader.old) (R.remaining reader.new)
            (talk_of self.old) (talk_of self.new) }
        ensures awaits { IfSome result (Awaits (R.remaining reader.new) (talk_of self.new)) }
    {
        match self.buffer.fill(reader) {
            Ok(0) => Some(Wants::Close(end_cause(self.buffer.as_slice()))),
            Ok(_) => None,
            Err(ReadFault::NotNow) => Some(Wants::Read),
            Err(ReadFault::Failed) => Some(Wants::Close(Cause::Read)),
        }
    }

    // Answers what is held, and writes that: none if more bytes are needed.
    fn reply<W: Write, C: Clock, B: Book, P: Pace>(
        &mut self,
        alloc: Global,
        routes: &Routes,
        writer: &mut W,
        clock: &mut C,
        book: &mut B,
        pace: &mut P,
    ) -> Option<Wants>
        ensures replies { Replies (W.contents writer.old) (W.contents writer.new)
            (desk_state (C.tells clock.old) (B.state book.old))
            (desk_state (C.tells clock.new) (B.state book.new))
            (talk_of self.old) (talk_of self.new) }
        ensures awaits { (r : Known) → IfSome result (Awaits r (talk_of self.new)) }
        ensures listens { result ≡ None → IsListening (talk_of self.new) }
        ensures rest { IsOver (talk_of self.old) → (result ≢ None)
            × (clock.new ≡ clock.old) × (book.new ≡ book.old) }
    {
        let step = self.answer_all(alloc, routes, clock, book, pace);
        if let Some(wants) = self.write_unsent(writer) {
            return Some(wants);
        }
        match step {
            StepResult::Answered => Some(Wants::Yield),
            StepResult::Waits => None,
            StepResult::Closed => Some(Wants::Drain),
            StepResult::Broke => Some(Wants::Close(Cause::Memory)),
        }
    }

    // Answers what is held: `Answered` if there may be more to answer.
    fn answer_all<C: Clock, B: Book, P: Pace>(
        &mut self,
        alloc: Global,
        routes: &Routes,
        clock: &mut C,
        book: &mut B,
        pace: &mut P,
    ) -> StepResult
        ensures answers { AnswersMore
            (desk_state (C.tells clock.old) (B.state book.old))
            (desk_state (C.tells clock.new) (B.state book.new))
            (talk_of self.old) (talk_of self.new) }
        ensures stands { StandsAt (talk_of self.new) result }
        ensures rest { IsOver (talk_of self.old) → IsOver (talk_of self.new)
            × (clock.new ≡ clock.old) × (book.new ≡ book.old) }
    {
        let mut step = self.advance(alloc, routes, clock, book, pace);
        'steps: for _ in 1..MAX_MESSAGES_A_TURN {
            if step != StepResult::Answered
                || self.unsent_bytes() >= self.max_unsent
                || self.leaves_first(pace)
                || !pace.goes_on()
            {
                return step;
            }
            step = self.advance(alloc, routes, clock, book, pace);
        }
        step
    }

    // Answers the message that stands first, if a whole one does. If there is no room for the reply
    // to a request, nothing is asked, and its next turn tries again, when less is owed: so none is
    // settled whose reply would find no memory. A query waits while none is to be answered, and so
    // does a history.
    fn advance<C: Clock, B: Book, P: Pace>(
        &mut self,
        alloc: Global,
        routes: &Routes,
        clock: &mut C,
        book: &mut B,
        pace: &mut P,
    ) -> StepResult
        ensures answers { AnswersMore
            (desk_state (C.tells clock.old) (B.state book.old))
            (desk_state (C.tells clock.new) (B.state book.new))
            (talk_of self.old) (talk_of self.new) }
        ensures stands { StandsAt (talk_of self.new) result }
        ensures rest { IsOver (talk_of self.old) → IsOver (talk_of self.new)
            × (clock.new ≡ clock.old) × (book.new ≡ book.old) }
    {
        match self.stage {
            ConversationState::Open => {}
            ConversationState::Over => return StepResult::Closed,
            ConversationState::Broken => return StepResult::Broke,
        }
        if self.leaves_first(pace) {
            return StepResult::Answered;
        }
        if let Err(_) = self.unsent.make_room() {
            return StepResult::Answered;
        }
        self.answer_first(alloc, routes, clock, book)
    }

    // Whether the message that stands first is one that this pace leaves where it is.
    fn leaves_first<P: Pace>(&self, pace: &P) -> bool {
        (!pace.answers_queries() && self.begins_with_query())
            || (!pace.answers_histories() && self.begins_with_history())
    }

    // The same, if it is open and has room.
    fn answer_first<C: Clock, B: Book>(
        &mut self,
        alloc: Global,
        routes: &Routes,
        clock: &mut C,
        book: &mut B,
    ) -> StepResult
        requires open { (talk_of self.old).stage ≡ ConversationState.Open }
        requires room { HasRoom self.old.unsent }
        ensures answers { AnswersMore
            (desk_state (C.tells clock.old) (B.state book.old))
            (desk_state (C.tells clock.new) (B.state book.new))
            (talk_of self.old) (talk_of self.new) }
        ensures stands { StandsAt (talk_of self.new) result }
    {
        let (buffer, unsent) = (&mut self.buffer, &mut self.unsent);
        let step = answer_next(alloc, &routes.router, buffer, unsent, clock, book);
        match step {
            StepResult::Answered => self.answered = self.answered.saturating_add(1),
            StepResult::Waits => {}
            StepResult::Closed => self.stage = ConversationState::Over,
            StepResult::Broke => self.stage = ConversationState::Broken,
        }
        step
    }
}

// What came of one step.
#[derive(Clone, Copy, PartialEq, Eq)]
pub(crate) enum StepResult {
    // A message was answered, and the next may be held whole.
    Answered,
    // No whole message is held.
    Waits,
    // The last reply is owed, or was written.
    Closed,
    // There was no memory for a reply.
    Broke,
}

// Whether these bytes begin with a query.
fn is_query(bytes: &[u8]) -> bool {
    behind_get(bytes).is_some()
}

// What follows the method of a query, if these bytes begin with one, after the empty lines that may
// stand before a message.
fn behind_get(bytes: &[u8]) -> Option<&[u8]> {
    let begin = bytes
        .iter()
        .position(|byte| *byte != b'\r' && *byte != b'\n')?;
    bytes.get(begin..)?.strip_prefix(b"GET ")
}

// The target of the query with which these bytes begin, if all of it is held.
fn target_of_query(bytes: &[u8]) -> Option<&[u8]> {
    let rest = behind_get(bytes)?;
    let end = rest.iter().position(|byte| *byte == b' ')?;
    rest.get(..end)
}

// Whether these bytes begin with a query of a history, as far as its target says.
fn asks_for_history(bytes: &[u8]) -> bool {
    match target_of_query(bytes) {
        Some(target) => is_history(target),
        None => false,
    }
}

// Whether a whole message stands first.
fn is_whole(bytes: &[u8]) -> bool {
    match first_message(bytes) {
        FirstMessage::Message(_) => true,
        FirstMessage::Rejected(..) | FirstMessage::Unfinished => false,
    }
}

// Why a conversation ended whose input ended with these bytes after the last message.
fn end_cause(rest: &[u8]) -> Cause
    ensures { result ≡ end_cause rest.now }
{
    if is_blank(rest) {
        Cause::EndOfInput
    } else {
        Cause::Truncated
    }
}

// Answers the message that stands first, or rejects what does.
fn answer_next<W: Write, C: Clock, B: Book>(
    alloc: Global,
    router: &Router<Route>,
    buffer: &mut Buffer,
    writer: &mut W,
    clock: &mut C,
    book: &mut B,
) -> StepResult
    requires { router.now ≡ the_rows }
    ensures { AnswersNext (W.contents writer.old) (W.contents writer.new)
        (desk_state (C.tells clock.old) (B.state book.old))
        (desk_state (C.tells clock.new) (B.state book.new))
        (bytes_held buffer.old) (bytes_held buffer.new) result }
{
    match first_message(buffer.as_slice()) {
        FirstMessage::Message(parts) => {
            let bytes = buffer.as_slice();
            if let Err(_) = answer(alloc, router, bytes, parts, writer, clock, book) {
                return StepResult::Broke;
            }
            if parts.is_last {
                return StepResult::Closed;
            }
            buffer.consume(parts.end);
            StepResult::Answered
        }
        FirstMessage::Rejected(rejection, head_alone) => match reject(
            writer, rejection, head_alone,
        ) {
            Ok(_) => StepResult::Closed,
            Err(_) => StepResult::Broke,
        },
        FirstMessage::Unfinished => StepResult::Waits,
    }
}
