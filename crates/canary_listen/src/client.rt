//! A client: its connection, the conversation with it, and how long it may take.
ghost use Rattle.std.specs.Prelude.{◌≡◌, ◌≢◌, None, false, length};
ghost use Rattle.canary_wire.specs.Conversing.{TakesTurn};
ghost use Rattle.canary_once.specs.Messages.{desk_state};
ghost use Rattle.canary_wire.specs.Talks.{talk_of};
ghost use Rattle.canary_listen.specs.Crowd.{client_talk};

use crate::limits::Limits;
use crate::wait::{Awaited, Wait};
use canary_once::book::Book;
use canary_once::clock::Clock;
use canary_wire::conversation::{Cause, Conversation, Pace, Routes, Wants};
use mio::net::TcpStream;
use mio::{Interest, Registry, Token};
use std::alloc::Global;
use std::io::{self, ErrorKind, Read, Write};
use std::net::{IpAddr, Shutdown};
use std::time::Duration;

// The most bytes that are read of a client after its last reply: 16 MiB.
const MAX_DRAINED: usize = 16_777_216;

// How many of them at a time.
const DRAINED_AT_ONCE: usize = 16_384;

// What is asked of the connection of a client whose bytes are waited for. An urgent byte is asked
// for too, since a read stops short before it.
fn its_bytes() -> Interest {
    Interest::READABLE | Interest::PRIORITY
}

// What becomes of a client after its turn.
#[derive(Clone, Copy)]
pub(crate) enum AfterTurn {
    // It stays, and has its next turn when its connection is ready for this.
    WaitFor(Interest),
    // It stays, and has its next turn when queries are answered again.
    WaitForRoom,
    // It stays, and has its next turn when the histories that came before its own are answered.
    WaitInQueue,
    // It stays, and its replies are held back: it has to take them soon.
    HoldReplies,
    // It goes, and this is why.
    Close(Cause),
}

// What a client does in its turn.
#[derive(Clone, Copy, Debug, PartialEq, Eq)]
pub(crate) enum TurnKind {
    // It sends messages, and takes the replies.
    Both,
    // It sends messages. Their replies are held back for a little.
    Answer,
    // It takes the replies that were held back.
    Send,
}

// What the turn of a client is about.
#[derive(Clone, Copy)]
pub(crate) struct Ready {
    pub(crate) part: TurnKind,
    // How long it goes on at most, with more than one message.
    pub(crate) share: Duration,
    // Whether a history is answered in it.
    pub(crate) answers_histories: bool,
    // The present second.
    pub(crate) now: u64,
    // Whether bytes may be left after a short read: the system reported that the client ended its
    // sending side, which it does once, or that it sent an urgent byte, before which a read stops.
    pub(crate) may_hold_more: bool,
    // Whether the system reported that its connection has ended in both directions.
    pub(crate) has_ended: bool,
}

// What a client sends, as far as it is its turn to.
#[derive(Drop)]
struct Input<'a> {
    stream: &'a TcpStream,
    is_open: bool,
    // Whether there may be bytes that came before the last read and were not read.
    may_hold_more: bool,
}

impl Read for Input<'_> {
    // Reads in its turn, and else fails with `WouldBlock`. It notes whether bytes may be left.
    fn read(&mut self, buf: &mut [u8]) -> io::Result<usize> {
        if !self.is_open {
            return Err(ErrorKind::WouldBlock.into());
        }
        let mut stream = self.stream;
        let read = stream.read(buf);
        self.may_hold_more = match &read {
            Ok(count) => *count == buf.len(),
            Err(error) => error.kind() != ErrorKind::WouldBlock,
        };
        read
    }
}

// What a client takes, as far as it is its turn to.
#[derive(Drop)]
struct Output<'a> {
    stream: &'a TcpStream,
    is_open: bool,
}

impl Write for Output<'_> {
    // Writes to the client, or fails with `WouldBlock` while its replies are held back.
    fn write(&mut self, buf: &[u8]) -> io::Result<usize> {
        if !self.is_open {
            return Err(ErrorKind::WouldBlock.into());
        }
        let mut stream = self.stream;
        stream.write(buf)
    }

    // Does nothing: there is no buffer here.
    fn flush(&mut self) -> io::Result<()> {
        Ok(())
    }
}

// A client.
#[derive(Drop)]
pub(crate) struct Client {
    stream: TcpStream,
    conversation: Conversation,
    wait: Wait,
    // How many bytes were read after its last reply.
    drained: usize,
    // Whether the system reports its connection once that is ready for what was asked last.
    is_reported: bool,
    // What it was asked for last.
    interest: Interest,
    // Where it comes from.
    address: IpAddr,
}

impl Client {
    // A client that came at this second, with whom this conversation is held.
    pub(crate) fn new(
        stream: TcpStream,
        conversation: Conversation,
        address: IpAddr,
        now: u64,
    ) -> Client
        ensures { client_talk result ≡ talk_of conversation }
    {
        Client {
            stream,
            conversation,
            wait: Wait::for_first(now),
            drained: 0,
            is_reported: false,
            interest: its_bytes(),
            address,
        }
    }

    // Where it comes from.
    pub(crate) fn address(&self) -> IpAddr {
        self.address
    }

    // How many bytes it has still to take.
    pub(crate) fn unsent(&self) -> usize
        ensures { result ≡ length (client_talk self.now).unsent }
    {
        self.conversation.unsent_bytes()
    }

    // Since which second it is idle: nothing is unsent, and no message has begun.
    pub(crate) fn idle_since(&self) -> Option<u64> {
        if self.wait.awaited == Awaited::Message
            && self.conversation.unanswered_bytes() == 0
            && self.unsent() == 0
        {
            Some(self.wait.since)
        } else {
            None
        }
    }

    // Whether its query waits until queries are answered again.
    pub(crate) fn waits_for_room(&self) -> bool {
        self.wait.awaited == Awaited::Room
    }

    // Its conversation, when the client has gone: its connection is closed.
    pub(crate) fn into_conversation(self) -> Conversation {
        self.conversation
    }

    // Has its connection reported under this token when it is ready at first.
    pub(crate) fn register(&mut self, registry: &Registry, token: Token) -> io::Result<()>
        ensures { client_talk self.new ≡ client_talk self.old }
    {
        self.stream.set_nodelay(true)?;
        registry.register(&mut self.stream, token, self.interest)?;
        self.is_reported = true;
        Ok(())
    }

    // Has it reported once more, also if it is ready already, unless the system does so anyway.
    // Says whether it could be done.
    pub(crate) fn report(&mut self, registry: &Registry, token: Token, interest: Interest) -> bool
        ensures same { client_talk self.new ≡ client_talk self.old }
        ensures reported { self.new.is_reported ≡ result }
    {
        if !self.is_reported || self.interest != interest {
            self.interest = interest;
            self.is_reported = registry
                .reregister(&mut self.stream, token, interest)
                .is_ok();
        }
        self.is_reported
    }

    // Its turn.
    pub(crate) fn turn<C: Clock, B: Book, P: Pace>(
        &mut self,
        alloc: Global,
        routes: &Routes,
        clock: &mut C,
        book: &mut B,
        pace: &mut P,
        ready: Ready,
    ) -> AfterTurn
        ensures turn { TakesTurn None None None None
            (desk_state (C.tells clock.old) (B.state book.old))
            (desk_state (C.tells clock.new) (B.state book.new))
            (client_talk self.old) (client_talk self.new) }
        ensures taken { ready.part ≢ TurnKind.Answer → result ≢ AfterTurn.HoldReplies }
    {
        let part = self.part(ready);
        let stream = &self.stream;
        let mut input = Input {
            stream,
            is_open: part != TurnKind::Send,
            may_hold_more: true,
        };
        let mut output = Output {
            stream,
            is_open: part != TurnKind::Answer,
        };
        let wants = self
            .conversation
            .turn(alloc, routes, &mut input, &mut output, clock, book, pace);
        if input.is_open && (input.may_hold_more || ready.may_hold_more) {
            self.is_reported = false;
        }
        if wants == Wants::Write && part == TurnKind::Answer {
            return AfterTurn::HoldReplies;
        }
        let (queries, histories) = (pace.answers_queries(), pace.answers_histories());
        self.after_turn(wants, queries, histories, ready.now)
    }

    // What it does in its turn: one that has bytes to take already takes them first.
    fn part(&self, ready: Ready) -> TurnKind
        ensures { ready.part ≢ TurnKind.Answer → result ≢ TurnKind.Answer }
    {
        if ready.part == TurnKind::Answer && self.unsent() > 0 {
            TurnKind::Both
        } else {
            ready.part
        }
    }

    // What becomes of it if its conversation waits for this, after a turn that answered queries and
    // histories, or not.
    fn after_turn(
        &mut self,
        wants: Wants,
        answers_queries: bool,
        answers_histories: bool,
        now: u64,
    ) -> AfterTurn
        ensures same { client_talk self.new ≡ client_talk self.old }
        ensures told { result ≢ AfterTurn.HoldReplies }
        ensures anew { wants ≢ Wants.Read → self.new.is_reported ≡ false }
    {
        if wants != Wants::Read {
            self.is_reported = false;
        }
        match wants {
            Wants::Read => {
                let awaited = self.next_awaited();
                self.wait_for(awaited, now);
                AfterTurn::WaitFor(its_bytes())
            }
            Wants::Write => {
                self.wait_for(Awaited::Reading, now);
                AfterTurn::WaitFor(Interest::WRITABLE)
            }
            Wants::Yield => self.after_yield(answers_queries, answers_histories, now),
            Wants::Drain => self.drain(now),
            Wants::Close(cause) => AfterTurn::Close(cause),
        }
    }

    // The same, if it waits for its next turn.
    fn after_yield(&mut self, answers_queries: bool, answers_histories: bool, now: u64) -> AfterTurn
        ensures same { client_talk self.new ≡ client_talk self.old }
        ensures told { result ≢ AfterTurn.HoldReplies }
        ensures reported { self.new.is_reported ≡ self.old.is_reported }
    {
        if !answers_queries && self.conversation.begins_with_query() {
            self.wait_for(Awaited::Room, now);
            return AfterTurn::WaitForRoom;
        }
        if !answers_histories && self.conversation.begins_with_history() {
            self.wait_for(Awaited::Queue, now);
            return AfterTurn::WaitInQueue;
        }
        self.wait_for(Awaited::Message, now);
        AfterTurn::WaitFor(Interest::READABLE | Interest::WRITABLE)
    }

    // What of its input is waited for.
    fn next_awaited(&self) -> Awaited {
        if self.conversation.unanswered_bytes() == 0 {
            Awaited::Message
        } else {
            Awaited::Rest
        }
    }

    // Notes what it is waited for, from now on if that is new or a message was answered.
    fn wait_for(&mut self, awaited: Awaited, now: u64)
        ensures same { client_talk self.new ≡ client_talk self.old }
        ensures reported { self.new.is_reported ≡ self.old.is_reported }
    {
        let answered = self.conversation.answered();
        self.wait = self.wait.renewed(awaited, answered, now);
    }

    // Its last reply was written: its connection is ended on this side, and what it still sends is
    // read and thrown away for a while. If it were closed at once, the system would answer what is
    // still sent with a reset, and the reply could be lost.
    fn drain(&mut self, now: u64) -> AfterTurn
        ensures same { client_talk self.new ≡ client_talk self.old }
        ensures told { result ≢ AfterTurn.HoldReplies }
        ensures reported { self.new.is_reported ≡ self.old.is_reported }
    {
        if self.wait.awaited != Awaited::Leaving {
            let _ = self.stream.shutdown(Shutdown::Write);
            self.wait_for(Awaited::Leaving, now);
        }
        let mut bytes = [0u8; DRAINED_AT_ONCE];
        match self.stream.read(&mut bytes) {
            Ok(0) => return AfterTurn::Close(Cause::EndOfInput),
            Ok(n) => self.drained = self.drained.saturating_add(n),
            Err(error) => {
                if !would_wait(error.kind()) {
                    return AfterTurn::Close(Cause::EndOfInput);
                }
            }
        }
        if self.drained > MAX_DRAINED {
            return AfterTurn::Close(Cause::EndOfInput);
        }
        AfterTurn::WaitFor(its_bytes())
    }

    // Why it is let go at this second, if it took too long.
    pub(crate) fn overdue(&self, limits: Limits, now: u64) -> Option<Cause> {
        self.wait.overdue(limits, now)
    }
}

// Whether a read that failed so may be tried again later.
fn would_wait(kind: ErrorKind) -> bool {
    kind == ErrorKind::WouldBlock || kind == ErrorKind::Interrupted
}
