//! Conversations: the turns of clients whose bytes come in pieces, and who read slowly.
use crate::rows::{check, cut, is_right, name};
use canary_base::moments::Moment;
use canary_once::book::Book;
use canary_once::clock::StepClock;
use canary_once::memory::MemoryBook;
use canary_wire::conversation::{Cause, Conversation, ConversationState, Pace, Routes, Wants};
use std::alloc::Global;
use std::io;
use std::io::{ErrorKind, Read, Write};
use std::process::Abort;

// A service, a start, a promotion that comes twice, a number ahead, and a query.
const STREAM: &str = concat!(
    "PUT /callers/ops/requests/1 HTTP/1.1\r\nContent-Length: 140\r\n\r\n",
    r#"{"service":{"manifest":{"metadata":{"name":"web"},"spec":{"strategy":{"canary":"#,
    r#"{"steps":[{"setWeight":20},{"pause":{}}]}}}},"version":"v1"}}"#,
    "PUT /callers/ops/requests/2 HTTP/1.1\r\nContent-Length: 42\r\n\r\n",
    r#"{"start":{"service":"web","version":"v2"}}"#,
    "PUT /callers/ops/requests/3 HTTP/1.1\r\nContent-Length: 29\r\n\r\n",
    r#"{"promote":{"service":"web"}}"#,
    "PUT /callers/ops/requests/3 HTTP/1.1\r\nContent-Length: 29\r\n\r\n",
    r#"{"promote":{"service":"web"}}"#,
    "PUT /callers/ops/requests/5 HTTP/1.1\r\nContent-Length: 29\r\n\r\n",
    r#"{"promote":{"service":"web"}}"#,
    "GET /services/api HTTP/1.1\r\n\r\n"
);

// What answers them.
const REPLIES: &str = concat!(
    "HTTP/1.1 200 OK\r\nContent-Type: application/json\r\nContent-Length: 70\r\n\r\n",
    r#"{"code":"ok","service":"web","status":"Healthy","step":2,"weight":100}"#,
    "HTTP/1.1 200 OK\r\nContent-Type: application/json\r\nContent-Length: 68\r\n\r\n",
    r#"{"code":"ok","service":"web","status":"Paused","step":1,"weight":20}"#,
    "HTTP/1.1 200 OK\r\nContent-Type: application/json\r\nContent-Length: 70\r\n\r\n",
    r#"{"code":"ok","service":"web","status":"Healthy","step":2,"weight":100}"#,
    "HTTP/1.1 200 OK\r\nContent-Type: application/json\r\nContent-Length: 70\r\n\r\n",
    r#"{"code":"ok","service":"web","status":"Healthy","step":2,"weight":100}"#,
    "HTTP/1.1 409 Conflict\r\nContent-Type: application/json\r\nContent-Length: 29\r\n\r\n",
    r#"{"code":"ahead","expected":4}"#,
    "HTTP/1.1 404 Not Found\r\nContent-Type: application/json\r\nContent-Length: 26\r\n\r\n",
    r#"{"code":"unknown-service"}"#
);

// Why each second call gives nothing: it would block, or, in turn, it was interrupted.
fn pause(calls: u32) -> io::Error {
    if calls % 4 == 1 {
        ErrorKind::WouldBlock.into()
    } else {
        ErrorKind::Interrupted.into()
    }
}

// Gives pieces, with a pause after each; then it ends.
#[derive(Clone, Copy)]
struct Incoming<'a> {
    rest: &'a [u8],
    size: usize,
    calls: u32,
}

impl Read for Incoming<'_> {
    fn read(&mut self, buf: &mut [u8]) -> io::Result<usize> {
        self.calls = self.calls.saturating_add(1);
        if self.calls % 2 == 1 {
            return Err(pause(self.calls));
        }
        let count = self.size.min(buf.len()).min(self.rest.len());
        let (piece, rest) = self.rest.split_at(count);
        buf[..count].copy_from_slice(piece);
        self.rest = rest;
        Ok(count)
    }
}

// Takes so many bytes a write, with a pause after each if these are few.
#[derive(Drop)]
struct Outgoing {
    bytes: Vec<u8>,
    size: usize,
    calls: u32,
    writes: usize,
}

impl Write for Outgoing {
    fn write(&mut self, buf: &[u8]) -> io::Result<usize> {
        self.writes = self.writes.saturating_add(1);
        self.calls = self.calls.saturating_add(1);
        if self.calls % 2 == 1 && self.size < 1000 {
            return Err(pause(self.calls));
        }
        let count = buf.len().min(self.size);
        self.bytes.extend_from_slice(&buf[..count])?;
        Ok(count)
    }

    fn flush(&mut self) -> io::Result<()> {
        Ok(())
    }
}

fn reading(stream: &str, size: usize, calls: u32) -> Incoming<'_> {
    Incoming {
        rest: stream.as_bytes(),
        size,
        calls,
    }
}

// How turns go on: with more than one message, with queries, and with histories.
#[derive(Clone, Copy)]
struct Paced {
    goes_on: bool,
    answers_queries: bool,
    answers_histories: bool,
}

impl Pace for Paced {
    fn goes_on(&mut self) -> bool {
        self.goes_on
    }

    fn answers_queries(&self) -> bool {
        self.answers_queries
    }

    fn answers_histories(&self) -> bool {
        self.answers_histories
    }
}

// As far as a turn may go.
const FAR: Paced = Paced {
    goes_on: true,
    answers_queries: true,
    answers_histories: true,
};

// One message a turn.
const ONE_BY_ONE: Paced = Paced {
    goes_on: false,
    answers_queries: true,
    answers_histories: true,
};

// No query is answered.
const WAITING: Paced = Paced {
    goes_on: true,
    answers_queries: false,
    answers_histories: true,
};

// No history is answered.
const CHEAP: Paced = Paced {
    goes_on: true,
    answers_queries: true,
    answers_histories: false,
};

// The turns after which a conversation has no end.
const MAX_TURNS: u32 = 100_000;

// The most that was owed, and the turns, of a conversation to the end of its input: the most turns
// if it ended otherwise.
#[derive(Clone, Copy)]
struct Ran {
    unsent: usize,
    turns: u32,
}

// A clock that ticks by a second.
pub(crate) fn seconds() -> StepClock {
    let start = Moment::new(1_767_225_600).unwrap();
    StepClock::new(start, Moment::new(1).unwrap())
}

// A conversation, with its book and what it writes.
#[derive(Drop)]
struct Desk {
    routes: Routes,
    talk: Conversation,
    book: MemoryBook,
    writer: Outgoing,
}

// One in which nothing was said, of which a write takes so many bytes.
fn desk_of(alloc: Global, routes: Routes, talk: Conversation, size: usize) -> Desk {
    Desk {
        routes,
        talk,
        book: MemoryBook::new(alloc),
        writer: Outgoing {
            bytes: Vec::new(alloc),
            size,
            calls: 0,
            writes: 0,
        },
    }
}

// A new one; none if memory was refused.
fn new_desk(alloc: Global, max_unsent: usize, size: usize) -> Option<Desk> {
    let talk = Conversation::new(alloc, max_unsent).ok()?;
    Some(desk_of(alloc, Routes::new(alloc).ok()?, talk, size))
}

// What is tried of a conversation.
#[derive(Clone, Copy)]
enum Trial<'a> {
    // The stream is answered in pieces of this size, with no more owed than that and one reply.
    Answers {
        size: usize,
        most: usize,
    },
    // Messages that come at once go out by so many writes, in no more than so many turns.
    Writes {
        stream: &'a str,
        pace: Paced,
        writes: usize,
        turns: u32,
    },
    // So many replies come at first, at this pace, and so many once each query is answered.
    Waits {
        stream: &'a str,
        pace: Paced,
        replies: (usize, usize),
    },
    // It waits for more of its client, or not, after this, while no history is answered.
    ReadsOn {
        stream: &'a str,
        is_so: bool,
    },
    // Each new request has a reply, and is settled if that accepts it.
    Settles,
    // It is open at first, and stands so after it has answered these bytes.
    Stands {
        stream: &'a str,
        stage: ConversationState,
    },
}

// What each call answers of such a conversation is none if memory was refused.
impl Desk {
    fn shows(&mut self, alloc: Global, trial: Trial) -> Option<bool> {
        match trial {
            Trial::Answers { size, most } => self.answers(alloc, size, most),
            Trial::Writes {
                stream,
                pace,
                writes,
                turns,
            } => self.writes(alloc, stream, pace, (writes, turns)),
            Trial::Waits {
                stream,
                pace,
                replies,
            } => Some(self.replies_in_turn(alloc, stream, pace) == replies),
            Trial::ReadsOn { stream, is_so } => Some(self.reads_on(alloc, stream)? == is_so),
            Trial::Settles => self.settles(alloc),
            Trial::Stands { stream, stage } => Some(self.stands(alloc, stream, stage)),
        }
    }

    fn turn(
        &mut self,
        alloc: Global,
        reader: &mut Incoming,
        now: &mut StepClock,
        pace: Paced,
    ) -> Wants {
        let mut pace = pace;
        self.talk.turn(
            alloc,
            &self.routes,
            reader,
            &mut self.writer,
            now,
            &mut self.book,
            &mut pace,
        )
    }

    // Takes turns to the end of the conversation, so many at most.
    fn run(&mut self, alloc: Global, reader: &mut Incoming, pace: Paced, most: u32) -> Option<Ran> {
        let mut now = seconds();
        let mut unsent = 0;
        for turns in 0..most {
            let wants = self.turn(alloc, reader, &mut now, pace);
            unsent = unsent.max(self.talk.unsent_bytes());
            match wants {
                Wants::Close(Cause::Memory) => return None,
                Wants::Close(Cause::EndOfInput) => return Some(Ran { unsent, turns }),
                Wants::Close(_) => break,
                _ => {}
            }
        }
        Some(Ran {
            unsent,
            turns: most,
        })
    }

    fn answers(&mut self, alloc: Global, size: usize, most: usize) -> Option<bool> {
        let ran = self.run(alloc, &mut reading(STREAM, size, 0), FAR, MAX_TURNS)?;
        let is_bounded = ran.unsent < most.max(1).saturating_add(300) && ran.turns < MAX_TURNS;
        Some(is_bounded && self.writer.bytes.as_slice() == REPLIES.as_bytes())
    }

    fn writes(
        &mut self,
        alloc: Global,
        stream: &str,
        pace: Paced,
        (writes, turns): (usize, u32),
    ) -> Option<bool> {
        let ran = self.run(alloc, &mut reading(stream, 100_000, 1), pace, MAX_TURNS)?;
        Some(self.writer.writes == writes && ran.turns <= turns)
    }

    // How many replies there are after ten turns more, which take all that is sent at once.
    fn replies(&mut self, alloc: Global, reader: &mut Incoming, pace: Paced) -> usize {
        let _ = self.run(alloc, reader, pace, 10);
        count_of(&self.writer.bytes, "HTTP/1.1 ")
    }

    // How many replies there are after some turns, first at this pace and then while each query is
    // answered.
    fn replies_in_turn(&mut self, alloc: Global, stream: &str, pace: Paced) -> (usize, usize) {
        let mut reader = reading(stream, 1000, 1);
        let before = self.replies(alloc, &mut reader, pace);
        (before, self.replies(alloc, &mut reader, FAR))
    }

    fn reads_on(&mut self, alloc: Global, stream: &str) -> Option<bool> {
        self.run(alloc, &mut reading(stream, 1000, 1), CHEAP, 1)?;
        let wants = self.turn(alloc, &mut reading("", 1, 0), &mut seconds(), CHEAP);
        Some(wants == Wants::Read)
    }

    // How many requests are settled.
    fn settled(&mut self) -> Option<usize> {
        Some(self.book.settled(&name("ops")?).ok()? as usize)
    }

    fn settles(&mut self, alloc: Global) -> Option<bool> {
        self.writer.bytes.reserve(1_000).ok()?;
        let replies = self.replies(alloc, &mut reading(NEW, 1000, 1), FAR);
        let accepted = count_of(&self.writer.bytes, "HTTP/1.1 200 OK");
        Some(replies == 2 && self.settled()? == accepted)
    }

    fn stands(&mut self, alloc: Global, stream: &str, stage: ConversationState) -> bool {
        let before = self.talk.stage();
        self.replies(alloc, &mut reading(stream, 1000, 1), FAR);
        before == ConversationState::Open && self.talk.stage() == stage
    }
}

// Whether a new conversation shows that, in which so much may be owed, and of which a write takes
// so many bytes.
fn shows(alloc: Global, max_unsent: usize, size: usize, trial: Trial) -> Option<bool> {
    match &mut new_desk(alloc, max_unsent, size) {
        Some(desk) => desk.shows(alloc, trial),
        None => None,
    }
}

// Ends the test if a call is wrong that was made again: one that is refused memory, or whose
// replies may say that it was, is right the second time.
fn check_either(rt: &impl Abort, first: Option<bool>, second: Option<bool>, row: &str) {
    check(rt, first == Some(true) || second == Some(true), row);
}

fn check_trial(rt: &impl Abort, alloc: Global, trial: Trial, row: &str) {
    let first = shows(alloc, 16_384, 1_000, trial);
    check_either(rt, first, shows(alloc, 16_384, 1_000, trial), row);
}

// How many replies begin so; the text has 15 bytes at most.
fn count_of(replies: &[u8], text: &str) -> usize {
    let mut count: usize = 0;
    for window in replies.windows(15) {
        if window.starts_with(text.as_bytes()) {
            count = count.saturating_add(1);
        }
    }
    count
}

// Sizes of what is read, of what a write takes, and of what may be owed.
const READ: &str = "1 7 50 1000 100000";

const TAKEN: &str = "1 50 100000";

const OWED: &str = "0 1 300 16384";

// Whether the stream is answered with these sizes.
fn is_answered_in(alloc: Global, read: &str, taken: &str, owed: &str) -> Option<bool> {
    let (size, most) = (read.parse().ok()?, owed.parse().ok()?);
    let trial = Trial::Answers { size, most };
    shows(alloc, most, taken.parse().ok()?, trial)
}

fn check_pieces(rt: &impl Abort, alloc: Global, read: &str, taken: &str) {
    for owed in OWED.split(' ') {
        let first = is_answered_in(alloc, read, taken, owed);
        check_either(rt, first, is_answered_in(alloc, read, taken, owed), read);
    }
}

#[test]
fn answers_in_any_pieces(rt: HostRuntime) {
    for read in READ.split(' ') {
        for taken in TAKEN.split(' ') {
            check_pieces(&rt, rt.alloc(), read, taken);
        }
    }
}

// So many messages take 5 turns of 64, and 4 of 65.
const MESSAGES: usize = 260;

fn put_messages(stream: &mut String) -> Option<()> {
    for _ in 0..MESSAGES {
        stream.push_str("GET /nope HTTP/1.1\r\n\r\n").ok()?;
    }
    Some(())
}

fn messages(alloc: Global) -> Option<String> {
    let mut stream = String::new(alloc);
    put_messages(&mut stream)?;
    Some(stream)
}

fn is_written(alloc: Global, pace: Paced, writes: usize, turns: u32) -> Option<bool> {
    let stream = messages(alloc)?;
    let trial = Trial::Writes {
        stream: &stream,
        pace,
        writes,
        turns,
    };
    shows(alloc, 1_000_000, 1_000_000, trial)
}

// Whether 260 messages at once go out by one write a turn, if it takes 64 a turn.
fn is_written_by_turns(alloc: Global) -> Option<bool> {
    is_written(alloc, FAR, 5, 8)
}

// Whether each of 260 messages has a turn of its own, if a turn goes on with no other.
fn is_written_one_by_one(alloc: Global) -> Option<bool> {
    is_written(alloc, ONE_BY_ONE, MESSAGES, MAX_TURNS)
}

#[test]
fn answers_many_at_once(rt: HostRuntime) {
    let alloc = rt.alloc();
    let first = is_written_by_turns(alloc);
    check_either(&rt, first, is_written_by_turns(alloc), "by turns");
    let first = is_written_one_by_one(alloc);
    check_either(&rt, first, is_written_one_by_one(alloc), "one by one");
}

// A request and a query.
const TICK_AND_QUERY: &str = concat!(
    "PUT /callers/ops/requests/1 HTTP/1.1\r\nContent-Length: 26\r\n\r\n",
    r#"{"tick":{"service":"web"}}"#,
    "\r\nGET /services/web HTTP/1.1\r\n\r\n"
);

#[test]
fn queries_wait(rt: HostRuntime) {
    let trial = Trial::Waits {
        stream: TICK_AND_QUERY,
        pace: WAITING,
        replies: (1, 2),
    };
    check_trial(&rt, rt.alloc(), trial, TICK_AND_QUERY);
}

// Targets of a query that follows another one, each with how many of two replies come while no
// history is answered.
const TARGETS: &str = "1 /services/web/history
1 /services/web/history?x=/y
1 /services/-/history
2 /services/history
2 /services//history
2 /services/web/history/
2 /services/web/histor
2 /services/web/runs/1
2 /services/a/b/history
2 /services/web?/history";

// A query, and one of this target, which is that of a history, or seems to be.
fn queries(alloc: Global, target: &str) -> Option<String> {
    let first = "GET /services/web HTTP/1.1\r\n\r\n\r\n";
    format!(in alloc; "{first}GET {target} HTTP/1.1\r\n\r\n").ok()
}

// Whether a query of this target waits, if it is to, while no history is answered.
fn waits_as(alloc: Global, row: &str) -> Option<bool> {
    let (before, target) = cut(row, ' ');
    let stream = queries(alloc, target)?;
    let replies = if before == "1" { (1, 2) } else { (2, 2) };
    let trial = Trial::Waits {
        stream: &stream,
        pace: CHEAP,
        replies,
    };
    shows(alloc, 16_384, 1_000, trial)
}

#[test]
fn histories_wait(rt: HostRuntime) {
    for row in TARGETS.lines() {
        let first = waits_as(rt.alloc(), row);
        check_either(&rt, first, waits_as(rt.alloc(), row), row);
    }
}

// A part of a history does not wait for its turn, so the time for the rest of it goes on.
#[test]
fn parts_of_histories_are_read_on(rt: HostRuntime) {
    let stream = "GET /services/web/history HTTP/1.1\r\nHost: ";
    let part = Trial::ReadsOn {
        stream,
        is_so: true,
    };
    check_trial(&rt, rt.alloc(), part, stream);
    let stream = "GET /services/web/history HTTP/1.1\r\n\r\n";
    let whole = Trial::ReadsOn {
        stream,
        is_so: false,
    };
    check_trial(&rt, rt.alloc(), whole, stream);
}

// The requests of STREAM that are new, and settled as they come once.
const NEW: &str = concat!(
    "PUT /callers/ops/requests/1 HTTP/1.1\r\nContent-Length: 140\r\n\r\n",
    r#"{"service":{"manifest":{"metadata":{"name":"web"},"spec":{"strategy":{"canary":"#,
    r#"{"steps":[{"setWeight":20},{"pause":{}}]}}}},"version":"v1"}}"#,
    "PUT /callers/ops/requests/2 HTTP/1.1\r\nContent-Length: 42\r\n\r\n",
    r#"{"start":{"service":"web","version":"v2"}}"#
);

// Each request has a reply, and is settled if that accepts it, wherever memory is refused.
#[test]
fn settles_nothing_unanswered(rt: HostRuntime) {
    let alloc = rt.alloc();
    let first = shows(alloc, 16_384, 1_000_000, Trial::Settles);
    let second = shows(alloc, 16_384, 1_000_000, Trial::Settles);
    check(&rt, is_right(first, second), "new requests");
}

#[test]
fn stages_of_conversations(rt: HostRuntime) {
    let stream = "GET /services/web HTTP/1.1\r\n\r\n";
    let open = Trial::Stands {
        stream,
        stage: ConversationState::Open,
    };
    check_trial(&rt, rt.alloc(), open, stream);
    let stream = "GET /services/web HTTP/1.1\r\nConnection: close\r\n\r\n";
    let over = Trial::Stands {
        stream,
        stage: ConversationState::Over,
    };
    check_trial(&rt, rt.alloc(), over, stream);
}
