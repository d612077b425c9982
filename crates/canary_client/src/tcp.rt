//! The way to a desk over TCP: one connection for each message.
use crate::clock::{Deadline, pause_after};
use crate::endpoint::DeskEndpoint;
use crate::http::{HeadProgress, MAX_DESK_HEAD, ReplyHead, front_of};
use crate::outcome::{say, say_of};
use canary_base::lists::Text;
use canary_client_journal::network::{Heard, Network, RetryReason};
use canary_fetch::local::LocalFault;
use std::alloc::Global;
use std::io::{self, ErrorKind, Read, Write};
use std::net::{SocketAddr, TcpStream};
use std::thread;
use std::time::Duration;

// How many bytes are read at a time.
const REPLY_PIECE: usize = 16_384;

const HINDERED: &str = "this machine cannot connect, and tries again";

/// The way to the desk at this address. No clause ties it to a network: that it sends each message
/// once at most, and that a reply on a connection is the desk's answer to the message on it, is for
/// whoever rests on it to assume.
#[derive(Drop)]
pub struct Tcp<'a> {
    rt: &'a HostRuntime,
    desk: SocketAddr,
    // The longest time of an exchange.
    limit: Duration,
    // The span of the whole call, if that has one.
    call: Option<Deadline>,
    // The fault of this machine by which the last exchange has no connection.
    hindrance: Option<LocalFault>,
}

impl<'a> Tcp<'a> {
    /// The way to the desk at this place, where each exchange may take as long as a reply there,
    /// from its connection to the last byte of the reply.
    pub fn new(rt: &'a HostRuntime, place: &DeskEndpoint) -> Tcp<'a> {
        Tcp {
            rt,
            desk: place.desk,
            limit: Duration::from_secs(place.reply_seconds.max(1)),
            call: None,
            hindrance: None,
        }
    }

    /// The same, of a call whose exchanges and pauses all end with this span: nothing is sent once
    /// that is over.
    pub fn within(rt: &'a HostRuntime, place: &DeskEndpoint, call: Deadline) -> Tcp<'a> {
        let mut tcp = Tcp::new(rt, place);
        tcp.call = Some(call);
        tcp
    }

    /// The fault of this machine by which the last exchange had no connection; none if it had one,
    /// if nobody answered there, or if it was taken before.
    pub fn take_hindrance(&mut self) -> Option<LocalFault> {
        self.hindrance.take()
    }

    // As much of this time as is left of the call.
    fn cut(&self, time: Duration) -> Option<Duration> {
        match self.call {
            Some(call) => call.cut(self.rt, time),
            None => Some(time),
        }
    }

    // A connection for one exchange, which ends in time. If there is none by a fault of this
    // machine, that is remembered.
    fn connect(&mut self) -> Option<Exchange<'a>> {
        self.hindrance = None;
        let limit = self.cut(self.limit)?;
        let span = Deadline::lasting(self.rt, limit)?;
        match TcpStream::connect_timeout(self.rt, &self.desk, limit) {
            Ok(stream) => Some(Exchange {
                rt: self.rt,
                span,
                limit,
                stream,
            }),
            Err(error) => {
                self.hindrance = LocalFault::of(&error);
                None
            }
        }
    }

    // Says why a message is sent again.
    fn say_why(&self, why: RetryReason) {
        let mut errors = self.rt.stderr();
        match self.hindrance {
            Some(fault) => say_of(self.rt.alloc(), &mut errors, HINDERED, fault.text()),
            None => say(&mut errors, text_of(why)),
        }
    }
}

// A connection, with the span of its exchange: each call on it may take what is left of that.
#[derive(Drop)]
struct Exchange<'a> {
    rt: &'a HostRuntime,
    span: Deadline,
    limit: Duration,
    stream: TcpStream,
}

impl<'a> Exchange<'a> {
    // The time that is left of the exchange; `Lost` if it is over.
    fn left(&self) -> Result<Duration, RetryReason> {
        self.span.cut(self.rt, self.limit).ok_or(RetryReason::Lost)
    }

    // Writes all bytes of a message; `Lost` if the connection or the time ends before.
    fn send(&mut self, message: &[u8]) -> Result<(), RetryReason> {
        let mut rest = message;
        for _ in 0..u64::MAX {
            if rest.is_empty() {
                return Ok(());
            }
            let left = self.left()?;
            if self.stream.set_write_timeout(Some(left)).is_err() {
                return Err(RetryReason::Lost);
            }
            let count = passed(self.stream.write(rest))?;
            rest = rest.get(count..).unwrap_or(&[]);
        }
        Err(RetryReason::Lost)
    }

    // Reads some bytes more, none if a signal came first.
    fn read_more(&mut self, held: &mut Vec<u8>) -> Result<(), RetryReason> {
        let left = self.left()?;
        if self.stream.set_read_timeout(Some(left)).is_err() {
            return Err(RetryReason::Lost);
        }
        let mut piece = [0u8; REPLY_PIECE];
        let count = passed(self.stream.read(&mut piece))?;
        match held.extend_from_slice(piece.get(..count).unwrap_or(&[])) {
            Ok(()) => Ok(()),
            Err(_) => Err(RetryReason::Memory),
        }
    }

    // Reads a whole reply.
    fn hear(&mut self, alloc: Global) -> Result<Heard, RetryReason> {
        let mut held = Vec::new(alloc);
        let status = self.hear_whole(alloc, &mut held)?;
        response(status, held)
    }

    // Reads until a whole reply is there, leaves its body, and answers its status. Its head is read
    // once, and then its body, of which no more is held than it is long.
    fn hear_whole(&mut self, alloc: Global, held: &mut Vec<u8>) -> Result<u16, RetryReason> {
        let head = self.hear_head(alloc, held)?;
        for _ in 0..u64::MAX {
            if held.len() >= head.length {
                held.truncate(head.length);
                return Ok(head.status);
            }
            self.read_more(held)?;
        }
        Err(RetryReason::Lost)
    }

    // Reads until the head of the reply is there, and leaves what came of its body. Replies that
    // others follow are ignored (RFC 9110, section 15.2).
    fn hear_head(&mut self, alloc: Global, held: &mut Vec<u8>) -> Result<ReplyHead, RetryReason> {
        for _ in 0..u64::MAX {
            match front_of(held.as_slice())? {
                HeadProgress::Whole(head) => {
                    *held = rest_from(alloc, held.as_slice(), head.end)?;
                    return Ok(head);
                }
                HeadProgress::Interim(end) => *held = rest_from(alloc, held.as_slice(), end)?,
                HeadProgress::Part if held.len() > MAX_DESK_HEAD => return Err(
                    RetryReason::Foreign,
                ),
                HeadProgress::Part => self.read_more(held)?,
            }
        }
        Err(RetryReason::Lost)
    }
}

// How many bytes a call passed on: none if a signal came first.
fn passed(count: io::Result<usize>) -> Result<usize, RetryReason> {
    match count {
        Ok(0) => Err(RetryReason::Lost),
        Ok(count) => Ok(count),
        Err(error) if error.kind() == ErrorKind::Interrupted => Ok(0),
        Err(_) => Err(RetryReason::Lost),
    }
}

// The bytes from this place on.
fn rest_from(alloc: Global, bytes: &[u8], place: usize) -> Result<Vec<u8>, RetryReason> {
    match Vec::from_slice(alloc, bytes.get(place..).unwrap_or(&[])) {
        Ok(rest) => Ok(rest),
        Err(_) => Err(RetryReason::Memory),
    }
}

// The reply with this body. A desk's is UTF-8.
fn response(status: u16, body: Vec<u8>) -> Result<Heard, RetryReason> {
    match String::from_utf8(body) {
        Ok(body) => Ok(Heard {
            status,
            body: Text::of(body),
        }),
        Err(_) => Err(RetryReason::Foreign),
    }
}

impl<'a> Network for Tcp<'a> {
    ghost was_sent = { λ t m. Unit {0} };

    ghost was_told = { λ t m response. Unit {0} };

    ghost was_unanswered = { λ t m why. Unit {0} };

    // Sends a message on a connection of its own, and reads the reply, all within one time limit.
    fn exchange(&mut self, alloc: Global, message: &str) -> Result<Heard, RetryReason> {
        let Some(mut exchange) = self.connect() else {
            return Err(RetryReason::Unreachable);
        };
        exchange.send(message.as_bytes())?;
        exchange.hear(alloc)
    }

    // Says why a message is sent again, and waits; does neither if the call has no time left.
    fn pause(&mut self, tried: u32, why: RetryReason) {
        if let Some(pause) = self.cut(Duration::from_millis(pause_after(tried))) {
            self.say_why(why);
            thread::sleep(self.rt, pause);
        }
    }
}

// What is said of why a message is sent again.
fn text_of(why: RetryReason) -> &'static str {
    match why {
        RetryReason::Unreachable => "nobody answers there; trying again",
        RetryReason::Lost => "the reply was lost; trying again",
        RetryReason::Foreign => "the reply is not a desk's; trying again",
        RetryReason::Unavailable => "the desk cannot do it now; trying again",
        RetryReason::Memory => "out of memory; trying again",
    }
}
