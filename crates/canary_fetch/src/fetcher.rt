//! Messages to many providers at once, of which no one waits for another.
ghost use Rattle.std.specs.Prelude.{◌≡◌, ℕ, IfOk, OnOk, OnErr, MatchOption, IfSome, true, false, Err, Some};
ghost use Rattle.canary_fetch.specs.Asking.{AreSame, Comes, Goes};

use crate::local::LocalFault;
use crate::query::{FetchCompletion, StartFault};
use crate::underway::Underway;
use mio::{Events, Poll};
use std::alloc::Global;
use std::net::{Net, SocketAddr};
use std::time::{self, Duration, Instant};
use thiserror::Error;

// The most events that are taken at a time.
const MAX_EVENTS: usize = 256;

/// Why nobody can be asked.
#[derive(Clone, Copy, Debug, PartialEq, Eq, Error)]
pub enum FetchFault {
    /// The system reports nothing of connections.
    #[error("the system tells nothing of connections")]
    Poll,
    /// An allocation was refused.
    #[error("out of memory")]
    Memory,
}

/// Messages that are under way, each to one address and on a connection of its own: one thread,
/// which waits for none of them.
///
/// At most so many have a connection at a time; the others wait for one in the order in which they
/// came. Each is answered by the end of its time, which begins as it is taken in.
#[derive(Drop)]
pub struct Fetcher {
    underway: Underway,
    events: Events<Global>,
    start: Option<Instant>,
}

impl Fetcher {
    ghost use Rattle.canary_fetch.specs.Asked.{is_asked, asked_message, asked_outcome};
    ghost use Rattle.canary_fetch.specs.Asked.{most_connections, hindrance_of};

    /// One with nothing to ask, and so many connections at a time at most.
    ///
    /// # Errors
    /// `Poll` if the system reports nothing of connections; `Memory`.
    pub fn new<R: Net + AllocGlobal>(rt: &R, most: usize) -> Result<Fetcher, FetchFault>
        ensures none { IfOk result (λ fetcher. (token : ℕ) → is_asked fetcher token ≡ false) }
        ensures most { IfOk result (λ fetcher. most_connections fetcher ≡ most) }
    {
        let Ok(events) = Events::with_capacity(rt.alloc(), MAX_EVENTS) else {
            return Err(FetchFault::Memory);
        };
        let Ok(poll) = Poll::new(rt) else {
            return Err(FetchFault::Poll);
        };
        Ok(Fetcher {
            underway: Underway::new(rt.alloc(), poll, most),
            events,
            start: None,
        })
    }

    /// Why messages wait for a connection, if the last one could not be begun by a fault of this
    /// machine. It is tried again until one is begun, or the time of the message is over.
    pub fn hindrance(&self) -> Option<LocalFault>
        ensures { IfSome result (λ fault. hindrance_of self.now ≡ Some fault) }
    {
        self.underway.hindrance()
    }

    /// Takes in a message to this address, which is answered under the token within the limit.
    ///
    /// # Errors
    /// `Taken` if another message has this token and was not answered yet; `Memory`.
    pub fn start<R: time::Clock>(
        &mut self,
        rt: &R,
        token: usize,
        address: SocketAddr,
        message: Vec<u8>,
        limit: Duration,
    ) -> Result<(), StartFault>
        ensures ok { OnOk result (Comes (is_asked self.old) (is_asked self.new) token) }
        ensures message { OnOk result
            (asked_message self.new token ≡ Some (address, message.items)) }
        ensures err { OnErr result (AreSame (is_asked self.old) (is_asked self.new)) }
        ensures taken { result ≡ Err StartFault.Taken → is_asked self.old token ≡ true }
    {
        self.look_at_clock(rt);
        self.underway.add(token, address, message, limit)
    }

    /// Waits until something comes of a message, at most so long, and goes on with all of them. It
    /// does not wait if there is an answer.
    ///
    /// # Errors
    /// `Poll` if the system reports nothing of connections any more.
    pub fn wait<R: Net + time::Clock>(&mut self, rt: &R, most: Duration) -> Result<(), FetchFault>
        ensures { AreSame (is_asked self.old) (is_asked self.new) }
    {
        self.look_at_clock(rt);
        self.underway.connect_next(rt);
        let wait = self.underway.time_to_wait(most);
        if self
            .underway
            .poll
            .poll(&mut self.events, Some(wait))
            .is_err()
        {
            return Err(FetchFault::Poll);
        }
        // What is late by the time before the wait had all of it to be heard, also if this process
        // was stopped meanwhile.
        self.underway.dispatch_all(&self.events);
        self.underway.end_late();
        Ok(())
    }

    /// The answer to a message, if there is one that was not given yet. The message is under way no
    /// more.
    pub fn answer(&mut self) -> Option<FetchCompletion>
        ensures one { MatchOption result (AreSame (is_asked self.old) (is_asked self.new))
            (λ answer. Goes (is_asked self.old) (is_asked self.new) answer.token) }
        ensures outcome { IfSome result (λ answer.
            asked_outcome self.old answer.token ≡ Some answer.outcome) }
    {
        self.underway.answer()
    }

    // Notes the present time, counted from the first message. It stays if the clock cannot be read.
    fn look_at_clock<R: time::Clock>(&mut self, rt: &R)
        ensures { AreSame (is_asked self.old) (is_asked self.new) }
    {
        let Some(start) = self.start else {
            self.start = Instant::now(rt).ok();
            return;
        };
        if let Ok(passed) = start.elapsed(rt) {
            self.underway.now = passed;
        }
    }
}
