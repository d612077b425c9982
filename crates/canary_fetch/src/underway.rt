//! The messages that were taken in and not answered yet.
ghost use Rattle.std.specs.Prelude.{◌≡◌, ◌+◌, ◌≤◌, ℕ, OnOk, OnErr, MatchOption, true, false, Err};
ghost use Rattle.std.specs.Prelude.{IfSome, Some};
ghost use Rattle.std.specs.BTreeMap.{btree_map_len};
ghost use Rattle.canary_fetch.specs.Asking.{AreSame, Comes, Goes};

use crate::fault::ExchangeFault;
use crate::flight::Flight;
use crate::local::LocalFault;
use crate::query::{FetchCompletion, FetchResult, PendingMessage, StartFault};
use crate::reply::HttpReply;
use mio::{Events, Poll, Token};
use std::alloc::Global;
use std::collections::{BTreeMap, VecDeque};
use std::io;
use std::net::{Net, SocketAddr};
use std::time::Duration;

// The time between two tries to begin a connection that this machine could not begin, in
// milliseconds.
const RETRY_MILLIS: u64 = 100;

// Messages, and their connections.
#[derive(Drop)]
pub(crate) struct Underway {
    alloc: Global,
    pub(crate) poll: Poll,
    // By their tokens.
    queries: BTreeMap<usize, PendingMessage>,
    // By the same.
    flights: BTreeMap<usize, Flight>,
    // The tokens of those that wait for a connection, in order.
    queue: VecDeque<usize>,
    // The most connections at a time.
    most: usize,
    // The present time.
    pub(crate) now: Duration,
    // Why the last connection could not be begun, if that was a fault of this machine.
    hindrance: Option<LocalFault>,
    ghost few: { btree_map_len flights ≤ most },
}

impl Underway {
    ghost use Rattle.canary_fetch.specs.Asked.{is_there, is_begun, message_at, outcome_at};
    ghost use Rattle.canary_fetch.specs.Locals.{late_fault};

    // None.
    pub(crate) fn new(alloc: Global, poll: Poll, most: usize) -> Underway
        ensures none { (token : ℕ) → is_there result token ≡ false }
        ensures most { result.most ≡ most }
    {
        Underway {
            alloc,
            poll,
            queries: BTreeMap::new(alloc),
            flights: BTreeMap::new(alloc),
            queue: VecDeque::new(alloc),
            most,
            now: Duration::ZERO,
            hindrance: None,
        }
    }

    // Takes in a message to this address, which is answered under the token within the limit.
    pub(crate) fn add(
        &mut self,
        token: usize,
        address: SocketAddr,
        message: Vec<u8>,
        limit: Duration,
    ) -> Result<(), StartFault>
        ensures ok { OnOk result (Comes (is_there self.old) (is_there self.new) token) }
        ensures message { OnOk result
            (message_at self.new token ≡ Some (address, message.items)) }
        ensures err { OnErr result (AreSame (is_there self.old) (is_there self.new)) }
        ensures taken { result ≡ Err StartFault.Taken → is_there self.old token ≡ true }
    {
        if self.queries.contains_key(&token) {
            return Err(StartFault::Taken);
        }
        if self.queue.push_back(token).is_err() {
            return Err(StartFault::Memory);
        }
        let query = PendingMessage::new(address, message, self.now.saturating_add(limit));
        if self.queries.insert(token, query).is_err() {
            self.queue.pop_back();
            return Err(StartFault::Memory);
        }
        Ok(())
    }

    // The answer to the first message that came to something. It is under way no more.
    pub(crate) fn answer(&mut self) -> Option<FetchCompletion>
        ensures one { MatchOption result (AreSame (is_there self.old) (is_there self.new))
            (λ answer. Goes (is_there self.old) (is_there self.new) answer.token) }
        ensures outcome { IfSome result (λ answer.
            outcome_at self.old answer.token ≡ Some answer.outcome) }
    {
        let Some(token) = self.first_answered() else {
            return None;
        };
        match self.queries.remove(&token) {
            Some(query) => Some(query.answer(token)),
            None => None,
        }
    }

    // The first token of those whose message came to something.
    fn first_answered(&self) -> Option<usize> {
        'queries: for (token, query) in self.queries.range(0..) {
            if query.is_answered() {
                return Some(*token);
            }
        }
        None
    }

    // Why messages wait for a connection, if the last one could not be begun by a fault of this
    // machine.
    pub(crate) fn hindrance(&self) -> Option<LocalFault>
        ensures { IfSome result (λ fault. self.entry.now.hindrance ≡ Some fault) }
    {
        match self.hindrance {
            Some(fault) if !self.queue.is_empty() => Some(fault),
            _ => None,
        }
    }

    // How long is waited at most: until the first message is late that came to nothing yet, or a
    // connection is to be tried again, and not at all if one came to something.
    pub(crate) fn time_to_wait(&self, most: Duration) -> Duration {
        let mut wait = most;
        if self.hindrance().is_some() {
            wait = wait.min(Duration::from_millis(RETRY_MILLIS));
        }
        'queries: for (_, query) in self.queries.range(0..) {
            wait = wait.min(query.time_left(self.now));
        }
        wait
    }

    // Makes connections for those that wait for one, in order, as long as there may be more.
    pub(crate) fn connect_next<R: Net>(&mut self, rt: &R)
        ensures { AreSame (is_there self.old) (is_there self.new) }
    {
        'queue: for _ in 0..self.queue.len() {
            if self.flights.len() >= self.most {
                return;
            }
            if let Some(token) = self.queue.pop_front() {
                self.connect(rt, token);
            }
        }
    }

    // Makes a connection for a message, if it came to nothing yet.
    fn connect<R: Net>(&mut self, rt: &R, token: usize)
        requires { btree_map_len self.old.flights + 1 ≤ self.old.most }
        ensures { AreSame (is_there self.old) (is_there self.new) }
    {
        let Some(address) = self.address_of(token) else {
            return;
        };
        match Flight::begun(rt, self.alloc, self.poll.registry(), Token(token), address) {
            Ok(flight) => self.take_off(token, flight),
            Err(error) => self.hinder(token, &error),
        }
    }

    // No connection could be begun for a message. If that was a fault of this machine, it is tried
    // again: the message waits behind the others.
    fn hinder(&mut self, token: usize, error: &io::Error)
        ensures { AreSame (is_there self.old) (is_there self.new) }
    {
        match LocalFault::of(error) {
            Some(fault) => self.put_back(token, fault),
            None => self.settle(token, Err(ExchangeFault::Refused)),
        }
    }

    // A message waits for a connection once more, for that fault of this machine. What it came to
    // stays as it was, if there is memory.
    fn put_back(&mut self, token: usize, fault: LocalFault)
        ensures same { AreSame (is_there self.old) (is_there self.new) }
    {
        self.hindrance = Some(fault);
        if self.queue.push_back(token).is_err() {
            self.settle(token, Err(ExchangeFault::Memory));
        }
    }

    // A message has this connection.
    fn take_off(&mut self, token: usize, flight: Flight)
        requires { btree_map_len self.old.flights + 1 ≤ self.old.most }
        ensures { AreSame (is_there self.old) (is_there self.new) }
    {
        self.hindrance = None;
        if self.flights.insert(token, flight).is_err() {
            self.settle(token, Err(ExchangeFault::Memory));
        }
    }

    // Where a message goes, if it came to nothing yet.
    fn address_of(&self, token: usize) -> Option<SocketAddr> {
        match self.queries.get(&token) {
            Some(query) => query.address(),
            None => None,
        }
    }

    // Gives each connection that was reported its turn.
    pub(crate) fn dispatch_all(&mut self, events: &Events<Global>)
        ensures { AreSame (is_there self.old) (is_there self.new) }
    {
        'events: for event in events.iter() {
            self.dispatch(event.token());
        }
    }

    // The turn of a connection.
    fn dispatch(&mut self, token: Token)
        ensures { AreSame (is_there self.old) (is_there self.new) }
    {
        match self.turn(token) {
            Ok(None) => {}
            Ok(Some(reply)) => self.settle(token.0, Ok(reply)),
            Err(fault) => self.settle(token.0, Err(fault)),
        }
    }

    // The same: what the message came to; none if that is not known yet, or if it has gone.
    fn turn(&mut self, token: Token) -> Result<Option<HttpReply>, ExchangeFault>
        ensures { AreSame (is_there self.old) (is_there self.new) }
    {
        let Some(query) = self.queries.get(&token.0) else {
            return Ok(None);
        };
        match self.flights.get_mut(&token.0) {
            Some(flight) => flight.dispatch(self.poll.registry(), token, query.message()),
            None => Ok(None),
        }
    }

    // A message came to this: its connection is closed.
    fn settle(&mut self, token: usize, outcome: FetchResult)
        ensures { AreSame (is_there self.old) (is_there self.new) }
    {
        self.flights.remove(&token);
        if let Some(query) = self.queries.get_mut(&token) {
            query.settle(outcome);
        }
    }

    // Ends the messages whose time is over. Only one that has a connection waited for its provider.
    pub(crate) fn end_late(&mut self)
        ensures { AreSame (is_there self.old) (is_there self.new) }
    {
        let mut from = 0;
        'late: for _ in 0..self.queries.len() {
            let Some(token) = self.late(from) else {
                return;
            };
            let fault = self.late_fault(token);
            self.settle(token, Err(fault));
            from = token;
        }
    }

    // The fault of a message whose time is over.
    fn late_fault(&self, token: usize) -> ExchangeFault
        ensures { result ≡ late_fault (is_begun self.entry.now token) self.entry.now.hindrance }
    {
        if self.flights.contains_key(&token) {
            return ExchangeFault::Timeout;
        }
        ExchangeFault::Local(self.hindrance.unwrap_or(LocalFault::Crowd))
    }

    // The first token, from one on, of those whose time is over.
    fn late(&self, from: usize) -> Option<usize> {
        'queries: for (token, query) in self.queries.range(from..) {
            if query.is_late(self.now) {
                return Some(*token);
            }
        }
        None
    }
}
