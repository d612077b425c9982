//! Serving clients on a socket.
ghost use Rattle.std.specs.Prelude.{◌≡◌, IfOk, OnOk, true, false};
ghost use Rattle.std.specs.Duration.{as_nanos};
ghost use Rattle.canary_once.specs.Messages.{desk_state};
ghost use Rattle.canary_listen.specs.Attending.{Attends, ServesAll, nobody};
ghost use Rattle.canary_listen.specs.Crowd.{attendance_of, IsDone};
ghost use Rattle.canary_once.specs.BookCalls.{Stays};

use crate::clients::Clients;
use crate::event_loop::{EventLoop, SOCKET};
use crate::limits::Limits;
use crate::placed::Placed;
use crate::reports::Reports;
use canary_once::clock::Clock;
use canary_wire::conversation::Routes;
use canary_wire::laws::going_on;
use mio::net::TcpListener;
use mio::{Events, Interest, Poll};
use std::alloc::Global;
use std::collections::VecDeque;
use std::io::{self, Write};
use std::net::{Net, SocketAddr};
use std::time::{self, Duration, Instant};
use thiserror::Error;

// The most events that are taken at a time.
const MAX_EVENTS: usize = 256;

// How many seconds are waited at most before it is asked who takes too long.
const WAIT_SECONDS: u64 = 1;

// How often it is asked, without waiting, whether something more comes, after a round in which
// something came: some 15 microseconds. Whoever is answered often asks anew that soon, and to be
// woken takes the system about as long.
const MAX_ASKED: u32 = 60;

/// Why no clients are served.
#[derive(Clone, Copy, Debug, PartialEq, Eq, Error)]
pub enum ListenFault {
    /// An allocation was refused.
    #[error("out of memory")]
    Memory,
    /// The address cannot be listened on.
    #[error("the address cannot be listened on")]
    Listen,
    /// The system reports no more of the connections.
    #[error("no more connections can be accepted")]
    Accept,
    /// The records of the book are not where they were found.
    #[error("the records are not where they were found")]
    Lost,
}

/// A socket at which clients come, and those that came: one thread, which waits for none of them.
///
/// Each client has one conversation of HTTP (RFC 9112), whose messages are answered one after
/// another. Whoever is ready has a turn, and all that are have one before any has the next. Queries
/// of histories, whose replies may take long to make, wait in a queue of their own: one is answered
/// after each round of turns, in the order in which they came.
#[derive(Drop)]
pub struct Listener {
    attendant: EventLoop,
    events: Events<Global>,
    start: Option<Instant>,
    // Whether the records of the book were not in place when they were asked for last.
    is_lost: bool,
}

impl Listener {
    /// Listens on an address; the system chooses the port if that is 0.
    ///
    /// # Errors
    /// `Listen` if the address cannot be listened on, as when it is taken. `Memory` if an
    /// allocation was refused.
    pub fn bind<R: Net + AllocGlobal>(
        rt: &R,
        address: SocketAddr,
        limits: Limits,
    ) -> Result<Listener, ListenFault>
        ensures { IfOk result (λ listener. attendance_of listener ≡ nobody) }
    {
        let Ok(events) = Events::with_capacity(rt.alloc(), MAX_EVENTS) else {
            return Err(ListenFault::Memory);
        };
        let Ok(routes) = Routes::new(rt.alloc()) else {
            return Err(ListenFault::Memory);
        };
        let Ok((poll, socket)) = listen(rt, address) else {
            return Err(ListenFault::Listen);
        };
        let attendant = EventLoop {
            poll,
            socket,
            routes,
            limits,
            clients: Clients::new(rt.alloc()),
            reports: Reports::new(rt.alloc()),
            has_queries_waiting: false,
            histories: VecDeque::new(rt.alloc()),
            held: VecDeque::new(rt.alloc()),
            left: None,
            has_waiting: false,
            retry_at: 0,
            now: 0,
            swept: u64::MAX,
        };
        Ok(Listener {
            attendant,
            events,
            start: None,
            is_lost: false,
        })
    }

    /// The address on which it listens, with the port that the system chose.
    ///
    /// # Errors
    /// What the system answers if it does not give it.
    pub fn address(&self) -> io::Result<SocketAddr> {
        self.attendant.socket.local_addr()
    }

    /// Serves so many connections to their ends, or as many as come.
    ///
    /// A client that takes too long, by the limits, is let go. If there are as many clients as
    /// there may be, one that waits takes the place of the client that is idle longest, and for a
    /// second at least. If the system has no descriptor left, those that come wait, and are
    /// accepted once there is one.
    ///
    /// A fault with which a connection ended is reported by a line on `errors`, within two seconds:
    /// `canary: truncated ADDRESS`, or `read`, `write` or `memory`, and ` (N times)` for more of
    /// the same in one second; the others are served on. A line that `errors` does not take at once
    /// is dropped, and how many were is the next line: so nobody who leaves these lines unread
    /// stops the desk, if a write on `errors` never waits. A fault of `errors` itself is ignored.
    ///
    /// Once a second the book is asked whether its records are in place. If they are not, it
    /// answers what comes with `Storage` for a second more, and then serving ends.
    ///
    /// # Errors
    /// `Accept` if the system reports no more of the connections, or after 2^64 - 1 rounds; `Lost`
    /// if the records of the book are not where they were found.
    pub fn serve<R: time::Clock + AllocGlobal, C: Clock, B: Placed, F: Write>(
        &mut self,
        rt: &R,
        connections: Option<u64>,
        clock: &mut C,
        book: &mut B,
        errors: &mut F,
    ) -> Result<(), ListenFault>
        ensures attends { Attends (desk_state (C.tells clock.old) (B.state book.old))
            (desk_state (C.tells clock.new) (B.state book.new))
            (attendance_of self.old) (attendance_of self.new) }
        ensures serves { attendance_of self.old ≡ nobody
            → ServesAll (desk_state (C.tells clock.old) (B.state book.old))
            (desk_state (C.tells clock.new) (B.state book.new)) }
        ensures done { OnOk result (IsDone self.new) }
    {
        going_on::<C, B>();
        self.attendant.left = connections;
        let wait = Duration::from_secs(WAIT_SECONDS);
        'rounds: for _ in 0..u64::MAX {
            if self.attendant.is_done() {
                self.attendant.reports.write_all(errors);
                return Ok(());
            }
            if let Err(fault) = self.round(rt, wait, clock, book, errors) {
                return Err(fault);
            }
        }
        Err(ListenFault::Accept)
    }

    /// Waits until something comes, at most so long, and gives each client that is ready one turn:
    /// one message at least, and more for at most 20 milliseconds, of which each has the same
    /// share. A query of a history waits in a queue, unless nobody else is ready and none waits; of
    /// those that wait one is answered then. Then those that take too long are let go, and some of
    /// those that wait are accepted. Once a second the book is asked first whether its records are
    /// in place.
    ///
    /// # Errors
    /// `Accept` if the system reports no more of the connections; `Lost` if the records were not in
    /// place a second ago either, and nobody has a turn then.
    pub fn round<R: time::Clock + AllocGlobal, C: Clock, B: Placed, F: Write>(
        &mut self,
        rt: &R,
        wait: Duration,
        clock: &mut C,
        book: &mut B,
        errors: &mut F,
    ) -> Result<(), ListenFault>
        ensures { Attends (desk_state (C.tells clock.old) (B.state book.old))
            (desk_state (C.tells clock.new) (B.state book.new))
            (attendance_of self.old) (attendance_of self.new) }
    {
        going_on::<C, B>();
        if self.wait(wait).is_err() {
            return Err(ListenFault::Accept);
        }
        self.look_at_clock(rt);
        if self.has_lost(book) {
            return Err(ListenFault::Lost);
        }
        self.attend_ready(rt, clock, book, errors);
        Ok(())
    }

    // Gives each client that is ready a turn, and lets clients go and come. Who takes too long is
    // asked once a second.
    fn attend_ready<R: time::Clock + AllocGlobal, C: Clock, B: Placed, F: Write>(
        &mut self,
        rt: &R,
        clock: &mut C,
        book: &mut B,
        errors: &mut F,
    )
        ensures { Attends (desk_state (C.tells clock.old) (B.state book.old))
            (desk_state (C.tells clock.new) (B.state book.new))
            (attendance_of self.old) (attendance_of self.new) }
    {
        self.attendant.dispatch_round(rt, &self.events, clock, book);
        if !self.attendant.is_swept() {
            self.attendant.close_and_report(errors);
        }
        if self.attendant.has_queries_waiting {
            self.attendant.resume_queries();
        }
        self.attendant.accept_some(rt.alloc());
    }

    // Waits until something comes, at most so long; not at all if somebody may be accepted or a
    // history is to be answered.
    fn wait(&mut self, wait: Duration) -> io::Result<()>
        ensures { attendance_of self.new ≡ attendance_of self.old }
    {
        let may_accept = self.attendant.may_accept();
        let has_history = self.attendant.has_history_due();
        if !may_accept && !has_history && !self.events.is_empty() && self.comes_soon()? {
            return Ok(());
        }
        let wait = time_to_wait(may_accept, has_history, wait);
        self.attendant.poll.poll(&mut self.events, Some(wait))
    }

    // Whether something comes soon: it is asked again and again, without waiting.
    fn comes_soon(&mut self) -> io::Result<bool>
        ensures { attendance_of self.new ≡ attendance_of self.old }
    {
        'asked: for _ in 0..MAX_ASKED {
            self.attendant
                .poll
                .poll(&mut self.events, Some(Duration::ZERO))?;
            if !self.events.is_empty() {
                return Ok(true);
            }
        }
        Ok(false)
    }

    // Whether the records of the book were not in place a second ago, and are not now. They are
    // asked for once a second: each time that those are let go that take too long.
    fn has_lost<B: Placed>(&mut self, book: &mut B) -> bool
        ensures attendance { attendance_of self.new ≡ attendance_of self.old }
        ensures book { Stays (B.state book.old) (B.state book.new) }
    {
        if self.attendant.is_swept() || book.is_in_place() {
            return false;
        }
        let is_over = self.is_lost;
        self.is_lost = true;
        is_over
    }

    // Notes the present second, counted from the first round. It stays if the clock cannot be read.
    fn look_at_clock<R: time::Clock>(&mut self, rt: &R)
        ensures { attendance_of self.new ≡ attendance_of self.old }
    {
        let Some(start) = self.start else {
            self.start = Instant::now(rt).ok();
            return;
        };
        if let Ok(passed) = start.elapsed(rt) {
            self.attendant.now = passed.as_secs();
        }
    }
}

// How long is waited at most for what comes: not at all if somebody may be accepted, or if a
// history is to be answered.
fn time_to_wait(may_accept: bool, has_history: bool, wait: Duration) -> Duration
    ensures accepts { may_accept ≡ true → as_nanos result ≡ 0 }
    ensures answers { has_history ≡ true → as_nanos result ≡ 0 }
    ensures waits { may_accept ≡ false → has_history ≡ false → as_nanos result ≡ as_nanos wait }
{
    if may_accept || has_history {
        Duration::ZERO
    } else {
        wait
    }
}

// A socket on that address, and what reports who comes there.
fn listen<R: Net>(rt: &R, address: SocketAddr) -> io::Result<(Poll, TcpListener)> {
    let poll = Poll::new(rt)?;
    let mut socket = TcpListener::bind(rt, address)?;
    poll.registry()
        .register(&mut socket, SOCKET, Interest::READABLE)?;
    Ok((poll, socket))
}
