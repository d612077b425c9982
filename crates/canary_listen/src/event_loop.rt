//! Clients are accepted, have their turns, and are let go.
ghost use Rattle.std.specs.Prelude.{◌≡◌, ◌≢◌, Some, IsTrue, false, option_map, ◌-◌};
ghost use Rattle.std.specs.VecDeque.{deque_len};
ghost use Rattle.canary_once.specs.Messages.{desk_state};
ghost use Rattle.canary_listen.specs.Attending.{Attends, KeepsServed};
ghost use Rattle.canary_listen.specs.Crowd.{clients_attendance, IsReported, AreAllServed};

use crate::client::{AfterTurn, Client, Ready, TurnKind};
use crate::clients::Clients;
use crate::limits::Limits;
use crate::reports::Reports;
use crate::time_slice::TimeSlice;
use canary_base::error::Memory;
use canary_once::book::Book;
use canary_once::clock::Clock;
use canary_wire::conversation::{Cause, Routes};
use canary_wire::laws::going_on;
use mio::net::{TcpListener, TcpStream};
use mio::{Events, Interest, Poll, Token};
use std::alloc::Global;
use std::collections::VecDeque;
use std::io::{ErrorKind, Write};
use std::net::IpAddr;
use std::time::{self, Duration};

// The token of the socket at which clients come.
pub(crate) const SOCKET: Token = Token(usize::MAX);

// The most clients that are accepted before those that are there have their turn.
const MAX_ACCEPTED: u32 = 64;

// How many milliseconds the turns of all clients that are ready go on at most, together, with more
// than one message each.
const ROUND_MILLISECONDS: u64 = 20;

// How many clients' replies are held back at most, and how many clients have to be left in a round
// for that.
const MAX_HELD: usize = 4;

// The socket at which clients come, and those that came.
#[derive(Drop)]
pub(crate) struct EventLoop {
    pub(crate) poll: Poll,
    pub(crate) socket: TcpListener,
    pub(crate) routes: Routes,
    pub(crate) limits: Limits,
    pub(crate) clients: Clients,
    pub(crate) reports: Reports,
    // Whether some query waits until others took what they are owed.
    pub(crate) has_queries_waiting: bool,
    // The clients whose histories wait, in order. Each is there once.
    pub(crate) histories: VecDeque<usize>,
    // The clients whose replies are held back, in order.
    pub(crate) held: VecDeque<usize>,
    // How many more are accepted; none for as many as come.
    pub(crate) left: Option<u64>,
    // Whether somebody may wait to be accepted.
    pub(crate) has_waiting: bool,
    // The second from which on it is tried again, if the system could not accept.
    pub(crate) retry_at: u64,
    // The present second, and the one in which it was last asked who takes too long.
    pub(crate) now: u64,
    pub(crate) swept: u64,
}

impl EventLoop {
    // Whether all that were to come have come and gone.
    pub(crate) fn is_done(&self) -> bool
        ensures { IsTrue result → AreAllServed self.entry.now }
    {
        self.left == Some(0) && self.clients.count() == 0
    }

    // Whether somebody may be accepted now: there is room for one more, or one is idle.
    pub(crate) fn may_accept(&self) -> bool
        ensures { IsTrue result → self.entry.now.left ≢ Some 0 }
    {
        self.has_waiting
            && self.left != Some(0)
            && self.now >= self.retry_at
            && (self.has_room() || self.clients.idlest(self.now).is_some())
    }

    // Whether there are fewer clients than the limit.
    fn has_room(&self) -> bool {
        u64::try_from(self.clients.count()).unwrap_or(u64::MAX) < self.limits.clients
    }

    // Gives each that was reported its turn, and then answers one history, if some wait: so a
    // client that asks for little waits for one history at most, beside the turns of others.
    pub(crate) fn dispatch_round<R: time::Clock + AllocGlobal, C: Clock, B: Book>(
        &mut self,
        rt: &R,
        events: &Events<Global>,
        clock: &mut C,
        book: &mut B,
    )
        ensures { Attends (desk_state (C.tells clock.old) (B.state book.old))
            (desk_state (C.tells clock.new) (B.state book.new))
            (clients_attendance self.old.clients) (clients_attendance self.new.clients) }
    {
        going_on::<C, B>();
        self.dispatch_all(rt, events, clock, book);
        if self.has_history_due() {
            self.answer_history(rt, clock, book);
        }
    }

    // Does what is to be done for each that was reported. If many more are to come, a reply is held
    // back until there are some, which are sent one after another: so the system wakes clients that
    // wait for replies less often, and who is woken finds several. None is held back in the end.
    // Histories wait unless nobody else was reported, and none waits.
    fn dispatch_all<R: time::Clock + AllocGlobal, C: Clock, B: Book>(
        &mut self,
        rt: &R,
        events: &Events<Global>,
        clock: &mut C,
        book: &mut B,
    )
        ensures attends { Attends (desk_state (C.tells clock.old) (B.state book.old))
            (desk_state (C.tells clock.new) (B.state book.new))
            (clients_attendance self.old.clients) (clients_attendance self.new.clients) }
        ensures sent { deque_len self.new.held ≡ 0 }
    {
        going_on::<C, B>();
        let (mut left, now) = (events.iter().count(), self.now);
        let share = share_of(left);
        let answers_histories = left <= 1 && self.histories.is_empty();
        'events: for event in events.iter() {
            left = left.saturating_sub(1);
            let ready = Ready {
                part: part_before(left),
                share,
                answers_histories,
                now,
                may_hold_more: event.is_read_closed() || event.is_priority(),
                has_ended: event.is_write_closed(),
            };
            self.dispatch_next(rt, event.token(), ready, clock, book);
        }
        self.send_held(rt, clock, book);
    }

    // Sends replies that are held back, if enough are, and then does what is to be done when this
    // token was reported.
    fn dispatch_next<R: time::Clock + AllocGlobal, C: Clock, B: Book>(
        &mut self,
        rt: &R,
        token: Token,
        ready: Ready,
        clock: &mut C,
        book: &mut B,
    )
        ensures { Attends (desk_state (C.tells clock.old) (B.state book.old))
            (desk_state (C.tells clock.new) (B.state book.new))
            (clients_attendance self.old.clients) (clients_attendance self.new.clients) }
    {
        going_on::<C, B>();
        self.send_due(rt, ready.part, clock, book);
        if ready.has_ended {
            self.leave_queue(token.0);
        }
        self.dispatch(rt, token, ready, clock, book);
    }

    // Lets a client go whose connection has ended in both directions, if its history waits.
    fn leave_queue(&mut self, number: usize)
        ensures { KeepsServed (clients_attendance self.old.clients)
            (clients_attendance self.new.clients) }
    {
        if self.histories.contains(&number) {
            self.histories.retain(|waiting| *waiting != number);
            self.close(number, Cause::Write);
        }
    }

    // Whether a history waits, and queries are answered.
    pub(crate) fn has_history_due(&self) -> bool {
        !self.histories.is_empty() && self.answers_queries()
    }

    // Answers the history that waits the longest, and no other message of its client.
    fn answer_history<R: time::Clock + AllocGlobal, C: Clock, B: Book>(
        &mut self,
        rt: &R,
        clock: &mut C,
        book: &mut B,
    )
        ensures { Attends (desk_state (C.tells clock.old) (B.state book.old))
            (desk_state (C.tells clock.new) (B.state book.new))
            (clients_attendance self.old.clients) (clients_attendance self.new.clients) }
    {
        going_on::<C, B>();
        if let Some(number) = self.histories.pop_front() {
            let ready = Ready {
                part: TurnKind::Both,
                share: Duration::ZERO,
                answers_histories: true,
                now: self.now,
                may_hold_more: false,
                has_ended: false,
            };
            self.dispatch(rt, Token(number), ready, clock, book);
        }
    }

    // Sends the replies that are held back, if enough are, or if the turn to come holds none back.
    fn send_due<R: time::Clock + AllocGlobal, C: Clock, B: Book>(
        &mut self,
        rt: &R,
        part: TurnKind,
        clock: &mut C,
        book: &mut B,
    )
        ensures { Attends (desk_state (C.tells clock.old) (B.state book.old))
            (desk_state (C.tells clock.new) (B.state book.new))
            (clients_attendance self.old.clients) (clients_attendance self.new.clients) }
    {
        going_on::<C, B>();
        if part == TurnKind::Both || self.held.len() >= MAX_HELD {
            self.send_held(rt, clock, book);
        }
    }

    // Sends the replies that are held back.
    fn send_held<R: time::Clock + AllocGlobal, C: Clock, B: Book>(
        &mut self,
        rt: &R,
        clock: &mut C,
        book: &mut B,
    )
        ensures attends { Attends (desk_state (C.tells clock.old) (B.state book.old))
            (desk_state (C.tells clock.new) (B.state book.new))
            (clients_attendance self.old.clients) (clients_attendance self.new.clients) }
        ensures sent { deque_len self.new.held ≡ 0 }
    {
        going_on::<C, B>();
        'held: for sent in 0..self.held.len() {
            self.send_first(rt, clock, book);
        }
    }

    // Sends the replies that are held back the longest: their client has had its share as it sent
    // its messages.
    fn send_first<R: time::Clock + AllocGlobal, C: Clock, B: Book>(
        &mut self,
        rt: &R,
        clock: &mut C,
        book: &mut B,
    )
        ensures attends { Attends (desk_state (C.tells clock.old) (B.state book.old))
            (desk_state (C.tells clock.new) (B.state book.new))
            (clients_attendance self.old.clients) (clients_attendance self.new.clients) }
        ensures fewer { deque_len self.new.held ≡ deque_len self.old.held - 1 }
    {
        going_on::<C, B>();
        if let Some(number) = self.held.pop_front() {
            let ready = Ready {
                part: TurnKind::Send,
                share: Duration::ZERO,
                answers_histories: false,
                now: self.now,
                may_hold_more: false,
                has_ended: false,
            };
            self.dispatch(rt, Token(number), ready, clock, book);
        }
    }

    // Does what is to be done when this token was reported.
    fn dispatch<R: time::Clock + AllocGlobal, C: Clock, B: Book>(
        &mut self,
        rt: &R,
        token: Token,
        ready: Ready,
        clock: &mut C,
        book: &mut B,
    )
        ensures attends { Attends (desk_state (C.tells clock.old) (B.state book.old))
            (desk_state (C.tells clock.new) (B.state book.new))
            (clients_attendance self.old.clients) (clients_attendance self.new.clients) }
        ensures held { ready.part ≢ TurnKind.Answer → self.new.held ≡ self.old.held }
    {
        if token == SOCKET {
            self.has_waiting = true;
        }
        let number = token.0;
        let (queries, histories) = (self.answers_queries(), ready.answers_histories);
        let mut pace = TimeSlice::begun(rt, ready.share, queries, histories);
        if let Some(fate) = self.clients.turn(
            number,
            rt.alloc(),
            &self.routes,
            clock,
            book,
            &mut pace,
            ready,
        ) {
            self.after_turn(number, fate);
        }
    }

    // Whether queries are answered: clients have not too much to take, all together.
    fn answers_queries(&self) -> bool {
        u64::try_from(self.clients.unsent()).unwrap_or(u64::MAX) < self.limits.unsent_total_bytes
    }

    // Keeps a client, or lets it go.
    fn after_turn(&mut self, number: usize, fate: AfterTurn)
        ensures keeps { KeepsServed (clients_attendance self.old.clients)
            (clients_attendance self.new.clients) }
        ensures held { fate ≢ AfterTurn.HoldReplies → self.new.held ≡ self.old.held }
    {
        match fate {
            AfterTurn::WaitFor(interest) => self.await_ready(number, interest),
            AfterTurn::WaitForRoom => self.has_queries_waiting = true,
            AfterTurn::WaitInQueue => self.queue_history(number),
            AfterTurn::HoldReplies => self.hold(number),
            AfterTurn::Close(cause) => self.close(number, cause),
        }
    }

    // Has a client's history wait behind those that came before it, unless it waits already. If
    // there is no memory for that, it has its next turn when its connection is ready.
    fn queue_history(&mut self, number: usize)
        ensures keeps { KeepsServed (clients_attendance self.old.clients)
            (clients_attendance self.new.clients) }
        ensures held { self.new.held ≡ self.old.held }
    {
        if self.histories.contains(&number) {
            return;
        }
        if self.histories.push_back(number).is_err() {
            self.await_ready(number, Interest::READABLE | Interest::WRITABLE);
        }
    }

    // Holds the replies to a client back. If there is no memory for that, it has its next turn when
    // it can take them.
    fn hold(&mut self, number: usize)
        ensures { KeepsServed (clients_attendance self.old.clients)
            (clients_attendance self.new.clients) }
    {
        if self.held.push_back(number).is_err() {
            self.await_ready(number, Interest::WRITABLE);
        }
    }

    // Has a client's next turn come when its connection is ready; lets it go if that cannot be.
    fn await_ready(&mut self, number: usize, interest: Interest)
        ensures reported { IsReported self.new.clients number }
        ensures keeps { KeepsServed (clients_attendance self.old.clients)
            (clients_attendance self.new.clients) }
        ensures held { self.new.held ≡ self.old.held }
    {
        if !self.clients.report(self.poll.registry(), number, interest) {
            self.clients.remove(number);
        }
    }

    // Has the turns of those come whose queries wait, if queries are answered again.
    pub(crate) fn resume_queries(&mut self)
        ensures { KeepsServed (clients_attendance self.old.clients)
            (clients_attendance self.new.clients) }
    {
        if !self.answers_queries() {
            return;
        }
        self.has_queries_waiting = false;
        let mut from = 0;
        'waiting: for _ in 0..self.clients.count() {
            let Some(number) = self.clients.waiting(from) else {
                return;
            };
            self.await_ready(number, Interest::READABLE | Interest::WRITABLE);
            from = number.saturating_add(1);
        }
    }

    // Lets a client go, and notes the fault with which its connection ended.
    fn close(&mut self, number: usize, cause: Cause)
        ensures keeps { KeepsServed (clients_attendance self.old.clients)
            (clients_attendance self.new.clients) }
        ensures held { self.new.held ≡ self.old.held }
    {
        if let Some(address) = self.clients.address(number) {
            self.reports.note(cause, address);
        }
        self.clients.remove(number);
    }

    // Whether those that take too long were let go in this second.
    pub(crate) fn is_swept(&self) -> bool {
        self.now == self.swept
    }

    // Lets those go that take too long, and writes which connections ended with a fault since this
    // was done last.
    pub(crate) fn close_and_report<F: Write>(&mut self, errors: &mut F)
        ensures { KeepsServed (clients_attendance self.old.clients)
            (clients_attendance self.new.clients) }
    {
        self.swept = self.now;
        self.close_overdue();
        self.reports.write_all(errors);
    }

    // Lets those go that take too long.
    fn close_overdue(&mut self)
        ensures { KeepsServed (clients_attendance self.old.clients)
            (clients_attendance self.new.clients) }
    {
        let mut from = 0;
        'late: for _ in 0..self.clients.count() {
            let Some((number, cause)) = self.clients.overdue(from, self.limits, self.now) else {
                return;
            };
            self.close(number, cause);
            from = number;
        }
    }

    // Accepts some of those that wait, as long as there is room.
    pub(crate) fn accept_some(&mut self, alloc: Global)
        ensures { KeepsServed (clients_attendance self.old.clients)
            (clients_attendance self.new.clients) }
    {
        'batch: for _ in 0..MAX_ACCEPTED {
            if !self.may_accept() {
                return;
            }
            self.accept(alloc);
        }
    }

    // Accepts one, if more are to come.
    fn accept(&mut self, alloc: Global)
        requires { self.old.left ≢ Some 0 }
        ensures { KeepsServed (clients_attendance self.old.clients)
            (clients_attendance self.new.clients) }
    {
        match self.socket.accept() {
            Ok((stream, address)) => self.take_in(alloc, stream, address.ip()),
            Err(error) => self.wait_to_accept(error.kind()),
        }
    }

    // One was accepted. If there is no room, it takes the place of the client that is idle longest.
    fn take_in(&mut self, alloc: Global, stream: TcpStream, address: IpAddr)
        ensures keeps { KeepsServed (clients_attendance self.old.clients)
            (clients_attendance self.new.clients) }
        ensures counted { self.new.left ≡ option_map (λ n. n - 1) self.old.left }
    {
        let left = one_less(self.left);
        self.make_place();
        let _ = self.add_client(alloc, stream, address);
        self.left = left;
    }

    // Lets the client go that is idle longest, if there is no room for another.
    fn make_place(&mut self)
        ensures { KeepsServed (clients_attendance self.old.clients)
            (clients_attendance self.new.clients) }
    {
        if self.has_room() {
            return;
        }
        if let Some(number) = self.clients.idlest(self.now) {
            self.clients.remove(number);
        }
    }

    // Nobody waits, or the system could not accept, as when it has no descriptor left: then to ask
    // again at once would take all of a processor's time, so it is asked a second later.
    fn wait_to_accept(&mut self, kind: ErrorKind)
        ensures keeps { KeepsServed (clients_attendance self.old.clients)
            (clients_attendance self.new.clients) }
        ensures rests { kind ≡ ErrorKind.WouldBlock → self.new.has_waiting ≡ false }
        ensures asks { kind ≢ ErrorKind.WouldBlock → self.new.has_waiting ≡ self.old.has_waiting }
    {
        match kind {
            ErrorKind::WouldBlock => self.has_waiting = false,
            ErrorKind::ConnectionAborted | ErrorKind::Interrupted => {}
            _ => self.retry_at = self.now.saturating_add(1),
        }
    }

    // Takes in a client that was accepted. If that fails, its connection is closed.
    fn add_client(
        &mut self,
        alloc: Global,
        stream: TcpStream,
        address: IpAddr,
    ) -> Result<(), Memory>
        ensures { KeepsServed (clients_attendance self.old.clients)
            (clients_attendance self.new.clients) }
    {
        let max_unsent = usize::try_from(self.limits.owed_bytes).unwrap_or(usize::MAX);
        let conversation = self.clients.conversation(alloc, max_unsent)?;
        let mut client = Client::new(stream, conversation, address, self.now);
        let token = Token(self.clients.next());
        if client.register(self.poll.registry(), token).is_err() {
            return Ok(());
        }
        self.clients.add(client)?;
        Ok(())
    }
}

// One less of so many.
fn one_less(left: Option<u64>) -> Option<u64>
    ensures { result ≡ option_map (λ n. n - 1) left }
{
    match left {
        Some(count) => Some(count.saturating_sub(1)),
        None => None,
    }
}

// What a client does in its turn, if so many others come after it.
fn part_before(left: usize) -> TurnKind {
    if left >= MAX_HELD {
        TurnKind::Answer
    } else {
        TurnKind::Both
    }
}

// The time of each of so many turns, of that of a round.
fn share_of(turns: usize) -> Duration {
    let turns = u32::try_from(turns).unwrap_or(u32::MAX).max(1);
    Duration::from_millis(ROUND_MILLISECONDS) / turns
}
