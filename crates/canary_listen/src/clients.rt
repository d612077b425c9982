//! The clients that are being served, by the numbers of their connections.
ghost use Rattle.std.specs.Prelude.{◌≡◌, ◌≢◌, ◌≤◌, ◌-◌, ◌==◌, if◌then◌else◌};
ghost use Rattle.std.specs.Prelude.{IfOk, IfSome, IsTrue, None, Some, vec_len};
ghost use Rattle.std.specs.Ordering.{nat_cmp};
ghost use Rattle.std.specs.BTreeMap.{get, btree_map_len};
ghost use Rattle.canary_wire.specs.Conversing.{begun};
ghost use Rattle.canary_once.specs.Messages.{desk_state};
ghost use Rattle.canary_wire.specs.Talks.{talk_of};
ghost use Rattle.canary_listen.specs.Attending.{Attends, KeepsServed, nobody};
ghost use Rattle.canary_listen.specs.Sums.{in_place_of};

use crate::client::{AfterTurn, Client, Ready, TurnKind};
use crate::limits::Limits;
use canary_base::error::Memory;
use canary_once::book::Book;
use canary_once::clock::Clock;
use canary_wire::conversation::{Cause, Conversation, Pace, Routes};
use canary_wire::laws::{crowds, going_on};
use mio::{Interest, Registry, Token};
use std::alloc::Global;
use std::collections::BTreeMap;
use std::net::IpAddr;

// The most conversations that are kept for clients to come: their buffers, five megabytes in all,
// are neither taken nor cleared again.
const MAX_SPARE: usize = 64;

// Clients by number. No number is given twice.
#[derive(Drop)]
pub(crate) struct Clients {
    by_number: BTreeMap<usize, Client>,
    next: usize,
    spare: Vec<Conversation>,
    // How many bytes they have still to take, all together.
    unsent: usize,
    ghost few: { vec_len spare ≤ 64 },
    ghost owed_to_some: { btree_map_len by_number ≡ 0 → unsent ≡ 0 },
}

impl Clients {
    ghost use Rattle.canary_listen.specs.Crowd.{client_talk, clients_attendance, IsReported};
    ghost use Rattle.canary_listen.specs.Crowd.{crowd_of, owed_to};

    // None.
    pub(crate) fn new(alloc: Global) -> Clients
        ensures { clients_attendance result ≡ nobody }
    {
        Clients {
            by_number: BTreeMap::new(alloc),
            next: 0,
            spare: Vec::new(alloc),
            unsent: 0,
        }
    }

    // How many bytes they have still to take, all together.
    pub(crate) fn unsent(&self) -> usize
        ensures { result ≡ self.now.unsent }
    {
        self.unsent
    }

    // Where a client comes from.
    pub(crate) fn address(&self, number: usize) -> Option<IpAddr> {
        match self.by_number.get(&number) {
            Some(client) => Some(client.address()),
            None => None,
        }
    }

    // How many there are.
    pub(crate) fn count(&self) -> usize
        ensures { result ≡ btree_map_len self.now.by_number }
    {
        self.by_number.len()
    }

    // The number of the next client.
    pub(crate) fn next(&self) -> usize {
        self.next
    }

    // A conversation for a client to come, in which nothing was said.
    pub(crate) fn conversation(
        &mut self,
        alloc: Global,
        max_unsent: usize,
    ) -> Result<Conversation, Memory>
        ensures begun { IfOk result (λ conversation. talk_of conversation ≡ begun) }
        ensures same { clients_attendance self.new ≡ clients_attendance self.old }
    {
        match self.spare.pop() {
            Some(conversation) => Ok(conversation.renewed(max_unsent)),
            None => Conversation::new(alloc, max_unsent),
        }
    }

    // Keeps the conversation of a client that has gone for another, if there are not enough.
    fn keep(&mut self, client: Client)
        ensures same { clients_attendance self.new ≡ clients_attendance self.old }
        ensures clients { self.new.by_number ≡ self.old.by_number }
        ensures unsent { self.new.unsent ≡ self.old.unsent }
    {
        if self.spare.len() < MAX_SPARE {
            let _ = self.spare.push(client.into_conversation());
        }
    }

    // Takes a client in, under the next number.
    pub(crate) fn add(&mut self, client: Client) -> Result<(), Memory>
        requires { client_talk client ≡ begun }
        ensures { KeepsServed (clients_attendance self.old) (clients_attendance self.new) }
    {
        crowds();
        let number = self.next;
        let Some(next) = number.checked_add(1) else {
            return Err(Memory);
        };
        self.by_number.insert(number, client)?;
        self.next = next;
        Ok(())
    }

    // The turn of a client; none if it has gone.
    pub(crate) fn turn<C: Clock, B: Book, P: Pace>(
        &mut self,
        number: usize,
        alloc: Global,
        routes: &Routes,
        clock: &mut C,
        book: &mut B,
        pace: &mut P,
        ready: Ready,
    ) -> Option<AfterTurn>
        ensures attends { Attends (desk_state (C.tells clock.old) (B.state book.old))
            (desk_state (C.tells clock.new) (B.state book.new))
            (clients_attendance self.old) (clients_attendance self.new) }
        ensures unsent { IfSome result (λ fate. self.new.unsent ≡ in_place_of self.old.unsent
            (owed_to (crowd_of self.old) number) (owed_to (crowd_of self.new) number)) }
        ensures taken { ready.part ≢ TurnKind.Answer → result ≢ Some AfterTurn.HoldReplies }
    {
        crowds();
        going_on::<C, B>();
        let Some(client) = self.by_number.get_mut(&number) else {
            return None;
        };
        let before = client.unsent();
        let fate = client.turn(alloc, routes, clock, book, pace, ready);
        self.unsent = in_place_of(self.unsent, before, client.unsent());
        Some(fate)
    }

    // Has a client's connection reported when it is ready for this. Says whether it could be done.
    pub(crate) fn report(&mut self, registry: &Registry, number: usize, interest: Interest) -> bool
        ensures keeps { KeepsServed (clients_attendance self.old) (clients_attendance self.new) }
        ensures reported { IsTrue result → IsReported self.new number }
    {
        match self.by_number.get_mut(&number) {
            Some(client) => client.report(registry, Token(number), interest),
            None => false,
        }
    }

    // Lets a client go: its connection is closed. What it was owed is owed no more, and nothing is
    // once nobody is left.
    pub(crate) fn remove(&mut self, number: usize)
        ensures keeps { KeepsServed (clients_attendance self.old) (clients_attendance self.new) }
        ensures gone { get nat_cmp self.new.by_number number ≡ None }
        ensures unsent { self.new.unsent ≡ (if btree_map_len self.new.by_number == 0 then 0
            else self.old.unsent - owed_to (crowd_of self.old) number) }
    {
        crowds();
        if let Some(client) = self.by_number.remove(&number) {
            let unsent = in_place_of(self.unsent, client.unsent(), 0);
            self.unsent = unless_nobody(self.by_number.len(), unsent);
            self.keep(client);
        }
    }

    // The client that is idle longest, since a second before `now`.
    pub(crate) fn idlest(&self, now: u64) -> Option<usize> {
        let mut idlest = None;
        let mut earliest = now;
        'clients: for (number, client) in self.by_number.range(0..) {
            if let Some(since) = client.idle_since()
                && since < earliest
            {
                idlest = Some(*number);
                earliest = since;
            }
        }
        idlest
    }

    // The first client, from a number on, whose query waits until queries are answered again.
    pub(crate) fn waiting(&self, from: usize) -> Option<usize> {
        'clients: for (number, client) in self.by_number.range(from..) {
            if client.waits_for_room() {
                return Some(*number);
            }
        }
        None
    }

    // The first client, from a number on, that takes too long, and why it is let go.
    pub(crate) fn overdue(&self, from: usize, limits: Limits, now: u64) -> Option<(usize, Cause)> {
        'clients: for (number, client) in self.by_number.range(from..) {
            if let Some(cause) = client.overdue(limits, now) {
                return Some((*number, cause));
            }
        }
        None
    }
}

// A sum with this part in place of that one.
fn in_place_of(sum: usize, old: usize, new: usize) -> usize
    ensures { result ≡ in_place_of sum old new }
{
    sum.saturating_sub(old).saturating_add(new)
}

// A sum over so many clients: nothing if there are none.
fn unless_nobody(count: usize, sum: usize) -> usize
    ensures { result ≡ (if count == 0 then 0 else sum) }
{
    if count == 0 { 0 } else { sum }
}
