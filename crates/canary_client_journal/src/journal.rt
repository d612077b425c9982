//! The journal as a value.
ghost use Rattle.std.specs.Prelude.{◌≡◌, ◌≤◌, None, position, option_map, OnOk, OnErr};
ghost use Rattle.std.specs.List.{list_any};
ghost use Rattle.std.specs.Option.{SomeIff, option_copied};
ghost use Rattle.canary_client_journal.specs.Journals.{begun, number_of, refusal_of, with_entry};
ghost use Rattle.canary_client_journal.specs.Journals.{asked_refusal, instead_refusal, settled_refusal};
ghost use Rattle.canary_client_journal.specs.Journals.{is_used, is_kept_under, has_key, replaced};
ghost use Rattle.canary_client_journal.specs.Journals.{place_of, place_without, place_pending};
ghost use Rattle.canary_client_journal.specs.Journals.{settled_place, asks, asks_instead, settles};

use crate::entry::{
    Asked, EntryRefusal, JournalEntry, SettledNumber, SettledReply, Wish, WishPlace,
};
use canary_base::error::Memory;
use canary_base::lists::Text;
use canary_base::names::Name;
use canary_base::numbers::MAX_NUMBER;
use std::alloc::Global;
use std::marker::Model;

/// What a caller asked of a desk since the journal began, in order. Contracts see it as a
/// `JournalValue` of specs/Journals.
#[derive(Drop)]
pub struct Journal {
    caller: Name,
    before: u32,
    kept: Vec<SettledNumber>,
    pending: Option<Asked>,
}

impl Model for Journal {
    ghost use Rattle.std.specs.Prelude.{◌≤◌, ◌+◌, length};
    ghost use Rattle.canary_client_journal.specs.Journals.{JournalValue, pending_count};

    ghost Value = { JournalValue };

    ghost view = { λ j. record {
      caller = j.caller;
      before = j.before;
      kept = j.kept.items;
      pending = j.pending;
    } };

    ghost invariant = { λ j.
        j.before + length j.kept.items + pending_count j.pending ≤ 1000000000 };
}

impl Journal {
    /// The journal of a caller of whom the desk had settled so many requests, or none if they are
    /// more than 1,000,000,000.
    pub fn begun(alloc: Global, caller: Name, settled: u32) -> Option<Journal>
        ensures { SomeIff result (settled ≤ 1000000000) (begun caller settled) }
    {
        if settled > MAX_NUMBER {
            return None;
        }
        Some(Journal {
            caller,
            before: settled,
            kept: Vec::new(alloc),
            pending: None,
        })
    }

    /// The caller.
    pub fn caller(&self) -> Name
        ensures { result ≡ self.now.caller }
    {
        self.caller
    }

    /// How many requests of the caller the desk had settled as the journal began.
    pub fn before(&self) -> u32
        ensures { result ≡ self.now.before }
    {
        self.before
    }

    /// What was asked and settled since, in order.
    pub fn kept(&self) -> &[SettledNumber]
        ensures { result.now ≡ self.now.kept }
    {
        self.kept.as_slice()
    }

    /// What is pending: asked, and not settled as far as the caller heard.
    pub fn pending(&self) -> Option<&Asked>
        ensures { option_copied result ≡ self.now.pending }
    {
        self.pending.as_ref()
    }

    /// The number that is pending, or the next one.
    pub fn number(&self) -> u32
        ensures { result ≡ number_of self.now }
    {
        self.before + self.kept.len() as u32 + 1
    }

    /// Why an entry cannot stand next.
    pub fn refusal(&self, entry: &JournalEntry) -> Option<EntryRefusal>
        ensures { result ≡ refusal_of self.now entry.now }
    {
        match entry {
            JournalEntry::Begun { .. } => Some(EntryRefusal::Begun),
            JournalEntry::Asked { number, wish } => self.asked_refusal(*number, wish),
            JournalEntry::Instead { number, .. } => self.instead_refusal(*number),
            JournalEntry::Settled { number, reply } => self.settled_refusal(*number, reply),
        }
    }

    // Why a wish may not be asked next under this number; none if it may.
    fn asked_refusal(&self, number: u32, wish: &Wish) -> Option<EntryRefusal>
        ensures { result ≡ asked_refusal self.now number wish.now }
    {
        if self.pending.is_some() {
            Some(EntryRefusal::Pending)
        } else if number != self.number() {
            Some(EntryRefusal::Number)
        } else if number > MAX_NUMBER {
            Some(EntryRefusal::Spent)
        } else if is_used(self.kept.as_slice(), &wish.key) {
            Some(EntryRefusal::KeyUsed)
        } else {
            None
        }
    }

    // Why no other body may be asked in the place of what is pending; none if one may.
    fn instead_refusal(&self, number: u32) -> Option<EntryRefusal>
        ensures { result ≡ instead_refusal self.now number }
    {
        match &self.pending {
            None => Some(EntryRefusal::NothingPending),
            Some(_) if number != self.number() => Some(EntryRefusal::Number),
            Some(asked) if asked.instead.is_some() => Some(EntryRefusal::Replaced),
            Some(_) => None,
        }
    }

    // Why a reply may not settle the number; none if it may. A late one needs a replaced wish.
    fn settled_refusal(&self, number: u32, reply: &SettledReply) -> Option<EntryRefusal>
        ensures { result ≡ settled_refusal self.now number reply.now }
    {
        match &self.pending {
            None => Some(EntryRefusal::NothingPending),
            Some(_) if number != self.number() => Some(EntryRefusal::Number),
            Some(asked) if reply.is_late && asked.instead.is_none() => Some(
                EntryRefusal::NotReplaced,
            ),
            Some(_) => None,
        }
    }

    /// Adds an entry, which has to be one that may stand next.
    ///
    /// # Errors
    /// `Memory`, and then the journal is as before.
    #[tactic(auto, using(crate::proofs::JournalLemmas::asked_within))]
    pub fn take(&mut self, entry: JournalEntry) -> Result<(), Memory>
        requires { refusal_of self.old entry ≡ None }
        ensures ok { OnOk result (self.new ≡ with_entry self.old entry) }
        ensures err { OnErr result (self.new ≡ self.old) }
    {
        match entry {
            JournalEntry::Begun { .. } => Ok(()),
            JournalEntry::Asked { wish, .. } => {
                self.ask(wish);
                Ok(())
            }
            JournalEntry::Instead { body, .. } => {
                self.replace(body);
                Ok(())
            }
            JournalEntry::Settled { reply, .. } => self.settle(reply),
        }
    }

    // Makes the wish pending, with no other body in its place.
    fn ask(&mut self, wish: Wish)
        requires { number_of self.old ≤ 1000000000 }
        ensures { self.new ≡ asks self.old wish }
    {
        self.pending = Some(Asked {
            wish,
            instead: None,
        });
    }

    // Asks another body in the place of what is pending; changes nothing if nothing is.
    #[tactic(auto, using(crate::proofs::JournalLemmas::count_replaced))]
    fn replace(&mut self, body: Text)
        ensures { self.new ≡ asks_instead self.old body }
    {
        self.pending = replaced(self.pending.take(), body);
    }

    // Adds the reply to what is pending.
    fn settle(&mut self, reply: SettledReply) -> Result<(), Memory>
        ensures ok { OnOk result (self.new ≡ settles self.old reply) }
        ensures err { OnErr result (self.new ≡ self.old) }
    {
        self.kept.reserve(1)?;
        if let Some(asked) = self.pending.take() {
            self.kept.push_reserved(SettledNumber { asked, reply });
        }
        Ok(())
    }

    /// Where a wish with this intent and this key stands. One with a key is that which has the key,
    /// if it has the same intent. One without a key is that which is pending, if that has the same
    /// intent and no key.
    pub fn place_of(&self, intent: &str, key: &Option<Text>) -> WishPlace
        ensures { result ≡ place_of self.now intent.now key.now }
    {
        match key {
            None => place_without(&self.pending, intent),
            Some(key) => match place_under(self.kept.as_slice(), key.as_str()) {
                None => place_pending(&self.pending, intent, key.as_str()),
                Some(place) => settled_place(self.kept.as_slice(), place, intent),
            },
        }
    }
}

// The other body in the place of what is pending.
fn replaced(pending: Option<Asked>, body: Text) -> Option<Asked>
    ensures { result ≡ option_map (replaced body) pending }
{
    match pending {
        Some(Asked { wish, .. }) => Some(Asked {
            wish,
            instead: Some(body),
        }),
        None => None,
    }
}

// Whether the wish has a key, and that is this one.
fn has_key(key: &str, wish: &Wish) -> bool
    ensures { result ≡ has_key key.now wish.now }
{
    match &wish.key {
        Some(own) => own.as_str() == key,
        None => false,
    }
}

// Whether a settled wish has this key; false if there is no key.
fn is_used(kept: &[SettledNumber], key: &Option<Text>) -> bool
    ensures { result ≡ is_used kept.now key.now }
{
    match key {
        Some(key) => is_kept_under(kept, key.as_str()),
        None => false,
    }
}

// Whether one of the settled wishes has this key.
fn is_kept_under(kept: &[SettledNumber], key: &str) -> bool
    ensures { result ≡ list_any (is_kept_under key.now) kept.now }
{
    kept.iter().any(|kept| has_key(key, &kept.asked.wish))
}

// The place of the first settled wish with this key, from 0, or none.
fn place_under(kept: &[SettledNumber], key: &str) -> Option<usize>
    ensures { result ≡ position (is_kept_under key.now) kept.now }
{
    kept.iter().position(|kept| has_key(key, &kept.asked.wish))
}

// Where a wish without a key is: pending if the pending one has no key and its intent, else new.
fn place_without(pending: &Option<Asked>, intent: &str) -> WishPlace
    ensures { result ≡ place_without pending.now intent.now }
{
    match pending {
        None => WishPlace::New,
        Some(asked) if asked.wish.key.is_none() && asked.wish.intent.as_str() == intent => {
            WishPlace::Pending
        }
        Some(_) => WishPlace::Behind,
    }
}

// Where a wish is whose key no settled one has: pending, new, or `KeyUsed` if its intent differs.
fn place_pending(pending: &Option<Asked>, intent: &str, key: &str) -> WishPlace
    ensures { result ≡ place_pending pending.now intent.now key.now }
{
    match pending {
        None => WishPlace::New,
        Some(asked) if !has_key(key, &asked.wish) => WishPlace::Behind,
        Some(asked) if asked.wish.intent.as_str() == intent => WishPlace::Pending,
        Some(_) => WishPlace::KeyUsed,
    }
}

// Where a wish is whose key is that of this place: there, or `KeyUsed` if its intent differs.
fn settled_place(kept: &[SettledNumber], place: usize, intent: &str) -> WishPlace
    ensures { result ≡ settled_place kept.now place intent.now }
{
    match kept.get(place) {
        Some(kept) if kept.asked.wish.intent.as_str() == intent => WishPlace::Settled(place),
        _ => WishPlace::KeyUsed,
    }
}
