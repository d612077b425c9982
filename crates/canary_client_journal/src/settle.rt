//! Sending what is pending until it is settled.
ghost use Rattle.std.specs.Prelude.{◌≡◌, ◌<◌, ℕ, true, false, IsTrue};
ghost use Rattle.std.specs.Prelude.{option_map, option_copied, IfOk, IfErr, OnOk, OnErr};
ghost use Rattle.canary_client_records.specs.Devices.{LeavesOnly};
ghost use Rattle.canary_client_journal.specs.declared.entry.Asked.{Asked};
ghost use Rattle.canary_client_journal.specs.declared.entry.SettledReply.{SettledReply};
ghost use Rattle.canary_client_journal.specs.Journals.{settles};
ghost use Rattle.canary_client_journal.specs.Keeping.{IsKept};
ghost use Rattle.canary_client_journal.specs.Networks.{GoesOn};
ghost use Rattle.canary_client_journal.specs.Sending.{body_of, IsAskedBy, IsSettledBy};
ghost use Rattle.canary_client_journal.specs.Sending.{IsSettledOrPending, IsWhy, IsFailed, is_kept};
ghost use Rattle.canary_client_journal.specs.Sending.{is_replaced, IsReused, IsOnce, IsFrom, IsOf};
ghost use Rattle.canary_client_journal.specs.Sending.{IsTooLate, IsWrong, taken_for};

use crate::entry::{JournalEntry, SettledReply};
use crate::journal::Journal;
use crate::kept::{KeepFault, KeptJournal};
use crate::meaning::{Meaning, meaning_of};
use crate::network::{Heard, Network, RetryReason, request};
use canary_client_records::device::Device;
use std::alloc::Global;

/// Why what is pending is not settled.
#[derive(Clone, Copy, Debug, PartialEq, Eq)]
pub enum Unsettled {
    /// No answer came in as many tries as were asked for: it may have acted or not.
    Pending,
    /// The desk settled another command under its number.
    Reused,
    /// The next number of this caller is this one, by the desk.
    Ahead(u32),
    /// The desk cannot read it.
    Unread,
    /// The journal failed.
    Kept(KeepFault),
    /// An allocation was refused.
    Memory,
}

/// Sends what is pending until it is settled, so often at most, and keeps its reply.
///
/// # Errors
/// `Pending` if nothing is pending or no try is asked for, and then nothing is sent, or if no
/// answer came; `Reused`, `Ahead` and `Unread` by what the desk answered; `Kept` if the journal
/// failed as it kept the reply, and then the device may have that or not: open it again; `Memory`.
/// The journal is then as before, and so is its device unless the journal failed.
pub fn settle<N: Network, D: Device>(
    alloc: Global,
    network: &mut N,
    kept: &mut KeptJournal<D>,
    tries: u32,
) -> Result<(), Unsettled>
    requires { IsKept D.seen D.may_leave kept.old }
    ensures kept { OnOk result (IsKept D.seen D.may_leave kept.new) }
    ensures journal { OnOk result ((reply : SettledReply)
        × IsSettledBy (N.was_told network.new) kept.old.journal reply
        × (kept.new.journal ≡ settles kept.old.journal reply)) }
    ensures err { OnErr result (kept.new.journal ≡ kept.old.journal) }
    ensures same { IfErr result (λ why. is_kept why ≡ false → kept.new ≡ kept.old) }
    ensures why { IfErr result (IsWhy (N.was_told network.new) (N.was_unanswered network.new)
        kept.old.journal tries
        (IsFailed (N.was_told network.new) kept.old.journal
        (D.has_failed kept.new.store.device) kept.old.store.gate)) }
    ensures network { GoesOn N.was_sent N.was_told N.was_unanswered network.old network.new
        (λ m. (0 < tries) × IsAskedBy (N.was_told network.new) kept.old.journal m) }
    ensures any_moment { LeavesOnly D.moment D.left_since
        kept.old.store.device kept.new.store.device
        (IsSettledOrPending (N.was_told network.new) kept.old.journal) }
{
    let reply = reply_to(alloc, network, &kept.journal, tries)?;
    let number = kept.journal.number();
    match kept.keep(alloc, JournalEntry::Settled { number, reply }) {
        Ok(()) => Ok(()),
        Err(fault) => Err(Unsettled::Kept(fault)),
    }
}

// The reply that settles what is pending.
fn reply_to<N: Network>(
    alloc: Global,
    network: &mut N,
    journal: &Journal,
    tries: u32,
) -> Result<SettledReply, Unsettled>
    ensures settled { IfOk result (IsSettledBy (N.was_told network.new) journal.now) }
    ensures why { IfErr result (IsWhy (N.was_told network.new) (N.was_unanswered network.new)
        journal.now tries (λ _. ⊥)) }
    ensures network { GoesOn N.was_sent N.was_told N.was_unanswered network.old network.new
        (λ m. (0 < tries) × IsAskedBy (N.was_told network.new) journal.now m) }
{
    for tried in 0..tries {
        match try_each(alloc, network, journal)? {
            Tried::Settled(reply) => return Ok(reply),
            Tried::Reused => return Err(Unsettled::Reused),
            Tried::Again(why) => rest(network, tried + 1, tries, why),
        }
    }
    Err(Unsettled::Pending)
}

/// Waits after so many of these tries, if there is to be one more.
pub fn rest<N: Network>(network: &mut N, tried: u32, tries: u32, why: RetryReason)
    ensures { GoesOn N.was_sent N.was_told N.was_unanswered network.old network.new (λ _. ⊥) }
{
    if tried < tries {
        network.pause(tried, why);
    }
}

// What came of one try.
#[derive(Drop)]
enum Tried {
    Settled(SettledReply),
    Reused,
    Again(RetryReason),
}

// Sends what was asked last, and if another command was settled under its number, what was asked
// first, of which the reply then comes late.
fn try_each<N: Network>(
    alloc: Global,
    network: &mut N,
    journal: &Journal,
) -> Result<Tried, Unsettled>
    ensures came { IfOk result
        (IsFrom (N.was_told network.new) (N.was_unanswered network.new) journal.now) }
    ensures why { (tries : ℕ) → IfErr result
        (IsWhy (N.was_told network.new) (N.was_unanswered network.new) journal.now tries (λ _. ⊥)) }
    ensures network { GoesOn N.was_sent N.was_told N.was_unanswered network.old network.new
        (IsAskedBy (N.was_told network.new) journal.now) }
{
    match try_once(alloc, network, journal, false)? {
        Tried::Reused => try_wish(alloc, network, journal),
        tried => Ok(tried),
    }
}

// Sends the wish, if something else was asked in its place, and came too late.
fn try_wish<N: Network>(
    alloc: Global,
    network: &mut N,
    journal: &Journal,
) -> Result<Tried, Unsettled>
    requires { IsReused (N.was_told network.old) journal.now false }
    ensures came { IfOk result
        (IsFrom (N.was_told network.new) (N.was_unanswered network.new) journal.now) }
    ensures why { (tries : ℕ) → IfErr result
        (IsWhy (N.was_told network.new) (N.was_unanswered network.new) journal.now tries (λ _. ⊥)) }
    ensures network { GoesOn N.was_sent N.was_told N.was_unanswered network.old network.new
        (IsAskedBy (N.was_told network.new) journal.now) }
{
    if was_replaced(journal) {
        try_once(alloc, network, journal, true)
    } else {
        Ok(Tried::Reused)
    }
}

// Sends what was asked last, once, or if `is_late` the wish; `Pending` if nothing is pending.
fn try_once<N: Network>(
    alloc: Global,
    network: &mut N,
    journal: &Journal,
    is_late: bool,
) -> Result<Tried, Unsettled>
    requires { (a : Asked) → journal.now.pending ≡ Some a → is_late ≡ true
        → IsTooLate (N.was_told network.old) journal.now a }
    ensures came { IfOk result
        (IsOnce (N.was_told network.new) (N.was_unanswered network.new) journal.now is_late) }
    ensures why { (tries : ℕ) → IfErr result
        (IsWhy (N.was_told network.new) (N.was_unanswered network.new) journal.now tries (λ _. ⊥)) }
    ensures network { GoesOn N.was_sent N.was_told N.was_unanswered network.old network.new
        (IsAskedBy (N.was_told network.new) journal.now) }
{
    let Some(body) = body_of(journal, is_late) else {
        return Err(Unsettled::Pending);
    };
    let Ok(message) = request(alloc, journal.caller(), journal.number(), body) else {
        return Err(Unsettled::Memory);
    };
    match network.exchange(alloc, message.as_str()) {
        Ok(response) => what_came(alloc, response, is_late),
        Err(why) => Ok(Tried::Again(why)),
    }
}

// The body that is sent: what was asked in the place of the wish, unless that came too late.
fn body_of(journal: &Journal, is_late: bool) -> Option<&str>
    ensures { option_map (λ b. b.now) result
        ≡ option_map (λ a. body_of a is_late) journal.now.pending }
{
    let asked = journal.pending()?;
    match &asked.instead {
        Some(instead) if !is_late => Some(instead.as_str()),
        _ => Some(asked.wish.body.as_str()),
    }
}

// What came of a try that got this reply, or why no more tries would help; `Memory`.
fn what_came(alloc: Global, response: Heard, is_late: bool) -> Result<Tried, Unsettled>
    ensures came { IfOk result (IsOf response is_late) }
    ensures wrong { IfErr result (IsWrong response) }
{
    let Ok(meaning) = meaning_of(alloc, response.status, response.body.as_str()) else {
        return Err(Unsettled::Memory);
    };
    taken_for(meaning, response, is_late)
}

// What a reply of this meaning is taken for.
fn taken_for(meaning: Meaning, response: Heard, is_late: bool) -> Result<Tried, Unsettled>
    ensures { result ≡ taken_for meaning response is_late }
{
    match meaning {
        Meaning::Settled => Ok(Tried::Settled(SettledReply {
            status: response.status,
            body: response.body,
            is_late,
        })),
        Meaning::Reused => Ok(Tried::Reused),
        Meaning::Unavailable => Ok(Tried::Again(RetryReason::Unavailable)),
        Meaning::Foreign => Ok(Tried::Again(RetryReason::Foreign)),
        Meaning::Ahead(expected) => Err(Unsettled::Ahead(expected)),
        Meaning::Unread => Err(Unsettled::Unread),
    }
}

// Whether something else was asked in the place of the wish; false if nothing is pending.
fn was_replaced(journal: &Journal) -> bool
    ensures { result ≡ is_replaced journal.now }
{
    match journal.pending() {
        Some(asked) => asked.instead.is_some(),
        None => false,
    }
}
