//! A caller's journal on a device: opened, begun, and what is asked by it.
ghost use Rattle.std.specs.Prelude.{◌≡◌, ◌+◌, ◌≤◌, ℕ, [], IfOk, OnOk, IfSome, IsTrue};
ghost use Rattle.canary_client_records.specs.Stores.{held, IsSettled};
ghost use Rattle.canary_client_journal.specs.declared.meaning.Meaning.TheVariants.{Ahead};
ghost use Rattle.canary_client_journal.specs.Journals.{asks, asks_instead, begun};
ghost use Rattle.canary_client_journal.specs.Meanings.{meaning_of};
ghost use Rattle.canary_client_journal.specs.Keeping.{IsKept};
ghost use Rattle.canary_client_journal.specs.Networks.{GoesOn};
ghost use Rattle.canary_client_journal.specs.Sending.{IsAskedBy};
ghost use Rattle.canary_client.specs.Beginning.{IsSaid, IsOpenedOrBegun, IsSettledSo, probe_text};

use crate::outcome::Stop;
use canary_base::lists::Text;
use canary_base::names::Name;
use canary_base::numbers::MAX_NUMBER;
use canary_client_journal::entry::{JournalEntry, Wish};
use canary_client_journal::kept::{KeptJournal, Opened, begin, open};
use canary_client_journal::meaning::{Meaning, meaning_of};
use canary_client_journal::network::{Heard, Network, RetryReason, request};
use canary_client_journal::settle::{rest, settle};
use canary_client_records::device::Device;
use canary_client_records::file::{FileDevice, OpenFault, sync_folder};
use canary_client_records::store::Store;
use std::alloc::Global;

// A command that would change nothing if it were settled.
const PROBE: &str = "{\"tick\":{\"service\":\"probe\"}}";

/// The journal's file of this path, open and locked, with its name on the disk.
///
/// # Errors
/// `InUse` if another client has it open; `JournalNoFile` if it is no regular file; `Journal` if it
/// cannot be opened, or its folder not synced.
pub fn device_at(rt: &HostRuntime, path: &str) -> Result<FileDevice, Stop> {
    match FileDevice::open(rt, path) {
        Ok(device) if sync_folder(rt, path) => Ok(device),
        Ok(_) => Err(Stop::Journal),
        Err(OpenFault::InUse) => Err(Stop::InUse),
        Err(OpenFault::NoFile) => Err(Stop::JournalNoFile),
        Err(OpenFault::Failed) => Err(Stop::Journal),
    }
}

/// The journal of a caller on a device: as it stands there; or the device has none, and it begins
/// with what the desk says that it has settled of the caller. If the device is in doubt, it may
/// have lost its journal, and that begins only if the desk has settled nothing of the caller.
///
/// # Errors
/// `JournalBroken` if the device has no whole journal, `OtherCaller` if it has another caller's;
/// `JournalEmptied` if it is in doubt and the desk has settled requests of the caller, and then it
/// is not written; `NotBegun` if no desk answered, and then nothing was begun; `Journal`,
/// `JournalFull`, `Memory`.
pub fn journal_on<N: Network, D: Device + Drop>(
    alloc: Global,
    network: &mut N,
    device: D,
    is_in_doubt: bool,
    caller: Name,
    tries: u32,
) -> Result<KeptJournal<D>, Stop>
    ensures kept { IfOk result (IsKept D.seen D.may_leave) }
    ensures caller { IfOk result (λ kept. kept.journal.caller ≡ caller) }
    ensures begun { IfOk result (λ kept.
        IsOpenedOrBegun (N.was_told network.new) caller (D.seen device) kept.journal) }
    ensures doubt { OnOk result
        (IsTrue is_in_doubt → IsSaid (N.was_told network.new) caller 0) }
    ensures sends { GoesOn N.was_sent N.was_told N.was_unanswered network.old network.new
        (λ m. m ≡ probe_text caller) }
{
    if is_in_doubt {
        return journal_in_doubt(alloc, network, device, caller, tries);
    }
    match open(alloc, device)? {
        Opened::Begun(kept) => of_caller(kept, caller),
        Opened::New(store) => begun(alloc, network, store, caller, tries),
    }
}

// The same on a device that may have lost its journal: the desk is asked before it is opened.
fn journal_in_doubt<N: Network, D: Device + Drop>(
    alloc: Global,
    network: &mut N,
    device: D,
    caller: Name,
    tries: u32,
) -> Result<KeptJournal<D>, Stop>
    ensures kept { IfOk result (IsKept D.seen D.may_leave) }
    ensures caller { IfOk result (λ kept. kept.journal.caller ≡ caller) }
    ensures begun { IfOk result (λ kept.
        IsOpenedOrBegun (N.was_told network.new) caller (D.seen device) kept.journal) }
    ensures doubt { OnOk result (IsSaid (N.was_told network.new) caller 0) }
    ensures sends { GoesOn N.was_sent N.was_told N.was_unanswered network.old network.new
        (λ m. m ≡ probe_text caller) }
{
    is_unknown(alloc, network, caller, tries)?;
    match open(alloc, device)? {
        Opened::Begun(kept) => of_caller(kept, caller),
        Opened::New(store) => begun_at(alloc, store, caller, 0),
    }
}

// `JournalEmptied` if the desk has settled requests of the caller.
fn is_unknown<N: Network>(
    alloc: Global,
    network: &mut N,
    caller: Name,
    tries: u32,
) -> Result<(), Stop>
    ensures said { OnOk result (IsSaid (N.was_told network.new) caller 0) }
    ensures sends { GoesOn N.was_sent N.was_told N.was_unanswered network.old network.new
        (λ m. m ≡ probe_text caller) }
{
    match settled_before(alloc, network, caller, tries)? {
        0 => Ok(()),
        _ => Err(Stop::JournalEmptied),
    }
}

// The journal, if it is this caller's; else `OtherCaller`.
fn of_caller<D: Device + Drop>(kept: KeptJournal<D>, caller: Name) -> Result<KeptJournal<D>, Stop>
    ensures same { IfOk result (λ same. same ≡ kept) }
    ensures caller { IfOk result (λ _. kept.journal.caller ≡ caller) }
{
    if kept.journal.caller() != caller {
        return Err(Stop::OtherCaller);
    }
    Ok(kept)
}

// Begins the journal, with as many settled requests of the caller as the desk says.
fn begun<N: Network, D: Device + Drop>(
    alloc: Global,
    network: &mut N,
    store: Store<D>,
    caller: Name,
    tries: u32,
) -> Result<KeptJournal<D>, Stop>
    requires rest { IsSettled D.seen D.may_leave store.device store.gate }
    requires new { held (D.seen store.device) ≡ [] }
    ensures kept { IfOk result (IsKept D.seen D.may_leave) }
    ensures begun { IfOk result (λ kept. (settled : ℕ) × (kept.journal ≡ begun caller settled)
        × IsSaid (N.was_told network.new) caller settled) }
    ensures sends { GoesOn N.was_sent N.was_told N.was_unanswered network.old network.new
        (λ m. m ≡ probe_text caller) }
{
    let settled = settled_before(alloc, network, caller, tries)?;
    begun_at(alloc, store, caller, settled)
}

// Begins the journal of a caller of whom the desk has settled so many requests.
fn begun_at<D: Device + Drop>(
    alloc: Global,
    store: Store<D>,
    caller: Name,
    settled: u32,
) -> Result<KeptJournal<D>, Stop>
    requires rest { IsSettled D.seen D.may_leave store.device store.gate }
    requires new { held (D.seen store.device) ≡ [] }
    ensures kept { IfOk result (IsKept D.seen D.may_leave) }
    ensures begun { IfOk result (λ kept. kept.journal ≡ begun caller settled) }
{
    match begin(alloc, store, caller, settled) {
        Ok(kept) => Ok(kept),
        Err(fault) => Err(fault.into()),
    }
}

// How many requests of a caller the desk has settled. The request that asks is ahead of the
// caller's next one, so it changes nothing.
fn settled_before<N: Network>(
    alloc: Global,
    network: &mut N,
    caller: Name,
    tries: u32,
) -> Result<u32, Stop>
    ensures said { IfOk result (IsSaid (N.was_told network.new) caller) }
    ensures sends { GoesOn N.was_sent N.was_told N.was_unanswered network.old network.new
        (λ m. m ≡ probe_text caller) }
{
    let message = request(alloc, caller, MAX_NUMBER, PROBE)?;
    for tried in 0..tries {
        let why = match network.exchange(alloc, message.as_str()) {
            Ok(response) => match settled_of(alloc, &response)? {
                Some(settled) => return Ok(settled),
                None => why_again(alloc, &response)?,
            },
            Err(RetryReason::Memory) => return Err(Stop::Memory),
            Err(why) => why,
        };
        rest(network, tried + 1, tries, why);
    }
    Err(Stop::NotBegun)
}

// How many requests of the caller a desk has settled, if the reply says so. No desk has settled
// more than there are numbers.
fn settled_of(alloc: Global, response: &Heard) -> Result<Option<u32>, Stop>
    ensures said { IfOk result (λ settled. IfSome settled
        (λ count. meaning_of response.now.status response.now.body ≡ Ahead (count + 1))) }
    ensures most { IfOk result (λ settled. IfSome settled (λ count. count ≤ 1000000000)) }
{
    match meaning_of(alloc, response.status, response.body.as_str())? {
        Meaning::Ahead(expected) if expected >= 1 && expected - 1 <= MAX_NUMBER => {
            Ok(Some(expected - 1))
        }
        _ => Ok(None),
    }
}

// Why the number has to be asked for again if this reply came.
fn why_again(alloc: Global, response: &Heard) -> Result<RetryReason, Stop> {
    match meaning_of(alloc, response.status, response.body.as_str())? {
        Meaning::Unavailable => Ok(RetryReason::Unavailable),
        _ => Ok(RetryReason::Foreign),
    }
}

/// Asks a wish under the next number, while none is pending: it stands on the device before it is
/// sent, and so does its reply before the call returns.
///
/// # Errors
/// `KeyUsed`, `Spent` and `Refused` if the journal does not take the wish; what `settled` answers.
pub fn asked<N: Network, D: Device>(
    alloc: Global,
    network: &mut N,
    kept: &mut KeptJournal<D>,
    wish: Wish,
    tries: u32,
) -> Result<(), Stop>
    requires { IsKept D.seen D.may_leave kept.old }
    ensures kept { OnOk result (IsKept D.seen D.may_leave kept.new) }
    ensures settled { OnOk result (IsSettledSo (N.was_told network.new)
        (asks kept.old.journal wish) kept.new.journal) }
    ensures sends { GoesOn N.was_sent N.was_told N.was_unanswered network.old network.new
        (IsAskedBy (N.was_told network.new) (asks kept.old.journal wish)) }
{
    let number = kept.journal.number();
    kept.keep(alloc, JournalEntry::Asked { number, wish })?;
    settled(alloc, network, kept, tries)
}

/// Asks a command in the place of the wish that is pending, under its number.
///
/// # Errors
/// `Replaced` if another one was asked in its place; `Refused` if nothing is pending; what
/// `settled` answers.
pub fn asked_instead<N: Network, D: Device>(
    alloc: Global,
    network: &mut N,
    kept: &mut KeptJournal<D>,
    body: Text,
    tries: u32,
) -> Result<(), Stop>
    requires { IsKept D.seen D.may_leave kept.old }
    ensures kept { OnOk result (IsKept D.seen D.may_leave kept.new) }
    ensures settled { OnOk result (IsSettledSo (N.was_told network.new)
        (asks_instead kept.old.journal body) kept.new.journal) }
    ensures sends { GoesOn N.was_sent N.was_told N.was_unanswered network.old network.new
        (IsAskedBy (N.was_told network.new) (asks_instead kept.old.journal body)) }
{
    let number = kept.journal.number();
    kept.keep(alloc, JournalEntry::Instead { number, body })?;
    settled(alloc, network, kept, tries)
}

/// Sends what is pending until it is settled, `tries` times at most, and keeps its reply.
///
/// # Errors
/// `Unanswered` if no answer came; `Reused`, `Ahead` and `Unread` by what the desk answered;
/// `Journal` if the device failed; `JournalFull`; `Memory`.
pub fn settled<N: Network, D: Device>(
    alloc: Global,
    network: &mut N,
    kept: &mut KeptJournal<D>,
    tries: u32,
) -> Result<(), Stop>
    requires { IsKept D.seen D.may_leave kept.old }
    ensures kept { OnOk result (IsKept D.seen D.may_leave kept.new) }
    ensures settled { OnOk result (IsSettledSo (N.was_told network.new)
        kept.old.journal kept.new.journal) }
    ensures sends { GoesOn N.was_sent N.was_told N.was_unanswered network.old network.new
        (IsAskedBy (N.was_told network.new) kept.old.journal) }
{
    match settle(alloc, network, kept, tries) {
        Ok(()) => Ok(()),
        Err(unsettled) => Err(unsettled.into()),
    }
}
