//! A journal on a device: each entry stands there before it is in the journal.
ghost use Rattle.std.specs.Prelude.{◌≡◌, ◌≢◌, ◌⊎◌, ◌<◌, ◌≤◌, ◌+◌, ◌^◌, ◌++◌, [], ◌∷◌, length};
ghost use Rattle.std.specs.Prelude.{List, ℕ, Some, None, IfOk, IfErr, OnOk, OnErr};
ghost use Rattle.canary_client_records.specs.Devices.{LeavesOnly, Only};
ghost use Rattle.canary_client_records.specs.Texts.{texts_of, records};
ghost use Rattle.canary_client_records.specs.Stores.{held, IsSettled, HasNoRoom};
ghost use Rattle.canary_client_journal.specs.Journals.{begun, refusal_of, with_entry};
ghost use Rattle.canary_client_journal.specs.Lines.{line_of, entry_in};
ghost use Rattle.canary_client_journal.specs.Readings.{journal_in};
ghost use Rattle.canary_client_journal.specs.declared.kept.KeepFault.TheVariants.{Memory};
ghost use Rattle.canary_client_journal.specs.Keeping.{keep_fault, IsFault, IsKept, IsOpened, device_of};
ghost use Rattle.canary_client_journal.specs.Keeping.{IsWithLine, IsNewOrBegun, IsWithOrWithout, unread};

use crate::entry::{EntryRefusal, JournalEntry};
use crate::journal::Journal;
use crate::{laws, lines, reading};
use canary_base::error;
use canary_base::names::Name;
use canary_canonical::form::FormFault;
use canary_client_records::device::{Device, DeviceFault};
use canary_client_records::store::{Store, look, repair};
use canary_client_records::texts::Found;
use std::alloc::Global;

/// Why a journal was not opened, or an entry not kept.
#[derive(Clone, Copy, Debug, PartialEq, Eq)]
pub enum KeepFault {
    /// An allocation was refused.
    Memory,
    /// The device failed.
    Failed,
    /// The file has no room for an entry more.
    Full,
    /// The file is no journal.
    Broken,
    /// The entry may not stand next.
    Refused(EntryRefusal),
}

impl From<DeviceFault> for KeepFault {
    ghost from_gives = { λ fault told. told ≡ keep_fault fault };

    // A fault of the device is the one of the same name.
    fn from(fault: DeviceFault) -> KeepFault {
        match fault {
            DeviceFault::Memory => KeepFault::Memory,
            DeviceFault::Failed => KeepFault::Failed,
            DeviceFault::Full => KeepFault::Full,
        }
    }
}

impl From<error::Memory> for KeepFault {
    ghost from_gives = { λ _ told. told ≡ Memory };

    // A refused allocation is `Memory`.
    fn from(_: error::Memory) -> KeepFault {
        KeepFault::Memory
    }
}

/// A journal on a device.
#[derive(Drop)]
pub struct KeptJournal<D: Device> {
    /// The device.
    pub store: Store<D>,
    /// The journal.
    pub journal: Journal,
}

/// What a device has.
#[derive(Drop)]
pub enum Opened<D: Device> {
    /// No journal is begun there yet.
    New(Store<D>),
    /// A journal.
    Begun(KeptJournal<D>),
}

/// Opens a device: reads its journal, and then repairs what a crash left.
///
/// # Errors
/// `Broken` if it has texts that are no journal, is no file of texts, or is cut short, and then it
/// is not written; `Failed`; `Memory`.
pub fn open<D: Device + Drop>(alloc: Global, device: D) -> Result<Opened<D>, KeepFault>
    ensures opened { IfOk result (IsOpened D.seen D.may_leave (D.seen device)) }
    ensures fault { IfErr result (IsFault (Unit {0}) ⊥
        ((journal_in (D.seen device) ≡ None) × (texts_of (D.seen device) ≢ Some [])) (λ _. ⊥)) }
    ensures any_moment { IfOk result (λ opened.
        LeavesOnly D.moment D.left_since device (device_of opened)
        (λ c. D.may_leave device c ⊎ (texts_of c ≡ texts_of (D.seen device)))) }
{
    let mut device = device;
    let Some(found) = look(alloc, &mut device)? else {
        return Err(KeepFault::Broken);
    };
    if found.texts.as_slice().is_empty() {
        let store = repaired(device, &found)?;
        return Ok(Opened::New(store));
    }
    match reading::journal_of(alloc, found.texts.as_slice()) {
        Ok(journal) => {
            let store = repaired(device, &found)?;
            Ok(Opened::Begun(KeptJournal { store, journal }))
        }
        Err(fault) => Err(unread(fault)),
    }
}

// Why the texts of a file were not read as a journal.
fn unread(fault: FormFault) -> KeepFault
    ensures { result ≡ unread fault }
{
    match fault {
        FormFault::Unreadable => KeepFault::Broken,
        FormFault::Memory => KeepFault::Memory,
    }
}

// The file of texts that was found on a device, at rest.
fn repaired<D: Device + Drop>(device: D, found: &Found) -> Result<Store<D>, KeepFault>
    requires size { found.now.size ≡ length (D.seen device) }
    requires texts { texts_of (D.seen device) ≡ Some found.now.texts }
    requires gate { found.now.gate ≡ length (records found.now.texts) }
    requires durable { Only (D.seen device) (D.may_leave device) }
    ensures rest { IfOk result (λ store. IsSettled D.seen D.may_leave store.device store.gate
        × (held (D.seen store.device) ≡ found.now.texts)) }
    ensures fault { IfErr result (IsFault (Unit {0}) ⊥ ⊥ (λ _. ⊥)) }
    ensures any_moment { IfOk result (λ store.
        LeavesOnly D.moment D.left_since device store.device
        (λ c. texts_of c ≡ texts_of (D.seen device))) }
{
    let mut device = device;
    repair(&mut device, found)?;
    Ok(Store {
        device,
        gate: found.gate,
    })
}

/// Begins the journal of a caller of whom the desk had settled so many requests.
///
/// # Errors
/// `Broken` if they are more than 1,000,000,000; `Failed`; `Full`; `Memory`. The device may then
/// have the journal or not.
pub fn begin<D: Device + Drop>(
    alloc: Global,
    store: Store<D>,
    caller: Name,
    settled: u32,
) -> Result<KeptJournal<D>, KeepFault>
    requires rest { IsSettled D.seen D.may_leave store.device store.gate }
    requires new { held (D.seen store.device) ≡ [] }
    ensures kept { IfOk result (IsKept D.seen D.may_leave) }
    ensures begun { IfOk result (λ kept. kept.journal ≡ begun caller settled) }
    ensures fault { IfErr result (IsFault (Unit {0})
        (HasNoRoom store.gate (length (line_of (JournalEntry.Begun caller settled))))
        (1000000000 < settled) (λ _. ⊥)) }
    ensures any_moment { IfOk result (λ kept.
        LeavesOnly D.moment D.left_since store.device kept.store.device
        (IsNewOrBegun caller settled)) }
{
    let mut store = store;
    let Some(journal) = Journal::begun(alloc, caller, settled) else {
        return Err(KeepFault::Broken);
    };
    add_line(alloc, &mut store, &JournalEntry::Begun { caller, settled })?;
    Ok(KeptJournal { store, journal })
}

// Adds the line of an entry to a file.
fn add_line<D: Device>(
    alloc: Global,
    store: &mut Store<D>,
    entry: &JournalEntry,
) -> Result<(), KeepFault>
    requires { IsSettled D.seen D.may_leave store.old.device store.old.gate }
    ensures rest { OnOk result (IsSettled D.seen D.may_leave store.new.device store.new.gate) }
    ensures line { OnOk result ((entry_in (line_of entry.now) ≡ Some entry.now)
        × (held (D.seen store.new.device)
        ≡ held (D.seen store.old.device) ++ line_of entry.now ∷ [])) }
    ensures fault { IfErr result (IsFault (D.has_failed store.new.device)
        (HasNoRoom store.old.gate (length (line_of entry.now))) ⊥ (λ _. ⊥)) }
    ensures any_moment { LeavesOnly D.moment D.left_since store.old.device store.new.device
        (IsWithLine (held (D.seen store.old.device)) entry.now) }
{
    let line = lines::line(alloc, entry)?;
    store.append(alloc, &line)?;
    Ok(())
}

impl<D: Device> KeptJournal<D> {
    /// Keeps an entry: it stands on the device when the call returns.
    ///
    /// # Errors
    /// `Refused` if it may not stand next, and then nothing is changed; `Failed`, `Full` and
    /// `Memory`, and then the journal is as before, and the device may have the entry or not: open
    /// it again.
    pub fn keep(&mut self, alloc: Global, entry: JournalEntry) -> Result<(), KeepFault>
        requires { IsKept D.seen D.may_leave self.old }
        ensures kept { OnOk result (IsKept D.seen D.may_leave self.new) }
        ensures journal { OnOk result (self.new.journal ≡ with_entry self.old.journal entry) }
        ensures next { OnOk result (refusal_of self.old.journal entry ≡ None) }
        ensures err { OnErr result (self.new.journal ≡ self.old.journal) }
        ensures fault { IfErr result (IsFault (D.has_failed self.new.store.device)
            (2 ^ 60 ≤ self.old.store.gate + length (line_of entry)) ⊥
            (λ r. (refusal_of self.old.journal entry ≡ Some r) × (self.new ≡ self.old))) }
        ensures any_moment { LeavesOnly D.moment D.left_since
            self.old.store.device self.new.store.device
            (IsWithOrWithout self.old.journal entry) }
    {
        laws::journals();
        if let Some(refusal) = self.journal.refusal(&entry) {
            return Err(KeepFault::Refused(refusal));
        }
        add_line(alloc, &mut self.store, &entry)?;
        self.journal.take(entry)?;
        Ok(())
    }
}
