//! A store of texts over a device.
ghost use Rattle.std.specs.Prelude.{◌≡◌, ◌⊎◌, ◌^◌, ◌<◌, ◌≤◌, ◌++◌, [], ◌∷◌, length};
ghost use Rattle.std.specs.Prelude.{take, option_map, Some, IfOk, IfSome, OnOk, OnErr, IsErrOf};
ghost use Rattle.canary_client_records.specs.Devices.{Only, Holds, Torn, Cut, LeavesOnly};
ghost use Rattle.canary_client_records.specs.Texts.{texts_of, records, HasNoLf};
ghost use Rattle.canary_client_records.specs.Stores.{held, IsSettled, IsBeforeOrAfter, LeftBy, HasNoRoom};

use crate::device::{Device, DeviceFault};
use crate::texts::{self, Found, MAX_FIRST};
use canary_base::error::Memory;
use canary_base::lists::Text;
use std::alloc::Global;

// The most bytes before a closed gate, and of a text.
const MOST: usize = 1 << 60;

/// A file of texts that is at rest: open gates with their texts, and then a closed gate.
#[derive(Drop)]
pub struct Store<D: Device> {
    /// The file.
    pub device: D,
    /// How many bytes stand before its closed gate.
    pub gate: usize,
}

impl<D: Device> Store<D> {
    /// Adds a text: it is on the device after the closed gate, with a closed gate of its own,
    /// before the first one is opened. From then on each crash leaves a file that has it.
    ///
    /// # Errors
    /// `Full` if the file would be too long, or if a first text has more than 107 bytes, and then
    /// nothing is changed; `Failed` if the device failed; `Memory`. The file may then have the text
    /// or not: recover it before it is used again.
    pub fn append(&mut self, alloc: Global, text: &Text) -> Result<(), DeviceFault>
        requires rest { IsSettled D.seen D.may_leave self.old.device self.old.gate }
        requires line { HasNoLf text.now }
        ensures acknowledged { OnOk result
            (IsSettled D.seen D.may_leave self.new.device self.new.gate
            × (held (D.seen self.new.device) ≡ held (D.seen self.old.device) ++ text.now ∷ [])) }
        ensures any_moment { LeavesOnly D.moment D.left_since self.old.device self.new.device
            (IsBeforeOrAfter (held (D.seen self.old.device)) text.now) }
        ensures failed { IsErrOf result DeviceFault.Failed → D.has_failed self.new.device }
        ensures full { IsErrOf result DeviceFault.Full
            → HasNoRoom self.old.gate (length text.now) × (self.new ≡ self.old) }
    {
        let length = text.as_str().len();
        room(self.gate, length)?;
        let behind = behind_gate(alloc, text)?;
        write_through(&mut self.device, self.gate + 1, behind.as_slice())?;
        write_through(&mut self.device, self.gate, b"+")?;
        self.gate += length + 2;
        Ok(())
    }
}

// `Full` if there is no room after so many bytes for a text of so many.
fn room(gate: usize, length: usize) -> Result<(), DeviceFault>
    ensures first { OnOk result (gate ≡ 0 → length ≤ 107) }
    ensures small { OnOk result ((gate < 2 ^ 60) × (length < 2 ^ 60)) }
    ensures full { OnErr result (HasNoRoom gate length) }
    ensures not_failed { IsErrOf result DeviceFault.Failed → ⊥ }
{
    if gate == 0 && length > MAX_FIRST {
        return Err(DeviceFault::Full);
    }
    if gate >= MOST || length >= MOST {
        return Err(DeviceFault::Full);
    }
    Ok(())
}

// What stands after the gate of a text: the text, an LF, and a closed gate.
fn behind_gate(alloc: Global, text: &Text) -> Result<Vec<u8>, Memory>
    ensures { IfOk result (λ bytes. bytes.items ≡ text.now ++ 10 ∷ 45 ∷ []) }
{
    let mut bytes = Vec::from_slice(alloc, text.as_str().as_bytes())?;
    bytes.extend_from_slice(b"\n-")?;
    Ok(bytes)
}

// Writes, and syncs.
fn write_through<D: Device>(device: &mut D, at: usize, bytes: &[u8]) -> Result<(), DeviceFault>
    requires { at ≤ length (D.seen device.old) }
    ensures written { OnOk result (Holds (D.seen device.old) at bytes.now (D.seen device.new)) }
    ensures durable { OnOk result (Only (D.seen device.new) (D.may_leave device.new)) }
    ensures any_moment { LeavesOnly D.moment D.left_since device.old device.new
        (LeftBy (Torn at bytes.now) (D.may_leave device.old)) }
    ensures failed { IsErrOf result DeviceFault.Failed → D.has_failed device.new }
    ensures not_full { IsErrOf result DeviceFault.Full → ⊥ }
{
    device.write_at(at, bytes)?;
    device.sync()
}

// Cuts, and syncs.
fn cut_through<D: Device>(device: &mut D, kept: usize) -> Result<(), DeviceFault>
    requires { kept ≤ length (D.seen device.old) }
    ensures cut { OnOk result (D.seen device.new ≡ take kept (D.seen device.old)) }
    ensures durable { OnOk result (Only (D.seen device.new) (D.may_leave device.new)) }
    ensures any_moment { LeavesOnly D.moment D.left_since device.old device.new
        (LeftBy (Cut kept) (D.may_leave device.old)) }
    ensures failed { IsErrOf result DeviceFault.Failed → D.has_failed device.new }
    ensures not_full { IsErrOf result DeviceFault.Full → ⊥ }
{
    device.cut(kept)?;
    device.sync()
}

// Syncs, and then reads: what is read is on the disk.
fn read_through<D: Device>(alloc: Global, device: &mut D) -> Result<Vec<u8>, DeviceFault>
    ensures bytes { IfOk result (λ bytes. bytes.items ≡ D.seen device.old) }
    ensures same { OnOk result (D.seen device.new ≡ D.seen device.old) }
    ensures durable { OnOk result (Only (D.seen device.old) (D.may_leave device.new)) }
    ensures any_moment { LeavesOnly D.moment D.left_since device.old device.new
        (D.may_leave device.old) }
    ensures failed { IsErrOf result DeviceFault.Failed → D.has_failed device.new }
    ensures not_full { IsErrOf result DeviceFault.Full → ⊥ }
{
    device.sync()?;
    device.read(alloc)
}

/// Reads the texts of a file that a crash may have left, and changes nothing; none if it is no file
/// of texts, or is cut short. What another program wrote there may not be on the disk yet, so the
/// file is synced before it is believed.
///
/// # Errors
/// `Failed` if the device failed; `Memory`.
pub fn look<D: Device>(alloc: Global, device: &mut D) -> Result<Option<Found>, DeviceFault>
    ensures texts { IfOk result (λ found.
        option_map (λ f. f.texts) found ≡ texts_of (D.seen device.old)) }
    ensures gate { IfOk result (λ found. IfSome found (λ f. f.gate ≡ length (records f.texts))) }
    ensures size { IfOk result (λ found. IfSome found (λ f.
        f.size ≡ length (D.seen device.old))) }
    ensures same { OnOk result (D.seen device.new ≡ D.seen device.old) }
    ensures durable { OnOk result (Only (D.seen device.new) (D.may_leave device.new)) }
    ensures any_moment { LeavesOnly D.moment D.left_since device.old device.new
        (D.may_leave device.old) }
    ensures failed { IsErrOf result DeviceFault.Failed → D.has_failed device.new }
    ensures not_full { IsErrOf result DeviceFault.Full → ⊥ }
{
    let bytes = read_through(alloc, device)?;
    Ok(texts::texts_of(alloc, bytes.as_slice())?)
}

/// Reads the texts of a file that a crash may have left, and repairs its end; none if it is no file
/// of texts, or is cut short, and then it is as before.
///
/// # Errors
/// `Failed` if the device failed; `Memory`. The texts are then as before.
pub fn recover<D: Device>(alloc: Global, device: &mut D) -> Result<Option<Found>, DeviceFault>
    ensures texts { IfOk result (λ found.
        option_map (λ f. f.texts) found ≡ texts_of (D.seen device.old)) }
    ensures rest { IfOk result (λ found. IfSome found (λ f.
        IsSettled D.seen D.may_leave device.new f.gate
        × (held (D.seen device.new) ≡ f.texts))) }
    ensures any_moment { LeavesOnly D.moment D.left_since device.old device.new
        (λ c. D.may_leave device.old c ⊎ (texts_of c ≡ texts_of (D.seen device.old))) }
    ensures failed { IsErrOf result DeviceFault.Failed → D.has_failed device.new }
    ensures not_full { IsErrOf result DeviceFault.Full → ⊥ }
{
    let Some(found) = look(alloc, device)? else {
        return Ok(None);
    };
    repair(device, &found)?;
    Ok(Some(found))
}

/// Cuts off what stands after the closed gate of a file, or closes the first gate of one that has
/// none. The file is as `look` found it.
///
/// # Errors
/// `Failed` if the device failed; `Memory`. The texts are then as before.
pub fn repair<D: Device>(device: &mut D, found: &Found) -> Result<(), DeviceFault>
    requires size { found.now.size ≡ length (D.seen device.old) }
    requires texts { texts_of (D.seen device.old) ≡ Some found.now.texts }
    requires gate { found.now.gate ≡ length (records found.now.texts) }
    requires durable { Only (D.seen device.old) (D.may_leave device.old) }
    ensures rest { OnOk result (IsSettled D.seen D.may_leave device.new found.now.gate
        × (held (D.seen device.new) ≡ found.now.texts)) }
    ensures any_moment { LeavesOnly D.moment D.left_since device.old device.new
        (λ c. texts_of c ≡ texts_of (D.seen device.old)) }
    ensures failed { IsErrOf result DeviceFault.Failed → D.has_failed device.new }
    ensures not_full { IsErrOf result DeviceFault.Full → ⊥ }
{
    repair_sized(device, found.size, found)
}

// Does it for `repair`: a file of one byte at most gets a gate, a longer one is cut after its gate.
fn repair_sized<D: Device>(device: &mut D, size: usize, found: &Found) -> Result<(), DeviceFault>
    requires size { size ≡ length (D.seen device.old) }
    requires texts { texts_of (D.seen device.old) ≡ Some found.now.texts }
    requires gate { found.now.gate ≡ length (records found.now.texts) }
    requires durable { Only (D.seen device.old) (D.may_leave device.old) }
    ensures rest { OnOk result (IsSettled D.seen D.may_leave device.new found.now.gate
        × (held (D.seen device.new) ≡ found.now.texts)) }
    ensures any_moment { LeavesOnly D.moment D.left_since device.old device.new
        (λ c. texts_of c ≡ texts_of (D.seen device.old)) }
    ensures failed { IsErrOf result DeviceFault.Failed → D.has_failed device.new }
    ensures not_full { IsErrOf result DeviceFault.Full → ⊥ }
{
    if size <= 1 {
        write_through(device, 0, b"-")?;
        return Ok(());
    }
    cut_through(device, found.gate + 1)?;
    Ok(())
}
