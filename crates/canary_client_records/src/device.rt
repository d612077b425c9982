//! A file as a store sees it: what a read returns, and what a crash may leave.
ghost use Rattle.std.specs.Prelude.{◌≡◌, ◌≤◌, List, ℕ, length, take, IfOk, OnOk};
ghost use Rattle.canary_client_records.specs.declared.device.DeviceFault.TheVariants.{Memory};
ghost use Rattle.canary_client_records.specs.Devices.{Only, Follows, Torn, Cut, Holds, Elapses, HasCause};

use canary_base::error;
use std::alloc::{AllocError, AllocFailed, Global};

/// Why a device did not do what was asked.
#[derive(Clone, Copy, Debug, PartialEq, Eq)]
pub enum DeviceFault {
    /// An allocation was refused.
    Memory,
    /// The file could not be read, written or synced.
    Failed,
    /// The file has no room for the text: it is longer than 2^60 bytes, or a first text longer than
    /// 107. No device reports it.
    Full,
}

impl From<AllocError> for DeviceFault {
    ghost from_gives = { λ _ e. e ≡ Memory };

    // A refused allocation is `Memory`.
    fn from(_: AllocError) -> DeviceFault {
        DeviceFault::Memory
    }
}

impl<T: Drop> From<AllocFailed<T>> for DeviceFault {
    ghost from_gives = { λ _ e. e ≡ Memory };

    // The same if a value found no room, which is dropped.
    fn from(_: AllocFailed<T>) -> DeviceFault {
        DeviceFault::Memory
    }
}

impl From<error::Memory> for DeviceFault {
    ghost from_gives = { λ _ e. e ≡ Memory };

    // The same as canary_base reports it.
    fn from(_: error::Memory) -> DeviceFault {
        DeviceFault::Memory
    }
}

/// A file of bytes. Between two syncs a crash may leave any bytes where it was written, and any
/// length between two that it had. Only of one byte that was written over another one it leaves
/// the one or the other.
pub trait Device {
    /// The bytes that a read returns.
    ghost seen: { Self → List ℕ };

    /// What a crash at this moment may leave.
    ghost may_leave: { Self → List ℕ → Type 0 };

    /// The moment, as a number that does not fall.
    ghost moment: { Self → ℕ };

    /// What a crash at some moment from that one on might have left, during a call or between two.
    ghost left_since: { Self → ℕ → List ℕ → Type 0 };

    /// It has failed at some call.
    ghost has_failed: { Self → Type 0 };

    /// All its bytes, or `Failed` or `Memory`.
    fn read(&mut self, alloc: Global) -> Result<Vec<u8>, DeviceFault>
        ensures bytes { IfOk result (λ bytes. bytes.items ≡ seen self.old) }
        ensures seen { seen self.new ≡ seen self.old }
        ensures crash { (c : List ℕ) → may_leave self.new c → may_leave self.old c }
        ensures time { Elapses (moment self.old) (moment self.new)
            (left_since self.old) (left_since self.new) (may_leave self.new) }
        ensures cause { HasCause (has_failed self.new) result };

    /// Writes over what is there, and past the end, or `Failed` or `Memory`. Until a sync, a crash
    /// may leave any bytes in the range; of one byte over another one, one of the two.
    fn write_at(&mut self, at: usize, bytes: &[u8]) -> Result<(), DeviceFault>
        requires { at ≤ length (seen self.old) }
        ensures written { OnOk result (Holds (seen self.old) at bytes.now (seen self.new)) }
        ensures crash { Follows (Torn at bytes.now) (may_leave self.old) (may_leave self.new) }
        ensures time { Elapses (moment self.old) (moment self.new)
            (left_since self.old) (left_since self.new) (may_leave self.new) }
        ensures cause { HasCause (has_failed self.new) result };

    /// Cuts the file to a length, or `Failed` or `Memory`.
    fn cut(&mut self, kept: usize) -> Result<(), DeviceFault>
        requires { kept ≤ length (seen self.old) }
        ensures cut { OnOk result (seen self.new ≡ take kept (seen self.old)) }
        ensures crash { Follows (Cut kept) (may_leave self.old) (may_leave self.new) }
        ensures time { Elapses (moment self.old) (moment self.new)
            (left_since self.old) (left_since self.new) (may_leave self.new) }
        ensures cause { HasCause (has_failed self.new) result };

    /// After it, a crash leaves what a read returns. `Failed` or `Memory`.
    fn sync(&mut self) -> Result<(), DeviceFault>
        ensures durable { OnOk result (Only (seen self.old) (may_leave self.new)) }
        ensures seen { seen self.new ≡ seen self.old }
        ensures crash { (c : List ℕ) → may_leave self.new c → may_leave self.old c }
        ensures time { Elapses (moment self.old) (moment self.new)
            (left_since self.old) (left_since self.new) (may_leave self.new) }
        ensures cause { HasCause (has_failed self.new) result };

    /// This moment is one of those since an earlier one.
    ghost counts_now: { (file : Self) (t : ℕ) (c : List ℕ)
        → t ≤ moment file → may_leave file c → left_since file t c };

    /// Since this moment there is no other.
    ghost only_now: { (file : Self) (c : List ℕ)
        → left_since file (moment file) c → may_leave file c };
}

// These bytes over those that are there, at an offset.
pub(crate) fn overlaid(
    alloc: Global,
    old: &[u8],
    at: usize,
    bytes: &[u8],
) -> Result<Vec<u8>, AllocError>
    requires { at ≤ length old.now }
    ensures { IfOk result (λ new. Holds old.now at bytes.now new.items) }
{
    let mut new = old[..at].to_vec(alloc)?;
    new.extend_from_slice(bytes)?;
    if bytes.len() < old.len() - at {
        new.extend_from_slice(&old[at + bytes.len()..])?;
    }
    Ok(new)
}
