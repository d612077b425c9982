//! A device in memory.
ghost use Rattle.std.specs.Prelude.{◌≡◌, ◌⊎◌, [], ◌∷◌, ◌++◌, length, drop, OnOk, OnErr};
ghost use Rattle.std.proofs.Common.{inl};
ghost use Rattle.canary_client_records.specs.Past.{HadBeen, only_bytes};

use crate::device::{Device, DeviceFault, overlaid};
use std::alloc::{AllocError, Global};

/// A device in memory. Each call is done at once, so a crash leaves what is there. It keeps each
/// past content.
#[derive(Drop)]
pub struct MemoryDevice {
    alloc: Global,
    bytes: Vec<u8>,
    past: Vec<Vec<u8>>,
}

impl MemoryDevice {
    ghost use Rattle.canary_client_records.specs.Memory.{memory_bytes};

    /// A file with these bytes, all of them on the disk.
    pub fn new(alloc: Global, bytes: Vec<u8>) -> Self
        ensures { memory_bytes result ≡ bytes.items }
    {
        MemoryDevice {
            alloc,
            bytes,
            past: Vec::new(alloc),
        }
    }

    /// Its bytes.
    pub fn bytes(&self) -> &[u8]
        ensures { result.now ≡ memory_bytes self.now }
    {
        &self.bytes
    }
}

// Puts other bytes in the place of those that are there, which it keeps.
fn replace(
    alloc: Global,
    bytes: &mut Vec<u8>,
    past: &mut Vec<Vec<u8>>,
    next: Vec<u8>,
) -> Result<(), AllocError>
    ensures ok { OnOk result (bytes.new.items ≡ next.items) }
    ensures err { OnErr result (bytes.new.items ≡ bytes.old.items) }
    ensures past { OnOk result
        ((v : _) × (v.items ≡ bytes.old.items) × (past.new.items ≡ past.old.items ++ v ∷ [])) }
    ensures past_err { OnErr result (past.new.items ≡ past.old.items) }
{
    past.push(bytes.to_vec(alloc)?)?;
    *bytes = next;
    Ok(())
}

impl Device for MemoryDevice {
    ghost seen = { λ m. m.bytes.items };

    ghost may_leave = { λ m c. c ≡ m.bytes.items };

    ghost moment = { λ m. length m.past.items };

    ghost left_since = { λ m t c. (c ≡ m.bytes.items) ⊎ HadBeen (drop t m.past.items) c };

    ghost has_failed = { λ m. ⊥ };

    ghost counts_now = { λ m t c le now. inl now };

    ghost only_now = { λ m c left. only_bytes m.past.items m.bytes.items c left };

    // A copy of the bytes.
    fn read(&mut self, alloc: Global) -> Result<Vec<u8>, DeviceFault> {
        Ok(self.bytes.to_vec(alloc)?)
    }

    // Writes at once, and adds the content before to `past`; fails only if memory is refused.
    fn write_at(&mut self, at: usize, bytes: &[u8]) -> Result<(), DeviceFault> {
        let next = overlaid(self.alloc, self.bytes.as_slice(), at, bytes)?;
        Ok(replace(self.alloc, &mut self.bytes, &mut self.past, next)?)
    }

    // Cuts at once, and adds the content before to `past`; fails only if memory is refused.
    fn cut(&mut self, kept: usize) -> Result<(), DeviceFault> {
        let next = self.bytes[..kept].to_vec(self.alloc)?;
        Ok(replace(self.alloc, &mut self.bytes, &mut self.past, next)?)
    }

    // Does nothing, since each call is done at once.
    fn sync(&mut self) -> Result<(), DeviceFault> {
        Ok(())
    }
}
