//! The bytes of a connection that came and were not read yet.
ghost use Rattle.std.specs.Prelude.{◌≡◌, ◌≤◌, ◌++◌, OnOk, IfErr, [], drop, length, vec_len};

use crate::fault::ExchangeFault;
use std::alloc::Global;

// The bytes that came, and how many of them were read.
#[derive(Drop)]
pub(crate) struct Unread {
    bytes: Vec<u8>,
    start: usize,
    ghost ordered: { start ≤ vec_len bytes },
}

impl Unread {
    ghost use Rattle.canary_fetch.specs.Unreads.{bytes_unread};

    // None.
    pub(crate) fn new(alloc: Global) -> Unread
        ensures { bytes_unread result ≡ [] }
    {
        Unread {
            bytes: Vec::new(alloc),
            start: 0,
        }
    }

    // The bytes that were not read yet.
    pub(crate) fn as_slice(&self) -> &[u8]
        ensures { result.now ≡ bytes_unread self.now }
    {
        &self.bytes[self.start..]
    }

    // The first bytes were read.
    pub(crate) fn read(&mut self, count: usize)
        requires { count ≤ length (bytes_unread self.old) }
        ensures { bytes_unread self.new ≡ drop count (bytes_unread self.old) }
    {
        self.start += count;
    }

    // More bytes came.
    pub(crate) fn add(&mut self, bytes: &[u8]) -> Result<(), ExchangeFault>
        ensures ok { OnOk result (bytes_unread self.new ≡ bytes_unread self.old ++ bytes.now) }
        ensures err { IfErr result (λ fault. fault ≡ ExchangeFault.Memory) }
    {
        self.forget();
        match self.bytes.extend_from_slice(bytes) {
            Ok(()) => Ok(()),
            Err(_) => Err(ExchangeFault::Memory),
        }
    }

    // Forgets those that were read.
    fn forget(&mut self)
        ensures same { bytes_unread self.new ≡ bytes_unread self.old }
        ensures start { self.new.start ≡ 0 }
    {
        let left = self.bytes.len() - self.start;
        self.bytes.rotate_left(self.start);
        self.bytes.truncate(left);
        self.start = 0;
    }
}
