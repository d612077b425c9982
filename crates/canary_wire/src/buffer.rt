//! The bytes of a stream that were read and not yet answered.
ghost use Rattle.std.specs.Prelude.{◌≡◌, ℕ, ◌+◌, ◌<◌, ◌≤◌, Ok, IfOk, OnErr};
ghost use Rattle.std.specs.Prelude.{List, [], ◌++◌, length, take, drop, vec_len};
ghost use Rattle.std.specs.Io.KnownBytes.{Consumes, IsAtEnd};

use canary_base::error::Memory;
use std::alloc::Global;
use std::io::{ErrorKind, Read};

// The room: a head of 16,384 bytes and a body of 65,536.
const ROOM: usize = 81_920;

// Why a read gave nothing.
#[derive(Clone, Copy)]
pub(crate) enum ReadFault {
    // Nothing can be read now, or the reader was interrupted.
    NotNow,
    // The reader failed.
    Failed,
}

// The bytes that were read and not yet taken.
#[derive(Drop)]
pub(crate) struct Buffer {
    bytes: Vec<u8>,
    start: usize,
    end: usize,
    ghost size: { vec_len bytes ≡ 81920 },
    ghost ordered: { start ≤ end },
    ghost fits: { end ≤ 81920 },
}

impl Buffer {
    ghost use Rattle.canary_wire.specs.Buffers.{bytes_held};
    ghost use Rattle.canary_wire.specs.Cut.{IsUnfinished};

    // An empty buffer, with all the room that it will ever need.
    pub(crate) fn new(alloc: Global) -> Result<Buffer, Memory>
        ensures { IfOk result (λ buffer. bytes_held buffer ≡ []) }
    {
        let bytes = vec![in alloc; 0u8; ROOM]?;
        Ok(Buffer {
            bytes,
            start: 0,
            end: 0,
        })
    }

    // The bytes that it holds.
    pub(crate) fn as_slice(&self) -> &[u8]
        ensures { result.now ≡ bytes_held self.now }
    {
        &self.bytes[self.start..self.end]
    }

    // Lets the first bytes go.
    pub(crate) fn consume(&mut self, count: usize)
        requires { count ≤ length (bytes_held self.old) }
        ensures { bytes_held self.new ≡ drop count (bytes_held self.old) }
    {
        self.start += count;
    }

    // Lets all bytes go.
    pub(crate) fn clear(&mut self)
        ensures { bytes_held self.new ≡ [] }
    {
        self.start = 0;
        self.end = 0;
    }

    // Reads more bytes after those that it holds, and says how many: none only at the end of the
    // input. It holds nothing then that can be answered: what is whole is answered before more is
    // waited for. On a fault nothing was read.
    pub(crate) fn fill<R: Read>(&mut self, reader: &mut R) -> Result<usize, ReadFault>
        requires { IsUnfinished (bytes_held self.old) }
        ensures more { IfOk result (λ n. (got : List ℕ)
            × (bytes_held self.new ≡ bytes_held self.old ++ got)
            × Consumes (R.remaining reader.old) (R.remaining reader.new) got × (length got ≡ n)) }
        ensures end { result ≡ Ok 0 → IsAtEnd (R.remaining reader.new) }
        ensures err { OnErr result ((bytes_held self.new ≡ bytes_held self.old)
            × Consumes (R.remaining reader.old) (R.remaining reader.new) []) }
    {
        self.compact();
        self.read_behind(reader)
    }

    // The same if there is room after the bytes that it holds.
    fn read_behind<R: Read>(&mut self, reader: &mut R) -> Result<usize, ReadFault>
        requires unfinished { IsUnfinished (bytes_held self.old) }
        requires room { self.old.end < 81920 }
        ensures more { IfOk result (λ n. (got : List ℕ)
            × (bytes_held self.new ≡ bytes_held self.old ++ got)
            × Consumes (R.remaining reader.old) (R.remaining reader.new) got × (length got ≡ n)) }
        ensures end { result ≡ Ok 0 → IsAtEnd (R.remaining reader.new) }
        ensures err { OnErr result ((bytes_held self.new ≡ bytes_held self.old)
            × Consumes (R.remaining reader.old) (R.remaining reader.new) []) }
    {
        match read_at(reader, &mut self.bytes, self.end) {
            Ok(n) => {
                self.end += n;
                Ok(n)
            }
            Err(fault) => Err(fault),
        }
    }

    // Makes room after the bytes that it holds.
    fn compact(&mut self)
        requires { length (bytes_held self.old) < 81920 }
        ensures kept { bytes_held self.new ≡ bytes_held self.old }
        ensures room { self.new.end < 81920 }
    {
        if self.end < ROOM {
            return;
        }
        self.bytes.rotate_left(self.start);
        self.end -= self.start;
        self.start = 0;
    }
}

// Reads into the bytes from a place on.
fn read_at<R: Read>(reader: &mut R, bytes: &mut [u8], at: usize) -> Result<usize, ReadFault>
    requires { at < length bytes.old }
    ensures within { IfOk result (λ n. at + n ≤ length bytes.old) }
    ensures more { IfOk result (λ n. (got : List ℕ) × (rest : List ℕ)
        × (bytes.new ≡ take at bytes.old ++ (got ++ rest))
        × Consumes (R.remaining reader.old) (R.remaining reader.new) got × (length got ≡ n)) }
    ensures end { result ≡ Ok 0 → IsAtEnd (R.remaining reader.new) }
    ensures err { OnErr result ((rest : List ℕ) × (bytes.new ≡ take at bytes.old ++ rest)
        × Consumes (R.remaining reader.old) (R.remaining reader.new) []) }
{
    match reader.read(&mut bytes[at..]) {
        Ok(n) => Ok(n),
        Err(error) if is_not_now(error.kind()) => Err(ReadFault::NotNow),
        Err(_) => Err(ReadFault::Failed),
    }
}

// Whether an error of a reader or a writer says no more than that it is to be asked again later.
pub(crate) fn is_not_now(kind: ErrorKind) -> bool {
    kind == ErrorKind::WouldBlock || kind == ErrorKind::Interrupted
}
