//! What is still to be written to a client.
ghost use Rattle.std.specs.Prelude.{◌≡◌, ℕ, ◌<◌, ◌≤◌, IfOk, OnOk, OnErr, MatchResult};
ghost use Rattle.std.specs.Prelude.{List, [], ◌++◌, length, drop, vec_len};
ghost use Rattle.std.specs.Io.KnownBytes.{Appends};

use crate::buffer::is_not_now;
use canary_base::error::Memory;
use canary_base::writing::WriteFault;
use std::alloc::Global;
use std::io::Write;

// Room for the reply to any request that is new: a head of some hundred bytes, and at most 32
// phases with a service after them.
const ROOM: usize = 1_024;

// The most memory that is kept once all is written: a long reply gives its memory back.
const MAX_KEPT: usize = 16_384;

// Bytes that are to be written, in order. As a writer it keeps what is written to it, and fails if
// there is no memory.
#[derive(Drop)]
pub(crate) struct WriteBuffer {
    bytes: Vec<u8>,
    sent: usize,
    ghost fits: { sent ≤ vec_len bytes },
    // Once all was sent, nothing of it is kept.
    ghost cleared: { sent ≡ vec_len bytes → sent ≡ 0 },
}

impl WriteBuffer {
    ghost use Rattle.canary_wire.specs.Unsent.{bytes_unsent, HasRoom};

    // Nothing, with room for the reply to a request.
    pub(crate) fn new(alloc: Global) -> Result<WriteBuffer, Memory>
        ensures { IfOk result (λ unsent. bytes_unsent unsent ≡ []) }
    {
        let bytes = Vec::with_capacity(alloc, ROOM)?;
        Ok(WriteBuffer { bytes, sent: 0 })
    }

    // Nothing is to be written any more; the room for the reply to a request stays.
    pub(crate) fn clear(&mut self)
        ensures { bytes_unsent self.new ≡ [] }
    {
        self.bytes.clear();
        self.bytes.shrink_to(MAX_KEPT);
        self.sent = 0;
    }

    // Takes room for the reply to a request after what is owed: none is taken if nothing is.
    pub(crate) fn make_room(&mut self) -> Result<(), Memory>
        ensures same { bytes_unsent self.new ≡ bytes_unsent self.old }
        ensures room { OnOk result (HasRoom self.new) }
    {
        Ok(self.bytes.reserve(ROOM)?)
    }

    // What is still to be written.
    pub(crate) fn as_slice(&self) -> &[u8]
        ensures { result.now ≡ bytes_unsent self.now }
    {
        &self.bytes[self.sent..]
    }

    // Writes once, if there is something: some of it, or nothing if the writer would block.
    pub(crate) fn write_to<W: Write>(&mut self, writer: &mut W) -> Result<(), WriteFault>
        ensures sent { (put : List ℕ) × (bytes_unsent self.old ≡ put ++ bytes_unsent self.new)
            × Appends (W.contents writer.old) (W.contents writer.new) put }
        ensures fault { OnErr result (0 < length (bytes_unsent self.new)) }
    {
        if self.as_slice().is_empty() {
            return Ok(());
        }
        match writer.write(self.as_slice()) {
            Ok(n) => self.go_on(n),
            Err(error) if is_not_now(error.kind()) => Ok(()),
            Err(_) => Err(WriteFault),
        }
    }

    // The writer took so many of what is owed: if it took none, it has failed.
    fn go_on(&mut self, n: usize) -> Result<(), WriteFault>
        requires some { 0 < length (bytes_unsent self.old) }
        requires within { n ≤ length (bytes_unsent self.old) }
        ensures rest { bytes_unsent self.new ≡ drop n (bytes_unsent self.old) }
        ensures took { MatchResult result (λ _. 0 < n) (λ _. n ≡ 0) }
        ensures fault { OnErr result (0 < length (bytes_unsent self.new)) }
    {
        if n == 0 {
            return Err(WriteFault);
        }
        if self.sent + n == self.bytes.len() {
            self.clear();
        } else {
            self.sent += n;
        }
        Ok(())
    }
}

impl Write for WriteBuffer {
    ghost use Rattle.std.specs.Prelude.{Some};
    ghost use Rattle.canary_wire.specs.Unsent.{bytes_unsent};

    ghost contents = { λ o. Some (bytes_unsent o) };

    // Adds the bytes after those that are still to be written; an error if memory is refused.
    fn write(&mut self, buf: &[u8]) -> std::io::Result<usize> {
        self.bytes.write(buf)
    }

    // Does nothing: `write_to` sends the bytes.
    fn flush(&mut self) -> std::io::Result<()> {
        Ok(())
    }
}
