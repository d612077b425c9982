//! The most bytes of a file.
ghost use Rattle.std.specs.Prelude.{◌≡◌, ◌-◌, ◌==◌, ℕ, IsErr, IfOk, OnErr};
ghost use Rattle.std.specs.Io.{ReadsAtMost};
ghost use Rattle.std.specs.Io.KnownBytes.{ReadConsumes};

use std::io;
use std::io::{ErrorKind, Read};

/// Once so many bytes of a file were read, no more are asked for.
pub const MAX_BYTES: u64 = 1_000_000_000;

/// A reader of which so many bytes at most are asked for.
pub trait Limited {
    /// How many more.
    ghost spare: { Self → ℕ };

    /// Whether there are none.
    fn is_spent(&self) -> bool
        ensures { result ≡ (spare self.now == 0) };
}

/// A reader that fails if so many bytes were read and more are asked for, so that a record that
/// never ends takes no more memory than that.
#[derive(Drop)]
pub struct Bounded<R> {
    /// The reader.
    pub source: R,
    /// How many bytes are asked for at most.
    pub left: u64,
}

impl<R: Read> Read for Bounded<R> {
    ghost remaining = { λ b. R.remaining b.source };

    // Reads from the source, and counts what came. It fails once the most bytes were read.
    fn read(&mut self, buf: &mut [u8]) -> io::Result<usize>
        ensures bound { ReadsAtMost result buf.new }
        ensures bytes { ReadConsumes (R.remaining self.old.source) (R.remaining self.new.source)
            result buf.new }
        ensures spent { self.old.left ≡ 0 → IsErr result }
        ensures fewer { IfOk result (λ count. self.new.left ≡ self.old.left - count) }
        ensures kept { OnErr result (self.new.left ≡ self.old.left) }
    {
        if self.left == 0 {
            return Err(ErrorKind::FileTooLarge.into());
        }
        let count = self.source.read(buf)?;
        self.left = self.left.saturating_sub(count as u64);
        Ok(count)
    }
}

impl<R: Read> Limited for Bounded<R> {
    ghost use Rattle.canary_files.specs.Taking.{left_of};

    ghost spare = { left_of };

    // Whether the most bytes were read, so that the next read fails.
    fn is_spent(&self) -> bool {
        self.left == 0
    }
}
