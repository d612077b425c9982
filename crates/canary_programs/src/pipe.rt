//! A stream answered over a book.
ghost use Rattle.std.specs.Prelude.{◌≡◌, Err};
ghost use Rattle.canary_once.specs.BookCalls.{StaysInMemory};
ghost use Rattle.canary_once.specs.Contents.{KeepsReceipts};
ghost use Rattle.canary_once.specs.Messages.{desk_state};
ghost use Rattle.canary_programs.specs.declared.fault.Fault.TheVariants as fault;
ghost use Rattle.canary_programs.specs.Programs.{AnswersSo};

use crate::fault::{Fault, done_of};
use canary_once::book::Book;
use canary_once::clock::Clock;
use std::alloc::Global;
use std::io::{Read, Write};

/// Answers HTTP from `input` on `output` over a book, to the end of the stream.
///
/// # Errors
/// `Truncated` if the input ended in the midst of a message, `TurnsSpent` if it went on after
/// the most reads, `Read` if it failed, `Write` if the output did, and `Memory` if there
/// was none to begin with.
pub fn answer<R: Read, W: Write, C: Clock, B: Book>(
    alloc: Global,
    input: &mut R,
    output: &mut W,
    clock: &mut C,
    book: &mut B,
) -> Result<(), Fault>
    ensures served { AnswersSo (R.remaining input.old) (R.remaining input.new)
        (W.contents output.old) (W.contents output.new)
        (desk_state (C.tells clock.old) (B.state book.old))
        (desk_state (C.tells clock.new) (B.state book.new)) result }
    ensures memory { result ≡ Err fault.Memory → (input.new ≡ input.old)
        × (output.new ≡ output.old) × (clock.new ≡ clock.old) × (book.new ≡ book.old) }
    ensures honest { (B.state book.new).is_honest → (B.state book.old).is_honest }
    ensures in_memory { StaysInMemory (B.state book.old) (B.state book.new) }
    ensures sure { (B.state book.new).is_sure ≡ (B.state book.old).is_sure }
    ensures receipts { (B.state book.new).is_honest
        → KeepsReceipts (B.state book.old).contents (B.state book.new).contents }
{
    done_of(canary_wire::serve::serve(alloc, input, output, clock, book))
}
