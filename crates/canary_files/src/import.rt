//! Importing measurement files.
ghost use Rattle.std.specs.Prelude.{◌≡◌, ◌≢◌, ◌≤◌, ◌∷◌, [], Ok, Err, IfOk};
ghost use Rattle.canary_base.specs.Writes.{Known};
ghost use Rattle.canary_once.specs.Messages.{desk_state};
ghost use Rattle.canary_files.specs.Rows.{header};
ghost use Rattle.canary_files.specs.Taking.{HasTaken, taken_of, spare_of};
ghost use Rattle.canary_files.specs.Importing.{ImportsTo, KeepsBook};

use crate::answer::answer_row;
use crate::bounded::Limited;
use crate::reading::{FileReader, has_begun, next_record};
use crate::row::is_header;
use canary_once::book::Book;
use canary_once::clock::Clock;
use canary_once::laws::running_on;
use csv::ByteRecord;
use std::alloc::Global;
use std::io::{Read, Write};
use thiserror::Error;

/// The most rows of one file.
pub const MAX_ROWS: u64 = 1_000_000;

/// Why a file was not imported to its end.
#[derive(Clone, Copy, Debug, PartialEq, Eq, Error)]
pub enum ImportFault {
    /// The reader failed.
    #[error("the input could not be read")]
    Read,
    /// The writer failed, or took no byte.
    #[error("the output could not be written")]
    Write,
    /// An allocation was refused.
    #[error("out of memory")]
    Memory,
    /// The first record is not the header.
    #[error("the first record is not the header")]
    Header,
    /// The file has more than 1,000,000 rows, or 1,000,000,000 bytes or more.
    #[error("the file has too many rows")]
    RowsSpent,
}

/// Imports a measurement file, and answers how many rows it has.
///
/// The file is CSV (RFC 4180) as `csv` reads it. Its first record is `caller`, `number`, `service`,
/// `run`, `metric`, `ordinal`, `taken`, `result` and `failure`; each other one is a row: the
/// request of this caller, under this number, to record one measurement. One of `result` and
/// `failure` is empty. A result is a number or a list as `[1;2;3]`. Numbers are decimal, without
/// leading zeros. Row after row is read, the clock is asked once, the register is asked if the row
/// is such a request, and its line is written before more is looked at: the number of the row from
/// 1 on, the status, and the body, with a space between them and LF after them. A row is refused
/// with status 400 as `unreadable` if it has not nine fields, then as `bad-name` for its caller, as
/// `bad-number` for its number, and as `unreadable` for anything else; if memory runs out as it is
/// read, its status is 503. A file without any record has no rows, nor has one of which a record
/// was taken before: nothing is read of it.
///
/// # Errors
/// `Header` if the first record is another: nothing was asked and written. `Read` if the reader
/// failed before the most bytes were read, `Memory` if there was none for the next record, and
/// `RowsSpent` if a row follows the 1,000,000th, or if the reader gave 1,000,000,000 bytes and more
/// were needed: each row that was taken before is answered, and its line written. `Write` if the
/// writer failed or took no byte: what was written are the lines of the rows that were answered, up
/// to the midst of the last one; if that row was a new request, and not answered 503, it is
/// settled.
pub fn import<S: Read + Limited, W: Write, C: Clock, B: Book>(
    alloc: Global,
    file: &mut FileReader<S>,
    output: &mut W,
    clock: &mut C,
    book: &mut B,
) -> Result<u64, ImportFault>
    ensures rows { (bytes : Known) → HasTaken S.remaining bytes file.old []
        → ImportsTo bytes (taken_of file.new) (spare_of S.spare file.new)
        (W.contents output.old) (W.contents output.new)
        (desk_state (C.tells clock.old) (B.state book.old))
        (desk_state (C.tells clock.new) (B.state book.new)) result }
    ensures once { taken_of file.old ≢ 0 → (result ≡ Ok 0) × (file.new ≡ file.old)
        × (output.new ≡ output.old) × (clock.new ≡ clock.old) × (book.new ≡ book.old) }
    ensures limit { IfOk result (λ rows. rows ≤ MAX_ROWS) }
    ensures header { result ≡ Err ImportFault.Header → (output.new ≡ output.old)
        × (clock.new ≡ clock.old) × (book.new ≡ book.old) }
    ensures kept { KeepsBook (B.state book.old) (B.state book.new) }
{
    running_on();
    if has_begun(file) {
        return Ok(0);
    }
    let mut fields = ByteRecord::new(alloc);
    match next_record(file, &mut fields) {
        Ok(true) => {}
        Ok(false) => return Ok(0),
        Err(fault) => return Err(fault),
    }
    if !is_header(&fields) {
        return Err(ImportFault::Header);
    }
    import_rows(alloc, file, &mut fields, output, clock, book)
}

// Answers the rows of a file after its header.
fn import_rows<S: Read + Limited, W: Write, C: Clock, B: Book>(
    alloc: Global,
    file: &mut FileReader<S>,
    fields: &mut ByteRecord,
    output: &mut W,
    clock: &mut C,
    book: &mut B,
) -> Result<u64, ImportFault>
    requires { taken_of file.old ≡ 1 }
    ensures rows { (bytes : Known) → HasTaken S.remaining bytes file.old (header ∷ [])
        → ImportsTo bytes (taken_of file.new) (spare_of S.spare file.new)
        (W.contents output.old) (W.contents output.new)
        (desk_state (C.tells clock.old) (B.state book.old))
        (desk_state (C.tells clock.new) (B.state book.new)) result }
    ensures limit { IfOk result (λ rows. rows ≤ MAX_ROWS) }
    ensures headed { result ≢ Err ImportFault.Header }
    ensures kept { KeepsBook (B.state book.old) (B.state book.new) }
{
    running_on();
    'rows: for done in 0..MAX_ROWS {
        match next_record(file, fields) {
            Ok(true) => {}
            Ok(false) => return Ok(done),
            Err(fault) => return Err(fault),
        }
        if let Err(_) = answer_row(alloc, done + 1, fields, output, clock, book) {
            return Err(ImportFault::Write);
        }
    }
    match next_record(file, fields) {
        Ok(true) => Err(ImportFault::RowsSpent),
        Ok(false) => Ok(MAX_ROWS),
        Err(fault) => Err(fault),
    }
}
