//! The rows of a measurement file as requests.
ghost use Rattle.std.specs.Prelude.{◌≡◌, ◌≤◌, Err, IfOk};
ghost use Rattle.canary_once.specs.Messages.{desk_state};
ghost use Rattle.canary_files.specs.Importing.{KeepsBook};
ghost use Rattle.canary_programs.specs.declared.fault.Fault.TheVariants as fault;
ghost use Rattle.canary_programs.specs.Programs.{ImportsSo, imported};

use crate::fault::Fault;
use canary_files::import::{ImportFault, MAX_ROWS};
use canary_files::reading::file_reader;
use canary_once::book::Book;
use canary_once::clock::Clock;
use std::alloc::Global;
use std::io::{Read, Write};

/// Imports a measurement file into a book, as `canary_files` does.
///
/// # Errors
/// `Header`, `Read`, `Memory`, `RowsSpent` and `Write`, each if `canary_files` answers the same.
pub fn import_rows<R: Read, W: Write, C: Clock, B: Book>(
    alloc: Global,
    input: &mut R,
    output: &mut W,
    clock: &mut C,
    book: &mut B,
) -> Result<u64, Fault>
    ensures rows { ImportsSo (R.remaining input.old)
        (W.contents output.old) (W.contents output.new)
        (desk_state (C.tells clock.old) (B.state book.old))
        (desk_state (C.tells clock.new) (B.state book.new)) result }
    ensures limit { IfOk result (λ rows. rows ≤ MAX_ROWS) }
    ensures header { result ≡ Err fault.Header → (output.new ≡ output.old)
        × (clock.new ≡ clock.old) × (book.new ≡ book.old) }
    ensures kept { KeepsBook (B.state book.old) (B.state book.new) }
{
    let mut file = file_reader(alloc, input);
    imported(canary_files::import::import(alloc, &mut file, output, clock, book))
}

// How many rows were imported so, or the fault.
fn imported(done: Result<u64, ImportFault>) -> Result<u64, Fault>
    ensures { result ≡ imported done }
{
    match done {
        Ok(rows) => Ok(rows),
        Err(fault) => Err(fault.into()),
    }
}
