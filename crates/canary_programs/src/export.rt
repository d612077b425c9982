//! A service's measurements as a file.
ghost use Rattle.std.specs.Prelude.{◌≡◌, ◌≢◌, ◌≤◌, length, None, Err, IfOk, IfErr, OnOk};
ghost use Rattle.std.specs.FinMap.{get};
ghost use Rattle.canary_once.specs.BookCalls.{Stays};
ghost use Rattle.canary_files.specs.Exporting.{file_in, recorded_of, Puts};
ghost use Rattle.canary_programs.specs.declared.fault.Fault.TheVariants as fault;
ghost use Rattle.canary_programs.specs.Programs.{TellsExport};

use crate::fault::Fault;
use canary_base::names::Name;
use canary_files::export::MAX_ROWS;
use canary_once::book::Book;
use std::alloc::Global;
use std::io::Write;

/// Writes the measurements of a service in a book, as `canary_files` does. The book is unchanged.
///
/// # Errors
/// `UnknownService`, `TooMany`, `Write`, `Memory` and `Storage`, each if `canary_files` answers
/// the same.
pub fn export_rows<W: Write, B: Book>(
    alloc: Global,
    book: &mut B,
    service: Name,
    caller: Name,
    out: &mut W,
) -> Result<u64, Fault>
    ensures kept { Stays (B.state book.old) (B.state book.new) }
    ensures file { (B.state book.new).is_honest
        → Puts (W.contents out.old) (W.contents out.new)
        (file_in (B.state book.old).contents service caller) result }
    ensures rows { (B.state book.new).is_honest → IfOk result (λ rows.
        (rows ≡ length (recorded_of (B.state book.old).contents service))
        × (rows ≤ MAX_ROWS)) }
    ensures why { (B.state book.new).is_honest
        → IfErr result (TellsExport (B.state book.old).contents service) }
    ensures there { (B.state book.new).is_honest
        → OnOk result (get (B.state book.old).contents.desk.services service ≢ None) }
    ensures unknown { (B.state book.new).is_honest → result ≡ Err fault.UnknownService
        → out.new ≡ out.old }
    ensures name { result ≢ Err fault.BadName }
{
    match canary_files::export::export(alloc, book, service, caller, out) {
        Ok(rows) => Ok(rows),
        Err(fault) => Err(fault.into()),
    }
}
