//! What a service went through.
ghost use Rattle.std.specs.Prelude.{◌≢◌, Err};
ghost use Rattle.canary_once.specs.BookCalls.{Stays};
ghost use Rattle.canary_programs.specs.Programs.{FindsHistory, TellsHistory};
ghost use Rattle.canary_programs.specs.declared.fault.Fault.TheVariants as fault;

use crate::fault::Fault;
use crate::show::show;
use canary_base::lists::Listed;
use canary_base::names::Name;
use canary_files::history::history_text;
use canary_once::book::Book;
use canary_plan::line::Line;
use std::alloc::Global;
use std::io::Write;

/// Writes the history of a service, which is stored in a book. The book is unchanged.
///
/// # Errors
/// `UnknownService` if there is no such service, `Memory` if an allocation was refused,
/// `Storage` if the store failed: nothing is written. `Write` if the output failed.
pub fn write_history<W: Write, B: Book>(
    alloc: Global,
    book: &mut B,
    service: Name,
    output: &mut W,
) -> Result<(), Fault>
    ensures stays { Stays (B.state book.old) (B.state book.new) }
    ensures told { (B.state book.new).is_honest
        → TellsHistory (B.state book.old).contents service
        (W.contents output.old) (W.contents output.new) result }
    ensures name { result ≢ Err fault.BadName }
{
    let lines = lines_of(book, service)?;
    let mut text = String::new(alloc);
    history_text(lines.as_slice(), &mut text)?;
    show(text.as_str(), output)
}

// The lines of a service's history.
fn lines_of<B: Book>(book: &mut B, service: Name) -> Result<Listed<Line>, Fault>
    ensures stays { Stays (B.state book.old) (B.state book.new) }
    ensures found { (B.state book.new).is_honest
        → FindsHistory (B.state book.old).contents service result }
    ensures name { result ≢ Err fault.BadName }
{
    if book.service(&service)?.is_none() {
        return Err(Fault::UnknownService);
    }
    Ok(book.history(&service)?)
}
