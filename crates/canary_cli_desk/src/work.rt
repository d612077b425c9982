//! Work on the book in a file, from its opening to its end. The type of such a book is named in
//! `with_desk_file` alone, since each function that names it takes the prover half a minute.
ghost use Rattle.std.specs.Prelude.{◌≡◌, ◌≢◌, Err, true};
ghost use Rattle.canary_programs.specs.declared.fault.Fault.TheVariants as fault;

use crate::checking::CheckDisplay;
use crate::open::{DeskFile, bytes_to_open, fault_of, is_missing};
use crate::progress::{ProgressDisplay, tell_made};
use crate::seat::Seat;
use crate::tables::{DeskBook, Listing};
use crate::watched::Watched;
use canary_backup::node::Node;
use canary_programs::fault::Fault;
use canary_tables::book::TableBook;
use canary_tables::fault::TableFault;
use sqlite::{Alter, Connection, FileStore};
use sqlite_disk::Disk;
use std::io::Write;

/// What is done with the book in a file.
pub(crate) trait Work {
    ghost use Rattle.std.specs.Prelude.{Bool};

    /// Whether all names in it were found valid before: then it never answers `BadName`.
    ghost knows_names: { Self → Bool };

    /// Whether it may settle requests.
    ghost may_settle: { Self → Bool };

    /// Whether a terminal shows that the file was made for it.
    ghost shows_made: { Self → Bool };

    /// Whether it may settle requests. The file is closed after such work, so that its log is
    /// copied into it.
    fn settles(&self) -> bool
        ensures { result ≡ Self.may_settle self.now };

    /// Whether a terminal shows that the file was made for it.
    fn shows_made_file(&self) -> bool
        ensures { result ≡ Self.shows_made self.now };

    /// Does it over this book. `errors` shows how far it has come.
    ///
    /// # Errors
    /// Those of the work.
    fn run<B: DeskBook, F: Write>(
        &mut self,
        rt: &HostRuntime,
        book: &mut B,
        errors: &mut F,
        is_terminal: bool,
    ) -> Result<(), Fault>
        ensures { Self.knows_names self.old ≡ true → result ≢ Err fault.BadName };
}

/// Opens the file of SQLite of this name as a desk's book, or makes it, and does this work on the
/// book. SQLite checks the file, and all its rows are judged before they are believed, both of
/// which are shown on the standard error of the process. No log is made beside a file that does not
/// begin as a database. The file is closed if the work may have settled requests.
///
/// # Errors
/// `InUse` if another program has it open; `Memory` if an allocation was refused; `Storage`
/// if it cannot be opened, is no file or no database, or fails, or if its path was given to another
/// file meanwhile; `LogAlone` if it is missing or has no bytes, and its log has a frame: nothing is
/// made or written then; `OtherSchema` if it has tables, indexes or views, and not just a desk's,
/// or its table meta lacks a desk's row; `BrokenRow` if its rows are not those that a desk leaves.
/// The work is not begun then. What the work answers; after `Replaced` nothing more is written to
/// the file or its log. `Storage` if the file fails as it is closed; what was settled is settled.
pub(crate) fn with_desk_file<K: Work, F: Write>(
    rt: &HostRuntime,
    file: DeskFile<'_>,
    work: &mut K,
    errors: &mut F,
    is_terminal: bool,
) -> Result<(), Fault>
    ensures { K.knows_names work.old ≡ true → result ≢ Err fault.BadName }
{
    let place = Place::of(rt, file);
    let bytes = bytes_to_open(rt, file.name)?;
    let check = CheckDisplay::begun(rt, bytes, is_terminal);
    let mut shown = ProgressDisplay::judging(rt, errors, is_terminal, bytes, &check);
    let opened = TableBook::open(rt, file.name, &check, &mut shown);
    shown.end();
    on_opened(rt, place, opened, work, errors, is_terminal)
}

// The file of a desk, and what stood at its path before it was opened.
#[derive(Clone, Copy)]
struct Place<'a> {
    file: DeskFile<'a>,
    is_missing: bool,
    node: Option<Node>,
}

impl<'a> Place<'a> {
    // What stands there now.
    fn of(rt: &HostRuntime, file: DeskFile<'a>) -> Place<'a> {
        Place {
            file,
            is_missing: is_missing(rt, file.name),
            node: Node::led_to(rt, file.name),
        }
    }
}

// Does this work on the book in a file, if it was opened, and closes the file if the work may have
// settled requests.
fn on_opened<D: Disk + Drop, K: Work, F: Write>(
    rt: &HostRuntime,
    place: Place<'_>,
    opened: Result<TableBook<FileStore<D>>, TableFault>,
    work: &mut K,
    errors: &mut F,
    is_terminal: bool,
) -> Result<(), Fault>
    ensures { K.knows_names work.old ≡ true → result ≢ Err fault.BadName }
{
    match opened {
        Ok(book) => {
            let book = book.with_room(place.file.room());
            end_with(on_placed(rt, place, book, work, errors, is_terminal))
        }
        Err(fault) => Err(fault_of(fault)),
    }
}

// Ends work on the book in a file: closes the connection that is left after it, if there is one.
fn end_with<D: Disk + Drop>(
    worked: (Result<(), Fault>, Option<Connection<FileStore<D>>>),
) -> Result<(), Fault>
    ensures { result ≡ Err fault.BadName → worked.0 ≡ Err fault.BadName }
{
    let (done, left) = worked;
    let Some(conn) = left else {
        return done;
    };
    let closed = conn.close();
    done?;
    closed.or(Err(Fault::Storage))
}

// Does this work on an open book, unless its path was given to another file meanwhile, and returns
// the connection if that is to be closed.
fn on_placed<S: Alter + Drop, K: Work, F: Write>(
    rt: &HostRuntime,
    place: Place<'_>,
    book: TableBook<S>,
    work: &mut K,
    errors: &mut F,
    is_terminal: bool,
) -> (Result<(), Fault>, Option<Connection<S>>)
    ensures { K.knows_names work.old ≡ true → result.0 ≢ Err fault.BadName }
{
    let seat = match Seat::taken(rt, place.file.name, place.node) {
        Ok(seat) => seat,
        Err(fault) => return (Err(fault), None),
    };
    if place.is_missing && work.shows_made_file() {
        tell_made(rt.alloc(), place.file.name, errors, is_terminal);
    }
    let settles = work.settles();
    let (done, book) = on_watched(rt, seat, book, work, errors, is_terminal);
    if !settles || matches!(done, Err(Fault::Replaced)) {
        return (done, None);
    }
    (done, Some(book.into_connection()))
}

// Does this work on a book, each call of which fails once its file is found lost, and returns the
// book. It knows no type of book: the prover is at its limit over that of a file.
fn on_watched<B: Listing + Drop, K: Work, F: Write>(
    rt: &HostRuntime,
    seat: Seat<'_>,
    book: B,
    work: &mut K,
    errors: &mut F,
    is_terminal: bool,
) -> (Result<(), Fault>, B)
    ensures { K.knows_names work.old ≡ true → result.0 ≢ Err fault.BadName }
{
    let mut watched = Watched::new(rt, seat, book);
    let done = work.run(rt, &mut watched, errors, is_terminal);
    (done, watched.into_book())
}
