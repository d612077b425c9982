//! `succeed`: a new file, in which a desk goes on that has grown for years.
use crate::checking::CheckDisplay;
use crate::named::bytes_of;
use crate::open::{DeskFile, fault_of, find, has_other_bytes, is_blank};
use crate::progress::ProgressDisplay;
use crate::tables::{DeskBook, Listing};
use crate::work::{Work, with_desk_file};
use canary_backup::copying::StagedCopy;
use canary_base::error::Memory;
use canary_base::names::Name;
use canary_listen::wall_clock::WallClock;
use canary_once::book::Book;
use canary_programs::fault::Fault;
use canary_programs::succession::succeed as succeed_in;
use canary_tables::book::TableBook;
use canary_tables_file::connect::connect;
use canary_tables_file::reading::ReadingProgress;
use canary_tables_read::fault::ReadFault;
use canary_tables_read::lists::{RevisionKey, revision_keys};
use canary_tables_schema::recognize::is_desk;
use sqlite::{Alter, Connection, Error, ErrorCode, Unknown};
use std::alloc::Global;
use std::io::Write;

// A desk that goes on in another file: its book, and the names of its templates and of its
// services, each in their order.
#[derive(Drop)]
struct Succession<A> {
    old: A,
    templates: Vec<Name>,
    services: Vec<Name>,
}

impl<A: Book> Work for Succession<A> {
    ghost use Rattle.std.specs.Prelude.{true, false};

    ghost knows_names = { λ _. false };

    ghost may_settle = { λ _. true };

    ghost shows_made = { λ _. false };

    // True: it settles all requests of the new desk.
    fn settles(&self) -> bool {
        true
    }

    // False: that it makes the file is what was asked.
    fn shows_made_file(&self) -> bool {
        false
    }

    // Makes the new desk in this book, by requests at the present moment by the machine's clock.
    fn run<B: DeskBook, F: Write>(
        &mut self,
        rt: &HostRuntime,
        book: &mut B,
        _errors: &mut F,
        _is_terminal: bool,
    ) -> Result<(), Fault> {
        let now = WallClock::new(rt).tell();
        let (templates, services) = (self.templates.as_slice(), self.services.as_slice());
        succeed_in(rt.alloc(), &mut self.old, templates, services, now, book)
    }
}

/// Makes the file `new` of a desk that goes on where that of `old` stands, and writes `succeeded`:
/// the newest revision of each template, as its revision 1, and each service, done at its stable
/// version, with the strategy that it has. It keeps no receipt, no run and no history. The rows of
/// `old` are judged first, which is shown on standard error. It is not changed, and nobody else
/// can open it until `new` has its name. The new file is made in a folder beside `new` that its
/// owner alone may read, by requests of the caller `succeed` at the present moment, and has its
/// name once it is whole and on the disk.
///
/// # Errors
/// `File` if there is no file `old`, if `new` or `new`-wal is there already, or is a name that a
/// desk uses for `old`, or if no file can be made of that name; `InUse` if another program has
/// `old` open; `OtherSchema` if it is not of this version, as one without bytes; `BrokenRow` if its
/// rows are not those that a desk leaves; `InProgress` if a release of a service is going on at the
/// present moment; `Memory` if an allocation was refused; `Storage` if no database can have the
/// name `new`, if `old` cannot be opened to be read and written, has another hard link or a
/// rollback journal beside it, is not a file or a database, or if either fails; `LogAlone` if `old`
/// has no bytes, and its log has a frame. There is no file `new` then. `Write` if the output
/// failed: `new` is there then.
pub(crate) fn succeed<W: Write, F: Write>(
    rt: &HostRuntime,
    old: &str,
    new: &str,
    output: &mut W,
    errors: &mut F,
    is_terminal: bool,
) -> Result<(), Fault> {
    look_at_both(rt, old, new)?;
    let part = StagedCopy::empty(rt, old, new)?;
    let made = make(rt, old, &part, errors, is_terminal);
    if made.is_err() {
        part.remove(rt);
    }
    made?;
    match output
        .write_all(b"succeeded\n")
        .and_then(|()| output.flush())
    {
        Ok(()) => Ok(()),
        Err(_) => Err(Fault::Write),
    }
}

// Looks whether there is a file `old` that can be a desk's, and whether one can have the name
// `new`.
fn look_at_both(rt: &HostRuntime, old: &str, new: &str) -> Result<(), Fault> {
    find(rt, old)?;
    if new == ":memory:" || new.starts_with("file:") || has_other_bytes(rt, old)? {
        return Err(Fault::Storage);
    }
    if is_blank(rt, old)? {
        return Err(Fault::OtherSchema);
    }
    Ok(())
}

// Makes the new desk in a part, and gives it its name while the file of the old one is open.
fn make<F: Write>(
    rt: &HostRuntime,
    old: &str,
    part: &StagedCopy,
    errors: &mut F,
    is_terminal: bool,
) -> Result<(), Fault> {
    let check = CheckDisplay::begun(rt, bytes_of(rt, old), is_terminal);
    let opened = connect(rt, old, check.again(), Unknown);
    check.end();
    make_of(rt, old, opened, part, errors, is_terminal)
}

// Why the file of the old desk could not be opened.
fn unopened(error: Error) -> Fault {
    match error {
        Error::SqliteFailure(ErrorCode::DatabaseBusy) => Fault::InUse,
        Error::SqliteFailure(ErrorCode::OutOfMemory) => Fault::Memory,
        _ => Fault::Storage,
    }
}

// Makes the new desk from a connection to the file of this name, if it was opened, which is closed
// once the new file has its name.
fn make_of<S: Alter + Drop, F: Write>(
    rt: &HostRuntime,
    file: &str,
    opened: Result<Connection<S>, Error>,
    part: &StagedCopy,
    errors: &mut F,
    is_terminal: bool,
) -> Result<(), Fault> {
    let mut conn = match opened {
        Ok(conn) => conn,
        Err(error) => return Err(unopened(error)),
    };
    let templates = template_names(rt.alloc(), &mut conn)?;
    let mut old = adopted(rt, file, conn, errors, is_terminal)?;
    let services = old.names()?;
    let mut work = Succession {
        old,
        templates,
        services,
    };
    let new = DeskFile::named(part.database());
    with_desk_file(rt, new, &mut work, errors, is_terminal)?;
    Ok(part.name(rt)?)
}

// The names of all templates in a desk's tables, in order: of each, the first revision has it.
fn template_names<S: Alter>(alloc: Global, conn: &mut Connection<S>) -> Result<Vec<Name>, Fault> {
    if !conn.is_autocommit() {
        return Err(Fault::Storage);
    }
    if !is_desk(conn.schema()) {
        return Err(Fault::OtherSchema);
    }
    match revision_keys(conn, alloc) {
        Ok(keys) => Ok(first_names(alloc, keys.as_slice())?),
        Err(ReadFault::Memory) => Err(Fault::Memory),
        Err(ReadFault::Storage) => Err(Fault::Storage),
        Err(ReadFault::Broken) => Err(Fault::BrokenRow),
    }
}

// The names of revisions 1, which each template has once, sorted; or `Memory`.
fn first_names(alloc: Global, keys: &[RevisionKey]) -> Result<Vec<Name>, Memory> {
    let mut names = Vec::new(alloc);
    for key in keys {
        if key.revision == 1 {
            names.push(key.name)?;
        }
    }
    names.sort()?;
    Ok(names)
}

// The book of the old desk in the file of this name, whose rows are judged.
fn adopted<S: Alter + Drop, F: Write>(
    rt: &HostRuntime,
    file: &str,
    conn: Connection<S>,
    errors: &mut F,
    is_terminal: bool,
) -> Result<TableBook<S>, Fault> {
    let bytes = bytes_of(rt, file);
    let check = CheckDisplay::silent(rt);
    let mut shown = ProgressDisplay::judging(rt, errors, is_terminal, bytes, &check);
    let adopted = TableBook::adopt(rt.alloc(), conn, &mut shown);
    shown.end();
    match adopted {
        Ok(book) => Ok(book),
        Err((fault, _left)) => Err(fault_of(fault)),
    }
}
