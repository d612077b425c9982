//! `import`: the rows of a measurement file as requests.
use crate::open::DeskFile;
use crate::progress::{Counted, ProgressDisplay};
use crate::tables::DeskBook;
use crate::work::{Work, with_desk_file};
use canary_backup::series::is_folder;
use canary_listen::wall_clock::WallClock;
use canary_once::book::Book;
use canary_programs::fault::Fault;
use canary_programs::import::import_rows;
use std::fs::{self, OpenFile};
use std::io::{ErrorKind, Read, Write};

// The word that stands for the input.
const INPUT: &str = "-";

// A measurement file that is imported, of so many bytes if that is known.
#[derive(Drop)]
struct Importing<R, W> {
    whole: Option<u64>,
    source: R,
    output: W,
}

impl<R: Read, W: Write> Work for Importing<R, W> {
    ghost use Rattle.std.specs.Prelude.{true, false};

    ghost knows_names = { λ _. false };

    ghost may_settle = { λ _. true };

    ghost shows_made = { λ _. true };

    // True: each row may be settled.
    fn settles(&self) -> bool {
        true
    }

    // True: rows are seldom the first that a desk is given.
    fn shows_made_file(&self) -> bool {
        true
    }

    // Imports the rows into this book.
    fn run<B: DeskBook, F: Write>(
        &mut self,
        rt: &HostRuntime,
        book: &mut B,
        errors: &mut F,
        is_terminal: bool,
    ) -> Result<(), Fault> {
        let shown = ProgressDisplay::bytes(rt, errors, is_terminal, self.whole);
        import_shown(rt, book, &mut self.source, &mut self.output, shown)
    }
}

/// Imports a measurement file into the book of a file, by the machine's clock, and writes each
/// row's line as it goes. The file `csv` is the input if that is `-`. How many bytes are read is
/// shown on standard error.
///
/// # Errors
/// `File` if the measurement file cannot be opened, or is a folder: the book is not opened then.
/// What `with_desk_file` and canary_programs' `import_rows` answer. `Storage` if the book's file
/// fails as it is closed; what was settled is settled.
pub(crate) fn import<R: Read + Drop, W: Write + Drop, F: Write>(
    rt: &HostRuntime,
    file: DeskFile<'_>,
    csv: &str,
    input: R,
    output: W,
    errors: &mut F,
    is_terminal: bool,
) -> Result<(), Fault> {
    if csv == INPUT {
        return import_from(rt, file, input, None, output, errors, is_terminal);
    }
    let rows = opened(rt, csv)?;
    let whole = length_of(&rows);
    import_from(rt, file, rows, whole, output, errors, is_terminal)
}

// The same of this measurement file, of so many bytes if that is known.
fn import_from<R: Read + Drop, W: Write + Drop, F: Write>(
    rt: &HostRuntime,
    file: DeskFile<'_>,
    source: R,
    whole: Option<u64>,
    output: W,
    errors: &mut F,
    is_terminal: bool,
) -> Result<(), Fault> {
    let mut work = Importing {
        whole,
        source,
        output,
    };
    with_desk_file(rt, file, &mut work, errors, is_terminal)
}

// The measurement file of this name, opened. A folder is refused: to open one succeeds, and nothing
// can be read of it.
fn opened(rt: &HostRuntime, csv: &str) -> Result<fs::File, Fault> {
    if is_folder(rt, csv) {
        return Err(Fault::File);
    }
    match fs::File::open(rt, csv) {
        Ok(rows) => Ok(rows),
        Err(error) => Err(file_fault(error.kind())),
    }
}

// How many bytes a file has, if that is known: a FIFO and a device have as many as come.
fn length_of<O: OpenFile>(file: &O) -> Option<u64> {
    match file.metadata() {
        Ok(found) if found.is_file() => Some(found.len()),
        _ => None,
    }
}

// Why a measurement file was not opened.
fn file_fault(kind: ErrorKind) -> Fault {
    if kind == ErrorKind::OutOfMemory {
        Fault::Memory
    } else {
        Fault::File
    }
}

// Imports a measurement file by the machine's clock, and shows how much of it is read.
fn import_shown<B: Book, R: Read + Drop, W: Write, F: Write>(
    rt: &HostRuntime,
    book: &mut B,
    source: R,
    output: &mut W,
    shown: ProgressDisplay<'_, F>,
) -> Result<(), Fault> {
    let mut clock = WallClock::new(rt);
    let mut read = Counted { source, shown };
    let imported = import_rows(rt.alloc(), &mut read, output, &mut clock, book);
    read.shown.end();
    imported?;
    Ok(())
}
