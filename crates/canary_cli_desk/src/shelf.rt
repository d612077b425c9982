//! A folder with a file in JSON for each service of a desk.
use canary_backup::copying::Pair;
use canary_backup::draft::Draft;
use canary_backup::folder::is_within;
use canary_base::moments::Moment;
use canary_base::names::Name;
use canary_once::book::Book;
use canary_page::progress::DrawingProgress;
use canary_programs::drafts::end_draft;
use canary_programs::fault::Fault;
use canary_programs::page::{write_json, write_services};
use std::alloc::AllocError;
use std::fs;

// The file that lists the services. No service has its name, since no name has that sign.
const LIST: &str = "_services";

/// The folder, and the desk's own files, which are never written over.
#[derive(Clone, Copy)]
pub(crate) struct Shelf<'a> {
    pub(crate) folder: &'a str,
    pub(crate) desk: &'a Pair,
}

/// Looks whether there is a folder of this name, where all links lead, and the page `out` takes the
/// name of no file that may be written in it.
///
/// # Errors
/// `File` if there is no such folder, or `out` stands in it and ends with `.json`.
pub(crate) fn look_at_folder(rt: &HostRuntime, folder: &str, out: &str) -> Result<(), Fault> {
    match fs::metadata(rt, folder) {
        Ok(found) if found.is_dir() && !is_of_shelf(rt, folder, out) => Ok(()),
        _ => Err(Fault::File),
    }
}

// Whether a name ends as those of the files in JSON do, and stands in this folder.
fn is_of_shelf(rt: &HostRuntime, folder: &str, name: &str) -> bool {
    name.ends_with(".json") && is_within(rt, folder, name)
}

impl Shelf<'_> {
    // The name of a file in it.
    fn path(&self, rt: &HostRuntime, name: &str) -> Result<String, AllocError> {
        format!(in rt.alloc(); "{}/{name}.json", self.folder)
    }

    // Makes a draft of the file of this name.
    fn draft(&self, rt: &HostRuntime, path: &str) -> Result<Draft, Fault> {
        if self.desk.has_name(rt, path)? {
            return Err(Fault::File);
        }
        Ok(Draft::of(rt, path)?)
    }
}

/// Writes a file SERVICE.json for each of these services of a book, passed to a moment, and then
/// `_services.json`, the list of them. Each is written beside its name, to a file that its owner
/// alone may read, and renamed once it is whole and on the disk. Other files stay as they are.
///
/// # Errors
/// `File` if a name is one that a desk uses for its own files, if something other than a file
/// stands there, or if no file can be made there or be given the name; `Write`, `Memory` and
/// `Storage` as canary_page. The files before that one are whole and new, and those after it as
/// they were.
pub(crate) fn fill<B: Book, P: DrawingProgress>(
    rt: &HostRuntime,
    book: &mut B,
    names: &[Name],
    now: Moment,
    shelf: &Shelf<'_>,
    progress: &mut P,
) -> Result<(), Fault> {
    progress.begin(names.len() as u64);
    for name in names {
        put_service(rt, book, name, now, shelf)?;
        progress.drawn();
    }
    put_list(rt, book, names, now, shelf)
}

// Writes SERVICE.json of one service, under its name once it is complete.
fn put_service<B: Book>(
    rt: &HostRuntime,
    book: &mut B,
    name: &Name,
    now: Moment,
    shelf: &Shelf<'_>,
) -> Result<(), Fault> {
    let path = shelf.path(rt, name.as_str())?;
    let mut draft = shelf.draft(rt, path.as_str())?;
    let written = write_json(rt.alloc(), book, name, now, draft.file());
    end_draft(rt, &draft, written)
}

// Writes the list of these services, under its name once it is complete.
fn put_list<B: Book>(
    rt: &HostRuntime,
    book: &mut B,
    names: &[Name],
    now: Moment,
    shelf: &Shelf<'_>,
) -> Result<(), Fault> {
    let path = shelf.path(rt, LIST)?;
    let mut draft = shelf.draft(rt, path.as_str())?;
    let written = write_services(rt.alloc(), book, names, now, draft.file());
    end_draft(rt, &draft, written)
}
