//! Looking at a desk in a file, also while it serves.
use crate::open::{DeskFile, find};
use crate::progress::ProgressDisplay;
use crate::shelf::{Shelf, fill};
use crate::tables::DeskBook;
use crate::work::{Work, with_desk_file};
use canary_backup::copying::Pair;
use canary_backup::folder::OwnCopy;
use canary_base::names::Name;
use canary_listen::wall_clock::WallClock;
use canary_once::book::Book;
use canary_page::page::View;
use canary_page::progress::DrawingProgress;
use canary_programs::fault::Fault;
use canary_programs::page::draw_page;
use canary_programs::status::{Drawing, StatusView, text_of_book};
use std::alloc::Global;
use std::io::Write;

/// What is shown of a desk, as it stands at the present moment.
#[derive(Clone, Copy)]
pub(crate) enum Sight<'a> {
    /// A table of its services, or a JSON value for each.
    Status(Drawing),
    /// A page, which loads itself anew after so many seconds, or does not, and the folder, if there
    /// is one, for a file in JSON of each service.
    Page {
        every: Option<u64>,
        shelf: Option<Shelf<'a>>,
    },
}

/// A look at a desk: a page goes to the output, and a status into the text.
#[derive(Drop)]
pub(crate) struct Look<'a, W> {
    sight: Sight<'a>,
    output: W,
    text: String,
    // Whether a desk may have the file open: a copy of it is read then.
    is_served: bool,
}

impl<'a, W: Write> Look<'a, W> {
    /// Of which nothing is shown yet.
    pub(crate) fn of(alloc: Global, sight: Sight<'a>, output: W) -> Look<'a, W> {
        Look {
            sight,
            output,
            text: String::new(alloc),
            is_served: false,
        }
    }

    /// The text of a status; empty of a page.
    pub(crate) fn text(&self) -> &str {
        self.text.as_str()
    }

    /// Has all that was written go out.
    ///
    /// # Errors
    /// `Write` if the output failed.
    pub(crate) fn flush(&mut self) -> Result<(), Fault> {
        match self.output.flush() {
            Ok(()) => Ok(()),
            Err(_) => Err(Fault::Write),
        }
    }
}

impl<W: Write> Work for Look<'_, W> {
    ghost use Rattle.std.specs.Prelude.{false};

    ghost knows_names = { λ _. false };

    ghost may_settle = { λ _. false };

    ghost shows_made = { λ _. false };

    // False: it reads alone.
    fn settles(&self) -> bool {
        false
    }

    // False: it makes no file.
    fn shows_made_file(&self) -> bool {
        false
    }

    // Shows the services of this book, by their names, at the present moment.
    fn run<B: DeskBook, F: Write>(
        &mut self,
        rt: &HostRuntime,
        book: &mut B,
        errors: &mut F,
        is_terminal: bool,
    ) -> Result<(), Fault> {
        let now = WallClock::new(rt).tell();
        match self.sight {
            Sight::Status(drawing) => {
                let (form, is_served) = (drawing.form, self.is_served);
                let view = StatusView {
                    now,
                    form,
                    is_served,
                };
                self.text = status_of(rt, book, &view)?;
                Ok(())
            }
            Sight::Page { every, shelf } => {
                let mut shown = ProgressDisplay::services(rt, errors, is_terminal);
                let is_served = self.is_served;
                let view = View {
                    now,
                    every,
                    is_served,
                };
                let drawn = page_of(rt, book, view, shelf, &mut self.output, &mut shown);
                shown.end();
                drawn
            }
        }
    }
}

/// Looks at the desk in a file, once. A page is written to the output meanwhile, part by part, and
/// standard error shows how far it has come; then the files of its services, as `fill` says. A
/// status is in the text then, to be drawn once the file is closed. The file is opened as
/// `with_desk_file` does it, and no row of it is changed. If a desk has it open, or this process
/// may not write it, a copy is read, which stands meanwhile where `OwnCopy` of canary_backup says,
/// in a folder that its owner alone may read.
///
/// # Errors
/// `File` if there is no such file, and nothing is made then, or if no copy can be made.
/// What `with_desk_file` answers, but `InUse` only if the file changes too fast to be copied.
/// `Write` if the output failed.
pub(crate) fn look_at<W: Write, F: Write>(
    rt: &HostRuntime,
    file: &str,
    sight: &mut Look<'_, W>,
    errors: &mut F,
    is_terminal: bool,
) -> Result<(), Fault> {
    match look_once(rt, file, sight, errors, is_terminal) {
        Ok(()) => Ok(()),
        Err(fault) => look_unopened(rt, file, fault, sight, errors, is_terminal),
    }
}

// The same of a file that was not opened, by this fault.
fn look_unopened<W: Write, F: Write>(
    rt: &HostRuntime,
    file: &str,
    fault: Fault,
    sight: &mut Look<'_, W>,
    errors: &mut F,
    is_terminal: bool,
) -> Result<(), Fault> {
    if fault == Fault::InUse || fault == Fault::Storage && is_for_reading(rt, file)? {
        return look_at_copy(rt, file, sight, errors, is_terminal);
    }
    Err(fault)
}

// Whether a copy of the file can be looked at, and the file itself not: it may not be written.
fn is_for_reading(rt: &HostRuntime, file: &str) -> Result<bool, Fault> {
    let desk = Pair::found(rt, file)?;
    Ok(desk.is_for_reading(rt)?)
}

// The same of a copy of the file.
fn look_at_copy<W: Write, F: Write>(
    rt: &HostRuntime,
    file: &str,
    sight: &mut Look<'_, W>,
    errors: &mut F,
    is_terminal: bool,
) -> Result<(), Fault> {
    let copy = OwnCopy::of(rt, file, "status-copy")?;
    sight.is_served = true;
    let looked = look_once(rt, copy.database(), sight, errors, is_terminal);
    copy.remove(rt);
    looked
}

// The same of the file itself.
fn look_once<W: Write, F: Write>(
    rt: &HostRuntime,
    file: &str,
    sight: &mut Look<'_, W>,
    errors: &mut F,
    is_terminal: bool,
) -> Result<(), Fault> {
    find(rt, file)?;
    with_desk_file(rt, DeskFile::named(file), sight, errors, is_terminal)
}

// The text of the status of all services, by their names.
fn status_of<B: DeskBook>(
    rt: &HostRuntime,
    book: &mut B,
    view: &StatusView,
) -> Result<String, Fault> {
    let names = book.names()?;
    text_of_book(rt.alloc(), book, names.as_slice(), view)
}

// Draws the page of all services, by their names, and then their files.
fn page_of<B: DeskBook, W: Write, P: DrawingProgress>(
    rt: &HostRuntime,
    book: &mut B,
    view: View,
    shelf: Option<Shelf<'_>>,
    output: &mut W,
    progress: &mut P,
) -> Result<(), Fault> {
    let names = book.names()?;
    draw_named(rt, book, names.as_slice(), view, shelf, output, progress)
}

// Draws the page of these services, and then their files.
fn draw_named<B: Book, W: Write, P: DrawingProgress>(
    rt: &HostRuntime,
    book: &mut B,
    names: &[Name],
    view: View,
    shelf: Option<Shelf<'_>>,
    output: &mut W,
    progress: &mut P,
) -> Result<(), Fault> {
    let now = view.now;
    draw_page(rt.alloc(), book, names, view, output, progress)?;
    match shelf {
        Some(shelf) => fill(rt, book, names, now, &shelf, progress),
        None => Ok(()),
    }
}
