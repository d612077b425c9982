//! The services of a desk at a glance.
ghost use Rattle.canary_once.specs.BookCalls.{Stays};

use crate::fault::Fault;
use crate::overview::{Overview, OverviewFormat};
use crate::show::show;
use canary_base::error::Memory;
use canary_base::moments::Moment;
use canary_base::names::Name;
use canary_once::book::Book;
use canary_page::page::NO_DESK;
use canary_page::unmeasured::unmeasured_runs;
use std::alloc::Global;
use std::io::Write;

// Goes to the upper left corner of a terminal and erases all of it.
const CLEARED: &str = "\x1b[H\x1b[2J";

/// How often the status is drawn, in which form, and on what.
#[derive(Clone, Copy, Debug, PartialEq, Eq)]
pub struct Drawing {
    /// Tables, or JSON.
    pub form: OverviewFormat,
    /// The seconds from one drawing to the next; none if it is drawn once.
    pub every: Option<u64>,
    /// The output is a terminal: it is erased before each drawing if there is more than one.
    pub is_terminal: bool,
}

/// As what the services of a desk are shown, and at which moment.
#[derive(Clone, Copy, Debug, PartialEq, Eq)]
pub struct StatusView {
    /// The moment to which services are passed.
    pub now: Moment,
    /// Tables, JSON, or the format of Prometheus.
    pub form: OverviewFormat,
    /// Whether a desk may have the file open. If none has, tables say so on top.
    pub is_served: bool,
}

/// Draws a text, which is on its way then.
///
/// # Errors
/// `Write` if the output failed.
pub fn draw<W: Write>(text: &str, drawing: Drawing, output: &mut W) -> Result<(), Fault> {
    if drawing.is_terminal && drawing.every.is_some() {
        show(CLEARED, output)?;
    }
    show(text, output)?;
    match output.flush() {
        Ok(()) => Ok(()),
        Err(_) => Err(Fault::Write),
    }
}

/// The text of the status of these services of a book, as this view has them. The tables begin with
/// a line if no desk has the file open. The book is unchanged.
///
/// # Errors
/// `Memory` if an allocation was refused, and `Storage` if the store failed.
pub fn text_of_book<B: Book>(
    alloc: Global,
    book: &mut B,
    names: &[Name],
    view: &StatusView,
) -> Result<String, Fault>
    ensures { Stays (B.state book.old) (B.state book.new) }
{
    let mut overview = Overview::new(alloc, view.form)?;
    add_services(alloc, book, names, view, &mut overview)?;
    Ok(below_head(alloc, overview.text()?, view)?)
}

// The text below a line that no desk has the file open, if that is so and tables are shown.
fn below_head(alloc: Global, text: String, view: &StatusView) -> Result<String, Memory> {
    if view.is_served || view.form != OverviewFormat::Tables {
        return Ok(text);
    }
    let mut whole = String::from_str(alloc, NO_DESK)?;
    whole.push_str("\n\n")?;
    whole.push_str(text.as_str())?;
    Ok(whole)
}

// Adds the services of these names.
fn add_services<B: Book>(
    alloc: Global,
    book: &mut B,
    names: &[Name],
    view: &StatusView,
    overview: &mut Overview,
) -> Result<(), Fault>
    ensures { Stays (B.state book.old) (B.state book.new) }
{
    for name in names {
        add_named(alloc, book, name, view, overview)?;
    }
    Ok(())
}

// Adds the service of this name, or nothing if there is no such service.
fn add_named<B: Book>(
    alloc: Global,
    book: &mut B,
    name: &Name,
    view: &StatusView,
    overview: &mut Overview,
) -> Result<(), Fault>
    ensures { Stays (B.state book.old) (B.state book.new) }
{
    let unmeasured = unmeasured_in(alloc, book, name, view)?;
    match book.service(name)? {
        Some(service) => Ok(overview.add(&service, view.now, unmeasured)?),
        None => Ok(()),
    }
}

// How many runs of a service's last release that is done ended without a measurement; 0 in a form
// that does not show it.
fn unmeasured_in<B: Book>(
    alloc: Global,
    book: &mut B,
    name: &Name,
    view: &StatusView,
) -> Result<u64, Fault>
    ensures { Stays (B.state book.old) (B.state book.new) }
{
    if view.form != OverviewFormat::Prometheus {
        return Ok(0);
    }
    match unmeasured_runs(alloc, book, name, view.now) {
        Ok(count) => Ok(count),
        Err(fault) => Err(fault.into()),
    }
}
