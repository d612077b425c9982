//! The services of a desk as a page, and each as a value in JSON.
ghost use Rattle.canary_once.specs.BookCalls.{Stays};
ghost use Rattle.canary_page.specs.Drawn.{IsDrawn};

use crate::fault::Fault;
use canary_base::moments::Moment;
use canary_base::names::Name;
use canary_once::book::Book;
use canary_page::page::{View, draw};
use canary_page::progress::DrawingProgress;
use canary_page::records::record::draw_json;
use canary_page::records::services::draw_services;
use std::alloc::Global;
use std::io::Write;

/// Draws the page of these services of a book, as canary_page does. The book is unchanged.
///
/// # Errors
/// `Write`, `Memory` and `Storage`, each if canary_page answers the same.
pub fn draw_page<W: Write, B: Book, P: DrawingProgress>(
    alloc: Global,
    book: &mut B,
    names: &[Name],
    view: View,
    out: &mut W,
    progress: &mut P,
) -> Result<(), Fault>
    ensures stays { Stays (B.state book.old) (B.state book.new) }
    ensures drawn { IsDrawn (W.contents out.old) (W.contents out.new) result }
{
    match draw(alloc, book, names, view, out, progress) {
        Ok(()) => Ok(()),
        Err(fault) => Err(fault.into()),
    }
}

/// Writes a service of a book, passed to a moment, as a value in JSON, as canary_page does. The
/// book is unchanged.
///
/// # Errors
/// `Write`, `Memory` and `Storage`, each if canary_page answers the same.
pub fn write_json<W: Write, B: Book>(
    alloc: Global,
    book: &mut B,
    name: &Name,
    moment: Moment,
    out: &mut W,
) -> Result<(), Fault>
    ensures { Stays (B.state book.old) (B.state book.new) }
{
    match draw_json(alloc, book, name, moment, out) {
        Ok(()) => Ok(()),
        Err(fault) => Err(fault.into()),
    }
}

/// Writes the list of these services of a book, passed to a moment, as a value in JSON, as
/// canary_page does. The book is unchanged.
///
/// # Errors
/// `Write`, `Memory` and `Storage`, each if canary_page answers the same.
pub fn write_services<W: Write, B: Book>(
    alloc: Global,
    book: &mut B,
    names: &[Name],
    moment: Moment,
    out: &mut W,
) -> Result<(), Fault>
    ensures { Stays (B.state book.old) (B.state book.new) }
{
    match draw_services(alloc, book, names, moment, out) {
        Ok(()) => Ok(()),
        Err(fault) => Err(fault.into()),
    }
}
