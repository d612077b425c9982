//! A service as a value in JSON (RFC 8259), with its history, all its measurements and all its
//! runs. The keys of each object stand in ascending order, and a moment is a number of seconds
//! since 1970-01-01T00:00:00Z.
ghost use Rattle.canary_once.specs.BookCalls.{Stays};

use crate::fault::PageFault;
use crate::reading::{lines_of, passed_of, run_of, templates_of};
use crate::records::record_pages::put_measurements;
use crate::records::record_run::{missing_run, run_sheet};
use crate::records::sheet::{Sheet, put};
use canary_base::moments::Moment;
use canary_base::names::Name;
use canary_once::book::Book;
use canary_once::record::RunRecord;
use canary_plan::line::Line;
use canary_release::effect::Effect;
use canary_release::service::{Passed, Service};
use std::alloc::Global;
use std::io::Write;

/// Writes the service of that name, passed to a moment (or to its last one if that is later), as
/// one value in JSON: nothing if there is no such service. Its measurements are read and written in
/// pages, and its runs one by one. The book is unchanged.
///
/// # Errors
/// `Write` if the output failed; `Memory` if an allocation was refused; `Storage` if the store
/// failed. What was written before is the front of such a value.
pub fn draw_json<W: Write, B: Book>(
    alloc: Global,
    book: &mut B,
    name: &Name,
    moment: Moment,
    out: &mut W,
) -> Result<(), PageFault>
    ensures stays { Stays (B.state book.old) (B.state book.new) }
{
    let found = passed_of(alloc, book, name, moment)?;
    match &found {
        Some(passed) => draw_passed(alloc, book, name, passed, moment, out),
        None => Ok(()),
    }
}

// Writes a service that was passed to a moment, from its history to its weight.
fn draw_passed<W: Write, B: Book>(
    alloc: Global,
    book: &mut B,
    name: &Name,
    passed: &Passed,
    moment: Moment,
    out: &mut W,
) -> Result<(), PageFault>
    ensures { Stays (B.state book.old) (B.state book.new) }
{
    let service = &passed.service;
    let effects = passed.effects.as_slice();
    put_history(alloc, book, name, service, effects, out)?;
    put_measurements(alloc, book, name, out)?;
    put(middle(alloc, moment.max(service.last())), out)?;
    put_runs(alloc, book, name, service.run_count(), effects, out)?;
    put(end(alloc, service), out)
}

// Writes the value up to its measurements, with the history as the effects leave it.
fn put_history<W: Write, B: Book>(
    alloc: Global,
    book: &mut B,
    name: &Name,
    service: &Service,
    effects: &[Effect],
    out: &mut W,
) -> Result<(), PageFault>
    ensures { Stays (B.state book.old) (B.state book.new) }
{
    let lines = lines_of(book, name, effects)?;
    put(begin(alloc, service, lines.as_slice()), out)
}

// The value up to its measurements.
fn begin(alloc: Global, service: &Service, lines: &[Line]) -> Sheet {
    let mut sheet = Sheet::new(alloc, false);
    sheet.begin();
    sheet.key("history");
    sheet.begin_list();
    for line in lines {
        sheet.line(line);
    }
    sheet.end_list();
    sheet.text_at("hold", hold_of(service));
    sheet.key("measurements");
    sheet.begin_list();
    sheet
}

// What holds a release.
fn hold_of(service: &Service) -> &'static str {
    match (service.step_hold(), service.background_hold()) {
        (false, false) => "none",
        (true, false) => "step",
        (false, true) => "background",
        (true, true) => "both",
    }
}

// From the end of its measurements to its runs.
fn middle(alloc: Global, now: Moment) -> Sheet {
    let mut sheet = Sheet::new(alloc, false);
    sheet.end_list();
    sheet.moment_at("moment", Some(now));
    sheet.key("runs");
    sheet.begin_list();
    sheet
}

// Writes the first runs, so many.
fn put_runs<W: Write, B: Book>(
    alloc: Global,
    book: &mut B,
    name: &Name,
    count: u32,
    effects: &[Effect],
    out: &mut W,
) -> Result<(), PageFault>
    ensures { Stays (B.state book.old) (B.state book.new) }
{
    for place in 0..count {
        put_run(alloc, book, name, place.saturating_add(1), effects, out)?;
    }
    Ok(())
}

// Writes the run of that number, or null in its place if the book does not have it.
fn put_run<W: Write, B: Book>(
    alloc: Global,
    book: &mut B,
    name: &Name,
    number: u32,
    effects: &[Effect],
    out: &mut W,
) -> Result<(), PageFault>
    ensures { Stays (B.state book.old) (B.state book.new) }
{
    let found = run_of(alloc, book, name, number, effects)?;
    match &found {
        Some(record) => put_record(alloc, book, record, out),
        None => put(missing_run(alloc, number), out),
    }
}

// Writes a run, with its conditions by the templates as they are now.
fn put_record<W: Write, B: Book>(
    alloc: Global,
    book: &mut B,
    record: &RunRecord,
    out: &mut W,
) -> Result<(), PageFault>
    ensures { Stays (B.state book.old) (B.state book.new) }
{
    let templates = templates_of(alloc, book, record.analysis.revisions())?;
    put(run_sheet(alloc, record, &templates), out)
}

// The value from the end of its runs on.
fn end(alloc: Global, service: &Service) -> Sheet {
    let mut sheet = Sheet::new(alloc, false);
    sheet.end_list();
    sheet.text_at("service", service.name().as_str());
    sheet.text_at("stable", service.stable().as_str());
    sheet.text_at("status", service.status().text());
    sheet.number_at("step", service.step());
    sheet.key("steps");
    sheet.number(service.strategy().steps().len() as u64);
    sheet.text_at("version", service.version().as_str());
    sheet.number_at("weight", service.weight());
    sheet.end();
    sheet
}
