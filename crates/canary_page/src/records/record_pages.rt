//! A service's measurements as values in JSON, page by page.
ghost use Rattle.std.specs.Prelude.{◌≡◌, IfOk, length};
ghost use Rattle.canary_once.specs.Records.{measurements_of};
ghost use Rattle.canary_once.specs.BookCalls.{Stays};
ghost use Rattle.canary_files.specs.Exporting.{recorded_of};

use crate::fault::PageFault;
use crate::reading::MEASUREMENTS_AT_ONCE;
use crate::records::sheet::{Sheet, put};
use canary_base::error::Memory;
use canary_base::names::{Label, Name};
use canary_base::numbers::Number;
use canary_condition::outcome::{Outcome, Value};
use canary_decimal::shown::{Shown, Units};
use canary_once::book::Book;
use canary_once::record::RunRecord;
use canary_release::effect::Recorded;
use std::alloc::Global;
use std::io::Write;

// Writes the measurements of all runs, in the order in which they were recorded, page by page up to
// an empty one, and says how many they are.
pub(crate) fn put_measurements<W: Write, B: Book>(
    alloc: Global,
    book: &mut B,
    name: &Name,
    out: &mut W,
) -> Result<u64, PageFault>
    ensures stays { Stays (B.state book.old) (B.state book.new) }
    ensures all { (B.state book.new).is_honest → IfOk result (λ count.
        count ≡ length (recorded_of (B.state book.old).contents name.now)) }
{
    let mut from = 0;
    for _ in 0..u64::MAX {
        let count = put_page(alloc, book, name, from, out)?;
        if count == 0 {
            return Ok(from);
        }
        from = count.saturating_add(from);
    }
    // No memory has so many pages.
    Err(PageFault::Memory)
}

// Writes those of one page, and says how many it has.
fn put_page<W: Write, B: Book>(
    alloc: Global,
    book: &mut B,
    name: &Name,
    from: u64,
    out: &mut W,
) -> Result<u64, PageFault>
    ensures stays { Stays (B.state book.old) (B.state book.new) }
    ensures page { (B.state book.new).is_honest → IfOk result (λ count.
        count ≡ length (measurements_of (B.state book.old).contents name.now from 256)) }
{
    let page = book.measurements(name, from, MEASUREMENTS_AT_ONCE)?;
    put_read(alloc, book, name, from > 0, page.as_slice(), out)?;
    Ok(page.as_slice().len() as u64)
}

// Writes the measurements of a page that was read.
fn put_read<W: Write, B: Book>(
    alloc: Global,
    book: &mut B,
    name: &Name,
    is_later: bool,
    page: &[Recorded],
    out: &mut W,
) -> Result<(), PageFault>
    ensures { Stays (B.state book.old) (B.state book.new) }
{
    if page.is_empty() {
        return Ok(());
    }
    let runs = runs_in(alloc, book, name, page)?;
    put(page_sheet(alloc, is_later, page, runs.as_slice()), out)
}

// The runs to which the measurements of a page belong.
fn runs_in<B: Book>(
    alloc: Global,
    book: &mut B,
    name: &Name,
    page: &[Recorded],
) -> Result<Vec<RunRecord>, PageFault>
    ensures { Stays (B.state book.old) (B.state book.new) }
{
    let mut runs = Vec::new(alloc);
    for recorded in page {
        add_run(book, name, recorded.run, &mut runs)?;
    }
    Ok(runs)
}

// Adds the run of that number, unless it is there.
fn add_run<B: Book>(
    book: &mut B,
    name: &Name,
    number: u32,
    runs: &mut Vec<RunRecord>,
) -> Result<(), PageFault>
    ensures { Stays (B.state book.old) (B.state book.new) }
{
    if found_run(runs.as_slice(), number).is_some() {
        return Ok(());
    }
    let Some(asked) = Number::new(number) else {
        return Ok(());
    };
    let found = book.run(name, asked)?;
    Ok(push_found(runs, found)?)
}

// Adds a run to the list, if the book has it.
fn push_found(runs: &mut Vec<RunRecord>, found: Option<RunRecord>) -> Result<(), Memory> {
    if let Some(run) = found {
        runs.push(run)?;
    }
    Ok(())
}

// The run of that number, if it is one of these, looked for from the last one on.
fn found_run(runs: &[RunRecord], number: u32) -> Option<&RunRecord> {
    runs.iter().rev().find(|run| run.number == number)
}

// The measurements of a page, as items of the list. A later page begins with a comma.
fn page_sheet(alloc: Global, is_later: bool, page: &[Recorded], runs: &[RunRecord]) -> Sheet {
    let mut sheet = Sheet::new(alloc, is_later);
    for recorded in page {
        add_measurement(&mut sheet, recorded, label_of(runs, recorded));
    }
    sheet
}

// The label of a measurement's metric, if it is one of these runs.
fn label_of(runs: &[RunRecord], recorded: &Recorded) -> Option<Label> {
    let run = found_run(runs, recorded.run)?;
    let metric = run.analysis.metrics().get(recorded.metric as usize)?;
    Some(metric.name())
}

// Adds the object of a measurement. Without a label, its metric and its shown result are null.
fn add_measurement(sheet: &mut Sheet, recorded: &Recorded, label: Option<Label>) {
    sheet.begin();
    sheet.key("failure");
    add_failure(sheet, &recorded.outcome);
    sheet.key("metric");
    add_label(sheet, &label);
    sheet.number_at("ordinal", recorded.ordinal);
    sheet.text_at("phase", recorded.phase.text());
    sheet.key("result");
    add_result(sheet, &recorded.outcome);
    sheet.number_at("run", recorded.run);
    sheet.key("shown");
    add_shown(sheet, &recorded.outcome, &label);
    sheet.moment_at("taken", Some(recorded.taken));
    sheet.end();
}

// Adds the text of a failure; null if there was a result.
fn add_failure(sheet: &mut Sheet, outcome: &Outcome) {
    match outcome {
        Outcome::Failure(text) => sheet.text(text.as_str()),
        Outcome::Result(_) => sheet.null(),
    }
}

// Adds the label of a metric; null if it was not found.
fn add_label(sheet: &mut Sheet, label: &Option<Label>) {
    match label {
        Some(label) => sheet.text(label.as_str()),
        None => sheet.null(),
    }
}

// Adds a result as it was reported, a number or a list of numbers; null if there was a failure.
fn add_result(sheet: &mut Sheet, outcome: &Outcome) {
    match outcome {
        Outcome::Result(Value::Whole(number)) => sheet.signed(*number),
        Outcome::Result(Value::List(values)) => add_numbers(sheet, values.as_slice()),
        Outcome::Failure(_) => sheet.null(),
    }
}

// Adds a list of numbers, as they were reported.
fn add_numbers(sheet: &mut Sheet, numbers: &[i64]) {
    sheet.begin_list();
    for number in numbers {
        sheet.signed(*number);
    }
    sheet.end_list();
}

// The result as people read it: a text in the place of each number.
fn add_shown(sheet: &mut Sheet, outcome: &Outcome, label: &Option<Label>) {
    match (outcome, label) {
        (Outcome::Result(value), Some(label)) => {
            add_texts(sheet, value, Shown::or_whole(label.as_str()).units);
        }
        _ => sheet.null(),
    }
}

// Adds a result as people read it: one text, or a list of texts for a list.
fn add_texts(sheet: &mut Sheet, value: &Value, units: Units) {
    match value {
        Value::Whole(number) => sheet.text(units.text(None, *number).as_str()),
        Value::List(values) => add_text_list(sheet, values.as_slice(), units),
    }
}

// Adds a text for each number of a list. Its place there counts: the first may be a length.
fn add_text_list(sheet: &mut Sheet, numbers: &[i64], units: Units) {
    sheet.begin_list();
    for (place, number) in numbers.iter().enumerate() {
        sheet.text(units.text(Some(place as u64), *number).as_str());
    }
    sheet.end_list();
}
