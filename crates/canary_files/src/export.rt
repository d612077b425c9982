//! A service's measurements as a file.
ghost use Rattle.std.specs.Prelude.{◌≡◌, ◌≢◌, ◌≤◌, ◌+◌, ◌++◌, length, Bool, Some, None, Err};
ghost use Rattle.std.specs.Prelude.{IfOk, IfErr, OnOk};
ghost use Rattle.std.specs.FinMap.{get};
ghost use Rattle.canary_once.specs.Records.{past_of, measurements_of};
ghost use Rattle.canary_files.specs.Rows.{header};
ghost use Rattle.canary_files.specs.Written.{record_text, row_fields, rows_text};
ghost use Rattle.canary_files.specs.Exporting.{name_at, name_of, recorded_of, file_in, IsLatest};
ghost use Rattle.canary_once.specs.BookCalls.{Stays};
ghost use Rattle.canary_files.specs.Exporting.{Puts, Reads, Tells, TellsPage};
ghost use Rattle.canary_files.specs.Exporting.{IsExportFault, ArePlaced, IsPlaced};
ghost use Rattle.canary_files.specs.Exporting.{HasRun};

use crate::records::Records;
use canary_base::error::Memory;
use canary_base::lists::Listed;
use canary_base::names::{Label, Name};
use canary_base::numbers::Number;
use canary_base::writing::{WriteFault, write_all};
use canary_once::book::{Book, BookFault};
use canary_plan::bound_analysis::BoundAnalysis;
use canary_release::effect::Recorded;
use std::alloc::Global;
use std::io::Write;
use thiserror::Error;

/// The most measurements that are exported.
pub const MAX_ROWS: u64 = 1_000_000_000;

// How many measurements are read and written at once.
const ROWS_AT_ONCE: u32 = 32_768;

/// Why a service's measurements were not all exported.
#[derive(Clone, Copy, Debug, PartialEq, Eq, Error)]
pub enum ExportFault {
    /// An allocation was refused.
    #[error("out of memory")]
    Memory,
    /// The store failed, or gave a measurement of no metric.
    #[error("the store failed")]
    Storage,
    /// The writer failed, or took no byte.
    #[error("the output could not be written")]
    Write,
    /// The service has more than 1,000,000,000 measurements.
    #[error("too many measurements")]
    TooMany,
    /// There is no such service.
    #[error("unknown service")]
    UnknownService,
}

impl From<Memory> for ExportFault {
    ghost use Rattle.canary_files.specs.declared.export.ExportFault.TheVariants as fault;

    ghost from_gives = { λ _ made. made ≡ fault.Memory };

    // For `?`: a refused allocation is `ExportFault::Memory`.
    fn from(_: Memory) -> ExportFault {
        ExportFault::Memory
    }
}

impl From<BookFault> for ExportFault {
    ghost use Rattle.canary_files.specs.Exporting.{fault_of};

    ghost from_gives = { λ fault made. made ≡ fault_of fault };

    // For `?`: a fault of the book is the one of the same name here.
    fn from(fault: BookFault) -> ExportFault {
        match fault {
            BookFault::Memory => ExportFault::Memory,
            BookFault::Storage => ExportFault::Storage,
        }
    }
}

// Whose measurements are written, under which caller.
#[derive(Clone, Copy)]
struct ExportSource {
    caller: Name,
    service: Name,
}

// A run, by its number, and its analysis, which has the names of the metrics. That of the last row
// is kept, so that the book is asked once a run and not once a row.
#[derive(Drop)]
struct RunAnalysis {
    run: u32,
    analysis: BoundAnalysis,
}

/// Writes the file of a service's measurements: the header, and a row for each, in the order in
/// which they were recorded, with this caller and the numbers 1, 2, 3 and so on. How many rows. The
/// book is unchanged.
///
/// # Errors
/// What was written before are the first bytes of the file. `UnknownService` if there is no such
/// service, and nothing is written. `TooMany` if it has more than 1,000,000,000 measurements.
/// `Write` if the writer failed or took no byte. `Memory` if an allocation was refused, and
/// `Storage` if the store failed, which a book that is sure never reports.
pub fn export<W: Write, B: Book>(
    alloc: Global,
    book: &mut B,
    service: Name,
    caller: Name,
    out: &mut W,
) -> Result<u64, ExportFault>
    ensures kept { Stays (B.state book.old) (B.state book.new) }
    ensures file { (B.state book.new).is_honest
        → Puts (W.contents out.old) (W.contents out.new)
        (file_in (B.state book.old).contents service caller) result }
    ensures rows { (B.state book.new).is_honest → IfOk result (λ rows.
        (rows ≡ length (recorded_of (B.state book.old).contents service))
        × (rows ≤ MAX_ROWS)) }
    ensures why { (B.state book.new).is_honest
        → IfErr result (Tells (B.state book.old).contents service) }
    ensures sure { (B.state book.new).is_honest
        → IfErr result (IsExportFault (B.state book.old).is_sure) }
    ensures there { (B.state book.new).is_honest
        → OnOk result (get (B.state book.old).contents.desk.services service ≢ None) }
    ensures unknown { (B.state book.new).is_honest → result ≡ Err ExportFault.UnknownService
        → out.new ≡ out.old }
{
    find_service(book, &service)?;
    write_header(alloc, out)?;
    let source = ExportSource { caller, service };
    write_rows(alloc, book, &source, out)
}

// That the service is there.
fn find_service<B: Book>(book: &mut B, service: &Name) -> Result<(), ExportFault>
    ensures stays { Stays (B.state book.old) (B.state book.new) }
    ensures there { (B.state book.new).is_honest
        → OnOk result (get (B.state book.old).contents.desk.services service.now ≢ None) }
    ensures why { (B.state book.new).is_honest
        → IfErr result (Tells (B.state book.old).contents service.now) }
    ensures sure { IfErr result (IsExportFault (B.state book.old).is_sure) }
{
    match book.service(service)? {
        None => Err(ExportFault::UnknownService),
        Some(_) => Ok(()),
    }
}

// Writes the first record, which names the columns.
fn write_header<W: Write>(alloc: Global, out: &mut W) -> Result<(), ExportFault>
    ensures writes { Puts (W.contents out.old) (W.contents out.new) (record_text header) result }
    ensures why { IfErr result (TellsPage 0) }
    ensures sure { (sure : Bool) → IfErr result (IsExportFault sure) }
{
    let records = Records::new(alloc).with_header(alloc)?;
    let text = records.into_text()?;
    put(out, &text)
}

// The rows of all measurements, page by page.
fn write_rows<W: Write, B: Book>(
    alloc: Global,
    book: &mut B,
    source: &ExportSource,
    out: &mut W,
) -> Result<u64, ExportFault>
    ensures stays { Stays (B.state book.old) (B.state book.new) }
    ensures writes { (B.state book.new).is_honest
        → Puts (W.contents out.old) (W.contents out.new)
        (rows_text source.now.caller source.now.service
        (name_of (past_of (B.state book.old).contents source.now.service))
        0 (recorded_of (B.state book.old).contents source.now.service)) result }
    ensures rows { (B.state book.new).is_honest → IfOk result (λ rows.
        (rows ≡ length (recorded_of (B.state book.old).contents source.now.service))
        × (rows ≤ MAX_ROWS)) }
    ensures why { (B.state book.new).is_honest
        → IfErr result (TellsPage
        (length (recorded_of (B.state book.old).contents source.now.service))) }
    ensures sure { (B.state book.new).is_honest
        → IfErr result (IsExportFault (B.state book.old).is_sure) }
{
    let mut rows = 0;
    let mut latest = None;
    loop {
        let next = write_page(alloc, book, source, &mut latest, rows, out)?;
        if next == rows {
            return Ok(rows);
        }
        rows = next;
    }
}

// The rows of the next page, after so many others. How many there are then.
fn write_page<W: Write, B: Book>(
    alloc: Global,
    book: &mut B,
    source: &ExportSource,
    latest: &mut Option<RunAnalysis>,
    from: u64,
    out: &mut W,
) -> Result<u64, ExportFault>
    requires some { from ≤ MAX_ROWS }
    requires latest { IsLatest (B.state book.old) source.now.service latest.old }
    ensures stays { Stays (B.state book.old) (B.state book.new) }
    ensures latest { OnOk result
        (IsLatest (B.state book.new) source.now.service latest.new) }
    ensures writes { (B.state book.new).is_honest
        → Puts (W.contents out.old) (W.contents out.new)
        (rows_text source.now.caller source.now.service
        (name_of (past_of (B.state book.old).contents source.now.service))
        from (measurements_of (B.state book.old).contents source.now.service from 32768))
        result }
    ensures rows { (B.state book.new).is_honest → IfOk result (λ rows.
        rows ≡ from + length
        (measurements_of (B.state book.old).contents source.now.service from 32768)) }
    ensures grows { IfOk result (λ rows. (from ≤ rows) × (rows ≤ MAX_ROWS)) }
    ensures why { (B.state book.new).is_honest → IfErr result (TellsPage
        (from + length
        (measurements_of (B.state book.old).contents source.now.service from 32768))) }
    ensures sure { (B.state book.new).is_honest
        → IfErr result (IsExportFault (B.state book.old).is_sure) }
{
    let page = book.measurements(&source.service, from, ROWS_AT_ONCE)?;
    write_measurements(alloc, book, source, latest, from, page.as_slice(), out)
}

// Writes the rows of these measurements, after so many others. How many rows there are then.
fn write_measurements<W: Write, B: Book>(
    alloc: Global,
    book: &mut B,
    source: &ExportSource,
    latest: &mut Option<RunAnalysis>,
    from: u64,
    page: &[Recorded],
    out: &mut W,
) -> Result<u64, ExportFault>
    requires some { from ≤ MAX_ROWS }
    requires latest { IsLatest (B.state book.old) source.now.service latest.old }
    ensures stays { Stays (B.state book.old) (B.state book.new) }
    ensures latest { OnOk result
        (IsLatest (B.state book.new) source.now.service latest.new) }
    ensures writes { (B.state book.new).is_honest
        → Puts (W.contents out.old) (W.contents out.new)
        (rows_text source.now.caller source.now.service
        (name_of (past_of (B.state book.old).contents source.now.service))
        from page.now) result }
    ensures rows { IfOk result (λ rows. (rows ≡ from + length page.now) × (rows ≤ MAX_ROWS)) }
    ensures why { IfErr result (TellsPage (from + length page.now)) }
    ensures sure { (B.state book.new).is_honest
        → ArePlaced (past_of (B.state book.old).contents source.now.service) page.now
        → IfErr result (IsExportFault (B.state book.old).is_sure) }
{
    if page.len() as u64 > MAX_ROWS - from {
        return Err(ExportFault::TooMany);
    }
    let text = rows_text(alloc, book, source, latest, from, page)?;
    put(out, &text)?;
    Ok(from + page.len() as u64)
}

// The rows of these measurements, after so many others.
fn rows_text<B: Book>(
    alloc: Global,
    book: &mut B,
    source: &ExportSource,
    latest: &mut Option<RunAnalysis>,
    from: u64,
    page: &[Recorded],
) -> Result<Listed<u8>, ExportFault>
    requires some { from + length page.now ≤ MAX_ROWS }
    requires latest { IsLatest (B.state book.old) source.now.service latest.old }
    ensures latest { OnOk result
        (IsLatest (B.state book.new) source.now.service latest.new) }
    ensures reads { Reads (λ c. rows_text source.now.caller source.now.service
        (name_of (past_of c source.now.service)) from page.now)
        (B.state book.old) (B.state book.new) result }
    ensures why { IfErr result (TellsPage 0) }
    ensures sure { (B.state book.new).is_honest
        → ArePlaced (past_of (B.state book.old).contents source.now.service) page.now
        → IfErr result (IsExportFault (B.state book.old).is_sure) }
{
    let mut records = Records::new(alloc);
    for (i, recorded) in page.iter().enumerate() {
        let number = from + i as u64 + 1;
        records = with_row(alloc, book, source, latest, records, number, recorded)?;
    }
    Ok(records.into_text()?)
}

// The records with the row of one more measurement, for which its metric's name is looked up.
fn with_row<B: Book>(
    alloc: Global,
    book: &mut B,
    source: &ExportSource,
    latest: &mut Option<RunAnalysis>,
    records: Records,
    number: u64,
    recorded: &Recorded,
) -> Result<Records, ExportFault>
    requires { IsLatest (B.state book.old) source.now.service latest.old }
    ensures latest { OnOk result
        (IsLatest (B.state book.new) source.now.service latest.new) }
    ensures reads { Reads (λ c. records ++ record_text
        (row_fields source.now.caller number source.now.service recorded.now
        (name_of (past_of c source.now.service) recorded.now)))
        (B.state book.old) (B.state book.new) result }
    ensures why { IfErr result (TellsPage 0) }
    ensures sure { (B.state book.new).is_honest
        → IsPlaced (past_of (B.state book.old).contents source.now.service) recorded.now
        → IfErr result (IsExportFault (B.state book.old).is_sure) }
{
    let metric = metric_name(book, source, latest, recorded)?;
    let (caller, service) = (&source.caller, &source.service);
    Ok(records.with_row(alloc, caller, number, service, recorded, &metric)?)
}

// The name of the metric of a measurement.
fn metric_name<B: Book>(
    book: &mut B,
    source: &ExportSource,
    latest: &mut Option<RunAnalysis>,
    recorded: &Recorded,
) -> Result<Label, ExportFault>
    requires { IsLatest (B.state book.old) source.now.service latest.old }
    ensures latest { OnOk result
        (IsLatest (B.state book.new) source.now.service latest.new) }
    ensures reads { Reads
        (λ c. name_of (past_of c source.now.service) recorded.now)
        (B.state book.old) (B.state book.new) result }
    ensures why { IfErr result (TellsPage 0) }
    ensures sure { (B.state book.new).is_honest
        → IsPlaced (past_of (B.state book.old).contents source.now.service) recorded.now
        → IfErr result (IsExportFault (B.state book.old).is_sure) }
{
    let placed = analysis_for(book, source, latest.take(), recorded.run)?;
    let name = name_at(&placed.analysis, recorded.metric);
    *latest = Some(placed);
    match name {
        Some(name) => Ok(name),
        None => Err(ExportFault::Storage),
    }
}

// The analysis of a run, which is asked for if it is not that of the last row.
fn analysis_for<B: Book>(
    book: &mut B,
    source: &ExportSource,
    latest: Option<RunAnalysis>,
    run: u32,
) -> Result<RunAnalysis, ExportFault>
    requires { IsLatest (B.state book.old) source.now.service latest }
    ensures stays { Stays (B.state book.old) (B.state book.new) }
    ensures placed { IfOk result (λ placed. (placed.run ≡ run)
        × IsLatest (B.state book.new) source.now.service (Some placed)) }
    ensures why { IfErr result (TellsPage 0) }
    ensures sure { (B.state book.new).is_honest
        → HasRun (past_of (B.state book.old).contents source.now.service) run
        → IfErr result (IsExportFault (B.state book.old).is_sure) }
{
    if let Some(placed) = latest {
        if placed.run == run {
            return Ok(placed);
        }
    }
    let Some(number) = Number::new(run) else {
        return Err(ExportFault::Storage);
    };
    match book.run(&source.service, number)? {
        Some(record) => Ok(RunAnalysis {
            run,
            analysis: record.analysis,
        }),
        None => Err(ExportFault::Storage),
    }
}

// The name of the metric at a place of an analysis.
fn name_at(analysis: &BoundAnalysis, place: u32) -> Option<Label>
    ensures { result ≡ name_at analysis.now place }
{
    Some(analysis.metrics().get(place as usize)?.name())
}

// Writes a text whole.
fn put<W: Write>(out: &mut W, text: &Listed<u8>) -> Result<(), ExportFault>
    ensures puts { Puts (W.contents out.old) (W.contents out.new) text.now result }
    ensures why { IfErr result (TellsPage 0) }
    ensures sure { (sure : Bool) → IfErr result (IsExportFault sure) }
{
    match write_all(out, text.as_slice()) {
        Ok(()) => Ok(()),
        Err(WriteFault) => Err(ExportFault::Write),
    }
}
