//! Lists of what is kept of a service, as the tables give them.
ghost use Rattle.std.specs.Prelude.{◌≡◌, ◌≢◌, ◌∷◌, ◌++◌, ℕ, [], false, List, Some, None, Err, map, IfOk, IfSome};
ghost use Rattle.sqlite.specs.Effect.{Database};
ghost use Rattle.sqlite.specs.Held.{state};
ghost use Rattle.canary_plan.specs.declared.line.Line.{Line};
ghost use Rattle.canary_release.specs.declared.effect.Recorded.{Recorded};
ghost use Rattle.canary_once.specs.Records.{history_of, measurements_of};
ghost use Rattle.canary_tables_schema.specs.Stores.{IsUsable};
ghost use Rattle.canary_tables_read.specs.Places.{IsMark, IsPlacedPage, row_of};
ghost use Rattle.canary_tables_rows.specs.Tables.{Tables};
ghost use Rattle.canary_tables_contents.specs.Values.{line_of_row, measurement_of_row};
ghost use Rattle.canary_tables.specs.Desk.{HasDesk, Looks, contents_in};
ghost use Rattle.canary_tables.specs.Notes.{IsMarked};

use crate::load::store_fault;
use crate::notes::Mark;
use canary_base::lists::Listed;
use canary_base::names::Name;
use canary_once::history::push_line;
use canary_plan::line::Line;
use canary_release::effect::Recorded;
use canary_tables_contents::{laws, reading};
use canary_tables_read::after::{self, MeasurementAt};
use canary_tables_read::histories;
use canary_tables_rows::rows::{HistoryRow, MeasurementRow};
use canary_tables_schema::fault::StoreFault;
use sqlite::{Alter, Connection};
use std::alloc::Global;

/// The history of a service, oldest line first; none if there is no such service.
///
/// # Errors
/// `Memory` if an allocation was refused, `Storage` if the database fails or holds what no desk
/// writes.
pub(crate) fn history<S: Alter>(
    conn: &mut Connection<S>,
    alloc: Global,
    name: &Name,
) -> Result<Listed<Line>, StoreFault>
    requires ready { HasDesk conn.old.in_transaction (state S.Store conn.old) }
    ensures reads { Looks conn.new.in_transaction
        (state S.Store conn.old) (state S.Store conn.new) }
    ensures found { IsUsable (state S.Store conn.new) → IfOk result
        (λ lines. lines ≡ history_of (contents_in (state S.Store conn.old)) name.now) }
{
    laws::histories_found();
    let rows = histories::history(conn, alloc, name)?;
    lines_of(alloc, rows.as_slice())
}

// The lines of rows, in their order. `Storage` only if one stands for none.
fn lines_of(alloc: Global, rows: &[HistoryRow]) -> Result<Listed<Line>, StoreFault>
    ensures found { IfOk result (λ lines. map Some lines ≡ map line_of_row rows.now) }
    ensures storage { result ≡ Err StoreFault.Storage
        → (lines : List Line) → map Some lines ≢ map line_of_row rows.now }
{
    let mut lines = Listed::of(Vec::new(alloc));
    for row in rows {
        lines = with_line(lines, row)?;
    }
    Ok(lines)
}

// The lines, and after them that of the row. `Storage` only if the row has no valid line.
fn with_line(lines: Listed<Line>, row: &HistoryRow) -> Result<Listed<Line>, StoreFault>
    ensures found { IfOk result
        (λ longer. map Some longer ≡ map Some lines ++ line_of_row row.now ∷ []) }
    ensures storage { result ≡ Err StoreFault.Storage → line_of_row row.now ≡ None }
{
    match reading::line(row) {
        Ok(line) => Ok(push_line(lines, line.moment, line.event)?),
        Err(fault) => Err(store_fault(fault)),
    }
}

/// A page of a service's measurements, and how far they are read by it; no mark if it is empty.
#[derive(Drop)]
pub(crate) struct Page {
    pub recorded: Listed<Recorded>,
    pub mark: Option<Mark>,
}

/// A page of a service's measurements, of all its runs in the order in which they were recorded:
/// those from a place on, the first having place 0, and at most so many; empty if there is no such
/// service. `noted` is a place in the table up to which just `from` of them stand, if one is known.
///
/// # Errors
/// `Memory` if an allocation was refused, `Storage` if the database fails or holds what no desk
/// writes, and if `from` is 2^63 or more.
pub(crate) fn measurements<S: Alter>(
    conn: &mut Connection<S>,
    alloc: Global,
    name: &Name,
    from: u64,
    noted: Option<i64>,
    most: u32,
) -> Result<Page, StoreFault>
    requires ready { HasDesk conn.old.in_transaction (state S.Store conn.old) }
    requires noted { IsUsable (state S.Store conn.old)
        → IfSome noted (IsMark (state S.Store conn.old).now name.now from) }
    ensures reads { Looks conn.new.in_transaction
        (state S.Store conn.old) (state S.Store conn.new) }
    ensures found { IsUsable (state S.Store conn.new) → IfOk result (λ page. page.recorded
        ≡ measurements_of (contents_in (state S.Store conn.old)) name.now from most) }
    ensures mark { IsUsable (state S.Store conn.new)
        → IfOk result (λ page. IfSome page.mark (IsMarked (state S.Store conn.old).now)) }
{
    laws::measurements_found();
    let rows = after::measurements(conn, alloc, name, from, noted, most)?;
    let mark = mark_of(name, from, rows.as_slice());
    let recorded = measurements_of(alloc, rows.as_slice())?;
    Ok(Page { recorded, mark })
}

// The mark at the end of a page of these rows, the first of which has that index.
fn mark_of(service: &Name, from: u64, rows: &[MeasurementAt]) -> Option<Mark>
    ensures { (db : Database) (t : Tables) (most : ℕ)
        → IsPlacedPage db t service.now from most rows.now → IfSome result (IsMarked db) }
{
    let place = after::last_place(rows)?;
    let index = from.checked_add(rows.len() as u64)?;
    Some(Mark {
        service: *service,
        index,
        place,
    })
}

// The measurements of rows, in their order. `Storage` only if one stands for none.
fn measurements_of(alloc: Global, rows: &[MeasurementAt]) -> Result<Listed<Recorded>, StoreFault>
    ensures found { IfOk result (λ page.
        map Some page ≡ map measurement_of_row (map row_of rows.now)) }
    ensures storage { result ≡ Err StoreFault.Storage
        → (page : List Recorded) → map Some page ≢ map measurement_of_row (map row_of rows.now) }
{
    let mut page = Listed::of(Vec::new(alloc));
    for placed in rows {
        page.push(measurement_of(alloc, &placed.row)?)?;
    }
    Ok(page)
}

// The measurement of a row. `Storage` only if it stands for none.
fn measurement_of(alloc: Global, row: &MeasurementRow) -> Result<Recorded, StoreFault>
    ensures found { IfOk result (λ recorded. measurement_of_row row.now ≡ Some recorded) }
    ensures storage { result ≡ Err StoreFault.Storage → measurement_of_row row.now ≡ None }
{
    reading::measurement(alloc, row).map_err(store_fault)
}
