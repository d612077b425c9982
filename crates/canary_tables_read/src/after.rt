//! The measurements of a service in pages, of which each may begin where another one ended.
ghost use Rattle.std.specs.Prelude.{ℤ, ◌≡◌, ◌≢◌, ◌<◌, Some, Err, IfOk, IfSome, length};
ghost use Rattle.sqlite.specs.Order.{column};
ghost use Rattle.sqlite.specs.declared.types.Value.TheVariants.{Int};
ghost use Rattle.canary_tables_rows.specs.Limits.{IsMeasurementWithin};
ghost use Rattle.canary_tables_read.specs.Breaks.{BreaksUnless, MeasurementsWithin};
ghost use Rattle.canary_tables_read.specs.Finds.{Gives};
ghost use Rattle.canary_tables_read.specs.Reader.{Reads};
ghost use Rattle.canary_tables_read.specs.Places.{placed_from, placed_after, FindsPlaced, MarksEnd};

use crate::columns;
use crate::fault::ReadFault;
use crate::from_row::{self, FromRow};
use crate::histories::offset_of;
use crate::reader::Reader;
use canary_base::lists::Listed;
use canary_base::names::Name;
use canary_tables_rows::rows::MeasurementRow;
use sqlite::types::ValueRef;
use sqlite::{Row, params};
use std::alloc::Global;

// A row that is passed over by the index costs about so many that are by their places.
const PASSED_BY_INDEX: u64 = 4;

/// A measurement, and its place in the table, which is its rowid.
#[derive(Drop)]
pub struct MeasurementAt {
    pub place: i64,
    pub row: MeasurementRow,
}

impl FromRow for MeasurementAt {
    ghost use Rattle.std.specs.Prelude.{◌∷◌};
    ghost use Rattle.sqlite.specs.declared.types.Value.TheVariants.{Null, Text as Words};
    ghost use Rattle.canary_tables_rows.specs.Limits.{IsMeasurementWithin};
    ghost use Rattle.canary_tables_read.specs.Places.{placed_cells};

    ghost cells = { placed_cells };

    ghost whole = { λ name row. Null ∷ Words name ∷ row };

    ghost Within = { λ placed. IsMeasurementWithin placed.row };

    // The measurement of the service in columns 0 to 5, and its place in column 6.
    fn read(name: &Name, row: &Row) -> Result<MeasurementAt, ReadFault> {
        columns::has_width(row, 7)?;
        let place = place_at(row, 6)?;
        let row = MeasurementRow {
            service: *name,
            run: columns::number_at(row, 0)?,
            metric: columns::number_at(row, 1)?,
            ordinal: columns::number_at(row, 2)?,
            taken: columns::moment_at(row, 3)?,
            phase: columns::number_at(row, 4)?,
            outcome: columns::text_at(row, 5)?,
        };
        Ok(MeasurementAt { place, row })
    }
}

// The place that stands in a column.
fn place_at(row: &Row, at: usize) -> Result<i64, ReadFault>
    requires { at < length row.now }
    ensures found { IfOk result (λ place. column row.now at ≡ Int place) }
    ensures broken { result ≡ Err ReadFault.Broken
        → (place : ℤ) → ¬ (column row.now at ≡ Int place) }
    ensures unasked { result ≢ Err ReadFault.Storage }
{
    match row.get_ref(at) {
        Ok(ValueRef::Int(place)) => Ok(place),
        _ => Err(ReadFault::Broken),
    }
}

/// The measurements of the service's runs with their places, in their order: from that one on,
/// counted from 0, at most so many. `place` is a place up to which just `from` of them stand, if
/// one is known; if fewer rows are likely to stand between that place and the page's end than the
/// index would go over, the page is read from there. `Memory` if there is not enough, `Storage` if
/// the database fails, and if `from` is 2^63 or more and no place is used, `Broken` if one of these
/// measurements is not one that a program can hold.
pub fn measurements<Q: Reader>(
    conn: &mut Q,
    alloc: Global,
    service: &Name,
    from: u64,
    place: Option<i64>,
    most: u32,
) -> Result<Listed<MeasurementAt>, ReadFault>
    requires ready { Q.IsReady conn.old }
    ensures reads { Reads Q.IsReady Q.place Q.below Q.shows conn.old conn.new }
    ensures found { FindsPlaced service.now from place most Q.shows conn.old conn.new result }
    ensures broken { BreaksUnless MeasurementsWithin Q.shows conn.old conn.new result }
{
    match near_place(from, place, most) {
        Some(place) => after(conn, alloc, service, place, most),
        None => from_index(conn, alloc, service, from, most),
    }
}

/// The place of the last of a page: up to it stand as many of the service's measurements as up to
/// the page's end. None if the page is empty.
pub fn last_place(page: &[MeasurementAt]) -> Option<i64>
    ensures { MarksEnd page.now result }
{
    Some(page.last()?.place)
}

// The place, if fewer rows are likely to stand between it and the end of a page than the index goes
// over from the first measurement on. Of the rows up to it, one in so many was the service's.
fn near_place(from: u64, place: Option<i64>, most: u32) -> Option<i64>
    ensures { IfSome result (λ near. place ≡ Some near) }
{
    let place = place?;
    let most = u64::from(most);
    let behind = most.saturating_mul(u64::try_from(place).unwrap_or(0));
    let before = from.saturating_mul(from.saturating_add(most));
    if behind <= before.saturating_mul(PASSED_BY_INDEX) {
        Some(place)
    } else {
        None
    }
}

// Goes over the measurements of the service that come before, by the index on the service.
fn from_index<Q: Reader>(
    conn: &mut Q,
    alloc: Global,
    service: &Name,
    from: u64,
    most: u32,
) -> Result<Listed<MeasurementAt>, ReadFault>
    requires ready { Q.IsReady conn.old }
    ensures reads { Reads Q.IsReady Q.place Q.below Q.shows conn.old conn.new }
    ensures found { Gives (λ _. placed_from service.now from most (Q.shows conn.old).now)
        Q.shows conn.old conn.new result }
    ensures broken { BreaksUnless MeasurementsWithin Q.shows conn.old conn.new result }
{
    let offset = offset_of(from)?;
    let rows = conn.ask(
        "SELECT run, metric, ordinal, taken, phase, outcome, place FROM measurement \
         WHERE service = ?1 ORDER BY place LIMIT ?3 OFFSET ?2",
        params![service.as_str(), offset, most],
    )?;
    from_row::all(alloc, service, rows.as_slice())
}

// Goes over the rows of all services from the place on. `IS` keeps the planner from the index on
// the service, in which it would not seek the place.
fn after<Q: Reader>(
    conn: &mut Q,
    alloc: Global,
    service: &Name,
    place: i64,
    most: u32,
) -> Result<Listed<MeasurementAt>, ReadFault>
    requires ready { Q.IsReady conn.old }
    ensures reads { Reads Q.IsReady Q.place Q.below Q.shows conn.old conn.new }
    ensures found { Gives (λ _. placed_after service.now place most (Q.shows conn.old).now)
        Q.shows conn.old conn.new result }
    ensures broken { BreaksUnless MeasurementsWithin Q.shows conn.old conn.new result }
{
    let rows = conn.ask(
        "SELECT run, metric, ordinal, taken, phase, outcome, place FROM measurement \
         WHERE service IS ?1 AND place > ?2 ORDER BY place LIMIT ?3",
        params![service.as_str(), place, most],
    )?;
    from_row::all(alloc, service, rows.as_slice())
}
