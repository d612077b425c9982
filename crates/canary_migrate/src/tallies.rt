//! Tallies of the first schema, with their passes counted.
ghost use Rattle.std.specs.Prelude.{◌≡◌, ◌≢◌, ◌+◌, if◌then◌else◌, IfOk, Err, map};
ghost use Rattle.std.specs.List.{AllByRecursion, suffix_len};
ghost use Rattle.canary_tables_rows.specs.Limits.{IsMeasurementWithin, IsTallyWithin};
ghost use Rattle.canary_tables_read.specs.Breaks.{BreaksUnless};
ghost use Rattle.canary_tables_read.specs.Finds.{Gives};
ghost use Rattle.canary_migrate.specs.Migrated.{is_passed, counted_with, tally_of};
ghost use Rattle.canary_tables_read.specs.Reader.{Reads};

use canary_base::lists::Listed;
use canary_metric::laws;
use canary_metric::tally::Tally;
use canary_tables_read::fault::ReadFault;
use canary_tables_read::first::FirstTally;
use canary_tables_read::metrics;
use canary_tables_read::reader::Reader;
use canary_tables_rows::rows::{MeasurementRow, TallyRow};
use std::alloc::Global;

/// These tallies, each with the passes of its metric, by the measurements.
///
/// # Errors
/// `Broken` if a measurement is not one that a program can hold, or the counts of a tally are those
/// of no measurements; `Memory` if there is not enough, `Storage` if the database fails or has more
/// rows than are counted.
pub(crate) fn with_passes<Q: Reader>(
    conn: &mut Q,
    alloc: Global,
    rows: &[FirstTally],
) -> Result<Listed<TallyRow>, ReadFault>
    requires ready { Q.IsReady conn.old }
    ensures reads { Reads Q.IsReady Q.place Q.below Q.shows conn.old conn.new }
    ensures found { Gives (λ t. map (tally_of t.measurements) rows.now)
        Q.shows conn.old conn.new result }
    ensures broken { BreaksUnless (λ t. AllByRecursion IsMeasurementWithin t.measurements
        × AllByRecursion IsTallyWithin (map (tally_of t.measurements) rows.now))
        Q.shows conn.old conn.new result }
{
    let mut found = Listed::of(Vec::new(alloc));
    for row in rows {
        found.push(tally(conn, alloc, row)?)?;
    }
    Ok(found)
}

// The tally with the passes that the measurements of its metric come to.
fn tally<Q: Reader>(conn: &mut Q, alloc: Global, row: &FirstTally) -> Result<TallyRow, ReadFault>
    requires ready { Q.IsReady conn.old }
    ensures reads { Reads Q.IsReady Q.place Q.below Q.shows conn.old conn.new }
    ensures found { Gives (λ t. tally_of t.measurements row.now)
        Q.shows conn.old conn.new result }
    ensures broken { BreaksUnless (λ t. AllByRecursion IsMeasurementWithin t.measurements
        × IsTallyWithin (tally_of t.measurements row.now)) Q.shows conn.old conn.new result }
{
    let measurements = metrics::measurements(conn, alloc, &row.service, row.run, row.metric)?;
    let passes = passes_in(measurements.as_slice())?;
    counted(row, passes)
}

// How many of the last measurements are successes, one after another.
fn passes_in(rows: &[MeasurementRow]) -> Result<u32, ReadFault>
    ensures value { IfOk result (λ passes. passes ≡ suffix_len is_passed rows.now) }
    ensures whole { result ≢ Err ReadFault.Broken }
{
    let mut passes = 0_u32;
    for row in rows {
        passes = passes_with(passes, row)?;
    }
    Ok(passes)
}

// The same with one measurement more.
fn passes_with(passes: u32, row: &MeasurementRow) -> Result<u32, ReadFault>
    ensures value { IfOk result (λ more. more ≡ (if is_passed row.now then passes + 1 else 0)) }
    ensures whole { result ≢ Err ReadFault.Broken }
{
    if row.phase != 1 {
        return Ok(0);
    }
    match passes.checked_add(1) {
        Some(more) => Ok(more),
        None => Err(ReadFault::Storage),
    }
}

// The tally with these passes; `Broken` if no measurements can have such counts.
fn counted(row: &FirstTally, passes: u32) -> Result<TallyRow, ReadFault>
    ensures found { IfOk result (λ tally. tally ≡ counted_with row.now passes) }
    ensures broken { result ≡ Err ReadFault.Broken → ¬ IsTallyWithin (counted_with row.now passes) }
{
    laws::consistent();
    match Tally::from_counts(
        row.counted,
        row.failed,
        row.inconclusive,
        row.errors,
        row.consecutive,
        passes,
        row.last,
    ) {
        Some(counts) => Ok(TallyRow {
            service: row.service,
            run: row.run,
            metric: row.metric,
            counts,
        }),
        None => Err(ReadFault::Broken),
    }
}
