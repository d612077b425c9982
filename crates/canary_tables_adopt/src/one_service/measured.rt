//! The measurements of a service, read in pages and counted one after another.
ghost use Rattle.std.specs.Prelude.{◌≡◌, ◌≢◌, ◌≤◌, ◌∷◌, [], IfOk, IfErr, Err, length, map};
ghost use Rattle.canary_once.specs.declared.record.RunRecord.{RunRecord};
ghost use Rattle.canary_tables_contents.specs.Values.{measurement_of_row};
ghost use Rattle.canary_tables_contents.specs.Services.{metrics_of_runs};
ghost use Rattle.canary_tables_read.specs.declared.fault.ReadFault.TheVariants.{Broken, Storage};
ghost use Rattle.canary_tables_read.specs.Finds.{Finds};
ghost use Rattle.canary_tables_read.specs.Places.{row_of};
ghost use Rattle.canary_tables_adopt.specs.Judges.{RefusesUnless};
ghost use Rattle.canary_tables_adopt.specs.Measured.{AreCountedTo, AreMeasured, IsPageCounted};
ghost use Rattle.canary_tables_read.specs.Chosen.{measurements_of};
ghost use Rattle.canary_tables_adopt.specs.Measured.{IsNoted};
ghost use Rattle.canary_tables_adopt.specs.OfService.{HasSuch, IsTold};
ghost use Rattle.canary_tables_read.specs.Reader.{Reads};

use crate::fault::read_fault;
use crate::totals::sum;
use canary_base::names::Name;
use canary_once::record::RunRecord;
use canary_release::effect::Recorded;
use canary_tables_contents::counting::{count_next, none_counted};
use canary_tables_contents::counts::Counts;
use canary_tables_contents::reading;
use canary_tables_read::after::{self, MeasurementAt};
use canary_tables_read::fault::ReadFault;
use canary_tables_read::reader::Reader;
use canary_tables_rows::rows::MeasurementRow;
use std::alloc::Global;

// The most measurements that are read at once.
const PAGE: u32 = 32_768;

/// How many measurements are counted, what they come to, and a place up to which just these stand,
/// if one is known.
#[derive(Drop)]
pub(crate) struct SoFar {
    pub counts: Counts,
    pub count: u64,
    pub place: Option<i64>,
}

impl SoFar {
    // How many measurements are counted so far, of all runs and metrics.
    fn count(&self) -> u64
        ensures { result ≡ self.now.count }
    {
        self.count
    }
}

/// How many measurements the service has, if each of them is read, they come one after another, and
/// to the tallies of these runs, which are numbered from 1 on.
///
/// # Errors
/// `Broken` if that is not so, or the tables hold what no program can; `Memory` if there is not
/// enough, `Storage` if the database fails, or has more rows than are counted.
pub(crate) fn measured<Q: Reader>(
    conn: &mut Q,
    alloc: Global,
    name: &Name,
    runs: &[RunRecord],
) -> Result<u64, ReadFault>
    requires ready { Q.IsReady conn.old }
    ensures reads { Reads Q.IsReady Q.place Q.below Q.shows conn.old conn.new }
    ensures found { Finds (λ t count. AreMeasured name.now runs.now t
        × (count ≡ length (measurements_of name.now t))) Q.shows conn.old conn.new result }
    ensures broken { RefusesUnless (AreMeasured name.now runs.now)
        Q.shows conn.old conn.new result }
{
    let counts = none_counted(alloc, runs)?;
    let mut so_far = SoFar {
        counts,
        count: 0,
        place: None,
    };
    'pages: for _ in 0..u64::MAX {
        let before = so_far.count();
        so_far = count_page(conn, alloc, name, runs, so_far)?;
        if so_far.count() - before < u64::from(PAGE) {
            return tallied(runs, &so_far);
        }
    }
    Err(ReadFault::Storage)
}

// How many are counted, if these come to the tallies of the runs.
fn tallied(runs: &[RunRecord], so_far: &SoFar) -> Result<u64, ReadFault>
    ensures found { IfOk result (λ count. (count ≡ so_far.now.count)
        × (map (λ (r : RunRecord). r.tallies) runs.now ≡ so_far.now.counts)) }
    ensures broken { result ≡ Err Broken
        → ¬ (map (λ (r : RunRecord). r.tallies) runs.now ≡ so_far.now.counts) }
    ensures compared { IfErr result (λ fault. fault ≡ Broken) }
{
    if so_far.counts.are_of(runs) {
        Ok(so_far.count)
    } else {
        Err(ReadFault::Broken)
    }
}

// The next measurements of the service, counted too.
fn count_page<Q: Reader>(
    conn: &mut Q,
    alloc: Global,
    name: &Name,
    runs: &[RunRecord],
    so_far: SoFar,
) -> Result<SoFar, ReadFault>
    requires ready { Q.IsReady conn.old }
    requires noted { IsNoted (Q.shows conn.old) name.now so_far }
    ensures reads { Reads Q.IsReady Q.place Q.below Q.shows conn.old conn.new }
    ensures noted { IfOk result (IsNoted (Q.shows conn.new) name.now) }
    ensures found { Finds (IsPageCounted name.now runs.now 32768 so_far)
        Q.shows conn.old conn.new result }
    ensures broken { RefusesUnless (HasSuch (IsPageCounted name.now runs.now 32768 so_far))
        Q.shows conn.old conn.new result }
    ensures more { IfOk result (λ after. so_far.count ≤ after.count) }
{
    let SoFar {
        counts,
        count,
        place,
    } = so_far;
    let rows = after::measurements(conn, alloc, name, count, place, PAGE)?;
    let place = after::last_place(rows.as_slice());
    let count = sum(count, rows.as_slice().len() as u64)?;
    let counts = count_rows(alloc, runs, counts, rows.as_slice())?;
    Ok(SoFar {
        counts,
        count,
        place,
    })
}

// The counts with the measurements of these rows.
fn count_rows(
    alloc: Global,
    runs: &[RunRecord],
    first: Counts,
    rows: &[MeasurementAt],
) -> Result<Counts, ReadFault>
    ensures counted { IfOk result
        (λ last. AreCountedTo (metrics_of_runs runs.now) first (map row_of rows.now) last) }
    ensures refused { result ≡ Err Broken → (last : _)
        → ¬ AreCountedTo (metrics_of_runs runs.now) first (map row_of rows.now) last }
    ensures unasked { result ≢ Err Storage }
{
    let mut counts = first;
    for placed in rows {
        counts = count_row(alloc, runs, counts, &placed.row)?;
    }
    Ok(counts)
}

// The counts with the measurement of one row; `Broken` if it is invalid or may not come next.
fn count_row(
    alloc: Global,
    runs: &[RunRecord],
    first: Counts,
    row: &MeasurementRow,
) -> Result<Counts, ReadFault>
    ensures counted { IfOk result
        (λ last. AreCountedTo (metrics_of_runs runs.now) first (row.now ∷ []) last) }
    ensures refused { result ≡ Err Broken → (last : _)
        → ¬ AreCountedTo (metrics_of_runs runs.now) first (row.now ∷ []) last }
    ensures unasked { result ≢ Err Storage }
{
    let measurement = measurement_of(alloc, row)?;
    let mut counts = first;
    if count_next(runs, &mut counts, &measurement) {
        Ok(counts)
    } else {
        Err(ReadFault::Broken)
    }
}

// The measurement of the row. A fault of the row becomes one of the read.
fn measurement_of(alloc: Global, row: &MeasurementRow) -> Result<Recorded, ReadFault>
    ensures { IsTold (measurement_of_row row.now) result }
{
    match reading::measurement(alloc, row) {
        Ok(measurement) => Ok(measurement),
        Err(fault) => Err(read_fault(fault)),
    }
}
