//! Runs, and the counts of their metrics.
ghost use Rattle.std.specs.Prelude.{◌≡◌, filter, IfOk, false};
ghost use Rattle.canary_tables_read.specs.Breaks.{BreaksUnless, RunsWithin, TalliesWithin};
ghost use Rattle.canary_tables_read.specs.Finds.{Gives, Finds, first};
ghost use Rattle.canary_tables_read.specs.Sorts.{Sorts, is_open, number_of, metric_of};
ghost use Rattle.canary_tables_read.specs.Reader.{Reads};
ghost use Rattle.canary_tables_read.specs.Chosen.{tallies_of, run_of, IsFrontOf, SortsOpenRunsOf};

use crate::fault::ReadFault;
use crate::from_row;
use crate::reader::Reader;
use canary_base::error::Memory;
use canary_base::lists::Listed;
use canary_base::names::Name;
use canary_tables_rows::rows::{RunRow, TallyRow};
use sqlite::params;
use std::alloc::Global;

/// The run of the service under that number, if there is one. `Memory` if there is not enough,
/// `Storage` if the database fails, `Broken` if the run's row is not one that a program can hold.
pub fn run<Q: Reader>(
    conn: &mut Q,
    service: &Name,
    number: u32,
) -> Result<Option<RunRow>, ReadFault>
    requires ready { Q.IsReady conn.old }
    ensures reads { Reads Q.IsReady Q.place Q.below Q.shows conn.old conn.new }
    ensures found { Gives (run_of service.now number) Q.shows conn.old conn.new result }
    ensures broken { BreaksUnless RunsWithin Q.shows conn.old conn.new result }
{
    let rows = conn.ask(
        "SELECT number, step, started, closed, outside, verdict FROM run \
         WHERE service = ?1 AND number = ?2 ORDER BY rowid",
        params![service.as_str(), number],
    )?;
    from_row::first(service, rows.as_slice())
}

/// The open runs of the service, by their numbers. `Memory` if there is not enough, `Storage` if
/// the database fails, `Broken` if a run that is read is not one that a program can hold.
pub fn open_runs<Q: Reader>(
    conn: &mut Q,
    alloc: Global,
    service: &Name,
) -> Result<Listed<RunRow>, ReadFault>
    requires ready { Q.IsReady conn.old }
    ensures reads { Reads Q.IsReady Q.place Q.below Q.shows conn.old conn.new }
    ensures found { Finds (SortsOpenRunsOf service.now) Q.shows conn.old conn.new result }
    ensures broken { BreaksUnless RunsWithin Q.shows conn.old conn.new result }
{
    let front = front_runs(conn, alloc, service)?;
    let open = open_among(alloc, front.as_slice())?;
    if open.as_slice().len() < 3 {
        Ok(by_number(open)?)
    } else {
        all_open_runs(conn, alloc, service)
    }
}

// Three runs of the service, the open ones first: then no run that is closed before them is read.
fn front_runs<Q: Reader>(
    conn: &mut Q,
    alloc: Global,
    service: &Name,
) -> Result<Listed<RunRow>, ReadFault>
    requires ready { Q.IsReady conn.old }
    ensures reads { Reads Q.IsReady Q.place Q.below Q.shows conn.old conn.new }
    ensures found { Finds (IsFrontOf service.now) Q.shows conn.old conn.new result }
    ensures broken { BreaksUnless RunsWithin Q.shows conn.old conn.new result }
{
    let rows = conn.ask(
        "SELECT number, step, started, closed, outside, verdict FROM run \
         WHERE service = ?1 ORDER BY closed LIMIT 3",
        params![service.as_str()],
    )?;
    from_row::all(alloc, service, rows.as_slice())
}

// The open runs of the service, for which all its runs are gone over.
fn all_open_runs<Q: Reader>(
    conn: &mut Q,
    alloc: Global,
    service: &Name,
) -> Result<Listed<RunRow>, ReadFault>
    requires ready { Q.IsReady conn.old }
    ensures reads { Reads Q.IsReady Q.place Q.below Q.shows conn.old conn.new }
    ensures found { Finds (SortsOpenRunsOf service.now) Q.shows conn.old conn.new result }
    ensures broken { BreaksUnless RunsWithin Q.shows conn.old conn.new result }
{
    let rows = conn.ask(
        "SELECT number, step, started, closed, outside, verdict FROM run \
         WHERE service = ?1 AND closed IS NULL ORDER BY number",
        params![service.as_str()],
    )?;
    from_row::all(alloc, service, rows.as_slice())
}

// The rows of runs that are not closed, in their order; or `Memory`.
fn open_among(alloc: Global, runs: &[RunRow]) -> Result<Listed<RunRow>, Memory>
    ensures { IfOk result (λ found. found ≡ filter is_open runs.now) }
{
    let mut open = Listed::of(Vec::new(alloc));
    for run in runs {
        if run.ending.closed.is_none() {
            open.push(*run)?;
        }
    }
    Ok(open)
}

// The rows sorted by the numbers of their runs; or `Memory`.
fn by_number(runs: Listed<RunRow>) -> Result<Listed<RunRow>, Memory>
    ensures { IfOk result (Sorts number_of runs) }
{
    let mut rows = runs.into_vec();
    rows.sort_by_key(|run| run.number)?;
    Ok(Listed::of(rows))
}

/// The counts of a run's metrics, by the places of the metrics. `Memory` if there is not enough,
/// `Storage` if the database fails, `Broken` if a row is not one that a program can hold.
pub fn tallies<Q: Reader>(
    conn: &mut Q,
    alloc: Global,
    service: &Name,
    run: u32,
) -> Result<Listed<TallyRow>, ReadFault>
    requires ready { Q.IsReady conn.old }
    ensures reads { Reads Q.IsReady Q.place Q.below Q.shows conn.old conn.new }
    ensures found { Finds (λ t. Sorts metric_of (tallies_of service.now run t))
        Q.shows conn.old conn.new result }
    ensures broken { BreaksUnless TalliesWithin Q.shows conn.old conn.new result }
{
    let rows = conn.ask(
        "SELECT run, metric, counted, failed, inconclusive, errors, consecutive, passes, last \
         FROM tally WHERE service = ?1 AND run = ?2 ORDER BY metric",
        params![service.as_str(), run],
    )?;
    from_row::all(alloc, service, rows.as_slice())
}
