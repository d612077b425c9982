//! The rows of a service's runs, in pages, and those of each run taken out of its page.
ghost use Rattle.std.specs.Prelude.{◌≡◌, false, filter, IfOk};
ghost use Rattle.canary_tables_rows.specs.Limits.{AreWithin};
ghost use Rattle.canary_tables_read.specs.Breaks.{BreaksUnless};
ghost use Rattle.canary_tables_read.specs.Finds.{Finds};
ghost use Rattle.canary_tables_read.specs.Sorts.{Sorts, metric_of};
ghost use Rattle.canary_tables_adopt.specs.Pages.{IsPageOf, AreCut, is_numbered, is_bound_at};
ghost use Rattle.canary_tables_adopt.specs.Pages.{is_tallied_at};
ghost use Rattle.canary_tables_read.specs.Reader.{Reads};

use canary_base::error::Memory;
use canary_base::lists::Listed;
use canary_base::names::Name;
use canary_tables_read::fault::ReadFault;
use canary_tables_read::pages;
use canary_tables_read::reader::Reader;
use canary_tables_rows::rows::{BindingRow, RunRow, TallyRow};
use std::alloc::Global;

/// The rows of some runs of a service: of themselves, of what binds them, and of their tallies.
#[derive(Drop)]
pub(crate) struct RunPage {
    pub runs: Listed<RunRow>,
    pub bindings: Listed<BindingRow>,
    pub tallies: Listed<TallyRow>,
}

/// The rows of the service's runs whose numbers are above `after` and at most `last`.
///
/// # Errors
/// `Broken` if the tables hold what no program can, `Memory` if there is not enough, `Storage` if
/// the database fails.
pub(crate) fn page_between<Q: Reader>(
    conn: &mut Q,
    alloc: Global,
    name: &Name,
    after: u32,
    last: u32,
) -> Result<RunPage, ReadFault>
    requires ready { Q.IsReady conn.old }
    ensures reads { Reads Q.IsReady Q.place Q.below Q.shows conn.old conn.new }
    ensures found { Finds (IsPageOf name.now after last) Q.shows conn.old conn.new result }
    ensures broken { BreaksUnless AreWithin Q.shows conn.old conn.new result }
{
    let runs = pages::runs(conn, alloc, name, after, last)?;
    let bindings = pages::bindings(conn, alloc, name, after, last)?;
    let tallies = pages::tallies(conn, alloc, name, after, last)?;
    Ok(RunPage {
        runs,
        bindings,
        tallies,
    })
}

/// Those rows of the page that are of the run of that number, its tallies by their metrics.
///
/// # Errors
/// `Memory`.
pub(crate) fn rows_of(alloc: Global, page: &RunPage, number: u32) -> Result<RunPage, Memory>
    ensures { IfOk result (AreCut number page.now) }
{
    let runs = runs_of(alloc, page.runs.as_slice(), number)?;
    let bindings = bindings_of(alloc, page.bindings.as_slice(), number)?;
    let tallies = tallies_of(alloc, page.tallies.as_slice(), number)?;
    Ok(RunPage {
        runs,
        bindings,
        tallies: by_metric(tallies)?,
    })
}

// The rows that are of the run of that number, in their order; or `Memory`.
fn runs_of(alloc: Global, rows: &[RunRow], number: u32) -> Result<Listed<RunRow>, Memory>
    ensures { IfOk result (λ found. found ≡ filter (is_numbered number) rows.now) }
{
    let mut found = Listed::of(Vec::new(alloc));
    for row in rows {
        if row.number == number {
            found.push(*row)?;
        }
    }
    Ok(found)
}

// The rows that bind the run of that number, in their order; or `Memory`.
fn bindings_of(
    alloc: Global,
    rows: &[BindingRow],
    number: u32,
) -> Result<Listed<BindingRow>, Memory>
    ensures { IfOk result (λ found. found ≡ filter (is_bound_at number) rows.now) }
{
    let mut found = Listed::of(Vec::new(alloc));
    for row in rows {
        if row.run == number {
            found.push(*row)?;
        }
    }
    Ok(found)
}

// The rows of tallies of the run of that number, in their order; or `Memory`.
fn tallies_of(alloc: Global, rows: &[TallyRow], number: u32) -> Result<Listed<TallyRow>, Memory>
    ensures { IfOk result (λ found. found ≡ filter (is_tallied_at number) rows.now) }
{
    let mut found = Listed::of(Vec::new(alloc));
    for row in rows {
        if row.run == number {
            found.push(*row)?;
        }
    }
    Ok(found)
}

// The tallies sorted by the places of their metrics; or `Memory`.
fn by_metric(tallies: Listed<TallyRow>) -> Result<Listed<TallyRow>, Memory>
    ensures { IfOk result (Sorts metric_of tallies) }
{
    let mut rows = tallies.into_vec();
    rows.sort_by_key(|tally| tally.metric)?;
    Ok(Listed::of(rows))
}
