//! Rows in pages, of which each is of so many keys at most.
ghost use Rattle.canary_tables_read.specs.Breaks.{BreaksUnless, KeptWithin, BindingsWithin};
ghost use Rattle.canary_tables_read.specs.Breaks.{RunsWithin, TalliesWithin};
ghost use Rattle.canary_tables_read.specs.Finds.{Gives, Finds};
ghost use Rattle.canary_tables_read.specs.Pages.{number_of_kept};
ghost use Rattle.canary_tables_read.specs.Sorts.{Sorts};
ghost use Rattle.canary_tables_read.specs.Reader.{Reads};
ghost use Rattle.canary_tables_read.specs.Chosen.{kept_after, bindings_after, runs_after};
ghost use Rattle.canary_tables_read.specs.Chosen.{tallies_after};

use crate::fault::ReadFault;
use crate::from_row;
use crate::reader::Reader;
use canary_base::lists::Listed;
use canary_base::names::Name;
use canary_tables_rows::rows::{BindingRow, KeptRow, RunRow, TallyRow};
use sqlite::params;
use std::alloc::Global;

/// What is kept of the caller's requests whose numbers are above `after` and at most `last`, by
/// their numbers. `Memory` if there is not enough, `Storage` if the database fails, `Broken` if a
/// row is not one that a program can hold.
pub fn kept<Q: Reader>(
    conn: &mut Q,
    alloc: Global,
    caller: &Name,
    after: u32,
    last: u32,
) -> Result<Listed<KeptRow>, ReadFault>
    requires ready { Q.IsReady conn.old }
    ensures reads { Reads Q.IsReady Q.place Q.below Q.shows conn.old conn.new }
    ensures found { Finds (λ t. Sorts number_of_kept (kept_after caller.now after last t))
        Q.shows conn.old conn.new result }
    ensures broken { BreaksUnless KeptWithin Q.shows conn.old conn.new result }
{
    let rows = conn.ask(
        "SELECT number, command, status, body FROM kept \
         WHERE caller = ?1 AND number > ?2 AND number <= ?3 ORDER BY number",
        params![caller.as_str(), after, last],
    )?;
    from_row::all(alloc, caller, rows.as_slice())
}

/// The runs of the service whose numbers are above `after` and at most `last`, in the order in
/// which they were added. `Memory` if there is not enough, `Storage` if the database fails,
/// `Broken` if a row is not one that a program can hold.
pub fn runs<Q: Reader>(
    conn: &mut Q,
    alloc: Global,
    service: &Name,
    after: u32,
    last: u32,
) -> Result<Listed<RunRow>, ReadFault>
    requires ready { Q.IsReady conn.old }
    ensures reads { Reads Q.IsReady Q.place Q.below Q.shows conn.old conn.new }
    ensures found { Gives (runs_after service.now after last) Q.shows conn.old conn.new result }
    ensures broken { BreaksUnless RunsWithin Q.shows conn.old conn.new result }
{
    let rows = conn.ask(
        "SELECT number, step, started, closed, outside, verdict FROM run \
         WHERE service = ?1 AND number > ?2 AND number <= ?3 ORDER BY rowid",
        params![service.as_str(), after, last],
    )?;
    from_row::all(alloc, service, rows.as_slice())
}

/// The revisions of templates to which those runs of the service are bound whose numbers are above
/// `after` and at most `last`, in the order in which they were added. `Memory` if there is not
/// enough, `Storage` if the database fails, `Broken` if a row is not one that a program can hold.
pub fn bindings<Q: Reader>(
    conn: &mut Q,
    alloc: Global,
    service: &Name,
    after: u32,
    last: u32,
) -> Result<Listed<BindingRow>, ReadFault>
    requires ready { Q.IsReady conn.old }
    ensures reads { Reads Q.IsReady Q.place Q.below Q.shows conn.old conn.new }
    ensures found { Gives (bindings_after service.now after last) Q.shows conn.old conn.new result }
    ensures broken { BreaksUnless BindingsWithin Q.shows conn.old conn.new result }
{
    let rows = conn.ask(
        "SELECT run, template, revision FROM binding \
         WHERE service = ?1 AND run > ?2 AND run <= ?3 ORDER BY rowid",
        params![service.as_str(), after, last],
    )?;
    from_row::all(alloc, service, rows.as_slice())
}

/// The counts of the metrics of those runs of the service whose numbers are above `after` and at
/// most `last`, in the order in which they were added. `Memory` if there is not enough, `Storage`
/// if the database fails, `Broken` if a row is not one that a program can hold.
pub fn tallies<Q: Reader>(
    conn: &mut Q,
    alloc: Global,
    service: &Name,
    after: u32,
    last: u32,
) -> Result<Listed<TallyRow>, ReadFault>
    requires ready { Q.IsReady conn.old }
    ensures reads { Reads Q.IsReady Q.place Q.below Q.shows conn.old conn.new }
    ensures found { Gives (tallies_after service.now after last) Q.shows conn.old conn.new result }
    ensures broken { BreaksUnless TalliesWithin Q.shows conn.old conn.new result }
{
    let rows = conn.ask(
        "SELECT run, metric, counted, failed, inconclusive, errors, consecutive, passes, last \
         FROM tally WHERE service = ?1 AND run > ?2 AND run <= ?3 ORDER BY rowid",
        params![service.as_str(), after, last],
    )?;
    from_row::all(alloc, service, rows.as_slice())
}
