//! The rows of binding of all services and their runs, by reads of a desk's tables.
ghost use Rattle.std.specs.Prelude.{◌≡◌, ◌++◌, IfOk, filter, flat_map};
ghost use Rattle.std.specs.List.{AllByRecursion};
ghost use Rattle.canary_canonical.specs.Readings.{canonical_in};
ghost use Rattle.canary_tables_rows.specs.Limits.{IsServiceWithin, IsRunWithin};
ghost use Rattle.canary_tables_rows.specs.Tables.{is_run};
ghost use Rattle.canary_tables_contents.specs.Values.{made_from};
ghost use Rattle.canary_tables_read.specs.Breaks.{BreaksUnless};
ghost use Rattle.canary_tables_read.specs.Finds.{Gives, first};
ghost use Rattle.canary_migrate.specs.Migrated.{all_bindings, bindings_named, bindings_made};
ghost use Rattle.canary_migrate.specs.Migrated.{bindings_of_runs, run_bindings};
ghost use Rattle.canary_tables_read.specs.Reader.{Reads};

use crate::named;
use canary_base::error::Memory;
use canary_base::lists::Listed;
use canary_base::names::Name;
use canary_plan::service::ServiceSpec;
use canary_tables_contents::fault::RowFault;
use canary_tables_contents::reading;
use canary_tables_read::fault::ReadFault;
use canary_tables_read::reader::Reader;
use canary_tables_read::{lists, runs, services};
use canary_tables_rows::rows::{BindingRow, ServiceRow};
use std::alloc::Global;

/// What all services and their runs are bound to, by revision 1 of each template.
///
/// # Errors
/// `Broken` if a service or a run is not one that a program can hold; `Memory` if there is not
/// enough, `Storage` if the database fails.
pub(crate) fn bindings<Q: Reader>(
    conn: &mut Q,
    alloc: Global,
) -> Result<Listed<BindingRow>, ReadFault>
    requires ready { Q.IsReady conn.old }
    ensures reads { Reads Q.IsReady Q.place Q.below Q.shows conn.old conn.new }
    ensures found { Gives (λ t. all_bindings t.services t.runs)
        Q.shows conn.old conn.new result }
    ensures broken { BreaksUnless (λ t. AllByRecursion IsServiceWithin t.services
        × AllByRecursion IsRunWithin t.runs) Q.shows conn.old conn.new result }
{
    let names = lists::service_names(conn, alloc)?;
    bindings_of_all(conn, alloc, names.as_slice())
}

// Those of the services of these names.
fn bindings_of_all<Q: Reader>(
    conn: &mut Q,
    alloc: Global,
    names: &[Name],
) -> Result<Listed<BindingRow>, ReadFault>
    requires ready { Q.IsReady conn.old }
    ensures reads { Reads Q.IsReady Q.place Q.below Q.shows conn.old conn.new }
    ensures found { Gives (λ t. flat_map (bindings_named t.services t.runs) names.now)
        Q.shows conn.old conn.new result }
    ensures broken { BreaksUnless (λ t. AllByRecursion IsServiceWithin t.services
        × AllByRecursion IsRunWithin t.runs) Q.shows conn.old conn.new result }
{
    let mut found = Listed::of(Vec::new(alloc));
    for name in names {
        let more = bindings_of(conn, alloc, name)?;
        found = joined(found, more.as_slice())?;
    }
    Ok(found)
}

// Rows, with others after them.
fn joined(found: Listed<BindingRow>, more: &[BindingRow]) -> Result<Listed<BindingRow>, Memory>
    ensures { IfOk result (λ all. all ≡ found ++ more.now) }
{
    let mut rows = found.into_vec();
    rows.extend_from_slice(more)?;
    Ok(Listed::of(rows))
}

// Those of the service of that name.
fn bindings_of<Q: Reader>(
    conn: &mut Q,
    alloc: Global,
    name: &Name,
) -> Result<Listed<BindingRow>, ReadFault>
    requires ready { Q.IsReady conn.old }
    ensures reads { Reads Q.IsReady Q.place Q.below Q.shows conn.old conn.new }
    ensures found { Gives (λ t. bindings_named t.services t.runs name.now)
        Q.shows conn.old conn.new result }
    ensures broken { BreaksUnless (λ t. AllByRecursion IsServiceWithin t.services
        × AllByRecursion IsRunWithin t.runs) Q.shows conn.old conn.new result }
{
    let rows = services::service_rows(conn, alloc, name)?;
    match rows.as_slice().first() {
        Some(row) => row_bindings(conn, alloc, row),
        None => Ok(Listed::of(Vec::new(alloc))),
    }
}

// Those of the service of the row.
fn row_bindings<Q: Reader>(
    conn: &mut Q,
    alloc: Global,
    row: &ServiceRow,
) -> Result<Listed<BindingRow>, ReadFault>
    requires ready { Q.IsReady conn.old }
    ensures reads { Reads Q.IsReady Q.place Q.below Q.shows conn.old conn.new }
    ensures found { Gives
        (λ t. bindings_made t.runs row.now (made_from (canonical_in row.now.spec)))
        Q.shows conn.old conn.new result }
    ensures broken { BreaksUnless (λ t. AllByRecursion IsRunWithin t.runs)
        Q.shows conn.old conn.new result }
{
    match made_by(alloc, row.spec.as_str())? {
        Some(made) => {
            let attempt = named::attempt_bindings(alloc, row.name, &made)?;
            with_runs(conn, alloc, row, &made, attempt)
        }
        None => Ok(Listed::of(Vec::new(alloc))),
    }
}

// The service that this text makes, if it makes one.
fn made_by(alloc: Global, text: &str) -> Result<Option<ServiceSpec>, Memory>
    ensures { IfOk result (λ made. made ≡ made_from (canonical_in text.now)) }
{
    match reading::made(alloc, text) {
        Ok(made) => Ok(Some(made)),
        Err(RowFault::Broken) => Ok(None),
        Err(RowFault::Memory) => Err(Memory),
    }
}

// These rows, and after them those of the runs of the service that was made so.
fn with_runs<Q: Reader>(
    conn: &mut Q,
    alloc: Global,
    row: &ServiceRow,
    made: &ServiceSpec,
    attempt: Listed<BindingRow>,
) -> Result<Listed<BindingRow>, ReadFault>
    requires ready { Q.IsReady conn.old }
    ensures reads { Reads Q.IsReady Q.place Q.below Q.shows conn.old conn.new }
    ensures found { Gives (λ t. attempt
        ++ bindings_of_runs t.runs row.now.name made.now row.now.standing.runs)
        Q.shows conn.old conn.new result }
    ensures broken { BreaksUnless (λ t. AllByRecursion IsRunWithin t.runs)
        Q.shows conn.old conn.new result }
{
    let mut found = attempt;
    for place in 0..row.standing.runs {
        let more = bindings_of_run(conn, alloc, &row.name, place + 1, made)?;
        found = joined(found, more.as_slice())?;
    }
    Ok(found)
}

// Those of the run of that number, if there is one.
fn bindings_of_run<Q: Reader>(
    conn: &mut Q,
    alloc: Global,
    name: &Name,
    number: u32,
    made: &ServiceSpec,
) -> Result<Listed<BindingRow>, ReadFault>
    requires ready { Q.IsReady conn.old }
    ensures reads { Reads Q.IsReady Q.place Q.below Q.shows conn.old conn.new }
    ensures found { Gives
        (λ t. run_bindings made.now (first (filter (is_run name.now number) t.runs)))
        Q.shows conn.old conn.new result }
    ensures broken { BreaksUnless (λ t. AllByRecursion IsRunWithin t.runs)
        Q.shows conn.old conn.new result }
{
    match runs::run(conn, name, number)? {
        Some(run) => Ok(named::bindings_at(alloc, &run, made)?),
        None => Ok(Listed::of(Vec::new(alloc))),
    }
}
