//! Runs, as the tables give them.
ghost use Rattle.std.specs.Prelude.{◌≡◌, false, map, Some, None, Err, IfOk};
ghost use Rattle.sqlite.specs.Held.{state};
ghost use Rattle.canary_plan.specs.Plans.{strategy_of, bound_of, analysis_or_none};
ghost use Rattle.canary_once.specs.Records.{run_of};
ghost use Rattle.canary_tables_rows.specs.declared.rows.TallyRow.{TallyRow};
ghost use Rattle.canary_tables_schema.specs.Cells.{tables_in};
ghost use Rattle.canary_tables_schema.specs.Stores.{IsUsable};
ghost use Rattle.canary_tables_contents.specs.Reading.{known_in};
ghost use Rattle.canary_tables_contents.specs.Finding.{tallies_of, record_of_row};
ghost use Rattle.canary_tables_contents.specs.Finding.{open_run_of, open_runs_by};
ghost use Rattle.canary_tables.specs.Desk.{HasDesk, Looks, IsMadeBy, contents_in};

use crate::load::store_fault;
use crate::load_plans::{made, plan};
use canary_base::error::Memory;
use canary_base::lists::Listed;
use canary_base::names::Name;
use canary_base::numbers::Number;
use canary_metric::tally::Tally;
use canary_once::record::RunRecord;
use canary_plan::bound::Bound;
use canary_plan::service::ServiceSpec;
use canary_release::runs::OpenRun;
use canary_tables_contents::fault::RowFault;
use canary_tables_contents::{laws, reading};
use canary_tables_read::{runs, services};
use canary_tables_rows::rows::{RunRow, TallyRow};
use canary_tables_schema::fault::StoreFault;
use sqlite::{Alter, Connection};
use std::alloc::Global;

/// The tallies of a service's run, one a metric, in order; none if there is no such run.
///
/// # Errors
/// `Memory` if there is not enough, `Storage` if the database fails or holds what no desk writes.
pub(crate) fn tallies<S: Alter>(
    conn: &mut Connection<S>,
    alloc: Global,
    name: &Name,
    number: u32,
) -> Result<Listed<Tally>, StoreFault>
    requires ready { HasDesk conn.old.in_transaction (state S.Store conn.old) }
    ensures reads { Looks conn.new.in_transaction
        (state S.Store conn.old) (state S.Store conn.new) }
    ensures found { IsUsable (state S.Store conn.new) → IfOk result (λ found.
        found ≡ tallies_of (contents_in (state S.Store conn.old)) name.now number) }
{
    laws::tallies_found();
    let rows = runs::tallies(conn, alloc, name, number)?;
    Ok(counts_of(alloc, rows.as_slice())?)
}

// The counts in the rows, in their order; or `Memory`.
fn counts_of(alloc: Global, rows: &[TallyRow]) -> Result<Listed<Tally>, Memory>
    ensures { IfOk result (λ found. found ≡ map (λ (row : TallyRow). row.counts) rows.now) }
{
    let mut found = Listed::of(Vec::new(alloc));
    for row in rows {
        found.push(row.counts)?;
    }
    Ok(found)
}

/// The run of a service under that number, if there is one, with the analysis to which it was bound
/// when it was opened.
///
/// # Errors
/// `Memory` if there is not enough, `Storage` if the database fails or holds what no desk writes.
pub(crate) fn run<S: Alter>(
    conn: &mut Connection<S>,
    alloc: Global,
    name: &Name,
    number: Number,
) -> Result<Option<RunRecord>, StoreFault>
    requires ready { HasDesk conn.old.in_transaction (state S.Store conn.old) }
    ensures reads { Looks conn.new.in_transaction
        (state S.Store conn.old) (state S.Store conn.new) }
    ensures found { IsUsable (state S.Store conn.new) → IfOk result (λ found.
        found ≡ run_of (contents_in (state S.Store conn.old)) name.now number) }
{
    laws::runs_have_services();
    let Some(row) = services::service(conn, name)? else {
        return Ok(None);
    };
    let made = made(alloc, row.spec.as_str())?;
    run_of(conn, alloc, &made, name, number.get())
}

// The run of a service that was asked for so.
fn run_of<S: Alter>(
    conn: &mut Connection<S>,
    alloc: Global,
    made: &ServiceSpec,
    name: &Name,
    number: u32,
) -> Result<Option<RunRecord>, StoreFault>
    requires ready { HasDesk conn.old.in_transaction (state S.Store conn.old) }
    ensures reads { Looks conn.new.in_transaction
        (state S.Store conn.old) (state S.Store conn.new) }
    ensures found { IsUsable (state S.Store conn.new)
        → IsMadeBy (state S.Store conn.old) name.now made.now → IfOk result (λ found.
        found ≡ run_of (contents_in (state S.Store conn.old)) name.now number) }
{
    laws::runs_found();
    let Some(row) = runs::run(conn, name, number)? else {
        return Ok(None);
    };
    let tallies = tallies(conn, alloc, name, number)?;
    let bound = bound_at(conn, alloc, made, &row)?;
    Ok(Some(record_of(alloc, &row, &bound, tallies)?))
}

// What the run of the row is bound to.
fn bound_at<S: Alter>(
    conn: &mut Connection<S>,
    alloc: Global,
    made: &ServiceSpec,
    row: &RunRow,
) -> Result<Bound, StoreFault>
    requires ready { HasDesk conn.old.in_transaction (state S.Store conn.old) }
    ensures reads { Looks conn.new.in_transaction
        (state S.Store conn.old) (state S.Store conn.new) }
    ensures found { IsUsable (state S.Store conn.new) → IfOk result (λ bound. bound
        ≡ bound_of
        (known_in (tables_in (state S.Store conn.old).now) row.now.service row.now.number)
        (strategy_of made.now)) }
{
    let (_strategy, bound) = plan(conn, alloc, made, &row.service, row.number)?;
    Ok(bound)
}

// The record of a run. `Storage` only if the row stands for none.
fn record_of(
    alloc: Global,
    row: &RunRow,
    bound: &Bound,
    tallies: Listed<Tally>,
) -> Result<RunRecord, StoreFault>
    ensures told { IfOk result (λ told. record_of_row
        (analysis_or_none bound.now row.now.step) tallies row.now ≡ Some told) }
    ensures storage { result ≡ Err StoreFault.Storage → record_of_row
        (analysis_or_none bound.now row.now.step) tallies row.now ≡ None }
{
    let closed = reading::closing(row.number, &row.ending).map_err(store_fault)?;
    let analysis = bound.analysis_or_none(alloc, row.step)?;
    Ok(RunRecord {
        number: row.number,
        step: row.step,
        analysis,
        started: row.started,
        closed,
        tallies,
    })
}

/// The open runs of a service, by their numbers, each with its tallies and with the analysis that
/// is bound at its step.
///
/// # Errors
/// `Memory` if there is not enough, `Storage` if the database fails or holds what no desk writes.
pub(crate) fn open_runs<S: Alter>(
    conn: &mut Connection<S>,
    alloc: Global,
    name: &Name,
    bound: &Bound,
) -> Result<Listed<OpenRun>, StoreFault>
    requires ready { HasDesk conn.old.in_transaction (state S.Store conn.old) }
    ensures reads { Looks conn.new.in_transaction
        (state S.Store conn.old) (state S.Store conn.new) }
    ensures found { IsUsable (state S.Store conn.new) → IfOk result (λ found.
        found ≡ open_runs_by (contents_in (state S.Store conn.old)) name.now bound.now) }
{
    laws::open_runs_found();
    let rows = runs::open_runs(conn, alloc, name)?;
    with_tallies(conn, alloc, name, bound, rows.as_slice())
}

// The open runs of these rows, in their order, each as by `open_run`.
fn with_tallies<S: Alter>(
    conn: &mut Connection<S>,
    alloc: Global,
    name: &Name,
    bound: &Bound,
    rows: &[RunRow],
) -> Result<Listed<OpenRun>, StoreFault>
    requires ready { HasDesk conn.old.in_transaction (state S.Store conn.old) }
    ensures reads { Looks conn.new.in_transaction
        (state S.Store conn.old) (state S.Store conn.new) }
    ensures found { IsUsable (state S.Store conn.new) → IfOk result (λ found.
        found ≡ map (open_run_of bound.now (contents_in (state S.Store conn.old)) name.now)
        rows.now) }
{
    let mut found = Listed::of(Vec::new(alloc));
    for row in rows {
        found.push(open_run(conn, alloc, name, bound, row)?)?;
    }
    Ok(found)
}

// The open run of the row, with its tallies, and the analysis that is bound at its step.
fn open_run<S: Alter>(
    conn: &mut Connection<S>,
    alloc: Global,
    name: &Name,
    bound: &Bound,
    row: &RunRow,
) -> Result<OpenRun, StoreFault>
    requires ready { HasDesk conn.old.in_transaction (state S.Store conn.old) }
    ensures reads { Looks conn.new.in_transaction
        (state S.Store conn.old) (state S.Store conn.new) }
    ensures found { IsUsable (state S.Store conn.new) → IfOk result (λ found.
        found ≡ open_run_of bound.now (contents_in (state S.Store conn.old)) name.now
        row.now) }
{
    Ok(OpenRun {
        number: row.number,
        step: row.step,
        analysis: bound.analysis_or_none(alloc, row.step)?,
        started: row.started,
        tallies: tallies(conn, alloc, name, row.number)?,
    })
}
