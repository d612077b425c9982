//! All services, with all that is theirs.
ghost use Rattle.std.specs.Prelude.{◌≡◌, ◌≢◌, ℕ, min, false, Err, IfOk, OnOk};
ghost use Rattle.std.specs.List.{AllByRecursion};
ghost use Rattle.canary_tables_contents.specs.Services.{AreServicesJudged};
ghost use Rattle.canary_tables_read.specs.declared.fault.ReadFault.TheVariants.{Broken};
ghost use Rattle.canary_tables_adopt.specs.Judges.{FindsThat, RefusesUnless};
ghost use Rattle.canary_tables_adopt.specs.OneService.{FindsJudged, RefusesJudged};
ghost use Rattle.canary_tables_adopt.specs.OneService.{IsServiceUnder, AreServicesFound, HaveTotals};
ghost use Rattle.canary_tables_read.specs.Reader.{Reads};

use crate::one_service::service;
use crate::progress::JudgingProgress;
use crate::totals::{self, Totals};
use canary_base::names::Name;
use canary_tables_contents::judged_laws as judged;
use canary_tables_read::fault::ReadFault;
use canary_tables_read::lists;
use canary_tables_read::reader::Reader;
use std::alloc::Global;

/// That each service is as it is to be, if templates are judged, and that no table has other rows.
///
/// # Errors
/// `Broken` if that is not so, `Memory` if there is not enough, `Storage` if the database fails or
/// has more rows than are counted.
pub(crate) fn validate<Q: Reader, G: JudgingProgress>(
    conn: &mut Q,
    alloc: Global,
    progress: &mut G,
) -> Result<(), ReadFault>
    requires ready { Q.IsReady conn.old }
    ensures reads { Reads Q.IsReady Q.place Q.below Q.shows conn.old conn.new }
    ensures judged { FindsJudged (λ t judged. AreServicesJudged t)
        (Q.shows conn.old) (Q.shows conn.new) result }
    ensures refused { RefusesJudged AreServicesJudged
        (Q.shows conn.old) (Q.shows conn.new) result }
{
    judged::totals();
    let names = lists::service_names(conn, alloc)?;
    let totals = judge_each(conn, alloc, names.as_slice(), progress)?;
    are_all(conn, &totals)
}

// How much the services of these names have.
fn judge_each<Q: Reader, G: JudgingProgress>(
    conn: &mut Q,
    alloc: Global,
    names: &[Name],
    progress: &mut G,
) -> Result<Totals, ReadFault>
    requires ready { Q.IsReady conn.old }
    ensures reads { Reads Q.IsReady Q.place Q.below Q.shows conn.old conn.new }
    ensures judged { FindsJudged (AreServicesFound names.now)
        (Q.shows conn.old) (Q.shows conn.new) result }
    ensures refused { RefusesJudged (λ t. AllByRecursion (IsServiceUnder t) names.now)
        (Q.shows conn.old) (Q.shows conn.new) result }
{
    let mut totals = Totals::none();
    for name in names {
        let more = service::validate(conn, alloc, name)?;
        totals = totals.with(more)?;
        progress.judged(more.rows());
    }
    Ok(totals)
}

// That the tables have no more than that.
fn are_all<Q: Reader>(conn: &mut Q, totals: &Totals) -> Result<(), ReadFault>
    requires ready { Q.IsReady conn.old }
    ensures reads { Reads Q.IsReady Q.place Q.below Q.shows conn.old conn.new }
    ensures judged { FindsThat (λ t. HaveTotals t totals.now) Q.shows conn.old conn.new result }
    ensures refused { RefusesUnless (λ t. HaveTotals t totals.now)
        Q.shows conn.old conn.new result }
{
    are_as_many(totals.runs, lists::run_count(conn))?;
    are_as_many(totals.bindings, lists::binding_count(conn))?;
    are_as_many(totals.tallies, lists::tally_count(conn))?;
    are_as_many(totals.measurements, lists::measurement_count(conn))?;
    are_as_many(totals.lines, lists::history_count(conn))
}

// That so many rows are all that a table has, if its count is read.
fn are_as_many(found: u64, count: Result<u64, ReadFault>) -> Result<(), ReadFault>
    ensures all { OnOk result ((rows : ℕ)
        → IfOk count (λ n. n ≡ min rows 9223372036854775807) → found ≡ rows) }
    ensures broken { result ≡ Err Broken → count ≢ Err Broken → (rows : ℕ)
        → IfOk count (λ n. n ≡ min rows 9223372036854775807) → found ≢ rows }
{
    totals::are_all(found, count?)
}
