//! Judging the tables of a desk.
ghost use Rattle.std.specs.Prelude.{◌≡◌, ◌≢◌, false, Err};
ghost use Rattle.canary_tables_contents.specs.Services.{IsJudged};
ghost use Rattle.canary_tables_adopt.specs.Judges.{FindsThat, RefusesUnless};
ghost use Rattle.canary_tables_read.specs.Reader.{Reads};

use crate::progress::JudgingProgress;
use crate::{callers, services, templates};
use canary_tables_read::fault::ReadFault;
use canary_tables_read::lists;
use canary_tables_read::reader::Reader;
use std::alloc::Global;

/// That the tables are those of sound contents: their callers, their templates and their services,
/// row by row. Nothing is changed. It reports to `progress` how many rows there are of receipts,
/// runs, bindings, tallies, measurements and histories, then the receipts of a caller as they are
/// judged, 256 at most at once, and a service's rows all at once.
///
/// # Errors
/// `Broken` if that is not so, or if a row is not one that a program can hold; `Memory` if there is
/// not enough; `Storage` if the database fails, or has more rows than are counted.
pub fn validate<Q: Reader, G: JudgingProgress>(
    conn: &mut Q,
    alloc: Global,
    progress: &mut G,
) -> Result<(), ReadFault>
    requires ready { Q.IsReady conn.old }
    ensures reads { Reads Q.IsReady Q.place Q.below Q.shows conn.old conn.new }
    ensures judged { FindsThat IsJudged Q.shows conn.old conn.new result }
    ensures refused { RefusesUnless IsJudged Q.shows conn.old conn.new result }
{
    progress.begin(count_rows(conn)?);
    judge_all(conn, alloc, progress)
}

// How many rows are reported to `progress`.
fn count_rows<Q: Reader>(conn: &mut Q) -> Result<u64, ReadFault>
    requires ready { Q.IsReady conn.old }
    ensures reads { Reads Q.IsReady Q.place Q.below Q.shows conn.old conn.new }
    ensures whole { result ≢ Err ReadFault.Broken }
{
    let kept = lists::kept_count(conn)?;
    let measured = lists::measurement_count(conn)?;
    let others = count_others(conn)?;
    Ok(kept.saturating_add(measured).saturating_add(others))
}

// How many rows of runs, bindings, tallies and histories there are, up to 2^64 - 1.
fn count_others<Q: Reader>(conn: &mut Q) -> Result<u64, ReadFault>
    requires ready { Q.IsReady conn.old }
    ensures reads { Reads Q.IsReady Q.place Q.below Q.shows conn.old conn.new }
    ensures whole { result ≢ Err ReadFault.Broken }
{
    let runs = count_runs(conn)?;
    let tallies = lists::tally_count(conn)?;
    let lines = lists::history_count(conn)?;
    Ok(runs.saturating_add(tallies).saturating_add(lines))
}

// The runs, and what they are bound to.
fn count_runs<Q: Reader>(conn: &mut Q) -> Result<u64, ReadFault>
    requires ready { Q.IsReady conn.old }
    ensures reads { Reads Q.IsReady Q.place Q.below Q.shows conn.old conn.new }
    ensures whole { result ≢ Err ReadFault.Broken }
{
    let runs = lists::run_count(conn)?;
    let bindings = lists::binding_count(conn)?;
    Ok(runs.saturating_add(bindings))
}

// Judges callers, templates and services, in this order: services rest on judged templates.
fn judge_all<Q: Reader, G: JudgingProgress>(
    conn: &mut Q,
    alloc: Global,
    progress: &mut G,
) -> Result<(), ReadFault>
    requires ready { Q.IsReady conn.old }
    ensures reads { Reads Q.IsReady Q.place Q.below Q.shows conn.old conn.new }
    ensures judged { FindsThat IsJudged Q.shows conn.old conn.new result }
    ensures refused { RefusesUnless IsJudged Q.shows conn.old conn.new result }
{
    callers::validate(conn, alloc, progress)?;
    templates::validate(conn, alloc)?;
    services::validate(conn, alloc, progress)
}
