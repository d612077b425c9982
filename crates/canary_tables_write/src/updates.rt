//! UPDATE: the one row of a key is changed, if it is there. After an error nothing is said of the
//! tables in the transaction, and what was committed stays.
ghost use Rattle.std.specs.Prelude.{◌≡◌, Some};
ghost use Rattle.sqlite.specs.Held.{state};
ghost use Rattle.canary_tables_rows.specs.Changes.{HasCaller, HasService, HasBinding, HasRun, HasTally};
ghost use Rattle.canary_tables_rows.specs.Changes.{with_settled, with_standing, with_bound};
ghost use Rattle.canary_tables_rows.specs.Changes.{with_ending, with_counted};
ghost use Rattle.canary_tables_schema.specs.Stores.{Writes, WroteIf};

use crate::cells::seconds;
use canary_base::moments::Moment;
use canary_base::names::Name;
use canary_condition::outcome::Phase;
use canary_tables_rows::rows::ServiceColumns;
use sqlite::{Alter, Error, Transaction, params};

/// Sets how many requests of a caller are settled. An error is the database's, for example if
/// memory is refused.
pub fn update_caller<S: Alter>(
    tx: &mut Transaction<'_, S>,
    name: &Name,
    settled: u32,
) -> Result<usize, Error>
    ensures writes { Writes tx.old.conn.ghost_name tx.new.conn.ghost_name
        (state S.Store tx.old.conn.now) (state S.Store tx.new.conn.now) result }
    ensures wrote { WroteIf (HasCaller name.now) (with_settled name.now settled)
        (state S.Store tx.old.conn.now) (state S.Store tx.new.conn.now) result }
{
    tx.execute(
        "UPDATE caller SET settled = ?2 WHERE name = ?1",
        params![name.as_str(), settled],
    )
}

/// Sets how a service stands; the command that made it stays. An error is the database's, for
/// example if memory is refused.
pub fn update_service<S: Alter>(
    tx: &mut Transaction<'_, S>,
    name: &Name,
    standing: &ServiceColumns,
) -> Result<usize, Error>
    ensures writes { Writes tx.old.conn.ghost_name tx.new.conn.ghost_name
        (state S.Store tx.old.conn.now) (state S.Store tx.new.conn.now) result }
    ensures wrote { WroteIf (HasService name.now) (with_standing name.now standing.now)
        (state S.Store tx.old.conn.now) (state S.Store tx.new.conn.now) result }
{
    tx.execute(
        "UPDATE service SET stable = ?2, version = ?3, state = ?4, step = ?5, entered = ?6, \
         hold = ?7, background = ?8, runs = ?9, last = ?10 WHERE name = ?1",
        params![
            name.as_str(),
            standing.stable.as_str(),
            standing.version.as_str(),
            standing.state,
            standing.step,
            seconds(standing.entered),
            standing.hold,
            standing.background,
            standing.runs,
            seconds(standing.last),
        ],
    )
}

/// Sets which revision of a template a run of a service is bound to; run 0 stands for the service's
/// present attempt. An error is the database's, for example if memory is refused.
pub fn update_binding<S: Alter>(
    tx: &mut Transaction<'_, S>,
    service: &Name,
    run: u32,
    template: &Name,
    revision: u32,
) -> Result<usize, Error>
    ensures writes { Writes tx.old.conn.ghost_name tx.new.conn.ghost_name
        (state S.Store tx.old.conn.now) (state S.Store tx.new.conn.now) result }
    ensures wrote { WroteIf (HasBinding service.now run template.now)
        (with_bound service.now run template.now revision)
        (state S.Store tx.old.conn.now) (state S.Store tx.new.conn.now) result }
{
    tx.execute(
        "UPDATE binding SET revision = ?4 WHERE service = ?1 AND run = ?2 AND template = ?3",
        params![service.as_str(), run, template.as_str(), revision],
    )
}

/// Closes a run of a service: at a moment, from outside (1, else 0), and at the verdict with this
/// number. An error is the database's, for example if memory is refused.
pub fn close_run<S: Alter>(
    tx: &mut Transaction<'_, S>,
    service: &Name,
    number: u32,
    closed: Moment,
    outside: u32,
    verdict: u32,
) -> Result<usize, Error>
    ensures writes { Writes tx.old.conn.ghost_name tx.new.conn.ghost_name
        (state S.Store tx.old.conn.now) (state S.Store tx.new.conn.now) result }
    ensures wrote { WroteIf (HasRun service.now number)
        (with_ending service.now number
        (record { closed = Some closed; outside = outside; verdict = verdict }))
        (state S.Store tx.old.conn.now) (state S.Store tx.new.conn.now) result }
{
    tx.execute(
        "UPDATE run SET closed = ?3, outside = ?4, verdict = ?5 \
         WHERE service = ?1 AND number = ?2",
        params![service.as_str(), number, seconds(closed), outside, verdict],
    )
}

/// Counts one more measurement of a metric in a run, of that phase and taken at that moment. An
/// error is the database's, for example if memory is refused.
pub fn count_measurement<S: Alter>(
    tx: &mut Transaction<'_, S>,
    service: &Name,
    run: u32,
    metric: u32,
    phase: Phase,
    taken: Moment,
) -> Result<usize, Error>
    ensures writes { Writes tx.old.conn.ghost_name tx.new.conn.ghost_name
        (state S.Store tx.old.conn.now) (state S.Store tx.new.conn.now) result }
    ensures wrote { WroteIf (HasTally service.now run metric)
        (with_counted service.now run metric phase taken)
        (state S.Store tx.old.conn.now) (state S.Store tx.new.conn.now) result }
{
    let statement = match phase {
        Phase::Error => {
            "UPDATE tally SET errors = errors + 1, consecutive = consecutive + 1, passes = 0, \
             last = ?4 WHERE service = ?1 AND run = ?2 AND metric = ?3"
        }
        Phase::Failed => {
            "UPDATE tally SET counted = counted + 1, failed = failed + 1, consecutive = 0, \
             passes = 0, last = ?4 WHERE service = ?1 AND run = ?2 AND metric = ?3"
        }
        Phase::Inconclusive => {
            "UPDATE tally SET counted = counted + 1, inconclusive = inconclusive + 1, \
             consecutive = 0, passes = 0, last = ?4 \
             WHERE service = ?1 AND run = ?2 AND metric = ?3"
        }
        Phase::Successful => {
            "UPDATE tally SET counted = counted + 1, consecutive = 0, passes = passes + 1, \
             last = ?4 WHERE service = ?1 AND run = ?2 AND metric = ?3"
        }
        _ => {
            "UPDATE tally SET counted = counted + 1, consecutive = 0, passes = 0, last = ?4 \
             WHERE service = ?1 AND run = ?2 AND metric = ?3"
        }
    };
    tx.execute(
        statement,
        params![service.as_str(), run, metric, seconds(taken)],
    )
}
