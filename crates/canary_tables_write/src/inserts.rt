//! INSERT: one row more in a table, after the others. After an error nothing is said of the tables
//! in the transaction, and what was committed stays.
ghost use Rattle.std.specs.Prelude.{◌≡◌, [], None};
ghost use Rattle.sqlite.specs.Held.{state};
ghost use Rattle.canary_metric.specs.Counts.{counts};
ghost use Rattle.canary_tables_rows.specs.declared.rows.KeptRow.{KeptRow};
ghost use Rattle.canary_tables_rows.specs.declared.rows.RevisionRow.{RevisionRow};
ghost use Rattle.canary_tables_rows.specs.declared.rows.ServiceRow.{ServiceRow};
ghost use Rattle.canary_tables_rows.specs.declared.rows.BindingRow.{BindingRow};
ghost use Rattle.canary_tables_rows.specs.declared.rows.RunRow.{RunRow};
ghost use Rattle.canary_tables_rows.specs.declared.rows.TallyRow.{TallyRow};
ghost use Rattle.canary_tables_rows.specs.declared.rows.HistoryRow.{HistoryRow};
ghost use Rattle.canary_tables_rows.specs.Changes.{with_caller, with_kept, with_revision, with_service};
ghost use Rattle.canary_tables_rows.specs.Changes.{with_binding, with_run, with_tally, with_measurement};
ghost use Rattle.canary_tables_rows.specs.Changes.{with_line};
ghost use Rattle.canary_tables_schema.specs.Stores.{Writes, Wrote};
ghost use Rattle.canary_tables_rows.specs.Changes.{tallies_opened};
ghost use Rattle.canary_tables_write.specs.Fills.{StaysSound};

use crate::cells::seconds;
use canary_base::moments::Moment;
use canary_base::names::Name;
use canary_tables_rows::rows::{MeasurementRow, ServiceColumns};
use sqlite::{Alter, Error, Transaction, params};

/// Inserts a caller whose first request is settled. An error is the database's, for example if the
/// caller is there already.
pub fn insert_caller<S: Alter>(tx: &mut Transaction<'_, S>, name: &Name) -> Result<usize, Error>
    ensures writes { Writes tx.old.conn.ghost_name tx.new.conn.ghost_name
        (state S.Store tx.old.conn.now) (state S.Store tx.new.conn.now) result }
    ensures wrote { Wrote (with_caller (record { name = name.now; settled = 1 }))
        (state S.Store tx.old.conn.now) (state S.Store tx.new.conn.now) result }
{
    tx.execute(
        "INSERT INTO caller (name, settled) VALUES (?1, 1)",
        params![name.as_str()],
    )
}

/// Inserts a settled request: the canonical text of its command, and the status and the body of its
/// reply. An error is the database's, for example if the caller has a request of that number.
pub fn insert_kept<S: Alter>(
    tx: &mut Transaction<'_, S>,
    caller: &Name,
    number: u32,
    command: &str,
    status: u32,
    body: &str,
) -> Result<usize, Error>
    ensures writes { Writes tx.old.conn.ghost_name tx.new.conn.ghost_name
        (state S.Store tx.old.conn.now) (state S.Store tx.new.conn.now) result }
    ensures wrote { let row : KeptRow = record {
      caller = caller.now;
      number = number;
      command = command.now;
      status = status;
      body = body.now;
    }
        in Wrote (with_kept row)
        (state S.Store tx.old.conn.now) (state S.Store tx.new.conn.now) result }
{
    tx.execute(
        "INSERT INTO kept (caller, number, command, status, body) VALUES (?1, ?2, ?3, ?4, ?5)",
        params![caller.as_str(), number, command, status, body],
    )
}

/// Inserts a revision of a template, by its number, from 1, and the canonical text of the command
/// that added it. An error is the database's, for example if the template has a revision of that
/// number.
pub fn insert_revision<S: Alter>(
    tx: &mut Transaction<'_, S>,
    name: &Name,
    revision: u32,
    spec: &str,
) -> Result<usize, Error>
    ensures writes { Writes tx.old.conn.ghost_name tx.new.conn.ghost_name
        (state S.Store tx.old.conn.now) (state S.Store tx.new.conn.now) result }
    ensures wrote { let row : RevisionRow = record {
      name = name.now;
      revision = revision;
      spec = spec.now;
    }
        in Wrote (with_revision row)
        (state S.Store tx.old.conn.now) (state S.Store tx.new.conn.now) result }
    ensures sound { StaysSound
        (state S.Store tx.old.conn.now) (state S.Store tx.new.conn.now) result }
{
    tx.execute(
        "INSERT INTO revision (name, revision, spec) VALUES (?1, ?2, ?3)",
        params![name.as_str(), revision, spec],
    )
}

/// Inserts a service, by the canonical text of the command that made it, and how it stands. An
/// error is the database's, for example if the service is there already.
pub fn insert_service<S: Alter>(
    tx: &mut Transaction<'_, S>,
    name: &Name,
    spec: &str,
    standing: &ServiceColumns,
) -> Result<usize, Error>
    ensures writes { Writes tx.old.conn.ghost_name tx.new.conn.ghost_name
        (state S.Store tx.old.conn.now) (state S.Store tx.new.conn.now) result }
    ensures wrote { let row : ServiceRow = record {
      name = name.now;
      spec = spec.now;
      standing = standing.now;
    }
        in Wrote (with_service row)
        (state S.Store tx.old.conn.now) (state S.Store tx.new.conn.now) result }
{
    tx.execute(
        "INSERT INTO service (name, spec, stable, version, state, step, entered, hold, \
         background, runs, last) VALUES (?1, ?2, ?3, ?4, ?5, ?6, ?7, ?8, ?9, ?10, ?11)",
        params![
            name.as_str(),
            spec,
            standing.stable.as_str(),
            standing.version.as_str(),
            standing.state,
            standing.step,
            seconds(standing.entered),
            standing.hold,
            standing.background,
            standing.runs,
            seconds(standing.last),
        ],
    )
}

/// Inserts which revision of a template a run of a service is bound to; run 0 stands for the
/// service's present attempt. An error is the database's, for example if the run is bound to one of
/// that template already, or the service is not there.
pub fn insert_binding<S: Alter>(
    tx: &mut Transaction<'_, S>,
    service: &Name,
    run: u32,
    template: &Name,
    revision: u32,
) -> Result<usize, Error>
    ensures writes { Writes tx.old.conn.ghost_name tx.new.conn.ghost_name
        (state S.Store tx.old.conn.now) (state S.Store tx.new.conn.now) result }
    ensures wrote { let row : BindingRow = record {
      service = service.now;
      run = run;
      template = template.now;
      revision = revision;
    }
        in Wrote (with_binding row)
        (state S.Store tx.old.conn.now) (state S.Store tx.new.conn.now) result }
    ensures sound { StaysSound
        (state S.Store tx.old.conn.now) (state S.Store tx.new.conn.now) result }
{
    tx.execute(
        "INSERT INTO binding (service, run, template, revision) VALUES (?1, ?2, ?3, ?4)",
        params![service.as_str(), run, template.as_str(), revision],
    )
}

/// Inserts a run that is open: of the analysis at a step, or of the background if there is no step.
/// An error is the database's, for example if the service has a run of that number.
pub fn insert_run<S: Alter>(
    tx: &mut Transaction<'_, S>,
    service: &Name,
    number: u32,
    step: Option<u32>,
    started: Moment,
) -> Result<usize, Error>
    ensures writes { Writes tx.old.conn.ghost_name tx.new.conn.ghost_name
        (state S.Store tx.old.conn.now) (state S.Store tx.new.conn.now) result }
    ensures wrote { let row : RunRow = record {
      service = service.now;
      number = number;
      step = step;
      started = started;
      ending = record { closed = None; outside = 0; verdict = 0 };
    }
        in Wrote (with_run row)
        (state S.Store tx.old.conn.now) (state S.Store tx.new.conn.now) result }
{
    tx.execute(
        "INSERT INTO run (service, number, step, started, outside, verdict) \
         VALUES (?1, ?2, ?3, ?4, 0, 0)",
        params![service.as_str(), number, step, seconds(started)],
    )
}

/// Inserts the tally of no measurements for a metric of a run, by the metric's place in the run,
/// from 0. An error is the database's, for example if the tally is there already.
pub fn insert_tally<S: Alter>(
    tx: &mut Transaction<'_, S>,
    service: &Name,
    run: u32,
    metric: u32,
) -> Result<usize, Error>
    ensures writes { Writes tx.old.conn.ghost_name tx.new.conn.ghost_name
        (state S.Store tx.old.conn.now) (state S.Store tx.new.conn.now) result }
    ensures wrote { let row : TallyRow = record {
      service = service.now;
      run = run;
      metric = metric;
      counts = counts [];
    }
        in Wrote (with_tally row)
        (state S.Store tx.old.conn.now) (state S.Store tx.new.conn.now) result }
{
    tx.execute(
        "INSERT INTO tally (service, run, metric, counted, failed, inconclusive, errors, \
         consecutive, passes) VALUES (?1, ?2, ?3, 0, 0, 0, 0, 0, 0)",
        params![service.as_str(), run, metric],
    )
}

/// Inserts tallies of no measurements for so many metrics of a run, the first in place 0. An error
/// is the database's, for example if one of the tallies is there already.
pub fn insert_tallies<S: Alter>(
    tx: &mut Transaction<'_, S>,
    service: &Name,
    run: u32,
    metrics: u32,
) -> Result<(), Error>
    ensures writes { Writes tx.old.conn.ghost_name tx.new.conn.ghost_name
        (state S.Store tx.old.conn.now) (state S.Store tx.new.conn.now) result }
    ensures wrote { Wrote (tallies_opened service.now run 0 metrics)
        (state S.Store tx.old.conn.now) (state S.Store tx.new.conn.now) result }
{
    for metric in 0..metrics {
        insert_tally(tx, service, run, metric)?;
    }
    Ok(())
}

/// Inserts a measurement. An error is the database's, for example if its metric has one of that
/// number.
pub fn insert_measurement<S: Alter>(
    tx: &mut Transaction<'_, S>,
    row: &MeasurementRow,
) -> Result<usize, Error>
    ensures writes { Writes tx.old.conn.ghost_name tx.new.conn.ghost_name
        (state S.Store tx.old.conn.now) (state S.Store tx.new.conn.now) result }
    ensures wrote { Wrote (with_measurement row.now)
        (state S.Store tx.old.conn.now) (state S.Store tx.new.conn.now) result }
{
    tx.execute(
        "INSERT INTO measurement (service, run, metric, ordinal, taken, phase, outcome) \
         VALUES (?1, ?2, ?3, ?4, ?5, ?6, ?7)",
        params![
            row.service.as_str(),
            row.run,
            row.metric,
            row.ordinal,
            seconds(row.taken),
            row.phase,
            row.outcome.as_str(),
        ],
    )
}

/// Inserts a line of a service's history. An error is the database's, for example if memory is
/// refused.
pub fn insert_line<S: Alter>(
    tx: &mut Transaction<'_, S>,
    service: &Name,
    moment: Moment,
    line: &str,
) -> Result<usize, Error>
    ensures writes { Writes tx.old.conn.ghost_name tx.new.conn.ghost_name
        (state S.Store tx.old.conn.now) (state S.Store tx.new.conn.now) result }
    ensures wrote { let row : HistoryRow = record {
      service = service.now;
      moment = moment;
      line = line.now;
    }
        in Wrote (with_line row)
        (state S.Store tx.old.conn.now) (state S.Store tx.new.conn.now) result }
{
    tx.execute(
        "INSERT INTO history (service, moment, line) VALUES (?1, ?2, ?3)",
        params![service.as_str(), seconds(moment), line],
    )
}
