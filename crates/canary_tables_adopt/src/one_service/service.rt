//! A service, with its runs, its measurements and its history.
ghost use Rattle.std.specs.Prelude.{◌≡◌, ◌≢◌, false, [], ◌∷◌, Some, None, IfOk, OnOk, Err};
ghost use Rattle.std.specs.Prelude.{filter};
ghost use Rattle.canary_plan.specs.declared.service.ServiceSpec.{ServiceSpec};
ghost use Rattle.canary_canonical.specs.Readings.{canonical_in};
ghost use Rattle.canary_release.specs.Parts.{is_broken};
ghost use Rattle.canary_tables_rows.specs.Tables.{is_service};
ghost use Rattle.canary_tables_contents.specs.Values.{made_from, stand_of};
ghost use Rattle.canary_tables_contents.specs.Services.{IsServiceJudged, open_of_record, open_runs_in};
ghost use Rattle.canary_tables_read.specs.declared.fault.ReadFault.TheVariants.{Broken, Storage};
ghost use Rattle.canary_tables_read.specs.Finds.{Finds};
ghost use Rattle.canary_tables_adopt.specs.OneService.{FindsJudged, RefusesJudged, IsPastJudged};
ghost use Rattle.canary_tables_adopt.specs.OneService.{totals_of, totals_bound, IsServiceUnder};
ghost use Rattle.canary_tables_adopt.specs.OneService.{IsServiceFound};
ghost use Rattle.canary_tables_read.specs.Reader.{Reads};

use crate::fault::read_fault;
use crate::one_service::measured::measured;
use crate::one_service::{counts, histories, runs};
use crate::totals::Totals;
use crate::{alone, bindings, strategies};
use canary_base::error::Memory;
use canary_base::lists::Listed;
use canary_base::names::Name;
use canary_once::record::RunRecord;
use canary_plan::bound::Bound;
use canary_plan::service::ServiceSpec;
use canary_plan::strategy::Strategy;
use canary_release::parts::is_broken;
use canary_release::runs::{OpenRun, Runs};
use canary_release::service::ServiceParts;
use canary_release::state::ServiceState;
use canary_tables_contents::reading;
use canary_tables_read::fault::ReadFault;
use canary_tables_read::reader::Reader;
use canary_tables_read::services;
use canary_tables_rows::rows::ServiceRow;
use std::alloc::Global;

/// How much the service of that name has, if templates are judged, and it stands once, is made by
/// an accepted command, is bound by its rows of binding, and has runs, measurements and lines that
/// come to what it is.
///
/// # Errors
/// `Broken` if that is not so, `Memory` if there is not enough, `Storage` if the database fails.
pub(crate) fn validate<Q: Reader>(
    conn: &mut Q,
    alloc: Global,
    name: &Name,
) -> Result<Totals, ReadFault>
    requires ready { Q.IsReady conn.old }
    ensures reads { Reads Q.IsReady Q.place Q.below Q.shows conn.old conn.new }
    ensures judged { FindsJudged (IsServiceFound name.now)
        (Q.shows conn.old) (Q.shows conn.new) result }
    ensures refused { RefusesJudged (λ t. IsServiceUnder t name.now)
        (Q.shows conn.old) (Q.shows conn.new) result }
{
    let rows = services::service_rows(conn, alloc, name)?;
    let Some(row) = alone::only(rows) else {
        return Err(ReadFault::Broken);
    };
    judge_row(conn, alloc, &row)
}

// How much the service of the row has, if the row is the only one of its name.
fn judge_row<Q: Reader>(conn: &mut Q, alloc: Global, row: &ServiceRow) -> Result<Totals, ReadFault>
    requires ready { Q.IsReady conn.old }
    ensures reads { Reads Q.IsReady Q.place Q.below Q.shows conn.old conn.new }
    ensures judged { FindsJudged (λ t totals.
        filter (is_service row.now.name) t.services ≡ row.now ∷ []
        → IsServiceJudged t row.now × (totals ≡ totals_of t row.now))
        (Q.shows conn.old) (Q.shows conn.new) result }
    ensures refused { RefusesJudged (λ t. IsServiceJudged t row.now)
        (Q.shows conn.old) (Q.shows conn.new) result }
{
    let made = made_by(alloc, row)?;
    let strategy = strategies::strategy(conn, alloc, &made)?;
    let bound = bindings::attempt(conn, alloc, &row.name, &strategy)?;
    let service = stand_by(row, &strategy, &bound)?;
    judge_past(conn, alloc, row, service)
}

// The service that the row's text makes, which is of the row's name.
fn made_by(alloc: Global, row: &ServiceRow) -> Result<ServiceSpec, ReadFault>
    ensures made { IfOk result (λ made.
        (made_from (canonical_in row.now.spec) ≡ Some made) × (made.name ≡ row.now.name)) }
    ensures broken { result ≡ Err Broken → (made : ServiceSpec)
        → made_from (canonical_in row.now.spec) ≡ Some made → made.name ≢ row.now.name }
    ensures unasked { result ≢ Err Storage }
{
    let made = spec_of(alloc, row.spec.as_str())?;
    if made.name == row.name {
        Ok(made)
    } else {
        Err(ReadFault::Broken)
    }
}

// The service that the text makes; `Broken` if it is no command that makes one; or `Memory`.
fn spec_of(alloc: Global, text: &str) -> Result<ServiceSpec, ReadFault>
    ensures made { IfOk result (λ made. made_from (canonical_in text.now) ≡ Some made) }
    ensures broken { result ≡ Err Broken → made_from (canonical_in text.now) ≡ None }
    ensures unasked { result ≢ Err Storage }
{
    reading::made(alloc, text).map_err(read_fault)
}

// How it stands.
fn stand_by(row: &ServiceRow, strategy: &Strategy, bound: &Bound) -> Result<ServiceState, ReadFault>
    ensures service { IfOk result (λ service.
        stand_of row.now.name strategy.now bound.now row.now.standing ≡ Some service) }
    ensures broken { result ≡ Err Broken
        → stand_of row.now.name strategy.now bound.now row.now.standing ≡ None }
    ensures unasked { result ≢ Err Storage }
{
    reading::service(row.name, strategy, bound, &row.standing).map_err(read_fault)
}

// How much it has, if its runs, its measurements and its lines come to how it stands.
fn judge_past<Q: Reader>(
    conn: &mut Q,
    alloc: Global,
    row: &ServiceRow,
    service: ServiceState,
) -> Result<Totals, ReadFault>
    requires ready { Q.IsReady conn.old }
    ensures reads { Reads Q.IsReady Q.place Q.below Q.shows conn.old conn.new }
    ensures judged { Finds
        (λ t totals. IsPastJudged t row.now service
        × (totals ≡ totals_bound t row.now service.bound)) Q.shows conn.old conn.new result }
    ensures refused { RefusesJudged (λ t. IsPastJudged t row.now service)
        (Q.shows conn.old) (Q.shows conn.new) result }
{
    let count = row.standing.runs;
    let runs = runs::runs(conn, alloc, &row.name, &service.strategy, count)?;
    let measurements = measured(conn, alloc, &row.name, runs.as_slice())?;
    let lines = histories::lines(conn, alloc, &row.name)?;
    let bindings = counts::binding_count(alloc, &service.bound, runs.as_slice())?;
    judge_parts(alloc, service, count, runs.as_slice())?;
    Ok(Totals {
        runs: u64::from(count),
        bindings,
        tallies: counts::tally_count(runs.as_slice())?,
        measurements,
        lines,
    })
}

// That a service can stand so, with those of these runs that are open.
fn judge_parts(
    alloc: Global,
    service: ServiceState,
    count: u32,
    runs: &[RunRecord],
) -> Result<(), ReadFault>
    ensures judged { OnOk result (is_broken (record {
      service = service;
      runs = record { count = count; open_runs = open_runs_in runs.now };
    }) ≡ false) }
    ensures refused { result ≡ Err Broken → is_broken (record {
      service = service;
      runs = record { count = count; open_runs = open_runs_in runs.now };
    }) ≢ false }
    ensures unasked { result ≢ Err Storage }
{
    let open_runs = open_among(alloc, runs)?;
    let runs = Runs { count, open_runs };
    if is_broken(&ServiceParts { service, runs }) {
        return Err(ReadFault::Broken);
    }
    Ok(())
}

// The runs that are not closed, in their order, as a service has them; or `Memory`.
fn open_among(alloc: Global, runs: &[RunRecord]) -> Result<Listed<OpenRun>, Memory>
    ensures { IfOk result (λ open_runs. open_runs ≡ open_runs_in runs.now) }
{
    let mut found = Listed::of(Vec::new(alloc));
    for run in runs {
        if run.closed.is_none() {
            found.push(open_run(run, alloc)?)?;
        }
    }
    Ok(found)
}

// An open run of a service, from the record of a run that is not closed; or `Memory`.
fn open_run(run: &RunRecord, alloc: Global) -> Result<OpenRun, Memory>
    ensures { IfOk result (λ open_run. open_run ≡ open_of_record run.now) }
{
    Ok(OpenRun {
        number: run.number,
        step: run.step,
        analysis: run.analysis.copy()?,
        started: run.started,
        tallies: run.tallies.copy(alloc)?,
    })
}
