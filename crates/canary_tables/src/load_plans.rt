//! Templates and strategies, as the tables give them.
ghost use Rattle.std.specs.Prelude.{◌≡◌, ◌≢◌, false, Some, None, Ok, Err, IfOk, IfSome};
ghost use Rattle.std.specs.FinMap.{get};
ghost use Rattle.sqlite.specs.Held.{state};
ghost use Rattle.canary_plan.specs.Plans.{strategy_of, bound_of};
ghost use Rattle.canary_plan.specs.PlanRefusals.{analyses, strategy_refusal};
ghost use Rattle.canary_plan.specs.Commands.{all_names};
ghost use Rattle.canary_canonical.specs.Readings.{canonical_in};
ghost use Rattle.canary_release.specs.Desks.{newest};
ghost use Rattle.canary_once.specs.Contents.{templates_named};
ghost use Rattle.canary_tables_schema.specs.Cells.{tables_in};
ghost use Rattle.canary_tables_schema.specs.Stores.{IsUsable};
ghost use Rattle.canary_tables_contents.specs.Values.{revision_of_row, made_from};
ghost use Rattle.canary_tables_contents.specs.Reading.{known_in};
ghost use Rattle.canary_tables_contents.specs.declared.fault.RowFault.TheVariants.{Broken};
ghost use Rattle.canary_tables_contents.specs.Reads.{IsRevisionRead};
ghost use Rattle.canary_tables.specs.Desk.{HasDesk, Looks, contents_in};

use crate::cache::Cache;
use crate::cached;
use crate::load::store_fault;
use canary_base::error::Memory;
use canary_base::lists::Listed;
use canary_base::names::Name;
use canary_plan::bound::Bound;
use canary_plan::command::Command;
use canary_plan::fault::CheckFault;
use canary_plan::service::ServiceSpec;
use canary_plan::strategy::Strategy;
use canary_plan::template::Template;
use canary_plan::templates::Templates;
use canary_tables_adopt::bindings;
use canary_tables_contents::{laws, reading};
use canary_tables_read::services;
use canary_tables_rows::rows::RevisionRow;
use canary_tables_schema::fault::StoreFault;
use sqlite::{Alter, Connection};
use std::alloc::Global;

/// The newest revision of the template of that name, if there is one.
///
/// # Errors
/// `Memory` if there is not enough, `Storage` if the database fails or holds what no desk writes.
pub(crate) fn template<S: Alter>(
    conn: &mut Connection<S>,
    alloc: Global,
    name: &Name,
) -> Result<Option<Template>, StoreFault>
    requires ready { HasDesk conn.old.in_transaction (state S.Store conn.old) }
    ensures reads { Looks conn.new.in_transaction
        (state S.Store conn.old) (state S.Store conn.new) }
    ensures found { IsUsable (state S.Store conn.new) → IfOk result (λ found.
        found ≡ newest (contents_in (state S.Store conn.old)).desk.templates name.now) }
{
    laws::newest_found();
    let Some(row) = services::newest(conn, name)? else {
        return Ok(None);
    };
    Ok(Some(revision(alloc, &row)?))
}

// The revision of a template in this row. `Storage` only if the row is read as none.
fn revision(alloc: Global, row: &RevisionRow) -> Result<Template, StoreFault>
    ensures found { IfOk result (λ found. revision_of_row row.now ≡ Some found) }
    ensures storage { result ≡ Err StoreFault.Storage → IsRevisionRead row.now.revision
        (canonical_in row.now.spec) (Err Broken) }
{
    match reading::revision(alloc, row) {
        Ok(template) => Ok(template),
        Err(fault) => Err(store_fault(fault)),
    }
}

// The newest revisions of the templates that have one of these names, with nothing in a cache.
fn templates<S: Alter>(
    conn: &mut Connection<S>,
    alloc: Global,
    names: &[Name],
) -> Result<Templates, StoreFault>
    requires ready { HasDesk conn.old.in_transaction (state S.Store conn.old) }
    ensures reads { Looks conn.new.in_transaction
        (state S.Store conn.old) (state S.Store conn.new) }
    ensures found { IsUsable (state S.Store conn.new) → IfOk result (λ found.
        found ≡ templates_named (contents_in (state S.Store conn.old)) names.now) }
{
    let mut nothing = Cache::new(alloc, 0);
    cached::templates(conn, alloc, &mut nothing, names)
}

/// The service that this text makes, as it was asked for.
///
/// # Errors
/// `Memory` if there is not enough, `Storage` if the text makes no service.
pub(crate) fn made(alloc: Global, spec: &str) -> Result<ServiceSpec, StoreFault>
    ensures made { IfOk result (λ made. made_from (canonical_in spec.now) ≡ Some made) }
    ensures storage { result ≡ Err StoreFault.Storage → made_from (canonical_in spec.now) ≡ None }
{
    reading::made(alloc, spec).map_err(store_fault)
}

// The templates that it names.
fn names_of(alloc: Global, made: &ServiceSpec) -> Result<Listed<Name>, Memory>
    ensures { IfOk result (λ names. names ≡ all_names (analyses made.now)) }
{
    Command::Service(made.copy(alloc)?).names_looked_up(alloc, None)
}

// Its strategy, if these templates are all that it names.
fn checked(
    alloc: Global,
    made: &ServiceSpec,
    bound_templates: &Templates,
) -> Result<Option<Strategy>, Memory>
    ensures found { IfOk result
        (λ found. IfSome found (λ strategy. strategy ≡ strategy_of made.now)) }
    ensures refused { result ≡ Ok None
        → strategy_refusal (get bound_templates.now) made.now ≢ None }
{
    match Strategy::check(alloc, made, bound_templates) {
        Ok(strategy) => Ok(Some(strategy)),
        Err(CheckFault::Refused(_)) => Ok(None),
        Err(CheckFault::Memory) => Err(Memory),
    }
}

// Its strategy. `Storage` only if these templates refuse it.
fn accepted(
    alloc: Global,
    made: &ServiceSpec,
    bound_templates: &Templates,
) -> Result<Strategy, StoreFault>
    ensures found { IfOk result (λ strategy. strategy ≡ strategy_of made.now) }
    ensures storage { result ≡ Err StoreFault.Storage
        → strategy_refusal (get bound_templates.now) made.now ≢ None }
{
    checked(alloc, made, bound_templates)?.ok_or(StoreFault::Storage)
}

// Its strategy, which the newest templates accept.
fn strategy<S: Alter>(
    conn: &mut Connection<S>,
    alloc: Global,
    made: &ServiceSpec,
) -> Result<Strategy, StoreFault>
    requires ready { HasDesk conn.old.in_transaction (state S.Store conn.old) }
    ensures reads { Looks conn.new.in_transaction
        (state S.Store conn.old) (state S.Store conn.new) }
    ensures found { IfOk result (λ strategy. strategy ≡ strategy_of made.now) }
{
    let names = names_of(alloc, made)?;
    let bound_templates = templates(conn, alloc, names.as_slice())?;
    accepted(alloc, made, &bound_templates)
}

// The same. Those to which it is bound are mostly all that it names, and are read already.
fn strategy_by<S: Alter>(
    conn: &mut Connection<S>,
    alloc: Global,
    made: &ServiceSpec,
    bound_templates: &Templates,
) -> Result<Strategy, StoreFault>
    requires ready { HasDesk conn.old.in_transaction (state S.Store conn.old) }
    ensures reads { Looks conn.new.in_transaction
        (state S.Store conn.old) (state S.Store conn.new) }
    ensures found { IfOk result (λ strategy. strategy ≡ strategy_of made.now) }
{
    match checked(alloc, made, bound_templates)? {
        Some(strategy) => Ok(strategy),
        None => strategy(conn, alloc, made),
    }
}

// The templates to which that run of the service is bound; its present attempt, for run 0.
fn bound_templates<S: Alter>(
    conn: &mut Connection<S>,
    alloc: Global,
    name: &Name,
    run: u32,
) -> Result<Templates, StoreFault>
    requires ready { HasDesk conn.old.in_transaction (state S.Store conn.old) }
    ensures reads { Looks conn.new.in_transaction
        (state S.Store conn.old) (state S.Store conn.new) }
    ensures found { IsUsable (state S.Store conn.new) → IfOk result (λ bound_templates.
        get bound_templates ≡ known_in (tables_in (state S.Store conn.old).now) name.now run) }
{
    let Some(bound_templates) = bindings::bound_templates(conn, alloc, name, run)? else {
        return Err(StoreFault::Storage);
    };
    Ok(bound_templates)
}

/// The strategy of a service that was asked for so, and what that run of it is bound to; its
/// present attempt, for run 0.
///
/// # Errors
/// `Memory` if there is not enough, `Storage` if the database fails or holds what no desk writes.
pub(crate) fn plan<S: Alter>(
    conn: &mut Connection<S>,
    alloc: Global,
    made: &ServiceSpec,
    name: &Name,
    run: u32,
) -> Result<(Strategy, Bound), StoreFault>
    requires ready { HasDesk conn.old.in_transaction (state S.Store conn.old) }
    ensures reads { Looks conn.new.in_transaction
        (state S.Store conn.old) (state S.Store conn.new) }
    ensures strategy { IfOk result (λ found. found.0 ≡ strategy_of made.now) }
    ensures bound { IsUsable (state S.Store conn.new) → IfOk result (λ found. found.1
        ≡ bound_of (known_in (tables_in (state S.Store conn.old).now) name.now run)
        (strategy_of made.now)) }
{
    let bound_templates = bound_templates(conn, alloc, name, run)?;
    let strategy = strategy_by(conn, alloc, made, &bound_templates)?;
    let bound = strategy.bound_to(alloc, &bound_templates)?;
    Ok((strategy, bound))
}
