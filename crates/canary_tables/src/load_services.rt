//! Services, as the tables give them.
ghost use Rattle.std.specs.Prelude.{◌≡◌, false, true, Some, Err, option_map, IfOk};
ghost use Rattle.sqlite.specs.Held.{state};
ghost use Rattle.canary_release.specs.declared.service.ServiceParts.{ServiceParts};
ghost use Rattle.canary_release.specs.Parts.{is_broken};
ghost use Rattle.canary_release.specs.Stored.{stored_service};
ghost use Rattle.canary_tables_schema.specs.Stores.{IsUsable};
ghost use Rattle.canary_tables_contents.specs.Values.{stand_of};
ghost use Rattle.canary_tables_contents.specs.Finding.{parts_standing};
ghost use Rattle.canary_tables.specs.Desk.{HasDesk, Looks, contents_in};

use crate::load::store_fault;
use crate::load_plans::{made, plan};
use crate::load_runs::open_runs;
use canary_base::lists::Listed;
use canary_base::names::Name;
use canary_plan::bound::Bound;
use canary_plan::strategy::Strategy;
use canary_release::runs::{OpenRun, Runs};
use canary_release::service::{Service, ServiceParts};
use canary_tables_contents::{laws, reading};
use canary_tables_read::services;
use canary_tables_rows::rows::ServiceRow;
use canary_tables_schema::fault::StoreFault;
use sqlite::{Alter, Connection};
use std::alloc::Global;

/// The service of that name as it is kept, if there is one.
///
/// # Errors
/// `Memory` if there is not enough, `Storage` if the database fails or holds what no desk writes.
pub(crate) fn service<S: Alter>(
    conn: &mut Connection<S>,
    alloc: Global,
    name: &Name,
) -> Result<Option<Service>, StoreFault>
    requires ready { HasDesk conn.old.in_transaction (state S.Store conn.old) }
    ensures reads { Looks conn.new.in_transaction
        (state S.Store conn.old) (state S.Store conn.new) }
    ensures found { IsUsable (state S.Store conn.new) → IfOk result (λ found.
        found ≡ stored_service (contents_in (state S.Store conn.old)).desk name.now) }
{
    laws::services_found();
    let Some(row) = services::service(conn, name)? else {
        return Ok(None);
    };
    let made = made(alloc, row.spec.as_str())?;
    let (strategy, bound) = plan(conn, alloc, &made, name, 0)?;
    let open_runs = open_runs(conn, alloc, name, &bound)?;
    Ok(Some(service_of(&row, &strategy, &bound, open_runs)?))
}

// The service of a row, with its strategy, what it is bound to, and its open runs. `Storage` only
// if the row stands for none, or for parts that make none.
fn service_of(
    row: &ServiceRow,
    strategy: &Strategy,
    bound: &Bound,
    open_runs: Listed<OpenRun>,
) -> Result<Service, StoreFault>
    ensures found { IfOk result (λ service. option_map (parts_standing row.now open_runs)
        (stand_of row.now.name strategy.now bound.now row.now.standing) ≡ Some service) }
    ensures storage { result ≡ Err StoreFault.Storage → (parts : ServiceParts)
        → option_map (parts_standing row.now open_runs)
        (stand_of row.now.name strategy.now bound.now row.now.standing) ≡ Some parts
        → is_broken parts ≡ true }
{
    let service = reading::service(row.name, strategy, bound, &row.standing).map_err(store_fault)?;
    let count = row.standing.runs;
    let runs = Runs { count, open_runs };
    match Service::from_parts(ServiceParts { service, runs }) {
        Ok(service) => Ok(service),
        Err(_) => Err(StoreFault::Storage),
    }
}
