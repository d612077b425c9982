//! To which revisions of templates a run is bound, as rows inside a transaction.
ghost use Rattle.std.specs.Prelude.{◌≡◌, IfOk};
ghost use Rattle.sqlite.specs.Held.{state};
ghost use Rattle.canary_plan.specs.Plans.{all_revisions, distinct};
ghost use Rattle.canary_tables_rows.specs.Changes.{HasBinding, with_binding, with_bound};
ghost use Rattle.canary_tables_schema.specs.Stores.{Writes, Wrote, WroteIf};
ghost use Rattle.canary_tables_contents.specs.Values.{binding_row};
ghost use Rattle.canary_tables_contents.specs.Settling.{all_bound, all_rebound, attempt_bound};
ghost use Rattle.canary_tables_contents.specs.Settling.{bindings_put, AllRebind};
ghost use Rattle.canary_tables_write.specs.Commits.{BindAsks, BeginAsks};

use crate::inserts::insert_binding;
use crate::kinds::begins;
use crate::updates::update_binding;
use canary_base::error::Memory;
use canary_base::lists::Listed;
use canary_base::names::Name;
use canary_canonical::command::CanonicalCommand;
use canary_plan::analysis_parts::{Revision, distinct};
use canary_plan::bound::Bound;
use canary_release::service::ServiceParts;
use canary_tables_schema::fault::{StoreFault, fault_of};
use sqlite::{Alter, Transaction};
use std::alloc::Global;

// A run of the service is bound to that revision.
fn bind<S: Alter>(
    tx: &mut Transaction<'_, S>,
    service: &Name,
    run: u32,
    revision: &Revision,
) -> Result<(), StoreFault>
    ensures writes { Writes tx.old.conn.ghost_name tx.new.conn.ghost_name
        (state S.Store tx.old.conn.now) (state S.Store tx.new.conn.now) result }
    ensures wrote { Wrote (with_binding (binding_row service.now run revision.now))
        (state S.Store tx.old.conn.now) (state S.Store tx.new.conn.now) result }
{
    insert_binding(tx, service, run, &revision.template, revision.number).map_err(fault_of)?;
    Ok(())
}

/// A run of the service is bound to these revisions, each by a row of its own.
///
/// # Errors
/// `Memory` if an allocation was refused, `Storage` if the store failed.
pub(crate) fn bind_all<S: Alter>(
    tx: &mut Transaction<'_, S>,
    service: &Name,
    run: u32,
    revisions: &[Revision],
) -> Result<(), StoreFault>
    ensures writes { Writes tx.old.conn.ghost_name tx.new.conn.ghost_name
        (state S.Store tx.old.conn.now) (state S.Store tx.new.conn.now) result }
    ensures wrote { Wrote (all_bound service.now run revisions.now)
        (state S.Store tx.old.conn.now) (state S.Store tx.new.conn.now) result }
{
    for revision in revisions {
        bind(tx, service, run, revision)?;
    }
    Ok(())
}

// The present attempt of the service is bound to that revision in place of another one.
fn rebind<S: Alter>(
    tx: &mut Transaction<'_, S>,
    service: &Name,
    revision: &Revision,
) -> Result<(), StoreFault>
    ensures writes { Writes tx.old.conn.ghost_name tx.new.conn.ghost_name
        (state S.Store tx.old.conn.now) (state S.Store tx.new.conn.now) result }
    ensures wrote { WroteIf (HasBinding service.now 0 revision.now.template)
        (with_bound service.now 0 revision.now.template revision.now.number)
        (state S.Store tx.old.conn.now) (state S.Store tx.new.conn.now) result }
{
    update_binding(tx, service, 0, &revision.template, revision.number).map_err(fault_of)?;
    Ok(())
}

// The present attempt of the service is bound to these revisions in place of others.
fn rebind_all<S: Alter>(
    tx: &mut Transaction<'_, S>,
    service: &Name,
    revisions: &[Revision],
) -> Result<(), StoreFault>
    ensures writes { Writes tx.old.conn.ghost_name tx.new.conn.ghost_name
        (state S.Store tx.old.conn.now) (state S.Store tx.new.conn.now) result }
    ensures wrote { WroteIf (AllRebind service.now 0 revisions.now)
        (all_rebound service.now 0 revisions.now)
        (state S.Store tx.old.conn.now) (state S.Store tx.new.conn.now) result }
{
    for revision in revisions {
        rebind(tx, service, revision)?;
    }
    Ok(())
}

// The present attempt of the service is bound to these revisions: to others before, or to none.
fn bind_attempt<S: Alter>(
    tx: &mut Transaction<'_, S>,
    service: &Name,
    revisions: &[Revision],
    is_bound: bool,
) -> Result<(), StoreFault>
    ensures writes { Writes tx.old.conn.ghost_name tx.new.conn.ghost_name
        (state S.Store tx.old.conn.now) (state S.Store tx.new.conn.now) result }
    ensures wrote { WroteIf (BindAsks is_bound service.now revisions.now)
        (attempt_bound service.now revisions.now)
        (state S.Store tx.old.conn.now) (state S.Store tx.new.conn.now) result }
{
    if is_bound {
        rebind_all(tx, service, revisions)
    } else {
        bind_all(tx, service, 0, revisions)
    }
}

// The revisions to which a strategy is bound, one of each template.
fn revisions_of(alloc: Global, bound: &Bound) -> Result<Listed<Revision>, Memory>
    ensures { IfOk result (λ found. found ≡ distinct (all_revisions bound.now)) }
{
    let all = bound.revisions(alloc)?;
    distinct(alloc, all.as_slice())
}

/// A command that begins an attempt binds it, as the service then stands; another one does nothing.
///
/// # Errors
/// `Memory` if an allocation was refused, `Storage` if the store failed.
pub(crate) fn put_bindings<S: Alter>(
    tx: &mut Transaction<'_, S>,
    alloc: Global,
    command: &CanonicalCommand,
    parts: &ServiceParts,
    is_bound: bool,
) -> Result<(), StoreFault>
    ensures writes { Writes tx.old.conn.ghost_name tx.new.conn.ghost_name
        (state S.Store tx.old.conn.now) (state S.Store tx.new.conn.now) result }
    ensures wrote { WroteIf (BeginAsks is_bound command.now parts.now)
        (bindings_put command.now parts.now)
        (state S.Store tx.old.conn.now) (state S.Store tx.new.conn.now) result }
{
    if !begins(command) {
        return Ok(());
    }
    let revisions = revisions_of(alloc, &parts.service.bound)?;
    bind_attempt(tx, &parts.service.name, revisions.as_slice(), is_bound)?;
    Ok(())
}
