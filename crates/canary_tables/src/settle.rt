//! A request is settled in a desk's database.
ghost use Rattle.std.specs.Prelude.{◌≡◌, IfOk, OnOk, OnErr, true, false, not};
ghost use Rattle.std.specs.Prelude.{option_copied, length, ◌==◌};
ghost use Rattle.sqlite.specs.Held.{state};
ghost use Rattle.canary_once.specs.Contents.{IsSettling, with_settlement};
ghost use Rattle.canary_tables_rows.specs.Tables.{Tables};
ghost use Rattle.canary_tables_read.specs.Finds.{Finds};
ghost use Rattle.canary_tables_schema.specs.Stores.{IsUsable};
ghost use Rattle.canary_tables.specs.Desk.{HasDesk, Looks, IsDesk, contents_in};
ghost use Rattle.canary_plan.specs.Plans.{all_revisions};
ghost use Rattle.canary_tables_contents.specs.Settling.{begins, has_bindings};
ghost use Rattle.canary_tables.specs.Caches.{IsKnown, IsKnownAs};
ghost use Rattle.canary_tables_write.specs.Commits.{IsBoundSaid};

use canary_base::error::Memory;
use canary_base::names::Name;
use canary_canonical::command::CanonicalCommand;
use canary_once::book::Settlement;
use canary_plan::bound::Bound;
use canary_release::decide::DeskChange;
use canary_release::service::Service;
use canary_tables_contents::laws;
use canary_tables_read::services::has_bindings;
use canary_tables_schema::fault::StoreFault;
use canary_tables_schema::laws as schema_laws;
use canary_tables_write::commit::commit;
use canary_tables_write::kinds::begins;
use sqlite::{Alter, Connection};
use std::alloc::Global;

// Whether the present attempt of the service of that name is bound. What is known of the service
// says so.
fn has_rows<S: Alter>(
    conn: &mut Connection<S>,
    alloc: Global,
    name: &Name,
    cached: Option<&Service>,
) -> Result<bool, StoreFault>
    requires ready { HasDesk conn.old.in_transaction (state S.Store conn.old) }
    requires cached { IsUsable (state S.Store conn.old) → IsKnownAs (option_copied cached)
        name.now (contents_in (state S.Store conn.old)) }
    ensures reads { Looks conn.new.in_transaction
        (state S.Store conn.old) (state S.Store conn.new) }
    ensures found { Finds (λ t has. has ≡ has_bindings name.now t)
        (state S.Store) conn.old conn.new result }
{
    schema_laws::one_reading();
    match cached {
        Some(service) => Ok(is_bound_to_any(alloc, service.bound())?),
        None => Ok(has_bindings(conn, name)?),
    }
}

// Whether an analysis is bound to some revision; or `Memory`.
fn is_bound_to_any(alloc: Global, bound: &Bound) -> Result<bool, Memory>
    ensures { IfOk result (λ any. any ≡ not (length (all_revisions bound.now) == 0)) }
{
    let revisions = bound.revisions(alloc)?;
    Ok(!revisions.as_slice().is_empty())
}

// Whether the service's present attempt is bound, if the command begins another one.
fn has_attempt<S: Alter>(
    conn: &mut Connection<S>,
    alloc: Global,
    command: &CanonicalCommand,
    name: &Name,
    cached: Option<&Service>,
) -> Result<bool, StoreFault>
    requires ready { HasDesk conn.old.in_transaction (state S.Store conn.old) }
    requires cached { IsUsable (state S.Store conn.old) → IsKnownAs (option_copied cached)
        name.now (contents_in (state S.Store conn.old)) }
    ensures reads { Looks conn.new.in_transaction
        (state S.Store conn.old) (state S.Store conn.new) }
    ensures found { Finds
        (λ t has. begins command.now ≡ true → has ≡ has_bindings name.now t)
        (state S.Store) conn.old conn.new result }
{
    if begins(command) {
        has_rows(conn, alloc, name, cached)
    } else {
        Ok(false)
    }
}

// The same of the service that the change names.
fn is_bound<S: Alter>(
    conn: &mut Connection<S>,
    alloc: Global,
    settlement: &Settlement,
    cached: Option<&Service>,
) -> Result<bool, StoreFault>
    requires ready { HasDesk conn.old.in_transaction (state S.Store conn.old) }
    requires cached { IsUsable (state S.Store conn.old) → IsKnown (option_copied cached)
        settlement.now.change (contents_in (state S.Store conn.old)) }
    ensures reads { Looks conn.new.in_transaction
        (state S.Store conn.old) (state S.Store conn.new) }
    ensures found { Finds
        (λ t is_bound. IsBoundSaid is_bound settlement.now.receipt.command settlement.now.change t)
        (state S.Store) conn.old conn.new result }
{
    let command = &settlement.receipt.command;
    match &settlement.change {
        DeskChange::Service { service, .. } => {
            has_attempt(conn, alloc, command, &service.name(), cached)
        }
        _ => Ok(false),
    }
}

/// Settles a request, with all that it changes, or does nothing. What is known of the service that
/// it changes need not be asked.
///
/// # Errors
/// `Memory` if an allocation was refused, `Storage` if the store failed; nothing changed.
pub(crate) fn settle<S: Alter>(
    conn: &mut Connection<S>,
    alloc: Global,
    settlement: &Settlement,
    cached: Option<&Service>,
) -> Result<(), StoreFault>
    requires ready { HasDesk conn.old.in_transaction (state S.Store conn.old) }
    requires cached { IsUsable (state S.Store conn.old) → IsKnown (option_copied cached)
        settlement.now.change (contents_in (state S.Store conn.old)) }
    requires settling { IsUsable (state S.Store conn.old)
        → IsSettling (contents_in (state S.Store conn.old)) settlement.now }
    ensures mode { conn.new.in_transaction ≡ false }
    ensures held { IsUsable (state S.Store conn.new) → IsUsable (state S.Store conn.old) }
    ensures desk { IsUsable (state S.Store conn.new)
        → OnOk result (IsDesk (state S.Store conn.new)) }
    ensures settled { IsUsable (state S.Store conn.new)
        → OnOk result (contents_in (state S.Store conn.new)
        ≡ with_settlement (contents_in (state S.Store conn.old)) settlement.now) }
    ensures failed { IsUsable (state S.Store conn.new)
        → OnErr result ((state S.Store conn.new).now ≡ (state S.Store conn.old).now) }
{
    laws::requests();
    schema_laws::one_reading();
    let _limits = settlement.number.get();
    let is_bound = is_bound(conn, alloc, settlement, cached)?;
    commit(conn, alloc, settlement, is_bound)
}
