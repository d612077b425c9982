//! What a book keeps is asked before its tables.
ghost use Rattle.std.specs.Prelude.{◌≡◌, ◌≢◌, false, Err, None, Some, IfOk, OnOk, OnErr};
ghost use Rattle.std.specs.FinMap as map;
ghost use Rattle.sqlite.specs.Held.{state};
ghost use Rattle.canary_release.specs.Desks.{newest};
ghost use Rattle.canary_release.specs.Stored.{stored_service};
ghost use Rattle.canary_once.specs.Contents.{count_of, receipt_at, templates_named};
ghost use Rattle.canary_once.specs.Contents.{IsSettling, with_settlement};
ghost use Rattle.canary_once.specs.Records.{history_of};
ghost use Rattle.canary_tables_schema.specs.Stores.{IsUsable};
ghost use Rattle.canary_tables.specs.Desk.{HasDesk, Looks, IsDesk, contents_in};
ghost use Rattle.canary_tables.specs.Caches.{IsCacheOf, KeepsNothing};

use crate::cache::Cache;
use crate::settle::settle;
use crate::{load, load_plans, load_services, pages};
use canary_base::lists::Listed;
use canary_base::names::Name;
use canary_base::numbers::Number;
use canary_once::book::{Receipt, Settlement};
use canary_plan::line::Line;
use canary_plan::template::Template;
use canary_plan::templates::Templates;
use canary_release::laws as desk_laws;
use canary_release::service::Service;
use canary_tables_schema::fault::StoreFault;
use sqlite::{Alter, Connection};
use std::alloc::Global;

/// The number of settled requests of a caller. If it is not kept yet, it is read from the tables
/// and kept.
///
/// # Errors
/// `Memory` if an allocation was refused, `Storage` if the database fails or holds what no desk
/// writes.
pub(crate) fn count<S: Alter>(
    conn: &mut Connection<S>,
    kept: &mut Cache,
    caller: &Name,
) -> Result<u32, StoreFault>
    requires ready { HasDesk conn.old.in_transaction (state S.Store conn.old) }
    requires kept { IsUsable (state S.Store conn.old)
        → IsCacheOf kept.old (contents_in (state S.Store conn.old)) }
    ensures reads { Looks conn.new.in_transaction
        (state S.Store conn.old) (state S.Store conn.new) }
    ensures kept { IsUsable (state S.Store conn.new)
        → IsCacheOf kept.new (contents_in (state S.Store conn.new)) }
    ensures found { IsUsable (state S.Store conn.new) → IfOk result
        (λ count. count ≡ count_of (contents_in (state S.Store conn.old)) caller.now) }
{
    if let Some(count) = kept.counts.get(*caller) {
        return Ok(*count);
    }
    let count = load::count(conn, caller)?;
    kept.keep_count(*caller, count);
    Ok(count)
}

/// The receipt under a caller's number; none if no request of that number is settled. If it is not
/// kept, it is read from the tables, and a copy is kept if there is memory for one.
///
/// # Errors
/// `Memory` if there is not enough, `Storage` if the database fails or holds what no desk writes.
pub(crate) fn receipt<S: Alter>(
    conn: &mut Connection<S>,
    alloc: Global,
    kept: &mut Cache,
    caller: &Name,
    number: Number,
) -> Result<Option<Receipt>, StoreFault>
    requires ready { HasDesk conn.old.in_transaction (state S.Store conn.old) }
    requires kept { IsUsable (state S.Store conn.old)
        → IsCacheOf kept.old (contents_in (state S.Store conn.old)) }
    ensures reads { Looks conn.new.in_transaction
        (state S.Store conn.old) (state S.Store conn.new) }
    ensures kept { IsUsable (state S.Store conn.new)
        → IsCacheOf kept.new (contents_in (state S.Store conn.new)) }
    ensures found { IsUsable (state S.Store conn.new) → IfOk result (λ found.
        found ≡ receipt_at (contents_in (state S.Store conn.old)) caller.now number) }
{
    if let Some(receipt) = kept.receipt_of(caller, number) {
        return copied(alloc, receipt);
    }
    let found = load::receipt(conn, alloc, caller, number)?;
    kept.keep_receipt(alloc, *caller, number, found.as_ref());
    Ok(found)
}

// A copy of a receipt that is kept.
fn copied(alloc: Global, receipt: &Receipt) -> Result<Option<Receipt>, StoreFault>
    ensures copy { IfOk result (λ copy. copy ≡ Some receipt.now) }
    ensures unasked { result ≢ Err StoreFault.Storage }
{
    Ok(Some(receipt.copy(alloc)?))
}

/// The service of that name, if there is one. If it is not kept yet, it is read from the tables,
/// and a copy is kept if there is memory for one.
///
/// # Errors
/// `Memory` if there is not enough, `Storage` if the database fails or holds what no desk writes.
pub(crate) fn service<S: Alter>(
    conn: &mut Connection<S>,
    alloc: Global,
    kept: &mut Cache,
    name: &Name,
) -> Result<Option<Service>, StoreFault>
    requires ready { HasDesk conn.old.in_transaction (state S.Store conn.old) }
    requires kept { IsUsable (state S.Store conn.old)
        → IsCacheOf kept.old (contents_in (state S.Store conn.old)) }
    ensures reads { Looks conn.new.in_transaction
        (state S.Store conn.old) (state S.Store conn.new) }
    ensures kept { IsUsable (state S.Store conn.new)
        → IsCacheOf kept.new (contents_in (state S.Store conn.new)) }
    ensures found { IsUsable (state S.Store conn.new) → IfOk result (λ found.
        found ≡ stored_service (contents_in (state S.Store conn.old)).desk name.now) }
    ensures storage { result ≡ Err StoreFault.Storage
        → map.get kept.old.services name.now ≡ None }
{
    if let Some(service) = kept.services.get(*name) {
        return Ok(Some(service.copy(alloc)?));
    }
    let found = load_services::service(conn, alloc, name)?;
    kept.keep_copy(alloc, *name, found.as_ref());
    Ok(found)
}

/// The history of a service, oldest line first; none if there is no such service. If it is not kept
/// yet, it is read from the tables, and a copy is kept if there is memory for one.
///
/// # Errors
/// `Memory` if there is not enough, `Storage` if the database fails or holds what no desk writes.
pub(crate) fn history<S: Alter>(
    conn: &mut Connection<S>,
    alloc: Global,
    kept: &mut Cache,
    name: &Name,
) -> Result<Listed<Line>, StoreFault>
    requires ready { HasDesk conn.old.in_transaction (state S.Store conn.old) }
    requires kept { IsUsable (state S.Store conn.old)
        → IsCacheOf kept.old (contents_in (state S.Store conn.old)) }
    ensures reads { Looks conn.new.in_transaction
        (state S.Store conn.old) (state S.Store conn.new) }
    ensures kept { IsUsable (state S.Store conn.new)
        → IsCacheOf kept.new (contents_in (state S.Store conn.new)) }
    ensures found { IsUsable (state S.Store conn.new) → IfOk result
        (λ lines. lines ≡ history_of (contents_in (state S.Store conn.old)) name.now) }
    ensures storage { result ≡ Err StoreFault.Storage
        → map.get kept.old.histories name.now ≡ None }
{
    if let Some(history) = kept.histories.get(*name) {
        return Ok(history.copy(alloc)?);
    }
    let found = pages::history(conn, alloc, name)?;
    kept.keep_history(alloc, *name, &found);
    Ok(found)
}

// The newest revision of the template of that name, if there is one. If it is not kept yet, it is
// read from the tables, and a copy is kept if there is memory for one.
fn template<S: Alter>(
    conn: &mut Connection<S>,
    alloc: Global,
    kept: &mut Cache,
    name: &Name,
) -> Result<Option<Template>, StoreFault>
    requires ready { HasDesk conn.old.in_transaction (state S.Store conn.old) }
    requires kept { IsUsable (state S.Store conn.old)
        → IsCacheOf kept.old (contents_in (state S.Store conn.old)) }
    ensures reads { Looks conn.new.in_transaction
        (state S.Store conn.old) (state S.Store conn.new) }
    ensures kept { IsUsable (state S.Store conn.new)
        → IsCacheOf kept.new (contents_in (state S.Store conn.new)) }
    ensures found { IsUsable (state S.Store conn.new) → IfOk result (λ found.
        found ≡ newest (contents_in (state S.Store conn.old)).desk.templates name.now) }
    ensures storage { result ≡ Err StoreFault.Storage
        → map.get kept.old.templates name.now ≡ None }
{
    if let Some(template) = kept.templates.get(*name) {
        return Ok(Some(template.copy(alloc)?));
    }
    let found = load_plans::template(conn, alloc, name)?;
    kept.keep_template(alloc, *name, found.as_ref());
    Ok(found)
}

/// The newest revisions of the templates that have one of these names. Those that are not kept yet
/// are read from the tables, and copies of them are kept as far as there is memory.
///
/// # Errors
/// `Memory` if there is not enough, `Storage` if the database fails or holds what no desk writes.
pub(crate) fn templates<S: Alter>(
    conn: &mut Connection<S>,
    alloc: Global,
    kept: &mut Cache,
    names: &[Name],
) -> Result<Templates, StoreFault>
    requires ready { HasDesk conn.old.in_transaction (state S.Store conn.old) }
    requires kept { IsUsable (state S.Store conn.old)
        → IsCacheOf kept.old (contents_in (state S.Store conn.old)) }
    ensures reads { Looks conn.new.in_transaction
        (state S.Store conn.old) (state S.Store conn.new) }
    ensures kept { IsUsable (state S.Store conn.new)
        → IsCacheOf kept.new (contents_in (state S.Store conn.new)) }
    ensures found { IsUsable (state S.Store conn.new) → IfOk result (λ found.
        found ≡ templates_named (contents_in (state S.Store conn.old)) names.now) }
{
    let mut found = Templates::new(alloc);
    for name in names {
        if let Some(template) = template(conn, alloc, kept, name)? {
            found.insert(*name, template)?;
        }
    }
    Ok(found)
}

/// Settles a request, with all that it changes, or does nothing. Once it is settled, what is kept
/// of its caller and of the service that it changes is replaced, and the lines that it reports are
/// added to the history that is kept. A template of which it adds a revision is forgotten first.
///
/// # Errors
/// `Memory` if an allocation was refused, `Storage` if the store failed; nothing changed in the
/// tables, and nothing is kept any more.
pub(crate) fn commit<S: Alter>(
    conn: &mut Connection<S>,
    alloc: Global,
    kept: &mut Cache,
    settlement: Settlement,
) -> Result<(), StoreFault>
    requires ready { HasDesk conn.old.in_transaction (state S.Store conn.old) }
    requires kept { IsUsable (state S.Store conn.old)
        → IsCacheOf kept.old (contents_in (state S.Store conn.old)) }
    requires settling { IsUsable (state S.Store conn.old)
        → IsSettling (contents_in (state S.Store conn.old)) settlement }
    ensures mode { conn.new.in_transaction ≡ false }
    ensures held { IsUsable (state S.Store conn.new) → IsUsable (state S.Store conn.old) }
    ensures desk { IsUsable (state S.Store conn.new)
        → OnOk result (IsDesk (state S.Store conn.new)) }
    ensures kept { IsUsable (state S.Store conn.new)
        → IsCacheOf kept.new (contents_in (state S.Store conn.new)) }
    ensures nothing { OnErr result (KeepsNothing kept.new) }
    ensures settled { IsUsable (state S.Store conn.new)
        → OnOk result (contents_in (state S.Store conn.new)
        ≡ with_settlement (contents_in (state S.Store conn.old)) settlement) }
    ensures failed { IsUsable (state S.Store conn.new)
        → OnErr result ((state S.Store conn.new).now ≡ (state S.Store conn.old).now) }
{
    desk_laws::changes();
    kept.forget_revised(&settlement.change);
    match settle(conn, alloc, &settlement, kept.cached(&settlement.change)) {
        Ok(()) => {
            kept.keep(settlement);
            Ok(())
        }
        Err(fault) => {
            kept.forget(alloc);
            Err(fault)
        }
    }
}
