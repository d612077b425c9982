//! A settled request as one transaction.
ghost use Rattle.std.specs.Prelude.{◌≡◌, OnOk, OnErr, false};
ghost use Rattle.sqlite.specs.Held.{state};
ghost use Rattle.canary_release.specs.declared.decide.DeskChange.TheVariants as change;
ghost use Rattle.canary_tables_rows.specs.Tables.{Tables};
ghost use Rattle.canary_tables_rows.specs.Changes.{with_kept};
ghost use Rattle.canary_tables_schema.specs.Stores.{Writes, Wrote, WroteIf};
ghost use Rattle.canary_tables_schema.specs.Stores.{IsUsable, Stores};
ghost use Rattle.canary_tables_contents.specs.Values.{kept_row};
ghost use Rattle.canary_tables_contents.specs.Tables.{IsReadableCommand};
ghost use Rattle.canary_tables_contents.specs.Settling.{CallerAsks, caller_settled, service_put};
ghost use Rattle.canary_tables_contents.specs.Settling.{desk_changed};
ghost use Rattle.canary_tables_contents.specs.Settling.{request_settled, IsReadableChange};
ghost use Rattle.canary_tables_contents.specs.Settling.{IsReadableSettlement};
ghost use Rattle.canary_tables_write.specs.Commits.{PutAsks, ChangeAsks, CommitAsks};

use crate::bindings::put_bindings;
use crate::effects::apply_effects;
use crate::inserts::{insert_caller, insert_kept, insert_revision, insert_service};
use crate::kinds::makes_service;
use crate::updates::{update_caller, update_service};
use canary_base::names::Name;
use canary_canonical::command::CanonicalCommand;
use canary_once::book::{Receipt, Settlement};
use canary_plan::template::Template;
use canary_release::decide::DeskChange;
use canary_release::effect::Effect;
use canary_release::service::ServiceParts;
use canary_tables_contents::writing::standing;
use canary_tables_schema::fault::{StoreFault, fault_of};
use sqlite::{Alter, Connection, Error, Transaction};
use std::alloc::Global;

// So many requests of the caller are settled.
fn settle_caller<S: Alter>(
    tx: &mut Transaction<'_, S>,
    caller: &Name,
    number: u32,
) -> Result<usize, Error>
    ensures writes { Writes tx.old.conn.ghost_name tx.new.conn.ghost_name
        (state S.Store tx.old.conn.now) (state S.Store tx.new.conn.now) result }
    ensures wrote { WroteIf (CallerAsks caller.now number) (caller_settled caller.now number)
        (state S.Store tx.old.conn.now) (state S.Store tx.new.conn.now) result }
{
    if number == 1 {
        insert_caller(tx, caller)
    } else {
        update_caller(tx, caller, number)
    }
}

// The service stands so: the command makes it, or it is there.
fn put_service<S: Alter>(
    tx: &mut Transaction<'_, S>,
    command: &CanonicalCommand,
    parts: &ServiceParts,
) -> Result<usize, Error>
    ensures writes { Writes tx.old.conn.ghost_name tx.new.conn.ghost_name
        (state S.Store tx.old.conn.now) (state S.Store tx.new.conn.now) result }
    ensures wrote { WroteIf (PutAsks command.now parts.now.service.name)
        (service_put command.now parts.now)
        (state S.Store tx.old.conn.now) (state S.Store tx.new.conn.now) result }
{
    let name = &parts.service.name;
    let standing = standing(parts);
    if makes_service(command) {
        insert_service(tx, name, command.text(), &standing)
    } else {
        update_service(tx, name, &standing)
    }
}

// What the command changes of the desk.
fn change_desk<S: Alter>(
    tx: &mut Transaction<'_, S>,
    alloc: Global,
    command: &CanonicalCommand,
    change: &DeskChange,
    is_bound: bool,
) -> Result<(), StoreFault>
    ensures writes { Writes tx.old.conn.ghost_name tx.new.conn.ghost_name
        (state S.Store tx.old.conn.now) (state S.Store tx.new.conn.now) result }
    ensures wrote { WroteIf (ChangeAsks is_bound command.now change.now)
        (desk_changed command.now change.now)
        (state S.Store tx.old.conn.now) (state S.Store tx.new.conn.now) result }
    ensures readable { OnOk result (IsReadableChange change.now) }
{
    match change {
        DeskChange::Nothing => Ok(()),
        DeskChange::Template(template) => add_template(tx, command, template),
        DeskChange::Service { service, effects } => {
            change_service(
                tx,
                alloc,
                command,
                service.parts(),
                effects.as_slice(),
                is_bound,
            )
        }
    }
}

// A revision of a template is added by the command.
fn add_template<S: Alter>(
    tx: &mut Transaction<'_, S>,
    command: &CanonicalCommand,
    template: &Template,
) -> Result<(), StoreFault>
    ensures writes { Writes tx.old.conn.ghost_name tx.new.conn.ghost_name
        (state S.Store tx.old.conn.now) (state S.Store tx.new.conn.now) result }
    ensures wrote { Wrote (desk_changed command.now (change.Template template.now))
        (state S.Store tx.old.conn.now) (state S.Store tx.new.conn.now) result }
{
    let revision = template.revision();
    insert_revision(tx, &template.spec.name, revision, command.text()).map_err(fault_of)?;
    Ok(())
}

// A service becomes these parts, bound anew if the command begins an attempt, with these effects.
fn change_service<S: Alter>(
    tx: &mut Transaction<'_, S>,
    alloc: Global,
    command: &CanonicalCommand,
    parts: &ServiceParts,
    effects: &[Effect],
    is_bound: bool,
) -> Result<(), StoreFault>
    ensures writes { Writes tx.old.conn.ghost_name tx.new.conn.ghost_name
        (state S.Store tx.old.conn.now) (state S.Store tx.new.conn.now) result }
    ensures wrote { WroteIf
        (ChangeAsks is_bound command.now (change.Service parts.now effects.now))
        (desk_changed command.now (change.Service parts.now effects.now))
        (state S.Store tx.old.conn.now) (state S.Store tx.new.conn.now) result }
    ensures readable { OnOk result (IsReadableChange (change.Service parts.now effects.now)) }
{
    put_service(tx, command, parts).map_err(fault_of)?;
    put_bindings(tx, alloc, command, parts, is_bound)?;
    apply_effects(tx, alloc, &parts.service.name, effects)?;
    Ok(())
}

// All that is written of a settled request.
fn write<S: Alter>(
    tx: &mut Transaction<'_, S>,
    alloc: Global,
    settlement: &Settlement,
    is_bound: bool,
) -> Result<(), StoreFault>
    ensures writes { Writes tx.old.conn.ghost_name tx.new.conn.ghost_name
        (state S.Store tx.old.conn.now) (state S.Store tx.new.conn.now) result }
    ensures wrote { WroteIf (CommitAsks is_bound settlement.now)
        (request_settled settlement.now)
        (state S.Store tx.old.conn.now) (state S.Store tx.new.conn.now) result }
    ensures readable { OnOk result (IsReadableSettlement settlement.now) }
{
    let command = &settlement.receipt.command;
    settle_caller(tx, &settlement.caller, settlement.number.get()).map_err(fault_of)?;
    keep(
        tx,
        &settlement.caller,
        settlement.number.get(),
        &settlement.receipt,
    )?;
    let change = &settlement.change;
    change_desk(tx, alloc, command, change, is_bound)?;
    Ok(())
}

// What is kept of the request.
fn keep<S: Alter>(
    tx: &mut Transaction<'_, S>,
    caller: &Name,
    number: u32,
    receipt: &Receipt,
) -> Result<(), StoreFault>
    ensures writes { Writes tx.old.conn.ghost_name tx.new.conn.ghost_name
        (state S.Store tx.old.conn.now) (state S.Store tx.new.conn.now) result }
    ensures wrote { Wrote (with_kept (kept_row caller.now number receipt.now))
        (state S.Store tx.old.conn.now) (state S.Store tx.new.conn.now) result }
    ensures readable { OnOk result (IsReadableCommand receipt.now.command) }
{
    let status = u32::from(receipt.reply.status.code());
    let (command, body) = (receipt.command.text(), receipt.reply.body.as_str());
    insert_kept(tx, caller, number, command, status, body).map_err(fault_of)?;
    Ok(())
}

/// Settles a request in one transaction, with all that it changes, or does nothing. `is_bound`
/// says, if the command begins an attempt, whether the one before it is bound.
///
/// # Errors
/// `Memory` if an allocation was refused, `Storage` if the store failed; nothing changed.
pub fn commit<S: Alter>(
    conn: &mut Connection<S>,
    alloc: Global,
    settlement: &Settlement,
    is_bound: bool,
) -> Result<(), StoreFault>
    requires autocommit { conn.old.in_transaction ≡ false }
    ensures mode { conn.new.in_transaction ≡ false }
    ensures held { IsUsable (state S.Store conn.new) → IsUsable (state S.Store conn.old) }
    ensures stored { IsUsable (state S.Store conn.new) → (t : Tables)
        → Stores (state S.Store conn.old) t → CommitAsks is_bound settlement.now t
        → OnOk result (Stores (state S.Store conn.new) (request_settled settlement.now t)) }
    ensures readable { OnOk result (IsReadableSettlement settlement.now) }
    ensures failed { IsUsable (state S.Store conn.new)
        → OnErr result ((state S.Store conn.new).now ≡ (state S.Store conn.old).now) }
{
    let _settled = conn.is_autocommit();
    let mut tx = conn.transaction();
    write(&mut tx, alloc, settlement, is_bound)?;
    tx.commit().map_err(fault_of)
}
