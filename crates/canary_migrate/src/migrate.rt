//! A database of the first schema becomes a desk's, or stays as it was.
ghost use Rattle.std.specs.Prelude.{◌≡◌, ◌≢◌, false, IsTrue, IfOk, IfErr, OnOk, OnErr, Err};
ghost use Rattle.sqlite.specs.Held.{state};
ghost use Rattle.canary_tables_schema.specs.First.{HasFirstMeta};
ghost use Rattle.canary_tables_schema.specs.Stores.{IsUsable};
ghost use Rattle.canary_tables_read.specs.First.{IsFirst};
ghost use Rattle.canary_tables_read.specs.Meta.{HasMetaRow};
ghost use Rattle.canary_tables.specs.Adopts.{TellsTables, LeavesRows, IsLeftBy, IsOutside};
ghost use Rattle.canary_tables.specs.declared.fault.TableFault.TheVariants as fault;
ghost use Rattle.canary_tables_read.specs.Reader.{IsKept, seen_inside};
ghost use Rattle.canary_migrate.specs.Migrates.{HasFirstTables, HasSoundFirstRows, IsMigrated};
ghost use Rattle.canary_migrate.specs.Migrates.{HasJudgedFirstRows, IsRead, IsRewritten};

use crate::fill::{fill, make_tables};
use crate::plain;
use canary_tables::fault::{TableFault, Unadopted};
use canary_tables_adopt::progress::JudgingProgress;
use canary_tables_adopt::validate::validate;
use canary_tables_contents::{judged_laws as judging_laws, laws as stored_laws};
use canary_tables_read::check_types::check_types;
use canary_tables_read::fault::ReadFault;
use canary_tables_read::first::{self, FirstTally, TemplateRow};
use canary_tables_read::meta::{MetaRow, first_row};
use canary_tables_schema::fault::fault_of;
use canary_tables_schema::first::is_first;
use canary_tables_schema::laws as schema_laws;
use canary_tables_schema::reopen::reopen;
use canary_tables_write::fills::set_schema;
use sqlite::{Alter, Connection, Transaction};
use std::alloc::Global;

/// Makes a desk's database of one of the first schema, in one transaction. Each template becomes
/// revision 1 of its name; each service and each run is bound to revision 1 of every template that
/// its strategy or its analysis names; a tally's passes are counted; all other rows stay. The store
/// is opened anew, and before the transaction commits, its rows are judged as `adopt` judges those
/// of a desk, which is reported to `progress`.
///
/// # Errors
///
/// `OtherSchema` if the database has other tables, indexes or views than the first schema, or its
/// table meta lacks the row 1, 1; `BrokenRow` if the rows are not what the first schema has of
/// sound contents of its time, as with `passAfter` in a template, or with a second row in meta;
/// `Memory` if an allocation was refused; `Storage` if the store failed, or the connection stands
/// inside a transaction. What is left of the connection is handed back, with the database as it
/// was.
pub fn migrate<S: Alter + Drop, G: JudgingProgress>(
    alloc: Global,
    conn: Connection<S>,
    progress: &mut G,
) -> Result<Connection<S>, (TableFault, Unadopted<S>)>
    ensures done { IfOk result (λ it. IsUsable (state S.Store it)
        → IsMigrated (state S.Store conn) (state S.Store it)) }
    ensures autocommit { IfOk result (λ it. it.in_transaction ≡ false) }
    ensures other { IfErr result (λ e. e.0 ≡ fault.OtherSchema → TellsTables S.Store e.1
        → ¬ HasFirstTables (state S.Store conn).now) }
    ensures broken { IfErr result (λ e. e.0 ≡ fault.BrokenRow → TellsTables S.Store e.1
        → HasFirstTables (state S.Store conn).now × ¬ HasSoundFirstRows (state S.Store conn).now) }
    ensures left { IfErr result (λ e. LeavesRows S.Store (state S.Store conn) e.1) }
    ensures store { IfErr result (λ e. IsLeftBy e.0 e.1) }
    ensures mode { IfErr result (λ e. conn.in_transaction ≡ false → IsOutside e.1) }
    ensures opened { IfErr result (λ e. e.0 ≢ fault.InUse) }
{
    judging_laws::judging();
    judging_laws::exactly_those();
    stored_laws::reads_back();
    schema_laws::one_reading();
    if !conn.is_autocommit() {
        return Err((TableFault::Storage, Unadopted::Connection(conn)));
    }
    if !is_first(conn.schema()) {
        return Err((TableFault::OtherSchema, Unadopted::Connection(conn)));
    }
    let (mut conn, _) = match reopen(alloc, conn) {
        Ok(opened) => opened,
        Err((fault, store)) => return Err((fault.into(), Unadopted::Store(store))),
    };
    if !is_first(conn.schema()) {
        return Err((TableFault::Storage, Unadopted::Connection(conn)));
    }
    match migrate_rows(&mut conn, alloc, progress) {
        Ok(()) => Ok(conn),
        Err(fault) => Err((fault, Unadopted::Connection(conn))),
    }
}

// The same of a connection over a store that was opened anew.
fn migrate_rows<S: Alter, G: JudgingProgress>(
    conn: &mut Connection<S>,
    alloc: Global,
    progress: &mut G,
) -> Result<(), TableFault>
    requires autocommit { conn.old.in_transaction ≡ false }
    requires first { IsUsable (state S.Store conn.old) → IsFirst (state S.Store conn.old).now }
    ensures mode { conn.new.in_transaction ≡ false }
    ensures held { IsUsable (state S.Store conn.new) → IsUsable (state S.Store conn.old) }
    ensures done { IsUsable (state S.Store conn.new)
        → OnOk result (IsRewritten (state S.Store conn.old).now (state S.Store conn.new).now) }
    ensures other { IsUsable (state S.Store conn.new) → result ≡ Err fault.OtherSchema
        → ¬ HasMetaRow 1 ((state S.Store conn.old).now.trees 0) }
    ensures broken { IsUsable (state S.Store conn.new) → result ≡ Err fault.BrokenRow
        → HasMetaRow 1 ((state S.Store conn.old).now.trees 0)
        × ¬ HasJudgedFirstRows (state S.Store conn.old).now }
    ensures failed { IsUsable (state S.Store conn.new)
        → OnErr result ((state S.Store conn.new).now ≡ (state S.Store conn.old).now) }
    ensures opened { result ≢ Err fault.InUse }
{
    match first_row(conn)? {
        MetaRow::Alone => {}
        MetaRow::WithOthers => return Err(TableFault::BrokenRow),
        MetaRow::Missing => return Err(TableFault::OtherSchema),
    }
    rewrite(conn, alloc, progress)?;
    Ok(())
}

// The same if meta has the row of the first schema alone.
fn rewrite<S: Alter, G: JudgingProgress>(
    conn: &mut Connection<S>,
    alloc: Global,
    progress: &mut G,
) -> Result<(), ReadFault>
    requires autocommit { conn.old.in_transaction ≡ false }
    requires first { IsUsable (state S.Store conn.old) → IsFirst (state S.Store conn.old).now }
    requires meta { IsUsable (state S.Store conn.old)
        → HasFirstMeta ((state S.Store conn.old).now.trees 0) }
    ensures mode { conn.new.in_transaction ≡ false }
    ensures held { IsUsable (state S.Store conn.new) → IsUsable (state S.Store conn.old) }
    ensures done { IsUsable (state S.Store conn.new)
        → OnOk result (IsRewritten (state S.Store conn.old).now (state S.Store conn.new).now) }
    ensures broken { IsUsable (state S.Store conn.new) → result ≡ Err ReadFault.Broken
        → ¬ HasJudgedFirstRows (state S.Store conn.old).now }
    ensures failed { IsUsable (state S.Store conn.new)
        → OnErr result ((state S.Store conn.new).now ≡ (state S.Store conn.old).now) }
{
    let templates = plain::templates(conn, alloc)?;
    let tallies = first::tallies(conn, alloc)?;
    transact(
        conn,
        alloc,
        templates.as_slice(),
        tallies.as_slice(),
        progress,
    )
}

// Writes and judges in one transaction, which is committed only if neither failed.
fn transact<S: Alter, G: JudgingProgress>(
    conn: &mut Connection<S>,
    alloc: Global,
    templates: &[TemplateRow],
    tallies: &[FirstTally],
    progress: &mut G,
) -> Result<(), ReadFault>
    requires autocommit { conn.old.in_transaction ≡ false }
    requires read { IsUsable (state S.Store conn.old)
        → IsRead (state S.Store conn.old).now templates.now tallies.now }
    ensures mode { conn.new.in_transaction ≡ false }
    ensures held { IsUsable (state S.Store conn.new) → IsUsable (state S.Store conn.old) }
    ensures done { IsUsable (state S.Store conn.new)
        → OnOk result (IsRewritten (state S.Store conn.old).now (state S.Store conn.new).now) }
    ensures broken { IsUsable (state S.Store conn.new) → result ≡ Err ReadFault.Broken
        → ¬ HasJudgedFirstRows (state S.Store conn.old).now }
    ensures failed { IsUsable (state S.Store conn.new)
        → OnErr result ((state S.Store conn.new).now ≡ (state S.Store conn.old).now) }
{
    let _settled = conn.is_autocommit();
    let mut tx = conn.transaction();
    if let Err(fault) = write(&mut tx, alloc, templates, tallies, progress) {
        return Err(if_live(&mut tx, fault));
    }
    if let Err(error) = tx.commit() {
        let _undone = conn.is_autocommit();
        return Err(fault_of(error).into());
    }
    Ok(())
}

// All that is written, judged.
fn write<S: Alter, G: JudgingProgress>(
    tx: &mut Transaction<'_, S>,
    alloc: Global,
    templates: &[TemplateRow],
    tallies: &[FirstTally],
    progress: &mut G,
) -> Result<(), ReadFault>
    requires live { IsTrue (state S.Store tx.old.conn.now).in_transaction }
    requires read { IsUsable (state S.Store tx.old.conn.now)
        → IsRead (state S.Store tx.old.conn.now).now templates.now tallies.now }
    ensures same_reference { tx.new.conn.ghost_name ≡ tx.old.conn.ghost_name }
    ensures done { IsUsable (seen_inside (state S.Store tx.new.conn.now))
        → OnOk result (IsRewritten
        (state S.Store tx.old.conn.now).now (state S.Store tx.new.conn.now).now) }
    ensures broken { IsUsable (seen_inside (state S.Store tx.new.conn.now))
        → result ≡ Err ReadFault.Broken
        → ¬ HasJudgedFirstRows (state S.Store tx.old.conn.now).now }
    ensures kept { IsKept (state S.Store tx.old.conn.now) (state S.Store tx.new.conn.now) }
{
    make_tables(tx)?;
    check_types(tx)?;
    fill(tx, alloc, templates, tallies)?;
    validate(tx, alloc, progress)
}

// The fault, but that of a row only if the transaction goes on: once it has ended, it shows other
// rows.
fn if_live<S: Alter>(tx: &mut Transaction<'_, S>, fault: ReadFault) -> ReadFault
    ensures same_reference { tx.new.conn.ghost_name ≡ tx.old.conn.ghost_name }
    ensures broken { result ≡ ReadFault.Broken → (fault ≡ ReadFault.Broken)
        × IsTrue (state S.Store tx.old.conn.now).in_transaction }
    ensures kept { IsKept (state S.Store tx.old.conn.now) (state S.Store tx.new.conn.now) }
{
    match fault {
        ReadFault::Broken => match set_schema(tx) {
            Ok(_) => ReadFault::Broken,
            Err(_) => ReadFault::Storage,
        },
        fault => fault,
    }
}
