//! The tables and indexes of a desk are made, or nothing is.
ghost use Rattle.std.specs.Prelude.{◌≡◌, OnOk, OnErr, false};
ghost use Rattle.sqlite.specs.Schema.{Schema};
ghost use Rattle.sqlite.specs.Held.{state};
ghost use Rattle.canary_tables_rows.specs.Tables.{no_tables};
ghost use Rattle.canary_tables_schema.specs.Layout.{made};
ghost use Rattle.canary_tables_schema.specs.Schema.{no_schema, with_kept, with_history, with_tally};
ghost use Rattle.canary_tables_schema.specs.Schema.{schema_at};
ghost use Rattle.canary_tables_schema.specs.Makes.{IsTableText, IsIndexText, Grows, IsFilled};
ghost use Rattle.canary_tables_schema.specs.Stores.{Writes, IsUsable, Stores};

use crate::fault::{StoreFault, fault_of};
use sqlite::{Alter, Connection, Error, Transaction};

// Runs a text that makes a table.
fn add_table<S: Alter>(tx: &mut Transaction<'_, S>, text: &str) -> Result<usize, Error>
    ensures writes { Writes tx.old.conn.ghost_name tx.new.conn.ghost_name
        (state S.Store tx.old.conn.now) (state S.Store tx.new.conn.now) result }
    ensures made { (schema next : Schema) → IsTableText schema text.now next
        → Grows schema next (state S.Store tx.old.conn.now) (state S.Store tx.new.conn.now) result }
{
    tx.execute(text, &[])
}

// Runs a text that makes an index.
fn add_index<S: Alter>(tx: &mut Transaction<'_, S>, text: &str) -> Result<usize, Error>
    ensures writes { Writes tx.old.conn.ghost_name tx.new.conn.ghost_name
        (state S.Store tx.old.conn.now) (state S.Store tx.new.conn.now) result }
    ensures made { (schema next : Schema) → IsIndexText schema text.now next
        → Grows schema next
        (state S.Store tx.old.conn.now) (state S.Store tx.new.conn.now) result }
{
    tx.execute(text, &[])
}

// The first three tables.
fn add_callers<S: Alter>(tx: &mut Transaction<'_, S>) -> Result<(), Error>
    ensures writes { Writes tx.old.conn.ghost_name tx.new.conn.ghost_name
        (state S.Store tx.old.conn.now) (state S.Store tx.new.conn.now) result }
    ensures made { Grows no_schema with_kept
        (state S.Store tx.old.conn.now) (state S.Store tx.new.conn.now) result }
{
    add_table(
        tx,
        "CREATE TABLE meta (id INTEGER NOT NULL PRIMARY KEY, schema INTEGER NOT NULL) STRICT",
    )?;
    add_table(
        tx,
        "CREATE TABLE caller (name TEXT NOT NULL PRIMARY KEY, settled INTEGER NOT NULL) STRICT",
    )?;
    add_table(
        tx,
        "CREATE TABLE kept (caller TEXT NOT NULL REFERENCES caller (name), \
        number INTEGER NOT NULL, command TEXT NOT NULL, status INTEGER NOT NULL, \
        body TEXT NOT NULL, PRIMARY KEY (caller, number)) STRICT",
    )?;
    Ok(())
}

// The next four.
fn add_services<S: Alter>(tx: &mut Transaction<'_, S>) -> Result<(), Error>
    ensures writes { Writes tx.old.conn.ghost_name tx.new.conn.ghost_name
        (state S.Store tx.old.conn.now) (state S.Store tx.new.conn.now) result }
    ensures made { Grows with_kept with_history
        (state S.Store tx.old.conn.now) (state S.Store tx.new.conn.now) result }
{
    add_table(
        tx,
        "CREATE TABLE service (name TEXT NOT NULL PRIMARY KEY, spec TEXT NOT NULL, \
        stable TEXT NOT NULL, version TEXT NOT NULL, state INTEGER NOT NULL, \
        step INTEGER NOT NULL, entered INTEGER NOT NULL, hold INTEGER NOT NULL, \
        background INTEGER NOT NULL, runs INTEGER NOT NULL, last INTEGER NOT NULL) STRICT",
    )?;
    add_table(
        tx,
        "CREATE TABLE run (service TEXT NOT NULL REFERENCES service (name), \
        number INTEGER NOT NULL, step INTEGER, started INTEGER NOT NULL, closed INTEGER, \
        outside INTEGER NOT NULL, verdict INTEGER NOT NULL, \
        PRIMARY KEY (service, number)) STRICT",
    )?;
    add_table(
        tx,
        "CREATE TABLE measurement (place INTEGER NOT NULL PRIMARY KEY AUTOINCREMENT, \
        service TEXT NOT NULL, run INTEGER NOT NULL, metric INTEGER NOT NULL, \
        ordinal INTEGER NOT NULL, taken INTEGER NOT NULL, phase INTEGER NOT NULL, \
        outcome TEXT NOT NULL, UNIQUE (service, run, metric, ordinal)) STRICT",
    )?;
    add_table(
        tx,
        "CREATE TABLE history (place INTEGER NOT NULL PRIMARY KEY AUTOINCREMENT, \
        service TEXT NOT NULL, moment INTEGER NOT NULL, line TEXT NOT NULL) STRICT",
    )?;
    Ok(())
}

// The last three.
fn add_templates<S: Alter>(tx: &mut Transaction<'_, S>) -> Result<(), Error>
    ensures writes { Writes tx.old.conn.ghost_name tx.new.conn.ghost_name
        (state S.Store tx.old.conn.now) (state S.Store tx.new.conn.now) result }
    ensures made { Grows with_history with_tally
        (state S.Store tx.old.conn.now) (state S.Store tx.new.conn.now) result }
{
    add_table(
        tx,
        "CREATE TABLE revision (name TEXT NOT NULL, revision INTEGER NOT NULL, \
        spec TEXT NOT NULL, PRIMARY KEY (name, revision)) STRICT",
    )?;
    add_table(
        tx,
        "CREATE TABLE binding (service TEXT NOT NULL REFERENCES service (name), \
        run INTEGER NOT NULL, template TEXT NOT NULL, revision INTEGER NOT NULL, \
        PRIMARY KEY (service, run, template)) STRICT",
    )?;
    add_table(
        tx,
        "CREATE TABLE tally (service TEXT NOT NULL, run INTEGER NOT NULL, \
        metric INTEGER NOT NULL, counted INTEGER NOT NULL, failed INTEGER NOT NULL, \
        inconclusive INTEGER NOT NULL, errors INTEGER NOT NULL, consecutive INTEGER NOT NULL, \
        passes INTEGER NOT NULL, last INTEGER, PRIMARY KEY (service, run, metric)) STRICT",
    )?;
    Ok(())
}

// All tables.
fn add_tables<S: Alter>(tx: &mut Transaction<'_, S>) -> Result<(), Error>
    ensures writes { Writes tx.old.conn.ghost_name tx.new.conn.ghost_name
        (state S.Store tx.old.conn.now) (state S.Store tx.new.conn.now) result }
    ensures made { Grows no_schema with_tally
        (state S.Store tx.old.conn.now) (state S.Store tx.new.conn.now) result }
{
    add_callers(tx)?;
    add_services(tx)?;
    add_templates(tx)
}

// The three indexes.
fn add_indexes<S: Alter>(tx: &mut Transaction<'_, S>) -> Result<usize, Error>
    ensures writes { Writes tx.old.conn.ghost_name tx.new.conn.ghost_name
        (state S.Store tx.old.conn.now) (state S.Store tx.new.conn.now) result }
    ensures made { Grows with_tally (schema_at made)
        (state S.Store tx.old.conn.now) (state S.Store tx.new.conn.now) result }
{
    add_index(tx, "CREATE INDEX run_closed ON run (service, closed)")?;
    add_index(
        tx,
        "CREATE INDEX measurement_service ON measurement (service)",
    )?;
    add_index(tx, "CREATE INDEX history_service ON history (service)")
}

// The one row of meta: its id, which is the rowid and 1, and the schema's number, which is 2.
fn write_meta<S: Alter>(tx: &mut Transaction<'_, S>) -> Result<usize, Error>
    ensures writes { Writes tx.old.conn.ghost_name tx.new.conn.ghost_name
        (state S.Store tx.old.conn.now) (state S.Store tx.new.conn.now) result }
    ensures made { IsFilled
        (state S.Store tx.old.conn.now) (state S.Store tx.new.conn.now) result }
{
    tx.execute("INSERT INTO meta (schema) VALUES (2)", &[])
}

// All of them in one transaction.
fn create_desk<S: Alter>(conn: &mut Connection<S>) -> Result<(), Error>
    requires autocommit { conn.old.in_transaction ≡ false }
    ensures mode { conn.new.in_transaction ≡ false }
    ensures held { IsUsable (state S.Store conn.new) → IsUsable (state S.Store conn.old) }
    ensures done { IsUsable (state S.Store conn.new)
        → (state S.Store conn.old).now.schema ≡ no_schema
        → OnOk result (Stores (state S.Store conn.new) no_tables) }
    ensures failed { IsUsable (state S.Store conn.new)
        → OnErr result ((state S.Store conn.new).now ≡ (state S.Store conn.old).now) }
{
    let _settled = conn.is_autocommit();
    let mut tx = conn.transaction();
    add_tables(&mut tx)?;
    add_indexes(&mut tx)?;
    write_meta(&mut tx)?;
    tx.commit()
}

/// Makes an empty database a desk's, in one transaction: the ten tables, with no row but that of
/// meta, and the three indexes. If it fails, the database stays as it was.
///
/// # Errors
///
/// `Memory` if an allocation was refused, `Storage` if a statement failed otherwise, for example if
/// the disk did. Of a database that is not empty it is only said that an error leaves it so.
pub fn create<S: Alter>(conn: &mut Connection<S>) -> Result<(), StoreFault>
    requires autocommit { conn.old.in_transaction ≡ false }
    ensures mode { conn.new.in_transaction ≡ false }
    ensures held { IsUsable (state S.Store conn.new) → IsUsable (state S.Store conn.old) }
    ensures done { IsUsable (state S.Store conn.new)
        → (state S.Store conn.old).now.schema ≡ no_schema
        → OnOk result (Stores (state S.Store conn.new) no_tables) }
    ensures failed { IsUsable (state S.Store conn.new)
        → OnErr result ((state S.Store conn.new).now ≡ (state S.Store conn.old).now) }
{
    create_desk(conn).map_err(fault_of)
}
