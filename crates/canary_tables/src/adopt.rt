//! A book over a database that has a desk's tables.
ghost use Rattle.std.specs.Prelude.{◌≡◌, ◌≢◌, ◌↔◌, true, false, IsTrue, IfOk, IfErr, OnOk, Err};
ghost use Rattle.std.specs.Prelude.{IsErrAnd};
ghost use Rattle.sqlite.specs.Held.{state};
ghost use Rattle.canary_tables_schema.specs.Formed.{IsDeskSchema, IsRising, IsFormed, HasRows};
ghost use Rattle.canary_tables_schema.specs.Formed.{HasWholeTallies};
ghost use Rattle.canary_tables_schema.specs.Stores.{IsUsable};
ghost use Rattle.canary_tables_read.specs.Finds.{IsSame};
ghost use Rattle.canary_tables.specs.Adopts.{HasDeskTables, HasSoundRowsWithin};
ghost use Rattle.canary_tables.specs.Adopts.{IsBelieved, IsAdopted, TellsTables, LeavesRows};
ghost use Rattle.canary_tables.specs.Adopts.{IsLeftBy, IsOutside};
ghost use Rattle.canary_tables.specs.declared.fault.TableFault.TheVariants as fault;
ghost use Rattle.canary_tables.specs.declared.fault.Unadopted.TheVariants as left;
ghost use Rattle.canary_tables.specs.Desk.{Looks};

use crate::book::{DEFAULT_ROOM, TableBook};
use crate::cache::Cache;
use crate::fault::{TableFault, Unadopted};
use crate::notes::Notes;
use canary_tables_adopt::progress::JudgingProgress;
use canary_tables_adopt::validate::validate;
use canary_tables_contents::judged_laws as judging_laws;
use canary_tables_read::check_types::check_types;
use canary_tables_read::meta::{MetaRow, desk_row};
use canary_tables_schema::laws as schema_laws;
use canary_tables_schema::recognize::is_desk;
use canary_tables_schema::reopen::reopen;
use sqlite::{Alter, Connection};
use std::alloc::Global;

// Reads whether the rows are those of tables, whichever they are.
fn has_rows<S: Alter>(conn: &mut Connection<S>, is_whole: bool) -> Result<(), TableFault>
    requires autocommit { conn.old.in_transaction ≡ false }
    requires recognized { IsDeskSchema (state S.Store conn.old).now.schema }
    requires numbered { IsUsable (state S.Store conn.old)
        → IsRising (state S.Store conn.old).now }
    requires whole { IsUsable (state S.Store conn.old)
        → (IsTrue is_whole ↔ HasWholeTallies (state S.Store conn.old).now) }
    ensures reads { Looks conn.new.in_transaction
        (state S.Store conn.old) (state S.Store conn.new) }
    ensures formed { IsUsable (state S.Store conn.new)
        → OnOk result (IsFormed (state S.Store conn.old).now) }
    ensures rows { IsUsable (state S.Store conn.new)
        → OnOk result (HasRows (state S.Store conn.old).now) }
    ensures other { IsUsable (state S.Store conn.new) → result ≡ Err fault.OtherSchema
        → ¬ HasDeskTables (state S.Store conn.old).now }
    ensures broken { IsUsable (state S.Store conn.new) → result ≡ Err fault.BrokenRow
        → HasDeskTables (state S.Store conn.old).now × IsRising (state S.Store conn.old).now
        × ¬ HasRows (state S.Store conn.old).now }
    ensures opened { result ≢ Err fault.InUse }
{
    match desk_row(conn)? {
        MetaRow::Alone => {}
        MetaRow::WithOthers => return Err(TableFault::BrokenRow),
        MetaRow::Missing => return Err(TableFault::OtherSchema),
    }
    if !is_whole {
        return Err(TableFault::BrokenRow);
    }
    check_types(conn)?;
    Ok(())
}

// Believes rows that are those of tables of sound contents. Nothing is changed.
fn validate_tables<S: Alter, G: JudgingProgress>(
    conn: &mut Connection<S>,
    alloc: Global,
    is_whole: bool,
    progress: &mut G,
) -> Result<(), TableFault>
    requires autocommit { conn.old.in_transaction ≡ false }
    requires recognized { IsDeskSchema (state S.Store conn.old).now.schema }
    requires numbered { IsUsable (state S.Store conn.old)
        → IsRising (state S.Store conn.old).now }
    requires whole { IsUsable (state S.Store conn.old)
        → (IsTrue is_whole ↔ HasWholeTallies (state S.Store conn.old).now) }
    ensures reads { Looks conn.new.in_transaction
        (state S.Store conn.old) (state S.Store conn.new) }
    ensures believed { IsUsable (state S.Store conn.new)
        → OnOk result (IsBelieved (state S.Store conn.old).now) }
    ensures other { IsUsable (state S.Store conn.new) → result ≡ Err fault.OtherSchema
        → ¬ HasDeskTables (state S.Store conn.old).now }
    ensures broken { IsUsable (state S.Store conn.new) → result ≡ Err fault.BrokenRow
        → HasDeskTables (state S.Store conn.old).now × IsRising (state S.Store conn.old).now
        × ¬ HasSoundRowsWithin (state S.Store conn.old).now }
    ensures opened { result ≢ Err fault.InUse }
{
    judging_laws::judging();
    schema_laws::one_reading();
    has_rows(conn, is_whole)?;
    validate(conn, alloc, progress)?;
    Ok(())
}

impl<S: Alter + Drop> TableBook<S> {
    /// Makes a book of a database that has a desk's tables, which contains what their rows stand
    /// for. The store is opened anew, and each row is read and judged before it is believed.
    /// Nothing is changed. It reports to `progress` how many rows there are and were judged.
    ///
    /// # Errors
    ///
    /// `OtherSchema` if the database has other tables, indexes or views than a desk's, or its table
    /// meta lacks the row 1, 2; `BrokenRow` if the rows are not those that a desk leaves, as with a
    /// second row in meta; `Memory` if an allocation was refused; `Storage` if the store failed, or
    /// the connection stands inside a transaction. What is left of the connection is handed back,
    /// with the database as it was.
    pub fn adopt<G: JudgingProgress>(
        alloc: Global,
        conn: Connection<S>,
        progress: &mut G,
    ) -> Result<TableBook<S>, (TableFault, Unadopted<S>)>
        ensures adopted { IfOk result (λ book. IsUsable (state S.Store book)
            → IsAdopted (state S.Store conn) (state S.Store book)) }
        ensures inside { conn.in_transaction ≡ true → IsErrAnd result
            (λ e. (e.0 ≡ fault.Storage) × (e.1 ≡ left.Connection conn)) }
        ensures foreign { conn.in_transaction ≡ false
            → ¬ IsDeskSchema (state S.Store conn).now.schema → IsErrAnd result
            (λ e. (e.0 ≡ fault.OtherSchema) × (e.1 ≡ left.Connection conn)) }
        ensures other { IfErr result (λ e. e.0 ≡ fault.OtherSchema → TellsTables S.Store e.1
            → ¬ HasDeskTables (state S.Store conn).now) }
        ensures broken { IfErr result (λ e. e.0 ≡ fault.BrokenRow → TellsTables S.Store e.1
            → HasDeskTables (state S.Store conn).now × IsRising (state S.Store conn).now
            × ¬ HasSoundRowsWithin (state S.Store conn).now) }
        ensures left { IfErr result (λ e. LeavesRows S.Store (state S.Store conn) e.1) }
        ensures store { IfErr result (λ e. IsLeftBy e.0 e.1) }
        ensures mode { IfErr result
            (λ e. conn.in_transaction ≡ false → IsOutside e.1) }
        ensures opened { IfErr result (λ e. e.0 ≢ fault.InUse) }
    {
        if !conn.is_autocommit() {
            return Err((TableFault::Storage, Unadopted::Connection(conn)));
        }
        if !is_desk(conn.schema()) {
            return Err((TableFault::OtherSchema, Unadopted::Connection(conn)));
        }
        let (conn, is_whole) = match reopen(alloc, conn) {
            Ok(opened) => opened,
            Err((fault, store)) => return Err((fault.into(), Unadopted::Store(store))),
        };
        match TableBook::adopt_opened(alloc, conn, is_whole, progress) {
            Ok(book) => Ok(book),
            Err((fault, conn)) => Err((fault, Unadopted::Connection(conn))),
        }
    }

    // Makes the book of a database over a store that was just opened, so that the rows of its
    // tables are known to rise, and whether each row of tally has all its cells.
    pub(crate) fn adopt_opened<G: JudgingProgress>(
        alloc: Global,
        mut conn: Connection<S>,
        is_whole: bool,
        progress: &mut G,
    ) -> Result<TableBook<S>, (TableFault, Connection<S>)>
        requires autocommit { conn.in_transaction ≡ false }
        requires numbered { IsUsable (state S.Store conn) → IsRising (state S.Store conn).now }
        requires whole { IsUsable (state S.Store conn)
            → (IsTrue is_whole ↔ HasWholeTallies (state S.Store conn).now) }
        ensures adopted { IfOk result (λ book. IsUsable (state S.Store book)
            → IsAdopted (state S.Store conn) (state S.Store book)) }
        ensures other { IfErr result (λ e. e.0 ≡ fault.OtherSchema → IsUsable (state S.Store e.1)
            → ¬ HasDeskTables (state S.Store conn).now) }
        ensures broken { IfErr result (λ e. e.0 ≡ fault.BrokenRow → IsUsable (state S.Store e.1)
            → HasDeskTables (state S.Store conn).now × IsRising (state S.Store conn).now
            × ¬ HasSoundRowsWithin (state S.Store conn).now) }
        ensures left { IfErr result (λ e. IsSame (state S.Store conn) (state S.Store e.1)) }
        ensures mode { IfErr result (λ e. e.1.in_transaction ≡ false) }
        ensures opened { IfErr result (λ e. e.0 ≢ fault.InUse) }
    {
        schema_laws::one_reading();
        if !is_desk(conn.schema()) {
            return Err((TableFault::Storage, conn));
        }
        match validate_tables(&mut conn, alloc, is_whole, progress) {
            Ok(()) => Ok(TableBook {
                alloc,
                conn,
                notes: Notes::none(),
                cache: Cache::new(alloc, DEFAULT_ROOM),
            }),
            Err(fault) => Err((fault, conn)),
        }
    }
}
