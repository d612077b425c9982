//! A book over an empty database.
ghost use Rattle.std.specs.Prelude.{◌≡◌, ◌≢◌, true, false, IfOk, IfErr, IsErrAnd};
ghost use Rattle.sqlite.specs.Held.{state};
ghost use Rattle.canary_once.specs.Contents.{no_contents};
ghost use Rattle.canary_tables_schema.specs.Schema.{no_schema};
ghost use Rattle.canary_tables_schema.specs.Stores.{IsUsable};
ghost use Rattle.canary_tables.specs.Adopts.{IsSoundDesk};
ghost use Rattle.canary_tables.specs.Desk.{contents_in};
ghost use Rattle.canary_tables.specs.declared.fault.TableFault.TheVariants as fault;

use crate::book::{DEFAULT_ROOM, TableBook};
use crate::cache::Cache;
use crate::fault::TableFault;
use crate::notes::Notes;
use canary_once::laws as book_laws;
use canary_tables_contents::laws;
use canary_tables_schema::recognize::is_empty;
use canary_tables_schema::{create, laws as schema_laws};
use sqlite::{Alter, Connection};
use std::alloc::Global;

impl<S: Alter> TableBook<S> {
    /// Makes an empty database a desk's, in one transaction, and a book of it, which contains
    /// nothing yet. If it fails, the connection is handed back, and the database stays as it was.
    ///
    /// # Errors
    ///
    /// `OtherSchema` if the database has a table, an index or a view, `Memory` if an allocation was
    /// refused, `Storage` if a statement failed otherwise, as when the disk did, or the connection
    /// stands inside a transaction.
    pub fn create(
        alloc: Global,
        mut conn: Connection<S>,
    ) -> Result<TableBook<S>, (TableFault, Connection<S>)>
        ensures schema { IfOk result (λ _. (state S.Store conn).now.schema ≡ no_schema) }
        ensures held { IfOk result
            (λ book. IsUsable (state S.Store book) → IsUsable (state S.Store conn)) }
        ensures nothing { IfOk result (λ book. IsUsable (state S.Store book)
            → contents_in (state S.Store book) ≡ no_contents) }
        ensures sound { IfOk result (λ book. IsUsable (state S.Store book)
            → IsSoundDesk (state S.Store book)) }
        ensures other { IfErr result
            (λ e. e.0 ≡ fault.OtherSchema → (state S.Store conn).now.schema ≢ no_schema) }
        ensures taken { conn.in_transaction ≡ false → (state S.Store conn).now.schema ≢ no_schema
            → IfErr result (λ e. e.0 ≡ fault.OtherSchema) }
        ensures inside { conn.in_transaction ≡ true
            → IsErrAnd result (λ e. (e.0 ≡ fault.Storage) × (e.1 ≡ conn)) }
        ensures unread { IfErr result (λ e. e.0 ≢ fault.BrokenRow) }
        ensures opened { IfErr result (λ e. e.0 ≢ fault.InUse) }
        ensures same { IfErr result (λ e. IsUsable (state S.Store e.1)
            → IsUsable (state S.Store conn)
            × ((state S.Store e.1).now ≡ (state S.Store conn).now)) }
        ensures mode { IfErr result
            (λ e. conn.in_transaction ≡ false → e.1.in_transaction ≡ false) }
    {
        laws::nothing();
        book_laws::soundness();
        schema_laws::one_reading();
        if !conn.is_autocommit() {
            return Err((TableFault::Storage, conn));
        }
        if !is_empty(conn.schema()) {
            return Err((TableFault::OtherSchema, conn));
        }
        match create::create(&mut conn) {
            Ok(()) => Ok(TableBook {
                alloc,
                conn,
                notes: Notes::none(),
                cache: Cache::new(alloc, DEFAULT_ROOM),
            }),
            Err(fault) => Err((fault.into(), conn)),
        }
    }
}
