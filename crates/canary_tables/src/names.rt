//! Which services a book has.
ghost use Rattle.std.specs.Prelude.{◌≡◌, false, map, IfOk};
ghost use Rattle.sqlite.specs.Held.{state};
ghost use Rattle.canary_tables_read.specs.Finds.{IsSame};
ghost use Rattle.canary_tables_schema.specs.Cells.{tables_in};
ghost use Rattle.canary_tables_schema.specs.Stores.{IsUsable};
ghost use Rattle.canary_tables.specs.Desk.{HasDesk, Looks};

use crate::book::{TableBook, book_fault};
use canary_base::lists::Listed;
use canary_base::names::Name;
use canary_once::book::BookFault;
use canary_tables_read::lists;
use canary_tables_schema::fault::StoreFault;
use sqlite::{Alter, Connection};
use std::alloc::Global;

impl<S: Alter> TableBook<S> {
    /// The names of all services, in the order of their rows. Nothing changes.
    ///
    /// # Errors
    /// `Memory` if an allocation was refused, `Storage` if the store failed.
    pub fn service_names(&mut self) -> Result<Listed<Name>, BookFault>
        ensures same { IsSame (state S.Store self.old) (state S.Store self.new) }
        ensures names { IsUsable (state S.Store self.new) → IfOk result (λ names.
            names ≡ map (λ row. row.name) (tables_in (state S.Store self.old).now).services) }
    {
        names(&mut self.conn, self.alloc).map_err(book_fault)
    }
}

// The names of all services, by a contract of the connection that a book has.
fn names<S: Alter>(conn: &mut Connection<S>, alloc: Global) -> Result<Listed<Name>, StoreFault>
    requires ready { HasDesk conn.old.in_transaction (state S.Store conn.old) }
    ensures reads { Looks conn.new.in_transaction
        (state S.Store conn.old) (state S.Store conn.new) }
    ensures found { IsUsable (state S.Store conn.new) → IfOk result (λ names.
        names ≡ map (λ row. row.name) (tables_in (state S.Store conn.old).now).services) }
{
    let names = lists::service_names(conn, alloc)?;
    Ok(names)
}
