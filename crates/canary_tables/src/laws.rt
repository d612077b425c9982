//! A law over every book over tables.
ghost use Rattle.sqlite.specs.Held.{state};
ghost use Rattle.canary_tables_schema.specs.Cells.{tables_in};
ghost use Rattle.canary_tables_schema.specs.Stores.{IsUsable, Stores};
ghost use Rattle.canary_tables_contents.specs.Reading.{HoldsContents};

use crate::book::TableBook;
use sqlite::Alter;

/// However the book came about: if its connection is usable, its database is a desk's, and the rows
/// of that are those of the contents as which they are read.
pub fn tables<S: Alter>(book: &TableBook<S>)
    ensures stores { IsUsable (state S.Store book.now)
        → Stores (state S.Store book.now) (tables_in (state S.Store book.now).now) }
    ensures holds { IsUsable (state S.Store book.now)
        → HoldsContents (tables_in (state S.Store book.now).now) }
{
    let _settled = book.conn.is_autocommit();
}
