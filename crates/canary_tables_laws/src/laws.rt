//! Laws over all books over tables, and over all faults.
ghost use Rattle.sqlite.specs.Held.{state};
ghost use Rattle.canary_tables_laws.specs.TableBooks.{IsIntact, AreOfTheirRows, HasItsTables};
ghost use Rattle.canary_tables_laws.specs.TableBooks.{AreHonestMemory};
ghost use Rattle.canary_tables_laws.specs.FaultRows.{AreSqliteFaults, AreReadFaults};
ghost use Rattle.canary_tables_laws.specs.FaultRows.{AreTableFaults};

use canary_once::book::Book;
use canary_tables::book::TableBook;
use canary_tables::laws as table_laws;
use sqlite::{Alter, MemStore};

/// However a book over tables came about, its store is honest exactly if its connection is open and
/// its disk did not fail, and it contains what the rows of its tables say.
pub fn table_books<S: Alter>()
    ensures { AreOfTheirRows S.Store ⟦<TableBook<S> as Book>⟧.state }
{}

/// However a book over tables in memory came about, its store is honest, and memory alone.
pub fn memory_tables()
    ensures { AreHonestMemory ⟦<TableBook<MemStore> as Book>⟧.state }
{}

/// However a book over tables came about, as by `create`, by `adopt` and by each `commit`: if its
/// connection is open and its disk did not fail, its tables are just the rows of what it contains.
pub fn tables<S: Alter>(book: &TableBook<S>)
    ensures { IsIntact (state S.Store book.now)
        → HasItsTables (state S.Store book.now) (⟦<TableBook<S> as Book>⟧.state book.now) }
{
    table_laws::tables(book);
}

/// What each fault becomes: memory that is refused stays that, and so does a store that fails. A
/// row that stands for no value is a broken row when a database is judged, and a failed store when
/// a book is read.
pub fn faults()
    ensures sqlite { AreSqliteFaults }
    ensures reads { AreReadFaults }
    ensures tables { AreTableFaults }
{}
