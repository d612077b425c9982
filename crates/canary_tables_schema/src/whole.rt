//! Whether each row of tally was written with all its columns.
ghost use Rattle.std.specs.Prelude.{◌≡◌, ◌↔◌, [], IsTrue, IfOk, IfErr, OnOk, OnErr};
ghost use Rattle.sqlite_trees.specs.View.{IsClean, IsFailure, IsQuiet};
ghost use Rattle.sqlite_exec.specs.Calls.{OnlyReads};
ghost use Rattle.canary_tables_schema.specs.Formed.{AreWhole};

use sqlite_trees::error::StoreError;
use sqlite_trees::store::{Direction, Store};
use sqlite_value::row::Row;
use std::alloc::Global;

// Its rowid, and a value for each column.
const CELLS: usize = 11;

// Reads one row after another into the one that is given.
fn read_tallies<S: Store>(store: &mut S, tally: u32, row: &mut Row) -> Result<bool, StoreError>
    ensures ok { IfOk result (λ b. IsClean (S.Store.view store.new)
        → (IsTrue b ↔ AreWhole tally (S.Store.view store.old).trees)) }
    ensures same { OnOk result (IsClean (S.Store.view store.new)
        → OnlyReads (S.Store.view store.old) (S.Store.view store.new)) }
    ensures err { IsClean (S.Store.view store.new)
        → IfErr result (IsFailure (S.Store.view store.old) (S.Store.view store.new)) }
    ensures quiet { IsQuiet S.Store.view S.Store.faults S.Store.recovers S.Store.is_shielded
        store.old store.new }
{
    row.clear();
    store.seek(0, tally, row, Direction::Forward)?;
    'rows: for _ in 0..u64::MAX {
        if !store.next(0, row)? {
            return Ok(true);
        }
        if row.len() != CELLS {
            return Ok(false);
        }
    }
    // No store has this many rows.
    Err(StoreError::OutOfMemory)
}

// Whether each row of tally, which has this tree, has all its cells, which a query does not show.
// If the store fails, it goes back to what was committed.
pub(crate) fn has_whole_tallies<S: Store>(
    alloc: Global,
    store: &mut S,
    tally: u32,
) -> Result<bool, StoreError>
    ensures ok { IfOk result (λ b. IsClean (S.Store.view store.new)
        → (IsTrue b ↔ AreWhole tally (S.Store.view store.old).trees)) }
    ensures same { OnOk result (IsClean (S.Store.view store.new)
        → OnlyReads (S.Store.view store.old) (S.Store.view store.new)) }
    ensures undone { OnErr result (IsClean (S.Store.view store.new)
        → IsTrue (S.Store.view store.new).is_open
        → (S.Store.view store.new).trees ≡ (S.Store.view store.old).committed) }
    ensures quiet { IsQuiet S.Store.view S.Store.faults S.Store.recovers S.Store.is_shielded
        store.old store.new }
{
    let mut row = Row::new(alloc);
    let is_whole = read_tallies(store, tally, &mut row);
    if is_whole.is_err() {
        store.rollback();
    }
    is_whole
}
