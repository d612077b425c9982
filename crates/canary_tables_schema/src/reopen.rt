//! A store is opened, or opened anew, so that it is known in which order its rows stand.
ghost use Rattle.std.specs.Prelude.{◌≡◌, ◌≤◌, ◌↔◌, false, IsTrue, IfOk, IfErr, IfSome};
ghost use Rattle.sqlite.specs.Held.{state};
ghost use Rattle.sqlite.specs.State.{HasCleanDisk, Opens, IsLive};
ghost use Rattle.sqlite.specs.Steps.{IsFresh};
ghost use Rattle.sqlite_trees.specs.View.{IsClean, IsQuiet, doubt};
ghost use Rattle.canary_tables_schema.specs.Formed.{AreWhole, HasWholeTallies, HasRisingTables};
ghost use Rattle.canary_tables_schema.specs.Formed.{IsRising};
ghost use Rattle.canary_tables_schema.specs.Listed.{ListsTally};
ghost use Rattle.canary_tables_schema.specs.Stores.{IsUsable};
ghost use Rattle.canary_tables_schema.specs.Numbered.{IsOpenedAnew, IsLeft};

use crate::fault::{StoreFault, fault_below, fault_of};
use crate::recognize::{is_desk, tally_tree};
use crate::whole::has_whole_tallies;
use sqlite::{Alter, Connection};
use sqlite_catalog::load::load;
use std::alloc::Global;

// Reads the rows of tally, which has this tree, and then opens the store.
fn open_read<S: Alter + Drop>(
    alloc: Global,
    mut store: S,
    tally: u32,
) -> Result<(Connection<S>, bool), (StoreFault, S)>
    requires { IsClean (S.Store.view store) → IsFresh (S.Store.view store) }
    ensures mode { IfOk result (λ r. r.0.in_transaction ≡ false) }
    ensures clean { IfOk result (λ r.
        doubt (S.Store.view store).is_clean ≤ doubt (state S.Store r.0).is_clean) }
    ensures trees { IfOk result (λ r. HasCleanDisk (state S.Store r.0)
        → (state S.Store r.0).now.trees ≡ (S.Store.view store).trees) }
    ensures opens { IfOk result (λ r. HasCleanDisk (state S.Store r.0)
        → Opens (state S.Store r.0) × IsLive (state S.Store r.0)) }
    ensures whole { IfOk result (λ r. HasCleanDisk (state S.Store r.0)
        → (IsTrue r.1 ↔ AreWhole tally (S.Store.view store).trees)) }
    ensures quiet { IfErr result (λ e. IsQuiet
        S.Store.view S.Store.faults S.Store.recovers S.Store.is_shielded store e.1) }
    ensures rows { IfErr result (λ e. IsClean (S.Store.view e.1)
        → IsTrue (S.Store.view e.1).is_open
        → (S.Store.view e.1).trees ≡ (S.Store.view store).trees) }
{
    let is_whole = match has_whole_tallies(alloc, &mut store, tally) {
        Ok(is_whole) => is_whole,
        Err(error) => return Err((fault_below(error), store)),
    };
    match Connection::over(alloc, store) {
        Ok(conn) => Ok((conn, is_whole)),
        Err((error, store)) => Err((fault_of(error), store)),
    }
}

/// Takes the store out of the connection and opens it again, which reads each row once more. The
/// database is the same, and the rows of its tables are now known to stand in the order of their
/// rowids. Beside the connection it reports whether each row of tally, if the database is a desk's,
/// has a value for each column: one that was written before a column was added has not, and no
/// query shows it.
///
/// # Errors
///
/// `Memory` if an allocation was refused, `Storage` if the store failed otherwise, for example if
/// the disk did, or it was shut. The store is handed back, with the database as it was.
pub fn reopen<S: Alter + Drop>(
    alloc: Global,
    conn: Connection<S>,
) -> Result<(Connection<S>, bool), (StoreFault, S)>
    requires autocommit { conn.in_transaction ≡ false }
    ensures mode { IfOk result (λ r. r.0.in_transaction ≡ false) }
    ensures opened { IfOk result (λ r. IsUsable (state S.Store r.0)
        → IsOpenedAnew (state S.Store conn) (state S.Store r.0)) }
    ensures rising { IfOk result (λ r. IsUsable (state S.Store r.0)
        → HasRisingTables (state S.Store r.0).now) }
    ensures whole { IfOk result (λ r. IsUsable (state S.Store r.0)
        → (IsTrue r.1 ↔ HasWholeTallies (state S.Store r.0).now)) }
    ensures left { IfErr result (λ e. IsLeft (state S.Store conn) (S.Store.view e.1)) }
{
    let _settled = conn.is_autocommit();
    let tally = tally_tree(conn.schema());
    let store = conn.into_store();
    if store.is_broken() {
        return Err((StoreFault::Storage, store));
    }
    open_read(alloc, store, tally)
}

// The tree of tally, if the store, which was just opened, lists the tables of a desk.
fn listed_tally<S: Alter>(alloc: Global, store: &S) -> Result<Option<u32>, StoreFault>
    requires { IsClean (S.Store.view store.now) → (S.Store.view store.now).is_broken ≡ false }
    ensures { IfOk result (λ found. IfSome found (λ tally. IsClean (S.Store.view store.now)
        → ListsTally (S.Store.view store.now).trees tally)) }
{
    match load(store, alloc) {
        Ok(Some(schema)) if is_desk(&schema) => Ok(Some(tally_tree(&schema))),
        Ok(_) => Ok(None),
        Err(_) => Err(StoreFault::Memory),
    }
}

/// Opens a connection over a store that was just opened, if it lists the tables of a desk: each row
/// is read once. The database is the store's, and the rows of its tables are known to stand in the
/// order of their rowids. Beside the connection it reports what `reopen` reports. `None`, if other
/// tables are listed, and the store is let go then.
///
/// # Errors
///
/// `Memory` if an allocation was refused, `Storage` if the store failed otherwise, for example if
/// the disk did, or the rows do not obey the schema. The store is let go.
pub fn open_desk<S: Alter + Drop>(
    alloc: Global,
    store: S,
) -> Result<Option<(Connection<S>, bool)>, StoreFault>
    requires { IsClean (S.Store.view store) → IsFresh (S.Store.view store) }
    ensures mode { IfOk result (λ found. IfSome found (λ r. r.0.in_transaction ≡ false)) }
    ensures trees { IfOk result (λ found. IfSome found (λ r. HasCleanDisk (state S.Store r.0)
        → (state S.Store r.0).now.trees ≡ (S.Store.view store).trees)) }
    ensures numbered { IfOk result (λ found. IfSome found (λ r. IsUsable (state S.Store r.0)
        → IsRising (state S.Store r.0).now)) }
    ensures whole { IfOk result (λ found. IfSome found (λ r. IsUsable (state S.Store r.0)
        → (IsTrue r.1 ↔ HasWholeTallies (state S.Store r.0).now))) }
{
    match listed_tally(alloc, &store) {
        Ok(Some(tally)) => match open_read(alloc, store, tally) {
            Ok(opened) => Ok(Some(opened)),
            Err((fault, _)) => Err(fault),
        },
        Ok(None) => Ok(None),
        Err(fault) => Err(fault),
    }
}
