//! A desk's tables are made of the first schema's, and filled.
ghost use Rattle.std.specs.Prelude.{◌≡◌, IsTrue, IfOk, OnOk, Err, map};
ghost use Rattle.sqlite.specs.Held.{state};
ghost use Rattle.sqlite.specs.Effect.{IsDatabase};
ghost use Rattle.sqlite.specs.State.{HasCleanDisk};
ghost use Rattle.canary_tables_rows.specs.Limits.{AreWithin};
ghost use Rattle.canary_tables_rows.specs.Tables.{Tables};
ghost use Rattle.canary_tables_schema.specs.Layout.{moved};
ghost use Rattle.canary_tables_schema.specs.Stores.{IsUsable, Holds, Stores, IsReady};
ghost use Rattle.canary_tables_schema.specs.Stores.{Wrote, StaysCommitted, SurvivesCut};
ghost use Rattle.canary_tables_write.specs.Fills.{with_revisions, with_bindings, with_tallies};
ghost use Rattle.canary_tables_write.specs.Fills.{StaysSound};
ghost use Rattle.canary_tables_read.specs.Reader.{IsKept, seen_inside};
ghost use Rattle.canary_migrate.specs.Migrated.{first_revision};
ghost use Rattle.canary_migrate.specs.Migrates.{IsOfFirst};
ghost use Rattle.canary_migrate.specs.Fills.{IsMade, filled};

use crate::{plan, tallies};
use canary_base::error::Memory;
use canary_base::lists::Listed;
use canary_tables_read::fault::ReadFault;
use canary_tables_read::first::{FirstTally, TemplateRow};
use canary_tables_rows::rows::{BindingRow, RevisionRow, TallyRow};
use canary_tables_schema::fault::{StoreFault, fault_of};
use canary_tables_schema::remake::remake;
use canary_tables_write::fills::{insert_bindings, insert_counts, insert_revisions, set_schema};
use sqlite::{Alter, Error, Transaction};
use std::alloc::Global;

/// Makes a desk's tables of those of the first schema, with the number of the schema. Those of
/// revisions, of bindings and of tallies are empty.
///
/// # Errors
/// `Memory` if there is not enough, `Storage` if the database fails.
pub(crate) fn make_tables<S: Alter>(tx: &mut Transaction<'_, S>) -> Result<(), StoreFault>
    ensures same_reference { tx.new.conn.ghost_name ≡ tx.old.conn.ghost_name }
    ensures made { HasCleanDisk (state S.Store tx.new.conn.now)
        → IsTrue (state S.Store tx.old.conn.now).in_transaction
        → IsOfFirst (state S.Store tx.old.conn.now).now
        → OnOk result (IsMade (state S.Store tx.old.conn.now) (state S.Store tx.new.conn.now)) }
    ensures kept { StaysCommitted (state S.Store tx.old.conn.now) (state S.Store tx.new.conn.now) }
    ensures survives { SurvivesCut (state S.Store tx.old.conn.now) (state S.Store tx.new.conn.now) }
{
    match make(tx) {
        Ok(_) => Ok(()),
        Err(error) => Err(fault_of(error)),
    }
}

// The same, with the error of SQLite if it fails, and else with the result of `set_schema`.
fn make<S: Alter>(tx: &mut Transaction<'_, S>) -> Result<usize, Error>
    ensures same_reference { tx.new.conn.ghost_name ≡ tx.old.conn.ghost_name }
    ensures made { HasCleanDisk (state S.Store tx.new.conn.now)
        → IsTrue (state S.Store tx.old.conn.now).in_transaction
        → IsOfFirst (state S.Store tx.old.conn.now).now
        → OnOk result (IsMade (state S.Store tx.old.conn.now) (state S.Store tx.new.conn.now)) }
    ensures kept { StaysCommitted (state S.Store tx.old.conn.now) (state S.Store tx.new.conn.now) }
    ensures survives { SurvivesCut (state S.Store tx.old.conn.now) (state S.Store tx.new.conn.now) }
{
    remake(tx)?;
    set_schema(tx)
}

/// Fills the tables that are new with these templates and tallies, and with what services and runs
/// are bound to.
///
/// # Errors
/// `Broken` if a row is not one that a program can hold, as a tally of counts that agree with no
/// measurements; `Memory` if there is not enough; `Storage` if the database fails.
pub(crate) fn fill<S: Alter>(
    tx: &mut Transaction<'_, S>,
    alloc: Global,
    templates: &[TemplateRow],
    old: &[FirstTally],
) -> Result<(), ReadFault>
    requires ready { IsUsable (seen_inside (state S.Store tx.old.conn.now))
        → IsDatabase (state S.Store tx.old.conn.now).now }
    ensures same_reference { tx.new.conn.ghost_name ≡ tx.old.conn.ghost_name }
    ensures was { IsUsable (seen_inside (state S.Store tx.new.conn.now))
        → OnOk result (IsUsable (seen_inside (state S.Store tx.old.conn.now))) }
    ensures wrote { IsUsable (seen_inside (state S.Store tx.new.conn.now)) → (t : Tables)
        → Holds moved (state S.Store tx.old.conn.now).now t
        → OnOk result (Stores (state S.Store tx.new.conn.now) (filled templates.now old.now t)) }
    ensures sound { IsUsable (seen_inside (state S.Store tx.new.conn.now)) → (t : Tables)
        → Holds moved (state S.Store tx.old.conn.now).now t
        → OnOk result (IsDatabase (state S.Store tx.new.conn.now).now) }
    ensures broken { IsUsable (seen_inside (state S.Store tx.new.conn.now))
        → result ≡ Err ReadFault.Broken → IsUsable (seen_inside (state S.Store tx.old.conn.now))
        × ((t : Tables) → Holds moved (state S.Store tx.old.conn.now).now t
        → ¬ AreWithin (filled templates.now old.now t)) }
    ensures kept { IsKept (state S.Store tx.old.conn.now) (state S.Store tx.new.conn.now) }
{
    let bindings = plan::bindings(tx, alloc)?;
    let counted = tallies::with_passes(tx, alloc, old)?;
    let revisions = revisions_of(alloc, templates)?;
    write(
        tx,
        revisions.as_slice(),
        bindings.as_slice(),
        counted.as_slice(),
    )?;
    Ok(())
}

// Each template is revision 1 of its name.
fn revisions_of(alloc: Global, templates: &[TemplateRow]) -> Result<Listed<RevisionRow>, Memory>
    ensures { IfOk result (λ rows. rows ≡ map first_revision templates.now) }
{
    let mut rows = Listed::of(Vec::new(alloc));
    for template in templates {
        rows.push(first_revision(alloc, template)?)?;
    }
    Ok(rows)
}

// Revision 1 of the template, with a copy of its text; or `Memory`.
fn first_revision(alloc: Global, template: &TemplateRow) -> Result<RevisionRow, Memory>
    ensures { IfOk result (λ row. row ≡ first_revision template.now) }
{
    Ok(RevisionRow {
        name: template.name,
        revision: 1,
        spec: template.spec.copy(alloc)?,
    })
}

// Inserts these rows, if the transaction goes on.
fn write<S: Alter>(
    tx: &mut Transaction<'_, S>,
    revisions: &[RevisionRow],
    bindings: &[BindingRow],
    counted: &[TallyRow],
) -> Result<(), StoreFault>
    ensures same_reference { tx.new.conn.ghost_name ≡ tx.old.conn.ghost_name }
    ensures began { OnOk result (IsTrue (state S.Store tx.old.conn.now).in_transaction) }
    ensures wrote { HasCleanDisk (state S.Store tx.new.conn.now) → (t : Tables)
        → Holds moved (state S.Store tx.old.conn.now).now t
        → OnOk result (IsReady (state S.Store tx.new.conn.now) (with_tallies counted.now
        (with_bindings bindings.now (with_revisions revisions.now t)))) }
    ensures sound { HasCleanDisk (state S.Store tx.new.conn.now) → (t : Tables)
        → Holds moved (state S.Store tx.old.conn.now).now t
        → OnOk result (IsDatabase (state S.Store tx.new.conn.now).now) }
    ensures kept { IsKept (state S.Store tx.old.conn.now) (state S.Store tx.new.conn.now) }
    ensures survives { SurvivesCut (state S.Store tx.old.conn.now) (state S.Store tx.new.conn.now) }
{
    match go_on(tx, revisions, bindings, counted) {
        Ok(()) => Ok(()),
        Err(error) => Err(fault_of(error)),
    }
}

// The row of meta is written once more, which fails if the transaction has ended.
fn go_on<S: Alter>(
    tx: &mut Transaction<'_, S>,
    revisions: &[RevisionRow],
    bindings: &[BindingRow],
    counted: &[TallyRow],
) -> Result<(), Error>
    ensures same_reference { tx.new.conn.ghost_name ≡ tx.old.conn.ghost_name }
    ensures began { OnOk result (IsTrue (state S.Store tx.old.conn.now).in_transaction) }
    ensures wrote { HasCleanDisk (state S.Store tx.new.conn.now) → (t : Tables)
        → Holds moved (state S.Store tx.old.conn.now).now t
        → OnOk result (IsReady (state S.Store tx.new.conn.now) (with_tallies counted.now
        (with_bindings bindings.now (with_revisions revisions.now t)))) }
    ensures sound { HasCleanDisk (state S.Store tx.new.conn.now) → (t : Tables)
        → Holds moved (state S.Store tx.old.conn.now).now t
        → OnOk result (IsDatabase (state S.Store tx.new.conn.now).now) }
    ensures kept { IsKept (state S.Store tx.old.conn.now) (state S.Store tx.new.conn.now) }
    ensures survives { SurvivesCut (state S.Store tx.old.conn.now) (state S.Store tx.new.conn.now) }
{
    set_schema(tx)?;
    insert(tx, revisions, bindings, counted)
}

// Inserts the revisions, then the bindings, then the tallies, up to the first error.
fn insert<S: Alter>(
    tx: &mut Transaction<'_, S>,
    revisions: &[RevisionRow],
    bindings: &[BindingRow],
    counted: &[TallyRow],
) -> Result<(), Error>
    ensures same_reference { tx.new.conn.ghost_name ≡ tx.old.conn.ghost_name }
    ensures wrote { Wrote (λ t. with_tallies counted.now
        (with_bindings bindings.now (with_revisions revisions.now t)))
        (state S.Store tx.old.conn.now) (state S.Store tx.new.conn.now) result }
    ensures sound { StaysSound
        (state S.Store tx.old.conn.now) (state S.Store tx.new.conn.now) result }
    ensures kept { StaysCommitted (state S.Store tx.old.conn.now) (state S.Store tx.new.conn.now) }
    ensures survives { SurvivesCut (state S.Store tx.old.conn.now) (state S.Store tx.new.conn.now) }
{
    insert_revisions(tx, revisions)?;
    insert_bindings(tx, bindings)?;
    insert_counts(tx, counted)?;
    Ok(())
}
