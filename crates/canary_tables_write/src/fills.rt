//! What is written when the first schema's rows become a desk's: rows that are given whole, each
//! after the others, and the number of the schema. After an error nothing is said of the tables in
//! the transaction, and what was committed stays.
ghost use Rattle.std.specs.Prelude.{◌≡◌, false, IsTrue, OnOk, pos, option_map};
ghost use Rattle.sqlite.specs.Held.{state};
ghost use Rattle.canary_tables_rows.specs.Changes.{with_revision, with_binding, with_tally};
ghost use Rattle.canary_tables_schema.specs.Stores.{Writes, Wrote};
ghost use Rattle.canary_tables_write.specs.Fills.{with_revisions, with_bindings, with_tallies};
ghost use Rattle.canary_tables_write.specs.Fills.{NumbersAnew, StaysSound};

use crate::cells::seconds;
use crate::inserts::{insert_binding, insert_revision};
use canary_base::moments::Moment;
use canary_tables_rows::rows::{BindingRow, RevisionRow, TallyRow};
use sqlite::{Alter, Error, Transaction, params};

/// Makes the one row of `meta`, whose id is 1, that of a desk, which is 1, 2. An error is the
/// database's, for example if memory is refused, or that a failure has ended the transaction.
pub fn set_schema<S: Alter>(tx: &mut Transaction<'_, S>) -> Result<usize, Error>
    ensures writes { Writes tx.old.conn.ghost_name tx.new.conn.ghost_name
        (state S.Store tx.old.conn.now) (state S.Store tx.new.conn.now) result }
    ensures set { NumbersAnew
        (state S.Store tx.old.conn.now) (state S.Store tx.new.conn.now) result }
    ensures began { OnOk result (IsTrue (state S.Store tx.old.conn.now).in_transaction) }
    ensures ended { (state S.Store tx.old.conn.now).in_transaction ≡ false
        → tx.new.conn.now ≡ tx.old.conn.now }
{
    tx.execute("UPDATE meta SET schema = 2", &[])
}

/// Inserts these revisions, in order. An error is the database's, for example if one is there
/// already.
pub fn insert_revisions<S: Alter>(
    tx: &mut Transaction<'_, S>,
    rows: &[RevisionRow],
) -> Result<(), Error>
    ensures writes { Writes tx.old.conn.ghost_name tx.new.conn.ghost_name
        (state S.Store tx.old.conn.now) (state S.Store tx.new.conn.now) result }
    ensures wrote { Wrote (with_revisions rows.now)
        (state S.Store tx.old.conn.now) (state S.Store tx.new.conn.now) result }
    ensures sound { StaysSound
        (state S.Store tx.old.conn.now) (state S.Store tx.new.conn.now) result }
{
    for row in rows {
        revision_row(tx, row)?;
    }
    Ok(())
}

// Inserts one revision, by a contract of its row, as the loop over the rows needs it.
fn revision_row<S: Alter>(tx: &mut Transaction<'_, S>, row: &RevisionRow) -> Result<usize, Error>
    ensures writes { Writes tx.old.conn.ghost_name tx.new.conn.ghost_name
        (state S.Store tx.old.conn.now) (state S.Store tx.new.conn.now) result }
    ensures wrote { Wrote (with_revision row.now)
        (state S.Store tx.old.conn.now) (state S.Store tx.new.conn.now) result }
    ensures sound { StaysSound
        (state S.Store tx.old.conn.now) (state S.Store tx.new.conn.now) result }
{
    insert_revision(tx, &row.name, row.revision, row.spec.as_str())
}

/// Inserts these rows of bindings, in order. An error is the database's, for example if one of the
/// runs is bound to a revision of that template already, or its service is not there.
pub fn insert_bindings<S: Alter>(
    tx: &mut Transaction<'_, S>,
    rows: &[BindingRow],
) -> Result<(), Error>
    ensures writes { Writes tx.old.conn.ghost_name tx.new.conn.ghost_name
        (state S.Store tx.old.conn.now) (state S.Store tx.new.conn.now) result }
    ensures wrote { Wrote (with_bindings rows.now)
        (state S.Store tx.old.conn.now) (state S.Store tx.new.conn.now) result }
    ensures sound { StaysSound
        (state S.Store tx.old.conn.now) (state S.Store tx.new.conn.now) result }
{
    for row in rows {
        binding_row(tx, row)?;
    }
    Ok(())
}

// Inserts one row of binding, by a contract of that row, as the loop over the rows needs it.
fn binding_row<S: Alter>(tx: &mut Transaction<'_, S>, row: &BindingRow) -> Result<usize, Error>
    ensures writes { Writes tx.old.conn.ghost_name tx.new.conn.ghost_name
        (state S.Store tx.old.conn.now) (state S.Store tx.new.conn.now) result }
    ensures wrote { Wrote (with_binding row.now)
        (state S.Store tx.old.conn.now) (state S.Store tx.new.conn.now) result }
    ensures sound { StaysSound
        (state S.Store tx.old.conn.now) (state S.Store tx.new.conn.now) result }
{
    insert_binding(tx, &row.service, row.run, &row.template, row.revision)
}

/// Inserts these tallies, with their counts, in order. An error is the database's, for example if
/// one is there already.
pub fn insert_counts<S: Alter>(tx: &mut Transaction<'_, S>, rows: &[TallyRow]) -> Result<(), Error>
    ensures writes { Writes tx.old.conn.ghost_name tx.new.conn.ghost_name
        (state S.Store tx.old.conn.now) (state S.Store tx.new.conn.now) result }
    ensures wrote { Wrote (with_tallies rows.now)
        (state S.Store tx.old.conn.now) (state S.Store tx.new.conn.now) result }
    ensures sound { StaysSound
        (state S.Store tx.old.conn.now) (state S.Store tx.new.conn.now) result }
{
    for row in rows {
        tally_row(tx, row)?;
    }
    Ok(())
}

// Inserts one tally, with all of its counts.
fn tally_row<S: Alter>(tx: &mut Transaction<'_, S>, row: &TallyRow) -> Result<usize, Error>
    ensures writes { Writes tx.old.conn.ghost_name tx.new.conn.ghost_name
        (state S.Store tx.old.conn.now) (state S.Store tx.new.conn.now) result }
    ensures wrote { Wrote (with_tally row.now)
        (state S.Store tx.old.conn.now) (state S.Store tx.new.conn.now) result }
    ensures sound { StaysSound
        (state S.Store tx.old.conn.now) (state S.Store tx.new.conn.now) result }
{
    tx.execute(
        "INSERT INTO tally (service, run, metric, counted, failed, inconclusive, errors, \
         consecutive, passes, last) VALUES (?1, ?2, ?3, ?4, ?5, ?6, ?7, ?8, ?9, ?10)",
        params![
            row.service.as_str(),
            row.run,
            row.metric,
            row.counts.counted(),
            row.counts.failed(),
            row.counts.inconclusive(),
            row.counts.errors(),
            row.counts.consecutive(),
            row.counts.passes(),
            maybe_seconds(row.counts.last()),
        ],
    )
}

// The seconds of a moment, as SQLite takes them; none for NULL.
fn maybe_seconds(moment: Option<Moment>) -> Option<i64>
    ensures { result ≡ option_map pos moment }
{
    moment.map(seconds)
}
