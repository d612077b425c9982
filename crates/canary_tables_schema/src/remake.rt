//! The tables of the first schema become those of a desk.
ghost use Rattle.std.specs.Prelude.{◌≡◌, ◌++◌, ℕ, List, [], ◌∷◌};
ghost use Rattle.sqlite.specs.Schema.{Schema};
ghost use Rattle.sqlite.specs.Held.{state};
ghost use Rattle.canary_tables_schema.specs.First.{first_schema};
ghost use Rattle.canary_tables_schema.specs.Layout.{moved};
ghost use Rattle.canary_tables_schema.specs.Schema.{schema_at};
ghost use Rattle.canary_tables_schema.specs.Remakes.{Remakes, DropsTable, DropsIndex, AddsTable};
ghost use Rattle.canary_tables_schema.specs.Remakes.{AddsIndex, first_unindexed, without_tally};
ghost use Rattle.canary_tables_schema.specs.Remakes.{moved_tables, old_trees, new_trees};
ghost use Rattle.canary_tables_schema.specs.Stores.{Writes};

use sqlite::{Alter, Error, Transaction};

// Runs a text that drops a table.
fn drop_table<S: Alter>(tx: &mut Transaction<'_, S>, text: &str) -> Result<usize, Error>
    ensures writes { Writes tx.old.conn.ghost_name tx.new.conn.ghost_name
        (state S.Store tx.old.conn.now) (state S.Store tx.new.conn.now) result }
    ensures made { (schema next : Schema) (kept : List ℕ) → DropsTable schema text.now next kept
        → Remakes schema next kept []
        (state S.Store tx.old.conn.now) (state S.Store tx.new.conn.now) result }
{
    tx.execute(text, &[])
}

// Runs a text that drops an index.
fn drop_index<S: Alter>(tx: &mut Transaction<'_, S>, text: &str) -> Result<usize, Error>
    ensures writes { Writes tx.old.conn.ghost_name tx.new.conn.ghost_name
        (state S.Store tx.old.conn.now) (state S.Store tx.new.conn.now) result }
    ensures made { (schema next : Schema) (kept : List ℕ) → DropsIndex schema text.now next kept
        → Remakes schema next kept []
        (state S.Store tx.old.conn.now) (state S.Store tx.new.conn.now) result }
{
    tx.execute(text, &[])
}

// Runs a text that makes a table.
fn add_table<S: Alter>(tx: &mut Transaction<'_, S>, text: &str) -> Result<usize, Error>
    ensures writes { Writes tx.old.conn.ghost_name tx.new.conn.ghost_name
        (state S.Store tx.old.conn.now) (state S.Store tx.new.conn.now) result }
    ensures made { (schema next : Schema) (kept : List ℕ) (tree : ℕ)
        → AddsTable schema text.now next kept tree
        → Remakes schema next kept (tree ∷ [])
        (state S.Store tx.old.conn.now) (state S.Store tx.new.conn.now) result }
{
    tx.execute(text, &[])
}

// Runs a text that makes an index.
fn add_index<S: Alter>(tx: &mut Transaction<'_, S>, text: &str) -> Result<usize, Error>
    ensures writes { Writes tx.old.conn.ghost_name tx.new.conn.ghost_name
        (state S.Store tx.old.conn.now) (state S.Store tx.new.conn.now) result }
    ensures made { (schema next : Schema) (kept : List ℕ) → AddsIndex schema text.now next kept
        → Remakes schema next kept []
        (state S.Store tx.old.conn.now) (state S.Store tx.new.conn.now) result }
{
    tx.execute(text, &[])
}

// The three indexes go.
fn unindex<S: Alter>(tx: &mut Transaction<'_, S>) -> Result<usize, Error>
    ensures writes { Writes tx.old.conn.ghost_name tx.new.conn.ghost_name
        (state S.Store tx.old.conn.now) (state S.Store tx.new.conn.now) result }
    ensures made { Remakes first_schema first_unindexed old_trees []
        (state S.Store tx.old.conn.now) (state S.Store tx.new.conn.now) result }
{
    drop_index(tx, "DROP INDEX history_service")?;
    drop_index(tx, "DROP INDEX measurement_service")?;
    drop_index(tx, "DROP INDEX run_closed")
}

// The two tables go.
fn drop_old<S: Alter>(tx: &mut Transaction<'_, S>) -> Result<usize, Error>
    ensures writes { Writes tx.old.conn.ghost_name tx.new.conn.ghost_name
        (state S.Store tx.old.conn.now) (state S.Store tx.new.conn.now) result }
    ensures made { Remakes first_unindexed without_tally old_trees []
        (state S.Store tx.old.conn.now) (state S.Store tx.new.conn.now) result }
{
    drop_table(tx, "DROP TABLE template")?;
    drop_table(tx, "DROP TABLE tally")
}

// The three new tables.
fn add_new<S: Alter>(tx: &mut Transaction<'_, S>) -> Result<usize, Error>
    ensures writes { Writes tx.old.conn.ghost_name tx.new.conn.ghost_name
        (state S.Store tx.old.conn.now) (state S.Store tx.new.conn.now) result }
    ensures made { Remakes without_tally moved_tables old_trees new_trees
        (state S.Store tx.old.conn.now) (state S.Store tx.new.conn.now) result }
{
    add_table(
        tx,
        "CREATE TABLE revision (name TEXT NOT NULL, revision INTEGER NOT NULL, \
        spec TEXT NOT NULL, PRIMARY KEY (name, revision)) STRICT",
    )?;
    add_table(
        tx,
        "CREATE TABLE binding (service TEXT NOT NULL REFERENCES service (name), \
        run INTEGER NOT NULL, template TEXT NOT NULL, revision INTEGER NOT NULL, \
        PRIMARY KEY (service, run, template)) STRICT",
    )?;
    add_table(
        tx,
        "CREATE TABLE tally (service TEXT NOT NULL, run INTEGER NOT NULL, \
        metric INTEGER NOT NULL, counted INTEGER NOT NULL, failed INTEGER NOT NULL, \
        inconclusive INTEGER NOT NULL, errors INTEGER NOT NULL, consecutive INTEGER NOT NULL, \
        passes INTEGER NOT NULL, last INTEGER, PRIMARY KEY (service, run, metric)) STRICT",
    )
}

// The three indexes again.
fn index<S: Alter>(tx: &mut Transaction<'_, S>) -> Result<usize, Error>
    ensures writes { Writes tx.old.conn.ghost_name tx.new.conn.ghost_name
        (state S.Store tx.old.conn.now) (state S.Store tx.new.conn.now) result }
    ensures made { Remakes moved_tables (schema_at moved) (old_trees ++ new_trees) []
        (state S.Store tx.old.conn.now) (state S.Store tx.new.conn.now) result }
{
    add_index(tx, "CREATE INDEX run_closed ON run (service, closed)")?;
    add_index(
        tx,
        "CREATE INDEX measurement_service ON measurement (service)",
    )?;
    add_index(tx, "CREATE INDEX history_service ON history (service)")
}

/// Makes a desk's tables and indexes, in the layout `moved`, of those of the first schema: the
/// tables of templates and of tallies make way for those of revisions, of bindings and of tallies,
/// which are empty. All other tables keep their rows, `meta` too. An error is the database's, for
/// example if the disk fails.
pub fn remake<S: Alter>(tx: &mut Transaction<'_, S>) -> Result<usize, Error>
    ensures writes { Writes tx.old.conn.ghost_name tx.new.conn.ghost_name
        (state S.Store tx.old.conn.now) (state S.Store tx.new.conn.now) result }
    ensures made { Remakes first_schema (schema_at moved) old_trees new_trees
        (state S.Store tx.old.conn.now) (state S.Store tx.new.conn.now) result }
{
    unindex(tx)?;
    drop_old(tx)?;
    add_new(tx)?;
    index(tx)
}
