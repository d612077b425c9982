//! Which schema a database has.
ghost use Rattle.std.specs.Prelude.{◌≡◌, ◌↔◌, ◌⊎◌, IsTrue, ◌++◌, true, false};
ghost use Rattle.canary_tables_schema.specs.Layout.{dense, gapped};
ghost use Rattle.canary_tables_schema.specs.Schema.{no_schema, key_indexes, added_indexes, schema_of};
ghost use Rattle.canary_tables_schema.specs.Cells.{tally_tree};
ghost use Rattle.canary_tables_schema.specs.Formed.{IsDeskSchema};

use crate::columns::{IndexLayout, are_indexes};
use crate::numbers::{Numbers, dense, gapped};
use crate::tables::are_tables;
use sqlite_schema::schema::{Index, Schema};

/// Whether the schema has no table, no index and no view.
pub fn is_empty(schema: &Schema) -> bool
    ensures { IsTrue result ↔ schema.now ≡ no_schema }
{
    schema.tables.is_empty() && schema.indexes.is_empty() && schema.views.is_empty()
}

// The indexes that SQLite makes for the keys.
fn are_key_indexes(indexes: &[Index], numbers: &Numbers) -> bool
    ensures { IsTrue result ↔ indexes.now ≡ key_indexes numbers.now }
{
    are_indexes(
        indexes,
        &[
            IndexLayout::Key(b"sqlite_autoindex_caller_1", 1, &[1]),
            IndexLayout::Key(b"sqlite_autoindex_kept_1", 3, &[1, 2]),
            IndexLayout::Key(b"sqlite_autoindex_service_1", numbers.service, &[1]),
            IndexLayout::Key(b"sqlite_autoindex_run_1", numbers.run, &[1, 2]),
            IndexLayout::Key(
                b"sqlite_autoindex_measurement_1",
                numbers.measurement,
                &[2, 3, 4, 5],
            ),
            IndexLayout::Key(b"sqlite_autoindex_revision_1", numbers.revision, &[1, 2]),
            IndexLayout::Key(b"sqlite_autoindex_binding_1", numbers.binding, &[1, 2, 3]),
            IndexLayout::Key(b"sqlite_autoindex_tally_1", numbers.tally, &[1, 2, 3]),
        ],
    )
}

// The three that are made after the tables.
fn are_added_indexes(indexes: &[Index], numbers: &Numbers) -> bool
    ensures { IsTrue result ↔ indexes.now ≡ added_indexes numbers.now }
{
    let first = numbers.indexes as u64;
    are_indexes(
        indexes,
        &[
            IndexLayout::Order(b"run_closed", first, numbers.run, &[1, 5]),
            IndexLayout::Order(b"measurement_service", first + 1, numbers.measurement, &[2]),
            IndexLayout::Order(b"history_service", first + 2, numbers.history, &[2]),
        ],
    )
}

// All of them.
fn are_all_indexes(indexes: &[Index], numbers: &Numbers) -> bool
    ensures { IsTrue result
        ↔ indexes.now ≡ key_indexes numbers.now ++ added_indexes numbers.now }
{
    if indexes.len() != 11 {
        return false;
    }
    are_key_indexes(&indexes[..8], numbers) && are_added_indexes(&indexes[8..], numbers)
}

// All tables and all indexes under these numbers, and no view.
fn is_numbered(schema: &Schema, numbers: &Numbers) -> bool
    ensures { IsTrue result ↔ schema.now ≡ schema_of numbers.now }
{
    are_tables(schema.tables.as_slice(), numbers)
        && are_all_indexes(schema.indexes.as_slice(), numbers)
        && schema.views.is_empty()
}

// The schema as `create` makes it.
fn is_made(schema: &Schema) -> bool
    ensures { IsTrue result ↔ schema.now ≡ schema_of (dense true) }
{
    is_numbered(schema, &dense(true))
}

// The schema as it comes of the first one.
fn is_moved(schema: &Schema) -> bool
    ensures { IsTrue result ↔ schema.now ≡ schema_of gapped }
{
    is_numbered(schema, &gapped())
}

// The same after VACUUM.
fn is_packed(schema: &Schema) -> bool
    ensures { IsTrue result ↔ schema.now ≡ schema_of (dense false) }
{
    is_numbered(schema, &dense(false))
}

// Either of these two.
fn is_of_first(schema: &Schema) -> bool
    ensures { IsTrue result
        ↔ (schema.now ≡ schema_of gapped) ⊎ (schema.now ≡ schema_of (dense false)) }
{
    is_moved(schema) || is_packed(schema)
}

// In one of the layouts.
fn is_in_layout(schema: &Schema) -> bool
    ensures { IsTrue result ↔ (schema.now ≡ schema_of (dense true))
        ⊎ ((schema.now ≡ schema_of gapped) ⊎ (schema.now ≡ schema_of (dense false))) }
{
    is_made(schema) || is_of_first(schema)
}

/// Whether the schema is that of a desk: its ten tables, the table in which SQLite counts places,
/// its three indexes and those of the keys, and no more. Their trees have the numbers that `create`
/// gives them, or those of a file of the first schema whose tables became these, or of such a file
/// after VACUUM.
pub fn is_desk(schema: &Schema) -> bool
    ensures { IsTrue result ↔ IsDeskSchema schema.now }
{
    is_in_layout(schema)
}

// The tree of the eleventh table, which is a desk's tally.
pub(crate) fn tally_tree(schema: &Schema) -> u32
    ensures { result ≡ tally_tree schema.now }
{
    match schema.tables.as_slice().get(10) {
        Some(table) => table.tree,
        None => 0,
    }
}
