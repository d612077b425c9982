//! The first schema, which a desk's files had before templates had revisions.
ghost use Rattle.std.specs.Prelude.{◌≡◌, ◌↔◌, IsTrue, ◌++◌};
ghost use Rattle.canary_tables_schema.specs.First.{template, first_tally};
ghost use Rattle.canary_tables_schema.specs.First.{first_early_tables, first_late_tables};
ghost use Rattle.canary_tables_schema.specs.First.{first_key_indexes, first_added_indexes, first_schema};

use crate::columns::{ColumnLayout, IndexLayout, are_columns, are_indexes};
use crate::parts::is_keyed;
use crate::tables;
use sqlite_schema::schema::{Index, Schema, Table};

// Whether it is the table of templates, which had no revisions, in tree 5.
fn is_template(table: &Table) -> bool
    ensures { IsTrue result ↔ table.now ≡ record template { tree = 5 } }
{
    is_keyed(table, b"template", 5, &[1])
        && are_columns(
            table.columns.as_slice(),
            &[ColumnLayout::Words(b"name"), ColumnLayout::Words(b"spec")],
        )
        && table.references.is_empty()
}

// Whether it is the table of tallies, which counted no passes, in tree 11.
fn is_first_tally(table: &Table) -> bool
    ensures { IsTrue result ↔ table.now ≡ record first_tally { tree = 11 } }
{
    is_keyed(table, b"tally", 11, &[1, 2, 3])
        && are_columns(
            table.columns.as_slice(),
            &[
                ColumnLayout::Words(b"service"),
                ColumnLayout::Whole(b"run"),
                ColumnLayout::Whole(b"metric"),
                ColumnLayout::Whole(b"counted"),
                ColumnLayout::Whole(b"failed"),
                ColumnLayout::Whole(b"inconclusive"),
                ColumnLayout::Whole(b"errors"),
                ColumnLayout::Whole(b"consecutive"),
                ColumnLayout::Maybe(b"last"),
            ],
        )
        && table.references.is_empty()
}

// The first five tables, in the order in which they were made.
fn are_first_early(tables: &[Table]) -> bool
    ensures { IsTrue result ↔ tables.now ≡ first_early_tables }
{
    match tables {
        [meta, caller, kept, template, service] => {
            tables::is_meta(meta)
                && tables::is_caller(caller)
                && tables::is_kept(kept)
                && is_template(template)
                && tables::is_service(service, 7)
        }
        _ => false,
    }
}

// The other five.
fn are_first_late(tables: &[Table]) -> bool
    ensures { IsTrue result ↔ tables.now ≡ first_late_tables }
{
    match tables {
        [run, tally, measurement, sequence, history] => {
            tables::is_run(run, 9)
                && is_first_tally(tally)
                && tables::is_measurement(measurement, 13, false)
                && tables::is_sequence(sequence, 15)
                && tables::is_history(history, 16, false)
        }
        _ => false,
    }
}

// All tables.
fn are_first_tables(tables: &[Table]) -> bool
    ensures { IsTrue result ↔ tables.now ≡ first_early_tables ++ first_late_tables }
{
    if tables.len() != 10 {
        return false;
    }
    are_first_early(&tables[..5]) && are_first_late(&tables[5..])
}

// The indexes of the seven keys, in the order in which their tables were made.
fn are_first_keys(indexes: &[Index]) -> bool
    ensures { IsTrue result ↔ indexes.now ≡ first_key_indexes }
{
    are_indexes(
        indexes,
        &[
            IndexLayout::Key(b"sqlite_autoindex_caller_1", 1, &[1]),
            IndexLayout::Key(b"sqlite_autoindex_kept_1", 3, &[1, 2]),
            IndexLayout::Key(b"sqlite_autoindex_template_1", 5, &[1]),
            IndexLayout::Key(b"sqlite_autoindex_service_1", 7, &[1]),
            IndexLayout::Key(b"sqlite_autoindex_run_1", 9, &[1, 2]),
            IndexLayout::Key(b"sqlite_autoindex_tally_1", 11, &[1, 2, 3]),
            IndexLayout::Key(b"sqlite_autoindex_measurement_1", 13, &[2, 3, 4, 5]),
        ],
    )
}

// The three indexes that are the desk's own, in the order in which they were made.
fn are_first_added(indexes: &[Index]) -> bool
    ensures { IsTrue result ↔ indexes.now ≡ first_added_indexes }
{
    are_indexes(
        indexes,
        &[
            IndexLayout::Order(b"run_closed", 17, 9, &[1, 5]),
            IndexLayout::Order(b"measurement_service", 18, 13, &[2]),
            IndexLayout::Order(b"history_service", 19, 16, &[2]),
        ],
    )
}

// All of them.
fn are_first_indexes(indexes: &[Index]) -> bool
    ensures { IsTrue result ↔ indexes.now ≡ first_key_indexes ++ first_added_indexes }
{
    if indexes.len() != 10 {
        return false;
    }
    are_first_keys(&indexes[..7]) && are_first_added(&indexes[7..])
}

/// Whether the schema is the first one: the nine tables that a desk's file had before templates had
/// revisions, the table in which SQLite counts places, the three indexes and those of the keys, and
/// no more.
pub fn is_first(schema: &Schema) -> bool
    ensures { IsTrue result ↔ schema.now ≡ first_schema }
{
    are_first_tables(schema.tables.as_slice())
        && are_first_indexes(schema.indexes.as_slice())
        && schema.views.is_empty()
}
