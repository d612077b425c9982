//! Each table of the desk, with its tree.
ghost use Rattle.std.specs.Prelude.{◌≡◌, ◌↔◌, IsTrue, ◌++◌};
ghost use Rattle.canary_tables_schema.specs.Schema.{meta, caller, kept, service, run, measurement};
ghost use Rattle.canary_tables_schema.specs.Schema.{sequence, history, revision, binding, tally};
ghost use Rattle.canary_tables_schema.specs.Schema.{early_tables, late_tables};

use crate::columns::{ColumnLayout, are_columns};
use crate::numbers::Numbers;
use crate::parts::{is_formed, is_keyed, is_one_key, is_one_order, is_one_reference, is_unkeyed};
use sqlite_schema::schema::Table;

/// Whether it is the table with the number of the schema, in tree 0.
pub(crate) fn is_meta(table: &Table) -> bool
    ensures { IsTrue result ↔ table.now ≡ meta }
{
    is_formed(table, b"meta", 0, Some(0), &[0], false)
        && are_columns(
            table.columns.as_slice(),
            &[ColumnLayout::Whole(b"id"), ColumnLayout::Whole(b"schema")],
        )
        && is_unkeyed(table)
}

/// Whether it is the table of callers, in tree 1.
pub(crate) fn is_caller(table: &Table) -> bool
    ensures { IsTrue result ↔ table.now ≡ record caller { tree = 1 } }
{
    is_keyed(table, b"caller", 1, &[1])
        && are_columns(
            table.columns.as_slice(),
            &[
                ColumnLayout::Words(b"name"),
                ColumnLayout::Whole(b"settled"),
            ],
        )
        && table.references.is_empty()
}

/// Whether it is the table of settled requests, in tree 3, with its reference to callers.
pub(crate) fn is_kept(table: &Table) -> bool
    ensures { IsTrue result ↔ table.now ≡ record kept { tree = 3 } }
{
    is_keyed(table, b"kept", 3, &[1, 2])
        && are_columns(
            table.columns.as_slice(),
            &[
                ColumnLayout::Words(b"caller"),
                ColumnLayout::Whole(b"number"),
                ColumnLayout::Words(b"command"),
                ColumnLayout::Whole(b"status"),
                ColumnLayout::Words(b"body"),
            ],
        )
        && is_one_reference(&table.references, b"caller")
}

/// Whether it is the table of services, in that tree.
pub(crate) fn is_service(table: &Table, tree: u32) -> bool
    ensures { IsTrue result ↔ table.now ≡ record service { tree = tree } }
{
    is_keyed(table, b"service", tree, &[1])
        && are_columns(
            table.columns.as_slice(),
            &[
                ColumnLayout::Words(b"name"),
                ColumnLayout::Words(b"spec"),
                ColumnLayout::Words(b"stable"),
                ColumnLayout::Words(b"version"),
                ColumnLayout::Whole(b"state"),
                ColumnLayout::Whole(b"step"),
                ColumnLayout::Whole(b"entered"),
                ColumnLayout::Whole(b"hold"),
                ColumnLayout::Whole(b"background"),
                ColumnLayout::Whole(b"runs"),
                ColumnLayout::Whole(b"last"),
            ],
        )
        && table.references.is_empty()
}

/// Whether it is the table of runs, in that tree, with its reference to services.
pub(crate) fn is_run(table: &Table, tree: u32) -> bool
    ensures { IsTrue result ↔ table.now ≡ record run { tree = tree } }
{
    is_keyed(table, b"run", tree, &[1, 2])
        && are_columns(
            table.columns.as_slice(),
            &[
                ColumnLayout::Words(b"service"),
                ColumnLayout::Whole(b"number"),
                ColumnLayout::Maybe(b"step"),
                ColumnLayout::Whole(b"started"),
                ColumnLayout::Maybe(b"closed"),
                ColumnLayout::Whole(b"outside"),
                ColumnLayout::Whole(b"verdict"),
            ],
        )
        && is_one_reference(&table.references, b"service")
}

/// Whether it is the table of measurements, in that tree; `is_placed` if places are NOT NULL.
pub(crate) fn is_measurement(table: &Table, tree: u32, is_placed: bool) -> bool
    ensures { IsTrue result ↔ table.now ≡ record (measurement is_placed) { tree = tree } }
{
    is_formed(table, b"measurement", tree, Some(0), &[0], true)
        && are_columns(
            table.columns.as_slice(),
            &[
                ColumnLayout::Place(is_placed),
                ColumnLayout::Words(b"service"),
                ColumnLayout::Whole(b"run"),
                ColumnLayout::Whole(b"metric"),
                ColumnLayout::Whole(b"ordinal"),
                ColumnLayout::Whole(b"taken"),
                ColumnLayout::Whole(b"phase"),
                ColumnLayout::Words(b"outcome"),
            ],
        )
        && is_one_key(&table.uniques, &[2, 3, 4, 5])
        && is_one_order(&table.orders)
        && table.references.is_empty()
}

/// Whether it is the table in which SQLite counts places, in that tree.
pub(crate) fn is_sequence(table: &Table, tree: u32) -> bool
    ensures { IsTrue result ↔ table.now ≡ record sequence { tree = tree } }
{
    is_formed(table, b"sqlite_sequence", tree, None, &[], false)
        && are_columns(
            table.columns.as_slice(),
            &[ColumnLayout::Any(b"name"), ColumnLayout::Any(b"seq")],
        )
        && is_unkeyed(table)
}

/// Whether it is the table of histories, in that tree; `is_placed` if places are NOT NULL.
pub(crate) fn is_history(table: &Table, tree: u32, is_placed: bool) -> bool
    ensures { IsTrue result ↔ table.now ≡ record (history is_placed) { tree = tree } }
{
    is_formed(table, b"history", tree, Some(0), &[0], true)
        && are_columns(
            table.columns.as_slice(),
            &[
                ColumnLayout::Place(is_placed),
                ColumnLayout::Words(b"service"),
                ColumnLayout::Whole(b"moment"),
                ColumnLayout::Words(b"line"),
            ],
        )
        && is_unkeyed(table)
}

// Whether it is the table of revisions of templates, in that tree.
fn is_revision(table: &Table, tree: u32) -> bool
    ensures { IsTrue result ↔ table.now ≡ record revision { tree = tree } }
{
    is_keyed(table, b"revision", tree, &[1, 2])
        && are_columns(
            table.columns.as_slice(),
            &[
                ColumnLayout::Words(b"name"),
                ColumnLayout::Whole(b"revision"),
                ColumnLayout::Words(b"spec"),
            ],
        )
        && table.references.is_empty()
}

// Whether it is the table of bindings, in that tree, with its reference to services.
fn is_binding(table: &Table, tree: u32) -> bool
    ensures { IsTrue result ↔ table.now ≡ record binding { tree = tree } }
{
    is_keyed(table, b"binding", tree, &[1, 2, 3])
        && are_columns(
            table.columns.as_slice(),
            &[
                ColumnLayout::Words(b"service"),
                ColumnLayout::Whole(b"run"),
                ColumnLayout::Words(b"template"),
                ColumnLayout::Whole(b"revision"),
            ],
        )
        && is_one_reference(&table.references, b"service")
}

// Whether it is the table of tallies, with passes, in that tree.
fn is_tally(table: &Table, tree: u32) -> bool
    ensures { IsTrue result ↔ table.now ≡ record tally { tree = tree } }
{
    is_keyed(table, b"tally", tree, &[1, 2, 3])
        && are_columns(
            table.columns.as_slice(),
            &[
                ColumnLayout::Words(b"service"),
                ColumnLayout::Whole(b"run"),
                ColumnLayout::Whole(b"metric"),
                ColumnLayout::Whole(b"counted"),
                ColumnLayout::Whole(b"failed"),
                ColumnLayout::Whole(b"inconclusive"),
                ColumnLayout::Whole(b"errors"),
                ColumnLayout::Whole(b"consecutive"),
                ColumnLayout::Whole(b"passes"),
                ColumnLayout::Maybe(b"last"),
            ],
        )
        && table.references.is_empty()
}

// The first five tables, in the order in which they are made.
fn are_early_tables(tables: &[Table], numbers: &Numbers) -> bool
    ensures { IsTrue result ↔ tables.now ≡ early_tables numbers.now }
{
    match tables {
        [meta, caller, kept, service, run] => {
            is_meta(meta)
                && is_caller(caller)
                && is_kept(kept)
                && is_service(service, numbers.service)
                && is_run(run, numbers.run)
        }
        _ => false,
    }
}

// The other six.
fn are_late_tables(tables: &[Table], numbers: &Numbers) -> bool
    ensures { IsTrue result ↔ tables.now ≡ late_tables numbers.now }
{
    match tables {
        [measurement, sequence, history, revision, binding, tally] => {
            is_measurement(measurement, numbers.measurement, numbers.is_placed)
                && is_sequence(sequence, numbers.sequence)
                && is_history(history, numbers.history, numbers.is_placed)
                && is_revision(revision, numbers.revision)
                && is_binding(binding, numbers.binding)
                && is_tally(tally, numbers.tally)
        }
        _ => false,
    }
}

// All tables.
pub(crate) fn are_tables(tables: &[Table], numbers: &Numbers) -> bool
    ensures { IsTrue result ↔ tables.now ≡ early_tables numbers.now ++ late_tables numbers.now }
{
    if tables.len() != 11 {
        return false;
    }
    are_early_tables(&tables[..5], numbers) && are_late_tables(&tables[5..], numbers)
}
