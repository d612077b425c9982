//! Columns and indexes, as a table's layout gives them.
ghost use Rattle.std.specs.Prelude.{◌≡◌, ◌↔◌, IsTrue};
ghost use Rattle.canary_tables_schema.specs.Known.{column_at, column_of, columns_of};
ghost use Rattle.canary_tables_schema.specs.Schema.{index_at};
ghost use Rattle.canary_tables_schema.specs.Known.{index_of, indexes_of};

use sqlite_items::Items;
use sqlite_schema::schema::{Column, Index, Kind};
use sqlite_value::keys::Collation;
use sqlite_value::value::{Bytes, Value};

/// A column of a table of the desk, by what it holds, and its name.
#[derive(Clone, Copy)]
pub(crate) enum ColumnLayout<'a> {
    /// A text.
    Words(&'a [u8]),
    /// A whole number.
    Whole(&'a [u8]),
    /// A whole number or none.
    Maybe(&'a [u8]),
    /// The rowid as `place`, and whether it is declared NOT NULL.
    Place(bool),
    /// Anything, in the table in which places are counted.
    Any(&'a [u8]),
}

/// An index of the desk, by its name, the tree of its table, and its columns.
#[derive(Clone, Copy)]
pub(crate) enum IndexLayout<'a> {
    /// No two rows are alike in these columns. Its tree stands after that of the table.
    Key(&'a [u8], u32, &'a [usize]),
    /// Any rows may be. Its own tree comes first, then the table's.
    Order(&'a [u8], u64, u32, &'a [usize]),
}

// A text that is this one.
pub(crate) fn is_name(name: &Bytes, wanted: &[u8]) -> bool
    ensures { IsTrue result ↔ name.now ≡ wanted.now }
{
    name.as_slice() == wanted
}

// These places, and no others.
pub(crate) fn are_places(places: &Items<usize>, wanted: &[usize]) -> bool
    ensures { IsTrue result ↔ places.now ≡ wanted.now }
{
    places.as_slice() == wanted
}

// A column with this name, of this kind, strict or not, and no default of its own.
fn is_column_of(column: &Column, name: &[u8], kind: Kind, is_strict: bool, not_null: bool) -> bool
    ensures { IsTrue result ↔ column.now ≡ column_at name.now kind is_strict not_null }
{
    is_name(&column.name, name)
        && column.kind == kind
        && column.is_strict == is_strict
        && column.not_null == not_null
        && matches!(column.default, Value::Null)
        && column.collation == Collation::Binary
}

// Whether the column is laid out so.
fn is_column(column: &Column, layout: &ColumnLayout<'_>) -> bool
    ensures { IsTrue result ↔ column.now ≡ column_of layout.now }
{
    match layout {
        ColumnLayout::Words(name) => is_column_of(column, name, Kind::Text, true, true),
        ColumnLayout::Whole(name) => is_column_of(column, name, Kind::Integer, true, true),
        ColumnLayout::Maybe(name) => is_column_of(column, name, Kind::Integer, true, false),
        ColumnLayout::Place(is_placed) => {
            is_column_of(column, b"place", Kind::Integer, true, *is_placed)
        }
        ColumnLayout::Any(name) => is_column_of(column, name, Kind::Any, false, false),
    }
}

// Whether the columns are laid out so.
pub(crate) fn are_columns(columns: &[Column], layouts: &[ColumnLayout<'_>]) -> bool
    ensures { IsTrue result ↔ columns.now ≡ columns_of layouts.now }
{
    if columns.len() != layouts.len() {
        return false;
    }
    for i in 0..columns.len() {
        if !is_column(&columns[i], &layouts[i]) {
            return false;
        }
    }
    true
}

// An index of this name and tree, over these columns of the table with that tree.
fn is_index_of(index: &Index, name: &[u8], tree: u64, table: u32, columns: &[usize]) -> bool
    ensures { IsTrue result ↔ index.now
        ≡ index_at name.now tree table columns.now index.now.is_unique }
{
    is_name(&index.name, name)
        && index.tree as u64 == tree
        && index.table == table
        && are_places(&index.columns, columns)
        && index.order.digits == 0
}

// Whether the index is laid out so.
fn is_index(index: &Index, layout: &IndexLayout<'_>) -> bool
    ensures { IsTrue result ↔ index.now ≡ index_of layout.now }
{
    match layout {
        IndexLayout::Key(name, table, columns) => {
            is_index_of(index, name, *table as u64 + 1, *table, columns) && index.is_unique
        }
        IndexLayout::Order(name, tree, table, columns) => {
            is_index_of(index, name, *tree, *table, columns) && !index.is_unique
        }
    }
}

// Whether the indexes are laid out so.
pub(crate) fn are_indexes(indexes: &[Index], layouts: &[IndexLayout<'_>]) -> bool
    ensures { IsTrue result ↔ indexes.now ≡ indexes_of layouts.now }
{
    if indexes.len() != layouts.len() {
        return false;
    }
    for i in 0..indexes.len() {
        if !is_index(&indexes[i], &layouts[i]) {
            return false;
        }
    }
    true
}
