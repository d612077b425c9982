//! The schema that files list, if it has tables and indexes alone.
ghost use Rattle.std.specs.Prelude.{◌≡◌, length, IsTrue, IfOk, OnOk};
ghost use Rattle.sqlite_store.specs.Unopened.{state_of, AreUsable, HasSameFiles};
ghost use Rattle.canary_tables_file.specs.Found.{StandsAsBefore};

use sqlite_disk::Disk;
use sqlite_store::{OpenError, Unopened};
use sqlite_trees::store::Shape;
use sqlite_value::keys::Order;
use sqlite_value::order::is_same;
use sqlite_value::row::Row;
use sqlite_value::value::ValueRef;
use std::alloc::{AllocError, Global};

// The places of a row of sqlite_schema but that of its root page: its rowid, type, name, table and
// text.
const DESCRIBED: [usize; 5] = [0, 1, 2, 3, 5];

// Gives the files the schema that they list. `Refused` if it has more than tables and indexes.
pub(crate) fn list<D: Disk>(alloc: Global, files: &mut Unopened<D>) -> Result<(), OpenError>
    requires { AreUsable files.old }
    ensures usable { OnOk result (AreUsable files.new) }
    ensures stands { IsTrue (state_of files.new).is_clean
        → OnOk result (StandsAsBefore files.old files.new) }
{
    let rows = files.read_catalog()?;
    let described = without_roots(alloc, rows.as_slice()).map_err(no_memory)?;
    list_rows(alloc, files, described.as_slice())
}

// The same of the rows of sqlite_schema, without their root pages.
fn list_rows<D: Disk>(alloc: Global, files: &mut Unopened<D>, rows: &[Row]) -> Result<(), OpenError>
    requires { AreUsable files.old }
    ensures usable { OnOk result (AreUsable files.new) }
    ensures same { HasSameFiles files.old files.new }
{
    let layouts = layouts(alloc, rows).map_err(no_memory)?;
    match files.list_schema(rows, layouts.as_slice()) {
        Ok(true) => Ok(()),
        Ok(false) => Err(OpenError::Refused),
        Err(refused) => Err(no_memory(refused)),
    }
}

// An allocation was refused.
fn no_memory(_: AllocError) -> OpenError {
    OpenError::OutOfMemory
}

// Each row without its root page.
fn without_roots(alloc: Global, rows: &[Row]) -> Result<Vec<Row>, AllocError> {
    let mut all = Vec::new(alloc);
    for row in rows {
        all.push(without_root(alloc, row)?)?;
    }
    Ok(all)
}

// A row without its root page.
fn without_root(alloc: Global, row: &Row) -> Result<Row, AllocError> {
    let mut described = Row::new(alloc);
    for place in DESCRIBED.iter() {
        described.push(row.get(*place))?;
    }
    Ok(described)
}

// The shape of each row's tree, in which no column is REAL.
fn layouts(alloc: Global, rows: &[Row]) -> Result<Vec<(Shape, u64)>, AllocError>
    ensures { IfOk result (λ all. length all.items ≡ length rows.now) }
{
    let mut all = Vec::new(alloc);
    for row in rows {
        all.push((shape_of(row), 0))?;
    }
    Ok(all)
}

// The shape that goes with a row's type: that of a table, or of an index that ascends, and `Absent`
// for any other, which is not listed.
fn shape_of(row: &Row) -> Shape {
    if is_same(row.get(1), ValueRef::Text(b"table")) {
        return Shape::Table;
    }
    if is_same(row.get(1), ValueRef::Text(b"index")) {
        return Shape::Index(Order::PLAIN);
    }
    Shape::Absent
}
