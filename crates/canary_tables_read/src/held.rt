//! Rows that a query shows, with all that a program holds of them in their columns.
ghost use Rattle.std.specs.Prelude.{◌≡◌, ◌≢◌, ◌<◌, List, Option, Some, Err, IfOk, length, map};
ghost use Rattle.sqlite.specs.Order.{Row as Cells, column};
ghost use Rattle.canary_tables_read.specs.Readable.{name_in, number_in};

use crate::fault::ReadFault;
use crate::lists::RevisionKey;
use canary_base::lists::Listed;
use canary_base::names::Name;
use canary_tables_rows::rows::CallerRow;
use sqlite::Row;
use sqlite::types::ValueRef;
use std::alloc::Global;

/// What is held of a row, if a program can hold its values.
pub(crate) trait Held: Drop {
    /// It, by the columns.
    ghost held: { Cells → Option Self };

    /// What is held of the row; none if it has other columns, or a value that no program can hold.
    fn read(row: &Row) -> Option<Self>
        ensures { result ≡ held row.now };
}

impl Held for Name {
    ghost use Rattle.canary_tables_read.specs.Readable.{name_of};

    ghost held = { name_of };

    // The name, if it is the only column.
    fn read(row: &Row) -> Option<Name> {
        if row.column_count() == 1 {
            name_at(row, 0)
        } else {
            None
        }
    }
}

impl Held for CallerRow {
    ghost use Rattle.canary_tables_read.specs.Readable.{caller_of};

    ghost held = { caller_of };

    // The caller in two columns: its name, and how many of its requests are settled.
    fn read(row: &Row) -> Option<CallerRow> {
        if row.column_count() != 2 {
            return None;
        }
        let name = name_at(row, 0)?;
        let settled = number_at(row, 1)?;
        Some(CallerRow { name, settled })
    }
}

impl Held for RevisionKey {
    ghost use Rattle.canary_tables_read.specs.Readable.{revision_key_of};

    ghost held = { revision_key_of };

    // The key in two columns: the name of the template, and the number of the revision.
    fn read(row: &Row) -> Option<RevisionKey> {
        if row.column_count() != 2 {
            return None;
        }
        let name = name_at(row, 0)?;
        let revision = number_at(row, 1)?;
        Some(RevisionKey { name, revision })
    }
}

// The name in a column; none if that is no text, or not one of a name.
fn name_at(row: &Row, at: usize) -> Option<Name>
    requires { at < length row.now }
    ensures { result ≡ name_in (column row.now at) }
{
    match row.get_ref(at) {
        Ok(ValueRef::Text(bytes)) => Name::read(bytes),
        _ => None,
    }
}

// The number in a column; none if that is no integer from 0 to 2^32 - 1.
fn number_at(row: &Row, at: usize) -> Option<u32>
    requires { at < length row.now }
    ensures { result ≡ number_in (column row.now at) }
{
    match row.get_ref(at) {
        Ok(ValueRef::Int(number)) => u32::try_from(number).ok(),
        _ => None,
    }
}

/// What is held of all rows, in their order. `Memory` if there is not enough, `Broken` if a program
/// cannot hold one of them.
pub(crate) fn all<R: Held>(alloc: Global, rows: &[Row]) -> Result<Listed<R>, ReadFault>
    ensures found { IfOk result (λ all. map Some all ≡ map R.held rows.now) }
    ensures broken { result ≡ Err ReadFault.Broken
        → (all : List R) → map R.held rows.now ≢ map Some all }
    ensures unasked { result ≢ Err ReadFault.Storage }
{
    let mut all = Listed::of(Vec::new(alloc));
    for row in rows {
        let Some(read) = R::read(row) else {
            return Err(ReadFault::Broken);
        };
        all.push(read)?;
    }
    Ok(all)
}
