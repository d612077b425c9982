//! What a desk asks of a file that it adopts: all callers, the keys of all revisions, the names of
//! all services, and how many rows the other tables have.
ghost use Rattle.std.specs.Prelude.{ℕ, ◌≡◌, ◌≢◌, [], None, IfSome, Err, false, length, map};
ghost use Rattle.std.specs.Prelude.{slice_index_or};
ghost use Rattle.sqlite.specs.Order.{column};
ghost use Rattle.canary_tables_schema.specs.Cells.{integer};
ghost use Rattle.canary_tables_read.specs.Keys.{key_of};
ghost use Rattle.canary_tables_read.specs.Queries.{IsQuery};
ghost use Rattle.canary_tables_read.specs.Finds.{Gives, Counts};
ghost use Rattle.canary_tables_read.specs.Breaks.{BreaksUnless, CallersWithin, RevisionsWithin};
ghost use Rattle.canary_tables_read.specs.Breaks.{ServicesWithin};
ghost use Rattle.canary_tables_read.specs.Reader.{Reads};
ghost use Rattle.canary_tables_read.specs.Chosen.{all_names};
ghost use Rattle.canary_tables_read.specs.Rows.{ShowsCount};

use crate::fault::ReadFault;
use crate::held;
use crate::reader::Reader;
use canary_base::lists::Listed;
use canary_base::names::Name;
use canary_tables_rows::rows::CallerRow;
use sqlite::Row;
use sqlite::types::ValueRef;
use std::alloc::Global;

/// What a revision of a template is found by: the template's name, and the revision's number.
#[derive(Clone, Copy)]
pub struct RevisionKey {
    pub name: Name,
    pub revision: u32,
}

/// All callers, in the order in which they were added. `Memory` if there is not enough, `Storage`
/// if the database fails, `Broken` if a caller is not one that a program can hold.
pub fn callers<Q: Reader>(conn: &mut Q, alloc: Global) -> Result<Listed<CallerRow>, ReadFault>
    requires ready { Q.IsReady conn.old }
    ensures reads { Reads Q.IsReady Q.place Q.below Q.shows conn.old conn.new }
    ensures found { Gives (λ t. t.callers) Q.shows conn.old conn.new result }
    ensures broken { BreaksUnless CallersWithin Q.shows conn.old conn.new result }
{
    let rows = conn.ask("SELECT name, settled FROM caller ORDER BY rowid", &[])?;
    held::all(alloc, rows.as_slice())
}

/// The keys of all revisions, in the order in which they were added. `Memory` if there is not
/// enough, `Storage` if the database fails, `Broken` if a revision is not one that a program can
/// hold.
pub fn revision_keys<Q: Reader>(
    conn: &mut Q,
    alloc: Global,
) -> Result<Listed<RevisionKey>, ReadFault>
    requires ready { Q.IsReady conn.old }
    ensures reads { Reads Q.IsReady Q.place Q.below Q.shows conn.old conn.new }
    ensures found { Gives (λ t. map key_of t.revisions) Q.shows conn.old conn.new result }
    ensures broken { BreaksUnless RevisionsWithin Q.shows conn.old conn.new result }
{
    let rows = conn.ask("SELECT name, revision FROM revision ORDER BY rowid", &[])?;
    held::all(alloc, rows.as_slice())
}

/// The names of all services, in the order in which they were added. `Memory` if there is not
/// enough, `Storage` if the database fails, `Broken` if a service is not one that a program can
/// hold.
pub fn service_names<Q: Reader>(conn: &mut Q, alloc: Global) -> Result<Listed<Name>, ReadFault>
    requires ready { Q.IsReady conn.old }
    ensures reads { Reads Q.IsReady Q.place Q.below Q.shows conn.old conn.new }
    ensures found { Gives all_names Q.shows conn.old conn.new result }
    ensures broken { BreaksUnless ServicesWithin Q.shows conn.old conn.new result }
{
    let rows = conn.ask("SELECT name FROM service ORDER BY rowid", &[])?;
    held::all(alloc, rows.as_slice())
}

/// How many settled requests there are, of which SQLite counts 2^63 - 1 at most. `Memory` if there
/// is not enough, `Storage` if the database fails.
pub fn kept_count<Q: Reader>(conn: &mut Q) -> Result<u64, ReadFault>
    requires ready { Q.IsReady conn.old }
    ensures reads { Reads Q.IsReady Q.place Q.below Q.shows conn.old conn.new }
    ensures found { Counts (λ t. length t.kept) Q.shows conn.old conn.new result }
    ensures whole { result ≢ Err ReadFault.Broken }
{
    count_of(conn, "SELECT count(*) FROM kept")
}

/// How many runs there are, of which SQLite counts 2^63 - 1 at most. `Memory` if there is not
/// enough, `Storage` if the database fails.
pub fn run_count<Q: Reader>(conn: &mut Q) -> Result<u64, ReadFault>
    requires ready { Q.IsReady conn.old }
    ensures reads { Reads Q.IsReady Q.place Q.below Q.shows conn.old conn.new }
    ensures found { Counts (λ t. length t.runs) Q.shows conn.old conn.new result }
    ensures whole { result ≢ Err ReadFault.Broken }
{
    count_of(conn, "SELECT count(*) FROM run")
}

/// How many rows bind runs and attempts to revisions, of which SQLite counts 2^63 - 1 at most.
/// `Memory` if there is not enough, `Storage` if the database fails.
pub fn binding_count<Q: Reader>(conn: &mut Q) -> Result<u64, ReadFault>
    requires ready { Q.IsReady conn.old }
    ensures reads { Reads Q.IsReady Q.place Q.below Q.shows conn.old conn.new }
    ensures found { Counts (λ t. length t.bindings) Q.shows conn.old conn.new result }
    ensures whole { result ≢ Err ReadFault.Broken }
{
    count_of(conn, "SELECT count(*) FROM binding")
}

/// How many tallies there are, of which SQLite counts 2^63 - 1 at most. `Memory` if there is not
/// enough, `Storage` if the database fails.
pub fn tally_count<Q: Reader>(conn: &mut Q) -> Result<u64, ReadFault>
    requires ready { Q.IsReady conn.old }
    ensures reads { Reads Q.IsReady Q.place Q.below Q.shows conn.old conn.new }
    ensures found { Counts (λ t. length t.tallies) Q.shows conn.old conn.new result }
    ensures whole { result ≢ Err ReadFault.Broken }
{
    count_of(conn, "SELECT count(*) FROM tally")
}

/// How many measurements there are, of which SQLite counts 2^63 - 1 at most. `Memory` if there is
/// not enough, `Storage` if the database fails.
pub fn measurement_count<Q: Reader>(conn: &mut Q) -> Result<u64, ReadFault>
    requires ready { Q.IsReady conn.old }
    ensures reads { Reads Q.IsReady Q.place Q.below Q.shows conn.old conn.new }
    ensures found { Counts (λ t. length t.measurements) Q.shows conn.old conn.new result }
    ensures whole { result ≢ Err ReadFault.Broken }
{
    count_of(conn, "SELECT count(*) FROM measurement")
}

/// How many lines of histories there are, of which SQLite counts 2^63 - 1 at most. `Memory` if
/// there is not enough, `Storage` if the database fails.
pub fn history_count<Q: Reader>(conn: &mut Q) -> Result<u64, ReadFault>
    requires ready { Q.IsReady conn.old }
    ensures reads { Reads Q.IsReady Q.place Q.below Q.shows conn.old conn.new }
    ensures found { Counts (λ t. length t.history) Q.shows conn.old conn.new result }
    ensures whole { result ≢ Err ReadFault.Broken }
{
    count_of(conn, "SELECT count(*) FROM history")
}

// The whole number that stands first in what the query shows.
fn count_of<Q: Reader>(conn: &mut Q, text: &str) -> Result<u64, ReadFault>
    requires ready { Q.IsReady conn.old }
    requires query { IsQuery text.now }
    ensures reads { Reads Q.IsReady Q.place Q.below Q.shows conn.old conn.new }
    ensures shown { ShowsCount text.now Q.shows conn.old conn.new result }
    ensures whole { result ≢ Err ReadFault.Broken }
{
    let rows = conn.ask(text, &[])?;
    match first_number(rows.as_slice()) {
        Some(count) => Ok(count),
        None => Err(ReadFault::Storage),
    }
}

// The number in the first column of the first row; none if that is no integer from 0 on.
fn first_number(rows: &[Row]) -> Option<u64>
    ensures some { IfSome result (λ n. column (slice_index_or rows.now 0 []) 0 ≡ integer n) }
    ensures none { result ≡ None → (n : ℕ) → column (slice_index_or rows.now 0 []) 0 ≢ integer n }
{
    let row = rows.first()?;
    match row.get_ref(0) {
        Ok(ValueRef::Int(number)) => u64::try_from(number).ok(),
        _ => None,
    }
}
