//! Callers, and what is kept of their requests.
ghost use Rattle.std.specs.Prelude.{◌∷◌, false};
ghost use Rattle.sqlite.specs.declared.types.Value.TheVariants.{Text as Words};
ghost use Rattle.canary_tables_schema.specs.Cells.{caller_cells, kept_cells};
ghost use Rattle.canary_tables_read.specs.Finds.{Gives, Finds, TellsCells, first};
ghost use Rattle.canary_tables_read.specs.Breaks.{BreaksUnless, CallersWithin, KeptWithin};
ghost use Rattle.canary_tables_read.specs.Reader.{Reads};
ghost use Rattle.canary_tables_read.specs.Chosen.{callers_of, kept_of, settled_of, first_kept};

use crate::fault::ReadFault;
use crate::from_row;
use crate::reader::Reader;
use canary_base::lists::Listed;
use canary_base::names::Name;
use canary_tables_rows::rows::{CallerRow, KeptRow};
use canary_tables_schema::fault::StoreFault;
use sqlite::{Row, params};
use std::alloc::Global;

/// How many requests of the caller are settled, if it is known. `Memory` if there is not enough,
/// `Storage` if the database fails, `Broken` if the caller's row is not one that a program can
/// hold.
pub fn settled<Q: Reader>(conn: &mut Q, caller: &Name) -> Result<Option<u32>, ReadFault>
    requires ready { Q.IsReady conn.old }
    ensures reads { Reads Q.IsReady Q.place Q.below Q.shows conn.old conn.new }
    ensures found { Gives (settled_of caller.now) Q.shows conn.old conn.new result }
    ensures broken { BreaksUnless CallersWithin Q.shows conn.old conn.new result }
{
    let rows = caller_shown(conn, caller)?;
    let found = from_row::first::<CallerRow>(caller, rows.as_slice())?;
    Ok(found.map(|row| row.settled))
}

/// The rows of the caller, of which a desk writes one at most. `Memory` if there is not enough,
/// `Storage` if the database fails, `Broken` if a program cannot hold one of them.
pub fn caller_rows<Q: Reader>(
    conn: &mut Q,
    alloc: Global,
    name: &Name,
) -> Result<Listed<CallerRow>, ReadFault>
    requires ready { Q.IsReady conn.old }
    ensures reads { Reads Q.IsReady Q.place Q.below Q.shows conn.old conn.new }
    ensures found { Gives (callers_of name.now) Q.shows conn.old conn.new result }
    ensures broken { BreaksUnless CallersWithin Q.shows conn.old conn.new result }
{
    let rows = caller_shown(conn, name)?;
    from_row::all(alloc, name, rows.as_slice())
}

// What is shown of the caller's rows, after its name.
fn caller_shown<Q: Reader>(conn: &mut Q, name: &Name) -> Result<Vec<Row>, StoreFault>
    requires ready { Q.IsReady conn.old }
    ensures reads { Reads Q.IsReady Q.place Q.below Q.shows conn.old conn.new }
    ensures found { Finds (λ t rows. TellsCells caller_cells (λ row. Words name.now ∷ row)
        (callers_of name.now t) rows.items) Q.shows conn.old conn.new result }
{
    conn.ask(
        "SELECT settled FROM caller WHERE name = ?1 ORDER BY rowid",
        params![name.as_str()],
    )
}

/// What is kept of the caller's request of that number, if it is settled. `Memory` if there is not
/// enough, `Storage` if the database fails, `Broken` if the row is not one that a program can hold.
pub fn kept<Q: Reader>(
    conn: &mut Q,
    caller: &Name,
    number: u32,
) -> Result<Option<KeptRow>, ReadFault>
    requires ready { Q.IsReady conn.old }
    ensures reads { Reads Q.IsReady Q.place Q.below Q.shows conn.old conn.new }
    ensures found { Gives (first_kept caller.now number) Q.shows conn.old conn.new result }
    ensures broken { BreaksUnless KeptWithin Q.shows conn.old conn.new result }
{
    let rows = kept_shown(conn, caller, number)?;
    from_row::first(caller, rows.as_slice())
}

// What is shown of the request's rows, after the caller.
fn kept_shown<Q: Reader>(conn: &mut Q, caller: &Name, number: u32) -> Result<Vec<Row>, StoreFault>
    requires ready { Q.IsReady conn.old }
    ensures reads { Reads Q.IsReady Q.place Q.below Q.shows conn.old conn.new }
    ensures found { Finds (λ t rows. TellsCells kept_cells (λ row. Words caller.now ∷ row)
        (kept_of caller.now number t) rows.items) Q.shows conn.old conn.new result }
{
    conn.ask(
        "SELECT number, command, status, body FROM kept \
         WHERE caller = ?1 AND number = ?2 ORDER BY rowid",
        params![caller.as_str(), number],
    )
}
