//! The lines of a service's history, read in pages.
ghost use Rattle.std.specs.Prelude.{◌≡◌, ◌↔◌, ◌≤◌, false, Err, IsTrue, IfOk, IfErr, OnOk, length};
ghost use Rattle.std.specs.List.{AllByRecursion};
ghost use Rattle.canary_tables_read.specs.declared.fault.ReadFault.TheVariants.{Broken};
ghost use Rattle.canary_tables_read.specs.Finds.{Finds};
ghost use Rattle.canary_tables_adopt.specs.Judges.{RefusesUnless};
ghost use Rattle.canary_tables_adopt.specs.HistoryLines.{IsLineRow, AreLines, IsPageOfLines};
ghost use Rattle.canary_tables_read.specs.Chosen.{lines_of};
ghost use Rattle.canary_tables_adopt.specs.HistoryLines.{lines_after};
ghost use Rattle.canary_tables_read.specs.Reader.{Reads};

use crate::totals::sum;
use canary_base::names::Name;
use canary_plan::line::Line;
use canary_tables_read::fault::ReadFault;
use canary_tables_read::histories;
use canary_tables_read::reader::Reader;
use canary_tables_rows::rows::HistoryRow;
use std::alloc::Global;

// The most lines that are read at once.
const PAGE: u32 = 32_768;

/// How many lines the history of the service has, if each row of it is read as a line.
///
/// # Errors
/// `Broken` if a row's words are of no event, or the tables hold what no program can; `Memory` if
/// there is not enough, `Storage` if the database fails, or has more rows than are counted.
pub(crate) fn lines<Q: Reader>(conn: &mut Q, alloc: Global, name: &Name) -> Result<u64, ReadFault>
    requires ready { Q.IsReady conn.old }
    ensures reads { Reads Q.IsReady Q.place Q.below Q.shows conn.old conn.new }
    ensures found { Finds (λ t count. AreLines name.now t
        × (count ≡ length (lines_of name.now t))) Q.shows conn.old conn.new result }
    ensures broken { RefusesUnless (AreLines name.now) Q.shows conn.old conn.new result }
{
    let mut count = 0_u64;
    'pages: for _ in 0..u64::MAX {
        let more = page_of_lines(conn, alloc, name, count)?;
        count = sum(count, more)?;
        if more < u64::from(PAGE) {
            return Ok(count);
        }
    }
    Err(ReadFault::Storage)
}

// How many rows come after so many, one page at most, if each of these is read as a line.
fn page_of_lines<Q: Reader>(
    conn: &mut Q,
    alloc: Global,
    name: &Name,
    from: u64,
) -> Result<u64, ReadFault>
    requires ready { Q.IsReady conn.old }
    ensures reads { Reads Q.IsReady Q.place Q.below Q.shows conn.old conn.new }
    ensures found { Finds (IsPageOfLines name.now 32768 from) Q.shows conn.old conn.new result }
    ensures broken { RefusesUnless
        (λ t. AllByRecursion IsLineRow (lines_after name.now 32768 from t))
        Q.shows conn.old conn.new result }
{
    let rows = histories::lines(conn, alloc, name, from, PAGE)?;
    are_lines(rows.as_slice())?;
    Ok(rows.as_slice().len() as u64)
}

// That each of the rows is read as a line.
fn are_lines(rows: &[HistoryRow]) -> Result<(), ReadFault>
    ensures lines { OnOk result (AllByRecursion IsLineRow rows.now) }
    ensures broken { result ≡ Err Broken → ¬ AllByRecursion IsLineRow rows.now }
    ensures compared { IfErr result (λ fault. fault ≡ Broken) }
{
    for row in rows {
        if !is_line(row) {
            return Err(ReadFault::Broken);
        }
    }
    Ok(())
}

// Whether the words of the row are those of an event.
fn is_line(row: &HistoryRow) -> bool
    ensures { IsTrue result ↔ IsLineRow row.now }
{
    Line::read(row.moment, row.line.as_str()).is_some()
}
