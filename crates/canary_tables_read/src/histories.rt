//! What happened to a service: its history.
ghost use Rattle.std.specs.Prelude.{◌≡◌, ◌≤◌, ◌^◌, pos, IfOk, IfErr, false};
ghost use Rattle.canary_tables_read.specs.Finds.{Gives};
ghost use Rattle.canary_tables_read.specs.Breaks.{BreaksUnless, LinesWithin};
ghost use Rattle.canary_tables_read.specs.Reader.{Reads};
ghost use Rattle.canary_tables_read.specs.Chosen.{lines_of, lines_from};

use crate::fault::ReadFault;
use crate::from_row;
use crate::reader::Reader;
use canary_base::lists::Listed;
use canary_base::names::Name;
use canary_tables_rows::rows::HistoryRow;
use sqlite::params;
use std::alloc::Global;

/// The lines of the service's history, in their order. `Memory` if there is not enough, `Storage`
/// if the database fails, `Broken` if a line is not one that a program can hold.
pub fn history<Q: Reader>(
    conn: &mut Q,
    alloc: Global,
    service: &Name,
) -> Result<Listed<HistoryRow>, ReadFault>
    requires ready { Q.IsReady conn.old }
    ensures reads { Reads Q.IsReady Q.place Q.below Q.shows conn.old conn.new }
    ensures found { Gives (lines_of service.now) Q.shows conn.old conn.new result }
    ensures broken { BreaksUnless LinesWithin Q.shows conn.old conn.new result }
{
    let rows = conn.ask(
        "SELECT moment, line FROM history WHERE service = ?1 ORDER BY place",
        params![service.as_str()],
    )?;
    from_row::all(alloc, service, rows.as_slice())
}

// The number of rows to pass over, as SQLite takes it.
pub(crate) fn offset_of(from: u64) -> Result<i64, ReadFault>
    ensures offset { IfOk result (λ offset. offset ≡ pos from) }
    ensures beyond { IfErr result (λ fault. (fault ≡ ReadFault.Storage) × (2 ^ 63 ≤ from)) }
{
    match i64::try_from(from) {
        Ok(offset) => Ok(offset),
        Err(_) => Err(ReadFault::Storage),
    }
}

/// The lines of the service's history, in their order: from that one on, counted from 0, at most so
/// many. `Memory` if there is not enough, `Storage` if the database fails, and if `from` is 2^63 or
/// more, `Broken` if a line of these is not one that a program can hold.
pub fn lines<Q: Reader>(
    conn: &mut Q,
    alloc: Global,
    service: &Name,
    from: u64,
    most: u32,
) -> Result<Listed<HistoryRow>, ReadFault>
    requires ready { Q.IsReady conn.old }
    ensures reads { Reads Q.IsReady Q.place Q.below Q.shows conn.old conn.new }
    ensures found { Gives (lines_from service.now from most) Q.shows conn.old conn.new result }
    ensures broken { BreaksUnless LinesWithin Q.shows conn.old conn.new result }
{
    let offset = offset_of(from)?;
    let rows = conn.ask(
        "SELECT moment, line FROM history WHERE service = ?1 ORDER BY place LIMIT ?3 OFFSET ?2",
        params![service.as_str(), offset, most],
    )?;
    from_row::all(alloc, service, rows.as_slice())
}
