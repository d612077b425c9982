//! Callers, and what is kept of their requests.
ghost use Rattle.std.specs.Prelude.{◌≡◌, ◌≢◌, ◌+◌, ◌<◌, ◌≤◌, ◌↔◌, suc, Some, IsTrue, IfOk, OnOk};
ghost use Rattle.std.specs.Prelude.{Err};
ghost use Rattle.std.specs.List.{AllByRecursion, sum_by};
ghost use Rattle.canary_tables_contents.specs.Values.{receipt_of_row};
ghost use Rattle.canary_tables_contents.specs.Judged.{AreCallersJudged, IsCallerJudged};
ghost use Rattle.canary_tables_read.specs.declared.fault.ReadFault.TheVariants.{Broken, Storage};
ghost use Rattle.canary_tables_read.specs.Finds.{Finds};
ghost use Rattle.canary_tables_adopt.specs.Alone.{HasValue, only};
ghost use Rattle.canary_tables_adopt.specs.Judges.{FindsThat, RefusesUnless};
ghost use Rattle.canary_tables_adopt.specs.Receipts.{AreReceipts, AreReceived};
ghost use Rattle.canary_tables_read.specs.Reader.{Reads};

use crate::fault::read_fault;
use crate::progress::JudgingProgress;
use crate::{alone, totals};
use canary_base::error::Memory;
use canary_base::lists::Listed;
use canary_base::names::Name;
use canary_base::numbers::MAX_NUMBER;
use canary_tables_contents::reading;
use canary_tables_read::fault::ReadFault;
use canary_tables_read::reader::Reader;
use canary_tables_read::{callers, lists, pages};
use canary_tables_rows::rows::{CallerRow, KeptRow};
use std::alloc::Global;

// The most numbers of a caller whose rows are read at once.
const PAGE: u32 = 256;

/// That each caller stands once, that each of its numbers has one row, which is read, and that
/// there are no more kept rows than these.
///
/// # Errors
/// `Broken` if that is not so, `Memory` if there is not enough, `Storage` if the database fails or
/// has more rows than are counted.
pub(crate) fn validate<Q: Reader, G: JudgingProgress>(
    conn: &mut Q,
    alloc: Global,
    progress: &mut G,
) -> Result<(), ReadFault>
    requires ready { Q.IsReady conn.old }
    ensures reads { Reads Q.IsReady Q.place Q.below Q.shows conn.old conn.new }
    ensures judged { FindsThat AreCallersJudged Q.shows conn.old conn.new result }
    ensures refused { RefusesUnless AreCallersJudged Q.shows conn.old conn.new result }
{
    let callers = lists::callers(conn, alloc)?;
    let settled = judge_each(conn, alloc, callers.as_slice(), progress)?;
    let kept = lists::kept_count(conn)?;
    totals::are_all(settled, kept)
}

// How many requests of these callers are settled, if each is as it is to be.
fn judge_each<Q: Reader, G: JudgingProgress>(
    conn: &mut Q,
    alloc: Global,
    callers: &[CallerRow],
    progress: &mut G,
) -> Result<u64, ReadFault>
    requires ready { Q.IsReady conn.old }
    ensures reads { Reads Q.IsReady Q.place Q.below Q.shows conn.old conn.new }
    ensures judged { Finds (λ t settled. AllByRecursion (IsCallerJudged t) callers.now
        × (settled ≡ sum_by (λ (row : _). row.settled) callers.now))
        Q.shows conn.old conn.new result }
    ensures refused { RefusesUnless (λ t. AllByRecursion (IsCallerJudged t) callers.now)
        Q.shows conn.old conn.new result }
{
    let mut settled = 0;
    for caller in callers {
        judge_one(conn, alloc, caller, progress)?;
        settled = totals::sum(settled, u64::from(caller.settled))?;
    }
    Ok(settled)
}

// That the caller has one row, with a valid count, and one receipt for each number up to it.
fn judge_one<Q: Reader, G: JudgingProgress>(
    conn: &mut Q,
    alloc: Global,
    caller: &CallerRow,
    progress: &mut G,
) -> Result<(), ReadFault>
    requires ready { Q.IsReady conn.old }
    ensures reads { Reads Q.IsReady Q.place Q.below Q.shows conn.old conn.new }
    ensures judged { FindsThat (λ t. IsCallerJudged t caller.now) Q.shows conn.old conn.new result }
    ensures refused { RefusesUnless (λ t. IsCallerJudged t caller.now)
        Q.shows conn.old conn.new result }
{
    let rows = callers::caller_rows(conn, alloc, &caller.name)?;
    if !is_alone(rows, caller) || !is_number(caller.settled) {
        return Err(ReadFault::Broken);
    }
    judge_receipts(conn, alloc, &caller.name, caller.settled, progress)
}

// Whether there is exactly one row, which is equal to that of the caller.
fn is_alone(rows: Listed<CallerRow>, caller: &CallerRow) -> bool
    ensures { IsTrue result ↔ (only rows ≡ Some caller.now) }
{
    match alone::only(rows) {
        Some(row) => is_same(&row, caller),
        None => false,
    }
}

// Whether both the names and the counts of settled requests are equal.
#[tactic(auto, using(crate::proofs::JudgedCallers::same_row))]
fn is_same(one: &CallerRow, other: &CallerRow) -> bool
    ensures { IsTrue result ↔ (one.now ≡ other.now) }
{
    one.name == other.name && one.settled == other.settled
}

// Whether a request can have this number: from 1 to `MAX_NUMBER`.
fn is_number(number: u32) -> bool
    ensures { IsTrue result ↔ ((1 ≤ number) × (number ≤ 1000000000)) }
{
    number >= 1 && number <= MAX_NUMBER
}

// That each of the caller's numbers from 1 to that one has one receipt.
fn judge_receipts<Q: Reader, G: JudgingProgress>(
    conn: &mut Q,
    alloc: Global,
    caller: &Name,
    settled: u32,
    progress: &mut G,
) -> Result<(), ReadFault>
    requires ready { Q.IsReady conn.old }
    ensures reads { Reads Q.IsReady Q.place Q.below Q.shows conn.old conn.new }
    ensures judged { FindsThat (AreReceived caller.now 0 settled) Q.shows conn.old conn.new result }
    ensures refused { RefusesUnless (AreReceived caller.now 0 settled)
        Q.shows conn.old conn.new result }
{
    let mut before = 0;
    while before < settled {
        let last = page_end(before, settled);
        judge_page(conn, alloc, caller, before, last)?;
        progress.judged(u64::from(last - before));
        before = last;
    }
    Ok(())
}

// The last number of the page that begins after that one.
fn page_end(before: u32, settled: u32) -> u32
    requires { before < settled }
    ensures more { before < result }
    ensures within { result ≤ settled }
    ensures page { result ≤ before + PAGE }
{
    before + PAGE.min(settled - before)
}

// That each of the caller's numbers after that one, up to the last, has one receipt.
fn judge_page<Q: Reader>(
    conn: &mut Q,
    alloc: Global,
    caller: &Name,
    before: u32,
    last: u32,
) -> Result<(), ReadFault>
    requires ready { Q.IsReady conn.old }
    requires some { before < last }
    ensures reads { Reads Q.IsReady Q.place Q.below Q.shows conn.old conn.new }
    ensures judged { FindsThat (AreReceived caller.now before last)
        Q.shows conn.old conn.new result }
    ensures refused { RefusesUnless (AreReceived caller.now before last)
        Q.shows conn.old conn.new result }
{
    let rows = pages::kept(conn, alloc, caller, before, last)?;
    are_receipts(alloc, rows.as_slice(), before, last)
}

// That the rows are of receipts whose numbers follow one another, from the one after `before` to
// `last`.
fn are_receipts(alloc: Global, rows: &[KeptRow], before: u32, last: u32) -> Result<(), ReadFault>
    ensures judged { OnOk result (AreReceipts before last rows.now) }
    ensures refused { result ≡ Err Broken → ¬ AreReceipts before last rows.now }
    ensures unasked { result ≢ Err Storage }
{
    let mut number = before;
    for row in rows {
        if !follows(number, row) {
            return Err(ReadFault::Broken);
        }
        read_receipt(alloc, row)?;
        number = row.number;
    }
    if number == last {
        Ok(())
    } else {
        Err(ReadFault::Broken)
    }
}

// Whether the row has the number after that one. Nothing overflows.
fn follows(number: u32, row: &KeptRow) -> bool
    ensures { IsTrue result ↔ (row.now.number ≡ suc number) }
{
    row.number > number && row.number - 1 == number
}

// That the row is read as a receipt.
fn read_receipt(alloc: Global, row: &KeptRow) -> Result<(), ReadFault>
    ensures judged { OnOk result (HasValue receipt_of_row row.now) }
    ensures refused { result ≡ Err Broken → ¬ HasValue receipt_of_row row.now }
    ensures unasked { result ≢ Err Storage }
{
    let row = copy(alloc, row)?;
    match reading::receipt(alloc, row) {
        Ok(_) => Ok(()),
        Err(fault) => Err(read_fault(fault)),
    }
}

// A copy of a row, since `reading::receipt` consumes the one that it reads; or `Memory`.
fn copy(alloc: Global, row: &KeptRow) -> Result<KeptRow, Memory>
    ensures { IfOk result (λ copy. copy ≡ row.now) }
{
    Ok(KeptRow {
        caller: row.caller,
        number: row.number,
        command: row.command.copy(alloc)?,
        status: row.status,
        body: row.body.copy(alloc)?,
    })
}
