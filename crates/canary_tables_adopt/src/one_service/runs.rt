//! The runs of a service, judged with what they are bound to and their tallies. Their rows are read
//! in pages.
ghost use Rattle.std.specs.Prelude.{◌≡◌, ◌≢◌, ◌∷◌, ◌+◌, ◌<◌, ◌≤◌, ◌↔◌, [], false, ℕ, List, IsTrue};
ghost use Rattle.std.specs.Prelude.{IfOk, IfSome, None, Err, length, map, filter};
ghost use Rattle.std.specs.FinMap.{empty};
ghost use Rattle.canary_tables_rows.specs.declared.rows.TallyRow.{TallyRow};
ghost use Rattle.canary_tables_rows.specs.Tables.{Tables, is_tally_of};
ghost use Rattle.canary_tables_contents.specs.Finding.{record_of_row};
ghost use Rattle.canary_tables_read.specs.declared.fault.ReadFault.TheVariants.{Broken, Storage};
ghost use Rattle.canary_tables_read.specs.Finds.{Finds};
ghost use Rattle.canary_tables_read.specs.Sorts.{Sorts, metric_of};
ghost use Rattle.canary_tables_adopt.specs.OneService.{RefusesJudged};
ghost use Rattle.canary_tables_adopt.specs.OfService.{HasSuch, IsTold, ArePlaced, AreTalliesOf};
ghost use Rattle.canary_tables_adopt.specs.OfService.{IsRunOf, AreRunsOf, IsRunBy};
ghost use Rattle.canary_tables_adopt.specs.Pages.{IsPageOf, AreGiven, AreThere, AreSoFar, AreBegun};
ghost use Rattle.canary_tables_adopt.specs.Remembered.{FindsWhere, RefusesWhere, AreRevisions};
ghost use Rattle.canary_tables_read.specs.Reader.{Reads};

use crate::fault::read_fault;
use crate::one_service::pages::{self, RunPage};
use crate::one_service::remembered;
use canary_base::error::Memory;
use canary_base::lists::Listed;
use canary_base::names::Name;
use canary_metric::tally::Tally;
use canary_once::record::RunRecord;
use canary_plan::bound_analysis::BoundAnalysis;
use canary_plan::strategy::Strategy;
use canary_plan::templates::Templates;
use canary_tables_contents::reading;
use canary_tables_contents::verdicts::has_own_verdict;
use canary_tables_read::fault::ReadFault;
use canary_tables_read::reader::Reader;
use canary_tables_rows::rows::{RunRow, TallyRow};
use std::alloc::Global;

// The most runs whose rows are read at once.
const PAGE: u32 = 64;

/// The first runs of a service, how many they are, and the templates that were asked for last.
#[derive(Drop)]
pub(crate) struct SoFar {
    pub count: u32,
    pub runs: Listed<RunRecord>,
    pub memo: Templates,
}

impl SoFar {
    // How many runs are judged so far, which is also the number of the last one.
    fn count(&self) -> u32
        ensures { result ≡ self.now.count }
    {
        self.count
    }
}

/// The runs 1 to `count` of the service of that strategy, each judged as by `run`, if templates are
/// judged.
///
/// # Errors
/// `Broken` if there are no such runs, or the tables hold what no program can; `Memory` if there is
/// not enough, `Storage` if the database fails.
pub(crate) fn runs<Q: Reader>(
    conn: &mut Q,
    alloc: Global,
    name: &Name,
    strategy: &Strategy,
    count: u32,
) -> Result<Listed<RunRecord>, ReadFault>
    requires ready { Q.IsReady conn.old }
    ensures reads { Reads Q.IsReady Q.place Q.below Q.shows conn.old conn.new }
    ensures found { Finds (AreRunsOf strategy.now name.now count)
        Q.shows conn.old conn.new result }
    ensures broken { RefusesJudged (HasSuch (AreRunsOf strategy.now name.now count))
        (Q.shows conn.old) (Q.shows conn.new) result }
{
    let mut so_far = none_yet(alloc);
    while so_far.count() < count {
        let last = page_end(so_far.count(), count);
        so_far = judge_page(conn, alloc, name, strategy, so_far, last)?;
    }
    Ok(so_far.runs)
}

// What there is before the first page: no runs, and no templates in the memo.
fn none_yet(alloc: Global) -> SoFar
    ensures count { result.count ≡ 0 }
    ensures runs { result.runs ≡ [] }
    ensures memo { result.memo ≡ empty }
{
    SoFar {
        count: 0,
        runs: Listed::of(Vec::new(alloc)),
        memo: Templates::new(alloc),
    }
}

// The number of the last run in the page that begins after that one.
fn page_end(before: u32, count: u32) -> u32
    requires { before < count }
    ensures more { before < result }
    ensures within { result ≤ count }
    ensures page { result ≤ before + PAGE }
{
    before + PAGE.min(count - before)
}

// The next runs, up to that number, judged too.
fn judge_page<Q: Reader>(
    conn: &mut Q,
    alloc: Global,
    name: &Name,
    strategy: &Strategy,
    so_far: SoFar,
    last: u32,
) -> Result<SoFar, ReadFault>
    requires ready { Q.IsReady conn.old }
    requires more { so_far.count < last }
    ensures reads { Reads Q.IsReady Q.place Q.below Q.shows conn.old conn.new }
    ensures count { IfOk result (λ found. found.count ≡ last) }
    ensures found { FindsWhere (AreSoFar strategy.now name.now so_far)
        (λ t found. AreSoFar strategy.now name.now found t)
        (Q.shows conn.old) (Q.shows conn.new) result }
    ensures broken { RefusesWhere (AreSoFar strategy.now name.now so_far)
        (AreThere strategy.now name.now so_far.count last)
        (Q.shows conn.old) (Q.shows conn.new) result }
{
    let page = pages::page_between(conn, alloc, name, so_far.count, last)?;
    with_page(conn, alloc, &page, strategy, so_far, last)
}

// The next runs, whose rows are in the page, judged too.
fn with_page<Q: Reader>(
    conn: &mut Q,
    alloc: Global,
    page: &RunPage,
    strategy: &Strategy,
    so_far: SoFar,
    last: u32,
) -> Result<SoFar, ReadFault>
    requires ready { Q.IsReady conn.old }
    requires more { so_far.count < last }
    ensures reads { Reads Q.IsReady Q.place Q.below Q.shows conn.old conn.new }
    ensures count { IfOk result (λ found. found.count ≡ last) }
    ensures found { (name : List ℕ) → FindsWhere
        (AreBegun strategy.now name so_far.count last so_far.runs so_far.memo page.now)
        (λ t found. AreSoFar strategy.now name found t)
        (Q.shows conn.old) (Q.shows conn.new) result }
    ensures broken { (name : List ℕ) → RefusesWhere
        (AreBegun strategy.now name so_far.count last so_far.runs so_far.memo page.now)
        (AreThere strategy.now name so_far.count last)
        (Q.shows conn.old) (Q.shows conn.new) result }
{
    let SoFar {
        count,
        mut runs,
        mut memo,
    } = so_far;
    judge_rows(
        conn, alloc, &mut memo, &mut runs, page, strategy, count, last,
    )?;
    Ok(SoFar {
        count: last,
        runs,
        memo,
    })
}

// The runs whose numbers are above `first` and at most `last`, judged and put after the others.
fn judge_rows<Q: Reader>(
    conn: &mut Q,
    alloc: Global,
    memo: &mut Templates,
    runs: &mut Listed<RunRecord>,
    page: &RunPage,
    strategy: &Strategy,
    first: u32,
    last: u32,
) -> Result<(), ReadFault>
    requires ready { Q.IsReady conn.old }
    requires more { first < last }
    ensures reads { Reads Q.IsReady Q.place Q.below Q.shows conn.old conn.new }
    ensures found { (name : List ℕ) → FindsWhere
        (AreBegun strategy.now name first last runs.old memo.old page.now)
        (λ t done. AreRunsOf strategy.now name last t runs.new × AreRevisions memo.new t)
        (Q.shows conn.old) (Q.shows conn.new) result }
    ensures broken { (name : List ℕ) → RefusesWhere
        (AreBegun strategy.now name first last runs.old memo.old page.now)
        (AreThere strategy.now name first last)
        (Q.shows conn.old) (Q.shows conn.new) result }
{
    for place in first..last {
        let run = run_in(conn, alloc, memo, page, place + 1, strategy)?;
        runs.push(run)?;
    }
    Ok(())
}

// The run of that number, by its rows in the page.
fn run_in<Q: Reader>(
    conn: &mut Q,
    alloc: Global,
    memo: &mut Templates,
    page: &RunPage,
    number: u32,
    strategy: &Strategy,
) -> Result<RunRecord, ReadFault>
    requires ready { Q.IsReady conn.old }
    ensures reads { Reads Q.IsReady Q.place Q.below Q.shows conn.old conn.new }
    ensures found { (name : List ℕ) (after last : ℕ) → after < number → number ≤ last → FindsWhere
        (λ t. IsPageOf name after last t page.now × AreRevisions memo.old t)
        (λ t found. IsRunOf strategy.now name number t found × AreRevisions memo.new t)
        (Q.shows conn.old) (Q.shows conn.new) result }
    ensures broken { (name : List ℕ) (after last : ℕ) → after < number → number ≤ last
        → RefusesWhere (λ t. IsPageOf name after last t page.now × AreRevisions memo.old t)
        (HasSuch (IsRunOf strategy.now name number))
        (Q.shows conn.old) (Q.shows conn.new) result }
{
    let rows = pages::rows_of(alloc, page, number)?;
    run(conn, alloc, memo, &rows, strategy)
}

/// The run of a service of that strategy that has these rows, if templates are judged: there is one
/// row of it, its rows of binding bind its analysis, and it has no others, each of its tallies has
/// one row, and it has no others, and its verdict is that of its tallies.
///
/// # Errors
/// `Broken` if there is no such run, or the tables hold what no program can; `Memory` if there is
/// not enough, `Storage` if the database fails.
pub(crate) fn run<Q: Reader>(
    conn: &mut Q,
    alloc: Global,
    memo: &mut Templates,
    rows: &RunPage,
    strategy: &Strategy,
) -> Result<RunRecord, ReadFault>
    requires ready { Q.IsReady conn.old }
    ensures reads { Reads Q.IsReady Q.place Q.below Q.shows conn.old conn.new }
    ensures found { (name : List ℕ) (number : ℕ) → FindsWhere
        (AreGiven name number rows.now memo.old)
        (λ t found. IsRunOf strategy.now name number t found × AreRevisions memo.new t)
        (Q.shows conn.old) (Q.shows conn.new) result }
    ensures broken { (name : List ℕ) (number : ℕ) → RefusesWhere
        (AreGiven name number rows.now memo.old)
        (HasSuch (IsRunOf strategy.now name number))
        (Q.shows conn.old) (Q.shows conn.new) result }
{
    let Some(row) = only(rows.runs.as_slice()) else {
        return Err(ReadFault::Broken);
    };
    let bindings = rows.bindings.as_slice();
    let analysis = remembered::analysis(conn, alloc, memo, bindings, strategy, row.step)?;
    with_tallies(alloc, &row, analysis, rows.tallies.as_slice())
}

// The run of the row that has this analysis and these rows of tallies.
fn with_tallies(
    alloc: Global,
    row: &RunRow,
    analysis: BoundAnalysis,
    rows: &[TallyRow],
) -> Result<RunRecord, ReadFault>
    ensures found { (t : Tables) (name : List ℕ) (number : ℕ)
        → Sorts metric_of (filter (is_tally_of name number) t.tallies) rows.now
        → IfOk result (IsRunBy name number row.now analysis t) }
    ensures broken { (t : Tables) (name : List ℕ) (number : ℕ)
        → Sorts metric_of (filter (is_tally_of name number) t.tallies) rows.now
        → result ≡ Err Broken → ¬ HasSuch (IsRunBy name number row.now analysis) t }
{
    let tallies = tallies(alloc, rows)?;
    let run = record_of(row, analysis, tallies)?;
    if has_own_verdict(&run) {
        Ok(run)
    } else {
        Err(ReadFault::Broken)
    }
}

// The row, if there is one alone.
fn only(rows: &[RunRow]) -> Option<RunRow>
    ensures one { IfSome result (λ row. rows.now ≡ row ∷ []) }
    ensures other { result ≡ None → length rows.now ≢ 1 }
{
    if rows.len() == 1 { Some(rows[0]) } else { None }
}

// The tallies of the run whose rows of tallies these are, by their metrics.
fn tallies(alloc: Global, rows: &[TallyRow]) -> Result<Listed<Tally>, ReadFault>
    ensures found { (t : Tables) (name : List ℕ) (number : ℕ)
        → Sorts metric_of (filter (is_tally_of name number) t.tallies) rows.now
        → IfOk result (AreTalliesOf name number t) }
    ensures broken { (t : Tables) (name : List ℕ) (number : ℕ)
        → Sorts metric_of (filter (is_tally_of name number) t.tallies) rows.now
        → result ≡ Err Broken → ¬ HasSuch (AreTalliesOf name number) t }
    ensures unasked { result ≢ Err Storage }
{
    if !are_placed(rows) {
        return Err(ReadFault::Broken);
    }
    Ok(counts_of(alloc, rows)?)
}

// Whether each row stands at the place of its metric.
fn are_placed(rows: &[TallyRow]) -> bool
    ensures { IsTrue result ↔ ArePlaced 0 rows.now }
{
    for (place, row) in rows.iter().enumerate() {
        if row.metric as usize != place {
            return false;
        }
    }
    true
}

// The counts in the rows, in their order; or `Memory`.
fn counts_of(alloc: Global, rows: &[TallyRow]) -> Result<Listed<Tally>, Memory>
    ensures { IfOk result (λ found. found ≡ map (λ (row : TallyRow). row.counts) rows.now) }
{
    let mut found = Listed::of(Vec::new(alloc));
    for row in rows {
        found.push(row.counts)?;
    }
    Ok(found)
}

// The record of the run in the row; `Broken` if its numbers are of no closing.
fn record_of(
    row: &RunRow,
    analysis: BoundAnalysis,
    tallies: Listed<Tally>,
) -> Result<RunRecord, ReadFault>
    ensures { IsTold (record_of_row analysis tallies row.now) result }
{
    match reading::closing(row.number, &row.ending) {
        Ok(closed) => Ok(RunRecord {
            number: row.number,
            step: row.step,
            analysis,
            started: row.started,
            closed,
            tallies,
        }),
        Err(fault) => Err(read_fault(fault)),
    }
}
