//! Drawing a page.
ghost use Rattle.canary_once.specs.BookCalls.{Stays};
ghost use Rattle.canary_page.specs.Drawn.{IsDrawn};

use crate::fault::PageFault;
use crate::frame::{foot, head, part};
use crate::groups::{count_standing, count_waiting, placed_of};
use crate::index::{begin_group, begin_index, end_group, end_index, link};
use crate::jobs::{Group, Job, PageSetup, jobs_of};
use crate::parts::card::card;
use crate::parts::table::{begin_table, end_table, row};
use crate::progress::DrawingProgress;
use crate::reading::{passed_of, shown_of};
use crate::shown::AttentionLevel;
use canary_base::moments::Moment;
use canary_base::names::Name;
use canary_base::writing::write_all;
use canary_once::book::Book;
use canary_page_html::markup::Markup;
use canary_release::service::Passed;
use std::alloc::Global;
use std::io::Write;

/// What a page says on top of a file that no desk has open.
pub const NO_DESK: &str = concat!(
    "No desk has this file open: no request is answered, and no measurement recorded. ",
    "Pauses end at their moment all the same."
);

/// When a page is drawn, how often it is to be loaded anew, and whether a desk serves its file.
#[derive(Clone, Copy, Debug, PartialEq, Eq)]
pub struct View {
    /// The moment to which services are passed.
    pub now: Moment,
    /// The seconds after which the page loads itself anew; none if it does not.
    pub every: Option<u64>,
    /// Whether a desk may have the file open. If none has, the page says so on top.
    pub is_served: bool,
}

/// Draws the services of these names, as they stand at a moment, as one page of HTML (HTML Living
/// Standard), service by service, and says how far it has come. The book is unchanged.
///
/// # Errors
/// `Write` if the output failed; `Memory` if an allocation was refused; `Storage` if the store
/// failed. What was written before are the first bytes of pieces of a page.
pub fn draw<W: Write, B: Book, P: DrawingProgress>(
    alloc: Global,
    book: &mut B,
    names: &[Name],
    view: View,
    out: &mut W,
    progress: &mut P,
) -> Result<(), PageFault>
    ensures stays { Stays (B.state book.old) (B.state book.new) }
    ensures drawn { IsDrawn (W.contents out.old) (W.contents out.new) result }
{
    let placed = placed_of(alloc, book, names, view.now)?;
    let plan = PageSetup {
        placed: placed.as_slice(),
        view,
    };
    draw_planned(alloc, book, &plan, out, progress)
}

// Reports how many services are to be drawn, and draws the parts of the page in order.
fn draw_planned<W: Write, B: Book, P: DrawingProgress>(
    alloc: Global,
    book: &mut B,
    plan: &PageSetup<'_>,
    out: &mut W,
    progress: &mut P,
) -> Result<(), PageFault>
    ensures stays { Stays (B.state book.old) (B.state book.new) }
    ensures drawn { IsDrawn (W.contents out.old) (W.contents out.new) result }
{
    let jobs = jobs_of(alloc, plan.placed)?;
    progress.begin(plan.placed.len() as u64);
    draw_jobs(alloc, book, plan, jobs.as_slice(), out, progress)
}

// Draws these parts one after another, and reports each card and each row that was drawn.
fn draw_jobs<W: Write, B: Book, P: DrawingProgress>(
    alloc: Global,
    book: &mut B,
    plan: &PageSetup<'_>,
    jobs: &[Job],
    out: &mut W,
    progress: &mut P,
) -> Result<(), PageFault>
    ensures stays { Stays (B.state book.old) (B.state book.new) }
    ensures drawn { IsDrawn (W.contents out.old) (W.contents out.new) result }
{
    for job in jobs {
        put_job(alloc, book, plan, job, out)?;
        if job.is_service() {
            progress.drawn();
        }
    }
    Ok(())
}

// Makes one part of the page, and writes it.
fn put_job<W: Write, B: Book>(
    alloc: Global,
    book: &mut B,
    plan: &PageSetup<'_>,
    job: &Job,
    out: &mut W,
) -> Result<(), PageFault>
    ensures stays { Stays (B.state book.old) (B.state book.new) }
    ensures drawn { IsDrawn (W.contents out.old) (W.contents out.new) result }
{
    let page = markup_of(alloc, book, plan, job)?;
    put_out(&page, out)
}

// Writes a part of a page.
fn put_out<W: Write>(page: &Markup, out: &mut W) -> Result<(), PageFault>
    ensures drawn { IsDrawn (W.contents out.old) (W.contents out.new) result }
{
    let bytes = page.bytes()?;
    match write_all(out, bytes) {
        Ok(()) => Ok(()),
        Err(_) => Err(PageFault::Write),
    }
}

// A part of a page.
fn markup_of<B: Book>(
    alloc: Global,
    book: &mut B,
    plan: &PageSetup<'_>,
    job: &Job,
) -> Result<Markup, PageFault>
    ensures stays { Stays (B.state book.old) (B.state book.new) }
{
    match job {
        Job::Card(name) => card_of(alloc, book, name, plan.view.now),
        Job::Row(name) => row_of(alloc, book, name, plan.view.now),
        _ => Ok(frame_of(alloc, plan, job)),
    }
}

// What stands between the services.
fn frame_of(alloc: Global, plan: &PageSetup<'_>, job: &Job) -> Markup {
    let mut page = Markup::new(alloc);
    let placed = plan.placed;
    match job {
        Job::Head => head(&mut page, plan),
        Job::Index => begin_index(&mut page),
        Job::Group(group, count) => begin_group(&mut page, group.name(), *count),
        Job::Link(placed) => link(&mut page, placed),
        Job::GroupEnd => end_group(&mut page),
        Job::IndexEnd => end_index(&mut page),
        Job::Waiting => part(&mut page, Group::Waits.name(), count_waiting(placed)),
        Job::Going => {
            let count = count_standing(placed, AttentionLevel::Goes);
            part(&mut page, Group::Goes.name(), count);
        }
        Job::Done => part(
            &mut page,
            Group::Done.name(),
            count_standing(placed, AttentionLevel::Done),
        ),
        Job::Table => begin_table(&mut page),
        Job::TableEnd => end_table(&mut page),
        _ => foot(&mut page),
    }
    page
}

// The card of a service.
fn card_of<B: Book>(
    alloc: Global,
    book: &mut B,
    name: &Name,
    now: Moment,
) -> Result<Markup, PageFault>
    ensures stays { Stays (B.state book.old) (B.state book.new) }
{
    match passed_of(alloc, book, name, now)? {
        Some(passed) => card_of_passed(alloc, book, name, passed, now),
        None => Ok(Markup::new(alloc)),
    }
}

// The card of a service that was passed to a moment, with what the book has of it.
fn card_of_passed<B: Book>(
    alloc: Global,
    book: &mut B,
    name: &Name,
    passed: Passed,
    now: Moment,
) -> Result<Markup, PageFault>
    ensures stays { Stays (B.state book.old) (B.state book.new) }
{
    let shown = shown_of(alloc, book, name, passed, now)?;
    Ok(card(alloc, &shown))
}

// The row of a service that is done.
fn row_of<B: Book>(
    alloc: Global,
    book: &mut B,
    name: &Name,
    now: Moment,
) -> Result<Markup, PageFault>
    ensures stays { Stays (B.state book.old) (B.state book.new) }
{
    match passed_of(alloc, book, name, now)? {
        Some(passed) => row_of_passed(alloc, book, name, passed, now),
        None => Ok(Markup::new(alloc)),
    }
}

// The row of a service that was passed to a moment, with what the book has of it.
fn row_of_passed<B: Book>(
    alloc: Global,
    book: &mut B,
    name: &Name,
    passed: Passed,
    now: Moment,
) -> Result<Markup, PageFault>
    ensures stays { Stays (B.state book.old) (B.state book.new) }
{
    let shown = shown_of(alloc, book, name, passed, now)?;
    Ok(row(alloc, &shown))
}
