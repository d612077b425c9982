//! Which service stands in which part of a page.
ghost use Rattle.canary_once.specs.BookCalls.{Stays};

use crate::fault::PageFault;
use crate::reading::passed_of;
use crate::shown::AttentionLevel;
use canary_base::error::Memory;
use canary_base::moments::Moment;
use canary_base::names::Name;
use canary_once::book::Book;
use canary_release::state::Status;
use std::alloc::Global;

/// A service, by its name, and how it stands.
#[derive(Clone, Copy)]
pub(crate) struct PlacedService {
    pub(crate) name: Name,
    pub(crate) standing: AttentionLevel,
    pub(crate) status: Status,
}

// Those of these names that there are, in order.
pub(crate) fn placed_of<B: Book>(
    alloc: Global,
    book: &mut B,
    names: &[Name],
    now: Moment,
) -> Result<Vec<PlacedService>, PageFault>
    ensures { Stays (B.state book.old) (B.state book.new) }
{
    let mut placed = Vec::new(alloc);
    for name in names {
        place(alloc, book, name, now, &mut placed)?;
    }
    Ok(placed)
}

// Adds the service of that name, passed to a moment; a name that no service has is ignored.
fn place<B: Book>(
    alloc: Global,
    book: &mut B,
    name: &Name,
    now: Moment,
    placed: &mut Vec<PlacedService>,
) -> Result<(), PageFault>
    ensures { Stays (B.state book.old) (B.state book.new) }
{
    let found = passed_of(alloc, book, name, now)?;
    if let Some(passed) = &found {
        push_placed(
            placed,
            *name,
            AttentionLevel::of(&passed.service, now.max(passed.service.last())),
            passed.service.status(),
        )?;
    }
    Ok(())
}

// Adds a service to the list, with what says in which part of the page it is drawn.
fn push_placed(
    placed: &mut Vec<PlacedService>,
    name: Name,
    standing: AttentionLevel,
    status: Status,
) -> Result<(), Memory> {
    placed.push(PlacedService {
        name,
        standing,
        status,
    })?;
    Ok(())
}

// How many of these stand so.
pub(crate) fn count_standing(placed: &[PlacedService], standing: AttentionLevel) -> u64 {
    placed
        .iter()
        .filter(|placed| placed.standing == standing)
        .count() as u64
}

// How many of these wait for somebody.
pub(crate) fn count_waiting(placed: &[PlacedService]) -> u64 {
    placed
        .iter()
        .filter(|placed| placed.standing.waits())
        .count() as u64
}

// How many of these have that status.
pub(crate) fn count_status(placed: &[PlacedService], status: Status) -> u64 {
    placed
        .iter()
        .filter(|placed| placed.status == status)
        .count() as u64
}
