//! The parts of a page, in order.
use crate::groups::{PlacedService, count_standing};
use crate::page::View;
use crate::shown::AttentionLevel;
use canary_base::error::Memory;
use canary_base::names::Name;
use std::alloc::Global;

// A page of more services than these begins with an index.
const MAX_WITHOUT_INDEX: usize = 20;

// The standings of those that wait for somebody, in the order of the page.
const WAITING: [AttentionLevel; 4] = [
    AttentionLevel::Aborted,
    AttentionLevel::Held,
    AttentionLevel::Late,
    AttentionLevel::Waits,
];

/// A group of the services of a page.
#[derive(Clone, Copy)]
pub(crate) enum Group {
    Waits,
    Goes,
    Done,
}

impl Group {
    /// Its heading, and its name in the index.
    pub(crate) fn name(self) -> &'static str {
        match self {
            Group::Waits => "Waits for somebody",
            Group::Goes => "Goes on by itself",
            Group::Done => "Done",
        }
    }
}

/// A part of a page.
#[derive(Clone, Copy)]
pub(crate) enum Job {
    Head,
    /// The index, a group of it with how many services it has, and a link to one.
    Index,
    Group(Group, u64),
    Link(PlacedService),
    GroupEnd,
    IndexEnd,
    /// The heading of the services that wait for somebody, that go on, and that are done.
    Waiting,
    Going,
    Done,
    /// A service that is not done.
    Card(Name),
    /// The table of those that are done, a row of it, and its end.
    Table,
    Row(Name),
    TableEnd,
    Foot,
}

impl Job {
    // Whether it is that of a service.
    pub(crate) fn is_service(&self) -> bool {
        matches!(self, Job::Card(_) | Job::Row(_))
    }
}

// As what a service is drawn.
#[derive(Clone, Copy)]
enum Drawn {
    Link,
    Card,
    Row,
}

impl Drawn {
    // The part of a page that draws this service so.
    fn job_of(self, placed: PlacedService) -> Job {
        match self {
            Drawn::Link => Job::Link(placed),
            Drawn::Card => Job::Card(placed.name),
            Drawn::Row => Job::Row(placed.name),
        }
    }
}

/// The services of a page, and how it is drawn.
#[derive(Clone, Copy)]
pub(crate) struct PageSetup<'a> {
    pub(crate) placed: &'a [PlacedService],
    pub(crate) view: View,
}

// The parts of the page of these services.
pub(crate) fn jobs_of(alloc: Global, placed: &[PlacedService]) -> Result<Vec<Job>, Memory> {
    let mut jobs = Vec::new(alloc);
    push_page(&mut jobs, placed)?;
    Ok(jobs)
}

// Adds the parts of the page of these services.
fn push_page(jobs: &mut Vec<Job>, placed: &[PlacedService]) -> Result<(), Memory> {
    jobs.push(Job::Head)?;
    if placed.len() > MAX_WITHOUT_INDEX {
        push_index(jobs, placed)?;
    }
    jobs.push(Job::Waiting)?;
    push_cards(jobs, placed, &WAITING)?;
    jobs.push(Job::Going)?;
    push_cards(jobs, placed, &[AttentionLevel::Goes])?;
    jobs.push(Job::Done)?;
    if count_standing(placed, AttentionLevel::Done) > 0 {
        push_table(jobs, placed)?;
    }
    jobs.push(Job::Foot)?;
    Ok(())
}

// The links to those that wait for somebody stand first.
fn push_index(jobs: &mut Vec<Job>, placed: &[PlacedService]) -> Result<(), Memory> {
    jobs.push(Job::Index)?;
    push_group(jobs, Group::Waits, placed, &WAITING)?;
    push_group(jobs, Group::Goes, placed, &[AttentionLevel::Goes])?;
    push_group(jobs, Group::Done, placed, &[AttentionLevel::Done])?;
    jobs.push(Job::IndexEnd)?;
    Ok(())
}

// A group of the index, unless it has no service.
fn push_group(
    jobs: &mut Vec<Job>,
    group: Group,
    placed: &[PlacedService],
    standings: &[AttentionLevel],
) -> Result<(), Memory> {
    let count = placed
        .iter()
        .filter(|placed| standings.contains(&placed.standing))
        .count() as u64;
    if count == 0 {
        return Ok(());
    }
    jobs.push(Job::Group(group, count))?;
    for standing in standings {
        push_those(jobs, placed, *standing, Drawn::Link)?;
    }
    jobs.push(Job::GroupEnd)?;
    Ok(())
}

// Adds a card for each service that has one of these `standings`, in their order.
fn push_cards(
    jobs: &mut Vec<Job>,
    placed: &[PlacedService],
    standings: &[AttentionLevel],
) -> Result<(), Memory> {
    for standing in standings {
        push_those(jobs, placed, *standing, Drawn::Card)?;
    }
    Ok(())
}

// A part for each service that stands so.
fn push_those(
    jobs: &mut Vec<Job>,
    placed: &[PlacedService],
    standing: AttentionLevel,
    drawn: Drawn,
) -> Result<(), Memory> {
    for one in placed {
        if one.standing == standing {
            jobs.push(drawn.job_of(*one))?;
        }
    }
    Ok(())
}

// Adds the table of the services that are done, with its rows.
fn push_table(jobs: &mut Vec<Job>, placed: &[PlacedService]) -> Result<(), Memory> {
    jobs.push(Job::Table)?;
    push_those(jobs, placed, AttentionLevel::Done, Drawn::Row)?;
    jobs.push(Job::TableEnd)?;
    Ok(())
}
