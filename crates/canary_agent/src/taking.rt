//! Measurements that are being taken.
ghost use Rattle.std.specs.Prelude.{◌≡◌, ◌≤◌, IfOk, filter, filter_map};
ghost use Rattle.canary_agent.specs.Takings.{IsPart, is_left, taken_of};

use crate::plan::PlannedMetric;
use crate::taken::{Came, Taken, came_of};
use canary_base::error::Memory;
use canary_base::moments::Moment;
use canary_base::names::Label;
use canary_base::numbers::Number;
use canary_fetch::query::FetchResult as Fetched;
use canary_provider::plan::{Provider, ReplyFormat};
use std::alloc::Global;
use std::mem;

// The longest time of a measurement, in milliseconds.
const LONGEST: u64 = 30_000;

/// A message to a provider that is under way.
#[derive(Drop)]
pub(crate) struct Message {
    // What it is known by.
    token: usize,
    // How its reply is read.
    answer: ReplyFormat,
}

impl Message {
    /// The message to a provider that has this token.
    pub(crate) fn new(token: usize, provider: Provider) -> Message {
        let Provider { answer, .. } = provider;
        Message { token, answer }
    }
}

/// A measurement that is being taken.
#[derive(Drop)]
pub(crate) struct Taking {
    /// The run.
    pub(crate) run: Number,
    /// The metric, by its label at the desk.
    pub(crate) metric: Label,
    /// Which measurement of it in its run it is, from 1.
    pub(crate) ordinal: Number,
    /// When it is taken, by the desk's clock.
    pub(crate) moment: Moment,
    /// The message to the provider; none if another program gives the value.
    pub(crate) message: Option<Message>,
    /// From when on it is reported, although others of its run are not there yet. These, and the
    /// next, are milliseconds of the call.
    pub(crate) report_at: u64,
    /// When it began, and when it ends at the latest.
    pub(crate) began_at: u64,
    pub(crate) ends_at: u64,
    /// What came of it, once that is there.
    pub(crate) came: Option<Came>,
}

impl Taking {
    // Whether it measures this metric in this run.
    fn is_of(&self, run: Number, metric: &Label) -> bool {
        self.run == run && self.metric == *metric
    }

    // When something is to be done of it; never while a provider is asked, whose answer, or the end
    // of its time, is waited for elsewhere.
    fn next_at(&self) -> u64 {
        if self.came.is_some() {
            self.report_at
        } else if self.message.is_some() {
            u64::MAX
        } else {
            self.ends_at
        }
    }

    // How the reply to the message of this token is read, if it is asked for by it.
    fn answer_to(&self, token: usize) -> Option<&ReplyFormat> {
        match &self.message {
            Some(message) if message.token == token => Some(&message.answer),
            _ => None,
        }
    }
}

/// What became of the measurement of a message.
#[derive(Clone, Copy, PartialEq, Eq)]
pub(crate) enum Settling {
    /// The message is of none of these.
    Foreign,
    /// It is taken.
    Taken,
    /// Nothing came of it, by a fault of this machine: it is taken anew.
    Forgotten,
}

/// The measurements of a service that are being taken.
#[derive(Drop)]
pub(crate) struct Takings {
    list: Vec<Taking>,
}

impl Takings {
    /// None.
    pub(crate) fn new(alloc: Global) -> Takings {
        Takings {
            list: Vec::new(alloc),
        }
    }

    /// Whether there is none.
    pub(crate) fn is_empty(&self) -> bool {
        self.list.is_empty()
    }

    /// Adds one, or `Memory`.
    pub(crate) fn add(&mut self, taking: Taking) -> Result<(), Memory> {
        self.list.push(taking)?;
        Ok(())
    }

    /// Whether there is one of this metric of a run.
    pub(crate) fn has(&self, run: Number, metric: &Label) -> bool {
        for taking in &self.list {
            if taking.is_of(run, metric) {
                return true;
            }
        }
        false
    }

    /// Takes in what came of the message of this token. Of a fault of this machine nothing comes:
    /// the measurement is forgotten, and taken anew. Or `Memory`.
    pub(crate) fn settle(
        &mut self,
        alloc: Global,
        token: usize,
        fetched: &Fetched,
    ) -> Result<Settling, Memory> {
        let Some(place) = self.place_of(token) else {
            return Ok(Settling::Foreign);
        };
        match self.came_at(alloc, place, token, fetched)? {
            Some(came) => {
                self.give(place, came);
                Ok(Settling::Taken)
            }
            None => {
                self.forget(place);
                Ok(Settling::Forgotten)
            }
        }
    }

    // The place of the measurement of which this is the message.
    fn place_of(&self, token: usize) -> Option<usize> {
        self.list
            .iter()
            .position(|taking| taking.answer_to(token).is_some())
    }

    // What came of the one at this place, by its message.
    fn came_at(
        &self,
        alloc: Global,
        place: usize,
        token: usize,
        fetched: &Fetched,
    ) -> Result<Option<Came>, Memory> {
        match self.at(place).and_then(|taking| taking.answer_to(token)) {
            Some(answer) => came_of(alloc, answer, fetched),
            None => Ok(None),
        }
    }

    // Forgets the one at this place.
    fn forget(&mut self, place: usize) {
        if place < self.list.len() {
            self.list.remove(place);
        }
    }

    /// The first one, from this place on, that another program gives, and that is not there yet.
    pub(crate) fn awaited_from(&self, place: usize) -> Option<usize> {
        for (index, taking) in self.list.iter().enumerate() {
            if index >= place && taking.message.is_none() && taking.came.is_none() {
                return Some(index);
            }
        }
        None
    }

    /// The one at this place.
    pub(crate) fn at(&self, place: usize) -> Option<&Taking> {
        self.list.get(place)
    }

    /// What came of the one at this place.
    pub(crate) fn give(&mut self, place: usize, came: Came) {
        if let Some(taking) = self.list.get_mut(place) {
            taking.came = Some(came);
        }
    }

    /// A run of which a report is to be made now: each of its measurements is there, or one of them
    /// has waited long enough for the others.
    pub(crate) fn ready_run(&self, now: u64) -> Option<Number> {
        for taking in &self.list {
            if taking.came.is_some() && (taking.report_at <= now || self.are_there(taking.run)) {
                return Some(taking.run);
            }
        }
        None
    }

    // Whether each measurement of a run is there.
    fn are_there(&self, run: Number) -> bool {
        for taking in &self.list {
            if taking.run == run && taking.came.is_none() {
                return false;
            }
        }
        true
    }

    /// Takes out what is there of a run. After `Memory` some of these may be gone, and are taken
    /// anew.
    pub(crate) fn take(&mut self, alloc: Global, run: Number) -> Result<Vec<Taken>, Memory>
        ensures taken { IfOk result (λ taken.
            taken.items ≡ filter_map (taken_of run) self.old.list.items) }
        ensures left { IfOk result (λ _.
            self.new.list.items ≡ filter (is_left run) self.old.list.items) }
    {
        let list = mem::replace(&mut self.list, Vec::new(alloc));
        let mut found = Vec::new(alloc);
        for taking in list {
            match part_of(taking, run) {
                TakeResult::There(taken) => found.push(taken)?,
                TakeResult::Left(taking) => self.list.push(taking)?,
            }
        }
        Ok(found)
    }

    /// When a report may be made at the latest, if one is to be made; or when one that another
    /// program gives ends.
    pub(crate) fn next_at(&self) -> Option<u64> {
        let mut next: Option<u64> = None;
        for taking in &self.list {
            let at = taking.next_at();
            next = Some(next.unwrap_or(at).min(at));
        }
        next
    }
}

// A measurement, by whether it is taken out.
#[derive(Drop)]
enum TakeResult {
    There(Taken),
    Left(Taking),
}

// What came of a measurement, if it is of this run and something came; else the measurement.
fn part_of(taking: Taking, run: Number) -> TakeResult
    ensures { IsPart run taking result }
{
    if taking.run != run {
        return TakeResult::Left(taking);
    }
    let Taking {
        metric,
        ordinal,
        moment,
        message,
        report_at,
        began_at,
        ends_at,
        came,
        ..
    } = taking;
    match came {
        Some(came) => TakeResult::There(Taken {
            metric,
            ordinal,
            moment,
            came,
        }),
        None => TakeResult::Left(Taking {
            run,
            metric,
            ordinal,
            moment,
            message,
            report_at,
            began_at,
            ends_at,
            came: None,
        }),
    }
}

/// How long a measurement of a metric may take, in milliseconds: its interval at most, 30 seconds,
/// and what its provider's plan says; a second at least.
pub(crate) fn limit_of(metric: &PlannedMetric, seconds: Option<u64>) -> u64 {
    let interval = match metric.interval {
        Some(interval) => in_milliseconds(u64::from(interval)),
        None => LONGEST,
    };
    let given = match seconds {
        Some(seconds) => in_milliseconds(seconds),
        None => LONGEST,
    };
    shortest(interval, given)
}

// The time in milliseconds, or the greatest number if that is more.
fn in_milliseconds(seconds: u64) -> u64 {
    seconds.saturating_mul(1_000)
}

// The shorter of the two times in milliseconds, but 1,000 at least and `LONGEST` at most.
fn shortest(interval: u64, given: u64) -> u64
    ensures least { 1000 ≤ result }
    ensures most { result ≤ 30000 }
{
    interval.min(given).min(LONGEST).max(1_000)
}
