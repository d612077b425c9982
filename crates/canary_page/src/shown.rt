//! What is shown of a service.
use crate::charts::chart::Chart;
use crate::charts::conditions::Conditions;
use crate::late::is_late;
use crate::parts::attempts::{Attempt, attempts_of, recent_of};
use crate::unmeasured::is_unmeasured;
use canary_base::error::Memory;
use canary_base::moments::Moment;
use canary_condition::outcome::Phase;
use canary_once::record::RunRecord;
use canary_plan::line::Line;
use canary_plan::step::Step;
use canary_release::service::Service;
use canary_release::state::ReleaseState;
use std::alloc::Global;

/// A run, with the measurements and the conditions of each of its metrics, in order.
#[derive(Drop)]
pub(crate) struct ShownRun {
    pub(crate) record: RunRecord,
    pub(crate) charts: Vec<Chart>,
    pub(crate) conditions: Vec<Conditions>,
}

impl ShownRun {
    // Its verdict, or Running while it is open.
    pub(crate) fn phase(&self) -> Phase {
        match self.record.closed {
            Some(closing) => closing.verdict,
            None => Phase::Running,
        }
    }

    // Whether it is closed.
    pub(crate) fn is_closed(&self) -> bool {
        self.record.closed.is_some()
    }

    // Whether it is closed, and nothing was measured in it.
    pub(crate) fn is_unmeasured(&self) -> bool {
        is_unmeasured(&self.record)
    }

    // Whether it is the background's, and its verdict is Inconclusive.
    fn is_inconclusive_background(&self) -> bool {
        self.record.step.is_none() && self.phase() == Phase::Inconclusive
    }

    // Its end, or this moment while it is open.
    pub(crate) fn end(&self, now: Moment) -> Moment {
        match self.record.closed {
            Some(closing) => closing.at,
            None => now,
        }
    }
}

/// A service that was passed to a moment, with its history, and the attempts whose runs are drawn.
#[derive(Drop)]
pub(crate) struct ShownService {
    pub(crate) service: Service,
    /// The moment, or the service's last one if that is later.
    pub(crate) now: Moment,
    pub(crate) lines: Vec<Line>,
    pub(crate) attempts: Attempts,
    /// The runs of these attempts, oldest first.
    pub(crate) runs: Vec<ShownRun>,
}

/// The attempts of a service whose runs are drawn.
#[derive(Drop)]
pub(crate) struct Attempts {
    /// The last one, unless the service is done.
    pub(crate) present: Option<Attempt>,
    /// Others that ended not long ago, newest first.
    pub(crate) recent: Vec<Attempt>,
}

impl ShownService {
    // Whether a promotion has let the release go on although the background was Inconclusive: its
    // run is closed, and no other one opens in this attempt.
    pub(crate) fn is_background_spent(&self) -> bool {
        let service = &self.service;
        service.state() == ReleaseState::InProgress
            && !service.background_hold()
            && self.has_inconclusive_background()
    }

    // Whether the run of the background of the present attempt is closed as Inconclusive.
    fn has_inconclusive_background(&self) -> bool {
        match &self.attempts.present {
            Some(attempt) => self.runs.iter().any(|run| attempt.has_run(run.record.number)
                && run.is_inconclusive_background()),
            None => false,
        }
    }

    // How many runs of an attempt ended without a measurement.
    pub(crate) fn unmeasured(&self, attempt: &Attempt) -> u64 {
        self.runs
            .iter()
            .filter(|run| attempt.has_run(run.record.number) && run.is_unmeasured())
            .count() as u64
    }
}

// Those of a service that stands so, at this moment, with this history.
pub(crate) fn drawn_attempts(
    alloc: Global,
    state: ReleaseState,
    lines: &[Line],
    now: Moment,
) -> Result<Attempts, Memory> {
    let attempts = attempts_of(alloc, lines)?;
    let all = attempts.as_slice();
    match all.split_last() {
        Some((last, before)) if state != ReleaseState::Done => Ok(Attempts {
            present: Some(*last),
            recent: recent_of(alloc, before, now)?,
        }),
        _ => Ok(Attempts {
            present: None,
            recent: recent_of(alloc, all, now)?,
        }),
    }
}

// The numbers of the runs of these attempts, oldest first.
pub(crate) fn run_numbers(alloc: Global, attempts: &Attempts) -> Result<Vec<u32>, Memory> {
    let mut numbers = Vec::new(alloc);
    for attempt in attempts.recent.iter().rev() {
        push_numbers(&mut numbers, attempt)?;
    }
    if let Some(present) = &attempts.present {
        push_numbers(&mut numbers, present)?;
    }
    Ok(numbers)
}

// Adds the numbers of an attempt's runs, in order.
fn push_numbers(numbers: &mut Vec<u32>, attempt: &Attempt) -> Result<(), Memory> {
    for place in 0..attempt.runs {
        numbers.push(attempt.run_at(place))?;
    }
    Ok(())
}

/// How a service stands, as far as it says who has to do something.
#[derive(Clone, Copy, Debug, PartialEq, Eq)]
pub(crate) enum AttentionLevel {
    Aborted,
    Held,
    /// A measurement is late, and it goes on nevertheless.
    Late,
    /// It is at a pause without an end.
    Waits,
    /// It goes on by itself.
    Goes,
    Done,
}

impl AttentionLevel {
    // How it stands at this moment.
    pub(crate) fn of(service: &Service, now: Moment) -> AttentionLevel {
        match service.state() {
            ReleaseState::Aborted => AttentionLevel::Aborted,
            ReleaseState::Done => AttentionLevel::Done,
            ReleaseState::InProgress => of_progress(service, now),
        }
    }

    // Whether it waits for somebody.
    pub(crate) fn waits(self) -> bool {
        match self {
            AttentionLevel::Aborted => true,
            AttentionLevel::Held => true,
            AttentionLevel::Late => true,
            AttentionLevel::Waits => true,
            AttentionLevel::Goes => false,
            AttentionLevel::Done => false,
        }
    }
}

// How a release in progress is: first counts a hold, then a pause without an end, then lateness.
fn of_progress(service: &Service, now: Moment) -> AttentionLevel {
    if service.step_hold() || service.background_hold() {
        return AttentionLevel::Held;
    }
    match step_of(service) {
        Some(Step::Pause(None)) => AttentionLevel::Waits,
        _ if is_late(service, now) => AttentionLevel::Late,
        _ => AttentionLevel::Goes,
    }
}

// The step at which it stands; none at the end.
pub(crate) fn step_of(service: &Service) -> Option<&Step> {
    service.strategy().steps().get(service.step() as usize)
}
