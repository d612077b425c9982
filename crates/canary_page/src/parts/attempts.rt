//! The attempts of a service, as its history has them.
use canary_base::error::Memory;
use canary_base::moments::Moment;
use canary_base::names::Label;
use canary_plan::line::{Line, LineEvent};
use std::alloc::Global;

// For how many seconds the runs of an attempt that ended are shown.
const SHOWN: u64 = 86_400;

// How many runs of attempts that ended are drawn, after which no further attempt is.
const ENOUGH_RUNS: u32 = 64;

/// How an attempt ended.
#[derive(Clone, Copy, Debug, PartialEq, Eq)]
pub(crate) enum Ending {
    Finished,
    Aborted,
    /// By the verdict of that run.
    AbortedBy(u32),
    /// Another one began before it ended.
    Replaced,
}

/// An attempt: a start or a retry of a version, and what came of it.
#[derive(Clone, Copy)]
pub(crate) struct Attempt {
    pub(crate) version: Label,
    pub(crate) begun: Moment,
    /// When it ended, and how; none while it is under way.
    pub(crate) end: Option<(Moment, Ending)>,
    /// The number of its first run, and how many it has; these are numbered in turn.
    first_run: u32,
    pub(crate) runs: u32,
}

impl Attempt {
    // An attempt that is under way since that moment, and has no run yet.
    fn begin(version: Label, begun: Moment) -> Attempt {
        Attempt {
            version,
            begun,
            end: None,
            first_run: 0,
            runs: 0,
        }
    }

    // Whether the run of that number is one of its.
    pub(crate) fn has_run(&self, number: u32) -> bool {
        number >= self.first_run && number - self.first_run < self.runs
    }

    // The number of its run at this place, from 0.
    pub(crate) fn run_at(&self, place: u32) -> u32 {
        self.first_run.saturating_add(place)
    }

    // Counts one more run. The first one's number is noted: the others have the next ones in turn.
    fn add_run(&mut self, number: u32) {
        if self.runs == 0 {
            self.first_run = number;
        }
        self.runs = self.runs.saturating_add(1);
    }

    // Notes when and how it ended, unless that is noted: only the first ending counts.
    fn end(&mut self, moment: Moment, ending: Ending) {
        if self.end.is_none() {
            self.end = Some((moment, ending));
        }
    }

    // Whether it reached its end.
    fn is_done(&self) -> bool {
        matches!(self.end, Some((_, Ending::Finished)))
    }

    // Whether its runs are shown, at this moment, after it ended.
    fn is_recent(&self, now: Moment) -> bool {
        match self.end {
            Some((moment, _)) => now.get().saturating_sub(moment.get()) <= SHOWN,
            None => false,
        }
    }
}

// The attempts that a history has, oldest first.
pub(crate) fn attempts_of(alloc: Global, lines: &[Line]) -> Result<Vec<Attempt>, Memory> {
    let mut attempts = Vec::new(alloc);
    for line in lines {
        note_line(&mut attempts, line)?;
    }
    Ok(attempts)
}

// The last attempt of a history that reached its end; none if no release is done.
pub(crate) fn last_done(alloc: Global, lines: &[Line]) -> Result<Option<Attempt>, Memory> {
    let attempts = attempts_of(alloc, lines)?;
    Ok(
        attempts
            .iter()
            .rev()
            .find(|attempt| attempt.is_done())
            .copied(),
    )
}

// Begins an attempt with a start or a retry, and notes any other line in the last one, if any.
fn note_line(attempts: &mut Vec<Attempt>, line: &Line) -> Result<(), Memory> {
    match line.event {
        LineEvent::Started { version } => begin(attempts, version, line.moment)?,
        LineEvent::Retried { version } => begin(attempts, version, line.moment)?,
        event => {
            if let Some(attempt) = attempts.last_mut() {
                note_event(attempt, line.moment, event);
            }
        }
    }
    Ok(())
}

// Adds an attempt. The one before ends now as `Replaced`, unless it has ended.
fn begin(attempts: &mut Vec<Attempt>, version: Label, moment: Moment) -> Result<(), Memory> {
    if let Some(before) = attempts.last_mut() {
        before.end(moment, Ending::Replaced);
    }
    attempts.push(Attempt::begin(version, moment))?;
    Ok(())
}

// Notes a run that was opened, or how the attempt ended; any other event is ignored.
fn note_event(attempt: &mut Attempt, moment: Moment, event: LineEvent) {
    match event {
        LineEvent::BackgroundOpened { run } => attempt.add_run(run),
        LineEvent::AnalysisEntered { run, .. } => attempt.add_run(run),
        LineEvent::Aborted => attempt.end(moment, Ending::Aborted),
        LineEvent::AbortedBy { run } => attempt.end(moment, Ending::AbortedBy(run)),
        LineEvent::Finished { .. } => attempt.end(moment, Ending::Finished),
        _ => {}
    }
}

// Those of these attempts that ended within 24 hours and have runs, newest first: as many as it
// takes to have 64 runs.
pub(crate) fn recent_of(
    alloc: Global,
    attempts: &[Attempt],
    now: Moment,
) -> Result<Vec<Attempt>, Memory> {
    let mut recent = Vec::new(alloc);
    let mut runs: u32 = 0;
    for attempt in attempts.iter().rev() {
        if runs >= ENOUGH_RUNS || !attempt.is_recent(now) {
            break;
        }
        if attempt.runs > 0 {
            recent.push(*attempt)?;
            runs = runs.saturating_add(attempt.runs);
        }
    }
    Ok(recent)
}
