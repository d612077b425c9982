//! A row of each table. Moments are seconds since 1970 (UTC), texts are canonical ones.
use canary_base::lists::Text;
use canary_base::moments::Moment;
use canary_base::names::{Label, Name};
use canary_metric::tally::Tally;

/// A caller, and how many of its requests are settled.
#[derive(Clone, Copy)]
pub struct CallerRow {
    pub name: Name,
    pub settled: u32,
}

/// What is kept of a settled request: its command, and the status and the body of its reply.
#[derive(Drop)]
pub struct KeptRow {
    pub caller: Name,
    pub number: u32,
    pub command: Text,
    pub status: u32,
    pub body: Text,
}

/// A revision of a template, from 1 on, by the command that added it.
#[derive(Drop)]
pub struct RevisionRow {
    pub name: Name,
    pub revision: u32,
    pub spec: Text,
}

/// The revision of a template to which a run of a service is bound. Run 0 stands for the service's
/// present attempt.
#[derive(Clone, Copy)]
pub struct BindingRow {
    pub service: Name,
    pub run: u32,
    pub template: Name,
    pub revision: u32,
}

/// How a service stands. The state is 0 in progress, 1 aborted, 2 done; the hold is 0 none, 1 of
/// the step, 2 of the background, 3 both; the background is 1 if its run was opened in the present
/// attempt, else 0.
#[derive(Clone, Copy)]
pub struct ServiceColumns {
    pub stable: Label,
    pub version: Label,
    pub state: u32,
    pub step: u32,
    pub entered: Moment,
    pub hold: u32,
    pub background: u32,
    pub runs: u32,
    pub last: Moment,
}

/// A service, by the command that made it, and how it stands.
#[derive(Drop)]
pub struct ServiceRow {
    pub name: Name,
    pub spec: Text,
    pub standing: ServiceColumns,
}

/// How a run was closed: when, whether from outside (1, else 0), and at which verdict. An open run
/// has no moment, 0 and 0. Verdicts have the numbers of phases: 0 Running, 1 Successful, 2
/// Inconclusive, 3 Error, 4 Failed.
#[derive(Clone, Copy)]
pub struct ClosingColumns {
    pub closed: Option<Moment>,
    pub outside: u32,
    pub verdict: u32,
}

/// A run of a service: of the analysis at a step, or of the background (none).
#[derive(Clone, Copy)]
pub struct RunRow {
    pub service: Name,
    pub number: u32,
    pub step: Option<u32>,
    pub started: Moment,
    pub ending: ClosingColumns,
}

/// A measurement of a run: the place of its metric in the run, from 0, and its number for that
/// metric, from 1. The phase has its number, and the outcome is a result's text or `!` and a
/// failure's.
#[derive(Drop)]
pub struct MeasurementRow {
    pub service: Name,
    pub run: u32,
    pub metric: u32,
    pub ordinal: u32,
    pub taken: Moment,
    pub phase: u32,
    pub outcome: Text,
}

/// The counts of a metric's measurements in a run.
#[derive(Clone, Copy)]
pub struct TallyRow {
    pub service: Name,
    pub run: u32,
    pub metric: u32,
    pub counts: Tally,
}

/// A line of a service's history: its moment, and its words.
#[derive(Drop)]
pub struct HistoryRow {
    pub service: Name,
    pub moment: Moment,
    pub line: Text,
}
