//! Why a command is refused.
ghost use Rattle.std.specs.Prelude.{◌≡◌, Some};
ghost use Rattle.canary_plan.specs.Refusals.{code_of};

use std::error::Error;
use std::fmt;

/// Why a command is refused, in the order in which the reasons are looked at. A refused command
/// leaves the desk as it was, and its refusal is kept as its reply. `at` is the place of a report's
/// entry, from 0.
#[derive(Clone, Copy, Debug, PartialEq, Eq)]
pub enum Refusal {
    /// There is no such service.
    UnknownService,
    /// The service's name is taken.
    ServiceExists,
    /// A condition of the template has no reading.
    BadCondition,
    /// A metric of the template has a count above 1 and no interval.
    IntervalNeeded,
    /// Two metrics of the template, or of one analysis, have one name.
    DuplicateMetric,
    /// A name that is to be dry-run is no metric of the template.
    BadDryRun,
    /// A template of an analysis is not there.
    UnknownTemplate,
    /// A metric of a step's analysis would be measured for ever.
    EndlessMetric,
    /// More than 64 steps, a weight above 100, an analysis with no template or more than 8, or with
    /// more than 32 metrics.
    BadStrategy,
    /// A release is in progress.
    InProgress,
    /// The service is healthy, and the version is its stable one.
    AlreadyStable,
    /// No release is in progress.
    NotInProgress,
    /// The release is not paused.
    NotPaused,
    /// The release is not aborted.
    NotAborted,
    /// Fewer than 66 numbers of runs are left, which is the most that an attempt may take.
    RunsSpent,
    /// The service has had no run of that number.
    UnknownRun,
    /// The run is not open.
    RunClosed,
    /// The run has no such metric.
    UnknownMetric { at: u32 },
    /// An entry before names the same metric.
    RepeatedMetric { at: u32 },
    /// The metric is completed.
    MetricClosed { at: u32 },
    /// A measurement of that ordinal is recorded.
    AlreadyRecorded { at: u32 },
    /// The ordinal is above the next one, `expected`.
    OutOfTurn { at: u32, expected: u32 },
    /// The metric has 1,000,000 measurements in the run.
    Spent { at: u32 },
    /// The measurement was taken after the moment at which the report is judged.
    Future { at: u32 },
    /// The measurement was taken before it is due, at `due`, in seconds from 1970.
    TooEarly { at: u32, due: u64 },
    /// The newest revision of the template has the greatest number, 1,000,000.
    RevisionsSpent,
}

impl Refusal {
    /// Its code in a reply.
    pub fn code(self) -> &'static str
        ensures { result.now ≡ code_of self }
    {
        match self {
            Refusal::UnknownService => "unknown-service",
            Refusal::ServiceExists => "service-exists",
            Refusal::BadCondition => "bad-condition",
            Refusal::IntervalNeeded => "interval-needed",
            Refusal::DuplicateMetric => "duplicate-metric",
            Refusal::BadDryRun => "bad-dry-run",
            Refusal::UnknownTemplate => "unknown-template",
            Refusal::EndlessMetric => "endless-metric",
            Refusal::BadStrategy => "bad-strategy",
            Refusal::InProgress => "in-progress",
            Refusal::AlreadyStable => "already-stable",
            Refusal::NotInProgress => "not-in-progress",
            Refusal::NotPaused => "not-paused",
            Refusal::NotAborted => "not-aborted",
            Refusal::RunsSpent => "runs-spent",
            Refusal::UnknownRun => "unknown-run",
            Refusal::RunClosed => "run-closed",
            Refusal::UnknownMetric { .. } => "unknown-metric",
            Refusal::RepeatedMetric { .. } => "repeated-metric",
            Refusal::MetricClosed { .. } => "metric-closed",
            Refusal::AlreadyRecorded { .. } => "recorded",
            Refusal::OutOfTurn { .. } => "out-of-turn",
            Refusal::Spent { .. } => "spent",
            Refusal::Future { .. } => "future",
            Refusal::TooEarly { .. } => "too-early",
            Refusal::RevisionsSpent => "revisions-spent",
        }
    }
}

impl fmt::Display for Refusal {
    ghost output = { λ refusal. Some (code_of refusal) };

    // Writes the refusal's code, without the numbers that it may have.
    fn fmt<W: fmt::Write>(&self, f: &mut fmt::Formatter<W>) -> fmt::Result {
        f.write_str(self.code())
    }
}

impl Error for Refusal {}
