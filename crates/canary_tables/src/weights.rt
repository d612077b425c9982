//! About how many bytes what a book keeps takes in memory.
ghost use Rattle.std.specs.Prelude.{◌≤◌, ◌+◌, ◌*◌, ◌-◌, ◌^◌, length, min};
ghost use Rattle.canary_canonical.specs.Texts.{command_text};

use canary_base::lists::{Listed, Text};
use canary_once::book::Receipt;
use canary_plan::bound::Bound;
use canary_plan::bound_analysis::BoundAnalysis;
use canary_plan::line::Line;
use canary_plan::template::Template;
use canary_plan::template_spec::MetricSpec;
use canary_release::runs::Runs;
use canary_release::service::{Service, ServiceParts};

/// A count of requests, with its caller's name.
pub(crate) const BYTES_OF_COUNT: u64 = 128;

// A history without its lines, and each line, with the room that its list may have for one more.
const BYTES_OF_HISTORY: u64 = 256;

const BYTES_OF_LINE: u64 = 192;

// A receipt without its texts.
const BYTES_OF_RECEIPT: u64 = 512;

// A service, and each step, metric and tally of it.
const BYTES_OF_SERVICE: u64 = 1024;

const BYTES_OF_STEP: u64 = 256;

const BYTES_OF_METRIC: u64 = 1024;

const BYTES_OF_TALLY: u64 = 64;

// A template, and each name of it that is to be dry-run; of each condition's byte the byte, and at
// most one part of a condition that has been read.
const BYTES_OF_TEMPLATE: u64 = 512;

const BYTES_OF_DRY_RUN: u64 = 128;

const BYTES_OF_CONDITION_BYTE: u64 = 48;

/// A receipt, with whose it is: the bytes of both of its texts at least.
pub(crate) fn bytes_of_receipt(receipt: &Receipt) -> u64
    ensures texts { min (length (command_text receipt.now.command)
        + length receipt.now.reply.body) (2 ^ 64 - 1) ≤ result }
{
    let command = receipt.command.text().len() as u64;
    let body = receipt.reply.body.as_str().len() as u64;
    BYTES_OF_RECEIPT
        .saturating_add(command)
        .saturating_add(body)
}

/// A history, with its service's name: so many bytes for each of its lines at least.
pub(crate) fn bytes_of_history(history: &Listed<Line>) -> u64
    ensures lines { min (BYTES_OF_LINE * length history.now) (2 ^ 64 - 1) ≤ result }
{
    let lines = BYTES_OF_LINE.saturating_mul(history.as_slice().len() as u64);
    BYTES_OF_HISTORY.saturating_add(lines)
}

/// A service, with its name. A metric counts as one with short conditions.
pub(crate) fn bytes_of_service(service: &Service) -> u64 {
    let ServiceParts { service, runs } = service.parts();
    let steps = BYTES_OF_STEP.saturating_mul(service.strategy.steps().len() as u64);
    let metrics = BYTES_OF_METRIC.saturating_mul(metrics_of(&service.bound));
    let tallies = BYTES_OF_TALLY.saturating_mul(tallies_of(runs));
    let parts = steps.saturating_add(metrics).saturating_add(tallies);
    BYTES_OF_SERVICE.saturating_add(parts)
}

// How many metrics are bound, in the background and in all steps.
fn metrics_of(bound: &Bound) -> u64 {
    let mut count = metrics_in(bound.analysis(None));
    for analysis in bound.steps() {
        count = count.saturating_add(metrics_in(analysis.as_ref()));
    }
    count
}

// How many metrics the analysis has; 0 if there is no analysis.
fn metrics_in(analysis: Option<&BoundAnalysis>) -> u64 {
    match analysis {
        Some(analysis) => analysis.metrics().len() as u64,
        None => 0,
    }
}

// How many tallies the open runs have.
fn tallies_of(runs: &Runs) -> u64 {
    let mut count: u64 = 0;
    for run in runs.open_runs.as_slice() {
        count = count.saturating_add(run.tallies.as_slice().len() as u64);
    }
    count
}

/// A template, with its name.
pub(crate) fn bytes_of_template(template: &Template) -> u64 {
    let dry_run = template.spec.dry_run.as_slice().len() as u64;
    let mut bytes = BYTES_OF_TEMPLATE.saturating_add(BYTES_OF_DRY_RUN.saturating_mul(dry_run));
    for metric in template.spec.metrics.as_slice() {
        bytes = bytes.saturating_add(bytes_of_metric(metric));
    }
    bytes
}

// A metric, with each byte of its two conditions.
fn bytes_of_metric(metric: &MetricSpec) -> u64 {
    let condition_bytes = length_of(&metric.success).saturating_add(length_of(&metric.failure));
    BYTES_OF_METRIC.saturating_add(BYTES_OF_CONDITION_BYTE.saturating_mul(condition_bytes))
}

// How many bytes the text has; 0 if there is no text.
fn length_of(text: &Option<Text>) -> u64 {
    match text {
        Some(text) => text.as_str().len() as u64,
        None => 0,
    }
}
