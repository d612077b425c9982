//! Reports of one measurement.
ghost use Rattle.std.specs.Prelude.{◌≤◌, IfOk};
ghost use Rattle.canary_client_journal.specs.Networks.{GoesOn};
ghost use Rattle.canary_client.specs.Promises.{IsQuery};

use crate::outcome::Stop;
use crate::query::value_at;
use canary_base::lists::Text;
use canary_base::names::{Label, Name};
use canary_canonical::plain::MAX_ORDINAL;
use canary_client_journal::network::Network;
use serde_json::Value;
use std::alloc::{AllocError, Global};

/// A measurement as it is asked for: its ordinal and its moment are not known yet.
#[derive(Drop)]
pub struct NewMeasurement {
    /// The service.
    pub service: Name,
    /// The number of the run.
    pub run: u32,
    /// The metric.
    pub metric: Label,
    /// The member of the outcome: `"result":RESULT`, or `"failure":TEXT`.
    pub outcome: Text,
}

/// The body of a report of a measurement with this ordinal, taken at this moment, in seconds since
/// 1970-01-01T00:00:00Z.
///
/// # Errors
/// `AllocError` if an allocation was refused.
pub fn report_body(
    alloc: Global,
    measured: &NewMeasurement,
    ordinal: u32,
    taken: u64,
) -> Result<Text, AllocError> {
    let (metric, outcome) = (measured.metric.as_str(), measured.outcome.as_str());
    let entry = format!(in alloc;
        "{{\"metric\":\"{metric}\",\"ordinal\":{ordinal},\"taken\":{taken},{outcome}}}"
    )?;
    let (entry, run) = (entry.as_str(), measured.run);
    let service = measured.service.as_str();
    Ok(Text::of(format!(in alloc;
        "{{\"report\":{{\"entries\":[{entry}],\"run\":{run},\"service\":\"{service}\"}}}}"
    )?))
}

/// The ordinal that comes next of a measurement's metric: one more than its run has measurements.
///
/// # Errors
/// `NoService`, `NoRun` and `NoMetric` if there is none; `NoDesk` if the desk did not answer,
/// `Query` if it refused the query, `ReplyUnread` if its reply cannot be read or no ordinal is
/// left; `Memory`.
pub fn next_ordinal<N: Network>(
    alloc: Global,
    network: &mut N,
    measured: &NewMeasurement,
    tries: u32,
) -> Result<u32, Stop>
    ensures within { IfOk result (λ ordinal. (1 ≤ ordinal) × (ordinal ≤ 1000000000)) }
    ensures sends { GoesOn N.was_sent N.was_told N.was_unanswered
        network.old network.new IsQuery }
{
    let (service, run) = (measured.service.as_str(), measured.run);
    let path = format!(in alloc; "/services/{service}/runs/{run}")?;
    let found = value_at(alloc, network, path.as_str(), tries)?;
    ordinal_after(measurements(&found, measured.metric.as_str())?)
}

// The ordinal that comes after so many measurements.
fn ordinal_after(count: u64) -> Result<u32, Stop>
    ensures { IfOk result (λ ordinal. (1 ≤ ordinal) × (ordinal ≤ 1000000000)) }
{
    if count >= MAX_ORDINAL as u64 {
        return Err(Stop::ReplyUnread);
    }
    Ok(count as u32 + 1)
}

// How many measurements a run has of a metric; `NoMetric` if it has no such metric.
fn measurements(run: &Value, metric: &str) -> Result<u64, Stop> {
    let Some(metrics) = run.get("metrics").and_then(Value::as_array) else {
        return Err(Stop::ReplyUnread);
    };
    for found in metrics.iter() {
        if found.get("name").and_then(Value::as_str) == Some(metric) {
            let count = found.get("measurements").and_then(Value::as_u64);
            return count.ok_or(Stop::ReplyUnread);
        }
    }
    Err(Stop::NoMetric)
}
