//! A run as one sentence for people: whether it is open, and why it ended.
use canary_decimal::shown::Shown;
use serde_json::Value;
use std::alloc::{AllocError, Global};

/// The sentence of the reply to a query of a run; none if it is no such reply.
///
/// # Errors
/// `AllocError` if an allocation was refused.
pub fn run_line(alloc: Global, run: &Value) -> Result<Option<String>, AllocError> {
    let Some((service, number, verdict)) = parts_of(run) else {
        return Ok(None);
    };
    let Some(metrics) = run.get("metrics").and_then(Value::as_array) else {
        return Ok(None);
    };
    let mut line = format!(in alloc; "run {number} of {service} ")?;
    let is_open = run.get("closed").and_then(Value::as_u64).is_none();
    push_state(&mut line, is_open, verdict, metrics)?;
    Ok(Some(line))
}

// Appends whether a run is open, or how it ended and why.
fn push_state(
    line: &mut String,
    is_open: bool,
    verdict: &str,
    metrics: &Vec<Value>,
) -> Result<(), AllocError> {
    let measured: u64 = metrics.iter().fold(0, with_measurements);
    if is_open {
        return write!(line, "is open, with {measured} measurements");
    }
    write!(line, "ended {verdict}")?;
    if measured == 0 {
        return line.push_str(" without a measurement: nobody looked at this version");
    }
    push_reason(line, verdict, metrics, measured)
}

// The service, the number and the verdict in a run's reply; none if one is missing.
fn parts_of(run: &Value) -> Option<(&str, u64, &str)> {
    let service = run.get("service").and_then(Value::as_str)?;
    let number = run.get("run").and_then(Value::as_u64)?;
    let verdict = run.get("verdict").and_then(Value::as_str)?;
    Some((service, number, verdict))
}

// The sum and the measurements of one metric more, for `fold`.
fn with_measurements(sum: u64, metric: &Value) -> u64 {
    sum.saturating_add(count(metric, "measurements"))
}

// The number in this member of a metric, or 0 if it has no such number.
fn count(metric: &Value, member: &str) -> u64 {
    metric.get(member).and_then(Value::as_u64).unwrap_or(0)
}

// Appends which metric brought the verdict, or that all are well.
fn push_reason(
    line: &mut String,
    verdict: &str,
    metrics: &Vec<Value>,
    measured: u64,
) -> Result<(), AllocError> {
    for metric in metrics.iter() {
        let is_dry = metric
            .get("dryRun")
            .and_then(Value::as_bool)
            .unwrap_or(false);
        let phase = metric.get("phase").and_then(Value::as_str);
        if verdict != "Successful" && !is_dry && phase == Some(verdict) {
            return push_metric(line, verdict, metric);
        }
    }
    write!(line, ", by {measured} measurements")
}

// Appends what of a metric brought the verdict.
fn push_metric(line: &mut String, verdict: &str, metric: &Value) -> Result<(), AllocError> {
    let name = Shown::or_whole(metric.get("name").and_then(Value::as_str).unwrap_or("")).name;
    let (taken, bad) = (count(metric, "measurements"), bad(verdict, metric));
    match verdict {
        "Failed" => write!(line, ": of {name} {bad} of {taken} measurements failed"),
        "Inconclusive" => {
            write!(
                line,
                ": of {name} {bad} of {taken} measurements are inconclusive"
            )
        }
        _ => write!(
            line,
            ": of {name} the last {bad} of {taken} measurements are errors"
        ),
    }
}

// How many measurements of a metric are of the kind that brings this verdict.
fn bad(verdict: &str, metric: &Value) -> u64 {
    match verdict {
        "Failed" => count(metric, "failed"),
        "Inconclusive" => count(metric, "inconclusive"),
        _ => count(metric, "consecutive"),
    }
}
