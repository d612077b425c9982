//! What the desk takes, though it may be meant otherwise.
use crate::json_place::JsonPlace;
use crate::lines::Lines;
use crate::template::metric_place;
use canary_base::error::Memory;
use canary_canonical::form::FormFault;
use canary_manifest::member::{condition_at, member_of};
use serde_json::Value;
use std::alloc::Global;

const UNCONDITIONAL: &str = "no condition, so each result is Successful";

// The most bytes of a request's body.
const MAX_BODY_BYTES: usize = 65_536;

/// Warns of an AnalysisTemplate.
pub(crate) fn warn_of_template(lines: &mut Lines, place: JsonPlace, manifest: &Value) {
    let metrics = member_of(manifest, "spec").and_then(|spec| member_of(spec, "metrics"));
    match metrics.and_then(|metrics| metrics.as_array()) {
        Some(list) => warn_of_metrics(lines, place.member("spec"), list),
        None => {}
    }
}

// Warns of each metric of the list that has no condition.
fn warn_of_metrics(lines: &mut Lines, spec: JsonPlace, list: &Vec<Value>) {
    for (index, metric) in list.iter().enumerate() {
        let has_none = has_no_condition(lines.alloc, metric);
        if lines.holds(has_none) {
            lines.warn(metric_place(spec, index, metric), "", UNCONDITIONAL);
        }
    }
}

// Whether it is a metric without a condition.
fn has_no_condition(alloc: Global, metric: &Value) -> Result<bool, Memory> {
    Ok(
        metric.is_object()
            && is_absent(alloc, metric, "successCondition")?
            && is_absent(alloc, metric, "failureCondition")?,
    )
}

// Whether the condition under that key is absent, null or empty; an unreadable one is not.
fn is_absent(alloc: Global, metric: &Value, key: &str) -> Result<bool, Memory> {
    match condition_at(alloc, metric, key) {
        Ok(condition) => Ok(condition.is_none()),
        Err(FormFault::Unreadable) => Ok(false),
        Err(FormFault::Memory) => Err(Memory),
    }
}

/// Warns of a text of so many bytes that no request can have it in its body.
pub(crate) fn warn_of_length(lines: &mut Lines, whole: &str, len: usize) {
    if len > MAX_BODY_BYTES {
        let what = words_on_length(lines.alloc, len);
        lines.warn_made(JsonPlace::at(whole), "", what);
    }
}

// What is warned of so many bytes.
fn words_on_length(alloc: Global, len: usize) -> Result<String, Memory> {
    Ok(format!(in alloc; "{len} bytes, and the body of a request has at most 65,536")?)
}
