//! Members that Argo Rollouts does not know, as misspelt ones are.
use crate::json::is_any_of;
use crate::manifest_place::ManifestPlace;
use crate::work::Conversion;
use serde_json::Value;

// ---- the members that Argo Rollouts knows

/// Those of the `spec` of an AnalysisTemplate.
pub(crate) static TEMPLATE: [&str; 5] = [
    "metrics",
    "args",
    "dryRun",
    "measurementRetention",
    "templates",
];

/// Those of a metric, and `passAfter`, which the desk has beside them.
pub(crate) static METRIC: [&str; 12] = [
    "name",
    "provider",
    "interval",
    "initialDelay",
    "count",
    "successCondition",
    "failureCondition",
    "failureLimit",
    "inconclusiveLimit",
    "consecutiveErrorLimit",
    "consecutiveSuccessLimit",
    "passAfter",
];

/// Those of an argument, of a template or of an analysis.
pub(crate) static ARGUMENT: [&str; 3] = ["name", "value", "valueFrom"];

/// Those of the strategy of a Rollout.
pub(crate) static STRATEGY: [&str; 2] = ["canary", "blueGreen"];

/// Those of its canary.
pub(crate) static CANARY: [&str; 16] = [
    "steps",
    "analysis",
    "canaryService",
    "stableService",
    "canaryMetadata",
    "stableMetadata",
    "trafficRouting",
    "pingPong",
    "maxSurge",
    "maxUnavailable",
    "minPodsPerReplicaSet",
    "antiAffinity",
    "dynamicStableScale",
    "scaleDownDelaySeconds",
    "scaleDownDelayRevisionLimit",
    "abortScaleDownDelaySeconds",
];

// Those of a step.
static STEP: [&str; 8] = [
    "setWeight",
    "pause",
    "analysis",
    "experiment",
    "setCanaryScale",
    "setHeaderRoute",
    "setMirrorRoute",
    "plugin",
];

/// Those of a pause.
pub(crate) static PAUSE: [&str; 1] = ["duration"];

/// Those of the analysis of a step.
pub(crate) static ANALYSIS: [&str; 5] = [
    "templates",
    "args",
    "dryRun",
    "measurementRetention",
    "analysisRunMetadata",
];

/// Those of the analysis beside the steps.
pub(crate) static BACKGROUND: [&str; 6] = [
    "templates",
    "args",
    "dryRun",
    "measurementRetention",
    "analysisRunMetadata",
    "startingStep",
];

/// Those of an item of the `templates` of an analysis.
pub(crate) static NAMED: [&str; 2] = ["templateName", "clusterScope"];

// ---- what is warned of

const IGNORED: &str = "unknown field: it is ignored";

const UNKNOWN: &str = "unknown field";

// What is shown of an empty key.
const EMPTY: &str = "\"\"";

// What stands before the name that may be meant.
const MEANT: &str = "; did you mean ";

/// Warns of each member of an object that is not one of these. A value that is no object has no
/// members.
pub(crate) fn warn_of_others(
    work: &mut Conversion,
    place: ManifestPlace,
    value: &Value,
    known: &[&'static str],
) {
    warn_of_each(work, place, value, known, IGNORED);
}

/// Warns of each member of a step that Argo does not know. The check of the manifest finds it, too.
pub(crate) fn warn_of_others_of_step(work: &mut Conversion, place: ManifestPlace, step: &Value) {
    warn_of_each(work, place, step, &STEP, UNKNOWN);
}

// Warns in these words of each member that is not one of these.
fn warn_of_each(
    work: &mut Conversion,
    place: ManifestPlace,
    value: &Value,
    known: &[&'static str],
    what: &'static str,
) {
    let Some(members) = value.as_object() else {
        return;
    };
    for (key, _) in members.iter() {
        if !is_any_of(known, key.as_str()) {
            warn_of(work, place, key.as_str(), known, what);
        }
    }
}

// Warns of the member of that key, or only counts it. A known name that is like it is sought only
// if the warning is shown.
fn warn_of(
    work: &mut Conversion,
    place: ManifestPlace,
    key: &str,
    known: &[&'static str],
    what: &'static str,
) {
    if work.warnings.is_full() {
        return work.warnings.count();
    }
    let key = if key.is_empty() { EMPTY } else { key };
    match nearest(known, key) {
        Some(name) => work.warn(place, key, &[what, MEANT, name, "?"]),
        None => work.warn(place, key, &[what]),
    }
}

// ---- which name is meant

// The first of the names that is one letter away from the key, or else two letters.
fn nearest(known: &[&'static str], key: &str) -> Option<&'static str> {
    for name in known {
        if is_one_away(name.as_bytes(), key.as_bytes()) {
            return Some(*name);
        }
    }
    for name in known {
        if is_two_away(name.as_bytes(), key.as_bytes()) {
            return Some(*name);
        }
    }
    None
}

// Whether a text is another one, or becomes it if a byte is put in, taken out or changed.
fn is_one_away(left: &[u8], right: &[u8]) -> bool {
    let common = common_len(left, right);
    let (left, right) = (after(left, common), after(right, common));
    after(left, 1) == right || left == after(right, 1) || after(left, 1) == after(right, 1)
}

// The same of two bytes.
fn is_two_away(left: &[u8], right: &[u8]) -> bool {
    let common = common_len(left, right);
    let (left, right) = (after(left, common), after(right, common));
    is_one_away(after(left, 1), right)
        || is_one_away(left, after(right, 1))
        || is_one_away(after(left, 1), after(right, 1))
}

// How many bytes both texts begin with.
fn common_len(left: &[u8], right: &[u8]) -> usize {
    let mut count = 0_usize;
    for (one, other) in left.iter().zip(right.iter()) {
        if *one != *other {
            return count;
        }
        count = count.saturating_add(1);
    }
    count
}

// What follows so many bytes of a text, nothing if it has no more.
fn after(text: &[u8], count: usize) -> &[u8] {
    text.get(count..).unwrap_or(&[])
}
