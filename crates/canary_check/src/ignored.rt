//! Members of a Rollout that the desk ignores, though they change in Argo Rollouts what becomes of
//! a release. docs/API.md has the whole list, and which of them do no harm.
use crate::json_place::JsonPlace;
use crate::lines::Lines;
use canary_manifest::member::{is_true, member_of};
use canary_manifest::rollout::canary_of;
use serde_json::Value;

// When a member means something.
enum When {
    // Whatever it holds.
    Given,
    // If it is true.
    True,
    // If it is another number than this.
    Not(u64),
}

// A member under this key of an object, when it means something, and what to do in its place.
struct Ignored {
    key: &'static str,
    when: When,
    instead: &'static str,
}

const SPEC: [Ignored; 4] = [
    Ignored {
        key: "minReadySeconds",
        when: When::Not(0),
        instead: "the desk ignores it, and waits for no pods: \
            put a pause before the first analysis, or start once the pods are ready",
    },
    Ignored {
        key: "progressDeadlineSeconds",
        when: When::Given,
        instead: "the desk ignores it, and has no deadline: \
            have a job look for late measurements, and abort",
    },
    Ignored {
        key: "progressDeadlineAbort",
        when: When::True,
        instead: "the desk ignores it, and no deadline aborts: \
            have a job look for late measurements, and abort",
    },
    Ignored {
        key: "rollbackWindow",
        when: When::Given,
        instead: "the desk ignores it, and skips no step: \
            to go back, start the old version, and promote it in full",
    },
];

const CANARY: [Ignored; 3] = [
    Ignored {
        key: "scaleDownDelaySeconds",
        when: When::Not(0),
        instead: "the desk ignores it, and scales no pods: \
            keep those of the old version so long after a release",
    },
    Ignored {
        key: "abortScaleDownDelaySeconds",
        when: When::Given,
        instead: "the desk ignores it, and scales no pods: \
            keep those of the new version so long after an abort",
    },
    Ignored {
        key: "dynamicStableScale",
        when: When::True,
        instead: "the desk ignores it, and an abort sets weight 0 at once: \
            keep the pods of the stable version until a release is done",
    },
];

const ROUTING: [Ignored; 1] = [Ignored {
    key: "maxTrafficWeight",
    when: When::Not(100),
    instead: "the desk ignores it, and weights are percent: write each setWeight as a part of 100",
}];

/// Warns of each such member of the Rollout there.
pub(crate) fn warn_of_ignored(lines: &mut Lines, place: JsonPlace, manifest: &Value) {
    if let Some(spec) = member_of(manifest, "spec") {
        warn_of_each(lines, place.member("spec"), spec, &SPEC);
    }
    match canary_of(manifest) {
        Some(canary) => {
            let place = place.member("spec.strategy.canary");
            warn_of_each(lines, place, canary, &CANARY);
            warn_of_routing(lines, place, canary)
        }
        None => {}
    }
}

// Warns of such members in the `trafficRouting` of a canary strategy, if it has one.
fn warn_of_routing(lines: &mut Lines, canary_place: JsonPlace, canary: &Value) {
    match member_of(canary, "trafficRouting") {
        Some(routing) => {
            let place = canary_place.member("trafficRouting");
            warn_of_each(lines, place, routing, &ROUTING)
        }
        None => {}
    }
}

// Warns of each of these members that the object has, if what it holds means something.
fn warn_of_each(lines: &mut Lines, place: JsonPlace, value: &Value, known: &[Ignored]) {
    for ignored in known {
        if member_of(value, ignored.key).is_some_and(|held| ignored.when.is_met(held)) {
            lines.warn(place, ignored.key, ignored.instead);
        }
    }
}

impl When {
    // Whether a member that holds this means something.
    fn is_met(&self, held: &Value) -> bool {
        match self {
            When::Given => true,
            When::True => is_true(held),
            When::Not(number) => held.as_u64() != Some(*number),
        }
    }
}
