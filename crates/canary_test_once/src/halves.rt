//! The calls that no program makes: each is the other half of one that the programs call, or one
//! reader among those of a type.

use crate::rows::{check, is_right};
use canary_base::lists::Text;
use canary_base::moments::Moment;
use canary_condition::condition::ConditionFault;
use canary_condition::explanation::explain;
use canary_condition::outcome::Phase;
use canary_metric::measurement::Measurement;
use canary_metric::tally::{Tally, recount};
use std::alloc::Global;

// Whether the phases have the numbers from 0 on, and no phase has the next one.
fn are_phases() -> bool {
    let mut number = 0;
    for word in "Running Successful Inconclusive Error Failed".split(' ') {
        if Phase::of_number(number) != Phase::read(word) {
            return false;
        }
        number = number.saturating_add(1);
    }
    number == 5 && Phase::of_number(5).is_none()
}

// Whether a text that is no condition has this fault.
fn has_fault(text: &str, fault: ConditionFault) -> bool {
    match explain(text) {
        Some(found) => found.why.fault() == fault,
        None => false,
    }
}

fn are_faults() -> bool {
    explain("result > 1").is_none()
        && has_fault("result >", ConditionFault::Syntax)
        && has_fault("result > 1 $", ConditionFault::Syntax)
        && has_fault("result > 9223372036854775808", ConditionFault::NumberRange)
        && has_fault(
            "(((((((((((((((((((((((((((((((((result > 1)))))))))))))))))))))))))))))))))",
            ConditionFault::TooDeep,
        )
}

// Whether a success and then two errors in a row are counted so.
fn are_tallies() -> Option<bool> {
    let list = [
        Measurement::new(Moment::new(1)?, Phase::Successful),
        Measurement::new(Moment::new(2)?, Phase::Error),
        Measurement::new(Moment::new(9)?, Phase::Error),
    ];
    let counts = Tally::from_counts(1, 0, 0, 2, 2, 0, Moment::new(9))?;
    let are_none = recount(&[]) == Tally::default() && Tally::default().measurements() == 0;
    Some(are_none && recount(&list) == counts)
}

// None if memory was refused.
fn is_handed_on(alloc: Global) -> Option<bool> {
    let text = Text::of(String::from_str(alloc, "web").ok()?);
    Some(text.into_string().as_str() == "web")
}

#[test]
fn other_halves(rt: HostRuntime) {
    let alloc = rt.alloc();
    check(&rt, are_phases(), "phases");
    check(&rt, are_faults(), "faults");
    check(&rt, are_tallies() == Some(true), "tallies");
    check(
        &rt,
        is_right(is_handed_on(alloc), is_handed_on(alloc)),
        "a text",
    );
}
