//! What is printed of faults, and of names if a program is looked into.
use crate::rows::{check, is_right, says};
use canary_base::names::{Label, Name};
use canary_canonical::form::FormFault;
use canary_condition::condition::ConditionFault;
use canary_files::export::ExportFault;
use canary_files::import::ImportFault;
use canary_manifest::command::WireFault;
use canary_once::book::BookFault;
use canary_plan::fault::{BindFault, CheckFault};
use canary_plan::refusal::Refusal;
use canary_release::parts::PartsFault;
use canary_wire::serve::ServeFault;
use std::alloc::Global;

/// What is printed of each value of `is_said` and `is_said_of_a_file`, in their order.
const WORDS: &str = "\
not a condition
more than 32 round brackets open at one place
a number outside a signed 64-bit number
out of memory
more than 1,024 bytes
the value has another form
out of memory
the strategy is refused: bad-strategy
out of memory
the template is refused: bad-condition
out of memory
the parts make no service
out of memory
the store failed
the body is no command
the body asks for what the desk does not do
out of memory
the input could not be read
the output could not be written
out of memory
the input could not be read
the output could not be written
out of memory
the first record is not the header
the file has too many rows
out of memory
the store failed
the output could not be written
too many measurements
unknown service";

/// Whether a value is printed so.
fn is_said(alloc: Global, value: usize, words: &str) -> Option<bool> {
    match value {
        0 => says(alloc, &ConditionFault::Syntax, words),
        1 => says(alloc, &ConditionFault::TooDeep, words),
        2 => says(alloc, &ConditionFault::NumberRange, words),
        3 => says(alloc, &ConditionFault::Memory, words),
        4 => says(alloc, &ConditionFault::TooLong, words),
        5 => says(alloc, &FormFault::Unreadable, words),
        6 => says(alloc, &FormFault::Memory, words),
        7 => says(alloc, &CheckFault::Refused(Refusal::BadStrategy), words),
        8 => says(alloc, &CheckFault::Memory, words),
        9 => says(alloc, &BindFault::Refused(Refusal::BadCondition), words),
        10 => says(alloc, &BindFault::Memory, words),
        11 => says(alloc, &PartsFault::Broken, words),
        12 => says(alloc, &BookFault::Memory, words),
        13 => says(alloc, &BookFault::Storage, words),
        14 => says(alloc, &WireFault::Unreadable, words),
        15 => says(alloc, &WireFault::Unsupported, words),
        16 => says(alloc, &WireFault::Memory, words),
        17 => says(alloc, &ServeFault::Read, words),
        18 => says(alloc, &ServeFault::Write, words),
        19 => says(alloc, &ServeFault::Memory, words),
        _ => is_said_of_a_file(alloc, value, words),
    }
}

fn is_said_of_a_file(alloc: Global, value: usize, words: &str) -> Option<bool> {
    match value {
        20 => says(alloc, &ImportFault::Read, words),
        21 => says(alloc, &ImportFault::Write, words),
        22 => says(alloc, &ImportFault::Memory, words),
        23 => says(alloc, &ImportFault::Header, words),
        24 => says(alloc, &ImportFault::RowsSpent, words),
        25 => says(alloc, &ExportFault::Memory, words),
        26 => says(alloc, &ExportFault::Storage, words),
        27 => says(alloc, &ExportFault::Write, words),
        28 => says(alloc, &ExportFault::TooMany, words),
        _ => says(alloc, &ExportFault::UnknownService, words),
    }
}

// Whether names show as texts in quotes; none if memory was refused.
fn are_shown(alloc: Global) -> Option<bool> {
    let name = Name::read("web-2".as_bytes())?;
    let label = Label::read("V1.2".as_bytes())?;
    let shown = format!(in alloc; "{name:?} {label:?}").ok()?;
    Some(shown.as_str() == "\"web-2\" \"V1.2\"")
}

#[test]
fn words_are_printed(rt: HostRuntime) {
    let alloc = rt.alloc();
    for (value, words) in WORDS.lines().enumerate() {
        let first = is_said(alloc, value, words);
        check(&rt, is_right(first, is_said(alloc, value, words)), words);
    }
    check(&rt, is_right(are_shown(alloc), are_shown(alloc)), "names");
}
