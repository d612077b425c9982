//! Canonical texts that are written piece by piece: those of the commands that come often, but for
//! an entry of a list or a failure.
ghost use Rattle.std.specs.Prelude.{◌≡◌, ◌++◌, IsTrue, IfOk, codes, decimal, map, false, nat_le};
ghost use Rattle.std.specs.Prelude.{string_bytes};
ghost use Rattle.std.specs.Fmt.{signed_decimal};
ghost use Rattle.std.specs.List.{list_all};
ghost use Rattle.serde_json.specs.View.{items_of};
ghost use Rattle.serde_json.specs.Written.{comma_if, compact_text, items_text};
ghost use Rattle.canary_base.specs.Names.{is_name, is_label};
ghost use Rattle.canary_condition.specs.declared.outcome.Value.TheVariants.{Whole};
ghost use Rattle.canary_plan.specs.declared.command.Command.TheVariants as command_of;
ghost use Rattle.canary_canonical.specs.Texts.{measured, entry_data, command_text};
ghost use Rattle.canary_canonical.specs.Laws.{is_signed_word, keeps_entry, keeps_outcome};
ghost use Rattle.canary_canonical.specs.Laws.{keeps_report};

use crate::report::entry_value;
use canary_base::moments::Moment;
use canary_base::names::{Label, Name};
use canary_condition::outcome::{Outcome, Value as Measured};
use canary_plan::report::{Entry, Report};
use std::alloc::{AllocError, Global};

// Room for a report without its service's name and its entries, and for each entry. A longer text
// asks for more.
const ROOM: usize = 64;

const ROOM_OF_ENTRY: usize = 80;

// What ends the text of a command after the name of its service.
const END: &str = "\"}}";

/// A command on a service alone in JSON, whose text begins with this front.
pub(crate) fn named_text(alloc: Global, front: &str, service: &Name) -> Result<String, AllocError>
    ensures value { IfOk result (λ text. string_bytes text
        ≡ front.now ++ (service.now ++ codes "\"}}")) }
    ensures kept { IfOk result (λ _. IsTrue (is_name service.now)) }
{
    let name = service.as_str();
    let room = front
        .len()
        .saturating_add(name.len())
        .saturating_add(END.len());
    let text = String::with_capacity(alloc, room)?;
    let text = with(text, front)?;
    let text = with(text, name)?;
    with(text, END)
}

/// A report's command in JSON.
#[tactic(auto, unfolding(crate::specs::Laws::keeps_report))]
pub(crate) fn report_text(alloc: Global, report: &Report) -> Result<String, AllocError>
    ensures value { IfOk result (λ text. string_bytes text
        ≡ command_text (command_of.Report report.now)) }
    ensures kept { IfOk result (λ _. IsTrue (keeps_report report.now)) }
{
    let entries = report.entries.as_slice();
    let text = begun_text(alloc, report)?;
    let text = with_entries(text, alloc, entries)?;
    with_end(text, report.run, &report.service)
}

// The text of a report up to its entries.
fn begun_text(alloc: Global, report: &Report) -> Result<String, AllocError>
    ensures { IfOk result (λ text. string_bytes text ≡ codes "{\"report\":{\"entries\":[") }
{
    let text = String::with_capacity(alloc, room_for(report))?;
    with(text, "{\"report\":{\"entries\":[")
}

// About how many bytes the text of a report has.
fn room_for(report: &Report) -> usize {
    let entries = ROOM_OF_ENTRY.saturating_mul(report.entries.as_slice().len());
    let name = report.service.as_str().len();
    ROOM.saturating_add(name).saturating_add(entries)
}

// The run and the service of a report after its entries.
fn with_end(text: String, run: u32, service: &Name) -> Result<String, AllocError>
    ensures value { IfOk result (λ all. string_bytes all ≡ string_bytes text
        ++ (codes ",\"run\":" ++ (decimal run
        ++ (codes ",\"service\":\"" ++ (service.now ++ codes "\"}}"))))) }
    ensures kept { IfOk result (λ _. IsTrue (is_name service.now)) }
{
    let text = with(text, ",\"run\":")?;
    let text = with(text, itoa::Buffer::new().format(run))?;
    let text = with(text, ",\"service\":\"")?;
    let text = with(text, service.as_str())?;
    with(text, END)
}

// With the entries, and the bracket after them.
fn with_entries(text: String, alloc: Global, entries: &[Entry]) -> Result<String, AllocError>
    ensures value { IfOk result (λ all. string_bytes all ≡ string_bytes text
        ++ items_text false (items_of (map entry_data entries.now))) }
    ensures kept { IfOk result (λ _. IsTrue (list_all keeps_entry entries.now)) }
{
    let mut all = text;
    for (i, entry) in entries.iter().enumerate() {
        all = with_entry(all, alloc, i > 0, entry)?;
    }
    with(all, "]")
}

// With one more entry, after a comma if it is not the first.
#[tactic(auto, unfolding(crate::specs::Texts::entry_data, crate::specs::Laws::keeps_entry))]
fn with_entry(text: String, alloc: Global, later: bool, entry: &Entry) -> Result<String, AllocError>
    ensures value { IfOk result (λ all. string_bytes all
        ≡ string_bytes text ++ (comma_if later ++ compact_text (entry_data entry.now))) }
    ensures kept { IfOk result (λ _. IsTrue (keeps_entry entry.now)) }
{
    let text = with_comma(text, later)?;
    match &entry.outcome {
        Outcome::Result(Measured::Whole(number)) => with_whole(text, entry, *number),
        _ => with_value(text, alloc, entry),
    }
}

// With a comma after it if `later`, that is, if an item of the list comes before.
fn with_comma(text: String, later: bool) -> Result<String, AllocError>
    ensures { IfOk result (λ all. string_bytes all ≡ string_bytes text ++ comma_if later) }
{
    if later {
        with(text, ",")
    } else {
        with(text, "")
    }
}

// With an entry by its value in JSON.
fn with_value(text: String, alloc: Global, entry: &Entry) -> Result<String, AllocError>
    ensures value { IfOk result (λ all. string_bytes all
        ≡ string_bytes text ++ compact_text (entry_data entry.now)) }
    ensures kept { IfOk result (λ _. IsTrue (keeps_entry entry.now)) }
{
    let words = entry_words(alloc, entry)?;
    with(text, words.as_str())
}

// An entry in JSON, by its value.
fn entry_words(alloc: Global, entry: &Entry) -> Result<String, AllocError>
    ensures value { IfOk result (λ words. string_bytes words
        ≡ compact_text (entry_data entry.now)) }
    ensures kept { IfOk result (λ _. IsTrue (keeps_entry entry.now)) }
{
    let value = entry_value(alloc, entry)?;
    value.to_string(alloc)
}

// With an entry, with this whole number as its result.
#[tactic(auto, unfolding(crate::specs::Laws::keeps_outcome))]
fn with_whole(text: String, entry: &Entry, number: i64) -> Result<String, AllocError>
    ensures value { IfOk result (λ all. string_bytes all ≡ string_bytes text
        ++ compact_text (measured entry.now.metric entry.now.ordinal entry.now.taken
        (Whole number))) }
    ensures metric { IfOk result (λ _. IsTrue (is_label entry.now.metric)) }
    ensures taken { IfOk result (λ _. IsTrue (nat_le entry.now.taken 253370764799)) }
    ensures kept { IfOk result (λ _. IsTrue (keeps_outcome (Outcome.Result (Whole number)))) }
{
    let text = with_metric(text, &entry.metric, entry.ordinal)?;
    with_result(text, number, entry.taken)
}

// With the front of an entry, up to its result.
fn with_metric(text: String, metric: &Label, ordinal: u32) -> Result<String, AllocError>
    ensures value { IfOk result (λ all. string_bytes all ≡ string_bytes text
        ++ (codes "{\"metric\":\"" ++ (metric.now
        ++ (codes "\",\"ordinal\":" ++ (decimal ordinal ++ codes ",\"result\":"))))) }
    ensures kept { IfOk result (λ _. IsTrue (is_label metric.now)) }
{
    let text = with(text, "{\"metric\":\"")?;
    let text = with(text, metric.as_str())?;
    let text = with(text, "\",\"ordinal\":")?;
    let text = with(text, itoa::Buffer::new().format(ordinal))?;
    with(text, ",\"result\":")
}

// With the result of an entry, and its moment.
fn with_result(text: String, number: i64, taken: Moment) -> Result<String, AllocError>
    ensures value { IfOk result (λ all. string_bytes all ≡ string_bytes text
        ++ (signed_decimal number ++ (codes ",\"taken\":" ++ (decimal taken ++ codes "}")))) }
    ensures taken { IfOk result (λ _. IsTrue (nat_le taken 253370764799)) }
    ensures kept { IfOk result (λ _. IsTrue (is_signed_word number)) }
{
    let text = with(text, itoa::Buffer::new().format(number))?;
    let text = with(text, ",\"taken\":")?;
    let text = with(text, itoa::Buffer::new().format(taken.get()))?;
    with(text, "}")
}

// With these words after it.
fn with(text: String, words: &str) -> Result<String, AllocError>
    ensures { IfOk result (λ all. string_bytes all ≡ string_bytes text ++ words.now) }
{
    let mut all = text;
    all.push_str(words)?;
    Ok(all)
}
