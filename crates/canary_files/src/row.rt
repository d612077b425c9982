//! Rows of a measurement file.
ghost use Rattle.std.specs.Prelude.{◌≡◌, MatchOption, true, false};
ghost use Rattle.std.specs.Str.{is_utf8};
ghost use Rattle.csv.specs.Records.{fields_of};
ghost use Rattle.canary_canonical.specs.Reads.{IsRead};
ghost use Rattle.canary_canonical.specs.Readings.{entry_of, report_with};
ghost use Rattle.canary_files.specs.RowReads.{IsRowRead};
ghost use Rattle.canary_files.specs.Rows.{is_header, says_who, says_where, says_what, is_at};
ghost use Rattle.canary_files.specs.Rows.{field, result_in, whole_in, word_in, moment_in};
ghost use Rattle.canary_files.specs.Rows.{number_in, failure_in, outcome_in, entry_in};
ghost use Rattle.canary_files.specs.Rows.{entries_in, report_of, row_of};

use canary_base::lists::{Listed, Text};
use canary_base::moments::Moment;
use canary_base::names::{Label, Name};
use canary_base::numbers::Number;
use canary_canonical::form::FormFault;
use canary_canonical::plain::{MAX_ORDINAL, MAX_RUN};
use canary_condition::outcome::{FailureText, Outcome, Value};
use canary_plan::report::{Entry, Report};
use csv::ByteRecord;
use std::alloc::Global;
use std::str;

// How many fields a row has.
const FIELDS: usize = 9;

/// Why a row is refused before the register is asked.
#[derive(Clone, Copy, Debug, PartialEq, Eq)]
pub enum RowRefusal {
    /// It has not nine fields, or a field after the number does not say what it is to say.
    Unreadable,
    /// The caller is an invalid name.
    BadName,
    /// The number is an invalid number of a request.
    BadNumber,
}

/// The request that a row is.
#[derive(Drop)]
pub struct Row {
    /// The caller.
    pub caller: Name,
    /// The number.
    pub number: Number,
    /// The report.
    pub report: Report,
}

/// Why no row was read.
#[derive(Clone, Copy, Debug, PartialEq, Eq)]
pub enum CsvFault {
    /// It is refused.
    Refused(RowRefusal),
    /// An allocation was refused.
    Memory,
}

/// The request that a row is, or the first reason to refuse it.
pub fn row_of(alloc: Global, fields: &ByteRecord) -> Result<Row, CsvFault>
    ensures { IsRowRead (row_of (fields_of fields.now)) result }
{
    if fields.len() != FIELDS {
        return Err(CsvFault::Refused(RowRefusal::Unreadable));
    }
    let Some(caller) = Name::read(field(fields, 0)) else {
        return Err(CsvFault::Refused(RowRefusal::BadName));
    };
    let Some(number) = number_in(field(fields, 1)) else {
        return Err(CsvFault::Refused(RowRefusal::BadNumber));
    };
    match report_of(alloc, fields) {
        Ok(report) => Ok(Row {
            caller,
            number,
            report,
        }),
        Err(FormFault::Unreadable) => Err(CsvFault::Refused(RowRefusal::Unreadable)),
        Err(FormFault::Memory) => Err(CsvFault::Memory),
    }
}

// The field at a place, from 0, or no bytes.
fn field(fields: &ByteRecord, place: usize) -> &[u8]
    ensures { result.now ≡ field (fields_of fields.now) place }
{
    fields.get(place).unwrap_or(&[])
}

// The report of one entry that a row asks for; `Unreadable` if a field of it is invalid.
#[tactic(auto, unfolding(crate::specs::Rows::report_of))]
fn report_of(alloc: Global, fields: &ByteRecord) -> Result<Report, FormFault>
    ensures { IsRead (report_of (fields_of fields.now)) result }
{
    let service = Name::read(field(fields, 2)).ok_or(FormFault::Unreadable)?;
    let run = word_in(field(fields, 3)).ok_or(FormFault::Unreadable)?;
    let entries = entries_in(alloc, fields)?;
    report_with(service, run, entries).ok_or(FormFault::Unreadable)
}

// The list of the one entry of a row.
fn entries_in(alloc: Global, fields: &ByteRecord) -> Result<Listed<Entry>, FormFault>
    ensures { IsRead (entries_in (fields_of fields.now)) result }
{
    let entry = entry_in(alloc, fields)?;
    let mut entries = Listed::of(Vec::new(alloc));
    entries.push(entry)?;
    Ok(entries)
}

// The report, if its run and the number of its entries keep their limits.
fn report_with(service: Name, run: u32, entries: Listed<Entry>) -> Option<Report>
    ensures { result ≡ report_with service run entries }
{
    let count = entries.as_slice().len();
    let is_within = 1 <= run && run <= MAX_RUN && 1 <= count && count <= 32;
    if !is_within {
        return None;
    }
    Some(Report {
        service,
        run,
        entries,
    })
}

// The entry in the last five fields of a row; `Unreadable` if one of them is invalid.
fn entry_in(alloc: Global, fields: &ByteRecord) -> Result<Entry, FormFault>
    ensures { IsRead (entry_in (fields_of fields.now)) result }
{
    let metric = Label::read(field(fields, 4)).ok_or(FormFault::Unreadable)?;
    let ordinal = word_in(field(fields, 5)).ok_or(FormFault::Unreadable)?;
    let taken = moment_in(field(fields, 6)).ok_or(FormFault::Unreadable)?;
    let outcome = outcome_in(alloc, field(fields, 7), field(fields, 8))?;
    entry_of(metric, ordinal, taken, outcome).ok_or(FormFault::Unreadable)
}

// The entry, if its ordinal keeps its limits.
fn entry_of(metric: Label, ordinal: u32, taken: Moment, outcome: Outcome) -> Option<Entry>
    ensures { result ≡ entry_of metric ordinal taken outcome }
{
    let is_within = 1 <= ordinal && ordinal <= MAX_ORDINAL;
    if !is_within {
        return None;
    }
    Some(Entry {
        metric,
        ordinal,
        taken,
        outcome,
    })
}

// What was measured, as one of the two fields says, the other one being empty.
fn outcome_in(alloc: Global, brought: &[u8], failed: &[u8]) -> Result<Outcome, FormFault>
    ensures { IsRead (outcome_in brought.now failed.now) result }
{
    if failed.is_empty() {
        let value = result_in(brought).ok_or(FormFault::Unreadable)?;
        return Ok(Outcome::Result(value));
    }
    if brought.is_empty() {
        return failure_in(alloc, failed);
    }
    Err(FormFault::Unreadable)
}

// The failure that these bytes are; `Unreadable` unless they are text of 1 to 200 bytes.
fn failure_in(alloc: Global, bytes: &[u8]) -> Result<Outcome, FormFault>
    ensures { IsRead (failure_in bytes.now) result }
{
    let text = text_of(bytes).ok_or(FormFault::Unreadable)?;
    let text = Text::of(String::from_str(alloc, text)?);
    let failure = FailureText::of(text).ok_or(FormFault::Unreadable)?;
    Ok(Outcome::Failure(failure))
}

// The number of a request, 1 to 1,000,000,000, in decimal.
fn number_in(bytes: &[u8]) -> Option<Number>
    ensures { result ≡ number_in bytes.now }
{
    Number::new(word_in(bytes)?)
}

// The moment that these bytes spell, in seconds from 1970, in decimal.
fn moment_in(bytes: &[u8]) -> Option<Moment>
    ensures { result ≡ moment_in bytes.now }
{
    Moment::new(whole_in(bytes)?)
}

// The number of 32 bits that these bytes spell in decimal, without leading zeros.
fn word_in(bytes: &[u8]) -> Option<u32>
    ensures { result ≡ word_in bytes.now }
{
    u32::try_from(whole_in(bytes)?).ok()
}

// The number from 0 on that the bytes spell in decimal, without leading zeros.
fn whole_in(bytes: &[u8]) -> Option<u64>
    ensures { result ≡ whole_in bytes.now }
{
    match result_in(bytes)? {
        Value::Whole(number) => u64::try_from(number).ok(),
        Value::List(_) => None,
    }
}

// The result that these bytes spell, in the form in which it is stored: a number or a list.
fn result_in(bytes: &[u8]) -> Option<Value>
    ensures { result ≡ result_in bytes.now }
{
    Value::read(text_of(bytes)?)
}

// The bytes as text.
#[tactic(auto, using(crate::proofs::FieldLemmas::is_text, crate::proofs::FieldLemmas::no_text))]
fn text_of(bytes: &[u8]) -> Option<&str>
    ensures { MatchOption result (is_utf8 bytes.now ≡ false)
        (λ text. (is_utf8 bytes.now ≡ true) × (text.now ≡ bytes.now)) }
{
    match str::from_utf8(bytes) {
        Ok(text) => Some(text),
        Err(_) => None,
    }
}

/// Whether a record is the first one of a file.
#[tactic(auto, unfolding(crate::specs::Rows::is_header))]
pub fn is_header(fields: &ByteRecord) -> bool
    ensures { result ≡ is_header (fields_of fields.now) }
{
    fields.len() == FIELDS && says_who(fields) && says_where(fields) && says_what(fields)
}

// Whether the first three fields are the names of their columns: who asks, and of which service.
#[tactic(auto, unfolding(crate::specs::Rows::says_who))]
fn says_who(fields: &ByteRecord) -> bool
    ensures { result ≡ says_who (fields_of fields.now) }
{
    is_at(fields, 0, "caller") && is_at(fields, 1, "number") && is_at(fields, 2, "service")
}

// Whether the next three fields are the names of their columns: run, metric and ordinal.
#[tactic(auto, unfolding(crate::specs::Rows::says_where))]
fn says_where(fields: &ByteRecord) -> bool
    ensures { result ≡ says_where (fields_of fields.now) }
{
    is_at(fields, 3, "run") && is_at(fields, 4, "metric") && is_at(fields, 5, "ordinal")
}

// Whether the last three fields are the names of their columns: when, and what was measured.
#[tactic(auto, unfolding(crate::specs::Rows::says_what))]
fn says_what(fields: &ByteRecord) -> bool
    ensures { result ≡ says_what (fields_of fields.now) }
{
    is_at(fields, 6, "taken") && is_at(fields, 7, "result") && is_at(fields, 8, "failure")
}

// Whether the field at that place, from 0, is that text.
fn is_at(fields: &ByteRecord, place: usize, text: &str) -> bool
    ensures { result ≡ is_at (fields_of fields.now) place text.now }
{
    field(fields, place) == text.as_bytes()
}
