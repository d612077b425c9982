//! The text of a measurement file.
ghost use Rattle.std.specs.Prelude.{◌≡◌, [], ◌∷◌, ◌++◌, decimal, string_bytes, IfOk, OnOk};
ghost use Rattle.csv.specs.Records.{fields_of, partial_of};
ghost use Rattle.canary_files.specs.Rows.{header};
ghost use Rattle.canary_files.specs.Written.{record_text, row_fields, result_field, failure_field};

use canary_base::error::Memory;
use canary_base::lists::Listed;
use canary_base::names::{Label, Name};
use canary_condition::outcome::Outcome;
use canary_release::effect::Recorded;
use csv::{ByteRecord, Writer};
use itoa::Buffer;
use std::alloc::Global;
use std::marker::Model;

// Records, one after another, as `csv` writes them: each is one call of `write_byte_record`.
#[derive(Drop)]
pub(crate) struct Records {
    writer: Writer<Vec<u8>>,
}

impl Model for Records {
    ghost use Rattle.std.specs.Prelude.{◌≡◌, ◌++◌, List, ℕ, false};
    ghost use Rattle.csv.specs.Writing.{default_writer, writer_setup, fields_written};
    ghost use Rattle.csv.specs.Writing.{has_written, writer_under, writer_pending};

    ghost Value = { List ℕ };

    ghost view = { λ r. (writer_under r.writer).items ++ writer_pending r.writer };

    ghost invariant = { λ r. (writer_setup r.writer ≡ default_writer)
        × (fields_written r.writer ≡ 0) × (has_written r.writer ≡ false) };
}

impl Records {
    // No records yet.
    pub(crate) fn new(alloc: Global) -> Records
        ensures { result ≡ [] }
    {
        Records {
            writer: Writer::from_writer(Vec::new(alloc)),
        }
    }

    // With one record more.
    fn with(self, fields: &ByteRecord) -> Result<Records, Memory>
        ensures { IfOk result (λ more. more ≡ self ++ record_text (fields_of fields.now)) }
    {
        let Records { mut writer } = self;
        match writer.write_byte_record(fields) {
            Ok(()) => Ok(Records { writer }),
            Err(_) => Err(Memory),
        }
    }

    // With the header.
    pub(crate) fn with_header(self, alloc: Global) -> Result<Records, Memory>
        ensures { IfOk result (λ more. more ≡ self ++ record_text header) }
    {
        self.with(&header(alloc)?)
    }

    // With the row of a measurement.
    pub(crate) fn with_row(
        self,
        alloc: Global,
        caller: &Name,
        number: u64,
        service: &Name,
        recorded: &Recorded,
        metric: &Label,
    ) -> Result<Records, Memory>
        ensures { IfOk result (λ more. more
            ≡ self ++ record_text
            (row_fields caller.now number service.now recorded.now metric.now)) }
    {
        self.with(&row(alloc, caller, number, service, recorded, metric)?)
    }

    // Their text.
    pub(crate) fn into_text(self) -> Result<Listed<u8>, Memory>
        ensures { IfOk result (λ text. text ≡ self) }
    {
        let Records { writer } = self;
        match writer.into_inner() {
            Ok(text) => Ok(Listed::of(text)),
            Err(_) => Err(Memory),
        }
    }
}

// The first record of a file: the names of its nine columns.
#[tactic(auto, unfolding(crate::specs::Rows::header))]
fn header(alloc: Global) -> Result<ByteRecord, Memory>
    ensures fields { IfOk result (λ fields. fields_of fields ≡ header) }
{
    let mut fields = ByteRecord::new(alloc);
    fields.push_field("caller".as_bytes())?;
    fields.push_field("number".as_bytes())?;
    fields.push_field("service".as_bytes())?;
    fields.push_field("run".as_bytes())?;
    fields.push_field("metric".as_bytes())?;
    fields.push_field("ordinal".as_bytes())?;
    fields.push_field("taken".as_bytes())?;
    fields.push_field("result".as_bytes())?;
    fields.push_field("failure".as_bytes())?;
    Ok(fields)
}

// The record of a measurement, with the number that its request is to have.
fn row(
    alloc: Global,
    caller: &Name,
    number: u64,
    service: &Name,
    recorded: &Recorded,
    metric: &Label,
) -> Result<ByteRecord, Memory>
    ensures fields { IfOk result (λ fields. fields_of fields
        ≡ row_fields caller.now number service.now recorded.now metric.now) }
{
    let mut fields = ByteRecord::new(alloc);
    fields.push_field(caller.as_bytes())?;
    push_number(&mut fields, number)?;
    fields.push_field(service.as_bytes())?;
    push_number(&mut fields, recorded.run as u64)?;
    fields.push_field(metric.as_bytes())?;
    push_number(&mut fields, recorded.ordinal as u64)?;
    push_number(&mut fields, recorded.taken.get())?;
    push_outcome(alloc, &mut fields, &recorded.outcome)?;
    Ok(fields)
}

// A number in decimal.
fn push_number(fields: &mut ByteRecord, number: u64) -> Result<(), Memory>
    requires { partial_of fields.old ≡ [] }
    ensures fields { OnOk result
        (fields_of fields.new ≡ fields_of fields.old ++ decimal number ∷ []) }
    ensures partial { OnOk result (partial_of fields.new ≡ []) }
{
    fields.push_field(Buffer::new().format(number).as_bytes())?;
    Ok(())
}

// A result, or a failure: of the two fields one has no bytes.
fn push_outcome(alloc: Global, fields: &mut ByteRecord, outcome: &Outcome) -> Result<(), Memory>
    requires { partial_of fields.old ≡ [] }
    ensures fields { OnOk result (fields_of fields.new
        ≡ fields_of fields.old ++ result_field outcome.now ∷ failure_field outcome.now ∷ []) }
{
    fields.push_field(result_words(alloc, outcome)?.as_str().as_bytes())?;
    fields.push_field(failure_words(outcome).as_bytes())?;
    Ok(())
}

// The field of a result: its text, or no byte if it is a failure.
fn result_words(alloc: Global, outcome: &Outcome) -> Result<String, Memory>
    ensures { IfOk result (λ words. string_bytes words ≡ result_field outcome.now) }
{
    let mut words = String::new(alloc);
    if let Outcome::Result(value) = outcome {
        value.words(&mut words)?;
    }
    Ok(words)
}

// The field of a failure: its text, or no byte if it is a result.
fn failure_words(outcome: &Outcome) -> &str
    ensures { result.now ≡ failure_field outcome.now }
{
    match outcome {
        Outcome::Result(_) => "",
        Outcome::Failure(text) => text.as_str(),
    }
}
