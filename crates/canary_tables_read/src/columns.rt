//! The values in the columns of a row that a query shows. A value that a program cannot hold is
//! broken.
ghost use Rattle.std.specs.Prelude.{◌≡◌, ◌≢◌, ◌<◌, Option, Err, IfOk, IfErr, IfSome, OnOk, length};
ghost use Rattle.std.specs.Prelude.{IsTrue, IsUtf8};
ghost use Rattle.sqlite.specs.Order.{column};
ghost use Rattle.sqlite.specs.declared.types.Value.TheVariants.{Text as Words};
ghost use Rattle.canary_base.specs.Names.{is_label, is_name};
ghost use Rattle.canary_tables_rows.specs.Limits.{FitsNumber, FitsMoment};
ghost use Rattle.canary_tables_schema.specs.Cells.{integer, whole_or_null};
ghost use Rattle.canary_tables_read.specs.Faults.{column_fault};
ghost use Rattle.canary_tables_read.specs.Breaks.{BreaksAt};

use crate::fault::ReadFault;
use canary_base::lists::Text;
use canary_base::moments::Moment;
use canary_base::names::{Label, Name};
use sqlite::types::ValueRef;
use sqlite::{Error, ErrorCode, Row};

/// That the row has so many columns, or `Broken`.
pub(crate) fn has_width(row: &Row, width: usize) -> Result<(), ReadFault>
    ensures found { OnOk result (length row.now ≡ width) }
    ensures broken { IfErr result (λ fault. (fault ≡ ReadFault.Broken) × (length row.now ≢ width)) }
{
    if row.column_count() == width {
        Ok(())
    } else {
        Err(ReadFault::Broken)
    }
}

// Why a column was not read.
fn fault_of(error: Error) -> ReadFault
    ensures { result ≡ column_fault error }
{
    match error {
        Error::SqliteFailure(ErrorCode::OutOfMemory) => ReadFault::Memory,
        _ => ReadFault::Broken,
    }
}

/// The number in a column; `Broken` if that is no integer from 0 to 2^32 - 1.
pub(crate) fn number_at(row: &Row, at: usize) -> Result<u32, ReadFault>
    requires { at < length row.now }
    ensures found { IfOk result (λ number. column row.now at ≡ integer number) }
    ensures broken { BreaksAt result row.now at integer FitsNumber }
    ensures unasked { result ≢ Err ReadFault.Storage }
{
    row.get::<u32>(at).map_err(fault_of)
}

/// The same, but no number if the column is NULL.
pub(crate) fn maybe_number_at(row: &Row, at: usize) -> Result<Option<u32>, ReadFault>
    requires { at < length row.now }
    ensures found { IfOk result (λ number. column row.now at ≡ whole_or_null number) }
    ensures broken { BreaksAt result row.now at whole_or_null (λ number. IfSome number FitsNumber) }
    ensures unasked { result ≢ Err ReadFault.Storage }
{
    row.get::<Option<u32>>(at).map_err(fault_of)
}

/// The moment in a column, in seconds; `Broken` if that is no integer, or not one of a moment.
pub(crate) fn moment_at(row: &Row, at: usize) -> Result<Moment, ReadFault>
    requires { at < length row.now }
    ensures found { IfOk result (λ moment. column row.now at ≡ integer moment) }
    ensures broken { BreaksAt result row.now at integer FitsMoment }
    ensures unasked { result ≢ Err ReadFault.Storage }
{
    let seconds = row.get::<u64>(at).map_err(fault_of)?;
    Moment::new(seconds).ok_or(ReadFault::Broken)
}

/// The same, but no moment if the column is NULL.
pub(crate) fn maybe_moment_at(row: &Row, at: usize) -> Result<Option<Moment>, ReadFault>
    requires { at < length row.now }
    ensures found { IfOk result (λ moment. column row.now at ≡ whole_or_null moment) }
    ensures broken { BreaksAt result row.now at whole_or_null (λ moment. IfSome moment FitsMoment) }
    ensures unasked { result ≢ Err ReadFault.Storage }
{
    let Some(seconds) = row.get::<Option<u64>>(at).map_err(fault_of)? else {
        return Ok(None);
    };
    match Moment::new(seconds) {
        Some(moment) => Ok(Some(moment)),
        None => Err(ReadFault::Broken),
    }
}

/// The text in a column; `Broken` if that is no text in UTF-8; or `Memory`.
pub(crate) fn text_at(row: &Row, at: usize) -> Result<Text, ReadFault>
    requires { at < length row.now }
    ensures found { IfOk result (λ text. column row.now at ≡ Words text) }
    ensures broken { BreaksAt result row.now at Words IsUtf8 }
    ensures unasked { result ≢ Err ReadFault.Storage }
{
    Ok(Text::of(row.get::<String>(at).map_err(fault_of)?))
}

/// The label in a column; `Broken` if that is no text, or not one of a label.
pub(crate) fn label_at(row: &Row, at: usize) -> Result<Label, ReadFault>
    requires { at < length row.now }
    ensures found { IfOk result (λ label. column row.now at ≡ Words label) }
    ensures broken { BreaksAt result row.now at Words (λ label. IsTrue (is_label label)) }
    ensures unasked { result ≢ Err ReadFault.Storage }
{
    let ValueRef::Text(bytes) = row.get_ref(at).map_err(fault_of)? else {
        return Err(ReadFault::Broken);
    };
    Label::read(bytes).ok_or(ReadFault::Broken)
}

/// The name in a column; `Broken` if that is no text, or not one of a name.
pub(crate) fn name_at(row: &Row, at: usize) -> Result<Name, ReadFault>
    requires { at < length row.now }
    ensures found { IfOk result (λ name. column row.now at ≡ Words name) }
    ensures broken { BreaksAt result row.now at Words (λ name. IsTrue (is_name name)) }
    ensures unasked { result ≢ Err ReadFault.Storage }
{
    let ValueRef::Text(bytes) = row.get_ref(at).map_err(fault_of)? else {
        return Err(ReadFault::Broken);
    };
    Name::read(bytes).ok_or(ReadFault::Broken)
}
