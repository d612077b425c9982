//! The records of a measurement file, one after another.
ghost use Rattle.std.specs.Prelude.{◌≡◌, ◌≢◌, ◌≤◌, ◌+◌, [], List, ℕ, Ok, Err, true, false};
ghost use Rattle.csv.specs.Reading.{reader_source};
ghost use Rattle.csv.specs.Records.{fields_of};
ghost use Rattle.canary_base.specs.Writes.{Known};
ghost use Rattle.canary_files.specs.Taking.{StandsBehind, HasTaken, TakesNext, taken_of, IsEnd};
ghost use Rattle.canary_files.specs.Taking.{left_of, spare_of};

use crate::bounded::{Bounded, Limited, MAX_BYTES};
use crate::import::ImportFault;
use csv::{ByteRecord, ErrorKind, Reader, ReaderBuilder};
use std::alloc::Global;
use std::io::Read;

/// A measurement file that is read record by record, and how many records were taken of it. An
/// import alone takes any.
#[derive(Drop)]
pub struct FileReader<S> {
    reader: Reader<S>,
    taken: u64,
}

/// A measurement file at its first record, of which 1,000,000,000 bytes are asked for at most.
pub fn file_reader<R: Read + Drop>(alloc: Global, source: R) -> FileReader<Bounded<R>>
    ensures begins { HasTaken (λ b. R.remaining b.source) (R.remaining source) result [] }
    ensures spare { spare_of left_of result ≡ MAX_BYTES }
{
    let bounded = Bounded {
        source,
        left: MAX_BYTES,
    };
    FileReader {
        reader: reader_of(alloc, bounded),
        taken: 0,
    }
}

// Whether a record was taken of a file already.
pub(crate) fn has_begun<S>(file: &FileReader<S>) -> bool
    ensures begun { result ≡ true → taken_of file.now ≢ 0 }
    ensures fresh { result ≡ false → taken_of file.now ≡ 0 }
{
    file.taken > 0
}

// A reader that takes the header as a record, and records of any number of fields.
fn reader_of<S: Read>(alloc: Global, source: S) -> Reader<S>
    ensures stands { StandsBehind S.remaining (S.remaining source) result [] }
    ensures source { reader_source result ≡ source }
{
    ReaderBuilder::new()
        .has_headers(false)
        .flexible(true)
        .from_reader(alloc, source)
}

// Takes the next record of a file, and answers whether there was one.
pub(crate) fn next_record<S: Read + Limited>(
    file: &mut FileReader<S>,
    fields: &mut ByteRecord,
) -> Result<bool, ImportFault>
    requires { taken_of file.old ≤ 1000001 }
    ensures next { (bytes : Known) (records : List (List (List ℕ)))
        → HasTaken S.remaining bytes file.old records
        → TakesNext S.remaining S.spare bytes file.new records (fields_of fields.new) result }
    ensures one { result ≡ Ok true → taken_of file.new ≡ taken_of file.old + 1 }
    ensures headed { result ≢ Err ImportFault.Header }
{
    match file.reader.read_byte_record(fields) {
        Ok(true) => {
            file.taken += 1;
            Ok(true)
        }
        Ok(false) => Ok(false),
        Err(error) => match error.kind() {
            ErrorKind::Io(_) => Err(end_of(file.reader.get_ref())),
            _ => Err(ImportFault::Memory),
        },
    }
}

// Why the bytes of a file ended early: no more are asked for, or the reader failed.
fn end_of<S: Limited>(source: &S) -> ImportFault
    ensures { IsEnd (S.spare source.now) result }
{
    if source.is_spent() {
        return ImportFault::RowsSpent;
    }
    ImportFault::Read
}
