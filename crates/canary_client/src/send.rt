//! `send`: the rows of a measurement file, each a request with its own caller and number, so that
//! the file is the journal.
ghost use Rattle.std.specs.Prelude.{◌≡◌, None, IfOk};
ghost use Rattle.canary_client_journal.specs.Meanings.{meaning_of};
ghost use Rattle.canary_client.specs.Outcomes.{rows_outcome};
ghost use Rattle.canary_client.specs.Rows.{row_again};

use crate::endpoint::{DeskEndpoint, endpoint_of};
use crate::outcome::{ClientExit, Stop, say, show, tell};
use crate::plain::json_of;
use crate::tcp::Tcp;
use canary_base::lists::Text;
use canary_canonical::writing;
use canary_cli_words::words::AskedDesk;
use canary_client_journal::meaning::{Meaning, meaning_of};
use canary_client_journal::network::{Heard, Network, RetryReason, request};
use canary_client_journal::settle::rest;
use canary_files::bounded::{Bounded, Limited, MAX_BYTES};
use canary_files::import::MAX_ROWS;
use canary_files::row::{CsvFault, Row, RowRefusal, is_header, row_of};
use canary_plan::command::Command;
use csv::{ByteRecord, ErrorKind, Reader, ReaderBuilder};
use serde_json::Value;
use std::alloc::Global;
use std::fs::File;
use std::io::{Read, Write};

// The word that stands for the input.
const INPUT: &str = "-";

/// Sends the rows of a measurement file (RFC 4180, as `import` reads it), each until it is
/// answered, and shows a line for each, as `import` does: the number of the row from 1 on, the
/// status, and the body. The file `csv` is the input if that is `-`. Sent again as a whole, each
/// row that was settled gets its kept reply, and so the call goes on where another one stopped. The
/// last line on `errors` counts the rows that have their lines. `RowsRefused` if each row has its
/// line, and one is no request, or the desk refused it otherwise than as recorded already.
pub fn send<R: Read, W: Write, F: Write>(
    rt: &HostRuntime,
    desk: &AskedDesk,
    csv: &Text,
    input: &mut R,
    output: &mut W,
    errors: &mut F,
) -> ClientExit {
    let mut counts = RowCounts::NONE;
    match try_send(rt, desk, csv, input, output, &mut counts) {
        Ok(()) => {
            counts.tell(rt.alloc(), errors);
            counts.outcome()
        }
        Err(stop) => {
            let outcome = tell(stop, errors);
            if counts != RowCounts::NONE {
                counts.tell(rt.alloc(), errors);
            }
            outcome
        }
    }
}

// What came of a row.
#[derive(Clone, Copy, Debug, PartialEq, Eq)]
enum RowEnd {
    // Its measurement is recorded, now or before under its number.
    Recorded,
    // Its measurement was recorded already, under another number.
    Repeated,
    // The desk refused it, or it is no request.
    Refused,
}

// How many rows had which end.
#[derive(Clone, Copy, Debug, PartialEq, Eq)]
struct RowCounts {
    recorded: u64,
    repeated: u64,
    refused: u64,
}

impl RowCounts {
    const NONE: RowCounts = RowCounts {
        recorded: 0,
        repeated: 0,
        refused: 0,
    };

    // Counts one row more that had this end.
    fn count(&mut self, end: RowEnd) {
        let counted = match end {
            RowEnd::Recorded => &mut self.recorded,
            RowEnd::Repeated => &mut self.repeated,
            RowEnd::Refused => &mut self.refused,
        };
        *counted = counted.saturating_add(1);
    }

    // How a call ends of whose rows each has its line.
    fn outcome(&self) -> ClientExit
        ensures { result ≡ rows_outcome self.now.refused }
    {
        if self.refused == 0 {
            ClientExit::Done
        } else {
            ClientExit::RowsRefused
        }
    }

    // Says on `errors` how many rows had which end; nothing if memory is refused.
    fn tell<F: Write>(&self, alloc: Global, errors: &mut F) {
        let (recorded, repeated, refused) = (self.recorded, self.repeated, self.refused);
        let told = format!(in alloc;
            "rows recorded: {recorded}, repeated: {repeated}, refused: {refused}"
        );
        if let Ok(told) = told {
            say(errors, told.as_str());
        }
    }
}

// Opens the file, unless it is the input, and sends its rows.
fn try_send<R: Read, W: Write>(
    rt: &HostRuntime,
    desk: &AskedDesk,
    csv: &Text,
    input: &mut R,
    output: &mut W,
    counts: &mut RowCounts,
) -> Result<(), Stop> {
    let place = endpoint_of(rt, desk)?;
    let mut network = Tcp::new(rt, &place);
    if csv.as_str() == INPUT {
        return send_file(rt.alloc(), &mut network, input, place, output, counts);
    }
    let Ok(mut file) = File::open(rt, csv.as_str()) else {
        return Err(Stop::File);
    };
    send_file(rt.alloc(), &mut network, &mut file, place, output, counts)
}

// Sends the rows of a file. The first record is the header; without a record there is no row.
fn send_file<N: Network, R: Read, W: Write>(
    alloc: Global,
    network: &mut N,
    input: &mut R,
    place: DeskEndpoint,
    output: &mut W,
    counts: &mut RowCounts,
) -> Result<(), Stop> {
    let bounded = Bounded {
        source: input,
        left: MAX_BYTES,
    };
    let mut reader = reader_of(alloc, bounded);
    let mut fields = ByteRecord::new(alloc);
    send_records(
        alloc,
        network,
        &mut reader,
        &mut fields,
        place.tries,
        output,
        counts,
    )
}

// Checks the header, if there is a record, and sends the rows after it.
fn send_records<N: Network, S: Read + Limited, W: Write>(
    alloc: Global,
    network: &mut N,
    reader: &mut Reader<S>,
    fields: &mut ByteRecord,
    tries: u32,
    output: &mut W,
    counts: &mut RowCounts,
) -> Result<(), Stop> {
    if !has_next(reader, fields)? {
        return Ok(());
    }
    if !is_header(fields) {
        return Err(Stop::Header);
    }
    send_rows(alloc, network, reader, fields, tries, output, counts)
}

// A reader of records, the header among them, of any number of fields.
fn reader_of<S: Read>(alloc: Global, source: S) -> Reader<S> {
    ReaderBuilder::new()
        .has_headers(false)
        .flexible(true)
        .from_reader(alloc, source)
}

// Reads the next record, and answers whether there is one.
fn has_next<S: Read + Limited>(
    reader: &mut Reader<S>,
    fields: &mut ByteRecord,
) -> Result<bool, Stop> {
    match reader.read_byte_record(fields) {
        Ok(found) => Ok(found),
        Err(error) => match error.kind() {
            ErrorKind::Io(_) if reader.get_ref().is_spent() => Err(Stop::RowsSpent),
            ErrorKind::Io(_) => Err(Stop::File),
            _ => Err(Stop::Memory),
        },
    }
}

// Sends the rows after the header.
fn send_rows<N: Network, S: Read + Limited, W: Write>(
    alloc: Global,
    network: &mut N,
    reader: &mut Reader<S>,
    fields: &mut ByteRecord,
    tries: u32,
    output: &mut W,
    counts: &mut RowCounts,
) -> Result<(), Stop> {
    for done in 0..MAX_ROWS {
        if !has_next(reader, fields)? {
            return Ok(());
        }
        counts.count(send_row(alloc, network, fields, done + 1, tries, output)?);
    }
    if has_next(reader, fields)? {
        return Err(Stop::RowsSpent);
    }
    Ok(())
}

// Sends a row until it is answered, and shows its line. One that is no request is not sent.
fn send_row<N: Network, W: Write>(
    alloc: Global,
    network: &mut N,
    fields: &ByteRecord,
    number: u64,
    tries: u32,
    output: &mut W,
) -> Result<RowEnd, Stop> {
    match row_of(alloc, fields) {
        Ok(row) => {
            let message = message_of(alloc, row)?;
            let response = answered(alloc, network, message.as_str(), tries)?;
            show_end(alloc, number, &response, output)
        }
        Err(CsvFault::Refused(refusal)) => {
            show_line(alloc, number, 400, body_of(refusal), output)?;
            Ok(RowEnd::Refused)
        }
        Err(CsvFault::Memory) => Err(Stop::Memory),
    }
}

// Shows the line of a row with this reply, and answers what came of it.
fn show_end<W: Write>(
    alloc: Global,
    number: u64,
    response: &Heard,
    output: &mut W,
) -> Result<RowEnd, Stop> {
    show_line(
        alloc,
        number,
        response.status,
        response.body.as_str(),
        output,
    )?;
    agreed(alloc, response)?;
    end_of(alloc, response)
}

// What came of a row that was settled with this reply.
fn end_of(alloc: Global, response: &Heard) -> Result<RowEnd, Stop> {
    if response.status == 200 {
        return Ok(RowEnd::Recorded);
    }
    let value = match Value::from_str(alloc, response.body.as_str()) {
        Ok(value) => value,
        Err(fault) if fault.is_memory() => return Err(Stop::Memory),
        Err(_) => return Ok(RowEnd::Refused),
    };
    match value.get("code").and_then(Value::as_str) {
        Some("recorded") => Ok(RowEnd::Repeated),
        _ => Ok(RowEnd::Refused),
    }
}

// The message of a row's request.
fn message_of(alloc: Global, row: Row) -> Result<Text, Stop> {
    let (caller, number) = (row.caller, row.number.get());
    let body = writing::text(alloc, &Command::Report(row.report))?;
    Ok(request(alloc, caller, number, body.as_str())?)
}

// The body of the reply that a desk would give to a row that is refused unread.
fn body_of(refusal: RowRefusal) -> &'static str {
    match refusal {
        RowRefusal::Unreadable => "{\"code\":\"unreadable\"}",
        RowRefusal::BadName => "{\"code\":\"bad-name\"}",
        RowRefusal::BadNumber => "{\"code\":\"bad-number\"}",
    }
}

// Sends a message until the desk answers it.
fn answered<N: Network>(
    alloc: Global,
    network: &mut N,
    message: &str,
    tries: u32,
) -> Result<Heard, Stop>
    ensures told { IfOk result (N.was_told network.new message.now) }
    ensures counts { IfOk result
        (λ response. row_again (meaning_of response.status response.body) ≡ None) }
{
    for tried in 0..tries {
        let why = match network.exchange(alloc, message) {
            Ok(response) => match why_again(alloc, &response)? {
                None => return Ok(response),
                Some(why) => why,
            },
            Err(RetryReason::Memory) => return Err(Stop::Memory),
            Err(why) => why,
        };
        rest(network, tried + 1, tries, why);
    }
    Err(Stop::RowUnanswered)
}

// Why a row has to be sent again that got this reply.
fn why_again(alloc: Global, response: &Heard) -> Result<Option<RetryReason>, Stop>
    ensures { IfOk result
        (λ why. why ≡ row_again (meaning_of response.now.status response.now.body)) }
{
    match meaning_of(alloc, response.status, response.body.as_str())? {
        Meaning::Unavailable => Ok(Some(RetryReason::Unavailable)),
        Meaning::Foreign => Ok(Some(RetryReason::Foreign)),
        _ => Ok(None),
    }
}

// Whether the desk and the file agree on what stands under a row's number.
fn agreed(alloc: Global, response: &Heard) -> Result<(), Stop> {
    match meaning_of(alloc, response.status, response.body.as_str())? {
        Meaning::Reused => Err(Stop::RowReused),
        Meaning::Ahead(_) => Err(Stop::RowAhead),
        Meaning::Unread => Err(Stop::RowUnread),
        _ => Ok(()),
    }
}

// Shows the line of a row: its number from 1 on, a status, and a body with its marks escaped.
fn show_line<W: Write>(
    alloc: Global,
    number: u64,
    status: u16,
    body: &str,
    output: &mut W,
) -> Result<(), Stop> {
    let body = json_of(alloc, body)?;
    let body = body.as_str();
    let line = format!(in alloc; "{number} {status} {body}")?;
    show(output, line.as_str())
}
