//! Answering one row.
ghost use Rattle.std.specs.Prelude.{◌≡◌, ◌≤◌, ◌++◌, ℕ, List, codes, length, Ok};
ghost use Rattle.csv.specs.Records.{fields_of};
ghost use Rattle.canary_base.specs.Writes.{Writes};
ghost use Rattle.canary_once.specs.Messages.{BookStep, HandledOne, desk_state};
ghost use Rattle.canary_files.specs.Lines.{refusal_code, told_status, told_body, line_front};
ghost use Rattle.canary_files.specs.Lines.{line_of};
ghost use Rattle.canary_files.specs.RowExchanges.{IsDisposition, IsExchange, told_line, told_of};
ghost use Rattle.canary_files.specs.RowExchanges.{RowDisposition, RowExchange};
ghost use Rattle.canary_files.specs.Rows.{row_of};
ghost use Rattle.canary_release.specs.Replies.{code_alone};

use crate::row::{CsvFault, Row, RowRefusal, row_of};
use arrayvec::ArrayString;
use canary_base::moments::Moment;
use canary_base::writing::{WriteFault, write_all};
use canary_once::book::Book;
use canary_once::clock::Clock;
use canary_once::event::Answer;
use canary_once::post::post;
use canary_plan::command::Command;
use csv::ByteRecord;
use std::alloc::Global;
use std::io::Write;

// Room for a row's number, a status and a space after each.
const ROOM: usize = 32;

// The longest body of a line that is written at once, and the room for such a line.
const BODY_ROOM: usize = 479;

const LINE_ROOM: usize = ROOM + BODY_ROOM + 1;

// What the line of a row says.
#[derive(Drop)]
pub(crate) enum RowReply {
    Refused(RowRefusal),
    NoMemory,
    Answered(Answer),
}

impl RowReply {
    // The status in the line: 400 of a refusal, 503 if memory ran out, or that of the answer.
    fn status(&self) -> u16
        ensures { result ≡ told_status self.now }
    {
        match self {
            RowReply::Refused(_) => 400,
            RowReply::NoMemory => 503,
            RowReply::Answered(answer) => answer.status(),
        }
    }

    // The body in the line, in JSON: the register's answer, or a code alone if it was not asked.
    fn body(&self) -> &str
        ensures { result.now ≡ told_body self.now }
    {
        match self {
            RowReply::Refused(refusal) => refusal_body(*refusal),
            RowReply::NoMemory => "{\"code\":\"no-memory\"}",
            RowReply::Answered(answer) => answer.body(),
        }
    }
}

// The body of a refused row: an object in JSON with its code alone.
fn refusal_body(refusal: RowRefusal) -> &'static str
    ensures { result.now ≡ code_alone (refusal_code refusal) }
{
    match refusal {
        RowRefusal::Unreadable => "{\"code\":\"unreadable\"}",
        RowRefusal::BadName => "{\"code\":\"bad-name\"}",
        RowRefusal::BadNumber => "{\"code\":\"bad-number\"}",
    }
}

// Answers the row with this number and these fields: the clock is asked once, the register is asked
// if the row is a request, and then its line is written.
pub(crate) fn answer_row<W: Write, C: Clock, B: Book>(
    alloc: Global,
    number: u64,
    fields: &ByteRecord,
    writer: &mut W,
    clock: &mut C,
    book: &mut B,
) -> Result<(), WriteFault>
    ensures { (x : RowExchange) × (x.message ≡ fields_of fields.now)
        × HandledOne IsExchange
        (desk_state (C.tells clock.old) (B.state book.old))
        (desk_state (C.tells clock.new) (B.state book.new)) x
        × Writes (W.contents writer.old) (W.contents writer.new)
        (told_line number x.disposition) result }
{
    let moment = clock.now();
    let told = handle(alloc, fields, moment, book);
    write_line(writer, number, &told)
}

// Handles a row at a moment, and answers what its line is to say.
fn handle<B: Book>(alloc: Global, fields: &ByteRecord, moment: Moment, book: &mut B) -> RowReply
    ensures { (h : RowDisposition) × (result ≡ told_of h)
        × IsDisposition (fields_of fields.now) moment h
        × BookStep (B.state book.old) (B.state book.new) h }
{
    match row_of(alloc, fields) {
        Ok(row) => post_row(alloc, row, moment, book),
        Err(CsvFault::Refused(refusal)) => RowReply::Refused(refusal),
        Err(CsvFault::Memory) => RowReply::NoMemory,
    }
}

// The same if the row is a request.
fn post_row<B: Book>(alloc: Global, row: Row, moment: Moment, book: &mut B) -> RowReply
    ensures { (fields : List (List ℕ)) → row_of fields ≡ Ok row → (h : RowDisposition)
        × (result ≡ told_of h) × IsDisposition fields moment h
        × BookStep (B.state book.old) (B.state book.new) h }
{
    let Row {
        caller,
        number,
        report,
    } = row;
    let command = Command::Report(report);
    RowReply::Answered(post(alloc, book, moment, caller, number, &command))
}

// Writes the line of a row, at once if its body is short. It takes no memory. What went out before
// a fault are the first bytes of the line.
fn write_line<W: Write>(writer: &mut W, number: u64, told: &RowReply) -> Result<(), WriteFault>
    ensures { Writes (W.contents writer.old) (W.contents writer.new)
        (line_of number (told_status told.now) (told_body told.now)) result }
{
    if told.body().len() <= BODY_ROOM {
        let line = whole_line(number, told.status(), told.body());
        return write_all(writer, line.as_str().as_bytes());
    }
    write_parts(writer, number, told)
}

// The line of a row whose body is short.
fn whole_line(number: u64, status: u16, body: &str) -> ArrayString<LINE_ROOM>
    requires { length body.now ≤ 479 }
    ensures { result.bytes ≡ line_of number status body.now }
{
    let mut line = ArrayString::new();
    line.push_str(line_front(number, status).as_str());
    line.push_str(body);
    line.push_str("\n");
    line
}

// Writes the line of a row, part after part.
fn write_parts<W: Write>(writer: &mut W, number: u64, told: &RowReply) -> Result<(), WriteFault>
    ensures { Writes (W.contents writer.old) (W.contents writer.new)
        (line_of number (told_status told.now) (told_body told.now)) result }
{
    let front = line_front(number, told.status());
    if let Err(fault) = write_all(writer, front.as_str().as_bytes()) {
        return Err(fault);
    }
    write_ended(writer, told.body())
}

// The number and the status, and a space after each.
fn line_front(number: u64, status: u16) -> ArrayString<ROOM>
    ensures { result.bytes ≡ line_front number status }
{
    let mut front = ArrayString::new();
    front.push_str(itoa::Buffer::new().format(number));
    front.push_str(" ");
    front.push_str(itoa::Buffer::new().format(status));
    front.push_str(" ");
    front
}

// Writes a text, ended with LF.
fn write_ended<W: Write>(writer: &mut W, text: &str) -> Result<(), WriteFault>
    ensures { Writes (W.contents writer.old) (W.contents writer.new)
        (text.now ++ codes "\n") result }
{
    if let Err(fault) = write_all(writer, text.as_bytes()) {
        return Err(fault);
    }
    write_all(writer, "\n".as_bytes())
}
