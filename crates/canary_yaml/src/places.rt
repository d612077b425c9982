//! Where a part of a document stands.
use crate::block::{is_next, read_entry, read_member};
use crate::cursor::Cursor;
use crate::fault::YamlFault;
use crate::flow::{end_item, read_flow, read_flow_key, read_flow_member, skip_between};
use crate::key::{is_key_here, read_key, skip_colon};
use crate::plain::Style;
use crate::read::MAX_DEPTH;
use crate::text::text_of;
use std::alloc::Global;

/// A step from a value to one of its parts.
#[derive(Clone, Copy, Debug, PartialEq, Eq)]
pub enum PathStep<'a> {
    /// To what this key of a mapping has.
    Key(&'a str),
    /// To the entry of a sequence at this place, from 0.
    Entry(usize),
}

/// A line and a column of a text, each from 1. A column is a character.
#[derive(Clone, Copy, Debug, PartialEq, Eq)]
pub struct Place {
    pub line: usize,
    pub column: usize,
}

/// Where the value begins to which the steps lead, from that of the document that begins in this
/// line; if they lead further than the document goes, where the last value begins that they reach.
///
/// # Errors
/// As `read_documents`, for what stands before that value.
pub fn place_of(
    alloc: Global,
    bytes: &[u8],
    line: usize,
    steps: &[PathStep<'_>],
) -> Result<Place, YamlFault> {
    let text = text_of(alloc, bytes)?;
    let mut c = Cursor::new(text.as_slice());
    enter_document(&mut c, line)?;
    for step in steps {
        let mut ahead = c;
        if !enter(alloc, &mut ahead, *step)? {
            break;
        }
        c = ahead;
    }
    Ok(c.place())
}

// Goes to the value of the document that begins in that line.
fn enter_document(c: &mut Cursor<'_>, line: usize) -> Result<(), YamlFault> {
    for _ in 0..c.turns() {
        if c.line() >= line {
            break;
        }
        c.next_line();
    }
    if c.is_marker(b"---") {
        c.skip(3);
    }
    c.skip_white();
    if c.is_line_over() {
        return c.skip_to_token();
    }
    Ok(())
}

// Goes to that part of the value that begins here. Returns whether it has that part.
fn enter(alloc: Global, c: &mut Cursor<'_>, step: PathStep<'_>) -> Result<bool, YamlFault> {
    match step {
        PathStep::Key(key) if c.peek() == b'{' => enter_flow_member(alloc, c, key.as_bytes()),
        PathStep::Key(key) => enter_member(alloc, c, key.as_bytes()),
        PathStep::Entry(place) if c.peek() == b'[' => enter_item(alloc, c, place),
        PathStep::Entry(place) => enter_entry(alloc, c, place),
    }
}

// Goes to what that key of the block mapping has whose first key begins here.
fn enter_member(alloc: Global, c: &mut Cursor<'_>, wanted: &[u8]) -> Result<bool, YamlFault> {
    let column = c.column();
    for _ in 0..c.turns() {
        if !is_key_here(c) {
            return Ok(false);
        }
        if is_key(alloc, c, wanted)? {
            return enter_after(c, column);
        }
        let _passed = read_member(alloc, c, column, MAX_DEPTH)?;
        if !is_next(c, column)? {
            break;
        }
    }
    Ok(false)
}

// Goes past the key that begins here, and its colon. Returns whether it is that one.
fn is_key(alloc: Global, c: &mut Cursor<'_>, wanted: &[u8]) -> Result<bool, YamlFault> {
    let key = read_key(alloc, c, Style::Block(0))?;
    skip_colon(c)?;
    Ok(key.as_bytes() == wanted)
}

// Goes to the value of the key at that column, after its colon. Returns whether it has one.
fn enter_after(c: &mut Cursor<'_>, column: usize) -> Result<bool, YamlFault> {
    c.skip_to_token()?;
    let is_sequence = c.column() == column && c.is_mark(b'-');
    Ok(!c.is_over() && (c.column() > column || is_sequence))
}

// Goes to that entry of the block sequence whose first entry begins here.
fn enter_entry(alloc: Global, c: &mut Cursor<'_>, place: usize) -> Result<bool, YamlFault> {
    let column = c.column();
    for _ in 0..place {
        if !pass_entry(alloc, c, column)? {
            return Ok(false);
        }
    }
    if !c.is_mark(b'-') {
        return Ok(false);
    }
    c.skip(1);
    c.skip_to_token()?;
    Ok(!c.is_over() && c.column() > column)
}

// Goes past the entry at that column, if one begins here. Returns whether another one follows.
fn pass_entry(alloc: Global, c: &mut Cursor<'_>, column: usize) -> Result<bool, YamlFault> {
    if !c.is_mark(b'-') {
        return Ok(false);
    }
    c.skip(1);
    let _passed = read_entry(alloc, c, column, MAX_DEPTH)?;
    is_next(c, column)
}

// Goes to what that key of the flow mapping has that begins here.
fn enter_flow_member(alloc: Global, c: &mut Cursor<'_>, wanted: &[u8]) -> Result<bool, YamlFault> {
    c.skip(1);
    for _ in 0..c.turns() {
        skip_between(c)?;
        if c.peek() == b'}' {
            break;
        }
        if is_flow_key(alloc, c, wanted)? {
            return enter_flow_value(c);
        }
        let _passed = read_flow_member(alloc, c, MAX_DEPTH)?;
        end_item(c, b'}')?;
    }
    Ok(false)
}

// Goes past the key that begins here. Returns whether it is that one.
fn is_flow_key(alloc: Global, c: &mut Cursor<'_>, wanted: &[u8]) -> Result<bool, YamlFault> {
    Ok(read_flow_key(alloc, c)?.as_bytes() == wanted)
}

// Goes past the colon after a key in brackets. Returns whether it has one.
fn enter_flow_value(c: &mut Cursor<'_>) -> Result<bool, YamlFault> {
    skip_between(c)?;
    if c.peek() != b':' {
        return Ok(false);
    }
    c.skip(1);
    skip_between(c)?;
    Ok(true)
}

// Goes to that item of the flow sequence that begins here.
fn enter_item(alloc: Global, c: &mut Cursor<'_>, place: usize) -> Result<bool, YamlFault> {
    c.skip(1);
    for _ in 0..place {
        skip_between(c)?;
        if c.peek() == b']' {
            return Ok(false);
        }
        let _passed = read_flow(alloc, c, MAX_DEPTH)?;
        end_item(c, b']')?;
    }
    skip_between(c)?;
    Ok(c.peek() != b']')
}
