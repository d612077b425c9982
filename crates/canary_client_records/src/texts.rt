//! The texts of a file, each after a gate.
ghost use Rattle.std.specs.Prelude.{◌≡◌, ◌+◌, length, option_map, position, IfSome, IfOk};
ghost use Rattle.canary_client_records.specs.Texts.{is_lf, up_to_lf, first_line, from_gate, texts_of};
ghost use Rattle.canary_client_records.specs.Texts.{records, line_before, text_of};
ghost use Rattle.canary_client_records.specs.Texts.{first_record, is_closed, begins};

use canary_base::error::Memory;
use canary_base::lists::{Listed, Text};
use std::alloc::Global;
use std::str;

// The most bytes that adding a first text leaves before its gate is open: the gate, a text of
// `MAX_FIRST` bytes, an LF and a gate.
const MAX_NEW: usize = 110;

/// The most bytes of a first text.
pub const MAX_FIRST: usize = 107;

/// The texts of a file.
#[derive(Drop)]
pub struct Found {
    /// The texts, in order.
    pub texts: Listed<Text>,
    /// How many bytes stand before the closed gate.
    pub gate: usize,
    /// How many bytes the file has.
    pub size: usize,
}

/// The texts of a file, or `Memory`; none if it is no file of texts, is cut short, or has a text
/// that is not UTF-8. A file of more than one byte has a gate first, and if that is closed, it is
/// no longer than a crash may leave it while a first text is added.
pub fn texts_of(alloc: Global, bytes: &[u8]) -> Result<Option<Found>, Memory>
    ensures texts { IfOk result (λ found. option_map (λ f. f.texts) found ≡ texts_of bytes.now) }
    ensures gate { IfOk result (λ found. IfSome found (λ f. f.gate ≡ length (records f.texts))) }
    ensures size { IfOk result (λ found. IfSome found (λ f. f.size ≡ length bytes.now)) }
{
    match bytes {
        [] | [_] => Ok(Some(Found {
            texts: Listed::of(Vec::new(alloc)),
            gate: 0,
            size: bytes.len(),
        })),
        bytes if begins(bytes) => from_gate(alloc, bytes),
        _ => Ok(None),
    }
}

// Whether a file begins as one of texts: its first gate is open, or no text counts yet.
fn begins(bytes: &[u8]) -> bool
    ensures { result ≡ begins bytes.now }
{
    match bytes {
        [] | [b'+', ..] => true,
        bytes => bytes.len() <= MAX_NEW,
    }
}

// The texts from the first gate on; none unless a closed gate follows the last one.
#[tactic(auto, using(crate::proofs::TextLemmas::read_by_records))]
fn from_gate(alloc: Global, bytes: &[u8]) -> Result<Option<Found>, Memory>
    ensures texts { IfOk result (λ found. option_map (λ f. f.texts) found ≡ from_gate bytes.now) }
    ensures gate { IfOk result (λ found. IfSome found (λ f. f.gate ≡ length (records f.texts))) }
    ensures size { IfOk result (λ found. IfSome found (λ f. f.size ≡ length bytes.now)) }
{
    let mut texts = Vec::new(alloc);
    let mut rest = bytes;
    while let Some((text, after)) = first_record(rest) {
        texts.push(copied(alloc, text)?)?;
        rest = after;
    }
    if !is_closed(rest) {
        return Ok(None);
    }
    Ok(Some(Found {
        texts: Listed::of(texts),
        gate: bytes.len() - rest.len(),
        size: bytes.len(),
    }))
}

// The text after an open gate, and what stands after that.
fn first_record(bytes: &[u8]) -> Option<(&str, &[u8])>
    ensures { option_map (λ line. (line.0.now, line.1.now)) result ≡ first_record bytes.now }
{
    match bytes {
        [b'+', after @ ..] => first_line(after),
        _ => None,
    }
}

// Whether a closed gate stands first.
fn is_closed(bytes: &[u8]) -> bool
    ensures { result ≡ is_closed bytes.now }
{
    match bytes {
        [gate, ..] => *gate == b'-',
        [] => false,
    }
}

// The text up to the first LF, and what stands after that.
fn first_line(bytes: &[u8]) -> Option<(&str, &[u8])>
    ensures { option_map (λ line. (line.0.now, line.1.now)) result ≡ first_line bytes.now }
{
    let line = up_to_lf(bytes);
    line_before(line, &bytes[line.len()..])
}

// The line as text, and what follows the LF that begins the rest; none without an LF or UTF-8.
fn line_before<'a>(line: &'a [u8], rest: &'a [u8]) -> Option<(&'a str, &'a [u8])>
    ensures { option_map (λ line. (line.0.now, line.1.now)) result ≡ line_before line.now rest.now }
{
    match (rest, text_of(line)) {
        ([_, after @ ..], Some(text)) => Some((text, after)),
        _ => None,
    }
}

// The bytes as text.
#[tactic(auto, using(crate::proofs::Utf8::is_text, crate::proofs::Utf8::no_text))]
fn text_of(bytes: &[u8]) -> Option<&str>
    ensures { option_map (λ text. text.now) result ≡ text_of bytes.now }
{
    match str::from_utf8(bytes) {
        Ok(text) => Some(text),
        Err(_) => None,
    }
}

// The bytes before the first LF; all of them without one.
fn up_to_lf(bytes: &[u8]) -> &[u8]
    ensures { result.now ≡ up_to_lf bytes.now }
{
    match place_of_lf(bytes) {
        Some(place) => &bytes[..place],
        None => bytes,
    }
}

// The place of the first LF, from 0, or none.
fn place_of_lf(bytes: &[u8]) -> Option<usize>
    ensures { result ≡ position is_lf bytes.now }
{
    bytes.iter().position(|byte| *byte == b'\n')
}

// A copy of the text that the caller owns, or `Memory`.
fn copied(alloc: Global, text: &str) -> Result<Text, Memory>
    ensures { IfOk result (λ copy. copy ≡ text.now) }
{
    Ok(Text::of(String::from_str(alloc, text)?))
}
