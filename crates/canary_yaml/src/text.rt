//! A text as it is read: bytes in UTF-8, with LF between the lines.
use crate::cursor::Cursor;
use crate::fault::{YamlFault, YamlProblem};
use std::alloc::Global;

const MAX_BYTES: usize = 1_048_576;

const BYTE_ORDER_MARK: &[u8] = b"\xef\xbb\xbf";

/// The text, with LF for CR LF, and without a byte order mark at its front.
///
/// # Errors
/// `Length`, `Utf8`, `Control` with the first byte that is not read; `Memory`.
pub(crate) fn text_of(alloc: Global, bytes: &[u8]) -> Result<Vec<u8>, YamlFault> {
    let bytes = checked(bytes)?;
    let mut text = Vec::new(alloc);
    push_text(&mut text, bytes)?;
    Ok(text)
}

// The bytes without a byte order mark, if they are a text that is read.
fn checked(bytes: &[u8]) -> Result<&[u8], YamlFault> {
    if bytes.len() > MAX_BYTES {
        return Err(fault_at(&[], 0, YamlProblem::Length));
    }
    let bytes = without_mark(bytes);
    if let Err(fault) = std::str::from_utf8(bytes) {
        return Err(fault_at(bytes, fault.valid_up_to(), YamlProblem::Utf8));
    }
    match bytes.iter().position(|byte| is_control(*byte)) {
        Some(at) => Err(fault_at(bytes, at, YamlProblem::Control)),
        None => Ok(bytes),
    }
}

/// The bytes without a byte order mark at their front.
pub(crate) fn without_mark(bytes: &[u8]) -> &[u8] {
    bytes.strip_prefix(BYTE_ORDER_MARK).unwrap_or(bytes)
}

// Adds the bytes, with LF for CR LF. No other CR is read.
fn push_text(text: &mut Vec<u8>, bytes: &[u8]) -> Result<(), YamlFault> {
    for (at, byte) in bytes.iter().enumerate() {
        if *byte != b'\r' {
            text.push(*byte)?;
        } else if bytes.get(at.saturating_add(1)) != Some(&b'\n') {
            return Err(fault_at(bytes, at, YamlProblem::Control));
        }
    }
    Ok(())
}

// The fault at that byte.
fn fault_at(bytes: &[u8], at: usize, why: YamlProblem) -> YamlFault {
    let mut c = Cursor::new(bytes);
    for byte in bytes.iter().take(at) {
        c.skip(1);
        if *byte == b'\n' {
            c.begin_line();
        }
    }
    c.fault(why)
}

// A control character (C0) apart from the tab, LF and CR. So no byte of a text is 0.
fn is_control(byte: u8) -> bool {
    byte < b' ' && byte != b'\t' && byte != b'\n' && byte != b'\r'
}
