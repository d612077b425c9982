//! A text in a line of its own, with a caret under one of its bytes.
use canary_base::error::Memory;

// The most bytes of the text that are shown, and how many of them stand before the caret.
const MAX_BYTES: usize = 60;

const BEFORE: usize = 30;

const MARGIN: usize = 4;

const CUT: &str = "...";

/// Adds the text, or what stands round that byte, and a line with a caret under the byte; or
/// `Memory`. A byte that is no printable ASCII is shown as `?`, so each takes one column.
pub(crate) fn write_excerpt(out: &mut String, text: &[u8], at: usize) -> Result<(), Memory> {
    let last_start = text.len().saturating_sub(MAX_BYTES);
    let from = at.saturating_sub(BEFORE).min(last_start);
    let to = from.saturating_add(MAX_BYTES).min(text.len());
    let cut_before = if from > 0 { CUT } else { "" };
    let cut_after = if to < text.len() { CUT } else { "" };
    push_spaces(out, MARGIN)?;
    out.push_str(cut_before)?;
    push_shown(out, text.get(from..to).unwrap_or(&[]))?;
    out.push_str(cut_after)?;
    out.push_str("\n")?;
    let column = at.saturating_sub(from).min(MAX_BYTES);
    push_spaces(out, MARGIN + cut_before.len())?;
    push_spaces(out, column)?;
    out.push_str("^\n")?;
    Ok(())
}

// Appends these bytes, a character for each.
fn push_shown(out: &mut String, bytes: &[u8]) -> Result<(), Memory> {
    for byte in bytes {
        out.push(shown(*byte))?;
    }
    Ok(())
}

// A space or a visible ASCII character as itself, and any other byte as a question mark.
fn shown(byte: u8) -> char {
    if byte == b' ' || byte.is_ascii_graphic() {
        char::from(byte)
    } else {
        '?'
    }
}

// Appends so many spaces: the margin, or what leads to the caret.
fn push_spaces(out: &mut String, count: usize) -> Result<(), Memory> {
    for _ in 0..count {
        out.push_str(" ")?;
    }
    Ok(())
}
