//! Plain scalars: texts without quotes, of one line or of more.
use crate::cursor::{Cursor, is_gap, is_white};
use crate::fault::{YamlFault, YamlProblem};
use crate::folded::push_break;
use std::alloc::Global;

/// Where a text stands: among lines, or between the brackets of a flow mapping or sequence.
#[derive(Clone, Copy)]
pub(crate) enum Style {
    /// Lines after the first begin at this column or after it.
    Block(usize),
    Flow,
}

// With these no plain scalar begins, wherever it stands.
const INDICATORS: &[u8] = b",[]{}#&*!|>'\"%@`";

/// Whether a plain scalar can begin here.
pub(crate) fn is_plain_here(c: &Cursor<'_>, style: Style) -> bool {
    let first = c.peek();
    let next = c.peek_at(1);
    if first == b'-' || first == b'?' || first == b':' {
        return !is_gap(next) && !is_closing(next, style);
    }
    !is_gap(first) && !INDICATORS.contains(&first)
}

// Whether it is a sign of flow mappings and sequences, if one is open.
fn is_closing(byte: u8, style: Style) -> bool {
    match style {
        Style::Flow => b",[]{}".contains(&byte),
        Style::Block(_) => false,
    }
}

/// What a plain scalar takes of the line that the text begins with, without white space at its end.
pub(crate) fn plain_part(text: &[u8], style: Style) -> &[u8] {
    let mut after_gap = true;
    for (at, byte) in text.iter().enumerate() {
        let next = text.get(at.saturating_add(1)).copied().unwrap_or(0);
        let ends = match *byte {
            b'\n' => true,
            b':' => is_gap(next) || is_closing(next, style),
            b'#' => after_gap,
            other => is_closing(other, style),
        };
        if ends {
            return text.get(..at).unwrap_or(&[]).trim_ascii_end();
        }
        after_gap = is_white(*byte);
    }
    text.trim_ascii_end()
}

/// The plain scalar that begins here. The cursor is left right after it.
///
/// # Errors
/// `Tab`, if a tab stands at the front of a line in block style; `Memory`.
pub(crate) fn read_plain(
    alloc: Global,
    c: &mut Cursor<'_>,
    style: Style,
) -> Result<Vec<u8>, YamlFault> {
    let mut text = Vec::new(alloc);
    push_plain(&mut text, c, style)?;
    Ok(text)
}

// Adds the plain scalar that begins here.
fn push_plain(text: &mut Vec<u8>, c: &mut Cursor<'_>, style: Style) -> Result<(), YamlFault> {
    push_part(text, c, style)?;
    for _ in 0..c.turns() {
        let Some((next, blank)) = next_part(c, style)? else {
            break;
        };
        *c = next;
        push_break(text, blank)?;
        push_part(text, c, style)?;
    }
    Ok(())
}

// Adds what the scalar takes of the line here.
fn push_part(text: &mut Vec<u8>, c: &mut Cursor<'_>, style: Style) -> Result<(), YamlFault> {
    let part = plain_part(c.rest(), style);
    text.extend_from_slice(part)?;
    c.skip(part.len());
    Ok(())
}

// Where the scalar goes on in a later line, and how many blank lines are before that one.
fn next_part<'a>(c: &Cursor<'a>, style: Style) -> Result<Option<(Cursor<'a>, usize)>, YamlFault> {
    let mut next = *c;
    next.skip_white();
    if next.peek() != b'\n' {
        return Ok(None);
    }
    let blank = next.skip_break();
    if !goes_on(&mut next, style)? {
        return Ok(None);
    }
    Ok(Some((next, blank)))
}

// Whether the scalar goes on in the line that begins here.
fn goes_on(next: &mut Cursor<'_>, style: Style) -> Result<bool, YamlFault> {
    if next.is_over() {
        return Ok(false);
    }
    match style {
        Style::Flow => next.skip_white(),
        Style::Block(least) => {
            next.skip_spaces();
            if next.column() < least {
                return Ok(false);
            }
            next.refuse_tab()?;
        }
    }
    Ok(!plain_part(next.rest(), style).is_empty())
}
