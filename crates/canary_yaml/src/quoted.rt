//! Texts in quotes, of one line or of more.
use crate::cursor::{Cursor, is_white};
use crate::fault::{YamlFault, YamlProblem};
use crate::folded::{push_break, push_lines};
use crate::number::hexadecimal;
use std::alloc::Global;

/// The text in the quotes that begin here. The cursor is left right after them.
///
/// # Errors
/// `Unclosed`, `Escape` or `Memory`.
pub(crate) fn read_quoted(alloc: Global, c: &mut Cursor<'_>) -> Result<Vec<u8>, YamlFault> {
    let mut text = Vec::new(alloc);
    push_quoted(&mut text, c)?;
    Ok(text)
}

// Adds the text in the quotes that begin here.
fn push_quoted(text: &mut Vec<u8>, c: &mut Cursor<'_>) -> Result<(), YamlFault> {
    let begin = *c;
    let quote = c.peek();
    // The length of the text up to the last escape: white space before it is not dropped.
    let mut kept: usize = 0;
    c.skip(1);
    for _ in 0..c.turns() {
        let byte = c.peek();
        if byte == quote && quote == b'\'' && c.peek_at(1) == quote {
            text.push(quote)?;
            c.skip(2);
        } else if byte == quote {
            c.skip(1);
            return Ok(());
        } else if byte == b'\\' && quote == b'"' {
            read_escape(c, text)?;
            kept = text.len();
        } else if byte == b'\n' {
            read_break(c, text, kept)?;
        } else if byte == 0 {
            break;
        } else {
            text.push(byte)?;
            c.skip(1);
        }
    }
    Err(begin.fault(YamlProblem::Unclosed))
}

// Joins the line that ends here with the next one that is not blank.
fn read_break(c: &mut Cursor<'_>, text: &mut Vec<u8>, kept: usize) -> Result<(), YamlFault> {
    drop_white(text, kept);
    let blank = c.skip_break();
    go_on(c)?;
    push_break(text, blank)
}

// Drops the white space at the end of a text that is longer than that.
fn drop_white(text: &mut Vec<u8>, kept: usize) {
    for _ in kept..text.len() {
        if !is_white(text.last().copied().unwrap_or(0)) {
            break;
        }
        text.pop();
    }
}

// Goes to what comes first in the line that begins here.
fn go_on(c: &mut Cursor<'_>) -> Result<(), YamlFault> {
    if c.is_over() {
        return Err(c.fault(YamlProblem::Unclosed));
    }
    c.skip_white();
    Ok(())
}

// Adds what the escape here stands for.
fn read_escape(c: &mut Cursor<'_>, text: &mut Vec<u8>) -> Result<(), YamlFault> {
    let begin = *c;
    let letter = c.peek_at(1);
    c.skip(1);
    if letter == b'\n' {
        let blank = c.skip_break();
        go_on(c)?;
        return push_lines(text, blank);
    }
    c.skip(1);
    let code = match letter {
        b'x' => read_hex(c, 2),
        b'u' => read_unit(c),
        b'U' => read_hex(c, 8),
        _ => short_escape(letter),
    };
    match code.and_then(char::from_u32) {
        Some(char) => push_char(text, char),
        None => Err(begin.fault(YamlProblem::Escape)),
    }
}

// The code of the character that an escape of one letter stands for.
fn short_escape(letter: u8) -> Option<u32> {
    match letter {
        b'0' => Some(0),
        b'a' => Some(7),
        b'b' => Some(8),
        b't' | b'\t' => Some(9),
        b'n' => Some(10),
        b'v' => Some(11),
        b'f' => Some(12),
        b'r' => Some(13),
        b'e' => Some(27),
        b' ' | b'"' | b'/' | b'\\' => Some(u32::from(letter)),
        b'N' => Some(0x85),
        b'_' => Some(0xa0),
        b'L' => Some(0x2028),
        b'P' => Some(0x2029),
        _ => None,
    }
}

// The number that this many hexadecimal digits spell.
fn read_hex(c: &mut Cursor<'_>, digits: usize) -> Option<u32> {
    let code = hexadecimal(c.rest().get(..digits)?)?;
    c.skip(digits);
    u32::try_from(code?).ok()
}

// The code of a \u, or as in JSON of two that are a pair of surrogates.
fn read_unit(c: &mut Cursor<'_>) -> Option<u32> {
    let high = read_hex(c, 4)?;
    if !(0xd800..0xdc00).contains(&high) || !c.rest().starts_with(b"\\u") {
        return Some(high);
    }
    c.skip(2);
    let low = read_hex(c, 4)?;
    (0xdc00..0xe000).contains(&low).then_some(paired(high, low))
}

// The code of a pair of surrogates (RFC 8259, 7).
fn paired(high: u32, low: u32) -> u32 {
    let bits = ((high & 0x3ff) << 10) | (low & 0x3ff);
    bits.saturating_add(0x10000)
}

// Adds a character in UTF-8.
fn push_char(text: &mut Vec<u8>, char: char) -> Result<(), YamlFault> {
    let mut bytes = [0; 4];
    let bytes = char.encode_utf8(&mut bytes);
    text.extend_from_slice(bytes.as_bytes())?;
    Ok(())
}
