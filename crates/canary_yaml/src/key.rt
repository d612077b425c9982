//! Keys.
use crate::cursor::Cursor;
use crate::fault::{YamlFault, YamlProblem};
use crate::plain::{Style, is_plain_here, plain_part};
use crate::quoted::read_quoted;
use crate::schema::{PlainScalar, meaning_of, string_of};
use std::alloc::Global;

const BLOCK: Style = Style::Block(0);

/// Whether a key of a block mapping begins here, with its colon in the same line.
pub(crate) fn is_key_here(c: &Cursor<'_>) -> bool {
    let mut ahead = *c;
    let quote = c.peek();
    if quote == b'"' || quote == b'\'' {
        ahead.skip(quoted_len(c.line_rest(), quote));
    } else if is_plain_here(c, BLOCK) {
        ahead.skip(plain_part(c.rest(), BLOCK).len());
    } else {
        return false;
    }
    ahead.skip_white();
    ahead.is_mark(b':')
}

// How long a text in quotes is with these, in one line: all of the line, if it does not end there.
fn quoted_len(line: &[u8], quote: u8) -> usize {
    // Whether the byte before says that this one is of the text: a backslash, or the first of two
    // single quotes.
    let mut is_escaped = false;
    for (at, byte) in line.iter().enumerate().skip(1) {
        let end = at.saturating_add(1);
        let is_double = quote == b'\'' && line.get(end) == Some(&quote);
        if *byte == quote && !is_double && !is_escaped {
            return end;
        }
        is_escaped = !is_escaped
            && (is_double && *byte == quote || quote == b'"' && *byte == b'\\');
    }
    line.len()
}

/// The key that begins here. The cursor is left right after it.
///
/// # Errors
/// `Merge`; `KeyKind`, if it is a number, a boolean or null; what `value_of` refuses a plain scalar
/// for, or `read_quoted` a text in quotes; `Memory`.
pub(crate) fn read_key(
    alloc: Global,
    c: &mut Cursor<'_>,
    style: Style,
) -> Result<String, YamlFault> {
    let begin = *c;
    if c.peek() == b'"' || c.peek() == b'\'' {
        return string_of(read_quoted(alloc, c)?, &begin);
    }
    let part = plain_part(c.rest(), style);
    c.skip(part.len());
    refuse_key(part, &begin)?;
    string_of(Vec::from_slice(alloc, part)?, &begin)
}

// Refuses a plain scalar that is no key. It began here.
fn refuse_key(part: &[u8], begin: &Cursor<'_>) -> Result<(), YamlFault> {
    if part == b"<<".as_slice() {
        return Err(begin.fault(YamlProblem::Merge));
    }
    match meaning_of(part) {
        PlainScalar::Text => Ok(()),
        PlainScalar::Refused(why) => Err(begin.fault(why)),
        PlainScalar::InOtherBase(number) => Err(begin.fault_of(number)),
        _ => Err(begin.fault(YamlProblem::KeyKind)),
    }
}

/// Goes past the colon that stands here after white space.
///
/// # Errors
/// `NoKey`, if there is none.
pub(crate) fn skip_colon(c: &mut Cursor<'_>) -> Result<(), YamlFault> {
    c.skip_white();
    if !c.is_mark(b':') {
        return Err(c.fault(YamlProblem::NoKey));
    }
    c.skip(1);
    Ok(())
}
