//! Block scalars: literal (`|`), and folded (`>`).
use crate::cursor::{Cursor, count_of, is_white};
use crate::fault::{YamlFault, YamlProblem};
use crate::folded::{push_break, push_lines};
use std::alloc::Global;

// What `|` or `>` says, with what follows in its line.
#[derive(Clone, Copy)]
struct Header {
    is_folded: bool,
    // `-` or `+`, if it stands there.
    chomp: Option<u8>,
    // By how much the lines are indented, if a digit says so.
    digit: Option<usize>,
}

// How a text ends so far.
#[derive(Clone, Copy)]
struct TrailingBreaks {
    // How many lines ended since its last byte.
    breaks: usize,
    // Whether it has no line, or the last one begins with white space: its end is not folded.
    is_fixed: bool,
}

/// The block scalar that begins here, in lines that are indented by this much at least. The cursor
/// is left at the front of a line.
///
/// # Errors
/// `Header`, if something else stands after `|` or `>`; `Indentation`, if blank lines before the
/// first one are longer than that is indented; `Memory`.
pub(crate) fn read_literal(
    alloc: Global,
    c: &mut Cursor<'_>,
    least: usize,
) -> Result<Vec<u8>, YamlFault> {
    let mut text = Vec::new(alloc);
    push_literal(&mut text, c, least)?;
    Ok(text)
}

// Adds the block scalar that begins here.
fn push_literal(text: &mut Vec<u8>, c: &mut Cursor<'_>, least: usize) -> Result<(), YamlFault> {
    let header = read_header(c)?;
    c.end_line()?;
    let column = match header.digit {
        Some(digit) => least.saturating_sub(1).saturating_add(digit),
        None => first_column(c, least)?,
    };
    let ending = push_body(text, c, column, header.is_folded)?;
    push_lines(text, ending.kept(header.chomp, text.is_empty()))
}

// Adds the lines from here on that are indented by this much.
fn push_body(
    text: &mut Vec<u8>,
    c: &mut Cursor<'_>,
    column: usize,
    is_folded: bool,
) -> Result<TrailingBreaks, YamlFault> {
    let mut ending = TrailingBreaks {
        breaks: 0,
        is_fixed: true,
    };
    for _ in 0..c.turns() {
        let Some(line) = line_at(c, column) else {
            break;
        };
        ending = push_line(text, line, ending, is_folded)?.with_line(c.is_last_line());
        c.next_line();
    }
    Ok(ending)
}

// What the line that begins with `|` or `>` says.
fn read_header(c: &mut Cursor<'_>) -> Result<Header, YamlFault> {
    let mut header = Header {
        is_folded: c.peek() == b'>',
        chomp: None,
        digit: None,
    };
    c.skip(1);
    for _ in 0..2 {
        match c.peek() {
            sign @ (b'-' | b'+') if header.chomp.is_none() => header.chomp = Some(sign),
            digit @ b'1'..=b'9' if header.digit.is_none() => {
                header.digit = Some(usize::from(digit.saturating_sub(b'0')));
            }
            _ => break,
        }
        c.skip(1);
    }
    if !c.is_line_over() {
        return Err(c.fault(YamlProblem::Header));
    }
    Ok(header)
}

// How far the lines are indented, by the first one that has more than spaces; if there is none, by
// the longest one.
fn first_column(c: &Cursor<'_>, least: usize) -> Result<usize, YamlFault> {
    let mut ahead = *c;
    let mut longest = least;
    for _ in 0..c.turns() {
        let line = ahead.line_rest();
        let column = count_of(line, b" ");
        if ahead.is_over() || column < line.len() && column < least {
            break;
        }
        if column < line.len() && column < longest {
            ahead.skip(column);
            return Err(ahead.fault(YamlProblem::Indentation));
        }
        if column < line.len() {
            return Ok(column);
        }
        longest = longest.max(column);
        ahead.next_line();
    }
    Ok(longest)
}

// What the line here adds to a text that is indented by this much, or None if the text is over.
fn line_at<'a>(c: &Cursor<'a>, column: usize) -> Option<&'a [u8]> {
    let line = c.line_rest();
    let spaces = count_of(line, b" ");
    if c.is_over() || spaces < column && spaces < line.len() {
        return None;
    }
    Some(line.get(column..).unwrap_or(&[]))
}

// Adds a line, without its end, to a text that ends so.
fn push_line(
    text: &mut Vec<u8>,
    line: &[u8],
    ending: TrailingBreaks,
    is_folded: bool,
) -> Result<TrailingBreaks, YamlFault> {
    let Some(first) = line.first() else {
        return Ok(ending);
    };
    let is_white = is_white(*first);
    if !is_folded || ending.is_fixed || is_white {
        push_lines(text, ending.breaks)?;
    } else {
        push_break(text, ending.breaks.saturating_sub(1))?;
    }
    text.extend_from_slice(line)?;
    Ok(TrailingBreaks {
        breaks: 0,
        is_fixed: is_white,
    })
}

impl TrailingBreaks {
    // With the end of a line, if it has one: the last line of a text may have none.
    fn with_line(self, is_last: bool) -> TrailingBreaks {
        let breaks = if is_last {
            self.breaks
        } else {
            self.breaks.saturating_add(1)
        };
        TrailingBreaks { breaks, ..self }
    }

    // How many ends of lines are kept: none by `-`, all by `+`, else one.
    fn kept(self, chomp: Option<u8>, is_empty: bool) -> usize {
        match chomp {
            Some(b'-') => 0,
            Some(_) => self.breaks,
            None if is_empty => 0,
            None => self.breaks.min(1),
        }
    }
}
