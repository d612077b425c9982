//! A place in a text, and what is next there.
//!
//! LF stands between the lines of the text, and no byte is 0: 0 stands for the end of the text.
use crate::fault::{YamlFault, YamlProblem};
use crate::places::Place;

/// A place in a text.
#[derive(Clone, Copy)]
pub(crate) struct Cursor<'a> {
    text: &'a [u8],
    at: usize,
    // Where the line begins.
    start: usize,
    // The number of the line, from 1.
    line: usize,
}

// Spaces and tabs.
const WHITE: &[u8] = b" \t";

/// Whether it is a space or a tab.
pub(crate) fn is_white(byte: u8) -> bool {
    byte == b' ' || byte == b'\t'
}

/// Whether a word ends before it: white space, the end of a line, or that of the text.
pub(crate) fn is_gap(byte: u8) -> bool {
    is_white(byte) || byte == b'\n' || byte == 0
}

impl<'a> Cursor<'a> {
    /// The front of a text.
    pub(crate) fn new(text: &'a [u8]) -> Cursor<'a> {
        Cursor {
            text,
            at: 0,
            start: 0,
            line: 1,
        }
    }

    /// How many bytes the text has. No loop over the text has more turns, since each turn takes a
    /// byte at least.
    pub(crate) fn turns(&self) -> usize {
        self.text.len()
    }

    /// The fault here.
    pub(crate) fn fault(&self, why: YamlProblem) -> YamlFault {
        let Place { line, column } = self.place();
        YamlFault::Refused { line, column, why }
    }

    /// The line and the column here.
    pub(crate) fn place(&self) -> Place {
        let before = self.text.get(self.start..self.at).unwrap_or(&[]);
        Place {
            line: self.line,
            column: characters(before).saturating_add(1),
        }
    }

    /// The fault of a number here that kubectl reads as this one; `Range` if it has more than 64
    /// bits.
    pub(crate) fn fault_of(&self, reads: Option<i64>) -> YamlFault {
        match (self.fault(YamlProblem::Range), reads) {
            (YamlFault::Refused { line, column, .. }, Some(reads)) => YamlFault::Number {
                line,
                column,
                reads,
            },
            (fault, _) => fault,
        }
    }

    /// The number of the line, from 1.
    pub(crate) fn line(&self) -> usize {
        self.line
    }

    /// How many bytes of the line stand before this place.
    pub(crate) fn column(&self) -> usize {
        self.at.saturating_sub(self.start)
    }

    /// What is left of the text.
    pub(crate) fn rest(&self) -> &'a [u8] {
        self.text.get(self.at..).unwrap_or(&[])
    }

    /// What is left of the line, without its LF.
    pub(crate) fn line_rest(&self) -> &'a [u8] {
        let rest = self.rest();
        let end = rest.iter().position(|byte| *byte == b'\n');
        match end {
            Some(end) => rest.get(..end).unwrap_or(&[]),
            None => rest,
        }
    }

    /// The byte here, and 0 at the end of the text.
    pub(crate) fn peek(&self) -> u8 {
        self.peek_at(0)
    }

    /// The byte that many after this one, and 0 after the end.
    pub(crate) fn peek_at(&self, ahead: usize) -> u8 {
        self.rest().get(ahead).copied().unwrap_or(0)
    }

    /// Whether this byte stands here, and a word ends after it.
    pub(crate) fn is_mark(&self, byte: u8) -> bool {
        self.peek() == byte && is_gap(self.peek_at(1))
    }

    /// Whether the text ends here.
    pub(crate) fn is_at_end(&self) -> bool {
        self.rest().is_empty()
    }

    /// Whether this marker of a document, `---` or `...`, stands here alone.
    pub(crate) fn is_marker(&self, marker: &[u8]) -> bool {
        self.column() == 0 && self.rest().starts_with(marker) && is_gap(self.peek_at(3))
    }

    /// Whether the document ends here.
    pub(crate) fn is_over(&self) -> bool {
        self.is_at_end() || self.is_marker(b"---") || self.is_marker(b"...")
    }

    /// Whether the line has nothing more but white space and a comment. If a text stands right
    /// before this place, `#` begins no comment.
    pub(crate) fn is_line_over(&self) -> bool {
        let mut ahead = *self;
        ahead.skip_white();
        match ahead.peek() {
            b'\n' | 0 => true,
            b'#' => ahead.is_after_gap(),
            _ => false,
        }
    }

    // Whether the line begins here, or white space stands before this place.
    fn is_after_gap(&self) -> bool {
        let before = self.at.saturating_sub(1);
        self.at == 0 || is_gap(self.text.get(before).copied().unwrap_or(0))
    }

    /// Goes that many bytes on in the line.
    pub(crate) fn skip(&mut self, count: usize) {
        self.at = self.at.saturating_add(count);
    }

    /// Goes past the spaces and tabs that stand here.
    pub(crate) fn skip_white(&mut self) {
        self.skip(count_of(self.rest(), WHITE));
    }

    /// Goes past the spaces that stand here.
    pub(crate) fn skip_spaces(&mut self) {
        self.skip(count_of(self.rest(), b" "));
    }

    /// Goes to the next line.
    pub(crate) fn next_line(&mut self) {
        self.skip(self.line_rest().len());
        self.skip(1);
        self.begin_line();
    }

    /// Takes this place for the front of the next line.
    pub(crate) fn begin_line(&mut self) {
        self.start = self.at;
        self.line = self.line.saturating_add(1);
    }

    /// Goes to the next line, if this one has nothing more but white space and a comment.
    ///
    /// # Errors
    /// `Colon` or `Trailing`, if it has more.
    pub(crate) fn end_line(&mut self) -> Result<(), YamlFault> {
        if self.is_at_end() {
            return Ok(());
        }
        if self.is_line_over() {
            self.next_line();
            return Ok(());
        }
        self.skip_white();
        let why = if self.peek() == b':' {
            YamlProblem::Colon
        } else {
            YamlProblem::Trailing
        };
        Err(self.fault(why))
    }

    /// Whether the text ends with this line, and no LF stands after it.
    pub(crate) fn is_last_line(&self) -> bool {
        self.line_rest().len() == self.rest().len()
    }

    /// Goes to what stands next, in this line or in a later one, past blank lines and comments.
    ///
    /// # Errors
    /// `Tab`, if a tab stands before it in its line.
    pub(crate) fn skip_to_token(&mut self) -> Result<(), YamlFault> {
        for _ in 0..self.turns() {
            if self.is_at_end() || !self.is_line_over() {
                break;
            }
            self.next_line();
        }
        self.skip_spaces();
        self.refuse_tab()
    }

    /// Refuses a tab here.
    pub(crate) fn refuse_tab(&self) -> Result<(), YamlFault> {
        if self.peek() == b'\t' {
            return Err(self.fault(YamlProblem::Tab));
        }
        Ok(())
    }

    /// Goes to the front of the next line that is not blank. Returns how many blank ones are before
    /// it.
    pub(crate) fn skip_break(&mut self) -> usize {
        let mut blank: usize = 0;
        for _ in 0..self.turns() {
            self.next_line();
            if self.is_at_end() || !self.is_blank() {
                break;
            }
            blank = blank.saturating_add(1);
        }
        blank
    }

    // Whether the line has nothing more but white space.
    fn is_blank(&self) -> bool {
        let line = self.line_rest();
        count_of(line, WHITE) == line.len()
    }
}

// How many characters it has: bytes that begin one.
fn characters(text: &[u8]) -> usize {
    text.iter().filter(|byte| **byte & 0xc0 != 0x80).count()
}

/// With how many bytes of this kind it begins.
pub(crate) fn count_of(bytes: &[u8], kind: &[u8]) -> usize {
    bytes.iter().take_while(|byte| kind.contains(byte)).count()
}
