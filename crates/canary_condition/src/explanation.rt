//! Why a text is no condition, and at which byte.
//!
//! Tokens that may begin a condition are a front. If the tokens of a text spell no condition, the
//! byte is that after their longest front: the byte of the first token that no condition goes on
//! with, or the text's end. It is found in one pass, for which a place in the grammar and a count
//! of open brackets suffice.
ghost use Rattle.std.specs.Prelude.{◌≡◌, ◌<◌, ◌≤◌, MatchOption, length};
ghost use Rattle.canary_condition.specs.Following.{start, first_of, noted, course_after};
ghost use Rattle.canary_condition.specs.Following.{syntax, end_at, course_end, finished};
ghost use Rattle.canary_condition.specs.Following.{explain_after};
ghost use Rattle.canary_condition.specs.Explaining.{IsACondition, IsExplained};

use crate::condition::{ConditionFault, MAX_BYTES, MAX_DEPTH};
use crate::lexer::{front_token, is_blank};
use crate::token::{self, Token};
use crate::token_place::{self, TokenPlace};

/// What may stand at a place of a condition.
#[derive(Clone, Copy, Debug, PartialEq, Eq)]
pub enum Expected {
    /// `not`, `(` or an operand.
    Term,
    /// An operand.
    Operand,
    /// A comparison sign.
    Comparison,
    /// `[` or a comparison sign.
    ItemOrComparison,
    /// The digits of a place in a list.
    Index,
    /// `]`.
    CloseItem,
    /// `and`, `or` or the end.
    SignOrEnd,
    /// `and`, `or` or `)`.
    SignOrClose,
    /// `[`, `and`, `or` or the end.
    ItemSignOrEnd,
    /// `[`, `and`, `or` or `)`.
    ItemSignOrClose,
}

/// Why a text is no condition.
#[derive(Clone, Copy, Debug, PartialEq, Eq)]
pub enum Why {
    /// It has more than 1,024 bytes.
    TooLong,
    /// The bytes there begin no token.
    NoToken,
    /// A number lies outside a signed 64-bit number.
    NumberRange,
    /// More than 32 round brackets are open.
    TooDeep,
    /// The tokens up to there may begin a condition, and only this may follow them.
    Syntax(Expected),
}

/// Why a text is no condition, and at which byte, counted from 0.
#[derive(Clone, Copy, Debug, PartialEq, Eq)]
pub struct Explained {
    pub at: u32,
    pub why: Why,
}

// How far the tokens are those of a condition.
#[derive(Clone, Copy)]
enum TokenProgress {
    // As far as they were read, to this place.
    At(TokenPlace),
    // Up to the token at this byte, where something else was expected.
    Stopped(u32, Expected),
}

// What was seen in some tokens.
#[derive(Clone, Copy)]
struct TokenNotes {
    // The byte of the first number out of range.
    number: Option<u32>,
    // The byte of the first bracket that is one too many.
    bracket: Option<u32>,
    // The round brackets that are open.
    opened: usize,
    course: TokenProgress,
}

// The byte where something holds for the first time, with one more byte where it may hold.
fn first_of(before: Option<u32>, holds: bool, at: u32) -> Option<u32>
    ensures { result ≡ first_of before holds at }
{
    match before {
        Some(byte) => Some(byte),
        None if holds => Some(at),
        None => None,
    }
}

// How far it goes with one more token, at this byte, with so many brackets open before it.
fn course_after(course: TokenProgress, opened: usize, at: u32, token: Token) -> TokenProgress
    ensures { result ≡ course_after course opened at token }
{
    match course {
        TokenProgress::Stopped(byte, expected) => TokenProgress::Stopped(byte, expected),
        TokenProgress::At(before) => match token_place::next(before, opened, token) {
            Some(after) => TokenProgress::At(after),
            None => TokenProgress::Stopped(at, token_place::expected(before, opened)),
        },
    }
}

// The explanation that at this byte something else was expected.
fn syntax(at: u32, expected: Expected) -> Explained
    ensures { result ≡ syntax at expected }
{
    Explained {
        at,
        why: Why::Syntax(expected),
    }
}

impl TokenNotes {
    // Of no token.
    fn new() -> TokenNotes
        ensures { result ≡ start }
    {
        TokenNotes {
            number: None,
            bracket: None,
            opened: 0,
            course: TokenProgress::At(TokenPlace::Term),
        }
    }

    // With one more token, at this byte.
    fn with(self, at: u32, token: Token) -> TokenNotes
        requires { self.opened < usize.MAX }
        ensures value { result ≡ noted self at token }
    {
        let opened = token::with_token(self.opened, token);
        TokenNotes {
            number: first_of(self.number, token::is_out_of_range(token), at),
            bracket: first_of(self.bracket, opened > MAX_DEPTH, at),
            opened,
            course: course_after(self.course, self.opened, at, token),
        }
    }

    // What they say of a text that ends at this byte.
    fn finish(self, at: u32) -> Option<Explained>
        ensures { result ≡ finished self at }
    {
        if let Some(at) = self.number {
            return Some(Explained {
                at,
                why: Why::NumberRange,
            });
        }
        if let Some(at) = self.bracket {
            return Some(Explained {
                at,
                why: Why::TooDeep,
            });
        }
        course_end(self.course, self.opened, at)
    }
}

// What is wrong at the end of the tokens, at this byte.
fn course_end(course: TokenProgress, opened: usize, at: u32) -> Option<Explained>
    ensures { result ≡ course_end course opened at }
{
    match course {
        TokenProgress::Stopped(byte, expected) => Some(syntax(byte, expected)),
        TokenProgress::At(place) => end_at(token_place::expected(place, opened), at),
    }
}

// The explanation if this is expected at the end.
fn end_at(expected: Expected, at: u32) -> Option<Explained>
    ensures { result ≡ end_at expected at }
{
    if token_place::may_end(expected) {
        return None;
    }
    Some(syntax(at, expected))
}

// Why a text that is not too long is no condition.
fn explain_bytes(text: &[u8]) -> Option<Explained>
    requires { length text.now ≤ MAX_BYTES }
    ensures { result ≡ explain_after start 0 0 text.now }
{
    let mut notes = TokenNotes::new();
    let mut at = 0;
    while at < text.len() {
        if is_blank(text[at]) {
            at += 1;
        } else {
            let Some((token, len)) = front_token(&text[at..]) else {
                return Some(Explained {
                    at: at as u32,
                    why: Why::NoToken,
                });
            };
            notes = notes.with(at as u32, token);
            at += len;
        }
    }
    notes.finish(at as u32)
}

impl Why {
    ghost use Rattle.canary_condition.specs.Explaining.{fault_of};

    /// The fault that `Condition::parse` answers of such a text, given memory.
    pub fn fault(self) -> ConditionFault
        ensures { result ≡ fault_of self }
    {
        match self {
            Why::TooLong => ConditionFault::TooLong,
            Why::NoToken => ConditionFault::Syntax,
            Why::NumberRange => ConditionFault::NumberRange,
            Why::TooDeep => ConditionFault::TooDeep,
            Why::Syntax(_) => ConditionFault::Syntax,
        }
    }
}

/// Why a text is no condition, and at which byte; none exactly if it is one. Of several faults
/// it explains the one that `Condition::parse` answers. The byte is 1,024 if the text is too
/// long, and else that of the first number out of range, of the first bracket that is one too many,
/// of the first bytes that are no token, or the one after the longest front. It takes no memory,
/// and time in proportion to the text.
pub fn explain(text: &str) -> Option<Explained>
    ensures { MatchOption result
        (IsACondition text.now)
        (λ explained. IsExplained text.now explained) }
{
    if text.len() > MAX_BYTES {
        return Some(Explained {
            at: MAX_BYTES as u32,
            why: Why::TooLong,
        });
    }
    explain_bytes(text.as_bytes())
}
