//! What conditions name of a result, and the numbers with which they compare it.
use crate::charts::spot::Spot;
use canary_base::error::Memory;
use canary_decimal::shown::Units;
use std::alloc::Global;

/// A number of a condition, and the bytes of the condition that it is: from `begin` to `end`.
#[derive(Clone, Copy, Debug, PartialEq, Eq)]
pub(crate) struct Constant {
    pub(crate) number: i64,
    pub(crate) begin: usize,
    pub(crate) end: usize,
}

/// A number with which a condition compares what it names.
#[derive(Clone, Copy, Debug, PartialEq, Eq)]
pub(crate) struct Threshold {
    pub(crate) spot: Spot,
    pub(crate) constant: Constant,
}

impl Threshold {
    // Whether it is one of that spot, and does not stand for NaN.
    pub(crate) fn is_drawn(self, spot: Spot, units: Units) -> bool {
        self.spot == spot && !units.is_nan(spot.place(), self.constant.number)
    }
}

/// What a condition names of a result, and its bounds: each as often as they stand there, in order.
#[derive(Drop)]
pub(crate) struct Mentions {
    pub(crate) spots: Vec<Spot>,
    pub(crate) thresholds: Vec<Threshold>,
}

// A word of a condition.
#[derive(Clone, Copy, PartialEq, Eq)]
enum ConditionWord {
    Result,
    Number(i64),
    Comparison,
    Open,
    Close,
    Other,
}

// What a comparison is made of: one word, or `result[0]`, which are four.
#[derive(Clone, Copy, PartialEq, Eq)]
enum Term {
    Named(Spot),
    Number(Constant),
    Comparison,
    Other,
}

// How much of `result[0]` the last words are.
#[derive(Clone, Copy, PartialEq, Eq)]
enum ResultPrefix {
    Nothing,
    Result,
    Bracket,
    Index(u64),
}

// What a byte of a condition belongs to.
#[derive(Clone, Copy, PartialEq, Eq)]
enum ByteKind {
    Blank,
    Letters,
    Signs,
    Alone,
}

// What a byte belongs to: a digit, a minus sign and an underscore are letters of a word, too.
fn kind_of(byte: u8) -> ByteKind {
    match byte {
        b' ' | b'\t' | b'\r' | b'\n' => ByteKind::Blank,
        b'<' | b'>' | b'=' | b'!' => ByteKind::Signs,
        b'-' | b'_' => ByteKind::Letters,
        _ if byte.is_ascii_alphanumeric() => ByteKind::Letters,
        _ => ByteKind::Alone,
    }
}

// The word that these bytes of one kind are. An exclamation mark alone is no comparison.
fn word_of(kind: ByteKind, text: &str) -> ConditionWord {
    match kind {
        ByteKind::Signs if text != "!" => ConditionWord::Comparison,
        ByteKind::Letters if text == "result" => ConditionWord::Result,
        ByteKind::Letters => number_of(text),
        ByteKind::Alone if text == "[" => ConditionWord::Open,
        ByteKind::Alone if text == "]" => ConditionWord::Close,
        _ => ConditionWord::Other,
    }
}

// The letters as a number of 64 bits; `Other` if they are no such number.
fn number_of(text: &str) -> ConditionWord {
    match text.parse::<i64>() {
        Ok(number) => ConditionWord::Number(number),
        Err(_) => ConditionWord::Other,
    }
}

// What the word that is these bytes of the condition is by itself.
fn term_of(word: ConditionWord, begin: usize, end: usize) -> Term {
    match word {
        ConditionWord::Number(number) => Term::Number(Constant { number, begin, end }),
        ConditionWord::Comparison => Term::Comparison,
        _ => Term::Other,
    }
}

// A condition that is read from the left: where the present word begins, and what it is made of;
// what was begun of a place; and the two terms before, the newer one last.
#[derive(Drop)]
struct Scan<'a> {
    text: &'a str,
    begin: usize,
    kind: ByteKind,
    begun: ResultPrefix,
    first: Term,
    second: Term,
    found: Mentions,
}

impl Scan<'_> {
    // Takes all bytes of the condition, which this is.
    fn take_all(&mut self, condition: &str) -> Result<(), Memory> {
        for (place, byte) in condition.as_bytes().iter().enumerate() {
            self.take(place, *byte)?;
        }
        self.end_word(condition.len())?;
        self.end_result()
    }

    // Takes the byte at this place.
    fn take(&mut self, place: usize, byte: u8) -> Result<(), Memory> {
        let kind = kind_of(byte);
        if kind == self.kind && kind != ByteKind::Alone {
            return Ok(());
        }
        self.end_word(place)?;
        self.begin = place;
        self.kind = kind;
        Ok(())
    }

    // Takes the word up to this place.
    fn end_word(&mut self, place: usize) -> Result<(), Memory> {
        if self.kind == ByteKind::Blank {
            return Ok(());
        }
        let word = word_of(self.kind, self.text.get(self.begin..place).unwrap_or(""));
        self.take_word(word, place)
    }

    // Takes the word that ends at this place.
    fn take_word(&mut self, word: ConditionWord, end: usize) -> Result<(), Memory> {
        match (self.begun, word) {
            (ResultPrefix::Result, ConditionWord::Open) => self.begun = ResultPrefix::Bracket,
            (ResultPrefix::Bracket, ConditionWord::Number(number)) => {
                self.begun = ResultPrefix::Index(number.unsigned_abs());
            }
            (ResultPrefix::Index(place), ConditionWord::Close) => {
                self.begun = ResultPrefix::Nothing;
                self.take_term(Term::Named(Spot::Place(place)))?;
            }
            _ => {
                self.end_result()?;
                self.begin_term(word, end)?;
            }
        }
        Ok(())
    }

    // The word before was `result` itself, if no bracket follows it.
    fn end_result(&mut self) -> Result<(), Memory> {
        let begun = self.begun;
        self.begun = ResultPrefix::Nothing;
        if begun == ResultPrefix::Result {
            self.take_term(Term::Named(Spot::Whole))?;
        }
        Ok(())
    }

    // Takes the first word of a term: `result` waits for a bracket, any other one is a term itself.
    fn begin_term(&mut self, word: ConditionWord, end: usize) -> Result<(), Memory> {
        if word == ConditionWord::Result {
            self.begun = ResultPrefix::Result;
            return Ok(());
        }
        self.take_term(term_of(word, self.begin, end))
    }

    // Takes a term: notes the spot that it names, and the bound that it ends, if it ends one.
    fn take_term(&mut self, term: Term) -> Result<(), Memory> {
        if let Term::Named(spot) = term {
            self.found.spots.push(spot)?;
        }
        if let Some(bound) = bound_of(self.first, self.second, term) {
            self.found.thresholds.push(bound)?;
        }
        self.first = self.second;
        self.second = term;
        Ok(())
    }
}

// The bound that these three terms are, if they are one.
fn bound_of(first: Term, second: Term, third: Term) -> Option<Threshold> {
    if second != Term::Comparison {
        return None;
    }
    match (first, third) {
        (Term::Named(spot), Term::Number(constant)) => Some(Threshold { spot, constant }),
        (Term::Number(constant), Term::Named(spot)) => Some(Threshold { spot, constant }),
        _ => None,
    }
}

// What the condition of this text mentions.
pub(crate) fn mentions_of(alloc: Global, condition: &str) -> Result<Mentions, Memory> {
    let mut scan = Scan {
        text: condition,
        begin: 0,
        kind: ByteKind::Blank,
        begun: ResultPrefix::Nothing,
        first: Term::Other,
        second: Term::Other,
        found: Mentions {
            spots: Vec::new(alloc),
            thresholds: Vec::new(alloc),
        },
    };
    scan.take_all(condition)?;
    let Scan { found, .. } = scan;
    Ok(found)
}
