//! Why a text is not read.
use std::alloc::{AllocError, AllocFailed};
use thiserror::Error;

/// Why a text is not read.
#[derive(Clone, Copy, Debug, PartialEq, Eq, Error)]
pub enum YamlFault {
    /// An allocation was refused.
    #[error("out of memory")]
    Memory,
    /// What stands at this line and column, each counted from 1, is not read. A column is a
    /// character.
    #[error("line {line}, column {column}: {}", .why.text())]
    Refused {
        line: usize,
        column: usize,
        why: YamlProblem,
    },
    /// A plain scalar at this line and column is this number to kubectl, and another one or a text
    /// to YAML 1.1 or 1.2: 0644, 0o644 or 0b101.
    #[error("line {line}, column {column}: kubectl reads {reads}: write that, or put it in quotes")]
    Number {
        line: usize,
        column: usize,
        reads: i64,
    },
}

/// What is not read. `text` says it in words, with what to write instead.
#[derive(Clone, Copy, Debug, PartialEq, Eq)]
pub enum YamlProblem {
    Length,
    Utf8,
    Control,
    Tab,
    Directive,
    Anchor,
    Alias,
    Tag,
    Merge,
    ComplexKey,
    KeyKind,
    Duplicate,
    Nesting,
    Indentation,
    NoKey,
    Colon,
    Indicator,
    NoComma,
    Unclosed,
    Escape,
    Header,
    Range,
    NotFinite,
    OldTrue,
    OldFalse,
    Underscore,
    Base60,
    Trailing,
    Empty,
    Second,
    Json,
}

impl YamlProblem {
    /// What is not read, and what to write instead: one line without a full stop.
    pub fn text(self) -> &'static str {
        match self {
            YamlProblem::Length => "the text is longer than 1,048,576 bytes",
            YamlProblem::Utf8 => "this is not UTF-8",
            YamlProblem::Control =>
                "a control character: write an escape in double quotes, as \\u0007",
            YamlProblem::Tab => "a tab in an indentation: write spaces",
            YamlProblem::Directive => "a directive (%): leave it out",
            YamlProblem::Anchor => "an anchor (&): write the value again where it is used",
            YamlProblem::Alias => "an alias (*): write the value again, or put a text in quotes",
            YamlProblem::Tag => "a tag (!): leave it out, or put a text in quotes",
            YamlProblem::Merge => "a merge key (<<): write the members",
            YamlProblem::ComplexKey => "a complex key: write a key as one text in one line",
            YamlProblem::KeyKind => "a key that is a number, true, false or null: put it in quotes",
            YamlProblem::Duplicate => "a key that this mapping has already: leave one out",
            YamlProblem::Nesting => "mappings and sequences nested more than 127 deep",
            YamlProblem::Indentation => "an indentation that fits no line before it",
            YamlProblem::NoKey => "no key with a colon, as in the lines before it",
            YamlProblem::Colon =>
                "a colon after a value: put a text in quotes, a mapping on its own lines",
            YamlProblem::Indicator => "no text begins with this character: put it in quotes",
            YamlProblem::NoComma => "no comma and no closing bracket: write one before this",
            YamlProblem::Unclosed => "a quote or a bracket that is not closed",
            YamlProblem::Escape => "an escape that YAML does not have: write \\\\ for a backslash",
            YamlProblem::Header => "after | or > stand - or +, a digit of 1 to 9, both, or nothing",
            YamlProblem::Range => "a number out of range: put it in quotes if it is a text",
            YamlProblem::NotFinite =>
                "infinity and NaN, which JSON does not have: put a text in quotes",
            YamlProblem::OldTrue => "YAML 1.1 reads true here: write true, or put it in quotes",
            YamlProblem::OldFalse => "YAML 1.1 reads false here: write false, or put it in quotes",
            YamlProblem::Underscore => {
                "a number in YAML 1.1 alone: write 1000 for 1_000, or put it in quotes"
            }
            YamlProblem::Base60 => "base 60 in YAML 1.1, as 750 for 12:30: put it in quotes",
            YamlProblem::Trailing => "more text after a value",
            YamlProblem::Empty => "the text has no document",
            YamlProblem::Second => "a second document: keep each in a file of its own",
            YamlProblem::Json => "no JSON from here on, though the text begins with {: correct it",
        }
    }
}

impl From<AllocError> for YamlFault {
    // A refused allocation is `Memory`.
    fn from(_: AllocError) -> YamlFault {
        YamlFault::Memory
    }
}

impl<T: Drop> From<AllocFailed<T>> for YamlFault {
    // The same if a value found no room, which is dropped.
    fn from(_: AllocFailed<T>) -> YamlFault {
        YamlFault::Memory
    }
}
