//! Why a condition of Argo Rollouts is not translated, and what to write.
use canary_base::error::Memory;
use canary_condition::condition::ConditionFault;
use std::alloc::AllocFailed;

/// What a condition has that is not translated.
#[derive(Clone, Copy, Debug, PartialEq, Eq)]
pub enum UnsupportedSyntax {
    /// A byte that begins nothing of a condition.
    Byte,
    /// A number in another form, or with more than 15 digits, or with more than 17 after the point.
    /// An exponent counts as so many digits more.
    Number,
    /// `+`, `-`, `*`, `/`, `%` or `^`.
    Arithmetic,
    /// A text.
    Text,
    /// A member, as `result.value`.
    Member,
    /// `|`.
    Pipe,
    /// `? :` or `??`.
    Choice,
    /// `{`, but for that of `{{args.NAME}}`, which is filled in before.
    Argument,
    /// `in`.
    In,
    /// `matches`, `contains`, `startsWith` or `endsWith`.
    Matching,
    /// `true`, `false`, or a result alone.
    Truth,
    /// `nil` or `null`.
    Nil,
    /// A function.
    Function,
    /// A name.
    Name,
    /// Two results compared with each other.
    TwoResults,
    /// Two numbers compared with each other.
    TwoNumbers,
    /// A chain of comparisons, as `1 < result < 5`.
    Chain,
    /// `!` before a comparison.
    NotBeforeComparison,
    /// A place of a list that is no plain number, or lies after the 16th value.
    Place,
    /// Something else where a comparison must stand.
    Comparison,
    /// Signs and brackets that do not fit together.
    Brackets,
    /// `result` beside `result[0]`.
    Shape,
    /// A number that does not fit, times the power of ten of the metric's places.
    Range,
    /// A length compared with a number that is not whole, or has more than 15 digits.
    Fraction,
    /// `asInt` beside `isNaN` or `isInf`.
    AsInt,
    /// `default` beside a value without it.
    Default,
    /// `default` round a place of a list.
    DefaultPlace,
    /// More than 1,024 bytes once it is translated, or more than 32 brackets open at one place.
    Length,
}

// What to write in place of a text.
const A_TEXT: &str = "a text: have what is asked give 1 or 0, and write result == 1";

impl UnsupportedSyntax {
    /// What it is, and what to write.
    pub fn text(self) -> &'static str {
        match self {
            UnsupportedSyntax::Byte => "no condition of Argo has that here",
            UnsupportedSyntax::Number => "this number: write 15 digits at most, as 0.95",
            UnsupportedSyntax::Arithmetic => "arithmetic: do it in the query",
            UnsupportedSyntax::Text => A_TEXT,
            UnsupportedSyntax::Member => "a member: put the path into the provider's jsonPath",
            UnsupportedSyntax::Pipe => "a pipe: do it in the query",
            UnsupportedSyntax::Choice => "a choice: write default(result, 0) for ??, and no ? :",
            UnsupportedSyntax::Argument =>
                "an argument is written {{args.NAME}}, and named in the template's args",
            UnsupportedSyntax::In => "in: write result == 1 || result == 2, and so on",
            UnsupportedSyntax::Matching => A_TEXT,
            UnsupportedSyntax::Truth =>
                "a truth: have what is asked give 1 or 0, and write result == 1",
            UnsupportedSyntax::Nil =>
                "nil: write default(result, 0) at each value, or leave it out",
            UnsupportedSyntax::Function => "this function: do it in the query",
            UnsupportedSyntax::Name => "a name: a condition knows result alone",
            UnsupportedSyntax::TwoResults =>
                "two results: put their quotient or difference into the query",
            UnsupportedSyntax::TwoNumbers => "two numbers: leave the comparison out",
            UnsupportedSyntax::Chain => "a chain: write 1 < result && result < 5",
            UnsupportedSyntax::NotBeforeComparison => "! before a comparison: write !(result > 5)",
            UnsupportedSyntax::Place => {
                "this place of a list: write result[0], up to result[15]; with len(result), to [14]"
            }
            UnsupportedSyntax::Comparison => "a comparison is wanted here, as result[0] >= 0.95",
            UnsupportedSyntax::Brackets => "signs or brackets that do not fit together",
            UnsupportedSyntax::Shape => "result beside result[0]: write one of the two",
            UnsupportedSyntax::Range => "this number is too large for the digits after the points",
            UnsupportedSyntax::Fraction => "a length is whole: write a whole number",
            UnsupportedSyntax::AsInt => "asInt beside isNaN or isInf: leave asInt out",
            UnsupportedSyntax::Default =>
                "default beside a value without it: write it at each value",
            UnsupportedSyntax::DefaultPlace => {
                "default of a place, which gives the whole result in Argo: write default(result, 0)"
            }
            UnsupportedSyntax::Length =>
                "this condition is too long, or nests too deep: write it shorter",
        }
    }
}

/// What is not translated, and at which byte of the condition.
#[derive(Clone, Copy, Debug, PartialEq, Eq)]
pub struct SyntaxFinding {
    pub why: UnsupportedSyntax,
    pub at: usize,
}

/// Why a condition is not translated.
#[derive(Clone, Copy, Debug, PartialEq, Eq)]
pub enum TranslationFault {
    /// An allocation was refused.
    Memory,
    /// It has this.
    Refused(SyntaxFinding),
}

impl TranslationFault {
    // It has this, at that place.
    pub(crate) fn refused(why: UnsupportedSyntax, at: usize) -> TranslationFault {
        TranslationFault::Refused(SyntaxFinding { why, at })
    }
}

impl From<ConditionFault> for TranslationFault {
    // What the desk's parser finds, at place 0: `Brackets` for syntax, `Length` for a limit.
    fn from(fault: ConditionFault) -> TranslationFault {
        match fault {
            ConditionFault::Memory => TranslationFault::Memory,
            ConditionFault::Syntax => TranslationFault::refused(UnsupportedSyntax::Brackets, 0),
            _ => TranslationFault::refused(UnsupportedSyntax::Length, 0),
        }
    }
}

impl From<Memory> for TranslationFault {
    // A refused allocation, as the fault of a translation.
    fn from(_: Memory) -> TranslationFault {
        TranslationFault::Memory
    }
}

impl<T: Drop> From<AllocFailed<T>> for TranslationFault {
    // A refused allocation, as the fault of a translation; the value that found no room is dropped.
    fn from(_: AllocFailed<T>) -> TranslationFault {
        TranslationFault::Memory
    }
}
