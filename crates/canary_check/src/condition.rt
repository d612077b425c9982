//! What is expected in the text of a condition.
use canary_condition::explanation::{Expected, Why};

/// What is expected at the byte of which this is said.
pub(crate) fn expected(why: Why) -> &'static str {
    match why {
        Why::TooLong => "at most 1,024 bytes",
        Why::NoToken => "result, a whole number, a bracket, a comparison, &&, || or !",
        Why::NumberRange => "a signed number of 64 bits",
        Why::TooDeep => "at most 32 open brackets",
        Why::Syntax(expected) => expected_next(expected),
    }
}

// What may come in place of a token that does not fit.
fn expected_next(expected: Expected) -> &'static str {
    match expected {
        Expected::Term => "result, a whole number, ( or !",
        Expected::Operand => "result or a whole number",
        Expected::Comparison => "==, !=, <, <=, > or >=",
        Expected::ItemOrComparison => "[, ==, !=, <, <=, > or >=",
        Expected::Index => "the digits of an index",
        Expected::CloseItem => "]",
        Expected::SignOrEnd => "&&, || or the end",
        Expected::SignOrClose => "&&, || or )",
        Expected::ItemSignOrEnd => "[, &&, || or the end",
        Expected::ItemSignOrClose => "[, &&, || or )",
    }
}
