//! Decimals from text, as Prometheus and JSON write them: `-0.953`, `1e-05`, `NaN`, `+Inf`.
//!
//! ```text
//! text     := ["-"] mantissa [exponent]
//! mantissa := digits ["." digits]
//! exponent := ("e" | "E") ["-" | "+"] digits
//! ```
//!
//! An exponent has four digits at most; nothing else is limited. JSON's numbers are of this
//! grammar (RFC 8259, section 6); leading zeros are taken, too. A text of Prometheus is of this
//! grammar, or one of `NaN`, `Inf`, `+Inf` and `-Inf`.
ghost use Rattle.std.specs.Prelude.{◌≡◌, ◌≤◌, ◌<◌, IsTrue, IfSome, IfOk, length};
ghost use Rattle.std.specs.Prelude.{option_map, position};
ghost use Rattle.std.specs.List.{list_all, position_or_len};
ghost use Rattle.std.specs.Char.{is_ascii_digit};
ghost use Rattle.canary_decimal.specs.Exactness.{Fraction};
ghost use Rattle.canary_decimal.specs.Spelling.{IsTextOf, ReadsAs};
ghost use Rattle.canary_decimal.specs.Reader.{is_digits, is_either, up_to, from, power_of};
ghost use Rattle.canary_decimal.specs.Reader.{zeros, places, zeros_and_places, exponent_of};
ghost use Rattle.canary_decimal.specs.Reader.{fraction_of, digits_of, unsigned, spelled};
ghost use Rattle.canary_decimal.specs.Reader.{word_of, reading_of};
ghost use Rattle.std.specs.Str.{bytes_eq};

use crate::decimal::{Decimal, leading};
use canary_base::error::Memory;
use std::alloc::Global;

/// The most digits of an exponent.
pub const MAX_EXPONENT_DIGITS: usize = 4;

/// What a text of a measured value says.
#[derive(Drop)]
pub enum Reading {
    /// A decimal.
    Number(Decimal),
    /// `NaN`.
    NotANumber,
    /// `Inf` or `+Inf`.
    Infinite,
    /// `-Inf`.
    MinusInfinite,
}

// Whether each byte is a digit.
pub(crate) fn are_digits(word: &[u8]) -> bool
    ensures { result ≡ list_all is_ascii_digit word.now }
{
    word.iter().all(|byte| byte.is_ascii_digit())
}

// One digit or more.
pub(crate) fn is_digits(word: &[u8]) -> bool
    ensures { result ≡ is_digits word.now }
{
    !word.is_empty() && are_digits(word)
}

// The place of the first of these two bytes.
fn found(text: &[u8], first: u8, second: u8) -> Option<usize>
    ensures { result ≡ position (is_either first second) text.now }
{
    text.iter()
        .position(|byte| *byte == first || *byte == second)
}

// The place of the first of these two bytes, or the length.
fn place_of(text: &[u8], first: u8, second: u8) -> usize
    ensures place { result ≡ position_or_len (is_either first second) text.now }
    ensures within { result ≤ length text.now }
{
    found(text, first, second).unwrap_or(text.len())
}

// The text up to the first of these two bytes, and from there on.
pub(crate) fn split(text: &[u8], first: u8, second: u8) -> (&[u8], &[u8])
    ensures front { result.0.now ≡ up_to first second text.now }
    ensures back { result.1.now ≡ from first second text.now }
{
    text.split_at(place_of(text, first, second))
}

// The number of an exponent's digits, of which there are few.
fn power_of(digits: &[u8]) -> Option<usize>
    ensures power { result ≡ power_of digits.now }
    ensures few { IfSome result (λ n. n ≤ 9999) }
{
    if is_digits(digits) && digits.len() <= MAX_EXPONENT_DIGITS {
        Some(leading(digits) as usize)
    } else {
        None
    }
}

// The zeros and the places that an exponent adds.
fn zeros_and_places(exponent: &[u8]) -> Option<(usize, usize)>
    ensures power { result ≡ zeros_and_places exponent.now }
    ensures few { IfSome result (λ r. (r.0 ≤ 9999) × (r.1 ≤ 9999)) }
{
    match exponent {
        [] => None,
        [b'-', digits @ ..] => Some((0, power_of(digits)?)),
        [b'+', digits @ ..] => Some((power_of(digits)?, 0)),
        digits => Some((power_of(digits)?, 0)),
    }
}

// The same of what stands after the mantissa, whose first byte is an `e` or `E`.
pub(crate) fn exponent_of(tail: &[u8]) -> Option<(usize, usize)>
    ensures exponent { result ≡ exponent_of tail.now }
    ensures few { IfSome result (λ r. (r.0 ≤ 9999) × (r.1 ≤ 9999)) }
{
    match tail {
        [] => Some((0, 0)),
        [_, exponent @ ..] => zeros_and_places(exponent),
    }
}

// The digits after the point, with which the text begins if it is not empty.
fn fraction_of(behind: &[u8]) -> Option<&[u8]>
    ensures { option_map (λ digits. digits.now) result ≡ fraction_of behind.now }
{
    match behind {
        [] => Some(&[]),
        [_, digits @ ..] if is_digits(digits) => Some(digits),
        _ => None,
    }
}

// The digits before the point, and those after it.
fn digits_of(mantissa: &[u8]) -> Option<(&[u8], &[u8])>
    ensures value { option_map (λ r. (r.0.now, r.1.now)) result ≡ digits_of mantissa.now }
    ensures whole { IfSome result (λ r. IsTrue (list_all is_ascii_digit r.0.now)) }
    ensures fraction { IfSome result (λ r. IsTrue (list_all is_ascii_digit r.1.now)) }
{
    let (whole, behind) = split(mantissa, b'.', b'.');
    if !is_digits(whole) {
        return None;
    }
    Some((whole, fraction_of(behind)?))
}

// The decimal of a text without its sign.
fn unsigned(alloc: Global, negative: bool, text: &[u8]) -> Result<Option<Decimal>, Memory>
    ensures { IfOk result (λ found. found ≡ unsigned negative text.now) }
{
    let (mantissa, tail) = split(text, b'e', b'E');
    let Some((whole, fraction)) = digits_of(mantissa) else {
        return Ok(None);
    };
    let Some((zeros, more_places)) = exponent_of(tail) else {
        return Ok(None);
    };
    Ok(Some(Decimal::new(alloc, negative, whole, fraction, zeros, more_places)?))
}

// The decimal that a text spells, by the function that reads it from the left.
fn exactly(alloc: Global, text: &[u8]) -> Result<Option<Decimal>, Memory>
    ensures { IfOk result (λ found. found ≡ spelled text.now) }
{
    match text {
        [b'-', rest @ ..] => unsigned(alloc, true, rest),
        text => unsigned(alloc, false, text),
    }
}

/// The decimal that a text spells. A text spells at most one. None if it spells none; `Memory` if
/// an allocation is refused. It takes time in proportion to the text.
pub fn decimal(alloc: Global, text: &[u8]) -> Result<Option<Decimal>, Memory>
    // What is read is what the text spells.
    ensures sound { IfOk result (λ found. IfSome found (λ d. IsTextOf text.now d)) }
    // Each text of the grammar is read.
    ensures complete { IfOk result
        (λ found. (x : Fraction) → IsTextOf text.now x → found ≡ Some x) }
    ensures exact { IfOk result (λ found. found ≡ spelled text.now) }
{
    exactly(alloc, text)
}

// Whether the text is this word.
pub(crate) fn is_same(text: &[u8], word: &str) -> bool
    ensures { result ≡ bytes_eq text.now word.now }
{
    text == word.as_bytes()
}

// The reading of a text that is a word.
fn word_of(text: &[u8]) -> Option<Reading>
    ensures { result ≡ word_of text.now }
{
    if is_same(text, "NaN") {
        Some(Reading::NotANumber)
    } else if is_same(text, "Inf") || is_same(text, "+Inf") {
        Some(Reading::Infinite)
    } else if is_same(text, "-Inf") {
        Some(Reading::MinusInfinite)
    } else {
        None
    }
}

// The reading of a decimal.
pub(crate) fn number(decimal: Option<Decimal>) -> Option<Reading>
    ensures { result ≡ option_map (λ d. Reading.Number d) decimal }
{
    match decimal {
        Some(decimal) => Some(Reading::Number(decimal)),
        None => None,
    }
}

// What a text says, by the function that reads it.
fn reading_of(alloc: Global, text: &[u8]) -> Result<Option<Reading>, Memory>
    ensures { IfOk result (λ found. found ≡ reading_of text.now) }
{
    match word_of(text) {
        Some(word) => Ok(Some(word)),
        None => Ok(number(exactly(alloc, text)?)),
    }
}

/// What a text says: a decimal, `NaN`, or an infinity. None for any other text; `Memory` if an
/// allocation is refused.
pub fn read(alloc: Global, text: &str) -> Result<Option<Reading>, Memory>
    // What is read is what the text says.
    ensures sound { IfOk result (λ found. IfSome found (λ reading. ReadsAs text.now reading)) }
    // Each text that says something is read.
    ensures complete { IfOk result
        (λ found. (reading : Reading) → ReadsAs text.now reading → found ≡ Some reading) }
{
    reading_of(alloc, text.as_bytes())
}
