//! Numbers from text, as Go's package strconv reads them. In Argo Rollouts `asFloat` of a text is
//! its ParseFloat, and `asInt` its ParseInt with base 10.
//!
//! ```text
//! float    := [sign] ("inf" | "infinity") | "nan" | [sign] mantissa [exponent]
//! mantissa := digits ["." [digits]] | "." digits
//! exponent := "e" [sign] digits
//! whole    := [sign] digits
//! sign     := "-" | "+"
//! ```
//!
//! Letters may be small or capital. A whole number is -2^63 to 2^63 - 1. ParseFloat also reads
//! hexadecimal numbers, numbers with `_`, exponents of more than four digits, and sizes from 10^308
//! to 1.8 x 10^308. These are not read here.
ghost use Rattle.std.specs.Prelude.{◌≡◌, ◌+◌, ◌≤◌, IsTrue, IfOk, IfSome, option_map, length};
ghost use Rattle.std.specs.List.{list_all, position_or_len};
ghost use Rattle.std.specs.Char.{is_ascii_digit};
ghost use Rattle.canary_decimal.specs.Texts.{float_fraction, float_digits, is_some_digit};
ghost use Rattle.canary_decimal.specs.Texts.{is_in_range, unsigned_float, is_infinity, infinity};
ghost use Rattle.canary_decimal.specs.Texts.{signed_float, plain_float, parse_float};
ghost use Rattle.canary_decimal.specs.Texts.{signed_whole, most, parse_int, number_of};
ghost use Rattle.std.specs.Prelude.{position, map, nat_le, ◌<◌, ◌-◌, ◌^◌};
ghost use Rattle.std.specs.Char.{to_ascii_lowercase};
ghost use Rattle.std.specs.Str.{bytes_eq};
ghost use Rattle.std.specs.Str.Parse.{digits_value};

use crate::decimal::{Decimal, leading};
use crate::reading::{Reading, are_digits, exponent_of, is_digits, is_same, number, split};
use canary_base::error::Memory;
use std::alloc::Global;

/// What `asFloat` and `asInt` read in a text.
#[derive(Drop)]
pub enum TextNumber {
    /// Both read this whole number.
    Whole(Decimal),
    /// `asFloat` reads this, and `asInt` nothing.
    Float(Reading),
    /// Neither reads anything.
    Other,
}

/// What `asFloat` and `asInt` read in a text; `Memory` if an allocation is refused. The time is in
/// proportion to the text.
pub fn number_of(alloc: Global, text: &str) -> Result<TextNumber, Memory>
    ensures { IfOk result (λ number. number ≡ number_of text.now) }
{
    let text = text.as_bytes();
    if let Some(whole) = parse_int(alloc, text)? {
        return Ok(TextNumber::Whole(whole));
    }
    match parse_float(alloc, text)? {
        Some(reading) => Ok(TextNumber::Float(reading)),
        None => Ok(TextNumber::Other),
    }
}

// What ParseInt reads in a text.
fn parse_int(alloc: Global, text: &[u8]) -> Result<Option<Decimal>, Memory>
    ensures { IfOk result (λ found. found ≡ parse_int text.now) }
{
    match text {
        [b'-', digits @ ..] => signed_whole(alloc, true, digits),
        [b'+', digits @ ..] => signed_whole(alloc, false, digits),
        digits => signed_whole(alloc, false, digits),
    }
}

// The whole number of digits, if it fits 64 bits with its sign.
fn signed_whole(alloc: Global, minus: bool, digits: &[u8]) -> Result<Option<Decimal>, Memory>
    ensures { IfOk result (λ found. found ≡ signed_whole minus digits.now) }
{
    if !is_digits(digits) || !fits(minus, digits) {
        return Ok(None);
    }
    Ok(Some(Decimal::new(alloc, minus, digits, &[], 0, 0)?))
}

// The greatest size of a whole number of 64 bits, by its sign.
fn most(minus: bool) -> u64
    ensures value { result ≡ most minus }
    ensures few { result < 2 ^ 64 - 1 }
{
    if minus {
        9_223_372_036_854_775_808
    } else {
        9_223_372_036_854_775_807
    }
}

// Whether the number of digits fits 64 bits with its sign.
fn fits(minus: bool, digits: &[u8]) -> bool
    requires { IsTrue (list_all is_ascii_digit digits.now) }
    ensures { result ≡ nat_le (digits_value 10 digits.now) (most minus) }
{
    leading(digits) <= most(minus)
}

// What ParseFloat reads in a text.
fn parse_float(alloc: Global, text: &[u8]) -> Result<Option<Reading>, Memory>
    ensures { IfOk result (λ found. found ≡ parse_float text.now) }
{
    match text {
        [b'-', rest @ ..] => signed_float(alloc, true, rest),
        [b'+', rest @ ..] => signed_float(alloc, false, rest),
        text => plain_float(alloc, text),
    }
}

// The same of a text with no sign.
fn plain_float(alloc: Global, text: &[u8]) -> Result<Option<Reading>, Memory>
    ensures { IfOk result (λ found. found ≡ plain_float text.now) }
{
    if is_word(alloc, text, "nan")? {
        return Ok(Some(Reading::NotANumber));
    }
    signed_float(alloc, false, text)
}

// The same of what follows a sign.
fn signed_float(alloc: Global, minus: bool, text: &[u8]) -> Result<Option<Reading>, Memory>
    ensures { IfOk result (λ found. found ≡ signed_float minus text.now) }
{
    if is_infinity(alloc, text)? {
        return Ok(Some(infinity(minus)));
    }
    Ok(number(unsigned_float(alloc, minus, text)?))
}

// Whether the text is this word, in small letters or capital ones.
fn is_word(alloc: Global, text: &[u8], word: &str) -> Result<bool, Memory>
    ensures { IfOk result (λ is. is ≡ bytes_eq (map to_ascii_lowercase text.now) word.now) }
{
    let small = text.to_ascii_lowercase(alloc)?;
    Ok(is_same(small.as_slice(), word))
}

// Whether the text is a word for an infinity.
fn is_infinity(alloc: Global, text: &[u8]) -> Result<bool, Memory>
    ensures { IfOk result (λ is. is ≡ is_infinity text.now) }
{
    if is_word(alloc, text, "inf")? {
        return Ok(true);
    }
    is_word(alloc, text, "infinity")
}

// The infinity of that sign.
fn infinity(minus: bool) -> Reading
    ensures { result ≡ infinity minus }
{
    if minus {
        Reading::MinusInfinite
    } else {
        Reading::Infinite
    }
}

// The decimal of a text without its sign.
fn unsigned_float(alloc: Global, minus: bool, text: &[u8]) -> Result<Option<Decimal>, Memory>
    ensures { IfOk result (λ found. found ≡ unsigned_float minus text.now) }
{
    let (mantissa, tail) = split(text, b'e', b'E');
    let Some((whole, fraction)) = float_digits(mantissa) else {
        return Ok(None);
    };
    let Some((zeros, more_places)) = exponent_of(tail) else {
        return Ok(None);
    };
    let mut digits = Vec::from_slice(alloc, whole)?;
    digits.extend_from_slice(fraction)?;
    if !is_in_range(digits.as_slice(), zeros, fraction.len() + more_places) {
        return Ok(None);
    }
    Ok(Some(Decimal::new(alloc, minus, whole, fraction, zeros, more_places)?))
}

// The digits before the point and those after it: one or more.
fn float_digits(mantissa: &[u8]) -> Option<(&[u8], &[u8])>
    ensures value { option_map (λ r. (r.0.now, r.1.now)) result ≡ float_digits mantissa.now }
    ensures whole { IfSome result (λ r. IsTrue (list_all is_ascii_digit r.0.now)) }
    ensures fraction { IfSome result (λ r. IsTrue (list_all is_ascii_digit r.1.now)) }
{
    let (whole, behind) = split(mantissa, b'.', b'.');
    let fraction = float_fraction(behind)?;
    if !are_digits(whole) || whole.len() + fraction.len() == 0 {
        return None;
    }
    Some((whole, fraction))
}

// The digits after the point, with which the text begins if it is not empty.
fn float_fraction(behind: &[u8]) -> Option<&[u8]>
    ensures value { option_map (λ digits. digits.now) result ≡ float_fraction behind.now }
    ensures digits { IfSome result (λ digits. IsTrue (list_all is_ascii_digit digits.now)) }
{
    match behind {
        [] => Some(&[]),
        [_, digits @ ..] if are_digits(digits) => Some(digits),
        _ => None,
    }
}

// The place of the first digit that is not 0.
fn found_digit(digits: &[u8]) -> Option<usize>
    ensures { result ≡ position is_some_digit digits.now }
{
    digits.iter().position(|digit| *digit != b'0')
}

// The same, or the length.
fn first_digit(digits: &[u8]) -> usize
    ensures place { result ≡ position_or_len is_some_digit digits.now }
    ensures within { result ≤ length digits.now }
{
    found_digit(digits).unwrap_or(digits.len())
}

// Whether the number of these digits, with so many zeros after them, over so many places, is less
// than 10^308.
fn is_in_range(digits: &[u8], zeros: usize, places: usize) -> bool
    requires zeros { zeros ≤ 9999 }
    requires places { places ≤ 9223372036854785806 }
    ensures { result ≡ is_in_range digits.now zeros places }
{
    let first = first_digit(digits);
    first == digits.len() || digits.len() - first + zeros <= 308 + places
}
