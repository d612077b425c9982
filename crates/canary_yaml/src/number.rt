//! Numbers, as plain scalars spell them.
ghost use Rattle.std.specs.Prelude.{◌≤◌};

use crate::cursor::count_of;
use std::alloc::{AllocError, Global};

/// A number in base 10, in its parts. As in YAML 1.1, `_` may stand among its digits.
#[derive(Clone, Copy)]
pub(crate) struct DecimalScalar<'a> {
    is_negative: bool,
    // The digits before the point.
    whole: &'a [u8],
    // Those after it, if there is a point.
    fraction: Option<&'a [u8]>,
    // From the `e` on, else empty.
    exponent: &'a [u8],
}

impl<'a> DecimalScalar<'a> {
    /// The number that a text spells.
    pub(crate) fn read(text: &'a [u8]) -> Option<DecimalScalar<'a>> {
        let number = after_sign(text);
        let (whole, rest) = split_digits(number);
        let (fraction, rest) = split_fraction(rest);
        let digits = if whole.is_empty() {
            fraction.unwrap_or(&[])
        } else {
            whole
        };
        // kubectl reads +_1, and no version of YAML reads _1.
        let is_signed = number.len() < text.len();
        let is_number = begins_with_digit(digits) || is_signed && has_digit(digits);
        if !is_number || !is_exponent(rest) {
            return None;
        }
        Some(DecimalScalar {
            is_negative: text.first() == Some(&b'-'),
            whole,
            fraction,
            exponent: rest,
        })
    }

    /// Whether it is a whole number whose digits begin with 0, and YAML 1.1 reads another value: it
    /// reads 0123 in base 8, and 089 as a text.
    pub(crate) fn has_leading_zero(self) -> bool {
        let is_whole = self.fraction.is_none() && self.exponent.is_empty();
        match without_zeros(self.whole) {
            [] | [b'1'..=b'7'] => false,
            _ => is_whole && self.whole.first() == Some(&b'0'),
        }
    }

    /// The same number in JSON, if no `_` stands in it. What is JSON already stays as it is.
    pub(crate) fn to_json(self, alloc: Global) -> Result<Vec<u8>, AllocError> {
        let mut text = Vec::new(alloc);
        if self.is_negative {
            text.push(b'-')?;
        }
        text.extend_from_slice(or_zero(without_zeros(self.whole)))?;
        if let Some(fraction) = self.fraction {
            text.push(b'.')?;
            text.extend_from_slice(or_zero(fraction))?;
        }
        text.extend_from_slice(self.exponent)?;
        Ok(text)
    }
}

// What stands after a sign, if the text begins with one.
fn after_sign(text: &[u8]) -> &[u8] {
    match text {
        [b'-' | b'+', rest @ ..] => rest,
        _ => text,
    }
}

// The digits with which a text begins, and what stands after them.
fn split_digits(text: &[u8]) -> (&[u8], &[u8]) {
    let count = count_of(text, b"0123456789_");
    let digits = text.get(..count).unwrap_or(&[]);
    (digits, text.get(count..).unwrap_or(&[]))
}

// The digits after the point with which a text begins, and what stands after them.
fn split_fraction(text: &[u8]) -> (Option<&[u8]>, &[u8]) {
    match text {
        [b'.', rest @ ..] => {
            let (digits, rest) = split_digits(rest);
            (Some(digits), rest)
        }
        _ => (None, text),
    }
}

// Whether it is an exponent, or nothing.
fn is_exponent(text: &[u8]) -> bool {
    match text {
        [] => true,
        [b'e' | b'E', rest @ ..] => {
            let (digits, rest) = split_digits(after_sign(rest));
            has_digit(digits) && rest.is_empty()
        }
        _ => false,
    }
}

// Whether a digit stands first.
fn begins_with_digit(digits: &[u8]) -> bool {
    match digits {
        [b'0'..=b'9', ..] => true,
        _ => false,
    }
}

// Whether they are not all `_`.
fn has_digit(digits: &[u8]) -> bool {
    count_of(digits, b"_") < digits.len()
}

// The digits from the first on that is not 0.
fn without_zeros(digits: &[u8]) -> &[u8] {
    digits.get(count_of(digits, b"0")..).unwrap_or(&[])
}

// The digits, or 0 if there are none.
fn or_zero(digits: &[u8]) -> &[u8] {
    if digits.is_empty() { b"0" } else { digits }
}

/// The number that `0x` and hexadecimal digits spell, or None; `Some(None)` if it is 2^64 or above.
pub(crate) fn in_base_16(text: &[u8]) -> Option<Option<u64>> {
    match text {
        [b'0', b'x', digits @ ..] => hexadecimal(digits),
        _ => None,
    }
}

/// The number that hexadecimal digits spell, or None; `Some(None)` if it is 2^64 or above.
pub(crate) fn hexadecimal(digits: &[u8]) -> Option<Option<u64>> {
    if digits.is_empty() || count_of(digits, b"0123456789abcdefABCDEF") < digits.len() {
        return None;
    }
    let digits = std::str::from_utf8(digits).ok()?;
    Some(u64::from_str_radix(digits, 16).ok())
}

/// Whether it is a number in base 2, 8 or 16 with its letter, as YAML 1.1, YAML 1.2 or kubectl has
/// it: one after a sign, with `_` among its digits, or with a large letter.
pub(crate) fn has_base(text: &[u8]) -> bool {
    match after_sign(text) {
        [b'0', b'b' | b'B', digits @ ..] => are_of(digits, b"01_"),
        [b'0', b'o' | b'O', digits @ ..] => are_of(digits, b"01234567_"),
        [b'0', b'x' | b'X', digits @ ..] => are_of(digits, b"0123456789abcdefABCDEF_"),
        _ => false,
    }
}

/// The number that kubectl reads in a text that begins with 0, or with a sign and 0: in the base of
/// its letter, else in base 8 if the digits are of that, and in base 10. None if 64 bits do not
/// hold it.
pub(crate) fn number_of_kubectl(text: &[u8]) -> Option<i64> {
    let number = after_sign(text);
    let value = match number {
        [b'0', b'b' | b'B', digits @ ..] => value_in(digits, 2),
        [b'0', b'o' | b'O', digits @ ..] => value_in(digits, 8),
        [b'0', b'x' | b'X', digits @ ..] => value_in(digits, 16),
        _ if are_of(number, b"01234567") => value_in(number, 8),
        _ => value_in(number, 10),
    };
    let is_negative = text.first() == Some(&b'-');
    if is_negative {
        value?.checked_neg()
    } else {
        value
    }
}

// The number that digits of that base spell, if 64 bits hold it.
fn value_in(digits: &[u8], base: u32) -> Option<i64>
    requires least { 2 ≤ base }
    requires most { base ≤ 36 }
{
    i64::from_str_radix(std::str::from_utf8(digits).ok()?, base).ok()
}

// Whether all are of this kind, and not each of them is `_`.
fn are_of(digits: &[u8], kind: &[u8]) -> bool {
    count_of(digits, kind) == digits.len() && has_digit(digits)
}

/// Whether YAML 1.1 reads it as a number in base 60, as 12:30:45 or 1:30.5.
pub(crate) fn is_in_base_60(text: &[u8]) -> bool {
    let (first, mut rest) = split_digits(after_sign(text));
    let begins_with_zero = first.first() == Some(&b'0');
    if !begins_with_digit(first) || !rest.contains(&b':') {
        return false;
    }
    for _ in 0..text.len() {
        let [b':', digits @ ..] = rest else {
            break;
        };
        let Some(after) = after_sixty(digits) else {
            return false;
        };
        rest = after;
    }
    let (fraction, rest) = split_fraction(rest);
    rest.is_empty() && (fraction.is_some() || !begins_with_zero)
}

// What stands after a number below 60, in one digit or in two.
fn after_sixty(text: &[u8]) -> Option<&[u8]> {
    match text {
        [b'0'..=b'5', b'0'..=b'9', rest @ ..] => Some(rest),
        [b'0'..=b'9', rest @ ..] => Some(rest),
        _ => None,
    }
}
