//! Decimals of any length, and the whole multiples of 10^-N that stand for them.
ghost use Rattle.std.specs.Prelude.{◌≡◌, ◌+◌, ◌-◌, ◌*◌, ◌^◌, ◌<◌, ◌≤◌, min, IsTrue, IfOk, SomeIff};
ghost use Rattle.std.specs.Prelude.{IfSome, MatchOption, ℤ, pos, negsuc, ◌≤ℤ◌};
ghost use Rattle.std.specs.Char.{is_ascii_digit};
ghost use Rattle.std.specs.List.{list_all};
ghost use Rattle.std.specs.Str.Parse.{digits_value};
ghost use Rattle.canary_decimal.specs.Exactness.{cut_off, decimal_of, IsScaled, StandsFor, signed};
ghost use Rattle.canary_decimal.specs.Exactness.{Fraction, IsTens, IsConstant, IsNear, IsNextTo};
ghost use Rattle.canary_decimal.specs.Short.{fraction_of, short_of, short_constant};

use canary_base::error::Memory;
use std::alloc::Global;
use std::marker::Model;

/// The greatest multiple. No constant of a condition lies above it, and four numbers above it and
/// five below its negative are free for what is no decimal.
pub const MAX_MULTIPLE: u64 = 9_223_372_036_854_775_803;

/// The most digits after the point of a multiple.
pub const MAX_PLACES: usize = 18;

// The number of the digits, or the greatest u64.
pub(crate) fn leading(digits: &[u8]) -> u64
    requires { IsTrue (list_all is_ascii_digit digits.now) }
    ensures { result ≡ min (2 ^ 64 - 1) (digits_value 10 digits.now) }
{
    let mut number: u64 = 0;
    for digit in digits {
        let units = u64::from(*digit - b'0');
        number = number.saturating_mul(10).saturating_add(units);
    }
    number
}

// The number with so many zeros after it, or the greatest u64.
pub(crate) fn with_zeros(number: u64, zeros: usize) -> u64
    ensures { result ≡ min (2 ^ 64 - 1) (number * 10 ^ zeros) }
{
    let mut product = number;
    for _ in 0..zeros {
        product = product.saturating_mul(10);
    }
    product
}

// The number of the digits that are kept, or the greatest u64.
fn cut_off(front: u64, rest: u64) -> u64
    ensures { result ≡ min (2 ^ 64 - 1) (cut_off front rest) }
{
    if rest != 0 && front % 10 == 0 {
        front.saturating_add(1)
    } else {
        front
    }
}

// The number, or the greatest multiple.
fn within(number: u64) -> u64
    ensures { result ≡ min number (9223372036854775803) }
{
    number.min(MAX_MULTIPLE)
}

// The magnitude of the multiple.
fn magnitude(digits: &[u8], zeros: usize, places: usize) -> u64
    requires { IsTrue (list_all is_ascii_digit digits.now) }
    ensures scaled { IsScaled result (digits_value 10 digits.now) zeros places }
    ensures near { IsNear result (digits_value 10 digits.now) zeros places }
    ensures limit { result ≤ 9223372036854775803 }
{
    if places <= zeros {
        return within(with_zeros(leading(digits), zeros - places));
    }
    let keep = digits.len().saturating_sub(places - zeros);
    let (front, rest) = digits.split_at(keep);
    within(cut_off(leading(front), leading(rest)))
}

// The number, if ten times that fits an `i64`.
fn small(number: u64) -> Option<u64>
    ensures { SomeIff result (number * 10 < 2 ^ 63) number }
{
    if number <= i64::MAX as u64 / 10 {
        Some(number)
    } else {
        None
    }
}

// The tens of the constant: none if it has a digit other than 0 after them, or does not fit.
fn tens(digits: &[u8], zeros: usize, places: usize) -> Option<u64>
    requires { IsTrue (list_all is_ascii_digit digits.now) }
    ensures { IsTens result (digits_value 10 digits.now) zeros places }
{
    if places <= zeros {
        return small(with_zeros(leading(digits), zeros - places));
    }
    let keep = digits.len().saturating_sub(places - zeros);
    let (front, rest) = digits.split_at(keep);
    if leading(rest) != 0 {
        return None;
    }
    small(leading(front))
}

// The number with a `-` before it, or none.
fn with_sign(negative: bool, magnitude: u64) -> i64
    requires { magnitude < 2 ^ 63 }
    ensures { result ≡ signed negative magnitude }
{
    if negative {
        -(magnitude as i64)
    } else {
        magnitude as i64
    }
}

/// A decimal whose number fits an `i64`: `whole` over 10 to the power of `places`.
#[derive(Clone, Copy)]
pub struct ShortDecimal {
    pub whole: i64,
    pub places: usize,
}

impl ShortDecimal {
    /// The constant of a condition, as of `Decimal::to_constant`, with more places than the decimal
    /// has. None if it does not fit an `i64`.
    pub fn to_constant(self, places: usize) -> Option<i64>
        requires some { self.places < places }
        requires few { places ≤ 18 }
        ensures value { result ≡ short_constant self places }
        ensures constant { IfSome result (λ t. IsConstant t (fraction_of self) places) }
    {
        let size = with_zeros(self.whole.unsigned_abs(), places - self.places);
        if size > i64::MAX as u64 {
            return None;
        }
        Some(with_sign(self.whole < 0, size))
    }
}

/// A decimal, exactly: digits with a sign, times a power of ten. Its value in clauses is a whole
/// number over a power of ten (`Fraction`).
#[derive(Drop)]
pub struct Decimal {
    negative: bool,
    digits: Vec<u8>,
    // Zeros that follow the digits.
    zeros: usize,
    // The digits and zeros after the point.
    places: usize,
}

impl Model for Decimal {
    ghost use Rattle.std.specs.Prelude.{◌≤◌, ◌*◌, ◌^◌, IsTrue};
    ghost use Rattle.std.specs.Char.{is_ascii_digit};
    ghost use Rattle.std.specs.List.{list_all};
    ghost use Rattle.std.specs.Str.Parse.{digits_value};
    ghost use Rattle.canary_decimal.specs.Exactness.{signed, Fraction};

    ghost Value = { Fraction };

    ghost view = { λ d. record {
      whole = signed d.negative (digits_value 10 d.digits.items * 10 ^ d.zeros);
      places = d.places;
    } };

    ghost invariant = { λ d. IsTrue (list_all is_ascii_digit d.digits.items) × (d.zeros ≤ 100000) };
}

impl Decimal {
    /// The decimal of these digits, the second after the point, with so many zeros more and then so
    /// many places more. `Memory` if an allocation is refused.
    pub fn new(
        alloc: Global,
        negative: bool,
        whole: &[u8],
        fraction: &[u8],
        zeros: usize,
        more_places: usize,
    ) -> Result<Decimal, Memory>
        requires whole { IsTrue (list_all is_ascii_digit whole.now) }
        requires fraction { IsTrue (list_all is_ascii_digit fraction.now) }
        requires zeros { zeros ≤ 9999 }
        requires places { more_places ≤ 9999 }
        ensures { IfOk result
            (λ d. d ≡ decimal_of negative whole.now fraction.now zeros more_places) }
    {
        let mut digits = Vec::from_slice(alloc, whole)?;
        digits.extend_from_slice(fraction)?;
        Ok(Decimal {
            negative,
            digits,
            zeros,
            places: fraction.len() + more_places,
        })
    }

    /// The decimal as a whole number over 10 to the power of its places, as it was written: 0.950
    /// is 950 over 10^3. None if that number does not fit an `i64` whatever its sign.
    pub fn short(&self) -> Option<ShortDecimal>
        ensures { result ≡ short_of self.now }
    {
        let number = with_zeros(leading(self.digits.as_slice()), self.zeros);
        if number > i64::MAX as u64 {
            return None;
        }
        Some(ShortDecimal {
            whole: with_sign(self.negative, number),
            places: self.places,
        })
    }

    /// The whole number that stands for the decimal in conditions whose constants are multiples of
    /// 10^(1-places): the decimal times 10^places, cut off towards 0; if anything but zeros was cut
    /// off and the last digit that is left is 0, that digit is 1. Beyond `MAX_MULTIPLE` it is
    /// that number.
    pub fn to_multiple(&self, places: usize) -> i64
        requires { places ≤ 18 }
        ensures stands { StandsFor result self.now places }
        ensures near { IsNextTo result self.now places }
        ensures least { negsuc 9223372036854775802 ≤ℤ result }
        ensures most { result ≤ℤ pos 9223372036854775803 }
    {
        let magnitude = magnitude(self.digits.as_slice(), self.zeros + places, self.places);
        with_sign(self.negative, magnitude)
    }

    /// The constant of a condition: the decimal in units of 10^-places. None if that is no multiple
    /// of ten of them, or does not fit an `i64`.
    pub fn to_constant(&self, places: usize) -> Option<i64>
        requires some { 1 ≤ places }
        requires few { places ≤ 18 }
        ensures { MatchOption result
            ((t : ℤ) → IsConstant t self.now places → ⊥)
            (λ t. IsConstant t self.now places) }
    {
        let zeros = self.zeros + (places - 1);
        let tens = tens(self.digits.as_slice(), zeros, self.places)?;
        Some(with_sign(self.negative, tens * 10))
    }
}
