//! Whole numbers of 10^-places as people read them: with the point put back.
ghost use Rattle.std.specs.Prelude.{◌≡◌, ◌+◌, ◌^◌, ◌<◌, ◌≤◌};
ghost use Rattle.arrayvec.specs.ArrayString.{array_string_len};
ghost use Rattle.canary_decimal.specs.Points.{IsFraction, IsBehind, IsWrittenAs, Spells};
ghost use Rattle.canary_decimal.specs.Points.{front_text};

use crate::decimal::with_zeros;
use arrayvec::ArrayString;
use itoa::Buffer;

/// The most bytes of a number that is written: a sign, 19 digits, a point and 18 digits.
pub const MAX_BYTES: usize = 40;

// The most digits after a point.
const MAX_PLACES: usize = 18;

// 10 to the power of so many places.
fn unit(places: usize) -> u64
    requires { places ≤ 18 }
    ensures value { result ≡ 10 ^ places }
    ensures limit { result ≤ 10 ^ 18 }
    ensures some { 0 < result }
{
    with_zeros(1, places)
}

// The digits after the point, up to the last one that is not 0.
fn fraction(part: u64, places: usize) -> ArrayString<MAX_PLACES>
    requires some { 0 < part }
    requires below { part < 10 ^ places }
    requires few { places ≤ 18 }
    ensures { IsFraction result.bytes part places }
{
    let unit = unit(places);
    let mut text = ArrayString::new();
    let mut rest = part;
    for _ in 0..places {
        if rest != 0 {
            text.push(digit(rest * 10 / unit));
            rest = rest * 10 % unit;
        }
    }
    text
}

// The ASCII digit of a number below 10.
fn digit(number: u64) -> char
    requires { number < 10 }
    ensures { result ≡ 48 + number }
{
    char::from(b'0' + number as u8)
}

// The sign and the digits before the point.
fn front(number: i64, whole: u64) -> ArrayString<MAX_BYTES>
    ensures text { result.bytes ≡ front_text number whole }
    ensures room { array_string_len result ≤ 21 }
{
    let mut text = ArrayString::new();
    if number < 0 {
        text.push('-');
    }
    text.push_str(Buffer::new().format(whole));
    text
}

// With the point and what stands after it, if that is not 0.
fn behind(front: ArrayString<MAX_BYTES>, rest: u64, places: usize) -> ArrayString<MAX_BYTES>
    requires room { array_string_len front ≤ 21 }
    requires below { rest < 10 ^ places }
    requires few { places ≤ 18 }
    ensures { IsBehind front.bytes result.bytes rest places }
{
    if rest == 0 {
        return front;
    }
    let mut text = front;
    text.push('.');
    text.push_str(fraction(rest, places).as_str());
    text
}

/// The number over 10^places as people write it: with no zero before the point but the last digit,
/// and none at the end after it. Of 953215 and 6 it is `0.953215`, of 1000000 and 6 `1`, of -500
/// and 6 `-0.0005`.
pub fn with_point(number: i64, places: usize) -> ArrayString<MAX_BYTES>
    requires { places ≤ 18 }
    ensures exact { Spells result.bytes number places }
    ensures written { IsWrittenAs result.bytes number places }
{
    let (size, unit) = (number.unsigned_abs(), unit(places));
    behind(front(number, size / unit), size % unit, places)
}
