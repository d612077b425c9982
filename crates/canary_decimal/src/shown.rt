//! Labels of metrics that are measured in decimals, and numbers under them, as people read them.
//!
//! ```text
//! label  := name ending
//! ending := ".e" places ["n" | "i" | "s" | "t" | "w"] [shape]
//! shape  := "f" | "p" digits | "l" digits
//! ```
//!
//! The places are 6 to 18. A number is in units of 10^-places. With `n`, `i`, `s` or `t` the least
//! number stands for NaN. With `i` or `s` the next one and the greatest one stand for the
//! infinities, and with `s` the third for null. With `t` or `w` a text is read as a number. With
//! `l` the first value of a list is the length of the measured list, a whole number. The numbers of
//! a label without such an ending are whole.
ghost use Rattle.std.specs.Prelude.{◌≡◌, ℕ, Bool, ◌<◌, ◌≤◌, List, MatchOption, option_map, drop};
ghost use Rattle.std.specs.Prelude.{length, Some};
ghost use Rattle.canary_decimal.specs.Endings.{by_letter, shape_of, with_shape, with_beside};
ghost use Rattle.canary_decimal.specs.Endings.{of_one_digit, of_two_digits, of_places, units_of};
ghost use Rattle.canary_decimal.specs.Endings.{IsLabelOf, IsShownAs, is_nan, places_at, is_length};
ghost use Rattle.canary_decimal.specs.Endings.{word_of, word_at, word_text, nan_or, infinite_or};
ghost use Rattle.canary_decimal.specs.Endings.{null_of};

use crate::point::{MAX_BYTES, with_point};
use crate::reading::is_digits;
use arrayvec::ArrayString;

/// What is reported of a metric beside decimals.
#[derive(Clone, Copy, Debug, PartialEq, Eq)]
pub enum Beside {
    /// Nothing.
    Nothing,
    /// NaN, as the least number.
    NaN,
    /// That, and the infinities, as the next and the greatest number.
    Infinite,
    /// These, and null, as the third.
    Null,
    /// NaN, as the least number, and a text as the number that Go's ParseFloat reads.
    FloatText,
    /// A text as the number that Go's ParseInt reads.
    WholeText,
}

/// What a number stands for that is no decimal.
#[derive(Clone, Copy, Debug, PartialEq, Eq)]
pub enum SpecialValue {
    NaN,
    MinusInfinite,
    Null,
    Infinite,
}

/// What is reported of NaN. No multiple lies there, nor at the next three.
pub const NAN: i64 = i64::MIN;

/// What is reported of the infinity below 0.
pub const MINUS_INFINITE: i64 = i64::MIN + 1;

/// What is reported of null.
pub const NULL: i64 = i64::MIN + 2;

/// What is reported of the infinity above 0.
pub const INFINITE: i64 = i64::MAX;

/// In which units the numbers of a metric are reported.
#[derive(Clone, Copy, Debug, PartialEq, Eq)]
pub struct Units {
    /// A number is in units of 10^-places. More than 18 are as 18.
    pub places: usize,
    /// What is reported beside decimals.
    pub beside: Beside,
    /// Whether the first value of a list is a length, which is whole.
    pub length: bool,
}

/// Those of whole numbers.
pub const WHOLE: Units = Units {
    places: 0,
    beside: Beside::Nothing,
    length: false,
};

/// A label as people read it.
#[derive(Clone, Copy, Debug)]
pub struct Shown<'a> {
    /// What stands before the ending.
    pub name: &'a str,
    /// What the ending says.
    pub units: Units,
}

impl Shown<'_> {
    /// The label without its ending, and what that says; none if it has no such ending.
    pub fn of(label: &str) -> Option<Shown<'_>>
        ensures { MatchOption result
            ((name : List ℕ) (units : Units) → IsLabelOf label.now name units → ⊥)
            (λ shown. IsLabelOf label.now shown.name.now shown.units) }
    {
        let (place, units) = ending_of(label.as_bytes())?;
        Some(Shown {
            name: &label[..place],
            units,
        })
    }

    /// The label without its ending, and what that says; or the label, of whole numbers.
    pub fn or_whole(label: &str) -> Shown<'_> {
        match Shown::of(label) {
            Some(shown) => shown,
            None => Shown {
                name: label,
                units: WHOLE,
            },
        }
    }
}

impl Units {
    /// What people read in place of a number that is reported, at that place of a list or, if none
    /// is given, alone: `NaN`, `null`, `+Inf` or `-Inf`, or the number with its point put back.
    pub fn text(self, place: Option<u64>, number: i64) -> ArrayString<MAX_BYTES>
        ensures { IsShownAs self place number result.bytes }
    {
        match self.word(place, number) {
            Some(word) => written(word),
            None => with_point(number, self.places_at(place)),
        }
    }

    /// Whether a number that is reported there stands for no decimal: for NaN, an infinity or null.
    pub fn is_nan(self, place: Option<u64>, number: i64) -> bool
        ensures { result ≡ is_nan self place number }
    {
        self.word(place, number).is_some()
    }

    // What a number that is reported there stands for, if that is no decimal.
    fn word(self, place: Option<u64>, number: i64) -> Option<SpecialValue>
        ensures { result ≡ word_at self place number }
    {
        if self.is_length(place) {
            None
        } else {
            word_of(self.beside, number)
        }
    }

    // How many digits of a number that is reported there stand after the point.
    fn places_at(self, place: Option<u64>) -> usize
        ensures value { result ≡ places_at self place }
        ensures few { result ≤ 18 }
    {
        if self.is_length(place) {
            return 0;
        }
        self.places.min(18)
    }

    // Whether what is reported there is a length.
    fn is_length(self, place: Option<u64>) -> bool
        ensures { result ≡ is_length self place }
    {
        self.length && place == Some(0)
    }
}

// What a number stands for, if that is no decimal.
fn word_of(beside: Beside, number: i64) -> Option<SpecialValue>
    ensures { result ≡ word_of beside number }
{
    match beside {
        Beside::Nothing | Beside::WholeText => None,
        Beside::NaN | Beside::FloatText => nan_or(number, None),
        Beside::Infinite => nan_or(number, infinite_or(number, None)),
        Beside::Null => nan_or(number, infinite_or(number, null_of(number))),
    }
}

// NaN if the number is `NAN`, else the other word.
fn nan_or(number: i64, other: Option<SpecialValue>) -> Option<SpecialValue>
    ensures { result ≡ nan_or number other }
{
    if number == NAN {
        Some(SpecialValue::NaN)
    } else {
        other
    }
}

// An infinity if the number is `MINUS_INFINITE` or `INFINITE`, else the other word.
fn infinite_or(number: i64, other: Option<SpecialValue>) -> Option<SpecialValue>
    ensures { result ≡ infinite_or number other }
{
    if number == MINUS_INFINITE {
        Some(SpecialValue::MinusInfinite)
    } else if number == INFINITE {
        Some(SpecialValue::Infinite)
    } else {
        other
    }
}

// Null if the number is `NULL`, else none.
fn null_of(number: i64) -> Option<SpecialValue>
    ensures { result ≡ null_of number }
{
    if number == NULL {
        Some(SpecialValue::Null)
    } else {
        None
    }
}

// What people read in place of a number that is this word: 4 bytes at most.
fn name(word: SpecialValue) -> &'static str
    ensures text { result.now ≡ word_text word }
    ensures short { length result.now ≤ 4 }
{
    match word {
        SpecialValue::NaN => "NaN",
        SpecialValue::MinusInfinite => "-Inf",
        SpecialValue::Null => "null",
        SpecialValue::Infinite => "+Inf",
    }
}

// The same as `name`, as a string of the type that `with_point` returns.
fn written(word: SpecialValue) -> ArrayString<MAX_BYTES>
    ensures { result.bytes ≡ word_text word }
{
    let mut text = ArrayString::new();
    text.push_str(name(word));
    text
}

// The place at which the ending of a label begins, and what that says.
fn ending_of(label: &[u8]) -> Option<(usize, Units)>
    ensures { MatchOption result
        ((place : ℕ) (units : Units) → 0 < place → units_of (drop place label.now) ≡ Some units → ⊥)
        (λ found. (0 < found.0) × (found.0 < length label.now)
        × (units_of (drop found.0 label.now) ≡ Some found.1)) }
{
    for place in 1..label.len() {
        if let Some(units) = units_of(&label[place..]) {
            return Some((place, units));
        }
    }
    None
}

// What an ending says.
fn units_of(ending: &[u8]) -> Option<Units>
    ensures { result ≡ units_of ending.now }
{
    match ending {
        [b'.', b'e', rest @ ..] => of_places(rest),
        _ => None,
    }
}

// What an ending says from its places on.
fn of_places(rest: &[u8]) -> Option<Units>
    ensures { result ≡ of_places rest.now }
{
    match rest {
        [b'1', rest @ ..] => of_two_digits(rest),
        rest => of_one_digit(rest),
    }
}

// With 10 to 18 places, from their second digit on.
fn of_two_digits(rest: &[u8]) -> Option<Units>
    ensures { result ≡ of_two_digits rest.now }
{
    match rest {
        [digit, rest @ ..] if b'0' <= *digit && *digit <= b'8' => {
            with_beside(10 + (*digit - b'0') as usize, rest)
        }
        _ => None,
    }
}

// With 6 to 9 places.
fn of_one_digit(rest: &[u8]) -> Option<Units>
    ensures { result ≡ of_one_digit rest.now }
{
    match rest {
        [digit, rest @ ..] if b'6' <= *digit && *digit <= b'9' => {
            with_beside((*digit - b'0') as usize, rest)
        }
        _ => None,
    }
}

// What stands after the places.
fn with_beside(places: usize, rest: &[u8]) -> Option<Units>
    ensures { result ≡ with_beside places rest.now }
{
    match rest {
        [b'n', shape @ ..] => with_shape(places, Beside::NaN, shape),
        [b'i', shape @ ..] => with_shape(places, Beside::Infinite, shape),
        [b's', shape @ ..] => with_shape(places, Beside::Null, shape),
        [b't', shape @ ..] => with_shape(places, Beside::FloatText, shape),
        [b'w', shape @ ..] => with_shape(places, Beside::WholeText, shape),
        shape => with_shape(places, Beside::Nothing, shape),
    }
}

// The units of these places and of what is reported beside, if the rest is a shape.
fn with_shape(places: usize, beside: Beside, shape: &[u8]) -> Option<Units>
    ensures { result ≡ with_shape places beside shape.now }
{
    match shape_of(shape) {
        Some(length) => Some(Units {
            places,
            beside,
            length,
        }),
        None => None,
    }
}

// Whether values with this shape begin with a length; none if it is no shape.
fn shape_of(shape: &[u8]) -> Option<bool>
    ensures { result ≡ shape_of shape.now }
{
    match shape {
        [] => Some(false),
        [letter, rest @ ..] => by_letter(*letter, rest),
    }
}

// Whether values with the shape of this letter begin with a length; none if it is no shape.
fn by_letter(letter: u8, rest: &[u8]) -> Option<bool>
    ensures { result ≡ by_letter letter rest.now }
{
    if letter == b'f' && rest.is_empty() {
        return Some(false);
    }
    if letter == b'p' && is_digits(rest) {
        return Some(false);
    }
    if letter == b'l' && is_digits(rest) {
        Some(true)
    } else {
        None
    }
}
