//! In which form the values of a metric are reported, by its label.
//!
//! ```text
//! label := name ending
//! ending := ".e" places ["n" | "i" | "s" | "t" | "w"] [shape]
//! shape := "f" | "p" count | "l" count
//! ```
//!
//! The places are 6 to 18. A count is written with no 0 before it; of `p` it is 2 to 16, of `l` 0
//! to 15. canary_argo's `Form::suffix` writes such endings and no others.
ghost use Rattle.std.specs.Prelude.{◌≡◌, ℕ, ◌+◌, ◌<◌, ◌≤◌, List, length, drop, MatchOption};
ghost use Rattle.canary_argo.specs.declared.form.Form.{Form};
ghost use Rattle.canary_decimal.specs.Endings.{beside_text};
ghost use Rattle.canary_measure.specs.Labelled.{IsLabelIn, front_of, shape_in, by_letter};
ghost use Rattle.canary_measure.specs.Labelled.{several, with_length, count_in, digit_in};
ghost use Rattle.canary_measure.specs.Labelled.{teen_in};

use canary_argo::form::{Form, Shape};
use canary_decimal::laws;
use canary_decimal::shown::{Beside, Shown, Units};

/// What a label says.
#[derive(Clone, Copy, Debug)]
pub struct LabelParts<'a> {
    /// What stands before the ending.
    pub name: &'a str,
    /// In which form the values are reported.
    pub form: Form,
}

/// The name and the form of a label that ends in a form; none if it ends in none.
pub fn form_of(label: &str) -> Option<LabelParts<'_>>
    ensures { MatchOption result
        ((name : List ℕ) (form : Form) → IsLabelIn label.now name form → ⊥)
        (λ ending. IsLabelIn label.now ending.name.now ending.form) }
{
    laws::one_ending();
    let shown = Shown::of(label)?;
    let at = shown.name.len() + front_len(shown.units);
    let shape = shape_of(behind(label.as_bytes(), at))?;
    Some(LabelParts {
        name: shown.name,
        form: Form {
            places: shown.units.places,
            shape,
            beside: shown.units.beside,
        },
    })
}

// The bytes before the shape of an ending.
fn front_len(units: Units) -> usize
    requires { units.places ≤ 18 }
    ensures value { result ≡ length (front_of units) }
    ensures few { result ≤ 5 }
{
    let letter = letter_len(units.beside);
    if units.places < 10 {
        3 + letter
    } else {
        4 + letter
    }
}

// The bytes of the letter for what is reported beside decimals: 0 if there is nothing, else 1.
fn letter_len(beside: Beside) -> usize
    ensures value { result ≡ length (beside_text beside) }
    ensures few { result ≤ 1 }
{
    match beside {
        Beside::Nothing => 0,
        Beside::NaN | Beside::Infinite | Beside::Null => 1,
        Beside::FloatText | Beside::WholeText => 1,
    }
}

// What stands in a label from this place on.
fn behind(label: &[u8], at: usize) -> &[u8]
    requires { at ≤ length label.now }
    ensures { result.now ≡ drop at label.now }
{
    &label[at..]
}

// The shape that is written so.
fn shape_of(text: &[u8]) -> Option<Shape>
    ensures { result ≡ shape_in text.now }
{
    match text {
        [] => Some(Shape::One),
        [letter, rest @ ..] => by_letter(*letter, rest),
    }
}

// The shape that a letter and the rest spell: f and no rest, p or l and a count; else none.
fn by_letter(letter: u8, rest: &[u8]) -> Option<Shape>
    ensures { result ≡ by_letter letter rest.now }
{
    if letter == b'f' && rest.is_empty() {
        return Some(Shape::First);
    }
    if letter == b'p' {
        return several(count_of(rest));
    }
    if letter == b'l' {
        with_length(count_of(rest))
    } else {
        None
    }
}

// The shape of the first values of a list, so many at most.
fn several(most: Option<u64>) -> Option<Shape>
    ensures { result ≡ several most }
{
    match most {
        Some(most) if 2 <= most => Some(Shape::Several(most)),
        _ => None,
    }
}

// The shape of the length of a list and its first values, so many at most.
fn with_length(most: Option<u64>) -> Option<Shape>
    ensures { result ≡ with_length most }
{
    match most {
        Some(most) if most <= 15 => Some(Shape::Length(most)),
        _ => None,
    }
}

// The count up to 16 that is written so.
fn count_of(digits: &[u8]) -> Option<u64>
    ensures { result ≡ count_in digits.now }
{
    match digits {
        [digit] => digit_of(*digit),
        [b'1', digit] => teen_of(*digit),
        _ => None,
    }
}

// The value of an ASCII digit, or none.
fn digit_of(digit: u8) -> Option<u64>
    ensures { result ≡ digit_in digit }
{
    if b'0' <= digit && digit <= b'9' {
        Some((digit - b'0') as u64)
    } else {
        None
    }
}

// The number from 10 to 16 with this second digit, or none.
fn teen_of(digit: u8) -> Option<u64>
    ensures { result ≡ teen_in digit }
{
    if b'0' <= digit && digit <= b'6' {
        Some(10 + (digit - b'0') as u64)
    } else {
        None
    }
}
