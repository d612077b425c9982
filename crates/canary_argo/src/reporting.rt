//! What is reported of a value that was measured.
ghost use Rattle.std.specs.Prelude.{◌≡◌, ◌≤◌, ℤ, MatchOption};
ghost use Rattle.canary_argo.specs.Meaning.{given_of};
ghost use Rattle.canary_argo.specs.Meaning.Given.{Nothing, Decimal as DecimalGiven, Text};
ghost use Rattle.canary_argo.specs.Reporting.{Stands, above_all, below_all};

use crate::form::{Form, has_infinite, has_nan, has_null};
use canary_decimal::decimal::Decimal;
use canary_decimal::reading::Reading;
use canary_decimal::shown::{Beside, INFINITE, MINUS_INFINITE, NAN, NULL};
use canary_decimal::text::TextNumber;

/// What is reported of +Inf under a label without `i` and `s`: the greatest number that is reported
/// of a decimal. It is above each constant of a condition.
pub const GREATEST: i64 = 9_223_372_036_854_775_803;

/// The same for -Inf.
pub const LEAST: i64 = -9_223_372_036_854_775_803;

// The multiple of a decimal, which is what is reported of nothing else.
#[tactic(auto, using(crate::proofs::Apart::apart_all))]
fn multiple(form: Form, decimal: &Decimal) -> i64
    requires { form.places ≤ 18 }
    ensures { Stands form.beside form.places (DecimalGiven decimal.now) result }
{
    decimal.to_multiple(form.places)
}

// What is reported of +Inf.
fn above_all(beside: Beside) -> i64
    ensures { result ≡ above_all beside }
{
    if has_infinite(beside) {
        INFINITE
    } else {
        GREATEST
    }
}

// What is reported of -Inf.
fn below_all(beside: Beside) -> i64
    ensures { result ≡ below_all beside }
{
    if has_infinite(beside) {
        MINUS_INFINITE
    } else {
        LEAST
    }
}

/// The number that is reported of a value in this form, or none for NaN in a form without it, which
/// is then reported as a failure. An infinity always has a number: its own if the form has one, and
/// else `GREATEST` or `LEAST`.
pub fn number_of(form: Form, value: &Reading) -> Option<i64>
    requires { form.places ≤ 18 }
    ensures { MatchOption result
        ((z : ℤ) → ¬ Stands form.beside form.places (given_of value.now) z)
        (λ z. Stands form.beside form.places (given_of value.now) z) }
{
    match value {
        Reading::Number(decimal) => Some(multiple(form, decimal)),
        Reading::NotANumber if has_nan(form.beside) => Some(NAN),
        Reading::NotANumber => None,
        Reading::Infinite => Some(above_all(form.beside)),
        Reading::MinusInfinite => Some(below_all(form.beside)),
    }
}

/// The number that is reported of a text in this form, or none if it is reported as a failure: the
/// form reads no texts, or its function, ParseFloat or ParseInt, reads no number in this one.
pub fn text_of(form: Form, text: &TextNumber) -> Option<i64>
    requires { form.places ≤ 18 }
    ensures { MatchOption result
        ((z : ℤ) → ¬ Stands form.beside form.places (Text text.now) z)
        (λ z. Stands form.beside form.places (Text text.now) z) }
{
    match (form.beside, text) {
        (Beside::FloatText, TextNumber::Whole(decimal)) => Some(multiple(form, decimal)),
        (Beside::FloatText, TextNumber::Float(reading)) => number_of(form, reading),
        (Beside::WholeText, TextNumber::Whole(decimal)) => Some(multiple(form, decimal)),
        _ => None,
    }
}

/// The number that is reported of null in this form, or none if null is reported as a failure.
pub fn null_of(form: Form) -> Option<i64>
    ensures { MatchOption result
        ((z : ℤ) → ¬ Stands form.beside form.places Nothing z)
        (λ z. Stands form.beside form.places Nothing z) }
{
    if has_null(form.beside) {
        Some(NULL)
    } else {
        None
    }
}
