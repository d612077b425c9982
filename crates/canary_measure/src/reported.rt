//! What is reported of what was measured.
ghost use Rattle.std.specs.Prelude.{◌≡◌, ◌<◌, ◌≤◌, ◌^◌, ℤ, List, length, map, take, MatchOption};
ghost use Rattle.std.specs.Prelude.{MatchResult, IfOk};
ghost use Rattle.arrayvec.specs.ArrayVec.{array_vec_len};
ghost use Rattle.canary_argo.specs.Meaning.Measured.{One as OneValue, Several as SeveralValues};
ghost use Rattle.canary_argo.specs.Reporting.{Stands, AllStand, IsReported, IsReportedAs};
ghost use Rattle.canary_measure.specs.Measures.{seen, measured_of, IsAnswer, IsOf, IsFirstOf};
ghost use Rattle.canary_measure.specs.Measures.{IsListOf, IsListAfter};
ghost use Rattle.canary_measure.specs.Results.{IsUnder, IsAsItStands, IsOutcomeOf};

use crate::label::form_of;
use crate::laws;
use crate::measured::{Given, Measured};
use crate::whole::whole_of;
use crate::why::NotReported;
use arrayvec::ArrayVec;
use canary_argo::form::{Form, Shape};
use canary_argo::reporting;
use canary_base::error::Memory;
use canary_condition::outcome::{MAX_VALUES, Outcome, Value};
use canary_decimal::shown::Shown;
use std::alloc::Global;

// The numbers of a list.
type Numbers = ArrayVec<i64, MAX_VALUES>;

/// What is reported under a label of what was measured, or a failure that says why nothing is;
/// `Memory` if an allocation is refused.
pub fn outcome_of(alloc: Global, label: &str, measured: &Measured) -> Result<Outcome, Memory>
    ensures { IfOk result
        (λ outcome. IsOutcomeOf label.now (measured_of measured.now) outcome) }
{
    match result_of(label, measured) {
        Ok(value) => Ok(Outcome::Result(value)),
        Err(why) => Ok(Outcome::Failure(why.failure(alloc)?)),
    }
}

/// What is reported under a label of what was measured, or why nothing is.
pub fn result_of(label: &str, measured: &Measured) -> Result<Value, NotReported>
    ensures { IsAnswer result (IsUnder label.now (measured_of measured.now)) }
{
    laws::one_form();
    match form_of(label) {
        Some(ending) => reported_of(ending.form, measured),
        None => as_it_stands(label, measured),
    }
}

// What is reported under a label with no ending.
fn as_it_stands(label: &str, measured: &Measured) -> Result<Value, NotReported>
    ensures { IsAnswer result (IsAsItStands label.now (measured_of measured.now)) }
{
    match Shown::of(label) {
        Some(_) => Err(NotReported::Label),
        None => whole_of(measured),
    }
}

/// What is reported in a form of what was measured, or why nothing is.
pub fn reported_of(form: Form, measured: &Measured) -> Result<Value, NotReported>
    requires { form.places ≤ 18 }
    ensures { IsAnswer result (IsReported form (measured_of measured.now)) }
{
    match measured {
        Measured::One(given) => of_one(form, given),
        Measured::Several(values) => of_several(form, values.as_slice()),
    }
}

// What is reported of one value.
fn of_one(form: Form, given: &Given) -> Result<Value, NotReported>
    requires { form.places ≤ 18 }
    ensures { IsAnswer result (IsReported form (OneValue (seen given.now))) }
{
    match form.shape {
        Shape::One => whole(form, given),
        _ => Err(NotReported::One),
    }
}

// What is reported of a list.
fn of_several(form: Form, values: &[Given]) -> Result<Value, NotReported>
    requires { form.places ≤ 18 }
    ensures { IsAnswer result (IsReported form (SeveralValues (map seen values.now))) }
{
    match form.shape {
        Shape::One => Err(NotReported::List),
        Shape::First => of_first(form, values),
        Shape::Several(most) => list(form, first(values, most)),
        Shape::Length(most) => with_first(form, values, most),
    }
}

// The length of a list and its first values, so many at most.
fn with_first(form: Form, values: &[Given], most: u64) -> Result<Value, NotReported>
    requires { form.places ≤ 18 }
    ensures { IsAnswer result (IsReportedAs form.beside form.places (Shape.Length most)
        (SeveralValues (map seen values.now))) }
{
    let first = first(values, most);
    with_length(form, first, values.len())
}

// The number that stands for a value, as a result.
fn whole(form: Form, given: &Given) -> Result<Value, NotReported>
    requires { form.places ≤ 18 }
    ensures { IsAnswer result (IsOf form.beside form.places (seen given.now)) }
{
    match number(form, given) {
        Some(number) => Ok(Value::Whole(number)),
        None => Err(NotReported::of(given)),
    }
}

// The number that stands for the first value of a list, as a result.
fn of_first(form: Form, values: &[Given]) -> Result<Value, NotReported>
    requires { form.places ≤ 18 }
    ensures { IsAnswer result (IsFirstOf form.beside form.places (map seen values.now)) }
{
    match values {
        [] => Err(NotReported::Empty),
        [given, ..] => whole(form, given),
    }
}

// The first values of a list, so many at most.
fn first(values: &[Given], most: u64) -> &[Given]
    ensures { result.now ≡ take most values.now }
{
    if most < values.len() as u64 {
        &values[..most as usize]
    } else {
        values
    }
}

// The number that stands for a value.
fn number(form: Form, given: &Given) -> Option<i64>
    requires { form.places ≤ 18 }
    ensures { MatchOption result
        ((z : ℤ) → Stands form.beside form.places (seen given.now) z → ⊥)
        (λ z. Stands form.beside form.places (seen given.now) z) }
{
    match given {
        Given::Read(reading) => reporting::number_of(form, reading),
        Given::Text(text) => reporting::text_of(form, text),
        Given::Null => reporting::null_of(form),
    }
}

// The numbers that stand for values, in their order.
fn numbers(form: Form, values: &[Given]) -> Result<Numbers, NotReported>
    requires places { form.places ≤ 18 }
    requires few { length values.now ≤ 16 }
    ensures stand { MatchResult result
        (λ numbers. AllStand form.beside form.places (map seen values.now) numbers.items)
        (λ _. (zs : List ℤ) → AllStand form.beside form.places (map seen values.now) zs → ⊥) }
    ensures len { IfOk result (λ numbers. array_vec_len numbers ≡ length values.now) }
{
    let mut numbers = Numbers::new();
    for given in values {
        let Some(number) = number(form, given) else {
            return Err(NotReported::of(given));
        };
        numbers.push(number);
    }
    Ok(numbers)
}

// The list of the numbers that stand for values.
fn list(form: Form, values: &[Given]) -> Result<Value, NotReported>
    requires { form.places ≤ 18 }
    ensures { IsAnswer result (IsListOf form.beside form.places (map seen values.now)) }
{
    if values.len() > MAX_VALUES {
        return Err(NotReported::TooMany);
    }
    let numbers = numbers(form, values)?;
    Value::list(numbers.as_slice()).ok_or(NotReported::Empty)
}

// The list of a length and the numbers that stand for values.
fn with_length(form: Form, values: &[Given], len: usize) -> Result<Value, NotReported>
    requires places { form.places ≤ 18 }
    requires fits { len < 2 ^ 63 }
    ensures { IsAnswer result (IsListAfter form.beside form.places len (map seen values.now)) }
{
    if values.len() >= MAX_VALUES {
        return Err(NotReported::TooMany);
    }
    let mut numbers = numbers(form, values)?;
    numbers.insert(0, len as i64);
    Value::list(numbers.as_slice()).ok_or(NotReported::TooMany)
}
