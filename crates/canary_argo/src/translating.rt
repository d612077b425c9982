//! The desk's comparison for one of Argo's.
ghost use Rattle.std.specs.Prelude.{◌≡◌};
ghost use Rattle.canary_argo.specs.Translating.{desk_place, turned, in_turn, constant_of, made};
ghost use Rattle.canary_argo.specs.Translating.{length_of, constant_at, desk_test};
ghost use Rattle.std.specs.Prelude.{◌<◌, ◌≤◌, ◌^◌, ◌*◌, ◌-◌, min, unsigned_abs};
ghost use Rattle.canary_decimal.specs.Exactness.{signed};
ghost use Rattle.canary_argo.specs.Translating.{guard, is_below, guarded_by, guarded, plain_atom};
ghost use Rattle.canary_argo.specs.Translating.{float_atom};
ghost use Rattle.canary_argo.specs.Translating.{least_from, least_above, edge_of, edge_sign};
ghost use Rattle.canary_argo.specs.Translating.{edge_test, one_test, both_tests, either_test};
ghost use Rattle.canary_argo.specs.Translating.{int_asked, int_atom, compare_atom};
ghost use Rattle.canary_condition.specs.declared.condition.Comparison.TheVariants.{Equal};
ghost use Rattle.canary_condition.specs.Meaning.{compares};
ghost use Rattle.canary_argo.specs.Translating.{desk_value, nan_atom, inf_atom, at_null};
ghost use Rattle.canary_argo.specs.Translating.{is_not_equal, takes_null, except_null, null_by};
ghost use Rattle.canary_argo.specs.Translating.{with_null, value_test, default_atom, is_value};

use crate::condition::{Amount, Function, Item, Look, ResultPart, Test};
use crate::fault::UnsupportedSyntax;
use crate::form::{Form, MAX_VALUES, Shape, has_infinite, has_nan, has_null, is_plain};
use crate::lexer::{MIN_TOO_LONG, is_held};
use canary_condition::condition::{Comparison, Operand};
use canary_decimal::decimal::{MAX_PLACES, ShortDecimal};
use canary_decimal::shown::{INFINITE, MINUS_INFINITE, NAN, NULL};

// A comparison of a value that is reported with a constant.
#[derive(Clone, Copy)]
pub(crate) struct DeskTest {
    pub(crate) operand: Operand,
    pub(crate) comparison: Comparison,
    pub(crate) constant: i64,
}

// What the desk asks.
#[derive(Clone, Copy)]
pub(crate) enum DeskAtom {
    One(DeskTest),
    Both(DeskTest, DeskTest),
    Either(DeskTest, DeskTest),
    All(DeskTest, DeskTest, DeskTest),
}

// The operand for a place, if the shape has it.
fn desk_place(shape: Shape, place: ResultPart) -> Option<Operand>
    ensures { result ≡ desk_place shape place }
{
    match (shape, place) {
        (Shape::One, ResultPart::Whole) => Some(Operand::Whole),
        (Shape::First, ResultPart::Item(0)) => Some(Operand::Whole),
        (Shape::Several(most), ResultPart::Item(place)) if place < most && most <= MAX_VALUES => {
            Some(Operand::Item(place))
        }
        (Shape::Length(_), ResultPart::Length) => Some(Operand::Item(0)),
        (Shape::Length(most), ResultPart::Item(place)) if place < most && most < MAX_VALUES => {
            Some(Operand::Item(place + 1))
        }
        _ => None,
    }
}

// The comparison with its sides changed.
fn turned(comparison: Comparison) -> Comparison
    ensures { result ≡ turned comparison }
{
    match comparison {
        Comparison::Equal => Comparison::Equal,
        Comparison::NotEqual => Comparison::NotEqual,
        Comparison::Less => Comparison::Greater,
        Comparison::AtMost => Comparison::AtLeast,
        Comparison::Greater => Comparison::Less,
        Comparison::AtLeast => Comparison::AtMost,
    }
}

// The comparison with the value first.
fn in_turn(is_turned: bool, comparison: Comparison) -> Comparison
    ensures { result ≡ in_turn is_turned comparison }
{
    if is_turned {
        turned(comparison)
    } else {
        comparison
    }
}

// The constant of a number, if it has fewer places than are reported.
fn constant_of(number: ShortDecimal, places: usize) -> Option<i64>
    ensures { result ≡ constant_of number places }
{
    if number.places < places && places <= MAX_PLACES {
        number.to_constant(places)
    } else {
        None
    }
}

// The constant of a length, which is a whole number.
fn length_of(number: ShortDecimal) -> Option<i64>
    ensures { result ≡ length_of number }
{
    if number.places == 0 && number.whole.unsigned_abs() < MIN_TOO_LONG {
        Some(number.whole)
    } else {
        None
    }
}

// The constant that a place is compared with.
fn constant_at(place: ResultPart, number: ShortDecimal, places: usize) -> Option<i64>
    ensures { result ≡ constant_at place number places }
{
    match place {
        ResultPart::Length => length_of(number),
        _ => constant_of(number, places),
    }
}

// The comparison that keeps NaN from being below a constant.
pub(crate) fn guard(test: DeskTest) -> DeskTest
    ensures { result ≡ guard test }
{
    DeskTest {
        operand: test.operand,
        comparison: Comparison::NotEqual,
        constant: NAN,
    }
}

// Whether it is `Less` or `AtMost`, which the numbers for NaN and null always pass.
fn is_below(comparison: Comparison) -> bool
    ensures { result ≡ is_below comparison }
{
    matches!(comparison, Comparison::Less | Comparison::AtMost)
}

// The comparison, with `guard` beside it if `is_guarded`, so that NaN does not pass.
fn guarded_by(is_guarded: bool, test: DeskTest) -> DeskAtom
    ensures { result ≡ guarded_by is_guarded test }
{
    if is_guarded {
        DeskAtom::Both(test, guard(test))
    } else {
        DeskAtom::One(test)
    }
}

// The desk's comparison, guarded if NaN would be below its constant.
fn guarded(nan: bool, test: Option<DeskTest>) -> Option<DeskAtom>
    ensures { result ≡ guarded nan test }
{
    let test = test?;
    Some(guarded_by(nan && is_below(test.comparison), test))
}

// Whether a place is no length.
fn is_value(place: ResultPart) -> bool
    ensures { result ≡ is_value place }
{
    !matches!(place, ResultPart::Length)
}

// What the desk asks for a comparison that is `Plain`; none if it has no such comparison. None
// also if null or texts are reported as numbers: each value then needs its function.
fn plain_atom(form: Form, test: Test) -> Option<DeskAtom>
    ensures { result ≡ plain_atom form test }
{
    if !is_plain(form.beside) && is_value(test.look.place) {
        return None;
    }
    float_atom(form, test)
}

// The same for one that is `AsFloat`, which reads a number in a text, but takes no null.
fn float_atom(form: Form, test: Test) -> Option<DeskAtom>
    ensures { result ≡ float_atom form test }
{
    if has_null(form.beside) && is_value(test.look.place) {
        return None;
    }
    guarded(has_nan(form.beside), desk_test(form, test))
}

// 10 to the power of so many places, or the greatest u64.
fn power_of(places: usize) -> u64
    ensures { result ≡ min (2 ^ 64 - 1) (1 * 10 ^ places) }
{
    let mut power: u64 = 1;
    for _ in 0..places {
        power = power.saturating_mul(10);
    }
    power
}

// 10 to the power of so many places.
fn unit_of(places: usize) -> u64
    requires { places ≤ 18 }
    ensures value { result ≡ 10 ^ places }
    ensures some { 0 < result }
{
    power_of(places)
}

// A number with its sign.
fn with_sign(minus: bool, size: u64) -> i64
    requires { size ≤ 10 ^ 15 }
    ensures { result ≡ signed minus size }
{
    if minus { -(size as i64) } else { size as i64 }
}

// The least whole number that is not below a number, in these units.
fn least_from(number: i64, unit: u64) -> i64
    requires some { 0 < unit }
    requires few { unsigned_abs number < 10 ^ 15 }
    ensures { result ≡ least_from number unit }
{
    let size = number.unsigned_abs();
    if 0 < number {
        with_sign(false, (size - 1) / unit + 1)
    } else {
        with_sign(true, size / unit)
    }
}

// The least whole number above a number, in these units.
fn least_above(number: i64, unit: u64) -> i64
    requires some { 0 < unit }
    requires few { unsigned_abs number < 10 ^ 15 }
    ensures { result ≡ least_above number unit }
{
    let size = number.unsigned_abs();
    if number < 0 {
        with_sign(true, (size - 1) / unit)
    } else {
        with_sign(false, size / unit + 1)
    }
}

// The constant of `edge_test`: the number if above 0, else the one below, as values are cut off.
fn edge_of(number: i64) -> i64
    requires { unsigned_abs number ≤ 10 ^ 15 }
    ensures { result ≡ edge_of number }
{
    if 0 < number { number } else { number - 1 }
}

// The sign of `edge_test`: a value at the edge reaches the number only if that is above 0.
fn edge_sign(reaches: bool, number: i64) -> Comparison
    ensures { result ≡ edge_sign reaches number }
{
    match (reaches, 0 < number) {
        (true, true) => Comparison::AtLeast,
        (true, false) => Comparison::Greater,
        (false, true) => Comparison::Less,
        (false, false) => Comparison::AtMost,
    }
}

// The comparison that says whether the value, cut off towards 0, reaches a whole number, or stays
// below it.
fn edge_test(reaches: bool, place: ResultPart, number: i64) -> Test
    requires { unsigned_abs number ≤ 10 ^ 15 }
    ensures { result ≡ edge_test reaches place number }
{
    Test {
        look: Look {
            place,
            function: Function::Plain,
            bracketed: false,
        },
        comparison: edge_sign(reaches, number),
        amount: Amount {
            number: ShortDecimal {
                whole: edge_of(number),
                places: 0,
            },
            bracketed: false,
        },
        turned: false,
    }
}

// What the desk asks by one comparison; none if it has no such comparison.
fn one_test(test: Option<DeskTest>) -> Option<DeskAtom>
    ensures { result ≡ one_test test }
{
    Some(DeskAtom::One(test?))
}

// What the desk asks by two comparisons that must both hold; none if it lacks either.
fn both_tests(first: Option<DeskTest>, second: Option<DeskTest>) -> Option<DeskAtom>
    ensures { result ≡ both_tests first second }
{
    Some(DeskAtom::Both(first?, second?))
}

// What the desk asks by two comparisons of which one must hold; none if it lacks either.
fn either_test(first: Option<DeskTest>, second: Option<DeskTest>) -> Option<DeskAtom>
    ensures { result ≡ either_test first second }
{
    Some(DeskAtom::Either(first?, second?))
}

// The desk's comparison of a value with such a number.
fn edge(form: Form, reaches: bool, place: ResultPart, number: i64) -> Option<DeskTest>
    requires { unsigned_abs number ≤ 10 ^ 15 }
    ensures { result ≡ desk_test form (edge_test reaches place number) }
{
    desk_test(form, edge_test(reaches, place, number))
}

// What is asked of a value that is cut off, by the least whole numbers from a constant on and
// above it.
fn int_asked(
    form: Form,
    place: ResultPart,
    comparison: Comparison,
    from: i64,
    above: i64,
) -> Option<DeskAtom>
    requires from { unsigned_abs from ≤ 10 ^ 15 }
    requires above { unsigned_abs above ≤ 10 ^ 15 }
    ensures { result ≡ int_asked form place comparison from above }
{
    match comparison {
        Comparison::Equal => both_tests(
            edge(form, true, place, from),
            edge(form, false, place, above),
        ),
        Comparison::NotEqual => either_test(
            edge(form, false, place, from),
            edge(form, true, place, above),
        ),
        Comparison::Less => one_test(edge(form, false, place, from)),
        Comparison::AtMost => one_test(edge(form, false, place, above)),
        Comparison::Greater => one_test(edge(form, true, place, above)),
        Comparison::AtLeast => one_test(edge(form, true, place, from)),
    }
}

// What the desk asks for a comparison of a value that is cut off.
fn int_atom(form: Form, test: Test) -> Option<DeskAtom>
    ensures { result ≡ int_atom form test }
{
    let number = test.amount.number;
    if has_nan(form.beside) || !is_held(number) {
        return None;
    }
    let unit = unit_of(number.places);
    let from = least_from(number.whole, unit);
    let above = least_above(number.whole, unit);
    int_asked(
        form,
        test.look.place,
        in_turn(test.turned, test.comparison),
        from,
        above,
    )
}

// The operand for a place that is no length.
fn desk_value(shape: Shape, place: ResultPart) -> Option<Operand>
    ensures { result ≡ desk_value shape place }
{
    match place {
        ResultPart::Length => None,
        _ => desk_place(shape, place),
    }
}

// The same value compared with what is reported of null.
fn at_null(comparison: Comparison, test: DeskTest) -> DeskTest
    ensures { result ≡ at_null comparison test }
{
    DeskTest {
        operand: test.operand,
        comparison,
        constant: NULL,
    }
}

// Whether it is `NotEqual`, which the number for null passes.
fn is_not_equal(comparison: Comparison) -> bool
    ensures { result ≡ is_not_equal comparison }
{
    matches!(comparison, Comparison::NotEqual)
}

// Whether what is reported of null passes a comparison.
fn takes_null(comparison: Comparison) -> bool
    ensures { result ≡ takes_null comparison }
{
    is_below(comparison) || is_not_equal(comparison)
}

// Not null, which the comparison takes.
fn except_null(is_guarded: bool, test: DeskTest) -> DeskAtom
    ensures { result ≡ except_null is_guarded test }
{
    let other = at_null(Comparison::NotEqual, test);
    if is_guarded {
        DeskAtom::All(test, guard(test), other)
    } else {
        DeskAtom::Both(test, other)
    }
}

// What the desk asks, by whether the comparison takes null, and whether null is wanted.
fn null_by(takes: bool, wanted: bool, test: DeskTest) -> DeskAtom
    ensures { result ≡ null_by takes wanted test }
{
    match (takes, wanted) {
        (true, false) => except_null(is_below(test.comparison), test),
        (false, true) => DeskAtom::Either(test, at_null(Comparison::Equal, test)),
        (true, true) => guarded_by(is_below(test.comparison), test),
        (false, false) => guarded_by(is_below(test.comparison), test),
    }
}

// Whether the comparison holds with `first` on its left and `second` on its right.
fn holds(comparison: Comparison, first: i64, second: i64) -> bool
    ensures { result ≡ compares comparison first second }
{
    match comparison {
        Comparison::Equal => first == second,
        Comparison::NotEqual => first != second,
        Comparison::Less => first < second,
        Comparison::AtMost => first <= second,
        Comparison::Greater => first > second,
        Comparison::AtLeast => first >= second,
    }
}

// What the desk asks with `number` in place of null; none if that or the comparison is missing.
// Null is wanted exactly if `number` passes the comparison.
fn with_null(number: Option<i64>, test: Option<DeskTest>) -> Option<DeskAtom>
    ensures { result ≡ with_null number test }
{
    let number = number?;
    let test = test?;
    let wanted = holds(test.comparison, number, test.constant);
    Some(null_by(takes_null(test.comparison), wanted, test))
}

// The desk's comparison of a place that is no length.
fn value_test(form: Form, test: Test) -> Option<DeskTest>
    ensures { result ≡ value_test form test }
{
    made(
        in_turn(test.turned, test.comparison),
        desk_value(form.shape, test.look.place),
        constant_of(test.amount.number, form.places),
    )
}

// What the desk asks for a comparison of a value with a number in place of null.
fn default_atom(form: Form, number: ShortDecimal, test: Test) -> Option<DeskAtom>
    ensures { result ≡ default_atom form number test }
{
    if !has_null(form.beside) {
        return None;
    }
    with_null(constant_of(number, form.places), value_test(form, test))
}

// What the desk asks for one of Argo's comparisons.
pub(crate) fn compare_atom(form: Form, test: Test) -> Option<DeskAtom>
    ensures { result ≡ compare_atom form test }
{
    match test.look.function {
        Function::Plain => plain_atom(form, test),
        Function::AsFloat => float_atom(form, test),
        Function::AsInt => int_atom(form, test),
        Function::Default(number) => default_atom(form, number, test),
    }
}

// What the desk asks for `isNaN` of a place.
pub(crate) fn nan_atom(form: Form, place: ResultPart) -> Option<DeskAtom>
    ensures { result ≡ nan_atom form place }
{
    if !has_nan(form.beside) || !is_plain(form.beside) {
        return None;
    }
    let operand = desk_value(form.shape, place)?;
    Some(DeskAtom::One(equal_to(operand, NAN)))
}

// The comparison that holds only at that constant, as for NaN and the infinities.
fn equal_to(operand: Operand, constant: i64) -> DeskTest
    ensures { result ≡ record { operand = operand; comparison = Equal; constant = constant } }
{
    DeskTest {
        operand,
        comparison: Comparison::Equal,
        constant,
    }
}

// What the desk asks for `isInf` of a place.
pub(crate) fn inf_atom(form: Form, place: ResultPart) -> Option<DeskAtom>
    ensures { result ≡ inf_atom form place }
{
    if !has_infinite(form.beside) || !is_plain(form.beside) {
        return None;
    }
    let operand = desk_value(form.shape, place)?;
    let infinite = equal_to(operand, INFINITE);
    Some(DeskAtom::Either(infinite, equal_to(operand, MINUS_INFINITE)))
}

// The desk's comparison of these parts; none without the operand or the constant.
fn made(comparison: Comparison, operand: Option<Operand>, constant: Option<i64>) -> Option<DeskTest>
    ensures { result ≡ made comparison operand constant }
{
    Some(DeskTest {
        operand: operand?,
        comparison,
        constant: constant?,
    })
}

// The desk's comparison for one of Argo's, with the value first.
fn desk_test(form: Form, test: Test) -> Option<DeskTest>
    ensures { result ≡ desk_test form test }
{
    made(
        in_turn(test.turned, test.comparison),
        desk_place(form.shape, test.look.place),
        constant_at(test.look.place, test.amount.number, form.places),
    )
}

// Whether `asInt` stands beside `isNaN` or `isInf`.
fn is_beside(form: Form, test: Test) -> bool {
    has_nan(form.beside) && matches!(test.look.function, Function::AsInt)
}

// Why the desk has no comparison for one of Argo's.
pub(crate) fn why_not(form: Form, test: Test) -> UnsupportedSyntax {
    match desk_place(form.shape, test.look.place) {
        None => UnsupportedSyntax::Shape,
        Some(_) if is_beside(form, test) => UnsupportedSyntax::AsInt,
        Some(_) if matches!(test.look.place, ResultPart::Length) => UnsupportedSyntax::Fraction,
        Some(_) => UnsupportedSyntax::Range,
    }
}

// Whether the desk has nothing to ask for a group.
fn is_unfit(form: Form, item: Item) -> bool {
    match item {
        Item::Compare(test) => compare_atom(form, test).is_none(),
        Item::NaN(place) => nan_atom(form, place).is_none(),
        Item::Inf(place) => inf_atom(form, place).is_none(),
        _ => false,
    }
}

// The place of the first comparison that has none of the desk's, or the end.
pub(crate) fn place_of_unfit(form: Form, items: &[Item]) -> usize {
    for (at, item) in items.iter().enumerate() {
        if is_unfit(form, *item) {
            return at;
        }
    }
    items.len()
}
