//! The text of a desk's condition.
ghost use Rattle.std.specs.Prelude.{◌≡◌, ◌++◌, OnOk, IfOk, is_some, true, string_bytes};
ghost use Rattle.std.specs.List.{list_all};
ghost use Rattle.std.specs.Fmt.{signed_decimal};
ghost use Rattle.canary_argo.specs.Translating.{joined_text, all_text, atom_words, atom_text};
ghost use Rattle.canary_argo.specs.Translating.{operand_text, sign_text};
ghost use Rattle.canary_argo.specs.Translating.{test_text, item_text, sign_words};
ghost use Rattle.canary_argo.specs.Translating.{text_of, fits};
ghost use Rattle.canary_argo.specs.Translating.{skeleton_text, skeleton_of};

use crate::condition::Item;
use crate::fault::{TranslationFault, UnsupportedSyntax};
use crate::form::Form;
use crate::translating::{DeskAtom, DeskTest, compare_atom, inf_atom, nan_atom, why_not};
use canary_base::error::Memory;
use canary_condition::condition::{Comparison, Operand};
use canary_condition::outcome::Value;
use std::alloc::Global;

// A comparison's sign, with a blank on each side.
fn sign_text(comparison: Comparison) -> &'static str
    ensures { result.now ≡ sign_text comparison }
{
    match comparison {
        Comparison::Equal => " == ",
        Comparison::NotEqual => " != ",
        Comparison::Less => " < ",
        Comparison::AtMost => " <= ",
        Comparison::Greater => " > ",
        Comparison::AtLeast => " >= ",
    }
}

// Appends a number.
fn push_number(out: &mut String, number: i64) -> Result<(), Memory>
    ensures { OnOk result (string_bytes out.new ≡ string_bytes out.old ++ signed_decimal number) }
{
    Value::Whole(number).words(out)
}

// Appends an operand.
fn push_operand(out: &mut String, operand: Operand) -> Result<(), Memory>
    ensures { OnOk result (string_bytes out.new ≡ string_bytes out.old ++ operand_text operand) }
{
    match operand {
        Operand::Whole => {
            out.push_str("result")?;
        }
        Operand::Item(place) => {
            write!(out, "result[{place}]")?;
        }
        Operand::Number(number) => {
            push_number(out, number)?;
        }
    }
    Ok(())
}

// Appends a comparison.
fn push_test(out: &mut String, test: DeskTest) -> Result<(), Memory>
    ensures { OnOk result
        (string_bytes out.new ≡ string_bytes out.old ++ test_text (Some test)) }
{
    push_operand(out, test.operand)?;
    out.push_str(sign_text(test.comparison))?;
    push_number(out, test.constant)?;
    Ok(())
}

// Appends two comparisons with a sign between them, in brackets.
fn push_joined(
    out: &mut String,
    first: DeskTest,
    sign: &str,
    second: DeskTest,
) -> Result<(), Memory>
    ensures { OnOk result
        (string_bytes out.new ≡ string_bytes out.old ++ joined_text first sign.now second) }
{
    out.push_str("(")?;
    push_test(out, first)?;
    out.push_str(sign)?;
    push_test(out, second)?;
    out.push_str(")")?;
    Ok(())
}

// Appends three comparisons with `&&` between them, in brackets.
fn push_all(
    out: &mut String,
    first: DeskTest,
    second: DeskTest,
    third: DeskTest,
) -> Result<(), Memory>
    ensures { OnOk result
        (string_bytes out.new ≡ string_bytes out.old ++ all_text first second third) }
{
    out.push_str("(")?;
    push_test(out, first)?;
    out.push_str(" && ")?;
    push_test(out, second)?;
    out.push_str(" && ")?;
    push_test(out, third)?;
    out.push_str(")")?;
    Ok(())
}

// Appends what the desk asks.
fn push_atom(out: &mut String, atom: DeskAtom) -> Result<(), Memory>
    ensures { OnOk result
        (string_bytes out.new ≡ string_bytes out.old ++ atom_text (Some atom)) }
{
    match atom {
        DeskAtom::One(test) => push_test(out, test),
        DeskAtom::Both(first, second) => push_joined(out, first, " && ", second),
        DeskAtom::Either(first, second) => push_joined(out, first, " || ", second),
        DeskAtom::All(first, second, third) => push_all(out, first, second, third),
    }
}

// Appends what the desk asks, if there is something.
fn push_found(
    out: &mut String,
    found: Option<DeskAtom>,
    why: UnsupportedSyntax,
) -> Result<(), TranslationFault>
    ensures text { OnOk result
        (string_bytes out.new ≡ string_bytes out.old ++ atom_text found) }
    ensures fits { OnOk result (is_some found ≡ true) }
{
    let Some(atom) = found else {
        return Err(TranslationFault::refused(why, 0));
    };
    push_atom(out, atom)?;
    Ok(())
}

// The words of a sign or a bracket.
fn sign_words(item: Item) -> &'static str
    ensures { result.now ≡ sign_words item }
{
    match item {
        Item::Or => " || ",
        Item::And => " && ",
        Item::Not => "not ",
        Item::Open => "(",
        Item::Close => ")",
        Item::Compare(_) | Item::NaN(_) | Item::Inf(_) => "",
    }
}

// Appends words.
fn push_words(out: &mut String, words: &str) -> Result<(), TranslationFault>
    ensures { OnOk result (string_bytes out.new ≡ string_bytes out.old ++ words.now) }
{
    match out.push_str(words) {
        Ok(()) => Ok(()),
        Err(_) => Err(TranslationFault::Memory),
    }
}

// Appends a group.
fn push_item(out: &mut String, form: Form, item: Item) -> Result<(), TranslationFault>
    ensures text { OnOk result
        (string_bytes out.new ≡ string_bytes out.old ++ item_text form item) }
    ensures fits { OnOk result (fits form item ≡ true) }
{
    match item {
        Item::Compare(test) => push_found(out, compare_atom(form, test), why_not(form, test)),
        Item::NaN(place) => push_found(out, nan_atom(form, place), UnsupportedSyntax::Shape),
        Item::Inf(place) => push_found(out, inf_atom(form, place), UnsupportedSyntax::Shape),
        sign => push_words(out, sign_words(sign)),
    }
}

// The text of the desk's condition for these groups.
pub(crate) fn text_of(alloc: Global, form: Form, items: &[Item]) -> Result<String, TranslationFault>
    ensures text { IfOk result (λ text. string_bytes text ≡ text_of form items.now) }
    ensures fits { IfOk result (λ _. list_all (fits form) items.now ≡ true) }
{
    let mut out = String::new(alloc);
    for item in items {
        push_item(&mut out, form, *item)?;
    }
    Ok(out)
}

// The signs alone.
fn skeleton_text(item: Item) -> &'static str
    ensures { result.now ≡ skeleton_text item }
{
    match item {
        Item::Or => "|| ",
        Item::And => "&& ",
        Item::Not => "not ",
        Item::Open => "( ",
        Item::Close => ") ",
        Item::Compare(_) | Item::NaN(_) | Item::Inf(_) => "1<1 ",
    }
}

// The text of the signs alone.
pub(crate) fn skeleton_of(alloc: Global, items: &[Item]) -> Result<String, Memory>
    ensures { IfOk result (λ text. string_bytes text ≡ skeleton_of items.now) }
{
    let mut out = String::new(alloc);
    for item in items {
        out.push_str(skeleton_text(*item))?;
    }
    Ok(out)
}
