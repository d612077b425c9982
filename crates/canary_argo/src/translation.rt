//! The translation of a condition of Argo Rollouts to one of a desk.
//!
//! ```text
//! or      := and  { ("||" | "or") and }
//! and     := not  { ("&&" | "and") not }
//! not     := ("!" | "not") (not, but no comparison) | atom
//! atom    := "(" or ")" | look compare amount | amount compare look
//!            | ("isNaN" | "isInf") "(" place ")"
//! look    := value | "(" value ")"
//! amount  := number | "(" number ")"
//! value   := place | ("asFloat" | "asInt") "(" place ")" | "default" "(" place "," number ")"
//! place   := "result" | "result" "[" digits "]" | "len" "(" "result" ")"
//! ```
//!
//! A number has at most 15 digits, at most 17 of them after the point, once it is written out:
//! `0.95`, `-.5`, `1e-3`, `1_000`, `0x1F`.
ghost use Rattle.std.specs.Prelude.{◌≡◌, IfOk, OnOk, string_bytes};
ghost use Rattle.canary_condition.specs.Reading.{IsConditionText};
ghost use Rattle.canary_condition.specs.Trees.{Tree};
ghost use Rattle.canary_argo.specs.Translating.{IsTranslated, IsTranslation, skeleton_of};

use crate::condition::Item;
use crate::fault::{SyntaxFinding, TranslationFault, UnsupportedSyntax};
use crate::form::Form;
use crate::{items, lexer, naming, printing, translating};
use canary_condition::condition::Condition;
use canary_decimal::laws;
use std::alloc::Global;

// Nothing, if the text is a condition of the desk.
fn check(alloc: Global, text: &str) -> Result<(), TranslationFault>
    ensures { OnOk result ((desk : Tree) × IsConditionText text.now desk) }
{
    let _condition = Condition::parse(alloc, text)?;
    Ok(())
}

// Nothing, if the signs and brackets fit together.
fn check_signs(alloc: Global, items: &[Item]) -> Result<(), TranslationFault>
    ensures { OnOk result ((desk : Tree) × IsConditionText (skeleton_of items.now) desk) }
{
    let signs = printing::skeleton_of(alloc, items)?;
    check(alloc, signs.as_str())
}

// The desk's condition for these groups. The place of a fault is that of a group.
fn translated(alloc: Global, form: Form, items: &[Item]) -> Result<String, TranslationFault>
    ensures { IfOk result (λ text. IsTranslated items.now form (string_bytes text)) }
{
    laws::compares_as_decimals();
    laws::short_constants();
    if !items::are_closed(items) {
        let at = naming::place_of_not(items);
        return Err(TranslationFault::refused(UnsupportedSyntax::NotBeforeComparison, at));
    }
    check_signs(alloc, items)?;
    let text = printing::text_of(alloc, form, items)?;
    check(alloc, text.as_str())?;
    Ok(text)
}

// The group that a fault is about.
fn place_of(form: Form, items: &[Item], finding: SyntaxFinding) -> usize {
    match finding.why {
        UnsupportedSyntax::Brackets => naming::place_of_misfit(items),
        UnsupportedSyntax::Shape
        | UnsupportedSyntax::Range
        | UnsupportedSyntax::Fraction
        | UnsupportedSyntax::AsInt => translating::place_of_unfit(form, items),
        _ => finding.at,
    }
}

// The fault at the byte of its group, or `Memory`.
fn at_item(
    alloc: Global,
    text: &[u8],
    form: Form,
    items: &[Item],
    fault: TranslationFault,
) -> TranslationFault {
    match fault {
        TranslationFault::Memory => TranslationFault::Memory,
        TranslationFault::Refused(finding) => {
            let tokens = naming::tokens_before(items, place_of(form, items, finding));
            lexer::fault_at_token(alloc, text, finding.why, tokens)
        }
    }
}

// The desk's condition for the groups of a text. The place of a fault is that of a byte.
fn placed(
    alloc: Global,
    text: &[u8],
    form: Form,
    items: &[Item],
) -> Result<String, TranslationFault>
    ensures { IfOk result (λ translated. IsTranslated items.now form (string_bytes translated)) }
{
    match translated(alloc, form, items) {
        Ok(translated) => Ok(translated),
        Err(fault) => Err(at_item(alloc, text, form, items, fault)),
    }
}

/// The desk's condition for one of Argo Rollouts, of a metric whose values are reported in this
/// form: on each result that is reported, the desk's condition says what Argo's says of what was
/// measured.
///
/// # Errors
/// `Memory` if an allocation was refused; otherwise what the condition has that is not translated,
/// and at which byte.
pub fn translate(alloc: Global, text: &str, form: Form) -> Result<String, TranslationFault>
    ensures { IfOk result (λ translated. IsTranslation text.now form (string_bytes translated)) }
{
    let text = text.as_bytes();
    let tokens = lexer::tokens_of(alloc, text)?;
    let items = items::items_of_text(alloc, text, tokens.as_slice())?;
    placed(alloc, text, form, items.as_slice())
}
