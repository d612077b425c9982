//! From tokens to groups: comparisons, and the signs and brackets between them.
ghost use Rattle.std.specs.Prelude.{◌≡◌, IfOk, false, option_map};
ghost use Rattle.canary_argo.specs.Grouping.{index_of, after_result, plain_look, closed};
ghost use Rattle.canary_argo.specs.Grouping.{front_value, within, in_brackets, front_look};
ghost use Rattle.canary_argo.specs.Grouping.{amount_of, front_amount, made, with_amount};
ghost use Rattle.canary_argo.specs.Grouping.{after_look, with_look, after_amount, look_first};
ghost use Rattle.canary_argo.specs.Grouping.{front_test, nan_item, inf_item, test_or_open};
ghost use Rattle.canary_argo.specs.Grouping.{defaulted, front_item};
ghost use Rattle.canary_argo.specs.Grouping.{all_tokens, is_not, is_test, are_closed};

use crate::condition::{Amount, ArgoToken, Function, Item, Look, ResultPart, Test};
use crate::fault::{SyntaxFinding, TranslationFault};
use crate::{lexer, naming};
use canary_condition::condition::Comparison;
use canary_decimal::decimal::ShortDecimal;
use std::alloc::Global;

// The place that a number names.
fn index_of(number: ShortDecimal) -> Option<u64>
    ensures { result ≡ index_of number }
{
    if number.places == 0 && number.whole >= 0 {
        Some(number.whole as u64)
    } else {
        None
    }
}

// The place that `result` begins, and what follows it.
pub(crate) fn after_result(tokens: &[ArgoToken]) -> (ResultPart, &[ArgoToken])
    ensures { (result.0, result.1.now) ≡ after_result tokens.now }
{
    if let [
        ArgoToken::OpenItem,
        ArgoToken::Number(number),
        ArgoToken::CloseItem,
        rest @ ..,
    ] = tokens
    {
        if let Some(place) = index_of(*number) {
            return (ResultPart::Item(place), rest);
        }
    }
    (ResultPart::Whole, tokens)
}

// A value without brackets.
fn plain_look(function: Function, place: ResultPart) -> Look
    ensures { result ≡ plain_look function place }
{
    Look {
        place,
        function,
        bracketed: false,
    }
}

// The place in a function, and what follows it.
fn closed(
    function: Function,
    place: ResultPart,
    tokens: &[ArgoToken],
) -> Option<(Look, &[ArgoToken])>
    ensures { option_map (λ r. (r.0, r.1.now)) result ≡ closed function place tokens.now }
{
    match tokens {
        [ArgoToken::Close, rest @ ..] => Some((plain_look(function, place), rest)),
        _ => None,
    }
}

// The whole result in `default(..)`, and what follows it.
fn defaulted(tokens: &[ArgoToken]) -> Option<(Look, &[ArgoToken])>
    ensures { option_map (λ r. (r.0, r.1.now)) result ≡ defaulted tokens.now }
{
    match tokens {
        [
            ArgoToken::Comma,
            ArgoToken::Number(number),
            ArgoToken::Close,
            rest @ ..,
        ] => {
            Some((
                plain_look(Function::Default(*number), ResultPart::Whole),
                rest,
            ))
        }
        _ => None,
    }
}

// The value at the front, and what follows it.
fn front_value(tokens: &[ArgoToken]) -> Option<(Look, &[ArgoToken])>
    ensures { option_map (λ r. (r.0, r.1.now)) result ≡ front_value tokens.now }
{
    match tokens {
        [ArgoToken::ResultWord, rest @ ..] => {
            let (place, rest) = after_result(rest);
            Some((plain_look(Function::Plain, place), rest))
        }
        [
            ArgoToken::AsFloatWord,
            ArgoToken::Open,
            ArgoToken::ResultWord,
            rest @ ..,
        ] => {
            let (place, rest) = after_result(rest);
            closed(Function::AsFloat, place, rest)
        }
        [
            ArgoToken::AsIntWord,
            ArgoToken::Open,
            ArgoToken::ResultWord,
            rest @ ..,
        ] => {
            let (place, rest) = after_result(rest);
            closed(Function::AsInt, place, rest)
        }
        [
            ArgoToken::DefaultWord,
            ArgoToken::Open,
            ArgoToken::ResultWord,
            rest @ ..,
        ] => defaulted(rest),
        [
            ArgoToken::LenWord,
            ArgoToken::Open,
            ArgoToken::ResultWord,
            ArgoToken::Close,
            rest @ ..,
        ] => { Some((plain_look(Function::Plain, ResultPart::Length), rest)) }
        _ => None,
    }
}

// A value that brackets stand round, and what follows them.
fn within(look: Look, tokens: &[ArgoToken]) -> Option<(Look, &[ArgoToken])>
    ensures { option_map (λ r. (r.0, r.1.now)) result ≡ within look tokens.now }
{
    match tokens {
        [ArgoToken::Close, rest @ ..] => {
            let look = Look {
                place: look.place,
                function: look.function,
                bracketed: true,
            };
            Some((look, rest))
        }
        _ => None,
    }
}

// The same from its first token on.
fn in_brackets(tokens: &[ArgoToken]) -> Option<(Look, &[ArgoToken])>
    ensures { option_map (λ r. (r.0, r.1.now)) result ≡ in_brackets (front_value tokens.now) }
{
    let (look, rest) = front_value(tokens)?;
    within(look, rest)
}

// The value at the front, in brackets or not, and what follows it.
fn front_look(tokens: &[ArgoToken]) -> Option<(Look, &[ArgoToken])>
    ensures { option_map (λ r. (r.0, r.1.now)) result ≡ front_look tokens.now }
{
    match tokens {
        [ArgoToken::Open, rest @ ..] => in_brackets(rest),
        _ => front_value(tokens),
    }
}

// The number as a comparison has it, with the mark whether brackets are round it.
fn amount_of(bracketed: bool, number: ShortDecimal) -> Amount
    ensures { result ≡ amount_of bracketed number }
{
    Amount { number, bracketed }
}

// The number at the front, in brackets or not, and what follows it.
fn front_amount(tokens: &[ArgoToken]) -> Option<(Amount, &[ArgoToken])>
    ensures { option_map (λ r. (r.0, r.1.now)) result ≡ front_amount tokens.now }
{
    match tokens {
        [ArgoToken::Number(number), rest @ ..] => Some((amount_of(false, *number), rest)),
        [
            ArgoToken::Open,
            ArgoToken::Number(number),
            ArgoToken::Close,
            rest @ ..,
        ] => { Some((amount_of(true, *number), rest)) }
        _ => None,
    }
}

// The comparison of these parts; `turned` says that the number comes first.
fn made(turned: bool, look: Look, comparison: Comparison, amount: Amount) -> Test
    ensures { result ≡ made turned look comparison amount }
{
    Test {
        look,
        comparison,
        amount,
        turned,
    }
}

// The comparison of a value with the number that follows its sign, and what follows that.
fn with_amount(
    look: Look,
    comparison: Comparison,
    tokens: &[ArgoToken],
) -> Option<(Test, &[ArgoToken])>
    ensures { option_map (λ r. (r.0, r.1.now)) result
        ≡ with_amount look comparison (front_amount tokens.now) }
{
    let (amount, rest) = front_amount(tokens)?;
    Some((made(false, look, comparison, amount), rest))
}

// The same from the sign on.
fn after_look(look: Look, tokens: &[ArgoToken]) -> Option<(Test, &[ArgoToken])>
    ensures { option_map (λ r. (r.0, r.1.now)) result ≡ after_look look tokens.now }
{
    match tokens {
        [ArgoToken::Compares(comparison), rest @ ..] => with_amount(look, *comparison, rest),
        _ => None,
    }
}

// The comparison of a number with the value that follows its sign, and what follows that.
fn with_look(
    amount: Amount,
    comparison: Comparison,
    tokens: &[ArgoToken],
) -> Option<(Test, &[ArgoToken])>
    ensures { option_map (λ r. (r.0, r.1.now)) result
        ≡ with_look amount comparison (front_look tokens.now) }
{
    let (look, rest) = front_look(tokens)?;
    Some((made(true, look, comparison, amount), rest))
}

// The same from the sign on.
fn after_amount(amount: Amount, tokens: &[ArgoToken]) -> Option<(Test, &[ArgoToken])>
    ensures { option_map (λ r. (r.0, r.1.now)) result ≡ after_amount amount tokens.now }
{
    match tokens {
        [ArgoToken::Compares(comparison), rest @ ..] => with_look(amount, *comparison, rest),
        _ => None,
    }
}

// The comparison with its value first.
fn look_first(tokens: &[ArgoToken]) -> Option<(Test, &[ArgoToken])>
    ensures { option_map (λ r. (r.0, r.1.now)) result ≡ look_first (front_look tokens.now) }
{
    let (look, rest) = front_look(tokens)?;
    after_look(look, rest)
}

// The comparison at the front, and what follows it.
fn front_test(tokens: &[ArgoToken]) -> Option<(Test, &[ArgoToken])>
    ensures { option_map (λ r. (r.0, r.1.now)) result ≡ front_test tokens.now }
{
    match front_amount(tokens) {
        Some((amount, rest)) => after_amount(amount, rest),
        None => look_first(tokens),
    }
}

// `isInf` of a place, and what follows it.
fn inf_item(place: ResultPart, tokens: &[ArgoToken]) -> Option<(Item, &[ArgoToken])>
    ensures { option_map (λ r. (r.0, r.1.now)) result ≡ inf_item place tokens.now }
{
    match tokens {
        [ArgoToken::Close, rest @ ..] => Some((Item::Inf(place), rest)),
        _ => None,
    }
}

// A comparison that begins with a bracket, or the bracket alone, and what follows it.
fn test_or_open<'a>(
    tokens: &'a [ArgoToken],
    behind: &'a [ArgoToken],
) -> Option<(Item, &'a [ArgoToken])>
    ensures { option_map (λ r. (r.0, r.1.now)) result
        ≡ test_or_open (front_test tokens.now) behind.now }
{
    match front_test(tokens) {
        Some((test, rest)) => Some((Item::Compare(test), rest)),
        None => Some((Item::Open, behind)),
    }
}

// `isNaN` of a place, and what follows it.
fn nan_item(place: ResultPart, tokens: &[ArgoToken]) -> Option<(Item, &[ArgoToken])>
    ensures { option_map (λ r. (r.0, r.1.now)) result ≡ nan_item place tokens.now }
{
    match tokens {
        [ArgoToken::Close, rest @ ..] => Some((Item::NaN(place), rest)),
        _ => None,
    }
}

// The group at the front, and what follows it.
fn front_item(tokens: &[ArgoToken]) -> Option<(Item, &[ArgoToken])>
    ensures { option_map (λ r. (r.0, r.1.now)) result ≡ front_item tokens.now }
{
    match tokens {
        [ArgoToken::OrSign, rest @ ..] => Some((Item::Or, rest)),
        [ArgoToken::AndSign, rest @ ..] => Some((Item::And, rest)),
        [ArgoToken::NotSign, rest @ ..] => Some((Item::Not, rest)),
        [ArgoToken::Open, rest @ ..] => test_or_open(tokens, rest),
        [ArgoToken::Close, rest @ ..] => Some((Item::Close, rest)),
        [
            ArgoToken::NaNWord,
            ArgoToken::Open,
            ArgoToken::ResultWord,
            rest @ ..,
        ] => {
            let (place, rest) = after_result(rest);
            nan_item(place, rest)
        }
        [
            ArgoToken::InfWord,
            ArgoToken::Open,
            ArgoToken::ResultWord,
            rest @ ..,
        ] => {
            let (place, rest) = after_result(rest);
            inf_item(place, rest)
        }
        _ => {
            let (test, rest) = front_test(tokens)?;
            Some((Item::Compare(test), rest))
        }
    }
}

// The groups of tokens. The place of a fault is that of a token.
fn items_of(alloc: Global, tokens: &[ArgoToken]) -> Result<Vec<Item>, TranslationFault>
    ensures { IfOk result (λ items. tokens.now ≡ all_tokens items.items) }
{
    let mut items = Vec::new(alloc);
    let mut rest = tokens;
    while !rest.is_empty() {
        let Some((item, behind)) = front_item(rest) else {
            let at = tokens.len().saturating_sub(rest.len());
            return Err(TranslationFault::refused(naming::of_tokens(rest, at), at));
        };
        items.push(item)?;
        rest = behind;
    }
    Ok(items)
}

// The groups of a text's tokens.
pub(crate) fn items_of_text(
    alloc: Global,
    text: &[u8],
    tokens: &[ArgoToken],
) -> Result<Vec<Item>, TranslationFault>
    ensures { IfOk result (λ items. tokens.now ≡ all_tokens items.items) }
{
    match items_of(alloc, tokens) {
        Ok(items) => Ok(items),
        Err(fault) => Err(at_token(alloc, text, fault)),
    }
}

// The fault at the byte of its token, or `Memory`.
fn at_token(alloc: Global, text: &[u8], fault: TranslationFault) -> TranslationFault {
    match fault {
        TranslationFault::Memory => TranslationFault::Memory,
        TranslationFault::Refused(SyntaxFinding { why, at }) => {
            lexer::fault_at_token(alloc, text, why, at)
        }
    }
}

// Whether the group is `Item::Not`, written as a word or as a sign.
fn is_not(item: Item) -> bool
    ensures { result ≡ is_not item }
{
    matches!(item, Item::Not)
}

// Whether the group is a comparison with a number; `Item::NaN` and `Item::Inf` are not.
fn is_test(item: Item) -> bool
    ensures { result ≡ is_test item }
{
    matches!(item, Item::Compare(_))
}

// Whether no comparison follows a `not` directly.
pub(crate) fn are_closed(items: &[Item]) -> bool
    ensures { result ≡ are_closed false items.now }
{
    let mut after_not = false;
    for item in items {
        if after_not && is_test(*item) {
            return false;
        }
        after_not = is_not(*item);
    }
    true
}
