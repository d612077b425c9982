//! What stands where a condition of Argo Rollouts is not translated. No clause says which refusal
//! it is; the tests do.
use crate::condition::{ArgoToken, Function, Item, ResultPart};
use crate::fault::UnsupportedSyntax;
use crate::items::after_result;

// Whether the word is exactly that one, in the same case.
fn is_same(word: &[u8], other: &str) -> bool {
    word == other.as_bytes()
}

// What a word is, with the byte that follows it.
fn of_word(word: &[u8], next: Option<u8>) -> UnsupportedSyntax {
    if word.contains(&b'.') {
        UnsupportedSyntax::Member
    } else if is_same(word, "in") {
        UnsupportedSyntax::In
    } else if is_matching(word) {
        UnsupportedSyntax::Matching
    } else if is_same(word, "true") || is_same(word, "false") {
        UnsupportedSyntax::Truth
    } else if is_same(word, "nil") || is_same(word, "null") || is_same(word, "isNil") {
        UnsupportedSyntax::Nil
    } else if next == Some(b'(') {
        UnsupportedSyntax::Function
    } else {
        UnsupportedSyntax::Name
    }
}

// Whether the word compares texts.
fn is_matching(word: &[u8]) -> bool {
    is_same(word, "matches")
        || is_same(word, "contains")
        || is_same(word, "startsWith")
        || is_same(word, "endsWith")
}

// What a sign is.
fn of_sign(sign: u8) -> UnsupportedSyntax {
    match sign {
        b'+' | b'-' | b'*' | b'/' | b'%' | b'^' => UnsupportedSyntax::Arithmetic,
        b'"' | b'\'' | b'`' => UnsupportedSyntax::Text,
        b'|' => UnsupportedSyntax::Pipe,
        b'?' | b':' => UnsupportedSyntax::Choice,
        b'{' => UnsupportedSyntax::Argument,
        _ => UnsupportedSyntax::Byte,
    }
}

// What stands at the front of a text, of which this word and what follows it are a part.
pub(crate) fn of_text(text: &[u8], word: &[u8], rest: &[u8]) -> UnsupportedSyntax {
    match text {
        [b'.' | b'-', b'0'..=b'9', ..] => UnsupportedSyntax::Number,
        [b'0'..=b'9', ..] => UnsupportedSyntax::Number,
        [sign, ..] if word.is_empty() => of_sign(*sign),
        _ => of_word(word, rest.first().copied()),
    }
}

// Whether a token begins a value.
fn begins_value(token: ArgoToken) -> bool {
    matches!(
        token,
        ArgoToken::ResultWord
            | ArgoToken::AsFloatWord
            | ArgoToken::AsIntWord
            | ArgoToken::DefaultWord
            | ArgoToken::LenWord
    )
}

// What follows the first comparison sign of some tokens, unless `&&`, `||` or `!` comes first.
fn behind_sign(tokens: &[ArgoToken]) -> Option<&[ArgoToken]> {
    for (at, token) in tokens.iter().enumerate() {
        match *token {
            ArgoToken::Compares(_) => return tokens.get(at.saturating_add(1)..),
            ArgoToken::OrSign | ArgoToken::AndSign | ArgoToken::NotSign => return None,
            _ => {}
        }
    }
    None
}

// Whether a place of a list follows `result`.
fn has_place(tokens: &[ArgoToken]) -> bool {
    matches!(after_result(tokens).0, ResultPart::Item(_))
}

// Whether `default` stands round a place of a list, before `&&`, `||` or `!`.
fn has_default_of_place(tokens: &[ArgoToken]) -> bool {
    for (at, token) in tokens.iter().enumerate() {
        match *token {
            ArgoToken::DefaultWord => return is_default_of_place(tokens.get(at..)),
            ArgoToken::OrSign | ArgoToken::AndSign | ArgoToken::NotSign => return false,
            _ => {}
        }
    }
    false
}

// Whether the first token, a `DefaultWord`, has a place of a list as its first argument.
fn is_default_of_place(tokens: Option<&[ArgoToken]>) -> bool {
    match tokens {
        Some([_, ArgoToken::Open, ArgoToken::ResultWord, rest @ ..]) => has_place(rest),
        _ => false,
    }
}

// What stands at the front of tokens where a group must begin, after so many others.
pub(crate) fn of_tokens(tokens: &[ArgoToken], others: usize) -> UnsupportedSyntax {
    if has_default_of_place(tokens) {
        return UnsupportedSyntax::DefaultPlace;
    }
    match tokens {
        [ArgoToken::Compares(_), ..] if others > 0 => UnsupportedSyntax::Chain,
        [
            ArgoToken::Number(_),
            ArgoToken::Compares(_),
            ArgoToken::Number(_),
            ..
        ] => UnsupportedSyntax::TwoNumbers,
        [ArgoToken::ResultWord, ArgoToken::OpenItem, ..] if !has_place(&tokens[1..]) =>
            UnsupportedSyntax::Place,
        [first, ..] if begins_value(*first) => of_value(behind_sign(tokens)),
        _ => UnsupportedSyntax::Comparison,
    }
}

// What follows a value and a comparison sign.
fn of_value(behind: Option<&[ArgoToken]>) -> UnsupportedSyntax {
    match behind {
        None => UnsupportedSyntax::Truth,
        Some([first, ..]) if begins_value(*first) => UnsupportedSyntax::TwoResults,
        Some([ArgoToken::Open, first, ..]) if begins_value(*first) => UnsupportedSyntax::TwoResults,
        Some(_) => UnsupportedSyntax::Comparison,
    }
}

// The number of the brackets round an operand.
fn brackets_in(bracketed: bool) -> usize {
    if bracketed { 2 } else { 0 }
}

// The number of the tokens of a group.
fn tokens_in(item: Item) -> usize {
    match item {
        Item::Compare(test) => {
            let place = match test.look.place {
                ResultPart::Whole => 3,
                ResultPart::Item(_) | ResultPart::Length => 6,
            };
            let function: usize = match test.look.function {
                Function::Plain => 0,
                Function::AsFloat | Function::AsInt => 3,
                Function::Default(_) => 5,
            };
            function
                .saturating_add(place)
                .saturating_add(brackets_in(test.look.bracketed))
                .saturating_add(brackets_in(test.amount.bracketed))
        }
        Item::NaN(ResultPart::Whole) | Item::Inf(ResultPart::Whole) => 4,
        Item::NaN(_) | Item::Inf(_) => 7,
        _ => 1,
    }
}

// The number of the tokens of some groups.
pub(crate) fn tokens_before(items: &[Item], at: usize) -> usize {
    let mut count: usize = 0;
    for item in items.iter().take(at) {
        count = count.saturating_add(tokens_in(*item));
    }
    count
}

// The place of the first `not` before a comparison.
pub(crate) fn place_of_not(items: &[Item]) -> usize {
    let mut after_not = false;
    for (at, item) in items.iter().enumerate() {
        if after_not && matches!(*item, Item::Compare(_)) {
            return at.saturating_sub(1);
        }
        after_not = matches!(*item, Item::Not);
    }
    items.len()
}

// Whether something must begin after an item, with the brackets that are open then; none if it may
// not stand there.
fn after_item(item: Item, wanted: bool, opened: usize) -> Option<(bool, usize)> {
    match item {
        Item::Not if wanted => Some((true, opened)),
        Item::Open if wanted => Some((true, opened.saturating_add(1))),
        Item::Compare(_) | Item::NaN(_) | Item::Inf(_) if wanted => Some((false, opened)),
        Item::Or | Item::And if !wanted => Some((true, opened)),
        Item::Close if !wanted && opened > 0 => Some((false, opened - 1)),
        _ => None,
    }
}

// The place of the first group that may not stand where it does, or the end.
pub(crate) fn place_of_misfit(items: &[Item]) -> usize {
    let (mut wanted, mut opened) = (true, 0);
    for (at, item) in items.iter().enumerate() {
        let Some(after) = after_item(*item, wanted, opened) else {
            return at;
        };
        (wanted, opened) = after;
    }
    items.len()
}
