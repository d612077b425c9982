//! From token to token without the tree: which token may stand at a place of a condition.
ghost use Rattle.std.specs.Prelude.{◌≡◌};
ghost use Rattle.canary_condition.specs.Following.{after_operand, begun, compared, operand_begun};
ghost use Rattle.canary_condition.specs.Following.{joined, ended, after_result, after_item};
ghost use Rattle.canary_condition.specs.Following.{after_index, next, expected};
ghost use Rattle.canary_condition.specs.Fronts.{may_end};

use crate::explanation::Expected;
use crate::token::Token;

// A side of a comparison.
#[derive(Clone, Copy)]
pub(crate) enum Side {
    Left,
    Right,
}

// What stands before a place of a condition.
#[derive(Clone, Copy)]
pub(crate) enum TokenPlace {
    // Nothing, `and`, `or`, `not` or `(`.
    Term,
    // `result`, which may be an operand or the beginning of one.
    Result(Side),
    // `result[`.
    Item(Side),
    // `result[` and digits.
    Index(Side),
    // An operand on the left of a comparison.
    Comparison,
    // A comparison sign.
    Operand,
    // A comparison or a bracket.
    End,
}

// The place after an operand.
fn after_operand(side: Side) -> TokenPlace
    ensures { result ≡ after_operand side }
{
    match side {
        Side::Left => TokenPlace::Comparison,
        Side::Right => TokenPlace::End,
    }
}

// The place after a token where a comparison, a bracket or a `not` begins.
fn begun(token: Token) -> Option<TokenPlace>
    ensures { result ≡ begun token }
{
    match token {
        Token::NotSign => Some(TokenPlace::Term),
        Token::Open => Some(TokenPlace::Term),
        Token::ResultWord => Some(TokenPlace::Result(Side::Left)),
        Token::Digits(_) => Some(TokenPlace::Comparison),
        Token::Minus(_) => Some(TokenPlace::Comparison),
        _ => None,
    }
}

// The place after a token that follows an operand on the left.
fn compared(token: Token) -> Option<TokenPlace>
    ensures { result ≡ compared token }
{
    match token {
        Token::Compares(_) => Some(TokenPlace::Operand),
        _ => None,
    }
}

// The place after a token that follows a comparison sign.
fn operand_begun(token: Token) -> Option<TokenPlace>
    ensures { result ≡ operand_begun token }
{
    match token {
        Token::ResultWord => Some(TokenPlace::Result(Side::Right)),
        Token::Digits(_) => Some(TokenPlace::End),
        Token::Minus(_) => Some(TokenPlace::End),
        _ => None,
    }
}

// The place after a token that follows a comparison or a bracket, with so many brackets open.
fn joined(opened: usize, token: Token) -> Option<TokenPlace>
    ensures { result ≡ joined opened token }
{
    match token {
        Token::AndSign => Some(TokenPlace::Term),
        Token::OrSign => Some(TokenPlace::Term),
        Token::Close if opened > 0 => Some(TokenPlace::End),
        _ => None,
    }
}

// The place after a token that follows a whole operand.
fn ended(side: Side, opened: usize, token: Token) -> Option<TokenPlace>
    ensures { result ≡ ended side opened token }
{
    match side {
        Side::Left => compared(token),
        Side::Right => joined(opened, token),
    }
}

// The place after a token at `TokenPlace::Result`: `OpenItem`, or what follows an operand.
fn after_result(side: Side, opened: usize, token: Token) -> Option<TokenPlace>
    ensures { result ≡ after_result side opened token }
{
    match token {
        Token::OpenItem => Some(TokenPlace::Item(side)),
        _ => ended(side, opened, token),
    }
}

// The place after a token at `TokenPlace::Item`, which must be digits.
fn after_item(side: Side, token: Token) -> Option<TokenPlace>
    ensures { result ≡ after_item side token }
{
    match token {
        Token::Digits(place) if place >= 0 => Some(TokenPlace::Index(side)),
        _ => None,
    }
}

// The place after a token at `TokenPlace::Index`, which must be the bracket that closes it.
fn after_index(side: Side, token: Token) -> Option<TokenPlace>
    ensures { result ≡ after_index side token }
{
    match token {
        Token::CloseItem => Some(after_operand(side)),
        _ => None,
    }
}

// The place after a token, with so many brackets open before it; none if it may not stand.
pub(crate) fn next(place: TokenPlace, opened: usize, token: Token) -> Option<TokenPlace>
    ensures { result ≡ next place opened token }
{
    match place {
        TokenPlace::Term => begun(token),
        TokenPlace::Result(side) => after_result(side, opened, token),
        TokenPlace::Item(side) => after_item(side, token),
        TokenPlace::Index(side) => after_index(side, token),
        TokenPlace::Comparison => compared(token),
        TokenPlace::Operand => operand_begun(token),
        TokenPlace::End => joined(opened, token),
    }
}

// What may stand at a place, with so many brackets open.
pub(crate) fn expected(place: TokenPlace, opened: usize) -> Expected
    ensures { result ≡ expected place opened }
{
    match place {
        TokenPlace::Term => Expected::Term,
        TokenPlace::Result(Side::Left) => Expected::ItemOrComparison,
        TokenPlace::Result(Side::Right) if opened == 0 => Expected::ItemSignOrEnd,
        TokenPlace::Result(Side::Right) => Expected::ItemSignOrClose,
        TokenPlace::Item(_) => Expected::Index,
        TokenPlace::Index(_) => Expected::CloseItem,
        TokenPlace::Comparison => Expected::Comparison,
        TokenPlace::Operand => Expected::Operand,
        TokenPlace::End if opened == 0 => Expected::SignOrEnd,
        TokenPlace::End => Expected::SignOrClose,
    }
}

// Whether a condition may end there.
pub(crate) fn may_end(expected: Expected) -> bool
    ensures { result ≡ may_end expected }
{
    matches!(expected, Expected::SignOrEnd | Expected::ItemSignOrEnd)
}
