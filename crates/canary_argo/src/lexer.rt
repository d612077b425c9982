//! From a text to its tokens.
ghost use Rattle.std.specs.Prelude.{◌≡◌, ◌≤◌, ◌<◌, ◌++◌, IfOk, OnOk, IfSome, length, option_map};
ghost use Rattle.std.specs.Prelude.{position};
ghost use Rattle.std.specs.List.{position_or_len};
ghost use Rattle.std.specs.Str.{bytes_eq};
ghost use Rattle.canary_argo.specs.Tokens.{is_blank, unblanked};
ghost use Rattle.canary_argo.specs.Tokens.{is_word_byte, ends_word, front_word};
ghost use Rattle.canary_argo.specs.Tokens.{after_word, goes_on, number_len, front_number};
ghost use Rattle.canary_argo.specs.Tokens.{after_number, signed_number, after_signed};
ghost use Rattle.canary_argo.specs.Tokens.{is_held, held, kept, begun, has_digit, has_point};
ghost use Rattle.canary_argo.specs.Tokens.{written, decimal_of, hex_digit, with_hex, hex_of};
ghost use Rattle.canary_argo.specs.Tokens.{whole_number, unsigned_number};
ghost use Rattle.canary_argo.specs.Tokens.{number_of, number_token};
ghost use Rattle.canary_argo.specs.Tokens.{keyword_token, long_symbol, short_symbol, front_symbol};
ghost use Rattle.canary_argo.specs.Tokens.{before, front_token, IsFront};
ghost use Rattle.canary_argo.specs.Tokens.{IsMadeOf};

use crate::condition::ArgoToken;
use crate::fault::{TranslationFault, UnsupportedSyntax};
use crate::naming;
use canary_base::error::Memory;
use canary_condition::condition::Comparison;
use canary_decimal::decimal::ShortDecimal;
use canary_decimal::reading::decimal;
use std::alloc::Global;

// The least number of more than 15 digits.
pub(crate) const MIN_TOO_LONG: u64 = 1_000_000_000_000_000;

// The most digits after the point of a number.
const MAX_PLACES: usize = 17;

// Whether it is a space, a tab, LF or CR, which may separate tokens.
fn is_blank(byte: u8) -> bool
    ensures { result ≡ is_blank byte }
{
    byte == b' ' || byte == b'\t' || byte == b'\n' || byte == b'\r'
}

// The text from its first byte on that is no blank.
fn unblanked(text: &[u8]) -> &[u8]
    ensures { result.now ≡ unblanked text.now }
{
    let mut rest = text;
    while let [first, behind @ ..] = rest {
        if !is_blank(*first) {
            return rest;
        }
        rest = behind;
    }
    rest
}

// Whether it is an ASCII letter, an ASCII digit, an underscore or a point.
fn is_word_byte(byte: u8) -> bool
    ensures { result ≡ is_word_byte byte }
{
    byte.is_ascii_alphanumeric() || byte == b'_' || byte == b'.'
}

// The place of the first byte that ends a word.
fn end_of_word(text: &[u8]) -> Option<usize>
    ensures { result ≡ position ends_word text.now }
{
    text.iter().position(|byte| !is_word_byte(*byte))
}

// The length of the word that a text begins with.
fn word_len(text: &[u8]) -> usize
    ensures place { result ≡ position_or_len ends_word text.now }
    ensures within { result ≤ length text.now }
{
    end_of_word(text).unwrap_or(text.len())
}

// The word that a text begins with, and what follows it.
fn split_word(text: &[u8]) -> (&[u8], &[u8])
    ensures word { result.0.now ≡ front_word text.now }
    ensures after { result.1.now ≡ after_word text.now }
{
    text.split_at(word_len(text))
}

// Whether a number goes on with a byte after another one.
fn goes_on(previous: u8, byte: u8) -> bool
    ensures { result ≡ goes_on previous byte }
{
    is_word_byte(byte) || ((previous == b'e' || previous == b'E') && (byte == b'+' || byte == b'-'))
}

// The length of the number that a text begins with.
fn number_len(text: &[u8]) -> usize
    ensures place { result ≡ number_len 0 text.now }
    ensures within { result ≤ length text.now }
{
    let mut previous = 0;
    let mut count = 0;
    for byte in text {
        if !goes_on(previous, *byte) {
            return count;
        }
        previous = *byte;
        count += 1;
    }
    count
}

// The number that a text begins with, and what follows it.
fn split_number(text: &[u8]) -> (&[u8], &[u8])
    ensures word { result.0.now ≡ front_number text.now }
    ensures after { result.1.now ≡ after_number text.now }
{
    text.split_at(number_len(text))
}

// The same of a text that begins with a sign.
fn split_signed(text: &[u8]) -> (&[u8], &[u8])
    ensures word { result.0.now ≡ signed_number text.now }
    ensures after { result.1.now ≡ after_signed text.now }
{
    match text {
        [] => (text, text),
        [_, rest @ ..] => text.split_at(1 + number_len(rest)),
    }
}

// Whether a number has few enough digits.
pub(crate) fn is_held(number: ShortDecimal) -> bool
    ensures { result ≡ is_held number }
{
    number.whole.unsigned_abs() < MIN_TOO_LONG && number.places <= MAX_PLACES
}

// The number, if it has few enough digits to be translated.
fn held(number: Option<ShortDecimal>) -> Option<ShortDecimal>
    ensures { result ≡ held number }
{
    match number {
        Some(number) if is_held(number) => Some(number),
        _ => None,
    }
}

// Whether a digit stands first.
fn has_digit(word: &[u8]) -> bool
    ensures { result ≡ has_digit word.now }
{
    match word {
        [] => false,
        [first, ..] => first.is_ascii_digit(),
    }
}

// Whether a point stands first, and a digit after it.
fn has_point(word: &[u8]) -> bool
    ensures { result ≡ has_point word.now }
{
    match word {
        [] => false,
        [first, rest @ ..] => *first == b'.' && has_digit(rest),
    }
}

// The sign, and a `0` before a point that stands first.
fn begun(minus: bool, point: bool) -> &'static str
    ensures { result.now ≡ begun minus point }
{
    match (minus, point) {
        (true, true) => "-0",
        (true, false) => "-",
        (false, true) => "0",
        (false, false) => "",
    }
}

// Appends a byte of a decimal, without `_`.
fn push_kept(out: &mut Vec<u8>, byte: u8) -> Result<(), Memory>
    ensures { OnOk result (out.new.items ≡ out.old.items ++ kept byte) }
{
    if byte != b'_' {
        out.push(byte)?;
    }
    Ok(())
}

// A decimal as canary_decimal reads it.
fn written(alloc: Global, minus: bool, word: &[u8]) -> Result<Vec<u8>, Memory>
    ensures { IfOk result (λ text. text.items ≡ written minus word.now) }
{
    let mut text = Vec::new(alloc);
    text.extend_from_slice(begun(minus, has_point(word)).as_bytes())?;
    for byte in word {
        push_kept(&mut text, *byte)?;
    }
    Ok(text)
}

// The decimal that a word without a sign spells.
fn decimal_of(alloc: Global, minus: bool, word: &[u8]) -> Result<Option<ShortDecimal>, Memory>
    ensures { IfOk result (λ found. found ≡ decimal_of minus word.now) }
{
    if !has_digit(word) && !has_point(word) {
        return Ok(None);
    }
    let text = written(alloc, minus, word)?;
    match decimal(alloc, text.as_slice())? {
        Some(number) => Ok(held(number.short())),
        None => Ok(None),
    }
}

// The value of a hexadecimal digit, in upper or lower case; none for another byte.
fn hex_digit(byte: u8) -> Option<u64>
    ensures value { result ≡ hex_digit byte }
    ensures small { IfSome result (λ digit. digit < 16) }
{
    if b'0' <= byte && byte <= b'9' {
        Some(u64::from(byte - b'0'))
    } else if b'a' <= byte && byte <= b'f' {
        Some(u64::from(byte - b'a') + 10)
    } else if b'A' <= byte && byte <= b'F' {
        Some(u64::from(byte - b'A') + 10)
    } else {
        None
    }
}

// A number with one more hexadecimal digit, if it has few enough digits.
fn with_hex(number: Option<u64>, byte: u8) -> Option<u64>
    ensures { result ≡ with_hex number byte }
{
    let number = number?;
    if byte == b'_' {
        return Some(number);
    }
    let digit = hex_digit(byte)?;
    if number < MIN_TOO_LONG {
        Some(number * 16 + digit)
    } else {
        None
    }
}

// The number of hexadecimal digits.
fn hex_of(word: &[u8]) -> Option<u64>
    ensures { result ≡ hex_of word.now }
{
    let [first, digits @ ..] = word else {
        return None;
    };
    let mut number = hex_digit(*first);
    for byte in digits {
        number = with_hex(number, *byte);
    }
    number
}

// A whole number, if it has few enough digits.
fn whole_number(minus: bool, number: Option<u64>) -> Option<ShortDecimal>
    ensures { result ≡ whole_number minus number }
{
    let number = number?;
    if number >= MIN_TOO_LONG {
        return None;
    }
    let whole = number as i64;
    Some(ShortDecimal {
        whole: if minus { -whole } else { whole },
        places: 0,
    })
}

// The number that a word without a sign spells.
fn unsigned_number(alloc: Global, minus: bool, word: &[u8]) -> Result<Option<ShortDecimal>, Memory>
    ensures { IfOk result (λ found. found ≡ unsigned_number minus word.now) }
{
    match word {
        [zero, mark, digits @ ..] if *zero == b'0' && (*mark == b'x' || *mark == b'X') => {
            Ok(whole_number(minus, hex_of(digits)))
        }
        _ => decimal_of(alloc, minus, word),
    }
}

// The number that a word spells.
fn number_of(alloc: Global, word: &[u8]) -> Result<Option<ShortDecimal>, Memory>
    ensures { IfOk result (λ found. found ≡ number_of word.now) }
{
    match word {
        [b'-', rest @ ..] => unsigned_number(alloc, true, rest),
        _ => unsigned_number(alloc, false, word),
    }
}

// The token of a number.
fn token_of(number: Option<ShortDecimal>) -> Option<ArgoToken>
    ensures { result ≡ option_map (λ d. ArgoToken.Number d) number }
{
    Some(ArgoToken::Number(number?))
}

// Whether the word is exactly that keyword, in the same case.
fn is_same(word: &[u8], keyword: &str) -> bool
    ensures { result ≡ bytes_eq word.now keyword.now }
{
    word == keyword.as_bytes()
}

// The token of a word that is no number.
fn keyword_token(word: &[u8]) -> Option<ArgoToken>
    ensures { result ≡ keyword_token word.now }
{
    if is_same(word, "result") {
        Some(ArgoToken::ResultWord)
    } else if is_same(word, "and") {
        Some(ArgoToken::AndSign)
    } else if is_same(word, "or") {
        Some(ArgoToken::OrSign)
    } else if is_same(word, "not") {
        Some(ArgoToken::NotSign)
    } else if is_same(word, "asFloat") {
        Some(ArgoToken::AsFloatWord)
    } else if is_same(word, "asInt") {
        Some(ArgoToken::AsIntWord)
    } else if is_same(word, "len") {
        Some(ArgoToken::LenWord)
    } else if is_same(word, "isNaN") {
        Some(ArgoToken::NaNWord)
    } else if is_same(word, "isInf") {
        Some(ArgoToken::InfWord)
    } else if is_same(word, "default") {
        Some(ArgoToken::DefaultWord)
    } else {
        None
    }
}

// The symbol that two bytes spell together, if they spell one.
fn long_symbol(first: u8, second: u8) -> Option<ArgoToken>
    ensures { result ≡ long_symbol first second }
{
    match (first, second) {
        (b'=', b'=') => Some(ArgoToken::Compares(Comparison::Equal)),
        (b'!', b'=') => Some(ArgoToken::Compares(Comparison::NotEqual)),
        (b'<', b'=') => Some(ArgoToken::Compares(Comparison::AtMost)),
        (b'>', b'=') => Some(ArgoToken::Compares(Comparison::AtLeast)),
        (b'&', b'&') => Some(ArgoToken::AndSign),
        (b'|', b'|') => Some(ArgoToken::OrSign),
        _ => None,
    }
}

// The symbol that one byte spells alone, if it spells one.
fn short_symbol(byte: u8) -> Option<ArgoToken>
    ensures { result ≡ short_symbol byte }
{
    match byte {
        b'<' => Some(ArgoToken::Compares(Comparison::Less)),
        b'>' => Some(ArgoToken::Compares(Comparison::Greater)),
        b'!' => Some(ArgoToken::NotSign),
        b'(' => Some(ArgoToken::Open),
        b')' => Some(ArgoToken::Close),
        b'[' => Some(ArgoToken::OpenItem),
        b']' => Some(ArgoToken::CloseItem),
        b',' => Some(ArgoToken::Comma),
        _ => None,
    }
}

// The symbol at the front, the longest first, and what follows it.
fn front_symbol(text: &[u8]) -> Option<(ArgoToken, &[u8])>
    ensures { option_map (λ r. (r.0, r.1.now)) result ≡ front_symbol text.now }
{
    if let [first, second, rest @ ..] = text {
        if let Some(token) = long_symbol(*first, *second) {
            return Some((token, rest));
        }
    }
    let [first, rest @ ..] = text else {
        return None;
    };
    Some((short_symbol(*first)?, rest))
}

// A token, and what follows it.
fn before(rest: &[u8], token: Option<ArgoToken>) -> Option<(ArgoToken, &[u8])>
    ensures { option_map (λ r. (r.0, r.1.now)) result ≡ before rest.now token }
{
    Some((token?, rest))
}

// The token of a number at the front, and what follows it.
fn front_number<'a>(
    alloc: Global,
    text: &[u8],
    rest: &'a [u8],
) -> Result<Option<(ArgoToken, &'a [u8])>, Memory>
    ensures { IfOk result (λ found. option_map (λ r. (r.0, r.1.now)) found
        ≡ before rest.now (number_token text.now)) }
{
    let number = number_of(alloc, text)?;
    Ok(before(rest, token_of(number)))
}

// The token at the front of a text that begins with no blank, and what follows it.
fn front_token(alloc: Global, text: &[u8]) -> Result<Option<(ArgoToken, &[u8])>, Memory>
    ensures { IfOk result (λ found. option_map (λ r. (r.0, r.1.now)) found
        ≡ front_token text.now) }
{
    let [first, ..] = text else {
        return Ok(None);
    };
    if first.is_ascii_digit() || *first == b'.' {
        let (word, rest) = split_number(text);
        return front_number(alloc, word, rest);
    }
    if *first == b'-' {
        let (word, rest) = split_signed(text);
        return front_number(alloc, word, rest);
    }
    if is_word_byte(*first) {
        let (word, rest) = split_word(text);
        return Ok(before(rest, keyword_token(word)));
    }
    Ok(front_symbol(text))
}

// The token at the front of what is left of a text, and what follows it; otherwise what stands
// there.
fn next_token<'a>(
    alloc: Global,
    text: &[u8],
    rest: &'a [u8],
) -> Result<(ArgoToken, &'a [u8]), TranslationFault>
    ensures { IfOk result (λ found. IsFront rest.now found.0 found.1.now) }
{
    match front_token(alloc, rest)? {
        Some(found) => Ok(found),
        None => Err(fault_at(text, rest)),
    }
}

// What stands at the front of what is left of a text, and is no token.
fn fault_at(text: &[u8], rest: &[u8]) -> TranslationFault {
    let (word, behind) = split_word(rest);
    let at = text.len().saturating_sub(rest.len());
    TranslationFault::refused(naming::of_text(rest, word, behind), at)
}

// What follows the token at the front of what is left of a text; all of it if there is no token.
fn after_token(alloc: Global, rest: &[u8]) -> Result<&[u8], Memory> {
    match front_token(alloc, rest)? {
        Some((_, behind)) => Ok(unblanked(behind)),
        None => Ok(rest),
    }
}

// The byte where a token begins, of which so many stand before it.
fn place_of(alloc: Global, text: &[u8], tokens: usize) -> Result<usize, Memory> {
    let mut rest = unblanked(text);
    for _ in 0..tokens {
        rest = after_token(alloc, rest)?;
    }
    Ok(text.len().saturating_sub(rest.len()))
}

// The fault at the byte of a token, of which so many stand before it; or `Memory`.
pub(crate) fn fault_at_token(
    alloc: Global,
    text: &[u8],
    why: UnsupportedSyntax,
    tokens: usize,
) -> TranslationFault {
    match place_of(alloc, text, tokens) {
        Ok(at) => TranslationFault::refused(why, at),
        Err(_) => TranslationFault::Memory,
    }
}

// The tokens of a text.
pub(crate) fn tokens_of(alloc: Global, text: &[u8]) -> Result<Vec<ArgoToken>, TranslationFault>
    ensures { IfOk result (λ tokens. IsMadeOf text.now tokens.items) }
{
    let mut tokens = Vec::new(alloc);
    let mut rest = unblanked(text);
    while !rest.is_empty() {
        let (token, behind) = next_token(alloc, text, rest)?;
        tokens.push(token)?;
        rest = unblanked(behind);
    }
    Ok(tokens)
}
