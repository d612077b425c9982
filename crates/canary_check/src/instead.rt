//! What to write in place of a text that is no condition, if it has a form that Argo Rollouts
//! reads.
//!
//! It goes by what begins at the byte where the text stops being a condition, and by what stands
//! before it. If these leave a doubt, nothing is said.
use crate::forms;
use canary_condition::explanation::{Expected, Explained, Why};

/// What to write or to report instead, if it is known.
pub(crate) fn instead(text: &[u8], explained: Explained) -> Option<&'static str> {
    let at = explained.at as usize;
    let before = text.get(..at)?.trim_ascii_end();
    let rest = text.get(at..)?;
    match explained.why {
        Why::TooLong => None,
        Why::TooDeep => None,
        Why::NumberRange => Some(forms::LARGE),
        Why::NoToken => instead_of_no_token(before, rest),
        Why::Syntax(expected) => instead_of_token(expected, before, rest),
    }
}

// Of what begins with no token.
fn instead_of_no_token(before: &[u8], rest: &[u8]) -> Option<&'static str> {
    let first = first_of(rest)?;
    if asks_for_no_value(before, rest) {
        return Some(forms::NO_VALUE_BESIDE);
    }
    if is_word_byte(first) {
        let word = front_word(rest);
        let behind = rest.get(word.len()..)?.trim_ascii_start();
        return instead_of_word(word, behind);
    }
    let behind = behind_first(rest);
    match first {
        b'.' => instead_of_point(before, behind),
        b'"' => Some(instead_of_quotes(before)),
        b'\'' => Some(instead_of_quotes(before)),
        b'`' => Some(instead_of_quotes(before)),
        b'{' => instead_of_brace(behind),
        b'?' => instead_of_question(behind),
        b':' => instead_of_colon(before),
        b',' => instead_of_comma(before),
        _ => instead_of_sign(before, first, behind),
    }
}

// Of a sign of arithmetic, half an operator or a comment; nothing of any other byte.
fn instead_of_sign(before: &[u8], first: u8, behind: &[u8]) -> Option<&'static str> {
    match first {
        b'+' => instead_of_plus(before, behind),
        b'-' => instead_of_minus(before, behind),
        b'/' => instead_of_slash(before, behind),
        b'%' => instead_of_percent(before, behind),
        b'*' => instead_of_arithmetic(before),
        b'^' => instead_of_arithmetic(before),
        b'=' => instead_of_equal(before, behind),
        b'&' => Some(forms::AND),
        b'|' => Some(forms::PIPE),
        _ => None,
    }
}

// ---- words

// Of a word that no condition has, with what stands after it.
fn instead_of_word(word: &[u8], behind: &[u8]) -> Option<&'static str> {
    if first_of(word)?.is_ascii_digit() {
        return Some(forms::SPELLING);
    }
    let word = str::from_utf8(word).ok()?;
    match instead_of_name(word) {
        Some(what) => Some(what),
        None if begins_with(behind, b'(') => instead_of_function(word),
        None => None,
    }
}

// Of a word that Argo's conditions have and the desk's have not, or of one in capitals.
fn instead_of_name(word: &str) -> Option<&'static str> {
    match word {
        "true" => Some(forms::TRUTH),
        "false" => Some(forms::TRUTH),
        "nil" => Some(forms::NO_VALUE),
        "null" => Some(forms::NO_VALUE),
        "in" => Some(forms::IN),
        "matches" => Some(forms::TEXT_TEST),
        "contains" => Some(forms::TEXT_TEST),
        "startsWith" => Some(forms::TEXT_TEST),
        "endsWith" => Some(forms::TEXT_TEST),
        "let" => Some(forms::LET),
        _ if is_in_capitals(word) => Some(forms::CAPITALS),
        _ => None,
    }
}

// Of the name of a function, or of what stands before a bracket as one does.
fn instead_of_function(name: &str) -> Option<&'static str> {
    match name {
        "default" => Some(forms::NO_VALUE),
        "isNaN" => Some(forms::NO_NUMBER),
        "isInf" => Some(forms::NO_NUMBER),
        "asInt" => Some(forms::CAST),
        "asFloat" => Some(forms::CAST),
        "int" => Some(forms::CAST),
        "float" => Some(forms::CAST),
        "len" => Some(forms::LENGTH),
        "if" => None,
        _ => Some(forms::FUNCTION),
    }
}

// Whether `isNaN(..)` or `len(..) == 0` stands there, with `||` between it and another condition.
fn asks_for_no_value(before: &[u8], rest: &[u8]) -> bool {
    let Ok(rest) = str::from_utf8(rest) else {
        return false;
    };
    match behind_test(rest) {
        Some(behind) => {
            let is_first = before.is_empty() || ends_with(before, b'(') || ends_in_or(before);
            let is_last = behind.is_empty() || behind.starts_with(")");
            is_first && begins_with_or(behind) || is_last && ends_in_or(before)
        }
        None => false,
    }
}

// What stands after `isNaN(..)` or `len(..) == 0`, if the text begins with one.
fn behind_test(text: &str) -> Option<&str> {
    let (call, behind) = text.split_once(')')?;
    let (name, _) = call.split_once('(')?;
    let behind = behind.trim_start();
    match name.trim_end() {
        "isNaN" => Some(behind),
        "len" => Some(
            behind
                .strip_prefix("==")?
                .trim_start()
                .strip_prefix("0")?
                .trim_start(),
        ),
        _ => None,
    }
}

// Whether the text begins with `||` or with the word `or`.
fn begins_with_or(text: &str) -> bool {
    text.starts_with("||") || front_word(text.as_bytes()) == "or".as_bytes()
}

// Whether the text ends with `||`, or with `or` after a space.
fn ends_in_or(text: &[u8]) -> bool {
    text.ends_with("||".as_bytes()) || text.ends_with(" or".as_bytes())
}

// Whether it is a word of a condition, but for its capitals.
fn is_in_capitals(word: &str) -> bool {
    word.eq_ignore_ascii_case("result")
        || word.eq_ignore_ascii_case("and")
        || word.eq_ignore_ascii_case("or")
        || word.eq_ignore_ascii_case("not")
}

// ---- signs that begin no token

// Of a point: of a decimal, a range or a member.
fn instead_of_point(before: &[u8], behind: &[u8]) -> Option<&'static str> {
    let next = first_of(behind)?;
    let is_of_number = ends_in_digit(before);
    if next.is_ascii_digit() && (is_of_number || !ends_operand(before)) {
        return Some(forms::DECIMAL);
    }
    if next == b'.' && is_of_number {
        return Some(forms::IN);
    }
    let is_key = is_word_byte(next) && !next.is_ascii_digit();
    if is_key && ends_operand(before) && !is_of_number {
        return Some(forms::MEMBER);
    }
    None
}

// Of a text in quotes: a key or a value.
fn instead_of_quotes(before: &[u8]) -> &'static str {
    match before {
        [front @ .., b'['] if ends_operand(front.trim_ascii_end()) => forms::MEMBER,
        _ => forms::TEXT,
    }
}

// Of an opening brace: two in a row are of an argument that was not filled in.
fn instead_of_brace(behind: &[u8]) -> Option<&'static str> {
    if begins_with(behind, b'{') {
        Some(forms::UNFILLED)
    } else {
        None
    }
}

// Of a question mark: a value in place of none, a member that may lack, or a choice.
fn instead_of_question(behind: &[u8]) -> Option<&'static str> {
    match first_of(behind) {
        Some(b'?') => Some(forms::NO_VALUE),
        Some(b'.') => Some(forms::MEMBER),
        _ if behind.contains(&b':') => Some(forms::CHOICE),
        _ => None,
    }
}

// Of a colon, between two places.
fn instead_of_colon(before: &[u8]) -> Option<&'static str> {
    if ends_operand(before_bracket(before)?) {
        Some(forms::SLICE)
    } else {
        None
    }
}

// Of a comma, in a list.
fn instead_of_comma(before: &[u8]) -> Option<&'static str> {
    if ends_operand(before_bracket(before)?) {
        None
    } else {
        Some(forms::LIST)
    }
}

// Of a plus: arithmetic after an operand, a sign before digits, and else nothing.
fn instead_of_plus(before: &[u8], behind: &[u8]) -> Option<&'static str> {
    if ends_operand(before) {
        return Some(forms::ARITHMETIC);
    }
    match first_of(behind) {
        Some(byte) if byte.is_ascii_digit() => Some(forms::PLUS),
        _ => None,
    }
}

// Of a minus: arithmetic after an operand, a sign before `result` or digits, and else nothing.
fn instead_of_minus(before: &[u8], behind: &[u8]) -> Option<&'static str> {
    if ends_operand(before) {
        return Some(forms::ARITHMETIC);
    }
    let next = behind.trim_ascii_start();
    if front_word(next) == "result".as_bytes() {
        return Some(forms::MINUS_RESULT);
    }
    match first_of(next) {
        Some(byte) if !byte.is_ascii_digit() => None,
        Some(_) if next.len() == behind.len() => Some(forms::SPELLING),
        Some(_) => Some(forms::APART),
        None => None,
    }
}

// Of a slash: a comment if another one or a star follows, or else a division.
fn instead_of_slash(before: &[u8], behind: &[u8]) -> Option<&'static str> {
    match first_of(behind) {
        Some(b'/') => Some(forms::COMMENT),
        Some(b'*') => Some(forms::COMMENT),
        _ => instead_of_arithmetic(before),
    }
}

// Of a sign for what is left by a division, which may be meant for percent.
fn instead_of_percent(before: &[u8], behind: &[u8]) -> Option<&'static str> {
    let next = behind.trim_ascii_start();
    match first_of(next) {
        Some(byte) if is_word_byte(byte) && !is_joined(next) => instead_of_arithmetic(before),
        _ => None,
    }
}

// Of a sign of arithmetic. It is one only after an operand.
fn instead_of_arithmetic(before: &[u8]) -> Option<&'static str> {
    if ends_operand(before) {
        Some(forms::ARITHMETIC)
    } else {
        None
    }
}

// Of an equals sign that stands alone.
fn instead_of_equal(before: &[u8], behind: &[u8]) -> Option<&'static str> {
    if ends_operand(before) && !begins_comparison(behind) {
        Some(forms::EQUAL)
    } else {
        None
    }
}

// ---- tokens that may not stand there

// Of a token that may not be there, by what was expected in its place.
fn instead_of_token(expected: Expected, before: &[u8], rest: &[u8]) -> Option<&'static str> {
    match expected {
        Expected::Term => None,
        Expected::Operand => instead_of_operand(rest),
        Expected::Comparison => instead_of_no_comparison(before, rest),
        Expected::ItemOrComparison => instead_of_no_comparison(before, rest),
        Expected::Index => instead_of_place(rest),
        Expected::CloseItem => None,
        Expected::SignOrEnd => instead_of_more(before, rest),
        Expected::SignOrClose => instead_of_more(before, rest),
        Expected::ItemSignOrEnd => instead_of_more(before, rest),
        Expected::ItemSignOrClose => instead_of_more(before, rest),
    }
}

// Where an operand was expected on the right of a comparison.
fn instead_of_operand(rest: &[u8]) -> Option<&'static str> {
    match first_of(rest) {
        Some(b'(') => Some(forms::BRACKETS),
        Some(b'[') => Some(forms::LIST),
        _ => None,
    }
}

// Where a place in a list was expected.
fn instead_of_place(rest: &[u8]) -> Option<&'static str> {
    match first_of(rest) {
        Some(b'-') => Some(forms::FROM_END),
        _ => None,
    }
}

// Where a comparison was expected after an operand.
fn instead_of_no_comparison(before: &[u8], rest: &[u8]) -> Option<&'static str> {
    match first_of(rest) {
        None => instead_of_alone(before),
        Some(b'&') => instead_of_alone(before),
        Some(b'|') => instead_of_alone(before),
        Some(b')') => instead_of_close(before, behind_first(rest)),
        Some(_) if is_joined(rest) => instead_of_alone(before),
        Some(_) => instead_of_more(before, rest),
    }
}

// Of an operand that is compared with nothing.
fn instead_of_alone(before: &[u8]) -> Option<&'static str> {
    if ends_in_digit(before) {
        None
    } else {
        Some(forms::ALONE)
    }
}

// Of a bracket that closes after an operand.
fn instead_of_close(before: &[u8], behind: &[u8]) -> Option<&'static str> {
    if begins_comparison(behind.trim_ascii_start()) {
        Some(forms::BRACKETS)
    } else {
        instead_of_alone(before)
    }
}

// Behind a whole operand.
fn instead_of_more(before: &[u8], rest: &[u8]) -> Option<&'static str> {
    match first_of(rest) {
        Some(b'[') if ends_with(before, b']') => Some(forms::LIST_IN_LIST),
        Some(b'-') => Some(forms::ARITHMETIC),
        Some(_) if begins_comparison(rest) && !ends_with(before, b')') => Some(forms::CHAIN),
        _ => None,
    }
}

// ---- bytes

// The first byte, if there is one.
fn first_of(text: &[u8]) -> Option<u8> {
    text.first().copied()
}

// The text without its first byte; an empty one stays empty.
fn behind_first(text: &[u8]) -> &[u8] {
    match text {
        [_, behind @ ..] => behind,
        [] => text,
    }
}

// Whether that byte is the first; an empty text has no first one.
fn begins_with(text: &[u8], byte: u8) -> bool {
    match text {
        [first, ..] => *first == byte,
        [] => false,
    }
}

// Whether that byte is the last; an empty text has no last one.
fn ends_with(text: &[u8], byte: u8) -> bool {
    match text {
        [.., last] => *last == byte,
        [] => false,
    }
}

/// Whether the byte may be part of a word or a number: a letter, a digit or an underscore.
pub(crate) fn is_word_byte(byte: u8) -> bool {
    byte.is_ascii_alphanumeric() || byte == b'_'
}

// The word that the text begins with.
fn front_word(text: &[u8]) -> &[u8] {
    let len = text.iter().take_while(|byte| is_word_byte(**byte)).count();
    &text[..len]
}

// Whether the text begins with `and` or `or`.
fn is_joined(text: &[u8]) -> bool {
    let word = front_word(text);
    word == "and".as_bytes() || word == "or".as_bytes()
}

// Whether the text begins with a sign of a comparison, or with what is like one.
fn begins_comparison(text: &[u8]) -> bool {
    match text {
        [b'<', ..] => true,
        [b'>', ..] => true,
        [b'=', ..] => true,
        [b'!', b'=', ..] => true,
        _ => false,
    }
}

// Whether the last byte is a digit, so that a number may end there.
fn ends_in_digit(text: &[u8]) -> bool {
    match text {
        [.., last] => last.is_ascii_digit(),
        [] => false,
    }
}

/// Whether the text ends with what may be the end of an operand.
pub(crate) fn ends_operand(text: &[u8]) -> bool {
    ends_with(text, b')')
        || ends_with(text, b']')
        || ends_in_digit(text)
        || text.ends_with("result".as_bytes())
}

// What stands before a square bracket that is still open.
fn before_bracket(text: &[u8]) -> Option<&[u8]> {
    let mut front = None;
    for (index, byte) in text.iter().enumerate() {
        match *byte {
            b'[' => front = text.get(..index),
            b']' => front = None,
            _ => (),
        }
    }
    Some(front?.trim_ascii_end())
}
