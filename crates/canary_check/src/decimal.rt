//! What to write in place of a decimal number of a condition, if results are reported in tenths,
//! hundredths or thousandths.
use crate::forms;
use crate::instead::{ends_operand, is_word_byte};
use crate::lines::Lines;
use canary_condition::explanation::{Explained, Why};
use canary_manifest::member::member_of;
use serde_json::Value;

// A number of so many digits, and three more, fits 64 bits with a sign.
const MAX_DIGITS: usize = 15;

/// A decimal number of a condition.
#[derive(Clone, Copy)]
pub(crate) struct DecimalLiteral<'a> {
    /// The digits before its point, if it has any.
    whole: &'a str,
    /// The digits after its point.
    part: &'a str,
}

/// The numbers of a metric's conditions, which are to be scaled alike.
#[derive(Clone, Copy)]
pub(crate) struct ConditionNumbers {
    /// How many there are, but for the places of a list.
    count: usize,
    /// The most digits that one of them has after its point.
    decimals: usize,
}

/// The decimal number at whose point a text stops being a condition, if it does so there.
pub(crate) fn decimal_at(text: &str, explained: Explained) -> Option<DecimalLiteral<'_>> {
    let (front, behind) = text.split_once('.')?;
    if !matches!(explained.why, Why::NoToken) || front.len() != explained.at as usize {
        return None;
    }
    let before = front.trim_end_matches(is_digit);
    let after = behind.trim_start_matches(is_digit);
    let whole = front.strip_prefix(before)?;
    let part = behind.strip_suffix(after)?;
    if whole.len() > MAX_DIGITS || part.is_empty() || goes_on(after) {
        return None;
    }
    if whole.is_empty() && ends_operand(before.as_bytes().trim_ascii_end()) {
        return None;
    }
    Some(DecimalLiteral { whole, part })
}

// Whether it is one of 0 to 9: the pattern by which digits are trimmed.
fn is_digit(letter: char) -> bool {
    letter.is_ascii_digit()
}

// Whether what stands after digits may be of their number.
fn goes_on(text: &str) -> bool {
    match text.as_bytes() {
        [first, ..] => is_number_byte(*first),
        [] => false,
    }
}

// Whether the byte may be part of a number: a letter, a digit, an underscore or a point.
fn is_number_byte(byte: u8) -> bool {
    is_word_byte(byte) || byte == b'.'
}

impl<'a> DecimalLiteral<'a> {
    /// Adds to the last finding what to write in its place, in conditions that have these numbers.
    pub(crate) fn tell(self, lines: &mut Lines, numbers: ConditionNumbers) {
        match unit_of(numbers.decimals) {
            Some(unit) => self.tell_in(lines, unit, numbers),
            None => lines.instead(forms::DECIMAL),
        }
    }

    // Adds the number as it is in that unit, and that other numbers for that result are in it, too.
    fn tell_in(self, lines: &mut Lines, unit: &'a str, numbers: ConditionNumbers) {
        let (whole, part, zeros) = self.without_point(numbers.decimals);
        let (others, in_unit) = match numbers.count {
            0 | 1 => ("", ""),
            _ => (", and other numbers for that result in ", unit),
        };
        lines.instead_in_parts(&[
            "report ",
            unit,
            ", and write ",
            whole,
            part,
            zeros,
            " for ",
            self.whole,
            ".",
            self.part,
            others,
            in_unit,
        ])
    }

    // What to write in its place, in three parts, if numbers have so many digits after their
    // point.
    fn without_point(self, decimals: usize) -> (&'a str, &'a str, &'a str) {
        let whole = self.whole.trim_start_matches('0');
        let part = match whole {
            "" => self.part.trim_start_matches('0'),
            _ => self.part,
        };
        match (whole, part) {
            ("", "") => ("0", "", ""),
            _ => (whole, part, zeros(decimals.saturating_sub(self.part.len()))),
        }
    }
}

// The unit for numbers of 1 to 3 decimals; nothing for any other count.
fn unit_of(decimals: usize) -> Option<&'static str> {
    match decimals {
        1 => Some("tenths"),
        2 => Some("hundredths"),
        3 => Some("thousandths"),
        _ => None,
    }
}

// So many zeros, at the end of a scaled number. A number in a unit needs two at most.
fn zeros(count: usize) -> &'static str {
    match count {
        0 => "",
        1 => "0",
        _ => "00",
    }
}

/// The numbers of a metric's conditions.
pub(crate) fn numbers_of(metric: &Value) -> ConditionNumbers {
    let success = text_at(metric, "successCondition");
    let failure = text_at(metric, "failureCondition");
    ConditionNumbers {
        count: count_in(success).saturating_add(count_in(failure)),
        decimals: decimals_in(success).max(decimals_in(failure)),
    }
}

// The text under that key of a metric, empty if there is no text.
fn text_at<'a>(metric: &'a Value, key: &str) -> &'a str {
    member_of(metric, key)
        .and_then(|condition| condition.as_str())
        .unwrap_or("")
}

// How many numbers the text has, but for the places of a list.
fn count_in(text: &str) -> usize {
    let mut count: usize = 0;
    let mut is_place = false;
    let mut last = b' ';
    for byte in text.as_bytes() {
        if begins_number(last, *byte) && !is_place {
            count = count.saturating_add(1);
        }
        is_place = *byte == b'[' || is_place && *byte != b']';
        last = *byte;
    }
    count
}

// Whether a number begins with this byte, after that one.
fn begins_number(last: u8, byte: u8) -> bool {
    !is_number_byte(last) && (byte.is_ascii_digit() || byte == b'.')
}

// The most digits after a point of the text.
fn decimals_in(text: &str) -> usize {
    let mut most = 0;
    for behind in text.split('.').skip(1) {
        let after = behind.trim_start_matches(is_digit);
        most = most.max(behind.len() - after.len());
    }
    most
}
