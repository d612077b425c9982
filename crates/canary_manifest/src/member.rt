//! The members of a manifest, and what they hold.
//!
//! A null member is as if absent, and a member that is not asked for is passed over. These are the
//! readers of the members alone, for whoever reports which of them is not read.
ghost use Rattle.std.specs.Prelude.{◌≡◌, ◌<◌, ◌^◌, ◌==◌, IsTrue, option_map};
ghost use Rattle.std.specs.Option.{SomeIff};
ghost use Rattle.std.specs.Str.Parse.{digits_value};
ghost use Rattle.std.specs.Char.{is_ascii_digit};
ghost use Rattle.std.specs.List.{list_all};
ghost use Rattle.serde_json.specs.View.{view};
ghost use Rattle.canary_canonical.specs.Reads.{IsRead};
ghost use Rattle.canary_manifest.specs.Members.{member_of, in_member_or};
ghost use Rattle.canary_manifest.specs.Members.{is_digits, digits_up_to, count_up_to, limit_in};
ghost use Rattle.canary_manifest.specs.Members.{count_in, condition_in, duration_in, delay_in};
ghost use Rattle.canary_manifest.specs.Members.{pause_seconds, is_true};
ghost use Rattle.canary_manifest.specs.Members.{is_other_text, is_no_empty_list};
ghost use Rattle.canary_manifest.specs.Members.{is_negative_text, is_negative};

use canary_base::durations::Seconds;
use canary_base::lists::Text;
use canary_canonical::form::{FormFault, number_up_to};
use canary_metric::metric::MAX_LIMIT;
use serde_json::Value;
use std::alloc::Global;

// The longest pause, in seconds.
const MAX_PAUSE: u32 = 31_536_000;

/// The member of that key, if it is there and not null.
pub fn member_of<'a>(value: &'a Value, key: &str) -> Option<&'a Value>
    ensures { option_map (λ member. view member.now) result ≡ member_of key.now (view value.now) }
{
    match value.get(key) {
        Some(member) if !member.is_null() => Some(member),
        _ => None,
    }
}

// One digit or more.
fn is_digits(text: &str) -> bool
    ensures { result ≡ is_digits text.now }
{
    !text.is_empty() && are_digits(text.as_bytes())
}

// The number that a text of digits spells, if 32 bits hold it.
#[tactic(auto, using(crate::proofs::Digits::parses))]
fn number_of(digits: &str) -> Option<u32>
    requires { IsTrue (is_digits digits.now) }
    ensures { SomeIff result (digits_value 10 digits.now < 2 ^ 32)
        (digits_value 10 digits.now) }
{
    digits.parse().ok()
}

// The number that a text of digits spells, up to that.
fn digits_up_to(text: &str, greatest: u32) -> Option<u32>
    ensures { result ≡ digits_up_to greatest text.now }
{
    if !is_digits(text) {
        return None;
    }
    match number_of(text) {
        Some(number) if number <= greatest => Some(number),
        _ => None,
    }
}

// A whole number or a text of digits, up to that.
fn count_up_to(value: &Value, greatest: u32) -> Option<u32>
    ensures { result ≡ count_up_to greatest (view value.now) }
{
    match value.as_str() {
        Some(text) => digits_up_to(text, greatest),
        None => number_up_to(value, greatest),
    }
}

/// The limit under that key, or this if it is absent: a whole number or a text of digits, up to
/// 1,000,000.
pub fn limit_at(value: &Value, key: &str, absent: u32) -> Option<u32>
    ensures { result ≡ in_member_or key.now absent limit_in (view value.now) }
{
    match member_of(value, key) {
        Some(limit) => count_up_to(limit, MAX_LIMIT),
        None => Some(absent),
    }
}

/// The count under that key, if there is one: as a limit, but 0 is as if absent.
pub fn count_at(value: &Value, key: &str) -> Option<Option<u32>>
    ensures { result ≡ in_member_or key.now None count_in (view value.now) }
{
    let Some(count) = member_of(value, key) else {
        return Some(None);
    };
    let count = count_up_to(count, MAX_LIMIT)?;
    Some(if count == 0 { None } else { Some(count) })
}

/// The condition under that key, if there is one; an empty one is as if absent. Whether it has a
/// reading is not looked at.
///
/// # Errors
/// `Unreadable` if it is no text; `Memory`.
pub fn condition_at(alloc: Global, value: &Value, key: &str) -> Result<Option<Text>, FormFault>
    ensures { IsRead (in_member_or key.now None condition_in (view value.now)) result }
{
    match member_of(value, key) {
        Some(condition) => condition_in(alloc, condition),
        None => Ok(None),
    }
}

// The text of a condition, or `None` if it is empty; `Unreadable` if it is no text.
fn condition_in(alloc: Global, value: &Value) -> Result<Option<Text>, FormFault>
    ensures { IsRead (condition_in (view value.now)) result }
{
    match value.as_str() {
        Some("") => Ok(None),
        Some(text) => Ok(Some(Text::of(String::from_str(alloc, text)?))),
        None => Err(FormFault::Unreadable),
    }
}

/// The duration under that key, if there is one: a text such as `1h30m`; an empty one is as if
/// absent.
pub fn duration_at(value: &Value, key: &str) -> Option<Option<Seconds>>
    ensures { result ≡ in_member_or key.now None duration_in (view value.now) }
{
    match member_of(value, key) {
        Some(duration) => duration_in(duration),
        None => Some(None),
    }
}

// The duration that a text spells: `Some(None)` if the text is empty, `None` if it is invalid.
fn duration_in(value: &Value) -> Option<Option<Seconds>>
    ensures { result ≡ duration_in (view value.now) }
{
    let text = value.as_str()?;
    if text.is_empty() {
        return Some(None);
    }
    Some(Some(Seconds::read(text)?))
}

/// The same, but what is absent is 0.
pub fn delay_at(value: &Value, key: &str) -> Option<Seconds>
    ensures { result ≡ in_member_or key.now 0 delay_in (view value.now) }
{
    match duration_at(value, key)? {
        Some(delay) => Some(delay),
        None => Seconds::new(0),
    }
}

/// How long a pause is: the text of a duration, or seconds as a whole number or a text of digits.
pub fn pause_seconds(value: &Value) -> Option<Seconds>
    ensures { result ≡ pause_seconds (view value.now) }
{
    match count_up_to(value, MAX_PAUSE) {
        Some(seconds) => Seconds::new(u64::from(seconds)),
        None => Seconds::read(value.as_str()?),
    }
}

/// Whether it is `true`.
pub fn is_true(value: &Value) -> bool
    ensures { result ≡ is_true (view value.now) }
{
    value.as_bool().unwrap_or(false)
}

/// Whether it is anything but that text.
pub fn is_other_text(value: &Value, text: &str) -> bool
    ensures { result ≡ is_other_text text.now (view value.now) }
{
    match value.as_str() {
        Some(found) => found != text,
        None => true,
    }
}

/// Whether it is anything but an empty list.
#[tactic(auto, using(crate::proofs::Items::items_len_view))]
pub fn is_no_empty_list(value: &Value) -> bool
    ensures { result ≡ is_no_empty_list (view value.now) }
{
    match value.as_array() {
        Some(list) => !list.is_empty(),
        None => true,
    }
}

// A minus and digits that are not all 0.
fn is_negative_text(text: &[u8]) -> bool
    ensures { result ≡ is_negative_text text.now }
{
    match text {
        [first, digits @ ..] => *first == b'-' && are_digits(digits) && !are_zeros(digits),
        [] => false,
    }
}

// Whether each byte is a digit; so it is if there are no bytes.
fn are_digits(text: &[u8]) -> bool
    ensures { result ≡ list_all is_ascii_digit text.now }
{
    text.iter().all(|digit| digit.is_ascii_digit())
}

// Whether each byte is the digit 0; so it is if there are no bytes.
fn are_zeros(text: &[u8]) -> bool
    ensures { result ≡ list_all (λ d. d == 48) text.now }
{
    text.iter().all(|digit| *digit == b'0')
}

/// Whether it is a whole number below 0, or a text of one.
pub fn is_negative(value: &Value) -> bool
    ensures { result ≡ is_negative (view value.now) }
{
    match value {
        Value::String(text) => is_negative_text(text.as_bytes()),
        Value::Number(_) => value.is_i64() && !value.is_u64(),
        _ => false,
    }
}
