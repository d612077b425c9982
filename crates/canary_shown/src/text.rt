//! Texts of others as a terminal shows them: as text, and not as its commands.
ghost use Rattle.std.specs.Prelude.{◌≡◌, ◌++◌, ◌<◌, IfOk, OnOk, IsTrue, string_bytes, encode_utf8};
ghost use Rattle.std.specs.Prelude.{encode_utf8_all};
ghost use Rattle.canary_shown.specs.Showing.{shown, shown_char, escape, hex_digit, is_mark};
ghost use Rattle.canary_shown.specs.Showing.{is_between, is_json_space};

use canary_base::error::Memory;
use std::alloc::Global;

/// What a text is.
#[derive(Clone, Copy, Debug, PartialEq, Eq)]
pub enum TextKind {
    /// A part of a line.
    Line,
    /// One value in JSON (RFC 8259). No control stands in a text of it, so a tab or an end of a
    /// line is white space between its parts.
    Json,
}

/// A text with each mark as `\u` and its four hexadecimal digits, as JSON has it. A mark is what a
/// terminal takes for more than a character: a control (C0, DEL, C1), an end of a line or of a
/// paragraph, or what turns the direction of a text (Unicode, UAX #9). In JSON a tab or an end of a
/// line becomes a space, so the value is the same. A text without marks is itself.
///
/// # Errors
/// `Memory` if an allocation was refused.
pub fn shown(alloc: Global, text: &str, form: TextKind) -> Result<String, Memory>
    ensures { IfOk result (λ s. string_bytes s ≡ shown form text.now) }
{
    let mut shown = String::new(alloc);
    for character in text.chars() {
        put(&mut shown, character, form)?;
    }
    Ok(shown)
}

// Appends a character as it is shown.
fn put(text: &mut String, character: char, form: TextKind) -> Result<(), Memory>
    ensures { OnOk result (string_bytes text.new
        ≡ string_bytes text.old ++ encode_utf8_all (shown_char form character)) }
{
    if !is_mark(character) {
        text.push(character)?;
        Ok(())
    } else if form == TextKind::Json && is_json_space(character) {
        text.push(' ')?;
        Ok(())
    } else {
        put_escape(text, character as u32)
    }
}

// Appends a mark as `\u` and four hexadecimal digits; no mark has more.
fn put_escape(text: &mut String, code: u32) -> Result<(), Memory>
    ensures { OnOk result (string_bytes text.new
        ≡ string_bytes text.old ++ encode_utf8_all (escape code)) }
{
    text.push('\\')?;
    text.push('u')?;
    text.push(hex_digit(code / 4096 % 16))?;
    text.push(hex_digit(code / 256 % 16))?;
    text.push(hex_digit(code / 16 % 16))?;
    text.push(hex_digit(code % 16))?;
    Ok(())
}

// The character of a hexadecimal digit, 0 to 9 or a to f.
fn hex_digit(digit: u32) -> char
    requires { digit < 16 }
    ensures { result ≡ hex_digit digit }
{
    if digit < 10 {
        char::from(b'0' + digit as u8)
    } else {
        char::from(b'a' + (digit - 10) as u8)
    }
}

// Whether a terminal takes this character for more than one.
fn is_mark(character: char) -> bool
    ensures { result ≡ is_mark character }
{
    let code = character as u32;
    code <= 0x1f
        || is_between(code, 0x7f, 0x9f)
        || code == 0x61c
        || is_between(code, 0x200e, 0x200f)
        || is_between(code, 0x2028, 0x202e)
        || is_between(code, 0x2066, 0x2069)
}

// Whether the code is in that range, with both its ends.
fn is_between(code: u32, first: u32, last: u32) -> bool
    ensures { result ≡ is_between code first last }
{
    first <= code && code <= last
}

// White space of JSON that is a mark.
fn is_json_space(character: char) -> bool
    ensures { result ≡ is_json_space character }
{
    character == '\t' || character == '\n' || character == '\r'
}
