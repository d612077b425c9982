//! A text that is made piece by piece.
ghost use Rattle.std.specs.Prelude.{◌≡◌, ◌++◌, IfOk, decimal, string_bytes};

use canary_base::error::Memory;
use itoa::Buffer;

// The text with a piece after it.
pub(crate) fn with(text: String, piece: &str) -> Result<String, Memory>
    ensures { IfOk result (λ all. string_bytes all ≡ string_bytes text ++ piece.now) }
{
    let mut text = text;
    text.push_str(piece)?;
    Ok(text)
}

// The text with two pieces after it.
pub(crate) fn with_two(text: String, first: &str, second: &str) -> Result<String, Memory>
    ensures { IfOk result (λ all. string_bytes all
        ≡ string_bytes text ++ (first.now ++ second.now)) }
{
    let text = with(text, first)?;
    with(text, second)
}

// The text with a piece and a number after it.
pub(crate) fn with_number(text: String, piece: &str, number: u32) -> Result<String, Memory>
    ensures { IfOk result (λ all. string_bytes all
        ≡ string_bytes text ++ (piece.now ++ decimal number)) }
{
    with_two(text, piece, Buffer::new().format(number))
}
