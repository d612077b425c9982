//! Histories as text.
ghost use Rattle.std.specs.Prelude.{◌≡◌, [], ◌∷◌, ◌++◌, string_bytes, IfOk, OnOk, OnErr};
ghost use Rattle.canary_plan.specs.Lines.{history_text, line_text};

use canary_base::error::Memory;
use canary_plan::line::Line;
use std::alloc::Global;

/// Appends these lines of a history: of each its moment, a space and its words, ended with LF.
///
/// # Errors
/// `Memory` if an allocation was refused; the text is then as before.
pub fn history_text(lines: &[Line], text: &mut String) -> Result<(), Memory>
    ensures ok { OnOk result
        (string_bytes text.new ≡ string_bytes text.old ++ history_text lines.now) }
    ensures err { OnErr result (string_bytes text.new ≡ string_bytes text.old) }
{
    let alloc = *text.allocator();
    let all = lines_text(alloc, lines)?;
    text.push_str(all.as_str())?;
    Ok(())
}

// The text of these lines, made apart: if memory runs out, the caller's text is as before.
fn lines_text(alloc: Global, lines: &[Line]) -> Result<String, Memory>
    ensures { IfOk result (λ text. string_bytes text ≡ history_text lines.now) }
{
    let mut text = String::new(alloc);
    for line in lines {
        text = with_line(text, line)?;
    }
    Ok(text)
}

// The text with one more line: its moment, a space and its words, ended with LF.
fn with_line(text: String, line: &Line) -> Result<String, Memory>
    ensures { IfOk result (λ more. string_bytes more
        ≡ string_bytes text ++ (line_text line.now ++ 10 ∷ [])) }
{
    let mut text = text;
    line.moment.text(&mut text)?;
    text.push_str(" ")?;
    line.words(&mut text)?;
    text.push_str("\n")?;
    Ok(text)
}
