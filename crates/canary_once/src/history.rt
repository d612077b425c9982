//! Histories with more lines at their end.
ghost use Rattle.std.specs.Prelude.{◌≡◌, [], ◌∷◌, ◌++◌, IfOk};
ghost use Rattle.canary_plan.specs.Lines.{line_at};
ghost use Rattle.canary_once.specs.Showing.{lines_then, lines_after};

use canary_base::error::Memory;
use canary_base::lists::Listed;
use canary_base::moments::Moment;
use canary_plan::line::{Line, LineEvent};
use canary_release::effect::Effect;

/// A history with the lines that these effects add at its end.
///
/// # Errors
/// `Memory` if an allocation was refused.
pub fn lines_after(history: Listed<Line>, effects: &[Effect]) -> Result<Listed<Line>, Memory>
    ensures { IfOk result (λ lines. lines ≡ lines_after history effects.now) }
{
    let mut lines = history;
    for effect in effects {
        lines = lines_then(lines, effect)?;
    }
    Ok(lines)
}

// The lines after one effect, which adds a line at the end or leaves them as they are.
fn lines_then(lines: Listed<Line>, effect: &Effect) -> Result<Listed<Line>, Memory>
    ensures { IfOk result (λ more. more ≡ lines_then lines effect.now) }
{
    match effect {
        Effect::LineAdded(line) => with_line(lines, line),
        Effect::RunOpened(_) => Ok(lines),
        Effect::MeasurementRecorded(_) => Ok(lines),
        Effect::RunClosed { .. } => Ok(lines),
    }
}

// The lines with a copy of this one at the end, or `Memory`.
fn with_line(lines: Listed<Line>, line: &Line) -> Result<Listed<Line>, Memory>
    ensures { IfOk result (λ more. more ≡ lines ++ line.now ∷ []) }
{
    let Line { moment, event } = *line;
    push_line(lines, moment, event)
}

/// The lines with one of this moment and event at the end.
///
/// # Errors
/// `Memory` if an allocation was refused.
pub fn push_line(
    lines: Listed<Line>,
    moment: Moment,
    event: LineEvent,
) -> Result<Listed<Line>, Memory>
    ensures { IfOk result (λ more. more ≡ lines ++ line_at moment event ∷ []) }
{
    let mut lines = lines;
    lines.push(Line { moment, event })?;
    Ok(lines)
}
