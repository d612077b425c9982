//! Lines that are joined to one text.
use crate::fault::YamlFault;

/// Adds what stands for the end of a line with that many blank lines after it: a space, or an LF
/// for each blank line.
pub(crate) fn push_break(text: &mut Vec<u8>, blank: usize) -> Result<(), YamlFault> {
    if blank == 0 {
        text.push(b' ')?;
        return Ok(());
    }
    push_lines(text, blank)
}

/// Adds that many LF.
pub(crate) fn push_lines(text: &mut Vec<u8>, count: usize) -> Result<(), YamlFault> {
    for _ in 0..count {
        text.push(b'\n')?;
    }
    Ok(())
}
