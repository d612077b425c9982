//! Where a part of a document stands in its file.
use crate::found::FileFinding;
use crate::reading::Manifests;
use canary_base::error::Memory;
use canary_convert::source::Source;
use canary_shown::text::{TextKind, shown};
use canary_yaml::fault::YamlFault as Refusal;
use canary_yaml::places::{PathStep, Place, place_of};
use std::alloc::Global;

/// What is found in the document of that place, at that path of it; or `Memory`. What a terminal
/// would take for a command is escaped.
pub(crate) fn found_at(
    alloc: Global,
    manifests: &Manifests,
    source: usize,
    path: &str,
    text: &str,
) -> Result<FileFinding, Memory> {
    let Some(document) = manifests.sources.get(source) else {
        return found(alloc, 0, Place { line: 1, column: 1 }, path, text);
    };
    let file = document.file as usize;
    let bytes = bytes_of(manifests, source, document);
    let place = place_in(alloc, bytes, document.line, path)?;
    found(alloc, file, place, path, text)
}

// The bytes of a document, up to the next one of its file.
fn bytes_of<'a>(manifests: &'a Manifests, source: usize, document: &Source) -> &'a [u8] {
    let Some(file) = manifests.files.get(document.file as usize) else {
        return &[];
    };
    let rest = from_line(file.bytes.as_slice(), document.line);
    match manifests.sources.get(source.saturating_add(1)) {
        Some(next) if next.file == document.file => {
            let after = from_line(
                rest,
                next.line.saturating_sub(document.line).saturating_add(1),
            );
            rest.get(..rest.len().saturating_sub(after.len()))
                .unwrap_or(rest)
        }
        _ => rest,
    }
}

// The bytes from that line on, from 1.
fn from_line(bytes: &[u8], line: usize) -> &[u8] {
    let mut rest = bytes;
    for _ in 1..line {
        let Some(end) = rest.iter().position(|byte| *byte == b'\n') else {
            return &[];
        };
        rest = rest.get(end.saturating_add(1)..).unwrap_or(&[]);
    }
    rest
}

// A finding at this place of a file, with its path and its text as a terminal shows them.
fn found(
    alloc: Global,
    file: usize,
    place: Place,
    path: &str,
    text: &str,
) -> Result<FileFinding, Memory> {
    let Place { line, column } = place;
    Ok(FileFinding {
        file,
        line,
        column,
        path: shown(alloc, path, TextKind::Line)?,
        text: shown(alloc, text, TextKind::Line)?,
    })
}

// The place of that path in the document of these bytes, which begins in that line: its front, if
// the text of a file in JSON is not YAML, too.
fn place_in(alloc: Global, bytes: &[u8], line: usize, path: &str) -> Result<Place, Memory> {
    let mut steps = Vec::new(alloc);
    push_steps(&mut steps, path)?;
    match place_of(alloc, bytes, 1, steps.as_slice()) {
        Ok(place) => Ok(Place {
            line: place.line.saturating_add(line).saturating_sub(1),
            column: place.column,
        }),
        Err(Refusal::Memory) => Err(Memory),
        Err(_) => Ok(Place { line, column: 1 }),
    }
}

// The steps of a path, as `spec.metrics[1].name`.
fn push_steps<'a>(steps: &mut Vec<PathStep<'a>>, path: &'a str) -> Result<(), Memory> {
    for part in path.split('.') {
        push_part(steps, part)?;
    }
    Ok(())
}

// A key, and the places of sequences after it, as `metrics[1]`.
fn push_part<'a>(steps: &mut Vec<PathStep<'a>>, part: &'a str) -> Result<(), Memory> {
    for (index, piece) in part.split('[').enumerate() {
        match piece.strip_suffix("]") {
            Some(place) if index > 0 => {
                steps.push(PathStep::Entry(place.parse::<usize>().unwrap_or(usize::MAX)))?;
            }
            _ if piece.is_empty() => {}
            _ => steps.push(PathStep::Key(piece))?,
        }
    }
    Ok(())
}
