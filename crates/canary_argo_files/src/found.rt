//! What is found in files of manifests.
use crate::reading::{ArgoFile, Manifests};
use canary_base::error::Memory;
use canary_shown::text::{TextKind, shown};
use serde_json::Value;
use std::alloc::Global;

/// What keeps a file from being translated, or what has to be known of its translation.
#[derive(Drop)]
pub struct FileFinding {
    /// The file, by its place among those that were read.
    pub file: usize,
    /// Where it is, each from 1. A column is a character.
    pub line: usize,
    pub column: usize,
    /// The keys that lead to it, as `spec.metrics[0].interval`; empty for a whole document.
    pub path: String,
    /// What it is, and what to write. Further lines begin with four spaces.
    pub text: String,
}

impl FileFinding {
    // A copy of the finding for another list, or `Memory`.
    fn copy(&self, alloc: Global) -> Result<FileFinding, Memory> {
        Ok(FileFinding {
            file: self.file,
            line: self.line,
            column: self.column,
            path: String::from_str(alloc, self.path.as_str())?,
            text: String::from_str(alloc, self.text.as_str())?,
        })
    }

    // Adds a further line to its text, with what a terminal would obey escaped; or `Memory`.
    fn add_line(&mut self, alloc: Global, line: &str) -> Result<(), Memory> {
        self.text.push_str("\n")?;
        self.text
            .push_str(shown(alloc, line, TextKind::Line)?.as_str())?;
        Ok(())
    }
}

/// What was found, in turn: 100 findings at most. The others are counted.
#[derive(Drop)]
pub struct FileFindings {
    pub list: Vec<FileFinding>,
    pub more: u64,
}

// The most findings that are kept.
const MOST: usize = 100;

impl FileFindings {
    /// Nothing.
    pub fn new(alloc: Global) -> FileFindings {
        FileFindings {
            list: Vec::new(alloc),
            more: 0,
        }
    }

    /// Whether there is none.
    pub fn is_empty(&self) -> bool {
        self.list.is_empty()
    }

    /// Whether one more is kept, and not counted alone.
    pub(crate) fn has_room(&self) -> bool {
        self.list.len() < MOST
    }

    /// Counts so many more.
    pub(crate) fn count(&mut self, more: u64) {
        self.more = self.more.saturating_add(more);
    }

    /// Adds one, or counts it; or `Memory`.
    pub fn add(&mut self, found: FileFinding) -> Result<(), Memory> {
        if self.has_room() {
            self.list.push(found)?;
        } else {
            self.count(1);
        }
        Ok(())
    }

    /// Adds all of them, also those that are counted; or `Memory`.
    pub(crate) fn add_all(&mut self, alloc: Global, others: &FileFindings) -> Result<(), Memory> {
        for found in &others.list {
            self.add(found.copy(alloc)?)?;
        }
        self.count(others.more);
        Ok(())
    }

    /// Adds a line to the last finding, unless that is counted alone; or `Memory`.
    pub(crate) fn add_to_last(&mut self, alloc: Global, line: &str) -> Result<(), Memory> {
        if self.more > 0 {
            return Ok(());
        }
        match self.list.last_mut() {
            Some(last) => last.add_line(alloc, line),
            None => Ok(()),
        }
    }

    /// A line for each, `FILE:LINE:COLUMN: PATH: TEXT`, and those that are counted; or `Memory`.
    pub fn lines(&self, alloc: Global, manifests: &Manifests) -> Result<String, Memory> {
        let mut text = String::new(alloc);
        for found in &self.list {
            push_line(alloc, &mut text, found, manifests.files.as_slice())?;
        }
        if self.more > 0 {
            write!(text, "and {} more\n", self.more)?;
        }
        Ok(text)
    }

    /// Appends a list in JSON of objects with `column`, `file`, `line`, `path` and `text`, without
    /// those that are counted; or `Memory`.
    pub fn push_json(
        &self,
        alloc: Global,
        out: &mut String,
        manifests: &Manifests,
    ) -> Result<(), Memory> {
        out.push_str("[")?;
        for (index, found) in self.list.iter().enumerate() {
            if index > 0 {
                out.push_str(",")?;
            }
            push_object(alloc, out, found, manifests.files.as_slice())?;
        }
        out.push_str("]")?;
        Ok(())
    }
}

// Appends the line of a finding: its file, line and column if it is of a file, its path if that is
// not empty, and its text.
fn push_line(
    alloc: Global,
    out: &mut String,
    found: &FileFinding,
    files: &[ArgoFile],
) -> Result<(), Memory> {
    let name = shown(alloc, name_of(files, found.file), TextKind::Line)?;
    if !name.is_empty() {
        write!(out, "{name}:{}:{}: ", found.line, found.column)?;
    }
    if !found.path.is_empty() {
        write!(out, "{}: ", found.path.as_str())?;
    }
    out.push_str(found.text.as_str())?;
    out.push_str("\n")?;
    Ok(())
}

// Appends a finding as an object in JSON, with its file by name; or `Memory`.
fn push_object(
    alloc: Global,
    out: &mut String,
    found: &FileFinding,
    files: &[ArgoFile],
) -> Result<(), Memory> {
    write!(out, "{{\"column\":{},\"file\":", found.column)?;
    push_text(alloc, out, name_of(files, found.file))?;
    write!(out, ",\"line\":{},\"path\":", found.line)?;
    push_text(alloc, out, found.path.as_str())?;
    out.push_str(",\"text\":")?;
    push_text(alloc, out, found.text.as_str())?;
    out.push_str("}")?;
    Ok(())
}

/// Appends a text in JSON, or `Memory`.
pub(crate) fn push_text(alloc: Global, out: &mut String, text: &str) -> Result<(), Memory> {
    let text = Value::try_from_str(alloc, text)?.to_string(alloc)?;
    out.push_str(text.as_str())?;
    Ok(())
}

// The name of the file at that place among those that were read, empty if there is no such file.
fn name_of(files: &[ArgoFile], file: usize) -> &str {
    match files.get(file) {
        Some(file) => file.name.as_str(),
        None => "",
    }
}
