//! Reading files of manifests.
use crate::found::{FileFinding, FileFindings};
use canary_base::error::Memory;
use canary_base::lists::Text;
use canary_convert::source::Source;
use canary_yaml::fault::{YamlFault as Refusal, YamlProblem};
use canary_yaml::read::{Document, is_meant_as_json, read_documents};
use serde_json::Value;
use std::alloc::Global;
use std::fs::{File, Files};
use std::io::{self, ErrorKind, Read};

/// The name of standard input among files.
pub const STANDARD_INPUT: &str = "-";

/// The most bytes of a file: 16 MiB. One in YAML has 1 MiB at most.
pub const MAX_BYTES: usize = 16_777_216;

// The byte order mark of UTF-8.
const BYTE_ORDER_MARK: &[u8] = b"\xef\xbb\xbf";

/// A file that was read.
#[derive(Drop)]
pub struct ArgoFile {
    pub name: Text,
    pub bytes: Vec<u8>,
}

/// Files, and the documents in them.
#[derive(Drop)]
pub struct Manifests {
    pub files: Vec<ArgoFile>,
    pub sources: Vec<Source>,
    /// Why a file was not read to its end.
    pub found: FileFindings,
}

/// Why no files were read.
#[derive(Clone, Copy, Debug, PartialEq, Eq)]
pub enum FileReadFault {
    /// An allocation was refused.
    Memory,
    /// The file of this place cannot be opened or read, or has more than 16 MiB.
    File(usize),
}

impl From<Memory> for FileReadFault {
    // For `?`: a refused allocation is `FileReadFault::Memory`.
    fn from(_: Memory) -> FileReadFault {
        FileReadFault::Memory
    }
}

/// The documents of the files of these names; `-` is standard input. A file is one manifest in JSON
/// (RFC 8259), or documents in YAML (yaml.org/spec/1.2.2).
///
/// # Errors
/// `Memory`; `File` with the first file that cannot be read.
pub fn read_files<P: Files + AllocGlobal, R: Read>(
    rt: &P,
    names: &[Text],
    input: &mut R,
) -> Result<Manifests, FileReadFault> {
    let mut manifests = Manifests {
        files: Vec::new(rt.alloc()),
        sources: Vec::new(rt.alloc()),
        found: FileFindings::new(rt.alloc()),
    };
    for (index, name) in names.iter().enumerate() {
        let bytes = bytes_of(rt, name.as_str(), input, index)?;
        manifests.add(rt.alloc(), name, bytes)?;
    }
    Ok(manifests)
}

// The bytes of the file of that name; `File` with its index if it is unreadable or too long.
fn bytes_of<P: Files + AllocGlobal, R: Read>(
    rt: &P,
    name: &str,
    input: &mut R,
    index: usize,
) -> Result<Vec<u8>, FileReadFault> {
    let mut bytes = Vec::new(rt.alloc());
    match fill(rt, name, input, &mut bytes) {
        Ok(()) if bytes.len() <= MAX_BYTES => Ok(bytes),
        Err(error) if error.kind() == ErrorKind::OutOfMemory => Err(FileReadFault::Memory),
        _ => Err(FileReadFault::File(index)),
    }
}

// Reads a file, as far as its length shows whether it is too long.
fn fill<P: Files, R: Read>(
    files: &P,
    name: &str,
    input: &mut R,
    bytes: &mut Vec<u8>,
) -> io::Result<()> {
    let most = MAX_BYTES as u64 + 1;
    if name == STANDARD_INPUT {
        input.by_ref().take(most).read_to_end(bytes)?;
        return Ok(());
    }
    File::open(files, name)?.take(most).read_to_end(bytes)?;
    Ok(())
}

impl Manifests {
    // Adds a file with its documents.
    fn add(&mut self, alloc: Global, name: &Text, bytes: Vec<u8>) -> Result<(), Memory> {
        let file = self.files.len();
        match documents_of(alloc, bytes.as_slice())? {
            FileContent::Json(value) => self.sources.push(source(file, 1, value))?,
            FileContent::Documents(documents) => self.add_documents(file, documents)?,
            FileContent::Refused(found) => self.found.add(FileFinding { file, ..found })?,
        }
        let name = name.copy(alloc)?;
        self.files.push(ArgoFile { name, bytes })?;
        Ok(())
    }

    // Adds each document of a file in YAML as a source, with the line in which it begins.
    fn add_documents(&mut self, file: usize, documents: Vec<Document>) -> Result<(), Memory> {
        for Document { line, value, .. } in documents {
            self.sources.push(source(file, line, value))?;
        }
        Ok(())
    }
}

// A document as canary_convert takes it, with the index of its file in 32 bits.
fn source(file: usize, line: usize, value: Value) -> Source {
    Source {
        file: u32::try_from(file).unwrap_or(u32::MAX),
        line,
        value,
    }
}

// What a file holds.
#[derive(Drop)]
enum FileContent {
    Json(Value),
    Documents(Vec<Document>),
    // Neither, for this reason.
    Refused(FileFinding),
}

// Reads the bytes of a file as JSON or, unless they are meant as JSON, as YAML. What is unreadable
// is a `Refused`, and no error.
fn documents_of(alloc: Global, bytes: &[u8]) -> Result<FileContent, Memory> {
    // kubectl takes JSON after a byte order mark, too
    let text = bytes.strip_prefix(BYTE_ORDER_MARK).unwrap_or(bytes);
    match Value::from_slice(alloc, text) {
        Ok(value) => return Ok(FileContent::Json(value)),
        Err(fault) if fault.is_memory() => return Err(Memory),
        Err(fault) if is_meant_as_json(text) => {
            return Ok(FileContent::Refused(no_json(alloc, fault.line(), fault.column())?));
        }
        Err(_) => {}
    }
    match read_documents(alloc, bytes) {
        Ok(documents) => Ok(FileContent::Documents(documents)),
        Err(why) => Ok(FileContent::Refused(refused(alloc, why)?)),
    }
}

// Why a text is not read, in a file that is not known yet.
fn refused(alloc: Global, why: Refusal) -> Result<FileFinding, Memory> {
    let (line, column) = place_of(why)?;
    Ok(FileFinding {
        file: 0,
        line,
        column,
        path: String::new(alloc),
        text: reason(alloc, why)?,
    })
}

// The line and the column of a refusal, each from 1. `Memory` has no place, and stays an error.
fn place_of(why: Refusal) -> Result<(usize, usize), Memory> {
    match why {
        Refusal::Memory => Err(Memory),
        Refusal::Refused { line, column, .. } => Ok((line, column)),
        Refusal::Number { line, column, .. } => Ok((line, column)),
    }
}

// That what is meant to be JSON is not, at or just before this place.
fn no_json(alloc: Global, line: usize, column: usize) -> Result<FileFinding, Memory> {
    Ok(FileFinding {
        file: 0,
        line,
        column,
        path: String::new(alloc),
        text: String::from_str(alloc, YamlProblem::Json.text())?,
    })
}

// Why it is not read, without its place.
fn reason(alloc: Global, why: Refusal) -> Result<String, Memory> {
    match why {
        Refusal::Memory => Err(Memory),
        Refusal::Refused { why, .. } => Ok(String::from_str(alloc, why.text())?),
        Refusal::Number { reads, .. } => {
            Ok(format!(in alloc; "kubectl reads {reads}: write that, or put it in quotes")?)
        }
    }
}
