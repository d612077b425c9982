//! Files of manifests in YAML.
use canary_base::error::Memory;
use canary_programs::fault::Fault;
use canary_yaml::fault::YamlFault as Refusal;
use canary_yaml::read::{Document, is_meant_as_json, read_documents};
use serde_json::Value;
use std::alloc::Global;

/// What a file of manifests holds.
#[derive(Drop)]
pub(crate) enum ManifestContent {
    /// A text in JSON, or one that is meant to be JSON: `{` begins it. kubectl takes such a text
    /// for JSON, too.
    Json,
    /// Documents in YAML.
    Documents(Vec<Document>),
    /// None of them. This says why, and where; a line feed ends it.
    Refused(String),
}

/// What a file of these bytes holds.
pub(crate) fn documents_of(alloc: Global, bytes: &[u8]) -> Result<ManifestContent, Fault> {
    if is_meant_as_json(bytes) || is_utf16(bytes) || is_json(alloc, bytes)? {
        return Ok(ManifestContent::Json);
    }
    match read_documents(alloc, bytes) {
        Ok(documents) if documents.is_empty() => Ok(ManifestContent::Json),
        Ok(documents) => Ok(ManifestContent::Documents(documents)),
        Err(why) => refused(alloc, why),
    }
}

// Whether it begins with the byte order mark of UTF-16, of which the check of JSON says what to do.
fn is_utf16(bytes: &[u8]) -> bool {
    bytes.starts_with(b"\xfe\xff") || bytes.starts_with(b"\xff\xfe")
}

// Whether the bytes are one valid value in JSON; or `Memory`.
fn is_json(alloc: Global, bytes: &[u8]) -> Result<bool, Fault> {
    match Value::from_slice(alloc, bytes) {
        Ok(_) => Ok(true),
        Err(fault) if fault.is_memory() => Err(Fault::Memory),
        Err(_) => Ok(false),
    }
}

// The reading that says why the bytes are refused, or `Memory` if that is why.
fn refused(alloc: Global, why: Refusal) -> Result<ManifestContent, Fault> {
    match why {
        Refusal::Memory => Err(Fault::Memory),
        _ => match format!(in alloc; "{why}\n") {
            Ok(text) => Ok(ManifestContent::Refused(text)),
            Err(_) => Err(Fault::Memory),
        },
    }
}

/// Adds lines, each with the line in which its document begins, unless that is 0. A line that
/// begins with four spaces belongs to the one before it.
pub(crate) fn add_lines(found: &mut String, lines: &str, line: usize) -> Result<(), Memory> {
    for text in lines.lines() {
        if line > 0 && !text.starts_with("    ") {
            write!(found, "document of line {line}: ")?;
        }
        found.push_str(text)?;
        found.push_str("\n")?;
    }
    Ok(())
}
