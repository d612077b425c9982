//! What is read.
use serde_json::Value;

/// A document that was read, of YAML or of JSON.
#[derive(Drop)]
pub struct Source {
    /// The index of its file.
    pub file: u32,
    /// The first line of the document in it.
    pub line: usize,
    /// What it holds.
    pub value: Value,
}
