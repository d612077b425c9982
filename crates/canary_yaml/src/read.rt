//! Documents.
ghost use Rattle.std.specs.Prelude.{◌≡◌, ◌≢◌, ◌≤◌, Some, None, IfOk, IfErr, IfSome, IsSome};
ghost use Rattle.std.specs.Prelude.{IsUtf8, MatchOption, string_bytes};
ghost use Rattle.serde_json.specs.Data.{Data, depth as nesting};
ghost use Rattle.serde_json.specs.Read.{max_depth, read};
ghost use Rattle.canary_yaml.specs.declared.fault.YamlFault.TheVariants as faults;
ghost use Rattle.serde_json.specs.View.{view};

use crate::block::{read_block, read_scalar};
use crate::cursor::Cursor;
use crate::fault::{YamlFault, YamlProblem};
use crate::text::{text_of, without_mark};
use serde_json::{Error, Value};
use std::alloc::Global;

/// How deep mappings and sequences may be nested: as deep as serde_json reads them.
pub(crate) const MAX_DEPTH: usize = 127;

/// A document of a text.
#[derive(Drop)]
pub struct Document {
    /// The line in which it begins, from 1: that of its marker `---`, if one stands before it.
    pub line: usize,
    /// Its value, nested as deep at most as `serde_json` reads.
    pub value: Value,
    pub ghost nests: { nesting (view value) ≤ max_depth },
}

/// The documents of a text in YAML, in turn, as JSON has them: the core schema of YAML 1.2
/// (yaml.org/spec/1.2.2). A document that has nothing in it, or comments alone, is left out. A text
/// has 1,048,576 bytes at most.
///
/// # Errors
/// `Refused`: `Length`, `Utf8` or `Control`, if the bytes are not such a text, else by another name
/// of `YamlProblem` the first thing that is not read. `Memory`.
pub fn read_documents(alloc: Global, bytes: &[u8]) -> Result<Vec<Document>, YamlFault> {
    let text = text_of(alloc, bytes)?;
    let mut c = Cursor::new(text.as_slice());
    let mut documents = Vec::new(alloc);
    for _ in 0..c.turns() {
        c.skip_to_token()?;
        if c.is_at_end() {
            break;
        }
        if let Some(document) = next_document(alloc, &mut c)? {
            documents.push(document)?;
        }
    }
    Ok(documents)
}

/// The document of a text in YAML that has one.
///
/// # Errors
/// `Empty` if it has none, `Second` if it has more, and as `read_documents`.
pub fn read_one(alloc: Global, bytes: &[u8]) -> Result<Value, YamlFault>
    ensures nests { IfOk result (λ v. nesting (view v) ≤ max_depth) }
{
    let mut documents = read_documents(alloc, bytes)?;
    if let Some(second) = documents.get(1) {
        return Err(YamlFault::Refused {
            line: second.line,
            column: 1,
            why: YamlProblem::Second,
        });
    }
    match documents.pop() {
        Some(Document { value, .. }) => Ok(value),
        None => Err(Cursor::new(&[]).fault(YamlProblem::Empty)),
    }
}

/// The value of a text in JSON (RFC 8259), or else that of the one document of a text in YAML. JSON
/// is read as `serde_json` reads it, of any length: of a key that stands twice the last value
/// counts. What `{` begins is meant to be JSON, as kubectl takes it.
///
/// # Errors
/// `Json` if the text is meant to be JSON, and is not; as `read_one`, if it is not JSON.
pub fn read_json_or_yaml(alloc: Global, bytes: &[u8]) -> Result<Value, YamlFault>
    ensures json { IfOk result (λ v. (d : Data) → IsUtf8 bytes.now → read bytes.now ≡ Some d
        → view v ≡ d) }
    ensures reads_json { IfErr result (λ e. e ≢ faults.Memory → IsUtf8 bytes.now
        → read bytes.now ≡ None) }
    ensures nests { IfOk result (λ v. nesting (view v) ≤ max_depth) }
{
    match Value::from_slice(alloc, bytes) {
        Ok(value) => Ok(value),
        Err(fault) if fault.is_memory() => Err(YamlFault::Memory),
        Err(fault) if is_meant_as_json(bytes) => Err(no_json(&fault)),
        Err(_) => read_one(alloc, bytes),
    }
}

/// Whether a text is meant to be JSON: `{` begins it, after white space and a byte order mark.
pub fn is_meant_as_json(bytes: &[u8]) -> bool {
    without_mark(bytes).trim_ascii_start().starts_with(b"{")
}

// The fault of a text that is meant to be JSON.
fn no_json(fault: &Error) -> YamlFault
    ensures { result ≢ faults.Memory }
{
    YamlFault::Refused {
        line: fault.line(),
        column: fault.column(),
        why: YamlProblem::Json,
    }
}

/// Nothing, if a text is JSON (RFC 8259) as `serde_json` reads it; or else the JSON of the one
/// document of a text in YAML.
///
/// # Errors
/// As `read_json_or_yaml`.
pub fn json_of(alloc: Global, bytes: &[u8]) -> Result<Option<String>, YamlFault>
    ensures json { IfOk result (λ found. MatchOption found
        (IsUtf8 bytes.now → IsSome (read bytes.now))
        (λ text. (IsUtf8 bytes.now → read bytes.now ≡ None) × IsSome (read (string_bytes text)))) }
    ensures reads_json { IfErr result (λ e. e ≢ faults.Memory → IsUtf8 bytes.now
        → read bytes.now ≡ None) }
{
    match Value::from_slice(alloc, bytes) {
        Ok(_) => Ok(None),
        Err(why) if why.is_memory() => Err(YamlFault::Memory),
        Err(why) if is_meant_as_json(bytes) => Err(no_json(&why)),
        Err(_) => Ok(Some(json_of_one(alloc, bytes)?)),
    }
}

// The JSON of the one document of a text in YAML.
fn json_of_one(alloc: Global, bytes: &[u8]) -> Result<String, YamlFault>
    ensures { IfOk result (λ text. IsSome (read (string_bytes text))) }
{
    let value = read_one(alloc, bytes)?;
    Ok(value.to_string(alloc)?)
}

// The document that begins here, or None if it has nothing in it.
fn next_document(alloc: Global, c: &mut Cursor<'_>) -> Result<Option<Document>, YamlFault> {
    if c.is_marker(b"...") {
        c.skip(3);
        c.end_line()?;
        return Ok(None);
    }
    let line = c.line();
    let value = match begin_document(alloc, c)? {
        Some(value) => value,
        None => return Ok(None),
    };
    c.skip_to_token()?;
    if !c.is_over() {
        return Err(c.fault(YamlProblem::Trailing));
    }
    Ok(Some(Document { line, value }))
}

// The value of the document that begins here, or None if it has nothing in it. The cursor is left
// at the front of a line.
fn begin_document(alloc: Global, c: &mut Cursor<'_>) -> Result<Option<Value>, YamlFault>
    ensures { IfOk result (λ found. IfSome found (λ v. nesting (view v) ≤ max_depth)) }
{
    if c.column() == 0 && c.peek() == b'%' {
        return Err(c.fault(YamlProblem::Directive));
    }
    if c.is_marker(b"---") {
        c.skip(3);
        if !c.is_line_over() {
            c.skip_white();
            return Ok(Some(read_scalar(alloc, c, 0, MAX_DEPTH)?));
        }
        c.skip_to_token()?;
    }
    if c.is_over() {
        return Ok(None);
    }
    Ok(Some(read_block(alloc, c, 0, MAX_DEPTH)?))
}
