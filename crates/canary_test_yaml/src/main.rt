//! Reads texts in YAML for the tests. It takes lines, each a value in JSON (RFC 8259), and prints a
//! line for each:
//!
//! - of a text: its documents, each as `[LINE, VALUE]`
//! - of `{"bytes": HEXADECIMAL}`: the same of these bytes
//! - of `{"one": TEXT}`: the value of a text of one document
//! - of `{"either": TEXT}`: the value of a text in JSON, or else of one document
//! - of `[TEXT, LINE, STEP..]`: as `LINE:COLUMN` where that part of the document of that line
//!   stands; a step is a key, or a place of a sequence
//!
//! What is not read is a line of `!` and why. The exit status is 1 if memory, the input or the
//! output fails.
#![tactic(auto)]

use canary_yaml::fault::YamlFault;
use canary_yaml::places::{PathStep, Place, place_of};
use canary_yaml::read::{Document, json_of, read_documents, read_json_or_yaml, read_one};
use serde_json::Value;
use std::alloc::Global;
use std::io::{self, BufRead, BufReader};
use std::process::ExitCode;

// Answers each line of standard input.
fn main(rt: HostRuntime) -> ExitCode {
    match answer_all(&rt) {
        Ok(()) => ExitCode::SUCCESS,
        Err(_) => ExitCode::FAILURE,
    }
}

// Answers each line of standard input.
fn answer_all(rt: &HostRuntime) -> io::Result<()> {
    for line in BufReader::new(rt.alloc(), rt.reader())?.lines(rt.alloc()) {
        let answer = answer_to(rt.alloc(), line?.as_str())?;
        println!(rt; "{answer}")?;
    }
    Ok(())
}

// The line for a line.
fn answer_to(alloc: Global, line: &str) -> io::Result<String> {
    let Ok(asked) = Value::from_str(alloc, line) else {
        return Ok(String::from_str(alloc, "!no JSON")?);
    };
    match shown(alloc, &asked) {
        Ok(text) => Ok(text),
        Err(fault) => Ok(format!(in alloc; "!{fault}")?),
    }
}

// What is asked for.
fn shown(alloc: Global, asked: &Value) -> Result<String, YamlFault> {
    if let Some(text) = asked.as_str() {
        return documents(alloc, text.as_bytes());
    }
    if let Some(list) = asked.as_array() {
        return place(alloc, list.as_slice());
    }
    if let Some(text) = asked.get("one").and_then(|text| text.as_str()) {
        return Ok(read_one(alloc, text.as_bytes())?.to_string(alloc)?);
    }
    if let Some(text) = asked.get("either").and_then(|text| text.as_str()) {
        return either(alloc, text.as_bytes());
    }
    let hexadecimal = asked.get("bytes").and_then(|text| text.as_str());
    let bytes = bytes_of(alloc, hexadecimal.unwrap_or("").as_bytes())?;
    documents(alloc, bytes.as_slice())
}

// The documents of a text.
fn documents(alloc: Global, bytes: &[u8]) -> Result<String, YamlFault> {
    let documents = read_documents(alloc, bytes)?;
    let mut text = String::from_str(alloc, "[")?;
    for (index, document) in documents.iter().enumerate() {
        if index > 0 {
            text.push_str(",")?;
        }
        push_document(alloc, &mut text, document)?;
    }
    text.push_str("]")?;
    Ok(text)
}

// Appends a document: its first line and its value, in a list.
fn push_document(alloc: Global, text: &mut String, document: &Document) -> Result<(), YamlFault> {
    let value = document.value.to_string(alloc)?;
    write!(text, "[{},{value}]", document.line)?;
    Ok(())
}

// The value of a text. The two calls that read it agree on it.
fn either(alloc: Global, bytes: &[u8]) -> Result<String, YamlFault> {
    let value = read_json_or_yaml(alloc, bytes)?.to_string(alloc)?;
    match json_of(alloc, bytes)? {
        Some(json) if json != value => Ok(String::from_str(alloc, "!two values")?),
        _ => Ok(value),
    }
}

// The line and column of a part.
fn place(alloc: Global, list: &[Value]) -> Result<String, YamlFault> {
    let text = list.first().and_then(|text| text.as_str()).unwrap_or("");
    let line = list.get(1).and_then(|line| line.as_u64()).unwrap_or(1) as usize;
    let mut steps = Vec::new(alloc);
    for step in list.iter().skip(2) {
        steps.push(step_of(step))?;
    }
    let Place { line, column } = place_of(alloc, text.as_bytes(), line, steps.as_slice())?;
    Ok(format!(in alloc; "{line}:{column}")?)
}

// The step that this value is: a text is a key, a number is a place of a sequence.
fn step_of(step: &Value) -> PathStep<'_> {
    match step.as_str() {
        Some(key) => PathStep::Key(key),
        None => PathStep::Entry(step.as_u64().unwrap_or(0) as usize),
    }
}

// The bytes that hexadecimal digits spell, two digits each.
fn bytes_of(alloc: Global, digits: &[u8]) -> Result<Vec<u8>, YamlFault> {
    let mut bytes = Vec::new(alloc);
    for pair in digits.chunks(2) {
        bytes.push(digit(pair.first()) << 4 | digit(pair.get(1)))?;
    }
    Ok(bytes)
}

// What a hexadecimal digit stands for.
fn digit(digit: Option<&u8>) -> u8 {
    match digit {
        Some(digit) => (char::from(*digit).to_digit(16).unwrap_or(0) & 15) as u8,
        None => 0,
    }
}
