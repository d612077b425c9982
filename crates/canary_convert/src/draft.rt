//! A text that is being written.
//!
//! What writes it has no exits: it remembers that memory was refused, and says so at its end.
ghost use Rattle.std.specs.Prelude.{◌≡◌, ◌++◌, true, false, IfOk, IfErr, string_bytes};

use canary_base::error::Memory;
use serde_json::Value;
use std::alloc::Global;

/// A text that is being written. Once memory was refused, it is of no use, and its end says so.
#[derive(Drop)]
pub(crate) struct Draft {
    pub(crate) alloc: Global,
    text: String,
    is_refused: bool,
}

impl Draft {
    /// An empty one.
    pub(crate) fn new(alloc: Global) -> Draft {
        Draft {
            alloc,
            text: String::new(alloc),
            is_refused: false,
        }
    }

    /// What is written so far.
    pub(crate) fn as_str(&self) -> &str {
        self.text.as_str()
    }

    /// Appends a text.
    pub(crate) fn put(&mut self, text: &str)
        ensures { self.new.is_refused ≡ false → (self.old.is_refused ≡ false)
            × (string_bytes self.new.text ≡ string_bytes self.old.text ++ text.now) }
    {
        if !self.is_refused && self.text.push_str(text).is_err() {
            self.is_refused = true;
        }
    }

    /// Appends a text that was made, or remembers that it was not.
    pub(crate) fn put_made(&mut self, made: Result<String, Memory>)
        ensures kept { self.new.is_refused ≡ false → self.old.is_refused ≡ false }
        ensures refused { IfErr made (λ _. self.new.is_refused ≡ true) }
        ensures put { IfOk made (λ text. self.new.is_refused ≡ false
            → string_bytes self.new.text ≡ string_bytes self.old.text ++ string_bytes text) }
    {
        match made {
            Ok(text) => self.put(text.as_str()),
            Err(_) => self.refuse(),
        }
    }

    /// Appends a value as JSON.
    pub(crate) fn put_value(&mut self, value: &Value)
        ensures { self.new.is_refused ≡ false → self.old.is_refused ≡ false }
    {
        match value.to_string(self.alloc) {
            Ok(text) => self.put(text.as_str()),
            Err(_) => self.refuse(),
        }
    }

    /// Appends an index in square brackets, if there is one.
    pub(crate) fn put_index(&mut self, index: Option<usize>)
        ensures { self.new.is_refused ≡ false → self.old.is_refused ≡ false }
    {
        if let Some(index) = index {
            if write!(self.text, "[{index}]").is_err() {
                self.is_refused = true;
            }
        }
    }

    /// Appends a text, with its control characters as their codes.
    pub(crate) fn put_plain(&mut self, text: &str)
        ensures { self.new.is_refused ≡ false → self.old.is_refused ≡ false }
    {
        if push_plain(&mut self.text, text).is_err() {
            self.is_refused = true;
        }
    }

    /// Remembers that memory was refused.
    pub(crate) fn refuse(&mut self)
        ensures { self.new.is_refused ≡ true }
    {
        self.is_refused = true;
    }

    /// The text, or `Memory` if that was refused since it was begun.
    pub(crate) fn end(self) -> Result<String, Memory>
        ensures { IfOk result (λ text. (self.is_refused ≡ false)
            × (string_bytes text ≡ string_bytes self.text)) }
    {
        if self.is_refused {
            return Err(Memory);
        }
        Ok(self.text)
    }
}

// Appends a text, with its control characters as their codes.
fn push_plain(out: &mut String, text: &str) -> Result<(), Memory> {
    for letter in text.chars() {
        if letter.is_control() {
            write!(out, "\\u{:04x}", letter as u32)?;
        } else {
            out.push(letter)?;
        }
    }
    Ok(())
}
