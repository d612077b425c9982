//! Findings, in lines.
//!
//! A finding is a line, after which more may follow that begin with four spaces: a text with a
//! caret, and what to write instead. Each is short, and there are 100 at most: those beyond are
//! counted in a last line. Warnings are such lines, too.
ghost use Rattle.std.specs.Prelude.{◌≡◌, ◌<◌, false, IfOk, IfSome, IsTrue, is_none, length};
ghost use Rattle.std.specs.Prelude.{string_bytes};

use crate::excerpt::write_excerpt;
use crate::json_place::JsonPlace;
use canary_base::error::Memory;
use std::alloc::Global;

const MAX_FINDINGS_SHOWN: u32 = 100;

// Of warnings without a line, of which there are none.
const NO_LINE: &str = "a warning\n";

const EXPECTED: &str = ": expected ";

const MISSING: &str = ": missing; expected ";

/// Findings so far. If memory is refused, that is remembered, and said at the end.
#[derive(Drop)]
pub(crate) struct Lines {
    pub(crate) alloc: Global,
    text: String,
    // How many findings the text has.
    told: u32,
    // How many came after these.
    more: u64,
    is_refused: bool,
}

impl Lines {
    /// No findings.
    pub(crate) fn new(alloc: Global) -> Lines {
        Lines {
            alloc,
            text: String::new(alloc),
            told: 0,
            more: 0,
            is_refused: false,
        }
    }

    /// Adds what is expected under a key of the object there, or with an empty key of the object
    /// itself.
    pub(crate) fn tell(&mut self, place: JsonPlace, key: &str, what: &str) {
        if self.has_room() {
            self.put_place(place, key);
            self.put_end(EXPECTED, what);
        }
    }

    /// The same of a member that is not there.
    pub(crate) fn tell_missing(&mut self, place: JsonPlace, key: &str, what: &str) {
        if self.has_room() {
            self.put_place(place, key);
            self.put_end(MISSING, what);
        }
    }

    /// Adds what is expected at a byte of the text that stands there.
    pub(crate) fn tell_byte(&mut self, place: JsonPlace, key: &str, byte: u32, what: &str) {
        if self.has_room() {
            self.put_place(place, key);
            self.put(", byte ");
            self.put_number(byte as u64);
            self.put_end(EXPECTED, what);
        }
    }

    /// Adds that a text is no JSON, at or just before this line and column, each from 1.
    pub(crate) fn tell_no_json(&mut self, line: usize, column: usize) {
        if self.has_room() {
            self.put("near line ");
            self.put_number(line as u64);
            self.put(", column ");
            self.put_number(column as u64);
            self.put_end(EXPECTED, JSON);
        }
    }

    /// Adds to the last finding the text of which it speaks, with a caret under that byte.
    pub(crate) fn quote(&mut self, text: &[u8], at: usize) {
        if self.more == 0 && write_excerpt(&mut self.text, text, at).is_err() {
            self.is_refused = true;
        }
    }

    /// Adds to the last finding what to write or to do instead.
    pub(crate) fn instead(&mut self, what: &str) {
        self.instead_in_parts(&[what]);
    }

    /// The same, if it is known.
    pub(crate) fn instead_if(&mut self, what: Option<&str>) {
        if let Some(what) = what {
            self.instead(what);
        }
    }

    /// The same, in parts that follow one another.
    pub(crate) fn instead_in_parts(&mut self, parts: &[&str]) {
        if self.more > 0 {
            return;
        }
        self.put("    instead: ");
        for part in parts {
            self.put(part);
        }
        self.put("\n");
    }

    /// Adds to the last finding how to write that number of seconds.
    pub(crate) fn instead_in_seconds(&mut self, seconds: u64) {
        if self.more > 0 {
            return;
        }
        self.put("    instead: write \"");
        self.put_number(seconds);
        self.put("s\"\n");
    }

    /// Adds a warning of the member under a key of the object there, or with an empty key of the
    /// object itself.
    pub(crate) fn warn(&mut self, place: JsonPlace, key: &str, what: &str)
        ensures { 0 < self.new.told }
    {
        if self.has_room() {
            self.put_place(place, key);
            self.put_end(": ", what);
        }
    }

    /// The same, in words that were made, if memory was not refused for them.
    pub(crate) fn warn_made(&mut self, place: JsonPlace, key: &str, what: Result<String, Memory>)
        ensures { 0 < self.new.told }
    {
        match what {
            Ok(what) => self.warn(place, key, what.as_str()),
            Err(_) => {
                self.is_refused = true;
                self.warn(place, key, "");
            }
        }
    }

    /// Whether that is so. If memory was refused to find out, it is not, and that is remembered.
    pub(crate) fn holds(&mut self, answer: Result<bool, Memory>) -> bool {
        match answer {
            Ok(holds) => holds,
            Err(_) => {
                self.is_refused = true;
                false
            }
        }
    }

    /// Remembers that memory was refused.
    pub(crate) fn refuse(&mut self) {
        self.is_refused = true;
    }

    /// The findings, with a general one in place of none; or `Memory`. They are never as short as
    /// `ok` is.
    pub(crate) fn finish(self, general: &str) -> Result<String, Memory>
        requires { 3 < length general.now }
        ensures long { IfOk result (λ text. 3 < length (string_bytes text)) }
        ensures kept { IfOk result (λ _. self.is_refused ≡ false) }
    {
        let alloc = self.alloc;
        let text = self.with_more()?;
        if text.len() > 3 {
            return Ok(text);
        }
        Ok(String::from_str(alloc, general)?)
    }

    /// The warnings, if there are any; or `Memory`. They are never as short as `ok` is.
    pub(crate) fn warnings(self) -> Result<Option<String>, Memory>
        ensures kept { IfOk result (λ _. self.is_refused ≡ false) }
        ensures long { IfOk result (λ text. IfSome text (λ t. 3 < length (string_bytes t))) }
        ensures none { IfOk result (λ text. IsTrue (is_none text) → self.told ≡ 0) }
    {
        if self.is_refused {
            return Err(Memory);
        }
        if self.told == 0 {
            return Ok(None);
        }
        Ok(Some(self.finish(NO_LINE)?))
    }

    // The lines, and a last one that counts what was left out.
    fn with_more(mut self) -> Result<String, Memory>
        ensures { IfOk result (λ _. self.is_refused ≡ false) }
    {
        let more = self.more;
        if more > 0 {
            self.put("and ");
            self.put_number(more);
            self.put(" more\n");
        }
        if self.is_refused {
            return Err(Memory);
        }
        Ok(self.text)
    }

    // Whether a finding more is shown; else it is counted alone.
    fn has_room(&mut self) -> bool
        ensures { 0 < self.new.told }
    {
        if self.told < MAX_FINDINGS_SHOWN {
            self.told += 1;
            return true;
        }
        self.more = self.more.saturating_add(1);
        false
    }

    // ---- parts of a line, which count no finding

    // Ends a line that has its place: `front` introduces `what`.
    fn put_end(&mut self, front: &str, what: &str)
        ensures { self.new.told ≡ self.old.told }
    {
        self.put(front);
        self.put(what);
        self.put("\n");
    }

    // Where the member under that key is, or with an empty key the object itself.
    fn put_place(&mut self, place: JsonPlace, key: &str)
        ensures { self.new.told ≡ self.old.told }
    {
        let is_behind = self.put_key(false, place.root);
        let is_behind = self.put_key(is_behind, place.outer);
        let is_behind = self.put_key(is_behind, place.part);
        let is_behind = self.put_item(is_behind, place.list, place.index);
        let is_behind = self.put_key(is_behind, place.inner);
        let is_behind = self.put_item(is_behind, place.inner_list, place.inner_index);
        self.put_key(is_behind, key);
        self.put_whose(place.metric);
    }

    // That key, if there is one, after others or not; whether there is any so far.
    fn put_key(&mut self, is_behind: bool, key: &str) -> bool
        ensures { self.new.told ≡ self.old.told }
    {
        if key.is_empty() {
            return is_behind;
        }
        if is_behind {
            self.put(".");
        }
        self.put(key);
        true
    }

    // The same of an item of the list under that key.
    fn put_item(&mut self, is_behind: bool, key: &str, index: usize) -> bool
        ensures { self.new.told ≡ self.old.told }
    {
        if key.is_empty() {
            return is_behind;
        }
        self.put_key(is_behind, key);
        self.put("[");
        self.put_number(index as u64);
        self.put("]");
        true
    }

    // Whose it is, if it is of a metric that has a name.
    fn put_whose(&mut self, metric: &str)
        ensures { self.new.told ≡ self.old.told }
    {
        if !metric.is_empty() {
            self.put(" (metric \"");
            self.put(metric);
            self.put("\")");
        }
    }

    // A number.
    fn put_number(&mut self, number: u64)
        ensures told { self.new.told ≡ self.old.told }
        ensures kept { self.new.is_refused ≡ false → self.old.is_refused ≡ false }
    {
        if write!(self.text, "{number}").is_err() {
            self.is_refused = true;
        }
    }

    // A text.
    fn put(&mut self, text: &str)
        ensures told { self.new.told ≡ self.old.told }
        ensures kept { self.new.is_refused ≡ false → self.old.is_refused ≡ false }
    {
        if self.text.push_str(text).is_err() {
            self.is_refused = true;
        }
    }
}

const JSON: &str = "JSON in UTF-8, with arrays and objects nested at most 127 deep";
