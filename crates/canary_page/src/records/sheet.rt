//! A text in JSON (RFC 8259), token after token.
use crate::fault::PageFault;
use canary_base::error::Memory;
use canary_base::moments::Moment;
use canary_base::writing::write_all;
use canary_plan::line::Line;
use json::Writer;
use std::alloc::{AllocError, Global};
use std::io::Write;

/// A part of a text in JSON. Texts in it are escaped, and the commas between its values are its
/// own. If memory ran out, it cannot be put anywhere.
#[derive(Drop)]
pub(crate) struct Sheet {
    alloc: Global,
    writer: Writer,
    has_failed: bool,
}

impl Sheet {
    // An empty one, which goes on after a value if it is a later one, and else begins one.
    pub(crate) fn new(alloc: Global, is_later: bool) -> Sheet {
        match begun(alloc, is_later) {
            Ok(bytes) => Sheet::of(alloc, bytes, false),
            Err(_) => Sheet::of(alloc, Vec::new(alloc), true),
        }
    }

    // A sheet that goes on after these bytes, or one that has failed.
    fn of(alloc: Global, bytes: Vec<u8>, has_failed: bool) -> Sheet {
        Sheet {
            alloc,
            writer: Writer::new(bytes),
            has_failed,
        }
    }

    // Takes note of whether a token was written.
    fn note(&mut self, written: Result<(), AllocError>) {
        self.has_failed = self.has_failed || written.is_err();
    }

    /// Nothing of it is put anywhere.
    pub(crate) fn fail(&mut self) {
        self.has_failed = true;
    }

    /// The allocator of its bytes.
    pub(crate) fn alloc(&self) -> Global {
        self.alloc
    }

    /// An object begins.
    pub(crate) fn begin(&mut self) {
        let written = self.writer.begin_object();
        self.note(written);
    }

    /// It ends.
    pub(crate) fn end(&mut self) {
        let written = self.writer.end_object();
        self.note(written);
    }

    /// A list begins.
    pub(crate) fn begin_list(&mut self) {
        let written = self.writer.begin_array();
        self.note(written);
    }

    /// It ends.
    pub(crate) fn end_list(&mut self) {
        let written = self.writer.end_array();
        self.note(written);
    }

    /// The key of the next value.
    pub(crate) fn key(&mut self, key: &str) {
        let written = self.writer.key(key);
        self.note(written);
    }

    /// A text.
    pub(crate) fn text(&mut self, text: &str) {
        let written = self.writer.string(text);
        self.note(written);
    }

    /// A whole number, in decimal.
    pub(crate) fn signed(&mut self, number: i64) {
        let written = self.writer.i64(number);
        self.note(written);
    }

    /// The same, from 0 on.
    pub(crate) fn number(&mut self, number: u64) {
        let written = self.writer.u64(number);
        self.note(written);
    }

    /// A truth value.
    pub(crate) fn flag(&mut self, is_so: bool) {
        let written = self.writer.boolean(is_so);
        self.note(written);
    }

    /// No value.
    pub(crate) fn null(&mut self) {
        let written = self.writer.null();
        self.note(written);
    }

    // Its bytes, or `Memory` if it has failed.
    fn bytes(self) -> Result<Vec<u8>, Memory> {
        let Sheet {
            writer,
            has_failed,
            ..
        } = self;
        if has_failed {
            return Err(Memory);
        }
        Ok(writer.into_inner())
    }
}

impl Sheet {
    /// A member with a text.
    pub(crate) fn text_at(&mut self, key: &str, text: &str) {
        self.key(key);
        self.text(text);
    }

    /// A member with a number.
    pub(crate) fn number_at(&mut self, key: &str, number: u32) {
        self.key(key);
        self.number(u64::from(number));
    }

    /// A member with a number, or null if there is none.
    pub(crate) fn found_at(&mut self, key: &str, number: Option<u32>) {
        self.key(key);
        match number {
            Some(number) => self.number(u64::from(number)),
            None => self.null(),
        }
    }

    /// A member with a moment, in seconds since 1970-01-01T00:00:00Z, or null if there is none.
    pub(crate) fn moment_at(&mut self, key: &str, moment: Option<Moment>) {
        self.key(key);
        match moment {
            Some(moment) => self.number(moment.get()),
            None => self.null(),
        }
    }

    /// A member with a truth value.
    pub(crate) fn flag_at(&mut self, key: &str, is_so: bool) {
        self.key(key);
        self.flag(is_so);
    }

    /// A line of a history.
    pub(crate) fn line(&mut self, line: &Line) {
        self.begin();
        self.key("event");
        self.words(line);
        self.moment_at("moment", Some(line.moment));
        self.end();
    }

    // The words of a line.
    fn words(&mut self, line: &Line) {
        let mut text = String::new(self.alloc);
        match line.words(&mut text) {
            Ok(()) => self.text(text.as_str()),
            Err(_) => self.fail(),
        }
    }
}

// What stands before the first token: a comma after a value.
fn begun(alloc: Global, is_later: bool) -> Result<Vec<u8>, AllocError> {
    let mut bytes = Vec::new(alloc);
    if is_later {
        bytes.push(b',')?;
    }
    Ok(bytes)
}

/// Writes a part of a text.
///
/// # Errors
/// `Memory` if memory ran out while it was made, and nothing is written then; `Write` if the output
/// failed.
pub(crate) fn put<W: Write>(sheet: Sheet, out: &mut W) -> Result<(), PageFault> {
    let bytes = sheet.bytes()?;
    match write_all(out, bytes.as_slice()) {
        Ok(()) => Ok(()),
        Err(_) => Err(PageFault::Write),
    }
}
