//! What is reported of connections that ended with a fault.
use canary_wire::conversation::Cause;
use std::alloc::Global;
use std::io::Write;
use std::net::IpAddr;

// The most different lines of one second.
const MAX_LINES_A_SECOND: usize = 64;

// The faults of connections at one address, of one kind.
#[derive(Clone, Copy, Debug)]
struct Line {
    word: &'static str,
    address: IpAddr,
    times: u64,
}

// The lines that were not written yet, and how many were dropped since a line was written. They are
// written once a second.
#[derive(Drop)]
pub(crate) struct Reports {
    alloc: Global,
    lines: Vec<Line>,
    dropped: u64,
}

impl Reports {
    // None.
    pub(crate) fn new(alloc: Global) -> Reports {
        Reports {
            alloc,
            lines: Vec::new(alloc),
            dropped: 0,
        }
    }

    // Notes why the connection of a client at that address ended, if that is a fault. A line for
    // which there is no memory, or that is one too many in its second, is dropped.
    pub(crate) fn note(&mut self, cause: Cause, address: IpAddr) {
        let Some(word) = word_of(cause) else {
            return;
        };
        'lines: for line in self.lines.iter_mut() {
            if line.word == word && line.address == address {
                line.times = line.times.saturating_add(1);
                return;
            }
        }
        let line = Line {
            word,
            address,
            times: 1,
        };
        if self.lines.len() >= MAX_LINES_A_SECOND || self.lines.push(line).is_err() {
            self.dropped = self.dropped.saturating_add(1);
        }
    }

    // Writes what was noted. What the writer does not take at once is dropped, and counted.
    pub(crate) fn write_all<F: Write>(&mut self, errors: &mut F) {
        self.write_dropped(errors);
        'lines: for line in self.lines.iter() {
            if !is_written(self.alloc, *line, errors) {
                self.dropped = self.dropped.saturating_add(line.times);
            }
        }
        self.lines.clear();
    }

    // Writes how many lines were dropped, if any were.
    fn write_dropped<F: Write>(&mut self, errors: &mut F) {
        let dropped = self.dropped;
        if dropped == 0 {
            return;
        }
        let Ok(text) = format!(in self.alloc; "canary: {dropped} lines dropped\n") else {
            return;
        };
        if takes(text.as_bytes(), errors) {
            self.dropped = 0;
        }
    }
}

// Whether the writer took the whole line at once.
fn is_written<F: Write>(alloc: Global, line: Line, errors: &mut F) -> bool {
    let (word, address, times) = (line.word, line.address, line.times);
    let text = if times == 1 {
        format!(in alloc; "canary: {word} {address}\n")
    } else {
        format!(in alloc; "canary: {word} {address} ({times} times)\n")
    };
    match text {
        Ok(text) => takes(text.as_bytes(), errors),
        Err(_) => false,
    }
}

// Whether the writer took all of these bytes by one write.
fn takes<F: Write>(bytes: &[u8], errors: &mut F) -> bool {
    match errors.write(bytes) {
        Ok(n) => n == bytes.len(),
        Err(_) => false,
    }
}

// The word for why a connection ended; none if that is no fault.
fn word_of(cause: Cause) -> Option<&'static str> {
    match cause {
        Cause::EndOfInput => None,
        Cause::Truncated => Some("truncated"),
        Cause::Read => Some("read"),
        Cause::Write => Some("write"),
        Cause::Memory => Some("memory"),
    }
}
