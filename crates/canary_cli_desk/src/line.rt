//! The line in which a program shows how far it is.
use canary_listen::unblocked::Unblocked;
use std::io::Write;

/// The bytes of one megabyte.
pub(crate) const MEGABYTE: u64 = 1_000_000;

/// How many seconds pass before the first line if there is no terminal, and between two of them.
pub(crate) const LINE_SECONDS: u64 = 1;

// Erases the line in which the cursor stands.
const ERASED: &str = "\r\x1b[K";

/// Writes a text to the standard error of the process. A fault of the stream is ignored.
pub(crate) fn write<F: Write>(errors: &mut F, text: &str) {
    let _ = errors.write_all(text.as_bytes());
    let _ = errors.flush();
}

/// Writes a text to the standard error of the process, unless that would wait. A fault of the
/// stream is ignored.
pub(crate) fn write_unblocked<F: Write>(rt: &HostRuntime, errors: &mut F, text: &str) {
    write(&mut Unblocked::new(rt, errors), text);
}

/// Erases the line of a terminal in which the cursor stands. A fault of it is ignored.
pub(crate) fn erase<F: Write>(errors: &mut F) {
    write(errors, ERASED);
}
