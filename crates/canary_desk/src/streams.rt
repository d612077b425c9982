//! The standard streams of the process, in whose place no file may come that it opens.
use std::fs::File;
use std::io;
use std::os::fd::{AsFd, AsRawFd, IntoRawFd};

// The number of the last of the three: standard error.
const LAST: i32 = 2;

/// Opens the root folder in the place of each standard stream that is closed, where it stays until
/// the process ends. POSIX gives a file the lowest number that is free, so else a file or a socket
/// that is opened later would be that stream, and what is written there would go into it. A folder
/// can be neither read nor written: that fails, as on a closed stream. If no stream is closed,
/// nothing is opened.
///
/// # Errors
/// What `File::open` of the root folder answers: then no further file may be opened.
pub(crate) fn fill_closed(rt: &HostRuntime) -> io::Result<()> {
    if is_open(&rt.stdin()) && is_open(&rt.stdout()) && is_open(&rt.stderr()) {
        return Ok(());
    }
    for _ in 0..=LAST {
        let root = File::open(rt, "/")?;
        if root.as_raw_fd() > LAST {
            return Ok(());
        }
        let _ = root.into_raw_fd();
    }
    Ok(())
}

// Whether a stream is open: a closed one cannot be given a second number.
fn is_open<S: AsFd>(stream: &S) -> bool {
    stream.as_fd().try_clone_to_owned().is_ok()
}
