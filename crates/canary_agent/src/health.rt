//! The file that is touched each round.
use std::fs::{self, File, OpenOptions};
use std::io::{self, ErrorKind};
use std::os::unix::fs::{MetadataExt, OpenOptionsExt};
use std::time::SystemTime;

// For the owner alone.
const MODE: u32 = 0o600;

/// Touches the file of this name: makes it, for its owner alone, if there is none; else it has the
/// present time as that of its last change. No link is followed.
///
/// # Errors
/// What the system answers; `InvalidInput` if it is no regular file.
pub(crate) fn touch(rt: &HostRuntime, name: &str) -> io::Result<()> {
    match fs::symlink_metadata(rt, name) {
        Ok(found) if found.is_file() => touch_same(rt, name, found.dev(), found.ino()),
        Ok(_) => Err(ErrorKind::InvalidInput.into()),
        Err(error) if error.kind() == ErrorKind::NotFound => make(rt, name),
        Err(error) => Err(error),
    }
}

// Another file may have taken the name meanwhile, or a link. It is opened to be read, too, since an
// open of a FIFO waits for a reader else.
fn touch_same(rt: &HostRuntime, name: &str, device: u64, node: u64) -> io::Result<()> {
    let file = OpenOptions::new().read(true).write(true).open(rt, name)?;
    let found = file.metadata()?;
    if found.dev() != device || found.ino() != node {
        return Err(ErrorKind::InvalidInput.into());
    }
    file.set_modified(SystemTime::now(rt)?)
}

// Makes the file, empty and for its owner alone; an error if there is one by now.
fn make(rt: &HostRuntime, name: &str) -> io::Result<()> {
    let _: File = OpenOptions::new()
        .write(true)
        .create_new(true)
        .mode(MODE)
        .open(rt, name)?;
    Ok(())
}
