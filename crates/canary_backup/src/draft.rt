//! A file that has its name once it is whole.
use crate::copying::{file_fault, header};
use crate::fault::BackupFault;
use crate::node::{Node, is_own, random, sync_folder};
use std::fs::{self, File, OpenOptions, Permissions};
use std::os::unix::fs::{MetadataExt, OpenOptionsExt, PermissionsExt};
use std::{io, process};

// A file that its owner alone may read and write.
const OWNER_ALONE: u32 = 0o600;

// What a new file asks for, before the mask of the process takes some of it.
const ASKED: u32 = 0o666;

// Who may read, write and run a file, of its mode.
const PERMISSION_BITS: u32 = 0o777;

// Where the system says what the mask of the process is, and the word before it.
const OWN_STATUS: &str = "/proc/self/status";

const MASK: &str = "\nUmask:";

// The first bytes of a database of SQLite, and of a log of one.
const DATABASE: &[u8] = b"SQLite format 3\0";

const LOG: &[u8] = b"\x37\x7f\x06";

// Where the system keeps links that are not links, but open files.
const OPEN_FILES: &str = "/proc/";

/// A new file that nobody but its owner may read until it has its name.
#[derive(Drop)]
pub struct Draft {
    file: File,
    name: String,
    to: String,
    mode: u32,
}

impl Draft {
    /// Makes the file `to`.part-PROCESS-RANDOM, which will be named `to`, with mode 0600.
    ///
    /// # Errors
    /// `File` if something other than a file stands at `to`, or a link that leads to one or to an
    /// open file of a process (/dev/stdout), if a database of SQLite or a log of one stands there,
    /// which may be another desk's, or if no file can be made beside it; `Memory` if an
    /// allocation was refused. Nothing is made then.
    pub fn of(rt: &HostRuntime, to: &str) -> Result<Draft, BackupFault> {
        if !may_be_replaced(rt, to)? {
            return Err(BackupFault::File);
        }
        let mode = mode_to_be(rt, to)?;
        let (process, random) = (process::id(rt.process()), random(rt)?);
        let name = format!(in rt.alloc(); "{to}.part-{process}-{random:016x}")?;
        let to = String::from_str(rt.alloc(), to)?;
        let file = match make(rt, name.as_str(), mode) {
            Ok(file) => file,
            Err(error) => return Err(file_fault(error.kind())),
        };
        let Ok(mode) = shut(&file, mode) else {
            let _ = fs::remove_file(rt, name.as_str());
            return Err(BackupFault::File);
        };
        Ok(Draft {
            file,
            name,
            to,
            mode,
        })
    }

    /// What it holds.
    pub fn file(&mut self) -> &mut File {
        &mut self.file
    }

    /// Gives it its name, once it is on the disk, in the place of what stands there; if that is a
    /// link, in the place of the link. It has the mode of the file that it replaces, if that is
    /// this user's; else that of a new file, by the process's mask.
    ///
    /// # Errors
    /// `File` if the disk fails, or if it cannot have its name. If only the folder could not be
    /// synced, it has its name.
    pub fn name(&self, rt: &HostRuntime) -> Result<(), BackupFault> {
        match self.take_name(rt) {
            Ok(()) => Ok(()),
            Err(_) => Err(BackupFault::File),
        }
    }

    // Sets the mode, syncs the file and renames it, unless its first name is another file's by now.
    fn take_name(&self, rt: &HostRuntime) -> io::Result<()> {
        self.file
            .set_permissions(Permissions::from_mode(self.mode))?;
        self.file.sync_all()?;
        if !Node::of(&self.file.metadata()?).is_at(rt, self.name.as_str()) {
            return Err(io::ErrorKind::NotFound.into());
        }
        fs::rename(rt, self.name.as_str(), self.to.as_str())?;
        sync_folder(rt, self.to.as_str())
    }

    /// Removes it, if it does not have its name.
    pub fn remove(&self, rt: &HostRuntime) {
        let _ = fs::remove_file(rt, self.name.as_str());
    }
}

// Whether nothing stands at this name, or a file that is no database, or a link that leads to a
// file or to nothing.
fn may_be_replaced(rt: &HostRuntime, name: &str) -> Result<bool, BackupFault> {
    match fs::metadata(rt, name) {
        Ok(found) if found.is_file() => {
            Ok(!leads_to_open_file(rt, name)? && !is_of_database(rt, name)?)
        }
        Ok(_) => Ok(false),
        Err(error) => Ok(error.kind() == io::ErrorKind::NotFound),
    }
}

// Whether the file of this name begins as a database of SQLite does, or as a log of one, as far as
// it can be read. A link to one is replaced, and not the file.
fn is_of_database(rt: &HostRuntime, name: &str) -> Result<bool, BackupFault> {
    match header(rt, name) {
        Ok(bytes) => Ok(begins_database(bytes.as_slice())),
        Err(BackupFault::Memory) => Err(BackupFault::Memory),
        Err(_) => Ok(false),
    }
}

// Whether a file that begins with these bytes is a database, or a log.
fn begins_database(bytes: &[u8]) -> bool {
    bytes.starts_with(DATABASE) || bytes.starts_with(LOG)
}

// Whether this name is a link whose next target is in /proc, as the open files of processes are.
fn leads_to_open_file(rt: &HostRuntime, name: &str) -> Result<bool, BackupFault> {
    match fs::read_link(rt, name) {
        Ok(next) => Ok(next.as_str().starts_with(OPEN_FILES)),
        Err(error) if error.kind() == io::ErrorKind::OutOfMemory => Err(BackupFault::Memory),
        Err(_) => Ok(false),
    }
}

// The mode of a file that is given this name; none if it is that of a new file, and the system does
// not say which this is.
fn mode_to_be(rt: &HostRuntime, name: &str) -> Result<Option<u32>, BackupFault> {
    match fs::symlink_metadata(rt, name) {
        Ok(found) if found.is_file() && is_own(&found) => Ok(Some(found.mode() & PERMISSION_BITS)),
        _ => mode_of_new(rt),
    }
}

// What the mask of the process, as the system says it, leaves of the mode that new files ask for.
fn mode_of_new(rt: &HostRuntime) -> Result<Option<u32>, BackupFault> {
    match fs::read_to_string(rt, OWN_STATUS) {
        Ok(text) => match mask_in(text.as_str()) {
            Some(mask) => Ok(Some(ASKED & !mask)),
            None => Ok(None),
        },
        Err(error) if error.kind() == io::ErrorKind::OutOfMemory => Err(BackupFault::Memory),
        Err(_) => Ok(None),
    }
}

// What the system says of a process has a line with its mask in octal.
fn mask_in(text: &str) -> Option<u32> {
    let (_, rest) = text.split_once(MASK)?;
    let mask = rest.lines().next()?;
    u32::from_str_radix(mask.trim(), 8).ok()
}

// Makes a new file of this name. Its mode shows the mask of the process if that is not known yet.
fn make(rt: &HostRuntime, name: &str, mode: Option<u32>) -> io::Result<File> {
    let asked = if mode.is_some() { OWNER_ALONE } else { ASKED };
    OpenOptions::new()
        .write(true)
        .create_new(true)
        .mode(asked)
        .open(rt, name)
}

// Shuts a new file, which has no bytes yet, to all but its owner. Returns the mode that it will
// have: that with which it was made if none is known.
fn shut(file: &File, mode: Option<u32>) -> io::Result<u32> {
    let made = file.metadata()?.mode() & PERMISSION_BITS;
    file.set_permissions(Permissions::from_mode(OWNER_ALONE))?;
    Ok(mode.unwrap_or(made))
}
