//! A folder of copies, each under the moment at which it began, of which the oldest are removed.
//!
//! Of an old copy the database's own file goes first, and its log once that is on the disk: so a
//! process, or the power, that ends between leaves a log alone, which no desk takes for a copy. A
//! database without its log would be an older desk. A log that is alone is removed the next time,
//! once as many copies as are kept are later than it: while another process makes a copy, its log
//! is there before the database, too, but has a second name until both are.
ghost use Rattle.std.specs.Prelude.{◌≡◌, IfOk, IsTrue, string_bytes};
ghost use Rattle.std.specs.Cmp.Lexicographic.{pointwise};
ghost use Rattle.canary_backup.specs.Series.{fits, is_copy_name};

use crate::copying::Pair;
use crate::fault::BackupFault;
use crate::node::{is_own, sync_folder};
use std::alloc::{AllocError, Global};
use std::fs::{self, DirEntry, Metadata};
use std::io::{self, ErrorKind};
use std::os::unix::fs::MetadataExt;

// The name of a copy, with `0` for each digit.
const SHAPE: &str = "desk-00000000T000000Z.db";

// What the name of a log has more than that of its database.
const LOG: &str = "-wal";

/// The name of the copy that begins at a moment, which is given as RFC 3339 writes it in UTC, in
/// whole seconds: `desk-YYYYMMDDTHHMMSSZ.db`.
///
/// # Errors
/// `Memory` if an allocation was refused; `File` if this is no such moment.
pub fn name_at(alloc: Global, moment: &str) -> Result<String, BackupFault>
    ensures { IfOk result (λ name. IsTrue (is_copy_name (string_bytes name))) }
{
    checked(name_of(alloc, moment)?)
}

// The name of a copy with the signs of that text, but its hyphens and colons. It may be invalid.
fn name_of(alloc: Global, moment: &str) -> Result<String, BackupFault> {
    let mut name = String::from_str(alloc, "desk-")?;
    for letter in moment.chars() {
        if letter != '-' && letter != ':' {
            name.push(letter)?;
        }
    }
    name.push_str(".db")?;
    Ok(name)
}

// The name, if it is read as that of a copy.
fn checked(name: String) -> Result<String, BackupFault>
    ensures { IfOk result (λ name. IsTrue (is_copy_name (string_bytes name))) }
{
    if is_copy_name(name.as_str()) {
        Ok(name)
    } else {
        Err(BackupFault::File)
    }
}

// Whether a name is that of a copy: `desk-YYYYMMDDTHHMMSSZ.db`.
fn is_copy_name(name: &str) -> bool
    ensures { result ≡ is_copy_name name.now }
{
    is_of_shape(SHAPE.as_bytes(), name.as_bytes())
}

// Whether the bytes have this shape.
fn is_of_shape(shape: &[u8], bytes: &[u8]) -> bool
    ensures { result ≡ pointwise fits shape.now bytes.now }
{
    let (Some((first, shapes)), Some((byte, rest))) = (shape.split_first(), bytes.split_first())
    else {
        return shape.is_empty() && bytes.is_empty();
    };
    fits(*first, *byte) && is_of_shape(shapes, rest)
}

// Whether the byte is any digit, where the shape has a zero, and else the same byte.
fn fits(shape: u8, byte: u8) -> bool
    ensures { result ≡ fits shape byte }
{
    if shape == b'0' {
        byte.is_ascii_digit()
    } else {
        shape == byte
    }
}

/// The path of what has this name in a folder.
///
/// # Errors
/// `Memory` if an allocation was refused.
pub fn path_in(alloc: Global, folder: &str, name: &str) -> Result<String, BackupFault> {
    Ok(format!(in alloc; "{folder}/{name}")?)
}

// The path of the log of a copy with this path.
fn log_of(alloc: Global, path: &str) -> Result<String, BackupFault> {
    Ok(format!(in alloc; "{path}{LOG}")?)
}

/// Whether there is a folder of this name, where all links lead.
pub fn is_folder(rt: &HostRuntime, name: &str) -> bool {
    match fs::metadata(rt, name) {
        Ok(found) => found.is_dir(),
        Err(_) => false,
    }
}

/// Whether something stands where a copy of this path, or its log, would, if only a link.
///
/// # Errors
/// `Memory` if an allocation was refused.
pub fn is_taken(rt: &HostRuntime, path: &str) -> Result<bool, BackupFault> {
    let log = log_of(rt.alloc(), path)?;
    Ok(fs::symlink_metadata(rt, path).is_ok() || fs::symlink_metadata(rt, log.as_str()).is_ok())
}

/// Removes the oldest copies of a folder, so that of those up to `newest`, a name of one, `keep`
/// are left, which is one at least; and the logs that are alone and older than these. A copy is of
/// the name `desk-YYYYMMDDTHHMMSSZ.db`, a regular file of this user's, as is its log, if that is
/// there. Whatever else is there is left alone, and so are the files of the desk `file`, and each
/// copy of a later moment than `newest`, as a clock that was set back leaves them.
///
/// # Errors
/// `File` if the folder cannot be read or synced, if a file cannot be removed, once all others are,
/// or if the desk's file is not there; `Storage` if that cannot be reached; `Memory` if an
/// allocation was refused.
pub fn prune(
    rt: &HostRuntime,
    file: &str,
    folder: &str,
    newest: &str,
    keep: u64,
) -> Result<(), BackupFault> {
    let desk = Pair::found(rt, file)?;
    let copies = copies_until(rt, folder, newest)?;
    prune_listed(rt, &desk, folder, copies.as_slice(), keep)
}

// Removes all but the last `keep` of these copies, which are sorted, and the lone older logs.
fn prune_listed(
    rt: &HostRuntime,
    desk: &Pair,
    folder: &str,
    copies: &[String],
    keep: u64,
) -> Result<(), BackupFault> {
    let Some((old, oldest)) = split_at_kept(copies, keep) else {
        return Ok(());
    };
    let are_removed = remove_databases(rt, desk, folder, old)?;
    sync(rt, folder, oldest)?;
    let are_logs_removed = remove_logs(rt, desk, folder, oldest)?;
    if are_removed && are_logs_removed {
        Ok(())
    } else {
        Err(BackupFault::File)
    }
}

// The names of the copies that are to go, and the oldest one of those that are kept; none if there
// are fewer than these.
fn split_at_kept(copies: &[String], keep: u64) -> Option<(&[String], &str)> {
    let keep = usize::try_from(keep.max(1)).ok()?;
    let first = copies.len().checked_sub(keep)?;
    Some((copies.get(..first)?, copies.get(first)?.as_str()))
}

// The names of the copies in a folder up to this one, the oldest first.
fn copies_until(rt: &HostRuntime, folder: &str, newest: &str) -> Result<Vec<String>, BackupFault> {
    let mut names = Vec::new(rt.alloc());
    list_copies(rt, folder, newest, &mut names)?;
    names.sort()?;
    Ok(names)
}

// Adds the names of these copies, in any order.
fn list_copies(
    rt: &HostRuntime,
    folder: &str,
    newest: &str,
    names: &mut Vec<String>,
) -> Result<(), BackupFault> {
    let entries = listed(fs::read_dir(rt, folder))?;
    for entry in entries {
        note_entry(rt, entry, newest, names)?;
    }
    Ok(())
}

// Adds the name of an entry of the folder, if it is such a copy.
fn note_entry(
    rt: &HostRuntime,
    entry: io::Result<DirEntry>,
    newest: &str,
    names: &mut Vec<String>,
) -> Result<(), BackupFault> {
    let found = known(entry)?;
    match &found {
        Some(entry) => note_copy(rt, entry, newest, names),
        None => Ok(()),
    }
}

// The same of an entry whose name is known.
fn note_copy(
    rt: &HostRuntime,
    entry: &DirEntry,
    newest: &str,
    names: &mut Vec<String>,
) -> Result<(), BackupFault> {
    if is_copy_until(rt, entry, newest)? {
        keep_name(names, rt.alloc(), entry.file_name())?;
    }
    Ok(())
}

// Adds a copy of this name, since the entry that has it goes.
fn keep_name(names: &mut Vec<String>, alloc: Global, name: &str) -> Result<(), AllocError> {
    names.push(String::from_str(alloc, name)?)?;
    Ok(())
}

// Whether the entry is a copy of the moment in the name `newest`, or of an earlier one.
fn is_copy_until(rt: &HostRuntime, entry: &DirEntry, newest: &str) -> Result<bool, BackupFault> {
    let name = entry.file_name();
    if !is_copy_name(name) || name > newest {
        return Ok(false);
    }
    is_copy(rt, entry.path().as_str())
}

// Whether a regular file of this user's stands there, with a log that is one, too, or none.
fn is_copy(rt: &HostRuntime, path: &str) -> Result<bool, BackupFault> {
    let log = log_of(rt.alloc(), path)?;
    Ok(
        is_own_file(fs::symlink_metadata(rt, path))
            && (is_missing(rt, log.as_str())
                || is_own_file(fs::symlink_metadata(rt, log.as_str()))),
    )
}

// Whether a regular file of this user's was found.
fn is_own_file(found: io::Result<Metadata>) -> bool {
    match found {
        Ok(found) => found.is_file() && is_own(&found),
        Err(_) => false,
    }
}

// Whether nothing has this name, not even a link; false if the system does not say so.
fn is_missing(rt: &HostRuntime, name: &str) -> bool {
    match fs::symlink_metadata(rt, name) {
        Ok(_) => false,
        Err(error) => error.kind() == ErrorKind::NotFound,
    }
}

// What a folder lists, or why it does not.
fn listed<T>(entries: io::Result<T>) -> Result<T, BackupFault> {
    match entries {
        Ok(entries) => Ok(entries),
        Err(error) if error.kind() == ErrorKind::OutOfMemory => Err(BackupFault::Memory),
        Err(_) => Err(BackupFault::File),
    }
}

// An entry of a folder; none if its name is not UTF-8, which no copy's is.
fn known(entry: io::Result<DirEntry>) -> Result<Option<DirEntry>, BackupFault> {
    match entry {
        Ok(entry) => Ok(Some(entry)),
        Err(error) if error.kind() == ErrorKind::InvalidFilename => Ok(None),
        Err(error) if error.kind() == ErrorKind::OutOfMemory => Err(BackupFault::Memory),
        Err(_) => Err(BackupFault::File),
    }
}

// Removes the databases of these names, without their logs. Says whether none is left.
fn remove_databases(
    rt: &HostRuntime,
    desk: &Pair,
    folder: &str,
    old: &[String],
) -> Result<bool, BackupFault> {
    let mut are_removed = true;
    for name in old {
        are_removed = is_database_removed(rt, desk, folder, name.as_str())? && are_removed;
    }
    Ok(are_removed)
}

// The same as `is_removed`, of the database of this name in the folder.
fn is_database_removed(
    rt: &HostRuntime,
    desk: &Pair,
    folder: &str,
    name: &str,
) -> Result<bool, BackupFault> {
    let path = path_in(rt.alloc(), folder, name)?;
    is_removed(rt, desk, path.as_str())
}

// Removes a file, but one of the desk's. Says whether it is removed, or was not to be.
fn is_removed(rt: &HostRuntime, desk: &Pair, path: &str) -> Result<bool, BackupFault> {
    if desk.has_name(rt, path)? {
        return Ok(true);
    }
    match fs::remove_file(rt, path) {
        Ok(()) => Ok(true),
        Err(error) => Ok(error.kind() == ErrorKind::NotFound),
    }
}

// Has the names of a folder, in which this one is, on the disk.
fn sync(rt: &HostRuntime, folder: &str, name: &str) -> Result<(), BackupFault> {
    let path = path_in(rt.alloc(), folder, name)?;
    match sync_folder(rt, path.as_str()) {
        Ok(()) => Ok(()),
        Err(_) => Err(BackupFault::File),
    }
}

// Removes the logs that are alone and older than this name. Says whether none is left.
fn remove_logs(
    rt: &HostRuntime,
    desk: &Pair,
    folder: &str,
    oldest: &str,
) -> Result<bool, BackupFault> {
    let mut are_removed = true;
    let entries = listed(fs::read_dir(rt, folder))?;
    for entry in entries {
        if let Some(entry) = known(entry)?
            && is_lone_log(rt, &entry, oldest)
        {
            are_removed = is_removed(rt, desk, entry.path().as_str())? && are_removed;
        }
    }
    Ok(are_removed)
}

// Whether an entry is the log of a copy older than this name, and is there without the copy. While
// a copy takes its names, its log has a second one, until the database has its own.
fn is_lone_log(rt: &HostRuntime, entry: &DirEntry, oldest: &str) -> bool {
    let Some(name) = entry.file_name().strip_suffix(LOG) else {
        return false;
    };
    if !is_copy_name(name) || name >= oldest || !is_only_name(entry.metadata()) {
        return false;
    }
    let path = entry.path();
    match path.as_str().strip_suffix(LOG) {
        Some(database) => is_missing(rt, database),
        None => false,
    }
}

// Whether a regular file of this user's was found, with no other name.
fn is_only_name(found: io::Result<Metadata>) -> bool {
    match found {
        Ok(found) => found.is_file() && is_own(&found) && found.nlink() == 1,
        Err(_) => false,
    }
}
