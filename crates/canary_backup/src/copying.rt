//! Copies of a desk's file, also while a desk serves it.
//!
//! A desk writes its file FILE and the log FILE-wal thus. A commit appends frames to the log, and
//! the last byte that makes them count is written when all others are: who reads a log from its
//! start finds all frames of a commit or does not count them, also while it is written. The file is
//! written by a checkpoint alone: it writes pages that the log has to the file, syncs the file, and
//! only then begins the log anew, with another header, which no earlier log had. So if the log's
//! header is the same before the file is copied and after the log is, the log was not begun anew
//! between: its frames were only added to. Each page that a checkpoint wrote meanwhile, whole or in
//! part, has its frame in the log that was copied after it, and all other pages are as they were.
//! Whoever opens the copy reads these frames over the file, and has the commits up to the last one
//! that the copied log has whole. A log that is missing, or too short for a header, has no frames,
//! and no checkpoint writes the file before one was written: it has to be as short afterwards.
ghost use Rattle.std.specs.Prelude.{◌≡◌, ◌≢◌};
ghost use Rattle.canary_backup.specs.declared.fault.BackupFault.TheVariants as fault;

use crate::fault::BackupFault;
use crate::folder::OwnFolder;
use crate::node::{Node, is_denied, open_regular, split, sync_folder, takes_no_file};
use std::alloc::Global;
use std::fs::{self, File, OpenFile, OpenOptions};
use std::io::{self, ErrorKind, Read};
use std::os::unix::fs::{MetadataExt, OpenOptionsExt};

// The bytes of a log's header.
const HEADER_BYTES: u64 = 32;

// The most times that a copy is begun.
const MAX_TRIES: u32 = 100;

// Who may read and write a file, of its mode.
const PERMISSION_BITS: u32 = 0o777;

// That its owner may, of that.
const OWNER_ALONE: u32 = 0o600;

/// The two files of a database: the database's own, and the log beside it.
#[derive(Drop)]
pub struct Pair {
    database: String,
    log: String,
}

impl Pair {
    /// The files of the database of this name.
    ///
    /// # Errors
    /// `Memory` if an allocation was refused.
    pub fn of(alloc: Global, name: &str) -> Result<Pair, BackupFault> {
        let database = format!(in alloc; "{name}")?;
        let log = format!(in alloc; "{name}-wal")?;
        Ok(Pair { database, log })
    }

    /// The files of the database that is there under this name, where all links lead.
    ///
    /// # Errors
    /// `File` if there is no such file, `Storage` if it cannot be reached, and `Memory` if an
    /// allocation was refused.
    pub fn found(rt: &HostRuntime, name: &str) -> Result<Pair, BackupFault> {
        match fs::canonicalize(rt, name) {
            Ok(real) => Pair::of(rt.alloc(), real.as_str()),
            Err(error) => Err(unfound(error.kind())),
        }
    }

    /// Whether this name is one that a desk uses for the files of the database: that of its own
    /// file, of its log, or of a rollback journal of SQLite, before which no desk opens the file.
    /// So is another name of one of these files, and a link that leads to one.
    ///
    /// # Errors
    /// `Memory` if an allocation was refused.
    pub fn has_name(&self, rt: &HostRuntime, name: &str) -> Result<bool, BackupFault> {
        let database = self.database.as_str();
        let journal = format!(in rt.alloc(); "{database}-journal")?;
        let real = real_name(rt, name)?;
        Ok(
            is_same(rt, database, name, real.as_str())
                || is_same(rt, self.log.as_str(), name, real.as_str())
                || is_same(rt, journal.as_str(), name, real.as_str()),
        )
    }

    /// Whether the database can be read, and not opened as one, since this process may not write
    /// its file or its log, or there is no log, and none can be made. This is false if the file has
    /// another hard link, whose log may be another, or a rollback journal beside it: what is read
    /// of its copy may be wrong then.
    ///
    /// # Errors
    /// `Memory` if an allocation was refused.
    pub fn is_for_reading(&self, rt: &HostRuntime) -> Result<bool, BackupFault> {
        let database = self.database.as_str();
        let journal = format!(in rt.alloc(); "{database}-journal")?;
        let is_whole = has_one_name(rt, database) && is_missing(rt, journal.as_str());
        Ok(is_whole && self.is_readable(rt) && self.is_shut(rt))
    }

    // Whether its file can be read, and its log, if there is one.
    fn is_readable(&self, rt: &HostRuntime) -> bool {
        let (database, log) = (self.database.as_str(), self.log.as_str());
        can_be_read(rt, database) && (is_missing(rt, log) || can_be_read(rt, log))
    }

    // Whether its file or its log may not be written, or there is no log, and none can be made.
    fn is_shut(&self, rt: &HostRuntime) -> bool {
        let (database, log) = (self.database.as_str(), self.log.as_str());
        is_denied(rt, database) || is_denied(rt, log) || is_unmakeable(rt, log)
    }

    /// The name of the database's own file.
    pub fn database(&self) -> &str {
        self.database.as_str()
    }

    /// Removes both, if they are there.
    pub fn remove(&self, rt: &HostRuntime) {
        let _ = fs::remove_file(rt, self.database.as_str());
        let _ = fs::remove_file(rt, self.log.as_str());
    }

    // Removes both, of a copy that is begun anew.
    fn begin_anew(&self, rt: &HostRuntime, tries: u32) {
        if tries > 0 {
            self.remove(rt);
        }
    }

    // Whether neither is there.
    fn is_free(&self, rt: &HostRuntime) -> bool {
        is_missing(rt, self.database.as_str()) && is_missing(rt, self.log.as_str())
    }

    // The names of another database beside this one: nothing is there under them, and a desk of
    // this one does not use them.
    fn other(&self, rt: &HostRuntime, name: &str) -> Result<Pair, BackupFault> {
        let other = Pair::of(rt.alloc(), name)?;
        if !other.is_free(rt) || self.has_name(rt, name)? {
            return Err(BackupFault::File);
        }
        Ok(other)
    }

    // Has both on the disk.
    fn sync(&self, rt: &HostRuntime) -> io::Result<()> {
        sync(rt, self.database.as_str())?;
        sync(rt, self.log.as_str())
    }
}

// Why the file of a database was not found.
fn unfound(kind: ErrorKind) -> BackupFault
    ensures missing { kind ≡ ErrorKind.NotFound → result ≡ fault.File }
    ensures memory { kind ≡ ErrorKind.OutOfMemory → result ≡ fault.Memory }
{
    if kind == ErrorKind::NotFound {
        BackupFault::File
    } else if kind == ErrorKind::OutOfMemory {
        BackupFault::Memory
    } else {
        BackupFault::Storage
    }
}

/// Why the system refused a file: for want of memory, or for another cause.
pub(crate) fn file_fault(kind: ErrorKind) -> BackupFault
    ensures memory { kind ≡ ErrorKind.OutOfMemory → result ≡ fault.Memory }
    ensures file { kind ≢ ErrorKind.OutOfMemory → result ≡ fault.File }
{
    if kind == ErrorKind::OutOfMemory {
        BackupFault::Memory
    } else {
        BackupFault::File
    }
}

// The name as it is with no link left in its folder; as it is given if there is no such folder.
fn real_name(rt: &HostRuntime, name: &str) -> Result<String, BackupFault> {
    let (folder, last) = split(name);
    match fs::canonicalize(rt, folder) {
        Ok(real) => {
            let folder = real.as_str().trim_end_matches('/');
            Ok(format!(in rt.alloc(); "{folder}/{last}")?)
        }
        Err(error) if error.kind() == ErrorKind::OutOfMemory => Err(BackupFault::Memory),
        Err(_) => Ok(format!(in rt.alloc(); "{name}")?),
    }
}

// Whether a name, which is `real` without links in its folder, is that one or leads to its file.
fn is_same(rt: &HostRuntime, used: &str, name: &str, real: &str) -> bool {
    if real == used {
        return true;
    }
    match fs::metadata(rt, used) {
        Ok(found) => Node::of(&found).is_led_to(rt, name),
        Err(_) => false,
    }
}

// Whether nothing has this name, not even a link; false if the system does not say so.
fn is_missing(rt: &HostRuntime, name: &str) -> bool {
    match fs::symlink_metadata(rt, name) {
        Ok(_) => false,
        Err(error) => error.kind() == ErrorKind::NotFound,
    }
}

// Whether this name is that of a file, the only one.
fn has_one_name(rt: &HostRuntime, name: &str) -> bool {
    match fs::symlink_metadata(rt, name) {
        Ok(found) => found.is_file() && found.nlink() == 1,
        Err(_) => false,
    }
}

// Whether this is the name of a file that this process may read.
fn can_be_read(rt: &HostRuntime, name: &str) -> bool {
    open_regular(rt, name).is_ok()
}

// Whether nothing has this name, and this process can make no file there.
fn is_unmakeable(rt: &HostRuntime, name: &str) -> bool {
    let (folder, _) = split(name);
    is_missing(rt, name) && takes_no_file(rt, folder)
}

// Has the bytes of the file of this name on the disk.
fn sync(rt: &HostRuntime, name: &str) -> io::Result<()> {
    OpenOptions::new().write(true).open(rt, name)?.sync_all()
}

/// A database, whole in a folder NAME.part-PROCESS-RANDOM of its own, which is to have this name.
#[derive(Drop)]
pub struct StagedCopy {
    folder: OwnFolder,
    to: Pair,
}

impl StagedCopy {
    /// Copies a file of SQLite, with its log, also while a desk serves it: the copy has each
    /// request that was settled before, and of those that are settled meanwhile the first ones.
    ///
    /// # Errors
    /// `File` if there is no such file, if a file of the copy's names, `copy` and `copy`-wal, is
    /// there already, if `copy` is a name that a desk uses for this file, or if a file cannot be
    /// read or written; `Storage` if the file cannot be reached; `InUse` if the log was begun anew
    /// each time while the file was copied; `Memory` if an allocation was refused. There is no part
    /// then.
    pub fn of(rt: &HostRuntime, file: &str, copy: &str) -> Result<StagedCopy, BackupFault> {
        let from = Pair::found(rt, file)?;
        let to = from.other(rt, copy)?;
        let folder = OwnFolder::beside(rt, copy, "part")?.filled(rt, &from)?;
        Ok(StagedCopy { folder, to })
    }

    /// A part in which nothing is yet, of a database beside that of `file`. Whoever makes that
    /// database, and its log, has to close it before `name`.
    ///
    /// # Errors
    /// `File` if there is no such file, if `name` or `name`-wal is there already, if `name` is a
    /// name that a desk uses for that file, or if no folder can be made; `Storage` if the file
    /// cannot be reached; `Memory` if an allocation was refused. There is no part then.
    pub fn empty(rt: &HostRuntime, file: &str, name: &str) -> Result<StagedCopy, BackupFault> {
        let to = Pair::found(rt, file)?.other(rt, name)?;
        let folder = OwnFolder::beside(rt, name, "part")?;
        Ok(StagedCopy { folder, to })
    }

    /// The name of the database's own file, of the part.
    pub fn database(&self) -> &str {
        self.folder.copy().database()
    }

    /// Gives the database its names, once it is on the disk, and removes the part: first the log's,
    /// for whoever has that name has the other, and no name that is taken. So of some databases
    /// that are given one name at the same time at most one has it.
    ///
    /// # Errors
    /// `File` if the disk fails, or the database cannot have its names, which is so if the system
    /// knows no hard links. There is no file of these names then.
    pub fn name(&self, rt: &HostRuntime) -> Result<(), BackupFault> {
        match self.take_names(rt) {
            Ok(()) => Ok(()),
            Err(_) => Err(BackupFault::File),
        }
    }

    // Gives the log its name and then the database its own; if that fails, the log loses its name.
    fn take_names(&self, rt: &HostRuntime) -> io::Result<()> {
        let files = self.folder.copy();
        if !self.folder.is_there(rt) {
            return Err(ErrorKind::NotFound.into());
        }
        files.sync(rt)?;
        let log = Node::at(rt, files.log.as_str())?;
        fs::hard_link(rt, files.log.as_str(), self.to.log.as_str())?;
        let taken = self.take_last_name(rt, log);
        if taken.is_err() {
            log.remove_at(rt, self.to.log.as_str());
        }
        taken
    }

    // Takes the name of the database's own file, once that of the log is on the disk: a copy
    // without its log would be an older desk.
    fn take_last_name(&self, rt: &HostRuntime, log: Node) -> io::Result<()> {
        let files = self.folder.copy();
        let database = Node::at(rt, files.database.as_str())?;
        sync_folder(rt, self.to.log.as_str())?;
        fs::hard_link(rt, files.database.as_str(), self.to.database.as_str())?;
        let kept = self.keep_names(rt, database, log);
        if kept.is_err() {
            database.remove_at(rt, self.to.database.as_str());
        }
        kept
    }

    // Removes the part, so that the copy has its names alone, and has these on the disk.
    fn keep_names(&self, rt: &HostRuntime, database: Node, log: Node) -> io::Result<()> {
        self.remove(rt);
        let is_named = database.is_alone_at(rt, self.to.database.as_str());
        if !is_named || !log.is_alone_at(rt, self.to.log.as_str()) {
            return Err(ErrorKind::AlreadyExists.into());
        }
        sync_folder(rt, self.to.database.as_str())
    }

    /// Removes the part.
    pub fn remove(&self, rt: &HostRuntime) {
        self.folder.remove(rt);
    }
}

/// Copies the files of a database as they were at one moment, also while a desk writes them.
///
/// # Errors
/// As `StagedCopy::of`: files of the copy's names must not be there.
pub(crate) fn copy_pair(rt: &HostRuntime, from: &Pair, to: &Pair) -> Result<(), BackupFault> {
    for tries in 0..MAX_TRIES {
        to.begin_anew(rt, tries);
        if is_copied_at_once(rt, from, to)? {
            return Ok(());
        }
    }
    Err(BackupFault::InUse)
}

// Copies the files, and says whether the log was not begun anew meanwhile.
fn is_copied_at_once(rt: &HostRuntime, from: &Pair, to: &Pair) -> Result<bool, BackupFault> {
    let before = header(rt, from.log.as_str())?;
    copy_once(rt, from, to)?;
    has_header(rt, from.log.as_str(), before.as_slice())
}

// Whether the header of the log is still the one that was read before.
fn has_header(rt: &HostRuntime, log: &str, before: &[u8]) -> Result<bool, BackupFault> {
    Ok(header(rt, log)?.as_slice() == before)
}

// Copies the database's own file, and then the log.
fn copy_once(rt: &HostRuntime, from: &Pair, to: &Pair) -> Result<(), BackupFault> {
    copy_file(rt, from.database.as_str(), to.database.as_str())?;
    if is_missing(rt, from.log.as_str()) {
        return make_empty(rt, to.log.as_str());
    }
    copy_file(rt, from.log.as_str(), to.log.as_str())
}

// Copies a file to one that is new, and that just those may read who may read the first, and its
// owner, who may write it too: a database is opened to be written.
fn copy_file(rt: &HostRuntime, from: &str, to: &str) -> Result<(), BackupFault> {
    match copy_bytes(rt, from, to) {
        Ok(()) => Ok(()),
        Err(error) => Err(file_fault(error.kind())),
    }
}

// Copies the bytes of a regular file to a new one, which has the permissions of the first, as far
// as the process's mask leaves them, and those of its owner.
fn copy_bytes(rt: &HostRuntime, from: &str, to: &str) -> io::Result<()> {
    let mut source = open_regular(rt, from)?;
    let mode = source.metadata()?.mode() & PERMISSION_BITS;
    let mut copy = new_file(rt, to, mode | OWNER_ALONE)?;
    io::copy(&mut source, &mut copy)?;
    Ok(())
}

// Makes a file of this name, under which nothing is there, if only a link.
fn new_file(rt: &HostRuntime, name: &str, mode: u32) -> io::Result<File> {
    OpenOptions::new()
        .write(true)
        .create_new(true)
        .mode(mode)
        .open(rt, name)
}

// Makes an empty file that its owner alone may read and write, as the copy of a missing log.
fn make_empty(rt: &HostRuntime, name: &str) -> Result<(), BackupFault> {
    match new_file(rt, name, OWNER_ALONE) {
        Ok(_) => Ok(()),
        Err(error) => Err(file_fault(error.kind())),
    }
}

/// The first bytes of a log, or of another file, as many as a log's header has; none if there is no
/// such file.
///
/// # Errors
/// `File` if it is no file, or cannot be read; `Memory` if an allocation was refused.
pub(crate) fn header(rt: &HostRuntime, name: &str) -> Result<Vec<u8>, BackupFault> {
    let mut bytes = Vec::new(rt.alloc());
    let file = match open_regular(rt, name) {
        Ok(file) => file,
        Err(error) if error.kind() == ErrorKind::NotFound => return Ok(bytes),
        Err(error) => return Err(file_fault(error.kind())),
    };
    match file.take(HEADER_BYTES).read_to_end(&mut bytes) {
        Ok(_) => Ok(bytes),
        Err(error) => Err(file_fault(error.kind())),
    }
}
