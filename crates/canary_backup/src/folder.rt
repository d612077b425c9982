//! Folders that this process alone may change, and copies of databases in them.
//!
//! Whoever may write to the folder of a desk's file may put files and links into it, and remove
//! what stands there. So what is copied to be looked at stands in a folder of its own, which its
//! owner alone may read and change: nobody else can put a file or a link in the place of the copy.
//! Nobody can remove or rename that folder either, if the folder around it is the caller's or
//! root's, and is closed to others or sticky, as /tmp is. Such a one is looked for first. If there
//! is none, the folder stands beside the file, and somebody who may write there may put another in
//! its place. So it is looked at again once the copy is made. A name in it is a random number,
//! which nobody else can read there, so that what is made and removed under such a name is never
//! another's file.
use crate::copying::{Pair, copy_pair};
use crate::fault::BackupFault;
use crate::node::{Node, is_kept, own_folder, random, split};
use std::env::{self, VarError};
use std::fs::{self, DirBuilder};
use std::os::unix::fs::DirBuilderExt;
use std::path::PathBuf;
use std::process;

// A folder that its owner alone may read and change.
const OWNER_ALONE: u32 = 0o700;

// Where temporary files stand if the environment has no other place.
const TEMPORARY: &str = "/tmp";

/// A folder that this process made, which its owner alone may read and change, and the names of a
/// database in it.
#[derive(Drop)]
pub struct OwnFolder {
    name: String,
    node: Node,
    copy: Pair,
}

impl OwnFolder {
    /// Makes the folder `name`.WORD-PROCESS-RANDOM, beside the files of this name.
    ///
    /// # Errors
    /// `File` if no folder can be made that is this user's alone; `Memory` if an allocation was
    /// refused.
    pub fn beside(rt: &HostRuntime, name: &str, word: &str) -> Result<OwnFolder, BackupFault> {
        let (process, random) = (process::id(rt.process()), random(rt)?);
        let folder = format!(in rt.alloc(); "{name}.{word}-{process}-{random:016x}")?;
        OwnFolder::made(rt, folder)
    }

    // Makes the folder canary-WORD-PROCESS-RANDOM in another.
    fn within(rt: &HostRuntime, place: &str, word: &str) -> Result<OwnFolder, BackupFault> {
        let (process, random) = (process::id(rt.process()), random(rt)?);
        let folder = format!(in rt.alloc(); "{place}/canary-{word}-{process}-{random:016x}")?;
        OwnFolder::made(rt, folder)
    }

    // Makes the folder of this name, which has to be this user's alone, and names a database in it.
    fn made(rt: &HostRuntime, name: String) -> Result<OwnFolder, BackupFault> {
        let secret = random(rt)?;
        let database = format!(in rt.alloc(); "{}/{secret:016x}", name.as_str())?;
        let copy = Pair::of(rt.alloc(), database.as_str())?;
        let made = DirBuilder::new()
            .mode(OWNER_ALONE)
            .create(rt, name.as_str());
        match (made, own_folder(rt, name.as_str())) {
            (Ok(()), Some(node)) => Ok(OwnFolder { name, node, copy }),
            (Ok(()), None) => {
                let _ = fs::remove_dir(rt, name.as_str());
                Err(BackupFault::File)
            }
            (Err(_), _) => Err(BackupFault::File),
        }
    }

    /// The names of a database in it.
    pub(crate) fn copy(&self) -> &Pair {
        &self.copy
    }

    /// Whether its name still leads to it, and it is still this user's alone.
    pub(crate) fn is_there(&self, rt: &HostRuntime) -> bool {
        own_folder(rt, self.name.as_str()) == Some(self.node)
    }

    /// Copies a database into it, and looks at it again. It is removed if that fails.
    pub(crate) fn filled(self, rt: &HostRuntime, from: &Pair) -> Result<OwnFolder, BackupFault> {
        match copy_pair(rt, from, &self.copy) {
            Ok(()) if self.is_there(rt) => Ok(self),
            Ok(()) => {
                self.remove(rt);
                Err(BackupFault::File)
            }
            Err(fault) => {
                self.remove(rt);
                Err(fault)
            }
        }
    }

    /// Removes the database, and the folder.
    pub(crate) fn remove(&self, rt: &HostRuntime) {
        self.copy.remove(rt);
        if self.is_there(rt) {
            let _ = fs::remove_dir(rt, self.name.as_str());
        }
    }
}

/// A copy of a database that this process alone may change.
#[derive(Drop)]
pub struct OwnCopy {
    folder: OwnFolder,
}

impl OwnCopy {
    /// Copies the database of this name as it was at one moment, also while a desk writes it. The
    /// copy stands in a folder canary-WORD-PROCESS-RANDOM of XDG_RUNTIME_DIR, or else of TMPDIR
    /// (/tmp if that is not set): the first of them in which nobody but this user, and root, may
    /// remove or rename it, and that has room. If none has, it stands as `beside` says.
    ///
    /// # Errors
    /// As `beside`.
    pub fn of(rt: &HostRuntime, file: &str, word: &str) -> Result<OwnCopy, BackupFault> {
        let from = Pair::found(rt, file)?;
        match copied_for_now(rt, &from, word)? {
            Some(copy) => Ok(copy),
            None => OwnCopy::beside(rt, file, word),
        }
    }

    /// The same, in the folder `file`.WORD-PROCESS-RANDOM, beside the database.
    ///
    /// # Errors
    /// `File` if there is no such file, or the copy cannot be made or is not this user's alone once
    /// it is; `Storage` if the file cannot be reached; `InUse` if the log was begun anew each time
    /// while the file was copied; `Memory` if an allocation was refused. There is no copy then.
    pub fn beside(rt: &HostRuntime, file: &str, word: &str) -> Result<OwnCopy, BackupFault> {
        let from = Pair::found(rt, file)?;
        let folder = OwnFolder::beside(rt, file, word)?.filled(rt, &from)?;
        Ok(OwnCopy { folder })
    }

    /// The name of the database's own file, of the copy.
    pub fn database(&self) -> &str {
        self.folder.copy().database()
    }

    /// Removes the copy and its folder.
    pub fn remove(&self, rt: &HostRuntime) {
        self.folder.remove(rt);
    }
}

/// Whether a name stands in this folder, where all links of both folders lead.
pub fn is_within(rt: &HostRuntime, folder: &str, name: &str) -> bool {
    let (place, _) = split(name);
    match fs::metadata(rt, folder) {
        Ok(found) => Node::of(&found).is_led_to(rt, place),
        Err(_) => false,
    }
}

// A copy where files stand for a while; none if there is no such place.
fn copied_for_now(
    rt: &HostRuntime,
    from: &Pair,
    word: &str,
) -> Result<Option<OwnCopy>, BackupFault> {
    match copied_in(rt, from, "XDG_RUNTIME_DIR", "", word)? {
        Some(copy) => Ok(Some(copy)),
        None => copied_in(rt, from, "TMPDIR", TEMPORARY, word),
    }
}

// A copy in a folder of the place that a variable names, or of another if it is not set; none if
// others may change the place, or it has no room.
fn copied_in(
    rt: &HostRuntime,
    from: &Pair,
    variable: &str,
    other: &str,
    word: &str,
) -> Result<Option<OwnCopy>, BackupFault> {
    let place = place_of(rt, variable, other)?;
    copied_within(rt, from, place.as_str(), word)
}

// A copy in a folder of this place; none if others may change the place, or it has no room.
fn copied_within(
    rt: &HostRuntime,
    from: &Pair,
    place: &str,
    word: &str,
) -> Result<Option<OwnCopy>, BackupFault> {
    let Some(place) = kept_place(rt, place) else {
        return Ok(None);
    };
    let copied = OwnFolder::within(rt, place.as_str(), word);
    match copied.and_then(|folder| folder.filled(rt, from)) {
        Ok(folder) => Ok(Some(OwnCopy { folder })),
        Err(BackupFault::File) => Ok(None),
        Err(fault) => Err(fault),
    }
}

// The folder of this name, without links, if others may not change what this process makes in it.
fn kept_place(rt: &HostRuntime, place: &str) -> Option<PathBuf> {
    let real = fs::canonicalize(rt, place).ok()?;
    is_kept(rt, real.as_str()).then_some(real)
}

// The place that a variable of the environment names; another if it is not set, or empty.
fn place_of(rt: &HostRuntime, name: &str, other: &str) -> Result<String, BackupFault> {
    match env::var(rt, name) {
        Ok(place) if !place.is_empty() => Ok(place),
        Err(VarError::OutOfMemory) => Err(BackupFault::Memory),
        _ => Ok(format!(in rt.alloc(); "{other}")?),
    }
}
