//! Files by what they are, and not by their names alone: whoever may write to a folder may put
//! another file, or a link, under each name in it.
ghost use Rattle.std.specs.Prelude.{◌≡◌, ◌↔◌, IsTrue, bit_and, false};

use crate::fault::BackupFault;
use std::fs::{self, File, Files, Metadata, OpenOptions};
use std::hash::{BuildHasher, RandomState};
use std::io::{self, ErrorKind};
use std::os::unix::fs::MetadataExt;

// Who but the owner may write a folder, of its mode.
const OTHERS_WRITE: u32 = 0o022;

// Who but the owner may read, write or enter a folder, of its mode.
const OTHERS_ENTER: u32 = 0o077;

// That only its owner may remove or rename a file of the folder, of its mode.
const STICKY: u32 = 0o1000;

// That a folder's owner may write it, of its mode.
const OWNER_WRITES: u32 = 0o200;

// The owner of the system's own folders.
const ROOT: u32 = 0;

/// A file of the system: all its names have the same node, and no other file has while it is there.
#[derive(Clone, Copy, Debug, PartialEq, Eq)]
pub struct Node {
    device: u64,
    number: u64,
}

impl Node {
    /// That of the file with this metadata: its device, and its number there.
    pub fn of(found: &Metadata) -> Node {
        Node {
            device: found.dev(),
            number: found.ino(),
        }
    }

    /// That of what stands under this name itself, if only of a link.
    pub(crate) fn at(rt: &HostRuntime, name: &str) -> io::Result<Node> {
        Ok(Node::of(&fs::symlink_metadata(rt, name)?))
    }

    /// That of the file to which this name leads, through all links; none if there is none, or the
    /// system does not say which.
    pub fn led_to<P: Files>(files: &P, name: &str) -> Option<Node> {
        match fs::metadata(files, name) {
            Ok(found) => Some(Node::of(&found)),
            Err(_) => None,
        }
    }

    /// Whether this name leads to it, through all links.
    pub(crate) fn is_led_to(self, rt: &HostRuntime, name: &str) -> bool {
        Node::led_to(rt, name) == Some(self)
    }

    /// Whether it stands under this name.
    pub(crate) fn is_at(self, rt: &HostRuntime, name: &str) -> bool {
        match Node::at(rt, name) {
            Ok(found) => found == self,
            Err(_) => false,
        }
    }

    /// Whether it stands under this name, and no other is left of it.
    pub(crate) fn is_alone_at(self, rt: &HostRuntime, name: &str) -> bool {
        match fs::symlink_metadata(rt, name) {
            Ok(found) => Node::of(&found) == self && found.nlink() == 1,
            Err(_) => false,
        }
    }

    /// Removes this name of it, if it is one.
    pub(crate) fn remove_at(self, rt: &HostRuntime, name: &str) {
        if self.is_at(rt, name) {
            let _ = fs::remove_file(rt, name);
        }
    }
}

/// Whether a folder of this mode is its owner's alone to read, change and enter.
pub(crate) fn is_for_owner_alone(mode: u32) -> bool
    ensures { IsTrue result ↔ (bit_and mode OTHERS_ENTER ≡ 0) }
{
    mode & OTHERS_ENTER == 0
}

/// Whether in a folder of this mode nobody but its owner may remove or rename what is another's.
pub(crate) fn keeps_names(mode: u32) -> bool
    ensures closed { bit_and mode OTHERS_WRITE ≡ 0 → IsTrue result }
    ensures open { bit_and mode STICKY ≡ 0 → IsTrue result → bit_and mode OTHERS_WRITE ≡ 0 }
{
    mode & OTHERS_WRITE == 0 || mode & STICKY != 0
}

/// The folder of this name, if this process made it and nobody else may change it.
pub(crate) fn own_folder(rt: &HostRuntime, name: &str) -> Option<Node> {
    match fs::symlink_metadata(rt, name) {
        Ok(found) if found.is_dir() && is_own(&found) && is_for_owner_alone(found.mode()) => {
            Some(Node::of(&found))
        }
        _ => None,
    }
}

/// Whether a file is of the user as whom this process acts.
pub(crate) fn is_own(found: &Metadata) -> bool {
    found.uid() == libc::geteuid()
}

/// Whether there is a folder of this name in which nobody but this user, and root, may remove or
/// rename what this process makes.
pub(crate) fn is_kept(rt: &HostRuntime, name: &str) -> bool {
    match fs::metadata(rt, name) {
        Ok(found) => {
            let is_trusted = is_own(&found) || found.uid() == ROOT;
            found.is_dir() && is_trusted && keeps_names(found.mode())
        }
        Err(_) => false,
    }
}

/// Whether the regular file of this name may not be written, as the system says when it is opened
/// for that: it is read-only, or this user may not. Nothing of it is changed.
pub(crate) fn is_denied(rt: &HostRuntime, name: &str) -> bool {
    match fs::symlink_metadata(rt, name) {
        Ok(found) if found.is_file() => is_denial(OpenOptions::new().write(true).open(rt, name)),
        _ => false,
    }
}

// Whether a file was not opened since that is not allowed.
fn is_denial(opened: io::Result<File>) -> bool {
    match opened {
        Ok(_) => false,
        Err(error) => matches!(
            error.kind(),
            ErrorKind::PermissionDenied | ErrorKind::ReadOnlyFilesystem
        ),
    }
}

/// Whether by its mode this user may make no file in the folder of this name.
pub(crate) fn takes_no_file(rt: &HostRuntime, name: &str) -> bool {
    match fs::metadata(rt, name) {
        Ok(found) => libc::geteuid() != ROOT && is_shut_to(found.mode(), is_own(&found)),
        Err(_) => false,
    }
}

/// Whether nobody of those may write a folder of this mode to whom this user belongs: its owner, or
/// all others.
pub(crate) fn is_shut_to(mode: u32, is_owner: bool) -> bool
    ensures owner { IsTrue is_owner → (IsTrue result ↔ (bit_and mode OWNER_WRITES ≡ 0)) }
    ensures others { is_owner ≡ false → (IsTrue result ↔ (bit_and mode OTHERS_WRITE ≡ 0)) }
{
    if is_owner {
        mode & OWNER_WRITES == 0
    } else {
        mode & OTHERS_WRITE == 0
    }
}

/// Opens the regular file of this name to read it. Anything else of that name is not opened, if
/// only a link: to open one that is no file could wait for ever.
pub(crate) fn open_regular(rt: &HostRuntime, name: &str) -> io::Result<File> {
    if !fs::symlink_metadata(rt, name)?.is_file() {
        return Err(ErrorKind::Unsupported.into());
    }
    File::open(rt, name)
}

/// A random number, for a name that nobody can know before.
///
/// # Errors
/// `File` if the system gives none.
pub(crate) fn random(rt: &HostRuntime) -> Result<u64, BackupFault> {
    match RandomState::new(rt) {
        Ok(random) => Ok(random.hash_one(&0u8)),
        Err(_) => Err(BackupFault::File),
    }
}

/// The folder in which a name stands, and the name there.
pub(crate) fn split(path: &str) -> (&str, &str) {
    match path.rsplit_once('/') {
        Some(("", name)) => ("/", name),
        Some(folded) => folded,
        None => (".", path),
    }
}

/// Has the names of the folder in which a name stands on the disk.
pub(crate) fn sync_folder(rt: &HostRuntime, path: &str) -> io::Result<()> {
    let (folder, _) = split(path);
    File::open(rt, folder)?.sync_all()
}
