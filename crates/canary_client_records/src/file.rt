//! A device that is a file, locked as long as it is open.
ghost use Rattle.std.specs.Prelude.{◌≡◌, IsTrue, IsErrOf};

use crate::device::{Device, DeviceFault, overlaid};
use std::alloc::Global;
use std::fs::{self, File, OpenOptions, TryLockError};
use std::io::{self, ErrorKind, Read};
use std::os::fd::AsRawFd;
use std::os::unix::fs::FileExt;

/// Why a file cannot be opened.
#[derive(Clone, Copy, Debug, PartialEq, Eq)]
pub enum OpenFault {
    /// Another process has it locked.
    InUse,
    /// It is no regular file, but a folder, a FIFO, a device or a socket.
    NoFile,
    /// It cannot be opened, locked or read.
    Failed,
}

/// A file that is open and locked, with its bytes as they were read and written. No clause ties
/// these to a disk, and those on crashes say nothing of it: that a disk does what `Device` says is
/// for whoever rests on it to assume.
#[derive(Drop)]
pub struct FileDevice {
    alloc: Global,
    file: File,
    bytes: Vec<u8>,
    has_failed: bool,
    was_there: bool,
}

impl FileDevice {
    /// The file of this name, which is made if there is none. Links are followed. A path to what is
    /// no regular file is not opened, so it is not waited for.
    ///
    /// # Errors
    /// `NoFile` if it is no regular file; `InUse` if another process has it locked; `Failed` if it
    /// cannot be opened, locked or read, also if memory was refused.
    pub fn open(rt: &HostRuntime, path: &str) -> Result<FileDevice, OpenFault> {
        match fs::metadata(rt, path) {
            Ok(found) if !found.is_file() => return Err(OpenFault::NoFile),
            Ok(_) => {}
            Err(error) if error.kind() == ErrorKind::NotFound => {}
            Err(_) => return Err(OpenFault::Failed),
        }
        let (file, was_there) = opened(rt, path)?;
        is_regular(&file)?;
        match file.try_lock() {
            Ok(()) => read_whole(rt.alloc(), file, was_there),
            Err(TryLockError::WouldBlock) => Err(OpenFault::InUse),
            Err(TryLockError::Error(_)) => Err(OpenFault::Failed),
        }
    }

    /// Whether the file may have been one of texts that was cut to nothing: it was there before it
    /// was opened, and has no byte, or one alone that is no closed gate. A crash while it was made
    /// leaves such a file, too.
    pub fn is_in_doubt(&self) -> bool {
        self.was_there
            && match self.bytes.as_slice() {
                [] => true,
                [gate] => *gate != b'-',
                _ => false,
            }
    }

    // What a call of the file comes to.
    fn told(&mut self, is_done: bool) -> Result<(), DeviceFault>
        ensures bytes { self.new.bytes ≡ self.old.bytes }
        ensures failed { IsErrOf result DeviceFault.Failed → IsTrue self.new.has_failed }
        ensures not_full { IsErrOf result DeviceFault.Full → ⊥ }
    {
        if is_done {
            Ok(())
        } else {
            self.has_failed = true;
            Err(DeviceFault::Failed)
        }
    }
}

// The file, open to be read and written, with a descriptor that is no standard stream's, and
// whether it was there.
fn opened(rt: &HostRuntime, path: &str) -> Result<(File, bool), OpenFault> {
    match open_or_make(rt, path) {
        Ok((file, was_there)) if file.as_raw_fd() > 2 => Ok((file, was_there)),
        Ok((file, was_there)) => match file.try_clone() {
            Ok(file) => Ok((file, was_there)),
            Err(_) => Err(OpenFault::Failed),
        },
        Err(_) => Err(OpenFault::Failed),
    }
}

// A name that is there and leads to no file is a link to one that is still to be made.
fn open_or_make(rt: &HostRuntime, path: &str) -> io::Result<(File, bool)> {
    let mut options = OpenOptions::new();
    options.read(true).write(true);
    match options.open(rt, path) {
        Ok(file) => return Ok((file, true)),
        Err(error) if error.kind() == ErrorKind::NotFound => {}
        Err(error) => return Err(error),
    }
    let file = options.create(true).open(rt, path)?;
    Ok((file, false))
}

// Another file may have taken the path meanwhile.
fn is_regular(file: &File) -> Result<(), OpenFault> {
    match file.metadata() {
        Ok(found) if found.is_file() => Ok(()),
        Ok(_) => Err(OpenFault::NoFile),
        Err(_) => Err(OpenFault::Failed),
    }
}

// The device of a locked file, once all its bytes are read; `Failed` also if memory is refused.
fn read_whole(alloc: Global, mut file: File, was_there: bool) -> Result<FileDevice, OpenFault> {
    let mut bytes = Vec::new(alloc);
    match file.read_to_end(&mut bytes) {
        Ok(_) => Ok(FileDevice {
            alloc,
            file,
            bytes,
            has_failed: false,
            was_there,
        }),
        Err(_) => Err(OpenFault::Failed),
    }
}

impl Device for FileDevice {
    ghost seen = { λ f. f.bytes.items };

    ghost may_leave = { λ f c. ⊥ };

    ghost moment = { λ f. 0 };

    ghost left_since = { λ f t c. ⊥ };

    ghost has_failed = { λ f. IsTrue f.has_failed };

    ghost counts_now = { λ f t c le now. now };

    ghost only_now = { λ f c left. left };

    // A copy of the bytes that are held in memory: the file was read as it was opened.
    fn read(&mut self, alloc: Global) -> Result<Vec<u8>, DeviceFault> {
        Ok(self.bytes.to_vec(alloc)?)
    }

    // Writes to the file and to the bytes in memory, which change also if the file failed.
    fn write_at(&mut self, at: usize, bytes: &[u8]) -> Result<(), DeviceFault> {
        let new = overlaid(self.alloc, self.bytes.as_slice(), at, bytes)?;
        let is_done = self.file.write_all_at(bytes, at as u64).is_ok();
        self.bytes = new;
        self.told(is_done)
    }

    // Cuts the file and the bytes in memory, which are cut also if the file failed.
    fn cut(&mut self, kept: usize) -> Result<(), DeviceFault> {
        let is_done = self.file.set_len(kept as u64).is_ok();
        self.bytes.truncate(kept);
        self.told(is_done)
    }

    // Has the system put the file on the disk, with its length.
    fn sync(&mut self) -> Result<(), DeviceFault> {
        let is_done = self.file.sync_all().is_ok();
        self.told(is_done)
    }
}

/// Has the name of a file on the disk, too: syncs the folder that it stands in, and answers whether
/// that went well.
pub fn sync_folder(rt: &HostRuntime, path: &str) -> bool {
    let folder = match path.rfind('/') {
        Some(0) => "/",
        Some(place) => path.get(..place).unwrap_or("."),
        None => ".",
    };
    match File::open(rt, folder) {
        Ok(folder) => folder.sync_all().is_ok(),
        Err(_) => false,
    }
}
