//! The files of manifests, and whether one changed.
use crate::folders::{FolderNames, names_in};
use canary_base::error::Memory;
use canary_base::lists::Text;
use std::alloc::Global;
use std::fs;
use std::os::unix::fs::MetadataExt;

/// A file as it was seen: its name, and what changes if it does.
#[derive(Drop)]
struct FileStamp {
    name: String,
    device: u64,
    node: u64,
    size: u64,
    seconds: i64,
    nanoseconds: i64,
    // Whether it is there and is no regular file.
    is_strange: bool,
}

/// Files as they were seen, in the order of their names in each folder.
#[derive(Drop)]
pub(crate) struct Files {
    list: Vec<FileStamp>,
    /// What of the folders cannot be read, each a line that says so.
    pub(crate) faults: Vec<String>,
}

impl Files {
    /// The files of these names, and the regular files of manifests in the folders of these names,
    /// not deeper; or `Memory`. A file that is not there is one without a byte.
    pub(crate) fn look(rt: &HostRuntime, given: &[Text]) -> Result<Files, Memory> {
        let mut files = Files {
            list: Vec::new(rt.alloc()),
            faults: Vec::new(rt.alloc()),
        };
        for name in given {
            files.add(rt, name.as_str())?;
        }
        Ok(files)
    }

    /// Their names, or `Memory`.
    pub(crate) fn names(&self, alloc: Global) -> Result<Vec<Text>, Memory> {
        let mut names = Vec::new(alloc);
        for file in &self.list {
            names.push(Text::of(String::from_str(alloc, file.name.as_str())?))?;
        }
        Ok(names)
    }

    /// The name of the first one that is there and is no regular file. Who opens it may wait for
    /// ever, as with a FIFO.
    pub(crate) fn strange(&self) -> Option<&str> {
        for file in &self.list {
            if file.is_strange {
                return Some(file.name.as_str());
            }
        }
        None
    }

    /// Whether nothing changed since the other look.
    pub(crate) fn are_as(&self, other: &Files) -> bool {
        if self.list.len() != other.list.len() || !self.have_faults_of(other) {
            return false;
        }
        for (file, then) in self.list.iter().zip(other.list.iter()) {
            if !file.is_as(then) {
                return false;
            }
        }
        true
    }

    // Whether the same cannot be read.
    fn have_faults_of(&self, other: &Files) -> bool {
        if self.faults.len() != other.faults.len() {
            return false;
        }
        for (fault, then) in self.faults.iter().zip(other.faults.iter()) {
            if fault.as_str() != then.as_str() {
                return false;
            }
        }
        true
    }

    // Adds the manifests of a folder of this name, or else the file, also if it is not there.
    fn add(&mut self, rt: &HostRuntime, name: &str) -> Result<(), Memory> {
        match fs::metadata(rt, name) {
            Ok(found) if found.is_dir() => self.add_folder(rt, name),
            _ => self.add_file(rt, String::from_str(rt.alloc(), name)?),
        }
    }

    // Adds the regular files of manifests in a folder itself, in the order of their paths.
    fn add_folder(&mut self, rt: &HostRuntime, name: &str) -> Result<(), Memory> {
        let FolderNames { paths, faults } = names_in(rt, name)?;
        for path in paths {
            if is_regular(rt, path.as_str()) {
                self.add_file(rt, path)?;
            }
        }
        for fault in faults {
            self.faults.push(fault)?;
        }
        Ok(())
    }

    // Adds a file as it is now, with zeros in the place of what the system does not say of it.
    fn add_file(&mut self, rt: &HostRuntime, name: String) -> Result<(), Memory> {
        let seen = match fs::metadata(rt, name.as_str()) {
            Ok(found) => FileStamp {
                name,
                device: found.dev(),
                node: found.ino(),
                size: found.size(),
                seconds: found.mtime(),
                nanoseconds: found.mtime_nsec(),
                is_strange: !found.is_file(),
            },
            Err(_) => FileStamp {
                name,
                device: 0,
                node: 0,
                size: 0,
                seconds: 0,
                nanoseconds: 0,
                is_strange: false,
            },
        };
        self.list.push(seen)?;
        Ok(())
    }
}

impl FileStamp {
    // Whether the file was the same at the other look: its name, inode, size and time of change.
    fn is_as(&self, other: &FileStamp) -> bool {
        self.name.as_str() == other.name.as_str()
            && self.device == other.device
            && self.node == other.node
            && self.size == other.size
            && self.seconds == other.seconds
            && self.nanoseconds == other.nanoseconds
    }
}

// Whether a path leads to a regular file, also by links; false if the system does not say.
fn is_regular(rt: &HostRuntime, name: &str) -> bool {
    match fs::metadata(rt, name) {
        Ok(found) => found.is_file(),
        Err(_) => false,
    }
}
