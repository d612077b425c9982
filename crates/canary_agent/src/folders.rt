//! The files of manifests in a folder, by their names.
use canary_base::error::Memory;
use std::alloc::Global;
use std::fs::Files;
use std::io::Read;
use std::str;

// What the name of a file of manifests ends in.
const ENDINGS: [&str; 3] = [".yaml", ".yml", ".json"];

// How many bytes of names are read at a time.
const NAMES_PIECE: usize = 16_384;

const UNLISTED: &str = "the folder cannot be read";

const UNNAMED: &str = "the name of this file is not UTF-8: rename it";

/// The names in a folder that end as those of manifests.
#[derive(Drop)]
pub(crate) struct FolderNames {
    /// The paths, in the order of their bytes.
    pub(crate) paths: Vec<String>,
    /// What is no path, each a line that says so.
    pub(crate) faults: Vec<String>,
}

/// What a folder has of manifests, not deeper; or `Memory`. If it cannot be read, that is a fault.
pub(crate) fn names_in(rt: &HostRuntime, folder: &str) -> Result<FolderNames, Memory> {
    let alloc = rt.alloc();
    let mut names = FolderNames {
        paths: Vec::new(alloc),
        faults: Vec::new(alloc),
    };
    if !is_read(rt, folder, &mut names)? {
        names
            .faults
            .push(format!(in alloc; "{folder}: {UNLISTED}")?)?;
    }
    names.paths.sort()?;
    names.faults.sort()?;
    Ok(names)
}

// Adds what a folder has. Whether it was read to its end; or `Memory`.
fn is_read(rt: &HostRuntime, folder: &str, names: &mut FolderNames) -> Result<bool, Memory> {
    let path = path_of(rt.alloc(), folder, "")?;
    match rt.open_dir(path.as_str()) {
        Ok(entries) => names.add_listed(rt.alloc(), folder, entries),
        Err(_) => Ok(false),
    }
}

impl FolderNames {
    // Adds what is listed, names with a NUL after each. Whether that was read to its end.
    fn add_listed<R: Read + Drop>(
        &mut self,
        alloc: Global,
        folder: &str,
        entries: R,
    ) -> Result<bool, Memory> {
        let mut entries = entries;
        let mut piece = [0u8; NAMES_PIECE];
        for _ in 0..u64::MAX {
            match entries.read(&mut piece) {
                Ok(0) => return Ok(true),
                Ok(count) => self.add_all(alloc, folder, piece.get(..count).unwrap_or(&[]))?,
                Err(_) => return Ok(false),
            }
        }
        Ok(false)
    }

    // Adds these names, with a NUL after each.
    fn add_all(&mut self, alloc: Global, folder: &str, names: &[u8]) -> Result<(), Memory> {
        for name in names.split(|byte| *byte == 0) {
            self.add(alloc, folder, name)?;
        }
        Ok(())
    }

    // Adds a name, if it ends as that of a manifest.
    fn add(&mut self, alloc: Global, folder: &str, name: &[u8]) -> Result<(), Memory> {
        if !is_manifest(name) {
            return Ok(());
        }
        match str::from_utf8(name) {
            Ok(name) => self.paths.push(path_of(alloc, folder, name)?)?,
            Err(_) => self.faults.push(unnamed(alloc, folder, name)?)?,
        }
        Ok(())
    }
}

// Whether a file's name ends in one of `ENDINGS`.
fn is_manifest(name: &[u8]) -> bool {
    ENDINGS
        .iter()
        .any(|ending| name.ends_with(ending.as_bytes()))
}

// The line that says of a name that it is not UTF-8.
fn unnamed(alloc: Global, folder: &str, name: &[u8]) -> Result<String, Memory> {
    let name = escaped(alloc, name)?;
    let path = path_of(alloc, folder, name.as_str())?;
    let path = path.as_str();
    Ok(format!(in alloc; "{path}: {UNNAMED}")?)
}

// Bytes as they are shown: those of ASCII as they are, any other as `\x` and two digits.
fn escaped(alloc: Global, bytes: &[u8]) -> Result<String, Memory> {
    let mut text = String::new(alloc);
    for byte in bytes {
        if 32 <= *byte && *byte < 127 {
            text.push(char::from(*byte))?;
        } else {
            text.push_str("\\x")?;
            text.push(hex_digit(*byte / 16))?;
            text.push(hex_digit(*byte % 16))?;
        }
    }
    Ok(text)
}

// The digit of that value in base 16, from 0 to 15.
fn hex_digit(value: u8) -> char {
    if value < 10 {
        char::from(b'0' + value)
    } else {
        char::from(b'a' + value % 16 - 10)
    }
}

// The path of a file in a folder, whose own path may end in a slash.
fn path_of(alloc: Global, folder: &str, name: &str) -> Result<String, Memory> {
    if folder.ends_with('/') {
        return Ok(format!(in alloc; "{folder}{name}")?);
    }
    Ok(format!(in alloc; "{folder}/{name}")?)
}
