//! A desk's file that nobody else writes meanwhile.
use crate::named::log_of;
use crate::open::is_missing;
use canary_programs::fault::Fault;
use sqlite::{File, Files, Unknown};
use sqlite_std_file::OpenError;
use std::fs;
use std::io::ErrorKind;

/// A file and its log, opened as a database is opened to be written, and not written.
#[derive(Drop)]
pub(crate) struct ExclusiveFile {
    files: Files<File>,
    // The log, if it was made since there was none.
    made: Option<String>,
}

impl ExclusiveFile {
    /// Opens the file of this name, which is there, and its log.
    ///
    /// # Errors
    /// `InUse` if another program has the file open; `Memory` if an allocation was refused;
    /// `Storage` if it cannot be opened to be read and written, has another hard link, or has a
    /// rollback journal beside it, or if no database can have its name.
    pub(crate) fn open(rt: &HostRuntime, file: &str) -> Result<ExclusiveFile, Fault> {
        if file == ":memory:" || file.starts_with("file:") {
            return Err(Fault::Storage);
        }
        let made = log_to_make(rt, file)?;
        match sqlite_std_file::open(rt, file, Unknown) {
            Ok(files) => Ok(ExclusiveFile { files, made }),
            Err(error) => Err(unopened(error)),
        }
    }

    /// Closes both, and removes a log that was made.
    pub(crate) fn close(self, rt: &HostRuntime) {
        if let Some(log) = &self.made {
            let _ = fs::remove_file(rt, log.as_str());
        }
        drop(self.files);
    }
}

// The name of the log of a file, if it is not there.
fn log_to_make(rt: &HostRuntime, file: &str) -> Result<Option<String>, Fault> {
    match log_of(rt, file) {
        Ok(log) => Ok(if_missing(rt, log)),
        Err(error) if error.kind() == ErrorKind::OutOfMemory => Err(Fault::Memory),
        Err(_) => Err(Fault::Storage),
    }
}

// The name of the log, if no such file is there: opening makes it then.
fn if_missing(rt: &HostRuntime, log: String) -> Option<String> {
    if is_missing(rt, log.as_str()) {
        Some(log)
    } else {
        None
    }
}

// Why the file could not be opened. A rollback journal beside it is `Storage`.
fn unopened(error: OpenError) -> Fault {
    match error {
        OpenError::Busy => Fault::InUse,
        OpenError::OutOfMemory => Fault::Memory,
        OpenError::Io(error) if error.kind() == ErrorKind::OutOfMemory => Fault::Memory,
        OpenError::Io(_) | OpenError::HotJournal => Fault::Storage,
    }
}
