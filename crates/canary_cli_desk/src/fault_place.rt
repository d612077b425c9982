//! What a program works on, which a second line names if that fails: on a terminal, or if people
//! have to do something before the program can go on.
ghost use Rattle.std.specs.Prelude.{◌≡◌};

use crate::migrate::is_of_first_version;
use canary_base::lists::Text;
use canary_cli_words::words::Program;
use canary_programs::fault::Fault;
use canary_shown::text::{TextKind, shown};
use std::alloc::{AllocError, Global};
use std::io::Write;

// How a file of the first version becomes one of this version.
const FIRST_VERSION: &str =
    "is a file of the first version; 'canary migrate' makes it a file of this version";

// How records go on of which the log is there alone.
const LOG_ALONE: &str = concat!(
    "the file is missing or empty, and its log (the same name with -wal) has records; ",
    "put back the file that belongs to the log, or restore both from a backup; ",
    "to begin anew, move the log away"
);

// How records go on whose file was moved, removed, replaced or linked while a desk had it open.
const REPLACED: &str = concat!(
    "the path no longer leads to the file that the desk had open, or that has another hard link; ",
    "nothing more was written to it; put back the file and log that are to be served, ",
    "with one link each, and start the desk again"
);

/// The address and the files of a program, as its words name them; nothing if it has none.
#[derive(Drop)]
pub struct FaultPlace {
    address: String,
    files: String,
    // The file of the records; nothing if there is none.
    db: String,
    is_terminal: bool,
}

impl FaultPlace {
    /// Of a program whose error stream is a terminal or not. If an allocation was refused,
    /// nothing is named.
    pub fn of(alloc: Global, program: &Program, is_terminal: bool) -> FaultPlace {
        match FaultPlace::named(alloc, program, is_terminal) {
            Ok(place) => place,
            Err(_) => FaultPlace::nowhere(alloc, is_terminal),
        }
    }

    // A place without names, for when there is no memory for them.
    fn nowhere(alloc: Global, is_terminal: bool) -> FaultPlace {
        FaultPlace {
            address: String::new(alloc),
            files: String::new(alloc),
            db: String::new(alloc),
            is_terminal,
        }
    }

    // The address and the files in the words of the program, if there is memory for them.
    fn named(
        alloc: Global,
        program: &Program,
        is_terminal: bool,
    ) -> Result<FaultPlace, AllocError> {
        Ok(FaultPlace {
            address: address_of(alloc, program)?,
            files: files_of(alloc, program)?,
            db: db_of(alloc, program)?,
            is_terminal,
        })
    }

    // What of it a fault is about, as far as that is shown.
    fn about(&self, fault: Fault) -> &str {
        match fault {
            Fault::LogAlone | Fault::Replaced => self.db.as_str(),
            _ if !self.is_terminal => "",
            Fault::Listen => self.address.as_str(),
            Fault::File | Fault::InUse | Fault::Storage => self.files.as_str(),
            Fault::OtherSchema | Fault::BrokenRow => self.files.as_str(),
            _ => "",
        }
    }

    /// Says on a terminal what a fault is about, and in words what it is, if that is known; and of
    /// a file of the first version, how it becomes one of this version. Of a file that is gone it
    /// says everywhere what was found, and what to do. Characters of a name that would command a
    /// terminal are escaped. A fault of `errors`, and memory that is refused for the line, are
    /// ignored.
    pub fn tell<F: Write>(&self, rt: &HostRuntime, fault: Fault, errors: &mut F) {
        let about = self.about(fault);
        if about.is_empty() {
            return;
        }
        let what = self.advice(rt, fault);
        let line = if what.is_empty() {
            format!(in rt.alloc(); "{about}: {fault}")
        } else {
            let file = self.db.as_str();
            format!(in rt.alloc(); "{file}: {what}")
        };
        if let Ok(line) = line {
            put_line(rt.alloc(), line.as_str(), errors);
        }
    }

    // What to do if a fault is of the file of the records, and there is more to say than the
    // fault.
    fn advice(&self, rt: &HostRuntime, fault: Fault) -> &'static str {
        match fault {
            Fault::LogAlone => LOG_ALONE,
            Fault::Replaced => REPLACED,
            _ if self.is_of_first_version(rt, fault) => FIRST_VERSION,
            _ => "",
        }
    }

    // Whether the fault is that the records are of the first version.
    fn is_of_first_version(&self, rt: &HostRuntime, fault: Fault) -> bool {
        fault == Fault::OtherSchema && is_of_first_version(rt, self.db.as_str())
    }
}

// Writes a line, in which the marks of names are escaped; nothing if memory is refused for that.
fn put_line<F: Write>(alloc: Global, line: &str, errors: &mut F) {
    if let Ok(line) = shown(alloc, line, TextKind::Line) {
        let _ = errors.write_all(line.as_bytes());
        let _ = errors.write_all(b"\n");
    }
}

// The address on which `Serve` listens; empty for any other program.
fn address_of(alloc: Global, program: &Program) -> Result<String, AllocError> {
    match program {
        Program::Serve { listen, .. } => listed(alloc, Some(listen), None),
        _ => listed(alloc, None, None),
    }
}

// The files that a fault of the program may be about, with a comma between; empty without any.
fn files_of(alloc: Global, program: &Program) -> Result<String, AllocError> {
    match program {
        Program::Pipe { db, .. } => listed(alloc, db.as_ref(), None),
        Program::Serve { db, .. } => listed(alloc, db.as_ref(), None),
        Program::Import { db, csv, .. } => listed(alloc, Some(db), Some(csv)),
        Program::History { db, .. } => listed(alloc, Some(db), None),
        Program::Export { db, .. } => listed(alloc, Some(db), None),
        Program::Status { db, .. } => listed(alloc, Some(db), None),
        Program::Page { db, out, json, .. } => page_files(alloc, db, out, json.as_ref()),
        Program::Backup { db, copy, .. } => listed(alloc, Some(db), Some(copy)),
        Program::Migrate { db, .. } => listed(alloc, Some(db), None),
        Program::Succeed { db, new } => listed(alloc, Some(db), Some(new)),
        Program::Check { file, request, .. } => listed(alloc, file.as_ref(), request.as_ref()),
        Program::Argo { files, out, .. } => argo_files(alloc, files.as_slice(), out.as_ref()),
        Program::Ask(_) => listed(alloc, None, None),
    }
}

// The file of the records, the page, and the folder of the services' JSON, if there is one.
fn page_files(
    alloc: Global,
    db: &Text,
    out: &Text,
    json: Option<&Text>,
) -> Result<String, AllocError> {
    match json {
        None => listed(alloc, Some(db), Some(out)),
        Some(folder) => {
            let (db, out, folder) = (db.as_str(), out.as_str(), folder.as_str());
            Ok(format!(in alloc; "{db}, {out}, {folder}")?)
        }
    }
}

// The files of manifests, and the folder for what they become, if there is one.
fn argo_files(alloc: Global, files: &[Text], folder: Option<&Text>) -> Result<String, AllocError> {
    let mut names = String::new(alloc);
    for file in files {
        push_name(&mut names, file.as_str())?;
    }
    if let Some(folder) = folder {
        push_name(&mut names, folder.as_str())?;
    }
    Ok(names)
}

// Appends a name, with a comma before it if it is not the first; nothing if it is empty.
fn push_name(names: &mut String, name: &str) -> Result<(), AllocError> {
    if !names.is_empty() && !name.is_empty() {
        names.push_str(", ")?;
    }
    names.push_str(name)
}

// The file of the records.
fn db_of(alloc: Global, program: &Program) -> Result<String, AllocError> {
    match program {
        Program::Pipe { db, .. } | Program::Serve { db, .. } => listed(alloc, db.as_ref(), None),
        Program::Import { db, .. } | Program::History { db, .. } => listed(alloc, Some(db), None),
        Program::Export { db, .. } | Program::Status { db, .. } => listed(alloc, Some(db), None),
        Program::Page { db, .. } | Program::Succeed { db, .. } => listed(alloc, Some(db), None),
        Program::Backup { db, .. } | Program::Migrate { db, .. } => listed(alloc, Some(db), None),
        Program::Check { .. } | Program::Argo { .. } => listed(alloc, None, None),
        Program::Ask(_) => listed(alloc, None, None),
    }
}

// One or two names, with a comma between.
fn listed(
    alloc: Global,
    first: Option<&Text>,
    second: Option<&Text>,
) -> Result<String, AllocError> {
    match (first, second) {
        (Some(first), Some(second)) => {
            Ok(format!(in alloc; "{}, {}", first.as_str(), second.as_str())?)
        }
        (Some(one), None) => Ok(format!(in alloc; "{}", one.as_str())?),
        (None, Some(one)) => Ok(format!(in alloc; "{}", one.as_str())?),
        (None, None) => Ok(String::new(alloc)),
    }
}
