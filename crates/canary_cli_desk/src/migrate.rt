//! `migrate`: a file of the first version becomes one of this version.
use crate::checking::CheckDisplay;
use crate::exclusive_file::ExclusiveFile;
use crate::named::bytes_of;
use crate::open::{TablesVersion, fault_of, find, has_other_bytes, is_blank, tables_version};
use crate::progress::ProgressDisplay;
use canary_backup::folder::OwnCopy;
use canary_migrate::upgrade::upgrade;
use canary_programs::fault::Fault;
use canary_tables_file::reading::ReadingProgress;
use std::io::Write;

/// Makes a desk's file of the first version one of this version, in one transaction, and writes
/// `migrated`; of a file of this version it writes `current`, and changes nothing. The rows of a
/// file of the first version are judged before the transaction commits, which is shown on
/// standard error. A dry run does the same to a copy, which stands meanwhile where `OwnCopy` of
/// canary_backup says, in a folder that its owner alone may read, or beside the file if there is no
/// room; it writes `would-migrate` in place of `migrated`, and does not change the file, which it
/// opens as the other does, and which nobody else can open meanwhile. No log is made beside a file
/// that does not begin as a database, and nothing is written to an empty one.
///
/// # Errors
/// `File` if there is no such file, and nothing is made then, or if no copy can be made. `InUse` if
/// another program has the file open; `OtherSchema` if it is of neither version; `BrokenRow` if its
/// rows are not those that a desk of the first version leaves; `Memory` if an allocation was
/// refused; `Storage` if the file cannot be opened to be read and written, has another hard link or
/// a rollback journal beside it, is not a file or a database, or fails; `LogAlone` if it has no
/// bytes, and its log has a frame. The file is as it was then. `Write` if the output failed: the
/// file is migrated then.
pub(crate) fn migrate<W: Write, F: Write>(
    rt: &HostRuntime,
    file: &str,
    is_dry: bool,
    output: &mut W,
    errors: &mut F,
    is_terminal: bool,
) -> Result<(), Fault> {
    find(rt, file)?;
    if has_other_bytes(rt, file)? {
        return Err(Fault::Storage);
    }
    if is_blank(rt, file)? {
        return Err(Fault::OtherSchema);
    }
    let is_new = if is_dry {
        upgrade_copy(rt, file, errors, is_terminal)?
    } else {
        upgrade_file(rt, file, errors, is_terminal)?
    };
    match output
        .write_all(line_of(is_new, is_dry))
        .and_then(|()| output.flush())
    {
        Ok(()) => Ok(()),
        Err(_) => Err(Fault::Write),
    }
}

// What is written of a file that was made one of this version, or is one already.
fn line_of(is_new: bool, is_dry: bool) -> &'static [u8] {
    match (is_new, is_dry) {
        (true, false) => b"migrated\n",
        (true, true) => b"would-migrate\n",
        (false, _) => b"current\n",
    }
}

// Whether the file of this name was of the first version, and is one of this version now.
fn upgrade_file<F: Write>(
    rt: &HostRuntime,
    file: &str,
    errors: &mut F,
    is_terminal: bool,
) -> Result<bool, Fault> {
    let bytes = bytes_of(rt, file);
    let check = CheckDisplay::begun(rt, bytes, is_terminal);
    let mut shown = ProgressDisplay::judging(rt, errors, is_terminal, bytes, &check);
    let upgraded = upgrade(rt, file, check.again(), &mut shown);
    shown.end();
    upgraded.map_err(fault_of)
}

// The same of a copy of the file, which nobody else may write while it is copied.
fn upgrade_copy<F: Write>(
    rt: &HostRuntime,
    file: &str,
    errors: &mut F,
    is_terminal: bool,
) -> Result<bool, Fault> {
    let held = ExclusiveFile::open(rt, file)?;
    let upgraded = upgrade_copied(rt, file, errors, is_terminal);
    held.close(rt);
    upgraded
}

// To migrate a copy takes more room than to make it, which may not be there except beside the file.
fn upgrade_copied<F: Write>(
    rt: &HostRuntime,
    file: &str,
    errors: &mut F,
    is_terminal: bool,
) -> Result<bool, Fault> {
    let copy = OwnCopy::of(rt, file, "migrate-copy")?;
    match upgrade_own_copy(rt, &copy, errors, is_terminal) {
        Err(Fault::Storage) => {
            let copy = OwnCopy::beside(rt, file, "migrate-copy")?;
            upgrade_own_copy(rt, &copy, errors, is_terminal)
        }
        upgraded => upgraded,
    }
}

// Migrates a copy, and removes it then.
fn upgrade_own_copy<F: Write>(
    rt: &HostRuntime,
    copy: &OwnCopy,
    errors: &mut F,
    is_terminal: bool,
) -> Result<bool, Fault> {
    let upgraded = upgrade_file(rt, copy.database(), errors, is_terminal);
    copy.remove(rt);
    upgraded
}

/// Whether the file of this name is a desk's of the first version, by its tables alone, as far as
/// it can be opened.
pub(crate) fn is_of_first_version(rt: &HostRuntime, file: &str) -> bool {
    matches!(tables_version(rt, file), Ok(TablesVersion::First))
}
