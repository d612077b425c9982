//! `backup`: a copy of a desk's file, also while a desk serves it.
use crate::open::{TablesVersion, has_other_bytes, tables_version};
use canary_backup::copying::StagedCopy;
use canary_backup::series::{is_folder, is_taken, name_at, path_in, prune};
use canary_listen::wall_clock::WallClock;
use canary_programs::fault::Fault;
use std::thread;
use std::time::Duration;

// How often a copy is begun whose name, that of its second, is taken.
const MAX_NAMES_TRIED: u32 = 100;

/// Copies a desk's file of SQLite, with its log, to `copy` and `copy`-wal, also while a desk serves
/// it. The copy has its names once it is whole, was opened and has a desk's tables, of this version
/// or the first, and is on the disk. Its rows are not judged.
///
/// # Errors
/// What `StagedCopy::of` of canary_backup answers. `OtherSchema` if the file is not a database of
/// SQLite, or its tables are not a desk's, of this version or the first; `Storage` if the copy
/// cannot be opened; `Memory` if an allocation was refused. There is no copy then.
pub(crate) fn backup(rt: &HostRuntime, file: &str, copy: &str) -> Result<(), Fault> {
    if has_other_bytes(rt, file)? {
        return Err(Fault::OtherSchema);
    }
    let part = StagedCopy::of(rt, file, copy)?;
    let named = name_desk(rt, &part);
    if named.is_err() {
        part.remove(rt);
    }
    named
}

// Gives the copy its names, if it is a desk's.
fn name_desk(rt: &HostRuntime, part: &StagedCopy) -> Result<(), Fault> {
    look_for_desk(rt, part.database())?;
    Ok(part.name(rt)?)
}

// Reads whether the tables of the database in this file are a desk's, of this version or the first.
fn look_for_desk(rt: &HostRuntime, file: &str) -> Result<(), Fault> {
    match tables_version(rt, file)? {
        TablesVersion::Desk | TablesVersion::First => Ok(()),
        TablesVersion::Other => Err(Fault::OtherSchema),
    }
}

/// Makes a copy of a desk's file in a folder at once, and again each time after so many seconds,
/// until one fails. A copy is as `backup` makes it, and has the name `desk-YYYYMMDDTHHMMSSZ.db`, by
/// the moment of UTC at which it begins, and its log the same with `-wal`. If something of one of
/// these names is there, the copy is begun a second later, 100 times at most. With `keep`, once a
/// copy is whole, the oldest are removed as `prune` of canary_backup does it.
///
/// # Errors
/// `File` if there is no such folder, or no name is free; what `backup` answers, and what `prune`
/// does. What was copied before is there then.
pub(crate) fn backup_each(
    rt: &HostRuntime,
    file: &str,
    folder: &str,
    every: u64,
    keep: Option<u64>,
) -> Result<(), Fault> {
    backup_next(rt, file, folder, keep)?;
    for _ in 0..u64::MAX {
        thread::sleep(rt, Duration::from_secs(every));
        backup_next(rt, file, folder, keep)?;
    }
    Ok(())
}

// Makes one copy more, and removes the oldest if there are too many.
fn backup_next(rt: &HostRuntime, file: &str, folder: &str, keep: Option<u64>) -> Result<(), Fault> {
    if !is_folder(rt, folder) {
        return Err(Fault::File);
    }
    for _ in 0..MAX_NAMES_TRIED {
        if is_backed_up(rt, file, folder, keep)? {
            return Ok(());
        }
        thread::sleep(rt, Duration::from_secs(1));
    }
    Err(Fault::File)
}

// Makes a copy of the present second and removes the oldest, if the name of the copy is free.
fn is_backed_up(
    rt: &HostRuntime,
    file: &str,
    folder: &str,
    keep: Option<u64>,
) -> Result<bool, Fault> {
    let name = present_name(rt)?;
    let path = path_in(rt.alloc(), folder, name.as_str())?;
    if !is_copied(rt, file, path.as_str())? {
        return Ok(false);
    }
    match keep {
        Some(keep) => prune(rt, file, folder, name.as_str(), keep)?,
        None => (),
    }
    Ok(true)
}

// The name of a copy that begins now.
fn present_name(rt: &HostRuntime) -> Result<String, Fault> {
    let mut moment = String::new(rt.alloc());
    WallClock::new(rt).tell().text(&mut moment)?;
    Ok(name_at(rt.alloc(), moment.as_str())?)
}

// Copies a desk's file to this path, if that is free, also once another process copied to it.
fn is_copied(rt: &HostRuntime, file: &str, path: &str) -> Result<bool, Fault> {
    if is_taken(rt, path)? {
        return Ok(false);
    }
    match backup(rt, file, path) {
        Ok(()) => Ok(true),
        Err(Fault::File) if is_taken(rt, path)? => Ok(false),
        Err(fault) => Err(fault),
    }
}
