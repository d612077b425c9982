//! What stands under the names of a desk's file and of its log, before they are opened.
ghost use Rattle.std.specs.Prelude.{◌≡◌, IfErr};
ghost use Rattle.canary_cli_desk.specs.Opened.{IsOfLook};
ghost use Rattle.canary_programs.specs.declared.fault.Fault.TheVariants as fault;

use canary_programs::fault::Fault;
use std::fs::{self, Files};
use std::io::{self, ErrorKind};

// The fewest bytes of a log that has a frame: its own header, that of the frame, and the smallest
// page of SQLite. A desk that failed as it made its file leaves less beside one without bytes.
const MIN_WITH_FRAME: u64 = 32 + 24 + 512;

// What stands under a name, where all links lead.
#[derive(Clone, Copy, Debug, PartialEq, Eq)]
enum Stands {
    // A file of so many bytes.
    File(u64),
    // A folder, a FIFO, a device or a socket.
    Other,
    // Nothing, as far as the system says so.
    Nothing,
}

// What has this name, where all links lead; `Nothing` also if the system does not say.
fn found_at<P: Files>(files: &P, name: &str) -> Stands {
    match fs::metadata(files, name) {
        Ok(found) if found.is_file() => Stands::File(found.len()),
        Ok(_) => Stands::Other,
        Err(_) => Stands::Nothing,
    }
}

/// How many bytes the file of this name has with its log, as far as the system says so.
pub(crate) fn bytes_of<P: Files + AllocGlobal>(rt: &P, file: &str) -> u64 {
    let in_file = length_of(rt, file);
    match log_of(rt, file) {
        Ok(log) => in_file.saturating_add(length_of(rt, log.as_str())),
        Err(_) => in_file,
    }
}

// How many bytes the file of this name has, where all links lead; 0 if there is none.
fn length_of<P: Files>(files: &P, name: &str) -> u64 {
    match found_at(files, name) {
        Stands::File(bytes) => bytes,
        Stands::Other | Stands::Nothing => 0,
    }
}

/// Looks at what stands under the names of a desk's file and of its log, and opens neither: to open
/// a FIFO could wait for ever.
///
/// # Errors
/// `Storage` if either is something else than a file. `LogAlone` if the file has no bytes, and its
/// log has a frame. `Memory` if an allocation was refused.
pub(crate) fn look_at_names<P: Files + AllocGlobal>(rt: &P, file: &str) -> Result<(), Fault>
    ensures { IfErr result IsOfLook }
{
    match found_at(rt, file) {
        Stands::File(bytes) => look_at_log(rt, file, bytes),
        Stands::Other => Err(Fault::Storage),
        Stands::Nothing => Ok(()),
    }
}

// Looks at the log of a file that has so many bytes.
fn look_at_log<P: Files + AllocGlobal>(rt: &P, file: &str, bytes: u64) -> Result<(), Fault>
    ensures { IfErr result IsOfLook }
{
    let log = match log_of(rt, file) {
        Ok(log) => log,
        Err(error) if error.kind() == ErrorKind::OutOfMemory => return Err(Fault::Memory),
        Err(_) => return Ok(()),
    };
    match found_at(rt, log.as_str()) {
        Stands::File(in_log) if bytes == 0 => refuse_frames(in_log),
        Stands::Other => Err(Fault::Storage),
        _ => Ok(()),
    }
}

/// Looks, if there is no file of this name, whether its log is there.
///
/// # Errors
/// `LogAlone` if it is, and has a frame. `Memory` if an allocation was refused.
pub(crate) fn look_for_log<P: Files + AllocGlobal>(rt: &P, file: &str) -> Result<(), Fault>
    ensures { IfErr result IsOfLook }
{
    if found_at(rt, file) != Stands::Nothing {
        return Ok(());
    }
    let log = format!(in rt.alloc(); "{file}-wal")?;
    match found_at(rt, log.as_str()) {
        Stands::File(in_log) => refuse_frames(in_log),
        _ => Ok(()),
    }
}

// Refuses a log of so many bytes if it has a frame, and has no file.
fn refuse_frames(bytes: u64) -> Result<(), Fault>
    ensures { IfErr result (λ f. f ≡ fault.LogAlone) }
{
    if bytes >= MIN_WITH_FRAME {
        return Err(Fault::LogAlone);
    }
    Ok(())
}

/// The name of the log of the file that is there under this name, where all links lead.
///
/// # Errors
/// What the system answers of the name, and `OutOfMemory` if an allocation was refused.
pub(crate) fn log_of<P: Files + AllocGlobal>(rt: &P, file: &str) -> io::Result<String> {
    let real = fs::canonicalize(rt, file)?;
    Ok(format!(in rt.alloc(); "{}-wal", real.as_str())?)
}
