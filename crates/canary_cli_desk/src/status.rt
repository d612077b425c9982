//! `status`: the services of a desk at a glance.
use crate::look::{Look, Sight, look_at};
use canary_programs::fault::Fault;
use canary_programs::status::{Drawing, draw};
use std::io::{self, Write};
use std::thread;
use std::time::Duration;

/// Draws a table of the services in a file, and of their open runs, or a JSON value for each
/// service, as they stand at the present moment. No row of it is changed. If a desk has it open, or
/// this process may not write it, a copy is read, as `look_at` says.
///
/// # Errors
/// `File` if there is no such file, and nothing is made then, or if no copy can be made.
/// What `with_desk_file` answers, but `InUse` only if the file changes too fast to be copied.
/// `Write` if the output failed.
pub(crate) fn status<W: Write, F: Write>(
    rt: &HostRuntime,
    file: &str,
    drawing: Drawing,
    output: &mut W,
    errors: &mut F,
    is_terminal: bool,
) -> Result<(), Fault> {
    status_once(rt, file, drawing, output, errors, is_terminal)?;
    let Some(seconds) = drawing.every else {
        return Ok(());
    };
    for _ in 0..u64::MAX {
        thread::sleep(rt, Duration::from_secs(seconds));
        status_once(rt, file, drawing, output, errors, is_terminal)?;
    }
    Ok(())
}

// Draws the status once. The file is closed before anything is written to `output`.
fn status_once<W: Write, F: Write>(
    rt: &HostRuntime,
    file: &str,
    drawing: Drawing,
    output: &mut W,
    errors: &mut F,
    is_terminal: bool,
) -> Result<(), Fault> {
    let mut sight = Look::of(rt.alloc(), Sight::Status(drawing), io::sink());
    look_at(rt, file, &mut sight, errors, is_terminal)?;
    draw(sight.text(), drawing, output)
}
