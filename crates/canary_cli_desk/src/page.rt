//! `page`: the services of a desk as a page.
use crate::look::{Look, Sight, look_at};
use crate::shelf::{Shelf, look_at_folder};
use canary_backup::copying::Pair;
use canary_backup::draft::Draft;
use canary_programs::fault::Fault;
use std::io::Write;
use std::thread;
use std::time::Duration;

// The name of standard output.
const STANDARD_OUTPUT: &str = "-";

/// Draws a page of the services in a file, as they stand at the present moment, into the file of
/// the name `out`, or on `output` if that is `-`: once, or again each time after so many
/// seconds. The page is written beside the file of that name, to a file that its owner alone may
/// read, and renamed to it, so that this is always a whole page. It then has the mode that `Draft`
/// of canary_backup says. The desk's file is read as `status` reads it. In the folder `json`, if
/// there is one, files in JSON are written likewise, drawn from the same records at the same
/// moment: SERVICE.json for each service, with all its measurements and runs, and `_services.json`,
/// the list of them. The page has its name once they have theirs. Other files in the folder stay.
///
/// # Errors
/// As `status` of this crate; `File` also if `out`, or the name of a file in JSON, is a name that a
/// desk uses for this file, or another name of such a file, if what stands there is not a file, or
/// if no file can be made beside it, or given its name; if there is no folder `json`; and if `out`
/// stands in it and ends with `.json`, as the names of the files in JSON do. There is no part of a
/// page or of a file then, but for one on `output`.
pub(crate) fn page<W: Write, F: Write>(
    rt: &HostRuntime,
    file: &str,
    out: &str,
    json: Option<&str>,
    every: Option<u64>,
    output: &mut W,
    errors: &mut F,
    is_terminal: bool,
) -> Result<(), Fault> {
    page_once(rt, file, out, json, every, output, errors, is_terminal)?;
    let Some(seconds) = every else {
        return Ok(());
    };
    for _ in 0..u64::MAX {
        thread::sleep(rt, Duration::from_secs(seconds));
        page_once(rt, file, out, json, every, output, errors, is_terminal)?;
    }
    Ok(())
}

// Draws one page, with its files. The folder and the desk's file are looked for anew each time.
fn page_once<W: Write, F: Write>(
    rt: &HostRuntime,
    file: &str,
    out: &str,
    json: Option<&str>,
    every: Option<u64>,
    output: &mut W,
    errors: &mut F,
    is_terminal: bool,
) -> Result<(), Fault> {
    if let Some(folder) = json {
        look_at_folder(rt, folder, out)?;
    }
    let desk = Pair::found(rt, file)?;
    let shelf = shelf_of(json, &desk);
    let sight = Sight::Page { every, shelf };
    draw_to(rt, file, &desk, out, sight, output, errors, is_terminal)
}

// The folder for files in JSON, with the desk's own files, if one is asked for.
fn shelf_of<'a>(json: Option<&'a str>, desk: &'a Pair) -> Option<Shelf<'a>> {
    match json {
        Some(folder) => Some(Shelf { folder, desk }),
        None => None,
    }
}

// Draws on `output`, or into the file `out`, which must not be one of the desk's own.
fn draw_to<W: Write, F: Write>(
    rt: &HostRuntime,
    file: &str,
    desk: &Pair,
    out: &str,
    sight: Sight<'_>,
    output: &mut W,
    errors: &mut F,
    is_terminal: bool,
) -> Result<(), Fault> {
    if out == STANDARD_OUTPUT {
        return draw_whole(rt, file, sight, output, errors, is_terminal);
    }
    if desk.has_name(rt, out)? {
        return Err(Fault::File);
    }
    let mut draft = Draft::of(rt, out)?;
    let drawn = write_named(rt, file, &mut draft, sight, errors, is_terminal);
    if drawn.is_err() {
        draft.remove(rt);
    }
    drawn
}

// Draws the whole page there.
fn draw_whole<W: Write + Drop, F: Write>(
    rt: &HostRuntime,
    file: &str,
    sight: Sight<'_>,
    output: W,
    errors: &mut F,
    is_terminal: bool,
) -> Result<(), Fault> {
    let mut sight = Look::of(rt.alloc(), sight, output);
    look_at(rt, file, &mut sight, errors, is_terminal)?;
    sight.flush()
}

// Draws the page into a draft, and gives it its name once it is whole and on the disk.
fn write_named<F: Write>(
    rt: &HostRuntime,
    file: &str,
    draft: &mut Draft,
    sight: Sight<'_>,
    errors: &mut F,
    is_terminal: bool,
) -> Result<(), Fault> {
    draw_whole(rt, file, sight, draft.file(), errors, is_terminal)?;
    Ok(draft.name(rt)?)
}
