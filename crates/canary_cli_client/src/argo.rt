//! `argo`: what manifests of Argo Rollouts become, without a desk.
use crate::exit::ManifestExit;
use canary_argo_files::found::FileFindings;
use canary_argo_files::reading::{FileReadFault, Manifests, STANDARD_INPUT, read_files};
use canary_argo_files::shown::{json_of, plan_of, text_of};
use canary_argo_files::translated::{Translated, translate};
use canary_backup::draft::Draft;
use canary_backup::node::Node;
use canary_base::lists::{Listed, Text};
use canary_convert::work::Made;
use canary_programs::drafts::end_draft;
use canary_programs::fault::Fault;
use canary_programs::show::show;
use canary_shown::text::{TextKind, shown};
use std::fs::create_dir_all;
use std::io::{self, Read, Write};

const NOTE: &str = "canary: note: ";

const WARNING: &str = "canary: warning: ";

// The name under which the system has the file that standard input is.
const INPUT_FILE: &str = "/proc/self/fd/0";

/// Writes on `output` what these files become, or what is found in them; with `json` as one value
/// in JSON. With `out` it also writes each manifest to that folder, which it makes if it does not
/// exist, and the plan, but nothing if anything is found, or if it would write over one of these
/// files. Notes and warnings go to `errors`, if not into the JSON.
///
/// # Errors
/// `File` if a file cannot be read, or nothing can be written to the folder, and a line on `errors`
/// says which file it is; `Memory` if an allocation was refused; `Write` if the output failed.
pub fn argo<R: Read, W: Write, F: Write>(
    rt: &HostRuntime,
    files: &Listed<Text>,
    out: &Option<Text>,
    json: bool,
    input: &mut R,
    output: &mut W,
    errors: &mut F,
) -> Result<ManifestExit, Fault> {
    let manifests = manifests_of(rt, files, input, errors)?;
    let Ok(translated) = translate(rt.alloc(), &manifests) else {
        return Err(Fault::Memory);
    };
    let is_found = translated.is_found();
    if !is_found {
        write_to(rt, &translated, out, files.as_slice(), errors)?;
    }
    show_all(rt, &manifests, &translated, json, output, errors)?;
    Ok(if is_found {
        ManifestExit::Findings
    } else {
        ManifestExit::Done
    })
}

// The documents of these files. If one of them cannot be read, its name goes to `errors`.
fn manifests_of<R: Read, F: Write>(
    rt: &HostRuntime,
    files: &Listed<Text>,
    input: &mut R,
    errors: &mut F,
) -> Result<Manifests, Fault> {
    match read_files(rt, files.as_slice(), input) {
        Ok(manifests) => Ok(manifests),
        Err(FileReadFault::Memory) => Err(Fault::Memory),
        Err(FileReadFault::File(index)) => {
            if let Some(name) = files.as_slice().get(index) {
                tell_unread(rt, name.as_str(), errors);
            }
            Err(Fault::File)
        }
    }
}

// Writes to `errors` which file cannot be read. Faults of that are ignored.
fn tell_unread<F: Write>(rt: &HostRuntime, name: &str, errors: &mut F) {
    let Ok(name) = shown(rt.alloc(), name, TextKind::Line) else {
        return;
    };
    let Ok(line) = format!(in rt.alloc(); "canary: cannot read {name}\n") else {
        return;
    };
    let _ = errors.write_all(line.as_bytes());
}

// ---- what is written

// Writes what is made of these files to that folder, if one is given.
fn write_to<F: Write>(
    rt: &HostRuntime,
    translated: &Translated,
    out: &Option<Text>,
    inputs: &[Text],
    errors: &mut F,
) -> Result<(), Fault> {
    let Some(folder) = out else {
        return Ok(());
    };
    let folder = folder.as_str();
    if folder.is_empty() || create_dir_all(rt, folder).is_err() {
        return Err(Fault::File);
    }
    keep_inputs(rt, folder, translated, inputs, errors)?;
    write_each(rt, folder, translated.made.templates.as_slice(), "template")?;
    write_each(rt, folder, translated.made.services.as_slice(), "rollout")?;
    match plan_of(rt.alloc(), translated) {
        Ok(plan) => write_file(rt, folder, "plan", plan.as_str()),
        Err(_) => Err(Fault::Memory),
    }
}

// Refuses to write over one of these files, which were read.
fn keep_inputs<F: Write>(
    rt: &HostRuntime,
    folder: &str,
    translated: &Translated,
    inputs: &[Text],
    errors: &mut F,
) -> Result<(), Fault> {
    let made = &translated.made;
    keep_each(
        rt,
        folder,
        made.templates.as_slice(),
        "template",
        inputs,
        errors,
    )?;
    keep_each(
        rt,
        folder,
        made.services.as_slice(),
        "rollout",
        inputs,
        errors,
    )?;
    keep_input(rt, folder, "plan", inputs, errors)
}

// The same of the file NAME.KIND.json of each of these manifests.
fn keep_each<F: Write>(
    rt: &HostRuntime,
    folder: &str,
    made: &[Made],
    kind: &str,
    inputs: &[Text],
    errors: &mut F,
) -> Result<(), Fault> {
    for manifest in made {
        let name = name_of(rt, manifest, kind)?;
        keep_input(rt, folder, name.as_str(), inputs, errors)?;
    }
    Ok(())
}

// The same of the file FOLDER/NAME.json. If it is one of these, its name goes to `errors`.
fn keep_input<F: Write>(
    rt: &HostRuntime,
    folder: &str,
    name: &str,
    inputs: &[Text],
    errors: &mut F,
) -> Result<(), Fault> {
    let path = path_of(rt, folder, name)?;
    if is_input(rt, path.as_str(), inputs) {
        tell_input(rt, path.as_str(), errors);
        return Err(Fault::File);
    }
    Ok(())
}

// Whether the file of this name is one of these, where all links lead.
fn is_input(rt: &HostRuntime, path: &str, inputs: &[Text]) -> bool {
    match Node::led_to(rt, path) {
        Some(found) => is_any(rt, found, inputs),
        None => false,
    }
}

// Whether this file is one of those.
fn is_any(rt: &HostRuntime, found: Node, inputs: &[Text]) -> bool {
    for input in inputs {
        if Node::led_to(rt, place_of(input.as_str())) == Some(found) {
            return true;
        }
    }
    false
}

// The name under which the system has the input of this name.
fn place_of(input: &str) -> &str {
    if input == STANDARD_INPUT {
        INPUT_FILE
    } else {
        input
    }
}

// Writes to `errors` that this file was read. Faults of that are ignored.
fn tell_input<F: Write>(rt: &HostRuntime, name: &str, errors: &mut F) {
    let Ok(name) = shown(rt.alloc(), name, TextKind::Line) else {
        return;
    };
    let Ok(line) = format!(in rt.alloc(); "canary: {name} is one of the files that argo read\n")
    else {
        return;
    };
    let _ = errors.write_all(line.as_bytes());
}

// The name NAME.KIND of a manifest's file, without its end.
fn name_of(rt: &HostRuntime, manifest: &Made, kind: &str) -> Result<String, Fault> {
    let name = manifest.name.as_str();
    match format!(in rt.alloc(); "{name}.{kind}") {
        Ok(name) => Ok(name),
        Err(_) => Err(Fault::Memory),
    }
}

// The name of the file FOLDER/NAME.json.
fn path_of(rt: &HostRuntime, folder: &str, name: &str) -> Result<String, Fault> {
    match format!(in rt.alloc(); "{folder}/{name}.json") {
        Ok(path) => Ok(path),
        Err(_) => Err(Fault::Memory),
    }
}

// Writes each manifest to the file NAME.KIND.json.
fn write_each(rt: &HostRuntime, folder: &str, made: &[Made], kind: &str) -> Result<(), Fault> {
    for manifest in made {
        let name = name_of(rt, manifest, kind)?;
        write_file(rt, folder, name.as_str(), manifest.json.as_str())?;
    }
    Ok(())
}

// Writes a line to the file FOLDER/NAME.json, which is always whole: it takes the place of what
// stood there once it is on the disk.
fn write_file(rt: &HostRuntime, folder: &str, name: &str, line: &str) -> Result<(), Fault> {
    let path = path_of(rt, folder, name)?;
    let mut draft = Draft::of(rt, path.as_str())?;
    let written = write_line(&mut draft, line).map_err(|_| Fault::File);
    end_draft(rt, &draft, written)
}

// Writes the line and a line feed.
fn write_line(draft: &mut Draft, line: &str) -> io::Result<()> {
    draft.file().write_all(line.as_bytes())?;
    draft.file().write_all(b"\n")
}

// ---- what is shown

// Shows what is made, or found.
fn show_all<W: Write, F: Write>(
    rt: &HostRuntime,
    manifests: &Manifests,
    translated: &Translated,
    json: bool,
    output: &mut W,
    errors: &mut F,
) -> Result<(), Fault> {
    let text = if json {
        json_of(rt.alloc(), manifests, translated)
    } else {
        text_of(rt.alloc(), manifests, translated)
    };
    let Ok(text) = text else {
        return Err(Fault::Memory);
    };
    show(text.as_str(), output)?;
    if json {
        return Ok(());
    }
    tell_notes(rt, manifests, translated, errors)
}

// Writes each note and each warning to `errors`, with a prefix, as a line of its own.
fn tell_notes<F: Write>(
    rt: &HostRuntime,
    manifests: &Manifests,
    translated: &Translated,
    errors: &mut F,
) -> Result<(), Fault> {
    let notes = lines_of(rt, manifests, &translated.notes)?;
    let warnings = lines_of(rt, manifests, &translated.warnings)?;
    tell_each(notes.as_str(), NOTE, errors);
    tell_each(warnings.as_str(), WARNING, errors);
    Ok(())
}

// A line for each of these.
fn lines_of(rt: &HostRuntime, manifests: &Manifests, list: &FileFindings) -> Result<String, Fault> {
    match list.lines(rt.alloc(), manifests) {
        Ok(lines) => Ok(lines),
        Err(_) => Err(Fault::Memory),
    }
}

// Writes each line to `errors`, with a prefix. Faults of that are ignored.
fn tell_each<F: Write>(lines: &str, prefix: &str, errors: &mut F) {
    for line in lines.lines() {
        let _ = errors.write_all(prefix.as_bytes());
        let _ = errors.write_all(line.as_bytes());
        let _ = errors.write_all(b"\n");
    }
}
