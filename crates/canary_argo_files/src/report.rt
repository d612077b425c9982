//! What is found in files of manifests, and in what is made of them.
use crate::found::FileFindings;
use crate::placing::found_at;
use crate::reading::Manifests;
use canary_base::error::Memory;
use canary_check::attempt::check_attempt;
use canary_check::check::{CheckReport, check, check_ignored};
use canary_convert::conversion::Converted;
use canary_convert::finding::Finding;
use canary_convert::work::Made;
use canary_plan::templates::Templates;
use serde_json::Value;
use std::alloc::Global;

const NOTHING: &str = "no Rollout is here, and no AnalysisTemplate whose arguments have values";

/// What is found in files of manifests, noted of their translation, and warned of.
#[derive(Drop)]
pub(crate) struct FilesReport {
    pub(crate) found: FileFindings,
    pub(crate) notes: FileFindings,
    pub(crate) warnings: FileFindings,
}

impl FilesReport {
    // Nothing.
    fn new(alloc: Global) -> FilesReport {
        FilesReport {
            found: FileFindings::new(alloc),
            notes: FileFindings::new(alloc),
            warnings: FileFindings::new(alloc),
        }
    }
}

/// What is found in these files, of which this is made; `known` has the templates that are made. Or
/// `Memory`.
pub(crate) fn report_of(
    alloc: Global,
    manifests: &Manifests,
    made: &Converted,
    known: &Templates,
) -> Result<FilesReport, Memory> {
    let mut report = FilesReport::new(alloc);
    fill(alloc, &mut report, manifests, made, known)?;
    Ok(report)
}

// Adds all of it to an empty report.
fn fill(
    alloc: Global,
    report: &mut FilesReport,
    manifests: &Manifests,
    made: &Converted,
    known: &Templates,
) -> Result<(), Memory> {
    report.found.add_all(alloc, &manifests.found)?;
    add_placed(
        alloc,
        &mut report.found,
        manifests,
        made.findings.as_slice(),
    )?;
    report.found.count(made.more_findings);
    add_placed(alloc, &mut report.notes, manifests, made.notes.as_slice())?;
    report.notes.count(made.more_notes);
    add_placed(
        alloc,
        &mut report.warnings,
        manifests,
        made.warnings.as_slice(),
    )?;
    report.warnings.count(made.more_warnings);
    add_checked(alloc, report, manifests, made.templates.as_slice())?;
    add_checked(alloc, report, manifests, made.services.as_slice())?;
    add_ignored(
        alloc,
        &mut report.warnings,
        manifests,
        made.services.as_slice(),
    )?;
    if report.found.is_empty() {
        return add_of_all(alloc, &mut report.found, manifests, made, known);
    }
    Ok(())
}

// Adds what is found in all of it together, in which nothing else was found: that nothing is made,
// or attempts that the desk refuses.
fn add_of_all(
    alloc: Global,
    list: &mut FileFindings,
    manifests: &Manifests,
    made: &Converted,
    known: &Templates,
) -> Result<(), Memory> {
    if made.templates.is_empty() && made.services.is_empty() {
        return list.add(found_at(alloc, manifests, 0, "", NOTHING)?);
    }
    add_attempts(alloc, list, manifests, made.services.as_slice(), known)
}

// Adds what was found in the documents, with its places.
fn add_placed(
    alloc: Global,
    list: &mut FileFindings,
    manifests: &Manifests,
    findings: &[Finding],
) -> Result<(), Memory> {
    for finding in findings {
        let text = text_of(alloc, finding)?;
        let (source, path) = (finding.source as usize, finding.path.as_str());
        list.add(found_at(alloc, manifests, source, path, text.as_str())?)?;
    }
    Ok(())
}

// What it is, with the byte of a condition, from 1.
fn text_of(alloc: Global, finding: &Finding) -> Result<String, Memory> {
    let text = finding.text.as_str();
    match finding.at {
        Some(at) => Ok(format!(in alloc; "byte {}: {text}", at.saturating_add(1))?),
        None => Ok(String::from_str(alloc, text)?),
    }
}

// ---- what the checks of manifests find

// Adds what the check of each of these manifests finds, and warns of. Its parts have the places of
// those of the document that it was made of.
fn add_checked(
    alloc: Global,
    report: &mut FilesReport,
    manifests: &Manifests,
    made: &[Made],
) -> Result<(), Memory> {
    for manifest in made {
        let checked = check(alloc, manifest.json.as_bytes())?;
        add_found(alloc, &mut report.found, manifests, manifest, &checked)?;
        add_warnings(alloc, &mut report.warnings, manifests, manifest, &checked)?;
    }
    Ok(())
}

// Adds what is found in each service as the desk binds an attempt of it to these templates.
fn add_attempts(
    alloc: Global,
    list: &mut FileFindings,
    manifests: &Manifests,
    services: &[Made],
    known: &Templates,
) -> Result<(), Memory> {
    for service in services {
        let checked = check_attempt(alloc, known, service.json.as_bytes())?;
        add_found(alloc, list, manifests, service, &checked)?;
    }
    Ok(())
}

// Warns of what is left out of each of these services, though it means something in Argo.
fn add_ignored(
    alloc: Global,
    list: &mut FileFindings,
    manifests: &Manifests,
    services: &[Made],
) -> Result<(), Memory> {
    for service in services {
        if let Some(document) = document_of(manifests, service) {
            let checked = check_ignored(alloc, document)?;
            add_warnings(alloc, list, manifests, service, &checked)?;
        }
    }
    Ok(())
}

// The document of which a manifest was made: that of its source, or an item of the list there.
fn document_of<'a>(manifests: &'a Manifests, made: &Made) -> Option<&'a Value> {
    let source = manifests.sources.get(made.source as usize)?;
    match item_in(made.path.as_str()) {
        Some(item) => source.value.get("items")?.as_array()?.get(item),
        None => Some(&source.value),
    }
}

// The place in a list that a path `items[PLACE]` has.
fn item_in(path: &str) -> Option<usize> {
    let place = path.strip_prefix("items[")?;
    place.strip_suffix("]")?.parse::<usize>().ok()
}

// Adds what a check found in a manifest.
fn add_found(
    alloc: Global,
    list: &mut FileFindings,
    manifests: &Manifests,
    made: &Made,
    checked: &CheckReport,
) -> Result<(), Memory> {
    if checked.is_ok() {
        return Ok(());
    }
    add_lines(alloc, list, manifests, made, checked.text())
}

// Adds what a check warns of.
fn add_warnings(
    alloc: Global,
    list: &mut FileFindings,
    manifests: &Manifests,
    made: &Made,
    checked: &CheckReport,
) -> Result<(), Memory> {
    add_lines(alloc, list, manifests, made, checked.warnings())
}

// Adds the findings of these lines. A line that begins with four spaces belongs to the one before,
// and the last one may count those that have no line.
fn add_lines(
    alloc: Global,
    list: &mut FileFindings,
    manifests: &Manifests,
    made: &Made,
    lines: &str,
) -> Result<(), Memory> {
    for line in lines.lines() {
        if line.starts_with("    ") {
            list.add_to_last(alloc, line)?;
        } else if let Some(more) = more_in(line) {
            list.count(more as u64);
        } else if list.has_room() {
            add_line(alloc, list, manifests, made, line)?;
        } else {
            list.count(1);
        }
    }
    Ok(())
}

// How many more findings the line `and N more` counts.
fn more_in(line: &str) -> Option<usize> {
    let more = line.strip_prefix("and ")?;
    more.strip_suffix(" more")?.parse::<usize>().ok()
}

// Adds what a line of a check finds.
fn add_line(
    alloc: Global,
    list: &mut FileFindings,
    manifests: &Manifests,
    made: &Made,
    line: &str,
) -> Result<(), Memory> {
    let (path, text) = split(line);
    let whole = path_in(alloc, made.path.as_str(), path)?;
    list.add(found_at(alloc, manifests, made.source as usize, whole.as_str(), text)?)
}

// The path in a source of what stands at a path of a document there.
fn path_in(alloc: Global, document: &str, path: &str) -> Result<String, Memory> {
    let point = if document.is_empty() || path.is_empty() {
        ""
    } else {
        "."
    };
    Ok(format!(in alloc; "{document}{point}{path}")?)
}

// The path that a line of a check begins with, and what follows it.
fn split(line: &str) -> (&str, &str) {
    let end = line.find(|c: char| c == ':' || c == ' ' || c == ',');
    match end {
        Some(end) => {
            let (path, rest) = line.split_at(end);
            let text = rest.strip_prefix(": ").or(rest.strip_prefix(" "));
            (path, text.unwrap_or(rest))
        }
        None => ("", line),
    }
}
