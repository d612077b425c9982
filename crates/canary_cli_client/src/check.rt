//! `check`: what the desk would refuse of a manifest, or of a request's body.
ghost use Rattle.std.specs.Prelude.{◌≡◌, true, false, Bool, Ok, IfOk, IfErr, IsTrue, codes};
ghost use Rattle.std.specs.Io.KnownBytes.{Appends};
ghost use Rattle.canary_check.specs.Taken.{is_request_taken, is_taken};
ghost use Rattle.canary_check.specs.Waiting.{is_attended, is_request_attended};
ghost use Rattle.canary_cli_client.specs.Checked.{IsCheckShown};

use crate::exit::ManifestExit;
use crate::yaml::{self, ManifestContent};
use canary_argo_files::reading::MAX_BYTES;
use canary_check::check::CheckReport;
use canary_programs::fault::Fault;
use canary_programs::show::show;
use canary_yaml::read::Document;
use std::alloc::Global;
use std::fs::{File, Files};
use std::io::{self, ErrorKind, Read, Write};

const WARNING: &str = "canary: warning: ";

/// What is checked.
#[derive(Clone, Copy, Debug, PartialEq, Eq)]
pub enum Checked<'a> {
    /// The manifests in the file of this name.
    Manifest(&'a str),
    /// The request's body in the file of this name.
    Body(&'a str),
}

/// Writes `ok` if the desk takes what is checked, and otherwise what it would refuse of it. What it
/// warns of goes to `errors`, unless the check is `strict`: each warning is a finding then.
///
/// # Errors
/// `File` if the file cannot be read; `Memory` if an allocation was refused; `Write` if the output
/// failed.
pub fn check<P: Files + AllocGlobal, W: Write, F: Write>(
    rt: &P,
    checked: Checked<'_>,
    strict: bool,
    output: &mut W,
    errors: &mut F,
) -> Result<ManifestExit, Fault>
    ensures { result ≡ Ok ManifestExit.Done
        → Appends (W.contents output.old) (W.contents output.new) (codes "ok\n") }
{
    match checked {
        Checked::Manifest(file) => check_manifest(rt, file, strict, output, errors),
        Checked::Body(file) => check_request(rt, file, strict, output, errors),
    }
}

// Writes `ok` if the desk takes the manifests in the file of this name, and otherwise what it would
// refuse of them: of one in JSON, or of each document in YAML.
fn check_manifest<P: Files + AllocGlobal, W: Write, F: Write>(
    rt: &P,
    file: &str,
    strict: bool,
    output: &mut W,
    errors: &mut F,
) -> Result<ManifestExit, Fault>
    ensures { result ≡ Ok ManifestExit.Done
        → Appends (W.contents output.old) (W.contents output.new) (codes "ok\n") }
{
    let manifest = read_file(rt, file)?;
    match yaml::documents_of(rt.alloc(), manifest.as_slice())? {
        ManifestContent::Documents(documents) => {
            check_documents(rt.alloc(), documents.as_slice(), strict, output, errors)
        }
        ManifestContent::Refused(why) => {
            show(why.as_str(), output)?;
            Ok(ManifestExit::Findings)
        }
        ManifestContent::Json => check_bytes(
            rt.alloc(),
            manifest.as_slice(),
            strict,
            output,
            errors,
        ),
    }
}

// Writes `ok` if the desk takes each of these manifests, and otherwise what it would refuse of
// them.
fn check_documents<W: Write, F: Write>(
    alloc: Global,
    documents: &[Document],
    strict: bool,
    output: &mut W,
    errors: &mut F,
) -> Result<ManifestExit, Fault>
    ensures { result ≡ Ok ManifestExit.Done
        → Appends (W.contents output.old) (W.contents output.new) (codes "ok\n") }
{
    let mut found = String::new(alloc);
    let is_one = documents.len() == 1;
    for document in documents {
        let line = if is_one { 0 } else { document.line };
        add_found(alloc, &mut found, document, line, strict, errors)?;
    }
    if found.is_empty() {
        show("ok\n", output)?;
        return Ok(ManifestExit::Done);
    }
    show(found.as_str(), output)?;
    Ok(ManifestExit::Findings)
}

// Adds what the desk would refuse of a document, and warns of what it takes; each with the line in
// which the document begins, unless that is 0.
fn add_found<F: Write>(
    alloc: Global,
    found: &mut String,
    document: &Document,
    line: usize,
    strict: bool,
    errors: &mut F,
) -> Result<(), Fault> {
    let findings = counted(alloc, found_in(alloc, document)?, strict)?;
    let mut warned = String::new(alloc);
    add_lines(&mut warned, findings.warnings(), line)?;
    warn(warned.as_str(), errors);
    if findings.is_ok() {
        return Ok(());
    }
    add_lines(found, findings.text(), line)
}

// Adds lines, each with the line in which its document begins, unless that is 0.
fn add_lines(found: &mut String, lines: &str, line: usize) -> Result<(), Fault> {
    match yaml::add_lines(found, lines, line) {
        Ok(()) => Ok(()),
        Err(_) => Err(Fault::Memory),
    }
}

// What is found in a document, as JSON.
fn found_in(alloc: Global, document: &Document) -> Result<CheckReport, Fault>
    ensures memory { IfErr result (λ fault. fault ≡ Fault.Memory) }
{
    let Ok(json) = document.value.to_string(alloc) else {
        return Err(Fault::Memory);
    };
    match canary_check::check::check(alloc, json.as_bytes()) {
        Ok(findings) => Ok(findings),
        Err(_) => Err(Fault::Memory),
    }
}

// The same of the request's body in the file of this name.
fn check_request<P: Files + AllocGlobal, W: Write, F: Write>(
    rt: &P,
    file: &str,
    strict: bool,
    output: &mut W,
    errors: &mut F,
) -> Result<ManifestExit, Fault>
    ensures { result ≡ Ok ManifestExit.Done
        → Appends (W.contents output.old) (W.contents output.new) (codes "ok\n") }
{
    let body = read_file(rt, file)?;
    check_body(rt.alloc(), body.as_slice(), strict, output, errors)
}

// Writes `ok` if the desk takes this manifest, and otherwise what it would refuse of it.
fn check_bytes<W: Write, F: Write>(
    alloc: Global,
    manifest: &[u8],
    strict: bool,
    output: &mut W,
    errors: &mut F,
) -> Result<ManifestExit, Fault>
    ensures { IsCheckShown strict (is_taken manifest.now) (is_attended manifest.now)
        (W.contents output.old) (W.contents output.new) result }
{
    let Ok(findings) = canary_check::check::check(alloc, manifest) else {
        return Err(Fault::Memory);
    };
    show_findings(alloc, findings, strict, output, errors)
}

// The same of this request's body.
fn check_body<W: Write, F: Write>(
    alloc: Global,
    body: &[u8],
    strict: bool,
    output: &mut W,
    errors: &mut F,
) -> Result<ManifestExit, Fault>
    ensures { IsCheckShown strict (is_request_taken body.now) (is_request_attended body.now)
        (W.contents output.old) (W.contents output.new) result }
{
    let Ok(findings) = canary_check::request::check_request(alloc, body) else {
        return Err(Fault::Memory);
    };
    show_findings(alloc, findings, strict, output, errors)
}

// Writes what a check found, and on `errors` what it warns of; if it is `strict`, that is found.
fn show_findings<W: Write, F: Write>(
    alloc: Global,
    findings: CheckReport,
    strict: bool,
    output: &mut W,
    errors: &mut F,
) -> Result<ManifestExit, Fault>
    ensures { (attended : Bool) → (IsTrue findings.is_quiet → IsTrue attended)
        → IsCheckShown strict findings.is_taken attended
        (W.contents output.old) (W.contents output.new) result }
{
    let findings = counted(alloc, findings, strict)?;
    show(findings.text(), output)?;
    warn(findings.warnings(), errors);
    if findings.is_ok() {
        Ok(ManifestExit::Done)
    } else {
        Ok(ManifestExit::Findings)
    }
}

// What was found; if it is `strict`, with each warning as a finding.
#[tactic(auto, using(crate::proofs::Checked::first_so, crate::proofs::Checked::second_so))]
fn counted(alloc: Global, findings: CheckReport, strict: bool) -> Result<CheckReport, Fault>
    ensures taken { IfOk result (λ found.
        IsTrue found.is_taken → IsTrue findings.is_taken) }
    ensures quiet { IfOk result (λ found.
        IsTrue found.is_taken → strict ≡ true → IsTrue findings.is_quiet) }
    ensures found { strict ≡ false → IfOk result (λ found. found ≡ findings) }
    ensures memory { IfErr result (λ fault. fault ≡ Fault.Memory) }
{
    if !strict {
        return Ok(findings);
    }
    match findings.strict(alloc) {
        Ok(findings) => Ok(findings),
        Err(_) => Err(Fault::Memory),
    }
}

// Writes on `errors` what a check warns of, in these lines.
fn warn<F: Write>(lines: &str, errors: &mut F) {
    for line in lines.lines() {
        let _ = warn_of(line, errors);
    }
}

// Writes one warning with its prefix and a line feed.
fn warn_of<F: Write>(line: &str, errors: &mut F) -> io::Result<()> {
    errors.write_all(WARNING.as_bytes())?;
    errors.write_all(line.as_bytes())?;
    errors.write_all("\n".as_bytes())
}

// The bytes of the file of this name.
fn read_file<P: Files + AllocGlobal>(rt: &P, file: &str) -> Result<Vec<u8>, Fault> {
    let mut bytes = Vec::new(rt.alloc());
    match fill(rt, file, &mut bytes) {
        Ok(()) if bytes.len() <= MAX_BYTES => Ok(bytes),
        Err(error) if error.kind() == ErrorKind::OutOfMemory => Err(Fault::Memory),
        _ => Err(Fault::File),
    }
}

// Reads the file of this name, as far as its length shows whether it is too long.
fn fill<P: Files>(files: &P, file: &str, bytes: &mut Vec<u8>) -> io::Result<()> {
    let mut manifest = File::open(files, file)?.take(MAX_BYTES as u64 + 1);
    manifest.read_to_end(bytes)?;
    Ok(())
}
