//! What `do --argo` asks: the commands that manifests of Argo Rollouts become.
use crate::outcome::{Stop, say, say_lines, say_unread, say_warnings};
use crate::wish::{Asking, label_of, service_asking, template_asking};
use canary_argo_files::reading::{FileReadFault, Manifests, STANDARD_INPUT, read_files};
use canary_argo_files::translated::{Translated, translate};
use canary_base::lists::Text;
use canary_base::names::Label;
use canary_cli_words::words::AskedCommand;
use canary_convert::conversion::Converted;
use canary_convert::work::Made;
use std::alloc::Global;
use std::fs::Files;
use std::io::Write;

const INPUT: &str = "- is no FILE of do --argo: give /dev/stdin";

/// A command, and the name of what it registers.
#[derive(Drop)]
pub(crate) struct NamedCommand {
    pub(crate) name: String,
    pub(crate) asking: Asking,
}

/// The commands of `template FILE..` or `service FILE.. VERSION`: one for each template, or each
/// Rollout, of Argo's manifests in these files. What is found in them goes to `errors`, or if
/// nothing is found, what is warned of.
///
/// # Errors
/// `ArgoCommand` if the words are no such command, `Argo` if anything is found, `ArgoNothing` if
/// the files have no template, or no Rollout; `NoVersion`, `BadVersion`; `ArgoFile` if a file
/// cannot be read; `Manifest` if the desk takes no body of that length; `Memory`.
pub(crate) fn commands_of<P: Files + AllocGlobal, F: Write>(
    rt: &P,
    words: &AskedCommand,
    errors: &mut F,
) -> Result<Vec<NamedCommand>, Stop> {
    let files = files_of(rt.alloc(), words)?;
    commands_in(rt, words.kind.as_str(), files.as_slice(), errors)
}

// The commands of this kind, of the words after it.
fn commands_in<P: Files + AllocGlobal, F: Write>(
    rt: &P,
    kind: &str,
    files: &[Text],
    errors: &mut F,
) -> Result<Vec<NamedCommand>, Stop> {
    match kind {
        "template" => templates(rt, files, errors),
        "service" => services(rt, files, errors),
        _ => Err(Stop::ArgoCommand),
    }
}

// The words that follow the kind of the command.
fn files_of(alloc: Global, words: &AskedCommand) -> Result<Vec<Text>, Stop> {
    if words.failure.is_some() {
        return Err(Stop::ArgoCommand);
    }
    let mut files = Vec::new(alloc);
    push_given(alloc, &mut files, &words.first)?;
    push_given(alloc, &mut files, &words.second)?;
    push_given(alloc, &mut files, &words.third)?;
    push_given(alloc, &mut files, &words.fourth)?;
    for word in words.more.as_slice() {
        files.push(word.copy(alloc)?)?;
    }
    Ok(files)
}

// Adds a copy of the word, if one is given.
fn push_given(alloc: Global, files: &mut Vec<Text>, word: &Option<Text>) -> Result<(), Stop> {
    if let Some(word) = word {
        files.push(word.copy(alloc)?)?;
    }
    Ok(())
}

// A command for each template of the manifests in these files.
fn templates<P: Files + AllocGlobal, F: Write>(
    rt: &P,
    files: &[Text],
    errors: &mut F,
) -> Result<Vec<NamedCommand>, Stop> {
    let made = made_of(rt, files, errors)?;
    named_each(rt.alloc(), made.templates.as_slice(), &None)
}

// The last word is the version.
fn services<P: Files + AllocGlobal, F: Write>(
    rt: &P,
    files: &[Text],
    errors: &mut F,
) -> Result<Vec<NamedCommand>, Stop> {
    let Some((version, files)) = files.split_last() else {
        return Err(Stop::NoVersion);
    };
    let version = label_of(version)?;
    let made = made_of(rt, files, errors)?;
    named_each(rt.alloc(), made.services.as_slice(), &Some(version))
}

// A command for each of what is made, with its name: a service at this version, or a template.
// `ArgoNothing` if nothing is made.
fn named_each(
    alloc: Global,
    made: &[Made],
    version: &Option<Label>,
) -> Result<Vec<NamedCommand>, Stop> {
    if made.is_empty() {
        return Err(Stop::ArgoNothing);
    }
    let mut commands = Vec::new(alloc);
    for item in made {
        commands.push(named(alloc, item, version)?)?;
    }
    Ok(commands)
}

// What the files become, if nothing is found in them; `ArgoFile` if one cannot be read, and
// `errors` says which.
fn made_of<P: Files + AllocGlobal, F: Write>(
    rt: &P,
    files: &[Text],
    errors: &mut F,
) -> Result<Converted, Stop> {
    if files.is_empty() {
        return Err(Stop::ArgoCommand);
    }
    if files.iter().any(|file| file.as_str() == STANDARD_INPUT) {
        say(errors, INPUT);
        return Err(Stop::ArgoCommand);
    }
    let mut nothing: &[u8] = &[];
    match read_files(rt, files, &mut nothing) {
        Ok(manifests) => made_in(rt.alloc(), &manifests, errors),
        Err(FileReadFault::Memory) => Err(Stop::Memory),
        Err(FileReadFault::File(index)) => {
            say_unread(rt.alloc(), errors, files, index);
            Err(Stop::ArgoFile)
        }
    }
}

// What these manifests become, if nothing is found in them. What is warned of goes to `errors`.
fn made_in<F: Write>(
    alloc: Global,
    manifests: &Manifests,
    errors: &mut F,
) -> Result<Converted, Stop> {
    let translated = translate(alloc, manifests)?;
    if translated.is_found() {
        return Err(tell_found(alloc, &translated, manifests, errors));
    }
    say_warnings(
        errors,
        translated.warnings.lines(alloc, manifests)?.as_str(),
    );
    let Translated { made, .. } = translated;
    Ok(made)
}

// Says what is found in these manifests, and answers why the call stops.
fn tell_found<F: Write>(
    alloc: Global,
    translated: &Translated,
    manifests: &Manifests,
    errors: &mut F,
) -> Stop {
    match translated.found.lines(alloc, manifests) {
        Ok(lines) => {
            say_lines(errors, lines.as_str());
            Stop::Argo
        }
        Err(_) => Stop::Memory,
    }
}

// The command that registers what is made, with a copy of its name.
fn named(alloc: Global, made: &Made, version: &Option<Label>) -> Result<NamedCommand, Stop> {
    let asking = match version {
        Some(version) => service_asking(alloc, made.json.as_str(), version.as_str())?,
        None => template_asking(alloc, made.json.as_str())?,
    };
    let name = String::from_str(alloc, made.name.as_str())?;
    Ok(NamedCommand { name, asking })
}
