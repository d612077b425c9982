//! The wish that the words of a command line stand for.
ghost use Rattle.std.specs.Prelude.{◌≡◌, ◌≤◌, length, string_bytes, IfOk, IfSome, IsTrue, OnOk};
ghost use Rattle.canary_client.specs.Meant.{report_intent, most_body};
ghost use Rattle.canary_client.specs.Promises.{intent_of, Means};

use crate::endpoint::service_of;
use crate::outcome::Stop;
use crate::report::{NewMeasurement, report_body};
use canary_base::lists::Text;
use canary_base::names::{Label, Name};
use canary_canonical::plain::MAX_RUN;
use canary_canonical::writing;
use canary_cli_words::words::AskedCommand;
use canary_manifest::command::{WireFault, command_from_json};
use canary_plan::command::Command;
use canary_yaml::fault as yaml;
use canary_yaml::read::json_of;
use std::alloc::Global;
use std::fs::{File, Files};
use std::io::{ErrorKind, Read};

// The most bytes of the body of a request.
const MAX_BYTES: u64 = 65_536;

// The most bytes of a manifest's file, which may have comments and blanks that no body has.
const MAX_FILE_BYTES: u64 = 16_777_216;

/// What words ask for.
#[derive(Drop)]
pub enum Asking {
    /// A command.
    Command {
        /// What is meant: its canonical text.
        intent: Text,
        /// The body of its request.
        body: Text,
    },
    /// A report, whose body is known once its ordinal was asked for.
    Report {
        /// What is meant: its words.
        intent: Text,
        /// The measurement.
        measured: NewMeasurement,
    },
}

impl Asking {
    /// What is meant, by which a second call is known to mean the same.
    pub fn intent(&self) -> &str
        ensures { result.now ≡ intent_of self.now }
    {
        match self {
            Asking::Command { intent, .. } => intent.as_str(),
            Asking::Report { intent, .. } => intent.as_str(),
        }
    }
}

/// What these words ask for.
///
/// # Errors
/// `Command` if they are no command, `BadService`, `BadVersion` or `BadMetric` for an invalid name,
/// `NoVersion` if a version is missing, `Run` if they name no run, `Result` or `Failure` for what
/// no measurement has, `File` if the manifest's file cannot be read, `Manifest` if the desk would
/// not take what it says; `Memory`.
pub fn read_asking<P: Files + AllocGlobal>(rt: &P, words: &AskedCommand) -> Result<Asking, Stop> {
    if !words.more.as_slice().is_empty() {
        return Err(Stop::Command);
    }
    match words.kind.as_str() {
        "template" => template(rt, words),
        "service" => service(rt, words),
        "report" => report(rt.alloc(), words),
        _ => of_command(rt.alloc(), &plain(words)?),
    }
}

// The command of words that name no file.
fn plain(words: &AskedCommand) -> Result<Command, Stop> {
    if words.third.is_some() || words.fourth.is_some() || words.failure.is_some() {
        return Err(Stop::Command);
    }
    if words.kind.as_str() == "start" {
        let (service, version) = (name_of(&words.first)?, version_of(&words.second)?);
        return Ok(Command::Start { service, version });
    }
    if words.second.is_some() {
        return Err(Stop::Command);
    }
    of_service(words.kind.as_str(), &words.first)
}

// The command of this kind, if it has a service alone; `Stop::Command` for another kind.
fn of_service(kind: &str, service: &Option<Text>) -> Result<Command, Stop> {
    match kind {
        "promote" => Ok(Command::Promote {
            service: name_of(service)?,
        }),
        "promote-full" => Ok(Command::PromoteFull {
            service: name_of(service)?,
        }),
        "abort" => Ok(Command::Abort {
            service: name_of(service)?,
        }),
        "retry" => Ok(Command::Retry {
            service: name_of(service)?,
        }),
        "tick" => Ok(Command::Tick {
            service: name_of(service)?,
        }),
        _ => Err(Stop::Command),
    }
}

// The service that a word names; `Stop::Command` if the word is missing.
fn name_of(word: &Option<Text>) -> Result<Name, Stop> {
    match word {
        Some(word) => service_of(word),
        None => Err(Stop::Command),
    }
}

// The version that a word spells; `NoVersion` if the word is missing.
fn version_of(word: &Option<Text>) -> Result<Label, Stop> {
    match word {
        Some(word) => label_of(word),
        None => Err(Stop::NoVersion),
    }
}

/// The version that a word spells.
///
/// # Errors
/// `BadVersion`.
pub(crate) fn label_of(word: &Text) -> Result<Label, Stop> {
    match Label::read(word.as_str().as_bytes()) {
        Some(version) => Ok(version),
        None => Err(Stop::BadVersion),
    }
}

// The metric that a word names; `Stop::Command` if it is missing, `BadMetric` if it is invalid.
fn metric_of(word: &Option<Text>) -> Result<Label, Stop> {
    let Some(word) = word else {
        return Err(Stop::Command);
    };
    match Label::read(word.as_str().as_bytes()) {
        Some(metric) => Ok(metric),
        None => Err(Stop::BadMetric),
    }
}

// What asks for this command: its canonical text is both the intent and the body.
fn of_command(alloc: Global, command: &Command) -> Result<Asking, Stop> {
    let intent = writing::text(alloc, command)?;
    let body = intent.copy(alloc)?;
    Ok(Asking::Command { intent, body })
}

// What asks for a template. Its words are the manifest's file alone.
fn template<P: Files + AllocGlobal>(rt: &P, words: &AskedCommand) -> Result<Asking, Stop> {
    let Some(file) = &words.first else {
        return Err(Stop::Command);
    };
    if words.second.is_some() || words.third.is_some() || words.failure.is_some() {
        return Err(Stop::Command);
    }
    let manifest = manifest(rt, file.as_str())?;
    template_asking(rt.alloc(), manifest.as_str())
}

/// What asks for a template of this manifest in JSON.
///
/// # Errors
/// `Manifest` if the desk would not take it; `Memory`.
pub(crate) fn template_asking(alloc: Global, manifest: &str) -> Result<Asking, Stop> {
    of_body(alloc, format!(in alloc; "{{\"template\":{manifest}}}")?)
}

// What asks for a service. Its words are the manifest's file and a version.
fn service<P: Files + AllocGlobal>(rt: &P, words: &AskedCommand) -> Result<Asking, Stop> {
    let Some(file) = &words.first else {
        return Err(Stop::Command);
    };
    if words.third.is_some() || words.failure.is_some() {
        return Err(Stop::Command);
    }
    let version = version_of(&words.second)?;
    let manifest = manifest(rt, file.as_str())?;
    service_asking(rt.alloc(), manifest.as_str(), version.as_str())
}

/// What asks for a service of this manifest in JSON, at this version.
///
/// # Errors
/// `Manifest` if the desk would not take it; `Memory`.
pub(crate) fn service_asking(alloc: Global, manifest: &str, version: &str) -> Result<Asking, Stop> {
    of_body(
        alloc,
        format!(in alloc; "{{\"service\":{{\"manifest\":{manifest},\"version\":\"{version}\"}}}}")?,
    )
}

// The JSON of the file of a manifest, which may be in YAML.
fn manifest<P: Files + AllocGlobal>(rt: &P, file: &str) -> Result<String, Stop> {
    let Ok(file) = File::open(rt, file) else {
        return Err(Stop::File);
    };
    let mut text = String::new(rt.alloc());
    match file.take(MAX_FILE_BYTES + 1).read_to_string(&mut text) {
        Ok(_) if text.len() as u64 <= MAX_FILE_BYTES => json(rt.alloc(), text),
        Ok(_) => Err(Stop::Manifest),
        Err(error) if error.kind() == ErrorKind::OutOfMemory => Err(Stop::Memory),
        Err(_) => Err(Stop::File),
    }
}

// The text, if it is JSON; or else the JSON of its one document in YAML.
fn json(alloc: Global, text: String) -> Result<String, Stop> {
    match json_of(alloc, text.as_bytes()) {
        Ok(None) => Ok(text),
        Ok(Some(json)) => Ok(json),
        Err(yaml::YamlFault::Memory) => Err(Stop::Memory),
        Err(_) => Err(Stop::Manifest),
    }
}

// The body of a manifest is sent as it stands, and means its command.
fn of_body(alloc: Global, body: String) -> Result<Asking, Stop>
    ensures { OnOk result (length (string_bytes body) ≤ most_body) }
{
    if body.len() as u64 > MAX_BYTES {
        return Err(Stop::Manifest);
    }
    match intent_in(alloc, body.as_str())? {
        Some(intent) => Ok(Asking::Command {
            intent,
            body: Text::of(body),
        }),
        None => Err(Stop::Manifest),
    }
}

// What the body of a request means: the canonical text of its command, if it has one.
fn intent_in(alloc: Global, body: &str) -> Result<Option<Text>, Stop>
    ensures { IfOk result (λ found. IfSome found (λ intent. Means intent body.now)) }
{
    match command_from_json(alloc, body.as_bytes()) {
        Ok(command) => Ok(Some(writing::text(alloc, &command)?)),
        Err(WireFault::Memory) => Err(Stop::Memory),
        Err(_) => Ok(None),
    }
}

/// Whether the body of a request means this, the canonical text of a command.
///
/// # Errors
/// `Memory`.
pub fn has_intent(alloc: Global, body: &str, intent: &str) -> Result<bool, Stop>
    ensures { IfOk result (λ is. IsTrue is → Means intent.now body.now) }
{
    match intent_in(alloc, body)? {
        Some(found) => Ok(found.as_str() == intent),
        None => Ok(false),
    }
}

// What asks for a report. Its outcome is checked before the desk is asked for the ordinal.
fn report(alloc: Global, words: &AskedCommand) -> Result<Asking, Stop> {
    let service = name_of(&words.first)?;
    let Some(run) = run_of(&words.second) else {
        return Err(Stop::Run);
    };
    let metric = metric_of(&words.third)?;
    let measured = NewMeasurement {
        service,
        run,
        metric,
        outcome: outcome_of(alloc, words)?,
    };
    let intent = taken_intent(alloc, &measured, words.failure.is_some())?;
    Ok(Asking::Report { intent, measured })
}

// What a report means, if the desk reads one with this outcome.
fn taken_intent(alloc: Global, measured: &NewMeasurement, is_failure: bool) -> Result<Text, Stop> {
    is_taken(alloc, measured, is_failure)?;
    intent_of(alloc, measured)
}

// The number of the run that a word spells; none if the word is missing or spells none.
fn run_of(word: &Option<Text>) -> Option<u32> {
    match word {
        Some(word) => word.as_str().parse::<u32>().ok().filter(is_run),
        None => None,
    }
}

// Whether a run may have this number: 1 to `MAX_RUN`.
fn is_run(number: &u32) -> bool {
    (1..=MAX_RUN).contains(number)
}

// The member of the outcome: the result, or why the measurement failed.
fn outcome_of(alloc: Global, words: &AskedCommand) -> Result<Text, Stop> {
    match (&words.fourth, &words.failure) {
        (Some(result), None) if is_result(result.as_str()) => {
            let result = result.as_str();
            Ok(Text::of(format!(in alloc; "\"result\":{result}")?))
        }
        (Some(_), None) => Err(Stop::Result),
        (None, Some(text)) => failure_of(alloc, text.as_str()),
        _ => Err(Stop::Command),
    }
}

// Whether a text has the characters of whole numbers and lists of them alone, so that no other
// member of JSON can stand in it.
fn is_result(text: &str) -> bool {
    text.as_bytes().iter().all(|byte| match *byte {
        b'0'..=b'9' | b'-' | b'[' | b']' | b',' => true,
        _ => false,
    })
}

// The member of a failure, whose text is written as a JSON string.
fn failure_of(alloc: Global, text: &str) -> Result<Text, Stop> {
    let text = serde_json::Value::try_from_str(alloc, text)?.to_string(alloc)?;
    let text = text.as_str();
    Ok(Text::of(format!(in alloc; "\"failure\":{text}")?))
}

// A report with this outcome has to be one that the desk reads, whatever its ordinal.
fn is_taken(alloc: Global, measured: &NewMeasurement, is_failure: bool) -> Result<(), Stop> {
    let body = report_body(alloc, measured, 1, 0)?;
    if is_read(alloc, body.as_str())? {
        Ok(())
    } else if is_failure {
        Err(Stop::Failure)
    } else {
        Err(Stop::Result)
    }
}

// Whether the desk reads this body as a report of exactly one measurement.
fn is_read(alloc: Global, body: &str) -> Result<bool, Stop> {
    match command_from_json(alloc, body.as_bytes()) {
        Ok(command) => Ok(has_one_entry(&command)),
        Err(WireFault::Memory) => Err(Stop::Memory),
        Err(_) => Ok(false),
    }
}

// Whether it is a report of exactly one measurement.
fn has_one_entry(command: &Command) -> bool {
    match command {
        Command::Report(report) => report.entries.as_slice().len() == 1,
        _ => false,
    }
}

// What a report means: its words, without the ordinal and the moment, which come later.
fn intent_of(alloc: Global, measured: &NewMeasurement) -> Result<Text, Stop>
    ensures { IfOk result (λ intent. intent ≡ report_intent measured.now.service measured.now.run
        measured.now.metric measured.now.outcome) }
{
    let (service, run) = (measured.service.as_str(), measured.run);
    let (metric, outcome) = (measured.metric.as_str(), measured.outcome.as_str());
    Ok(Text::of(format!(in alloc; "report {service} {run} {metric} {outcome}")?))
}
