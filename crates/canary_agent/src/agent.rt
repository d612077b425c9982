//! `agent`: measurements by themselves.
use crate::ended::AgentStop;
use crate::options::AgentOptions;
use crate::reader::LineReader;
use crate::rounds::{AgentInputs, Rounds};
use canary_argo_files::reading::STANDARD_INPUT;
use canary_base::lists::Text;
use canary_base::names::Name;
use canary_cli_words::words::AgentCall;
use canary_client::endpoint::{Variable, endpoint_of, given_or};
use canary_client::outcome::{ClientExit, Stop, say};
use canary_client::tcp::Tcp;
use std::fs::DirBuilder;
use std::io::{Read, Write};
use std::os::unix::fs::DirBuilderExt;

// What callers' names begin with, if the call does not say it.
const PREFIX: &str = "agent";

// The mode of a folder for its owner alone.
const OWNER_ALONE: u32 = 0o700;

/// Asks the providers of the files' metrics what the desk waits for, and reports it, over and over:
/// each measurement once, by a journal for each service. The call ends if each service is looked at
/// once, and then as the worst of them; else only if memory, the output or the clock fails, as all
/// ends with a signal: what is pending stands in the journals.
pub fn agent<R: Read, W: Write, F: Write>(
    rt: &HostRuntime,
    call: AgentCall,
    input: &mut R,
    output: &mut W,
    errors: &mut F,
    is_terminal: bool,
) -> ClientExit {
    match try_agent(rt, &call, input, output, errors, is_terminal) {
        Ok(outcome) => outcome,
        Err(ended) => {
            say(errors, ended.sentence());
            ended.outcome()
        }
    }
}

// Checks the words, opens what they name, and goes round until the call ends.
fn try_agent<R: Read, W: Write, F: Write>(
    rt: &HostRuntime,
    call: &AgentCall,
    input: &mut R,
    output: &mut W,
    errors: &mut F,
    is_terminal: bool,
) -> Result<ClientExit, AgentStop> {
    if call.files.as_slice().is_empty() {
        return Err(AgentStop::NoFiles);
    }
    if call
        .files
        .as_slice()
        .iter()
        .any(|file| file.as_str() == STANDARD_INPUT)
    {
        return Err(AgentStop::InputAsFile);
    }
    let place = endpoint_of(rt, &call.desk)?;
    let folder = folder_of(rt, call)?;
    let reader = reader_of(rt, &call.values)?;
    let named = AgentInputs {
        files: &call.files,
        health: &call.health,
        prefix: prefix_of(&call.caller)?,
    };
    let manner = AgentOptions {
        folder: folder.as_str(),
        is_once: call.is_once || call.is_dry_run,
        is_dry_run: call.is_dry_run,
        is_terminal,
        abort_late: call.abort_late,
    };
    let rounds = Rounds::new(rt, &named, reader, errors)?;
    let network = Tcp::new(rt, &place);
    go_on(rt, rounds, network, &named, &manner, input, output, errors)
}

// Goes round until the call ends.
fn go_on<R: Read, W: Write, F: Write>(
    rt: &HostRuntime,
    rounds: Rounds,
    network: Tcp<'_>,
    named: &AgentInputs<'_>,
    manner: &AgentOptions<'_>,
    input: &mut R,
    output: &mut W,
    errors: &mut F,
) -> Result<ClientExit, AgentStop> {
    let (mut rounds, mut network) = (rounds, network);
    for _ in 0..u64::MAX {
        let ended = rounds.go(rt, &mut network, named, manner, input, output, errors)?;
        rounds.tell_desk_hindrance(rt, network.take_hindrance(), errors)?;
        if let Some(outcome) = ended {
            return Ok(outcome);
        }
    }
    Err(AgentStop::Stopped(Stop::TimeOut))
}

// The folder of the journals, which is made if it is not there; none is needed if nothing is
// reported.
fn folder_of(rt: &HostRuntime, call: &AgentCall) -> Result<Text, AgentStop> {
    if call.is_dry_run {
        return Ok(Text::of(String::new(rt.alloc())));
    }
    let folder = match given_or(rt, &call.journals, Variable::Journals)? {
        Some(folder) if !folder.as_str().is_empty() => folder,
        _ => return Err(AgentStop::NoJournals),
    };
    let made = DirBuilder::new()
        .recursive(true)
        .mode(OWNER_ALONE)
        .create(rt, folder.as_str());
    match made {
        Ok(()) => Ok(folder),
        Err(_) => Err(AgentStop::Folder),
    }
}

// The reader of another program's values, if the call names one; `Values` if it does not open.
fn reader_of(rt: &HostRuntime, values: &Option<Text>) -> Result<Option<LineReader>, AgentStop> {
    let Some(name) = values else {
        return Ok(None);
    };
    match LineReader::open(rt, name.as_str()) {
        Ok(reader) => Ok(Some(reader)),
        Err(_) => Err(AgentStop::Values),
    }
}

// What callers' names begin with: a name itself.
fn prefix_of(caller: &Option<Text>) -> Result<&str, AgentStop> {
    let Some(caller) = caller else {
        return Ok(PREFIX);
    };
    match Name::read(caller.as_str().as_bytes()) {
        Some(_) => Ok(caller.as_str()),
        None => Err(AgentStop::Stopped(Stop::BadCaller)),
    }
}
