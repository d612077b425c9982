//! What a command line asks of a desk.
ghost use Rattle.std.specs.Prelude.{◌≡◌, Some, IfOk, option_and_then, codes};
ghost use Rattle.clap.specs.Words.{found_of, rows_of, subcommand_rows_of};
ghost use Rattle.canary_cli_words.specs.CommandLine.{program_in, text_given, HasText, do_of, get_of};
ghost use Rattle.canary_cli_words.specs.CommandLine.{watch_of, send_of, due_of, desk_of, command_of};
ghost use Rattle.canary_cli_words.specs.CommandLine.{HasClientProgram, HasDesk, HasAsked, HasDo};
ghost use Rattle.canary_cli_words.specs.CommandLine.{HasDue, HasWatch, texts_or_none};
ghost use Rattle.canary_cli_words.specs.CommandLine.{HasAgent, HasTimeout, agent_desk_of, agent_of};
ghost use Rattle.canary_cli_words.specs.CommandLine.{texts_given};

use crate::values::{
    flag_given, number_given, optional_text, text_given, texts_given, texts_or_none, two_optional,
};
use crate::words::{AgentCall, AskedCommand, AskedDesk, Call, ClientCall, Program};
use canary_base::lists::{Listed, Text};
use clap::ArgMatches;
use std::alloc::{AllocError, Global};

/// The program that the matches name, if it asks a desk.
pub(crate) fn client_program_of(
    alloc: Global,
    matches: &ArgMatches<'_>,
) -> Result<Program, AllocError>
    requires { HasClientProgram (subcommand_rows_of matches.now) }
    ensures { IfOk result (λ p.
        option_and_then program_in (subcommand_rows_of matches.now) ≡ Some p) }
{
    if let Some(asked) = matches.subcommand_matches("do") {
        return do_of(alloc, asked);
    }
    if let Some(get) = matches.subcommand_matches("get") {
        return get_of(alloc, get);
    }
    if let Some(watch) = matches.subcommand_matches("watch") {
        return watch_of(alloc, watch);
    }
    if let Some(send) = matches.subcommand_matches("send") {
        return send_of(alloc, send);
    }
    if let Some(due) = matches.subcommand_matches("due") {
        return due_of(alloc, due);
    }
    agent_of(alloc, matches.subcommand_matches("agent").unwrap())
}

// The program of `do` with these matches.
fn do_of(alloc: Global, asked: &ArgMatches<'_>) -> Result<Program, AllocError>
    requires { HasDo (rows_of (found_of asked.now)) }
    ensures { IfOk result (λ p. do_of (rows_of (found_of asked.now)) ≡ Some p) }
{
    let named = names_of(alloc, asked)?;
    let (desk, command) = desk_and_command(alloc, asked)?;
    let ((caller, journal), key) = named;
    Ok(Program::Ask(ClientCall::Do(Call {
        desk,
        caller,
        journal,
        key,
        is_instead: flag_given(asked, "instead"),
        is_argo: flag_given(asked, "argo"),
        command,
    })))
}

// The caller and the journal that `do` names, and its key.
fn names_of(
    alloc: Global,
    asked: &ArgMatches<'_>,
) -> Result<((Option<Text>, Option<Text>), Option<Text>), AllocError>
    ensures { IfOk result (λ n. (n.0.0 ≡ text_given (codes "as") (rows_of (found_of asked.now)))
        × (n.0.1 ≡ text_given (codes "journal") (rows_of (found_of asked.now)))
        × (n.1 ≡ text_given (codes "once") (rows_of (found_of asked.now)))) }
{
    let caller = two_optional(alloc, asked, "as", "journal")?;
    Ok((caller, optional_text(alloc, asked, "once")?))
}

// The desk that `do` asks, and the command.
fn desk_and_command(
    alloc: Global,
    asked: &ArgMatches<'_>,
) -> Result<(AskedDesk, AskedCommand), AllocError>
    requires { HasAsked (codes "command") (rows_of (found_of asked.now)) }
    ensures { IfOk result (λ a. (a.0 ≡ desk_of (rows_of (found_of asked.now)))
        × (command_of (rows_of (found_of asked.now)) ≡ Some a.1)) }
{
    let desk = desk_of(alloc, asked)?;
    Ok((desk, command_of(alloc, asked)?))
}

// The program of `get` with these matches.
fn get_of(alloc: Global, get: &ArgMatches<'_>) -> Result<Program, AllocError>
    requires { HasAsked (codes "service") (rows_of (found_of get.now)) }
    ensures { IfOk result (λ p. get_of (rows_of (found_of get.now)) ≡ Some p) }
{
    let part = optional_text(alloc, get, "part")?;
    let (desk, service) = desk_and_text(alloc, get, "service")?;
    Ok(Program::Ask(ClientCall::Get {
        desk,
        service,
        part,
    }))
}

// The program of `watch` with these matches.
fn watch_of(alloc: Global, watch: &ArgMatches<'_>) -> Result<Program, AllocError>
    requires { HasWatch (rows_of (found_of watch.now)) }
    ensures { IfOk result (λ p. watch_of (rows_of (found_of watch.now)) ≡ Some p) }
{
    let until = optional_text(alloc, watch, "until")?;
    let (desk, service) = desk_and_text(alloc, watch, "service")?;
    Ok(Program::Ask(ClientCall::Watch {
        desk,
        until,
        json: flag_given(watch, "json"),
        forever: flag_given(watch, "forever"),
        service,
    }))
}

// The program of `send` with these matches.
fn send_of(alloc: Global, send: &ArgMatches<'_>) -> Result<Program, AllocError>
    requires { HasAsked (codes "csv") (rows_of (found_of send.now)) }
    ensures { IfOk result (λ p. send_of (rows_of (found_of send.now)) ≡ Some p) }
{
    let (desk, csv) = desk_and_text(alloc, send, "csv")?;
    Ok(Program::Ask(ClientCall::Send { desk, csv }))
}

// The program of `due` with these matches.
fn due_of(alloc: Global, due: &ArgMatches<'_>) -> Result<Program, AllocError>
    requires { HasDue (rows_of (found_of due.now)) }
    ensures { IfOk result (λ p. due_of (rows_of (found_of due.now)) ≡ Some p) }
{
    Ok(Program::Ask(ClientCall::Due {
        desk: desk_of(alloc, due)?,
        wait: flag_given(due, "wait"),
        late: number_given(due, "late"),
        services: texts_given(alloc, due, "service")?,
    }))
}

// The program of `agent` with these matches.
fn agent_of(alloc: Global, agent: &ArgMatches<'_>) -> Result<Program, AllocError>
    requires { HasAgent (rows_of (found_of agent.now)) }
    ensures { IfOk result (λ p. agent_of (rows_of (found_of agent.now)) ≡ Some p) }
{
    let named = names_of_agent(alloc, agent)?;
    let (desk, files) = desk_and_files(alloc, agent)?;
    let ((journals, caller), (values, health)) = named;
    Ok(Program::Ask(ClientCall::Agent(AgentCall {
        desk,
        journals,
        caller,
        is_once: flag_given(agent, "once"),
        is_dry_run: flag_given(agent, "dry-run"),
        values,
        abort_late: number_given(agent, "abort-late"),
        health,
        files,
    })))
}

// The folder of the journals, what callers' names begin with, and the files of values and health,
// as far as `agent` was given them.
fn names_of_agent(
    alloc: Global,
    agent: &ArgMatches<'_>,
) -> Result<((Option<Text>, Option<Text>), (Option<Text>, Option<Text>)), AllocError>
    ensures { IfOk result (λ n.
        (n.0.0 ≡ text_given (codes "journals") (rows_of (found_of agent.now)))
        × (n.0.1 ≡ text_given (codes "as") (rows_of (found_of agent.now)))
        × (n.1.0 ≡ text_given (codes "values") (rows_of (found_of agent.now)))
        × (n.1.1 ≡ text_given (codes "health") (rows_of (found_of agent.now)))) }
{
    let caller = two_optional(alloc, agent, "journals", "as")?;
    Ok((caller, two_optional(alloc, agent, "values", "health")?))
}

// The desk that `agent` asks, and the files of manifests.
fn desk_and_files(
    alloc: Global,
    agent: &ArgMatches<'_>,
) -> Result<(AskedDesk, Listed<Text>), AllocError>
    requires { HasTimeout (rows_of (found_of agent.now))
        × HasText (codes "file") (rows_of (found_of agent.now)) }
    ensures { IfOk result (λ a. (a.0 ≡ agent_desk_of (rows_of (found_of agent.now)))
        × (texts_given (codes "file") (rows_of (found_of agent.now)) ≡ Some a.1)) }
{
    let files = texts_given(alloc, agent, "file")?;
    let desk = AskedDesk {
        desk: optional_text(alloc, agent, "desk")?,
        tries: None,
        timeout: number_given(agent, "timeout"),
    };
    Ok((desk, files))
}

// The desk that a client asks, and the text that was given under this name.
fn desk_and_text(
    alloc: Global,
    client: &ArgMatches<'_>,
    name: &str,
) -> Result<(AskedDesk, Text), AllocError>
    requires { HasAsked name.now (rows_of (found_of client.now)) }
    ensures { IfOk result (λ a. (a.0 ≡ desk_of (rows_of (found_of client.now)))
        × (text_given name.now (rows_of (found_of client.now)) ≡ Some a.1)) }
{
    let text = text_given(alloc, client, name)?;
    Ok((desk_of(alloc, client)?, text))
}

// Where the desk is, and how patiently it is asked, as far as it was given.
fn desk_of(alloc: Global, client: &ArgMatches<'_>) -> Result<AskedDesk, AllocError>
    requires { HasDesk (rows_of (found_of client.now)) }
    ensures { IfOk result (λ d. d ≡ desk_of (rows_of (found_of client.now))) }
{
    Ok(AskedDesk {
        desk: optional_text(alloc, client, "desk")?,
        tries: number_given(client, "tries"),
        timeout: number_given(client, "timeout"),
    })
}

// The command that was given, word by word.
fn command_of(alloc: Global, asked: &ArgMatches<'_>) -> Result<AskedCommand, AllocError>
    requires { HasText (codes "command") (rows_of (found_of asked.now)) }
    ensures { IfOk result (λ c. command_of (rows_of (found_of asked.now)) ≡ Some c) }
{
    let words = further_words(alloc, asked)?;
    let (more, (kind, failure)) = more_and_kind(alloc, asked)?;
    let ((first, second), (third, fourth)) = words;
    Ok(AskedCommand {
        kind,
        first,
        second,
        third,
        fourth,
        more,
        failure,
    })
}

// The first four words that follow the kind of the command.
fn further_words(
    alloc: Global,
    asked: &ArgMatches<'_>,
) -> Result<((Option<Text>, Option<Text>), (Option<Text>, Option<Text>)), AllocError>
    ensures { IfOk result (λ w. (w.0.0 ≡ text_given (codes "first") (rows_of (found_of asked.now)))
        × (w.0.1 ≡ text_given (codes "second") (rows_of (found_of asked.now)))
        × (w.1.0 ≡ text_given (codes "third") (rows_of (found_of asked.now)))
        × (w.1.1 ≡ text_given (codes "fourth") (rows_of (found_of asked.now)))) }
{
    let begun = two_optional(alloc, asked, "first", "second")?;
    Ok((begun, two_optional(alloc, asked, "third", "fourth")?))
}

// The words after the first four, and the kind of the command with why a measurement failed.
fn more_and_kind(
    alloc: Global,
    asked: &ArgMatches<'_>,
) -> Result<(Listed<Text>, (Text, Option<Text>)), AllocError>
    requires { HasText (codes "command") (rows_of (found_of asked.now)) }
    ensures { IfOk result (λ m. (m.0 ≡ texts_or_none (codes "more") (rows_of (found_of asked.now)))
        × (text_given (codes "command") (rows_of (found_of asked.now)) ≡ Some m.1.0)
        × (m.1.1 ≡ text_given (codes "failure") (rows_of (found_of asked.now)))) }
{
    let more = texts_or_none(alloc, asked, "more")?;
    Ok((more, kind_and_failure(alloc, asked)?))
}

// The kind of the command, and why a measurement failed.
fn kind_and_failure(
    alloc: Global,
    asked: &ArgMatches<'_>,
) -> Result<(Text, Option<Text>), AllocError>
    requires { HasText (codes "command") (rows_of (found_of asked.now)) }
    ensures { IfOk result (λ k.
        (text_given (codes "command") (rows_of (found_of asked.now)) ≡ Some k.0)
        × (k.1 ≡ text_given (codes "failure") (rows_of (found_of asked.now)))) }
{
    let kind = text_given(alloc, asked, "command")?;
    Ok((kind, optional_text(alloc, asked, "failure")?))
}
