//! The commands that ask a desk, with their options: those of the client and the agent.
ghost use Rattle.std.specs.Prelude.{◌≡◌, IfOk};
ghost use Rattle.clap.specs.Words.{App, app_of};
ghost use Rattle.canary_cli_words.specs.CommandLine.{with_agent_command, with_asking_commands};
ghost use Rattle.canary_cli_words.specs.CommandLine.{with_waiting_commands};

use crate::commands::{ArgumentSpec, CommandSpec, MAX_LATE, MAX_SECONDS, MAX_TRIES, with_commands};
use crate::{client_help, help};
use clap::Command;
use std::alloc::{AllocError, Global};

// `--desk HOST:PORT`.
const DESK: ArgumentSpec = ArgumentSpec::Optional(
    "desk",
    "HOST:PORT",
    client_help::DESK_OPTION_HELP,
);

// `--tries N`.
const TRIES: ArgumentSpec = ArgumentSpec::Number("tries", "N", MAX_TRIES, client_help::TRIES_HELP);

/// The desk's command with those that ask a desk once: `do` and `get`.
pub(crate) fn with_asking_commands<'a>(
    alloc: Global,
    desk: Result<Command<'a>, AllocError>,
) -> Result<Command<'a>, AllocError>
    ensures { (above : App) → IfOk desk.entry (λ c. app_of c ≡ above)
        → IfOk result (λ c. app_of c ≡ with_asking_commands above) }
{
    static COMMANDS: [CommandSpec; 2] = [
        CommandSpec {
            name: "do",
            about: client_help::DO_ABOUT,
            help: client_help::DO_HELP,
            usage: Some(client_help::DO_USAGE),
            parts: &[
                DESK,
                TRIES,
                ArgumentSpec::Number("timeout", "SECONDS", MAX_SECONDS, client_help::TIMEOUT_HELP),
                ArgumentSpec::Optional("as", "NAME", client_help::AS_HELP),
                ArgumentSpec::Optional("journal", "FILE", client_help::JOURNAL_HELP),
                ArgumentSpec::Optional("once", "KEY", client_help::ONCE_HELP),
                ArgumentSpec::Flag("instead", client_help::INSTEAD_HELP),
                ArgumentSpec::Flag("argo", client_help::ARGO_OPTION_HELP),
                ArgumentSpec::Optional("failure", "TEXT", client_help::FAILURE_HELP),
                ArgumentSpec::Word("command", "COMMAND", client_help::COMMAND_HELP),
                ArgumentSpec::OptionalWord("first", "FIRST", client_help::FIRST_HELP),
                ArgumentSpec::OptionalWord("second", "SECOND", client_help::SECOND_HELP),
                ArgumentSpec::OptionalWord("third", "THIRD", client_help::THIRD_HELP),
                ArgumentSpec::OptionalWord("fourth", "FOURTH", client_help::FOURTH_HELP),
                ArgumentSpec::MoreWords("more", "MORE", client_help::MORE_HELP),
            ],
        },
        CommandSpec {
            name: "get",
            about: client_help::GET_ABOUT,
            help: client_help::GET_HELP,
            usage: None,
            parts: &[
                DESK,
                TRIES,
                ArgumentSpec::Number("timeout", "SECONDS", MAX_SECONDS, client_help::TIMEOUT_HELP),
                ArgumentSpec::Word("service", "SERVICE", help::SERVICE_HELP),
                ArgumentSpec::OptionalWord("part", "PART", client_help::PART_HELP),
            ],
        },
    ];
    with_commands(alloc, desk, &COMMANDS)
}

/// The desk's command with those that send and wait for more than one: `watch`, `send` and `due`.
pub(crate) fn with_waiting_commands<'a>(
    alloc: Global,
    desk: Result<Command<'a>, AllocError>,
) -> Result<Command<'a>, AllocError>
    ensures { (above : App) → IfOk desk.entry (λ c. app_of c ≡ above)
        → IfOk result (λ c. app_of c ≡ with_waiting_commands above) }
{
    static COMMANDS: [CommandSpec; 3] = [
        CommandSpec {
            name: "watch",
            about: client_help::WATCH_ABOUT,
            help: client_help::WATCH_HELP,
            usage: None,
            parts: &[
                DESK,
                TRIES,
                ArgumentSpec::Number(
                    "timeout",
                    "SECONDS",
                    MAX_SECONDS,
                    client_help::WATCH_TIMEOUT_HELP,
                ),
                ArgumentSpec::Optional("until", "STATUS,..", client_help::UNTIL_HELP),
                ArgumentSpec::Flag("json", client_help::WATCH_JSON_HELP),
                ArgumentSpec::Flag("forever", client_help::FOREVER_HELP),
                ArgumentSpec::Word("service", "SERVICE", help::SERVICE_HELP),
            ],
        },
        CommandSpec {
            name: "send",
            about: client_help::SEND_ABOUT,
            help: client_help::SEND_HELP,
            usage: None,
            parts: &[
                DESK,
                TRIES,
                ArgumentSpec::Number("timeout", "SECONDS", MAX_SECONDS, client_help::TIMEOUT_HELP),
                ArgumentSpec::Word("csv", "CSV", client_help::SEND_CSV_HELP),
            ],
        },
        CommandSpec {
            name: "due",
            about: client_help::DUE_ABOUT,
            help: client_help::DUE_HELP,
            usage: None,
            parts: &[
                DESK,
                TRIES,
                ArgumentSpec::Number(
                    "timeout",
                    "SECONDS",
                    MAX_SECONDS,
                    client_help::DUE_TIMEOUT_HELP,
                ),
                ArgumentSpec::Flag("wait", client_help::WAIT_HELP),
                ArgumentSpec::Number("late", "SECONDS", MAX_LATE, client_help::LATE_HELP),
                ArgumentSpec::SomeWords("service", "SERVICE", client_help::SERVICES_HELP),
            ],
        },
    ];
    with_commands(alloc, desk, &COMMANDS)
}

/// The desk's command with that of the agent.
pub(crate) fn with_agent_command<'a>(
    alloc: Global,
    desk: Result<Command<'a>, AllocError>,
) -> Result<Command<'a>, AllocError>
    ensures { (above : App) → IfOk desk.entry (λ c. app_of c ≡ above)
        → IfOk result (λ c. app_of c ≡ with_agent_command above) }
{
    static COMMANDS: [CommandSpec; 1] = [CommandSpec {
        name: "agent",
        about: client_help::AGENT_ABOUT,
        help: client_help::AGENT_HELP,
        usage: None,
        parts: &[
            DESK,
            ArgumentSpec::Optional("journals", "FOLDER", client_help::JOURNALS_HELP),
            ArgumentSpec::Optional("as", "PREFIX", client_help::AGENT_AS_HELP),
            ArgumentSpec::Flag("once", client_help::AGENT_ONCE_HELP),
            ArgumentSpec::Flag("dry-run", client_help::AGENT_DRY_RUN_HELP),
            ArgumentSpec::Optional("values", "FILE", client_help::VALUES_HELP),
            ArgumentSpec::Number(
                "abort-late",
                "SECONDS",
                MAX_LATE,
                client_help::ABORT_LATE_HELP,
            ),
            ArgumentSpec::Optional("health", "FILE", client_help::HEALTH_HELP),
            ArgumentSpec::Number(
                "timeout",
                "SECONDS",
                MAX_SECONDS,
                client_help::AGENT_TIMEOUT_HELP,
            ),
            ArgumentSpec::SomeWords("file", "FILE", client_help::AGENT_FILES_HELP),
        ],
    }];
    with_commands(alloc, desk, &COMMANDS)
}
