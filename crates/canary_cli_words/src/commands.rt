//! The commands that the desk takes, with their options.
ghost use Rattle.std.specs.Prelude.{◌≡◌, IfOk, false, true};
ghost use Rattle.clap.specs.Words.{App, app_of, rule_of, with_subcommand};
ghost use Rattle.canary_cli_words.specs.CommandLine.{bare_desk, command_for, desk_command, flag};
ghost use Rattle.canary_cli_words.specs.CommandLine.{moment_option, more_words, number_option, rule_for};
ghost use Rattle.canary_cli_words.specs.CommandLine.{text_option, text_words, with_numbers, with_value};
ghost use Rattle.canary_cli_words.specs.CommandLine.{with_commands, with_copy_commands, with_parts};
ghost use Rattle.canary_cli_words.specs.CommandLine.{with_history_commands, with_manifest_commands};
ghost use Rattle.canary_cli_words.specs.CommandLine.{with_serving_commands, with_status_commands};

use crate::client_commands::{with_agent_command, with_asking_commands, with_waiting_commands};
use crate::help;
use canary_base::moments::MAX_MOMENT;
use clap::builder::ValueParser;
use clap::{Arg, ArgAction, Command};
use std::alloc::{AllocError, Global};

/// The most connections that can be asked for.
pub const MAX_CONNECTIONS: u64 = 1_000_000;

/// The longest timeout that can be asked for, in seconds: a day.
pub const MAX_SECONDS: u64 = 86_400;

/// The most clients at a time that can be asked for.
pub const MAX_CLIENTS: u64 = 65_536;

/// The most unsent bytes that can be asked for: a gibibyte.
pub const MAX_UNSENT: u64 = 1_073_741_824;

/// The most unsent bytes of all clients together that can be asked for: 64 gibibytes.
pub const MAX_UNSENT_TOTAL: u64 = 68_719_476_736;

/// The most bytes of a file that can be asked to be kept in memory: 64 gibibytes.
pub const MAX_CACHE: u64 = 68_719_476_736;

/// The most seconds between two looks at a desk: a day.
pub const MAX_WATCH: u64 = 86_400;

/// The most seconds from one copy of the records to the next that can be asked for: a year.
pub const MAX_EVERY: u64 = 31_536_000;

/// The most copies of the records that can be asked to be kept.
pub const MAX_KEEP: u64 = 10_000;

/// The most seconds for which a measurement can be asked to be late: a year.
pub const MAX_LATE: u64 = 31_536_000;

/// The most times that a message can be asked to be sent.
pub const MAX_TRIES: u64 = 1_000;

const VERSION: &str = "0.1.0";

/// An option or a word of a command: its name, if it has a value what its help calls that, and its
/// help.
#[derive(Clone, Copy)]
pub(crate) enum ArgumentSpec {
    // `--NAME SECONDS`, the seconds of a moment, which has to be given.
    Moment(&'static str, &'static str),
    // `--NAME VALUE`, which may be given: a whole number from 1 to this one.
    Number(&'static str, &'static str, u64, &'static str),
    // `--NAME`, which may be given.
    Flag(&'static str, &'static str),
    // `--NAME VALUE`, any text, which has to be given.
    Needed(&'static str, &'static str, &'static str),
    // `--NAME VALUE`, any text, which may be given.
    Optional(&'static str, &'static str, &'static str),
    // `VALUE`, any text, which has to be given.
    Word(&'static str, &'static str, &'static str),
    // `VALUE`, any text, which may be given.
    OptionalWord(&'static str, &'static str, &'static str),
    // `VALUE..`, any texts, of which at least one has to be given.
    SomeWords(&'static str, &'static str, &'static str),
    // `VALUE..`, any texts, of which any number may be given.
    MoreWords(&'static str, &'static str, &'static str),
}

/// A command: its name, what it is about, its help, its usage if clap is not to make it, and its
/// options and words.
pub(crate) struct CommandSpec {
    pub(crate) name: &'static str,
    pub(crate) about: &'static str,
    pub(crate) help: &'static str,
    pub(crate) usage: Option<&'static str>,
    pub(crate) parts: &'static [ArgumentSpec],
}

// `--cache BYTES`.
const CACHE: ArgumentSpec = ArgumentSpec::Number("cache", "BYTES", MAX_CACHE, help::CACHE_HELP);

/// What the desk takes: one of its commands, with that command's options.
pub(crate) fn desk_command<'a>(alloc: Global) -> Result<Command<'a>, AllocError>
    ensures { IfOk result (λ c. app_of c ≡ desk_command) }
{
    let desk = with_serving_commands(alloc, bare_desk(alloc));
    let desk = with_history_commands(alloc, desk);
    let desk = with_status_commands(alloc, desk);
    let desk = with_copy_commands(alloc, desk);
    let desk = with_manifest_commands(alloc, desk);
    let desk = with_asking_commands(alloc, desk);
    let desk = with_waiting_commands(alloc, desk);
    with_agent_command(alloc, desk)
}

// The desk's command without its commands.
fn bare_desk<'a>(alloc: Global) -> Result<Command<'a>, AllocError>
    ensures { IfOk result (λ c. app_of c ≡ bare_desk) }
{
    Ok(
        Command::new(alloc, "canary")
            .bin_name("canary")?
            .no_binary_name(true)
            .version(VERSION)
            .about(help::DESK_ABOUT)
            .after_help(help::DESK_HELP)
            .subcommand_required(true),
    )
}

// The desk's command with those that answer requests: `pipe` and `serve`.
fn with_serving_commands<'a>(
    alloc: Global,
    desk: Result<Command<'a>, AllocError>,
) -> Result<Command<'a>, AllocError>
    ensures { (above : App) → IfOk desk.entry (λ c. app_of c ≡ above)
        → IfOk result (λ c. app_of c ≡ with_serving_commands above) }
{
    static COMMANDS: [CommandSpec; 2] = [
        CommandSpec {
            name: "pipe",
            about: help::PIPE_ABOUT,
            help: help::PIPE_HELP,
            usage: Some(help::PIPE_USAGE),
            parts: &[
                ArgumentSpec::Moment("at", help::AT_HELP),
                ArgumentSpec::Moment("step", help::STEP_HELP),
                ArgumentSpec::Optional("db", "FILE", help::DB_OR_MEMORY_HELP),
                CACHE,
            ],
        },
        CommandSpec {
            name: "serve",
            about: help::SERVE_ABOUT,
            help: help::SERVE_HELP,
            usage: None,
            parts: &[
                ArgumentSpec::Needed("listen", "ADDRESS", help::LISTEN_HELP),
                ArgumentSpec::Optional("db", "FILE", help::DB_OR_MEMORY_HELP),
                CACHE,
                ArgumentSpec::Number("connections", "N", MAX_CONNECTIONS, help::CONNECTIONS_HELP),
                ArgumentSpec::Number(
                    "read-timeout",
                    "SECONDS",
                    MAX_SECONDS,
                    help::READ_TIMEOUT_HELP,
                ),
                ArgumentSpec::Number(
                    "idle-timeout",
                    "SECONDS",
                    MAX_SECONDS,
                    help::IDLE_TIMEOUT_HELP,
                ),
                ArgumentSpec::Number("max-clients", "N", MAX_CLIENTS, help::MAX_CLIENTS_HELP),
                ArgumentSpec::Number("max-unsent", "BYTES", MAX_UNSENT, help::MAX_UNSENT_HELP),
                ArgumentSpec::Number(
                    "max-unsent-total",
                    "BYTES",
                    MAX_UNSENT_TOTAL,
                    help::MAX_UNSENT_TOTAL_HELP,
                ),
            ],
        },
    ];
    with_commands(alloc, desk, &COMMANDS)
}

// The desk's command with those for measurements and what happened: `import`, `history` and
// `export`.
fn with_history_commands<'a>(
    alloc: Global,
    desk: Result<Command<'a>, AllocError>,
) -> Result<Command<'a>, AllocError>
    ensures { (above : App) → IfOk desk.entry (λ c. app_of c ≡ above)
        → IfOk result (λ c. app_of c ≡ with_history_commands above) }
{
    static COMMANDS: [CommandSpec; 3] = [
        CommandSpec {
            name: "import",
            about: help::IMPORT_ABOUT,
            help: help::IMPORT_HELP,
            usage: None,
            parts: &[
                ArgumentSpec::Needed("db", "FILE", help::DB_OR_MADE_HELP),
                CACHE,
                ArgumentSpec::Word("csv", "CSV", help::CSV_HELP),
            ],
        },
        CommandSpec {
            name: "history",
            about: help::HISTORY_ABOUT,
            help: help::HISTORY_HELP,
            usage: None,
            parts: &[
                ArgumentSpec::Needed("db", "FILE", help::DB_OR_MADE_HELP),
                ArgumentSpec::Word("service", "SERVICE", help::SERVICE_HELP),
            ],
        },
        CommandSpec {
            name: "export",
            about: help::EXPORT_ABOUT,
            help: help::EXPORT_HELP,
            usage: None,
            parts: &[
                ArgumentSpec::Needed("db", "FILE", help::DB_OR_MADE_HELP),
                ArgumentSpec::Needed("caller", "NAME", help::CALLER_HELP),
                ArgumentSpec::Word("service", "SERVICE", help::SERVICE_HELP),
            ],
        },
    ];
    with_commands(alloc, desk, &COMMANDS)
}

// The desk's command with those that say how services stand: `status` and `page`.
fn with_status_commands<'a>(
    alloc: Global,
    desk: Result<Command<'a>, AllocError>,
) -> Result<Command<'a>, AllocError>
    ensures { (above : App) → IfOk desk.entry (λ c. app_of c ≡ above)
        → IfOk result (λ c. app_of c ≡ with_status_commands above) }
{
    // `--watch SECONDS`.
    const WATCH: ArgumentSpec = ArgumentSpec::Number(
        "watch",
        "SECONDS",
        MAX_WATCH,
        help::WATCH_OPTION_HELP,
    );
    static COMMANDS: [CommandSpec; 2] = [
        CommandSpec {
            name: "status",
            about: help::STATUS_ABOUT,
            help: help::STATUS_HELP,
            usage: None,
            parts: &[
                ArgumentSpec::Needed("db", "FILE", help::DB_HELP),
                WATCH,
                ArgumentSpec::Flag("json", help::JSON_HELP),
                ArgumentSpec::Flag("prometheus", help::PROMETHEUS_HELP),
            ],
        },
        CommandSpec {
            name: "page",
            about: help::PAGE_ABOUT,
            help: help::PAGE_HELP,
            usage: None,
            parts: &[
                ArgumentSpec::Needed("db", "FILE", help::DB_HELP),
                WATCH,
                ArgumentSpec::Optional("json", "FOLDER", help::JSON_FOLDER_HELP),
                ArgumentSpec::Word("out", "OUT", help::OUT_HELP),
            ],
        },
    ];
    with_commands(alloc, desk, &COMMANDS)
}

// The desk's command with those that copy the records: `backup`, `migrate` and `succeed`.
fn with_copy_commands<'a>(
    alloc: Global,
    desk: Result<Command<'a>, AllocError>,
) -> Result<Command<'a>, AllocError>
    ensures { (above : App) → IfOk desk.entry (λ c. app_of c ≡ above)
        → IfOk result (λ c. app_of c ≡ with_copy_commands above) }
{
    static COMMANDS: [CommandSpec; 3] = [
        CommandSpec {
            name: "backup",
            about: help::BACKUP_ABOUT,
            help: help::BACKUP_HELP,
            usage: None,
            parts: &[
                ArgumentSpec::Needed("db", "FILE", help::DB_HELP),
                ArgumentSpec::Number("every", "SECONDS", MAX_EVERY, help::EVERY_HELP),
                ArgumentSpec::Number("keep", "N", MAX_KEEP, help::KEEP_HELP),
                ArgumentSpec::Word("copy", "COPY", help::COPY_HELP),
            ],
        },
        CommandSpec {
            name: "migrate",
            about: help::MIGRATE_ABOUT,
            help: help::MIGRATE_HELP,
            usage: None,
            parts: &[
                ArgumentSpec::Needed("db", "FILE", help::DB_HELP),
                ArgumentSpec::Flag("dry-run", help::DRY_RUN_HELP),
            ],
        },
        CommandSpec {
            name: "succeed",
            about: help::SUCCEED_ABOUT,
            help: help::SUCCEED_HELP,
            usage: None,
            parts: &[
                ArgumentSpec::Needed("db", "OLD", help::OLD_HELP),
                ArgumentSpec::Word("new", "NEW", help::NEW_HELP),
            ],
        },
    ];
    with_commands(alloc, desk, &COMMANDS)
}

// The desk's command with those that read manifests: `check` and `argo`.
fn with_manifest_commands<'a>(
    alloc: Global,
    desk: Result<Command<'a>, AllocError>,
) -> Result<Command<'a>, AllocError>
    ensures { (above : App) → IfOk desk.entry (λ c. app_of c ≡ above)
        → IfOk result (λ c. app_of c ≡ with_manifest_commands above) }
{
    static COMMANDS: [CommandSpec; 2] = [
        CommandSpec {
            name: "check",
            about: help::CHECK_ABOUT,
            help: help::CHECK_HELP,
            usage: None,
            parts: &[
                ArgumentSpec::Optional("request", "FILE", help::REQUEST_HELP),
                ArgumentSpec::Flag("strict", help::STRICT_HELP),
                ArgumentSpec::OptionalWord("file", "FILE", help::FILE_HELP),
            ],
        },
        CommandSpec {
            name: "argo",
            about: help::ARGO_ABOUT,
            help: help::ARGO_HELP,
            usage: None,
            parts: &[
                ArgumentSpec::Optional("out", "FOLDER", help::ARGO_OUT_HELP),
                ArgumentSpec::Flag("json", help::ARGO_JSON_HELP),
                ArgumentSpec::SomeWords("file", "FILE", help::ARGO_FILES_HELP),
            ],
        },
    ];
    with_commands(alloc, desk, &COMMANDS)
}

/// The desk's command with these, if it was had.
pub(crate) fn with_commands<'a>(
    alloc: Global,
    desk: Result<Command<'a>, AllocError>,
    specs: &[CommandSpec],
) -> Result<Command<'a>, AllocError>
    ensures { (above : App) → IfOk desk.entry (λ c. app_of c ≡ above)
        → IfOk result (λ c. app_of c ≡ with_commands above specs.now) }
{
    let mut desk = desk?;
    for spec in specs {
        desk = with_command(alloc, desk, spec)?;
    }
    Ok(desk)
}

// The desk's command with this one.
fn with_command<'a>(
    alloc: Global,
    desk: Command<'a>,
    spec: &CommandSpec,
) -> Result<Command<'a>, AllocError>
    ensures { IfOk result (λ c. app_of c
        ≡ with_subcommand (app_of desk.entry) (command_for spec.now).top) }
{
    let command = command_of(alloc, spec)?;
    desk.subcommand(command)
}

// What clap takes for a command.
fn command_of<'a>(alloc: Global, spec: &CommandSpec) -> Result<Command<'a>, AllocError>
    ensures { IfOk result (λ c. app_of c ≡ command_for spec.now) }
{
    let command = Command::new(alloc, spec.name)
        .about(spec.about)
        .after_help(spec.help);
    with_parts(alloc, with_usage(command, spec.usage), spec.parts)
}

// A command with this usage, if there is one.
fn with_usage<'a>(command: Command<'a>, usage: Option<&'static str>) -> Command<'a>
    ensures { app_of result ≡ app_of command.entry }
{
    match usage {
        Some(usage) => command.override_usage(usage),
        None => command,
    }
}

// A command with these parts, in turn.
fn with_parts<'a>(
    alloc: Global,
    command: Command<'a>,
    parts: &[ArgumentSpec],
) -> Result<Command<'a>, AllocError>
    ensures { IfOk result (λ c. app_of c ≡ with_parts (app_of command.entry) parts.now) }
{
    let mut command = command;
    for part in parts {
        command = command.arg(arg_of(alloc, part))?;
    }
    Ok(command)
}

// What clap takes for a part.
fn arg_of<'a>(alloc: Global, part: &ArgumentSpec) -> Arg<'a>
    ensures rule { rule_of result ≡ rule_for part.now }
    ensures local { result.global ≡ false }
{
    match *part {
        ArgumentSpec::Moment(name, help) => moment_option(alloc, name, help),
        ArgumentSpec::Number(name, value, most, help) => number_option(
            alloc, name, value, most, help,
        ),
        ArgumentSpec::Flag(name, help) => flag(alloc, name, help),
        ArgumentSpec::Needed(name, value, help) => text_option(alloc, name, value, true, help),
        ArgumentSpec::Optional(name, value, help) => text_option(alloc, name, value, false, help),
        ArgumentSpec::Word(name, value, help) => with_value(alloc, name, value, true, help),
        ArgumentSpec::OptionalWord(name, value, help) => with_value(
            alloc, name, value, false, help,
        ),
        ArgumentSpec::SomeWords(name, value, help) => text_words(alloc, name, value, help),
        ArgumentSpec::MoreWords(name, value, help) => more_words(alloc, name, value, help),
    }
}

// The option `--NAME SECONDS`, which has to be given, with the seconds of a moment.
fn moment_option<'a>(alloc: Global, name: &'a str, help: &'a str) -> Arg<'a>
    ensures rule { rule_of result ≡ moment_option name.entry.now }
    ensures local { result.global ≡ false }
{
    with_numbers(
        text_option(alloc, name, "SECONDS", true, help),
        0,
        MAX_MOMENT,
    )
}

// The option `--NAME VALUE`, which may be given, with a whole number from 1 to `most`.
fn number_option<'a>(
    alloc: Global,
    name: &'a str,
    value: &'a str,
    most: u64,
    help: &'a str,
) -> Arg<'a>
    ensures rule { rule_of result ≡ number_option name.entry.now most }
    ensures local { result.global ≡ false }
{
    with_numbers(text_option(alloc, name, value, false, help), 1, most)
}

// With whole numbers from `least` to `most` as its values.
fn with_numbers(option: Arg<'_>, least: u64, most: u64) -> Arg<'_>
    ensures rule { rule_of result ≡ with_numbers (rule_of option.entry) least most }
    ensures local { result.global ≡ option.entry.global }
{
    option.value_parser(ValueParser::unsigned(least, most))
}

// The option `--NAME VALUE` with any text, which has to be given if `is_required`.
fn text_option<'a>(
    alloc: Global,
    name: &'a str,
    value: &'a str,
    is_required: bool,
    help: &'a str,
) -> Arg<'a>
    ensures rule { rule_of result ≡ text_option name.entry.now is_required }
    ensures local { result.global ≡ false }
{
    with_value(alloc, name, value, is_required, help).long(name)
}

// The flag `--NAME`, which may be given.
fn flag<'a>(alloc: Global, name: &'a str, help: &'a str) -> Arg<'a>
    ensures rule { rule_of result ≡ flag name.entry.now }
    ensures local { result.global ≡ false }
{
    Arg::new(alloc, name)
        .help(help)
        .long(name)
        .action(ArgAction::SetTrue)
}

// The words `VALUE..` with any texts, of which at least one has to be given.
fn text_words<'a>(alloc: Global, name: &'a str, value: &'a str, help: &'a str) -> Arg<'a>
    ensures rule { rule_of result ≡ text_words name.entry.now }
    ensures local { result.global ≡ false }
{
    with_value(alloc, name, value, true, help).num_args(1usize..)
}

// The words `VALUE..` with any texts, of which any number may be given.
fn more_words<'a>(alloc: Global, name: &'a str, value: &'a str, help: &'a str) -> Arg<'a>
    ensures rule { rule_of result ≡ more_words name.entry.now }
    ensures local { result.global ≡ false }
{
    with_value(alloc, name, value, false, help).num_args(1usize..)
}

// What has a value, any text, which has to be given if `is_required`.
fn with_value<'a>(
    alloc: Global,
    name: &'a str,
    value: &'a str,
    is_required: bool,
    help: &'a str,
) -> Arg<'a>
    ensures rule { rule_of result ≡ with_value name.entry.now is_required }
    ensures local { result.global ≡ false }
{
    Arg::new(alloc, name)
        .help(help)
        .value_name(value)
        .required(is_required)
        .action(ArgAction::Set)
}
