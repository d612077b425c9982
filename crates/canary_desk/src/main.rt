//! The desk as a program: hands `perform` the machine, the words of the command line and the
//! process's own streams. No file takes the place of a stream that is closed.
#![tactic(auto)]

mod streams;

use canary_cli::perform::{give_up, perform, refuse};
use canary_cli_desk::run::Terminals;
use canary_cli_words::process::words_of;
use std::io::IsTerminal;
use std::process::ExitCode;
use streams::fill_closed;

// Does what the words ask for, or gives up if a closed standard stream cannot be filled.
fn main(rt: HostRuntime) -> ExitCode {
    // Before anything is opened.
    let is_filled = fill_closed(&rt).is_ok();
    let (mut output, mut errors) = (rt.stdout(), rt.stderr());
    let terminals = Terminals {
        output: output.is_terminal(),
        errors: errors.is_terminal(),
    };
    let status = match words_of(&rt, rt.alloc()) {
        Ok(words) if is_filled => perform(
            &rt,
            words.as_slice(),
            &mut rt.stdin(),
            &mut output,
            &mut errors,
            terminals,
        ),
        Ok(words) => give_up(rt.alloc(), words.as_slice(), &mut output, &mut errors),
        Err(error) => refuse(&error, &mut errors),
    };
    ExitCode::from(status)
}
