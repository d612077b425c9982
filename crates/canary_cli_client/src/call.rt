//! Running the client's programs that ask a desk.
ghost use Rattle.canary_cli_client.specs.Asked.{IsAsked};

use canary_agent::agent::agent;
use canary_cli_words::words::ClientCall;
use canary_client::ask::ask;
use canary_client::due::{Sought, due};
use canary_client::get::get;
use canary_client::outcome::ClientExit;
use canary_client::send::send;
use canary_client::watch::{WatchOptions, watch};
use std::io::{Read, Write};

/// Asks a desk what these words ask of it, and answers how that ended.
pub fn ask_desk<R: Read, W: Write, F: Write>(
    rt: &HostRuntime,
    asked: ClientCall,
    input: &mut R,
    output: &mut W,
    errors: &mut F,
    is_terminal: bool,
) -> ClientExit
    ensures { IsAsked (R.remaining input.old) (R.remaining input.new) asked }
{
    match asked {
        ClientCall::Do(call) => ask(rt, call, output, errors, is_terminal),
        ClientCall::Get {
            desk,
            service,
            part,
        } => get(rt, &desk, &service, &part, output, errors, is_terminal),
        ClientCall::Watch {
            desk,
            until,
            json,
            forever,
            service,
        } => {
            let manner = WatchOptions {
                until,
                is_json: json,
                is_forever: forever,
            };
            watch(rt, &desk, &service, &manner, output, errors)
        }
        ClientCall::Send { desk, csv } => send(rt, &desk, &csv, input, output, errors),
        ClientCall::Due {
            desk,
            wait,
            late,
            services,
        } => {
            let sought = Sought { waits: wait, late };
            due(rt, &desk, &services, sought, output, errors, is_terminal)
        }
        ClientCall::Agent(call) => agent(rt, call, input, output, errors, is_terminal),
    }
}
