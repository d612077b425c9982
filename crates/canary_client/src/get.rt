//! `get`: a service, its history, or one of its runs.
use crate::ask::show_body;
use crate::endpoint::{endpoint_of, service_of};
use crate::outcome::{ClientExit, Stop, tell};
use crate::query::answer;
use crate::tcp::Tcp;
use canary_base::lists::Text;
use canary_base::names::Name;
use canary_cli_words::words::AskedDesk;
use std::alloc::Global;
use std::io::Write;

/// Shows what a desk has of a service: how it stands, or with the part `history` what happened to
/// it, or with a number that run: the body of the reply, or on a terminal a plain line. `Refused`
/// if there is no such thing.
pub fn get<W: Write, F: Write>(
    rt: &HostRuntime,
    desk: &AskedDesk,
    service: &Text,
    part: &Option<Text>,
    output: &mut W,
    errors: &mut F,
    is_terminal: bool,
) -> ClientExit {
    match try_get(rt, desk, service, part, output, is_terminal) {
        Ok(outcome) => outcome,
        Err(stop) => tell(stop, errors),
    }
}

// Sends one query, and shows the body of the reply, whatever its status.
fn try_get<W: Write>(
    rt: &HostRuntime,
    desk: &AskedDesk,
    service: &Text,
    part: &Option<Text>,
    output: &mut W,
    is_terminal: bool,
) -> Result<ClientExit, Stop> {
    let place = endpoint_of(rt, desk)?;
    let path = path_of(rt.alloc(), service_of(service)?, part)?;
    let mut network = Tcp::new(rt, &place);
    let response = answer(rt.alloc(), &mut network, path.as_str(), place.tries)?;
    show_body(rt.alloc(), response.body.as_str(), output, is_terminal)?;
    if response.status == 200 {
        Ok(ClientExit::Done)
    } else {
        Ok(ClientExit::Refused)
    }
}

// The path of the query: of the service, its history or one of its runs; `Part` for another part.
fn path_of(alloc: Global, service: Name, part: &Option<Text>) -> Result<String, Stop> {
    let service = service.as_str();
    let Some(part) = part else {
        return Ok(format!(in alloc; "/services/{service}")?);
    };
    if part.as_str() == "history" {
        return Ok(format!(in alloc; "/services/{service}/history")?);
    }
    match part.as_str().parse::<u32>() {
        Ok(run) => Ok(format!(in alloc; "/services/{service}/runs/{run}")?),
        Err(_) => Err(Stop::Part),
    }
}
