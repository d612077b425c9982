//! Why the address of a host is not known.
use crate::local::LocalFault;
use mio::Poll;
use std::io::{self, ErrorKind};
use std::net::Net;

// What the standard library says of a resolver that gives no answer now (EAI_AGAIN).
const NO_ANSWER: &str = "Temporary failure in name resolution";

/// Why the address of a host is not known.
#[derive(Clone, Copy, Debug, PartialEq, Eq)]
pub enum NameFault {
    /// The resolver knows no such name.
    Unknown,
    /// This machine cannot look it up now.
    Local(LocalFault),
}

/// Whose fault it is that a name was not looked up. A resolver that finds no descriptor may answer
/// that there is no such name.
pub(crate) fn fault_of<R: Net + AllocGlobal>(rt: &R, error: &io::Error) -> NameFault {
    match local_fault(rt, error) {
        Some(fault) => NameFault::Local(fault),
        None => NameFault::Unknown,
    }
}

// The fault of this machine, if it is one.
fn local_fault<R: Net + AllocGlobal>(rt: &R, error: &io::Error) -> Option<LocalFault> {
    if error.kind() == ErrorKind::OutOfMemory {
        return Some(LocalFault::Memory);
    }
    let Ok(text) = format!(in rt.alloc(); "{error}") else {
        return Some(LocalFault::Memory);
    };
    if text.as_str().ends_with(NO_ANSWER) {
        return Some(LocalFault::Resolver);
    }
    match Poll::new(rt) {
        Ok(_) => LocalFault::of(error),
        Err(refused) => LocalFault::of(&refused),
    }
}
