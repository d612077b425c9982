//! Where a desk is, as whom it is asked, and how patiently: what the command line or, in its place,
//! the environment says.
ghost use Rattle.std.specs.Prelude.{◌≡◌, IfOk, None};
ghost use Rattle.canary_client.specs.Patience.{address_of, tries_of, reply_seconds_of};

use crate::outcome::Stop;
use canary_base::lists::Text;
use canary_base::names::Name;
use canary_cli_words::words::AskedDesk;
use std::env::{self, VarError};
use std::io::{self, ErrorKind};
use std::net::{SocketAddr, ToSocketAddrs};

// The desk's address, if neither the words nor the environment give one.
const DESK: &str = "127.0.0.1:8080";

// How often a message is sent, at most, and the most seconds for a reply, if no word says so.
const TRIES: u64 = 10;

const SECONDS: u64 = 5;

/// Where a desk is, and how patiently it is asked.
#[derive(Clone, Copy, Debug)]
pub struct DeskEndpoint {
    /// The address.
    pub desk: SocketAddr,
    /// How often a message is sent, at most.
    pub tries: u32,
    /// The most seconds of an exchange, from its connection to the last byte of the reply.
    pub reply_seconds: u64,
    /// The most seconds of a call that waits for something to happen; none for no end.
    pub wait_seconds: Option<u64>,
}

/// A variable of the environment that counts in the place of an option.
#[derive(Clone, Copy)]
pub enum Variable {
    /// Of `--desk`.
    Desk,
    /// Of `--as`.
    Caller,
    /// Of `--journal`.
    Journal,
    /// Of `--journals`.
    Journals,
}

impl Variable {
    // Its name.
    fn name(self) -> &'static str {
        match self {
            Variable::Desk => "CANARY_DESK",
            Variable::Caller => "CANARY_AS",
            Variable::Journal => "CANARY_JOURNAL",
            Variable::Journals => "CANARY_JOURNALS",
        }
    }

    // Why a call stops if its value is not UTF-8.
    fn not_utf8(self) -> Stop {
        match self {
            Variable::Desk => Stop::DeskNotUtf8,
            Variable::Caller => Stop::CallerNotUtf8,
            Variable::Journal => Stop::JournalNotUtf8,
            Variable::Journals => Stop::JournalsNotUtf8,
        }
    }
}

/// The place that these words name; if they name none, that of the environment's CANARY_DESK. A
/// host's name is looked up, once: of its addresses the first of IPv4 counts, else the first.
///
/// # Errors
/// `Address` if the text is not HOST:PORT; `DeskNotUtf8` if the variable counts and is no text;
/// `DeskName` if the system knows no address of the name; `Memory`.
pub fn endpoint_of(rt: &HostRuntime, asked: &AskedDesk) -> Result<DeskEndpoint, Stop>
    ensures { IfOk result (λ place. (place.tries ≡ tries_of asked.now.tries)
        × (place.reply_seconds ≡ reply_seconds_of asked.now.timeout)
        × (place.wait_seconds ≡ asked.now.timeout)) }
{
    let given = given_or(rt, &asked.desk, Variable::Desk)?;
    Ok(DeskEndpoint {
        desk: looked_up(rt, address_of(&given))?,
        tries: asked.tries.unwrap_or(TRIES).min(u32::MAX as u64) as u32,
        reply_seconds: asked.timeout.unwrap_or(SECONDS),
        wait_seconds: asked.timeout,
    })
}

// The address that was given, or that of a desk on this machine.
fn address_of(given: &Option<Text>) -> &str
    ensures { result.now ≡ address_of given.now }
{
    match given {
        Some(given) => given.as_str(),
        None => DESK,
    }
}

// The address that a text HOST:PORT names.
fn looked_up(rt: &HostRuntime, text: &str) -> Result<SocketAddr, Stop> {
    if !may_name(text) {
        return Err(Stop::Address);
    }
    match address_in(rt, text) {
        Ok(address) => Ok(address),
        Err(fault) if fault.kind() == ErrorKind::InvalidInput => Err(Stop::Address),
        Err(fault) if fault.kind() == ErrorKind::OutOfMemory => Err(Stop::Memory),
        Err(_) => Err(Stop::DeskName),
    }
}

// Of the addresses of a text HOST:PORT the first of IPv4, else the first.
fn address_in(rt: &HostRuntime, text: &str) -> io::Result<SocketAddr> {
    let mut found = None;
    for address in text.to_socket_addrs(rt)? {
        if address.is_ipv4() {
            return Ok(address);
        }
        if found.is_none() {
            found = Some(address);
        }
    }
    match found {
        Some(address) => Ok(address),
        None => Err(ErrorKind::NotFound.into()),
    }
}

// Whether a text may be HOST:PORT: a host's name, or a number with its marks, and a port. So no
// system is asked for a text that somebody meant otherwise, as a URL.
fn may_name(text: &str) -> bool {
    match text.rsplit_once(':') {
        Some((host, _)) => !host.is_empty() && host.as_bytes().iter().all(is_host_byte),
        None => false,
    }
}

// Whether a byte may be in a host: a letter, a digit, or a mark of a name or of an IPv6 number.
fn is_host_byte(byte: &u8) -> bool {
    byte.is_ascii_alphanumeric() || b"-._:[]%".contains(byte)
}

/// The place of a call that waits: the most seconds are those of the whole call, and each exchange
/// has as many as by default.
pub fn waiting(place: DeskEndpoint) -> DeskEndpoint
    ensures reply { result.reply_seconds ≡ reply_seconds_of None }
    ensures rest { (result.desk ≡ place.desk) × (result.tries ≡ place.tries)
        × (result.wait_seconds ≡ place.wait_seconds) }
{
    DeskEndpoint {
        reply_seconds: SECONDS,
        ..place
    }
}

/// The caller that these words name, or the environment's CANARY_AS.
///
/// # Errors
/// `NoCaller` if there is none, `BadCaller` if it is an invalid name, `CallerNotUtf8` if the
/// variable counts and is no text; `Memory`.
pub fn caller_of(rt: &HostRuntime, asked: &Option<Text>) -> Result<Name, Stop> {
    let Some(given) = given_or(rt, asked, Variable::Caller)? else {
        return Err(Stop::NoCaller);
    };
    match Name::read(given.as_str().as_bytes()) {
        Some(caller) => Ok(caller),
        None => Err(Stop::BadCaller),
    }
}

/// The file of the journal that these words name, or the environment's CANARY_JOURNAL.
///
/// # Errors
/// `NoJournal` if there is none, `JournalNotUtf8` if the variable counts and is no text; `Memory`.
pub fn journal_of(rt: &HostRuntime, asked: &Option<Text>) -> Result<Text, Stop> {
    match given_or(rt, asked, Variable::Journal)? {
        Some(file) if !file.as_str().is_empty() => Ok(file),
        _ => Err(Stop::NoJournal),
    }
}

/// The service that a word names.
///
/// # Errors
/// `BadService` if it is an invalid name.
pub fn service_of(word: &Text) -> Result<Name, Stop> {
    match Name::read(word.as_str().as_bytes()) {
        Some(service) => Ok(service),
        None => Err(Stop::BadService),
    }
}

/// What was given, or else the variable of the environment that counts in its place, if it is set.
///
/// # Errors
/// If the variable counts and is not UTF-8, the stop that names it: it was meant to say something,
/// so no default takes its place. `Memory`.
pub fn given_or(
    rt: &HostRuntime,
    given: &Option<Text>,
    variable: Variable,
) -> Result<Option<Text>, Stop> {
    if let Some(given) = given {
        return Ok(Some(given.copy(rt.alloc())?));
    }
    match env::var(&(rt, rt.alloc()), variable.name()) {
        Ok(value) => Ok(Some(Text::of(value))),
        Err(VarError::OutOfMemory) => Err(Stop::Memory),
        Err(VarError::NotUnicode) => Err(variable.not_utf8()),
        Err(VarError::NotPresent) => Ok(None),
    }
}
