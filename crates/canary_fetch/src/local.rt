//! Faults of this machine, which are no faults of a provider.
ghost use Rattle.std.specs.Prelude.{◌≡◌};
ghost use Rattle.std.specs.IoError.{raw_os_error};
ghost use Rattle.canary_fetch.specs.Locals.{code_of, local_fault, is_exhausted};

use std::io;

// The numbers of Linux, on x86-64 and aarch64.
const EPERM: u32 = 1;

const EAGAIN: u32 = 11;

const ENOMEM: u32 = 12;

const EACCES: u32 = 13;

const ENFILE: u32 = 23;

const EMFILE: u32 = 24;

const ENOSPC: u32 = 28;

const EPROTONOSUPPORT: u32 = 93;

const EAFNOSUPPORT: u32 = 97;

const EADDRNOTAVAIL: u32 = 99;

const ENETDOWN: u32 = 100;

const ENETUNREACH: u32 = 101;

const ENOBUFS: u32 = 105;

/// Why this machine asks no provider. That says nothing of the provider.
#[derive(Clone, Copy, Debug, PartialEq, Eq)]
pub enum LocalFault {
    /// No descriptor is left: EMFILE, ENFILE.
    Descriptors,
    /// No memory is left for a connection: ENOMEM, ENOBUFS, EAGAIN, and ENOSPC for what is waited
    /// for.
    Memory,
    /// No local port, or no local address: EADDRNOTAVAIL.
    Ports,
    /// A rule of this machine forbids the connection: EPERM, EACCES.
    Forbidden,
    /// This machine knows no way to that network: ENETUNREACH, ENETDOWN.
    Network,
    /// This machine does not have the protocol, as IPv6: EAFNOSUPPORT, EPROTONOSUPPORT.
    Protocol,
    /// The resolver of this machine gives no answer now: EAI_AGAIN.
    Resolver,
    /// Others had all connections until the time of the message was over.
    Crowd,
}

impl LocalFault {
    /// Which one an error is as a connection is begun; none if it is no fault of this machine.
    pub fn of(error: &io::Error) -> Option<LocalFault>
        ensures { result ≡ local_fault (code_of (raw_os_error error.now)) }
    {
        local_fault(code_of(error))
    }

    /// What it is, in a few words.
    pub fn text(self) -> &'static str {
        match self {
            LocalFault::Descriptors => "no file descriptor is left (EMFILE or ENFILE)",
            LocalFault::Memory => "no memory is left for a connection (ENOMEM or ENOBUFS)",
            LocalFault::Ports => "no local port or address is left (EADDRNOTAVAIL)",
            LocalFault::Forbidden => "the connection is not permitted (EPERM or EACCES)",
            LocalFault::Network => "no way leads to the network (ENETUNREACH or ENETDOWN)",
            LocalFault::Protocol => "the protocol is not there, as IPv6 (EAFNOSUPPORT)",
            LocalFault::Resolver => "the resolver of names gives no answer now (EAI_AGAIN)",
            LocalFault::Crowd => "providers that do not answer have all connections",
        }
    }
}

/// Whether an error of a connection that was begun says that no memory is left for it.
pub(crate) fn is_exhausted(error: &io::Error) -> bool
    ensures { result ≡ is_exhausted (code_of (raw_os_error error.now)) }
{
    is_exhausted_by(code_of(error))
}

// Whether no memory is left, by this number.
fn is_exhausted_by(code: u32) -> bool
    ensures { result ≡ is_exhausted code }
{
    code == ENOMEM || code == ENOBUFS
}

// The number of the system's error; 0 if it is of another kind.
fn code_of(error: &io::Error) -> u32
    ensures { result ≡ code_of (raw_os_error error.now) }
{
    match error.raw_os_error() {
        Some(code) => code.unsigned_abs(),
        None => 0,
    }
}

// The fault that has this number as a connection is begun.
fn local_fault(code: u32) -> Option<LocalFault>
    ensures { result ≡ local_fault code }
{
    if code == EMFILE || code == ENFILE {
        Some(LocalFault::Descriptors)
    } else if is_exhausted_by(code) || code == EAGAIN || code == ENOSPC {
        Some(LocalFault::Memory)
    } else if code == EADDRNOTAVAIL {
        Some(LocalFault::Ports)
    } else if code == EPERM || code == EACCES {
        Some(LocalFault::Forbidden)
    } else if code == ENETUNREACH || code == ENETDOWN {
        Some(LocalFault::Network)
    } else if code == EAFNOSUPPORT || code == EPROTONOSUPPORT {
        Some(LocalFault::Protocol)
    } else {
        None
    }
}
