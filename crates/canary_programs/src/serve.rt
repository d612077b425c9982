//! The desk on a socket.
ghost use Rattle.std.specs.Prelude.{◌≡◌};
ghost use Rattle.canary_once.specs.Messages.{desk_state};
ghost use Rattle.canary_listen.specs.Attending.{ServesAll, nobody};
ghost use Rattle.canary_listen.specs.Crowd.{attendance_of};

use crate::fault::Fault;
use crate::show::show;
use canary_listen::limits::Limits;
use canary_listen::listener::Listener;
use canary_listen::placed::Placed;
use canary_listen::unblocked::Unblocked;
use canary_listen::wall_clock::WallClock;
use canary_once::clock::Clock;
use canary_once::memory::MemoryBook;
use std::io::Write;
use std::net::{Net, SocketAddr};
use std::time;

// What is said of a book in memory.
const NOTICE: &str = "canary: the records of this desk are in memory, and end with it\n";

/// Where a desk listens, to how many connections, and within which limits.
#[derive(Clone, Copy)]
pub struct Listening {
    /// The address that it listens on.
    pub address: SocketAddr,
    /// After so many connections it serves no more; none if it serves as many as come.
    pub connections: Option<u64>,
    /// What a client may hold, and how long it may take.
    pub limits: Limits,
}

impl Listening {
    /// Listening at the address that `listen` spells.
    ///
    /// # Errors
    /// `Listen` if the address is invalid.
    pub fn at(listen: &str, connections: Option<u64>, limits: Limits) -> Result<Listening, Fault> {
        match listen.parse::<SocketAddr>() {
            Ok(address) => Ok(Listening {
                address,
                connections,
                limits,
            }),
            Err(_) => Err(Fault::Listen),
        }
    }
}

/// Serves clients over a book in memory, which a line on `errors` says.
///
/// # Errors
/// As `serve_book`.
pub fn serve_memory<W: Write, F: Write>(
    rt: &HostRuntime,
    listening: Listening,
    output: &mut W,
    errors: &mut F,
) -> Result<(), Fault> {
    let mut book = MemoryBook::new(rt.alloc());
    serve_book(rt, listening, NOTICE, &mut book, output, errors)
}

/// Serves clients over a book, by the machine's clock. The notice goes to `errors` once the address
/// is listened on, and then the line `listening IP:PORT` to `output`. `errors` has to be the
/// standard error of the process: the lines of `Listener::serve` do not wait for whoever reads it.
///
/// # Errors
/// `Listen` if the address cannot be listened on; `Memory` if an allocation was refused;
/// `Write` if the output failed; `Accept` if waiting for clients failed; `Replaced` if the
/// records of the book are not where they were found.
pub fn serve_book<B: Placed, W: Write, F: Write>(
    rt: &HostRuntime,
    listening: Listening,
    notice: &str,
    book: &mut B,
    output: &mut W,
    errors: &mut F,
) -> Result<(), Fault> {
    let mut listener = bind(rt, listening.address, listening.limits)?;
    let _ = errors.write_all(notice.as_bytes());
    announce(rt, &listener, output)?;
    let mut errors = Unblocked::new(rt, errors);
    run_listener(rt, &mut listener, listening.connections, book, &mut errors)
}

// A socket at that address.
fn bind<P: Net + AllocGlobal>(
    rt: &P,
    address: SocketAddr,
    limits: Limits,
) -> Result<Listener, Fault> {
    match Listener::bind(rt, address, limits) {
        Ok(listener) => Ok(listener),
        Err(fault) => Err(fault.into()),
    }
}

// Serves clients over a book, by the machine's clock.
fn run_listener<P: time::Clock + AllocGlobal, B: Placed, F: Write>(
    rt: &P,
    listener: &mut Listener,
    connections: Option<u64>,
    book: &mut B,
    errors: &mut F,
) -> Result<(), Fault> {
    let mut clock = WallClock::new(rt);
    serve_clients(rt, listener, connections, &mut clock, book, errors)
}

/// Serves so many connections at a socket over a book, or as many as come.
///
/// # Errors
/// `Accept` if the system reports no more of the connections; `Replaced` if the records of the
/// book are not where they were found.
pub fn serve_clients<P: time::Clock + AllocGlobal, C: Clock, B: Placed, F: Write>(
    rt: &P,
    listener: &mut Listener,
    connections: Option<u64>,
    clock: &mut C,
    book: &mut B,
    errors: &mut F,
) -> Result<(), Fault>
    ensures { attendance_of listener.old ≡ nobody
        → ServesAll (desk_state (C.tells clock.old) (B.state book.old))
        (desk_state (C.tells clock.new) (B.state book.new)) }
{
    match listener.serve(rt, connections, clock, book, errors) {
        Ok(()) => Ok(()),
        Err(fault) => Err(fault.into()),
    }
}

// Writes the line that gives the address.
fn announce<P: AllocGlobal, W: Write>(
    rt: &P,
    listener: &Listener,
    output: &mut W,
) -> Result<(), Fault> {
    let Ok(address) = listener.address() else {
        return Err(Fault::Listen);
    };
    let Ok(line) = format!(in rt.alloc(); "listening {address}\n") else {
        return Err(Fault::Memory);
    };
    show(line.as_str(), output)?;
    match output.flush() {
        Ok(()) => Ok(()),
        Err(_) => Err(Fault::Write),
    }
}
