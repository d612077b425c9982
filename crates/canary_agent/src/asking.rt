//! Messages to providers that are under way.
use crate::taken::{Came, failed};
use crate::taking::Message;
use canary_base::error::Memory;
use canary_client::outcome::Stop;
use canary_fetch::address::Address;
use canary_fetch::fault::ExchangeFault;
use canary_fetch::fetcher::{FetchFault, Fetcher};
use canary_fetch::local::LocalFault;
use canary_fetch::names::NameFault;
use canary_fetch::query::{FetchCompletion, FetchResult, StartFault};
use canary_provider::message::message_of;
use canary_provider::plan::Provider;
use std::alloc::Global;
use std::net::SocketAddr;
use std::time::Duration;

// The most messages that have a connection at a time.
const MOST: usize = 64;

// How long an address of a host is used that was looked up, and how long none, in milliseconds.
const KNOWN: u64 = 60_000;

const UNKNOWN: u64 = 10_000;

const NO_ADDRESS: &str = "no answer: the address of the provider is invalid";

const NO_HOST: &str = "no answer: the name of the provider's host is not known";

const TAKEN: &str = "no answer: another message to a provider has this token";

// A host that was looked up, with a port.
#[derive(Drop)]
struct ResolvedHost {
    host: String,
    port: u16,
    found: Result<SocketAddr, NameFault>,
    until: u64,
}

// Where a provider is.
#[derive(Clone, Copy)]
enum ProviderPlace {
    // At this address.
    At(SocketAddr),
    // Nowhere, for this reason.
    Nowhere(&'static str),
    // That cannot be found out now, by a fault of this machine.
    Hindered(LocalFault),
}

/// Messages to providers that are under way.
#[derive(Drop)]
pub(crate) struct ProviderClient {
    fetcher: Fetcher,
    places: Vec<ResolvedHost>,
    next: usize,
    // The last fault of this machine that was not said yet.
    hindrance: Option<LocalFault>,
}

/// What came of asking a provider, at once.
#[derive(Drop)]
pub(crate) enum AskResult {
    /// This message is under way.
    Message(Message),
    /// Nothing is asked.
    Failed(Came),
}

impl ProviderClient {
    /// None.
    ///
    /// # Errors
    /// `Poll` if the system reports nothing of connections; `Memory`.
    pub(crate) fn new(rt: &HostRuntime) -> Result<ProviderClient, FetchFault> {
        Ok(ProviderClient {
            fetcher: Fetcher::new(rt, MOST)?,
            places: Vec::new(rt.alloc()),
            next: 0,
            hindrance: None,
        })
    }

    /// Asks a provider, for so many milliseconds at most. None if this machine cannot look its name
    /// up now.
    ///
    /// # Errors
    /// `Memory`.
    pub(crate) fn ask(
        &mut self,
        rt: &HostRuntime,
        provider: Provider,
        limit: u64,
        now: u64,
    ) -> Result<Option<AskResult>, Stop> {
        match self.place_of(rt, provider.address.as_str(), now)? {
            ProviderPlace::At(address) => self.send(rt, provider, address, limit),
            ProviderPlace::Nowhere(text) => failed_at_once(rt, text),
            ProviderPlace::Hindered(fault) => {
                self.hindrance = Some(fault);
                Ok(None)
            }
        }
    }

    // Where a provider of that address is.
    fn place_of(
        &mut self,
        rt: &HostRuntime,
        address: &str,
        now: u64,
    ) -> Result<ProviderPlace, Memory> {
        match Address::read(address) {
            Ok(address) => Ok(place_at(self.found(rt, &address, now)?)),
            Err(_) => Ok(ProviderPlace::Nowhere(NO_ADDRESS)),
        }
    }

    // Asks a provider at this place on the network.
    fn send(
        &mut self,
        rt: &HostRuntime,
        provider: Provider,
        address: SocketAddr,
        limit: u64,
    ) -> Result<Option<AskResult>, Stop> {
        let message = message_of(rt.alloc(), &provider)?;
        let (token, limit) = (self.next, Duration::from_millis(limit));
        self.next = token.wrapping_add(1);
        match self.fetcher.start(rt, token, address, message, limit) {
            Ok(()) => Ok(Some(AskResult::Message(Message::new(token, provider)))),
            Err(StartFault::Memory) => Err(Stop::Memory),
            Err(StartFault::Taken) => failed_at_once(rt, TAKEN),
        }
    }

    /// Waits until something comes of a message, so many milliseconds at most.
    ///
    /// # Errors
    /// `Poll` if the system reports nothing of connections.
    pub(crate) fn wait(&mut self, rt: &HostRuntime, most: u64) -> Result<(), FetchFault> {
        self.fetcher.wait(rt, Duration::from_millis(most))
    }

    /// An answer that was not given yet.
    pub(crate) fn answer(&mut self) -> Option<FetchCompletion> {
        let answer = self.fetcher.answer();
        if let Some(completion) = &answer
            && let Some(fault) = local_fault(&completion.outcome)
        {
            self.hindrance = Some(fault);
        }
        answer
    }

    /// Why this machine could not ask a provider since the last call, or cannot now.
    pub(crate) fn take_hindrance(&mut self) -> Option<LocalFault> {
        match self.hindrance.take() {
            Some(fault) => Some(fault),
            None => self.fetcher.hindrance(),
        }
    }

    // What is found of that address. A name is looked up once a minute. If this machine cannot look
    // it up now, the place that it had counts.
    fn found(
        &mut self,
        rt: &HostRuntime,
        address: &Address<'_>,
        now: u64,
    ) -> Result<Result<SocketAddr, NameFault>, Memory> {
        let before = self.known(address);
        if let Some((found, until)) = before
            && now < until
        {
            return Ok(found);
        }
        let found = or_before(address.resolve(rt), before);
        self.places.retain(|place| !place.is_of(address));
        self.places
            .push(resolved(rt.alloc(), address, found, now)?)?;
        Ok(found)
    }

    // What was found of an address last, and until when that counts.
    fn known(&self, address: &Address<'_>) -> Option<(Result<SocketAddr, NameFault>, u64)> {
        for place in &self.places {
            if place.is_of(address) {
                return Some((place.found, place.until));
            }
        }
        None
    }
}

// Where a provider is, by what was found of its host.
fn place_at(found: Result<SocketAddr, NameFault>) -> ProviderPlace {
    match found {
        Ok(address) => ProviderPlace::At(address),
        Err(NameFault::Unknown) => ProviderPlace::Nowhere(NO_HOST),
        Err(NameFault::Local(fault)) => ProviderPlace::Hindered(fault),
    }
}

// That nothing is asked, for this reason.
fn failed_at_once(rt: &HostRuntime, text: &str) -> Result<Option<AskResult>, Stop> {
    Ok(Some(AskResult::Failed(failed(rt.alloc(), text)?)))
}

// The fault of this machine that an outcome is.
fn local_fault(outcome: &FetchResult) -> Option<LocalFault> {
    match outcome {
        Err(ExchangeFault::Local(fault)) => Some(*fault),
        Err(ExchangeFault::Memory) => Some(LocalFault::Memory),
        _ => None,
    }
}

// What was found now; or, if this machine could not look, what was found before.
fn or_before(
    now: Result<SocketAddr, NameFault>,
    before: Option<(Result<SocketAddr, NameFault>, u64)>,
) -> Result<SocketAddr, NameFault> {
    match (now, before) {
        (Err(NameFault::Local(_)), Some((Ok(found), _))) => Ok(found),
        _ => now,
    }
}

impl ResolvedHost {
    // Whether this is the place of the address, by host and port; its path does not count.
    fn is_of(&self, address: &Address<'_>) -> bool {
        self.host.as_str() == address.host && self.port == address.port
    }
}

// What was found of an address, for as long as that counts.
fn resolved(
    alloc: Global,
    address: &Address<'_>,
    found: Result<SocketAddr, NameFault>,
    now: u64,
) -> Result<ResolvedHost, Memory> {
    Ok(ResolvedHost {
        host: String::from_str(alloc, address.host)?,
        port: address.port,
        found,
        until: now.saturating_add(time_of(found)),
    })
}

// How long what was found counts, in milliseconds.
fn time_of(found: Result<SocketAddr, NameFault>) -> u64 {
    match found {
        Ok(_) => KNOWN,
        Err(_) => UNKNOWN,
    }
}
