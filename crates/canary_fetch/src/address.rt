//! Where a provider is.
ghost use Rattle.std.specs.Prelude.{◌≡◌, ◌∷◌, IfOk, IfSome};
ghost use Rattle.std.specs.Char.{is_ascii_digit};
ghost use Rattle.std.specs.List.{list_all};
ghost use Rattle.canary_fetch.specs.Addresses.{IsAddress, IsCut, IsSite, IsPort};
ghost use Rattle.canary_fetch.specs.Addresses.{is_name, is_number, is_name_byte, is_number_byte};

use crate::names::{NameFault, fault_of};
use std::io;
use std::net::{IpAddr, Ipv6Addr, Net, SocketAddr, ToSocketAddrs};

// The port of an address that has none.
const PORT: u16 = 80;

// The most bytes of a host's name, and of a part of it.
const MAX_NAME: usize = 253;

const MAX_PART: usize = 63;

/// Why a text is no address that can be asked.
#[derive(Clone, Copy, Debug, PartialEq, Eq)]
pub enum AddressFault {
    /// It begins with `https://`.
    Https,
    /// It begins otherwise.
    Scheme,
    /// What follows is no host, or more than a host and a port.
    Host,
    /// The port is no number from 1 to 65,535.
    Port,
    /// The host has digits and dots alone and is no number of IPv4, or brackets and no number of
    /// IPv6.
    Number,
    /// The host's name has more than 253 bytes, or a part of it more than 63, or none.
    Name,
    /// No one host has it: the host is a number for multicast or broadcast, or a link-local one of
    /// IPv6, which says nothing of the link.
    Shared,
}

impl AddressFault {
    /// What is wrong.
    pub fn text(self) -> &'static str {
        match self {
            AddressFault::Https => {
                "https is not spoken here: have a proxy on this machine speak it, and name that"
            }
            AddressFault::Scheme => "an address begins with http://",
            AddressFault::Host => {
                "the address has no host, or more than a host, a port and a path"
            }
            AddressFault::Port => "the port of the address is no number from 1 to 65535",
            AddressFault::Number => {
                "the host of the address is no number of IPv4, as 127.0.0.1, and none of IPv6, as \
                 [::1]"
            }
            AddressFault::Name => {
                "the host of the address is no name: its parts have 1 to 63 bytes, and all 253 at \
                 most"
            }
            AddressFault::Shared => {
                "no one host has this address: it is for multicast or broadcast, or link-local"
            }
        }
    }
}

/// The address of a provider: `http://HOST`, `http://HOST:PORT` or either with `/PATH`.
#[derive(Clone, Copy, Debug)]
pub struct Address<'a> {
    /// The host: a name, or its number; one of IPv6 without the brackets.
    pub host: &'a str,
    /// The port: 80 if none is named.
    pub port: u16,
    /// What stands after the first `/`.
    pub path: &'a str,
}

// A host and a port.
#[derive(Clone, Copy)]
pub(crate) struct HostPort<'a> {
    pub(crate) host: &'a str,
    pub(crate) port: u16,
}

impl<'a> Address<'a> {
    /// The address that a text spells.
    ///
    /// # Errors
    /// What is wrong with it, from the left.
    pub fn read(text: &'a str) -> Result<Address<'a>, AddressFault>
        ensures { IfOk result (λ a. IsAddress text.now a.host.now a.port a.path.now) }
    {
        let Some(rest) = text.strip_prefix("http://") else {
            return Err(scheme_fault(text));
        };
        let (site, path) = cut(rest);
        match host_port_of(site) {
            Ok(site) => match host_fault(site.host) {
                Some(fault) => Err(fault),
                None => Ok(Address {
                    host: site.host,
                    port: site.port,
                    path,
                }),
            },
            Err(fault) => Err(fault),
        }
    }

    /// Where it is on the network: the host's first number of IPv4, or its first one of all. A name
    /// is looked up, and nothing else is done meanwhile.
    ///
    /// # Errors
    /// `Unknown` if there is no such name; `Local` if this machine cannot look it up now.
    pub fn resolve<R: Net + AllocGlobal>(&self, rt: &R) -> Result<SocketAddr, NameFault> {
        match self.looked_up(rt) {
            Ok(Some(address)) => Ok(address),
            Ok(None) => Err(NameFault::Unknown),
            Err(error) => Err(fault_of(rt, &error)),
        }
    }

    // The same; none if the name has no address, or what the system answers.
    fn looked_up<R: Net>(&self, rt: &R) -> io::Result<Option<SocketAddr>> {
        let mut found = None;
        for address in (self.host, self.port).to_socket_addrs(rt)? {
            if address.is_ipv4() {
                return Ok(Some(address));
            }
            if found.is_none() {
                found = Some(address);
            }
        }
        Ok(found)
    }
}

// What is wrong with a text that does not begin as an address does.
fn scheme_fault(text: &str) -> AddressFault {
    if text.starts_with("https://") {
        AddressFault::Https
    } else {
        AddressFault::Scheme
    }
}

// What stands before the first `/`, and what after it.
fn cut(text: &str) -> (&str, &str)
    ensures { IsCut text.now result.0.now result.1.now }
{
    match text.split_once('/') {
        Some((site, path)) => (site, path),
        None => (text, ""),
    }
}

// Why no connection can ever go to a host of that spelling.
fn host_fault(host: &str) -> Option<AddressFault> {
    match host.parse::<IpAddr>() {
        Ok(number) if is_shared(number) => Some(AddressFault::Shared),
        Ok(_) => None,
        Err(_) if is_like_number(host) => Some(AddressFault::Number),
        Err(_) if is_like_name(host) => None,
        Err(_) => Some(AddressFault::Name),
    }
}

// Whether a number is not that of one host.
fn is_shared(number: IpAddr) -> bool {
    match number {
        IpAddr::V4(number) => number.is_multicast() || number.is_broadcast(),
        IpAddr::V6(number) => number.is_multicast() || is_link_local(number),
    }
}

// Whether it is a number of IPv6 that is known on one link alone: fe80::/10.
fn is_link_local(number: Ipv6Addr) -> bool {
    let octets = number.octets();
    octets[0] == 0xfe && octets[1] / 64 == 2
}

// Whether it is meant as a number: one of IPv6, or digits and dots.
fn is_like_number(host: &str) -> bool {
    host.contains(':') || (host.contains('.') && are_digits_and_dots(host.as_bytes()))
}

// Whether these are digits and dots alone.
fn are_digits_and_dots(bytes: &[u8]) -> bool {
    bytes
        .iter()
        .all(|byte| byte.is_ascii_digit() || *byte == b'.')
}

// Whether a resolver may know a host of that name (RFC 1035, section 2.3.4).
fn is_like_name(host: &str) -> bool {
    let name = host.strip_suffix('.').unwrap_or(host);
    name.len() <= MAX_NAME && are_parts(name)
}

// Whether each part of a name has as many bytes as it may.
fn are_parts(name: &str) -> bool {
    for part in name.split('.') {
        if part.is_empty() || part.len() > MAX_PART {
            return false;
        }
    }
    true
}

// The host and the port that a text spells.
fn host_port_of(text: &str) -> Result<HostPort<'_>, AddressFault>
    ensures { IfOk result (λ s. IsSite text.now s.host.now s.port) }
{
    match text.strip_prefix('[') {
        Some(rest) => numbered(rest),
        None => named(text),
    }
}

// The same of a number of IPv6, after its `[`.
fn numbered(text: &str) -> Result<HostPort<'_>, AddressFault>
    ensures { IfOk result (λ s. IsSite (91 ∷ text.now) s.host.now s.port) }
{
    let Some((host, rest)) = text.split_once(']') else {
        return Err(AddressFault::Host);
    };
    if !is_number(host) {
        return Err(AddressFault::Host);
    }
    if rest.is_empty() {
        return Ok(HostPort { host, port: PORT });
    }
    match rest.strip_prefix(':') {
        Some(digits) => with_port(host, digits),
        None => Err(AddressFault::Host),
    }
}

// The same of a name, or a number of IPv4.
fn named(text: &str) -> Result<HostPort<'_>, AddressFault>
    ensures { IfOk result (λ s. IsSite text.now s.host.now s.port) }
{
    match text.split_once(':') {
        Some((host, digits)) if is_name(host) => with_port(host, digits),
        None if is_name(text) => Ok(HostPort {
            host: text,
            port: PORT,
        }),
        _ => Err(AddressFault::Host),
    }
}

// A host with the port of these digits.
fn with_port<'a>(host: &'a str, digits: &str) -> Result<HostPort<'a>, AddressFault>
    ensures host { IfOk result (λ s. s.host.now ≡ host.now) }
    ensures port { IfOk result (λ s. IsPort digits.now s.port) }
{
    match port_of(digits) {
        Some(port) => Ok(HostPort { host, port }),
        None => Err(AddressFault::Port),
    }
}

// The port of these digits: none if it is 0, or if they are no such number.
fn port_of(digits: &str) -> Option<u16>
    ensures { IfSome result (IsPort digits.now) }
{
    if !are_digits(digits.as_bytes()) {
        return None;
    }
    match digits.parse::<u16>() {
        Ok(port) if port > 0 => Some(port),
        _ => None,
    }
}

// Whether these are digits alone.
fn are_digits(bytes: &[u8]) -> bool
    ensures { result ≡ list_all is_ascii_digit bytes.now }
{
    bytes.iter().all(|byte| byte.is_ascii_digit())
}

// Whether a text may be a host's name, or its number of IPv4.
fn is_name(text: &str) -> bool
    ensures { result ≡ is_name text.now }
{
    !text.is_empty() && are_name_bytes(text.as_bytes())
}

// Whether each byte may be in a host's name or its number of IPv4; true of no bytes.
fn are_name_bytes(bytes: &[u8]) -> bool
    ensures { result ≡ list_all is_name_byte bytes.now }
{
    bytes.iter().all(|byte| is_name_byte(*byte))
}

// Whether a text may be a number of IPv6.
fn is_number(text: &str) -> bool
    ensures { result ≡ is_number text.now }
{
    !text.is_empty() && are_number_bytes(text.as_bytes())
}

// Whether each byte may be in a number of IPv6; true of no bytes.
fn are_number_bytes(bytes: &[u8]) -> bool
    ensures { result ≡ list_all is_number_byte bytes.now }
{
    bytes.iter().all(|byte| is_number_byte(*byte))
}

// Whether a byte is a letter or a digit of ASCII, '-', '.' or '_'.
fn is_name_byte(byte: u8) -> bool
    ensures { result ≡ is_name_byte byte }
{
    byte.is_ascii_alphanumeric() || byte == b'-' || byte == b'.' || byte == b'_'
}

// Whether a byte is a digit of base 16, ':' or '.'.
fn is_number_byte(byte: u8) -> bool
    ensures { result ≡ is_number_byte byte }
{
    byte.is_ascii_hexdigit() || byte == b':' || byte == b'.'
}
