//! How long the body of a message is (RFC 9112, section 6), and whether the stream ends after the
//! reply to it (RFC 9112, section 9.3).
ghost use Rattle.std.specs.Prelude.{◌≡◌, ◌==◌, ◌||◌, ℕ, ◌≤◌, Some, None, if◌then◌else◌};
ghost use Rattle.std.specs.Prelude.{List, [], ◌∷◌, ◌++◌, length, map, All, min, bytes_eq, codes};
ghost use Rattle.std.specs.Char.{to_ascii_lowercase};
ghost use Rattle.std.specs.Str.Parse.{digits_value};
ghost use Rattle.httparse.specs.Spans.{IsWithin, IsHeaderWithin, header_bytes, span_bytes};
ghost use Rattle.canary_wire.specs.Heads.{is_digits, values_named, has_any, asks_to_close};
ghost use Rattle.canary_wire.specs.Heads.{framing_one, framing, framing_of, IsSmall};
ghost use Rattle.canary_wire.specs.FramingFields.{Shows, IsShown};

use crate::rejection::Rejection;
use http1::fields::KnownFields;
use httparse::spans::{HeaderSpan, Span};

// The most bytes of a body.
pub(crate) const MAX_BODY: usize = 65_536;

// How long a body is, or why its head is rejected.
#[derive(Clone, Copy)]
pub(crate) enum Framing {
    Body(usize),
    Rejected(Rejection),
}

// The values of the fields of one name: none, one, or more.
#[derive(Clone, Copy)]
pub(crate) enum FramingFields {
    Zero,
    One(Span),
    Many,
}

// How long the body is, or why the head is rejected.
pub(crate) fn frame(buf: &[u8], method: &[u8], headers: &[HeaderSpan]) -> Framing
    requires { All (IsHeaderWithin (length buf.now)) headers.now }
    ensures is { result ≡ framing_of method.now (map (header_bytes buf.now) headers.now) }
    ensures small { IsSmall result }
{
    let coded = scan(buf, headers, b"transfer-encoding").is_any();
    let needs = method == b"PUT".as_slice();
    scan(buf, headers, b"content-length").frame(buf, needs, coded)
}

// Whether the stream ends after the reply: the head is of HTTP/1.0, or a `Connection` field lists
// `close`.
pub(crate) fn closes(buf: &[u8], version: u8, headers: &[HeaderSpan]) -> bool
    requires { All (IsHeaderWithin (length buf.now)) headers.now }
    ensures { result ≡ (version == 0 || asks_to_close (map (header_bytes buf.now) headers.now)) }
{
    version == 0 || asks_to_close(buf, headers)
}

// Whether the reply to a message of this method is its head alone.
pub(crate) fn is_bare(method: &[u8]) -> bool
    ensures { result ≡ bytes_eq method.now (codes "HEAD") }
{
    method == b"HEAD".as_slice()
}

// Whether a `Connection` field lists `close`.
#[tactic(auto, unfolding(http1::specs::Fields::known_fields, crate::specs::Heads::asks_to_close))]
fn asks_to_close(buf: &[u8], headers: &[HeaderSpan]) -> bool
    requires { All (IsHeaderWithin (length buf.now)) headers.now }
    ensures { result ≡ asks_to_close (map (header_bytes buf.now) headers.now) }
{
    KnownFields::from_spans(buf, headers).close
}

// The values of the fields with this name, which is in lower case.
fn scan(buf: &[u8], headers: &[HeaderSpan], name: &[u8]) -> FramingFields
    requires fits { All (IsHeaderWithin (length buf.now)) headers.now }
    requires lower { map to_ascii_lowercase name.now ≡ name.now }
    ensures { Shows buf.now result
        (values_named name.now (map (header_bytes buf.now) headers.now)) }
{
    let mut found = FramingFields::Zero;
    for h in headers {
        let hit = is_named(h.name.of(buf), name);
        found = found.add(hit, h.value);
    }
    found
}

// Whether a field's name is this one, which is in lower case.
fn is_named(field: &[u8], name: &[u8]) -> bool
    requires { map to_ascii_lowercase name.now ≡ name.now }
    ensures { result ≡ bytes_eq (map to_ascii_lowercase field.now) name.now }
{
    field.eq_ignore_ascii_case(name)
}

impl FramingFields {
    // Takes one more value, if it is a hit.
    fn add(self, hit: bool, value: Span) -> FramingFields
        ensures { (buf : List ℕ) (values : List (List ℕ))
            → Shows buf self values → IsWithin (length buf) value
            → Shows buf result (values ++ (if hit then span_bytes buf value ∷ [] else [])) }
    {
        if !hit {
            return self;
        }
        match self {
            FramingFields::Zero => FramingFields::One(value),
            _ => FramingFields::Many,
        }
    }

    // Whether there is a value at all.
    fn is_any(self) -> bool
        ensures { (buf : List ℕ) (values : List (List ℕ))
            → Shows buf self values → result ≡ has_any values }
    {
        !matches!(self, FramingFields::Zero)
    }

    // How long the body is, if these are the values of `Content-Length`.
    fn frame(self, buf: &[u8], needs: bool, coded: bool) -> Framing
        requires { IsShown buf.now self }
        ensures is { (values : List (List ℕ))
            → Shows buf.now self values → result ≡ framing needs values coded }
        ensures small { IsSmall result }
    {
        match self {
            FramingFields::Zero if coded || needs => Framing::Rejected(Rejection::Length),
            FramingFields::Zero => Framing::Body(0),
            FramingFields::One(span) => frame_one(span.of(buf), coded),
            FramingFields::Many => Framing::Rejected(Rejection::Malformed),
        }
    }
}

// How long the body is by one value of `Content-Length`.
fn frame_one(value: &[u8], coded: bool) -> Framing
    ensures is { result ≡ framing_one value.now coded }
    ensures small { IsSmall result }
{
    let Some(n) = parse_length(value) else {
        return Framing::Rejected(Rejection::Malformed);
    };
    if coded {
        Framing::Rejected(Rejection::Length)
    } else if n > MAX_BODY {
        Framing::Rejected(Rejection::TooLong)
    } else {
        Framing::Body(n)
    }
}

// The number of the digits, cut off above the limit of a body.
fn parse_length(digits: &[u8]) -> Option<usize>
    ensures { result
        ≡ (if is_digits digits.now then Some (min (digits_value 10 digits.now) 65537) else None) }
{
    if digits.is_empty() {
        return None;
    }
    let mut n: usize = 0;
    for b in digits {
        if !b.is_ascii_digit() {
            return None;
        }
        n = (n * 10 + usize::from(*b - b'0')).min(MAX_BODY + 1);
    }
    Some(n)
}
