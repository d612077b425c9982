//! The lines of a message's head.
ghost use Rattle.std.specs.Prelude.{◌≡◌, ◌++◌, IsTrue, IfOk, IfSome, IfNone, false};
ghost use Rattle.std.specs.Option.{SomeIff};
ghost use Rattle.std.specs.List.{list_all};
ghost use Rattle.canary_provider.specs.Lines.{is_line, is_line_byte};

use canary_base::error::Memory;
use std::alloc::Global;
use std::marker::Model;

/// A line of a message's head, without its end. It has at least one byte, and no control but a tab.
#[derive(Drop)]
pub struct HeaderLine {
    bytes: Vec<u8>,
}

impl Model for HeaderLine {
    ghost use Rattle.std.specs.Prelude.{List, ℕ, IsTrue};
    ghost use Rattle.canary_provider.specs.Lines.{is_line};

    ghost Value = { List ℕ };

    ghost view = { λ l. l.bytes.items };

    ghost invariant = { λ l. IsTrue (is_line l.bytes.items) };
}

impl HeaderLine {
    /// The line of these bytes; none if they are no line.
    pub fn of(bytes: Vec<u8>) -> Option<HeaderLine>
        ensures line { SomeIff result (IsTrue (is_line bytes.items)) bytes.items }
        ensures none { IfNone result (is_line bytes.items ≡ false) }
    {
        if is_line(bytes.as_slice()) {
            Some(HeaderLine { bytes })
        } else {
            None
        }
    }

    /// The line of these parts, one after another; none if they make none; or `Memory`.
    pub fn of_parts(
        alloc: Global,
        first: &[u8],
        second: &[u8],
        third: &[u8],
    ) -> Result<Option<HeaderLine>, Memory>
        ensures line { IfOk result (λ made. IfSome made
            (λ line. line ≡ first.now ++ second.now ++ third.now)) }
        ensures none { IfOk result (λ made. IfNone made
            (is_line (first.now ++ second.now ++ third.now) ≡ false)) }
    {
        let mut bytes = Vec::from_slice(alloc, first)?;
        bytes.extend_from_slice(second)?;
        bytes.extend_from_slice(third)?;
        Ok(HeaderLine::of(bytes))
    }

    /// Its bytes.
    pub fn as_bytes(&self) -> &[u8]
        ensures value { result.now ≡ self.now }
        ensures line { IsTrue (is_line result.now) }
    {
        self.bytes.as_slice()
    }
}

// Whether these bytes are a line: there is one at least, and no control but a tab.
fn is_line(bytes: &[u8]) -> bool
    ensures { result ≡ is_line bytes.now }
{
    !bytes.is_empty() && are_line_bytes(bytes)
}

// Whether each byte may be in a line; so it is if there are no bytes.
fn are_line_bytes(bytes: &[u8]) -> bool
    ensures { result ≡ list_all is_line_byte bytes.now }
{
    bytes.iter().all(|byte| is_line_byte(*byte))
}

// Whether the byte may be in a line: a tab, or no control.
fn is_line_byte(byte: u8) -> bool
    ensures { result ≡ is_line_byte byte }
{
    (32 <= byte && byte != 127) || byte == 9
}
