//! The bytes of a page, piece after piece.
ghost use Rattle.std.specs.Prelude.{◌≡◌, [], ◌∷◌, ◌++◌, codes, true, false, IfOk, OnOk};
ghost use Rattle.canary_page_html.specs.Escaping.{escaped, escaped_byte, is_control};
ghost use Rattle.canary_page_html.specs.Pages.{bytes_of, IsOfPieces};

use crate::element::{Attribute, Element};
use crate::piece::{HtmlContext, Piece, place_after};
use crate::style::STYLE;
use canary_base::error::Memory;
use canary_base::moments::Moment;
use canary_shown::text::{TextKind, shown};
use itoa::Buffer;
use std::alloc::Global;
use std::marker::Model;

/// What stands before the title. The policy has the browser itself refuse whatever a page would
/// fetch or run.
pub const HEAD: &str = concat!(
    "<!DOCTYPE html><html lang=\"en\"><head><meta charset=\"utf-8\">",
    "<meta name=\"viewport\" content=\"width=device-width, initial-scale=1\">",
    "<meta http-equiv=\"Content-Security-Policy\" ",
    "content=\"default-src 'none'; style-src 'unsafe-inline'\">"
);

/// What stands before the seconds after which the page is loaded anew.
pub const REFRESH: &str = "<meta http-equiv=\"refresh\" content=\"";

/// A part of a page: bytes that are those of pieces, each of which stands where it may. If memory
/// ran out, it has none, and takes no more.
#[derive(Drop)]
pub struct Markup {
    alloc: Global,
    bytes: Vec<u8>,
    // Where the next piece stands.
    place: HtmlContext,
    has_failed: bool,
}

impl Model for Markup {
    ghost use Rattle.std.specs.Prelude.{List, ℕ};
    ghost use Rattle.canary_page_html.specs.Pages.{LeadsTo};

    ghost Value = { List ℕ };

    ghost view = { λ m. m.bytes.items };

    ghost invariant = { λ m. LeadsTo m.place m.bytes.items };
}

impl Markup {
    /// One of no piece.
    pub fn new(alloc: Global) -> Markup
        ensures { result ≡ [] }
    {
        Markup {
            alloc,
            bytes: Vec::new(alloc),
            place: HtmlContext::Between,
            has_failed: false,
        }
    }

    /// With one piece more, unless memory ran out. A piece that may not stand there is left out.
    pub fn add(&mut self, piece: Piece<'_>) {
        if self.has_failed {
            return;
        }
        let Some(next) = place_after(self.place, piece) else {
            return;
        };
        if put_or_clear(&mut self.bytes, piece) {
            self.place = next;
        } else {
            self.place = HtmlContext::Between;
            self.has_failed = true;
        }
    }

    /// Of no piece, since memory ran out.
    pub fn fail(&mut self) {
        self.bytes.clear();
        self.place = HtmlContext::Between;
        self.has_failed = true;
    }

    /// The allocator of its bytes.
    pub fn alloc(&self) -> Global {
        self.alloc
    }

    /// Its bytes, or `Memory` if that ran out. There are none if it ends in a start tag.
    pub fn bytes(&self) -> Result<&[u8], Memory>
        ensures { IfOk result (λ bytes. IsOfPieces bytes.now) }
    {
        if self.has_failed {
            return Err(Memory);
        }
        match self.place {
            HtmlContext::Between => Ok(self.bytes.as_slice()),
            HtmlContext::Tag => Ok(&[]),
            HtmlContext::Value => Ok(&[]),
        }
    }
}

impl Markup {
    /// A text, escaped.
    pub fn text(&mut self, text: &str) {
        self.add(Piece::Text(text));
    }

    /// A number, in decimal.
    pub fn number(&mut self, number: u64) {
        self.add(Piece::Number(number));
    }

    /// The start tag of an element begins.
    pub fn start(&mut self, element: Element) {
        self.add(Piece::Start(element));
    }

    /// It ends.
    pub fn start_end(&mut self) {
        self.add(Piece::StartEnd);
    }

    /// The end tag of an element.
    pub fn end(&mut self, element: Element) {
        self.add(Piece::End(element));
    }

    /// The value of an attribute begins.
    pub fn value(&mut self, attribute: Attribute) {
        self.add(Piece::Value(attribute));
    }

    /// It ends.
    pub fn value_end(&mut self) {
        self.add(Piece::ValueEnd);
    }

    /// An attribute with this text.
    pub fn attribute(&mut self, attribute: Attribute, text: &str) {
        self.value(attribute);
        self.text(text);
        self.value_end();
    }

    /// An attribute with this number.
    pub fn measure(&mut self, attribute: Attribute, number: u64) {
        self.value(attribute);
        self.number(number);
        self.value_end();
    }

    /// The start tag of an element of this class.
    pub fn open(&mut self, element: Element, class: &str) {
        self.start(element);
        self.attribute(Attribute::Class, class);
        self.start_end();
    }

    /// An element without attributes, up to its text.
    pub fn begin(&mut self, element: Element) {
        self.start(element);
        self.start_end();
    }

    /// An element of this class with this text.
    pub fn leaf(&mut self, element: Element, class: &str, text: &str) {
        self.open(element, class);
        self.text(text);
        self.end(element);
    }

    /// A link with this text to the element of this page that has this `id`, in a class.
    pub fn link(&mut self, class: &str, id: &str, text: &str) {
        self.start(Element::Anchor);
        self.attribute(Attribute::Class, class);
        self.add(Piece::Link(id));
        self.start_end();
        self.text(text);
        self.end(Element::Anchor);
    }

    /// A moment as RFC 3339 has it, in UTC.
    pub fn moment(&mut self, moment: Moment) {
        let mut text = String::new(self.alloc);
        match moment.text(&mut text) {
            Ok(()) => self.text(text.as_str()),
            Err(_) => self.fail(),
        }
    }

    /// A text of somebody else, of which each mark is shown as `\u` and four hexadecimal digits.
    pub fn foreign(&mut self, text: &str) {
        match shown(self.alloc, text, TextKind::Line) {
            Ok(text) => self.text(text.as_str()),
            Err(_) => self.fail(),
        }
    }

    /// A whole number.
    pub fn whole(&mut self, number: i64) {
        self.text(Buffer::new().format(number));
    }
}

// Appends the bytes of a piece, or has no bytes if memory ran out: whether it did not.
fn put_or_clear(bytes: &mut Vec<u8>, piece: Piece<'_>) -> bool
    ensures put { result ≡ true → bytes.new.items ≡ bytes.old.items ++ bytes_of piece.entry }
    ensures cleared { result ≡ false → bytes.new.items ≡ [] }
{
    match put(bytes, piece) {
        Ok(()) => true,
        Err(_) => {
            bytes.clear();
            false
        }
    }
}

// Appends the bytes of a piece. If memory runs out, some of them may be there.
fn put(bytes: &mut Vec<u8>, piece: Piece<'_>) -> Result<(), Memory>
    ensures { OnOk result (bytes.new.items ≡ bytes.old.items ++ bytes_of piece.entry) }
{
    match piece {
        Piece::Head => put_own(bytes, HEAD),
        Piece::Refresh(seconds) => put_refresh(bytes, seconds),
        Piece::Style => put_own(bytes, STYLE),
        Piece::Foot => put_own(bytes, "</html>\n"),
        Piece::Start(element) => put_two(bytes, "<", element.name()),
        Piece::Value(attribute) => put_three(bytes, " ", attribute.name(), "=\""),
        Piece::ValueEnd => put_own(bytes, "\""),
        Piece::Link(id) => put_link(bytes, id),
        Piece::StartEnd => put_own(bytes, ">"),
        Piece::End(element) => put_three(bytes, "</", element.name(), ">"),
        Piece::Text(text) => put_escaped(bytes, text.as_bytes()),
        Piece::Number(number) => put_number(bytes, number),
    }
}

// Appends the tag that has the page loaded anew after so many seconds.
fn put_refresh(bytes: &mut Vec<u8>, seconds: u64) -> Result<(), Memory>
    ensures { OnOk result (bytes.new.items ≡ bytes.old.items ++ bytes_of (Piece.Refresh seconds)) }
{
    put_three(bytes, REFRESH, Buffer::new().format(seconds), "\">")
}

// Appends the attribute that leads to the element of that `id` on the page itself.
fn put_link(bytes: &mut Vec<u8>, id: &str) -> Result<(), Memory>
    ensures { OnOk result
        (bytes.new.items ≡ bytes.old.items ++ codes " href=\"#" ++ escaped id.now ++ codes "\"") }
{
    put_own(bytes, " href=\"#")?;
    put_escaped(bytes, id.as_bytes())?;
    put_own(bytes, "\"")
}

// Appends a text of the page's own.
fn put_own(bytes: &mut Vec<u8>, text: &str) -> Result<(), Memory>
    ensures { OnOk result (bytes.new.items ≡ bytes.old.items ++ text.now) }
{
    bytes.extend_from_slice(text.as_bytes())?;
    Ok(())
}

// Appends two texts of the page's own, one after the other.
fn put_two(bytes: &mut Vec<u8>, first: &str, second: &str) -> Result<(), Memory>
    ensures { OnOk result (bytes.new.items ≡ bytes.old.items ++ first.now ++ second.now) }
{
    put_own(bytes, first)?;
    put_own(bytes, second)
}

// Appends three texts of the page's own, one after another.
fn put_three(bytes: &mut Vec<u8>, first: &str, second: &str, third: &str) -> Result<(), Memory>
    ensures { OnOk result
        (bytes.new.items ≡ bytes.old.items ++ first.now ++ second.now ++ third.now) }
{
    put_two(bytes, first, second)?;
    put_own(bytes, third)
}

// Appends a number in decimal.
fn put_number(bytes: &mut Vec<u8>, number: u64) -> Result<(), Memory>
    ensures { OnOk result (bytes.new.items ≡ bytes.old.items ++ bytes_of (Piece.Number number)) }
{
    put_own(bytes, Buffer::new().format(number))
}

// Appends a text, escaped.
fn put_escaped(bytes: &mut Vec<u8>, text: &[u8]) -> Result<(), Memory>
    ensures { OnOk result (bytes.new.items ≡ bytes.old.items ++ escaped text.now) }
{
    for byte in text {
        put_escaped_byte(bytes, *byte)?;
    }
    Ok(())
}

// Appends how a page has a byte of a text: a reference, U+FFFD for a control, or the byte itself.
fn put_escaped_byte(bytes: &mut Vec<u8>, byte: u8) -> Result<(), Memory>
    ensures { OnOk result (bytes.new.items ≡ bytes.old.items ++ escaped_byte byte) }
{
    if byte == b'&' {
        return put_own(bytes, "&amp;");
    }
    if byte == b'<' {
        return put_own(bytes, "&lt;");
    }
    if byte == b'>' {
        return put_own(bytes, "&gt;");
    }
    if byte == b'"' {
        return put_own(bytes, "&quot;");
    }
    if byte == b'\'' {
        return put_own(bytes, "&#39;");
    }
    if is_control(byte) {
        return put_own(bytes, "\u{fffd}");
    }
    put_byte(bytes, byte)
}

// Whether the byte is a control, which no text of HTML may have: below the space, or DEL.
fn is_control(byte: u8) -> bool
    ensures { result ≡ is_control byte }
{
    byte <= 31 || byte == 127
}

// Appends a byte as it is.
fn put_byte(bytes: &mut Vec<u8>, byte: u8) -> Result<(), Memory>
    ensures { OnOk result (bytes.new.items ≡ bytes.old.items ++ byte ∷ []) }
{
    bytes.push(byte)?;
    Ok(())
}
