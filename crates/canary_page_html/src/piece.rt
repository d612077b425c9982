//! The pieces of a page, and where each of them may stand.
ghost use Rattle.std.specs.Prelude.{◌≡◌};
ghost use Rattle.canary_page_html.specs.Pages.{between, in_tag, in_text, in_value, place_after};

use crate::element::{Attribute, Element};

/// A piece of a page.
#[derive(Clone, Copy)]
pub enum Piece<'a> {
    /// What stands before the title.
    Head,
    /// The page is to be loaded anew every so many seconds.
    Refresh(u64),
    /// The style sheet, and the end of the head.
    Style,
    /// The end of the page.
    Foot,
    /// `<NAME`: the start tag of an element begins.
    Start(Element),
    /// ` NAME="`: the value of an attribute begins.
    Value(Attribute),
    /// `"`: it ends.
    ValueEnd,
    /// ` href="#ID"`: where a link goes, which is a place of the page itself.
    Link(&'a str),
    /// `>`: the start tag ends.
    StartEnd,
    /// `</NAME>`: the end tag of an element.
    End(Element),
    /// A text, escaped.
    Text(&'a str),
    /// A number, in decimal.
    Number(u64),
}

/// Where a piece stands.
#[derive(Clone, Copy, Debug, PartialEq, Eq)]
pub enum HtmlContext {
    /// Between tags.
    Between,
    /// In a start tag, where attributes stand.
    Tag,
    /// In the value of an attribute.
    Value,
}

/// Where the next piece stands; none if this one may not stand at this place. So a text stands
/// between tags or in a value, and a start tag has nothing but its name and attributes.
pub fn place_after(place: HtmlContext, piece: Piece<'_>) -> Option<HtmlContext>
    ensures { result ≡ place_after place piece.entry }
{
    match piece {
        Piece::Start(_) => between(place, HtmlContext::Tag),
        Piece::Value(_) => in_tag(place, HtmlContext::Value),
        Piece::ValueEnd => in_value(place, HtmlContext::Tag),
        Piece::Link(_) => in_tag(place, HtmlContext::Tag),
        Piece::StartEnd => in_tag(place, HtmlContext::Between),
        Piece::Text(_) | Piece::Number(_) => in_text(place),
        Piece::Head | Piece::Refresh(_) | Piece::Style | Piece::Foot | Piece::End(_) => {
            between(place, HtmlContext::Between)
        }
    }
}

// The place after a piece that stands between tags.
fn between(place: HtmlContext, next: HtmlContext) -> Option<HtmlContext>
    ensures { result ≡ between place next }
{
    match place {
        HtmlContext::Between => Some(next),
        HtmlContext::Tag => None,
        HtmlContext::Value => None,
    }
}

// The place after a piece that stands in a start tag.
fn in_tag(place: HtmlContext, next: HtmlContext) -> Option<HtmlContext>
    ensures { result ≡ in_tag place next }
{
    match place {
        HtmlContext::Between => None,
        HtmlContext::Tag => Some(next),
        HtmlContext::Value => None,
    }
}

// The place after a piece that stands in a value.
fn in_value(place: HtmlContext, next: HtmlContext) -> Option<HtmlContext>
    ensures { result ≡ in_value place next }
{
    match place {
        HtmlContext::Between => None,
        HtmlContext::Tag => None,
        HtmlContext::Value => Some(next),
    }
}

// The place after a text, which is that of the text.
fn in_text(place: HtmlContext) -> Option<HtmlContext>
    ensures { result ≡ in_text place }
{
    match place {
        HtmlContext::Between => Some(HtmlContext::Between),
        HtmlContext::Tag => None,
        HtmlContext::Value => Some(HtmlContext::Value),
    }
}
