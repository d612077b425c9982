//! The bytes of a page of HTML, made of pieces, with each text escaped.
//!
//! Callers may rest on this: a part of a page is made of the tags and the attributes of two closed
//! lists, of numbers, of a head and a style sheet of its own, and of escaped texts, which stand
//! between tags or in values. So whatever texts it is given, `<`, `>`, `&` and quotes come from its
//! own writing alone; none of its elements runs a script, and none fetches anything. If memory runs
//! out, it holds no bytes, and says so at its end.
//!
//! In use (canary_page, src/parts/card.rt):
//!
//!     page.begin(Element::Heading2);
//!     page.text(service.name().as_str());
//!     page.end(Element::Heading2);
#![tactic(auto)]

pub mod element;
pub mod laws;
pub mod markup;
pub mod piece;
pub mod style;
