//! The services of a desk as a list in JSON (RFC 8259), by which their own values are found.
ghost use Rattle.canary_once.specs.BookCalls.{Stays};

use crate::fault::PageFault;
use crate::groups::{PlacedService, placed_of};
use crate::records::sheet::{Sheet, put};
use canary_base::moments::Moment;
use canary_base::names::Name;
use canary_once::book::Book;
use std::alloc::Global;
use std::io::Write;

/// Writes those of these services that there are, passed to a moment, as one value in JSON: that
/// moment, and for each service, in the order of the names, its name, its status, and whether it
/// waits for somebody. The book is unchanged.
///
/// # Errors
/// As `draw_json` of `record`.
pub fn draw_services<W: Write, B: Book>(
    alloc: Global,
    book: &mut B,
    names: &[Name],
    moment: Moment,
    out: &mut W,
) -> Result<(), PageFault>
    ensures stays { Stays (B.state book.old) (B.state book.new) }
{
    let placed = placed_of(alloc, book, names, moment)?;
    put(list_of(alloc, placed.as_slice(), moment), out)
}

// The value in JSON: that moment, and a list with an object for each of these services.
fn list_of(alloc: Global, placed: &[PlacedService], moment: Moment) -> Sheet {
    let mut sheet = Sheet::new(alloc, false);
    sheet.begin();
    sheet.moment_at("moment", Some(moment));
    sheet.key("services");
    sheet.begin_list();
    for one in placed {
        add_service(&mut sheet, one);
    }
    sheet.end_list();
    sheet.end();
    sheet
}

// Adds the object of a service: its name, its status, and whether it waits for somebody.
fn add_service(sheet: &mut Sheet, placed: &PlacedService) {
    sheet.begin();
    sheet.text_at("service", placed.name.as_str());
    sheet.text_at("status", placed.status.text());
    sheet.flag_at("waits", placed.standing.waits());
    sheet.end();
}
