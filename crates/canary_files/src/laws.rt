//! Laws over the definitions alone.
ghost use Rattle.canary_once.specs.Messages.{desk_state};
ghost use Rattle.canary_files.specs.ReadingBack.{AreReadBack, AreExportsReadBack};
ghost use Rattle.canary_files.specs.ReadingBack.{AreFilesReadBack};
ghost use Rattle.canary_files.specs.Again.{TellsAfterwards, TellsSettled, ImportsAgain};

use canary_once::book::Book;
use canary_once::clock::Clock;
use canary_once::laws::{one_request, running_on};
use canary_plan::laws::same_commands;

/// The row that stands for a measurement is read as the request that reports it.
pub fn rows_read_back()
    ensures { AreReadBack }
{}

/// The same of each measurement that contents in order have, as each call of a book promises that
/// they are: a report can bring it, and the row that is exported of it is read as that report.
pub fn exports_read_back()
    ensures { AreExportsReadBack }
{}

/// The records that are read of a file of measurements are the header and the rows that were
/// written, field by field.
pub fn files_read_back()
    ensures { AreFilesReadBack }
{}

/// A file that is imported again: a row that was neither ahead of its turn nor answered 503 has
/// the same line, unless it is answered 503, whatever came between. If this is so of all rows,
/// all lines are the same, and nothing changes.
pub fn again<C: Clock, B: Book>()
    ensures afterwards { (c d : C) (f g : B)
        → TellsAfterwards (desk_state (C.tells c) (B.state f))
        (desk_state (C.tells d) (B.state g)) }
    ensures settled { (c d : C) (f g : B)
        → TellsSettled (desk_state (C.tells c) (B.state f)) (desk_state (C.tells d) (B.state g)) }
    ensures again { (c d e h : C) (f g i j : B)
        → ImportsAgain (desk_state (C.tells c) (B.state f)) (desk_state (C.tells d) (B.state g))
        (desk_state (C.tells e) (B.state i)) (desk_state (C.tells h) (B.state j)) }
{
    running_on();
    one_request();
    same_commands();
}
