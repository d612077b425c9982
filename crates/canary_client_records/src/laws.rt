//! Laws over all files of texts.
ghost use Rattle.canary_client_records.specs.Laws.{ReadsBack, RefusesCut, RefusesGate, OnlyNew, TakesNew};

/// A file of lines is read back, whatever stands after the gate that closes it; and one that is cut
/// short anywhere before that gate is refused, unless no more than a byte is left, and so is one
/// with any other byte in the place of a gate. A file counts as new exactly if a crash may leave it
/// of a new one.
pub fn files()
    ensures back { ReadsBack }
    ensures cut { RefusesCut }
    ensures gate { RefusesGate }
    ensures only_new { OnlyNew }
    ensures new { TakesNew }
{}
