//! Laws of the definitions, each the contract of a function that does nothing.
ghost use Rattle.canary_metric.specs.Counts.{CountsOneMore, ListWhereConsistent};

/// The counts of a list with one more measurement are those of the list with that one more counted,
/// however long the list is.
pub fn one_more()
    ensures { CountsOneMore }
{}

/// Counts are those of some list of at most 1,000,000 measurements exactly if they are
/// consistent.
pub fn consistent()
    ensures { ListWhereConsistent }
{}
