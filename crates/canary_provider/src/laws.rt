//! What callers may rest on, as functions that do nothing.
ghost use Rattle.canary_provider.specs.Messages.{OneReading};
ghost use Rattle.canary_provider.specs.Plans.{QueryIsReadAgain};

/// Whoever reads a message line by line, up to an empty line, reads these lines and this body: no
/// line of it has another one in it, and none ends its head.
pub fn one_reading()
    ensures { OneReading }
{}

/// What stands for a query in an address reads as the query, whatever that is.
pub fn query_is_read_again()
    ensures { QueryIsReadAgain }
{}
