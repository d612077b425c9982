//! Laws over the definitions alone.
ghost use Rattle.canary_tables_schema.specs.Laws.{OneReading};

/// The rows that a database stores are those that its trees are read as: none is passed over, and
/// no two lists of rows are stored alike.
pub fn one_reading()
    ensures { OneReading }
{}
