//! How far the judging of a desk's tables has come.

/// Gets reports of how far the judging of a desk's tables has come.
pub trait JudgingProgress {
    /// So many rows are to be judged.
    fn begin(&mut self, rows: u64);

    /// So many more rows were judged.
    fn judged(&mut self, rows: u64);
}

/// Reports to nobody.
#[derive(Clone, Copy)]
pub struct Untold;

impl JudgingProgress for Untold {
    // Ignores how many rows there are.
    fn begin(&mut self, _rows: u64) {}

    // Ignores that rows were judged.
    fn judged(&mut self, _rows: u64) {}
}
