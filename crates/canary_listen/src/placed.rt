//! Books whose records may be taken away while clients are served.
ghost use Rattle.canary_once.specs.BookCalls.{Stays};

use canary_once::book::Book;
use canary_once::memory::MemoryBook;

/// A book that can look whether its records are still where it found them.
pub trait Placed: Book {
    /// Whether the records are still where they were found. From the first time on that they are
    /// not, each call of the book answers `Storage`, settles nothing, and this answers false.
    fn is_in_place(&mut self) -> bool
        ensures { Stays (Self.state self.old) (Self.state self.new) };
}

impl Placed for MemoryBook {
    // Always true: nobody can take records in memory away.
    fn is_in_place(&mut self) -> bool {
        true
    }
}
