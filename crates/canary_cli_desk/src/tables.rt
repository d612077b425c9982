//! Books that list their services.
use canary_base::names::Name;
use canary_listen::placed::Placed;
use canary_once::book::Book;
use canary_programs::fault::Fault;
use canary_tables::book::TableBook;
use sqlite::Alter;

/// A book that lists the names of its services.
pub(crate) trait Listing: Book {
    /// The names of its services, in order.
    ///
    /// # Errors
    /// `Memory` if an allocation was refused, and `Storage` if the tables failed.
    fn names(&mut self) -> Result<Vec<Name>, Fault>;
}

impl<S: Alter> Listing for TableBook<S> {
    // Reads all rows of services, and sorts their names.
    fn names(&mut self) -> Result<Vec<Name>, Fault> {
        let mut names = self.service_names()?.into_vec();
        names.sort()?;
        Ok(names)
    }
}

/// A book in a file that somebody may take away, which lists its services.
pub(crate) trait DeskBook: Placed {
    /// The names of its services, in order.
    ///
    /// # Errors
    /// `Memory` if an allocation was refused, and `Storage` if the tables failed, or once the file
    /// was found lost.
    fn names(&mut self) -> Result<Vec<Name>, Fault>;
}
