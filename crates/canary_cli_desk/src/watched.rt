//! A book in a file that somebody may take away or replace.
ghost use Rattle.std.specs.Prelude.{◌≡◌, ◌⊎◌, Err};
ghost use Rattle.canary_once.specs.declared.book.BookFault.TheVariants as book_fault;
ghost use Rattle.canary_cli_desk.specs.Watching.{IsOver};

use crate::seat::Seat;
use crate::tables::{DeskBook, Listing};
use canary_base::lists::Listed;
use canary_base::names::Name;
use canary_base::numbers::Number;
use canary_listen::placed::Placed;
use canary_once::book::{Book, BookFault, Receipt, Settlement};
use canary_once::record::RunRecord;
use canary_plan::line::Line;
use canary_plan::templates::Templates;
use canary_programs::fault::Fault;
use canary_release::effect::Recorded;
use canary_release::service::Service;
use std::fs::Files;

/// A book, and the file in which its records are. Once that was found lost, each call fails.
#[derive(Drop)]
pub(crate) struct Watched<'a, P, B> {
    files: &'a P,
    seat: Seat<'a>,
    book: B,
    is_lost: bool,
}

impl<'a, P: Files, B: Book + Drop> Watched<'a, P, B> {
    /// The book in the file of this seat.
    pub(crate) fn new(files: &'a P, seat: Seat<'a>, book: B) -> Watched<'a, P, B> {
        Watched {
            files,
            seat,
            book,
            is_lost: false,
        }
    }

    /// The book.
    pub(crate) fn into_book(self) -> B {
        self.book
    }

    // What was found, unless the file is lost.
    fn unless_lost<T: Drop>(&self, found: Result<T, BookFault>) -> Result<T, BookFault>
        ensures { (result ≡ found) ⊎ (result ≡ Err book_fault.Storage) }
    {
        if self.is_lost {
            return Err(BookFault::Storage);
        }
        found
    }
}

impl<P: Files, B: Book + Drop> Book for Watched<'_, P, B> {
    ghost use Rattle.std.specs.Prelude.{false};

    ghost state = { λ w. record {
      contents = (B.state w.book).contents;
      is_honest = (B.state w.book).is_honest;
      is_in_memory = (B.state w.book).is_in_memory;
      is_sure = false;
    } };

    // How many requests of the caller are settled; `Storage` once the file was found lost.
    fn settled(&mut self, caller: &Name) -> Result<u32, BookFault> {
        let found = self.book.settled(caller);
        self.unless_lost(found)
    }

    // The receipt under that number of the caller; `Storage` once the file was found lost.
    fn receipt(&mut self, caller: &Name, number: Number) -> Result<Option<Receipt>, BookFault> {
        let found = self.book.receipt(caller, number);
        self.unless_lost(found)
    }

    // The newest revisions of these templates; `Storage` once the file was found lost.
    fn templates(&mut self, names: &[Name]) -> Result<Templates, BookFault> {
        let found = self.book.templates(names);
        self.unless_lost(found)
    }

    // The service, if there is one; `Storage` once the file was found lost.
    fn service(&mut self, name: &Name) -> Result<Option<Service>, BookFault> {
        let found = self.book.service(name);
        self.unless_lost(found)
    }

    // The lines of the service, oldest first; `Storage` once the file was found lost.
    fn history(&mut self, name: &Name) -> Result<Listed<Line>, BookFault> {
        let found = self.book.history(name);
        self.unless_lost(found)
    }

    // The run of that number, if there is one; `Storage` once the file was found lost.
    fn run(&mut self, name: &Name, number: Number) -> Result<Option<RunRecord>, BookFault> {
        let found = self.book.run(name, number);
        self.unless_lost(found)
    }

    // At most so many measurements of the service; `Storage` once the file was found lost.
    fn measurements(
        &mut self,
        name: &Name,
        from: u64,
        most: u32,
    ) -> Result<Listed<Recorded>, BookFault> {
        let found = self.book.measurements(name, from, most);
        self.unless_lost(found)
    }

    // A commit to a file that is lost would be lost with it. The read in its place changes nothing.
    fn commit(&mut self, settlement: Settlement) -> Result<(), BookFault> {
        if self.is_lost {
            let _ = self.book.settled(&settlement.caller);
            return Err(BookFault::Storage);
        }
        self.book.commit(settlement)
    }
}

impl<P: Files, B: Book + Drop> Placed for Watched<'_, P, B> {
    // Looks where the path leads, unless the file was found lost before: it stays lost.
    fn is_in_place(&mut self) -> bool {
        self.is_lost = self.is_lost || self.seat.is_lost(self.files);
        !self.is_lost
    }
}

impl<P: Files, B: Listing + Drop> DeskBook for Watched<'_, P, B> {
    // The names that the book has; `Storage` once the file was found lost.
    fn names(&mut self) -> Result<Vec<Name>, Fault> {
        if self.is_lost {
            return Err(Fault::Storage);
        }
        self.book.names()
    }
}

/// However a watched book came about, it contains what the book contains that it watches, and its
/// store is honest, and memory alone, exactly if that of the other is.
pub(crate) fn watched_books<'a, P: Files, B: Book + Drop>(watched: &Watched<'a, P, B>)
    ensures { IsOver (B.state watched.now.book) (⟦<Watched<'a, P, B> as Book>⟧.state watched.now) }
{}
