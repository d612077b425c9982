//! A book over a connection to SQLite.
ghost use Rattle.std.specs.Prelude.{◌≡◌};
ghost use Rattle.canary_once.specs.declared.book.BookFault.TheVariants as book_fault;
ghost use Rattle.canary_tables_schema.specs.declared.fault.StoreFault.TheVariants as store_fault;
ghost use Rattle.canary_tables.specs.Faults.{book_fault_of};

use crate::cache::Cache;
use crate::notes::Notes;
use crate::{cached, load_runs, pages};
use canary_base::lists::Listed;
use canary_base::names::Name;
use canary_base::numbers::Number;
use canary_once::book::{Book, BookFault, Receipt, Settlement};
use canary_once::laws;
use canary_once::record::RunRecord;
use canary_plan::line::Line;
use canary_plan::templates::Templates;
use canary_release::effect::Recorded;
use canary_release::service::Service;
use canary_tables_schema::fault::StoreFault;
use sqlite::{Alter, Connection};
use std::alloc::Global;
use std::marker::Model;

/// The room for what a book keeps of its tables, in bytes by estimate, if none is given.
pub const DEFAULT_ROOM: u64 = 64 << 20;

/// The book whose contents are the rows of ten tables. Nobody else writes them meanwhile.
#[derive(Drop)]
pub struct TableBook<S: Alter> {
    pub(crate) alloc: Global,
    pub(crate) conn: Connection<S>,
    pub(crate) notes: Notes,
    pub(crate) cache: Cache,
}

impl<S: Alter> Model for TableBook<S> {
    ghost use Rattle.sqlite.specs.Held.{Held, held_code};
    ghost use Rattle.canary_tables.specs.Desk.{IsBook};

    ghost Value = { Held S };

    ghost coded = { held_code S.code };

    ghost view = { λ b. b.conn };

    ghost invariant = { λ b. IsBook S.Store b.conn b.notes b.cache };
}

/// The fault of a book that a fault of its store comes to, under the same name.
pub(crate) fn book_fault(fault: StoreFault) -> BookFault
    ensures { result ≡ book_fault_of fault }
{
    match fault {
        StoreFault::Memory => BookFault::Memory,
        StoreFault::Storage => BookFault::Storage,
    }
}

impl<S: Alter> TableBook<S> {
    /// The connection, with the same tables; it takes no memory.
    pub fn into_connection(self) -> Connection<S>
        ensures { result ≡ self }
    {
        self.conn
    }

    /// The same book with room for so many bytes of what it keeps of its tables, by estimate. It
    /// keeps nothing yet, and without room it keeps nothing at all.
    pub fn with_room(self, bytes: u64) -> TableBook<S>
        ensures { result ≡ self }
    {
        let mut book = self;
        book.cache = Cache::new(book.alloc, bytes);
        book
    }
}

impl<S: Alter> Book for TableBook<S> {
    ghost use Rattle.canary_tables.specs.Desk.{book_state};

    ghost state = { book_state S.Store };

    // How many requests of the caller are settled, from the cache or else from the tables.
    fn settled(&mut self, caller: &Name) -> Result<u32, BookFault> {
        cached::count(&mut self.conn, &mut self.cache, caller).map_err(book_fault)
    }

    // The receipt under that number of the caller, from the cache or else from the tables.
    fn receipt(&mut self, caller: &Name, number: Number) -> Result<Option<Receipt>, BookFault> {
        cached::receipt(&mut self.conn, self.alloc, &mut self.cache, caller, number).map_err(
            book_fault,
        )
    }

    // The newest revisions of these templates, each from the cache or else from the tables.
    fn templates(&mut self, names: &[Name]) -> Result<Templates, BookFault> {
        cached::templates(&mut self.conn, self.alloc, &mut self.cache, names).map_err(book_fault)
    }

    // The service of that name, from the cache or else from the tables.
    fn service(&mut self, name: &Name) -> Result<Option<Service>, BookFault> {
        cached::service(&mut self.conn, self.alloc, &mut self.cache, name).map_err(book_fault)
    }

    // The history of the service, from the cache or else from the tables.
    fn history(&mut self, name: &Name) -> Result<Listed<Line>, BookFault> {
        cached::history(&mut self.conn, self.alloc, &mut self.cache, name).map_err(book_fault)
    }

    // The run of that number, always from the tables.
    fn run(&mut self, name: &Name, number: Number) -> Result<Option<RunRecord>, BookFault> {
        load_runs::run(&mut self.conn, self.alloc, name, number).map_err(book_fault)
    }

    // A page of measurements, read on from the place where the last page ended, if that is noted.
    fn measurements(
        &mut self,
        name: &Name,
        from: u64,
        most: u32,
    ) -> Result<Listed<Recorded>, BookFault> {
        let place = self.notes.place(name, from);
        match pages::measurements(&mut self.conn, self.alloc, name, from, place, most) {
            Ok(page) => {
                self.notes = self.notes.with_mark(page.mark);
                Ok(page.recorded)
            }
            Err(fault) => Err(book_fault(fault)),
        }
    }

    // Settles the request. All notes go first, and all that is cached goes if that fails.
    fn commit(&mut self, settlement: Settlement) -> Result<(), BookFault> {
        laws::settlements();
        let _limits = settlement.number.get();
        self.notes = Notes::none();
        match cached::commit(&mut self.conn, self.alloc, &mut self.cache, settlement) {
            Ok(()) => Ok(()),
            Err(fault) => {
                self.cache.forget(self.alloc);
                Err(book_fault(fault))
            }
        }
    }
}
