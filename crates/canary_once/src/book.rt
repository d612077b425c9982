//! What is kept, and how it is asked for.
ghost use Rattle.std.specs.Prelude.{◌≡◌, IfOk};

use crate::record::RunRecord;
use canary_base::error::Memory;
use canary_base::lists::Listed;
use canary_base::names::Name;
use canary_base::numbers::Number;
use canary_canonical::command::CanonicalCommand;
use canary_plan::line::Line;
use canary_plan::templates::Templates;
use canary_release::decide::DeskChange;
use canary_release::effect::Recorded;
use canary_release::reply::Reply;
use canary_release::service::Service;
use std::alloc::Global;
use thiserror::Error;

/// What is kept of a settled request: its command, by its canonical text, and the reply that it
/// got.
#[derive(Drop)]
pub struct Receipt {
    pub command: CanonicalCommand,
    pub reply: Reply,
}

impl Receipt {
    /// A copy of it, or `Memory`.
    pub fn copy(&self, alloc: Global) -> Result<Receipt, Memory>
        ensures { IfOk result (λ copy. copy ≡ self.now) }
    {
        Ok(Receipt {
            command: self.command.copy(alloc)?,
            reply: self.reply.copy(alloc)?,
        })
    }
}

/// A request that is being settled: who sent it under which number, what is kept of it, and what
/// it changes.
#[derive(Drop)]
pub struct Settlement {
    pub caller: Name,
    pub number: Number,
    pub receipt: Receipt,
    pub change: DeskChange,
}

impl Settlement {
    /// A copy of it, or `Memory`.
    pub fn copy(&self, alloc: Global) -> Result<Settlement, Memory>
        ensures { IfOk result (λ copy. copy ≡ self.now) }
    {
        Ok(Settlement {
            caller: self.caller,
            number: self.number,
            receipt: self.receipt.copy(alloc)?,
            change: self.change.copy(alloc)?,
        })
    }
}

/// Why a book did not do what it was asked.
#[derive(Clone, Copy, Debug, PartialEq, Eq, Error)]
pub enum BookFault {
    /// An allocation was refused.
    #[error("out of memory")]
    Memory,
    /// A statement of the store failed.
    #[error("the store failed")]
    Storage,
}

impl From<Memory> for BookFault {
    ghost use Rattle.canary_once.specs.declared.book.BookFault.TheVariants as fault;

    ghost from_gives = { λ _ made. made ≡ fault.Memory };

    // A refused allocation, as the fault of a book.
    fn from(_: Memory) -> BookFault {
        BookFault::Memory
    }
}

/// A register of settled requests, and the desk that they made. A read changes nothing, whether it
/// finds what it is asked for or fails. A book that is sure never answers `Storage`.
pub trait Book {
    ghost use Rattle.canary_once.specs.Contents.{count_of, receipt_at, templates_named, IsSettling};
    ghost use Rattle.canary_once.specs.BookCalls.{BookState, Finds, Commits};
    ghost use Rattle.canary_once.specs.Records.{run_of, history_of, measurements_of};
    ghost use Rattle.canary_release.specs.Stored.{stored_service};

    /// How it stands: what it contains, whether its store is honest, and whether it is sure.
    ghost state: { Self → BookState };

    /// The number of settled requests of a caller.
    ///
    /// # Errors
    /// `Memory` if an allocation was refused, `Storage` if the store failed; nothing changed.
    fn settled(&mut self, caller: &Name) -> Result<u32, BookFault>
        ensures { Finds (λ c. count_of c caller.now) (state self.old) (state self.new) result };

    /// The receipt under a caller's number; none if no request of that number is settled.
    ///
    /// # Errors
    /// `Memory` if an allocation was refused, `Storage` if the store failed; nothing changed.
    fn receipt(&mut self, caller: &Name, number: Number) -> Result<Option<Receipt>, BookFault>
        ensures { Finds (λ c. receipt_at c caller.now number)
            (state self.old) (state self.new) result };

    /// The newest revisions of the templates that have one of these names.
    ///
    /// # Errors
    /// `Memory` if an allocation was refused, `Storage` if the store failed; nothing changed.
    fn templates(&mut self, names: &[Name]) -> Result<Templates, BookFault>
        ensures { Finds (λ c. templates_named c names.now)
            (state self.old) (state self.new) result };

    /// A service, by its name, as it is kept: not passed to any moment; none if there is none.
    ///
    /// # Errors
    /// `Memory` if an allocation was refused, `Storage` if the store failed; nothing changed.
    fn service(&mut self, name: &Name) -> Result<Option<Service>, BookFault>
        ensures { Finds (λ c. stored_service c.desk name.now) (state self.old)
            (state self.new) result };

    /// The history of a service, oldest line first; none if there is no such service.
    ///
    /// # Errors
    /// `Memory` if an allocation was refused, `Storage` if the store failed; nothing changed.
    fn history(&mut self, name: &Name) -> Result<Listed<Line>, BookFault>
        ensures { Finds (λ c. history_of c name.now) (state self.old) (state self.new) result };

    /// A run of a service, by its number; none if there is no such service or run.
    ///
    /// # Errors
    /// `Memory` if an allocation was refused, `Storage` if the store failed; nothing changed.
    fn run(&mut self, name: &Name, number: Number) -> Result<Option<RunRecord>, BookFault>
        ensures { Finds (λ c. run_of c name.now number) (state self.old) (state self.new) result };

    /// A page of a service's measurements, of all its runs in the order in which they were
    /// recorded: those from a place on, the first having place 0, and at most so many; empty if
    /// there is no such service.
    ///
    /// # Errors
    /// `Memory` if an allocation was refused, `Storage` if the store failed; nothing changed.
    fn measurements(
        &mut self,
        name: &Name,
        from: u64,
        most: u32,
    ) -> Result<Listed<Recorded>, BookFault>
        ensures { Finds (λ c. measurements_of c name.now from most)
            (state self.old) (state self.new) result };

    /// Settles a request, with all that it changes, or does nothing. The request is the next of
    /// its caller, and its reply and change are the machine's for its command at some moment.
    ///
    /// # Errors
    /// `Memory` if an allocation was refused, `Storage` if the store failed; nothing is
    /// settled, and nothing changed.
    fn commit(&mut self, settlement: Settlement) -> Result<(), BookFault>
        requires { (state self.old).is_honest → IsSettling (state self.old).contents settlement }
        ensures { Commits settlement (state self.old) (state self.new) result };
}
