//! What reads a desk's tables: a connection outside of a transaction, or a transaction.
ghost use Rattle.std.specs.Prelude.{ℕ, ◌≡◌, false, IfOk, IfErr};
ghost use Rattle.sqlite.specs.State.{State, Shown, HasCleanDisk};
ghost use Rattle.sqlite.specs.Effect.{IsDatabase};
ghost use Rattle.sqlite.specs.Values.{bound};
ghost use Rattle.canary_tables_schema.specs.Stores.{IsUsable};
ghost use Rattle.canary_tables_read.specs.Queries.{IsQuery};
ghost use Rattle.canary_tables_read.specs.Finds.{IsSame};
ghost use Rattle.canary_tables_read.specs.Reader.{IsKept, FailsAs};

use canary_tables_schema::fault::{StoreFault, fault_of};
use sqlite::types::ValueRef;
use sqlite::{Alter, Connection, Row, Transaction};

/// What answers queries, and changes nothing by it.
pub trait Reader {
    /// How it stands, as a connection outside of a transaction shows it. A transaction that has
    /// ended shows as shut.
    ghost shows: { Self → State };

    /// How the connection stands that it is, or that it has begun a transaction on.
    ghost below: { Self → State };

    /// Which connection that is, for a transaction.
    ghost place: { Self → ℕ };

    /// That it can be asked: a connection stands outside of a transaction; a transaction that goes
    /// on shows a database.
    ghost IsReady: { Self → Type 0 };

    /// All rows of the answer to a text that only reads.
    ///
    /// # Errors
    /// `Memory` if an allocation was refused, `Storage` if the store failed otherwise. Either ends
    /// a transaction.
    fn ask(&mut self, text: &str, params: &[ValueRef<'_>]) -> Result<Vec<Row>, StoreFault>
        requires ready { IsReady self.old }
        requires query { IsQuery text.now }
        ensures mode { IsReady self.new }
        ensures place { place self.new ≡ place self.old }
        ensures kept { IsKept (below self.old) (below self.new) }
        ensures same { IsSame (shows self.old) (shows self.new) }
        ensures shown { IsUsable (shows self.new) → IfOk result (λ rows. Shown text.now
            (bound params.now) (shows self.old) (shows self.new) rows.items) }
        ensures failed { HasCleanDisk (below self.new) → IfErr result (FailsAs text.now
            (bound params.now) (below self.old) (below self.new)) };

    /// That what it shows is a database, for the prover.
    fn look(&self)
        requires ready { IsReady self.now }
        ensures live { IsUsable (shows self.now) → IsDatabase (shows self.now).now };
}

impl<S: Alter> Reader for Connection<S> {
    ghost use Rattle.std.specs.Prelude.{◌≡◌, false};
    ghost use Rattle.sqlite.specs.Held.{state};

    ghost shows = { state S.Store };

    ghost below = { state S.Store };

    ghost place = { λ _. 0 };

    ghost IsReady = { λ conn. conn.in_transaction ≡ false };

    // Asks the connection. `is_autocommit` recalls for the prover that all it has is committed.
    fn ask(&mut self, text: &str, params: &[ValueRef<'_>]) -> Result<Vec<Row>, StoreFault> {
        let _settled = self.is_autocommit();
        match self.query_all(text, params) {
            Ok(rows) => Ok(rows),
            Err(error) => Err(fault_of(error)),
        }
    }

    // Recalls for the prover that the connection has a database, by the contract of `schema`.
    fn look(&self) {
        let _schema = self.schema();
    }
}

impl<S: Alter> Reader for Transaction<'_, S> {
    ghost use Rattle.sqlite.specs.Held.{state};
    ghost use Rattle.sqlite.specs.Effect.{IsDatabase};
    ghost use Rattle.canary_tables_schema.specs.Stores.{IsUsable};
    ghost use Rattle.canary_tables_read.specs.Reader.{seen_inside};

    ghost shows = { λ tx. seen_inside (state S.Store tx.conn.now) };

    ghost below = { λ tx. state S.Store tx.conn.now };

    ghost place = { λ tx. tx.conn.ghost_name };

    ghost IsReady = { λ tx. IsUsable (seen_inside (state S.Store tx.conn.now))
        → IsDatabase (state S.Store tx.conn.now).now };

    // Asks the transaction, which any error ends.
    fn ask(&mut self, text: &str, params: &[ValueRef<'_>]) -> Result<Vec<Row>, StoreFault> {
        match self.query_all(text, params) {
            Ok(rows) => Ok(rows),
            Err(error) => Err(fault_of(error)),
        }
    }

    // Does nothing: `IsReady` says already that the transaction has a database.
    fn look(&self) {}
}
