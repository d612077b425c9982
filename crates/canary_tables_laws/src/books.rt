//! What `create` and `adopt` promise of the book that they make, and of a database that they
//! refuse, in the terms of the crates below canary_tables alone. Each only calls the function of
//! that name of canary_tables.
ghost use Rattle.std.specs.Prelude.{◌≡◌, ◌≢◌, false, IfOk, IfErr};
ghost use Rattle.sqlite.specs.Held.{state};
ghost use Rattle.canary_tables_schema.specs.Schema.{no_schema};
ghost use Rattle.canary_tables.specs.declared.fault.TableFault.TheVariants as fault;
ghost use Rattle.canary_tables_laws.specs.TableBooks.{ContainsNothing, ContainsWhatWas};
ghost use Rattle.canary_tables_laws.specs.TableBooks.{ShowsTables, IsDeskWithMeta, HoldsSoundRows};
ghost use Rattle.canary_tables_laws.specs.TableBooks.{IsAsItWas, MayLoseConnection, StandsInNone};

use canary_once::book::Book;
use canary_tables::book::TableBook;
use canary_tables::fault::{TableFault, Unadopted};
use canary_tables_adopt::progress::JudgingProgress;
use sqlite::{Alter, Connection};
use std::alloc::Global;

/// `TableBook::create`: the book is honest and contains nothing; another schema is one that is
/// there.
///
/// # Errors
/// Those of `TableBook::create`.
pub fn create<S: Alter>(
    alloc: Global,
    conn: Connection<S>,
) -> Result<TableBook<S>, (TableFault, Connection<S>)>
    ensures made { IfOk result (λ book. ContainsNothing (state S.Store conn) (state S.Store book)
        (⟦<TableBook<S> as Book>⟧.state book)) }
    ensures other { IfErr result
        (λ e. e.0 ≡ fault.OtherSchema → (state S.Store conn).now.schema ≢ no_schema) }
{
    TableBook::create(alloc, conn)
}

/// `TableBook::adopt`: the book is honest and contains what the database held, which was sound; a
/// database with a desk's schema and its row of `meta` is never refused as another schema's, nor
/// one without them, or with sound rows, as broken. One that is refused is as it was.
///
/// # Errors
/// Those of `TableBook::adopt`.
pub fn adopt<S: Alter + Drop, G: JudgingProgress>(
    alloc: Global,
    conn: Connection<S>,
    progress: &mut G,
) -> Result<TableBook<S>, (TableFault, Unadopted<S>)>
    ensures adopted { IfOk result (λ book. ContainsWhatWas (state S.Store conn) (state S.Store book)
        (⟦<TableBook<S> as Book>⟧.state book)) }
    ensures other { IfErr result (λ e. e.0 ≡ fault.OtherSchema → ShowsTables S.Store e.1
        → ¬ IsDeskWithMeta (state S.Store conn).now) }
    ensures broken { IfErr result (λ e. e.0 ≡ fault.BrokenRow → ShowsTables S.Store e.1
        → IsDeskWithMeta (state S.Store conn).now × ¬ HoldsSoundRows (state S.Store conn).now) }
    ensures left { IfErr result (λ e. IsAsItWas S.Store (state S.Store conn) e.1) }
    ensures store { IfErr result (λ e. MayLoseConnection e.0 e.1) }
    ensures mode { IfErr result (λ e. conn.in_transaction ≡ false → StandsInNone e.1) }
{
    TableBook::adopt(alloc, conn, progress)
}
