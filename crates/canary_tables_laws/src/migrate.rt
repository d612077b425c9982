//! What `migrate` promises of a database of the first schema, in the terms of the crates below
//! canary_tables alone. It only calls the function of that name of canary_migrate.
ghost use Rattle.std.specs.Prelude.{◌≡◌, false, IfOk, IfErr};
ghost use Rattle.sqlite.specs.Held.{state};
ghost use Rattle.canary_tables.specs.declared.fault.TableFault.TheVariants as fault;
ghost use Rattle.canary_tables_laws.specs.FirstDesks.{IsDeskOfFirst, IsFirstWithMeta};
ghost use Rattle.canary_tables_laws.specs.FirstDesks.{HoldsSoundFirst};
ghost use Rattle.canary_tables_laws.specs.TableBooks.{IsIntact, ShowsTables};
ghost use Rattle.canary_tables_laws.specs.TableBooks.{IsAsItWas, MayLoseConnection, StandsInNone};

use canary_migrate::migrate;
use canary_tables::fault::{TableFault, Unadopted};
use canary_tables_adopt::progress::JudgingProgress;
use canary_tables_contents::{judged_laws as judging_laws, laws as stored_laws};
use canary_tables_schema::laws as schema_laws;
use sqlite::{Alter, Connection};
use std::alloc::Global;

/// `migrate`: the database is a desk's with the sound contents whose rows it held. One of the first
/// schema with its row of `meta` is never refused as another schema's, nor one without these, or
/// with the rows of sound contents, as broken. One that is refused is as it was.
///
/// # Errors
/// Those of `migrate` of canary_migrate.
pub fn migrate<S: Alter + Drop, G: JudgingProgress>(
    alloc: Global,
    conn: Connection<S>,
    progress: &mut G,
) -> Result<Connection<S>, (TableFault, Unadopted<S>)>
    ensures migrated { IfOk result (λ it. IsIntact (state S.Store it)
        → IsDeskOfFirst (state S.Store conn) (state S.Store it)) }
    ensures autocommit { IfOk result (λ it. it.in_transaction ≡ false) }
    ensures other { IfErr result (λ e. e.0 ≡ fault.OtherSchema → ShowsTables S.Store e.1
        → ¬ IsFirstWithMeta (state S.Store conn).now) }
    ensures broken { IfErr result (λ e. e.0 ≡ fault.BrokenRow → ShowsTables S.Store e.1
        → IsFirstWithMeta (state S.Store conn).now × ¬ HoldsSoundFirst (state S.Store conn).now) }
    ensures left { IfErr result (λ e. IsAsItWas S.Store (state S.Store conn) e.1) }
    ensures store { IfErr result (λ e. MayLoseConnection e.0 e.1) }
    ensures mode { IfErr result (λ e. conn.in_transaction ≡ false → StandsInNone e.1) }
{
    judging_laws::exactly_those();
    stored_laws::reads_back();
    schema_laws::one_reading();
    migrate::migrate(alloc, conn, progress)
}
