//! Rows of tables, each read from the columns that a query shows to one who knows its name.
ghost use Rattle.std.specs.Prelude.{ℕ, ◌≡◌, ◌≢◌, ◌∷◌, List, IfOk, Err, length, map, option_map};
ghost use Rattle.std.specs.Prelude.{slice_get};
ghost use Rattle.std.specs.List.{AllByRecursion};
ghost use Rattle.sqlite.specs.Order.{Row as Cells, column};
ghost use Rattle.sqlite.specs.declared.types.Value.TheVariants.{Text as Words};
ghost use Rattle.canary_tables_rows.specs.Limits.{IsServiceWithin, IsTallyWithin};
ghost use Rattle.canary_tables_schema.specs.Cells.{integer as number};
ghost use Rattle.canary_tables_read.specs.Parts.{standing_cells, counts_cells};
ghost use Rattle.canary_tables_read.specs.Breaks.{BreaksIfNone};

use crate::columns;
use crate::fault::ReadFault;
use canary_base::lists::Listed;
use canary_base::names::Name;
use canary_metric::laws;
use canary_metric::tally::Tally;
use canary_tables_rows::rows::{
    BindingRow, CallerRow, ClosingColumns, HistoryRow, KeptRow, MeasurementRow, RevisionRow,
    RunRow, ServiceColumns, ServiceRow, TallyRow,
};
use sqlite::Row;
use std::alloc::Global;

/// A row of a table whose first text is a name.
pub(crate) trait FromRow: Drop {
    /// Its cells.
    ghost cells: { Self → Cells };

    /// The cells, by the name and what a query shows of them.
    ghost whole: { List ℕ → Cells → Cells };

    /// That a program can hold it.
    ghost Within: { Self → Type 0 };

    /// The row with that name and these columns. `Memory` if there is not enough, `Broken` if a
    /// program can hold no such row.
    fn read(name: &Name, row: &Row) -> Result<Self, ReadFault>
        ensures found { IfOk result (λ read. cells read ≡ whole name.now row.now) }
        ensures broken { BreaksIfNone result (λ read. cells read ≡ whole name.now row.now) Within }
        ensures unasked { result ≢ Err ReadFault.Storage };
}

impl FromRow for CallerRow {
    ghost use Rattle.std.specs.Prelude.{◌∷◌};
    ghost use Rattle.sqlite.specs.declared.types.Value.TheVariants.{Text as Words};
    ghost use Rattle.canary_tables_rows.specs.Limits.{IsCallerWithin};
    ghost use Rattle.canary_tables_schema.specs.Cells.{caller_cells};

    ghost cells = { caller_cells };

    ghost whole = { λ name row. Words name ∷ row };

    ghost Within = { IsCallerWithin };

    // The caller of that name; column 0 is how many of its requests are settled.
    fn read(name: &Name, row: &Row) -> Result<CallerRow, ReadFault> {
        columns::has_width(row, 1)?;
        Ok(CallerRow {
            name: *name,
            settled: columns::number_at(row, 0)?,
        })
    }
}

impl FromRow for KeptRow {
    ghost use Rattle.std.specs.Prelude.{◌∷◌};
    ghost use Rattle.sqlite.specs.declared.types.Value.TheVariants.{Text as Words};
    ghost use Rattle.canary_tables_rows.specs.Limits.{IsKeptWithin};
    ghost use Rattle.canary_tables_schema.specs.Cells.{kept_cells};

    ghost cells = { kept_cells };

    ghost whole = { λ name row. Words name ∷ row };

    ghost Within = { IsKeptWithin };

    // The settled request of the caller: its number, command, status and body in columns 0 to 3.
    fn read(name: &Name, row: &Row) -> Result<KeptRow, ReadFault> {
        columns::has_width(row, 4)?;
        Ok(KeptRow {
            caller: *name,
            number: columns::number_at(row, 0)?,
            command: columns::text_at(row, 1)?,
            status: columns::number_at(row, 2)?,
            body: columns::text_at(row, 3)?,
        })
    }
}

impl FromRow for RevisionRow {
    ghost use Rattle.std.specs.Prelude.{◌∷◌};
    ghost use Rattle.sqlite.specs.declared.types.Value.TheVariants.{Text as Words};
    ghost use Rattle.canary_tables_rows.specs.Limits.{IsRevisionWithin};
    ghost use Rattle.canary_tables_schema.specs.Cells.{revision_cells};

    ghost cells = { revision_cells };

    ghost whole = { λ name row. Words name ∷ row };

    ghost Within = { IsRevisionWithin };

    // The revision of the template: its number and the text of its command in columns 0 and 1.
    fn read(name: &Name, row: &Row) -> Result<RevisionRow, ReadFault> {
        columns::has_width(row, 2)?;
        Ok(RevisionRow {
            name: *name,
            revision: columns::number_at(row, 0)?,
            spec: columns::text_at(row, 1)?,
        })
    }
}

impl FromRow for ServiceRow {
    ghost use Rattle.std.specs.Prelude.{◌∷◌};
    ghost use Rattle.sqlite.specs.declared.types.Value.TheVariants.{Text as Words};
    ghost use Rattle.canary_tables_rows.specs.Limits.{IsServiceWithin};
    ghost use Rattle.canary_tables_schema.specs.Cells.{service_cells};

    ghost cells = { service_cells };

    ghost whole = { λ name row. Words name ∷ row };

    ghost Within = { IsServiceWithin };

    // The service: the text of its command in column 0, and its state in columns 1 to 9.
    fn read(name: &Name, row: &Row) -> Result<ServiceRow, ReadFault> {
        columns::has_width(row, 10)?;
        Ok(ServiceRow {
            name: *name,
            spec: columns::text_at(row, 0)?,
            standing: standing(row)?,
        })
    }
}

// How the service stands, after its text.
fn standing(row: &Row) -> Result<ServiceColumns, ReadFault>
    requires { length row.now ≡ 10 }
    ensures found { IfOk result (λ s. row.now ≡ column row.now 0 ∷ standing_cells s) }
    ensures broken { BreaksIfNone result
        (λ s. row.now ≡ Words s.spec ∷ standing_cells s.standing) IsServiceWithin }
    ensures unasked { result ≢ Err ReadFault.Storage }
{
    Ok(ServiceColumns {
        stable: columns::label_at(row, 1)?,
        version: columns::label_at(row, 2)?,
        state: columns::number_at(row, 3)?,
        step: columns::number_at(row, 4)?,
        entered: columns::moment_at(row, 5)?,
        hold: columns::number_at(row, 6)?,
        background: columns::number_at(row, 7)?,
        runs: columns::number_at(row, 8)?,
        last: columns::moment_at(row, 9)?,
    })
}

impl FromRow for BindingRow {
    ghost use Rattle.std.specs.Prelude.{◌∷◌};
    ghost use Rattle.sqlite.specs.declared.types.Value.TheVariants.{Text as Words};
    ghost use Rattle.canary_tables_rows.specs.Limits.{IsBindingWithin};
    ghost use Rattle.canary_tables_schema.specs.Cells.{binding_cells};

    ghost cells = { binding_cells };

    ghost whole = { λ name row. Words name ∷ row };

    ghost Within = { IsBindingWithin };

    // The binding of the service: its run, template and revision in columns 0 to 2.
    fn read(name: &Name, row: &Row) -> Result<BindingRow, ReadFault> {
        columns::has_width(row, 3)?;
        Ok(BindingRow {
            service: *name,
            run: columns::number_at(row, 0)?,
            template: columns::name_at(row, 1)?,
            revision: columns::number_at(row, 2)?,
        })
    }
}

impl FromRow for RunRow {
    ghost use Rattle.std.specs.Prelude.{◌∷◌};
    ghost use Rattle.sqlite.specs.declared.types.Value.TheVariants.{Text as Words};
    ghost use Rattle.canary_tables_rows.specs.Limits.{IsRunWithin};
    ghost use Rattle.canary_tables_schema.specs.Cells.{run_cells};

    ghost cells = { run_cells };

    ghost whole = { λ name row. Words name ∷ row };

    ghost Within = { IsRunWithin };

    // The run of the service in columns 0 to 5, where 1, the step, and 3, the end, may be NULL.
    fn read(name: &Name, row: &Row) -> Result<RunRow, ReadFault> {
        columns::has_width(row, 6)?;
        Ok(RunRow {
            service: *name,
            number: columns::number_at(row, 0)?,
            step: columns::maybe_number_at(row, 1)?,
            started: columns::moment_at(row, 2)?,
            ending: ClosingColumns {
                closed: columns::maybe_moment_at(row, 3)?,
                outside: columns::number_at(row, 4)?,
                verdict: columns::number_at(row, 5)?,
            },
        })
    }
}

impl FromRow for TallyRow {
    ghost use Rattle.std.specs.Prelude.{◌∷◌};
    ghost use Rattle.sqlite.specs.declared.types.Value.TheVariants.{Text as Words};
    ghost use Rattle.canary_tables_rows.specs.Limits.{IsTallyWithin};
    ghost use Rattle.canary_tables_schema.specs.Cells.{tally_cells};

    ghost cells = { tally_cells };

    ghost whole = { λ name row. Words name ∷ row };

    ghost Within = { IsTallyWithin };

    // The tally of the service: its run and metric in columns 0 and 1, its counts in 2 to 8.
    fn read(name: &Name, row: &Row) -> Result<TallyRow, ReadFault> {
        columns::has_width(row, 9)?;
        Ok(TallyRow {
            service: *name,
            run: columns::number_at(row, 0)?,
            metric: columns::number_at(row, 1)?,
            counts: counts(row)?,
        })
    }
}

// The counts, after the run and the metric.
fn counts(row: &Row) -> Result<Tally, ReadFault>
    requires { length row.now ≡ 9 }
    ensures found { IfOk result (λ c. row.now
        ≡ column row.now 0 ∷ column row.now 1 ∷ counts_cells c) }
    ensures broken { BreaksIfNone result
        (λ t. row.now ≡ number t.run ∷ number t.metric ∷ counts_cells t.counts) IsTallyWithin }
    ensures unasked { result ≢ Err ReadFault.Storage }
{
    laws::consistent();
    let counted = columns::number_at(row, 2)?;
    let failed = columns::number_at(row, 3)?;
    let inconclusive = columns::number_at(row, 4)?;
    let errors = columns::number_at(row, 5)?;
    let consecutive = columns::number_at(row, 6)?;
    let passes = columns::number_at(row, 7)?;
    let last = columns::maybe_moment_at(row, 8)?;
    match Tally::from_counts(
        counted,
        failed,
        inconclusive,
        errors,
        consecutive,
        passes,
        last,
    ) {
        Some(counts) => Ok(counts),
        None => Err(ReadFault::Broken),
    }
}

impl FromRow for MeasurementRow {
    ghost use Rattle.std.specs.Prelude.{◌∷◌};
    ghost use Rattle.sqlite.specs.declared.types.Value.TheVariants.{Null, Text as Words};
    ghost use Rattle.canary_tables_rows.specs.Limits.{IsMeasurementWithin};
    ghost use Rattle.canary_tables_schema.specs.Cells.{measurement_cells};

    ghost cells = { measurement_cells };

    ghost whole = { λ name row. Null ∷ Words name ∷ row };

    ghost Within = { IsMeasurementWithin };

    // The measurement of the service in columns 0 to 5, without its place.
    fn read(name: &Name, row: &Row) -> Result<MeasurementRow, ReadFault> {
        columns::has_width(row, 6)?;
        Ok(MeasurementRow {
            service: *name,
            run: columns::number_at(row, 0)?,
            metric: columns::number_at(row, 1)?,
            ordinal: columns::number_at(row, 2)?,
            taken: columns::moment_at(row, 3)?,
            phase: columns::number_at(row, 4)?,
            outcome: columns::text_at(row, 5)?,
        })
    }
}

impl FromRow for HistoryRow {
    ghost use Rattle.std.specs.Prelude.{◌∷◌};
    ghost use Rattle.sqlite.specs.declared.types.Value.TheVariants.{Null, Text as Words};
    ghost use Rattle.canary_tables_rows.specs.Limits.{IsLineWithin};
    ghost use Rattle.canary_tables_schema.specs.Cells.{history_cells};

    ghost cells = { history_cells };

    ghost whole = { λ name row. Null ∷ Words name ∷ row };

    ghost Within = { IsLineWithin };

    // The line of the service: its moment and its words in columns 0 and 1, without its place.
    fn read(name: &Name, row: &Row) -> Result<HistoryRow, ReadFault> {
        columns::has_width(row, 2)?;
        Ok(HistoryRow {
            service: *name,
            moment: columns::moment_at(row, 0)?,
            line: columns::text_at(row, 1)?,
        })
    }
}

/// The first of the rows, if there is one. `Memory` if there is not enough, `Broken` if a program
/// cannot hold it.
pub(crate) fn first<R: FromRow>(name: &Name, rows: &[Row]) -> Result<Option<R>, ReadFault>
    ensures found { IfOk result (λ found. option_map R.cells found
        ≡ option_map (R.whole name.now) (slice_get rows.now 0)) }
    ensures broken { BreaksIfNone result (λ all. map R.cells all ≡ map (R.whole name.now) rows.now)
        (AllByRecursion R.Within) }
    ensures unasked { result ≢ Err ReadFault.Storage }
{
    match rows.first() {
        Some(row) => Ok(Some(R::read(name, row)?)),
        None => Ok(None),
    }
}

/// All rows, in their order. `Memory` if there is not enough, `Broken` if a program cannot hold one
/// of them.
pub(crate) fn all<R: FromRow>(
    alloc: Global,
    name: &Name,
    rows: &[Row],
) -> Result<Listed<R>, ReadFault>
    ensures found { IfOk result (λ all. map R.cells all ≡ map (R.whole name.now) rows.now) }
    ensures broken { BreaksIfNone result (λ all. map R.cells all ≡ map (R.whole name.now) rows.now)
        (AllByRecursion R.Within) }
    ensures unasked { result ≢ Err ReadFault.Storage }
{
    let mut all = Listed::of(Vec::new(alloc));
    for row in rows {
        all.push(R::read(name, row)?)?;
    }
    Ok(all)
}
