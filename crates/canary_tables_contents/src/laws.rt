//! Laws over the definitions alone.
ghost use Rattle.canary_tables_contents.specs.Laws.{ReadsBack, CountsAreFound, ReceiptsAreFound};
ghost use Rattle.canary_tables_contents.specs.Laws.{KeptTextsAreCanonical, RevisionsAreFound};
ghost use Rattle.canary_tables_contents.specs.Laws.{NewestAreFound, RunsHaveServices};
ghost use Rattle.canary_tables_contents.specs.Laws.{HistoriesAreFound, MeasurementsAreFound};
ghost use Rattle.canary_tables_contents.specs.Laws.{TalliesAreFound, RunsAreFound, OpenRunsAreFound};
ghost use Rattle.canary_tables_contents.specs.Laws.{ServicesAreFound, KeysAreUnique};
ghost use Rattle.canary_tables_contents.specs.Laws.{EmptyHoldsNothing, RequestsFind, RequestsSettle};

use canary_metric::laws as metric_laws;
use canary_once::laws as book_laws;
use canary_release::laws as desk_laws;

/// Tables with the rows of contents are read as these.
pub fn reads_back()
    ensures { ReadsBack }
{}

/// Tables without rows hold empty contents.
pub fn nothing()
    ensures { EmptyHoldsNothing }
{
    book_laws::soundness();
}

/// In tables that hold contents, the statements of a request that settles on these find the rows
/// that they ask for. After them the tables hold the contents with that request.
pub fn requests()
    ensures find { RequestsFind }
    ensures settle { RequestsSettle }
{
    metric_laws::one_more();
    desk_laws::watching();
    desk_laws::effects();
    desk_laws::changes();
    desk_laws::in_order();
    desk_laws::refusals();
}

/// Under each key stands one row at most.
pub fn keys_unique()
    ensures { KeysAreUnique }
{}

/// The row of a caller says how many of its requests are settled.
pub fn counts_found()
    ensures { CountsAreFound }
{}

/// A kept row is the receipt of its number, and its text is canonical.
pub fn receipts_found()
    ensures receipts { ReceiptsAreFound }
    ensures canonical { KeptTextsAreCanonical }
{}

/// The row of a revision is this revision of its template.
pub fn revisions_found()
    ensures { RevisionsAreFound }
{}

/// Of the rows of a template, that with the greatest number is its newest revision.
pub fn newest_found()
    ensures { NewestAreFound }
{}

/// The rows of a service's history are its lines.
pub fn histories_found()
    ensures { HistoriesAreFound }
{}

/// A page of the rows of a service's measurements is this page of them.
pub fn measurements_found()
    ensures { MeasurementsAreFound }
{}

/// The rows of a run's tallies, in order of their metrics, are its tallies.
pub fn tallies_found()
    ensures { TalliesAreFound }
{}

/// The row of a run is the record of that run, with its tallies, and with the analysis at its step
/// of its service's strategy, bound to the run's own revisions.
pub fn runs_found()
    ensures { RunsAreFound }
{}

/// If there is no row of a service, there is no run of it.
pub fn runs_have_services()
    ensures { RunsHaveServices }
{}

/// The rows of a service's open runs, in order of their numbers, are its open runs.
pub fn open_runs_found()
    ensures { OpenRunsAreFound }
{}

/// The row of a service, bound to the revisions of its present attempt, and with its open runs, is
/// what is kept of it.
pub fn services_found()
    ensures { ServicesAreFound }
{}
