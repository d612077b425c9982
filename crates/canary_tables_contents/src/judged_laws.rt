//! Laws over the definitions alone.
ghost use Rattle.canary_tables_contents.specs.Soundness.{ExactlyThose};
ghost use Rattle.canary_tables_contents.specs.Judged.{CallersAreJudged, TemplatesAreJudged};
ghost use Rattle.canary_tables_contents.specs.Counting.{CountingIsExact, CountingCounts, RunsAreTallied};
ghost use Rattle.canary_tables_contents.specs.Services.{PartsMakeThemSound};
ghost use Rattle.canary_tables_contents.specs.JudgedLaws.{JudgedRevisionsCountUp, JudgedNewestAreFound};
ghost use Rattle.canary_tables_contents.specs.JudgedLaws.{AttemptsNameRevisions, RunsNameRevisions};
ghost use Rattle.canary_tables_contents.specs.JudgedLaws.{ServicesAreJudged, JudgingIsExact};
ghost use Rattle.canary_tables_contents.specs.Totals.{RunsAreSummedByService, BindingsAreSummedByService};

use crate::laws as table_laws;
use canary_metric::laws as metric_laws;

/// The tables with just the rows of some sound contents are the sound ones.
pub fn exactly_those()
    ensures { ExactlyThose }
{
    table_laws::reads_back();
}

/// Callers are judged key by key: their rows, and those of what is kept, are those of receipts
/// exactly if each name has one row, each of its numbers from 1 on has one that is read, and there
/// are no more kept rows than these.
pub fn callers_judged()
    ensures { CallersAreJudged }
{}

/// Templates are judged revision by revision: their rows are those of the revisions of contents
/// exactly if each name and number has one row, which is read as an accepted template of that name,
/// and has a number from 1 to 1,000,000, with the one before it there, but for the first.
pub fn templates_judged()
    ensures { TemplatesAreJudged }
{}

/// In tables whose templates are judged, the revisions of each name are 1 to n, with one row each,
/// and the row with the greatest number is its newest revision.
pub fn templates_found()
    ensures count_up { JudgedRevisionsCountUp }
    ensures newest { JudgedNewestAreFound }
{
    templates_judged();
}

/// If a run, or the present attempt of a service, has just as many rows of binding as templates to
/// which these bind it, each of the rows names a revision that is there.
pub fn bindings()
    ensures attempts { AttemptsNameRevisions }
    ensures runs { RunsNameRevisions }
{}

/// Measurements are counted one after another, from no counts on, exactly if the list of each
/// metric is in order, is judged by its conditions and has room; and then each metric has the
/// counts of its list, and each run those of its lists.
pub fn counting()
    ensures exact { CountingIsExact }
    ensures counts { CountingCounts }
    ensures runs { RunsAreTallied }
{
    metric_laws::one_more();
}

/// Tables are sound exactly if they are in their callers, their templates and their services.
pub fn parts()
    ensures { PartsMakeThemSound }
{}

/// If templates are those of contents, services are judged key by key: they, what they are bound
/// to, their runs with their tallies, their measurements and their lines are those of sound
/// contents exactly if each name has one row, whose runs have a row for each number from 1 on, each
/// bound to an analysis of its own, with the tallies that their measurements come to, and no table
/// has other rows.
pub fn services_judged()
    ensures { ServicesAreJudged }
{
    counting();
}

/// If each service is judged, and there are no more runs than theirs, the tallies of all runs can
/// be added up service by service, and run by run within; and so can the rows of binding, with
/// those of the services' present attempts.
pub fn totals()
    ensures tallies { RunsAreSummedByService }
    ensures bindings { BindingsAreSummedByService }
{}

/// Tables are judged, in their callers, their templates and their services, exactly if they are
/// those of sound contents.
pub fn judging()
    ensures { JudgingIsExact }
{
    callers_judged();
    templates_judged();
    services_judged();
    parts();
}
