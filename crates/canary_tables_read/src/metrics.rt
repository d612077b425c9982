//! The measurements of one metric of a run.
ghost use Rattle.canary_tables_read.specs.Breaks.{BreaksUnless, MeasurementsWithin};
ghost use Rattle.canary_tables_read.specs.Finds.{Gives};
ghost use Rattle.canary_tables_read.specs.Reader.{Reads};
ghost use Rattle.canary_tables_read.specs.Chosen.{measured_in};

use crate::fault::ReadFault;
use crate::from_row;
use crate::reader::Reader;
use canary_base::lists::Listed;
use canary_base::names::Name;
use canary_tables_rows::rows::MeasurementRow;
use sqlite::params;
use std::alloc::Global;

/// All measurements of a metric of that run of the service, by the metric's place in the run, in
/// their order. `Memory` if there is not enough, `Storage` if the database fails, `Broken` if a
/// program cannot hold one of them.
pub fn measurements<Q: Reader>(
    conn: &mut Q,
    alloc: Global,
    service: &Name,
    run: u32,
    metric: u32,
) -> Result<Listed<MeasurementRow>, ReadFault>
    requires ready { Q.IsReady conn.old }
    ensures reads { Reads Q.IsReady Q.place Q.below Q.shows conn.old conn.new }
    ensures found { Gives (measured_in service.now run metric) Q.shows conn.old conn.new result }
    ensures broken { BreaksUnless MeasurementsWithin Q.shows conn.old conn.new result }
{
    let rows = conn.ask(
        "SELECT run, metric, ordinal, taken, phase, outcome FROM measurement \
         WHERE service = ?1 AND run = ?2 AND metric = ?3 ORDER BY place",
        params![service.as_str(), run, metric],
    )?;
    from_row::all(alloc, service, rows.as_slice())
}
