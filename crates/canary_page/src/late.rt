//! Measurements that are late.
ghost use Rattle.std.specs.Prelude.{◌≡◌};
ghost use Rattle.canary_page.specs.Lateness.{interval_of, is_late};

use canary_base::moments::Moment;
use canary_metric::metric::Metric;
use canary_metric::tally::{DEFAULT_INTERVAL, Tally};
use canary_metric::verdict::is_completed;
use canary_release::runs::OpenRun;
use canary_release::service::Service;

/// Whether the next measurement of a metric is late at this moment, in an open run that started at
/// that one: if it has been due for longer than the metric's interval, or for longer than 10
/// seconds if the metric has none, so that the one after it would be due, too. A completed metric
/// wants no measurement.
pub fn is_measurement_late(metric: &Metric, tally: &Tally, started: Moment, now: Moment) -> bool
    ensures { result ≡ is_late metric.now tally.now started now }
{
    if is_completed(tally.phase(metric, false)) {
        return false;
    }
    now.get().saturating_sub(tally.due(metric, started)) > interval_of(metric)
}

// The seconds from one measurement of a metric to its next: its interval, or 10 if it has none.
fn interval_of(metric: &Metric) -> u64
    ensures { result ≡ interval_of metric.now }
{
    match metric.interval() {
        Some(seconds) => u64::from(seconds.get()),
        None => DEFAULT_INTERVAL,
    }
}

// When the next measurement of a metric is due, in an open run that started at that moment, if one
// is wanted.
pub(crate) fn due_of(metric: &Metric, tally: &Tally, started: Moment) -> Option<Moment> {
    if is_completed(tally.phase(metric, false)) {
        return None;
    }
    Moment::new(tally.due(metric, started))
}

// Since when the next measurement has been due, if it is late at this moment.
pub(crate) fn late_since(
    metric: &Metric,
    tally: &Tally,
    started: Moment,
    now: Moment,
) -> Option<Moment> {
    if is_measurement_late(metric, tally, started, now) {
        due_of(metric, tally, started)
    } else {
        None
    }
}

// Whether a measurement of a service's open runs is late at this moment.
pub(crate) fn is_late(service: &Service, now: Moment) -> bool {
    service.open_runs().iter().any(|run| is_run_late(run, now))
}

// Whether the next measurement of a metric of this run is late at this moment.
fn is_run_late(run: &OpenRun, now: Moment) -> bool {
    let metrics = run.analysis.metrics().iter();
    metrics.zip(run.tallies.as_slice()).any(|(metric, tally)| is_measurement_late(
        metric,
        tally,
        run.started,
        now,
    ))
}
