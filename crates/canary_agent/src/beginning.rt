//! How a measurement begins, and what comes of it.
use crate::asking::{AskResult, ProviderClient};
use crate::look::{Due, Looked};
use crate::plan::{MetricSource, PlannedMetric, Served};
use crate::query::ProviderQuery;
use crate::taken::failed;
use crate::taking::{Taking, limit_of};
use canary_base::numbers::Number;
use canary_client::outcome::Stop;

/// How a measurement begins.
#[derive(Drop)]
pub(crate) enum Begun {
    /// The plan does not have its metric.
    Unknown,
    /// Nobody measures it.
    Nowhere,
    /// Another program gives it, within so many milliseconds.
    Awaited(u64),
    /// This machine cannot ask its provider now.
    Hindered,
    /// A provider is asked, for so many milliseconds at most.
    Asked(AskResult, u64),
}

/// The time after which the first of a run's measurements that are due ends.
pub(crate) fn shortest_limit(served: &Served, looked: &Looked, run: Number) -> u64 {
    let mut shortest = u64::MAX;
    for due in &looked.due {
        if due.run == run
            && let Some(metric) = served.metric(&due.metric)
        {
            shortest = shortest.min(limit_for(metric));
        }
    }
    shortest
}

// The milliseconds that a measurement may take, by its metric and what its provider's query says.
fn limit_for(metric: &PlannedMetric) -> u64 {
    match &metric.source {
        MetricSource::Provider(query) => limit_of(metric, query.seconds),
        _ => limit_of(metric, None),
    }
}

/// Begins a measurement: asks its provider, if it has one.
pub(crate) fn start(
    rt: &HostRuntime,
    asking: &mut ProviderClient,
    served: &Served,
    looked: &Looked,
    due: &Due,
    now: u64,
) -> Result<Begun, Stop> {
    let Some(metric) = served.metric(&due.metric) else {
        return Ok(Begun::Unknown);
    };
    let limit = limit_for(metric);
    match &metric.source {
        MetricSource::Provider(query) => {
            match ask(rt, asking, query, looked, limit, now)? {
                Some(asked) => Ok(Begun::Asked(asked, limit)),
                None => Ok(Begun::Hindered),
            }
        }
        MetricSource::Lines => Ok(Begun::Awaited(limit)),
        MetricSource::Nowhere => Ok(Begun::Nowhere),
    }
}

// Asks a provider, with the versions of the service that were found. None if this machine cannot.
fn ask(
    rt: &HostRuntime,
    asking: &mut ProviderClient,
    query: &ProviderQuery,
    looked: &Looked,
    limit: u64,
    now: u64,
) -> Result<Option<AskResult>, Stop> {
    match query.provider(rt.alloc(), looked.latest.as_str(), looked.stable.as_str())? {
        Ok(provider) => asking.ask(rt, provider, limit, now),
        Err(refusal) => Ok(Some(AskResult::Failed(failed(rt.alloc(), refusal.text())?))),
    }
}

/// A measurement that begins now, of which nothing came yet.
pub(crate) fn taking_of(
    looked: &Looked,
    due: &Due,
    now: u64,
    limit: u64,
    report_at: u64,
) -> Taking {
    Taking {
        run: due.run,
        metric: due.metric,
        ordinal: due.ordinal,
        moment: looked.moment,
        message: None,
        report_at,
        began_at: now,
        ends_at: now.saturating_add(limit),
        came: None,
    }
}

/// The same, once its provider was asked.
pub(crate) fn with_asked(taking: Taking, asked: AskResult) -> Taking {
    let mut taking = taking;
    match asked {
        AskResult::Message(message) => taking.message = Some(message),
        AskResult::Failed(came) => taking.came = Some(came),
    }
    taking
}
