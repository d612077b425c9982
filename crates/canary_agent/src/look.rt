//! What a desk waits for of a service.
ghost use Rattle.canary_client_journal.specs.Networks.{GoesOn};
ghost use Rattle.canary_client.specs.Promises.{IsQuery};

use canary_base::moments::Moment;
use canary_base::names::{Label, Name};
use canary_base::numbers::Number;
use canary_client::outcome::Stop;
use canary_client::query::value_at;
use canary_client_journal::network::Network;
use serde_json::Value;
use std::alloc::Global;

/// A measurement that is due.
#[derive(Clone, Copy)]
pub struct Due {
    /// The run.
    pub run: Number,
    /// The metric, by its label.
    pub metric: Label,
    /// Which measurement of it in the run it is, from 1.
    pub ordinal: Number,
    /// Since when it is due, in seconds since 1970-01-01T00:00:00Z.
    pub since: u64,
}

/// What a look at a service found.
#[derive(Drop)]
pub struct Looked {
    /// The desk's moment.
    pub moment: Moment,
    /// The version of the last attempt, and the stable one.
    pub latest: Label,
    pub stable: Label,
    /// Whether a run is open.
    pub is_open: bool,
    /// The measurements that are due.
    pub due: Vec<Due>,
    /// When the next one is due that is not yet, in seconds since 1970-01-01T00:00:00Z.
    pub next: Option<u64>,
}

/// Looks at a service: asks for it, and for each of its open runs.
///
/// # Errors
/// `NoService` if there is none; `NoDesk` if the desk did not answer; `Query` if it refused a
/// query; `ReplyUnread` if its reply cannot be read; `Memory`.
pub fn look<N: Network>(
    alloc: Global,
    network: &mut N,
    service: Name,
    tries: u32,
) -> Result<Looked, Stop>
    ensures { GoesOn N.was_sent N.was_told N.was_unanswered network.old network.new IsQuery }
{
    let name = service.as_str();
    let path = format!(in alloc; "/services/{name}")?;
    let value = value_at(alloc, network, path.as_str(), tries)?;
    let runs = runs_of(alloc, &value)?;
    let looked = Looked {
        moment: moment_of(&value)?,
        latest: version_of(&value, "version")?,
        stable: version_of(&value, "stable")?,
        is_open: !runs.is_empty(),
        due: Vec::new(alloc),
        next: None,
    };
    look_at_runs(alloc, network, service, looked, runs.as_slice(), tries)
}

// The desk's moment in a service's reply; `ReplyUnread` if it is missing or invalid.
fn moment_of(service: &Value) -> Result<Moment, Stop> {
    match service.get("moment").and_then(Value::as_u64) {
        Some(seconds) => Moment::new(seconds).ok_or(Stop::ReplyUnread),
        None => Err(Stop::ReplyUnread),
    }
}

// The version in this member of a service's reply; `ReplyUnread` if it is missing or invalid.
fn version_of(service: &Value, member: &str) -> Result<Label, Stop> {
    match service.get(member).and_then(Value::as_str) {
        Some(version) => Label::read(version.as_bytes()).ok_or(Stop::ReplyUnread),
        None => Err(Stop::ReplyUnread),
    }
}

// The open runs; `ReplyUnread` if they are missing or invalid.
fn runs_of(alloc: Global, service: &Value) -> Result<Vec<Number>, Stop> {
    let Some(open) = service.get("open").and_then(Value::as_array) else {
        return Err(Stop::ReplyUnread);
    };
    let mut runs = Vec::new(alloc);
    for run in open.iter() {
        match run.as_u64().and_then(number_of) {
            Some(run) => runs.push(run)?,
            None => return Err(Stop::ReplyUnread),
        }
    }
    Ok(runs)
}

// The number as a `Number`, or none outside 1 to 1,000,000,000.
fn number_of(number: u64) -> Option<Number> {
    Number::new(u32::try_from(number).ok()?)
}

// Asks for each of these runs, and adds to the look what is due there.
#[tactic(auto, using(crate::proofs::LookLemmas::queries_on))]
fn look_at_runs<N: Network>(
    alloc: Global,
    network: &mut N,
    service: Name,
    looked: Looked,
    runs: &[Number],
    tries: u32,
) -> Result<Looked, Stop>
    ensures { GoesOn N.was_sent N.was_told N.was_unanswered network.old network.new IsQuery }
{
    let mut looked = looked;
    for run in runs {
        let value = run_at(alloc, network, service, *run, tries)?;
        looked.add_run(*run, &value)?;
    }
    Ok(looked)
}

// Asks for a run of the service, and returns the reply's JSON.
fn run_at<N: Network>(
    alloc: Global,
    network: &mut N,
    service: Name,
    run: Number,
    tries: u32,
) -> Result<Value, Stop>
    ensures { GoesOn N.was_sent N.was_told N.was_unanswered network.old network.new IsQuery }
{
    let (name, run) = (service.as_str(), run.get());
    let path = format!(in alloc; "/services/{name}/runs/{run}")?;
    value_at(alloc, network, path.as_str(), tries)
}

impl Looked {
    // Adds what is due of a run, and when more is.
    fn add_run(&mut self, run: Number, value: &Value) -> Result<(), Stop> {
        let Some(metrics) = value.get("metrics").and_then(Value::as_array) else {
            return Err(Stop::ReplyUnread);
        };
        for metric in metrics.iter() {
            self.add_metric(run, metric)?;
        }
        Ok(())
    }

    // Adds a metric's measurement that is due at the desk's moment; a later one counts for `next`.
    fn add_metric(&mut self, run: Number, metric: &Value) -> Result<(), Stop> {
        let Some(since) = since_of(metric)? else {
            return Ok(());
        };
        if since > self.moment.get() {
            self.next = Some(self.next.unwrap_or(since).min(since));
            return Ok(());
        }
        match due_of(run, metric, since) {
            Some(due) => Ok(self.due.push(due)?),
            None => Err(Stop::ReplyUnread),
        }
    }
}

// Since when a metric's next measurement is due; none if the desk waits for none. `ReplyUnread` if
// the reply does not say so.
fn since_of(metric: &Value) -> Result<Option<u64>, Stop> {
    let due = metric.get("due");
    if matches!(due, Some(Value::Null)) {
        return Ok(None);
    }
    match due.and_then(Value::as_u64) {
        Some(since) => Ok(Some(since)),
        None => Err(Stop::ReplyUnread),
    }
}

// The next measurement of a metric.
fn due_of(run: Number, metric: &Value, since: u64) -> Option<Due> {
    let name = metric.get("name").and_then(Value::as_str)?;
    let count = metric.get("measurements").and_then(Value::as_u64)?;
    Some(Due {
        run,
        metric: Label::read(name.as_bytes())?,
        ordinal: number_of(count.saturating_add(1))?,
        since,
    })
}
