//! `due`: the measurements that services wait for.
use crate::clock::Deadline;
use crate::endpoint::{endpoint_of, service_of, waiting};
use crate::outcome::{ClientExit, Stop, say, show, tell};
use crate::query::value_at;
use crate::tcp::Tcp;
use canary_base::lists::{Listed, Text};
use canary_base::moments::Moment;
use canary_base::names::Name;
use canary_cli_words::words::AskedDesk;
use canary_client_journal::network::Network;
use canary_decimal::shown::Shown;
use canary_shown::text::{TextKind, shown};
use serde_json::Value;
use std::alloc::Global;
use std::io::Write;

/// Which measurements are shown.
#[derive(Clone, Copy, Debug, PartialEq, Eq)]
pub struct Sought {
    /// Whether the call waits until there is one.
    pub waits: bool,
    /// If it is given: those that have been due for more than so many seconds.
    pub late: Option<u64>,
}

/// Shows a line `RUN METRIC ORDINAL` for each measurement of the services that is due. METRIC is
/// the metric's label, or on a terminal its name as people read it. With more than one service the
/// line begins with the service; of late ones it does too, and ends with the moment since which the
/// measurement is due. If there is none, a call that waits goes on until there is one or no run is
/// open, and else it ends with `Refused`. If the desk has no such service, `errors` names it once,
/// and the call goes on with the next one.
pub fn due<W: Write, F: Write>(
    rt: &HostRuntime,
    desk: &AskedDesk,
    services: &Listed<Text>,
    sought: Sought,
    output: &mut W,
    errors: &mut F,
    is_terminal: bool,
) -> ClientExit {
    match try_due(rt, desk, services, sought, output, errors, is_terminal) {
        Ok(outcome) => outcome,
        Err(stop) => tell(stop, errors),
    }
}

// Checks the words, and looks once, or over and over if the call waits.
fn try_due<W: Write, F: Write>(
    rt: &HostRuntime,
    desk: &AskedDesk,
    services: &Listed<Text>,
    sought: Sought,
    output: &mut W,
    errors: &mut F,
    is_terminal: bool,
) -> Result<ClientExit, Stop> {
    are_services(services.as_slice())?;
    let place = endpoint_of(rt, desk)?;
    let look = DueScan {
        alloc: rt.alloc(),
        tries: place.tries,
        late: sought.late,
        is_named: sought.late.is_some() || services.as_slice().len() > 1,
        is_terminal,
        is_first: true,
    };
    if !sought.waits {
        let mut network = Tcp::new(rt, &place);
        let found = look.at_services(&mut network, services.as_slice(), output, errors)?;
        return Ok(outcome_of(found));
    }
    let place = waiting(place);
    let call = Deadline::of_call(rt, place.wait_seconds)?;
    let network = Tcp::within(rt, &place, call);
    match look_until(rt, network, look, services.as_slice(), call, output, errors) {
        Ok(outcome) => Ok(outcome),
        Err(stop) => Err(call.stop(rt, stop)),
    }
}

// Looks at services once a second, until something is due, no run is open or the call is over.
fn look_until<W: Write, F: Write>(
    rt: &HostRuntime,
    network: Tcp<'_>,
    look: DueScan,
    words: &[Text],
    call: Deadline,
    output: &mut W,
    errors: &mut F,
) -> Result<ClientExit, Stop> {
    let (mut network, mut look) = (network, look);
    for _ in 0..u64::MAX {
        match look.at_services(&mut network, words, output, errors)? {
            DueState::NothingDue => call.go_on(rt)?,
            found => return Ok(outcome_of(found)),
        }
        look.is_first = false;
    }
    Err(Stop::TimeOut)
}

// Fails if a word is an invalid name: all are checked before anything is asked.
fn are_services(words: &[Text]) -> Result<(), Stop> {
    for word in words {
        service_of(word)?;
    }
    Ok(())
}

// What a look at services found.
#[derive(Clone, Copy, Debug, PartialEq, Eq)]
enum DueState {
    // No run is open.
    NoRun,
    // No measurement of the open runs is due.
    NothingDue,
    // Some are, and their lines were shown.
    Due,
}

impl DueState {
    // With what was found besides.
    fn with(self, other: DueState) -> DueState {
        match (self, other) {
            (DueState::Due, _) | (_, DueState::Due) => DueState::Due,
            (DueState::NoRun, DueState::NoRun) => DueState::NoRun,
            _ => DueState::NothingDue,
        }
    }
}

// How a call ends that found this.
fn outcome_of(found: DueState) -> ClientExit {
    match found {
        DueState::Due => ClientExit::Done,
        _ => ClientExit::Refused,
    }
}

// How a desk is looked at.
#[derive(Clone, Copy)]
struct DueScan {
    alloc: Global,
    tries: u32,
    late: Option<u64>,
    is_named: bool,
    is_terminal: bool,
    // Whether this look is the first one of the call.
    is_first: bool,
}

impl DueScan {
    // Shows what is sought of these services. If there are several, a missing one is only reported.
    fn at_services<N: Network, W: Write, F: Write>(
        &self,
        network: &mut N,
        words: &[Text],
        output: &mut W,
        errors: &mut F,
    ) -> Result<DueState, Stop> {
        let mut found = DueState::NoRun;
        for word in words {
            match self.at_service(network, service_of(word)?, output) {
                Ok(more) => found = found.with(more),
                Err(Stop::NoService) if words.len() > 1 => self.missing(word, errors)?,
                Err(stop) => return Err(stop),
            }
        }
        Ok(found)
    }

    // Says that the desk has no service of this name, unless an earlier look said so.
    fn missing<F: Write>(&self, word: &Text, errors: &mut F) -> Result<(), Stop> {
        if self.is_first {
            let word = word.as_str();
            let sentence = format!(in self.alloc; "there is no such service: {word}")?;
            say(errors, sentence.as_str());
        }
        Ok(())
    }

    // Shows what is sought of a service's open runs; `ReplyUnread` if the reply is no service's.
    fn at_service<N: Network, W: Write>(
        &self,
        network: &mut N,
        service: Name,
        output: &mut W,
    ) -> Result<DueState, Stop> {
        let name = service.as_str();
        let value = self.asked(network, format!(in self.alloc; "/services/{name}")?)?;
        self.at_runs(network, service, &value, output)
    }

    // The value of the reply to a query of this path.
    fn asked<N: Network>(&self, network: &mut N, path: String) -> Result<Value, Stop> {
        value_at(self.alloc, network, path.as_str(), self.tries)
    }

    // The same, of the runs that are open in the reply to a query of the service.
    fn at_runs<N: Network, W: Write>(
        &self,
        network: &mut N,
        service: Name,
        value: &Value,
        output: &mut W,
    ) -> Result<DueState, Stop> {
        let moment = value.get("moment").and_then(Value::as_u64);
        let open = value.get("open").and_then(Value::as_array);
        let (Some(moment), Some(open)) = (moment, open) else {
            return Err(Stop::ReplyUnread);
        };
        let mut found = DueState::NoRun;
        for run in open.iter() {
            let Some(run) = run.as_u64() else {
                return Err(Stop::ReplyUnread);
            };
            found = found.with(self.at_run(network, service, run, moment, output)?);
        }
        Ok(found)
    }

    // Shows a line for each measurement of a run that is sought.
    fn at_run<N: Network, W: Write>(
        &self,
        network: &mut N,
        service: Name,
        run: u64,
        moment: u64,
        output: &mut W,
    ) -> Result<DueState, Stop> {
        let name = service.as_str();
        let value = self.asked(
            network,
            format!(in self.alloc; "/services/{name}/runs/{run}")?,
        )?;
        self.show_run(service, run, &value, moment, output)
    }

    // The same, of the reply to a query of the run; `ReplyUnread` if it is no run's.
    fn show_run<W: Write>(
        &self,
        service: Name,
        run: u64,
        value: &Value,
        moment: u64,
        output: &mut W,
    ) -> Result<DueState, Stop> {
        let Some(metrics) = value.get("metrics").and_then(Value::as_array) else {
            return Err(Stop::ReplyUnread);
        };
        let mut found = DueState::NothingDue;
        for metric in metrics.iter() {
            let next = next_of(metric)?;
            if let Some(measurement) = next
                && measurement.is_sought(moment, self.late)
            {
                show(output, self.line(service, run, &measurement)?.as_str())?;
                found = DueState::Due;
            }
        }
        Ok(found)
    }

    // The name of a metric: its label, or on a terminal what people read in place of that.
    fn name_of<'a>(&self, label: &'a str) -> &'a str {
        if self.is_terminal {
            Shown::or_whole(label).name
        } else {
            label
        }
    }

    // The line of a measurement: with its service if `is_named`, and since when if `late` is given.
    fn line(&self, service: Name, run: u64, due: &NextMeasurement<'_>) -> Result<String, Stop> {
        let mut line = String::new(self.alloc);
        self.put_line(&mut line, service, run, due)?;
        Ok(line)
    }

    // Appends that line.
    fn put_line(
        &self,
        line: &mut String,
        service: Name,
        run: u64,
        due: &NextMeasurement<'_>,
    ) -> Result<(), Stop> {
        if self.is_named {
            line.push_str(service.as_str())?;
            line.push(' ')?;
        }
        self.put_measurement(line, run, due)?;
        if self.late.is_some() {
            line.push(' ')?;
            put_moment(line, due.since)?;
        }
        Ok(())
    }

    // Appends which measurement is due.
    fn put_measurement(
        &self,
        line: &mut String,
        run: u64,
        due: &NextMeasurement<'_>,
    ) -> Result<(), Stop> {
        let metric = shown(self.alloc, self.name_of(due.metric), TextKind::Line)?;
        let (metric, ordinal) = (metric.as_str(), due.ordinal);
        write!(line, "{run} {metric} {ordinal}")?;
        Ok(())
    }
}

// The next measurement of a metric, and since when it is due.
#[derive(Clone, Copy)]
struct NextMeasurement<'a> {
    metric: &'a str,
    ordinal: u64,
    since: u64,
}

impl NextMeasurement<'_> {
    // Whether it is due at this moment; or, if `late` is given, has been for more than so many
    // seconds.
    fn is_sought(&self, moment: u64, late: Option<u64>) -> bool {
        match late {
            Some(late) => moment.saturating_sub(self.since) > late,
            None => moment >= self.since,
        }
    }
}

// The next measurement of a metric; none if the desk waits for none. `ReplyUnread` if the reply
// does not say so.
fn next_of(metric: &Value) -> Result<Option<NextMeasurement<'_>>, Stop> {
    if matches!(metric.get("due"), Some(Value::Null)) {
        return Ok(None);
    }
    match parts_of(metric) {
        Some(next) => Ok(Some(next)),
        None => Err(Stop::ReplyUnread),
    }
}

// The members of a metric that say which measurement is the next one; none if one is missing.
fn parts_of(metric: &Value) -> Option<NextMeasurement<'_>> {
    let since = metric.get("due").and_then(Value::as_u64)?;
    let name = metric.get("name").and_then(Value::as_str)?;
    let count = metric.get("measurements").and_then(Value::as_u64)?;
    Some(NextMeasurement {
        metric: name,
        ordinal: count.saturating_add(1),
        since,
    })
}

// Appends a moment in UTC, as RFC 3339 writes it; past the last one, its seconds.
fn put_moment(line: &mut String, seconds: u64) -> Result<(), Stop> {
    match Moment::new(seconds) {
        Some(moment) => moment.text(line)?,
        None => write!(line, "{seconds}")?,
    }
    Ok(())
}
