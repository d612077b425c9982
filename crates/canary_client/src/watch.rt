//! `watch`: a service, a line each time that it stands otherwise.
use crate::clock::Deadline;
use crate::endpoint::{endpoint_of, service_of, waiting};
use crate::outcome::{ClientExit, Stop, say, show, tell};
use crate::plain::{json_of, line_of};
use crate::query::value_at;
use crate::standing::{Hold, Standing, StandingReason, is_of_step, is_word, last_line, parts_of};
use crate::tcp::Tcp;
use canary_base::lists::Text;
use canary_base::moments::Moment;
use canary_cli_words::words::AskedDesk;
use canary_client_journal::network::Network;
use serde_json::{Map, Value};
use std::alloc::{AllocError, Global};
use std::io::Write;

// What a call waits for, if no word says so.
const UNTIL: &str = "Healthy,Degraded";

/// How a service is watched.
#[derive(Debug, Drop)]
pub struct WatchOptions {
    /// The words at which the call ends, separated by commas; none for those by default.
    pub until: Option<Text>,
    /// Whether each line is a JSON value.
    pub is_json: bool,
    /// Whether the call goes on without end, also while no desk answers.
    pub is_forever: bool,
}

/// Shows how a service stands and why, a line each time that it stands otherwise, until it stands
/// as a word of `until` says: `Done`, or `Refused` if it is Degraded, or `Held` if that is the
/// word. A call without end goes on through ends and starts of releases, and while no desk answers
/// or has no such service.
pub fn watch<W: Write, F: Write>(
    rt: &HostRuntime,
    desk: &AskedDesk,
    service: &Text,
    manner: &WatchOptions,
    output: &mut W,
    errors: &mut F,
) -> ClientExit {
    match try_watch(rt, desk, service, manner, output, errors) {
        Ok(outcome) => outcome,
        Err(stop) => tell(stop, errors),
    }
}

// Checks the words, and looks at the service until the call ends.
fn try_watch<W: Write, F: Write>(
    rt: &HostRuntime,
    desk: &AskedDesk,
    service: &Text,
    manner: &WatchOptions,
    output: &mut W,
    errors: &mut F,
) -> Result<ClientExit, Stop> {
    let until = until_of(manner)?;
    let place = waiting(endpoint_of(rt, desk)?);
    let service = service_of(service)?;
    let service = service.as_str();
    let path = format!(in rt.alloc(); "/services/{service}")?;
    let call = Deadline::of_call(rt, place.wait_seconds)?;
    let looking = Looking {
        network: Tcp::within(rt, &place, call),
        path,
        tries: place.tries,
        seen: LastShown::nothing(rt.alloc(), manner.is_json),
        told: None,
    };
    match look_until(rt, looking, until, manner.is_forever, call, output, errors) {
        Ok(outcome) => Ok(outcome),
        Err(stop) => Err(call.stop(rt, stop)),
    }
}

// Looks at a service once a second, until it stands as a word says or the call is over.
fn look_until<W: Write, F: Write>(
    rt: &HostRuntime,
    looking: Looking<'_>,
    until: &str,
    is_forever: bool,
    call: Deadline,
    output: &mut W,
    errors: &mut F,
) -> Result<ClientExit, Stop> {
    let mut looking = looking;
    for _ in 0..u64::MAX {
        let looked = looking.look(rt.alloc(), output);
        let found = looking.went_on(looked, is_forever, errors)?;
        if let Some(outcome) = ended_by(found, until, is_forever) {
            return Ok(outcome);
        }
        call.go_on(rt)?;
    }
    Err(Stop::TimeOut)
}

// A service that is looked at: the way to its desk, its path there, and what was seen of it.
#[derive(Drop)]
struct Looking<'a> {
    network: Tcp<'a>,
    path: String,
    tries: u32,
    seen: LastShown,
    // Why the last look failed, as it was said.
    told: Option<Stop>,
}

impl Looking<'_> {
    // Looks at the service once, and shows its line if that is new; none if it changed meanwhile.
    fn look<W: Write>(&mut self, alloc: Global, output: &mut W) -> Result<Option<Standing>, Stop> {
        let path = self.path.as_str();
        self.seen
            .look(alloc, &mut self.network, path, self.tries, output)
    }

    // What was found, or nothing if a call without end goes on although no desk answered, it has no
    // such service, or its reply cannot be read; `errors` has the sentence that says so, once until
    // a look succeeds or fails otherwise.
    fn went_on<F: Write>(
        &mut self,
        looked: Result<Option<Standing>, Stop>,
        is_forever: bool,
        errors: &mut F,
    ) -> Result<Option<Standing>, Stop> {
        match looked {
            Err(stop) if is_forever && is_passing(stop) => {
                self.tell(stop, errors);
                Ok(None)
            }
            _ => {
                self.told = None;
                looked
            }
        }
    }

    // Says why a look failed, unless that was said of the one before.
    fn tell<F: Write>(&mut self, stop: Stop, errors: &mut F) {
        if self.told != Some(stop) {
            say(errors, stop.sentence());
            self.told = Some(stop);
        }
    }
}

// The words at which a call ends.
fn until_of(manner: &WatchOptions) -> Result<&str, Stop> {
    match &manner.until {
        Some(_) if manner.is_forever => Err(Stop::ForeverUntil),
        Some(until) if until.as_str().split(',').all(is_word) => Ok(until.as_str()),
        Some(_) => Err(Stop::Status),
        None => Ok(UNTIL),
    }
}

// Whether a call without end goes on after a look that failed so.
fn is_passing(stop: Stop) -> bool {
    match stop {
        Stop::NoDesk | Stop::NoService | Stop::Query | Stop::ReplyUnread => true,
        _ => false,
    }
}

// How the call ends if the service stands as one of these words says; a call without end never
// does.
fn ended_by(found: Option<Standing>, until: &str, is_forever: bool) -> Option<ClientExit> {
    let standing = found.filter(|_| !is_forever)?;
    let mut ended = None;
    for word in until.split(',') {
        if standing.meets(word) && ended != Some(ClientExit::Held) {
            ended = Some(standing.ended_at(word));
        }
    }
    ended
}

// What was shown last, and how the service stood then.
#[derive(Drop)]
struct LastShown {
    is_json: bool,
    key: String,
    standing: Option<Standing>,
}

impl LastShown {
    // Nothing was seen yet, so the first look shows a line.
    fn nothing(alloc: Global, is_json: bool) -> LastShown {
        LastShown {
            is_json,
            key: String::new(alloc),
            standing: None,
        }
    }

    // Asks how a service stands, and shows its line if that is otherwise than the last time. None
    // if it changed between two queries.
    fn look<N: Network, W: Write>(
        &mut self,
        alloc: Global,
        network: &mut N,
        path: &str,
        tries: u32,
        output: &mut W,
    ) -> Result<Option<Standing>, Stop> {
        let mut service = value_at(alloc, network, path, tries)?;
        let key = key_of(alloc, &service)?;
        if key.as_str() == self.key.as_str() {
            return Ok(self.standing);
        }
        let shown = show_new(
            alloc,
            network,
            path,
            tries,
            &mut service,
            self.is_json,
            output,
        )?;
        if shown.is_some() {
            self.key = key;
            self.standing = shown;
        }
        Ok(shown)
    }
}

// Shows the line of a service that stands otherwise than before; none if it changed meanwhile.
fn show_new<N: Network, W: Write>(
    alloc: Global,
    network: &mut N,
    path: &str,
    tries: u32,
    service: &mut Value,
    is_json: bool,
    output: &mut W,
) -> Result<Option<Standing>, Stop> {
    let Some(standing) = standing_of(alloc, network, path, tries, service)? else {
        return Ok(None);
    };
    if is_json {
        add_why(alloc, service, &standing)?;
        show(output, json_line(alloc, service)?.as_str())?;
    } else {
        show(output, text_of(alloc, service, &standing)?.as_str())?;
    }
    Ok(Some(standing))
}

// What distinguishes how a service stands from how it stood: all but the moment.
fn key_of(alloc: Global, service: &Value) -> Result<String, Stop> {
    let line = plain(alloc, service)?;
    let hold = service.get("hold").and_then(Value::as_str).unwrap_or("");
    let stable = service.get("stable").and_then(Value::as_str).unwrap_or("");
    let runs = service.get("runs").and_then(Value::as_u64).unwrap_or(0);
    let line = line.as_str();
    Ok(format!(in alloc; "{line} {hold} {stable} {runs}")?)
}

// The plain line of a service's reply.
fn plain(alloc: Global, service: &Value) -> Result<String, Stop> {
    let text = service.to_string(alloc)?;
    match line_of(alloc, text.as_str())? {
        Some(line) => Ok(line),
        None => Err(Stop::ReplyUnread),
    }
}

// How a service stands; none if the history says that it stands at another step by now. Only what
// is not held asks for the history.
fn standing_of<N: Network>(
    alloc: Global,
    network: &mut N,
    path: &str,
    tries: u32,
    service: &Value,
) -> Result<Option<Standing>, Stop> {
    let (status, step, hold) = parts_of(service)?;
    let mut last = None;
    if hold == Hold::None {
        let path = format!(in alloc; "{path}/history")?;
        last = last_line(&value_at(alloc, network, path.as_str(), tries)?)?;
    }
    if let Some(line) = &last
        && !is_of_step(line, step)
    {
        return Ok(None);
    }
    let why = StandingReason::of(hold, last);
    Ok(Some(Standing { status, step, why }))
}

// The line of a service for people, which ends with why it stands so.
fn text_of(alloc: Global, service: &Value, standing: &Standing) -> Result<String, Stop> {
    let moment = service.get("moment").and_then(Value::as_u64).unwrap_or(0);
    let mut line = plain(alloc, service)?;
    line.push_str(standing.words(alloc, moment)?.as_str())?;
    Ok(line)
}

// Adds to a desk's reply why the service stands so, the run of its analysis or of its abort, and
// when its pause ends, in seconds since 1970-01-01T00:00:00Z.
fn add_why(alloc: Global, service: &mut Value, standing: &Standing) -> Result<(), Stop> {
    let (word, run, until) = members_of(standing.why);
    let Some(members) = service.as_object_mut() else {
        return Err(Stop::ReplyUnread);
    };
    put(alloc, members, "why", Value::try_from_str(alloc, word)?)?;
    put(alloc, members, "run", number_or_null(run))?;
    put(alloc, members, "until", number_or_null(until))?;
    Ok(())
}

// A value of JSON as one line, with its marks escaped.
fn json_line(alloc: Global, value: &Value) -> Result<String, Stop> {
    let text = value.to_string(alloc)?;
    Ok(json_of(alloc, text.as_str())?)
}

// Puts a member into an object.
fn put(
    alloc: Global,
    members: &mut Map<String, Value>,
    name: &str,
    value: Value,
) -> Result<(), AllocError> {
    match members.insert(String::from_str(alloc, name)?, value) {
        Ok(_) => Ok(()),
        Err(refused) => Err(AllocError::from(refused)),
    }
}

// The number in JSON, or null without one.
fn number_or_null(number: Option<u64>) -> Value {
    match number {
        Some(number) => Value::from(number),
        None => Value::Null,
    }
}

// The seconds of a moment; none after the last one, as of a pause that does not end.
fn moment_at(seconds: u64) -> Option<u64> {
    Some(Moment::new(seconds)?.get())
}

// Why, as the members of a JSON value: a word, a run, and when a pause ends.
fn members_of(why: StandingReason) -> (&'static str, Option<u64>, Option<u64>) {
    match why {
        StandingReason::Plain => ("plain", None, None),
        StandingReason::Held(_) => ("held", None, None),
        StandingReason::Waiting => ("waiting", None, None),
        StandingReason::Pause { seconds: _, until } => ("pause", None, moment_at(until)),
        StandingReason::Analysis { run } => ("analysis", Some(run as u64), None),
        StandingReason::Aborted => ("aborted", None, None),
        StandingReason::AbortedBy { run } => ("aborted", Some(run as u64), None),
    }
}
