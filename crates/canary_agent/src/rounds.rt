//! Rounds over services: each has its turn when its time has come.
ghost use Rattle.std.specs.Prelude.{IsTrue};
ghost use Rattle.canary_client_journal.specs.Networks.{GoesOn};
ghost use Rattle.canary_client.specs.Promises.{IsQuery};

use crate::asking::ProviderClient;
use crate::attended::Attended;
use crate::ended::{AgentStop, worse};
use crate::files::Files;
use crate::health::touch;
use crate::hindrances::Hindrances;
use crate::options::AgentOptions;
use crate::plan::{Plan, Served};
use crate::planning::plan_in;
use crate::reader::{LineReader, ReadLine};
use crate::values::{Said, UnreportedValues, measured_in};
use crate::watch::Watch;
use canary_base::error::Memory;
use canary_base::lists::{Listed, Text};
use canary_base::names::{Label, Name};
use canary_client::outcome::{ClientExit, Stop, say, say_of};
use canary_client_journal::network::Network;
use canary_fetch::fetcher::FetchFault;
use canary_fetch::local::LocalFault;
use canary_shown::text::{TextKind, shown};
use std::alloc::Global;
use std::io::{Read, Write};
use std::{mem, str};

// The longest wait of a round, and the time between two looks at the files, in milliseconds.
const LONGEST: u64 = 1_000;

// The most lines of another program that are read in a round.
const MAX_LINES: u32 = 1_000;

// The most bytes that are shown of an invalid line.
const MAX_SHOWN: usize = 200;

const HINDERED: &str =
    "this machine cannot ask a provider, which is tried again, and nothing is reported of it";

const UNCONNECTED: &str = "this machine cannot connect to the desk";

const UNTOUCHED: &str = "the file of --health cannot be touched";

const STRANGE: &str = "the file is no regular one any more, and is not read again";

const USED_AGAIN: &str = "nothing is found in the files any more: they are used as they are now";

const ENDED: &str = "the program that gives values has ended: no more come";

const UNREADABLE: &str = "standard input, or the file of --values, cannot be read now";

const GONE: &str = "not measured any more: no file has a Rollout of this name";

const NO_CALLER: &str = "not measured: its caller's name would have more than 63 bytes";

const LONG_LINE: &str = "a line of --values has more than 4,096 bytes, and is left out";

const NO_LINE: &str = "a line of --values is no SERVICE METRIC VALUE of these files";

/// What a call goes round with.
#[derive(Drop)]
pub(crate) struct Rounds {
    list: Vec<Attended>,
    asking: ProviderClient,
    files: Files,
    // Whether these files are not used, since something is found in them.
    is_unused: bool,
    // When the files are looked at next, in milliseconds of the call.
    files_at: u64,
    reader: Option<LineReader>,
    values: UnreportedValues,
    // When the watchdog's file is touched next, and whether it could not be.
    touch_at: u64,
    is_untouched: bool,
    hindrances: Hindrances,
    // The same of the way to the desk.
    desk_hindrances: Hindrances,
    watch: Watch,
    outcome: ClientExit,
}

/// What the words of a call name, with what its callers' names begin with.
#[derive(Clone, Copy)]
pub(crate) struct AgentInputs<'a> {
    pub(crate) files: &'a Listed<Text>,
    pub(crate) health: &'a Option<Text>,
    pub(crate) prefix: &'a str,
}

impl Rounds {
    /// The services of these files, of which none was looked at.
    ///
    /// # Errors
    /// `Manifests` if the files are not translated, and `errors` says why; `NoService` if there is
    /// none; `Connections`, `Clock`; `Memory`.
    pub(crate) fn new<F: Write>(
        rt: &HostRuntime,
        named: &AgentInputs<'_>,
        reader: Option<LineReader>,
        errors: &mut F,
    ) -> Result<Rounds, AgentStop> {
        let alloc = rt.alloc();
        let files = Files::look(rt, named.files.as_slice())?;
        let Some(plan) = plan_in(rt, &files, reader.is_some(), errors)? else {
            return Err(AgentStop::Manifests);
        };
        let mut rounds = Rounds {
            list: Vec::new(alloc),
            asking: asking(rt)?,
            files,
            is_unused: false,
            files_at: LONGEST,
            reader,
            values: UnreportedValues::new(alloc),
            touch_at: 0,
            is_untouched: false,
            hindrances: Hindrances::new(alloc),
            desk_hindrances: Hindrances::new(alloc),
            watch: Watch::new(rt)?,
            outcome: ClientExit::Done,
        };
        rounds.serve(alloc, named.prefix, plan, errors)?;
        if rounds.list.is_empty() {
            return Err(AgentStop::NoService);
        }
        Ok(rounds)
    }

    // Attends the services of a plan from now on. One that was attended goes on; of one that the
    // plan does not have any more, a line says so.
    fn serve<F: Write>(
        &mut self,
        alloc: Global,
        prefix: &str,
        plan: Plan,
        errors: &mut F,
    ) -> Result<(), Memory> {
        let before = mem::replace(&mut self.list, Vec::new(alloc));
        let mut before = Known { list: before };
        let Plan { services } = plan;
        for served in services {
            match before.take(alloc, served.name)? {
                Some(attended) => self.list.push(serving(attended, served))?,
                None => self.add(alloc, prefix, served, errors)?,
            }
        }
        before.tell_gone(alloc, errors)
    }

    // Attends one service more. If its caller's name would be too long, says so and leaves it out.
    fn add<F: Write>(
        &mut self,
        alloc: Global,
        prefix: &str,
        served: Served,
        errors: &mut F,
    ) -> Result<(), Memory> {
        match caller_of(alloc, prefix, served.name)? {
            Some(caller) => self.list.push(Attended::new(alloc, served, caller))?,
            None => {
                let service = served.name;
                self.outcome = ClientExit::Words;
                say(
                    errors,
                    format!(in alloc; "{service}: {NO_CALLER}")?.as_str(),
                );
            }
        }
        Ok(())
    }

    /// Goes round once: whoever's time has come is looked at, what came is reported, and then it is
    /// waited until more is to be done. If each service is looked at once and all is done, it
    /// answers how the call ends.
    ///
    /// # Errors
    /// `Output` if the output failed; `Connections`, `Clock`; `Memory`.
    pub(crate) fn go<N: Network, R: Read, W: Write, F: Write>(
        &mut self,
        rt: &HostRuntime,
        network: &mut N,
        named: &AgentInputs<'_>,
        manner: &AgentOptions<'_>,
        input: &mut R,
        output: &mut W,
        errors: &mut F,
    ) -> Result<Option<ClientExit>, AgentStop>
        ensures dry { IsTrue manner.now.is_dry_run → GoesOn N.was_sent N.was_told N.was_unanswered
            network.old network.new IsQuery }
    {
        let now = self.watch.now(rt)?;
        if !manner.is_once {
            self.look_at_files(rt, named, now, errors)?;
        }
        self.read_lines(rt.alloc(), now, input, errors)?;
        self.visit(rt, network, manner, now, output, errors)?;
        self.touch(rt, named.health, now, errors);
        if manner.is_once && self.list.iter().all(Attended::is_done) {
            return Ok(Some(self.ended()));
        }
        self.wait(rt)?;
        let now = self.watch.now(rt)?;
        self.settle(rt.alloc(), now)?;
        self.tell_hindrance(rt.alloc(), now, errors)?;
        Ok(None)
    }

    // Reads the files again if it is time, and attends what they name if one changed.
    fn look_at_files<F: Write>(
        &mut self,
        rt: &HostRuntime,
        named: &AgentInputs<'_>,
        now: u64,
        errors: &mut F,
    ) -> Result<(), Memory> {
        if now < self.files_at {
            return Ok(());
        }
        self.files_at = now.saturating_add(LONGEST);
        if self.have_changed(rt, named.files.as_slice())? {
            self.use_files(rt, named.prefix, errors)
        } else {
            Ok(())
        }
    }

    // Looks at the files again, and answers whether one changed.
    fn have_changed(&mut self, rt: &HostRuntime, names: &[Text]) -> Result<bool, Memory> {
        let files = Files::look(rt, names)?;
        let before = mem::replace(&mut self.files, files);
        Ok(!self.files.are_as(&before))
    }

    // Attends what the files name as they are now. If they can be used after they could not, says
    // so.
    fn use_files<F: Write>(
        &mut self,
        rt: &HostRuntime,
        prefix: &str,
        errors: &mut F,
    ) -> Result<(), Memory> {
        match self.plan_of_files(rt, errors)? {
            Some(plan) => {
                if mem::replace(&mut self.is_unused, false) {
                    say(errors, USED_AGAIN);
                }
                self.serve(rt.alloc(), prefix, plan, errors)
            }
            None => {
                self.is_unused = true;
                Ok(())
            }
        }
    }

    // What is measured by the files as they are now. None if one is no regular file, or if they are
    // not translated, and then `errors` says why.
    fn plan_of_files<F: Write>(
        &self,
        rt: &HostRuntime,
        errors: &mut F,
    ) -> Result<Option<Plan>, Memory> {
        if let Some(name) = self.files.strange() {
            say_of(rt.alloc(), errors, STRANGE, name);
            return Ok(None);
        }
        plan_in(rt, &self.files, self.reader.is_some(), errors)
    }

    // Takes in what another program gave.
    fn read_lines<R: Read, F: Write>(
        &mut self,
        alloc: Global,
        now: u64,
        input: &mut R,
        errors: &mut F,
    ) -> Result<(), Memory> {
        for _ in 0..MAX_LINES {
            let Some(reader) = &mut self.reader else {
                return Ok(());
            };
            match reader.next(alloc, input)? {
                ReadLine::Line(line) => self.read_line(alloc, line.as_slice(), now, errors)?,
                ReadLine::TooLong => say(errors, LONG_LINE),
                ReadLine::End => say(errors, ENDED),
                ReadLine::Unreadable => {
                    self.outcome = worse(self.outcome, ClientExit::Local);
                    say(errors, UNREADABLE);
                }
                ReadLine::Nothing => return Ok(()),
            }
        }
        Ok(())
    }

    // Takes in the value of a line, or says that it is no line for these files.
    fn read_line<F: Write>(
        &mut self,
        alloc: Global,
        line: &[u8],
        now: u64,
        errors: &mut F,
    ) -> Result<(), Memory> {
        let Some((service, metric, value)) = self.named_in(line) else {
            return say_no_line(alloc, line, errors);
        };
        match measured_in(alloc, value)? {
            Some(measured) => self.values.put(alloc, service, metric, measured, now),
            None => say_no_line(alloc, line, errors),
        }
    }

    // The service and the metric of the plan that a line names, and its value.
    fn named_in<'a>(&self, line: &'a [u8]) -> Option<(Name, Label, &'a str)> {
        let Said {
            service,
            metric,
            value,
        } = Said::read(str::from_utf8(line).ok()?)?;
        for attended in &self.list {
            if attended.name().as_str() == service {
                let metric = attended.awaited(metric)?;
                return Some((attended.name(), metric, value));
            }
        }
        None
    }

    // Has each service its turn. If the desk is away, that takes time: the others have theirs in
    // the next rounds.
    fn visit<N: Network, W: Write, F: Write>(
        &mut self,
        rt: &HostRuntime,
        network: &mut N,
        manner: &AgentOptions<'_>,
        now: u64,
        output: &mut W,
        errors: &mut F,
    ) -> Result<(), Stop>
        ensures { IsTrue manner.now.is_dry_run → GoesOn N.was_sent N.was_told N.was_unanswered
            network.old network.new IsQuery }
    {
        let is_unreadable = self.is_unreadable();
        for attended in self.list.iter_mut() {
            attended.take_values(rt.alloc(), &mut self.values, is_unreadable, now)?;
            let is_there = attended.report(rt, network, manner, now, output, errors)?
                && attended.visit(rt, network, manner, &mut self.asking, now, output, errors)?;
            if !is_there {
                return Ok(());
            }
        }
        Ok(())
    }

    // Whether what another program gives cannot be read now.
    fn is_unreadable(&self) -> bool {
        match &self.reader {
            Some(reader) => reader.is_failing(),
            None => false,
        }
    }

    // Touches the file of the watchdog once a second, and says once that it cannot.
    fn touch<F: Write>(
        &mut self,
        rt: &HostRuntime,
        health: &Option<Text>,
        now: u64,
        errors: &mut F,
    ) {
        let Some(name) = health else {
            return;
        };
        if now < self.touch_at {
            return;
        }
        self.touch_at = now.saturating_add(LONGEST);
        let is_touched = touch(rt, name.as_str()).is_ok();
        if !is_touched && !self.is_untouched {
            say_of(rt.alloc(), errors, UNTOUCHED, name.as_str());
        }
        self.is_untouched = !is_touched;
    }

    // Waits until a provider answers, or the time of a service has come.
    fn wait(&mut self, rt: &HostRuntime) -> Result<(), AgentStop> {
        let now = self.watch.now(rt)?;
        let mut left = LONGEST;
        for attended in &self.list {
            left = left.min(attended.next_at().saturating_sub(now));
        }
        match self.asking.wait(rt, left) {
            Ok(()) => Ok(()),
            Err(fault) => Err(ended_by(fault)),
        }
    }

    // Has each service what came for it.
    fn settle(&mut self, alloc: Global, now: u64) -> Result<(), Memory> {
        for _ in 0..u64::MAX {
            let Some(answer) = self.asking.answer() else {
                return Ok(());
            };
            for attended in self.list.iter_mut() {
                if attended.settle(alloc, answer.token, &answer.outcome, now)? {
                    break;
                }
            }
        }
        Ok(())
    }

    // Says why this machine asks no provider, once a minute at most.
    fn tell_hindrance<F: Write>(
        &mut self,
        alloc: Global,
        now: u64,
        errors: &mut F,
    ) -> Result<(), Memory> {
        let Some(fault) = self.asking.take_hindrance() else {
            return Ok(());
        };
        if self.hindrances.is_to_say(alloc, fault, now)? {
            let text = fault.text();
            say(errors, format!(in alloc; "{HINDERED}: {text}")?.as_str());
        }
        Ok(())
    }

    /// Says why this machine does not reach the desk, once a minute at most.
    ///
    /// # Errors
    /// `Clock`; `Memory`.
    pub(crate) fn tell_desk_hindrance<F: Write>(
        &mut self,
        rt: &HostRuntime,
        fault: Option<LocalFault>,
        errors: &mut F,
    ) -> Result<(), AgentStop> {
        let Some(fault) = fault else {
            return Ok(());
        };
        let now = self.watch.now(rt)?;
        if self.desk_hindrances.is_to_say(rt.alloc(), fault, now)? {
            say_of(rt.alloc(), errors, UNCONNECTED, fault.text());
        }
        Ok(())
    }

    // How a call ends that looked at each service once.
    fn ended(&self) -> ClientExit {
        let mut outcome = self.outcome;
        for attended in &self.list {
            outcome = worse(outcome, attended.outcome());
        }
        outcome
    }
}

// Services that were attended.
#[derive(Drop)]
struct Known {
    list: Vec<Attended>,
}

impl Known {
    // Takes out the one of this name, or `Memory`.
    fn take(&mut self, alloc: Global, name: Name) -> Result<Option<Attended>, Memory> {
        let list = mem::replace(&mut self.list, Vec::new(alloc));
        let mut found = None;
        for attended in list {
            if attended.name() == name {
                found = Some(attended);
            } else {
                self.list.push(attended)?;
            }
        }
        Ok(found)
    }

    // Says of each that no file has a Rollout of its name any more; or `Memory`.
    fn tell_gone<F: Write>(&self, alloc: Global, errors: &mut F) -> Result<(), Memory> {
        for attended in &self.list {
            let service = attended.name();
            say(errors, format!(in alloc; "{service}: {GONE}")?.as_str());
        }
        Ok(())
    }
}

// The service as it was attended, with what is measured of it by the new files.
fn serving(attended: Attended, served: Served) -> Attended {
    let mut attended = attended;
    attended.serve(served);
    attended
}

// What providers are asked with, while nothing is under way; or how the call ends without it.
fn asking(rt: &HostRuntime) -> Result<ProviderClient, AgentStop> {
    match ProviderClient::new(rt) {
        Ok(asking) => Ok(asking),
        Err(fault) => Err(ended_by(fault)),
    }
}

// How the call ends by a fault of what providers are asked with.
fn ended_by(fault: FetchFault) -> AgentStop {
    match fault {
        FetchFault::Poll => AgentStop::Connections,
        FetchFault::Memory => AgentStop::Stopped(Stop::Memory),
    }
}

// The caller of a service, if that is a name.
fn caller_of(alloc: Global, prefix: &str, service: Name) -> Result<Option<Name>, Memory> {
    let service = service.as_str();
    let text = format!(in alloc; "{prefix}-{service}")?;
    Ok(Name::read(text.as_str().as_bytes()))
}

// Says that a line is invalid, and how it begins.
fn say_no_line<F: Write>(alloc: Global, line: &[u8], errors: &mut F) -> Result<(), Memory> {
    let front = line.get(..line.len().min(MAX_SHOWN)).unwrap_or(&[]);
    let front = String::from_utf8_lossy(alloc, front)?;
    let front = shown(alloc, front.as_str(), TextKind::Line)?;
    let front = front.as_str();
    say(errors, format!(in alloc; "{NO_LINE}: {front}")?.as_str());
    Ok(())
}
