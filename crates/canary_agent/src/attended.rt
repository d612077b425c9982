//! A service that is attended: looked at, measured and reported.
ghost use Rattle.std.specs.Prelude.{◌≡◌, Contains, IfSome, IsTrue};
ghost use Rattle.canary_client_journal.specs.Networks.{GoesOn};
ghost use Rattle.canary_client.specs.Promises.{IsQuery};
ghost use Rattle.canary_agent.specs.Lateness.{IsTooLate};

use crate::asking::ProviderClient;
use crate::beginning::{Begun, shortest_limit, start, taking_of, with_asked};
use crate::ended::worse;
use crate::journal::OpenJournal;
use crate::late::{Lateness, Sightings, is_late, is_too_late, seconds_late};
use crate::look::{Due, Looked, look};
use crate::options::AgentOptions;
use crate::pauses::{NEVER, is_away, is_of_writing, look_after, look_again, look_at, pause_after};
use crate::plan::{PlannedMetric, Served};
use crate::taken::{Came, failed};
use crate::taking::{Settling, Takings};
use crate::telling::{say_late, show_asked, show_last, show_wish};
use crate::values::UnreportedValues;
use canary_base::error::Memory;
use canary_base::names::{Label, Name};
use canary_base::numbers::Number;
use canary_client::outcome::{ClientExit, Stop, say};
use canary_client_journal::network::Network;
use canary_fetch::query::FetchResult as Fetched;
use std::alloc::Global;
use std::io::Write;

// How often a message is sent at each call.
const TRIES: u32 = 1;

// How long it is before the same trouble is said again, in milliseconds.
const AGAIN: u64 = 600_000;

const UNGIVEN: &str = "no value: the other program gave none in time";

const UNREAD: &str = "no value: the agent cannot read what the other program gives";

/// A service that is attended.
#[derive(Drop)]
pub(crate) struct Attended {
    served: Served,
    caller: Name,
    journal: Option<OpenJournal>,
    takings: Takings,
    // When it is looked at next, in milliseconds of the call.
    look_at: u64,
    // The pause that came before that, if it could not be looked at.
    pause: u64,
    // Why it could not, as it was said, and when that is said again, in milliseconds of the call.
    told: Option<Stop>,
    tell_at: u64,
    // The labels of the desk that the plan does not have, as they were said.
    unknown: Vec<Label>,
    lateness: Lateness,
    // What is due, as the looks since the last fault found it.
    sightings: Sightings,
    // The run of which a measurement was so late that the service was aborted.
    aborted: Option<Number>,
    outcome: ClientExit,
}

impl Attended {
    /// A service that is looked at as soon as may be.
    pub(crate) fn new(alloc: Global, served: Served, caller: Name) -> Attended {
        Attended {
            served,
            caller,
            journal: None,
            takings: Takings::new(alloc),
            look_at: 0,
            pause: 0,
            told: None,
            tell_at: 0,
            unknown: Vec::new(alloc),
            lateness: Lateness::new(alloc),
            sightings: Sightings::new(alloc),
            aborted: None,
            outcome: ClientExit::Done,
        }
    }

    /// Its name.
    pub(crate) fn name(&self) -> Name {
        self.served.name
    }

    /// What is measured of it by files that were read anew. What is being taken goes on as it
    /// began.
    pub(crate) fn serve(&mut self, served: Served) {
        self.served = served;
    }

    /// The label in the plan of the metric of this name, or of this label, if another program gives
    /// its values.
    pub(crate) fn awaited(&self, metric: &str) -> Option<Label> {
        self.served.awaited(metric)
    }

    /// What the call comes to by it.
    pub(crate) fn outcome(&self) -> ClientExit {
        self.outcome
    }

    /// Whether nothing more is to be done of it, if it is looked at once.
    pub(crate) fn is_done(&self) -> bool {
        self.look_at == NEVER && self.takings.is_empty()
    }

    /// When something is to be done next, in milliseconds of the call.
    pub(crate) fn next_at(&self) -> u64 {
        match self.takings.next_at() {
            Some(at) => at.min(self.look_at),
            None => self.look_at,
        }
    }

    /// Looks at it if its time has come, and begins to measure what is due. Whether the desk is
    /// there, as far as that was seen.
    ///
    /// # Errors
    /// `Output` if the output failed; `Memory`.
    pub(crate) fn visit<N: Network, W: Write, F: Write>(
        &mut self,
        rt: &HostRuntime,
        network: &mut N,
        manner: &AgentOptions<'_>,
        asking: &mut ProviderClient,
        now: u64,
        output: &mut W,
        errors: &mut F,
    ) -> Result<bool, Stop>
        ensures { IsTrue manner.now.is_dry_run → GoesOn N.was_sent N.was_told N.was_unanswered
            network.old network.new IsQuery }
    {
        if now < self.look_at {
            return Ok(true);
        }
        match self.try_attend(rt, network, manner, asking, now, output, errors) {
            Ok(()) => {
                self.recover_from_look();
                Ok(true)
            }
            Err(stop) => {
                self.trouble(rt.alloc(), manner, stop, now, errors)?;
                Ok(!is_away(stop))
            }
        }
    }

    // It was looked at. If its journal could not be written, that shows nothing: its pause goes on
    // until a report is settled.
    fn recover_from_look(&mut self) {
        if !self.told.is_some_and(is_of_writing) {
            self.recover();
        }
    }

    // All is well.
    fn recover(&mut self) {
        self.pause = 0;
        self.told = None;
    }

    // One look, for `visit`: settles what is pending, looks, and aborts or begins to measure.
    fn try_attend<N: Network, W: Write, F: Write>(
        &mut self,
        rt: &HostRuntime,
        network: &mut N,
        manner: &AgentOptions<'_>,
        asking: &mut ProviderClient,
        now: u64,
        output: &mut W,
        errors: &mut F,
    ) -> Result<(), Stop>
        ensures { IsTrue manner.now.is_dry_run → GoesOn N.was_sent N.was_told N.was_unanswered
            network.old network.new IsQuery }
    {
        if manner.is_dry_run {
            return self.look_only(rt, network, manner, asking, now, output, errors);
        }
        self.open(rt, network, manner, output)?;
        let looked = look(rt.alloc(), network, self.served.name, TRIES)?;
        self.look_at = look_at(&looked, now, manner.is_once);
        self.sightings.take(rt.alloc(), looked.due.as_slice(), now)?;
        self.tell_late(rt.alloc(), &looked, now, errors)?;
        match self.run_given_up(manner, &looked, now) {
            Some(run) => self.abort(rt.alloc(), network, manner, run, output),
            None => self.begin_all(rt, manner, asking, &looked, now, output, errors),
        }
    }

    // Looks at it, and begins to measure what is due, without its journal.
    fn look_only<N: Network, W: Write, F: Write>(
        &mut self,
        rt: &HostRuntime,
        network: &mut N,
        manner: &AgentOptions<'_>,
        asking: &mut ProviderClient,
        now: u64,
        output: &mut W,
        errors: &mut F,
    ) -> Result<(), Stop>
        ensures { GoesOn N.was_sent N.was_told N.was_unanswered network.old network.new IsQuery }
    {
        let looked = look(rt.alloc(), network, self.served.name, TRIES)?;
        self.look_at = NEVER;
        self.tell_late(rt.alloc(), &looked, now, errors)?;
        self.begin_all(rt, manner, asking, &looked, now, output, errors)
    }

    // Begins to measure what is due.
    fn begin_all<W: Write, F: Write>(
        &mut self,
        rt: &HostRuntime,
        manner: &AgentOptions<'_>,
        asking: &mut ProviderClient,
        looked: &Looked,
        now: u64,
        output: &mut W,
        errors: &mut F,
    ) -> Result<(), Stop> {
        for due in &looked.due {
            self.begin(rt, manner, asking, looked, due, now, output, errors)?;
        }
        Ok(())
    }

    // Opens the journal, and settles what is pending in it.
    fn open<N: Network, W: Write>(
        &mut self,
        rt: &HostRuntime,
        network: &mut N,
        manner: &AgentOptions<'_>,
        output: &mut W,
    ) -> Result<(), Stop> {
        let journal = match self.journal.take() {
            Some(journal) => journal,
            None => OpenJournal::open(rt, network, manner.folder, self.caller)?,
        };
        let journal = settled(rt.alloc(), network, manner, journal, output)?;
        self.journal = Some(journal.renewed(rt, network, manner.folder)?);
        Ok(())
    }

    // Says which measurements are late.
    fn tell_late<F: Write>(
        &mut self,
        alloc: Global,
        looked: &Looked,
        now: u64,
        errors: &mut F,
    ) -> Result<(), Stop> {
        for due in &looked.due {
            let late = seconds_late(due, looked.moment.get());
            let interval = self.served.metric(&due.metric).and_then(interval_of);
            if is_late(late, interval) && self.lateness.is_to_say(alloc, due, now)? {
                say_late(alloc, self.served.name, due, late, errors)?;
            }
        }
        Ok(())
    }

    // The run of a measurement for which the service is to be aborted.
    fn run_given_up(&self, manner: &AgentOptions<'_>, looked: &Looked, now: u64) -> Option<Number>
        ensures { IfSome result (λ run. (due : Due) × Contains looked.now.due.items due
            × (due.run ≡ run) × IsTooLate manner.now.abort_late looked.now.moment due) }
    {
        for due in &looked.due {
            let late = seconds_late(due, looked.moment.get());
            if is_too_late(late, manner.abort_late) && self.is_given_up(manner, due, now) {
                return Some(due.run);
            }
        }
        None
    }

    // Whether a measurement that is too late is given up. What can be measured is measured first:
    // so the agent has to have had the time for that, with the desk there. If each service is
    // looked at once, a measurement is given up that nothing measures.
    fn is_given_up(&self, manner: &AgentOptions<'_>, due: &Due, now: u64) -> bool {
        if self.aborted == Some(due.run) || self.takings.has(due.run, &due.metric) {
            return false;
        }
        if manner.is_once {
            return !self.served.is_measured(&due.metric);
        }
        self.sightings.are_long(due, now)
    }

    // Aborts the service by its journal, and remembers the run, so that it is aborted once for it.
    fn abort<N: Network, W: Write>(
        &mut self,
        alloc: Global,
        network: &mut N,
        manner: &AgentOptions<'_>,
        run: Number,
        output: &mut W,
    ) -> Result<(), Stop> {
        let Some(journal) = self.journal.take() else {
            return Ok(());
        };
        let journal = journal.aborted(alloc, network, self.served.name)?;
        self.aborted = Some(run);
        show_last(alloc, &journal, manner, output)?;
        self.journal = Some(journal);
        Ok(())
    }

    // Begins a measurement, unless it is being taken.
    fn begin<W: Write, F: Write>(
        &mut self,
        rt: &HostRuntime,
        manner: &AgentOptions<'_>,
        asking: &mut ProviderClient,
        looked: &Looked,
        due: &Due,
        now: u64,
        output: &mut W,
        errors: &mut F,
    ) -> Result<(), Stop> {
        if self.takings.has(due.run, &due.metric) {
            return Ok(());
        }
        if manner.is_dry_run {
            show_asked(rt.alloc(), &self.served, looked, due, manner, output)?;
        }
        let report_at = now.saturating_add(shortest_limit(&self.served, looked, due.run));
        match start(rt, asking, &self.served, looked, due, now)? {
            Begun::Unknown => self.tell_unknown(rt.alloc(), due, errors),
            Begun::Nowhere => {
                self.outcome = worse(self.outcome, ClientExit::Refused);
                Ok(())
            }
            Begun::Hindered => {
                self.outcome = worse(self.outcome, ClientExit::Local);
                Ok(())
            }
            Begun::Awaited(limit) => {
                let taking = taking_of(looked, due, now, limit, report_at);
                Ok(self.takings.add(taking)?)
            }
            Begun::Asked(asked, limit) => {
                let taking = taking_of(looked, due, now, limit, report_at);
                Ok(self.takings.add(with_asked(taking, asked))?)
            }
        }
    }

    // Says once that the plan does not have a metric.
    fn tell_unknown<F: Write>(
        &mut self,
        alloc: Global,
        due: &Due,
        errors: &mut F,
    ) -> Result<(), Stop> {
        self.outcome = worse(self.outcome, ClientExit::Refused);
        if self.unknown.as_slice().contains(&due.metric) {
            return Ok(());
        }
        self.unknown.push(due.metric)?;
        let (service, metric) = (self.served.name, due.metric);
        let line = format!(in alloc;
            "{service} {metric}: no file has a provider for this metric: not measured"
        )?;
        say(errors, line.as_str());
        Ok(())
    }

    /// What came of the message of a token, if it is of this service; or `Memory`.
    pub(crate) fn settle(
        &mut self,
        alloc: Global,
        token: usize,
        fetched: &Fetched,
        now: u64,
    ) -> Result<bool, Memory> {
        let settling = self.takings.settle(alloc, token, fetched)?;
        if settling == Settling::Forgotten {
            self.look_anew(now);
        }
        Ok(settling != Settling::Foreign)
    }

    // This machine could not measure something: it is looked at again after a pause, unless it is
    // looked at once in all.
    fn look_anew(&mut self, now: u64) {
        self.outcome = worse(self.outcome, ClientExit::Local);
        if self.look_at != NEVER {
            self.look_at = self.look_at.min(look_again(now));
        }
    }

    /// Takes what another program gives, or a failure if it gave nothing in time, by whether that
    /// cannot be read; or `Memory`.
    pub(crate) fn take_values(
        &mut self,
        alloc: Global,
        values: &mut UnreportedValues,
        is_unreadable: bool,
        now: u64,
    ) -> Result<(), Memory> {
        let mut place = 0;
        for _ in 0..u64::MAX {
            let Some(found) = self.takings.awaited_from(place) else {
                return Ok(());
            };
            if let Some(came) = self.value_for(alloc, values, found, is_unreadable, now)? {
                self.takings.give(found, came);
            }
            place = found.saturating_add(1);
        }
        Ok(())
    }

    // What another program gives for the measurement at this place, if that is there or too late.
    fn value_for(
        &self,
        alloc: Global,
        values: &mut UnreportedValues,
        place: usize,
        is_unreadable: bool,
        now: u64,
    ) -> Result<Option<Came>, Memory> {
        let Some(taking) = self.takings.at(place) else {
            return Ok(None);
        };
        let since = taking
            .began_at
            .saturating_sub(taking.ends_at.saturating_sub(taking.began_at));
        if let Some(metric) = self.served.metric(&taking.metric)
            && let Some(measured) = values.take(alloc, self.served.name, metric.label, since)?
        {
            return Ok(Some(Came::Measured(measured)));
        }
        if now < taking.ends_at {
            return Ok(None);
        }
        let why = if is_unreadable { UNREAD } else { UNGIVEN };
        Ok(Some(failed(alloc, why)?))
    }

    /// Reports what is there of each run, if it is all there or has waited long enough. Whether the
    /// desk is there, as far as that was seen.
    ///
    /// # Errors
    /// `Output` if the output failed; `Memory`.
    pub(crate) fn report<N: Network, W: Write, F: Write>(
        &mut self,
        rt: &HostRuntime,
        network: &mut N,
        manner: &AgentOptions<'_>,
        now: u64,
        output: &mut W,
        errors: &mut F,
    ) -> Result<bool, Stop>
        ensures { IsTrue manner.now.is_dry_run → network.new ≡ network.old }
    {
        for _ in 0..u64::MAX {
            let Some(run) = self.takings.ready_run(now) else {
                return Ok(true);
            };
            if let Err(stop) = self.try_report(rt.alloc(), network, manner, run, now, output) {
                self.trouble(rt.alloc(), manner, stop, now, errors)?;
                return Ok(!is_away(stop));
            }
        }
        Ok(true)
    }

    // Reports what is there of a run. If that fails, it is measured anew, unless the journal has it
    // as pending.
    fn try_report<N: Network, W: Write>(
        &mut self,
        alloc: Global,
        network: &mut N,
        manner: &AgentOptions<'_>,
        run: Number,
        now: u64,
        output: &mut W,
    ) -> Result<(), Stop>
        ensures { IsTrue manner.now.is_dry_run → network.new ≡ network.old }
    {
        let taken = self.takings.take(alloc, run)?;
        if manner.is_dry_run {
            return show_wish(alloc, &self.served, run, taken.as_slice(), manner, output);
        }
        let Some(journal) = self.journal.take() else {
            return Ok(());
        };
        let journal = settled(alloc, network, manner, journal, output)?;
        let journal = journal.reported(alloc, network, &self.served, run, taken.as_slice())?;
        self.recover();
        show_last(alloc, &journal, manner, output)?;
        if !manner.is_once {
            self.look_at = look_after(journal.is_refused(), now);
        }
        self.journal = Some(journal);
        Ok(())
    }

    // Says why it cannot be looked at, if that is new or was said long ago, and has it looked at
    // again after a pause.
    fn trouble<F: Write>(
        &mut self,
        alloc: Global,
        manner: &AgentOptions<'_>,
        stop: Stop,
        now: u64,
        errors: &mut F,
    ) -> Result<(), Stop> {
        if let Stop::Memory | Stop::Output | Stop::Clock = stop {
            return Err(stop);
        }
        if self.told != Some(stop) || self.tell_at <= now {
            let (service, sentence) = (self.served.name, stop.sentence());
            say(errors, format!(in alloc; "{service}: {sentence}")?.as_str());
            self.told = Some(stop);
            self.tell_at = now.saturating_add(AGAIN);
        }
        self.outcome = worse(self.outcome, stop.outcome());
        self.sightings.clear();
        self.pause = pause_after(stop, self.pause);
        self.look_at = if manner.is_once {
            NEVER
        } else {
            now.saturating_add(self.pause)
        };
        Ok(())
    }
}

// The seconds from one measurement of a metric to the next, if the files say so.
fn interval_of(metric: &PlannedMetric) -> Option<u32> {
    metric.interval
}

// The journal, with nothing pending.
fn settled<N: Network, W: Write>(
    alloc: Global,
    network: &mut N,
    manner: &AgentOptions<'_>,
    journal: OpenJournal,
    output: &mut W,
) -> Result<OpenJournal, Stop> {
    if !journal.is_pending() {
        return Ok(journal);
    }
    let journal = journal.settled(alloc, network)?;
    show_last(alloc, &journal, manner, output)?;
    Ok(journal)
}
