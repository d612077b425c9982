//! The journal of a service, in its file.
ghost use Rattle.std.proofs.Props.{props};
ghost use Rattle.canary_agent.specs.Journals.{IsKeptOn};

use crate::plan::Served;
use crate::reporting;
use crate::taken::Taken;
use canary_base::names::Name;
use canary_base::numbers::Number;
use canary_client::journals::{device_at, journal_on, settled};
use canary_client::outcome::Stop;
use canary_client_journal::entry::SettledNumber;
use canary_client_journal::kept::KeptJournal;
use canary_client_journal::network::Network;
use canary_client_records::device::Device;
use canary_client_records::file::FileDevice;
use std::alloc::Global;
use std::fs;

// How often a message is sent at each call: who has no answer is asked again by a later round.
const TRIES: u32 = 1;

// The least status of a reply that refuses.
const REFUSED: u16 = 400;

// With so many commands that are settled a journal is long: it is in memory as long as it is open.
const LONG: usize = 2_000;

/// The journal of a service, open and locked. A call that fails closes it: it is opened again.
#[derive(Drop)]
pub(crate) struct OpenJournal {
    kept: KeptJournal<FileDevice>,
    ghost is_kept: { IsKeptOn ⟦<FileDevice as Device>⟧ kept } by { Prim.hlevel props },
}

impl OpenJournal {
    /// The journal of a caller in a folder: as it stands in its file, or else it begins with what
    /// the desk says that it has settled of the caller.
    ///
    /// # Errors
    /// What `journals::journal_on` answers; `InUse`, `JournalNoFile`, `Journal`.
    pub(crate) fn open<N: Network>(
        rt: &HostRuntime,
        network: &mut N,
        folder: &str,
        caller: Name,
    ) -> Result<OpenJournal, Stop> {
        let alloc = rt.alloc();
        let path = path_of(alloc, folder, caller)?;
        let device = device_at(rt, path.as_str())?;
        let is_in_doubt = device.is_in_doubt();
        let kept = journal_on(alloc, network, device, is_in_doubt, caller, TRIES)?;
        Ok(OpenJournal { kept })
    }

    /// The same; or, if it is long and nothing is pending, a new journal, and this one's file has
    /// `.old` after its name. So nothing is lost that may still come.
    ///
    /// # Errors
    /// `Journal` if the file cannot be renamed; what `open` answers.
    pub(crate) fn renewed<N: Network>(
        self,
        rt: &HostRuntime,
        network: &mut N,
        folder: &str,
    ) -> Result<OpenJournal, Stop> {
        if self.is_pending() || self.kept.journal.kept().len() < LONG {
            return Ok(self);
        }
        let caller = self.kept.journal.caller();
        rename(rt, path_of(rt.alloc(), folder, caller)?.as_str())?;
        OpenJournal::open(rt, network, folder, caller)
    }

    /// Whether something is pending.
    pub(crate) fn is_pending(&self) -> bool {
        self.kept.journal.pending().is_some()
    }

    /// What was settled last.
    pub(crate) fn last(&self) -> Option<&SettledNumber> {
        self.kept.journal.kept().last()
    }

    /// Whether the desk refused what was settled last.
    pub(crate) fn is_refused(&self) -> bool {
        match self.last() {
            Some(kept) => kept.reply.status >= REFUSED,
            None => false,
        }
    }

    /// Settles what is pending.
    ///
    /// # Errors
    /// What `journals::settled` answers.
    pub(crate) fn settled<N: Network>(
        self,
        alloc: Global,
        network: &mut N,
    ) -> Result<OpenJournal, Stop> {
        let OpenJournal { mut kept } = self;
        settled(alloc, network, &mut kept, TRIES)?;
        Ok(OpenJournal { kept })
    }

    /// Reports what was taken of a run.
    ///
    /// # Errors
    /// What `reporting::report` answers.
    pub(crate) fn reported<N: Network>(
        self,
        alloc: Global,
        network: &mut N,
        served: &Served,
        run: Number,
        taken: &[Taken],
    ) -> Result<OpenJournal, Stop> {
        let OpenJournal { mut kept } = self;
        reporting::report(alloc, network, &mut kept, served, run, taken, TRIES)?;
        Ok(OpenJournal { kept })
    }

    /// Aborts a service.
    ///
    /// # Errors
    /// What `reporting::abort` answers.
    pub(crate) fn aborted<N: Network>(
        self,
        alloc: Global,
        network: &mut N,
        service: Name,
    ) -> Result<OpenJournal, Stop> {
        let OpenJournal { mut kept } = self;
        reporting::abort(alloc, network, &mut kept, service, TRIES)?;
        Ok(OpenJournal { kept })
    }
}

// The path of a caller's journal: a file in the folder, with the caller's name.
fn path_of(alloc: Global, folder: &str, caller: Name) -> Result<String, Stop> {
    let name = caller.as_str();
    Ok(format!(in alloc; "{folder}/{name}")?)
}

// Renames the journal's file, which then ends in .old; an earlier one of that name is replaced.
fn rename(rt: &HostRuntime, path: &str) -> Result<(), Stop> {
    let old = format!(in rt.alloc(); "{path}.old")?;
    match fs::rename(rt, path, old.as_str()) {
        Ok(()) => Ok(()),
        Err(_) => Err(Stop::Journal),
    }
}
