//! Why a call of the agent ends.
use canary_base::error::Memory;
use canary_client::outcome::{ClientExit, Stop};
use std::alloc::{AllocError, AllocFailed};

/// Why a call of the agent ends.
#[derive(Clone, Copy)]
pub(crate) enum AgentStop {
    /// As a call of the client does.
    Stopped(Stop),
    /// No folder of journals is given.
    NoJournals,
    /// The folder of the journals cannot be made.
    Folder,
    /// No file is given.
    NoFiles,
    /// Standard input is given as a file of manifests.
    InputAsFile,
    /// The files have something that is not translated.
    Manifests,
    /// The files have no service that can be measured.
    NoService,
    /// The file with values cannot be read.
    Values,
    /// The system reports nothing of connections.
    Connections,
}

impl AgentStop {
    /// How the call ends.
    pub(crate) fn outcome(self) -> ClientExit {
        match self {
            AgentStop::Stopped(stop) => stop.outcome(),
            AgentStop::NoJournals | AgentStop::NoFiles => ClientExit::Words,
            AgentStop::InputAsFile => ClientExit::Words,
            AgentStop::Manifests | AgentStop::NoService => ClientExit::Words,
            AgentStop::Folder | AgentStop::Values | AgentStop::Connections => ClientExit::Local,
        }
    }

    /// The sentence that says so.
    pub(crate) fn sentence(self) -> &'static str {
        match self {
            AgentStop::Stopped(stop) => stop.sentence(),
            AgentStop::NoJournals => {
                "a folder of journals has to be given: --journals FOLDER or CANARY_JOURNALS"
            }
            AgentStop::Folder => "the folder of the journals cannot be made",
            AgentStop::NoFiles => "give files or folders of Argo's manifests",
            AgentStop::InputAsFile =>
                "- is no FILE of agent, which reads its files again: give a file or a folder",
            AgentStop::Manifests => "nothing is measured: these manifests are not translated",
            AgentStop::NoService =>
                "nothing is measured: these files have no Rollout to measure for",
            AgentStop::Values => "standard input, or the file of --values, cannot be read",
            AgentStop::Connections => "this machine cannot wait for connections (epoll)",
        }
    }
}

impl From<Stop> for AgentStop {
    // A stop of the client ends the call as it ends one there.
    fn from(stop: Stop) -> AgentStop {
        AgentStop::Stopped(stop)
    }
}

impl From<Memory> for AgentStop {
    // A refused allocation ends the call as `Stop::Memory`.
    fn from(_: Memory) -> AgentStop {
        AgentStop::Stopped(Stop::Memory)
    }
}

impl From<AllocError> for AgentStop {
    // The same of an allocation of the standard library.
    fn from(_: AllocError) -> AgentStop {
        AgentStop::Stopped(Stop::Memory)
    }
}

impl<T: Drop> From<AllocFailed<T>> for AgentStop {
    // The same if a value found no room, which is dropped.
    fn from(_: AllocFailed<T>) -> AgentStop {
        AgentStop::Stopped(Stop::Memory)
    }
}

/// The worse of two outcomes.
pub(crate) fn worse(one: ClientExit, other: ClientExit) -> ClientExit {
    if rank(one) < rank(other) { other } else { one }
}

// How bad an outcome is, from 0 on, for `worse`.
fn rank(outcome: ClientExit) -> u8 {
    match outcome {
        ClientExit::Done => 0,
        ClientExit::Refused | ClientExit::RowsRefused | ClientExit::Held | ClientExit::Late => 1,
        ClientExit::Pending => 2,
        ClientExit::Contradiction => 3,
        ClientExit::Words => 4,
        ClientExit::Local => 5,
    }
}
