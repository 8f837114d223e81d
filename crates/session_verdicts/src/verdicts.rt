use crate::planned::Planned;
use bsp_records::{CleanCacheParams, CompileParams};
use ob_text::{Items, Text};
use serde_json::Value;
use target_graph::{Root, Workspace, WorkspaceFault};

/// What a request is owed, judged as it is taken.
#[derive(Drop)]
pub enum Owed {
    /// It is answered at once.
    Answer(Answer),
    /// It is an initialize with this root, and waits for the workspace file.
    Opening(Root),
    /// It waits in the queue.
    Queued(Queued),
}

/// What a request of the queue asks for.
#[derive(Drop)]
pub enum Queued {
    Build(CompileParams),
    Reload,
    Clean(CleanCacheParams),
}

/// What a request of the queue is owed once it is taken up.
#[derive(Drop)]
pub enum TakenUp {
    /// It is a build, and waits for its documents.
    Building(Planned),
    /// It is a reload, and waits for the workspace file.
    Rereading,
    /// It cleans what is kept of these targets, by their index in the workspace file.
    Cleaning(Items<u32>),
    /// It names no target of the workspace at this path.
    Refused(Reason),
}

/// How a request is answered.
#[derive(Drop)]
pub enum Answer {
    /// It is a question about the workspace in force, and this is its result.
    Result(Value),
    /// It is an initialize that opens the session with this workspace.
    Opening(Workspace),
    /// It is a shutdown that closes it.
    Closing,
    /// It is refused.
    Refused(Reason),
}

impl Answer {
    ghost use Rattle.std.specs.Prelude.{◌≡◌};
    ghost use Rattle.session_verdicts.specs.Judging.{closes};

    /// Is it a shutdown that closes the session?
    pub fn is_closing(&self) -> bool
        ensures { result ≡ closes self.now }
    {
        match self {
            Answer::Closing => true,
            Answer::Result(_) | Answer::Opening(_) | Answer::Refused(_) => false,
        }
    }
}

/// Why a request is refused.
#[derive(Drop)]
pub enum Reason {
    /// No initialize was answered with a result yet.
    ServerNotInitialized,
    /// A shutdown was answered, or it is an initialize behind another.
    InvalidRequest,
    /// Its method isn't known.
    MethodNotFound,
    /// Its params are bad at this path.
    InvalidParams(Text),
    /// The tree failed when it was asked for this request.
    InternalError,
    /// The workspace file has this fault.
    WorkspaceRefused(WorkspaceFault),
    /// It was cancelled as it waited.
    RequestCancelled,
}
