use crate::status::Status;
use crate::stop::Stop;
use rpc_frame::Damage;
use session_law::InputEnd;

/// How an input ends, and where it is damaged.
#[derive(Clone, Copy, Debug, PartialEq, Eq)]
pub enum Ending {
    /// Behind a whole frame, or before the first.
    Border,
    Damaged(Damage),
    /// Reading failed.
    Failed,
}

impl Ending {
    ghost use Rattle.std.specs.Prelude.{◌≡◌};
    ghost use Rattle.bsp_cli.specs.Outcomes.{how_of};

    /// What the session is told of it.
    pub fn how(self) -> InputEnd
        ensures { result ≡ how_of self }
    {
        match self {
            Ending::Border => InputEnd::Border,
            Ending::Damaged(_) => InputEnd::Damaged,
            Ending::Failed => InputEnd::Failed,
        }
    }
}

/// Why a run is over.
#[derive(Clone, Copy, Debug, PartialEq, Eq)]
pub enum Outcome {
    /// The session took an exit, behind a shutdown that was answered or without one.
    Exited { closed: bool },
    /// The session was told that its input ended so.
    InputEnded(Ending),
    /// The session had to stop.
    Stopped(Stop),
    /// The words ask for nothing that the program does.
    Unasked,
}

impl Outcome {
    ghost use Rattle.std.specs.Prelude.{◌≡◌};
    ghost use Rattle.bsp_cli.specs.Outcomes.{code_of, status_by};

    /// The status that the run ends with.
    pub fn status(self) -> Status
        ensures { code_of result ≡ status_by self }
    {
        match self {
            Outcome::Exited { closed: true } => Status::Closed,
            Outcome::Exited { closed: false } => Status::Unclosed,
            Outcome::InputEnded(Ending::Border) => Status::Unclosed,
            Outcome::InputEnded(Ending::Damaged(_)) => Status::Damaged,
            Outcome::InputEnded(Ending::Failed) => Status::InputFailed,
            Outcome::Stopped(Stop::Sink) => Status::SinkFailed,
            Outcome::Stopped(Stop::NoMemory) => Status::NoMemory,
            Outcome::Unasked => Status::Usage,
        }
    }
}
