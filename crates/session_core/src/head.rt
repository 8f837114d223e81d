ghost use Rattle.std.specs.Prelude.{◌≡◌};
ghost use Rattle.session_core.specs.Acting.{is_head};

use ob_text::Text;
use rpc_peer::Id;
use session_build::Build;
use session_verdicts::Planned;
use target_graph::Root;

/// The request at the head of the queue.
#[derive(Drop)]
pub struct Head {
    pub id: Id,
    /// The ordinal of its message.
    pub number: u64,
    /// It is to be cancelled.
    pub cancelled: bool,
    pub phase: Phase,
}

/// How far the request at the head is.
#[derive(Drop)]
pub enum Phase {
    /// It is an initialize with this root, and waits for the workspace file.
    Opening(Root),
    /// It is a reload, and waits for the workspace file.
    Rereading,
    /// It is a build, and waits for its documents.
    Planned(Planned),
    /// It is a build that was sent with this `originId`, and waits for the outcomes of its checks.
    Built(Build, Option<Text>),
}

/// Is the request with this id at the head?
pub fn is_of(head: &Option<Head>, id: &Id) -> bool
    ensures { result ≡ is_head id.now head.now }
{
    match head {
        Some(head) => *id == head.id,
        None => false,
    }
}
