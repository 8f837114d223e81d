//! What a lawful session is: the order of its events, and the sentences that each event must meet. The
//! definitions stand in `specs/`, and laws of them in `proofs/`; this crate has no calls.
//!
//! It stands on the crates that say what a message, a record, a workspace and a clean build are. It knows the
//! protocol and no code. Begin with `specs/Lawful.antt`, and read `specs/Order.antt`, `Past.antt` and
//! `Requests.antt` for the words that it uses.
#![tactic(auto)]

use ob_text::Path;
use task_stream::TableKey;

/// A document in a target: the index of this pair in the workspace file, the document's path in the workspace's folder,
/// and the key at which a client shows it.
#[derive(Debug, Drop)]
pub struct BuildDocument {
    pub pair: u32,
    pub path: Path,
    pub key: TableKey,
}

/// How the input of a session ends.
#[derive(Clone, Copy, Debug, PartialEq, Eq)]
pub enum InputEnd {
    /// Behind a whole frame, or before the first.
    Border,
    /// The bytes begin no list of frames, or they end inside a frame.
    Damaged,
    /// Reading failed.
    Failed,
}
