//! The requests that wait their turn: in order of arrival, each with its id, the number of its message, what it asks for,
//! and whether it is to be cancelled.
//!
//! It stands on `rpc_peer` for ids. What a request asks for is a parameter: nothing of methods, builds and answers is known
//! here. Begin with `specs/Waiting.antt`, which says it of plain lists, then `queue.rt`. `proofs/CallerLaws.antt` has lemmas
//! for callers.
#![tactic(auto)]

mod queue;
mod waiting;

pub use queue::Queue;
pub use waiting::Waiting;
