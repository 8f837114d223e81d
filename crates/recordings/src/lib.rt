//! Recordings of sessions: what was read, handed out and written, and how the session ended, as entries of a text.
//!
//! The crate stands on `ob_text` and `bsp_edge`, and knows nothing of messages. Begin with `specs/Recordings.antt`.
#![tactic(auto)]

mod handed;
mod spelling;

pub use spelling::{begin_into, end_into, in_into, out_into, tree_into};
