//! What lies between two workspaces, the one in force and the one that a reload reads: the pairs that are dropped, and the
//! targets that were created, changed or deleted.
//!
//! It stands on `target_graph` for workspaces and on `reload_rules`, which says what it is to find. It knows nothing of
//! messages, of what a client shows and of kept checks. Begin with `specs` of `reload_rules`, then `parting.rt` for pairs, and
//! `changing.rt` for changes.
#![tactic(auto)]

mod changing;
mod parting;
mod same;
mod sides;

pub use changing::changes;
pub use parting::{Parted, part_pairs};
