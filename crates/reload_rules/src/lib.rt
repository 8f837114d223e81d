//! What lies between two workspaces, the one in force and the one that a reload reads, as definitions: which documents are
//! dropped, and which targets were created, changed or deleted.
//!
//! It stands on `target_graph` for what a workspace is, and on `ob_text` for names. It has no code but laws: `session_reload`
//! finds what these definitions say. Begin with `specs/Dropped.antt`, and read `specs/Changes.antt` behind it.
#![tactic(auto)]

mod change;
mod laws;

pub use change::{Change, ChangedTarget};
pub use laws::{one_list_of_changes, same_where_all_is};
