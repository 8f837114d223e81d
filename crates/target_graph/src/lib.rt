//! The workspace that a client works on: its file, its root, the closures of its targets, and the addresses of
//! its targets and documents.
//!
//! It stands on `json_shape` for the fields of the file, on `url` and `bsp_address` for addresses, on `oberon_scan` for
//! the words that no module may have as its name, and on `ob_text`. It knows the workspace file, and nothing of messages.
//! Begin with `specs/File.antt` and `Faults.antt`, which say what a file has to be, then `Workspace.antt`; the
//! code begins at `Workspace::read`.
#![tactic(auto)]

mod address;
mod blank;
mod closures;
mod entry;
mod fault;
mod listing;
mod names;
mod pairs;
mod reading;
mod root;
mod stems;
mod target;
mod walk;
mod workspace;

pub use fault::{FaultKind, WorkspaceFault, WorkspaceRefusal};
pub use names::stem_of;
pub use root::{Root, RootFault, root_of};
pub use target::{Pair, Target, TargetKind};
pub use workspace::Workspace;
