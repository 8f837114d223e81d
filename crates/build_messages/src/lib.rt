//! What a build tells, as messages that wait to be written: its tasks, and the lists of its documents where a client
//! shows others. It stands on `session_law`, which says what a build tells, on `task_stream` for what a client shows,
//! on `target_graph` for the documents and on `bsp_records` for what a message holds. It knows single messages and
//! documents, and nothing of when they are due. Begin with `Outgoing` (`outgoing.rt`), then `tasks.rt` and
//! `publishing.rt`; a document's key is made in `documents.rt`.
#![tactic(auto)]

mod documents;
mod outgoing;
mod publishing;
mod tasks;

pub use documents::{document_of_pair, keys_of};
pub use outgoing::Outgoing;
pub use publishing::{copy_of, has_error, publish_one};
pub use tasks::{
    build_finishes, build_starts, check_finishes, check_starts, target_cancelled, target_finishes,
    target_starts,
};
