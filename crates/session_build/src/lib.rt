//! A build: the documents that it is of, and what is told of it: its tasks, and the lists that its checks find.
//!
//! It stands on `target_graph` for the documents, on `build_checks` and `check_cache` for the checks that are due, on
//! `build_messages` for the messages that tell it, on `task_stream` for what a client shows, and on `session_law`, which
//! says what a build tells. It knows one build and the checks that are kept, and nothing of other requests, nor of who
//! makes its checks. Begin with `Build` and `specs/AtWork.antt`, then `going.rt`; what a check found becomes a fact in
//! `making.rt`, and what comes of the checks of a cancelled build is kept in `late.rt`. What the kept checks have to do with the builds that were answered says `specs/Remembering.antt`, and
//! `cleaning.rt` forgets those of documents that are cleaned. What is so of each build that rests stands in
//! `proofs/RestLaws.antt`.
#![tactic(auto)]

mod building;
mod cancelling;
mod cleaning;
mod documents;
mod ending;
mod going;
mod kept;
mod late;
mod making;
mod setting;
mod storing;
mod tally;
mod telling;

pub use building::{Build, BuildRequest, Remains, Went};
pub use kept::Kept;
pub use oberon_module::Checked;
