//! The session as a pure machine: it is given what comes in, one event at a time, and says what is to be
//! written. It reads, writes and waits for nothing itself.
//!
//! It stands on `session_law`, which says what a lawful session is, on `bsp_records` for requests and results,
//! and on `session_verdicts` and `session_build` for what one request is owed and what one build is. It knows the
//! protocol, and no stream. Begin with `Core` (`session.rt`) and what it promises (`specs/Standing.antt`).
#![tactic(auto)]

mod acting;
mod building;
mod handing;
mod head;
mod heeding;
mod jobs;
mod marking;
mod needs;
mod opening;
mod reloading;
mod serving;
mod session;
mod steps;
mod taking;

pub use needs::Need;
pub use session::Core;
