//! The rows of sessions in which a message comes across a build: cancels, ends, and outcomes that come late.
//!
//! It stands on `session_runs`, which runs a session and looks at what it left, on `session_lines` for what is sent and told,
//! and on `worker_pool` for crews; it may know what they make public. It has no code of its own: a crate with tests is proved
//! twice, so these stand above the crates that they are of. Begin with `cancels.rt`.
#![tactic(auto)]

#[cfg(test)]
mod cancels;
#[cfg(test)]
mod turns;
