//! The rows of whole sessions that need a fake: a cut, a call that fails, the bytes that are taken, what the tree is asked.
//!
//! It stands on `session_runs`, which runs a session and looks at what it left, on `session_lines` for what is sent and told,
//! and on `bsp_edge` and `worker_pool` for what goes into a run; it may know what they make public. It has no code of its
//! own: a crate with tests is proved twice, so these stand above the crates that they are of. Begin with `rows.rt`. That rows
//! are looked at is shown in `controls.rt`. What a program over files can show stands in `tests/sessions`.
#![tactic(auto)]

#[cfg(test)]
mod compiles;
#[cfg(test)]
mod controls;
#[cfg(test)]
mod parts;
#[cfg(test)]
mod rows;
