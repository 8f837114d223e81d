//! Tests of the public calls of `session_reload`: what is dropped and what is changed between two workspaces.
//!
//! They stand above that crate, so that it isn't proved once more with its tests, and may know what it and `target_graph`
//! make public. There is nothing here to call. Begin with `rows.rt`; how workspaces are written says `spaces.rt`.
#![tactic(auto)]

#[cfg(test)]
mod rows;
#[cfg(test)]
mod spaces;
