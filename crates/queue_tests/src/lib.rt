//! Tests of the public calls of `session_queue`: the order of requests, marks, and what is taken.
//!
//! They stand above that crate, so that it isn't proved once more with its tests, and may know what it and `rpc_peer` make
//! public. There is nothing here to call. Begin with `rows.rt`; what the steps of a row are says `steps.rt`.
#![tactic(auto)]

#[cfg(test)]
mod rows;
#[cfg(test)]
mod settling;
#[cfg(test)]
mod steps;
