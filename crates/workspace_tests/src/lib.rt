//! Tests of the public calls of `target_graph`: roots, workspace files, and what a workspace is asked.
//!
//! They stand above that crate, so that it isn't proved once more with its tests, and may know what it makes public. There is
//! nothing here to call. Begin with `files.rt`.
#![tactic(auto)]

#[cfg(test)]
mod files;
#[cfg(test)]
mod questions;
#[cfg(test)]
mod roots;
