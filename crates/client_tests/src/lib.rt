//! Tests of the public calls of the client's crates: what its table shows, and which scripts are read.
//!
//! They stand above those crates, so that none is proved once more with its tests, and may know what these make public.
//! There is nothing here to call. Begin with `tables.rt`, or with `scripts.rt`.
#![tactic(auto)]

#[cfg(test)]
mod scripts;
#[cfg(test)]
mod tables;
