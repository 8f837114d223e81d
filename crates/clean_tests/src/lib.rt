//! Tests of `clean_build`: what it finds in the modules of a workspace of two targets, and in which order its lists stand.
//!
//! They stand above that crate, so that it isn't proved once more with its tests, and may know what it makes public. There is
//! nothing here to call. Begin with `lists.rt`.
#![tactic(auto)]

#[cfg(test)]
mod lists;
#[cfg(test)]
mod worlds;
