//! Tests of the public calls of `build_plan`: in which order places are given, when, and which are on a cycle.
//!
//! They stand above that crate, so that it isn't proved once more with its tests, and may know what it makes public. There is
//! nothing here to call. Begin with `orders.rt`; how rows of imports are written says `rows.rt`.
#![tactic(auto)]

#[cfg(test)]
mod orders;
#[cfg(test)]
mod rows;
#[cfg(test)]
mod run;
