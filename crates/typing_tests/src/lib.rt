//! Tests of the public calls on types and constants, in tables with values of the language's report.
//!
//! It stands above `oberon_types`, so that no crate is proved a second time for its tests, and may know what that makes
//! public. There is nothing here to call. Begin at `folding.rt`.
#![tactic(auto)]

#[cfg(test)]
mod folding;
#[cfg(test)]
mod types;
