//! Tests of how entries of recordings are spelled.
//!
//! They stand above `recordings`, so that it isn't proved once more with its tests. There is nothing here to call.
#![tactic(auto)]

#[cfg(test)]
mod spelled;
