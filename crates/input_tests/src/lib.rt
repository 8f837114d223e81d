//! Tests of the public calls of `bsp_input`, over the standard input that the tests have, which is empty.
//!
//! They stand above that crate, so that it isn't proved once more with its tests. There is nothing here to call.
#![tactic(auto)]

#[cfg(test)]
mod stdin;
