//! Tests of the public calls of `check_cache`, over checks of small modules: which texts of a pair are found behind which
//! stores, which imports, and what is left of pairs.
//!
//! They stand above that crate, so that it isn't proved once more with its tests, and may know what it and `oberon_module`
//! make public. There is nothing here to call. Begin with `places.rt`.
#![tactic(auto)]

#[cfg(test)]
mod facts;
#[cfg(test)]
mod importing;
#[cfg(test)]
mod places;
