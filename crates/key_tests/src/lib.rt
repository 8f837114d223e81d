//! Tests of the public calls on keys: samples that differ in one thing each, bytes worked out by hand from the form,
//! and bytes that are no view's key.
//!
//! It stands above `iface_key`, so that no crate is proved a second time for its tests, and may know what that and
//! `oberon_types` make public. There is nothing here to call. Begin at `samples.rt`.
#![tactic(auto)]

#[cfg(test)]
mod hostile;
#[cfg(test)]
mod keys;
#[cfg(test)]
mod samples;
