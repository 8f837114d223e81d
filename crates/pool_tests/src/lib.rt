//! Tests of the public calls of `worker_pool`, over checks of small modules: in which order crews do their jobs, what is
//! left of them, and what an outcome tells.
//!
//! They stand above that crate, so that it isn't proved once more with its tests, and may know what it and `oberon_module`
//! make public. There is nothing here to call. Begin with `turns.rt`; its calls of a crew are letters (`acting.rt`).
#![tactic(auto)]

#[cfg(test)]
mod acting;
#[cfg(test)]
mod finding;
#[cfg(test)]
mod jobs;
#[cfg(test)]
mod turns;
