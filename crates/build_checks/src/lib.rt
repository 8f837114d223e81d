//! The checks of one build: which module is next, what its imports show as numbers, whether a check of it is kept, and
//! the check where none is, which can be made apart.
//!
//! It stands on `build_sources` for what was handed out, on `worker_pool` for the check of one module as a job takes it
//! along, on `build_plan` for the order, on `check_cache` for kept checks and on `iface_key` for the numbers of keys. It
//! knows one build and the kept checks, no messages and nothing of an order of events: when a check is made, and by whom,
//! is its caller's. Begin with `specs/Kept.antt`, which says what a kept check is of, `specs/Work.antt`, which says what a
//! check that is made apart is of, and `specs/Stand.antt`, which says how far a build is; then `checks.rt`.
#![tactic(auto)]

mod begin;
mod checks;
mod fact;
mod imports;
mod known;
mod look;
mod work;

pub use checks::Checks;
pub use fact::{fact_of, key_of_import};
