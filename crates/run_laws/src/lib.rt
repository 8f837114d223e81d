//! Laws of evaluation: what a run writes is no longer than the steps that it takes; no loop is cut short, since each of its
//! turns takes a step; and paths of one variable of which neither begins with the other lead to cells that are apart.
//!
//! It stands on `run_rules`, whose definitions it speaks of, and it has no code but laws. Begin reading at `laws.rt`, beside
//! `specs/Paths.antt`.
#![tactic(auto)]

mod laws;

pub use laws::{enough_turns, output_within_steps, paths_apart};
