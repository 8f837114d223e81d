//! Laws of the grammar of Oberon-07 that later layers stand on: a list of tokens is printed by one tree, and a text has
//! one tree. It stands on `oberon_scan` for what a text is cut into, on `oberon_tree` for trees and how they are printed,
//! and on `oberon_productions` for how far inside the constructs a token goes on, and it has no code but laws. Begin reading at
//! `laws.rt`, then `proofs/One.antt`, which says what is shown of each construct.
#![tactic(auto)]

mod laws;

pub use laws::{one_tree, one_tree_of_text};
