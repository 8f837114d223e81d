//! What is wrong with a module by the views of its imports, which modules it imports, and what it shows: `check_module`,
//! from what is held at a document's path.
//!
//! It stands on `oberon_declare`, `oberon_procedures` and `oberon_statements` for what a module is made of, and on
//! `oberon_check` for what has no tree; nothing of a workspace is known here. Begin reading at `Local.antt` of
//! `oberon_rules`, which says what a check promises, and at `check.rt`; a document is read once, and `reading.rt` has it as
//! far as it was read.
#![tactic(auto)]

mod check;
mod exports;
mod importing;
mod judging;
mod listing;
mod numbers;
mod places;
mod reading;
mod unused;
mod written;

pub use check::{Checked, check_module, check_read};
pub use reading::{Reading, read_tokens, read_tree};
