//! What is said of statements, bodies and RETURN, in one pass over them, in the scope that stands behind all
//! declarations. It finds what `oberon_rules` defines, with what `oberon_infer` finds of expressions and the values of
//! `oberon_constants`.
//!
//! It may know the rules of statements, and nothing of declarations, of lists in order and of documents. Begin reading
//! at `bodies.rt` and `walk.rt`; below them stand the rows of one statement (`assigning.rt`, `calling.rt`,
//! `conditions.rt`, `counting.rt`) and the labels of a CASE (`label.rt`, `interval.rt` and `judged.rt`, over
//! `case_labels`).
#![tactic(auto)]

mod assigning;
mod bodies;
mod calling;
mod conditions;
mod counting;
mod interval;
mod judged;
mod label;
mod walk;

pub use bodies::{body, returns};
pub use walk::statements;
