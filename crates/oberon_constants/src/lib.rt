//! The values of constant expressions, and what is said of them: each part of an expression is folded once, in one pass,
//! by the meanings that its names have in the scopes of `oberon_infer`. It finds what `oberon_rules` defines; the
//! arithmetic is that of `oberon_types`.
//!
//! It may know the rules of constants and of the lengths of arrays, and nothing of what declares or uses them. Begin
//! reading at `values.rt`; below it stands `folding.rt`.
#![tactic(auto)]

mod folding;
mod values;

pub use folding::{Folding, fold_expr};
pub use values::{constant, length};
