//! What runs and tests of modules do, as definitions: how expressions, statements and calls are evaluated (The Programming
//! Language Oberon-07, sections 8 to 11), in which order modules run, where a trap is, and how many steps all takes.
//!
//! It stands on `oberon_tree` for trees, `oberon_types` for types, values and their operators, and `oberon_rules` for what
//! names mean. It has no code but the kinds of traps and laws. Begin reading at `specs/World.antt`, then
//! `specs/Expressions.antt`, `specs/Statements.antt` and `specs/Runs.antt`.
#![tactic(auto)]

mod trap_kind;

pub use trap_kind::TrapKind;
