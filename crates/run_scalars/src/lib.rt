//! What a cell of a running program holds, and what operators, predeclared functions and procedures make of such scalars,
//! with their traps.
//!
//! It stands on `run_rules`, whose operators these are, and on `oberon_types` for the words of operators and functions.
//! Begin reading at `specs/Telling.antt`.
#![tactic(auto)]

mod function;
mod operator;
mod scalar;
mod set;
mod variable;

pub use function::{applied, shifted};
pub use operator::{operated, signed};
pub use scalar::{Change, Scalar, ScalarType};
pub use set::{set_end, with_member, with_range};
pub use variable::{counted, fitted};
