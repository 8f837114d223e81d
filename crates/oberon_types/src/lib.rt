//! What the declarations of a module are about: the types of Oberon-07, constants and their folding, what a
//! name stands for outside of its module, and what a module shows to those that import it.
//!
//! It stands on the words of `ob_text` alone and knows nothing of trees, of scopes and of diagnostics. Begin
//! reading at `specs/Types.antt`, the types as plain data with sameness, extension and assignability; then
//! `Sizes.antt`, `Entities.antt` and `Folding.antt`. `Memory.antt` leads from the Rust types to the plain ones.
#![tactic(auto)]

mod build;
mod call;
mod constant;
mod entity;
mod field;
mod fold;
mod names;
mod operator;
mod origin;
mod sizes;
mod ty;
mod value;

pub use build::{array_type, open_type, record_type};
pub use call::{call_one, call_two, end_value, folding_function, with_range};
pub use constant::{ConstExpr, FoldFault, FoldingFunction, Op};
pub use entity::{Entity, Exports, Param, Signature, View};
pub use field::field_of;
pub use fold::fold_const;
pub use names::{FieldName, FieldNames, KnownField};
pub use operator::{binary_value, unary_value};
pub use origin::{Origin, Step};
pub use sizes::{sees, size_of, too_large};
pub use ty::{Field, RecordTy, Ty, assignable, extends, same_type};
pub use value::Value;
