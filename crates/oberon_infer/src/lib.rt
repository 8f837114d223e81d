//! What is known at a place of a module, what its names mean, and what its expressions are: the scopes, the look-up of
//! names, qualidents and types, and in one pass over an expression what it is and what is said of it. It finds what
//! `oberon_rules` defines, over the trees of `oberon_tree`. It borrows trees, scopes and views, and copies no type but
//! where a name is a type's.
//!
//! It knows nothing of declarations and statements, of lists in order and of documents. Begin reading at
//! `specs/Memory.antt`, which leads from what is kept to the plain scopes of the rules; then `scope.rt`, `names.rt`
//! and `infer.rt`.
#![tactic(auto)]

mod argument;
mod bare;
mod ex;
mod infer;
mod names;
mod operand;
mod operator;
mod rows;
mod said;
mod scope;
mod selector;
mod standard;
mod type_ref;
mod word;

pub use argument::{add_changed_rows, value_fits, var_fits};
pub use bare::{bare_type, type_meant};
pub use ex::{Ex, ex_of};
pub use infer::{designator, expression, value};
pub use names::{
    Named, last_name, look_up, member, name, of_view, resolve, type_named, view_member,
};
pub use operator::Class;
pub use rows::{add_value_row, add_whole_row};
pub use said::{Said, add, add_broken, add_named, add_row};
pub use scope::{Binding, Meaning, Scope, Scopes};
pub use standard::{Standard, Word, predeclared};
pub use type_ref::{TypeRef, are_same, borrowed, is_assignable, is_extension, is_or_extends};
