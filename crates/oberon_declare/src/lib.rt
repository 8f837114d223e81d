//! What the declarations of a module or a procedure declare, and what is said of them: constants, types, variables and
//! headings, one after another, each in the scope of those before it. It finds what `oberon_rules` defines, over the
//! scopes of `oberon_infer`, with values of `oberon_constants`.
//!
//! It may know the rules, and nothing of statements, of imports, of lists in order and of documents. Begin reading at
//! `declaration.rt` and `headings.rt`; below them stands `types.rt` with `records.rt` and `arrays.rt`.
#![tactic(auto)]

mod arrays;
mod declaration;
mod declaring;
mod headings;
mod inherited;
mod origins;
mod owner;
mod records;
mod types;

pub use declaration::{declarations, local_constants, local_variables};
pub use declaring::declare_new;
pub use headings::heading;
pub use origins::copy_origin;
pub use types::{declared_type, type_of};
