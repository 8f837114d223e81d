//! The procedures of a module, one after another: what they declare, and what is said of their headings, declarations,
//! statements and RETURN. It finds what `oberon_rules` defines, by what `oberon_declare` and `oberon_statements` find of
//! the parts.
//!
//! It may know the rules of procedures, and nothing of imports, of lists in order and of documents. Begin reading at
//! `procedure.rt`.
#![tactic(auto)]

mod procedure;

pub use procedure::{end_name, procedures};
