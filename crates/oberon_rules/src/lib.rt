//! The rules of Oberon-07 (The Programming Language Oberon-07, sections 4 to 11) as definitions: what each construct
//! is, what is said of it, what a module shows, and which list of diagnostics, imports and view a document has by the
//! views of its imports. It stands on `oberon_tree` for trees, `oberon_types` for types, values and views,
//! `document_rules` for what a text's tree and imports are and what is said of a text that has no tree, and it has no
//! code but laws. What a construct is and what is said of it are two functions, and
//! layers above cite the first alone. Begin reading at `specs/Local.antt`, which says what a check promises, then
//! `specs/Scopes.antt` and `specs/Module.antt`.
#![tactic(auto)]

mod laws;

pub use laws::one_list;
