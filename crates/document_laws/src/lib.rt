//! What is found of a document is found in one way: by what is held at its path, by its name and by the views of its
//! imports it has one list of diagnostics, one list of imports and one view, and no other view is looked at. It stands
//! on `oberon_rules`, whose relation `Local` says what is found, and on `grammar_laws`, and it has no code but laws.
//! Begin reading at `laws.rt`.
#![tactic(auto)]

mod laws;

pub use laws::one_document;
