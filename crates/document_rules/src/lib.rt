//! What a document is by its text alone, as definitions: which lists of tokens are modules and which token is the first bad one
//! (The Programming Language Oberon-07, section 11), what is said of a text that is none, and which modules a module imports.
//!
//! It stands on `ob_text` for diagnostics, on `oberon_scan` for tokens and on `oberon_tree` for trees, and it has no code:
//! `oberon_parse`, `oberon_check` and `oberon_imports` find what these definitions say, and `oberon_rules` builds on them. That a
//! document has one list of diagnostics and one list of imports are lemmas beside them. Begin reading at `specs/Sentence.antt`.
#![tactic(auto)]
