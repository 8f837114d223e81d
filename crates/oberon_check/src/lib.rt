//! What is wrong with a document: its diagnostics, from what is held at its path alone. It stands on
//! `oberon_scan` and `oberon_parse`, on `document_rules` for what a document's list is, and on `ob_text` for what a
//! document is; it may know the language, and nothing of a workspace. Begin reading at `Diagnosed.antt` of
//! `document_rules`, and at `document.rt`, where `diagnose` finds the list.
#![tactic(auto)]

mod document;

pub use document::{diagnose, list_of_bad_token};
