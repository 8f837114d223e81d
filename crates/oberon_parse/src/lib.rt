//! The parser of Oberon-07 modules (The Programming Language Oberon-07, section 11): the tree of a list of tokens, or
//! its first bad token. It stands on `oberon_productions`, which reads all that stands inside a module, on
//! `oberon_scan` for tokens, on `oberon_tree` for trees and on `document_rules` for which lists of tokens are modules, and
//! may know the grammar and nothing of texts nor of the server. Begin reading at `Sentence.antt` of `document_rules`,
//! which says what the public call promises, and at `whole.rt`, where the call stands.
#![tactic(auto)]

mod top;
mod whole;

pub use whole::{ParseRefusal, parse};
