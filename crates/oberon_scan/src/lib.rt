//! The lexis of Oberon-07 (The Programming Language Oberon-07, section 3): the tokens and the lexical faults of a
//! module's text, each by longest match. It stands on `ob_text` for spans and diagnostics, and may know the
//! characters and words of the language, and nothing of its grammar nor of the server. Begin reading at
//! `specs/Lexis.antt`, which says how a text is cut, and at `scanned.rt`, where `scan` cuts it.
#![tactic(auto)]

mod comment;
mod number;
mod piece;
mod runs;
mod scanned;
mod symbol;
mod token;
mod word;

pub use scanned::{Scanned, scan};
pub use token::{Symbol, Token, TokenKind, Word};
pub use word::is_reserved;
