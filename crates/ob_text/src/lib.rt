//! The words that every layer shares: owned bytes and lists, positions in a text, diagnostics, what may be
//! held at a path, and the one answer of a call that found no memory.
//!
//! The crate stands on the standard library alone, and knows nothing of the protocol or the language, but
//! for the codes of its diagnostics. Begin with `bytes.rt`, `held.rt` and `diagnostic.rt`. Of `specs/`,
//! `Held.antt` says what a document is, `Position.antt` how positions count, `Ascii.antt` and `Once.antt`
//! the words for short texts and for lists without repetition that the crates above share.
#![tactic(auto)]

mod bytes;
mod code;
mod cursor;
mod diagnostic;
mod held;
mod items;
mod no_memory;
mod position;
mod span;

pub use bytes::{Bytes, Name, NameKind, Path, PathKind, Text, TextKind};
pub use code::{Code, Severity};
pub use cursor::{Cursor, position_of};
pub use diagnostic::Diagnostic;
pub use held::{Held, Snapshot, TEXT_LIMIT};
pub use items::Items;
pub use no_memory::NoMemory;
pub use position::{Position, Range};
pub use span::Span;
