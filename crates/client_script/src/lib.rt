//! Scripts of a client: their lines, or the first bad line.
//!
//! It stands on `ob_text`, and on `itoa` for decimal numbers; it knows nothing of messages. Begin reading at
//! `specs/Scripts.antt`, then `script.rt`; below it stand `line.rt`, `verb.rt` and `pieces.rt`.
#![tactic(auto)]

mod line;
mod pieces;
mod reading;
mod script;
mod verb;

pub use line::Line;
pub use script::{Script, ScriptFault, read_script};
