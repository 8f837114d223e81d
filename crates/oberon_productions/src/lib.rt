//! The productions of the grammar (The Programming Language Oberon-07, sections 4 to 11) below the module: from the
//! front of a list of tokens, the tree of what has to stand there and the tokens behind it, or how many tokens are
//! left where no module goes on. It stands on `oberon_scan` for tokens and on `oberon_tree` for trees, and may know the
//! grammar and nothing of texts nor of the server. Begin reading at `specs/Machine.antt`, the machine with a stack of
//! what is expected that all contracts speak of, then at `specs/Reading.antt` and `declaration.rt`.
#![tactic(auto)]

mod declaration;
mod expression;
mod formal;
mod join;
mod label;
mod local;
mod name;
mod procedure;
mod read;
mod statement;
mod stop;
mod types;

pub use declaration::declarations;
pub use join::keeping;
pub use procedure::{body, procedures};
pub use read::{need_ident, need_symbol, need_word, symbol, word};
pub use stop::Stop;
