//! What a client shows of each document and target, and the publications that change it.
//!
//! It stands on `bsp_records`, whose `specs/Table.antt` says what a client shows, and on `bsp_address` and `ob_text`. It
//! knows the client's table, and nothing of a session. Begin with `specs/Pieces.antt`, then `Shown::publish` in
//! `shown.rt`; a publication waits as a `Piece` (`piece.rt`).
#![tactic(auto)]

mod piece;
mod same;
mod shown;

pub use piece::Piece;
pub use shown::{Shown, TableKey};
