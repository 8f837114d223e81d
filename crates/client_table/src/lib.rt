//! What a client shows of each document and target, folded by the reset rule of the protocol: the client's table.
//!
//! It stands on `bsp_records`, whose `specs/Table.antt` has the rule, and knows nothing of messages. Begin reading at
//! `specs/Showing.antt` and `specs/Rows.antt`, then `table.rt`.
#![tactic(auto)]

mod copies;
mod rows;
mod shelf;
mod table;

pub use rows::Row;
pub use table::Table;
