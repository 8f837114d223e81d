//! Rows of small programs, as laws: how each ends by the rules of evaluation, what it writes, and how many steps it takes.
//!
//! It stands on `run_rules`, whose definitions each row computes, and it has no code but laws. A program is its texts with
//! their trees; that these are the trees of the texts is a part of each row (`specs/Spelled.antt`). `specs/Coming.antt` says
//! what a row says. Begin reading at `loops.rt`, beside `specs/Loops.antt`.
#![tactic(auto)]

mod arrays;
mod bytes;
mod calls;
mod choices;
mod loops;
mod modules;
mod numbers;
mod records;
mod reports;
mod sets;

pub use arrays::arrays_come_to;
pub use bytes::bytes_come_to;
pub use calls::calls_come_to;
pub use choices::choices_come_to;
pub use loops::loops_come_to;
pub use modules::modules_come_to;
pub use numbers::numbers_come_to;
pub use records::records_come_to;
pub use reports::reports_come_to;
pub use sets::sets_come_to;
