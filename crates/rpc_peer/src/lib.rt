//! The messages of JSON-RPC 2.0: what a body means, how a message is written as a body, and which
//! requests are open.
//!
//! The crate stands on `ob_text`, and on `serde_json` for what JSON is. It knows no method and no frame.
//! Begin with `specs/Said.antt`, what a message says, and `specs/Meaning.antt`, what a body means; then
//! `message.rt` and `reading.rt`.
#![tactic(auto)]

mod members;
mod message;
mod open_ids;
mod reading;
mod refusal;
mod writing;

pub use message::{ErrorObject, ID_LIMIT, Id, Message};
pub use open_ids::{BeginFault, OpenIds};
pub use reading::{read_id, read_message};
pub use refusal::{INVALID_REQUEST, PARSE_ERROR, Refusal};
pub use writing::write_message;
