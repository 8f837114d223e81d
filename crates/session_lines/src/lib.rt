//! What clients send and what they are told, each message as a line of words.
//!
//! For the rows of whole sessions in crates above; it stands on `bsp_edge` for the source that gives what is sent. It knows
//! the protocol's messages as text, and nothing of the server's records. Begin with `asked.rt` and `told.rt`, which say what
//! lines there are.
#![tactic(auto)]

mod asked;
mod fixed;
mod lists;
mod sent;
mod told;

pub use asked::{add_asked, compile};
pub use fixed::{CLOSED, EXIT, INITIALIZE, INITIALIZED, SHUTDOWN};
pub use lists::{List, published};
pub use sent::{Parts, Sent, add_frame, framed, joined};
pub use told::add_told;
