//! Standard input, read beside the session: a thread of its own reads it while a build runs, so that a poll sees what came.
//!
//! The session reads standard input itself as long as nothing is out. Its first poll asks the thread for a piece, which is
//! put into a slot between the two; what stands there is handed out by the polls and reads behind it, and only then is
//! another one asked for. It stands on the sources of `bsp_edge` and knows nothing of frames. Begin with `slot.rt`, and with
//! `specs/Slots.antt`, which says what each move of the slot does; then `laws.rt`, for what follows of all moves, `meeting.rt`,
//! for what each side does under the lock, and `stdin.rt`.
#![tactic(auto)]

mod laws;
mod meeting;
mod slot;
mod stdin;

pub use laws::hands_out_what_was_read;
pub use stdin::StdinSource;
