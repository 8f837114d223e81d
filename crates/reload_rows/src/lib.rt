//! The law that a document which the workspace in force doesn't have shows nothing, and rows of reloads and cleanings, as laws:
//! which of them are lawful, and which are not.
//!
//! It stands on `session_law`, which says what is lawful, and it has no code but laws. `specs/Own.antt` says the law, and
//! `proofs/OwnLaws.antt` proves it along the events of an order. The right row is `proofs/OneReload.antt`; wrong ones are
//! `Accepted.antt`, `Refused.antt` and `Waiting.antt`, which go by `Telling.antt`: what a reload tells is decided. What isn't
//! lawful before a question is answered is `Unanswered.antt`.
#![tactic(auto)]

mod laws;

pub use laws::shows_own;
