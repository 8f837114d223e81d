//! Kept checks. A check of a module follows from what is held at its path, from its stem and from the keys of what its
//! imports show; so a later request need not check again what it finds here. For each pair two checks are kept: the one
//! that was put first last, and one beside it, for a text that is judged in turn with another.
//!
//! It stands on `oberon_module`, whose `Checked` it keeps, on `iface_key` for the keys of views, and on `target_graph` for
//! pairs; nothing of messages is known here, nor how a number is given to a key. Begin reading at `specs/Facts.antt`, which
//! says what a kept check promises, and `specs/Places.antt`; then `cache.rt`.
#![tactic(auto)]

mod cache;
mod choosing;
mod fact;
mod keeping;
mod pair;
mod same;

pub use cache::{Cache, Hit};
pub use fact::Fact;
pub use pair::PairKey;
