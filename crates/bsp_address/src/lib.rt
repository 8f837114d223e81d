//! The address of a document or a target: printing ASCII characters, no more than its limit.
//!
//! It stands on `ob_text`, and knows nothing of what an address is made of. Begin with `specs/Address.antt`, which says
//! what an address is; the code is `Address` in `address.rt`.
#![tactic(auto)]

mod address;

pub use address::{Address, is_graphic};
