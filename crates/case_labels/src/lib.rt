//! Numbers that are given as ranges, one after another: whether a range has a number in common with those before it, in
//! a time that grows by the logarithm of their count. So are the labels of a CASE judged.
//!
//! It stands on `ob_text` for want of memory alone, and knows nothing of labels but their numbers. Begin reading at
//! `specs/Ranges.antt`, then `numbers.rt`; below it stands `joined.rt`.
#![tactic(auto)]

mod joined;
mod numbers;

pub use numbers::Numbers;
