//! Rows of sessions in which builds are cancelled, as laws: which of them are lawful, and which are not.
//!
//! It stands on `session_law`, which says what is lawful, and it has no code but laws. The right row is
//! `proofs/BothCancelled.antt`; wrong ones are `Finishing.antt`, `AnyBuild.antt`, `Waiting.antt` and `Taking.antt`. They go by
//! `Next.antt`: what a build told that is to be cancelled decides what is written next. What isn't lawful between two pieces of a
//! list is `Between.antt`, and where a session doesn't rest is `Resting.antt`.
#![tactic(auto)]
