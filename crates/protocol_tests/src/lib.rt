//! Tests of the public calls of the crates that read and write the protocol: `bsp_address`, `rpc_frame`, `rpc_peer`,
//! `bsp_records` and `task_stream`.
//!
//! They stand above those crates, so that none is proved once more with its tests, and may know what these make public.
//! There is nothing here to call. Begin with `streams.rt` for frames, `messages.rt`, and `records.rt` for records.
#![tactic(auto)]

#[cfg(test)]
mod frames;
#[cfg(test)]
mod messages;
#[cfg(test)]
mod records;
#[cfg(test)]
mod streams;
