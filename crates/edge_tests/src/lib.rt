//! Tests of the public calls of `ob_text` and `bsp_edge`.
//!
//! They stand above those crates, so that neither is proved once more with its tests, and may know what these make public.
//! There is nothing here to call. Begin with `trees.rt` for trees in memory and `files.rt` for a real folder.
#![tactic(auto)]

#[cfg(test)]
mod files;
#[cfg(test)]
mod positions;
#[cfg(test)]
mod sinks;
#[cfg(test)]
mod sources;
#[cfg(test)]
mod streams;
#[cfg(test)]
mod texts;
#[cfg(test)]
mod trees;
