//! The outside of the program: where its bytes and the texts of files come from, and where its bytes go.
//!
//! `Source`, `Sink` and `Tree` say what a call of each does, by its answer. `MemSource`, `MemSink` and
//! `MemTree` tell all that they hold, and fail where they were told to. `StdinSource`, `RealSink` and
//! `FolderTree` are the real ones, and tell nothing of their contents. The crate stands on `ob_text` and
//! knows nothing of frames. Begin with `reading.rt`, `writing.rt` and `handing.rt`.
#![tactic(auto)]

mod calls;
mod document;
mod folder_tree;
mod handing;
mod mem_sink;
mod mem_source;
mod mem_tree;
mod reading;
mod streams;
mod writing;

pub use folder_tree::FolderTree;
pub use handing::{Tree, TreeFault};
pub use mem_sink::MemSink;
pub use mem_source::MemSource;
pub use mem_tree::MemTree;
pub use reading::{Got, Source};
pub use streams::{RealSink, StdinSource, read_piece, write_piece};
pub use writing::{Put, Sink};
