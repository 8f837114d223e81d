//! The frames of the base protocol (Language Server Protocol 3.17): a stream that comes in any
//! pieces is cut into the contents of its frames, and a content is written as a frame.
//!
//! The crate stands on `ob_text`, and on `itoa` for decimal numbers. It knows nothing of messages. Begin
//! with `specs/Frames.antt`, what a frame is, and `specs/Damages.antt`, where a stream stops being frames
//! and why; then `stream.rt`. The other files of `specs/` say what the decoder keeps, for its private
//! functions alone.
#![tactic(auto)]

mod damage;
mod head;
mod reading;
mod scan;
mod stream;
mod write;

pub use damage::{Damage, DamageKind, FeedFault};
pub use stream::Decoder;
pub use write::frame_into;

/// The most bytes that the header part of a frame may have, with the empty line that closes it.
pub const HEADER_LIMIT: usize = 1_024;

/// The most bytes that the content of a frame may have.
pub const CONTENT_LIMIT: usize = 16_777_216;

/// The most bytes of one stream that a decoder takes.
pub const STREAM_LIMIT: u64 = 34_359_738_368;
