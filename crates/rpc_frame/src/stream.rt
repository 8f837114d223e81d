ghost use Rattle.std.specs.Prelude.{◌≡◌, ℕ, ◌+◌, ◌<◌, ◌≤◌, ◌↔◌, List, [], ◌++◌, length, drop, IsTrue, IfOk, IfErr, IfSome, IfNone, OnOk, OnErr, IsErrOf};
ghost use Rattle.rpc_frame.specs.declared.damage.Damage.{Damage};
ghost use Rattle.rpc_frame.specs.Damages.{HasDamage, IfDamaged};
ghost use Rattle.rpc_frame.specs.Frames.{BeginsWith, HasNoFrame, IsBorder, IsBroken, IsSound};
ghost use Rattle.rpc_frame.specs.Limits.{content_limit, stream_limit};

use crate::STREAM_LIMIT;
use crate::damage::{Damage, FeedFault};
use crate::reading::{Mark, Reading};
use crate::scan::append;
use ob_text::NoMemory;
use std::alloc::Global;
use std::collections::VecDeque;
use std::marker::Model;

/// Cuts a stream that comes in any pieces into the contents of its frames. Looks at each byte of a
/// header once, and copies a content once. Of the bytes that it gave it keeps no more than it has still
/// to give.
#[derive(Debug)]
pub struct Decoder {
    alloc: Global,
    /// The end of the stream, of which the first `start` bytes were given.
    bytes: Vec<u8>,
    start: usize,
    /// The whole frames that were not given yet, in order.
    marks: VecDeque<Mark>,
    /// What has come behind them.
    reading: Reading,
    given_end: u64,
}

impl Drop for Decoder {
    fn drop(self) {
        let Self {
            alloc: _,
            bytes: _,
            start: _,
            marks: _,
            reading: _,
            given_end: _,
        } = self;
    }
}

impl Model for Decoder {
    ghost use Rattle.std.specs.Prelude.{drop};
    ghost use Rattle.rpc_frame.specs.Frames.{Waiting};

    ghost Value = { Waiting };

    ghost use Rattle.rpc_frame.specs.Kept.{KnowsBytes};

    ghost view = { λ d. record { bytes = drop d.start d.bytes.items; given_end = d.given_end } };

    ghost invariant = { KnowsBytes };
}

impl Decoder {
    /// A decoder at the start of its stream.
    pub fn new(alloc: Global) -> Decoder
        ensures { result ≡ record { bytes = []; given_end = 0 } }
    {
        Decoder {
            alloc,
            bytes: Vec::new(alloc),
            start: 0,
            marks: VecDeque::new(alloc),
            reading: Reading::START,
            given_end: 0,
        }
    }

    /// Takes the next piece of the stream. Frames that end before a damage are given all the same.
    pub fn feed(&mut self, piece: &[u8]) -> Result<(), FeedFault>
        requires { self.old.given_end + length self.old.bytes + length piece.now ≤ stream_limit }

        // The piece is taken, unless there is no memory.
        ensures taken { (IsErrOf result FeedFault.NoMemory → ⊥)
            → self.new ≡ record self.old { bytes = self.old.bytes ++ piece.now } }
        ensures kept { IsErrOf result FeedFault.NoMemory → self.new ≡ self.old }

        // Damage is told as soon as no list of frames can begin so, with its place and its kind.
        ensures sound { OnOk result (IsSound self.new.bytes) }
        ensures damaged { IfErr result (λ fault. IfDamaged fault (λ _. IsBroken self.new.bytes)) }
        ensures place { IfErr result (λ fault. IfDamaged fault (HasDamage self.new)) }

        // No other answer is given to a stream with damage, and the same damage is told from then on.
        ensures exact { (damage : Damage) → HasDamage self.new damage
            → (IsErrOf result FeedFault.NoMemory → ⊥)
            → IsErrOf result (FeedFault.Damaged damage) }
        ensures again { (damage : Damage) → HasDamage self.old damage
            → (IsErrOf result FeedFault.NoMemory → ⊥)
            → IsErrOf result (FeedFault.Damaged damage) }
    {
        let begun = self.given_end + (self.bytes.len() - self.start) as u64;
        let reading = append(&mut self.bytes, &mut self.marks, self.reading, begun, piece)?;
        self.reading = reading;
        if let Some(damage) = reading.damage() {
            return Err(FeedFault::Damaged(damage));
        }
        Ok(())
    }

    /// The content of the next whole frame.
    pub fn next_body(&mut self) -> Result<Option<Vec<u8>>, NoMemory>
        ensures some { IfOk result (λ next. IfSome next (λ body.
            BeginsWith self.old.bytes body.items self.new.bytes)) }
        ensures limit { IfOk result (λ next. IfSome next (λ body.
            length body.items ≤ content_limit)) }
        ensures fewer { IfOk result (λ next. IfSome next (λ _.
            length self.new.bytes < length self.old.bytes)) }
        ensures none { IfOk result (λ next. IfNone next (HasNoFrame self.old.bytes)) }
        ensures none_kept { IfOk result (λ next. IfNone next (self.new ≡ self.old)) }
        ensures count { self.new.given_end + length self.new.bytes
            ≡ self.old.given_end + length self.old.bytes }
        ensures err { OnErr result (self.new ≡ self.old) }
    {
        let mark = match self.marks.front() {
            None => return Ok(None),
            Some(mark) => *mark,
        };
        let waiting = self.bytes.as_slice().split_at(self.start).1;
        let content = waiting.split_at(mark.header).1.split_at(mark.content).0;
        let body = Vec::from_slice(self.alloc, content)?;
        let length = mark.header + mark.content;
        self.marks.pop_front();
        self.start = compact(&mut self.bytes, self.start + length);
        self.given_end += length as u64;
        Ok(Some(body))
    }

    /// Whether the stream ends with a frame, or is empty.
    pub fn at_border(&self) -> bool
        ensures { IsTrue result ↔ IsBorder self.now.bytes }
    {
        self.reading.is_start()
    }

    /// How many bytes the stream has through the last frame that was given.
    pub fn given_end(&self) -> u64
        ensures { result ≡ self.now.given_end }
    {
        self.given_end
    }

    /// How many more bytes of the stream the decoder takes.
    pub fn room(&self) -> u64
        ensures { self.now.given_end + length self.now.bytes + result ≡ stream_limit }
    {
        STREAM_LIMIT - self.given_end - (self.bytes.len() - self.start) as u64
    }
}

/// Drops the bytes before this index once they are more than the others, and tells where the others
/// begin. So a byte is moved no more often than one is dropped.
fn compact(bytes: &mut Vec<u8>, start: usize) -> usize
    requires { start ≤ length bytes.old.items }
    ensures others { drop result bytes.new.items ≡ drop start bytes.old.items }
    ensures half { result ≤ length (drop result bytes.new.items) }
{
    let left = bytes.len() - start;
    if start <= left {
        return start;
    }
    bytes.copy_within(start.., 0);
    bytes.truncate(left);
    0
}
