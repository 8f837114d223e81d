ghost use Rattle.std.specs.Prelude.{◌≡◌, ◌+◌, ◌<◌, ◌≤◌, [], Some, length, IfOk, IsPermutation};
ghost use Rattle.bsp_edge.specs.Stores.{WriteAnswers, calls_written};
ghost use Rattle.bsp_edge.specs.Writing.{WriteFaults, WriteGives};

use crate::calls::FailingCalls;
use crate::writing::{Put, Sink};
use ob_text::NoMemory;
use std::alloc::Global;
use std::marker::Model;

/// A sink in memory. It has room for a stated number of bytes, and told calls of it fail.
pub struct MemSink {
    bytes: Vec<u8>,
    room: usize,
    calls: FailingCalls,
}

impl Drop for MemSink {
    fn drop(self) {
        let Self {
            bytes: _,
            room: _,
            calls: _,
        } = self;
    }
}

impl Model for MemSink {
    ghost use Rattle.std.specs.Prelude.{◌≤◌, length, vec_capacity};
    ghost use Rattle.bsp_edge.specs.Stores.{SinkState, FitsRoom};

    ghost Value = { SinkState };

    ghost view = { λ sink. record { given = sink.bytes.items; room = sink.room; calls = sink.calls } };

    ghost invariant = { λ sink. FitsRoom (length sink.bytes.items) sink.room (vec_capacity sink.bytes) };
}

impl MemSink {
    /// Takes memory for `room` bytes at once. The calls with the ordinals in `failing` fail, counted
    /// from 1.
    pub fn new(alloc: Global, room: usize, failing: Vec<u64>) -> Result<MemSink, NoMemory>
        ensures given { IfOk result (λ sink. sink.given ≡ []) }
        ensures room { IfOk result (λ sink. sink.room ≡ room) }
        ensures failing { IfOk result (λ sink. IsPermutation failing.items sink.calls.failing) }
        ensures made { IfOk result (λ sink. sink.calls.made ≡ 0) }
        ensures faults { IfOk result (λ sink. sink.calls.faults ≡ 0) }
    {
        Ok(MemSink {
            bytes: Vec::with_capacity(alloc, room)?,
            room,
            calls: FailingCalls::new(failing),
        })
    }

    /// What the sink holds.
    pub fn given(&self) -> &[u8]
        ensures { result.now ≡ self.now.given }
    {
        self.bytes.as_slice()
    }
}

impl Sink for MemSink {
    ghost given = { λ sink. Some sink.given };

    ghost faults = { λ sink. sink.calls.faults };

    fn write(&mut self, piece: &[u8]) -> Put
        requires { 0 < length piece.now }
        ensures given { WriteGives (Some self.old.given) (Some self.new.given) piece.now result }
        ensures faults { WriteFaults self.old.calls.faults self.new.calls.faults result }
        ensures answer { WriteAnswers self.old (length piece.now) result }
        ensures calls { self.new.calls ≡ calls_written result self.old.calls }
        ensures room { self.new.room ≡ self.old.room }
    {
        if self.calls.next_fails() {
            return Put::Failed;
        }
        if self.room - self.bytes.len() < piece.len() {
            self.calls.count_fault();
            return Put::Failed;
        }
        self.bytes.extend_from_slice(piece).unwrap();
        Put::Took(piece.len())
    }
}
