ghost use Rattle.std.specs.Prelude.{◌≡◌, ◌<◌, ◌≤◌, ◌↔◌, ◌-◌, ℕ, IfSome, IsTrue, List, drop, length, take};
ghost use Rattle.bsp_edge.specs.Reading.{TookInto};
ghost use Rattle.bsp_input.specs.Slots.{idle, asked, ended, asked_of, piece_limit, put_of, HandsOut, HandsPiece, holds};

use bsp_edge::Got;
use ob_text::NoMemory;
use std::alloc::Global;
use std::marker::Model;

/// The most bytes of a piece.
const PIECE: usize = 65_536;

/// A buffer with room for a piece.
#[derive(Drop)]
pub(crate) struct Room {
    pub(crate) bytes: Vec<u8>,
    pub(crate) ghost long: { length bytes.items ≡ piece_limit },
}

impl Room {
    pub(crate) fn new(alloc: Global) -> Result<Room, NoMemory> {
        match vec![in alloc; 0u8; PIECE] {
            Ok(bytes) => Ok(Room { bytes }),
            Err(_) => Err(NoMemory),
        }
    }
}

/// What stands between the reading thread and the session. Contracts see it as its place.
#[derive(Drop)]
pub(crate) struct Slot {
    state: State,
    /// The bytes behind the offset are left of a piece.
    bytes: Vec<u8>,
    offset: usize,
}

#[derive(Clone, Copy, PartialEq, Eq)]
enum State {
    Idle,
    Asked,
    Holds,
    Ended,
    Failed,
}

impl Model for Slot {
    ghost use Rattle.std.specs.Prelude.{◌≡◌, ◌≤◌, ◌<◌, drop, length};
    ghost use Rattle.bsp_input.specs.Slots.{Place, IsWithin, piece_limit, place_of};

    ghost Value = { Place };

    ghost view = { λ slot. place_of slot.state (drop slot.offset slot.bytes.items) };

    ghost invariant = { λ slot. IsWithin slot.state slot.offset (length slot.bytes.items) };
}

impl Slot {
    /// A slot from which nothing was asked. It takes the memory of a piece, and no more later.
    pub(crate) fn new(room: Room) -> Slot
        ensures { result ≡ idle }
    {
        Slot {
            state: State::Idle,
            bytes: room.bytes,
            offset: PIECE,
        }
    }

    pub(crate) fn is_idle(&self) -> bool
        ensures { IsTrue result ↔ (self.now ≡ idle) }
    {
        self.state == State::Idle
    }

    pub(crate) fn is_asked(&self) -> bool
        ensures { IsTrue result ↔ (self.now ≡ asked) }
    {
        self.state == State::Asked
    }

    pub(crate) fn is_ended(&self) -> bool
        ensures { IsTrue result ↔ (self.now ≡ ended) }
    {
        self.state == State::Ended
    }

    /// Asks for a piece, where nothing stands here.
    pub(crate) fn ask(&mut self)
        ensures { self.new ≡ asked_of self.old }
    {
        if self.state == State::Idle {
            self.state = State::Asked;
        }
    }

    /// Puts here what was read into the front of `read`.
    pub(crate) fn put(&mut self, read: &[u8], got: Got)
        requires within { length read.now ≤ piece_limit }
        requires took { TookInto read.now got }
        ensures { self.new ≡ put_of read.now got }
    {
        match got {
            Got::Bytes(count) => self.keep(&read[..count]),
            Got::End => self.state = State::Ended,
            Got::Quiet => self.state = State::Failed,
            Got::Failed => self.state = State::Failed,
        }
    }

    /// Keeps a piece at the end of the buffer.
    fn keep(&mut self, piece: &[u8])
        requires some { 0 < length piece.now }
        requires within { length piece.now ≤ piece_limit }
        ensures { self.new ≡ holds piece.now }
    {
        self.offset = self.bytes.len() - piece.len();
        fill_end(self.bytes.as_mut_slice(), piece);
        self.state = State::Holds;
    }

    /// Hands out from the front of what stands here. Nothing, where a piece is still to come.
    pub(crate) fn hand_out(&mut self, into: &mut [u8]) -> Option<Got>
        requires { 0 < length into.old }
        ensures hands { HandsOut self.old result into.new self.new }
        ensures took { IfSome result (TookInto into.new) }
    {
        match self.state {
            State::Idle => None,
            State::Asked => None,
            State::Holds => Some(Got::Bytes(self.hand_front(into))),
            State::Ended => Some(Got::End),
            State::Failed => {
                self.state = State::Idle;
                Some(Got::Failed)
            }
        }
    }

    /// Hands out from the front of a piece. Behind its last byte nothing stands here.
    fn hand_front(&mut self, into: &mut [u8]) -> usize
        requires room { 0 < length into.old }
        requires there { (left : List ℕ) × (self.old ≡ holds left) }
        ensures { (left : List ℕ) × (self.old ≡ holds left) × HandsPiece left result into.new self.new }
    {
        let (_, left) = self.bytes.as_slice().split_at(self.offset);
        let count = left.len().min(into.len());
        copy_front(left, into, count);
        self.offset += count;
        if self.offset == self.bytes.len() {
            self.state = State::Idle;
        }
        count
    }
}

/// Copies the first `count` bytes of `from` into the front of `into`.
fn copy_front(from: &[u8], into: &mut [u8], count: usize)
    requires from { count ≤ length from.now }
    requires into { count ≤ length into.old }
    ensures len { length into.new ≡ length into.old }
    ensures copied { take count into.new ≡ take count from.now }
{
    into[..count].copy_from_slice(&from[..count]);
}

/// Copies `piece` to the end of `bytes`.
fn fill_end(bytes: &mut [u8], piece: &[u8])
    requires { length piece.now ≤ length bytes.old }
    ensures len { length bytes.new ≡ length bytes.old }
    ensures filled { drop (length bytes.old - length piece.now) bytes.new ≡ piece.now }
{
    let (_, end) = bytes.split_at_mut(bytes.len() - piece.len());
    end.copy_from_slice(piece);
}
