ghost use Rattle.std.specs.Prelude.{◌≡◌, ℕ, ◌+◌, ◌-◌, ◌<◌, ◌≤◌, ◌≢◌, ◌*◌, min, nat_lt, Some, All, drop, length, take, IsPermutation};
ghost use Rattle.std.specs.Bool.{OnTrue, OnFalse};
ghost use Rattle.std.specs.List.Sorted.{IsNonDecreasing, IsNonDecreasingBy};
ghost use Rattle.std.specs.List.{AllWithin};
ghost use Rattle.bsp_edge.specs.Course.{UsesPoll};
ghost use Rattle.bsp_edge.specs.Orders.{quiet_rank};
ghost use Rattle.bsp_edge.specs.Pieces.{HasNoPoll, IsLongestPiece, PassesNoCut, PassesNoQuiet, PieceAnswers, PollAnswers, PollStops, ReadAnswers, ReadStops, calls_after};
ghost use Rattle.bsp_edge.specs.Reading.{ReadFaults, ReadLeaves, ReadMoves};

use crate::calls::FailingCalls;
use crate::reading::{Got, Source};
use std::marker::Model;

/// A source in memory. Its pieces end where it was told, it is quiet where it was told, and told
/// calls of it fail.
pub struct MemSource {
    bytes: Vec<u8>,
    offset: usize,
    began: usize,
    cuts: Vec<u64>,
    quiet: Vec<(u64, u32)>,
    calls: FailingCalls,
}

impl Drop for MemSource {
    fn drop(self) {
        let Self {
            bytes: _,
            offset: _,
            began: _,
            cuts: _,
            quiet: _,
            calls: _,
        } = self;
    }
}

impl Model for MemSource {
    ghost use Rattle.std.specs.Prelude.{drop, length};
    ghost use Rattle.bsp_edge.specs.Orders.{IsInOrder};
    ghost use Rattle.bsp_edge.specs.Pieces.{SourceState};

    ghost Value = { SourceState };

    ghost view = { λ source. record {
      left = drop source.offset source.bytes.items;
      course = record { offset = source.offset; began = source.began; polls = source.quiet.items };
      cuts = source.cuts.items;
      calls = source.calls;
    } };

    ghost invariant = { λ source.
        IsInOrder source.offset (length source.bytes.items) source.cuts.items source.quiet.items };
}

impl MemSource {
    /// A source of `bytes`. An offset is a number of bytes from the start. A piece ends at each cut and
    /// at each quiet offset. At a quiet offset the stated number of polls answer Quiet. The calls with
    /// the ordinals in `failing` fail, reads and polls counted together from 1.
    pub fn new(
        bytes: Vec<u8>,
        mut cuts: Vec<u64>,
        mut quiet: Vec<(u64, u32)>,
        failing: Vec<u64>,
    ) -> MemSource
        ensures left { result.left ≡ bytes.items }
        ensures offset { result.course.offset ≡ 0 }
        ensures began { result.course.began ≡ 0 }
        ensures quiet { IsPermutation quiet.items result.course.polls }
        ensures cuts { IsPermutation cuts.items result.cuts }
        ensures failing { IsPermutation failing.items result.calls.failing }
        ensures made { result.calls.made ≡ 0 }
        ensures faults { result.calls.faults ≡ 0 }
    {
        cuts.sort_unstable();
        quiet.sort_unstable();
        MemSource {
            bytes,
            offset: 0,
            began: 0,
            cuts,
            quiet,
            calls: FailingCalls::new(failing),
        }
    }

    /// Takes the next piece into the front of `into`.
    fn take_piece(&mut self, into: &mut [u8]) -> Got
        requires { 0 < length into.old }
        ensures left { ReadLeaves (Some self.old.left) (Some self.new.left) into.new result }
        ensures course { ReadMoves (Some self.old.course) (Some self.new.course) result }
        ensures answer { PieceAnswers self.old.left self.old.course self.old.cuts (length into.old) result }
        ensures cuts { self.new.cuts ≡ self.old.cuts }
        ensures calls { self.new.calls ≡ self.old.calls }
    {
        let (_, left) = self.bytes.as_slice().split_at(self.offset);
        let room = left.len().min(into.len());
        if room == 0 {
            return Got::End;
        }
        let uncut = upto_cut(self.cuts.as_slice(), self.offset, room);
        let count = upto_quiet(self.quiet.as_slice(), self.offset, uncut);
        copy_front(left, into, count);
        self.began = self.offset;
        self.offset += count;
        Got::Bytes(count)
    }

    /// Uses up a poll at this offset, if one is left there.
    fn use_poll(&mut self) -> bool
        ensures used { OnTrue result (UsesPoll self.old.course self.new.course) }
        ensures none { OnFalse result (HasNoPoll self.old.course) }
        ensures same { OnFalse result (self.new ≡ self.old) }
        ensures left { self.new.left ≡ self.old.left }
        ensures cuts { self.new.cuts ≡ self.old.cuts }
        ensures calls { self.new.calls ≡ self.old.calls }
    {
        let offset = self.offset as u64;
        let first = polls_passed(self.quiet.as_slice(), offset);
        if first == self.quiet.len() {
            return false;
        }
        let (stop, polls) = self.quiet[first];
        if stop != offset {
            return false;
        }
        self.quiet[first] = (stop, polls - 1);
        true
    }
}

impl Source for MemSource {
    ghost left = { λ source. Some source.left };

    ghost course = { λ source. Some source.course };

    ghost faults = { λ source. source.calls.faults };

    #[tactic(auto, using(crate::proofs::PieceLaws::read_answers))]
    fn read(&mut self, into: &mut [u8]) -> Got
        requires { 0 < length into.old }
        ensures left { ReadLeaves (Some self.old.left) (Some self.new.left) into.new result }
        ensures course { ReadMoves (Some self.old.course) (Some self.new.course) result }
        ensures stops { ReadStops (Some self.old.course) result }
        ensures faults { ReadFaults self.old.calls.faults self.new.calls.faults result }
        ensures awake { result ≢ Got.Quiet }
        ensures answer { ReadAnswers self.old (length into.old) result }
        ensures cuts { self.new.cuts ≡ self.old.cuts }
        ensures calls { self.new.calls ≡ calls_after result self.old.calls }
    {
        if self.calls.next_fails() {
            return Got::Failed;
        }
        self.take_piece(into)
    }

    #[tactic(auto, using(crate::proofs::PieceLaws::poll_answers))]
    fn poll(&mut self, into: &mut [u8]) -> Got
        requires { 0 < length into.old }
        ensures left { ReadLeaves (Some self.old.left) (Some self.new.left) into.new result }
        ensures course { ReadMoves (Some self.old.course) (Some self.new.course) result }
        ensures stops { PollStops (Some self.old.course) result }
        ensures faults { ReadFaults self.old.calls.faults self.new.calls.faults result }
        ensures answer { PollAnswers self.old (length into.old) result }
        ensures cuts { self.new.cuts ≡ self.old.cuts }
        ensures calls { self.new.calls ≡ calls_after result self.old.calls }
    {
        if self.calls.next_fails() {
            Got::Failed
        } else if self.use_poll() {
            Got::Quiet
        } else {
            self.take_piece(into)
        }
    }
}

/// Copies the first `count` bytes.
fn copy_front(from: &[u8], into: &mut [u8], count: usize)
    requires from { count ≤ length from.now }
    requires into { count ≤ length into.old }
    ensures { take count into.new ≡ take count from.now }
{
    into[..count].copy_from_slice(&from[..count]);
}

/// The longest piece of at most `room` bytes from `offset` that passes no cut.
fn upto_cut(cuts: &[u64], offset: usize, room: usize) -> usize
    requires { IsNonDecreasing cuts.now }
    ensures room { result ≤ room }
    ensures some { 0 < room → 0 < result }
    ensures cuts { PassesNoCut cuts.now offset result }
    ensures longest { (other : ℕ) → other ≤ room → PassesNoCut cuts.now offset other → other ≤ result }
{
    let next = cuts_passed(cuts, offset as u64);
    if next == cuts.len() {
        return room;
    }
    upto(cuts[next], offset, room)
}

/// The longest piece of at most `room` bytes from `offset` that passes no quiet offset.
fn upto_quiet(quiet: &[(u64, u32)], offset: usize, room: usize) -> usize
    requires { IsNonDecreasingBy quiet_rank quiet.now }
    ensures room { result ≤ room }
    ensures some { 0 < room → 0 < result }
    ensures quiet { PassesNoQuiet quiet.now offset result }
    ensures longest { (other : ℕ) → other ≤ room → PassesNoQuiet quiet.now offset other → other ≤ result }
{
    let next = quiet_passed(quiet, offset as u64);
    if next == quiet.len() {
        return room;
    }
    upto(quiet[next].0, offset, room)
}

/// The bytes from `offset` to `stop`, at most `room` of them.
fn upto(stop: u64, offset: usize, room: usize) -> usize
    requires { offset < stop }
    ensures { result ≡ min room (stop - offset) }
{
    let ahead = (stop - offset as u64) as usize;
    ahead.min(room)
}

/// How many cuts are at `offset` or before it. They stand first.
fn cuts_passed(cuts: &[u64], offset: u64) -> usize
    requires { IsNonDecreasing cuts.now }
    ensures within { result ≤ length cuts.now }
    ensures passed { AllWithin (λ cut. cut ≤ offset) cuts.now 0 result }
    ensures ahead { AllWithin (λ cut. offset < cut) cuts.now result (length cuts.now) }
{
    cuts.partition_point(|cut| *cut <= offset)
}

/// How many quiet offsets are at `offset` or before it. They stand first.
fn quiet_passed(quiet: &[(u64, u32)], offset: u64) -> usize
    requires { IsNonDecreasingBy quiet_rank quiet.now }
    ensures within { result ≤ length quiet.now }
    ensures passed { AllWithin (λ stop. stop.0 ≤ offset) quiet.now 0 result }
    ensures ahead { AllWithin (λ stop. offset < stop.0) quiet.now result (length quiet.now) }
{
    quiet.partition_point(|stop| stop.0 <= offset)
}

/// How many quiet offsets are before `offset`, or at it with no poll left. They stand first.
fn polls_passed(quiet: &[(u64, u32)], offset: u64) -> usize
    requires { IsNonDecreasingBy quiet_rank quiet.now }
    ensures within { result ≤ length quiet.now }
    ensures passed { AllWithin (λ stop. quiet_rank stop < 2 * offset + 1) quiet.now 0 result }
    ensures ahead { AllWithin (λ stop. 2 * offset + 1 ≤ quiet_rank stop) quiet.now result (length quiet.now) }
{
    quiet.partition_point(|stop| is_spent(*stop, offset))
}

/// Is this quiet offset before `offset`, or at it with no poll left?
fn is_spent(stop: (u64, u32), offset: u64) -> bool
    ensures { result ≡ nat_lt (quiet_rank stop) (2 * offset + 1) }
{
    stop.0 < offset || (stop.0 == offset && stop.1 == 0)
}
