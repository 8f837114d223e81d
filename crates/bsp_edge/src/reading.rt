ghost use Rattle.std.specs.Prelude.{◌≢◌, ℕ, ◌<◌, List, Option, length};
ghost use Rattle.bsp_edge.specs.Course.{Course};
ghost use Rattle.bsp_edge.specs.Pieces.{PollStops, ReadStops};
ghost use Rattle.bsp_edge.specs.Reading.{ReadFaults, ReadLeaves, ReadMoves};

/// What a call of a source answers.
#[derive(Clone, Copy, Debug, PartialEq, Eq)]
pub enum Got {
    /// This many bytes were taken into the front of the buffer.
    Bytes(usize),
    /// Nothing is left, now and ever after.
    End,
    /// Nothing is there yet.
    Quiet,
    /// The call failed and took nothing.
    Failed,
}

/// Where bytes come from. No call takes memory.
pub trait Source {
    /// What is left of the stream, where the source tells it.
    ghost left: { Self → Option (List ℕ) };

    /// How far the source has come, where it tells it.
    ghost course: { Self → Option Course };

    /// How many calls failed. It stays at 2^64 - 1.
    ghost faults: { Self → ℕ };

    /// Takes a piece into the front of `into`. Waits for it where that is needed.
    fn read(&mut self, into: &mut [u8]) -> Got
        requires { 0 < length into.old }
        ensures left { ReadLeaves (left self.old) (left self.new) into.new result }
        ensures course { ReadMoves (course self.old) (course self.new) result }
        ensures stops { ReadStops (course self.old) result }
        ensures faults { ReadFaults (faults self.old) (faults self.new) result }
        ensures awake { result ≢ Got.Quiet };

    /// Takes a piece into the front of `into` if one is there.
    fn poll(&mut self, into: &mut [u8]) -> Got
        requires { 0 < length into.old }
        ensures left { ReadLeaves (left self.old) (left self.new) into.new result }
        ensures course { ReadMoves (course self.old) (course self.new) result }
        ensures stops { PollStops (course self.old) result }
        ensures faults { ReadFaults (faults self.old) (faults self.new) result };
}
