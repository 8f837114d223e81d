ghost use Rattle.std.specs.Prelude.{ℕ, ◌<◌, List, Option, length};
ghost use Rattle.bsp_edge.specs.Writing.{WriteFaults, WriteGives};

/// What a call of a sink answers.
#[derive(Clone, Copy, Debug, PartialEq, Eq)]
pub enum Put {
    /// This many bytes were taken from the front of the piece.
    Took(usize),
    /// The call failed and took nothing.
    Failed,
}

/// Where bytes go. No call takes memory of its caller.
pub trait Sink {
    /// What the sink was given, where it tells it.
    ghost given: { Self → Option (List ℕ) };

    /// How many calls failed. It stays at 2^64 - 1.
    ghost faults: { Self → ℕ };

    /// Takes bytes from the front of `piece`.
    fn write(&mut self, piece: &[u8]) -> Put
        requires { 0 < length piece.now }
        ensures given { WriteGives (given self.old) (given self.new) piece.now result }
        ensures faults { WriteFaults (faults self.old) (faults self.new) result };
}
