/// How a run of the program ends.
#[derive(Clone, Copy, Debug, PartialEq, Eq)]
pub enum Status {
    /// The client exited after a shutdown that was answered.
    Closed = 0,
    /// It exited without one, or its input ended behind a whole frame.
    Unclosed = 1,
    /// The input is damaged or ends inside a frame.
    Damaged = 2,
    /// Reading the input failed.
    InputFailed = 3,
    /// Writing failed.
    SinkFailed = 4,
    NoMemory = 5,
    /// The words of the command line ask for nothing that the program does.
    Usage = 6,
}

impl Status {
    ghost use Rattle.std.specs.Prelude.{◌≡◌};
    ghost use Rattle.bsp_cli.specs.Outcomes.{code_of};

    /// The exit status of the process.
    pub fn code(self) -> u8
        ensures { result ≡ code_of self }
    {
        self as u8
    }
}
