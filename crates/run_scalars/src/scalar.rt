/// What a cell holds.
#[derive(Clone, Copy, Debug, PartialEq, Eq)]
pub enum Scalar {
    Integer(i32),
    Char(u8),
    Boolean(bool),
    /// A set of the numbers 0 to 31: number n is in it where bit n is 1.
    Set(u32),
}

/// The types of variables that have one cell.
#[derive(Clone, Copy, Debug, PartialEq, Eq)]
pub enum ScalarType {
    Integer,
    Byte,
    Char,
    Boolean,
    Set,
}

/// Whether a procedure adds to a variable, as INC and INCL do, or takes from it, as DEC and EXCL do.
#[derive(Clone, Copy, Debug, PartialEq, Eq)]
pub enum Change {
    Add,
    Take,
}
