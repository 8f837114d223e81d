/// Why a run can't go on.
#[derive(Clone, Copy, Debug, PartialEq, Eq)]
pub enum TrapKind {
    /// A result is outside 32 bits.
    Overflow,
    /// DIV or MOD by 0 or less.
    Division,
    /// An index is outside its array.
    Index,
    /// A BYTE, a CHR, an element of a set or a shift is outside its range.
    Range,
    /// No label of a CASE fits.
    NoCase,
    /// A variable isn't of a guard's type.
    Guard,
    /// ASSERT of FALSE.
    Assertion,
    /// A call goes deeper than 256.
    Depth,
    /// The variables of modules and calls are more than 4,194,304 scalars.
    Storage,
    /// No rule says what is to be done.
    Stuck,
}
