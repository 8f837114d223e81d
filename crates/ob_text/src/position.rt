/// A place in a text as the Language Server Protocol 3.17 gives it (section Position): both numbers count
/// from 0, and `character` counts units of UTF-16.
#[derive(Clone, Copy, Debug, PartialEq, Eq)]
pub struct Position {
    pub line: u32,
    pub character: u32,
}

/// A part of a text from `start` up to, and without, `end` (Language Server Protocol 3.17, section Range).
#[derive(Clone, Copy, Debug, PartialEq, Eq)]
pub struct Range {
    pub start: Position,
    pub end: Position,
}
