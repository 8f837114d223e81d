use crate::bytes::Name;
use crate::code::Code;
use crate::position::Range;
use crate::span::Span;

/// One finding about a text: what it is, and the part of the text that it is about, by bytes and by
/// positions. `name` is the name that the message ends with, for the codes whose message has one.
#[derive(Debug, Drop, PartialEq)]
pub struct Diagnostic {
    pub span: Span,
    pub range: Range,
    pub code: Code,
    pub name: Option<Name>,
}
