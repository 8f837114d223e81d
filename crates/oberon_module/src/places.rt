ghost use Rattle.std.specs.Prelude.{◌≡◌, ◌<◌, ◌+◌};
ghost use Rattle.ob_text.specs.Position.{position_at, range_at};
ghost use Rattle.oberon_module.specs.Sweeps.{IsSweep};

use ob_text::{Cursor, Position, Range, Span, position_of};

/// The ranges of spans of a text. It finds them in one sweep where they come in the order of their starts, as they do
/// in a list; each is right in any order.
#[derive(Drop)]
pub struct Sweep<'t> {
    text: &'t [u8],
    cursor: Cursor<'t>,
    reached: u32,
}

impl<'t> Sweep<'t> {
    pub fn new(text: &'t [u8]) -> Sweep<'t>
        ensures sweep { IsSweep result }
        ensures text { result.text.now ≡ text.now }
    {
        Sweep {
            text,
            cursor: Cursor::new(text),
            reached: 0,
        }
    }

    /// The range of a span.
    pub fn range_of(&mut self, span: Span) -> Range
        requires { IsSweep self.old }
        ensures range { result ≡ range_at self.old.text.now span }
        ensures sweep { IsSweep self.new }
        ensures text { self.new.text.now ≡ self.old.text.now }
    {
        if self.reached <= span.start
            && span.start <= span.end
            && span.end as usize <= self.text.len()
        {
            self.reached = span.start;
            self.cursor.range_of(span)
        } else {
            Range {
                start: position(self.text, span.start),
                end: position(self.text, span.end),
            }
        }
    }
}

/// The position of any offset. Behind the end of the text, where no tree has a span, each offset counts as one unit.
fn position(text: &[u8], offset: u32) -> Position
    ensures { result ≡ position_at text.now offset }
{
    if offset as usize <= text.len() {
        return position_of(text, offset);
    }
    let end = text.len() as u32;
    let at = position_of(text, end);
    Position {
        line: at.line,
        character: at.character + (offset - end),
    }
}
