ghost use Rattle.std.specs.Prelude.{◌≡◌, ◌≤◌, ◌<◌, ◌+◌, ◌^◌, List, ℕ, true, length, slice_range};
ghost use Rattle.std.specs.List.{flat_map};
ghost use Rattle.std.specs.Str.{all_scalars, encode_utf8_all};
ghost use Rattle.std.specs.Char.Escape.{encode_utf16};
ghost use Rattle.ob_text.specs.Position.{position_at, range_at, line_start, ends_line, begins_unit, IsPart};

use crate::position::{Position, Range};
use crate::span::Span;
use std::marker::Model;

/// An offset in a text that moves forward, with its position. It finds the positions of offsets that come in
/// order in one sweep of the text.
#[derive(Drop)]
pub struct Cursor<'a> {
    text: &'a [u8],
    offset: u32,
    position: Position,
}

impl<'a> Model for Cursor<'a> {
    ghost use Rattle.ob_text.specs.Cursor.{Reached, reached, IsAtPosition};

    ghost Value = { Reached };

    ghost view = { reached };

    ghost invariant = { IsAtPosition };
}

impl<'a> Cursor<'a> {
    /// Stands at the beginning of the text.
    pub fn new(text: &'a [u8]) -> Cursor<'a>
        ensures text { result.text ≡ text.now }
        ensures offset { result.offset ≡ 0 }
    {
        Cursor {
            text,
            offset: 0,
            position: Position {
                line: 0,
                character: 0,
            },
        }
    }

    /// Goes forward to an offset, and gives its position.
    pub fn move_to(&mut self, offset: u32) -> Position
        requires forward { self.old.offset ≤ offset }
        requires within { offset ≤ length self.old.text }
        ensures position { result ≡ position_at self.old.text offset }
        ensures text { self.new.text ≡ self.old.text }
        ensures offset { self.new.offset ≡ offset }
    {
        while self.offset < offset {
            self.step();
        }
        self.position
    }

    /// Goes forward to the start of a part, and gives the part's range.
    pub fn range_of(&mut self, span: Span) -> Range
        requires forward { self.old.offset ≤ span.start }
        requires part { IsPart self.old.text span }
        ensures range { result ≡ range_at self.old.text span }
        ensures text { self.new.text ≡ self.old.text }
        ensures offset { self.new.offset ≡ span.start }
    {
        let start = self.move_to(span.start);
        let mut ahead = Cursor {
            text: self.text,
            offset: self.offset,
            position: self.position,
        };
        let end = ahead.move_to(span.end);
        Range { start, end }
    }

    /// Goes one byte forward.
    fn step(&mut self)
        requires room { self.old.offset < length self.old.text }
        requires counted { self.old.offset + 1 < 2 ^ 32 }
        ensures text { self.new.text ≡ self.old.text }
        ensures offset { self.new.offset ≡ self.old.offset + 1 }
    {
        let at = self.offset as usize;
        self.position = behind(self.position, self.text, at);
        self.offset += 1;
    }
}

/// The position behind the byte at `at`, which is at `position`.
fn behind(position: Position, text: &[u8], at: usize) -> Position
    requires within { at < length text.now }
    requires counted { at + 1 < 2 ^ 32 }
    requires before { position ≡ position_at text.now at }
    ensures { result ≡ position_at text.now (at + 1) }
{
    if ends_line(text, at) {
        Position {
            line: position.line + 1,
            character: 0,
        }
    } else if begins_unit(text, at) {
        Position {
            line: position.line,
            character: position.character + 1,
        }
    } else {
        position
    }
}

/// Whether a line ends behind the byte at `at`.
fn ends_line(text: &[u8], at: usize) -> bool
    requires { at < length text.now }
    ensures { result ≡ ends_line text.now at }
{
    match text[at] {
        b'\n' => true,
        b'\r' => text.get(at + 1).copied() != Some(b'\n'),
        _ => false,
    }
}

/// Whether a unit of UTF-16 begins at the byte at `at`.
fn begins_unit(text: &[u8], at: usize) -> bool
    requires { at < length text.now }
    ensures { result ≡ begins_unit text.now at }
{
    match text[at] {
        128..=191 => at > 0 && text[at - 1] >= 240,
        _ => true,
    }
}

/// The position of an offset in a text (Language Server Protocol 3.17, section Position). Takes no memory.
pub fn position_of(text: &[u8], offset: u32) -> Position
    requires { offset ≤ length text.now }
    ensures position { result ≡ position_at text.now offset }
    // The units counted are those of UTF-16.
    ensures utf16 { (characters : List ℕ) → all_scalars characters ≡ true
        → slice_range text.now (line_start text.now offset) offset ≡ encode_utf8_all characters
        → result.character ≡ length (flat_map encode_utf16 characters) }
{
    Cursor::new(text).move_to(offset)
}
