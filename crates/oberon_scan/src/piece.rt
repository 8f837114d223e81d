ghost use Rattle.std.specs.Prelude.{◌≡◌, ◌<◌, ◌∷◌, ◌++◌, ◌==◌, List, ℕ, IfOk, None, false, codes, length, slice_index};
ghost use Rattle.std.specs.Char.{is_ascii_alphabetic};
ghost use Rattle.std.specs.Str.{IsUtf8};
ghost use Rattle.oberon_scan.specs.Runs.{HasFirst, LacksFirst, IsRun, is_string_byte, quote};
ghost use Rattle.oberon_scan.specs.Comments.{opens_comment};
ghost use Rattle.oberon_scan.specs.Finding.{symbol_at};
ghost use Rattle.oberon_scan.specs.Piece.{CutsOff, IsNoBeginning};

use crate::comment::after_comment;
use crate::number::number;
use crate::runs::{Blanks, Continuations, NameBytes, StringBytes, run_of};
use crate::symbol::{symbol_at, symbol_len};
use crate::token::TokenKind;
use crate::word::word_of;
use ob_text::{Code, Name, NoMemory, Text};
use std::alloc::Global;

/// What stands at the front of a text.
#[derive(Drop)]
pub(crate) enum Piece {
    /// White space or a comment.
    Gap,
    Token(TokenKind),
    /// A fault, and the number of bytes from the front that it is shown at.
    Fault(Code, usize),
}

/// Cuts off the piece at the front of the text, and gives it with what follows.
pub(crate) fn piece_at(alloc: Global, text: &[u8]) -> Result<(Piece, &[u8]), NoMemory>
    requires some { 0 < length text.now }
    requires utf8 { IsUtf8 text.now }
    ensures { IfOk result (λ x. CutsOff text.now x.0 x.1.now) }
{
    let first = text[0];
    if first.is_ascii_whitespace() {
        Ok((Piece::Gap, run_of::<Blanks>(text).1))
    } else if first.is_ascii_alphabetic() {
        name(alloc, text)
    } else if first.is_ascii_digit() {
        number(alloc, text)
    } else if first == b'"' {
        string(alloc, text.split_at(1).1)
    } else if text.starts_with(b"(*") {
        Ok(comment(text.split_at(2).1))
    } else {
        Ok(symbol(text))
    }
}

/// The reserved word or the name at the front of the text.
fn name(alloc: Global, text: &[u8]) -> Result<(Piece, &[u8]), NoMemory>
    requires { HasFirst is_ascii_alphabetic text.now }
    ensures { IfOk result (λ x. CutsOff text.now x.0 x.1.now) }
{
    let (run, rest) = run_of::<NameBytes>(text);
    match word_of(run) {
        Some(word) => Ok((Piece::Token(TokenKind::Word(word)), rest)),
        None => Ok((Piece::Token(TokenKind::Ident(Name::new(alloc, run)?)), rest)),
    }
}

/// The string whose opening quote stands before `line`.
fn string(alloc: Global, line: &[u8]) -> Result<(Piece, &[u8]), NoMemory>
    ensures { IfOk result (λ x. CutsOff (quote ∷ line.now) x.0 x.1.now) }
{
    let (run, after) = run_of::<StringBytes>(line);
    match after {
        [b'"', rest @ ..] => Ok((closed_string(alloc, run)?, rest)),
        _ => Ok((open_string(run), after)),
    }
}

fn closed_string(alloc: Global, run: &[u8]) -> Result<Piece, NoMemory>
    ensures { IfOk result (λ piece. (line rest : List ℕ) → IsRun is_string_byte line run.now (quote ∷ rest)
        → CutsOff (quote ∷ line) piece rest) }
{
    Ok(Piece::Token(TokenKind::Str(Text::new(alloc, run)?)))
}

fn open_string(run: &[u8]) -> Piece
    ensures { (line rest : List ℕ) → IsRun is_string_byte line run.now rest → LacksFirst (λ byte. byte == quote) rest
        → CutsOff (quote ∷ line) result rest }
{
    Piece::Fault(Code::OpenString, 1 + run.len())
}

/// The comment whose `(*` stands before `body`.
fn comment(body: &[u8]) -> (Piece, &[u8])
    ensures { CutsOff (codes "(*" ++ body.now) result.0 result.1.now }
{
    match after_comment(body) {
        Some(rest) => (Piece::Gap, rest),
        None => (Piece::Fault(Code::OpenComment, 2), &[]),
    }
}

/// The symbol at the front of the text, or the character with which nothing begins.
fn symbol(text: &[u8]) -> (Piece, &[u8])
    requires some { 0 < length text.now }
    requires utf8 { IsUtf8 text.now }
    requires first { IsNoBeginning (slice_index text.now 0) }
    requires no_comment { opens_comment text.now ≡ false }
    ensures { CutsOff text.now result.0 result.1.now }
{
    match symbol_at(text) {
        Some(symbol) => (
            Piece::Token(TokenKind::Symbol(symbol)),
            text.split_at(symbol_len(symbol)).1,
        ),
        None => bad_character(text),
    }
}

/// The character at the front of the text, with which nothing begins.
fn bad_character(text: &[u8]) -> (Piece, &[u8])
    requires utf8 { IsUtf8 text.now }
    requires some { 0 < length text.now }
    requires first { IsNoBeginning (slice_index text.now 0) }
    requires no_symbol { symbol_at text.now ≡ None }
    ensures { CutsOff text.now result.0 result.1.now }
{
    let (_, rest) = run_of::<Continuations>(text.split_at(1).1);
    (
        Piece::Fault(Code::BadCharacter, text.len() - rest.len()),
        rest,
    )
}
