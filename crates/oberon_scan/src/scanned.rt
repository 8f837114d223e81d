ghost use Rattle.std.specs.Prelude.{◌≡◌, ◌<◌, ◌≤◌, ◌+◌, List, IfOk, OnOk, length};
ghost use Rattle.std.specs.Str.{IsUtf8};
ghost use Rattle.ob_text.specs.declared.diagnostic.Diagnostic.{Diagnostic};
ghost use Rattle.oberon_scan.specs.declared.token.Token.{Token};
ghost use Rattle.oberon_scan.specs.Lexis.{Lex, without_mark, fault_of, too_many_bytes};
ghost use Rattle.oberon_scan.specs.Piece.{Adds, IsWithinText};

use crate::piece::{Piece, piece_at};
use crate::token::Token;
use ob_text::{Code, Cursor, Diagnostic, NoMemory, Span};
use std::alloc::Global;

/// The tokens of a text and its lexical faults, both in the order of the text.
#[derive(Debug, Drop)]
pub struct Scanned {
    pub tokens: Vec<Token>,
    pub faults: Vec<Diagnostic>,
}

/// Cuts a text into its tokens and its lexical faults (The Programming Language Oberon-07, section 3). A fault
/// stops nothing: the text behind it is scanned too.
pub fn scan(alloc: Global, text: &[u8]) -> Result<Scanned, NoMemory>
    requires utf8 { IsUtf8 text.now }
    requires room { length text.now < too_many_bytes }
    ensures lex { IfOk result (λ scanned. Lex text.now scanned.tokens.items scanned.faults.items) }
    // The text can be cut in no other way.
    ensures only { IfOk result (λ scanned. (tokens : List Token) (faults : List Diagnostic) → Lex text.now tokens faults
        → (tokens ≡ scanned.tokens.items) × (faults ≡ scanned.faults.items)) }
{
    let mut scanned = Scanned {
        tokens: Vec::new(alloc),
        faults: Vec::new(alloc),
    };
    let mut cursor = Cursor::new(text);
    let mut rest = without_mark(text);
    'pieces: while !rest.is_empty() {
        let (piece, after) = piece_at(alloc, rest)?;
        let span = Span {
            start: (text.len() - rest.len()) as u32,
            end: (text.len() - after.len()) as u32,
        };
        scanned.add(&mut cursor, piece, span)?;
        rest = after;
    }
    Ok(scanned)
}

impl Scanned {
    /// Adds what stands at a part of the text.
    fn add(&mut self, cursor: &mut Cursor<'_>, piece: Piece, span: Span) -> Result<(), NoMemory>
        requires forward { cursor.old.offset ≤ span.start }
        requires shown { IsWithinText cursor.old.text piece span }
        requires room { length cursor.old.text < too_many_bytes }
        ensures adds { OnOk result (Adds cursor.old.text piece span self.old.tokens.items self.old.faults.items
            self.new.tokens.items self.new.faults.items) }
        ensures text { cursor.new.text ≡ cursor.old.text }
        ensures offset { cursor.new.offset ≤ span.start }
    {
        match piece {
            Piece::Gap => Ok(()),
            Piece::Token(kind) => Ok(self.tokens.push(Token { span, kind })?),
            Piece::Fault(code, shown) => {
                let fault = fault_at(cursor, span.start, shown, code);
                Ok(self.faults.push(fault)?)
            }
        }
    }
}

/// The diagnostic of a fault that is shown at some bytes from `start` on.
fn fault_at(cursor: &mut Cursor<'_>, start: u32, shown: usize, code: Code) -> Diagnostic
    requires forward { cursor.old.offset ≤ start }
    requires shown { start + shown ≤ length cursor.old.text }
    requires room { length cursor.old.text < too_many_bytes }
    ensures fault { result ≡ fault_of cursor.old.text start code shown }
    ensures text { cursor.new.text ≡ cursor.old.text }
    ensures offset { cursor.new.offset ≡ start }
{
    let span = Span {
        start,
        end: start + shown as u32,
    };
    let range = cursor.range_of(span);
    Diagnostic {
        span,
        range,
        code,
        name: None,
    }
}

/// The text without a U+FEFF at its front.
fn without_mark(text: &[u8]) -> &[u8]
    ensures { result.now ≡ without_mark text.now }
{
    if text.starts_with(b"\xEF\xBB\xBF") {
        text.split_at(3).1
    } else {
        text
    }
}
