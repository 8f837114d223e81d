ghost use Rattle.std.specs.Prelude.{◌≡◌, ◌∷◌, ◌<◌, [], List, IfOk, length};
ghost use Rattle.std.specs.List.{All};
ghost use Rattle.ob_text.specs.Held.{IsReadable, IsDocument};
ghost use Rattle.ob_text.specs.Position.{IsPart};
ghost use Rattle.ob_text.specs.declared.diagnostic.Diagnostic.{Diagnostic};
ghost use Rattle.oberon_scan.specs.Lexis.{Lex, too_many_bytes};
ghost use Rattle.document_rules.specs.Diagnosed.{Diagnosed, TextDiagnosed, TokensDiagnosed, IsNameless, IsAscending, bad_token, bad_span, end_of_tokens, no_document};

use ob_text::{Code, Cursor, Diagnostic, Held, NoMemory, Position, Range, Span};
use oberon_parse::{ParseRefusal, parse};
use oberon_scan::{Scanned, Token, scan};
use std::alloc::Global;

/// The diagnostics of what is held at a document's path, in the order of the text. A document that is no
/// text has one; a text with lexical faults has these alone, and one that is no module has its first bad
/// token alone.
pub fn diagnose(alloc: Global, held: &Held) -> Result<Vec<Diagnostic>, NoMemory>
    requires { IsReadable held.now }
    ensures diagnosed { IfOk result (λ list. Diagnosed held.now list.items) }
    // A document has no other list.
    ensures only { IfOk result (λ list. (other : List Diagnostic) → Diagnosed held.now other → other ≡ list.items) }
    ensures nameless { IfOk result (λ list. All IsNameless list.items) }
    ensures in_order { IfOk result (λ list. IsAscending list.items) }
{
    match held {
        Held::Text(text) => diagnose_text(alloc, text.as_slice()),
        Held::Absent => one(alloc, no_document(Code::DocumentAbsent)),
        Held::TooLarge => one(alloc, no_document(Code::DocumentTooLarge)),
        Held::NotText => one(alloc, no_document(Code::DocumentNotText)),
    }
}

fn diagnose_text(alloc: Global, text: &[u8]) -> Result<Vec<Diagnostic>, NoMemory>
    requires { IsDocument text.now }
    ensures { IfOk result (λ list. TextDiagnosed text.now list.items) }
{
    let Scanned { tokens, faults } = scan(alloc, text)?;
    if faults.is_empty() {
        diagnose_tokens(alloc, text, tokens.as_slice())
    } else {
        Ok(faults)
    }
}

/// The diagnostics of a text without lexical faults, by its tokens.
fn diagnose_tokens(
    alloc: Global,
    text: &[u8],
    tokens: &[Token],
) -> Result<Vec<Diagnostic>, NoMemory>
    requires lexis { Lex text.now tokens.now [] }
    requires room { length text.now < too_many_bytes }
    ensures { IfOk result (λ list. TokensDiagnosed text.now tokens.now list.items) }
{
    match parse(alloc, tokens) {
        Ok(_) => Ok(Vec::new(alloc)),
        Err(ParseRefusal::FirstBad(index)) => list_of_bad_token(alloc, text, tokens, index),
        Err(ParseRefusal::NoMemory) => Err(NoMemory),
    }
}

/// The list of a text without lexical faults that is no module: its first bad token, which stands at this
/// index, alone.
pub fn list_of_bad_token(
    alloc: Global,
    text: &[u8],
    tokens: &[Token],
    index: usize,
) -> Result<Vec<Diagnostic>, NoMemory>
    requires { Lex text.now tokens.now [] }
    ensures { IfOk result (λ list. list.items ≡ bad_token text.now (bad_span tokens.now index) ∷ []) }
{
    one(alloc, bad_token(text, bad_span(tokens, index)))
}

/// Where a first bad token is shown: at the token, or at the end where all tokens begin a module and are
/// none.
fn bad_span(tokens: &[Token], index: usize) -> Span
    ensures { result ≡ bad_span tokens.now index }
{
    match tokens.get(index) {
        Some(token) => token.span,
        None => {
            let end = end_of_tokens(tokens);
            Span { start: end, end }
        }
    }
}

/// Where the last token ends, or offset 0 where there is none.
fn end_of_tokens(tokens: &[Token]) -> u32
    ensures { result ≡ end_of_tokens tokens.now }
{
    match tokens.last() {
        Some(token) => token.span.end,
        None => 0,
    }
}

fn bad_token(text: &[u8], span: Span) -> Diagnostic
    requires { IsPart text.now span }
    ensures { result ≡ bad_token text.now span }
{
    let range = Cursor::new(text).range_of(span);
    Diagnostic {
        span,
        range,
        code: Code::BadToken,
        name: None,
    }
}

/// The diagnostic of a document that is no text, at the empty range 0:0.
fn no_document(code: Code) -> Diagnostic
    ensures { result ≡ no_document code }
{
    let start = Position {
        line: 0,
        character: 0,
    };
    Diagnostic {
        span: Span { start: 0, end: 0 },
        range: Range { start, end: start },
        code,
        name: None,
    }
}

/// The list of one diagnostic.
fn one(alloc: Global, diagnostic: Diagnostic) -> Result<Vec<Diagnostic>, NoMemory>
    ensures { IfOk result (λ list. list.items ≡ diagnostic ∷ []) }
{
    let mut list = Vec::new(alloc);
    list.push(diagnostic)?;
    Ok(list)
}
