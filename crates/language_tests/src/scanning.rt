//! `scan`: each kind of token and of fault, and large texts.
use crate::texts::{listed, repeated, scanned};
use ob_text::Diagnostic;
use oberon_scan::{Scanned, Token, TokenKind};
use std::alloc::{AllocError, Global};
use std::test::Fail;

/// A text, its tokens and its faults. A token is its span and its value, a fault its range and its code.
const TABLE: [(&str, &str, &str); 34] = [
    ("", "", ""),
    (" \t\r\n\x0c", "", ""),
    ("\u{feff}A", "3-4 name A;", ""),
    (
        "A\u{feff}B",
        "0-1 name A; 4-5 name B;",
        "0:1-0:2 badCharacter;",
    ),
    (
        "MODULE a1Z; END",
        "0-6 word Module; 7-10 name a1Z; 10-11 symbol Semicolon; 12-15 word End;",
        "",
    ),
    (
        "ENDx End END1",
        "0-4 name ENDx; 5-8 name End; 9-13 name END1;",
        "",
    ),
    (
        "ARRAY BEGIN BY CASE CONST DIV DO ELSE ELSIF END FALSE",
        "0-5 word Array; 6-11 word Begin; 12-14 word By; 15-19 word Case; 20-25 word Const; 26-29 word Div; 30-32 word Do; 33-37 word Else; 38-43 word Elsif; 44-47 word End; 48-53 word False;",
        "",
    ),
    (
        "FOR IF IMPORT IN IS MOD MODULE NIL OF OR POINTER PROCEDURE",
        "0-3 word For; 4-6 word If; 7-13 word Import; 14-16 word In; 17-19 word Is; 20-23 word Mod; 24-30 word Module; 31-34 word Nil; 35-37 word Of; 38-40 word Or; 41-48 word Pointer; 49-58 word Procedure;",
        "",
    ),
    (
        "RECORD REPEAT RETURN THEN TO TRUE TYPE UNTIL VAR WHILE",
        "0-6 word Record; 7-13 word Repeat; 14-20 word Return; 21-25 word Then; 26-28 word To; 29-33 word True; 34-38 word Type; 39-44 word Until; 45-48 word Var; 49-54 word While;",
        "",
    ),
    (
        "0 007 2147483647",
        "0-1 number 0; 2-5 number 7; 6-16 number 2147483647;",
        "",
    ),
    ("2147483648", "", "0:0-0:10 numberTooLarge;"),
    (
        "0FH 7FFFFFFFH 80000000H 0FFFFFFFFH",
        "0-3 number 15; 4-13 number 2147483647; 14-23 number -2147483648; 24-34 number -1;",
        "",
    ),
    ("100000000H", "", "0:0-0:10 numberTooLarge;"),
    (
        "99999999999999999999999999999999999999",
        "",
        "0:0-0:38 numberTooLarge;",
    ),
    (
        "41X 0X 0FFX",
        "0-3 string [65]; 4-6 string [0]; 7-11 string [255];",
        "",
    ),
    ("100X", "", "0:0-0:4 numberTooLarge;"),
    ("1A 0F", "", "0:0-0:2 badNumber; 0:3-0:5 badNumber;"),
    ("1G", "0-1 number 1; 1-2 name G;", ""),
    ("1..2", "0-1 number 1; 1-3 symbol DotDot; 3-4 number 2;", ""),
    ("12h", "0-2 number 12; 2-3 name h;", ""),
    ("\"hi\" \"\"", "0-4 string [104, 105]; 5-7 string [];", ""),
    ("\"(* \u{e9}\"", "0-7 string [40, 42, 32, 195, 169];", ""),
    ("\"ab\r\nx", "5-6 name x;", "0:0-0:3 openString;"),
    (
        "\"ab\nx \"",
        "4-5 name x;",
        "0:0-0:3 openString; 1:2-1:3 openString;",
    ),
    (
        "+-*/~&.,;|()[]{}",
        "0-1 symbol Plus; 1-2 symbol Minus; 2-3 symbol Star; 3-4 symbol Slash; 4-5 symbol Tilde; 5-6 symbol Ampersand; 6-7 symbol Period; 7-8 symbol Comma; 8-9 symbol Semicolon; 9-10 symbol Bar; 10-11 symbol OpenParen; 11-12 symbol CloseParen; 12-13 symbol OpenBracket; 13-14 symbol CloseBracket; 14-15 symbol OpenBrace; 15-16 symbol CloseBrace;",
        "",
    ),
    (
        ":=^=#< > <=>=:..",
        "0-2 symbol Becomes; 2-3 symbol Caret; 3-4 symbol Equal; 4-5 symbol Hash; 5-6 symbol Less; 7-8 symbol Greater; 9-11 symbol LessEqual; 11-13 symbol GreaterEqual; 13-14 symbol Colon; 14-16 symbol DotDot;",
        "",
    ),
    ("...", "0-2 symbol DotDot; 2-3 symbol Period;", ""),
    ("(*a(*b*)c*)d", "11-12 name d;", ""),
    ("(*)*)*)", "5-6 symbol Star; 6-7 symbol CloseParen;", ""),
    ("a(*(*b*)", "0-1 name a;", "0:1-0:3 openComment;"),
    ("(*", "", "0:0-0:2 openComment;"),
    (
        "MODULE A; (* x",
        "0-6 word Module; 7-8 name A; 8-9 symbol Semicolon;",
        "0:10-0:12 openComment;",
    ),
    (
        "a\u{10400}$\n\u{20ac}b",
        "0-1 name a; 10-11 name b;",
        "0:1-0:3 badCharacter; 0:3-0:4 badCharacter; 1:0-1:1 badCharacter;",
    ),
    (
        "_!?@%'\\`",
        "",
        "0:0-0:1 badCharacter; 0:1-0:2 badCharacter; 0:2-0:3 badCharacter; 0:3-0:4 badCharacter; 0:4-0:5 badCharacter; 0:5-0:6 badCharacter; 0:6-0:7 badCharacter; 0:7-0:8 badCharacter;",
    ),
];

/// Each token as its span and its value.
fn told(alloc: Global, tokens: &[Token]) -> Result<String, AllocError> {
    let mut out = String::new(alloc);
    for token in tokens {
        if out.len() > 0 {
            out.push_str(" ")?;
        }
        let start = token.span.start;
        let end = token.span.end;
        let value = value_of(alloc, &token.kind)?;
        write!(out, "{start}-{end} {value};")?;
    }
    Ok(out)
}

fn value_of(alloc: Global, kind: &TokenKind) -> Result<String, AllocError> {
    match kind {
        TokenKind::Ident(name) => {
            let text = String::from_utf8_lossy(alloc, name.as_slice())?;
            format!(in alloc; "name {text}")
        }
        TokenKind::Integer(value) => format!(in alloc; "number {value}"),
        TokenKind::Str(text) => {
            let bytes = text.as_slice();
            format!(in alloc; "string {bytes:?}")
        }
        TokenKind::Word(word) => format!(in alloc; "word {word:?}"),
        TokenKind::Symbol(symbol) => format!(in alloc; "symbol {symbol:?}"),
    }
}

#[test]
fn scans_each_kind(rt: HostRuntime) -> Result<(), Fail> {
    let alloc = rt.alloc();
    for &(text, tokens, faults) in &TABLE {
        let found = scanned(alloc, text)?;
        assert_eq!(rt;
            told(alloc, &found.tokens)?.as_str(),
            tokens,
            "tokens of {text:?}"
        );
        assert_eq!(rt;
            listed(alloc, &found.faults)?.as_str(),
            faults,
            "faults of {text:?}"
        );
    }
    Ok(())
}

/// What stands in front of a piece, the piece and how often it stands there, what stands behind it, and how many
/// tokens and faults the whole has, with its last fault.
const LARGE: [(&str, (&str, usize), &str, (usize, usize), &str); 2] = [
    // A fault stops nothing.
    (
        "MODULE A; ",
        ("$ ", 250),
        "END A.",
        (6, 250),
        "0:508-0:509 badCharacter;",
    ),
    // Each place of a large file of faults is found, in one sweep.
    (
        "",
        (
            "$$$$$$$$$$$$$$$$$$$$$$$$$$$$$$$$$$$$$$$$$$$$$$$$$$$$$$$$$$$$$$$$$$$$$$$$$$$$$$$$$$$$$$$$$$$$$$$$$$$$$$$$$$$$$$$$$$$$$$$$$$$$$$$\n",
            2048,
        ),
        "",
        (0, 260_096),
        "2047:126-2047:127 badCharacter;",
    ),
];

/// A text whose middle is a piece so many times in a row.
fn large(
    alloc: Global,
    front: &str,
    (piece, count): (&str, usize),
    back: &str,
) -> Result<Scanned, Fail> {
    let middle = repeated(alloc, piece, count)?;
    let text = format!(in alloc; "{front}{middle}{back}")?;
    scanned(alloc, text.as_str())
}

/// The last of some faults.
fn last_of(alloc: Global, faults: &[Diagnostic]) -> Result<String, AllocError> {
    let before = faults.len().saturating_sub(1);
    listed(alloc, faults.split_at(before).1)
}

#[test]
fn sweeps_large_texts(rt: HostRuntime) -> Result<(), Fail> {
    let alloc = rt.alloc();
    for &(front, middle, back, (tokens, faults), last) in &LARGE {
        let found = large(alloc, front, middle, back)?;
        assert_eq!(rt; found.tokens.len(), tokens);
        assert_eq!(rt; found.faults.len(), faults);
        assert_eq!(rt; last_of(alloc, &found.faults)?.as_str(), last);
    }
    Ok(())
}
