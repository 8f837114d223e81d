//! `diagnose`: the diagnostics of whole documents.
use crate::texts::{listed, repeated};
use ob_text::{Code, Diagnostic, Held, Text};
use oberon_check::diagnose;
use std::alloc::{AllocError, Global};
use std::test::Fail;

/// A text and its diagnostics, each its range and its code.
const TABLE: [(&str, &str); 14] = [
    ("MODULE A; END A.", ""),
    ("MODULE A; IMPORT B; END A.", ""),
    // A fault of the lexis.
    ("MODULE A; (* x", "0:10-0:12 openComment;"),
    (
        "$ \"a\n1A",
        "0:0-0:1 badCharacter; 0:2-0:4 openString; 1:0-1:2 badNumber;",
    ),
    // A first bad token.
    ("MODULE A; BEGIN x = 1 END A.", "0:18-0:19 badToken;"),
    ("MODULE A;\n\u{feff}END A.", "1:0-1:1 badCharacter;"),
    ("MODULE A;\n\tEND a b.", "1:7-1:8 badToken;"),
    ("MODULE A; END A. MODULE B; END B.", "0:17-0:23 badToken;"),
    // A fault of the lexis stands before a bad token, wherever the two are.
    ("BEGIN MODULE A; 9999999999", "0:16-0:26 numberTooLarge;"),
    // The text ends too early: behind its last token, whatever follows that.
    ("", "0:0-0:0 badToken;"),
    (" (* no token *)\n", "0:0-0:0 badToken;"),
    ("\u{feff}", "0:0-0:0 badToken;"),
    ("MODULE A;", "0:9-0:9 badToken;"),
    ("MODULE A;\nEND (* A. *)\n", "1:3-1:3 badToken;"),
];

/// The diagnostics of a text.
fn found(alloc: Global, text: &str) -> Result<Vec<Diagnostic>, Fail> {
    if text.len() > 262_144 {
        return Err(Fail::from("too long"));
    }
    let held = Held::Text(Text::new(alloc, text.as_bytes())?);
    Ok(diagnose(alloc, &held)?)
}

fn shown(alloc: Global, text: &str) -> Result<String, Fail> {
    Ok(listed(alloc, &found(alloc, text)?)?)
}

#[test]
fn diagnoses_each_text(rt: HostRuntime) -> Result<(), Fail> {
    let alloc = rt.alloc();
    for &(text, want) in &TABLE {
        assert_eq!(rt; shown(alloc, text)?.as_str(), want, "{text:?}");
    }
    Ok(())
}

#[test]
fn diagnoses_what_is_no_text(rt: HostRuntime) -> Result<(), Fail> {
    let alloc = rt.alloc();
    for (held, want) in [
        (Held::Absent, "0:0-0:0 documentAbsent;"),
        (Held::TooLarge, "0:0-0:0 documentTooLarge;"),
        (Held::NotText, "0:0-0:0 documentNotText;"),
    ] {
        let list = diagnose(alloc, &held)?;
        assert_eq!(rt; listed(alloc, &list)?.as_str(), want);
    }
    Ok(())
}

#[test]
fn shows_each_fault(rt: HostRuntime) -> Result<(), Fail> {
    let alloc = rt.alloc();
    let text = repeated(alloc, "$ ", 250)?;
    let list = found(alloc, text.as_str())?;
    assert_eq!(rt; list.len(), 250);
    for diagnostic in &list {
        assert_eq!(rt; diagnostic.code, Code::BadCharacter);
    }
    Ok(())
}

/// In how many parentheses a value stands, and what is said of it.
const PARENTHESES: [(usize, &str); 2] = [(64, ""), (65, "0:85-0:86 badToken;")];

fn in_parentheses(alloc: Global, count: usize) -> Result<String, AllocError> {
    let front = repeated(alloc, "(", count)?;
    let back = repeated(alloc, ")", count)?;
    format!(in alloc; "MODULE A; BEGIN x := {front}1{back} END A.")
}

#[test]
fn opens_sixty_four_levels(rt: HostRuntime) -> Result<(), Fail> {
    let alloc = rt.alloc();
    for &(count, want) in &PARENTHESES {
        let text = in_parentheses(alloc, count)?;
        assert_eq!(rt; shown(alloc, text.as_str())?.as_str(), want);
    }
    Ok(())
}
