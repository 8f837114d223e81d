//! What the tests share: texts that are scanned, and lists of diagnostics as one line.
use ob_text::Diagnostic;
use oberon_scan::{Scanned, scan};
use std::alloc::{AllocError, Global};
use std::test::Fail;

/// More than the bytes of any text of a test.
const LONGEST: usize = 1_000_000;

/// The tokens and the lexical faults of a text.
pub fn scanned(alloc: Global, text: &str) -> Result<Scanned, Fail> {
    if text.len() > LONGEST {
        return Err(Fail::from("too long"));
    }
    Ok(scan(alloc, text.as_bytes())?)
}

/// Each diagnostic as its range and its code.
pub fn listed(alloc: Global, list: &[Diagnostic]) -> Result<String, AllocError> {
    let mut out = String::new(alloc);
    for diagnostic in list {
        if out.len() > 0 {
            out.push_str(" ")?;
        }
        let start = diagnostic.range.start;
        let end = diagnostic.range.end;
        let code = diagnostic.code.name();
        write!(
            out,
            "{}:{}-{}:{} {code};",
            start.line, start.character, end.line, end.character
        )?;
    }
    Ok(out)
}

/// A text so many times in a row.
pub fn repeated(alloc: Global, text: &str, count: usize) -> Result<String, AllocError> {
    let mut out = String::new(alloc);
    for _ in 0..count {
        out.push_str(text)?;
    }
    Ok(out)
}
