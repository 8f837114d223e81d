//! The publication of a list of diagnostics.
use crate::sent::joined;
use std::alloc::Global;
use std::test::Fail;

/// What is published of a document in a target. A diagnostic is written as its range, its severity, its code and its
/// message, as in `0:17-0:18 1 noName unknown name: T`, where a place is a line and a character.
pub type List<'a> = (&'a str, &'a str, &'a [&'a str]);

/// What stands before the first such byte, and what stands behind it.
fn cut(text: &[u8], mark: u8) -> Result<(&[u8], &[u8]), Fail> {
    let Some(offset) = text.iter().position(|byte| *byte == mark) else {
        return Err(Fail::from("a part of a row is missing"));
    };
    let Some((front, back)) = text.split_at_checked(offset) else {
        return Err(Fail::from("a part of a row is missing"));
    };
    match back.split_first() {
        Some((_, behind)) => Ok((front, behind)),
        None => Err(Fail::from("a part of a row is missing")),
    }
}

/// A place such as `0:17`, as it is printed.
fn position(alloc: Global, place: &[u8]) -> Result<Vec<u8>, Fail> {
    let (line, character) = cut(place, b':')?;
    joined(
        alloc,
        &[b"{\"character\":", character, b",\"line\":", line, b"}"],
    )
}

/// A diagnostic, as it is printed.
fn item(alloc: Global, found: &str) -> Result<Vec<u8>, Fail> {
    let (range, rest) = cut(found.as_bytes(), b' ')?;
    let (severity, rest) = cut(rest, b' ')?;
    let (code, message) = cut(rest, b' ')?;
    let (start, end) = cut(range, b'-')?;
    let start = position(alloc, start)?;
    let end = position(alloc, end)?;
    joined(
        alloc,
        &[
            b"{\"code\":\"",
            code,
            b"\",\"message\":\"",
            message,
            b"\",\"range\":{\"end\":",
            end.as_slice(),
            b",\"start\":",
            start.as_slice(),
            b"},\"severity\":",
            severity,
            b",\"source\":\"oberon\"}",
        ],
    )
}

/// The body of the publication of a list, with a member `originId` or without one.
pub fn published(alloc: Global, list: &List, origin: &str) -> Result<Vec<u8>, Fail> {
    let (target, path, found) = list;
    let mut items = Vec::new(alloc);
    for found in *found {
        if !items.is_empty() {
            items.push(b',')?;
        }
        let item = item(alloc, found)?;
        items.extend_from_slice(item.as_slice())?;
    }
    joined(
        alloc,
        &[
            b"{\"jsonrpc\":\"2.0\",\"method\":\"build/publishDiagnostics\",\"params\":{\"buildTarget\":{\"uri\":\"file:///w/?id=",
            target.as_bytes(),
            b"\"},\"diagnostics\":[",
            items.as_slice(),
            b"],",
            origin.as_bytes(),
            b"\"reset\":true,\"textDocument\":{\"uri\":\"file:///w/",
            path.as_bytes(),
            b"\"}}}",
        ],
    )
}
