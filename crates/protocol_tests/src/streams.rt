use bsp_address::Address;
use bsp_records::{PublishDiagnosticsParams, read_publish_diagnostics_params};
use ob_text::{Code, Diagnostic, NoMemory, Position, Range, Span, Text};
use serde_json::Value;
use std::alloc::Global;
use std::sync::Arc;
use std::test::Fail;
use task_stream::{Piece, Shown, TableKey};

fn bad_character(offset: u32) -> Diagnostic {
    Diagnostic {
        span: Span {
            start: offset,
            end: offset,
        },
        range: Range {
            start: Position {
                line: 0,
                character: offset,
            },
            end: Position {
                line: 0,
                character: offset,
            },
        },
        code: Code::BadCharacter,
        name: None,
    }
}

fn many(alloc: Global, count: u32) -> Result<Vec<Diagnostic>, NoMemory> {
    let mut list = Vec::new(alloc);
    for offset in 0..count {
        list.push(bad_character(offset))?;
    }
    Ok(list)
}

fn address(alloc: Global, text: &str) -> Result<Address, Fail> {
    match Address::from_text(Text::new(alloc, text.as_bytes())?) {
        Some(address) => Ok(address),
        None => Err(Fail::new("address")),
    }
}

/// The params of a piece, as a client reads them.
fn params(alloc: Global, piece: &Piece) -> Result<PublishDiagnosticsParams, Fail> {
    let mut text = Vec::new(alloc);
    piece.print(alloc, &mut text)?;
    let value = Value::from_str(alloc, std::str::from_utf8(text.as_slice())?)?;
    Ok(read_publish_diagnostics_params(alloc, &value)?)
}

fn is_address(alloc: Global, text: &str) -> Result<bool, NoMemory> {
    Ok(Address::from_text(Text::new(alloc, text.as_bytes())?).is_some())
}

/// A text of so many bytes.
fn long(alloc: Global, count: u32) -> Result<Text, NoMemory> {
    let mut text = Vec::new(alloc);
    for _ in 0..count {
        text.push(b'a')?;
    }
    Ok(Text::from_vec(text))
}

#[test]
fn knows_addresses(rt: HostRuntime) -> Result<(), Fail> {
    let alloc = rt.alloc();
    assert!(rt; is_address(alloc, "file:///w/A.Mod")?);
    assert!(rt; !is_address(alloc, "file:///w/A B.Mod")?);
    assert!(rt; !is_address(alloc, "file:///w/Ä.Mod")?);
    assert!(rt; Address::from_text(long(alloc, 4_355)?).is_some());
    assert!(rt; Address::from_text(long(alloc, 4_356)?).is_none());
    Ok(())
}

fn key(alloc: Global) -> Result<TableKey, Fail> {
    Ok(TableKey {
        document: address(alloc, "file:///w/A.Mod")?,
        target: address(alloc, "file:///w/?id=app")?,
    })
}

/// Publishes so many bad characters.
fn publish(alloc: Global, shown: &mut Shown, count: u32) -> Result<Vec<Piece>, Fail> {
    let key = key(alloc)?;
    let origin = Arc::new(alloc, None)?;
    let list = many(alloc, count)?;
    Ok(shown.publish(&key, &origin, list)?)
}

/// Does a piece reset so, and have so many diagnostics?
fn is_piece(alloc: Global, piece: &Piece, reset: bool, count: usize) -> Result<bool, Fail> {
    let params = params(alloc, piece)?;
    Ok(params.reset == reset && params.diagnostics.as_slice().len() == count)
}

/// How many bad characters are published one after another, and of each piece whether it resets and how many it has.
const PUBLISHED: [(u32, &[(bool, usize)]); 3] = [
    (250, &[(true, 100), (false, 100), (false, 50)]),
    (250, &[]),
    (0, &[(true, 0)]),
];

#[test]
fn publishes_in_pieces_what_is_not_shown(rt: HostRuntime) -> Result<(), Fail> {
    let mut shown = Shown::new(rt.alloc());
    for &(count, wanted) in &PUBLISHED {
        let pieces = publish(rt.alloc(), &mut shown, count)?;
        assert_eq!(rt; pieces.len(), wanted.len(), "{count}");
        for (piece, (reset, length)) in pieces.iter().zip(wanted) {
            assert!(rt; is_piece(rt.alloc(), piece, *reset, *length)?, "{count}");
        }
    }
    Ok(())
}

/// A list that is shown is cleared by an empty one, and then nothing is to be cleared any more.
#[test]
fn clears_what_is_shown(rt: HostRuntime) -> Result<(), Fail> {
    let alloc = rt.alloc();
    let mut shown = Shown::new(alloc);
    let _pieces = publish(alloc, &mut shown, 1)?;
    let key = key(alloc)?;
    let pieces = shown.clear(&key)?;
    assert_eq!(rt; pieces.len(), 1);
    for piece in pieces.iter() {
        assert!(rt; is_piece(alloc, piece, true, 0)?);
    }
    assert!(rt; shown.clear(&key)?.is_empty());
    Ok(())
}
