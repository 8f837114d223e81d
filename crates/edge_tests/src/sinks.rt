ghost use Rattle.std.specs.Prelude.{◌<◌, length};

use bsp_edge::{MemSink, Put, Sink};
use std::test::Fail;

fn write<K: Sink>(sink: &mut K, piece: &[u8]) -> Put
    requires { 0 < length piece.now }
{
    sink.write(piece)
}

#[test]
fn takes_whole_pieces_within_its_room(rt: HostRuntime) -> Result<(), Fail> {
    let failing = Vec::from_slice(rt.alloc(), &[4, 2])?;
    let mut sink = MemSink::new(rt.alloc(), 5, failing)?;
    let pieces: [(&[u8], Put); 6] = [
        (b"abc", Put::Took(3)),
        (b"d", Put::Failed),
        (b"def", Put::Failed),
        (b"de", Put::Failed),
        (b"de", Put::Took(2)),
        (b"f", Put::Failed),
    ];
    for (piece, want) in pieces {
        assert!(rt; !piece.is_empty());
        assert_eq!(rt; write(&mut sink, piece), want);
    }
    assert_eq!(rt; sink.given(), b"abcde".as_slice());
    Ok(())
}

#[test]
fn takes_nothing_without_room(rt: HostRuntime) -> Result<(), Fail> {
    let mut full = MemSink::new(rt.alloc(), 0, Vec::new(rt.alloc()))?;
    assert_eq!(rt; write(&mut full, b"a"), Put::Failed);
    assert!(rt; full.given().is_empty());
    Ok(())
}
