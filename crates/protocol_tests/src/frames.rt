ghost use Rattle.std.specs.Prelude.{◌+◌, ◌<◌, ◌≤◌, length};
ghost use Rattle.rpc_frame.specs.Limits.{stream_limit};

use rpc_frame::{Damage, DamageKind, Decoder, FeedFault, frame_into};
use std::alloc::Global;
use std::test::Fail;

/// What a decoder says of a stream: the contents of its frames, whether it ended at a border, and
/// the damage that it has.
#[derive(Drop)]
struct Outcome {
    bodies: Vec<Vec<u8>>,
    border: bool,
    damage: Option<Damage>,
}

/// Feeds a stream in pieces of this many bytes.
fn read(alloc: Global, stream: &[u8], size: usize) -> Result<Outcome, Fail>
    requires some { 0 < size }
    requires limit { length stream.now ≤ stream_limit }
{
    let mut decoder = Decoder::new(alloc);
    let mut bodies = Vec::new(alloc);
    let mut damage = None;
    let mut rest = stream;
    'pieces: while !rest.is_empty() {
        let (piece, after) = rest.split_at(size.min(rest.len()));
        match decoder.feed(piece) {
            Ok(()) => {}
            Err(FeedFault::Damaged(told)) => damage = Some(told),
            Err(FeedFault::NoMemory) => return Err(Fail::new("no memory")),
        }
        take_all(&mut decoder, &mut bodies)?;
        rest = after;
    }
    Ok(Outcome {
        bodies,
        border: decoder.at_border(),
        damage,
    })
}

/// Takes the contents of the frames that are whole.
fn take_all(decoder: &mut Decoder, bodies: &mut Vec<Vec<u8>>) -> Result<(), Fail>
    ensures { decoder.new.given_end + length decoder.new.bytes
        ≤ decoder.old.given_end + length decoder.old.bytes }
{
    'frames: while let Some(body) = decoder.next_body()? {
        bodies.push(body)?;
    }
    Ok(())
}

/// Are these the contents?
fn are(bodies: &[Vec<u8>], want: &[&[u8]]) -> bool {
    bodies.len() == want.len()
        && bodies
            .iter()
            .zip(want)
            .all(|(body, wanted)| body.as_slice() == *wanted)
}

/// A stream without damage, the contents of its frames, and whether it ends at a border.
const CUT: [(&[u8], &[&[u8]], bool); 2] = [
    (
        b"Content-Length: 2\r\n\r\n{}cONTENT-lENGTH:0\r\nX-1:\r\n\r\nA: b: \t\r\nContent-Length:\t 00000011 \t\r\n\r\nContent-Len",
        &[b"{}", b"", b"Content-Len"],
        true,
    ),
    (
        b"Content-Length: 2\r\n\r\n{}cONTENT-lENGTH:0\r\nX-1:\r\n\r\nA: b: \t\r\nContent-Length:\t 00000011 \t\r\n\r\nContent-Le",
        &[b"{}", b""],
        false,
    ),
];

#[test]
fn cuts_in_any_pieces(rt: HostRuntime) -> Result<(), Fail> {
    for &(stream, bodies, border) in &CUT {
        assert!(rt; stream.len() < 200);
        for size in 1..=stream.len() {
            let outcome = read(rt.alloc(), stream, size)?;
            assert!(rt; are(&outcome.bodies, bodies), "{size}");
            assert_eq!(rt; outcome.border, border, "{size}");
            assert_eq!(rt; outcome.damage, None, "{size}");
        }
    }
    Ok(())
}

/// A stream, and the place and the kind of its damage.
const DAMAGED: [(&[u8], u64, DamageKind); 29] = [
    (b"\n", 0, DamageKind::BadLine),
    (b": 1\r\n", 0, DamageKind::BadLine),
    (b"a b: 1\r\n", 1, DamageKind::BadLine),
    (b"Content-Length : 1", 14, DamageKind::BadLine),
    (b"A\r\n", 1, DamageKind::BadLine),
    (b"A: \x7f", 3, DamageKind::BadLine),
    (b"A: b\n", 4, DamageKind::BadLine),
    (b"Content-Length: 2\n", 17, DamageKind::BadLine),
    (b"Content-Length: 2\r\r", 18, DamageKind::BadLine),
    (b"Content-Length: 2\r\n\r\r", 20, DamageKind::BadLine),
    (b"Content-Length: 2\xc3", 17, DamageKind::BadLine),
    (b"Content-Length: 2 \x00", 18, DamageKind::BadLine),
    (
        b"Content-Length: 2\r\nContent-Length: 2\r\n\r\n",
        33,
        DamageKind::TwoLengths,
    ),
    (
        b"content-length: 1\r\nA:\r\nCONTENT-Length:",
        37,
        DamageKind::TwoLengths,
    ),
    (b"Content-Length: \r\n", 16, DamageKind::BadLength),
    (b"Content-Length:\r\n", 15, DamageKind::BadLength),
    (b"Content-Length:-1", 15, DamageKind::BadLength),
    (b"Content-Length: 1:", 17, DamageKind::BadLength),
    (b"Content-Length: 1 2", 18, DamageKind::BadLength),
    (b"Content-Length: 1\t,", 18, DamageKind::BadLength),
    (b"Content-Length: 000000020", 24, DamageKind::BadLength),
    (b"Content-Length: 167772160", 24, DamageKind::BadLength),
    (b"Content-Length: 16777217", 23, DamageKind::TooLong),
    (b"Content-Length: 99999999", 23, DamageKind::TooLong),
    (b"\r\n", 0, DamageKind::NoLength),
    (b"A: b\r\n\r\n", 6, DamageKind::NoLength),
    (b"Content-Lengthy: 5\r\n\r\n", 20, DamageKind::NoLength),
    (b"Content-Length: 0\r\n\r\n\r\n", 21, DamageKind::NoLength),
    (
        b"X: 1\r\nContent-Length: 3\r\n\r\nabcContent-Length: x",
        46,
        DamageKind::BadLength,
    ),
];

#[test]
fn tells_where_and_why(rt: HostRuntime) -> Result<(), Fail> {
    for &(stream, place, kind) in &DAMAGED {
        assert!(rt; stream.len() < 100);
        for size in 1..=stream.len() {
            let outcome = read(rt.alloc(), stream, size)?;
            assert_eq!(rt;
                outcome.damage,
                Some(Damage { place, kind }),
                "{stream:?} {size}"
            );
            assert!(rt; !outcome.border, "{stream:?} {size}");
        }
    }
    Ok(())
}

/// Streams that are right as far as they go.
const UNDAMAGED: [&[u8]; 10] = [
    b"",
    b"Content-Length: 16777216\r\n\r\n",
    b"Content-Length: 1677721",
    b"Content-Length: 00000002",
    b"Content-Length:  \t 2 \t\r\n",
    b"Content-Length: 2\r\nContent-Length",
    b"Content-Length: 2\r\nContent-Length-2: 3\r\nContent-Lengt: 4\r\n\r",
    b"0-9: ~ \t:\r\n",
    b"Content-Length: 5\r\n\r\n{\"a",
    b"Content-Length: 2\r\n\r\n\r\n-",
];

#[test]
fn tells_no_damage_before_its_place(rt: HostRuntime) -> Result<(), Fail> {
    for &stream in &UNDAMAGED {
        assert!(rt; stream.len() < 100);
        let mut decoder = Decoder::new(rt.alloc());
        assert_eq!(rt; decoder.feed(stream), Ok(()), "{stream:?}");
        assert_eq!(rt; decoder.at_border(), stream.is_empty(), "{stream:?}");
    }
    Ok(())
}

/// A stream of one header line of this many bytes, one of a length of 0, and this end.
fn long_header(alloc: Global, line: usize, end: &[u8]) -> Result<Vec<u8>, Fail> {
    let mut stream = Vec::from_slice(alloc, b"A:")?;
    for _ in 4..line {
        stream.push(b'x')?;
    }
    stream.extend_from_slice(b"\r\nContent-Length: 0\r\n")?;
    stream.extend_from_slice(end)?;
    Ok(stream)
}

/// How long the first line of a header part is, what ends that part, and the place and the kind of the damage, if any.
/// Two lines of 1,022 bytes, and the empty line, are 1,024 bytes.
const HEADERS: [(usize, &[u8], Option<(u64, DamageKind)>); 9] = [
    (1_003, b"\r\n", None),
    (1_003, b"\r\nContent-Length: 0\r\n\r\n", None),
    (1_003, b"\rX", Some((1_023, DamageKind::BadLine))),
    (1_004, b"\r", None),
    (1_004, b"\r\n", Some((1_024, DamageKind::HeaderTooLong))),
    (1_004, b"\rX", Some((1_024, DamageKind::HeaderTooLong))),
    (1_005, b"", None),
    (1_005, b"\n", Some((1_024, DamageKind::HeaderTooLong))),
    (1_003, b"B: c", Some((1_024, DamageKind::HeaderTooLong))),
];

#[test]
fn holds_a_header_part_to_its_limit(rt: HostRuntime) -> Result<(), Fail> {
    let alloc = rt.alloc();
    for &(line, end, told) in &HEADERS {
        let stream = long_header(alloc, line, end)?;
        assert!(rt; stream.len() < 2_048);
        let damage = told.map(|(place, kind)| Damage { place, kind });
        for size in [1, 2, 7, 1_024, 1_025, 2_048] {
            assert!(rt; size > 0);
            let outcome = read(alloc, &stream, size)?;
            assert_eq!(rt; outcome.damage, damage, "{line} {end:?} {size}");
        }
    }
    Ok(())
}

#[test]
fn gives_the_frames_before_a_damage(rt: HostRuntime) -> Result<(), Fail> {
    let mut decoder = Decoder::new(rt.alloc());
    assert_eq!(rt; decoder.given_end(), 0);
    assert_eq!(rt; decoder.room(), 34_359_738_368);
    let stream = b"Content-Length: 1\r\n\r\naContent-Length: 0\r\n\r\nContent-Length: 1\n";
    let damaged = Err(FeedFault::Damaged(Damage {
        place: 60,
        kind: DamageKind::BadLine,
    }));
    assert_eq!(rt; decoder.feed(stream), damaged);
    assert_eq!(rt; decoder.feed(b"Content-Length: 1"), damaged);
    let mut bodies = Vec::new(rt.alloc());
    take_all(&mut decoder, &mut bodies)?;
    assert!(rt; are(&bodies, &[b"a", b""]));
    assert_eq!(rt; decoder.given_end(), 43);
    assert_eq!(rt; decoder.room(), 34_359_738_290);
    assert!(rt; !decoder.at_border());
    assert_eq!(rt; decoder.feed(b""), damaged);
    Ok(())
}

#[test]
fn writes_behind_what_is_there(rt: HostRuntime) -> Result<(), Fail> {
    let mut out = Vec::from_slice(rt.alloc(), b"> ")?;
    frame_into(&mut out, b"{\"id\":1}")?;
    assert_eq!(rt;
        out.as_slice(),
        b"> Content-Length: 8\r\n\r\n{\"id\":1}".as_slice()
    );
    Ok(())
}

#[test]
fn reads_what_it_writes(rt: HostRuntime) -> Result<(), Fail> {
    let largest = vec![in rt.alloc(); b' '; 16_777_216]?;
    assert_eq!(rt; largest.len(), 16_777_216);
    let mut stream = Vec::new(rt.alloc());
    frame_into(&mut stream, &largest)?;
    assert_eq!(rt; stream.len(), 16_777_244);
    let outcome = read(rt.alloc(), &stream, 65_536)?;
    assert!(rt; outcome.border);
    assert!(rt; are(&outcome.bodies, &[largest.as_slice()]));
    Ok(())
}
