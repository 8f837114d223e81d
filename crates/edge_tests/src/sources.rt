use bsp_edge::{Got, MemSource, Source};
use std::alloc::{AllocError, Global};
use std::process::Abort;
use std::test::Fail;

/// What is called of a source.
#[derive(Clone, Copy, Debug)]
enum Call {
    Read,
    Poll,
}

fn called<S: Source>(source: &mut S, call: Call, into: &mut [u8; 8]) -> Got {
    match call {
        Call::Read => source.read(into),
        Call::Poll => source.poll(into),
    }
}

/// A source of `bytes` with these cuts, quiet offsets and failing calls.
fn source_of(
    alloc: Global,
    bytes: &[u8],
    cuts: &[u64],
    quiet: &[(u64, u32)],
    failing: &[u64],
) -> Result<MemSource, AllocError> {
    let bytes = Vec::from_slice(alloc, bytes)?;
    let cuts = Vec::from_slice(alloc, cuts)?;
    let quiet = Vec::from_slice(alloc, quiet)?;
    let failing = Vec::from_slice(alloc, failing)?;
    Ok(MemSource::new(bytes, cuts, quiet, failing))
}

/// Makes the calls, of which each is to answer so and, where it gives bytes, to put them in front.
fn expect(rt: &impl Abort, mut source: MemSource, calls: &[(Call, Got, &[u8])]) {
    let mut into = [0; 8];
    for (call, want, front) in calls {
        let got = called(&mut source, *call, &mut into);
        assert!(rt; got == *want);
        assert!(rt; into.starts_with(front));
    }
}

/// The calls of a source that is cut, their answers and what these bring.
const AT_CUTS: [(Call, Got, &[u8]); 7] = [
    (Call::Read, Got::Bytes(2), b"ab"),
    (Call::Read, Got::Bytes(3), b"cde"),
    (Call::Read, Got::Bytes(8), b"fghijklm"),
    (Call::Read, Got::Bytes(3), b"nop"),
    (Call::Read, Got::End, b""),
    (Call::Poll, Got::End, b""),
    (Call::Read, Got::End, b""),
];

#[test]
fn pieces_end_at_cuts(rt: HostRuntime) -> Result<(), Fail> {
    let source = source_of(rt.alloc(), b"abcdefghijklmnop", &[5, 2, 2, 0, 99], &[], &[])?;
    expect(&rt, source, &AT_CUTS);
    Ok(())
}

/// The same of a source with quiet offsets.
const WITH_POLLS: [(Call, Got, &[u8]); 10] = [
    (Call::Poll, Got::Quiet, b""),
    (Call::Poll, Got::Bytes(2), b"ab"),
    (Call::Poll, Got::Quiet, b""),
    (Call::Poll, Got::Quiet, b""),
    (Call::Poll, Got::Quiet, b""),
    (Call::Poll, Got::Bytes(2), b"cd"),
    (Call::Poll, Got::Quiet, b""),
    (Call::Read, Got::Bytes(2), b"ef"),
    (Call::Poll, Got::Quiet, b""),
    (Call::Poll, Got::End, b""),
];

#[test]
fn quiet_offsets_have_their_polls(rt: HostRuntime) -> Result<(), Fail> {
    let quiet = [(4, 9), (2, 1), (0, 1), (2, 2), (6, 1)];
    let source = source_of(rt.alloc(), b"abcdef", &[], &quiet, &[])?;
    expect(&rt, source, &WITH_POLLS);
    Ok(())
}

/// The same of a source with failing calls.
const WITH_FAILURES: [(Call, Got, &[u8]); 8] = [
    (Call::Read, Got::Failed, b""),
    (Call::Read, Got::Bytes(1), b"a"),
    (Call::Poll, Got::Failed, b""),
    (Call::Poll, Got::Quiet, b""),
    (Call::Poll, Got::Failed, b""),
    (Call::Poll, Got::Bytes(1), b"b"),
    (Call::Read, Got::Failed, b""),
    (Call::Read, Got::Bytes(1), b"c"),
];

#[test]
fn told_calls_fail(rt: HostRuntime) -> Result<(), Fail> {
    let source = source_of(rt.alloc(), b"abcd", &[1, 2, 3], &[(1, 1)], &[5, 1, 3, 7])?;
    expect(&rt, source, &WITH_FAILURES);
    Ok(())
}
