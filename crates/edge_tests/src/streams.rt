ghost use Rattle.std.specs.Prelude.{◌≤◌, IfOk};

use bsp_edge::{Got, Put, RealSink, Sink, Source, StdinSource, read_piece, write_piece};
use std::fs;
use std::io::{self, ErrorKind, Read, Write};
use std::test::Fail;

/// A stream whose calls are interrupted some times, and then answer so.
#[derive(Drop)]
struct Flaky {
    interrupts: u32,
    then: Option<usize>,
}

impl Flaky {
    fn answer(&mut self, size: usize) -> io::Result<usize>
        ensures { IfOk result (λ count. count ≤ size) }
    {
        if self.interrupts > 0 {
            self.interrupts -= 1;
            return Err(io::Error::from(ErrorKind::Interrupted));
        }
        match self.then {
            Some(count) => Ok(count.min(size)),
            None => Err(io::Error::from(ErrorKind::BrokenPipe)),
        }
    }
}

impl Read for Flaky {
    fn read(&mut self, into: &mut [u8]) -> io::Result<usize> {
        self.answer(into.len())
    }
}

impl Write for Flaky {
    fn write(&mut self, piece: &[u8]) -> io::Result<usize> {
        self.answer(piece.len())
    }

    fn flush(&mut self) -> io::Result<()> {
        Ok(())
    }
}

fn read<S: Source>(source: &mut S, into: &mut [u8; 8]) -> Got {
    source.read(into)
}

fn poll<S: Source>(source: &mut S, into: &mut [u8; 8]) -> Got {
    source.poll(into)
}

fn write<K: Sink>(sink: &mut K, piece: &[u8; 5]) -> Put {
    sink.write(piece)
}

#[test]
fn tries_again_where_interrupted(rt: HostRuntime) {
    let mut into = [0; 8];
    for (interrupts, then, got, put) in [
        (0, Some(3), Got::Bytes(3), Put::Took(3)),
        (63, Some(3), Got::Bytes(3), Put::Took(3)),
        (64, Some(3), Got::Failed, Put::Failed),
        (0, Some(0), Got::End, Put::Failed),
        (1, None, Got::Failed, Put::Failed),
    ] {
        assert_eq!(rt; read_piece(&mut Flaky { interrupts, then }, &mut into), got);
        assert_eq!(rt; write_piece(&mut Flaky { interrupts, then }, b"bytes"), put);
    }
}

#[test]
fn polls_and_reads_standard_input(rt: HostRuntime) {
    let mut source = StdinSource::new(rt);
    let mut into = [0; 8];
    assert_eq!(rt; poll(&mut source, &mut into), Got::Quiet);
    assert!(rt; read(&mut source, &mut into) != Got::Quiet);
}

#[test]
fn writes_to_each_stream(rt: HostRuntime) {
    assert_eq!(rt; write(&mut RealSink::output(rt), b"hello"), Put::Took(5));
    assert_eq!(rt; write(&mut RealSink::notes(rt), b"notes"), Put::Took(5));
    assert_eq!(rt; write(&mut RealSink::nothing(rt), b"lost!"), Put::Took(5));
}

#[test]
fn writes_to_a_file(rt: HostRuntime) -> Result<(), Fail> {
    let mut sink = RealSink::file(rt, fs::create(&rt, "edge.test")?);
    assert_eq!(rt; write(&mut sink, b"first"), Put::Took(5));
    assert_eq!(rt; write(&mut sink, b"again"), Put::Took(5));
    assert_eq!(rt;
        fs::read_to_string(&rt, "edge.test")?.as_str(),
        "firstagain"
    );
    fs::remove_file(&rt, "edge.test")?;
    Ok(())
}

#[test]
fn tells_where_a_file_is_for_reading(rt: HostRuntime) -> Result<(), Fail> {
    let mut closed = RealSink::file(rt, fs::File::open(&rt, "/dev/null")?);
    assert_eq!(rt; write(&mut closed, b"no!!!"), Put::Failed);
    Ok(())
}
