ghost use Rattle.std.specs.Prelude.{◌≡◌, ◌≢◌, ◌<◌, None, length};
ghost use Rattle.bsp_edge.specs.Reading.{ReadFaults, ReadLeaves, ReadMoves};
ghost use Rattle.bsp_edge.specs.Writing.{GaveKnown, WriteFaults, WriteGives, TookWithin};
ghost use Rattle.bsp_edge.specs.Reading.{TookInto, TookKnown};

use crate::reading::{Got, Source};
use crate::writing::{Put, Sink};
use std::io::{self, ErrorKind, Read, Stderr, Write};
use std::rt::Files;

/// How often a call that a signal interrupts is made again before it counts as failed.
const TRIES: u32 = 64;

/// Standard input. It tells nothing of its contents.
#[derive(Drop)]
pub struct StdinSource<R> {
    runtime: R,
    faults: u64,
}

impl<R: Input> StdinSource<R> {
    pub fn new(runtime: R) -> StdinSource<R>
        ensures { ⟦<StdinSource<R> as Source>⟧.faults result ≡ 0 }
    {
        StdinSource { runtime, faults: 0 }
    }
}

impl<R: Input> Source for StdinSource<R> {
    ghost left = { λ _. None };

    ghost course = { λ _. None };

    ghost faults = { λ source. source.faults };

    fn read(&mut self, into: &mut [u8]) -> Got {
        let got = read_piece(&mut self.runtime.reader(), into);
        if got == Got::Failed {
            self.faults = self.faults.saturating_add(1);
        }
        got
    }

    fn poll(&mut self, _into: &mut [u8]) -> Got {
        Got::Quiet
    }
}

/// Reads a piece, again where a signal interrupts the call, 64 times at the most.
pub fn read_piece<I: Read>(input: &mut I, into: &mut [u8]) -> Got
    requires { 0 < length into.old }
    ensures took { TookInto into.new result }
    ensures known { TookKnown (I.remaining input.old) (I.remaining input.new) into.new result }
{
    for _ in 0..TRIES {
        match input.read(into) {
            Ok(0) => return Got::End,
            Ok(count) => return Got::Bytes(count),
            Err(error) => {
                if error.kind() != ErrorKind::Interrupted {
                    return Got::Failed;
                }
            }
        }
    }
    Got::Failed
}

/// Standard output, standard error, a file or nothing. It tells nothing of its contents.
#[derive(Drop)]
pub struct RealSink<R: Files> {
    runtime: R,
    stream: Stream<R::File>,
    faults: u64,
}

/// Where the bytes of a `RealSink` go.
#[derive(Drop)]
enum Stream<F> {
    Output,
    Notes(Stderr),
    File(F),
    Nothing,
}

impl<R: Files + Print> RealSink<R> {
    /// A sink to standard output.
    pub fn output(runtime: R) -> RealSink<R>
        ensures { ⟦<RealSink<R> as Sink>⟧.faults result ≡ 0 }
    {
        RealSink::to(runtime, Stream::Output)
    }

    /// A sink to a file that was opened or made.
    pub fn file(runtime: R, file: R::File) -> RealSink<R>
        ensures { ⟦<RealSink<R> as Sink>⟧.faults result ≡ 0 }
    {
        RealSink::to(runtime, Stream::File(file))
    }

    /// A sink that takes all bytes and keeps none.
    pub fn nothing(runtime: R) -> RealSink<R>
        ensures { ⟦<RealSink<R> as Sink>⟧.faults result ≡ 0 }
    {
        RealSink::to(runtime, Stream::Nothing)
    }

    fn to(runtime: R, stream: Stream<R::File>) -> RealSink<R>
        ensures { ⟦<RealSink<R> as Sink>⟧.faults result ≡ 0 }
    {
        RealSink {
            runtime,
            stream,
            faults: 0,
        }
    }
}

impl RealSink<HostRuntime> {
    /// A sink to standard error.
    pub fn notes(runtime: HostRuntime) -> RealSink<HostRuntime>
        ensures { ⟦<RealSink<HostRuntime> as Sink>⟧.faults result ≡ 0 }
    {
        RealSink::to(runtime, Stream::Notes(runtime.stderr()))
    }
}

impl<R: Files + Print> Sink for RealSink<R> {
    ghost given = { λ _. None };

    ghost faults = { λ sink. sink.faults };

    fn write(&mut self, piece: &[u8]) -> Put {
        let put = match &mut self.stream {
            Stream::Output => write_piece(&mut io::writer(&self.runtime), piece),
            Stream::Notes(stderr) => write_piece(stderr, piece),
            Stream::File(file) => write_piece(file, piece),
            Stream::Nothing => Put::Took(piece.len()),
        };
        if put == Put::Failed {
            self.faults = self.faults.saturating_add(1);
        }
        put
    }
}

/// Writes from the front of a piece, again where a signal interrupts the call, 64 times at the most.
pub fn write_piece<W: Write>(output: &mut W, piece: &[u8]) -> Put
    ensures took { TookWithin piece.now result }
    ensures known { GaveKnown (W.contents output.old) (W.contents output.new) piece.now result }
{
    for _ in 0..TRIES {
        match output.write(piece) {
            Ok(0) => return Put::Failed,
            Ok(count) => return Put::Took(count),
            Err(error) => {
                if error.kind() != ErrorKind::Interrupted {
                    return Put::Failed;
                }
            }
        }
    }
    Put::Failed
}
