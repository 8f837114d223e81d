use bsp_edge::{Got, Source};
use bsp_input::StdinSource;
use ob_text::NoMemory;
use std::alloc::Global;
use std::io::StdinLock;
use std::sync::Wait;
use std::test::Fail;
use std::thread::{self, Threads};

fn source_of<
    R: Input<Reader = StdinLock<'static>> + Threads + Wait + Copy + Drop + Send + Sync + 'static,
>(rt: R, alloc: Global) -> Result<StdinSource<R>, Fail> {
    match StdinSource::new(rt, alloc) {
        Ok(source) => Ok(source),
        Err(NoMemory) => Err(Fail::new("no memory")),
    }
}

fn read<S: Source>(source: &mut S, into: &mut [u8; 8]) -> Got {
    source.read(into)
}

fn poll<S: Source>(source: &mut S, into: &mut [u8; 8]) -> Got {
    source.poll(into)
}

/// The answer of the first poll that finds something.
fn heard<S: Source>(rt: &impl Wait, source: &mut S, into: &mut [u8; 8]) -> Got {
    for _ in rt.forever() {
        let got = poll(source, into);
        if got != Got::Quiet {
            return got;
        }
        thread::yield_now();
    }
    unreachable!()
}

#[test]
fn reads_without_a_poll(rt: HostRuntime) -> Result<(), Fail> {
    let mut source = source_of(rt, rt.alloc())?;
    assert_eq!(rt; read(&mut source, &mut [0; 8]), Got::End);
    Ok(())
}

#[test]
fn hears_the_end_by_polls(rt: HostRuntime) -> Result<(), Fail> {
    let mut source = source_of(rt, rt.alloc())?;
    let mut into = [0; 8];
    assert_eq!(rt; heard(&rt, &mut source, &mut into), Got::End);
    assert_eq!(rt; poll(&mut source, &mut into), Got::End);
    assert_eq!(rt; read(&mut source, &mut into), Got::End);
    Ok(())
}

#[test]
fn reads_what_a_poll_asked_for(rt: HostRuntime) -> Result<(), Fail> {
    let mut source = source_of(rt, rt.alloc())?;
    let mut into = [0; 8];
    let polled = poll(&mut source, &mut into);
    assert!(rt; polled == Got::Quiet || polled == Got::End);
    assert_eq!(rt; read(&mut source, &mut into), Got::End);
    Ok(())
}
