ghost use Rattle.std.specs.Prelude.{◌≡◌, ◌<◌, None, IfOk, length};
ghost use Rattle.bsp_edge.specs.Reading.{ReadFaults, ReadLeaves, ReadMoves, TookInto};

use crate::meeting::Meeting;
use crate::slot::Room;
use bsp_edge::{Got, Source, read_piece};
use ob_text::NoMemory;
use std::alloc::Global;
use std::io::StdinLock;
use std::sync::{Arc, Wait};
use std::thread::{self, Threads};

/// Standard input. It tells nothing of its contents. A poll doesn't wait: where no thread could be started it finds nothing.
pub struct StdinSource<R> {
    runtime: R,
    meeting: Arc<Meeting>,
    has_thread: bool,
    /// The thread was asked, and what it reads isn't wholly handed out.
    asked: bool,
    faults: u64,
}

impl<R: Drop> Drop for StdinSource<R> {
    fn drop(self) {
        let Self {
            runtime: _,
            meeting: _,
            has_thread: _,
            asked: _,
            faults: _,
        } = self;
    }
}

impl<
    R: Input<Reader = StdinLock<'static>> + Threads + Wait + Copy + Send + Sync + 'static,
> StdinSource<R> {
    /// Takes all the memory that it needs, and starts the thread. It ends with the process, also where it waits in a read.
    pub fn new(runtime: R, alloc: Global) -> Result<StdinSource<R>, NoMemory>
        ensures { IfOk result (λ source. ⟦<StdinSource<R> as Source>⟧.faults source ≡ 0) }
    {
        let Ok(meeting) = Arc::new(alloc, Meeting::new(Room::new(alloc)?)) else {
            return Err(NoMemory);
        };
        let theirs = meeting.clone()?;
        let room = Room::new(alloc)?;
        let started = thread::spawn(&runtime, move || theirs.serve(&runtime, room));
        Ok(StdinSource {
            runtime,
            meeting,
            has_thread: started.is_ok(),
            asked: false,
            faults: 0,
        })
    }
}

impl<R: Input<Reader = StdinLock<'static>> + Threads + Wait + Copy + Send + Sync + 'static> Source
    for StdinSource<R> {
    ghost left = { λ _. None };

    ghost course = { λ _. None };

    ghost faults = { λ source. source.faults };

    fn read(&mut self, into: &mut [u8]) -> Got {
        let got = next_piece(&self.runtime, &self.meeting, &mut self.asked, into);
        self.faults = faults_behind(self.faults, got);
        got
    }

    fn poll(&mut self, into: &mut [u8]) -> Got {
        if !self.has_thread {
            return Got::Quiet;
        }
        if !self.asked {
            self.meeting.ask(&self.runtime);
        }
        let (got, more) = self.meeting.look(&self.runtime, into);
        self.asked = more;
        self.faults = faults_behind(self.faults, got);
        got
    }
}

/// The piece that the thread was asked for, or else one that is read here.
fn next_piece<R: Input<Reader = StdinLock<'static>> + Wait>(
    rt: &R,
    meeting: &Meeting,
    asked: &mut bool,
    into: &mut [u8],
) -> Got
    requires { 0 < length into.old }
    ensures { TookInto into.new result }
{
    if *asked {
        let (got, more) = meeting.await_piece(rt, into);
        *asked = more;
        got
    } else {
        read_piece(&mut rt.reader(), into)
    }
}

/// How many calls failed, behind one that answers so.
fn faults_behind(faults: u64, got: Got) -> u64
    ensures { ReadFaults faults result got }
{
    match got {
        Got::Failed => faults.saturating_add(1),
        Got::Bytes(_) => faults,
        Got::End => faults,
        Got::Quiet => faults,
    }
}
