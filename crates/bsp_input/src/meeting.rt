ghost use Rattle.std.specs.Prelude.{◌≢◌, ◌<◌, length};
ghost use Rattle.bsp_edge.specs.Reading.{TookInto};

use crate::slot::{Room, Slot};
use bsp_edge::{Got, read_piece};
use std::io::StdinLock;
use std::sync::{Condvar, Mutex, Wait};

/// Where the reading thread and the session meet.
pub(crate) struct Meeting {
    slot: Mutex<Slot>,
    /// The thread was asked for a piece.
    asked: Condvar,
    /// The thread put into the slot what it read.
    put: Condvar,
}

impl Drop for Meeting {
    fn drop(self) {
        let Self {
            slot: _,
            asked: _,
            put: _,
        } = self;
    }
}

impl Meeting {
    pub(crate) fn new(room: Room) -> Meeting {
        Meeting {
            slot: Mutex::new(Slot::new(room)),
            asked: Condvar::new(),
            put: Condvar::new(),
        }
    }

    /// Asks the thread for a piece.
    pub(crate) fn ask<R: Wait>(&self, rt: &R) {
        self.slot.lock(rt).ask();
        self.asked.notify_one();
    }

    /// Hands out what is there, and tells whether more of it is. Nothing, where the thread still reads.
    pub(crate) fn look<R: Wait>(&self, rt: &R, into: &mut [u8]) -> (Got, bool)
        requires { 0 < length into.old }
        ensures { result.0 ≢ Got.Quiet → TookInto into.new result.0 }
    {
        let mut slot = self.slot.lock(rt);
        match slot.hand_out(into) {
            Some(got) => (got, !slot.is_idle()),
            None => (Got::Quiet, true),
        }
    }

    /// Waits for what the thread was asked for, hands it out, and tells whether more of it is there.
    pub(crate) fn await_piece<R: Wait>(&self, rt: &R, into: &mut [u8]) -> (Got, bool)
        requires { 0 < length into.old }
        ensures { TookInto into.new result.0 }
    {
        let mut slot = self.slot.lock(rt);
        for _ in rt.forever() {
            if let Some(got) = slot.hand_out(into) {
                return (got, !slot.is_idle());
            }
            slot = self.put.wait(rt, slot);
        }
        unreachable!()
    }

    /// Reads a piece each time that one is asked for, until the input ends.
    pub(crate) fn serve<R: Input<Reader = StdinLock<'static>> + Wait>(&self, rt: &R, room: Room) {
        let mut room = room;
        for _ in rt.forever() {
            if !self.await_asked(rt) {
                return;
            }
            let got = read_piece(&mut rt.reader(), room.bytes.as_mut_slice());
            self.slot.lock(rt).put(room.bytes.as_slice(), got);
            self.put.notify_one();
        }
        unreachable!()
    }

    /// Waits until a piece is asked for. Behind the end of the input none is.
    fn await_asked<R: Wait>(&self, rt: &R) -> bool {
        let slot = self.asked.wait_while(rt, self.slot.lock(rt), |slot| {
            !slot.is_asked() && !slot.is_ended()
        });
        slot.is_asked()
    }
}
