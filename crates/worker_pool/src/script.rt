ghost use Rattle.std.specs.Prelude.{◌≡◌, ◌<◌, ◌↔◌, false, None, length, drop, IsTrue, IsSome};
ghost use Rattle.worker_pool.specs.Crews.{IsFresh, TookUp, Waited};
ghost use Rattle.worker_pool.specs.Script.{index_in};

use crate::backlog::Backlog;
use crate::crew::Crew;
use crate::job::Job;
use crate::outcome::Outcome;
use crate::totals::Totals;
use std::alloc::Global;

/// Does its jobs where they are waited for, one in each wait, in an order that is told in advance: each wait that does a job
/// takes up the next number, and does the job at this index of those that weren't begun, modulo their count. Behind the
/// end of the order it does the oldest one. It is for tests of what must hold in each order.
pub struct ScriptCrew {
    alloc: Global,
    order: Vec<u32>,
    backlog: Backlog,
}

impl Drop for ScriptCrew {
    fn drop(self) {
        let Self {
            alloc: _,
            order: _,
            backlog: _,
        } = self;
    }
}

impl ScriptCrew {
    ghost use Rattle.worker_pool.specs.Script.{order_of, script_sight};

    /// A crew without jobs, with an order. Takes no memory.
    pub fn new(alloc: Global, order: Vec<u32>) -> ScriptCrew
        ensures fresh { IsFresh (script_sight result) }
        ensures order { order_of result ≡ order.items }
    {
        ScriptCrew {
            alloc,
            order,
            backlog: Backlog::new(alloc),
        }
    }
}

impl Crew for ScriptCrew {
    ghost use Rattle.worker_pool.specs.Backlogs.{backlog_adds_up};
    ghost use Rattle.worker_pool.specs.Script.{order_of, script_sight};

    ghost sight = { script_sight };

    fn give(&mut self, job: Job) -> Result<(), Job> {
        self.backlog.give(job)
    }

    fn collect(&mut self) -> Option<Outcome> {
        self.backlog.collect()
    }

    /// Where no outcome is at hand, it does the job at the next index of its order.
    fn wait(&mut self) -> bool
        requires { (script_sight self.old).finished ≡ false }
        ensures answer { IsTrue result ↔ (0 < length (script_sight self.old).out) }
        ensures hand { IsTrue result ↔ IsSome (script_sight self.new).hand }
        ensures there { IsSome (script_sight self.old).hand → script_sight self.new ≡ script_sight self.old }
        ensures out { Waited (script_sight self.old) (script_sight self.new) }
        ensures turn { (script_sight self.old).hand ≡ None → IsTrue result
            → TookUp (index_in (order_of self.old) (length (script_sight self.old).out)) (script_sight self.old) (script_sight self.new) }
        ensures order { (script_sight self.old).hand ≡ None → IsTrue result
            → order_of self.new ≡ drop 1 (order_of self.old) }
        ensures kept { IsSome (script_sight self.old).hand → order_of self.new ≡ order_of self.old }
    {
        if self.backlog.has_outcome() {
            return true;
        }
        let count = self.backlog.len();
        if count == 0 {
            return false;
        }
        let index = next_index(&mut self.order, count);
        self.backlog.take_up(self.alloc, index);
        true
    }

    fn drain(&mut self) -> u64 {
        self.backlog.drain()
    }

    fn finish(&mut self) -> Totals {
        self.backlog.finish()
    }

    ghost adds_up = { λ crew. backlog_adds_up crew.backlog };
}

/// Takes the next number off an order, as an index among so many.
fn next_index(order: &mut Vec<u32>, count: usize) -> usize
    requires { 0 < count }
    ensures within { result < count }
    ensures index { result ≡ index_in order.old.items count }
    ensures rest { order.new.items ≡ drop 1 order.old.items }
{
    if order.is_empty() {
        0
    } else {
        order.remove(0) as usize % count
    }
}
