ghost use Rattle.std.specs.Prelude.{◌≡◌, ◌<◌, ◌↔◌, false, None, length, IsTrue, IsSome};
ghost use Rattle.worker_pool.specs.Crews.{IsFresh, TookUp, Waited};

use crate::backlog::Backlog;
use crate::crew::Crew;
use crate::job::Job;
use crate::outcome::Outcome;
use crate::totals::Totals;
use std::alloc::Global;

/// Does its jobs where they are waited for, one in each wait, oldest first. It has no thread.
pub struct InlineCrew {
    alloc: Global,
    backlog: Backlog,
}

impl Drop for InlineCrew {
    fn drop(self) {
        let Self {
            alloc: _,
            backlog: _,
        } = self;
    }
}

impl InlineCrew {
    ghost use Rattle.worker_pool.specs.Inline.{inline_sight};

    /// A crew without jobs. Takes no memory.
    pub fn new(alloc: Global) -> InlineCrew
        ensures { IsFresh (inline_sight result) }
    {
        InlineCrew {
            alloc,
            backlog: Backlog::new(alloc),
        }
    }
}

impl Crew for InlineCrew {
    ghost use Rattle.worker_pool.specs.Backlogs.{backlog_adds_up};
    ghost use Rattle.worker_pool.specs.Inline.{inline_sight};

    ghost sight = { inline_sight };

    fn give(&mut self, job: Job) -> Result<(), Job> {
        self.backlog.give(job)
    }

    fn collect(&mut self) -> Option<Outcome> {
        self.backlog.collect()
    }

    /// Where no outcome is at hand, it does the oldest job that waits.
    fn wait(&mut self) -> bool
        requires { (inline_sight self.old).finished ≡ false }
        ensures answer { IsTrue result ↔ (0 < length (inline_sight self.old).out) }
        ensures hand { IsTrue result ↔ IsSome (inline_sight self.new).hand }
        ensures there { IsSome (inline_sight self.old).hand → inline_sight self.new ≡ inline_sight self.old }
        ensures out { Waited (inline_sight self.old) (inline_sight self.new) }
        ensures oldest { (inline_sight self.old).hand ≡ None → IsTrue result
            → TookUp 0 (inline_sight self.old) (inline_sight self.new) }
    {
        if self.backlog.has_outcome() {
            return true;
        }
        if self.backlog.len() == 0 {
            return false;
        }
        self.backlog.take_up(self.alloc, 0);
        true
    }

    fn drain(&mut self) -> u64 {
        self.backlog.drain()
    }

    fn finish(&mut self) -> Totals {
        self.backlog.finish()
    }

    ghost adds_up = { λ crew. backlog_adds_up crew.backlog };
}
