//! Crews for tests: one that counts and has little room, and one that begins each job as it gets it.
ghost use Rattle.std.specs.Prelude.{None};
ghost use Rattle.worker_pool.specs.Backlogs.{backlog_adds_up};
ghost use Rattle.worker_pool.specs.Crews.{IsFresh};
ghost use Rattle.worker_pool.specs.Script.{script_sight};

use std::alloc::Global;
use worker_pool::{Crew, Job, Outcome, ScriptCrew, Totals};

/// A crew with an order that has room for a number of jobs, and counts those that it was given and those that were drained.
#[derive(Drop)]
pub struct CountingCrew {
    crew: ScriptCrew,
    room: u64,
    pub given: u64,
    pub drained: u64,
}

impl CountingCrew {
    pub fn new(alloc: Global, order: Vec<u32>, room: u64) -> CountingCrew
        ensures { IsFresh (script_sight result.crew) }
    {
        CountingCrew {
            crew: ScriptCrew::new(alloc, order),
            room,
            given: 0,
            drained: 0,
        }
    }
}

impl Crew for CountingCrew {
    ghost sight = { λ crew. script_sight crew.crew };

    /// Takes the job where there is room.
    fn give(&mut self, job: Job) -> Result<(), Job> {
        if self.given >= self.room {
            return Err(job);
        }
        self.given += 1;
        self.crew.give(job)
    }

    fn collect(&mut self) -> Option<Outcome> {
        self.crew.collect()
    }

    fn wait(&mut self) -> bool {
        self.crew.wait()
    }

    fn drain(&mut self) -> u64 {
        let count = self.crew.drain();
        self.drained = self.drained.saturating_add(count);
        count
    }

    fn finish(&mut self) -> Totals {
        self.crew.finish()
    }

    ghost adds_up = { λ crew. backlog_adds_up crew.crew.backlog };
}

/// A crew that begins each job as it gets it, and does them one after another. So none can be drained.
#[derive(Drop)]
pub struct KeenCrew {
    crew: ScriptCrew,
}

impl KeenCrew {
    pub fn new(alloc: Global, order: Vec<u32>) -> KeenCrew
        ensures { IsFresh (record (script_sight result.crew) { untaken = None }) }
    {
        KeenCrew {
            crew: ScriptCrew::new(alloc, order),
        }
    }
}

impl Crew for KeenCrew {
    ghost sight = { λ crew. record (script_sight crew.crew) { untaken = None } };

    fn give(&mut self, job: Job) -> Result<(), Job> {
        self.crew.give(job)
    }

    fn collect(&mut self) -> Option<Outcome> {
        self.crew.collect()
    }

    fn wait(&mut self) -> bool {
        self.crew.wait()
    }

    fn drain(&mut self) -> u64 {
        0
    }

    fn finish(&mut self) -> Totals {
        self.crew.finish()
    }

    ghost adds_up = { λ crew. record {
      all = (backlog_adds_up crew.crew.backlog).all;
      fits = (backlog_adds_up crew.crew.backlog).fits;
      hand = (backlog_adds_up crew.crew.backlog).hand;
      untaken = tt;
    } };
}
