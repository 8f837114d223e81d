ghost use Rattle.std.specs.Prelude.{◌≡◌};
ghost use Rattle.worker_pool.specs.Outcomes.{IsDone};

use crate::check::Check;
use crate::outcome::{Done, Outcome};
use std::alloc::Global;

/// What is to be done.
#[derive(Drop)]
pub enum Work {
    Check(Check),
}

/// Work under a number, by which whoever gave it knows its outcome.
#[derive(Drop)]
pub struct Job {
    pub number: u64,
    pub work: Work,
}

impl Work {
    ghost use Rattle.worker_pool.specs.Plain.{plain_work};

    fn run(&self, alloc: Global) -> Done
        ensures { IsDone (plain_work self.now) result }
    {
        match self {
            Work::Check(check) => match check.run(alloc) {
                Ok(checked) => Done::Checked(checked),
                Err(_) => Done::NoMemory,
            },
        }
    }
}

impl Job {
    /// Does its work.
    pub fn run(self, alloc: Global) -> Outcome
        ensures { result.job ≡ self }
    {
        let done = self.work.run(alloc);
        Outcome::new(self, done)
    }
}
