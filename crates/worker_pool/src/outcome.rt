ghost use Rattle.std.specs.Prelude.{◌≡◌};
ghost use Rattle.worker_pool.specs.Outcomes.{IsDone, outcome_of};
ghost use Rattle.worker_pool.specs.Plain.{plain_work};

use crate::job::Job;
use oberon_module::Checked;
use std::marker::Model;

/// What came of a job.
#[derive(Drop)]
pub enum Done {
    /// The module was checked.
    Checked(Checked),
    /// The work found no memory, and nothing is known.
    NoMemory,
}

/// A job that was done, and what came of it. That is what the rules say of this job's work, by what its type keeps, however
/// late the outcome is looked at.
pub struct Outcome {
    job: Job,
    done: Done,
}

impl Drop for Outcome {
    fn drop(self) {
        let Self { job: _, done: _ } = self;
    }
}

impl Model for Outcome {
    ghost use Rattle.std.specs.Coded.{codes};
    ghost use Rattle.worker_pool.specs.contracts.job.Job as jobs;
    ghost use Rattle.worker_pool.specs.contracts.outcome.Done as dones;
    ghost use Rattle.worker_pool.specs.Outcomes.{IsDone, OutcomeParts, outcome_of};
    ghost use Rattle.worker_pool.specs.Plain.{plain_work};

    ghost Value = { OutcomeParts };

    ghost coded = { Prim.hlevel (codes, jobs.the_row.coded, dones.the_row.coded) };

    ghost view = { λ o. outcome_of o.job o.done };

    ghost invariant = { λ o. IsDone (plain_work o.job.work) o.done };
}

impl Outcome {
    /// What came of a job that was done. Takes no memory.
    pub(crate) fn new(job: Job, done: Done) -> Outcome
        requires { IsDone (plain_work job.work) done }
        ensures { result ≡ outcome_of job done }
    {
        Outcome { job, done }
    }

    /// The number of its job.
    pub fn number(&self) -> u64
        ensures { result ≡ self.now.job.number }
    {
        self.job.number
    }

    /// The job that was done.
    pub fn job(&self) -> &Job
        ensures { result.now ≡ self.now.job }
    {
        &self.job
    }

    /// What came of it.
    pub fn done(&self) -> &Done
        ensures done { result.now ≡ self.now.done }
        ensures right { IsDone (plain_work self.now.job.work) self.now.done }
    {
        &self.done
    }

    /// The job, and what came of it. Takes no memory.
    pub fn into_parts(self) -> (Job, Done)
        ensures parts { self ≡ outcome_of result.0 result.1 }
        ensures right { IsDone (plain_work result.0.work) result.1 }
    {
        let Outcome { job, done } = self;
        (job, done)
    }
}
