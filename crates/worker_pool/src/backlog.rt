ghost use Rattle.std.specs.Prelude.{◌≡◌, ◌≤◌, ◌<◌, ◌+◌, ◌^◌, ◌++◌, ◌↔◌, false, None, length, map, IsTrue, IsSome};
ghost use Rattle.std.specs.Option.{MatchOption};
ghost use Rattle.std.specs.Result.{MatchResult};
ghost use Rattle.worker_pool.specs.Crews.{AreTotals, Collected, Drained, Finished, Gave, IsFresh, MayGive, TookUp, jobs_of};
ghost use Rattle.worker_pool.specs.Plain.{plain_job};

use crate::job::Job;
use crate::outcome::Outcome;
use crate::totals::Totals;
use std::alloc::Global;
use std::collections::VecDeque;

/// What a crew has that does its jobs by itself: the outcome at hand, and the jobs that wait, oldest first.
#[derive(Drop)]
pub struct Backlog {
    hand: Option<Outcome>,
    waiting: VecDeque<Job>,
    finished: bool,
    next: u64,
    given: u64,
    collected: u64,
    drained: u64,
    ghost all: { given ≡ collected + drained + length (jobs_of hand ++ map plain_job waiting.items) },
    ghost within: { given ≤ next },
    ghost fits: { given < 2 ^ 64 },
}

impl Backlog {
    ghost use Rattle.worker_pool.specs.Backlogs.{sight_of};

    pub fn new(alloc: Global) -> Backlog
        ensures { IsFresh (sight_of result) }
    {
        Backlog {
            hand: None,
            waiting: VecDeque::new(alloc),
            finished: false,
            next: 0,
            given: 0,
            collected: 0,
            drained: 0,
        }
    }

    pub fn give(&mut self, job: Job) -> Result<(), Job>
        requires { MayGive (sight_of self.old) (plain_job job) }
        ensures { MatchResult result (λ _. Gave (sight_of self.old) (sight_of self.new) (plain_job job))
            (λ back. (back ≡ job) × (sight_of self.new ≡ sight_of self.old)) }
    {
        let number = job.number;
        match self.waiting.push_back(job) {
            Ok(()) => {
                self.next = number + 1;
                self.given += 1;
                Ok(())
            }
            Err(failed) => Err(failed.value),
        }
    }

    pub fn collect(&mut self) -> Option<Outcome>
        ensures { MatchOption result (((sight_of self.old).hand ≡ None) × (sight_of self.new ≡ sight_of self.old))
            (λ outcome. Collected (sight_of self.old) (sight_of self.new) outcome) }
    {
        match self.hand.take() {
            Some(outcome) => {
                self.collected += 1;
                Some(outcome)
            }
            None => None,
        }
    }

    /// Whether an outcome is at hand.
    pub fn has_outcome(&self) -> bool
        ensures { IsTrue result ↔ IsSome self.now.hand }
    {
        self.hand.is_some()
    }

    /// How many jobs wait.
    pub fn len(&self) -> usize
        ensures { result ≡ length self.now.waiting.items }
    {
        self.waiting.len()
    }

    /// Does the job at an index of those that wait.
    pub fn take_up(&mut self, alloc: Global, index: usize)
        requires free { self.old.hand ≡ None }
        requires index { index < length self.old.waiting.items }
        ensures { TookUp index (sight_of self.old) (sight_of self.new) }
    {
        let job = self.waiting.remove(index).unwrap();
        self.hand = Some(job.run(alloc));
    }

    pub fn drain(&mut self) -> u64
        ensures { Drained (sight_of self.old) (sight_of self.new) result }
    {
        let count = self.waiting.len() as u64;
        self.waiting.clear();
        self.drained += count;
        count
    }

    pub fn finish(&mut self) -> Totals
        ensures finished { Finished (sight_of self.old) (sight_of self.new) }
        ensures totals { AreTotals (sight_of self.new) result }
    {
        if self.hand.take().is_some() {
            self.collected += 1;
        }
        self.finished = true;
        Totals {
            given: self.given,
            collected: self.collected,
            drained: self.drained,
            left: self.waiting.len() as u64,
        }
    }
}
