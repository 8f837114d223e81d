ghost use Rattle.std.specs.Prelude.{◌≡◌, ◌<◌, ◌↔◌, false, None, length, IsTrue, IsSome};
ghost use Rattle.std.specs.Option.{MatchOption};
ghost use Rattle.std.specs.Result.{MatchResult};
ghost use Rattle.worker_pool.specs.Crews.{AddsUp, AreTotals, Collected, Drained, Finished, Gave, MayGive, Sight, Waited};
ghost use Rattle.worker_pool.specs.Plain.{plain_job};

use crate::job::Job;
use crate::outcome::Outcome;
use crate::totals::Totals;

/// Whoever does jobs. The jobs that were given and neither collected nor drained are out, and at most one outcome at a time
/// is at hand.
pub trait Crew {
    ghost sight: { Self → Sight };

    /// Hands a job in, or back where no memory was found.
    fn give(&mut self, job: Job) -> Result<(), Job>
        requires going { (sight self.old).finished ≡ false }
        requires number { MayGive (sight self.old) (plain_job job) }
        ensures { MatchResult result (λ _. Gave (sight self.old) (sight self.new) (plain_job job))
            (λ back. (back ≡ job) × (sight self.new ≡ sight self.old)) };

    /// Takes the outcome that is at hand. It looks at nothing else, and waits for nothing.
    fn collect(&mut self) -> Option<Outcome>
        requires { (sight self.old).finished ≡ false }
        ensures { MatchOption result (((sight self.old).hand ≡ None) × (sight self.new ≡ sight self.old))
            (λ outcome. Collected (sight self.old) (sight self.new) outcome) };

    /// Waits until an outcome is at hand; where no job is out it answers false at once.
    fn wait(&mut self) -> bool
        requires { (sight self.old).finished ≡ false }
        ensures answer { IsTrue result ↔ (0 < length (sight self.old).out) }
        ensures hand { IsTrue result ↔ IsSome (sight self.new).hand }
        ensures there { IsSome (sight self.old).hand → sight self.new ≡ sight self.old }
        ensures out { Waited (sight self.old) (sight self.new) };

    /// Drops the jobs that weren't begun, and tells how many. The outcome at hand stays.
    fn drain(&mut self) -> u64
        requires { (sight self.old).finished ≡ false }
        ensures { Drained (sight self.old) (sight self.new) result };

    /// Ends the work, and tells what became of the jobs.
    fn finish(&mut self) -> Totals
        requires { (sight self.old).finished ≡ false }
        ensures finished { Finished (sight self.old) (sight self.new) }
        ensures totals { AreTotals (sight self.new) result };

    ghost adds_up: { (crew : Self) → AddsUp (sight crew) };
}
