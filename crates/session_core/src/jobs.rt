ghost use Rattle.std.specs.Prelude.{◌≡◌, ◌≢◌, ◌≤◌, ◌<◌, ℕ, false, None, IfOk, IfNone, IfSome, OnOk, OnErr};
ghost use Rattle.session_core.specs.Building.{TookBuild};
ghost use Rattle.session_core.specs.Settled.{Awaits, IsAsking, IsBack, IsNeeded, IsSettled, NeedsNothing, left_to_do};
ghost use Rattle.session_core.specs.Standing.{Carries, IsAlive, IsQuiet, IsUpHead, Loses};
ghost use Rattle.session_core.specs.Moving.{FinishesAtMostOne};
ghost use Rattle.session_core.specs.State.{rest_of, said_out};
ghost use Rattle.worker_pool.specs.Jobs.{JobTree, check_work, plain_check};
ghost use Rattle.worker_pool.specs.Outcomes.{IsDone};
ghost use Rattle.worker_pool.specs.Plain.{plain_job, plain_work};

use crate::head::{Head, Phase};
use crate::needs::Need;
use crate::session::Core;
use ob_text::{NoMemory, Text};
use rpc_peer::Id;
use session_build::Build;
use worker_pool::{Check, Done, Job, Outcome, Work};

/// The build at the head, taken out, of one of whose checks the outcome came.
#[derive(Drop)]
pub struct Awaiting {
    pub id: Id,
    /// The ordinal of its message.
    pub number: u64,
    pub build: Build,
    pub origin: Option<Text>,
    /// The number of the check.
    pub check: u64,
}

impl Core {
    /// The next job of the build at the head that wasn't given yet.
    pub(crate) fn next_job(&mut self) -> Result<Option<Need>, NoMemory>
        requires settled { IsSettled (rest_of self.old) }
        requires drains { self.old.drains ≡ false }
        requires tree { self.old.tree ≡ None }
        ensures needed { IfOk result (IsNeeded (rest_of self.old) (rest_of self.new)) }
        ensures same { self.new ≡ record self.old { given = self.new.given } }
    {
        let Some(head) = &self.head else {
            return Ok(None);
        };
        let Phase::Built(build, _) = &head.phase else {
            return Ok(None);
        };
        let before = self.given - self.jobs;
        if before >= build.begun() {
            return Ok(None);
        }
        let work = Work::Check(build.work(before + 1)?);
        let number = self.given;
        let Some(given) = number.checked_add(1) else {
            return Err(NoMemory);
        };
        self.given = given;
        Ok(Some(Need::Job(Job { number, work })))
    }

    /// Takes the outcome of a job.
    pub(crate) fn take_outcome(&mut self, outcome: Outcome) -> Result<(), NoMemory>
        requires quiet { IsQuiet self.old }
        requires settled { IsSettled (rest_of self.old) }
        requires needs { NeedsNothing (rest_of self.old) }
        requires up { IsUpHead self.old.head }
        requires back { IsBack (rest_of self.old) (plain_job outcome.job) }
        ensures ok { OnOk result (Carries self.old self.new) }
        ensures lost { OnErr result (Loses self.old self.new) }
        ensures settled { OnOk result (IsSettled (rest_of self.new)) }
        ensures asking { OnOk result (IsAsking (rest_of self.new)) }
        ensures back { OnOk result ((job : JobTree) → IsBack (rest_of self.old) job
            → job.number ≢ outcome.job.number → IsBack (rest_of self.new) job) }
        ensures awaits { OnOk result ((number : ℕ) → Awaits (rest_of self.new) number
            → Awaits (rest_of self.old) number × (number ≢ outcome.job.number)) }
        ensures others { OnOk result ((number : ℕ) → Awaits (rest_of self.old) number
            → number ≢ outcome.job.number → Awaits (rest_of self.new) number) }
        ensures given { self.new.given ≡ self.old.given }
        ensures fewer { OnOk result (Awaits (rest_of self.old) outcome.job.number
            → left_to_do (rest_of self.new) < left_to_do (rest_of self.old)) }
        ensures no_more { OnOk result (left_to_do (rest_of self.new) ≤ left_to_do (rest_of self.old)) }
        ensures found { OnOk result (IsAlive self.old) }
        ensures one { OnOk result (FinishesAtMostOne (said_out self.new)) }
        ensures status { self.new.status ≡ self.old.status }
        ensures drains { self.new.drains ≡ self.old.drains }
    {
        if self.dead {
            return Err(NoMemory);
        }
        let (job, done) = outcome.into_parts();
        let Some(found) = self.take_build(job.number) else {
            return self.keep_late(job, done);
        };
        let Done::Checked(checked) = done else {
            return Err(NoMemory);
        };
        self.go_on(found, check_of(job.work), checked)?;
        self.take_up_next()
    }

    // Keeps what came of a job of a build that was cancelled. Where its work found no memory there is nothing to keep.
    fn keep_late(&mut self, job: Job, done: Done) -> Result<(), NoMemory>
        requires { IsDone (plain_work job.work) done }
        ensures ok { OnOk result (Carries self.old self.new) }
        ensures same { self.new ≡ record self.old { kept = self.new.kept } }
    {
        // Where no workspace is in force no build was.
        if self.workspace.is_none() {
            return Ok(());
        }
        let Done::Checked(checked) = done else {
            return Ok(());
        };
        self.kept.outcome(job.number, check_of(job.work), checked)
    }

    // Takes out the build at the head, where the job with this number is that of one of its checks.
    fn take_build(&mut self, job: u64) -> Option<Awaiting>
        requires settled { IsSettled (rest_of self.old) }
        requires up { IsUpHead self.old.head }
        ensures some { IfSome result (TookBuild self.old self.new job) }
        ensures none { IfNone result ((self.new ≡ self.old) × ¬ Awaits (rest_of self.old) job) }
    {
        let check = job.checked_sub(self.jobs)?.checked_add(1)?;
        let head = self.head.take()?;
        let Head {
            id,
            number,
            cancelled: _,
            phase,
        } = head;
        match phase {
            Phase::Built(build, origin) => Some(Awaiting {
                id,
                number,
                build,
                origin,
                check,
            }),
            Phase::Opening(_) => unreachable!(),
            Phase::Rereading => unreachable!(),
            Phase::Planned(_) => unreachable!(),
        }
    }
}

fn check_of(work: Work) -> Check
    ensures { check_work (plain_check result) ≡ plain_work work }
{
    match work {
        Work::Check(check) => check,
    }
}
