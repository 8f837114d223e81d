ghost use Rattle.std.specs.Prelude.{IfOk};

use crate::head::Head;
use crate::needs::Need;
use build_messages::Outgoing;
use ob_text::{Items, NoMemory, Path, Snapshot};
use session_build::{Kept, Remains};
use session_law::InputEnd;
use session_queue::Queue;
use session_verdicts::{InForce, Queued};
use std::alloc::Global;
use std::collections::VecDeque;
use task_stream::Shown;
use worker_pool::Outcome;

/// A session of the server. Its events come in by `message`, `snapshot`, `outcome` and `end`, what it writes is
/// taken by `next_out`, and what it needs by `next_need`. Once a call found no memory, each later one
/// answers so too.
pub struct Core {
    pub(crate) alloc: Global,
    pub(crate) out: VecDeque<Outgoing>,
    /// The workspace in force, once an initialize was answered with a result.
    pub(crate) workspace: Option<InForce>,
    /// A shutdown was answered with a result.
    pub(crate) closed: bool,
    pub(crate) status: Option<u8>,
    /// What a client shows.
    pub(crate) shown: Shown,
    /// How many bodies were taken.
    pub(crate) taken: u64,
    /// The checks that are kept from build to build.
    pub(crate) kept: Kept,
    /// The request that was taken up.
    pub(crate) head: Option<Head>,
    /// Those that wait behind it.
    pub(crate) queue: Queue<Queued>,
    /// What the tree is to be asked for, until that is taken.
    pub(crate) tree: Option<Items<Path>>,
    /// A build was cancelled whose jobs may still wait somewhere.
    pub(crate) drains: bool,
    /// What is left of a build that was answered. It is freed behind its answer.
    pub(crate) remains: Option<Remains>,
    /// The number of the first job of the build at the head, and of the next one to be given.
    pub(crate) jobs: u64,
    pub(crate) given: u64,
    pub(crate) dead: bool,
}

impl Drop for Core {
    fn drop(self) {
        let Self {
            alloc: _,
            out: _,
            workspace: _,
            closed: _,
            status: _,
            shown: _,
            taken: _,
            kept: _,
            head: _,
            queue: _,
            tree: _,
            drains: _,
            remains: _,
            jobs: _,
            given: _,
            dead: _,
        } = self;
    }
}

impl Core {
    ghost use Rattle.std.specs.Prelude.{◌≡◌, ◌≢◌, ◌≤◌, ◌<◌, ◌∷◌, [], ◌↔◌, ℕ, List, None, IfNone, IfOk, IfSome, IsTrue, OnErr, OnOk};
    ghost use Rattle.std.specs.List.{All};
    ghost use Rattle.build_messages.specs.Outgoing.{outgoing_said};
    ghost use Rattle.session_core.specs.Moving.{FinishesAtMostOne};
    ghost use Rattle.session_core.specs.Settled.{Awaits, DrainsCancelled, IsAsking, IsBack, IsIdle, IsNeeded, IsSettled, NeedsNothing, Suits, left_to_do};
    ghost use Rattle.session_core.specs.Standing.{GoesOn, HeadRests, IsAlive, IsQuiet, IsUpHead, StandsFor, left_to_write, status_of};
    ghost use Rattle.session_core.specs.State.{handed_of, rest_of, said_out};
    ghost use Rattle.session_law.specs.IsFramed.{IsFramed};
    ghost use Rattle.session_law.specs.Order.{Event, ends, hand, take, write};
    ghost use Rattle.session_law.specs.Verdicts.{IsBare};
    ghost use Rattle.worker_pool.specs.Jobs.{JobTree};
    ghost use Rattle.worker_pool.specs.Plain.{plain_job};

    /// A session in which nothing happened yet.
    pub fn new(alloc: Global) -> Core
        ensures stands { StandsFor result [] }
        ensures quiet { IsQuiet result }
        ensures settled { IsSettled (rest_of result) }
        ensures needs { NeedsNothing (rest_of result) }
        ensures idle { result.head ≡ None }
        ensures alive { IsAlive result }
        ensures running { status_of result ≡ None }
        ensures goes_on { GoesOn result }
    {
        Core {
            alloc,
            out: VecDeque::new(alloc),
            workspace: None,
            closed: false,
            status: None,
            shown: Shown::new(alloc),
            taken: 0,
            kept: Kept::new(alloc),
            head: None,
            queue: Queue::new(alloc),
            tree: None,
            drains: false,
            remains: None,
            jobs: 0,
            given: 0,
            dead: false,
        }
    }

    /// Acts on the body of a frame.
    pub fn message(&mut self, body: &[u8]) -> Result<(), NoMemory>
        requires quiet { IsQuiet self.old }
        requires settled { IsSettled (rest_of self.old) }
        requires needs { NeedsNothing (rest_of self.old) }
        requires up { IsUpHead self.old.head }
        requires running { status_of self.old ≡ None }
        ensures stands { IsAlive self.old → (order : List Event) → StandsFor self.old order
            → StandsFor self.new (take body.now ∷ order) }
        ensures settled { OnOk result (IsSettled (rest_of self.new)) }
        ensures asking { OnOk result (IsAsking (rest_of self.new)) }
        ensures bare { OnOk result (All IsBare (said_out self.new)) }
        ensures back { OnOk result ((job : JobTree) → IsBack (rest_of self.old) job
            → IsBack (rest_of self.new) job) }
        ensures awaits { OnOk result ((number : ℕ) → Awaits (rest_of self.new) number
            → Awaits (rest_of self.old) number) }
        ensures given { self.new.given ≡ self.old.given }
        ensures drains { OnOk result (DrainsCancelled (rest_of self.old) (rest_of self.new)) }
        ensures alive { OnOk result (IsAlive self.new) }
        ensures dead { OnErr result (¬ IsAlive self.new) }
        ensures found { OnOk result (IsAlive self.old) }
    {
        let acted = self.act(body);
        self.dead = acted.is_err();
        acted
    }

    /// Acts on the answer of the tree that was asked for what was needed: what it holds at these paths, in order, or nothing
    /// where it failed.
    pub fn snapshot(&mut self, got: Option<Snapshot>) -> Result<(), NoMemory>
        requires quiet { IsQuiet self.old }
        requires settled { IsSettled (rest_of self.old) }
        requires needs { NeedsNothing (rest_of self.old) }
        requires wanted { Suits (rest_of self.old) got }
        ensures stands { IsAlive self.old → (order : List Event) → StandsFor self.old order
            → StandsFor self.new (hand (handed_of got) ∷ order) }
        ensures settled { OnOk result (IsSettled (rest_of self.new)) }
        ensures asking { OnOk result (IsAsking (rest_of self.new)) }
        ensures bare { OnOk result (All IsBare (said_out self.new)) }
        ensures back { OnOk result ((job : JobTree) → IsBack (rest_of self.old) job
            → IsBack (rest_of self.new) job) }
        ensures awaits { OnOk result ((number : ℕ) → ¬ Awaits (rest_of self.new) number) }
        ensures given { self.new.given ≡ self.old.given }
        ensures fewer { OnOk result (left_to_do (rest_of self.new) < left_to_do (rest_of self.old)) }
        ensures alive { OnOk result (IsAlive self.new) }
        ensures dead { OnErr result (¬ IsAlive self.new) }
        ensures found { OnOk result (IsAlive self.old) }
        ensures status { status_of self.new ≡ status_of self.old }
        ensures drains { self.new.drains ≡ self.old.drains }
    {
        let acted = self.take_hand(got);
        self.dead = acted.is_err();
        acted
    }

    /// Acts on the outcome of a job that was given.
    pub fn outcome(&mut self, outcome: Outcome) -> Result<(), NoMemory>
        requires quiet { IsQuiet self.old }
        requires settled { IsSettled (rest_of self.old) }
        requires needs { NeedsNothing (rest_of self.old) }
        requires up { IsUpHead self.old.head }
        requires back { IsBack (rest_of self.old) (plain_job outcome.job) }
        ensures stands { IsAlive self.old → (order : List Event) → StandsFor self.old order → StandsFor self.new order }
        ensures settled { OnOk result (IsSettled (rest_of self.new)) }
        ensures asking { OnOk result (IsAsking (rest_of self.new)) }
        ensures back { OnOk result ((job : JobTree) → IsBack (rest_of self.old) job
            → job.number ≢ outcome.job.number → IsBack (rest_of self.new) job) }
        ensures awaits { OnOk result ((number : ℕ) → Awaits (rest_of self.new) number
            → Awaits (rest_of self.old) number × (number ≢ outcome.job.number)) }
        ensures others { OnOk result ((number : ℕ) → Awaits (rest_of self.old) number
            → number ≢ outcome.job.number → Awaits (rest_of self.new) number) }
        ensures given { self.new.given ≡ self.old.given }
        ensures fewer { OnOk result (Awaits (rest_of self.old) outcome.job.number
            → left_to_do (rest_of self.new) < left_to_do (rest_of self.old)) }
        ensures no_more { OnOk result (left_to_do (rest_of self.new) ≤ left_to_do (rest_of self.old)) }
        ensures alive { OnOk result (IsAlive self.new) }
        ensures dead { OnErr result (¬ IsAlive self.new) }
        ensures found { OnOk result (IsAlive self.old) }
        // At most one check that was made finishes by it.
        ensures one { OnOk result (FinishesAtMostOne (said_out self.new)) }
        ensures status { status_of self.new ≡ status_of self.old }
        ensures drains { self.new.drains ≡ self.old.drains }
    {
        let acted = self.take_outcome(outcome);
        self.dead = acted.is_err();
        acted
    }

    /// Acts on the end of the input.
    pub fn end(&mut self, how: InputEnd) -> Result<(), NoMemory>
        requires quiet { IsQuiet self.old }
        requires settled { IsSettled (rest_of self.old) }
        requires needs { NeedsNothing (rest_of self.old) }
        requires up { IsUpHead self.old.head }
        requires running { status_of self.old ≡ None }
        ensures stands { IsAlive self.old → (order : List Event) → StandsFor self.old order
            → StandsFor self.new (ends how ∷ order) }
        ensures settled { OnOk result (IsSettled (rest_of self.new)) }
        ensures asking { OnOk result (IsAsking (rest_of self.new)) }
        ensures bare { OnOk result (All IsBare (said_out self.new)) }
        ensures given { self.new.given ≡ self.old.given }
        ensures idle { OnOk result (self.new.head ≡ None) }
        ensures drains { OnOk result (DrainsCancelled (rest_of self.old) (rest_of self.new)) }
        ensures alive { OnOk result (IsAlive self.new) }
        ensures dead { OnErr result (¬ IsAlive self.new) }
        ensures found { OnOk result (IsAlive self.old) }
    {
        let acted = self.take_end(how);
        self.dead = acted.is_err();
        acted
    }

    /// The next message to write.
    pub fn next_out(&mut self) -> Option<Outgoing>
        ensures stands { IfSome result (λ m. (order : List Event) → StandsFor self.old order
            → StandsFor self.new (write (outgoing_said m) ∷ order)) }
        ensures framed { (order : List Event) → StandsFor self.old order
            → IfSome result (λ m. IsFramed (outgoing_said m)) }
        ensures fewer { IfSome result (λ _. left_to_write self.new < left_to_write self.old) }
        ensures next { IfSome result (λ m. said_out self.old ≡ outgoing_said m ∷ said_out self.new) }
        ensures none { IfNone result (IsQuiet self.old × IsQuiet self.new) }
        ensures keeps { IfNone result ((order : List Event) → StandsFor self.old order
            → StandsFor self.new order) }
        ensures rest { rest_of self.new ≡ rest_of self.old }
    {
        self.out.pop_front()
    }

    /// What the session needs next from outside.
    pub fn next_need(&mut self) -> Result<Option<Need>, NoMemory>
        requires quiet { IsQuiet self.old }
        requires settled { IsSettled (rest_of self.old) }
        ensures stands { (order : List Event) → StandsFor self.old order → StandsFor self.new order }
        ensures needed { IfOk result (IsNeeded (rest_of self.old) (rest_of self.new)) }
        ensures settled { OnOk result (IsSettled (rest_of self.new)) }
        ensures quiet { IsQuiet self.new }
        ensures dead { OnErr result (¬ IsAlive self.new) }
    {
        self.remains = None;
        if self.drains {
            self.drains = false;
            return Ok(Some(Need::Drain));
        }
        if let Some(paths) = self.tree.take() {
            return Ok(Some(Need::Tree(paths)));
        }
        let next = self.next_job();
        self.dead = self.dead || next.is_err();
        next
    }

    /// The status that the session ended with.
    pub fn exited(&self) -> Option<u8>
        ensures { result ≡ status_of self.now }
    {
        self.status
    }

    /// Whether no request of the queue is open and nothing is left to write or to need. Takes no memory.
    pub fn is_idle(&self) -> bool
        ensures { IsTrue result ↔ IsIdle self.now }
    {
        self.head.is_none() && self.out.is_empty() && self.tree.is_none() && !self.drains
    }
}
