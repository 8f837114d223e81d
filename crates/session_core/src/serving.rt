ghost use Rattle.std.specs.Prelude.{◌≡◌, ℕ, false, suc, None, Ok, OnOk, OnErr, IsSome, option_map};
ghost use Rattle.rpc_peer.specs.Said.{IsId, request};
ghost use Rattle.serde_json.specs.View.{view};
ghost use Rattle.session_core.specs.Acting.{ActsOn, ActsOnInVain, LosesAs, ServesAs, WaitsAsLast, WaitsInVain, is_open_in};
ghost use Rattle.session_verdicts.specs.Judging.{Fits, HasQueuedTexts, IsSaid, queued_call};
ghost use Rattle.session_core.specs.Moving.{BesideHead, IsAtOnce, KeepsJobs, LosesAll, QueueTexts, SettlesAll, StaysBare};
ghost use Rattle.session_core.specs.Marking.{marked_all};
ghost use Rattle.session_core.specs.Settled.{HasNone, HeadStays, IsAsking, IsSettled, NeedsNothing, StaysOrDrains};
ghost use Rattle.session_core.specs.Standing.{GoesOn, IsQuiet, IsUpHead};
ghost use Rattle.session_core.specs.State.{rest_of};
ghost use Rattle.session_law.specs.Methods.{Verdict, asking, closing, queued};
ghost use Rattle.session_queue.specs.Waiting.{is_open};

use crate::head::{Head, Phase, is_of};
use crate::needs::workspace_paths;
use crate::session::Core;
use ob_text::{NoMemory, Text};
use rpc_peer::{INVALID_REQUEST, Id};
use serde_json::Value;
use session_queue::Waiting;
use session_verdicts::{Answer, Owed, Queued, judge};
use target_graph::Root;

impl Core {
    /// Gives the request of this ordinal what it is owed at once, or lets it wait.
    pub(crate) fn serve(
        &mut self,
        number: u64,
        id: Id,
        method: &Text,
        params: Option<Value>,
    ) -> Result<(), NoMemory>
        requires quiet { IsQuiet self.old }
        requires settled { IsSettled (rest_of self.old) }
        requires needs { NeedsNothing (rest_of self.old) }
        requires up { IsUpHead self.old.head }
        requires running { self.old.status ≡ None }
        requires number { number ≡ suc self.old.taken }
        requires named { IsId id }
        ensures ok { OnOk result (ActsOn self.old self.new (Ok (request id method.now (option_map view params)))) }
        ensures bare { OnOk result (StaysBare self.old self.new) }
        ensures lost { OnErr result (ActsOnInVain self.old self.new (Ok (request id method.now (option_map view params)))) }
        ensures settled { OnOk result (IsSettled (rest_of self.new)) }
        ensures asking { OnOk result (IsAsking (rest_of self.new)) }
        ensures stays { OnOk result (HeadStays self.old.head self.new.head) }
        ensures drains { OnOk result (StaysOrDrains (rest_of self.old) (rest_of self.new)) }
        ensures jobs { KeepsJobs self.old self.new }
    {
        self.taken = number;
        if self.is_open(&id) {
            return self.refuse(INVALID_REQUEST);
        }
        match judge(
            self.alloc,
            method.as_slice(),
            params,
            &self.workspace,
            self.closed,
        )? {
            Owed::Answer(answer) => self.answer_now(id, answer),
            Owed::Opening(root) => self.ask(id, number, root),
            Owed::Queued(call) => self.queue_up(id, number, call),
        }
    }

    // Is a request with this id open? Takes no memory.
    fn is_open(&self, id: &Id) -> bool
        ensures { result ≡ is_open_in id.now self.now }
    {
        is_of(&self.head, id) || self.queue.is_open(id)
    }

    // Answers the request that was taken last. A shutdown that closes the session cancels all others before.
    fn answer_now(&mut self, id: Id, answer: Answer) -> Result<(), NoMemory>
        requires settled { IsSettled (rest_of self.old) }
        requires needs { NeedsNothing (rest_of self.old) }
        requires up { IsUpHead self.old.head }
        requires named { IsId id }
        requires short { IsSaid answer }
        ensures ok { OnOk result ((number : ℕ) (v : Verdict) → IsAtOnce v → Fits v answer
            → ServesAs self.old self.new id number v) }
        ensures bare { OnOk result (StaysBare self.old self.new) }
        ensures lost { OnErr result ((number : ℕ) (v : Verdict) → IsAtOnce v → Fits v answer
            → LosesAs self.old self.new id number v) }
        ensures settled { OnOk result (IsSettled (rest_of self.new)) }
        ensures asking { OnOk result (IsAsking (rest_of self.new)) }
        ensures stays { OnOk result (HeadStays self.old.head self.new.head) }
        ensures drains { OnOk result (StaysOrDrains (rest_of self.old) (rest_of self.new)) }
        ensures jobs { KeepsJobs self.old self.new }
    {
        if answer.is_closing() {
            self.close(id)
        } else {
            self.answer_last(id, answer)
        }
    }

    // Answers a shutdown that closes the session, behind all that it cancels.
    fn close(&mut self, id: Id) -> Result<(), NoMemory>
        requires settled { IsSettled (rest_of self.old) }
        requires needs { NeedsNothing (rest_of self.old) }
        requires up { IsUpHead self.old.head }
        requires named { IsId id }
        ensures ok { OnOk result ((number : ℕ) → ServesAs self.old self.new id number closing) }
        ensures bare { OnOk result (StaysBare self.old self.new) }
        ensures lost { OnErr result ((number : ℕ) → LosesAs self.old self.new id number closing) }
        ensures settled { OnOk result (IsSettled (rest_of self.new)) }
        ensures tree { OnOk result (self.new.tree ≡ None) }
        ensures idle { OnOk result (self.new.head ≡ None) }
        ensures drains { OnOk result (StaysOrDrains (rest_of self.old) (rest_of self.new)) }
        ensures jobs { KeepsJobs self.old self.new }
    {
        self.cancel_all()?;
        self.answer_last(id, Answer::Closing)
    }

    /// Cancels all requests of the queue.
    pub(crate) fn cancel_all(&mut self) -> Result<(), NoMemory>
        requires settled { IsSettled (rest_of self.old) }
        requires up { IsUpHead self.old.head }
        ensures ok { OnOk result (SettlesAll (marked_all self.old) self.new) }
        ensures bare { OnOk result (StaysBare self.old self.new) }
        ensures lost { OnErr result (LosesAll (marked_all self.old) self.new) }
        ensures rest { OnOk result (HasNone (rest_of self.old) (rest_of self.new)) }
        ensures goes_on { OnOk result (GoesOn self.new) }
        ensures beside { BesideHead self.old self.new }
    {
        self.mark_all();
        self.settle()
    }

    // Lets an initialize with this root wait at the head for the workspace file.
    fn ask(&mut self, id: Id, number: u64, root: Root) -> Result<(), NoMemory>
        requires settled { IsSettled (rest_of self.old) }
        requires named { IsId id }
        requires up { IsUpHead self.old.head }
        requires force { self.old.workspace ≡ None }
        ensures ok { OnOk result (WaitsAsLast self.old self.new id number (asking root)) }
        ensures bare { OnOk result (StaysBare self.old self.new) }
        ensures err { OnErr result (self.new.out.items ≡ self.old.out.items) }
        ensures settled { OnOk result (IsSettled (rest_of self.new)) }
        ensures asking { OnOk result (IsAsking (rest_of self.new)) }
        ensures stays { OnOk result (HeadStays self.old.head self.new.head) }
        ensures drains { OnOk result (StaysOrDrains (rest_of self.old) (rest_of self.new)) }
        ensures jobs { KeepsJobs self.old self.new }
    {
        let paths = workspace_paths(self.alloc)?;
        self.tree = Some(paths);
        self.head = Some(Head {
            id,
            number,
            cancelled: false,
            phase: Phase::Opening(root),
        });
        Ok(())
    }

    // Lets the request that was taken last wait behind the others, and takes it up where there are none.
    fn queue_up(&mut self, id: Id, number: u64, call: Queued) -> Result<(), NoMemory>
        requires settled { IsSettled (rest_of self.old) }
        requires needs { NeedsNothing (rest_of self.old) }
        requires up { IsUpHead self.old.head }
        requires begun { IsSome self.old.workspace }
        requires apart { is_open_in id self.old ≡ false }
        requires named { IsId id }
        requires call { HasQueuedTexts call }
        ensures ok { OnOk result (WaitsAsLast self.old self.new id number (queued (queued_call call))) }
        ensures bare { OnOk result (StaysBare self.old self.new) }
        ensures lost { OnErr result (WaitsInVain self.old self.new id number (queued (queued_call call))) }
        ensures settled { OnOk result (IsSettled (rest_of self.new)) }
        ensures asking { OnOk result (IsAsking (rest_of self.new)) }
        ensures stays { OnOk result (HeadStays self.old.head self.new.head) }
        ensures drains { OnOk result (StaysOrDrains (rest_of self.old) (rest_of self.new)) }
        ensures jobs { KeepsJobs self.old self.new }
    {
        self.wait(id, number, call)?;
        self.take_up_next()
    }

    // Lets the request that was taken last wait behind the others.
    fn wait(&mut self, id: Id, number: u64, call: Queued) -> Result<(), NoMemory>
        requires apart { is_open id self.old.queue ≡ false }
        requires named { IsId id }
        requires call { HasQueuedTexts call }
        requires texts { QueueTexts self.old }
        requires goes_on { GoesOn self.old }
        ensures ok { OnOk result (WaitsAsLast self.old self.new id number (queued (queued_call call))) }
        ensures bare { OnOk result (StaysBare self.old self.new) }
        ensures same { self.new ≡ record self.old { queue = self.new.queue } }
        ensures err { OnErr result (self.new ≡ self.old) }
        ensures texts { OnOk result (QueueTexts self.new) }
        ensures goes_on { OnOk result (GoesOn self.new) }
    {
        self.queue.push(Waiting {
            id,
            number,
            call,
            cancelled: false,
        })
    }
}
