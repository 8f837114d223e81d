ghost use Rattle.std.specs.Prelude.{◌≡◌, ◌++◌, ◌∷◌, [], map, ℕ, List, None, Some, true, IfSome, IfNone, OnOk, OnErr};
ghost use Rattle.std.specs.List.{All};
ghost use Rattle.rpc_peer.specs.Said.{IsId, said};
ghost use Rattle.build_messages.specs.Outgoing.{outgoing_said};
ghost use Rattle.session_verdicts.specs.Judging.{answer_unread, Fits, HasQueuedTexts, IsSaid};
ghost use Rattle.session_core.specs.Moving.{Beside, BesideHead, BesideQueue, HeadRunsOn, IsAtOnce, IsOwedFirst, IsUnmarked, KeepsNotices, LosesAll, LosesIn, QueueTexts, RunsOn, Settles, SettlesAll, StaysBare, WasMarked};
ghost use Rattle.bsp_records.specs.Limits.{origin_limit};
ghost use Rattle.json_shape.specs.Shapes.{IsTextWithin};
ghost use Rattle.session_build.specs.AtWork.{IsAtWork, Rests};
ghost use Rattle.session_core.specs.Standing.{GoesOn, HeadGoesOn, HeadRests, IsUpHead, MidOf, Moves};
ghost use Rattle.session_law.specs.Course.{Given};
ghost use Rattle.session_law.specs.Order.{Event, onto};
ghost use Rattle.session_law.specs.Past.{after, notice_in};
ghost use Rattle.task_stream.specs.Showing.{shows};
ghost use Rattle.session_core.specs.Settled.{SettlesHeadRest, SettlesRest};
ghost use Rattle.session_core.specs.State.{asked_of, rest_of, said_out, waiting_of};
ghost use Rattle.session_queue.specs.Waiting.{kept_of};
ghost use Rattle.session_law.specs.IsFramed.{IsFramed};
ghost use Rattle.session_law.specs.Methods.{Verdict};
ghost use Rattle.session_law.specs.Open.{Open, asking_for, none, owing, working};
ghost use Rattle.session_law.specs.Requests.{Asked};

use crate::head::{Head, Phase};
use crate::session::Core;
use build_messages::Outgoing;
use ob_text::{NoMemory, Text};
use rpc_peer::{Id, Message};
use session_build::Build;
use session_queue::Waiting;
use session_verdicts::{
    Answer, InForce, Queued, Reason, call_cancelled, cancelled, initialize_value, null_answer,
    refusal, success, unread_answer,
};
use std::collections::VecDeque;

impl Core {
    /// Queues a message.
    pub(crate) fn say(&mut self, message: Message) -> Result<(), NoMemory>
        requires { notice_in (said message) ≡ [] }
        ensures said { OnOk result (map outgoing_said self.new.out.items ≡ map outgoing_said self.old.out.items ++ said message ∷ []) }
        ensures bare { OnOk result (StaysBare self.old self.new) }
        ensures notices { OnOk result (KeepsNotices self.old self.new) }
        ensures same { self.new ≡ record self.old { out = self.new.out } }
        ensures err { OnErr result (self.new.out.items ≡ self.old.out.items) }
    {
        self.out.push_back(Outgoing::Message(message))?;
        Ok(())
    }

    /// Gives the request that was taken last what it is owed at once.
    pub(crate) fn answer_last(&mut self, id: Id, answer: Answer) -> Result<(), NoMemory>
        requires named { IsId id }
        requires short { IsSaid answer }
        ensures ok { OnOk result ((o : Open) (number : ℕ) (v : Verdict) → o.last ≡ asking_for id number v ∷ [] → RunsOn o
            → IsAtOnce v → Fits v answer → Moves self.old self.new o (record o { last = [] })) }
        ensures bare { OnOk result (StaysBare self.old self.new) }
        ensures same { self.new ≡ record self.old { out = self.new.out; closed = self.new.closed } }
        ensures notices { OnOk result (KeepsNotices self.old self.new) }
        ensures err { OnErr result (self.new.out.items ≡ self.old.out.items) }
    {
        match answer {
            Answer::Result(value) => self.say(success(id, value)),
            Answer::Closing => {
                self.say(null_answer(id))?;
                self.closed = true;
                Ok(())
            }
            Answer::Refused(reason) => {
                let message = refusal(self.alloc, id, &reason)?;
                self.say(message)
            }
            Answer::Opening(_) => Ok(()),
        }
    }

    /// Refuses the request at the head, which was taken out.
    pub(crate) fn refuse_first(&mut self, id: Id, reason: Reason) -> Result<(), NoMemory>
        requires named { IsId id }
        requires short { IsSaid (Answer.Refused reason) }
        ensures ok { OnOk result ((o : Open) (number : ℕ) (v : Verdict) → o.first ≡ owing id number v → RunsOn o
            → IsOwedFirst self.old.workspace v → Fits v (Answer.Refused reason) → Moves self.old self.new o (record o { first = none })) }
        ensures bare { OnOk result (StaysBare self.old self.new) }
        ensures same { self.new ≡ record self.old { out = self.new.out } }
        ensures notices { OnOk result (KeepsNotices self.old self.new) }
        ensures err { OnErr result (self.new.out.items ≡ self.old.out.items) }
    {
        let message = refusal(self.alloc, id, &reason)?;
        self.say(message)
    }

    /// Gives the request at the head, which was taken out, what it is owed.
    pub(crate) fn answer_first(&mut self, id: Id, answer: Answer) -> Result<(), NoMemory>
        requires named { IsId id }
        requires short { IsSaid answer }
        ensures ok { OnOk result ((o : Open) (number : ℕ) (v : Verdict) → o.first ≡ owing id number v → RunsOn o
            → IsOwedFirst self.old.workspace v → Fits v answer → Moves self.old self.new o (record o { first = none })) }
        ensures bare { OnOk result (StaysBare self.old self.new) }
        ensures beside { Beside self.old self.new }
        ensures force { self.new.workspace ≡ None → self.old.workspace ≡ None }
        ensures notices { OnOk result (KeepsNotices self.old self.new) }
        ensures err { OnErr result (self.new.out.items ≡ self.old.out.items) }
    {
        match answer {
            Answer::Opening(workspace) => {
                let value = initialize_value(self.alloc)?;
                let workspace = InForce::of(self.alloc, workspace)?;
                self.say(success(id, value))?;
                self.workspace = Some(workspace);
                Ok(())
            }
            Answer::Refused(reason) => self.refuse_first(id, reason),
            Answer::Result(_) | Answer::Closing => Ok(()),
        }
    }

    /// Answers a body that is no message, or an input that is no list of frames.
    pub(crate) fn refuse(&mut self, code: i32) -> Result<(), NoMemory>
        ensures said { OnOk result (said_out self.new ≡ said_out self.old ++ answer_unread code ∷ []) }
        ensures bare { OnOk result (StaysBare self.old self.new) }
        ensures same { self.new ≡ record self.old { out = self.new.out } }
        ensures framed { IsFramed (answer_unread code) }
        ensures notices { OnOk result (KeepsNotices self.old self.new) }
        ensures beside { Beside self.old self.new }
        ensures err { OnErr result (self.new.out.items ≡ self.old.out.items) }
    {
        let message = unread_answer(self.alloc, code)?;
        self.say(message)
    }

    /// Answers a request that waited, and was taken out, as cancelled.
    pub(crate) fn answer_cancelled(&mut self, waiting: Waiting<Queued>) -> Result<(), NoMemory>
        requires named { IsId waiting.id }
        requires texts { HasQueuedTexts waiting.call }
        ensures ok { OnOk result ((o : Open) (before rest : List Asked) → o.waiting ≡ before ++ asked_of waiting ∷ rest
            → HeadRunsOn o.first → All IsUnmarked before → waiting.cancelled ≡ true
            → Moves self.old self.new o (record o { waiting = before ++ rest })) }
        ensures bare { OnOk result (StaysBare self.old self.new) }
        ensures same { self.new ≡ record self.old { out = self.new.out } }
        ensures notices { OnOk result (KeepsNotices self.old self.new) }
        ensures err { OnErr result (self.new.out.items ≡ self.old.out.items) }
    {
        let Waiting { id, call, .. } = waiting;
        let message = call_cancelled(self.alloc, id, &call)?;
        self.say(message)
    }

    /// Answers the requests that wait and are to be cancelled, the oldest first.
    pub(crate) fn settle_waiting(&mut self) -> Result<(), NoMemory>
        requires texts { QueueTexts self.old }
        ensures ok { OnOk result (Settles self.old self.new) }
        ensures bare { OnOk result (StaysBare self.old self.new) }
        ensures unmarked { OnOk result (All IsUnmarked (waiting_of self.new)) }
        ensures texts { OnOk result (QueueTexts self.new) }
        ensures notices { OnOk result (KeepsNotices self.old self.new) }
        ensures leaves { OnOk result (self.new.queue ≡ kept_of self.old.queue) }
        ensures beside { BesideQueue self.old self.new }
        ensures lost { OnErr result (LosesIn self.old self.new) }
    {
        'marked: while let Some(waiting) = self.queue.take_marked() {
            self.answer_cancelled(waiting)?;
        }
        Ok(())
    }

    /// Queues messages behind the others.
    pub(crate) fn tell(&mut self, messages: VecDeque<Outgoing>) -> Result<(), NoMemory>
        ensures said { OnOk result (said_out self.new ≡ said_out self.old ++ map outgoing_said messages.items) }
        ensures same { self.new ≡ record self.old { out = self.new.out } }
        ensures err { OnErr result (self.new.out.items ≡ self.old.out.items) }
    {
        let mut messages = messages;
        self.out.append(&mut messages)?;
        Ok(())
    }

    /// Cancels the build at the head, which was taken out, and answers its request.
    fn cancel_build(&mut self, id: Id, build: Build, origin: Option<Text>) -> Result<(), NoMemory>
        requires named { IsId id }
        requires rests { Rests build }
        requires short { IfSome origin (IsTextWithin origin_limit) }
        ensures ok { OnOk result ((o : Open) (g : Given) (order : List Event) → MidOf self.old o order → o.first ≡ working g true
            → g.active.id ≡ id → g.active.build.origin ≡ origin → self.old.workspace ≡ Some g.active.build.space
            → IsAtWork g build (after (onto (said_out self.old) order)).notices self.old.kept.keys (shows self.old.shown)
            → MidOf self.new (record o { first = none }) order) }
        ensures bare { OnOk result (StaysBare self.old self.new) }
        ensures head { self.new.head ≡ self.old.head }
        ensures queue { self.new.queue ≡ self.old.queue }
        ensures rest { OnOk result (rest_of self.new ≡ record (rest_of self.old) { drains = true }) }
        ensures beside { BesideHead self.old self.new }
        ensures err { OnErr result (self.new.out.items ≡ self.old.out.items) }
    {
        let mut told = VecDeque::new(self.alloc);
        self.remains = Some(build.cancel(self.jobs, &mut self.kept, &mut told)?);
        told.push_back(Outgoing::Message(cancelled(self.alloc, id, &origin)?))?;
        self.drains = true;
        self.tell(told)
    }

    /// Takes out the build at the head, where it is to be cancelled.
    fn take_marked_build(&mut self) -> Option<(Id, Build, Option<Text>)>
        requires { IsUpHead self.old.head }
        ensures some { IfSome result (λ taken. WasMarked self.old.head taken.0 taken.1 taken.2 × (self.new ≡ record self.old { head = None })) }
        ensures none { IfNone result (HeadGoesOn self.old.head × (self.new ≡ self.old)) }
    {
        let head = self.head.take()?;
        if !head.cancelled {
            self.head = Some(head);
            return None;
        }
        let Head {
            id,
            number: _,
            cancelled: _,
            phase,
        } = head;
        match phase {
            Phase::Built(build, origin) => Some((id, build, origin)),
            Phase::Opening(_) => unreachable!(),
            Phase::Rereading => unreachable!(),
            Phase::Planned(_) => unreachable!(),
        }
    }

    /// Cancels the build at the head, where it is to be cancelled, and answers its request.
    fn settle_head(&mut self) -> Result<(), NoMemory>
        requires rests { HeadRests self.old.head }
        requires up { IsUpHead self.old.head }
        ensures ok { OnOk result (SettlesAll self.old self.new) }
        ensures bare { OnOk result (StaysBare self.old self.new) }
        ensures goes_on { OnOk result (HeadGoesOn self.new.head) }
        ensures rests { OnOk result (HeadRests self.new.head) }
        ensures up { OnOk result (IsUpHead self.new.head) }
        ensures rest { OnOk result (SettlesHeadRest (rest_of self.old) (rest_of self.new)) }
        ensures queue { self.new.queue ≡ self.old.queue }
        ensures beside { BesideHead self.old self.new }
        ensures err { OnErr result (self.new.out.items ≡ self.old.out.items) }
    {
        match self.take_marked_build() {
            Some((id, build, origin)) => self.cancel_build(id, build, origin),
            None => Ok(()),
        }
    }

    /// Writes what is owed to the requests that are to be cancelled.
    pub(crate) fn settle(&mut self) -> Result<(), NoMemory>
        requires rests { HeadRests self.old.head }
        requires up { IsUpHead self.old.head }
        requires texts { QueueTexts self.old }
        ensures ok { OnOk result (SettlesAll self.old self.new) }
        ensures bare { OnOk result (StaysBare self.old self.new) }
        ensures goes_on { OnOk result (GoesOn self.new) }
        ensures rests { OnOk result (HeadRests self.new.head) }
        ensures up { OnOk result (IsUpHead self.new.head) }
        ensures rest { OnOk result (SettlesRest (rest_of self.old) (rest_of self.new)) }
        ensures texts { OnOk result (QueueTexts self.new) }
        ensures beside { BesideHead self.old self.new }
        ensures lost { OnErr result (LosesAll self.old self.new) }
    {
        self.settle_head()?;
        self.settle_waiting()
    }
}
