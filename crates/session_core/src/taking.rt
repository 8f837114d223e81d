ghost use Rattle.std.specs.Prelude.{◌≡◌, ◌≤◌, None, IsSome, OnOk, OnErr};
ghost use Rattle.rpc_peer.specs.Said.{IsId};
ghost use Rattle.session_verdicts.specs.Judging.{HasQueuedTexts};
ghost use Rattle.session_core.specs.Moving.{BesideHead, StaysBare};
ghost use Rattle.session_core.specs.Settled.{BuildStays, HeadStays, IsAsking, IsSettled, IsSound, TakesUpRest, left_to_do};
ghost use Rattle.session_core.specs.Standing.{Carries, HeadGoesOn, HeadRests, Loses};
ghost use Rattle.session_core.specs.State.{rest_of};
ghost use Rattle.session_core.specs.Taking.{IsTakenUp, Plans, Rereads};

use crate::head::{Head, Phase};
use crate::needs::workspace_paths;
use crate::session::Core;
use ob_text::NoMemory;
use rpc_peer::Id;
use session_queue::Waiting;
use session_verdicts::{Planned, Queued, TakenUp, paths_of, take_up};

impl Core {
    /// Keeps a build at the head until it has its documents.
    fn plan(&mut self, id: Id, number: u64, planned: Planned) -> Result<(), NoMemory>
        ensures ok { OnOk result (Plans self.old self.new id number planned) }
        ensures bare { OnOk result (StaysBare self.old self.new) }
        ensures err { OnErr result (self.new ≡ self.old) }
    {
        let paths = paths_of(self.alloc, planned.documents())?;
        self.tree = Some(paths);
        self.head = Some(Head {
            id,
            number,
            cancelled: false,
            phase: Phase::Planned(planned),
        });
        Ok(())
    }

    /// Keeps a reload at the head until it has the workspace file.
    fn reread(&mut self, id: Id, number: u64) -> Result<(), NoMemory>
        ensures ok { OnOk result (Rereads self.old self.new id number) }
        ensures bare { OnOk result (StaysBare self.old self.new) }
        ensures err { OnErr result (self.new ≡ self.old) }
    {
        let paths = workspace_paths(self.alloc)?;
        self.tree = Some(paths);
        self.head = Some(Head {
            id,
            number,
            cancelled: false,
            phase: Phase::Rereading,
        });
        Ok(())
    }

    /// Takes up a request that waited, and was taken out, where none is at the head.
    fn take_up(&mut self, waiting: Waiting<Queued>) -> Result<(), NoMemory>
        requires named { IsId waiting.id }
        requires texts { HasQueuedTexts waiting.call }
        requires begun { IsSome self.old.workspace }
        requires none { self.old.head ≡ None }
        ensures ok { OnOk result (IsTakenUp self.old self.new waiting) }
        ensures bare { OnOk result (StaysBare self.old self.new) }
        ensures rest { OnOk result (TakesUpRest (rest_of self.old) (rest_of self.new) waiting.id waiting.number) }
        ensures queue { self.new.queue ≡ self.old.queue }
        ensures drains { self.new.drains ≡ self.old.drains }
        ensures beside { BesideHead self.old self.new }
        ensures rests { OnOk result (HeadRests self.new.head) }
        ensures goes_on { OnOk result (HeadGoesOn self.new.head) }
        ensures err { OnErr result (self.new.out.items ≡ self.old.out.items) }
    {
        let Waiting {
            id,
            number,
            call,
            ..
        } = waiting;
        match take_up(self.alloc, call, &self.workspace)? {
            TakenUp::Building(planned) => self.plan(id, number, planned),
            TakenUp::Rereading => self.reread(id, number),
            TakenUp::Cleaning(targets) => self.clean(id, targets.as_slice()),
            TakenUp::Refused(reason) => self.refuse_first(id, reason),
        }
    }

    /// Takes up the requests that wait, the oldest first, until one is at the head or none waits.
    pub(crate) fn take_up_next(&mut self) -> Result<(), NoMemory>
        requires sound { IsSound (rest_of self.old) }
        requires asking { IsAsking (rest_of self.old) }
        ensures ok { OnOk result (Carries self.old self.new) }
        ensures bare { OnOk result (StaysBare self.old self.new) }
        ensures lost { OnErr result (Loses self.old self.new) }
        ensures settled { OnOk result (IsSettled (rest_of self.new)) }
        ensures asking { OnOk result (IsAsking (rest_of self.new)) }
        ensures stays { OnOk result (HeadStays self.old.head self.new.head) }
        ensures build { OnOk result (BuildStays self.old.head self.new.head) }
        ensures no_more { OnOk result (left_to_do (rest_of self.new) ≤ left_to_do (rest_of self.old)) }
        ensures drains { self.new.drains ≡ self.old.drains }
        ensures beside { BesideHead self.old self.new }
    {
        'waiting: while self.head.is_none() {
            let Some(waiting) = self.queue.take_first() else {
                return Ok(());
            };
            self.take_up(waiting)?;
        }
        Ok(())
    }
}
