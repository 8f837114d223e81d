ghost use Rattle.std.specs.Prelude.{◌≡◌, ◌<◌, ◌++◌, ◌∷◌, [], None, Some, ℕ, OnOk, OnErr, IfOk, IfSome, map};
ghost use Rattle.std.specs.List.{All};
ghost use Rattle.bsp_records.specs.Limits.{origin_limit};
ghost use Rattle.json_shape.specs.Shapes.{IsTextWithin};
ghost use Rattle.ob_text.specs.Held.{IsReadable};
ghost use Rattle.rpc_peer.specs.Said.{IsId};
ghost use Rattle.build_messages.specs.Outgoing.{outgoing_said};
ghost use Rattle.session_law.specs.Builds.{build_said};
ghost use Rattle.session_core.specs.State.{said_out};
ghost use Rattle.session_core.specs.Building.{BeginsBy, GoesOnBy};
ghost use Rattle.session_core.specs.Moving.{StaysBare};
ghost use Rattle.session_core.specs.Handing.{HasWent};
ghost use Rattle.session_core.specs.Settled.{IsPlannedIn};
ghost use Rattle.session_law.specs.Verdicts.{IsBare};
ghost use Rattle.worker_pool.specs.Jobs.{plain_check};
ghost use Rattle.worker_pool.specs.Outcomes.{IsCheckOf};
ghost use Rattle.session_build.specs.AtWork.{Rests, Runs};

use crate::head::{Head, Phase};
use crate::jobs::Awaiting;
use crate::session::Core;
use build_messages::Outgoing;
use ob_text::{NoMemory, Snapshot, Text};
use rpc_peer::Id;
use session_build::{Build, BuildRequest, Checked, Went};
use session_verdicts::{Planned, compiled};
use std::alloc::Global;
use std::collections::VecDeque;
use worker_pool::Check;

impl Core {
    /// Begins the build at the head, which was taken out, by what the tree holds of its documents.
    pub(crate) fn begin(
        &mut self,
        id: Id,
        number: u64,
        planned: Planned,
        snapshot: Snapshot,
    ) -> Result<(), NoMemory>
        requires named { IsId id }
        requires planned { IsPlannedIn self.old.workspace planned }
        requires texts { All (λ entry. IsReadable entry.1) snapshot.entries }
        ensures ok { OnOk result (BeginsBy self.old self.new id number planned snapshot.entries) }
        ensures bare { OnOk result (StaysBare self.old self.new) }
        ensures err { OnErr result (self.new.out.items ≡ self.old.out.items) }
        ensures queue { self.new.queue ≡ self.old.queue }
        ensures given { self.new.given ≡ self.old.given }
        ensures status { self.new.status ≡ self.old.status }
        ensures drains { self.new.drains ≡ self.old.drains }
    {
        let Some(workspace) = &self.workspace else {
            unreachable!()
        };
        let workspace = workspace.share()?;
        let (asked, origin, documents) = planned.into_parts();
        let request = BuildRequest {
            number,
            asked,
            origin: copy_of(self.alloc, &origin)?,
            documents,
        };
        let mut told = VecDeque::new(self.alloc);
        let went = Build::begin(
            self.alloc,
            workspace,
            &mut self.kept,
            &mut self.shown,
            request,
            snapshot,
            &mut told,
        )?;
        self.jobs = self.given;
        self.go_with(id, number, origin, went, told)
    }

    /// Goes on with the build at the head, which was taken out, by what a check found.
    pub(crate) fn go_on(
        &mut self,
        awaiting: Awaiting,
        check: Check,
        checked: Checked,
    ) -> Result<(), NoMemory>
        requires rests { Rests awaiting.build }
        requires short { IfSome awaiting.origin (IsTextWithin origin_limit) }
        requires runs { (pair : ℕ) × Runs awaiting.build awaiting.check pair }
        requires checked { IsCheckOf (plain_check check) checked }
        ensures ok { OnOk result (GoesOnBy self.old self.new awaiting (plain_check check)) }
        ensures err { OnErr result (self.new.out.items ≡ self.old.out.items) }
        ensures queue { self.new.queue ≡ self.old.queue }
        ensures given { self.new.given ≡ self.old.given }
        ensures status { self.new.status ≡ self.old.status }
        ensures drains { self.new.drains ≡ self.old.drains }
    {
        let Awaiting {
            id,
            number,
            build,
            origin,
            check: check_number,
        } = awaiting;
        let mut told = VecDeque::new(self.alloc);
        let went = build.outcome(
            check_number,
            check,
            checked,
            &mut self.kept,
            &mut self.shown,
            &mut told,
        )?;
        self.go_with(id, number, origin, went, told)
    }

    // Lets the build wait at the head, or answers its request, behind what it told.
    fn go_with(
        &mut self,
        id: Id,
        number: u64,
        origin: Option<Text>,
        went: Went,
        told: VecDeque<Outgoing>,
    ) -> Result<(), NoMemory>
        requires short { IfSome origin (IsTextWithin origin_limit) }
        ensures ok { OnOk result (HasWent self.old self.new id number origin went (map outgoing_said told.items)) }
        ensures bare { OnOk result (All IsBare (map outgoing_said told.items) → StaysBare self.old self.new) }
        ensures err { OnErr result (self.new.out.items ≡ self.old.out.items) }
        ensures queue { self.new.queue ≡ self.old.queue }
        ensures given { self.new.given ≡ self.old.given }
        ensures status { self.new.status ≡ self.old.status }
        ensures drains { self.new.drains ≡ self.old.drains }
    {
        match went {
            Went::On(build) => self.wait_with(
                Head {
                    id,
                    number,
                    cancelled: false,
                    phase: Phase::Built(build, origin),
                },
                told,
            ),
            Went::Ended { failed, remains } => {
                self.remains = Some(remains);
                self.answer_behind(id, &origin, failed, told)
            }
        }
    }

    // Lets a build wait at the head, behind what it told.
    fn wait_with(&mut self, head: Head, told: VecDeque<Outgoing>) -> Result<(), NoMemory>
        ensures same { OnOk result (self.new ≡ record self.old { out = self.new.out; head = Some head }) }
        ensures said { OnOk result (said_out self.new ≡ said_out self.old ++ map outgoing_said told.items) }
        ensures err { OnErr result (self.new.out.items ≡ self.old.out.items) }
        ensures queue { self.new.queue ≡ self.old.queue }
        ensures given { self.new.given ≡ self.old.given }
        ensures status { self.new.status ≡ self.old.status }
        ensures drains { self.new.drains ≡ self.old.drains }
    {
        self.tell(told)?;
        self.head = Some(head);
        Ok(())
    }

    // Answers a build that ended, behind what it told.
    fn answer_behind(
        &mut self,
        id: Id,
        origin: &Option<Text>,
        failed: bool,
        told: VecDeque<Outgoing>,
    ) -> Result<(), NoMemory>
        requires short { IfSome origin.now (IsTextWithin origin_limit) }
        ensures said { OnOk result (said_out self.new ≡ said_out self.old ++ (map outgoing_said told.items ++ build_said id origin.now failed ∷ [])) }
        ensures same { self.new ≡ record self.old { out = self.new.out } }
        ensures err { OnErr result (self.new.out.items ≡ self.old.out.items) }
    {
        let answer = compiled(self.alloc, id, origin, failed)?;
        let mut told = told;
        told.push_back(Outgoing::Message(answer))?;
        self.tell(told)
    }
}

fn copy_of(alloc: Global, origin: &Option<Text>) -> Result<Option<Text>, NoMemory>
    ensures { IfOk result (λ copy. copy ≡ origin.now) }
{
    match origin {
        Some(text) => Ok(Some(text.copy(alloc)?)),
        None => Ok(None),
    }
}
