ghost use Rattle.std.specs.Prelude.{◌≡◌, ◌<◌, [], Some, All, length, map, IfErr, IfOk, IsSome, OnOk, OnErr};
ghost use Rattle.reload_messages.specs.Told.{HasTold};
ghost use Rattle.session_build.specs.Cleaning.{HasReloaded};
ghost use Rattle.build_messages.specs.Outgoing.{outgoing_said};
ghost use Rattle.session_law.specs.Verdicts.{IsBare};
ghost use Rattle.task_stream.specs.Showing.{shows};
ghost use Rattle.rpc_peer.specs.Said.{IsId};
ghost use Rattle.session_verdicts.specs.Judging.{IsSaid};
ghost use Rattle.session_core.specs.Moving.{StaysBare};
ghost use Rattle.session_core.specs.Reloading.{Cleans, IsJudged, IsReread, Reloads, ReloadsTo};
ghost use Rattle.session_core.specs.State.{handed_of};
ghost use Rattle.session_verdicts.specs.declared.verdicts.Answer.TheVariants as answers;
ghost use Rattle.target_graph.specs.Workspace.{Space};

use crate::needs::workspace_path;
use crate::session::Core;
use build_messages::Outgoing;
use ob_text::{Held, NoMemory, Snapshot};
use reload_messages::tell_reload;
use rpc_peer::Id;
use session_reload::part_pairs;
use session_verdicts::{InForce, Reason, cleaned, null_answer};
use std::collections::VecDeque;
use target_graph::{Workspace, WorkspaceRefusal};

impl Core {
    /// Cleans what is kept of these targets, and answers the request that asked for it, which was taken out.
    pub(crate) fn clean(&mut self, id: Id, targets: &[u32]) -> Result<(), NoMemory>
        requires named { IsId id }
        requires begun { IsSome self.old.workspace }
        requires within { (space : Space) → self.old.workspace ≡ Some space → All (λ target. target < length space.targets) targets.now }
        ensures ok { OnOk result (Cleans self.old self.new id targets.now) }
        ensures bare { OnOk result (StaysBare self.old self.new) }
        ensures same { self.new ≡ record self.old { out = self.new.out; kept = self.new.kept } }
        ensures err { OnErr result (self.new.out.items ≡ self.old.out.items) }
    {
        let Some(workspace) = &self.workspace else {
            unreachable!()
        };
        let message = cleaned(self.alloc, id)?;
        self.kept.clean(workspace.get(), targets)?;
        self.say(message)
    }

    /// Answers the reload at the head, which was taken out, by what the tree holds of the workspace file.
    pub(crate) fn reload(&mut self, id: Id, got: Option<Snapshot>) -> Result<(), NoMemory>
        requires named { IsId id }
        requires begun { IsSome self.old.workspace }
        ensures ok { OnOk result (Reloads self.old self.new id (handed_of got)) }
        ensures bare { OnOk result (StaysBare self.old self.new) }
        ensures same { self.new ≡ record self.old { out = self.new.out; shown = self.new.shown; kept = self.new.kept; workspace = self.new.workspace } }
        ensures force { OnOk result (IsSome self.new.workspace) }
        ensures err { OnErr result (self.new.out.items ≡ self.old.out.items) }
    {
        match self.reread_file(got)? {
            Ok(workspace) => self.change_to(id, workspace),
            Err(reason) => self.refuse_first(id, reason),
        }
    }

    /// The workspace that the file describes, or why the reload is refused.
    fn reread_file(&self, got: Option<Snapshot>) -> Result<Result<Workspace, Reason>, NoMemory>
        requires begun { IsSome self.now.workspace }
        ensures read { IfOk result (λ read. (space : Space) → self.now.workspace ≡ Some space → IsReread space (handed_of got) read) }
        ensures short { IfOk result (λ read. IfErr read (λ reason. IsSaid (answers.Refused reason))) }
    {
        let Some(force) = &self.workspace else {
            unreachable!()
        };
        let Some(snapshot) = got else {
            return Ok(Err(Reason::InternalError));
        };
        let path = workspace_path(self.alloc)?;
        let file = snapshot.get(&path).unwrap_or(&Held::Absent);
        judge_file(force.get(), file)
    }

    /// Puts another workspace in force, at the same root: tells what that changes, and answers the request.
    fn change_to(&mut self, id: Id, workspace: Workspace) -> Result<(), NoMemory>
        requires named { IsId id }
        requires begun { IsSome self.old.workspace }
        requires root { (space : Space) → self.old.workspace ≡ Some space → space.root ≡ workspace.root }
        ensures ok { OnOk result (ReloadsTo self.old self.new id workspace) }
        ensures bare { OnOk result (StaysBare self.old self.new) }
        ensures same { self.new ≡ record self.old { out = self.new.out; shown = self.new.shown; kept = self.new.kept; workspace = self.new.workspace } }
        ensures force { OnOk result (IsSome self.new.workspace) }
        ensures err { OnErr result (self.new.out.items ≡ self.old.out.items) }
    {
        let mut told = self.told_of(&workspace)?;
        told.push_back(Outgoing::Message(null_answer(id)))?;
        let next = InForce::of(self.alloc, workspace)?;
        self.tell(told)?;
        self.workspace = Some(next);
        Ok(())
    }

    // What a change to this workspace tells, and forgets what is kept of the documents that go.
    fn told_of(&mut self, workspace: &Workspace) -> Result<VecDeque<Outgoing>, NoMemory>
        requires begun { IsSome self.old.workspace }
        requires root { (space : Space) → self.old.workspace ≡ Some space → space.root ≡ workspace.now.root }
        ensures told { IfOk result (λ told. (space : Space) → self.old.workspace ≡ Some space → HasTold space workspace.now (shows self.old.shown) (shows self.new.shown) [] (map outgoing_said told.items)) }
        ensures bare { IfOk result (λ told. All IsBare (map outgoing_said told.items)) }
        ensures kept { OnOk result ((space : Space) → self.old.workspace ≡ Some space → HasReloaded space workspace.now self.old.kept self.new.kept) }
        ensures same { self.new ≡ record self.old { shown = self.new.shown; kept = self.new.kept } }
    {
        let Some(force) = &self.workspace else {
            unreachable!()
        };
        let old = force.get();
        let parted = part_pairs(self.alloc, old, workspace)?;
        let mut told = VecDeque::new(self.alloc);
        tell_reload(
            self.alloc,
            old,
            workspace,
            parted.dropped.as_slice(),
            &mut self.shown,
            &mut told,
        )?;
        self.kept.reload(old, workspace, parted.kept.as_slice())?;
        Ok(told)
    }
}

// The workspace that a file describes in the place of the one in force, or why the reload is refused.
fn judge_file(force: &Workspace, file: &Held) -> Result<Result<Workspace, Reason>, NoMemory>
    ensures judged { IfOk result (IsJudged force.now file.now) }
    ensures short { IfOk result (λ judged. IfErr judged (λ reason. IsSaid (answers.Refused reason))) }
{
    match force.reread(file) {
        Ok(workspace) => Ok(Ok(workspace)),
        Err(WorkspaceRefusal::Fault(fault)) => Ok(Err(Reason::WorkspaceRefused(fault))),
        Err(WorkspaceRefusal::NoMemory) => Err(NoMemory),
    }
}
