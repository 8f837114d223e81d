ghost use Rattle.std.specs.Prelude.{◌≡◌, None, IfOk, OnOk, OnErr};
ghost use Rattle.rpc_peer.specs.Said.{IsId};
ghost use Rattle.session_verdicts.specs.Judging.{Fits, IsSaid};
ghost use Rattle.session_core.specs.Moving.{Beside, StaysBare};
ghost use Rattle.session_core.specs.Opening.{Opens};
ghost use Rattle.session_core.specs.State.{handed_of};
ghost use Rattle.session_law.specs.Methods.{asking};
ghost use Rattle.session_law.specs.Requests.{handed_over};

use crate::needs::workspace_path;
use crate::session::Core;
use ob_text::{Held, NoMemory, Snapshot};
use rpc_peer::Id;
use session_verdicts::{Answer, Reason, judge_workspace};
use std::alloc::Global;
use target_graph::Root;

impl Core {
    /// Answers the initialize at the head, which was taken out, by what the tree holds of the workspace file.
    pub(crate) fn open(&mut self, id: Id, root: Root, got: Option<Snapshot>) -> Result<(), NoMemory>
        requires named { IsId id }
        ensures ok { OnOk result (Opens self.old self.new id root (handed_of got)) }
        ensures bare { OnOk result (StaysBare self.old self.new) }
        ensures beside { Beside self.old self.new }
        ensures force { self.new.workspace ≡ None → self.old.workspace ≡ None }
        ensures err { OnErr result (self.new.out.items ≡ self.old.out.items) }
    {
        let answer = opening_answer(self.alloc, root, got)?;
        self.answer_first(id, answer)
    }
}

// How an initialize with this root is answered, once the tree answered.
fn opening_answer(alloc: Global, root: Root, got: Option<Snapshot>) -> Result<Answer, NoMemory>
    ensures fits { IfOk result (Fits (handed_over (handed_of got) (asking root))) }
    ensures short { IfOk result IsSaid }
{
    match got {
        Some(snapshot) => {
            let path = workspace_path(alloc)?;
            judge_workspace(alloc, snapshot.get(&path).unwrap_or(&Held::Absent), root)
        }
        None => Ok(Answer::Refused(Reason::InternalError)),
    }
}
