ghost use Rattle.std.specs.Prelude.{map, OnOk};
ghost use Rattle.build_messages.specs.Outgoing.{outgoing_said};
ghost use Rattle.session_build.specs.Setting.{IsSetting};
ghost use Rattle.session_build.specs.Telling.{TellsStarts};

use crate::setting::Setting;
use build_messages::{Outgoing, build_starts, target_starts};
use ob_text::NoMemory;
use std::collections::VecDeque;
use target_graph::Workspace;

/// What a build tells first: that it starts, and that each of its targets does.
pub(crate) fn tell_starts(at: &Setting, out: &mut VecDeque<Outgoing>) -> Result<(), NoMemory>
    requires { IsSetting at.now }
    ensures { OnOk result (TellsStarts at.now (map outgoing_said out.old.items) (map outgoing_said out.new.items)) }
{
    out.push_back(build_starts(at.alloc, at.number)?)?;
    let space: &Workspace = &at.workspace;
    let targets = at.targets.as_slice();
    for before in 0..targets.len() {
        let id = space.target_id(targets[before])?;
        let start = target_starts(at.alloc, at.number, before as u64 + 1, &id)?;
        out.push_back(start)?;
    }
    Ok(())
}
