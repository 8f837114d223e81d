//! What a reload tells, as messages: the lists of the documents that it drops are cleared, and then the targets that changed
//! are told.
//!
//! It stands on `session_reload` for what lies between two workspaces, on `task_stream` for what a client shows, and on
//! `session_law`, which says what a reload tells (`specs/Reloading.antt` there: begin with it). It knows nothing of
//! requests, of kept checks and of the tree.
#![tactic(auto)]

mod clearing;
mod telling;

ghost use Rattle.std.specs.Prelude.{◌≡◌, ◌<◌, Some, map, All, OnOk, length};
ghost use Rattle.std.specs.List.{slice_get};
ghost use Rattle.reload_rules.specs.Dropped.{dropped};
ghost use Rattle.reload_messages.specs.Told.{HasTold};
ghost use Rattle.build_messages.specs.Outgoing.{outgoing_said};
ghost use Rattle.target_graph.specs.Workspace.{pairs_of};
ghost use Rattle.task_stream.specs.Showing.{shows};

use crate::clearing::clear_all;
use crate::telling::tell_changes;
use build_messages::{Outgoing, keys_of};
use ob_text::NoMemory;
use std::alloc::Global;
use std::collections::VecDeque;
use target_graph::Workspace;
use task_stream::Shown;

/// Tells a client of a reload from one workspace to another, which drops the pairs of these indices: puts the messages behind
/// the others, and keeps what a client shows then.
pub fn tell_reload(
    alloc: Global,
    old: &Workspace,
    new: &Workspace,
    gone: &[u32],
    shown: &mut Shown,
    told: &mut VecDeque<Outgoing>,
) -> Result<(), NoMemory>
    requires gone { map (slice_get (pairs_of old.now.targets)) gone.now ≡ map Some (dropped old.now.targets new.now.targets) }
    requires within { All (λ pair. pair < length (pairs_of old.now.targets)) gone.now }
    ensures { OnOk result (HasTold old.now new.now (shows shown.old) (shows shown.new) (map outgoing_said told.old.items) (map outgoing_said told.new.items)) }
{
    // (the pairs of a workspace are told with it that no two have one address and one target)
    let _pairs = old.pairs();
    let keys = keys_of(alloc, old, gone)?;
    clear_all(shown, keys.as_slice(), told)?;
    tell_changes(alloc, old, new, told)
}
