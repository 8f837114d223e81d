ghost use Rattle.std.specs.Prelude.{◌≡◌, ◌≤◌, true, map, length, All, IfOk, OnOk};
ghost use Rattle.bsp_records.specs.Notices.{HasEventTexts};
ghost use Rattle.bsp_records.specs.ShortAnswers.{IsShortEvent, changes_limit};
ghost use Rattle.reload_messages.specs.Told.{HasToldChanges};
ghost use Rattle.rpc_peer.specs.Said.{said};
ghost use Rattle.build_messages.specs.Outgoing.{outgoing_said};
ghost use Rattle.session_law.specs.IsFramed.{IsFramed};
ghost use Rattle.session_law.specs.Reloading.{changes_said, event_of, kind_of};
ghost use Rattle.target_graph.specs.Names.{is_name};

use bsp_records::{
    BuildTargetEvent, BuildTargetEventKind, BuildTargetIdentifier, DidChangeParams,
    write_did_change_params,
};
use build_messages::Outgoing;
use ob_text::{Items, NoMemory, Text};
use reload_rules::{Change, ChangedTarget};
use rpc_peer::Message;
use session_reload::changes;
use std::alloc::Global;
use std::collections::VecDeque;
use target_graph::Workspace;

/// Tells which targets changed between two workspaces, where some did.
pub(crate) fn tell_changes(
    alloc: Global,
    old: &Workspace,
    new: &Workspace,
    told: &mut VecDeque<Outgoing>,
) -> Result<(), NoMemory>
    ensures { OnOk result (HasToldChanges old.now new.now (map outgoing_said told.old.items) (map outgoing_said told.new.items)) }
{
    let found = changes(alloc, old, new)?;
    if found.is_empty() {
        return Ok(());
    }
    let message = changes_message(alloc, old, found.as_slice())?;
    told.push_back(Outgoing::Message(message))?;
    Ok(())
}

/// The notification that these targets changed.
#[tactic(auto, unfolding(session_law::specs::Reloading::changes_said))]
fn changes_message(
    alloc: Global,
    workspace: &Workspace,
    found: &[ChangedTarget],
) -> Result<Message, NoMemory>
    requires few { length found.now ≤ changes_limit }
    requires valid { All (λ change. is_name change.name ≡ true) found.now }
    ensures said { IfOk result (λ m. said m ≡ changes_said workspace.now.root found.now) }
    ensures framed { OnOk result (IsFramed (changes_said workspace.now.root found.now)) }
{
    let changes = events_of(alloc, workspace, found)?;
    let params = DidChangeParams { changes };
    Ok(Message::Notification {
        method: Text::new(alloc, b"buildTarget/didChange")?,
        params: Some(write_did_change_params(alloc, &params)?),
    })
}

/// Changes as they are told.
fn events_of(
    alloc: Global,
    workspace: &Workspace,
    found: &[ChangedTarget],
) -> Result<Items<BuildTargetEvent>, NoMemory>
    requires { All (λ change. is_name change.name ≡ true) found.now }
    ensures events { IfOk result (λ events. events ≡ map (event_of workspace.now.root) found.now) }
    ensures texts { IfOk result (λ events. All HasEventTexts events) }
    ensures short { IfOk result (λ events. All IsShortEvent events) }
{
    let mut events = Vec::new(alloc);
    for change in found {
        events.push(event_of(workspace, change)?)?;
    }
    Ok(Items::from_vec(events))
}

/// A change as it is told.
fn event_of(workspace: &Workspace, change: &ChangedTarget) -> Result<BuildTargetEvent, NoMemory>
    requires { is_name change.now.name ≡ true }
    ensures event { IfOk result (λ event. event ≡ event_of workspace.now.root change.now) }
    ensures texts { IfOk result HasEventTexts }
    ensures short { IfOk result IsShortEvent }
{
    let uri = workspace.id_of_name(&change.name)?.into_text();
    Ok(BuildTargetEvent {
        target: BuildTargetIdentifier { uri },
        kind: kind_of(change.change),
    })
}

fn kind_of(change: Change) -> BuildTargetEventKind
    ensures { result ≡ kind_of change }
{
    match change {
        Change::Created => BuildTargetEventKind::Created,
        Change::Changed => BuildTargetEventKind::Changed,
        Change::Deleted => BuildTargetEventKind::Deleted,
    }
}
