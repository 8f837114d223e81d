ghost use Rattle.std.specs.Prelude.{◌≡◌, ◌<◌, length, map, IfOk};
ghost use Rattle.std.specs.List.{All};
ghost use Rattle.bsp_records.specs.Params.{IsTarget};
ghost use Rattle.bsp_records.specs.ShortAnswers.{IsShortIdentifier};
ghost use Rattle.session_law.specs.Questions.{identifier_at};

use bsp_records::BuildTargetIdentifier;
use ob_text::{Items, NoMemory};
use std::alloc::Global;
use target_graph::Workspace;

/// The id of a target.
pub(crate) fn identifier(
    workspace: &Workspace,
    target: u32,
) -> Result<BuildTargetIdentifier, NoMemory>
    requires { target < length workspace.now.targets }
    ensures is { IfOk result (λ id. id ≡ identifier_at workspace.now target) }
    ensures texts { IfOk result IsTarget }
    ensures short { IfOk result IsShortIdentifier }
{
    let uri = workspace.target_id(target)?.into_text();
    Ok(BuildTargetIdentifier { uri })
}

/// The ids of some targets.
pub(crate) fn identifiers(
    alloc: Global,
    workspace: &Workspace,
    targets: &[u32],
) -> Result<Items<BuildTargetIdentifier>, NoMemory>
    requires { All (λ target. target < length workspace.now.targets) targets.now }
    ensures are { IfOk result (λ ids. ids ≡ map (identifier_at workspace.now) targets.now) }
    ensures texts { IfOk result (All IsTarget) }
    ensures short { IfOk result (All IsShortIdentifier) }
{
    let mut ids = Vec::new(alloc);
    for target in targets {
        ids.push(identifier(workspace, *target)?)?;
    }
    Ok(Items::from_vec(ids))
}
