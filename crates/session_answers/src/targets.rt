ghost use Rattle.std.specs.Prelude.{◌≡◌, ◌≤◌, ◌<◌, ◌∷◌, [], false, true, length, map, IfOk};
ghost use Rattle.std.specs.List.{All};
ghost use Rattle.bsp_records.specs.Results.{HasBuildTargetTexts};
ghost use Rattle.bsp_records.specs.ShortAnswers.{IsShortTarget, answer_limit};
ghost use Rattle.serde_json.specs.View.{view};
ghost use Rattle.serde_json.specs.Written.{compact_text, has_float};
ghost use Rattle.session_law.specs.Questions.{IsAnswer, all_targets, capabilities_of, described, tag_of};
ghost use Rattle.target_graph.specs.Names.{is_name};

use crate::identifiers::identifiers;
use bsp_records::{
    BuildTarget, BuildTargetCapabilities, BuildTargetIdentifier, BuildTargetsResult,
    write_build_targets_result,
};
use ob_text::{Items, NoMemory, Text};
use serde_json::Value;
use std::alloc::Global;
use target_graph::{Target, TargetKind, Workspace};

/// What workspace/buildTargets is answered with: the targets, in the order of the workspace file.
pub fn targets_answer(alloc: Global, workspace: &Workspace) -> Result<Value, NoMemory>
    ensures answer { IfOk result (λ value. IsAnswer workspace.now all_targets (view value)) }
    ensures exact { IfOk result (λ value. has_float (view value) ≡ false) }
    ensures short { IfOk result (λ value. length (compact_text (view value)) ≤ answer_limit) }
{
    let mut targets = Vec::new(alloc);
    for target in workspace.targets() {
        targets.push(described(alloc, workspace, target)?)?;
    }
    let targets = Items::from_vec(targets);
    write_build_targets_result(alloc, &BuildTargetsResult { targets })
}

/// A target as a client is told of it.
fn described(alloc: Global, workspace: &Workspace, target: &Target) -> Result<BuildTarget, NoMemory>
    requires name { is_name target.now.name ≡ true }
    requires dependencies { All (λ index. index < length workspace.now.targets)
        target.now.dependencies }
    ensures is { IfOk result (λ told. told ≡ described workspace.now target.now) }
    ensures texts { IfOk result HasBuildTargetTexts }
    ensures short { IfOk result IsShortTarget }
{
    let uri = workspace.id_of_name(&target.name)?.into_text();
    Ok(BuildTarget {
        id: BuildTargetIdentifier { uri },
        display_name: Text::new(alloc, target.name.as_slice())?,
        tags: only(alloc, tag_of(target.kind))?,
        language_ids: only(alloc, b"oberon")?,
        dependencies: identifiers(alloc, workspace, target.dependencies.as_slice())?,
        capabilities: capabilities_of(target.kind),
    })
}

/// A list of one text.
fn only(alloc: Global, text: &[u8]) -> Result<Items<Text>, NoMemory>
    ensures { IfOk result (λ texts. texts ≡ text.now ∷ []) }
{
    let mut texts = Vec::new(alloc);
    texts.push(Text::new(alloc, text)?)?;
    Ok(Items::from_vec(texts))
}

/// The tag of a target, by its kind.
fn tag_of(kind: TargetKind) -> &'static [u8]
    ensures { result.now ≡ tag_of kind }
{
    match kind {
        TargetKind::Library => b"library",
        TargetKind::Application => b"application",
        TargetKind::Test => b"test",
    }
}

/// What can be done with a target, by its kind.
fn capabilities_of(kind: TargetKind) -> BuildTargetCapabilities
    ensures { result ≡ capabilities_of kind }
{
    BuildTargetCapabilities {
        can_compile: true,
        can_test: kind == TargetKind::Test,
        can_run: kind == TargetKind::Application,
    }
}
