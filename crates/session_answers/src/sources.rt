ghost use Rattle.std.specs.Prelude.{◌≡◌, ◌≤◌, ◌<◌, ◌==◌, false, true, length, map, IfOk};
ghost use Rattle.std.specs.List.{All};
ghost use Rattle.bsp_records.specs.Results.{HasSourceTexts, HasSourcesTexts};
ghost use Rattle.bsp_records.specs.ShortAnswers.{IsShortSource, IsShortSourcesItem, answer_limit};
ghost use Rattle.serde_json.specs.View.{view};
ghost use Rattle.serde_json.specs.Written.{compact_text, has_float};
ghost use Rattle.ob_text.specs.Once.{each_once};
ghost use Rattle.session_law.specs.Questions.{IsAnswer, inverse_of, source_at, sources_at, sources_of};
ghost use Rattle.target_graph.specs.Names.{is_path};
ghost use Rattle.target_graph.specs.Workspace.{AreValid};

use crate::identifiers::{identifier, identifiers};
use bsp_records::{
    InverseSourcesResult, SourceItem, SourceItemKind, SourcesItem, SourcesResult,
    write_inverse_sources_result, write_sources_result,
};
use indexmap::IndexSet;
use ob_text::{Items, NoMemory, Path};
use serde_json::Value;
use std::alloc::Global;
use target_graph::{Target, Workspace};

/// What buildTarget/sources is answered with for these targets: the documents of each, once, in the order asked.
pub fn sources_answer(
    alloc: Global,
    workspace: &Workspace,
    asked: &[u32],
) -> Result<Value, NoMemory>
    requires { All (λ target. target < length workspace.now.targets) asked.now }
    ensures answer { IfOk result (λ value. IsAnswer workspace.now (sources_of asked.now) (view value)) }
    ensures exact { IfOk result (λ value. has_float (view value) ≡ false) }
    ensures short { IfOk result (λ value. length (compact_text (view value)) ≤ answer_limit) }
{
    let all = workspace.targets();
    let once = each_once(alloc, asked)?;
    let mut items = Vec::new(alloc);
    for target in &once {
        items.push(sources_at(alloc, workspace, all, *target)?)?;
    }
    let items = Items::from_vec(items);
    write_sources_result(alloc, &SourcesResult { items })
}

/// Each number once, where it stands first.
fn each_once(alloc: Global, numbers: &[u32]) -> Result<Vec<u32>, NoMemory>
    ensures { IfOk result (λ once. once.items ≡ each_once ◌==◌ numbers.now) }
{
    let mut seen = IndexSet::new(alloc);
    for number in numbers {
        seen.insert(*number)?;
    }
    Ok(seen.into_iter().collect(alloc)?)
}

/// A target with its documents.
fn sources_at(
    alloc: Global,
    workspace: &Workspace,
    all: &[Target],
    target: u32,
) -> Result<SourcesItem, NoMemory>
    requires all { all.now ≡ workspace.now.targets }
    requires valid { AreValid all.now }
    requires within { target < length workspace.now.targets }
    ensures is { IfOk result (λ item. item ≡ sources_at workspace.now target) }
    ensures texts { IfOk result HasSourcesTexts }
    ensures short { IfOk result IsShortSourcesItem }
{
    let modules = all[target as usize].modules.as_slice();
    Ok(SourcesItem {
        target: identifier(workspace, target)?,
        sources: sources_of(alloc, workspace, modules)?,
    })
}

/// The documents at these paths.
fn sources_of(
    alloc: Global,
    workspace: &Workspace,
    paths: &[Path],
) -> Result<Items<SourceItem>, NoMemory>
    requires { All (λ path. is_path path ≡ true) paths.now }
    ensures are { IfOk result (λ sources. sources ≡ map (source_at workspace.now) paths.now) }
    ensures texts { IfOk result (All HasSourceTexts) }
    ensures short { IfOk result (All IsShortSource) }
{
    let mut sources = Vec::new(alloc);
    for path in paths {
        sources.push(source_at(workspace, path)?)?;
    }
    Ok(Items::from_vec(sources))
}

/// The document at this path.
fn source_at(workspace: &Workspace, path: &Path) -> Result<SourceItem, NoMemory>
    requires { is_path path.now ≡ true }
    ensures is { IfOk result (λ source. source ≡ source_at workspace.now path.now) }
    ensures texts { IfOk result HasSourceTexts }
    ensures short { IfOk result IsShortSource }
{
    Ok(SourceItem {
        uri: workspace.address_of_path(path)?.into_text(),
        kind: SourceItemKind::File,
        generated: false,
    })
}

/// What buildTarget/inverseSources is answered with for the document at this address: the targets that list it
/// themselves, in the order of the workspace file.
pub fn inverse_answer(alloc: Global, workspace: &Workspace, uri: &str) -> Result<Value, NoMemory>
    ensures answer { IfOk result (λ value. IsAnswer workspace.now (inverse_of uri.now) (view value)) }
    ensures exact { IfOk result (λ value. has_float (view value) ≡ false) }
    ensures short { IfOk result (λ value. length (compact_text (view value)) ≤ answer_limit) }
{
    let found = workspace.inverse(uri)?;
    let targets = identifiers(alloc, workspace, found.as_slice())?;
    write_inverse_sources_result(alloc, &InverseSourcesResult { targets })
}
