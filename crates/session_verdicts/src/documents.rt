ghost use Rattle.std.specs.Prelude.{◌≡◌, ◌≢◌, ◌<◌, ℕ, List, Option, length, map, not, IfOk};
ghost use Rattle.std.specs.List.{All, AllPairs, list_any};
ghost use Rattle.std.specs.Str.{bytes_eq};
ghost use Rattle.session_law.specs.Builds.{AreDocuments};
ghost use Rattle.ob_text.specs.Once.{each_once, once_more};
ghost use Rattle.build_messages.specs.Documents.{build_of};

use build_messages::document_of_pair;
use build_sources::set_of;
use indexmap::IndexSet;
use ob_text::{Items, NoMemory, Path};
use session_law::BuildDocument;
use std::alloc::Global;
use target_graph::Workspace;

/// The documents of some targets and of all that they depend on, in the order of the workspace file.
pub fn documents_of(
    alloc: Global,
    workspace: &Workspace,
    asked: &[u32],
) -> Result<Items<BuildDocument>, NoMemory>
    requires { All (λ target. target < length workspace.now.targets) asked.now }
    ensures documents { IfOk result (λ documents. (origin : Option (List ℕ))
        → AreDocuments (build_of workspace.now asked.now origin) documents) }
    // No two have one key.
    ensures distinct { IfOk result (λ documents. AllPairs ◌≢◌ (map (λ document. document.key) documents)) }
{
    let targets = workspace.closure(asked)?;
    let closure = set_of(alloc, targets.as_slice())?;
    let mut documents = Vec::new(alloc);
    for pair in 0..workspace.pairs().len() {
        let target = workspace.pairs()[pair].target;
        if closure.contains(&target) {
            documents.push(document_of_pair(alloc, workspace, pair as u32)?)?;
        }
    }
    Ok(Items::from_vec(documents))
}

/// The paths of some documents, each once, in the order in which they come first.
pub fn paths_of(alloc: Global, documents: &[BuildDocument]) -> Result<Items<Path>, NoMemory>
    ensures { IfOk result (λ paths. paths ≡ each_once bytes_eq (map (λ document. document.path) documents.now)) }
{
    let mut seen = IndexSet::new(alloc);
    let mut paths = Vec::new(alloc);
    for document in documents {
        if see(alloc, &mut seen, &document.path)? {
            paths.push(document.path.copy(alloc)?)?;
        }
    }
    Ok(Items::from_vec(paths))
}

/// Puts a path behind the others, and tells whether it is new.
fn see(alloc: Global, seen: &mut IndexSet<Path>, path: &Path) -> Result<bool, NoMemory>
    ensures new { IfOk result (λ new. new ≡ not (list_any (bytes_eq path.now) seen.old.keys)) }
    ensures keys { IfOk result (λ new. seen.new.keys ≡ once_more bytes_eq seen.old.keys path.now) }
{
    let (_, new) = seen.insert_full(path.copy(alloc)?)?;
    Ok(new)
}
