ghost use Rattle.std.specs.Prelude.{◌≡◌, ◌<◌, List, Some, length, map, IfOk};
ghost use Rattle.std.specs.List.{All, slice_get};
ghost use Rattle.session_law.specs.Builds.{build_document};
ghost use Rattle.session_law.specs.Reloading.{key_of};
ghost use Rattle.target_graph.specs.Workspace.{pairs_of};
ghost use Rattle.target_graph.specs.declared.target.Pair.{Pair};

use ob_text::NoMemory;
use session_law::BuildDocument;
use std::alloc::Global;
use target_graph::Workspace;
use task_stream::TableKey;

/// The keys at which a client shows the documents of some pairs, in order.
pub fn keys_of(
    alloc: Global,
    workspace: &Workspace,
    pairs: &[u32],
) -> Result<Vec<TableKey>, NoMemory>
    requires { All (λ pair. pair < length (pairs_of workspace.now.targets)) pairs.now }
    ensures keys { IfOk result (λ keys. keys.items ≡ map (λ pair. (build_document workspace.now pair).key) pairs.now) }
    // Whatever these pairs are, the keys are theirs.
    ensures pairs { IfOk result (λ keys. (own : List Pair) → map (slice_get (pairs_of workspace.now.targets)) pairs.now ≡ map Some own
        → keys.items ≡ map (key_of workspace.now) own) }
{
    let mut keys = Vec::new(alloc);
    for pair in pairs {
        let document = document_of_pair(alloc, workspace, *pair)?;
        keys.push(document.key)?;
    }
    Ok(keys)
}

/// A pair's document in its target.
pub fn document_of_pair(
    alloc: Global,
    workspace: &Workspace,
    pair: u32,
) -> Result<BuildDocument, NoMemory>
    requires { pair < length (pairs_of workspace.now.targets) }
    ensures { IfOk result (λ document. document ≡ build_document workspace.now pair) }
{
    let at = &workspace.pairs()[pair as usize];
    let path = at.path.copy(alloc)?;
    let document = workspace.document_of(pair)?;
    let target = workspace.target_id(at.target)?;
    Ok(BuildDocument {
        pair,
        path,
        key: TableKey { document, target },
    })
}
