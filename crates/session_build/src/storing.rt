ghost use Rattle.std.specs.Prelude.{◌≢◌, OnOk};
ghost use Rattle.std.specs.List.{AllPairs};
ghost use Rattle.session_build.specs.Going.{pairs_made};
ghost use Rattle.session_build.specs.Storing.{StoresAll, StoresOne};

use crate::going::Made;
use check_cache::{Cache, PairKey};
use ob_text::NoMemory;
use std::alloc::Global;
use target_graph::Workspace;

/// Puts each check that was made into the first place of its pair. What stood there moves to its other place.
pub(crate) fn store_all(
    alloc: Global,
    workspace: &Workspace,
    cache: &mut Cache,
    made: Vec<Made>,
) -> Result<(), NoMemory>
    ensures { OnOk result (AllPairs ◌≢◌ (pairs_made made.items)
        → StoresAll workspace.now made.items cache.old cache.new) }
{
    'made: for it in made {
        store_one(alloc, workspace, cache, it)?;
    }
    Ok(())
}

/// Puts one check into the first place of its pair, if the workspace has that.
fn store_one(
    alloc: Global,
    workspace: &Workspace,
    cache: &mut Cache,
    it: Made,
) -> Result<(), NoMemory>
    ensures { OnOk result (StoresOne workspace.now it cache.old cache.new) }
{
    let Made { pair, fact } = it;
    let Some(own) = workspace.pairs().get(pair as usize) else {
        return Ok(());
    };
    let key = PairKey::of(alloc, workspace.targets(), own)?;
    cache.store(&key, fact)?;
    Ok(())
}
