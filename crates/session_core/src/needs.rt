ghost use Rattle.std.specs.Prelude.{◌≡◌, ◌∷◌, [], IfOk};
ghost use Rattle.session_law.specs.Methods.{workspace_path};

use ob_text::{Items, NoMemory, Path};
use std::alloc::Global;
use worker_pool::Job;

/// The name of the workspace file, in the folder of the workspace.
const WORKSPACE: &[u8] = b"oberon-build.json";

/// What the session needs from outside.
#[derive(Drop)]
pub enum Need {
    /// What the tree holds at these paths, in order.
    Tree(Items<Path>),
    /// That this job is done.
    Job(Job),
    /// That no job is begun any more of those that were given.
    Drain,
}

/// The path of the workspace file, alone.
pub fn workspace_paths(alloc: Global) -> Result<Items<Path>, NoMemory>
    ensures { IfOk result (λ paths. paths ≡ workspace_path ∷ []) }
{
    let path = workspace_path(alloc)?;
    let mut paths = Vec::new(alloc);
    paths.push(path)?;
    Ok(Items::from_vec(paths))
}

/// The path of the workspace file.
#[tactic(auto, unfolding(session_law::specs::Methods::workspace_path))]
pub fn workspace_path(alloc: Global) -> Result<Path, NoMemory>
    ensures { IfOk result (λ path. path ≡ workspace_path) }
{
    Path::new(alloc, WORKSPACE)
}
