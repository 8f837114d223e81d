ghost use Rattle.std.specs.Prelude.{◌≡◌, ◌<◌, ◌≤◌, ◌^◌, ◌++◌, map, length, IfOk, OnOk};
ghost use Rattle.target_graph.specs.Workspace.{pairs_of, pairs_at};

use crate::target::{Pair, Target};
use ob_text::{NoMemory, Path};
use std::alloc::Global;

/// The pairs of all targets, in order.
#[tactic(auto, unfolding(crate::specs::Workspace::pairs_of))]
pub(crate) fn pairs_of(alloc: Global, targets: &[Target]) -> Result<Vec<Pair>, NoMemory>
    requires { length targets.now < 2 ^ 32 }
    ensures { IfOk result (λ pairs. pairs.items ≡ pairs_of targets.now) }
{
    let mut pairs = Vec::new(alloc);
    for index in 0..targets.len() {
        add_pairs(
            alloc,
            &mut pairs,
            index as u32,
            targets[index].modules.as_slice(),
        )?;
    }
    Ok(pairs)
}

fn add_pairs(
    alloc: Global,
    pairs: &mut Vec<Pair>,
    target: u32,
    modules: &[Path],
) -> Result<(), NoMemory>
    ensures { OnOk result (pairs.new.items ≡ pairs.old.items ++ pairs_at target modules.now) }
{
    for path in modules {
        let path = path.copy(alloc)?;
        pairs.push(Pair { target, path })?;
    }
    Ok(())
}
