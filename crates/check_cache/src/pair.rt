ghost use Rattle.std.specs.Prelude.{◌≡◌, ◌<◌, length, IfOk};

use ob_text::{Name, NoMemory, Path};
use std::alloc::Global;
use target_graph::{Pair, Target};

/// What the cache is keyed by: a target, by its name, and the path of one of its modules. A pair keeps its key where another
/// workspace has it too, though the index of its target may be another there.
#[derive(Debug, Drop, PartialEq, Eq, Hash)]
pub struct PairKey {
    pub target: Name,
    pub path: Path,
}

impl PairKey {
    ghost use Rattle.check_cache.specs.Pairs.{key_of};

    /// The key of a pair of these targets.
    pub fn of(alloc: Global, targets: &[Target], pair: &Pair) -> Result<PairKey, NoMemory>
        requires { pair.now.target < length targets.now }
        ensures { IfOk result (λ key. key ≡ key_of targets.now pair.now) }
    {
        let target = &targets[pair.target as usize];
        Ok(PairKey {
            target: target.name.copy(alloc)?,
            path: pair.path.copy(alloc)?,
        })
    }

    /// An equal value of its own.
    pub fn copy(&self, alloc: Global) -> Result<PairKey, NoMemory>
        ensures { IfOk result (λ key. key ≡ self.now) }
    {
        Ok(PairKey {
            target: self.target.copy(alloc)?,
            path: self.path.copy(alloc)?,
        })
    }
}
