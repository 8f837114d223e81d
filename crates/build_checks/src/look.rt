ghost use Rattle.std.specs.Prelude.{IfOk, IfSome, IfNone, Contains};
ghost use Rattle.build_checks.specs.Looked.{IsFound, IsKeyIn, IsLacked};
ghost use Rattle.build_checks.specs.Stand.{AreChecks, modules_of, world_of};

use crate::checks::Checks;
use check_cache::{Cache, Hit, PairKey};
use ob_text::{Name, NoMemory};
use target_graph::Workspace;

impl Checks {
    /// The kept check of a module for what is held at its path and for these imports.
    pub fn look<'c>(
        &self,
        cache: &'c Cache,
        index: u32,
        imports: &[(Name, u64)],
    ) -> Result<Option<Hit<'c>>, NoMemory>
        requires checks { AreChecks self.now }
        requires among { Contains (modules_of self.now) index }
        ensures some { IfOk result (λ found. IfSome found (λ hit. IsFound cache.now (world_of self.now) index imports.now hit.fact.now)) }
        ensures none { IfOk result (λ found. IfNone found (IsLacked cache.now (world_of self.now) index imports.now)) }
    {
        let key = self.key(index)?;
        Ok(cache.look(&key, self.sources.held(index), imports))
    }

    /// The key of a module, at which its kept checks stand.
    pub fn key(&self, index: u32) -> Result<PairKey, NoMemory>
        requires checks { AreChecks self.now }
        requires among { Contains (modules_of self.now) index }
        ensures { IfOk result (IsKeyIn (world_of self.now) index) }
    {
        let workspace: &Workspace = &self.sources.workspace;
        PairKey::of(self.alloc, workspace.targets(), self.sources.pair(index))
    }
}
