ghost use Rattle.std.specs.Prelude.{◌≡◌, ℕ, List, IfOk, IfSome, Contains};
ghost use Rattle.check_cache.specs.Facts.{names_of};
ghost use Rattle.oberon_module.specs.Reading.{IsRead};
ghost use Rattle.target_graph.specs.Workspace.{stem_at};
ghost use Rattle.worker_pool.specs.Jobs.{plain_check};
ghost use Rattle.build_rules.specs.World.{held_in};
ghost use Rattle.build_sources.specs.Documents.{AreImportsOf};
ghost use Rattle.build_checks.specs.Kept.{AreNumbered, IsKept};
ghost use Rattle.build_checks.specs.Numbers.{AreNumbersOf};
ghost use Rattle.build_checks.specs.Stand.{AreChecks, IsClear, modules_of, settled_of, world_of};
ghost use Rattle.build_checks.specs.Work.{IsWorkOf};

use crate::checks::Checks;
use crate::fact::fact_of;
use build_sources::Document;
use check_cache::Fact;
use ob_text::{Held, Name, NoMemory};
use oberon_module::Reading;
use std::sync::Arc;
use worker_pool::Check;

impl Checks {
    /// What is held at a module's path, to be shared.
    pub fn held(&self, index: u32) -> Result<Arc<Held>, NoMemory>
        requires checks { AreChecks self.now }
        requires among { Contains (modules_of self.now) index }
        ensures { IfOk result (λ held. held.value ≡ held_in (world_of self.now) index) }
    {
        Ok(self.sources.document(index).held.clone()?)
    }

    /// The stem of a module's path.
    pub fn stem(&self, index: u32) -> Result<Name, NoMemory>
        requires checks { AreChecks self.now }
        requires among { Contains (modules_of self.now) index }
        ensures { IfOk result (λ stem. stem ≡ stem_at (world_of self.now).targets index) }
    {
        self.sources.stem(self.alloc, index)
    }

    /// The check of a module by what its imports show, to be made by whoever has it. It shares what is held and what was
    /// read, so no text is copied, and none is parsed again.
    pub fn work(&self, index: u32) -> Result<Check, NoMemory>
        requires checks { AreChecks self.now }
        requires among { Contains (modules_of self.now) index }
        requires clear { IsClear (world_of self.now) (settled_of self.now) index }
        ensures held { IfOk result (λ check. check.held ≡ held_in (world_of self.now) index) }
        ensures work { IfOk result (λ check. (keys : List (List ℕ)) → AreNumbersOf keys self.now → IsWorkOf (world_of self.now) index (plain_check check)) }
    {
        let views = self
            .sources
            .views(self.alloc, index, self.views.as_slice())?;
        let stem = self.sources.stem(self.alloc, index)?;
        let document = self.sources.document(index);
        let held = document.held.clone()?;
        let reading = reading_of(document)?;
        Ok(Check::new(held, reading, stem, views))
    }

    /// Checks a module by what its imports show, of which these are the names and numbers.
    pub fn check(&self, index: u32, imports: Vec<(Name, u64)>) -> Result<Fact, NoMemory>
        requires checks { AreChecks self.now }
        requires among { Contains (modules_of self.now) index }
        requires clear { IsClear (world_of self.now) (settled_of self.now) index }
        requires named { AreImportsOf (held_in (world_of self.now) index) (names_of imports.items) }
        ensures kept { IfOk result (λ fact. (keys : List (List ℕ)) → AreNumbersOf keys self.now → AreNumbered keys (world_of self.now) index imports.items → IsKept keys (world_of self.now) index fact) }
        ensures imports { IfOk result (λ fact. fact.imports ≡ imports.items) }
    {
        self.sources.are_apart();
        let check = self.work(index)?;
        let checked = check.run(self.alloc)?;
        fact_of(self.alloc, check, checked, imports)
    }
}

/// What was read of a document, shared once more.
fn reading_of(document: &Document) -> Result<Option<Arc<Reading>>, NoMemory>
    requires { IfSome document.now.reading (λ reading. IsRead document.now.held.value reading.value) }
    ensures { IfOk result (λ shared. IfSome shared (λ reading. IsRead document.now.held.value reading.value)) }
{
    match &document.reading {
        Some(reading) => Ok(Some(reading.clone()?)),
        None => Ok(None),
    }
}
