ghost use Rattle.std.specs.Prelude.{◌≡◌, ◌<◌, ℕ, List, length, IfOk, Contains};
ghost use Rattle.check_cache.specs.Facts.{names_of};
ghost use Rattle.build_rules.specs.World.{held_in};
ghost use Rattle.build_sources.specs.Documents.{AreImportsOf};
ghost use Rattle.build_checks.specs.Kept.{AreNumbered};
ghost use Rattle.build_checks.specs.Numbers.{AreNumbersOf, IsNumberOf};
ghost use Rattle.build_checks.specs.Stand.{AreChecks, IsClear, modules_of, settled_of, world_of};

use crate::checks::Checks;
use ob_text::{Name, NoMemory};

impl Checks {
    /// The names that a module imports, in the order of its text, each with the number of the key of what it shows.
    pub fn imports(&self, index: u32) -> Result<Vec<(Name, u64)>, NoMemory>
        requires checks { AreChecks self.now }
        requires among { Contains (modules_of self.now) index }
        requires clear { IsClear (world_of self.now) (settled_of self.now) index }
        ensures named { IfOk result (λ imports. AreImportsOf (held_in (world_of self.now) index) (names_of imports.items)) }
        ensures numbered { IfOk result (λ imports. (keys : List (List ℕ)) → AreNumbersOf keys self.now → AreNumbered keys (world_of self.now) index imports.items) }
    {
        let target = self.sources.pair(index).target;
        let names = self.sources.imports(index);
        let mut numbered = Vec::new(self.alloc);
        for name in names {
            let number = self.number_of(target, name);
            numbered.push((name.copy(self.alloc)?, number))?;
        }
        Ok(numbered)
    }

    /// The number of the key of what a name shows to the modules of a target. Takes no memory.
    fn number_of(&self, target: u32, name: &Name) -> u64
        requires checks { AreChecks self.now }
        requires within { target < length (world_of self.now).targets }
        ensures { IsNumberOf (world_of self.now).targets target self.now.numbers.items self.now.out self.now.missing name.now result }
    {
        match self.sources.visible(target, name) {
            Some(module) => self.numbers[module as usize],
            None if name.as_slice() == b"Out".as_slice() => self.out,
            None => self.missing,
        }
    }
}
