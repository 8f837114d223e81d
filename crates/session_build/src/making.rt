ghost use Rattle.std.specs.Prelude.{◌≡◌, ℕ, List, Some, IfOk};
ghost use Rattle.std.specs.List.{slice_get};
ghost use Rattle.build_checks.specs.Kept.{AreNumbered, IsKept};
ghost use Rattle.build_checks.specs.Work.{IsWorkOf};
ghost use Rattle.build_rules.specs.Locality.{IsApart};
ghost use Rattle.build_rules.specs.World.{World};
ghost use Rattle.check_cache.specs.Facts.{names_of};
ghost use Rattle.worker_pool.specs.Jobs.{plain_check};
ghost use Rattle.worker_pool.specs.Outcomes.{IsCheckOf};

use build_checks::fact_of;
use check_cache::Fact;
use ob_text::{Name, NoMemory};
use oberon_module::Checked;
use std::alloc::Global;
use worker_pool::Check;

/// A check that was made as a fact. These were the names of its imports, with their numbers, as it started.
pub(crate) fn fact_by(
    alloc: Global,
    imports: &[(Name, u64)],
    check: Check,
    checked: Checked,
) -> Result<Fact, NoMemory>
    requires { IsCheckOf (plain_check check) checked }
    ensures kept { IfOk result (λ fact. (keys : List (List ℕ)) (w : World) (p : ℕ) → IsApart w
        → IsWorkOf w p (plain_check check) → AreNumbered keys w p imports.now → IsKept keys w p fact) }
    ensures checked { IfOk result (λ fact. fact.checked ≡ checked) }
{
    let own = beside(alloc, checked.imports.as_slice(), imports)?;
    let fact = fact_of(alloc, check, checked, own)?;
    Ok(fact)
}

/// The names that a check found beside the numbers that were kept for them, in order.
fn beside(
    alloc: Global,
    names: &[Name],
    imports: &[(Name, u64)],
) -> Result<Vec<(Name, u64)>, NoMemory>
    ensures names { IfOk result (λ own. names_of own.items ≡ names.now) }
    // Where the names are the same, so is all.
    ensures same { IfOk result (λ own. names_of imports.now ≡ names.now → own.items ≡ imports.now) }
{
    let mut own = Vec::new(alloc);
    for index in 0..names.len() {
        let name = names[index].copy(alloc)?;
        own.push((name, number_at(imports, index)))?;
    }
    Ok(own)
}

/// The number that stands at an index, or 0 where none does.
fn number_at(imports: &[(Name, u64)], index: usize) -> u64
    ensures { (import : List ℕ × ℕ) → slice_get imports.now index ≡ Some import → result ≡ import.1 }
{
    match imports.get(index) {
        Some(import) => import.1,
        None => 0,
    }
}
