ghost use Rattle.std.specs.Prelude.{◌≡◌, ◌==◌, ℕ, nat_eq, IfOk};
ghost use Rattle.std.specs.List.{list_any};
ghost use Rattle.indexmap.specs.IndexSet.{contains};

use indexmap::IndexSet;
use ob_text::NoMemory;
use std::alloc::Global;

/// The numbers as a set.
pub fn set_of(alloc: Global, numbers: &[u32]) -> Result<IndexSet<u32>, NoMemory>
    ensures { IfOk result (λ set. (n : ℕ) → contains nat_eq set n
        ≡ list_any (λ number. number == n) numbers.now) }
{
    let mut set = IndexSet::new(alloc);
    for number in numbers {
        set.insert(*number)?;
    }
    Ok(set)
}
