ghost use Rattle.std.specs.Prelude.{◌≡◌, ℕ, ◌<◌, false, length, IfOk, OnOk};
ghost use Rattle.build_plan.specs.Lists.{has_mark};
ghost use Rattle.build_plan.specs.Cycles.{AreCyclic, LeavesCycles, IsKnown};

use crate::links::Links;
use crate::marks::{equal_marks, write_marks};
use crate::walk::Walk;
use ob_text::NoMemory;
use std::alloc::Global;

/// Marks the places that are on a cycle, where those that may be are undecided. Each search begins at a place that
/// isn't decided yet, and decides all that are on a cycle with it.
pub(crate) fn cyclic(
    alloc: Global,
    links: &Links,
    mut undecided: Vec<bool>,
) -> Result<Vec<bool>, NoMemory>
    requires { LeavesCycles links.now undecided.items }
    ensures { IfOk result (λ marks. AreCyclic links.now marks.items) }
{
    let mut cyclic = equal_marks(alloc, links.len(), false)?;
    for place in 0..links.len() {
        decide(alloc, links, place as u32, &mut undecided, &mut cyclic)?;
    }
    Ok(cyclic)
}

// Searches forwards from the pivot, and backwards over what was found: all that is found both ways is on a cycle with
// the pivot, if this leads to itself.
fn decide(
    alloc: Global,
    links: &Links,
    pivot: u32,
    undecided: &mut Vec<bool>,
    cyclic: &mut Vec<bool>,
) -> Result<(), NoMemory>
    requires within { pivot < length links.now }
    requires known { IsKnown links.now undecided.old.items cyclic.old.items }
    ensures known { OnOk result (IsKnown links.now undecided.new.items cyclic.new.items) }
    ensures decided { OnOk result (has_mark undecided.new.items pivot ≡ false) }
    ensures others { OnOk result ((b : ℕ) → has_mark undecided.old.items b ≡ false → has_mark
        undecided.new.items b ≡ false) }
{
    if !undecided[pivot as usize] {
        return Ok(());
    }
    let ahead = Walk::from(alloc, links.imports(), pivot, undecided.as_slice())?;
    if !ahead.marks[pivot as usize] {
        undecided[pivot as usize] = false;
        return Ok(());
    }
    let circle = Walk::from(alloc, links.importers(), pivot, ahead.marks.as_slice())?;
    write_marks(circle.order.as_slice(), undecided, false);
    write_marks(circle.order.as_slice(), cyclic, true);
    Ok(())
}
