ghost use Rattle.std.specs.Prelude.{◌≡◌, ◌<◌, length, IfOk, All};
ghost use Rattle.build_plan.specs.Rows.{OnCycle};
ghost use Rattle.build_plan.specs.Cycles.{LeavesCycles};

use crate::front::Front;
use crate::links::Links;
use crate::marks::{equal_marks, write_marks};
use ob_text::NoMemory;
use std::alloc::Global;

/// Takes away, again and again, the places that import nothing that is left: they are the finished ones of the front.
pub(crate) fn peel(alloc: Global, links: Links) -> Result<Front, NoMemory>
    ensures rows { IfOk result (λ front. front.rows ≡ links) }
    ensures peeled { IfOk result (λ front. All (λ place. ¬ (OnCycle links place)) front.finished) }
{
    let none = equal_marks(alloc, links.len(), false)?;
    let mut front = Front::new(alloc, links, none)?;
    while let Some(place) = front.next() {
        front.finish(place);
    }
    Ok(front)
}

/// Marks the places that aren't finished.
pub(crate) fn unfinished(alloc: Global, front: &Front) -> Result<Vec<bool>, NoMemory>
    requires { All (λ place. ¬ (OnCycle front.now.rows place)) front.now.finished }
    ensures { IfOk result (λ marks. LeavesCycles front.now.rows marks.items) }
{
    let mut marks = equal_marks(alloc, front.links().len(), true)?;
    write_marks(front.finished(), &mut marks, false);
    Ok(marks)
}
