ghost use Rattle.std.specs.Prelude.{◌≡◌, ◌<◌, length, replicate, All, IfOk};
ghost use Rattle.build_plan.specs.Lists.{written};

use ob_text::NoMemory;
use std::alloc::Global;

/// So many equal marks.
pub(crate) fn equal_marks(alloc: Global, count: usize, mark: bool) -> Result<Vec<bool>, NoMemory>
    ensures { IfOk result (λ marks. marks.items ≡ replicate count mark) }
{
    Ok(vec![in alloc; mark; count]?)
}

/// Writes a mark at each of the places.
pub(crate) fn write_marks(places: &[u32], marks: &mut Vec<bool>, mark: bool)
    requires { All (λ place. place < length marks.old.items) places.now }
    ensures { marks.new.items ≡ written marks.old.items places.now mark }
{
    for place in places {
        marks[*place as usize] = mark;
    }
}
