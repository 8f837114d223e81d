ghost use Rattle.std.specs.Prelude.{◌≡◌, [], false, replicate, IfOk};
ghost use Rattle.target_graph.specs.Closures.{lists};

use ob_text::NoMemory;
use std::alloc::Global;

/// So many lists, each of them empty.
pub(crate) fn empty_lists<T: Drop>(alloc: Global, count: usize) -> Result<Vec<Vec<T>>, NoMemory>
    ensures { IfOk result (λ empty. lists empty ≡ replicate count []) }
{
    let mut empty = Vec::new(alloc);
    for _ in 0..count {
        empty.push(Vec::new(alloc))?;
    }
    Ok(empty)
}

/// So many indices, none of them marked.
pub(crate) fn no_marks(alloc: Global, count: usize) -> Result<Vec<bool>, NoMemory>
    ensures { IfOk result (λ marks. marks.items ≡ replicate count false) }
{
    Ok(vec![in alloc; false; count]?)
}
