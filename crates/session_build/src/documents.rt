ghost use Rattle.std.specs.Prelude.{◌≡◌, map, IfOk};

use ob_text::NoMemory;
use session_law::BuildDocument;
use std::alloc::Global;

/// The pairs of some documents, in order.
pub(crate) fn modules_of(alloc: Global, documents: &[BuildDocument]) -> Result<Vec<u32>, NoMemory>
    ensures { IfOk result (λ modules. modules.items ≡ map (λ document. document.pair) documents.now) }
{
    let mut modules = Vec::new(alloc);
    for document in documents {
        modules.push(document.pair)?;
    }
    Ok(modules)
}
