ghost use Rattle.std.specs.Prelude.{◌≡◌, ◌<◌, ◌^◌, ℕ, length, IfOk};
ghost use Rattle.build_plan.specs.Rows.{OnCycle};
ghost use Rattle.oberon_types.specs.Entities.{cyclic_view};
ghost use Rattle.build_sources.specs.Known.{view_at};

use build_plan::Plan;
use ob_text::NoMemory;
use oberon_types::View;
use std::alloc::Global;

/// The views of modules before any is checked: that of a module on a cycle is known.
pub fn first_views(alloc: Global, plan: &Plan, count: usize) -> Result<Vec<View>, NoMemory>
    requires rows { count ≡ length plan.now.rows }
    requires few { count < 2 ^ 32 }
    ensures count { IfOk result (λ views. length views.items ≡ count) }
    ensures cyclic { IfOk result (λ views. (p : ℕ) → OnCycle plan.now.rows p → view_at views.items p ≡ cyclic_view) }
{
    let mut views = Vec::new(alloc);
    for index in 0..count {
        views.push(if plan.on_cycle(index as u32) {
            View::Cyclic
        } else {
            View::Missing
        })?;
    }
    Ok(views)
}
