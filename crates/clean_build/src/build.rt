ghost use Rattle.std.specs.Prelude.{◌≡◌, ◌<◌, ℕ, Some, if◌then◌else◌, length, IfOk, Contains};
ghost use Rattle.std.specs.List.{All, slice_set};
ghost use Rattle.build_plan.specs.Lists.{lists};
ghost use Rattle.ob_text.specs.Held.{IsReadable};
ghost use Rattle.build_rules.specs.Views.{AreLists};
ghost use Rattle.build_sources.specs.Modules.{AreModules};
ghost use Rattle.build_sources.specs.Sources.{AreSources, world};
ghost use Rattle.clean_build.specs.Build.{HasListAt};

use build_plan::Plan;
use build_sources::{Sources, first_views, set_of};
use ob_text::{Diagnostic, NoMemory, Snapshot};
use oberon_module::Checked;
use oberon_types::View;
use std::alloc::Global;
use std::sync::Arc;
use target_graph::Workspace;

/// The lists of the clean build for some modules, which are indices of pairs, in the order in which they are given. Each
/// document is read once, and each module checked once, behind those that it imports.
pub fn clean_build(
    alloc: Global,
    workspace: Arc<Workspace>,
    modules: &[u32],
    snapshot: Snapshot,
) -> Result<Vec<Vec<Diagnostic>>, NoMemory>
    requires modules { AreModules workspace.value.targets modules.now }
    requires texts { All (λ entry. IsReadable entry.1) snapshot.entries }
    ensures { IfOk result (λ found. AreLists (record { targets = workspace.value.targets; entries = snapshot.entries }) modules.now (lists found)) }
{
    let sources = Sources::new(alloc, workspace, snapshot, &[])?;
    in_order(alloc, &sources, modules)
}

/// Checks these modules, each behind those that it imports, and gives their lists by their indices.
fn check_all(
    alloc: Global,
    sources: &Sources,
    modules: &[u32],
) -> Result<Vec<Option<Vec<Diagnostic>>>, NoMemory>
    requires sources { AreSources sources.now }
    requires modules { AreModules sources.now.workspace.value.targets modules.now }
    ensures { IfOk result (λ lists. (p : ℕ) → Contains modules.now p → HasListAt (world sources.now) lists.items p) }
{
    let wanted = set_of(alloc, modules)?;
    let size = sources.count();
    let mut plan = Plan::new(alloc, sources.rows(alloc)?)?;
    let mut views = first_views(alloc, &plan, size)?;
    let mut lists = no_lists(alloc, size)?;
    'modules: while let Some(module) = plan.ready() {
        if wanted.contains(&module) {
            let checked = sources.check(alloc, module, views.as_slice())?;
            keep(
                checked,
                module,
                plan.on_cycle(module),
                &mut views,
                &mut lists,
            );
        }
        plan.finish(module);
    }
    Ok(lists)
}

/// Keeps what the check of a module found. The view of a module on a cycle stays as it is.
fn keep(
    checked: Checked,
    index: u32,
    cyclic: bool,
    views: &mut Vec<View>,
    slots: &mut Vec<Option<Vec<Diagnostic>>>,
)
    requires viewed { index < length views.old.items }
    requires listed { index < length slots.old.items }
    ensures views { views.new.items ≡ (if cyclic then views.old.items else slice_set views.old.items index checked.view) }
    ensures slots { slots.new.items ≡ slice_set slots.old.items index (Some checked.list) }
{
    let Checked { list, view, .. } = checked;
    slots[index as usize] = Some(list);
    if !cyclic {
        views[index as usize] = view;
    }
}

fn no_lists(alloc: Global, count: usize) -> Result<Vec<Option<Vec<Diagnostic>>>, NoMemory>
    ensures { IfOk result (λ lists. length lists.items ≡ count) }
{
    let mut lists = Vec::new(alloc);
    for _ in 0..count {
        lists.push(None)?;
    }
    Ok(lists)
}

/// The lists of these modules, in the order of the modules.
fn in_order(
    alloc: Global,
    sources: &Sources,
    modules: &[u32],
) -> Result<Vec<Vec<Diagnostic>>, NoMemory>
    requires sources { AreSources sources.now }
    requires modules { AreModules sources.now.workspace.value.targets modules.now }
    ensures { IfOk result (λ found. AreLists (world sources.now) modules.now (lists found)) }
{
    let mut slots = check_all(alloc, sources, modules)?;
    let mut found = Vec::new(alloc);
    for module in modules {
        match slots[*module as usize].take() {
            Some(list) => found.push(list)?,
            None => unreachable!(),
        }
    }
    Ok(found)
}
