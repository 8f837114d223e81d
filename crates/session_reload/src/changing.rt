ghost use Rattle.std.specs.Prelude.{◌≡◌, ◌+◌, ◌++◌, ◌<◌, ◌≤◌, true, All, length, IfOk, OnOk, IfSome};
ghost use Rattle.std.specs.Option.{option_copied, option_to_list};
ghost use Rattle.target_graph.specs.Limits.{targets_limit};
ghost use Rattle.target_graph.specs.Names.{is_name};
ghost use Rattle.target_graph.specs.Walk.{AreClosed};
ghost use Rattle.reload_rules.specs.Changes as spec;
ghost use Rattle.reload_rules.specs.Changes.{AreChanges, changed};

use crate::same::says_same;
use crate::sides::sides_of;
use ob_text::{Name, NoMemory};
use reload_rules::{Change, ChangedTarget};
use std::alloc::Global;
use target_graph::{Target, Workspace};

/// What became of the targets between two workspaces, in the order of their names. Takes the time to sort the names, and a
/// comparison of the targets of each name.
pub fn changes(
    alloc: Global,
    old: &Workspace,
    new: &Workspace,
) -> Result<Vec<ChangedTarget>, NoMemory>
    ensures changes { IfOk result (λ changes. AreChanges old.now.targets new.now.targets changes.items) }
    ensures few { IfOk result (λ changes. length changes.items ≤ targets_limit + targets_limit) }
    // Each is the name of a target, as `Workspace::id_of_name` wants it.
    ensures valid { IfOk result (λ changes. All (λ change. is_name change.name ≡ true) changes.items) }
{
    changes_of(alloc, old.targets(), new.targets())
}

fn changes_of(alloc: Global, old: &[Target], new: &[Target]) -> Result<Vec<ChangedTarget>, NoMemory>
    requires old { AreClosed old.now }
    requires new { AreClosed new.now }
    ensures changes { IfOk result (λ changes. AreChanges old.now new.now changes.items) }
    ensures few { IfOk result (λ changes. length changes.items ≤ length old.now + length new.now) }
{
    let mut sides = sides_of(alloc, old, new)?;
    let mut changes = Vec::new(alloc);
    'names: while let Some((name, side)) = sides.pop_first() {
        let change = change_between(old, new, side.old, side.new);
        push_change(alloc, &mut changes, name, change)?;
    }
    Ok(changes)
}

fn change_between(
    old: &[Target],
    new: &[Target],
    before: Option<&Target>,
    now: Option<&Target>,
) -> Option<Change>
    requires before { IfSome before (λ target. All (λ index. index < length old.now) target.now.dependencies) }
    requires now { IfSome now (λ target. All (λ index. index < length new.now) target.now.dependencies) }
    ensures { result ≡ spec.change_between old.now new.now (option_copied before.entry) (option_copied now.entry) }
{
    match (before, now) {
        (Some(a), Some(b)) => {
            if says_same(old, a, new, b) {
                None
            } else {
                Some(Change::Changed)
            }
        }
        (Some(_), None) => Some(Change::Deleted),
        (None, Some(_)) => Some(Change::Created),
        (None, None) => None,
    }
}

/// Puts a change behind the others, where there is one.
fn push_change(
    alloc: Global,
    changes: &mut Vec<ChangedTarget>,
    name: &[u8],
    change: Option<Change>,
) -> Result<(), NoMemory>
    ensures { OnOk result (changes.new.items ≡ changes.old.items ++ option_to_list (changed name.now change)) }
{
    if let Some(change) = change {
        let name = Name::new(alloc, name)?;
        changes.push(ChangedTarget { name, change })?;
    }
    Ok(())
}
