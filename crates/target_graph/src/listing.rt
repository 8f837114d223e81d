ghost use Rattle.std.specs.Prelude.{◌≡◌, ◌<◌, ◌≤◌, ◌^◌, codes, length, nat_lt, None, Some, map, All, Contains, IfOk, IfSome, IfNone, not, ◌∷◌, ◌++◌, [], if◌then◌else◌};
ghost use Rattle.std.specs.List.{list_any};
ghost use Rattle.std.specs.Str.{bytes_eq};
ghost use Rattle.target_graph.specs.Faults.{too_many, modules_of, dependencies_of, names_of, target_of, index_of, IsFirstRepeat, IsFirstUnknown, IsAbout, IsNameIndex, IsResolved, Looks};
ghost use Rattle.target_graph.specs.declared.fault.FaultKind.TheVariants as kinds;
ghost use Rattle.target_graph.specs.declared.target.Target.{Target};
ghost use Rattle.target_graph.specs.Limits.{dependencies_limit, pairs_limit, targets_limit};

use crate::entry::Entry;
use crate::fault::{FaultKind, WorkspaceFault, WorkspaceRefusal};
use crate::target::Target;
use indexmap::IndexSet;
use ob_text::{Items, Name, NoMemory};
use std::alloc::Global;

/// The most targets of a workspace.
const TARGET_LIMIT: usize = 256;

/// The most pairs of a target and a module's path, over all targets.
const PAIR_LIMIT: usize = 1_024;

/// The most dependencies, over all targets.
const DEPENDENCY_LIMIT: usize = 1_024;

/// The refusal by a fault that is about these bytes.
pub(crate) fn refusal(alloc: Global, kind: FaultKind, name: &[u8]) -> WorkspaceRefusal
    ensures { IsAbout result kind name.now }
{
    match Name::new(alloc, name) {
        Ok(name) => WorkspaceRefusal::Fault(WorkspaceFault { kind, name }),
        Err(NoMemory) => WorkspaceRefusal::NoMemory,
    }
}

/// Looks whether the file lists too many things.
pub(crate) fn count(alloc: Global, entries: &[Entry]) -> Result<(), WorkspaceRefusal>
    ensures { Looks result kinds.TooMany (λ name. too_many entries.now ≡ Some name) (λ _. too_many
        entries.now ≡ None) }
{
    if entries.len() > TARGET_LIMIT {
        return Err(refusal(alloc, FaultKind::TooMany, b"targets"));
    }
    if has_many_modules(entries) {
        return Err(refusal(alloc, FaultKind::TooMany, b"modules"));
    }
    if has_many_dependencies(entries) {
        return Err(refusal(alloc, FaultKind::TooMany, b"dependencies"));
    }
    Ok(())
}

fn has_many_modules(entries: &[Entry]) -> bool
    ensures { result ≡ nat_lt pairs_limit (length (modules_of entries.now)) }
{
    let mut count = 0;
    for entry in entries {
        let more = entry.modules.as_slice().len();
        if more > PAIR_LIMIT - count {
            return true;
        }
        count += more;
    }
    false
}

fn has_many_dependencies(entries: &[Entry]) -> bool
    ensures { result ≡ nat_lt dependencies_limit (length (dependencies_of entries.now)) }
{
    let mut count = 0;
    for entry in entries {
        let more = entry.dependencies.as_slice().len();
        if more > DEPENDENCY_LIMIT - count {
            return true;
        }
        count += more;
    }
    false
}

/// The names of the targets, in order, where no two are equal.
pub(crate) fn index_names(
    alloc: Global,
    entries: &[Entry],
) -> Result<IndexSet<Name>, WorkspaceRefusal>
    ensures { Looks result kinds.NameTwice (IsFirstRepeat (names_of entries.now)) (λ names.
        IsNameIndex names.keys (names_of entries.now)) }
{
    let mut names = IndexSet::new(alloc);
    for entry in entries {
        if !insert(alloc, &mut names, &entry.name)? {
            return Err(refusal(alloc, FaultKind::NameTwice, entry.name.as_slice()));
        }
    }
    Ok(names)
}

/// Puts a name behind the others, and tells whether it is new.
pub(crate) fn insert(
    alloc: Global,
    names: &mut IndexSet<Name>,
    name: &Name,
) -> Result<bool, NoMemory>
    ensures new { IfOk result (λ new. new ≡ not (list_any (bytes_eq name.now) names.old.keys)) }
    ensures keys { IfOk result (λ new. names.new.keys ≡ (if new then names.old.keys ++ name.now ∷
        [] else names.old.keys)) }
{
    let (_, new) = names.insert_full(name.copy(alloc)?)?;
    Ok(new)
}

/// The targets, each dependency by its index among the names.
pub(crate) fn resolve(
    alloc: Global,
    names: &IndexSet<Name>,
    entries: Vec<Entry>,
) -> Result<Vec<Target>, WorkspaceRefusal>
    requires few { length names.now.keys ≤ targets_limit }
    ensures { Looks result kinds.UnknownDependency (IsFirstUnknown names.now.keys (dependencies_of
        entries.items))
        (λ targets. IsResolved names.now.keys entries.items targets.items) }
{
    let mut targets = Vec::new(alloc);
    for entry in entries {
        match target_of(alloc, names, entry) {
            Ok(target) => targets.push(target)?,
            Err(refusal) => return Err(refusal),
        }
    }
    Ok(targets)
}

fn target_of(
    alloc: Global,
    names: &IndexSet<Name>,
    entry: Entry,
) -> Result<Target, WorkspaceRefusal>
    requires few { length names.now.keys ≤ targets_limit }
    ensures { Looks result kinds.UnknownDependency (IsFirstUnknown names.now.keys
        entry.dependencies)
        (λ target. (target ≡ target_of names.now.keys entry) × All (Contains names.now.keys)
        entry.dependencies) }
{
    match indices_of(alloc, names, entry.dependencies.as_slice()) {
        Ok(dependencies) => Ok(Target {
            name: entry.name,
            kind: entry.kind,
            modules: entry.modules,
            dependencies,
            main: entry.main,
        }),
        Err(refusal) => Err(refusal),
    }
}

fn indices_of(
    alloc: Global,
    names: &IndexSet<Name>,
    wanted: &[Name],
) -> Result<Items<u32>, WorkspaceRefusal>
    requires few { length names.now.keys ≤ targets_limit }
    ensures { Looks result kinds.UnknownDependency (IsFirstUnknown names.now.keys wanted.now)
        (λ indices. (indices ≡ map (index_of names.now.keys) wanted.now) × All (Contains
        names.now.keys) wanted.now) }
{
    let mut indices = Vec::new(alloc);
    for name in wanted {
        match index_of(names, name) {
            Some(index) => indices.push(index)?,
            None => return Err(refusal(alloc, FaultKind::UnknownDependency, name.as_slice())),
        }
    }
    Ok(Items::from_vec(indices))
}

/// The index of a name, where it is there.
pub(crate) fn index_of(names: &IndexSet<Name>, name: &Name) -> Option<u32>
    requires few { length names.now.keys < 2 ^ 32 }
    ensures some { IfSome result (λ index. (index ≡ index_of names.now.keys name.now) × Contains
        names.now.keys name.now) }
    ensures none { IfNone result (¬ (Contains names.now.keys name.now)) }
{
    match names.get_index_of(name) {
        Some(index) => Some(index as u32),
        None => None,
    }
}
