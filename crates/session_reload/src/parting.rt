ghost use Rattle.std.specs.Prelude.{◌≡◌, ◌<◌, ◌≤◌, ◌^◌, ◌&&◌, ◌||◌, ℕ, List, [], Some, All, map, not, filter, length, IfOk, OnOk};
ghost use Rattle.std.specs.List.{list_any, slice_get};
ghost use Rattle.std.specs.Str.{bytes_eq};
ghost use Rattle.target_graph.specs.Limits.{pairs_limit};
ghost use Rattle.target_graph.specs.Workspace.{name_at, pairs_of};
ghost use Rattle.reload_rules.specs.Dropped.{dropped, kept};
ghost use Rattle.session_reload.specs.Keys.{AreKeys, has_key, is_known};

use indexmap::IndexSet;
use ob_text::{NoMemory, Path};
use std::alloc::Global;
use target_graph::{Pair, Target, Workspace};

/// The pairs of an old workspace, by their indices and in order: those that a new workspace has too, and those that it
/// lacks.
#[derive(Drop)]
pub struct Parted {
    pub kept: Vec<u32>,
    pub dropped: Vec<u32>,
}

/// A pair by what it is known by over workspaces: the name of its target, and its path.
#[derive(Clone, Copy, Debug, PartialEq, Eq, Hash)]
pub(crate) struct Key<'a> {
    target: &'a [u8],
    path: &'a [u8],
}

/// Parts the pairs of the old workspace. Takes a hash for each pair of both.
pub fn part_pairs(alloc: Global, old: &Workspace, new: &Workspace) -> Result<Parted, NoMemory>
    ensures kept { IfOk result (λ parted. map (slice_get (pairs_of old.now.targets)) parted.kept.items ≡ map Some (kept old.now.targets new.now.targets)) }
    ensures dropped { IfOk result (λ parted. map (slice_get (pairs_of old.now.targets)) parted.dropped.items ≡ map Some (dropped old.now.targets new.now.targets)) }
    ensures kept_within { IfOk result (λ parted. All (λ pair. pair < length (pairs_of old.now.targets)) parted.kept.items) }
    ensures dropped_within { IfOk result (λ parted. All (λ pair. pair < length (pairs_of old.now.targets)) parted.dropped.items) }
{
    let keys = keys_of(alloc, new.targets())?;
    part(alloc, old.targets(), old.pairs(), &keys)
}

fn part(
    alloc: Global,
    targets: &[Target],
    pairs: &[Pair],
    keys: &IndexSet<Key<'_>>,
) -> Result<Parted, NoMemory>
    requires few { length pairs.now ≤ pairs_limit }
    requires within { All (λ pair. pair.target < length targets.now) pairs.now }
    ensures kept { IfOk result (λ parted. map (slice_get pairs.now) parted.kept.items ≡ map Some (filter (is_known keys.now.keys targets.now) pairs.now)) }
    ensures dropped { IfOk result (λ parted. map (slice_get pairs.now) parted.dropped.items ≡ map Some (filter (λ pair. not (is_known keys.now.keys targets.now pair)) pairs.now)) }
    ensures kept_within { IfOk result (λ parted. All (λ pair. pair < length pairs.now) parted.kept.items) }
    ensures dropped_within { IfOk result (λ parted. All (λ pair. pair < length pairs.now) parted.dropped.items) }
{
    let mut kept = Vec::new(alloc);
    let mut dropped = Vec::new(alloc);
    for index in 0..pairs.len() {
        if is_known(keys, targets, &pairs[index]) {
            kept.push(index as u32)?;
        } else {
            dropped.push(index as u32)?;
        }
    }
    Ok(Parted { kept, dropped })
}

/// Is the pair among the keys?
fn is_known(keys: &IndexSet<Key<'_>>, targets: &[Target], pair: &Pair) -> bool
    requires { pair.now.target < length targets.now }
    ensures { result ≡ is_known keys.now.keys targets.now pair.now }
{
    let key = Key {
        target: targets[pair.target as usize].name.as_slice(),
        path: pair.path.as_slice(),
    };
    keys.contains(&key)
}

/// The keys of all pairs of these targets.
fn keys_of<'a>(alloc: Global, targets: &'a [Target]) -> Result<IndexSet<Key<'a>>, NoMemory>
    ensures { IfOk result (λ keys. AreKeys keys.keys targets.now) }
{
    let mut keys = IndexSet::new(alloc);
    for target in targets {
        add_keys(&mut keys, target.name.as_slice(), target.modules.as_slice())?;
    }
    Ok(keys)
}

fn add_keys<'a>(
    keys: &mut IndexSet<Key<'a>>,
    target: &'a [u8],
    modules: &'a [Path],
) -> Result<(), NoMemory>
    ensures { OnOk result ((name path : List ℕ) → has_key keys.new.keys name path
        ≡ (has_key keys.old.keys name path || (bytes_eq name target.now && list_any (bytes_eq path) modules.now))) }
{
    for module in modules {
        let path = module.as_slice();
        keys.insert(Key { target, path })?;
    }
    Ok(())
}
