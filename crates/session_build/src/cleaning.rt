ghost use Rattle.std.specs.Prelude.{◌≡◌, ◌≤◌, Some, filter, length, map, IfOk, OnOk};
ghost use Rattle.std.specs.List.{slice_get};
ghost use Rattle.check_cache.specs.Pairs.{is_among};
ghost use Rattle.reload_rules.specs.Dropped as rules;
ghost use Rattle.session_build.specs.Cleaning.{AddsKey, AreKeysAt, AreOthers, HasCleaned, HasReloaded, KeepsOnly, KeepsOthers, KeepsStaying, is_key_at};
ghost use Rattle.target_graph.specs.Limits.{pairs_limit};
ghost use Rattle.target_graph.specs.Workspace.{pairs_of};

use crate::kept::Kept;
use crate::late::Late;
use build_sources::set_of;
use check_cache::PairKey;
use indexmap::IndexSet;
use ob_text::NoMemory;
use std::alloc::Global;
use std::collections::VecDeque;
use target_graph::{Pair, Workspace};

impl Kept {
    /// Forgets the checks of all modules of these targets, those too that may still come. Takes a hash for each pair of the
    /// workspace and for each check that is kept.
    pub fn clean(&mut self, workspace: &Workspace, targets: &[u32]) -> Result<(), NoMemory>
        ensures cleaned { OnOk result (HasCleaned workspace.now targets.now self.old self.new) }
        ensures only { OnOk result (KeepsOthers workspace.now targets.now self.old self.new) }
    {
        let kept = others_of(self.alloc, workspace.pairs(), targets)?;
        self.keep(workspace, kept.as_slice())?;
        Ok(())
    }

    /// Forgets the checks of all modules that a new workspace lacks, those too that may still come. These are the indices of
    /// the pairs of the old one that stay. Takes a hash for each of them and for each check that is kept.
    pub fn reload(&mut self, old: &Workspace, new: &Workspace, kept: &[u32]) -> Result<(), NoMemory>
        requires root { old.now.root ≡ new.now.root }
        requires kept { map (slice_get (pairs_of old.now.targets)) kept.now ≡ map Some (rules.kept old.now.targets new.now.targets) }
        ensures reloaded { OnOk result (HasReloaded old.now new.now self.old self.new) }
        ensures only { OnOk result (KeepsStaying old.now new.now self.old self.new) }
    {
        // (the contract names the new workspace, and a workspace tells what it is as it is read)
        let _targets = new.targets();
        self.keep(old, kept)?;
        Ok(())
    }

    /// Keeps the checks of these pairs alone.
    fn keep(&mut self, workspace: &Workspace, pairs: &[u32]) -> Result<(), NoMemory>
        ensures { OnOk result (KeepsOnly (is_key_at workspace.now.targets pairs.now) self.old self.new) }
    {
        let keys = keys_at(self.alloc, workspace, pairs)?;
        self.cache.keep_pairs(&keys);
        keep_late(&mut self.late, &keys);
        Ok(())
    }
}

/// Takes out the checks of all pairs but these.
fn keep_late(late: &mut VecDeque<Late>, pairs: &IndexSet<PairKey>)
    ensures { late.new.items ≡ filter (λ one. is_among pairs.now.keys one.key) late.old.items }
{
    late.retain(
        |one: &Late| -> bool
            ensures { result ≡ is_among pairs.entry.now.keys one.now.key }
        { is_among(pairs, &one.key) },
    );
}

fn is_among(pairs: &IndexSet<PairKey>, key: &PairKey) -> bool
    ensures { result ≡ is_among pairs.now.keys key.now }
{
    pairs.contains(key)
}

/// The keys of the pairs at these indices.
fn keys_at(
    alloc: Global,
    workspace: &Workspace,
    pairs: &[u32],
) -> Result<IndexSet<PairKey>, NoMemory>
    ensures { IfOk result (λ keys. AreKeysAt workspace.now.targets pairs.now keys.keys) }
{
    let mut keys = IndexSet::new(alloc);
    for index in pairs {
        add_key(alloc, workspace, *index, &mut keys)?;
    }
    Ok(keys)
}

/// Puts the key of the pair at this index behind the others, if there is such a pair.
fn add_key(
    alloc: Global,
    workspace: &Workspace,
    index: u32,
    keys: &mut IndexSet<PairKey>,
) -> Result<(), NoMemory>
    ensures { OnOk result (AddsKey workspace.now.targets (slice_get (pairs_of workspace.now.targets) index) keys.old.keys keys.new.keys) }
{
    let Some(pair) = workspace.pairs().get(index as usize) else {
        return Ok(());
    };
    let key = PairKey::of(alloc, workspace.targets(), pair)?;
    keys.insert(key)?;
    Ok(())
}

/// The indices of the pairs of all other targets, in order.
fn others_of(alloc: Global, pairs: &[Pair], targets: &[u32]) -> Result<Vec<u32>, NoMemory>
    requires { length pairs.now ≤ pairs_limit }
    ensures { IfOk result (λ others. AreOthers pairs.now targets.now others.items) }
{
    let targets = set_of(alloc, targets)?;
    let mut others = Vec::new(alloc);
    for index in 0..pairs.len() {
        let target = pairs[index].target;
        if !targets.contains(&target) {
            others.push(index as u32)?;
        }
    }
    Ok(others)
}
