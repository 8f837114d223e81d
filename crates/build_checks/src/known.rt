ghost use Rattle.std.specs.Prelude.{◌≡◌, ◌<◌, None, length, IfOk, replicate};
ghost use Rattle.std.specs.List.{slice_set};
ghost use Rattle.build_sources.specs.Documents.{AreKnown, IsKnown};

use check_cache::{Cache, PairKey};
use indexmap::IndexMap;
use ob_text::{Held, Name, NoMemory, Path};
use std::alloc::Global;
use target_graph::{Pair, Target, Workspace};

/// For each entry of a snapshot in order the names that its document imports, where a check of the same text is kept.
pub(crate) fn known_imports<'a>(
    alloc: Global,
    workspace: &Workspace,
    entries: &[(Path, Held)],
    cache: &'a Cache,
) -> Result<Vec<Option<&'a [Name]>>, NoMemory>
    ensures { IfOk result (λ known. AreKnown entries.now known.items) }
{
    let indices = indices_of(alloc, entries)?;
    let mut known = nothing(alloc, entries.len())?;
    let targets = workspace.targets();
    for pair in workspace.pairs() {
        match indices.get(&pair.path) {
            Some(index) => learn(alloc, cache, targets, pair, entries, *index, &mut known)?,
            None => {}
        }
    }
    Ok(known)
}

/// Nothing is known of so many documents.
fn nothing<'a>(alloc: Global, count: usize) -> Result<Vec<Option<&'a [Name]>>, NoMemory>
    ensures { IfOk result (λ known. known.items ≡ replicate count None) }
{
    let mut known = Vec::new(alloc);
    'documents: while known.len() < count {
        known.push(None)?;
    }
    Ok(known)
}

/// The index of each path's entry, of the last one where it stands twice. It only decides where a kept check is looked for.
fn indices_of(alloc: Global, entries: &[(Path, Held)]) -> Result<IndexMap<Path, usize>, NoMemory> {
    let mut indices = IndexMap::new(alloc);
    for index in 0..entries.len() {
        indices.insert(entries[index].0.copy(alloc)?, index)?;
    }
    Ok(indices)
}

/// Learns what a pair's kept checks say of the document at an index.
fn learn<'a>(
    alloc: Global,
    cache: &'a Cache,
    targets: &[Target],
    pair: &Pair,
    entries: &[(Path, Held)],
    index: usize,
    known: &mut Vec<Option<&'a [Name]>>,
) -> Result<(), NoMemory>
    requires target { pair.now.target < length targets.now }
    requires sized { length known.old.items ≡ length entries.now }
    requires known { AreKnown entries.now known.old.items }
    ensures sized { length known.new.items ≡ length entries.now }
    ensures known { AreKnown entries.now known.new.items }
{
    if index < entries.len() {
        let key = PairKey::of(alloc, targets, pair)?;
        let names = learned(cache, &key, &entries[index].1, known[index]);
        put(index, names, known);
    }
    Ok(())
}

/// What is known of what is held, or else what a pair's kept checks say of it.
fn learned<'a>(
    cache: &'a Cache,
    key: &PairKey,
    held: &Held,
    known: Option<&'a [Name]>,
) -> Option<&'a [Name]>
    requires { IsKnown held.now known }
    ensures { IsKnown held.now result }
{
    match known {
        Some(names) => Some(names),
        None => cache.imports(key, held),
    }
}

/// Puts what is known of the document at an index.
fn put<'a>(index: usize, names: Option<&'a [Name]>, known: &mut Vec<Option<&'a [Name]>>)
    requires { index < length known.old.items }
    ensures { known.new.items ≡ slice_set known.old.items index names.entry }
{
    known[index] = names;
}
