ghost use Rattle.std.specs.Prelude.{◌≡◌, ◌≤◌, ◌&&◌, ◌==◌, nat_le, max, [], Some, map, IfOk, IsPermutation};
ghost use Rattle.std.specs.List.{All};
ghost use Rattle.std.specs.Option.{option_copied, option_or};
ghost use Rattle.std.specs.Str.{bytes_eq};
ghost use Rattle.ob_text.specs.Held.{IsReadable, held_at};
ghost use Rattle.bsp_edge.specs.Documents.{as_handed};
ghost use Rattle.bsp_edge.specs.Handing.{HandFaults, HandsOut, paths_of};
ghost use Rattle.bsp_edge.specs.Trees.{TreeAnswers, calls_asked, held_in_call, left_by};

use crate::calls::FailingCalls;
use crate::document::handed_copy;
use crate::handing::{Tree, TreeFault};
use ob_text::{Held, Items, NoMemory, Path, Snapshot};
use std::alloc::Global;
use std::marker::Model;

/// A tree in memory. What its paths hold changes before told calls, and told calls of it fail.
pub struct MemTree {
    alloc: Global,
    files: Snapshot,
    changes: Vec<(u64, Path, Held)>,
    handed: Vec<Snapshot>,
    calls: FailingCalls,
}

impl Drop for MemTree {
    fn drop(self) {
        let Self {
            alloc: _,
            files: _,
            changes: _,
            handed: _,
            calls: _,
        } = self;
    }
}

impl Model for MemTree {
    ghost use Rattle.std.specs.Prelude.{map};
    ghost use Rattle.bsp_edge.specs.Trees.{TreeState};

    ghost Value = { TreeState };

    ghost view = { λ tree. record {
      files = tree.files.entries;
      changes = tree.changes.items;
      handed = map (λ snapshot. snapshot.entries) tree.handed.items;
      calls = tree.calls;
    } };
}

impl MemTree {
    /// A tree of `files`. The changes of a number, each with a path and what is held there from then
    /// on, are made in order before the call of that number, counted from 1. The calls with the
    /// ordinals in `failing` fail. A call that finds no memory doesn't count.
    pub fn new(
        alloc: Global,
        files: Snapshot,
        changes: Vec<(u64, Path, Held)>,
        failing: Vec<u64>,
    ) -> MemTree
        ensures files { result.files ≡ files.entries }
        ensures changes { result.changes ≡ changes.items }
        ensures handed { result.handed ≡ [] }
        ensures failing { IsPermutation failing.items result.calls.failing }
        ensures made { result.calls.made ≡ 0 }
        ensures faults { result.calls.faults ≡ 0 }
    {
        MemTree {
            alloc,
            files,
            changes,
            handed: Vec::new(alloc),
            calls: FailingCalls::new(failing),
        }
    }

    /// What the tree handed out, oldest first.
    pub fn handed(&self) -> &[Snapshot]
        ensures { map (λ snapshot. snapshot.entries) result.now ≡ self.now.handed }
    {
        self.handed.as_slice()
    }

    /// What a call hands out of these paths.
    fn snapshot(&self, call: u64, paths: &[Path]) -> Result<Snapshot, NoMemory>
        ensures { IfOk result (λ snapshot. snapshot.entries
            ≡ map (λ path. (path, as_handed (held_in_call self.now.files self.now.changes call path))) paths.now) }
    {
        let mut entries = Vec::new(self.alloc);
        for path in paths {
            let held = self.handed_at(call, path)?;
            entries.push((path.copy(self.alloc)?, held))?;
        }
        Ok(Snapshot {
            entries: Items::from_vec(entries),
        })
    }

    /// What a call hands out of this path.
    fn handed_at(&self, call: u64, path: &Path) -> Result<Held, NoMemory>
        ensures { IfOk result (λ held. held ≡ as_handed (held_in_call self.now.files self.now.changes call path.now)) }
    {
        if let Some(held) = left_at(self.changes.as_slice(), call, path) {
            return handed_copy(self.alloc, held);
        }
        match self.files.get(path) {
            Some(held) => handed_copy(self.alloc, held),
            None => Ok(Held::Absent),
        }
    }
}

impl Tree for MemTree {
    ghost handed = { λ tree. Some tree.handed };

    ghost faults = { λ tree. tree.calls.faults };

    fn read_all(&mut self, paths: &[Path]) -> Result<Snapshot, TreeFault>
        ensures paths { IfOk result (λ snapshot. paths_of snapshot.entries ≡ paths.now) }
        ensures texts { IfOk result (λ snapshot. All (λ entry. IsReadable entry.1) snapshot.entries) }
        ensures handed { HandsOut (Some self.old.handed) (Some self.new.handed) result }
        ensures faults { HandFaults self.old.calls.faults self.new.calls.faults result }
        ensures answer { TreeAnswers self.old paths.now result }
        ensures calls { self.new.calls ≡ calls_asked result self.old.calls }
        ensures files { self.new.files ≡ self.old.files }
        ensures changes { self.new.changes ≡ self.old.changes }
    {
        if self.calls.fails_next() {
            self.calls.fail();
            return Err(TreeFault::Failed);
        }
        let snapshot = self.snapshot(self.calls.next_call(), paths)?;
        self.handed.push(copy_of(self.alloc, &snapshot)?)?;
        self.calls.pass();
        Ok(snapshot)
    }
}

/// An equal snapshot of its own.
fn copy_of(alloc: Global, snapshot: &Snapshot) -> Result<Snapshot, NoMemory>
    ensures { IfOk result (λ copy. copy.entries ≡ snapshot.now.entries) }
{
    let mut entries = Vec::new(alloc);
    for (path, held) in snapshot.entries.as_slice() {
        entries.push((path.copy(alloc)?, held.copy(alloc)?))?;
    }
    Ok(Snapshot {
        entries: Items::from_vec(entries),
    })
}

/// What the changes up to a call's left at this path. Of two changes the one with the greater number
/// was made later, and of two with one number the one that stands later.
fn left_at<'a>(changes: &'a [(u64, Path, Held)], call: u64, path: &Path) -> Option<&'a Held>
    ensures { option_copied result ≡ left_by changes.now call path.now }
{
    let mut left = None;
    let mut number = 0;
    for change in changes {
        if is_later(change, number, call, path) {
            left = Some(&change.2);
            number = change.0;
        }
    }
    left
}

/// Was this change to the path made before a call, and not before the changes of a number?
fn is_later(change: &(u64, Path, Held), number: u64, call: u64, path: &Path) -> bool
    ensures { result ≡ (nat_le (max number 1) change.now.0 && nat_le change.now.0 call
        && bytes_eq change.now.1 path.now) }
{
    number.max(1) <= change.0 && change.0 <= call && change.1 == *path
}
