ghost use Rattle.std.specs.Prelude.{◌≡◌, ℕ, ◌<◌, ◌≤◌, ◌↔◌, ◌^◌, List, [], length, IsTrue, IfOk, IfSome, IfNone, All, Contains};
ghost use Rattle.std.specs.List.{slice_index, count_by};
ghost use Rattle.std.specs.BinaryHeap.{heap_items, heap_capacity, IsHeap};
ghost use Rattle.std.specs.Ordering.{nat_cmp};
ghost use Rattle.build_plan.specs.Rows.{AreWithin};
ghost use Rattle.build_plan.specs.Lists.{lists_of, has_mark, count_of};
ghost use Rattle.build_plan.specs.Front.{first_stand, stand_given, stand_finished, IsLeastFree, IsFree, WaitsForNone, is_awaited, waits, times_free, queued, IsQueue};

use crate::countdown::count_down;
use crate::links::Links;
use ob_text::NoMemory;
use std::alloc::Global;
use std::cmp::Reverse;
use std::collections::BinaryHeap;
use std::marker::Model;

/// Places, of which some have to wait until others are finished: each for those that it imports, but for the spared
/// ones.
#[derive(Drop)]
pub(crate) struct Front {
    links: Links,
    spared: Vec<bool>,
    waiting: Vec<usize>,
    ready: BinaryHeap<Reverse<u32>>,
    given: Vec<u32>,
    finished: Vec<u32>,
}

impl Model for Front {
    ghost use Rattle.build_plan.specs.Front.{Stand};

    ghost Value = { Stand };

    ghost use Rattle.build_plan.specs.Kept.{stand, IsFront};

    ghost view = { stand };

    ghost invariant = { IsFront };
}

impl Front {
    pub(crate) fn new(alloc: Global, links: Links, spared: Vec<bool>) -> Result<Front, NoMemory>
        requires { length spared.items ≡ length links }
        ensures { IfOk result (λ front. front ≡ first_stand links spared.items) }
    {
        let places = links.len();
        let waiting = all_waits(alloc, links.imports(), spared.as_slice())?;
        let mut ready = BinaryHeap::with_capacity(alloc, places)?;
        put_free(waiting.as_slice(), &mut ready);
        Ok(Front {
            links,
            spared,
            waiting,
            ready,
            given: Vec::with_capacity(alloc, places)?,
            finished: Vec::with_capacity(alloc, places)?,
        })
    }

    /// Gives the least place that waits for none, once. Takes no memory.
    pub(crate) fn next(&mut self) -> Option<u32>
        ensures least { IfSome result (IsLeastFree self.old) }
        ensures given { IfSome result (λ place. self.new ≡ stand_given self.old place) }
        ensures room { IfSome result (λ _. length self.old.given < length self.old.rows) }
        ensures none { IfNone result ((place : ℕ) → ¬ (IsFree self.old place)) }
        ensures unchanged { IfNone result (self.new ≡ self.old) }
    {
        let Reverse(place) = self.ready.pop()?;
        self.given.push(place).unwrap();
        Some(place)
    }

    /// Nothing waits any more for a place that was given. Takes no memory.
    pub(crate) fn finish(&mut self, place: u32)
        requires given { Contains self.old.given place }
        requires unfinished { ¬ (Contains self.old.finished place) }
        ensures { self.new ≡ stand_finished self.old place }
    {
        let index = place as usize;
        self.finished.push(place).unwrap();
        if !self.spared[index] {
            let importers = self.links.importers()[index].as_slice();
            count_down(&mut self.waiting, &mut self.ready, importers);
        }
    }

    pub(crate) fn finished(&self) -> &[u32]
        ensures finished { result.now ≡ self.now.finished }
        ensures within { All (λ place. place < length self.now.rows) result.now }
    {
        self.finished.as_slice()
    }

    pub(crate) fn is_spared(&self, place: u32) -> bool
        requires { place < length self.now.rows }
        ensures { result ≡ has_mark self.now.spared place }
    {
        self.spared[place as usize]
    }

    pub(crate) fn is_done(&self) -> bool
        ensures { IsTrue result ↔ ((place : ℕ) → place < length self.now.rows → Contains
            self.now.finished place) }
    {
        self.finished.len() == self.links.len()
    }

    /// Each place that was given waits for none.
    pub(crate) fn given_wait_for_none(&self)
        ensures { All (λ place. (place < length self.now.rows) × WaitsForNone self.now place) self.now.given }
    {
        let _links = &self.links;
    }

    pub(crate) fn links(&self) -> &Links
        ensures { result.now ≡ self.now.rows }
    {
        &self.links
    }

    pub(crate) fn into_links(self) -> Links
        ensures { result ≡ self.rows }
    {
        let Front { links, .. } = self;
        links
    }
}

// For how many each place waits at first.
fn all_waits(alloc: Global, rows: &[Vec<u32>], spared: &[bool]) -> Result<Vec<usize>, NoMemory>
    requires within { AreWithin (lists_of rows.now) }
    requires size { length spared.now ≡ length rows.now }
    ensures size { IfOk result (λ waiting. length waiting.items ≡ length rows.now) }
    ensures waits { IfOk result (λ waiting. (p : ℕ) → p < length rows.now → slice_index waiting.items p ≡ waits (lists_of rows.now) spared.now [] p) }
{
    let mut waiting = Vec::with_capacity(alloc, rows.len())?;
    for row in rows {
        waiting.push(count_awaited(row.as_slice(), spared))?;
    }
    Ok(waiting)
}

fn count_awaited(row: &[u32], spared: &[bool]) -> usize
    requires { All (λ place. place < length spared.now) row.now }
    ensures { result ≡ count_by (is_awaited spared.now []) row.now }
{
    let mut count = 0;
    for place in row {
        if !spared[*place as usize] {
            count += 1;
        }
    }
    count
}

// Puts the places that wait for none into an empty heap.
fn put_free(waiting: &[usize], ready: &mut BinaryHeap<Reverse<u32>>)
    requires few { length waiting.now < 2 ^ 32 }
    requires empty { heap_items ready.old ≡ [] }
    requires ordered { IsHeap (λ x y. nat_cmp y.0 x.0) (heap_items ready.old) }
    requires room { length waiting.now ≤ heap_capacity ready.old }
    ensures queue { IsQueue waiting.now ready.new }
    ensures whole { (p : ℕ) → count_of p (queued ready.new) ≡ times_free waiting.now p }
{
    for place in 0..waiting.len() {
        if waiting[place] == 0 {
            ready.push(Reverse(place as u32)).unwrap();
        }
    }
}
