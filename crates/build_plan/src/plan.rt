ghost use Rattle.std.specs.Prelude.{◌≡◌, ℕ, ◌<◌, ◌^◌, ◌↔◌, length, IsTrue, IfOk, IfSome, IfNone, All, Contains};
ghost use Rattle.build_plan.specs.Rows.{OnCycle, AreWithin};
ghost use Rattle.build_plan.specs.Lists.{lists};
ghost use Rattle.build_plan.specs.Places.{fresh, with_given, with_finished, IsReady, IsLeastReady, IsClear, IsDone};

use crate::cycles::cyclic;
use crate::front::Front;
use crate::links::Links;
use crate::peel::{peel, unfinished};
use ob_text::NoMemory;
use std::alloc::Global;
use std::marker::Model;

/// The order in which the places of a build are checked.
pub struct Plan {
    front: Front,
}

impl Drop for Plan {
    fn drop(self) {
        let Self { front: _ } = self;
    }
}

impl Model for Plan {
    ghost use Rattle.build_plan.specs.Places.{Places};

    ghost Value = { Places };

    ghost use Rattle.build_plan.specs.Plan.{places, IsPlan};

    ghost view = { places };

    ghost invariant = { IsPlan };
}

impl Plan {
    /// A plan of places by their imports. Takes time that is linear in places and imports, but for the least of the
    /// ready ones, where no place is on a cycle. Else it takes one search more for each group of places that lead to
    /// each other, and for each place that leads to a cycle and is on none.
    pub fn new(alloc: Global, imports: Vec<Vec<u32>>) -> Result<Plan, NoMemory>
        requires within { AreWithin (lists imports) }
        requires few { length imports.items < 2 ^ 32 }
        ensures { IfOk result (λ plan. plan ≡ fresh (lists imports)) }
    {
        let peeled = peel(alloc, Links::new(alloc, imports)?)?;
        let marks = cyclic(alloc, peeled.links(), unfinished(alloc, &peeled)?)?;
        let front = Front::new(alloc, peeled.into_links(), marks)?;
        Ok(Plan { front })
    }

    /// Gives each place once, the least that is ready. Takes no memory.
    pub fn ready(&mut self) -> Option<u32>
        ensures least { IfSome result (IsLeastReady self.old) }
        ensures given { IfSome result (λ place. self.new ≡ with_given self.old place) }
        ensures none { IfNone result ((place : ℕ) → ¬ (IsReady self.old place)) }
        ensures unchanged { IfNone result (self.new ≡ self.old) }
    {
        self.front.next()
    }

    /// A place that was given is finished. Takes no memory.
    pub fn finish(&mut self, place: u32)
        requires given { Contains self.old.given place }
        requires unfinished { ¬ (Contains self.old.finished place) }
        ensures { self.new ≡ with_finished self.old place }
    {
        self.front.finish(place);
    }

    /// Does a path of imports lead from the place to itself? Takes no memory.
    pub fn on_cycle(&self, place: u32) -> bool
        requires { place < length self.now.rows }
        ensures { IsTrue result ↔ OnCycle self.now.rows place }
    {
        self.front.is_spared(place)
    }

    /// Is every place finished? Takes no memory.
    pub fn is_done(&self) -> bool
        ensures { IsTrue result ↔ IsDone self.now }
    {
        self.front.is_done()
    }

    /// A law: a place that was given has only imports that are finished or on a cycle.
    pub fn given_are_clear(&self)
        ensures { All (IsClear self.now) self.now.given }
    {
        self.front.given_wait_for_none();
    }
}
