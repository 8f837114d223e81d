ghost use Rattle.std.specs.Prelude.{◌≡◌, ◌<◌, ◌≤◌, ◌++◌, ◌∷◌, [], ℕ, List, length, IfSome, IfNone, OnOk, OnErr, Contains};
ghost use Rattle.std.specs.List.{slice_set};
ghost use Rattle.oberon_types.specs.Memory.{plain_view};
ghost use Rattle.build_rules.specs.Views.{HasView};
ghost use Rattle.build_rules.specs.World.{IsCyclic};
ghost use Rattle.build_checks.specs.Kept.{Extends};
ghost use Rattle.build_checks.specs.Numbers.{AreNumbersOf};
ghost use Rattle.build_checks.specs.Stand.{AreChecks, CanBeTaken, IsNext, left_of, modules_of, settled_of, taken_of, world_of};

use build_plan::Plan;
use build_sources::Sources;
use iface_key::{Keys, key_of};
use indexmap::IndexSet;
use ob_text::NoMemory;
use oberon_types::View;
use std::alloc::Global;

/// The checks of one build, as far as they are.
pub struct Checks {
    pub(crate) alloc: Global,
    pub(crate) sources: Sources,
    /// The modules of the build.
    pub(crate) wanted: IndexSet<u32>,
    pub(crate) plan: Plan,
    /// For each module of the workspace, what it shows as far as that is known.
    pub(crate) views: Vec<View>,
    /// The number of the key of that.
    pub(crate) numbers: Vec<u64>,
    /// The number of the key of what Out shows.
    pub(crate) out: u64,
    /// The number of the key of what a name shows that means no module.
    pub(crate) missing: u64,
}

impl Drop for Checks {
    fn drop(self) {
        let Self {
            alloc: _,
            sources: _,
            wanted: _,
            plan: _,
            views: _,
            numbers: _,
            out: _,
            missing: _,
        } = self;
    }
}

impl Checks {
    /// Takes the least module of the build whose imports are settled or on a cycle. Takes no memory.
    pub fn next(&mut self) -> Option<u32>
        requires { AreChecks self.old }
        ensures checks { AreChecks self.new }
        ensures world { world_of self.new ≡ world_of self.old }
        ensures modules { modules_of self.new ≡ modules_of self.old }
        ensures settled { settled_of self.new ≡ settled_of self.old }
        ensures numbers { (keys : List (List ℕ)) → AreNumbersOf keys self.old → AreNumbersOf keys self.new }
        ensures stays { (keys : List (List ℕ)) → AreNumbersOf keys self.new → AreNumbersOf keys self.old }
        ensures next { IfSome result (IsNext self.old) }
        ensures taken { IfSome result (λ p. taken_of self.new ≡ taken_of self.old ++ p ∷ []) }
        ensures left { left_of self.new ≤ left_of self.old }
        ensures less { IfSome result (λ _. left_of self.new < left_of self.old) }
        ensures none { IfNone result ((p : ℕ) → ¬ (CanBeTaken self.old p)) }
        ensures unchanged { IfNone result (taken_of self.new ≡ taken_of self.old) }
        // The checks get through: where no module can be taken, and all that were taken are settled, all are.
        ensures through { IfNone result (((p : ℕ) → Contains (taken_of self.old) p → Contains (settled_of self.old) p)
            → (p : ℕ) → Contains (modules_of self.old) p → Contains (settled_of self.old) p) }
    {
        'places: while let Some(module) = self.plan.ready() {
            if self.wanted.contains(&module) {
                return Some(module);
            }
            self.plan.finish(module);
        }
        None
    }

    /// Keeps the view of a module that was taken, so that no module waits for it any more. The view of a module on a cycle
    /// stays as it is.
    pub fn settle(&mut self, index: u32, view: &View, keys: &mut Keys) -> Result<(), NoMemory>
        requires checks { AreChecks self.old }
        requires taken { Contains (taken_of self.old) index }
        requires unsettled { ¬ (Contains (settled_of self.old) index) }
        ensures checks { AreChecks self.new }
        ensures world { world_of self.new ≡ world_of self.old }
        ensures modules { modules_of self.new ≡ modules_of self.old }
        ensures taken { taken_of self.new ≡ taken_of self.old }
        ensures left { left_of self.new ≡ left_of self.old }
        ensures settled { OnOk result (settled_of self.new ≡ settled_of self.old ++ index ∷ []) }
        ensures numbers { OnOk result ((¬ (IsCyclic (world_of self.old) index) → HasView (world_of self.old) index (plain_view view.now))
            → AreNumbersOf keys.old self.old → AreNumbersOf keys.new self.new) }
        // What was settled before keeps its view and its number.
        ensures stays { OnOk result ((keys : List (List ℕ)) → AreNumbersOf keys self.new → AreNumbersOf keys self.old) }
        ensures earlier { Extends keys.old keys.new }
        ensures unchanged { OnErr result (self.new ≡ self.old) }
    {
        if self.plan.on_cycle(index) {
            self.plan.finish(index);
            return Ok(());
        }
        let own = view.copy()?;
        let number = keys.intern(key_of(self.alloc, view)?)?;
        put(index, own, number, &mut self.views, &mut self.numbers);
        self.plan.finish(index);
        Ok(())
    }
}

/// Puts a view and the number of its key at an index.
fn put(index: u32, view: View, number: u64, views: &mut Vec<View>, numbers: &mut Vec<u64>)
    requires viewed { index < length views.old.items }
    requires numbered { index < length numbers.old.items }
    ensures views { views.new.items ≡ slice_set views.old.items index view }
    ensures numbers { numbers.new.items ≡ slice_set numbers.old.items index number }
{
    views[index as usize] = view;
    numbers[index as usize] = number;
}
