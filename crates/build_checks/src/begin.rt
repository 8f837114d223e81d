ghost use Rattle.std.specs.Prelude.{◌≡◌, ◌↔◌, [], ℕ, List, Some, IfOk, Contains, slice_get};
ghost use Rattle.std.specs.List.{All};
ghost use Rattle.build_plan.specs.Places.{fresh};
ghost use Rattle.iface_key.specs.Keys.{key_of_view};
ghost use Rattle.ob_text.specs.Held.{IsReadable};
ghost use Rattle.oberon_types.specs.Memory.{plain_view};
ghost use Rattle.build_sources.specs.Modules.{AreModules};
ghost use Rattle.build_sources.specs.Rows.{AreRows};
ghost use Rattle.build_sources.specs.Sources.{AreSources, world};
ghost use Rattle.build_checks.specs.First.{AreFirst};
ghost use Rattle.build_checks.specs.Kept.{Extends};
ghost use Rattle.build_checks.specs.Numbers.{AreNumbersOf};
ghost use Rattle.build_checks.specs.Stand.{AreChecks, modules_of, settled_of, taken_of, world_of};

use crate::checks::Checks;
use crate::known::known_imports;
use build_plan::Plan;
use build_sources::{Sources, first_views, out_view, set_of};
use check_cache::Cache;
use iface_key::{Keys, key_of};
use ob_text::{NoMemory, Snapshot};
use oberon_types::View;
use std::alloc::Global;
use std::sync::Arc;
use target_graph::Workspace;

/// The numbers of the keys of what Out, a name that means no module, and a module on a cycle show.
#[derive(Clone, Copy)]
pub(crate) struct First {
    pub out: u64,
    pub missing: u64,
    pub cyclic: u64,
}

impl Checks {
    /// The checks of the build of some modules, which are indices of pairs, by what was handed out: none is taken yet. A
    /// document of which a check of the same text is kept isn't read.
    pub fn begin(
        alloc: Global,
        workspace: Arc<Workspace>,
        modules: &[u32],
        snapshot: Snapshot,
        cache: &Cache,
        keys: &mut Keys,
    ) -> Result<Checks, NoMemory>
        requires modules { AreModules workspace.value.targets modules.now }
        requires texts { All (λ entry. IsReadable entry.1) snapshot.entries }
        ensures checks { IfOk result AreChecks }
        ensures world { IfOk result (λ checks. world_of checks ≡ record { targets = workspace.value.targets; entries = snapshot.entries }) }
        ensures modules { IfOk result (λ checks. (p : ℕ) → Contains (modules_of checks) p ↔ Contains modules.now p) }
        ensures taken { IfOk result (λ checks. taken_of checks ≡ []) }
        ensures settled { IfOk result (λ checks. settled_of checks ≡ []) }
        ensures numbers { IfOk result (AreNumbersOf keys.new) }
        ensures earlier { Extends keys.old keys.new }
    {
        let first = first_numbers(alloc, keys)?;
        let known = known_imports(alloc, &workspace, snapshot.entries.as_slice(), cache)?;
        let sources = Sources::new(alloc, workspace, snapshot, known.as_slice())?;
        begun(alloc, sources, modules, first)
    }
}

/// The checks by these sources, of which none is taken yet.
fn begun(alloc: Global, sources: Sources, modules: &[u32], first: First) -> Result<Checks, NoMemory>
    requires sources { AreSources sources }
    requires modules { AreModules (world sources).targets modules.now }
    ensures checks { IfOk result AreChecks }
    ensures world { IfOk result (λ checks. world_of checks ≡ world sources) }
    ensures modules { IfOk result (λ checks. (p : ℕ) → Contains (modules_of checks) p ↔ Contains modules.now p) }
    ensures taken { IfOk result (λ checks. taken_of checks ≡ []) }
    ensures settled { IfOk result (λ checks. settled_of checks ≡ []) }
    ensures numbers { IfOk result (λ checks. (keys : List (List ℕ)) → AreFirst keys first → AreNumbersOf keys checks) }
{
    let size = sources.count();
    let plan = first_plan(alloc, &sources)?;
    let wanted = set_of(alloc, modules)?;
    let views = first_views(alloc, &plan, size)?;
    let numbers = vec![in alloc; first.cyclic; size]?;
    Ok(Checks {
        alloc,
        sources,
        wanted,
        plan,
        views,
        numbers,
        out: first.out,
        missing: first.missing,
    })
}

/// The plan of all modules of the workspace.
fn first_plan(alloc: Global, sources: &Sources) -> Result<Plan, NoMemory>
    requires { AreSources sources.now }
    ensures { IfOk result (λ plan. (rows : List (List ℕ)) × AreRows (world sources.now) rows × (plan ≡ fresh rows)) }
{
    let _size = sources.count();
    Plan::new(alloc, sources.rows(alloc)?)
}

fn first_numbers(alloc: Global, keys: &mut Keys) -> Result<First, NoMemory>
    ensures first { IfOk result (AreFirst keys.new) }
    ensures earlier { Extends keys.old keys.new }
{
    let known = out_view(alloc)?;
    let out = number_of(alloc, keys, &known)?;
    let missing = number_of(alloc, keys, &View::Missing)?;
    let cyclic = number_of(alloc, keys, &View::Cyclic)?;
    Ok(First {
        out,
        missing,
        cyclic,
    })
}

/// The number of the key of a view.
fn number_of(alloc: Global, keys: &mut Keys, view: &View) -> Result<u64, NoMemory>
    ensures number { IfOk result (λ number. slice_get keys.new number ≡ Some (key_of_view (plain_view view.now))) }
    ensures earlier { Extends keys.old keys.new }
{
    keys.intern(key_of(alloc, view)?)
}
