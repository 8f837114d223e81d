ghost use Rattle.std.specs.Prelude.{◌≡◌, ℕ, List, map, IfOk};
ghost use Rattle.check_cache.specs.Facts.{names_of};
ghost use Rattle.iface_key.specs.Keys.{key_of_view};
ghost use Rattle.oberon_module.specs.Views.{plain_views};
ghost use Rattle.oberon_rules.specs.Local.{view_in};
ghost use Rattle.oberon_types.specs.Memory.{plain_view};
ghost use Rattle.worker_pool.specs.Jobs.{plain_check};
ghost use Rattle.worker_pool.specs.Outcomes.{IsCheckOf};
ghost use Rattle.build_rules.specs.Locality.{IsApart};
ghost use Rattle.build_rules.specs.World.{World};
ghost use Rattle.build_sources.specs.Documents.{AreImportsOf};
ghost use Rattle.build_checks.specs.Kept.{AreNumbered, IsKept};
ghost use Rattle.build_checks.specs.Work.{IsWorkOf};

use check_cache::Fact;
use iface_key::{Key, key_of};
use indexmap::IndexMap;
use ob_text::{Name, NoMemory};
use oberon_module::Checked;
use oberon_types::View;
use std::alloc::Global;
use worker_pool::Check;

/// A check that was made as a fact, with the names of its imports and the numbers of what they show. It goes by the check
/// alone, so it serves one too that comes behind the end of its build. It copies no text.
pub fn fact_of(
    alloc: Global,
    check: Check,
    checked: Checked,
    imports: Vec<(Name, u64)>,
) -> Result<Fact, NoMemory>
    requires checked { IsCheckOf (plain_check check) checked }
    requires named { AreImportsOf check.held (names_of imports.items) }
    ensures kept { IfOk result (λ fact. (keys : List (List ℕ)) (w : World) (p : ℕ) → IsApart w
        → IsWorkOf w p (plain_check check) → AreNumbered keys w p imports.items → IsKept keys w p fact) }
    ensures imports { IfOk result (λ fact. fact.imports ≡ imports.items) }
    ensures checked { IfOk result (λ fact. fact.checked ≡ checked) }
{
    let parts = check.into_parts();
    let (held, stem, views) = parts;
    let keys = keys_of(alloc, imports.as_slice(), &views)?;
    Ok(Fact::new(held, stem, imports, keys, checked))
}

/// The keys of what these names show.
fn keys_of(
    alloc: Global,
    imports: &[(Name, u64)],
    views: &IndexMap<Name, View>,
) -> Result<Vec<Key>, NoMemory>
    ensures { IfOk result (λ keys. keys.items ≡ map (λ i. key_of_view (view_in (plain_views views.now.entries) i.0)) imports.now) }
{
    let mut keys = Vec::new(alloc);
    for import in imports {
        keys.push(key_of_import(alloc, &import.0, views)?)?;
    }
    Ok(keys)
}

/// The key of what a name shows by these views. One without a view is no module.
pub fn key_of_import(
    alloc: Global,
    name: &Name,
    views: &IndexMap<Name, View>,
) -> Result<Key, NoMemory>
    ensures { IfOk result (λ key. key ≡ key_of_view (view_in (plain_views views.now.entries) name.now)) }
{
    match views.get(name) {
        Some(view) => key_of(alloc, view),
        None => key_of(alloc, &View::Missing),
    }
}
