//! Checks of real modules, as facts.
ghost use Rattle.std.specs.Prelude.{◌≡◌, [], ◌∷◌, IfOk, IsTrue};
ghost use Rattle.ob_text.specs.Held.{IsReadable};
ghost use Rattle.oberon_module.specs.Views.{plain_views};
ghost use Rattle.oberon_rules.specs.Local.{Local, view_in};
ghost use Rattle.oberon_types.specs.Memory.{plain_view};

use check_cache::{Fact, PairKey};
use iface_key::key_of;
use indexmap::IndexMap;
use ob_text::{Held, Name, NoMemory, Path, Text};
use oberon_module::{Checked, check_module};
use oberon_types::View;
use std::alloc::Global;
use std::sync::Arc;
use std::test::Fail;

/// The key of a pair.
pub fn pair(alloc: Global, target: &str, path: &str) -> Result<PairKey, Fail> {
    Ok(PairKey {
        target: Name::new(alloc, target.as_bytes())?,
        path: Path::new(alloc, path.as_bytes())?,
    })
}

/// A text as it is held.
pub fn held_of(alloc: Global, text: &str) -> Result<Held, Fail>
    ensures { IfOk result IsReadable }
{
    if text.len() > 262_144 {
        return Err(Fail::from("too long"));
    }
    Ok(Held::Text(Text::new(alloc, text.as_bytes())?))
}

// ---- a module that imports nothing

/// The check of a text that imports nothing.
pub fn fact_alone(alloc: Global, name: &str, text: &str) -> Result<Fact, Fail> {
    let stem = Name::new(alloc, name.as_bytes())?;
    let held = Arc::new(alloc, held_of(alloc, text)?)?;
    let checked = check_alone(alloc, &stem, &held)?;
    Ok(alone(alloc, held, stem, checked))
}

fn check_alone(alloc: Global, stem: &Name, held: &Held) -> Result<Checked, Fail>
    requires { IsReadable held.now }
    ensures local { IfOk result (λ c. Local held.now stem.now (view_in [])
        c.list.items c.imports.items (plain_view c.view)) }
    ensures imports { IfOk result (λ c. c.imports.items ≡ []) }
{
    let views = IndexMap::new(alloc);
    let checked = check_module(alloc, stem, held, &views)?;
    if !checked.imports.is_empty() {
        return Err(Fail::from("it imports"));
    }
    Ok(checked)
}

fn alone(alloc: Global, held: Arc<Held>, stem: Name, checked: Checked) -> Fact
    requires local { Local held.value stem (view_in [])
        checked.list.items checked.imports.items (plain_view checked.view) }
    requires imports { checked.imports.items ≡ [] }
{
    Fact::new(held, stem, Vec::new(alloc), Vec::new(alloc), checked)
}

// ---- a module that imports one

/// The check of a text of A that imports this module alone, which shows this view and whose key has this number.
pub fn fact_importing(
    alloc: Global,
    text: &str,
    name: &str,
    view: &View,
    number: u64,
) -> Result<Fact, Fail> {
    let stem = Name::new(alloc, b"A")?;
    let held = Arc::new(alloc, held_of(alloc, text)?)?;
    let name = Name::new(alloc, name.as_bytes())?;
    let checked = check_importing(alloc, &stem, &held, &name, view)?;
    Ok(importing(alloc, held, stem, checked, name, view, number)?)
}

fn check_importing(
    alloc: Global,
    stem: &Name,
    held: &Held,
    name: &Name,
    view: &View,
) -> Result<Checked, Fail>
    requires { IsReadable held.now }
    ensures local { IfOk result (λ c. Local held.now stem.now
        (view_in ((name.now, plain_view view.now) ∷ []))
        c.list.items c.imports.items (plain_view c.view)) }
    ensures imports { IfOk result (λ c. c.imports.items ≡ name.now ∷ []) }
{
    let views = views_of(alloc, name, view)?;
    let checked = check_module(alloc, stem, held, &views)?;
    if !is_only(checked.imports.as_slice(), name) {
        return Err(Fail::from("it imports others"));
    }
    Ok(checked)
}

fn views_of(alloc: Global, name: &Name, view: &View) -> Result<IndexMap<Name, View>, NoMemory>
    ensures { IfOk result (λ views. plain_views views.entries ≡ (name.now, plain_view view.now) ∷ []) }
{
    let own = name.copy(alloc)?;
    let shown = view.copy()?;
    let mut views = IndexMap::new(alloc);
    views.insert(own, shown)?;
    Ok(views)
}

fn is_only(names: &[Name], name: &Name) -> bool
    ensures { IsTrue result → names.now ≡ name.now ∷ [] }
{
    let Some((only, others)) = names.split_first() else {
        return false;
    };
    if !others.is_empty() {
        return false;
    }
    same_name(only, name)
}

fn same_name(a: &Name, b: &Name) -> bool
    ensures { IsTrue result → a.now ≡ b.now }
{
    a == b
}

fn importing(
    alloc: Global,
    held: Arc<Held>,
    stem: Name,
    checked: Checked,
    name: Name,
    view: &View,
    number: u64,
) -> Result<Fact, NoMemory>
    requires local { Local held.value stem (view_in ((name, plain_view view.now) ∷ []))
        checked.list.items checked.imports.items (plain_view checked.view) }
    requires imports { checked.imports.items ≡ name ∷ [] }
{
    let key = key_of(alloc, view)?;
    let mut keys = Vec::new(alloc);
    keys.push(key)?;
    let mut imports = Vec::new(alloc);
    imports.push((name, number))?;
    Ok(Fact::new(held, stem, imports, keys, checked))
}
