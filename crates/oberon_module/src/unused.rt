ghost use Rattle.std.specs.Prelude.{◌≡◌, ◌&&◌, ◌||◌, ℕ, List, map, IfOk, OnOk};
ghost use Rattle.std.specs.List.{list_any};
ghost use Rattle.std.specs.Option.{option_map};
ghost use Rattle.ob_text.specs.declared.code.Code.TheVariants as codes_of;
ghost use Rattle.oberon_tree.specs.Memory.{imports_tree};
ghost use Rattle.oberon_types.specs.Entities.{missing_view};
ghost use Rattle.oberon_types.specs.Memory.{plain_view};
ghost use Rattle.oberon_types.specs.Types.{same_name};
ghost use Rattle.oberon_rules.specs.Module.{import_list, imported, import_behind, is_resolved, is_shown, is_unused, start, unused_say};
ghost use Rattle.oberon_rules.specs.Scopes.{Said as Spoken, named_row};
ghost use Rattle.oberon_infer.specs.Memory.{plain_scopes, plain_said};
ghost use Rattle.oberon_infer.specs.Adds.{Adds};
ghost use Rattle.oberon_module.specs.Views.{views_of};
ghost use Rattle.oberon_module.specs.Used.{AreUsed};

use crate::importing::{Views, imported};
use indexmap::IndexSet;
use ob_text::{Code, Name, NoMemory};
use oberon_infer::{Binding, Meaning, Said, Scope, Scopes, add_named};
use oberon_tree::{Import, Imports};
use oberon_types::View;
use std::alloc::Global;

/// Says which imports nothing uses: those with exports to which no name resolves, by all that was said of the module,
/// or whose local name is declared before (The Programming Language Oberon-07, section 11).
pub fn unused<'a>(
    alloc: Global,
    views: Views<'a>,
    tree: &'a Option<Imports>,
    said: &mut Vec<Said<'a>>,
) -> Result<(), NoMemory>
    requires { plain_view views.missing.now ≡ missing_view }
    ensures { OnOk result (Adds said.old.items said.new.items (unused_say (views_of views.entry) start (import_list (option_map imports_tree tree.now)) (map plain_said said.old.items))) }
{
    let Some(tree) = tree else {
        return Ok(());
    };
    let used = used(alloc, said.as_slice())?;
    let mut earlier = Scopes {
        procedure: None,
        locals: None,
        globals: Scope::new(alloc),
    };
    say_use(alloc, views, &used, &mut earlier, &tree.first, said)?;
    for next in tree.rest.iter() {
        say_use(alloc, views, &used, &mut earlier, &next.import, said)?;
    }
    Ok(())
}

/// Says where an import is unused, and declares its name behind those of earlier imports.
fn say_use<'a>(
    alloc: Global,
    views: Views<'a>,
    used: &IndexSet<Name>,
    earlier: &mut Scopes<'a>,
    tree: &'a Import,
    said: &mut Vec<Said<'a>>,
) -> Result<(), NoMemory>
    requires { plain_view views.missing.now ≡ missing_view }
    ensures behind { OnOk result (plain_scopes earlier.new ≡ import_behind (views_of views.entry) (plain_scopes earlier.old) tree.now) }
    ensures says { OnOk result ((given : List Spoken) → AreUsed given used.now.keys → Adds said.old.items said.new.items
        (named_row (is_shown (views_of views.entry (imported tree.now).name) && is_unused (plain_scopes earlier.old) tree.now given) tree.now.name codes_of.UnusedImport)) }
{
    let view = views.of(&imported(tree).name);
    let name = &tree.name.name;
    let again = earlier.is_declared(name);
    let unused = is_shown(view) && (again || !used.contains(name));
    add_named(said, unused, &tree.name, Code::UnusedImport)?;
    if !again {
        let binding = Binding {
            exported: false,
            meaning: Meaning::Import(view),
        };
        earlier.declare(alloc, name, binding)?;
    }
    Ok(())
}

/// Whether a module's exports are known.
fn is_shown(view: &View) -> bool
    ensures { result ≡ is_shown (plain_view view.now) }
{
    match view {
        View::Exports(_) => true,
        View::Missing | View::Broken | View::Cyclic => false,
    }
}

/// The imports to which names resolve, by their local names.
fn used(alloc: Global, said: &[Said]) -> Result<IndexSet<Name>, NoMemory>
    ensures { IfOk result (λ names. AreUsed (map plain_said said.now) names.keys) }
{
    let mut names = IndexSet::new(alloc);
    for one in said {
        if let Said::Resolved(name) = one {
            note(alloc, &mut names, name)?;
        }
    }
    Ok(names)
}

/// Puts a name to the others, which takes memory where it is new.
fn note(alloc: Global, names: &mut IndexSet<Name>, name: &Name) -> Result<(), NoMemory>
    ensures { OnOk result ((x : List ℕ) → list_any (same_name x) names.new.keys ≡ (same_name x name.now || list_any (same_name x) names.old.keys)) }
{
    if !names.contains(name) {
        names.insert(name.copy(alloc)?)?;
    }
    Ok(())
}
