ghost use Rattle.std.specs.Prelude.{◌≡◌, OnOk};
ghost use Rattle.std.specs.Option.{option_map};
ghost use Rattle.oberon_tree.specs.Memory.{imports_tree};
ghost use Rattle.oberon_types.specs.Entities.{missing_view};
ghost use Rattle.oberon_types.specs.Memory.{plain_view};
ghost use Rattle.oberon_rules.specs.Module.{import_list, imported, view_row, import_behind, imports_behind, imports_say};
ghost use Rattle.oberon_rules.specs.Declarations.{new_says};
ghost use Rattle.oberon_infer.specs.Memory.{plain_scopes};
ghost use Rattle.oberon_infer.specs.Adds.{Adds};
ghost use Rattle.oberon_module.specs.Views.{views_of};

use indexmap::IndexMap;
use ob_text::{Code, Name, NoMemory};
use oberon_declare::declare_new;
use oberon_infer::{Meaning, Said, Scopes, add_named};
use oberon_tree::{Ident, Import, Imports};
use oberon_types::View;
use std::alloc::Global;

/// The views of modules, by their names.
#[derive(Clone, Copy)]
pub struct Views<'a> {
    pub known: &'a IndexMap<Name, View>,
    /// `View::Missing`, for what has no view.
    pub missing: &'a View,
}

impl<'a> Views<'a> {
    /// The view of a module. Takes no memory.
    pub fn of(self, name: &Name) -> &'a View
        requires { plain_view self.missing.now ≡ missing_view }
        ensures { plain_view result.now ≡ views_of self.entry name.now }
    {
        match self.known.get(name) {
            Some(view) => view,
            None => self.missing,
        }
    }
}

/// Declares the imports of a module, and says what is broken (The Programming Language Oberon-07, section 11).
pub fn imports<'a>(
    alloc: Global,
    views: Views<'a>,
    scopes: &mut Scopes<'a>,
    tree: &'a Option<Imports>,
    said: &mut Vec<Said<'a>>,
) -> Result<(), NoMemory>
    requires { plain_view views.missing.now ≡ missing_view }
    ensures behind { OnOk result (plain_scopes scopes.new ≡ imports_behind (views_of views.entry) (plain_scopes scopes.old) (import_list (option_map imports_tree tree.now))) }
    ensures says { OnOk result (Adds said.old.items said.new.items (imports_say (views_of views.entry) (plain_scopes scopes.old) (import_list (option_map imports_tree tree.now)))) }
{
    let Some(tree) = tree else {
        return Ok(());
    };
    import(alloc, views, scopes, &tree.first, said)?;
    for next in tree.rest.iter() {
        import(alloc, views, scopes, &next.import, said)?;
    }
    Ok(())
}

fn import<'a>(
    alloc: Global,
    views: Views<'a>,
    scopes: &mut Scopes<'a>,
    tree: &'a Import,
    said: &mut Vec<Said<'a>>,
) -> Result<(), NoMemory>
    requires { plain_view views.missing.now ≡ missing_view }
    ensures behind { OnOk result (plain_scopes scopes.new ≡ import_behind (views_of views.entry) (plain_scopes scopes.old) tree.now) }
    ensures says { OnOk result (Adds said.old.items said.new.items (λ rest. view_row (views_of views.entry (imported tree.now).name) (imported tree.now) (new_says (plain_scopes scopes.old) tree.now.name rest))) }
{
    let at = imported(tree);
    let view = views.of(&at.name);
    say_view(view, at, said)?;
    declare_new(
        alloc,
        scopes,
        &tree.name,
        false,
        Meaning::Import(view),
        said,
    )
}

/// The name of the module, which stands behind the local one where there are two.
pub fn imported(tree: &Import) -> &Ident
    ensures { result.now ≡ imported tree.now }
{
    match &tree.alias {
        Some(alias) => &alias.imported,
        None => &tree.name,
    }
}

/// Says what is wrong with an imported module.
fn say_view<'a>(view: &View, at: &'a Ident, said: &mut Vec<Said<'a>>) -> Result<(), NoMemory>
    ensures { OnOk result (Adds said.old.items said.new.items (view_row (plain_view view.now) at.now)) }
{
    match view {
        View::Missing => add_named(said, true, at, Code::NoModule),
        View::Broken => add_named(said, true, at, Code::ImportBroken),
        View::Cyclic => add_named(said, true, at, Code::ImportCyclic),
        View::Exports(_) => Ok(()),
    }
}
