//! The modules that a module imports (The Programming Language Oberon-07, section 11). It stands on `oberon_tree`,
//! and on `oberon_scan` for tokens, and may know trees and their tokens, and nothing of texts nor of the server. Begin
//! reading at `imports_of`, whose contract is by `Imports.antt` of `document_rules`.
#![tactic(auto)]

ghost use Rattle.std.specs.Prelude.{◌≡◌, ◌==◌, IfOk, OnOk};
ghost use Rattle.std.specs.Cmp.Lexicographic.{pointwise};
ghost use Rattle.ob_text.specs.Once.{once_more};
ghost use Rattle.oberon_tree.specs.Memory.{tree_of};
ghost use Rattle.document_rules.specs.Imports.{imported_name, imports_in};

use indexmap::IndexSet;
use ob_text::{Name, NoMemory};
use oberon_tree::{Import, Tree};
use std::alloc::Global;

/// The names of the modules that a module imports, each once, in the order of the text.
pub fn imports_of(alloc: Global, tree: &Tree) -> Result<Vec<Name>, NoMemory>
    ensures { IfOk result (λ names. names.items ≡ imports_in (tree_of tree.now)) }
{
    let mut names: IndexSet<Name> = IndexSet::new(alloc);
    if let Some(imports) = &tree.root().imports {
        add(alloc, &mut names, &imports.first)?;
        for next in imports.rest.iter() {
            add(alloc, &mut names, &next.import)?;
        }
    }
    Ok(names.into_iter().collect(alloc)?)
}

fn add(alloc: Global, names: &mut IndexSet<Name>, import: &Import) -> Result<(), NoMemory>
    ensures { OnOk result (names.new.keys
        ≡ once_more (pointwise ◌==◌) names.old.keys (imported_name import.now)) }
{
    names.insert(imported(import).copy(alloc)?)?;
    Ok(())
}

/// The imported module's own name, which stands behind the local one where there are two.
fn imported(import: &Import) -> &Name
    ensures { result.now ≡ imported_name import.now }
{
    match &import.alias {
        Some(alias) => &alias.imported.name,
        None => &import.name.name,
    }
}
