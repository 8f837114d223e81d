ghost use Rattle.std.specs.Prelude.{◌≡◌, false, IfOk, OnOk};
ghost use Rattle.std.specs.Option.{option_copied};
ghost use Rattle.oberon_tree.specs.Memory.{ident_defs_tree, idents_tree};
ghost use Rattle.oberon_types.specs.Memory.{plain_ty};
ghost use Rattle.oberon_rules.specs.Scopes.{is_declared};
ghost use Rattle.oberon_rules.specs.Declarations.{is_exported, declare_new, new_says, own_variable, names_behind, names_say};
ghost use Rattle.oberon_rules.specs.Procedures.{idents, idents_behind, idents_say, first_new_ident};
ghost use Rattle.oberon_rules.specs.TypeRules.{ident_defs, first_new};
ghost use Rattle.oberon_infer.specs.Memory.{plain_scopes, plain_meaning};
ghost use Rattle.oberon_infer.specs.Adds.{Adds};
ghost use Rattle.oberon_declare.specs.Variables.{name_of_first};

use ob_text::{Code, NoMemory};
use oberon_infer::{Binding, Meaning, Said, Scopes, add_named};
use oberon_tree::{Ident, IdentDef, IdentDefs, Idents};
use oberon_types::Ty;
use std::alloc::Global;

/// Declares a name, or says that its scope has it already.
pub fn declare_new<'a>(
    alloc: Global,
    scopes: &mut Scopes<'a>,
    at: &'a Ident,
    exported: bool,
    meaning: Meaning<'a>,
    said: &mut Vec<Said<'a>>,
) -> Result<(), NoMemory>
    ensures behind { OnOk result (plain_scopes scopes.new ≡ declare_new (plain_scopes scopes.old) at.now exported (plain_meaning meaning.entry)) }
    ensures says { OnOk result (Adds said.old.items said.new.items (new_says (plain_scopes scopes.old) at.now)) }
{
    let twice = scopes.is_declared(&at.name);
    add_named(said, twice, at, Code::NameTwice)?;
    if !twice {
        scopes.declare(alloc, &at.name, Binding { exported, meaning })?;
    }
    Ok(())
}

/// What a variable that is declared means.
pub fn own_variable<'a>(ty: &Ty) -> Result<Meaning<'a>, NoMemory>
    ensures { IfOk result (λ m. plain_meaning m ≡ own_variable (plain_ty ty.now)) }
{
    Ok(Meaning::Variable {
        ty: ty.copy()?,
        read_only: false,
        by_var: false,
    })
}

/// The first name of a list that declares something.
pub fn first_new<'a>(scopes: &Scopes, names: &'a IdentDefs) -> Option<&'a Ident>
    ensures { option_copied result
        ≡ name_of_first (first_new (is_declared (plain_scopes scopes.now)) (ident_defs (ident_defs_tree names.now))) }
{
    if !scopes.is_declared(&names.first.name.name) {
        return Some(&names.first.name);
    }
    for next in names.rest.iter() {
        if !scopes.is_declared(&next.ident.name.name) {
            return Some(&next.ident.name);
        }
    }
    None
}

/// The first name of a list that declares something.
pub fn first_new_ident<'a>(scopes: &Scopes, names: &'a Idents) -> Option<&'a Ident>
    ensures { option_copied result ≡ first_new_ident (is_declared (plain_scopes scopes.now)) (idents (idents_tree names.now)) }
{
    if !scopes.is_declared(&names.first.name) {
        return Some(&names.first);
    }
    for next in names.rest.iter() {
        if !scopes.is_declared(&next.ident.name) {
            return Some(&next.ident);
        }
    }
    None
}

/// Declares the variables of a list, which have one type.
pub fn declare_variables<'a>(
    alloc: Global,
    scopes: &mut Scopes<'a>,
    names: &'a IdentDefs,
    ty: &Ty,
    said: &mut Vec<Said<'a>>,
) -> Result<(), NoMemory>
    ensures behind { OnOk result (plain_scopes scopes.new ≡ names_behind (plain_scopes scopes.old) (ident_defs (ident_defs_tree names.now)) (own_variable (plain_ty ty.now))) }
    ensures says { OnOk result (Adds said.old.items said.new.items (names_say (plain_scopes scopes.old) (ident_defs (ident_defs_tree names.now)) (own_variable (plain_ty ty.now)))) }
{
    declare_variable(alloc, scopes, &names.first, ty, said)?;
    for next in names.rest.iter() {
        declare_variable(alloc, scopes, &next.ident, ty, said)?;
    }
    Ok(())
}

fn declare_variable<'a>(
    alloc: Global,
    scopes: &mut Scopes<'a>,
    at: &'a IdentDef,
    ty: &Ty,
    said: &mut Vec<Said<'a>>,
) -> Result<(), NoMemory>
    ensures behind { OnOk result (plain_scopes scopes.new ≡ declare_new (plain_scopes scopes.old) at.now.name (is_exported at.now) (own_variable (plain_ty ty.now))) }
    ensures says { OnOk result (Adds said.old.items said.new.items (new_says (plain_scopes scopes.old) at.now.name)) }
{
    let meaning = own_variable(ty)?;
    declare_new(alloc, scopes, &at.name, at.export.is_some(), meaning, said)
}

/// Declares the variables of a list in a procedure, which have one type.
pub fn declare_locals<'a>(
    alloc: Global,
    scopes: &mut Scopes<'a>,
    names: &'a Idents,
    ty: &Ty,
    said: &mut Vec<Said<'a>>,
) -> Result<(), NoMemory>
    ensures behind { OnOk result (plain_scopes scopes.new ≡ idents_behind (plain_scopes scopes.old) (idents (idents_tree names.now)) (own_variable (plain_ty ty.now))) }
    ensures says { OnOk result (Adds said.old.items said.new.items (idents_say (plain_scopes scopes.old) (idents (idents_tree names.now)) (own_variable (plain_ty ty.now)))) }
{
    declare_local(alloc, scopes, &names.first, ty, said)?;
    for next in names.rest.iter() {
        declare_local(alloc, scopes, &next.ident, ty, said)?;
    }
    Ok(())
}

fn declare_local<'a>(
    alloc: Global,
    scopes: &mut Scopes<'a>,
    at: &'a Ident,
    ty: &Ty,
    said: &mut Vec<Said<'a>>,
) -> Result<(), NoMemory>
    ensures behind { OnOk result (plain_scopes scopes.new ≡ declare_new (plain_scopes scopes.old) at.now false (own_variable (plain_ty ty.now))) }
    ensures says { OnOk result (Adds said.old.items said.new.items (new_says (plain_scopes scopes.old) at.now)) }
{
    let meaning = own_variable(ty)?;
    declare_new(alloc, scopes, at, false, meaning, said)
}
