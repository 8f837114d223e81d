ghost use Rattle.std.specs.Prelude.{◌≡◌, false, map, is_some, IfOk, OnOk};
ghost use Rattle.std.specs.Option.{option_copied, option_map};
ghost use Rattle.oberon_tree.specs.Memory.{expr_tree, type_tree, type_declaration_tree, types_tree, constant_tree, constants_tree, variable_tree, variables_tree, declarations_tree, local_constant_tree, local_constants_tree, local_variable_tree, local_variables_tree};
ghost use Rattle.oberon_types.specs.Memory.{plain_ty};
ghost use Rattle.oberon_rules.specs.Declarations.{declare_new, new_says, constant_meant, type_behind, type_declared, variable_behind, variable_declared, constants_behind, constants_declared, types_behind, types_declared, variables_behind, variables_declared, constant_items, type_items, variable_items, decls_behind, decls_say};
ghost use Rattle.oberon_rules.specs.Procedures.{local_constant, local_constants, local_variable, local_variables};
ghost use Rattle.oberon_rules.specs.TypeRules.{constant_is, constant_says};
ghost use Rattle.oberon_infer.specs.Memory.{plain_scopes, plain_meaning};
ghost use Rattle.oberon_infer.specs.Adds.{Adds};
ghost use Rattle.oberon_declare.specs.Variables.{variables_type, variables_type_says};

use crate::declaring::{
    declare_locals, declare_new, declare_variables, first_new, first_new_ident,
};
use crate::types::declared_type;
use ob_text::{Code, Name, NoMemory};
use oberon_constants::constant;
use oberon_infer::{Binding, Meaning, Said, Scopes, add_named};
use oberon_tree::{
    Constants, Declarations, Expr, Ident, LocalConstants, LocalVariable, LocalVariables, Type,
    TypeDeclaration, Types, Variable, Variables,
};
use oberon_types::{Ty, Value};
use std::alloc::Global;

/// Declares the constants, the types and the variables of a module, and says what is broken (The Programming
/// Language Oberon-07, sections 5 to 7). `me` is the stem of the module whose text this is.
pub fn declarations<'a>(
    alloc: Global,
    me: &Name,
    scopes: &mut Scopes<'a>,
    tree: &'a Declarations,
    said: &mut Vec<Said<'a>>,
) -> Result<(), NoMemory>
    ensures behind { OnOk result (plain_scopes scopes.new ≡ decls_behind me.now (plain_scopes scopes.old) (declarations_tree tree.now)) }
    ensures says { OnOk result (Adds said.old.items said.new.items (decls_say me.now (plain_scopes scopes.old) (declarations_tree tree.now))) }
{
    constants(alloc, me, scopes, &tree.constants, said)?;
    types(alloc, me, scopes, &tree.types, said)?;
    variables(alloc, me, scopes, &tree.variables, said)
}

// ---- constants

fn constants<'a>(
    alloc: Global,
    me: &Name,
    scopes: &mut Scopes<'a>,
    tree: &'a Option<Constants>,
    said: &mut Vec<Said<'a>>,
) -> Result<(), NoMemory>
    ensures behind { OnOk result (plain_scopes scopes.new ≡ constants_behind me.now (plain_scopes scopes.old) (constant_items (option_map constants_tree tree.now))) }
    ensures says { OnOk result (Adds said.old.items said.new.items (constants_declared me.now (plain_scopes scopes.old) (constant_items (option_map constants_tree tree.now)))) }
{
    let Some(tree) = tree else {
        return Ok(());
    };
    for item in tree.items.iter() {
        let exported = item.name.export.is_some();
        declare_constant(
            alloc,
            me,
            scopes,
            &item.name.name,
            exported,
            &item.value,
            said,
        )?;
    }
    Ok(())
}

/// Declares the constants of a procedure.
pub fn local_constants<'a>(
    alloc: Global,
    me: &Name,
    scopes: &mut Scopes<'a>,
    tree: &'a Option<LocalConstants>,
    said: &mut Vec<Said<'a>>,
) -> Result<(), NoMemory>
    ensures behind { OnOk result (plain_scopes scopes.new ≡ constants_behind me.now (plain_scopes scopes.old) (local_constants (option_map local_constants_tree tree.now))) }
    ensures says { OnOk result (Adds said.old.items said.new.items (constants_declared me.now (plain_scopes scopes.old) (local_constants (option_map local_constants_tree tree.now)))) }
{
    let Some(tree) = tree else {
        return Ok(());
    };
    for item in tree.items.iter() {
        declare_constant(alloc, me, scopes, &item.name, false, &item.value, said)?;
    }
    Ok(())
}

/// Declares a constant. Where its name is taken its expression is examined.
fn declare_constant<'a>(
    alloc: Global,
    me: &Name,
    scopes: &mut Scopes<'a>,
    at: &'a Ident,
    exported: bool,
    value: &'a Expr,
    said: &mut Vec<Said<'a>>,
) -> Result<(), NoMemory>
    ensures behind { OnOk result (plain_scopes scopes.new ≡ declare_new (plain_scopes scopes.old) at.now exported (constant_meant (constant_is me.now (plain_scopes scopes.old) (expr_tree value.now)))) }
    ensures says { OnOk result (Adds said.old.items said.new.items (λ rest. constant_says me.now (plain_scopes scopes.old) (expr_tree value.now) (new_says (plain_scopes scopes.old) at.now rest))) }
{
    let value = constant(alloc, me, scopes, value, said)?;
    declare_new(alloc, scopes, at, exported, constant_meant(value), said)
}

fn constant_meant<'a>(value: Option<Value>) -> Meaning<'a>
    ensures { plain_meaning result ≡ constant_meant value }
{
    match value {
        Some(value) => Meaning::Constant(value),
        None => Meaning::Unknown,
    }
}

// ---- types

fn types<'a>(
    alloc: Global,
    me: &Name,
    scopes: &mut Scopes<'a>,
    tree: &'a Option<Types>,
    said: &mut Vec<Said<'a>>,
) -> Result<(), NoMemory>
    ensures behind { OnOk result (plain_scopes scopes.new ≡ types_behind me.now (plain_scopes scopes.old) (type_items (option_map types_tree tree.now))) }
    ensures says { OnOk result (Adds said.old.items said.new.items (types_declared me.now (plain_scopes scopes.old) (type_items (option_map types_tree tree.now)))) }
{
    let Some(tree) = tree else {
        return Ok(());
    };
    for item in tree.items.iter() {
        declare_type(alloc, me, scopes, item, said)?;
    }
    Ok(())
}

/// Declares a type. Where its name is taken it isn't examined.
fn declare_type<'a>(
    alloc: Global,
    me: &Name,
    scopes: &mut Scopes<'a>,
    tree: &'a TypeDeclaration,
    said: &mut Vec<Said<'a>>,
) -> Result<(), NoMemory>
    ensures behind { OnOk result (plain_scopes scopes.new ≡ type_behind me.now (plain_scopes scopes.old) (type_declaration_tree tree.now)) }
    ensures says { OnOk result (Adds said.old.items said.new.items (type_declared me.now (plain_scopes scopes.old) (type_declaration_tree tree.now))) }
{
    let at = &tree.name.name;
    if scopes.is_declared(&at.name) {
        return add_named(said, true, at, Code::NameTwice);
    }
    let ty = declared_type(alloc, me, scopes, at, &tree.of_type, said)?;
    let exported = tree.name.export.is_some();
    let meaning = Meaning::Type(ty);
    scopes.declare(alloc, &at.name, Binding { exported, meaning })
}

// ---- variables

fn variables<'a>(
    alloc: Global,
    me: &Name,
    scopes: &mut Scopes<'a>,
    tree: &'a Option<Variables>,
    said: &mut Vec<Said<'a>>,
) -> Result<(), NoMemory>
    ensures behind { OnOk result (plain_scopes scopes.new ≡ variables_behind me.now (plain_scopes scopes.old) (variable_items (option_map variables_tree tree.now))) }
    ensures says { OnOk result (Adds said.old.items said.new.items (variables_declared me.now (plain_scopes scopes.old) (variable_items (option_map variables_tree tree.now)))) }
{
    let Some(tree) = tree else {
        return Ok(());
    };
    for item in tree.items.iter() {
        variable(alloc, me, scopes, item, said)?;
    }
    Ok(())
}

/// Declares the variables of a list. Where none of its names declares anything its type isn't examined.
fn variable<'a>(
    alloc: Global,
    me: &Name,
    scopes: &mut Scopes<'a>,
    tree: &'a Variable,
    said: &mut Vec<Said<'a>>,
) -> Result<(), NoMemory>
    ensures behind { OnOk result (plain_scopes scopes.new ≡ variable_behind me.now (plain_scopes scopes.old) (variable_tree tree.now)) }
    ensures says { OnOk result (Adds said.old.items said.new.items (variable_declared me.now (plain_scopes scopes.old) (variable_tree tree.now))) }
{
    let first = first_new(scopes, &tree.names);
    let ty = variables_type(alloc, me, scopes, first, &tree.of_type, said)?;
    declare_variables(alloc, scopes, &tree.names, &ty, said)
}

/// Declares the variables of a procedure.
pub fn local_variables<'a>(
    alloc: Global,
    me: &Name,
    scopes: &mut Scopes<'a>,
    tree: &'a Option<LocalVariables>,
    said: &mut Vec<Said<'a>>,
) -> Result<(), NoMemory>
    ensures behind { OnOk result (plain_scopes scopes.new ≡ variables_behind me.now (plain_scopes scopes.old) (local_variables (option_map local_variables_tree tree.now))) }
    ensures says { OnOk result (Adds said.old.items said.new.items (variables_declared me.now (plain_scopes scopes.old) (local_variables (option_map local_variables_tree tree.now)))) }
{
    let Some(tree) = tree else {
        return Ok(());
    };
    for item in tree.items.iter() {
        local_variable(alloc, me, scopes, item, said)?;
    }
    Ok(())
}

fn local_variable<'a>(
    alloc: Global,
    me: &Name,
    scopes: &mut Scopes<'a>,
    tree: &'a LocalVariable,
    said: &mut Vec<Said<'a>>,
) -> Result<(), NoMemory>
    ensures behind { OnOk result (plain_scopes scopes.new ≡ variable_behind me.now (plain_scopes scopes.old) (local_variable (local_variable_tree tree.now))) }
    ensures says { OnOk result (Adds said.old.items said.new.items (variable_declared me.now (plain_scopes scopes.old) (local_variable (local_variable_tree tree.now)))) }
{
    let first = first_new_ident(scopes, &tree.names);
    let ty = variables_type(alloc, me, scopes, first, &tree.of_type, said)?;
    declare_locals(alloc, scopes, &tree.names, &ty, said)
}

/// The type of a list of variables, by the first name of it that declares something.
fn variables_type<'a>(
    alloc: Global,
    me: &Name,
    scopes: &Scopes<'a>,
    first: Option<&Ident>,
    tree: &'a Type,
    said: &mut Vec<Said<'a>>,
) -> Result<Ty, NoMemory>
    ensures is { IfOk result (λ t. plain_ty t ≡ variables_type me.now (plain_scopes scopes.now) (option_copied first.entry) (type_tree tree.now)) }
    ensures says { OnOk result (Adds said.old.items said.new.items (variables_type_says me.now (plain_scopes scopes.now) (option_copied first.entry) (type_tree tree.now))) }
{
    match first {
        Some(at) => declared_type(alloc, me, scopes, at, tree, said),
        None => Ok(Ty::Unknown),
    }
}
