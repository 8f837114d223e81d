ghost use Rattle.std.specs.Prelude.{◌≡◌, ◌∷◌, map, Some, OnOk, IfOk};
ghost use Rattle.ob_text.specs.declared.code.Code.TheVariants as codes_of;
ghost use Rattle.oberon_types.specs.Memory.{plain_ty, plain_export, plain_view};
ghost use Rattle.oberon_rules.specs.Scopes.{broken, unknown_meaning, import_meaning};
ghost use Rattle.oberon_rules.specs.Names.{means, name_is, name_says, name_says_of, named, named_says, exported_as, member_is, member_says, type_named, type_named_says, last_name, is_no_type, type_of_meaning};
ghost use Rattle.oberon_infer.specs.Memory.{plain_scopes, plain_named, plain_named_option, plain_entity_option};
ghost use Rattle.oberon_infer.specs.Adds.{Adds};

use crate::said::{Said, add, add_named};
use crate::scope::{Meaning, Scopes};
use crate::standard::{Standard, predeclared};
use ob_text::{Code, Name, NoMemory};
use oberon_tree::{Ident, Qualident};
use oberon_types::{Entity, Exports, Ty, View};

/// What a name means, without a copy.
#[derive(Clone, Copy)]
pub enum Named<'b, 'a> {
    Unknown,
    Own(&'b Meaning<'a>),
    Standard(Standard),
    Outside(&'b Entity),
}

/// What a module exports by this name. It is found by its hash.
fn exported_as<'b>(exports: &'b Exports, name: &Name) -> Option<&'b Entity>
    ensures { plain_entity_option result ≡ exported_as name.now (map plain_export exports.now.entities.entries) }
{
    exports.entities.get(name)
}

/// What the nearest declaration of a name says; None where there is none.
fn nearest<'b, 'a>(scopes: &'b Scopes<'a>, name: &Name) -> Option<Named<'b, 'a>>
    ensures { plain_named_option result ≡ means (plain_scopes scopes.now) name.now }
{
    if let Some(scope) = &scopes.locals {
        if let Some(meaning) = scope.look_up(name) {
            return Some(Named::Own(meaning));
        }
    }
    if let Some(meaning) = scopes.globals.look_up(name) {
        return Some(Named::Own(meaning));
    }
    match predeclared(name) {
        Some(standard) => Some(Named::Standard(standard)),
        None => None,
    }
}

/// What a name means (The Programming Language Oberon-07, section 4).
pub fn look_up<'b, 'a>(scopes: &'b Scopes<'a>, name: &Name) -> Named<'b, 'a>
    ensures { plain_named result ≡ name_is (plain_scopes scopes.now) name.now }
{
    match nearest(scopes, name) {
        Some(named) => named,
        None => Named::Unknown,
    }
}

/// What a name means, and what is said of it (section 4).
pub fn name<'b, 'a>(
    scopes: &'b Scopes<'a>,
    at: &'a Ident,
    said: &mut Vec<Said<'a>>,
) -> Result<Named<'b, 'a>, NoMemory>
    ensures means { IfOk result (λ x. plain_named x ≡ name_is (plain_scopes scopes.now) at.now.name) }
    ensures says { OnOk result (Adds said.old.items said.new.items (name_says (plain_scopes scopes.now) at.now)) }
{
    match nearest(scopes, &at.name) {
        Some(named) => {
            add_use(named, at, said)?;
            Ok(named)
        }
        None => no_name(at, said),
    }
}

/// Says that a name resolves to an import, where it does.
fn add_use<'a>(
    named: Named<'_, 'a>,
    at: &'a Ident,
    said: &mut Vec<Said<'a>>,
) -> Result<(), NoMemory>
    ensures { OnOk result (Adds said.old.items said.new.items (name_says_of at.now (Some (plain_named named.entry)))) }
{
    match named {
        Named::Own(Meaning::Import(_)) => add(said, Said::Resolved(&at.name)),
        Named::Own(Meaning::Unknown) => Ok(()),
        Named::Own(Meaning::Constant(_)) => Ok(()),
        Named::Own(Meaning::Type(_)) => Ok(()),
        Named::Own(Meaning::Variable { .. }) => Ok(()),
        Named::Own(Meaning::Procedure(_)) => Ok(()),
        Named::Own(Meaning::Word(_)) => Ok(()),
        Named::Unknown => Ok(()),
        Named::Standard(Standard::Integer) => Ok(()),
        Named::Standard(Standard::Byte) => Ok(()),
        Named::Standard(Standard::Char) => Ok(()),
        Named::Standard(Standard::Boolean) => Ok(()),
        Named::Standard(Standard::Set) => Ok(()),
        Named::Standard(Standard::Word(_)) => Ok(()),
        Named::Outside(Entity::Constant(_)) => Ok(()),
        Named::Outside(Entity::TypeName(_)) => Ok(()),
        Named::Outside(Entity::Variable(_)) => Ok(()),
        Named::Outside(Entity::Proc(_)) => Ok(()),
    }
}

/// What a member of what a name means is (section 11).
pub fn member<'b, 'a>(named: Named<'b, 'a>, at: &Ident) -> Named<'b, 'a>
    ensures { plain_named result ≡ member_is (plain_named named.entry) at.now }
{
    match named {
        Named::Own(Meaning::Import(view)) => view_member(view, at),
        Named::Own(Meaning::Unknown) => Named::Unknown,
        Named::Own(Meaning::Constant(_)) => Named::Unknown,
        Named::Own(Meaning::Type(_)) => Named::Unknown,
        Named::Own(Meaning::Variable { .. }) => Named::Unknown,
        Named::Own(Meaning::Procedure(_)) => Named::Unknown,
        Named::Own(Meaning::Word(_)) => Named::Unknown,
        Named::Unknown => Named::Unknown,
        Named::Standard(Standard::Integer) => Named::Unknown,
        Named::Standard(Standard::Byte) => Named::Unknown,
        Named::Standard(Standard::Char) => Named::Unknown,
        Named::Standard(Standard::Boolean) => Named::Unknown,
        Named::Standard(Standard::Set) => Named::Unknown,
        Named::Standard(Standard::Word(_)) => Named::Unknown,
        Named::Outside(Entity::Constant(_)) => Named::Unknown,
        Named::Outside(Entity::TypeName(_)) => Named::Unknown,
        Named::Outside(Entity::Variable(_)) => Named::Unknown,
        Named::Outside(Entity::Proc(_)) => Named::Unknown,
    }
}

/// What a name of a module means by its view.
pub fn view_member<'b, 'a>(view: &'b View, at: &Ident) -> Named<'b, 'a>
    ensures { plain_named result ≡ member_is (import_meaning (plain_view view.now)) at.now }
{
    match view {
        View::Missing => Named::Unknown,
        View::Broken => Named::Unknown,
        View::Cyclic => Named::Unknown,
        View::Exports(exports) => match exported_as(exports, &at.name) {
            Some(entity) => Named::Outside(entity),
            None => Named::Unknown,
        },
    }
}

/// What a qualident means, and what is said of it (sections 4 and 11).
pub fn resolve<'b, 'a>(
    scopes: &'b Scopes<'a>,
    qualident: &'a Qualident,
    said: &mut Vec<Said<'a>>,
) -> Result<Named<'b, 'a>, NoMemory>
    ensures means { IfOk result (λ x. plain_named x ≡ named (plain_scopes scopes.now) qualident.now) }
    ensures says { OnOk result (Adds said.old.items said.new.items (named_says (plain_scopes scopes.now) qualident.now)) }
{
    let first = name(scopes, &qualident.first, said)?;
    match &qualident.member {
        Some(member) => of_module(first, &member.name, said),
        None => Ok(first),
    }
}

fn of_module<'b, 'a>(
    named: Named<'b, 'a>,
    at: &'a Ident,
    said: &mut Vec<Said<'a>>,
) -> Result<Named<'b, 'a>, NoMemory>
    ensures means { IfOk result (λ x. plain_named x ≡ member_is (plain_named named.entry) at.now) }
    ensures says { OnOk result (Adds said.old.items said.new.items (member_says (plain_named named.entry) at.now)) }
{
    match named {
        Named::Unknown => Ok(Named::Unknown),
        Named::Own(Meaning::Unknown) => Ok(Named::Unknown),
        Named::Own(Meaning::Import(view)) => of_view(view, at, said),
        Named::Own(Meaning::Constant(_)) => no_name(at, said),
        Named::Own(Meaning::Type(_)) => no_name(at, said),
        Named::Own(Meaning::Variable { .. }) => no_name(at, said),
        Named::Own(Meaning::Procedure(_)) => no_name(at, said),
        Named::Own(Meaning::Word(_)) => no_name(at, said),
        Named::Standard(Standard::Integer) => no_name(at, said),
        Named::Standard(Standard::Byte) => no_name(at, said),
        Named::Standard(Standard::Char) => no_name(at, said),
        Named::Standard(Standard::Boolean) => no_name(at, said),
        Named::Standard(Standard::Set) => no_name(at, said),
        Named::Standard(Standard::Word(_)) => no_name(at, said),
        Named::Outside(Entity::Constant(_)) => no_name(at, said),
        Named::Outside(Entity::TypeName(_)) => no_name(at, said),
        Named::Outside(Entity::Variable(_)) => no_name(at, said),
        Named::Outside(Entity::Proc(_)) => no_name(at, said),
    }
}

/// What a name of a module means by its view, and what is said of it.
pub fn of_view<'b, 'a>(
    view: &'b View,
    at: &'a Ident,
    said: &mut Vec<Said<'a>>,
) -> Result<Named<'b, 'a>, NoMemory>
    ensures means { IfOk result (λ x. plain_named x ≡ member_is (import_meaning (plain_view view.now)) at.now) }
    ensures says { OnOk result (Adds said.old.items said.new.items (member_says (import_meaning (plain_view view.now)) at.now)) }
{
    match view {
        View::Missing => Ok(Named::Unknown),
        View::Broken => Ok(Named::Unknown),
        View::Cyclic => Ok(Named::Unknown),
        View::Exports(exports) => match exported_as(exports, &at.name) {
            Some(entity) => Ok(Named::Outside(entity)),
            None => no_name(at, said),
        },
    }
}

fn no_name<'b, 'a>(at: &'a Ident, said: &mut Vec<Said<'a>>) -> Result<Named<'b, 'a>, NoMemory>
    ensures means { IfOk result (λ x. plain_named x ≡ unknown_meaning) }
    ensures says { OnOk result (Adds said.old.items said.new.items (λ rest. broken at.now.span codes_of.NoName (Some at.now.name) ∷ rest)) }
{
    add(
        said,
        Said::Broken {
            span: at.span,
            code: Code::NoName,
            name: Some(&at.name),
        },
    )?;
    Ok(Named::Unknown)
}

/// The type that a qualident names, and what is said of it (section 6).
pub fn type_named<'a>(
    scopes: &Scopes<'a>,
    qualident: &'a Qualident,
    said: &mut Vec<Said<'a>>,
) -> Result<Ty, NoMemory>
    ensures means { IfOk result (λ t. plain_ty t ≡ type_named (plain_scopes scopes.now) qualident.now) }
    ensures says { OnOk result (Adds said.old.items said.new.items (type_named_says (plain_scopes scopes.now) qualident.now)) }
{
    let named = resolve(scopes, qualident, said)?;
    add_named(
        said,
        is_no_type(&named),
        last_name(qualident),
        Code::NotType,
    )?;
    type_of(&named)
}

/// The last name of a qualident.
pub fn last_name(qualident: &Qualident) -> &Ident
    ensures { result.now ≡ last_name qualident.now }
{
    match &qualident.member {
        Some(member) => &member.name,
        None => &qualident.first,
    }
}

fn is_no_type(named: &Named) -> bool
    ensures { result ≡ is_no_type (plain_named named.now) }
{
    match named {
        Named::Unknown => false,
        Named::Own(Meaning::Unknown) => false,
        Named::Own(Meaning::Type(_)) => false,
        Named::Own(Meaning::Constant(_)) => true,
        Named::Own(Meaning::Variable { .. }) => true,
        Named::Own(Meaning::Procedure(_)) => true,
        Named::Own(Meaning::Word(_)) => true,
        Named::Own(Meaning::Import(_)) => true,
        Named::Standard(Standard::Word(_)) => true,
        Named::Standard(_) => false,
        Named::Outside(Entity::TypeName(_)) => false,
        Named::Outside(_) => true,
    }
}

fn type_of(named: &Named) -> Result<Ty, NoMemory>
    ensures { IfOk result (λ t. plain_ty t ≡ type_of_meaning (plain_named named.now)) }
{
    match named {
        Named::Own(Meaning::Type(ty)) => ty.copy(),
        Named::Outside(Entity::TypeName(ty)) => ty.copy(),
        Named::Standard(Standard::Integer) => Ok(Ty::Integer),
        Named::Standard(Standard::Byte) => Ok(Ty::Byte),
        Named::Standard(Standard::Char) => Ok(Ty::Char),
        Named::Standard(Standard::Boolean) => Ok(Ty::Boolean),
        Named::Standard(Standard::Set) => Ok(Ty::Set),
        Named::Standard(Standard::Word(_)) => Ok(Ty::Unknown),
        Named::Unknown => Ok(Ty::Unknown),
        Named::Own(Meaning::Unknown) => Ok(Ty::Unknown),
        Named::Own(Meaning::Constant(_)) => Ok(Ty::Unknown),
        Named::Own(Meaning::Variable { .. }) => Ok(Ty::Unknown),
        Named::Own(Meaning::Procedure(_)) => Ok(Ty::Unknown),
        Named::Own(Meaning::Word(_)) => Ok(Ty::Unknown),
        Named::Own(Meaning::Import(_)) => Ok(Ty::Unknown),
        Named::Outside(Entity::Constant(_)) => Ok(Ty::Unknown),
        Named::Outside(Entity::Variable(_)) => Ok(Ty::Unknown),
        Named::Outside(Entity::Proc(_)) => Ok(Ty::Unknown),
    }
}
