ghost use Rattle.std.specs.Prelude.{◌≡◌, ◌∷◌, Some, None, OnOk, IfOk};
ghost use Rattle.ob_text.specs.declared.code.Code.TheVariants as codes_of;
ghost use Rattle.oberon_tree.specs.Memory.{arguments_option};
ghost use Rattle.oberon_types.specs.Types.{record_ty};
ghost use Rattle.oberon_rules.specs.Scopes.{broken};
ghost use Rattle.oberon_rules.specs.Expressions.{nothing, guarded, called, argument_type, or_unknown};
ghost use Rattle.oberon_rules.specs.ExpressionRules.{member_rows, indexed, index_rows, is_bad_guard, takes_arguments};
ghost use Rattle.oberon_types.specs.Memory.{plain_record, plain_signature};
ghost use Rattle.oberon_infer.specs.Memory.{plain_scopes, plain_ex, plain_type, plain_type_option};
ghost use Rattle.oberon_infer.specs.Given.{plain_given};
ghost use Rattle.oberon_infer.specs.Parts.{member_selected, field_selected, field_rows, indexed_part, guard_of, called_with, called_rows};
ghost use Rattle.oberon_infer.specs.Adds.{Adds};

use crate::bare::argument_type;
use crate::ex::{Ex, ex_of};
use crate::names::of_view;
use crate::rows::{add_value_row, add_whole_row};
use crate::said::{Said, add_broken, add_named, add_row};
use crate::scope::Scopes;
use crate::type_ref::{TypeRef, borrowed, field_type, is_extension};
use crate::word::{Given, word_called};
use ob_text::{Code, Name, NoMemory, Span};
use oberon_tree::{Exprs, Member};
use oberon_types::{RecordTy, Signature, field_of};

/// What a name behind a dot selects, and what is said of it (The Programming Language Oberon-07, section 8.1).
pub fn select_member<'b, 'a: 'b>(
    me: &Name,
    x: Ex<'b>,
    at: &'a Member,
    said: &mut Vec<Said<'a>>,
) -> Result<Ex<'b>, NoMemory>
    ensures is { IfOk result (λ y. plain_ex y ≡ member_selected me.now (plain_ex x.entry) at.now) }
    ensures says { OnOk result (Adds said.old.items said.new.items (member_rows me.now (plain_ex x.entry) at.now)) }
{
    match x {
        Ex::Nothing => Ok(Ex::Nothing),
        Ex::Module(view) => Ok(ex_of(of_view(view, &at.name, said)?)),
        Ex::Variable { ty, read_only, .. } => select_field(me, ty, read_only, at, said),
        Ex::Value(_) => no_selector(at, said),
        Ex::Type(_) => no_selector(at, said),
        Ex::Procedure(_) => no_selector(at, said),
        Ex::Word(_) => no_selector(at, said),
        Ex::Call => no_selector(at, said),
    }
}

fn select_field<'b, 'a>(
    me: &Name,
    ty: TypeRef<'b>,
    read_only: bool,
    at: &'a Member,
    said: &mut Vec<Said<'a>>,
) -> Result<Ex<'b>, NoMemory>
    ensures is { IfOk result (λ y. plain_ex y ≡ field_selected me.now (plain_type ty.entry) read_only at.now) }
    ensures says { OnOk result (Adds said.old.items said.new.items (field_rows me.now (plain_type ty.entry) at.now)) }
{
    match ty {
        TypeRef::Record(record) => select_record(me, record, read_only, at, said),
        TypeRef::Unknown => Ok(Ex::Nothing),
        TypeRef::Integer => no_selector(at, said),
        TypeRef::Byte => no_selector(at, said),
        TypeRef::Char => no_selector(at, said),
        TypeRef::Boolean => no_selector(at, said),
        TypeRef::Set => no_selector(at, said),
        TypeRef::Str(_) => no_selector(at, said),
        TypeRef::Array { .. } => no_selector(at, said),
        TypeRef::Open { .. } => no_selector(at, said),
    }
}

fn select_record<'b, 'a>(
    me: &Name,
    given: &'b RecordTy,
    read_only: bool,
    at: &'a Member,
    said: &mut Vec<Said<'a>>,
) -> Result<Ex<'b>, NoMemory>
    ensures is { IfOk result (λ y. plain_ex y ≡ field_selected me.now (record_ty (plain_record given.now)) read_only at.now) }
    ensures says { OnOk result (Adds said.old.items said.new.items (field_rows me.now (record_ty (plain_record given.now)) at.now)) }
{
    match field_of(me, &at.name.name, given) {
        Some(ty) => Ok(Ex::Variable {
            ty: field_type(ty),
            read_only,
            by_var: false,
        }),
        None => {
            add_named(said, true, &at.name, Code::NoName)?;
            Ok(Ex::Nothing)
        }
    }
}

fn no_selector<'b>(at: &Member, said: &mut Vec<Said>) -> Result<Ex<'b>, NoMemory>
    ensures is { IfOk result (λ y. plain_ex y ≡ nothing) }
    ensures says { OnOk result (Adds said.old.items said.new.items (λ rest. broken at.now.period codes_of.BadSelector None ∷ rest)) }
{
    add_broken(said, at.period, Code::BadSelector)?;
    Ok(Ex::Nothing)
}

/// The type that is indexed; None where there is no variable.
pub fn indexed<'b>(x: Ex<'b>) -> Option<TypeRef<'b>>
    ensures { plain_type_option result ≡ indexed (plain_ex x.entry) }
{
    match x {
        Ex::Nothing => Some(TypeRef::Unknown),
        Ex::Variable { ty, .. } => Some(ty),
        _ => None,
    }
}

/// The type, or an unknown one in place of none.
pub fn or_unknown<'b>(ty: Option<TypeRef<'b>>) -> TypeRef<'b>
    ensures { plain_type result ≡ or_unknown (plain_type_option ty.entry) }
{
    match ty {
        Some(ty) => ty,
        None => TypeRef::Unknown,
    }
}

/// Says what is broken at an index into a type with these elements, behind a bracket.
pub fn add_index_rows(
    element: Option<TypeRef>,
    ty: TypeRef,
    x: Ex,
    span: Span,
    bracket: Span,
    said: &mut Vec<Said>,
) -> Result<(), NoMemory>
    ensures { OnOk result (Adds said.old.items said.new.items (index_rows (plain_type_option element.entry) (plain_type ty.entry) (plain_ex x.entry) span bracket)) }
{
    match element {
        Some(_) => {
            add_value_row(x, span, said)?;
            add_whole_row(x, span, said)
        }
        None => add_row(said, !ty.is_unknown(), bracket, Code::BadSelector),
    }
}

/// An element of an indexed variable.
pub fn indexed_part<'b>(x: Ex<'b>, element: Option<TypeRef<'b>>) -> Ex<'b>
    ensures { plain_ex result ≡ indexed_part (plain_ex x.entry) (plain_type_option element.entry) }
{
    match x {
        Ex::Variable { read_only, .. } => match element {
            Some(ty) => Ex::Variable {
                ty,
                read_only,
                by_var: false,
            },
            None => Ex::Nothing,
        },
        _ => Ex::Nothing,
    }
}

/// The type of a guard: the one that is named behind a VAR record parameter. None where there is no guard.
pub fn guard_of<'b>(
    scopes: &'b Scopes,
    x: Ex<'b>,
    arguments: &Option<Box<Exprs>>,
) -> Option<TypeRef<'b>>
    ensures { plain_type_option result ≡ guard_of (plain_ex x.entry) (argument_type (plain_scopes scopes.now) (arguments_option arguments.now)) }
{
    match x {
        Ex::Variable {
            ty: TypeRef::Record(_),
            by_var: true,
            ..
        } => argument_type(scopes, arguments),
        _ => None,
    }
}

/// Says what is broken at a call or a guard, behind a bracket; `at` is the first token of its designator.
pub fn add_call_rows(
    at: Span,
    x: Ex,
    bracket: Span,
    guard: Option<TypeRef>,
    bad_count: bool,
    said: &mut Vec<Said>,
) -> Result<(), NoMemory>
    ensures { OnOk result (Adds said.old.items said.new.items (called_rows at (plain_ex x.entry) bracket (plain_type_option guard.entry) bad_count)) }
{
    match guard {
        Some(guard) => add_row(
            said,
            is_bad_guard(x.ty(), guard),
            bracket,
            Code::BadSelector,
        ),
        None => {
            add_row(said, !takes_arguments(x), bracket, Code::BadSelector)?;
            add_row(said, bad_count, at, Code::ArgumentCount)
        }
    }
}

fn is_bad_guard(ty: TypeRef, guard: TypeRef) -> bool
    ensures { result ≡ is_bad_guard (plain_type ty.entry) (Some (plain_type guard.entry)) }
{
    match guard {
        TypeRef::Unknown => false,
        _ => !is_extension(guard, ty),
    }
}

fn takes_arguments(x: Ex) -> bool
    ensures { result ≡ takes_arguments (plain_ex x.entry) }
{
    match x {
        Ex::Nothing => true,
        Ex::Variable { ty, .. } => ty.is_unknown(),
        Ex::Procedure(_) => true,
        Ex::Word(_) => true,
        _ => false,
    }
}

/// What a call or a guard is, with its arguments.
pub fn called_with<'b>(x: Ex<'b>, guard: Option<TypeRef<'b>>, given: Given<'b>) -> Ex<'b>
    ensures { plain_ex result ≡ called_with (plain_ex x.entry) (plain_type_option guard.entry) (plain_given given.entry) }
{
    match x {
        Ex::Variable { ty, .. } => guarded(guard, ty),
        Ex::Procedure(signature) => called(signature),
        Ex::Word(word) => word_called(word, given),
        _ => Ex::Nothing,
    }
}

fn guarded<'b>(guard: Option<TypeRef<'b>>, ty: TypeRef) -> Ex<'b>
    ensures { plain_ex result ≡ guarded (plain_type_option guard.entry) (plain_type ty.entry) }
{
    match guard {
        Some(guard) => {
            if is_extension(guard, ty) {
                Ex::Variable {
                    ty: guard,
                    read_only: false,
                    by_var: false,
                }
            } else {
                Ex::Nothing
            }
        }
        None => Ex::Nothing,
    }
}

fn called<'b>(signature: &'b Signature) -> Ex<'b>
    ensures { plain_ex result ≡ called (plain_signature signature.now) }
{
    match &signature.result_type {
        Some(ty) => Ex::Value(borrowed(ty)),
        None => Ex::Call,
    }
}
