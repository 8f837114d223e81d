ghost use Rattle.std.specs.Prelude.{◌≡◌, ◌++◌, ◌∷◌, [], false, map, IfOk, OnOk};
ghost use Rattle.std.specs.Option.{option_copied, option_map};
ghost use Rattle.ob_text.specs.declared.code.Code.TheVariants as codes_of;
ghost use Rattle.oberon_tree.specs.Memory.{section_tree, sections_tree, formal_type_tree, formals_tree, idents_tree};
ghost use Rattle.oberon_types.specs.Memory.{plain_ty, plain_param, plain_signature};
ghost use Rattle.oberon_types.specs.Sizes.{too_large};
ghost use Rattle.oberon_types.specs.Types.{open_ty};
ghost use Rattle.oberon_rules.specs.Declarations.{declare_new, new_says};
ghost use Rattle.oberon_rules.specs.Procedures.{opened, open_rows, formal_start, formal_is, formal_says, is_structured, parameter, idents, idents_behind, idents_say, section_type, section_type_says, section_behind, section_says, section_params, sections_of, sections_behind, sections_say, sections_params, is_no_result, result_is, result_says, head_behind, head_says, signature_is};
ghost use Rattle.oberon_rules.specs.Scopes.{row};
ghost use Rattle.oberon_rules.specs.TypeRules.{limited};
ghost use Rattle.oberon_infer.specs.Memory.{plain_scopes, plain_meaning};
ghost use Rattle.oberon_infer.specs.Adds.{Adds};
ghost use Rattle.oberon_declare.specs.Headings.{params_of};

use crate::arrays::known_or_large;
use crate::declaring::{declare_new, first_new_ident};
use ob_text::{Code, Name, NoMemory, Span};
use oberon_infer::{Meaning, Said, Scopes, add_row, last_name, type_named};
use oberon_tree::{FormalType, Formals, Ident, Idents, OpenArray, ResultType, Section, Sections};
use oberon_types::{Param, Signature, Ty, open_type};
use std::alloc::Global;

/// Declares the parameters of a heading, and gives the procedure's signature (The Programming Language Oberon-07,
/// section 10.1).
pub fn heading<'a>(
    alloc: Global,
    me: &Name,
    scopes: &mut Scopes<'a>,
    tree: &'a Option<Formals>,
    said: &mut Vec<Said<'a>>,
) -> Result<Signature, NoMemory>
    ensures is { IfOk result (λ signature. plain_signature signature ≡ signature_is me.now (plain_scopes scopes.old) (option_map formals_tree tree.now)) }
    ensures behind { OnOk result (plain_scopes scopes.new ≡ head_behind me.now (plain_scopes scopes.old) (option_map formals_tree tree.now)) }
    ensures says { OnOk result (Adds said.old.items said.new.items (head_says me.now (plain_scopes scopes.old) (option_map formals_tree tree.now))) }
{
    let mut params = Vec::new(alloc);
    match tree {
        Some(tree) => {
            sections(alloc, me, scopes, &tree.sections, &mut params, said)?;
            let result_type = result_of(scopes, &tree.result_type, said)?;
            Ok(Signature {
                params,
                result_type,
            })
        }
        None => Ok(Signature {
            params,
            result_type: None,
        }),
    }
}

fn sections<'a>(
    alloc: Global,
    me: &Name,
    scopes: &mut Scopes<'a>,
    tree: &'a Option<Sections>,
    params: &mut Vec<Param>,
    said: &mut Vec<Said<'a>>,
) -> Result<(), NoMemory>
    ensures behind { OnOk result (plain_scopes scopes.new ≡ sections_behind me.now (plain_scopes scopes.old) (sections_of (option_map sections_tree tree.now))) }
    ensures says { OnOk result (Adds said.old.items said.new.items (sections_say me.now (plain_scopes scopes.old) (sections_of (option_map sections_tree tree.now)))) }
    ensures params { OnOk result (map plain_param params.new.items ≡ map plain_param params.old.items ++ sections_params me.now (plain_scopes scopes.old) (sections_of (option_map sections_tree tree.now))) }
{
    let Some(tree) = tree else {
        return Ok(());
    };
    section(alloc, me, scopes, &tree.first, params, said)?;
    for next in tree.rest.iter() {
        section(alloc, me, scopes, &next.section, params, said)?;
    }
    Ok(())
}

/// Declares the parameters of a section.
fn section<'a>(
    alloc: Global,
    me: &Name,
    scopes: &mut Scopes<'a>,
    tree: &'a Section,
    params: &mut Vec<Param>,
    said: &mut Vec<Said<'a>>,
) -> Result<(), NoMemory>
    ensures behind { OnOk result (plain_scopes scopes.new ≡ section_behind me.now (plain_scopes scopes.old) (section_tree tree.now)) }
    ensures says { OnOk result (Adds said.old.items said.new.items (section_says me.now (plain_scopes scopes.old) (section_tree tree.now))) }
    ensures params { OnOk result (map plain_param params.new.items ≡ map plain_param params.old.items ++ section_params me.now (plain_scopes scopes.old) (section_tree tree.now)) }
{
    let first = first_new_ident(scopes, &tree.names);
    let ty = section_type(alloc, me, scopes, first, tree, said)?;
    parameters(
        alloc,
        scopes,
        &tree.names,
        tree.by_var.is_some(),
        &ty,
        params,
        said,
    )
}

/// The type of a section, by the first name of it that declares something.
fn section_type<'a>(
    alloc: Global,
    me: &Name,
    scopes: &Scopes<'a>,
    first: Option<&Ident>,
    tree: &'a Section,
    said: &mut Vec<Said<'a>>,
) -> Result<Ty, NoMemory>
    ensures is { IfOk result (λ t. plain_ty t ≡ section_type me.now (plain_scopes scopes.now) (section_tree tree.now) (option_copied first.entry)) }
    ensures says { OnOk result (Adds said.old.items said.new.items (section_type_says me.now (plain_scopes scopes.now) (section_tree tree.now) (option_copied first.entry))) }
{
    match first {
        Some(_) => formal_type(alloc, me, scopes, &tree.of_type, said),
        None => Ok(Ty::Unknown),
    }
}

/// Declares the parameters of these names.
fn parameters<'a>(
    alloc: Global,
    scopes: &mut Scopes<'a>,
    names: &'a Idents,
    by_var: bool,
    ty: &Ty,
    params: &mut Vec<Param>,
    said: &mut Vec<Said<'a>>,
) -> Result<(), NoMemory>
    ensures behind { OnOk result (plain_scopes scopes.new ≡ idents_behind (plain_scopes scopes.old) (idents (idents_tree names.now)) (parameter by_var (plain_ty ty.now))) }
    ensures says { OnOk result (Adds said.old.items said.new.items (idents_say (plain_scopes scopes.old) (idents (idents_tree names.now)) (parameter by_var (plain_ty ty.now)))) }
    ensures params { OnOk result (map plain_param params.new.items ≡ map plain_param params.old.items ++ params_of by_var (plain_ty ty.now) (idents (idents_tree names.now))) }
{
    one_parameter(alloc, scopes, &names.first, by_var, ty, params, said)?;
    for next in names.rest.iter() {
        one_parameter(alloc, scopes, &next.ident, by_var, ty, params, said)?;
    }
    Ok(())
}

fn one_parameter<'a>(
    alloc: Global,
    scopes: &mut Scopes<'a>,
    at: &'a Ident,
    by_var: bool,
    ty: &Ty,
    params: &mut Vec<Param>,
    said: &mut Vec<Said<'a>>,
) -> Result<(), NoMemory>
    ensures behind { OnOk result (plain_scopes scopes.new ≡ declare_new (plain_scopes scopes.old) at.now false (parameter by_var (plain_ty ty.now))) }
    ensures says { OnOk result (Adds said.old.items said.new.items (new_says (plain_scopes scopes.old) at.now)) }
    ensures params { OnOk result (map plain_param params.new.items ≡ map plain_param params.old.items ++ record { by_var = by_var; ty = plain_ty ty.now } ∷ []) }
{
    params.push(Param {
        by_var,
        ty: ty.copy()?,
    })?;
    let meaning = parameter(by_var, ty)?;
    declare_new(alloc, scopes, at, false, meaning, said)
}

/// What a parameter means. A structured one by value is read-only.
fn parameter<'a>(by_var: bool, ty: &Ty) -> Result<Meaning<'a>, NoMemory>
    ensures { IfOk result (λ m. plain_meaning m ≡ parameter by_var (plain_ty ty.now)) }
{
    let read_only = !by_var && is_structured(ty);
    Ok(Meaning::Variable {
        ty: ty.copy()?,
        read_only,
        by_var,
    })
}

fn is_structured(ty: &Ty) -> bool
    ensures { result ≡ is_structured (plain_ty ty.now) }
{
    match ty {
        Ty::Array { .. } => true,
        Ty::Open { .. } => true,
        Ty::Record(_) => true,
        Ty::Unknown => false,
        Ty::Integer => false,
        Ty::Byte => false,
        Ty::Char => false,
        Ty::Boolean => false,
        Ty::Set => false,
        Ty::Str(_) => false,
    }
}

// ---- types of parameters and of results

/// The type of a formal parameter, and what is said of it.
fn formal_type<'a>(
    alloc: Global,
    me: &Name,
    scopes: &Scopes<'a>,
    tree: &'a FormalType,
    said: &mut Vec<Said<'a>>,
) -> Result<Ty, NoMemory>
    ensures is { IfOk result (λ t. plain_ty t ≡ formal_is me.now (plain_scopes scopes.now) (formal_type_tree tree.now)) }
    ensures says { OnOk result (Adds said.old.items said.new.items (formal_says me.now (plain_scopes scopes.now) (formal_type_tree tree.now))) }
{
    let ty = type_named(scopes, &tree.name, said)?;
    open_arrays(
        alloc,
        me,
        tree.opens.as_slice(),
        ty,
        formal_start(tree),
        said,
    )
}

fn formal_start(tree: &FormalType) -> Span
    ensures { result ≡ formal_start (formal_type_tree tree.now) }
{
    match tree.opens.first() {
        Some(open) => open.word,
        None => tree.name.first.span,
    }
}

/// The type of a parameter that takes arrays of any length, for each ARRAY OF.
fn open_arrays<'a>(
    alloc: Global,
    me: &Name,
    opens: &[OpenArray],
    element: Ty,
    place: Span,
    said: &mut Vec<Said<'a>>,
) -> Result<Ty, NoMemory>
    ensures is { IfOk result (λ t. plain_ty t ≡ opened me.now opens.now (plain_ty element)) }
    ensures says { OnOk result (Adds said.old.items said.new.items (open_rows me.now opens.now (plain_ty element) place)) }
{
    let mut ty = element;
    for _open in opens {
        ty = open_array(alloc, me, ty, place, said)?;
    }
    Ok(ty)
}

fn open_array<'a>(
    alloc: Global,
    me: &Name,
    element: Ty,
    place: Span,
    said: &mut Vec<Said<'a>>,
) -> Result<Ty, NoMemory>
    ensures is { IfOk result (λ t. plain_ty t ≡ limited me.now (open_ty (plain_ty element))) }
    ensures says { OnOk result (Adds said.old.items said.new.items (row (too_large me.now (open_ty (plain_ty element))) place codes_of.TypeTooLarge)) }
{
    let ty = open_type(alloc, me, element)?;
    known_or_large(ty, place, said)
}

/// The type of a function's result, which is scalar, and what is said of it.
fn result_of<'a>(
    scopes: &Scopes<'a>,
    tree: &'a Option<ResultType>,
    said: &mut Vec<Said<'a>>,
) -> Result<Option<Ty>, NoMemory>
    ensures is { IfOk result (λ t. option_map plain_ty t ≡ result_is (plain_scopes scopes.now) tree.now) }
    ensures says { OnOk result (Adds said.old.items said.new.items (result_says (plain_scopes scopes.now) tree.now)) }
{
    match tree {
        Some(tree) => {
            let ty = type_named(scopes, &tree.name, said)?;
            let bad = is_no_result(&ty);
            add_row(said, bad, last_name(&tree.name).span, Code::BadResult)?;
            Ok(Some(if bad { Ty::Unknown } else { ty }))
        }
        None => Ok(None),
    }
}

fn is_no_result(ty: &Ty) -> bool
    ensures { result ≡ is_no_result (plain_ty ty.now) }
{
    match ty {
        Ty::Array { .. } => true,
        Ty::Open { .. } => true,
        Ty::Record(_) => true,
        Ty::Str(_) => true,
        Ty::Unknown => false,
        Ty::Integer => false,
        Ty::Byte => false,
        Ty::Char => false,
        Ty::Boolean => false,
        Ty::Set => false,
    }
}
