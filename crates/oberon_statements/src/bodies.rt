ghost use Rattle.std.specs.Prelude.{◌≡◌, OnOk};
ghost use Rattle.std.specs.Option.{option_map};
ghost use Rattle.ob_text.specs.declared.code.Code.TheVariants as codes_of;
ghost use Rattle.oberon_tree.specs.Memory.{expr_tree, body_tree, return_tree};
ghost use Rattle.oberon_types.specs.Memory.{plain_ty};
ghost use Rattle.oberon_rules.specs.Scopes.{row};
ghost use Rattle.oberon_rules.specs.Expressions.{expr_is, ty_of};
ghost use Rattle.oberon_rules.specs.ExpressionRules.{value_says};
ghost use Rattle.oberon_rules.specs.Procedures.{body_says, return_says};
ghost use Rattle.oberon_infer.specs.Memory.{plain_scopes, plain_type};
ghost use Rattle.oberon_infer.specs.Adds.{Adds};
ghost use Rattle.oberon_statements.specs.Returns.{is_bad_return};

use crate::walk::statements;
use ob_text::{Code, Name, NoMemory};
use oberon_infer::{Said, Scopes, TypeRef, add_row, borrowed, is_assignable, value};
use oberon_tree::{Body, Ident, ReturnPart};
use oberon_types::Ty;
use std::alloc::Global;

/// What is said of the statements of a module or a procedure, where it has any (The Programming Language Oberon-07,
/// sections 10 and 11). `me` is the stem of the module whose text this is.
pub fn body<'a>(
    alloc: Global,
    me: &Name,
    scopes: &Scopes<'a>,
    given: &'a Option<Body>,
    said: &mut Vec<Said<'a>>,
) -> Result<(), NoMemory>
    ensures { OnOk result (Adds said.old.items said.new.items (body_says me.now (plain_scopes scopes.now) (option_map body_tree given.now))) }
{
    match given {
        Some(body) => statements(alloc, me, scopes, &body.statements, said),
        None => Ok(()),
    }
}

/// What is said of the RETURN of a procedure with a result of this type, or of none, or of the lack of one at the name
/// behind its END (section 10).
pub fn returns<'a>(
    me: &Name,
    scopes: &Scopes<'a>,
    result_type: &Option<Ty>,
    given: &'a Option<ReturnPart>,
    end: &Ident,
    said: &mut Vec<Said<'a>>,
) -> Result<(), NoMemory>
    ensures { OnOk result (Adds said.old.items said.new.items (return_says me.now (plain_scopes scopes.now) (option_map plain_ty result_type.now) (option_map return_tree given.now) end.now)) }
{
    match given {
        Some(part) => returned(me, scopes, result_type, part, said),
        None => add_row(said, result_type.is_some(), end.span, Code::BadReturn),
    }
}

fn returned<'a>(
    me: &Name,
    scopes: &Scopes<'a>,
    result_type: &Option<Ty>,
    part: &'a ReturnPart,
    said: &mut Vec<Said<'a>>,
) -> Result<(), NoMemory>
    ensures { OnOk result (Adds said.old.items said.new.items (λ rest. value_says me.now (plain_scopes scopes.now) (expr_tree part.now.value) (row (is_bad_return (option_map plain_ty result_type.now) (ty_of (expr_is me.now (plain_scopes scopes.now) (expr_tree part.now.value)))) part.now.word codes_of.BadReturn rest))) }
{
    let x = value(me, scopes, &part.value, said)?;
    add_row(
        said,
        is_bad_return(result_type, x.ty()),
        part.word,
        Code::BadReturn,
    )
}

/// Whether a procedure with this result can't give a value of the type.
fn is_bad_return(result_type: &Option<Ty>, ty: TypeRef) -> bool
    ensures { result ≡ is_bad_return (option_map plain_ty result_type.now) (plain_type ty.entry) }
{
    match result_type {
        Some(wanted) => !is_assignable(ty, borrowed(wanted)),
        None => true,
    }
}
