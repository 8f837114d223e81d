ghost use Rattle.std.specs.Prelude.{◌≡◌, OnOk};
ghost use Rattle.ob_text.specs.declared.code.Code.TheVariants as codes_of;
ghost use Rattle.oberon_tree.specs.Memory.{expr_tree, step_option};
ghost use Rattle.oberon_types.specs.Folding.{fold};
ghost use Rattle.oberon_types.specs.Memory.{plain_ty};
ghost use Rattle.oberon_rules.specs.Constants.{expr_const};
ghost use Rattle.oberon_rules.specs.Expressions.{expr_is, ty_of};
ghost use Rattle.oberon_rules.specs.ExpressionRules.{value_says};
ghost use Rattle.oberon_rules.specs.Scopes.{row};
ghost use Rattle.oberon_rules.specs.Names.{name_is, name_says};
ghost use Rattle.oberon_rules.specs.Statements.{is_bad_control, step_says, step_rows, step_row};
ghost use Rattle.oberon_infer.specs.Memory.{plain_scopes, plain_named};
ghost use Rattle.oberon_infer.specs.Adds.{Adds};
ghost use Rattle.oberon_constants.specs.Foldings.{outcome_of};
ghost use Rattle.oberon_statements.specs.Controls.{is_bad_counter, is_no_step};

use ob_text::{Code, Name, NoMemory, Span};
use oberon_constants::{Folding, fold_expr};
use oberon_infer::{Meaning, Named, Said, Scopes, add_broken, add_row, name, value};
use oberon_tree::{Expr, Ident, Step};
use oberon_types::{Entity, Ty, Value};
use std::alloc::Global;

/// What is said of the variable that FOR counts with (The Programming Language Oberon-07, section 9.8).
pub fn control<'a>(
    scopes: &Scopes<'a>,
    at: &'a Ident,
    said: &mut Vec<Said<'a>>,
) -> Result<(), NoMemory>
    ensures { OnOk result (Adds said.old.items said.new.items (λ rest. name_says (plain_scopes scopes.now) at.now (row (is_bad_control (name_is (plain_scopes scopes.now) at.now.name)) at.now.span codes_of.BadControl rest))) }
{
    let named = name(scopes, at, said)?;
    add_row(said, is_bad_control(&named), at.span, Code::BadControl)
}

fn is_bad_control(named: &Named) -> bool
    ensures { result ≡ is_bad_control (plain_named named.now) }
{
    match named {
        Named::Unknown => false,
        Named::Own(Meaning::Unknown) => false,
        Named::Own(Meaning::Variable { ty, read_only, .. }) => is_bad_counter(ty, *read_only),
        Named::Own(Meaning::Constant(_)) => true,
        Named::Own(Meaning::Type(_)) => true,
        Named::Own(Meaning::Procedure(_)) => true,
        Named::Own(Meaning::Word(_)) => true,
        Named::Own(Meaning::Import(_)) => true,
        Named::Standard(_) => true,
        Named::Outside(_) => true,
    }
}

fn is_bad_counter(ty: &Ty, read_only: bool) -> bool
    ensures { result ≡ is_bad_counter (plain_ty ty.now) read_only }
{
    match ty {
        Ty::Integer => read_only,
        Ty::Unknown => read_only,
        _ => true,
    }
}

/// What is said of the step.
pub fn step<'a>(
    alloc: Global,
    me: &Name,
    scopes: &Scopes<'a>,
    given: &'a Option<Step>,
    said: &mut Vec<Said<'a>>,
) -> Result<(), NoMemory>
    ensures { OnOk result (Adds said.old.items said.new.items (step_says me.now (plain_scopes scopes.now) (step_option given.now))) }
{
    match given {
        Some(step) => step_value(alloc, me, scopes, &step.value, said),
        None => Ok(()),
    }
}

fn step_value<'a>(
    alloc: Global,
    me: &Name,
    scopes: &Scopes<'a>,
    e: &'a Expr,
    said: &mut Vec<Said<'a>>,
) -> Result<(), NoMemory>
    ensures { OnOk result (Adds said.old.items said.new.items (λ rest. value_says me.now (plain_scopes scopes.now) (expr_tree e.now) (step_rows (ty_of (expr_is me.now (plain_scopes scopes.now) (expr_tree e.now))) (fold (expr_const (plain_scopes scopes.now) (expr_tree e.now))) (expr_tree e.now) rest))) }
{
    let x = value(me, scopes, e, said)?;
    let ty = x.ty();
    if ty.is_unknown() {
        Ok(())
    } else if ty.is_whole() {
        let folding = fold_expr(alloc, scopes, e)?;
        add_step_row(folding, e.span(), said)
    } else {
        add_broken(said, e.first_span(), Code::NotInteger)
    }
}

/// Says what is broken where the step is no constant, out of range, or 0.
fn add_step_row(folding: Folding, place: Span, said: &mut Vec<Said>) -> Result<(), NoMemory>
    ensures { OnOk result (Adds said.old.items said.new.items (step_row (outcome_of folding) place)) }
{
    let Folding { built, value } = folding;
    if built {
        add_row(said, is_no_step(&value), place, Code::ConstantRange)
    } else {
        add_broken(said, place, Code::NotConstant)
    }
}

/// Whether there is no value, or 0.
fn is_no_step(value: &Option<Value>) -> bool
    ensures { result ≡ is_no_step value.now }
{
    match value {
        Some(Value::Integer(x)) => *x == 0,
        Some(_) => false,
        None => true,
    }
}
