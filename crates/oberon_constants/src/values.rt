ghost use Rattle.std.specs.Prelude.{◌≡◌, IfOk, OnOk};
ghost use Rattle.oberon_tree.specs.Memory.{expr_tree};
ghost use Rattle.oberon_types.specs.Sizes.{is_length};
ghost use Rattle.oberon_rules.specs.TypeRules.{constant_is, constant_says, value_folded, fold_row, length_meant, is_bad_length, length_says};
ghost use Rattle.oberon_infer.specs.Memory.{plain_scopes};
ghost use Rattle.oberon_infer.specs.Adds.{Adds};
ghost use Rattle.oberon_constants.specs.Foldings.{outcome_of};

use crate::folding::{Folding, fold_expr};
use ob_text::{Code, Name, NoMemory, Span};
use oberon_infer::{Said, Scopes, add_row, value};
use oberon_tree::Expr;
use oberon_types::Value;
use std::alloc::Global;

/// The most elements that an array may have.
const LENGTH_LIMIT: u32 = 1_048_576;

/// The value of a constant expression, and what is said of it (The Programming Language Oberon-07, section 5). None
/// stands for one that breaks a rule, or has a part that is unknown. `me` is the stem of the module whose text this
/// is.
pub fn constant<'a>(
    alloc: Global,
    me: &Name,
    scopes: &Scopes<'a>,
    e: &'a Expr,
    said: &mut Vec<Said<'a>>,
) -> Result<Option<Value>, NoMemory>
    ensures is { IfOk result (λ v. v ≡ constant_is me.now (plain_scopes scopes.now) (expr_tree e.now)) }
    ensures says { OnOk result (Adds said.old.items said.new.items (constant_says me.now (plain_scopes scopes.now) (expr_tree e.now))) }
{
    let x = value(me, scopes, e, said)?;
    if x.is_unknown() {
        return Ok(None);
    }
    let folding = fold_expr(alloc, scopes, e)?;
    outcome(folding, e.span(), said)
}

/// The value of what is folded, or why it has none.
fn outcome<'a>(
    folding: Folding,
    place: Span,
    said: &mut Vec<Said<'a>>,
) -> Result<Option<Value>, NoMemory>
    ensures is { IfOk result (λ v. v ≡ value_folded (outcome_of folding)) }
    ensures says { OnOk result (Adds said.old.items said.new.items (fold_row (outcome_of folding) place)) }
{
    let Folding { built, value } = folding;
    if built {
        add_row(said, value.is_none(), place, Code::ConstantRange)?;
        Ok(value)
    } else {
        add_row(said, true, place, Code::NotConstant)?;
        Ok(None)
    }
}

/// The length of an array, and what is said of it (section 6.2).
pub fn length<'a>(
    alloc: Global,
    me: &Name,
    scopes: &Scopes<'a>,
    e: &'a Expr,
    said: &mut Vec<Said<'a>>,
) -> Result<Option<u32>, NoMemory>
    ensures is { IfOk result (λ n. n ≡ length_meant (constant_is me.now (plain_scopes scopes.now) (expr_tree e.now))) }
    ensures says { OnOk result (Adds said.old.items said.new.items (length_says me.now (plain_scopes scopes.now) (expr_tree e.now))) }
{
    let value = constant(alloc, me, scopes, e, said)?;
    add_row(said, is_bad_length(&value), e.span(), Code::ConstantRange)?;
    Ok(length_meant(&value))
}

fn length_meant(value: &Option<Value>) -> Option<u32>
    ensures { result ≡ length_meant value.now }
{
    match value {
        Some(Value::Integer(x)) => {
            if 0 < *x && x.unsigned_abs() <= LENGTH_LIMIT {
                Some(x.unsigned_abs())
            } else {
                None
            }
        }
        _ => None,
    }
}

fn is_bad_length(value: &Option<Value>) -> bool
    ensures { result ≡ is_bad_length value.now }
{
    match value {
        Some(_) => length_meant(value).is_none(),
        None => false,
    }
}
