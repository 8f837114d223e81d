ghost use Rattle.std.specs.Prelude.{OnOk};
ghost use Rattle.oberon_tree.specs.Memory.{expr_tree};
ghost use Rattle.oberon_rules.specs.Statements.{condition_says, bound_says};
ghost use Rattle.oberon_infer.specs.Memory.{plain_scopes};
ghost use Rattle.oberon_infer.specs.Adds.{Adds};

use ob_text::{Code, Name, NoMemory};
use oberon_infer::{Said, Scopes, TypeRef, add_row, add_whole_row, are_same, value};
use oberon_tree::Expr;

/// What is said of a condition (The Programming Language Oberon-07, sections 9.4, 9.6 and 9.7).
pub fn condition<'a>(
    me: &Name,
    scopes: &Scopes<'a>,
    e: &'a Expr,
    said: &mut Vec<Said<'a>>,
) -> Result<(), NoMemory>
    ensures { OnOk result (Adds said.old.items said.new.items (condition_says me.now (plain_scopes scopes.now) (expr_tree e.now))) }
{
    let x = value(me, scopes, e, said)?;
    let fits = are_same(x.ty(), TypeRef::Boolean);
    add_row(said, !fits, e.first_span(), Code::NotBoolean)
}

/// What is said of the first and the last value of FOR (section 9.8).
pub fn bound<'a>(
    me: &Name,
    scopes: &Scopes<'a>,
    e: &'a Expr,
    said: &mut Vec<Said<'a>>,
) -> Result<(), NoMemory>
    ensures { OnOk result (Adds said.old.items said.new.items (bound_says me.now (plain_scopes scopes.now) (expr_tree e.now))) }
{
    let x = value(me, scopes, e, said)?;
    add_whole_row(x, e.first_span(), said)
}
