ghost use Rattle.std.specs.Prelude.{OnOk};
ghost use Rattle.oberon_tree.specs.Memory.{designator_tree, expr_tree};
ghost use Rattle.oberon_tree.specs.Trees.{assign_statement};
ghost use Rattle.oberon_rules.specs.Statements.{statement_says, target_rows};
ghost use Rattle.oberon_infer.specs.Memory.{plain_scopes, plain_ex, plain_type};
ghost use Rattle.oberon_infer.specs.Adds.{Adds};

use ob_text::{Code, Name, NoMemory, Span};
use oberon_infer::{
    Ex, Said, Scopes, TypeRef, add_broken, add_row, designator, is_assignable, value,
};
use oberon_tree::Assignment;

/// What is said of an assignment (The Programming Language Oberon-07, section 9.1).
pub fn assignment<'a>(
    me: &Name,
    scopes: &Scopes<'a>,
    given: &'a Assignment,
    said: &mut Vec<Said<'a>>,
) -> Result<(), NoMemory>
    ensures { OnOk result (Adds said.old.items said.new.items (statement_says me.now (plain_scopes scopes.now) (assign_statement (designator_tree given.now.designator) given.now.becomes (expr_tree given.now.value)))) }
{
    let x = designator(me, scopes, &given.designator, said)?;
    let y = value(me, scopes, &given.value, said)?;
    let place = given.designator.first_span();
    add_target_rows(x, y.ty(), place, given.value.first_span(), said)
}

/// Says what is broken where a value of the type, which begins at `at`, goes to what begins at `place`.
fn add_target_rows(
    x: Ex,
    ty: TypeRef,
    place: Span,
    at: Span,
    said: &mut Vec<Said>,
) -> Result<(), NoMemory>
    ensures { OnOk result (Adds said.old.items said.new.items (target_rows (plain_ex x.entry) (plain_type ty.entry) place at)) }
{
    match x {
        Ex::Nothing => Ok(()),
        Ex::Variable {
            ty: target,
            read_only,
            ..
        } => {
            add_row(said, read_only, place, Code::ReadOnly)?;
            add_row(said, !is_assignable(ty, target), at, Code::NotAssignable)
        }
        Ex::Value(_) => add_broken(said, place, Code::NotVariable),
        Ex::Type(_) => add_broken(said, place, Code::NotVariable),
        Ex::Module(_) => add_broken(said, place, Code::NotVariable),
        Ex::Procedure(_) => add_broken(said, place, Code::NotVariable),
        Ex::Word(_) => add_broken(said, place, Code::NotVariable),
        Ex::Call => add_broken(said, place, Code::NotVariable),
    }
}
