ghost use Rattle.std.specs.Prelude.{◌≡◌, map, None, IfOk, OnOk};
ghost use Rattle.std.specs.Option.{option_map};
ghost use Rattle.oberon_tree.specs.Memory.{procedure_tree, procedure_item_tree, formals_tree, body_tree, return_tree};
ghost use Rattle.oberon_types.specs.Memory.{plain_ty, plain_signature};
ghost use Rattle.oberon_rules.specs.Declarations.{is_exported, declare_new, new_says};
ghost use Rattle.oberon_rules.specs.Procedures.{head_behind, head_says, signature_is, entered, with_globals, procedure_behind, procedure_says, procedures_behind, procedures_say, body_says, return_says, end_row};
ghost use Rattle.oberon_rules.specs.Scopes.{procedure_meaning};
ghost use Rattle.oberon_infer.specs.Memory.{plain_scopes};
ghost use Rattle.oberon_infer.specs.Adds.{Adds};
ghost use Rattle.oberon_procedures.specs.Levels.{IsOutside, outside};

use ob_text::{Code, Name, NoMemory};
use oberon_declare::{declare_new, heading, local_constants, local_variables};
use oberon_infer::{Meaning, Said, Scope, Scopes, add_row};
use oberon_statements::{body, returns};
use oberon_tree::{Ident, IdentDef, Procedure, ProcedureItem};
use oberon_types::{Signature, Ty};
use std::alloc::Global;

/// Declares the procedures of a module, and says what is broken in their headings, declarations, statements and RETURN
/// (The Programming Language Oberon-07, section 10).
pub fn procedures<'a>(
    alloc: Global,
    me: &Name,
    scopes: &mut Scopes<'a>,
    items: &'a [ProcedureItem],
    said: &mut Vec<Said<'a>>,
) -> Result<(), NoMemory>
    requires { IsOutside (plain_scopes scopes.old) }
    ensures behind { OnOk result (plain_scopes scopes.new ≡ procedures_behind me.now (plain_scopes scopes.old) (map procedure_item_tree items.now)) }
    ensures says { OnOk result (Adds said.old.items said.new.items (procedures_say me.now (plain_scopes scopes.old) (map procedure_item_tree items.now))) }
{
    for item in items {
        procedure(alloc, me, scopes, &item.procedure, said)?;
    }
    Ok(())
}

fn procedure<'a>(
    alloc: Global,
    me: &Name,
    scopes: &mut Scopes<'a>,
    tree: &'a Procedure,
    said: &mut Vec<Said<'a>>,
) -> Result<(), NoMemory>
    requires { IsOutside (plain_scopes scopes.old) }
    ensures behind { OnOk result (plain_scopes scopes.new ≡ procedure_behind me.now (plain_scopes scopes.old) (procedure_tree tree.now)) }
    ensures says { OnOk result (Adds said.old.items said.new.items (procedure_says me.now (plain_scopes scopes.old) (procedure_tree tree.now))) }
    ensures outside { OnOk result (IsOutside (plain_scopes scopes.new)) }
{
    let signature = enter(alloc, me, scopes, tree, said)?;
    let result_type = copied(&signature.result_type)?;
    declare_procedure(alloc, scopes, &tree.name, signature, said)?;
    local_constants(alloc, me, scopes, &tree.locals.constants, said)?;
    local_variables(alloc, me, scopes, &tree.locals.variables, said)?;
    work(alloc, me, scopes, &result_type, tree, said)?;
    end_name(&tree.name.name, &tree.end_name, said)?;
    leave(scopes);
    Ok(())
}

/// What a procedure does: its statements and its RETURN, for a result of this type.
fn work<'a>(
    alloc: Global,
    me: &Name,
    scopes: &Scopes<'a>,
    result_type: &Option<Ty>,
    tree: &'a Procedure,
    said: &mut Vec<Said<'a>>,
) -> Result<(), NoMemory>
    ensures { OnOk result (Adds said.old.items said.new.items (λ rest. body_says me.now (plain_scopes scopes.now) (option_map body_tree tree.now.body) (return_says me.now (plain_scopes scopes.now) (option_map plain_ty result_type.now) (option_map return_tree tree.now.returns) tree.now.end_name rest))) }
{
    body(alloc, me, scopes, &tree.body, said)?;
    returns(me, scopes, result_type, &tree.returns, &tree.end_name, said)
}

fn copied(ty: &Option<Ty>) -> Result<Option<Ty>, NoMemory>
    ensures { IfOk result (λ copy. option_map plain_ty copy ≡ option_map plain_ty ty.now) }
{
    match ty {
        Some(ty) => Ok(Some(ty.copy()?)),
        None => Ok(None),
    }
}

/// Goes behind the heading of a procedure, into its scope.
fn enter<'a>(
    alloc: Global,
    me: &Name,
    scopes: &mut Scopes<'a>,
    tree: &'a Procedure,
    said: &mut Vec<Said<'a>>,
) -> Result<Signature, NoMemory>
    ensures is { IfOk result (λ signature. plain_signature signature ≡ signature_is me.now (entered (plain_scopes scopes.old) tree.now.name.name.name) (option_map formals_tree tree.now.formals)) }
    ensures behind { OnOk result (plain_scopes scopes.new ≡ head_behind me.now (entered (plain_scopes scopes.old) tree.now.name.name.name) (option_map formals_tree tree.now.formals)) }
    ensures says { OnOk result (Adds said.old.items said.new.items (head_says me.now (entered (plain_scopes scopes.old) tree.now.name.name.name) (option_map formals_tree tree.now.formals))) }
{
    scopes.procedure = Some(&tree.name.name.name);
    scopes.locals = Some(Scope::new(alloc));
    heading(alloc, me, scopes, &tree.formals, said)
}

/// Declares a procedure in the module's scope, and stays in its own.
fn declare_procedure<'a>(
    alloc: Global,
    scopes: &mut Scopes<'a>,
    at: &'a IdentDef,
    signature: Signature,
    said: &mut Vec<Said<'a>>,
) -> Result<(), NoMemory>
    ensures behind { OnOk result (plain_scopes scopes.new ≡ with_globals (plain_scopes scopes.old) (declare_new (outside (plain_scopes scopes.old)) at.now.name (is_exported at.now) (procedure_meaning (plain_signature signature)))) }
    ensures says { OnOk result (Adds said.old.items said.new.items (new_says (outside (plain_scopes scopes.old)) at.now.name)) }
{
    let procedure = scopes.procedure.take();
    let locals = scopes.locals.take();
    let meaning = Meaning::Procedure(signature);
    declare_new(alloc, scopes, &at.name, at.export.is_some(), meaning, said)?;
    scopes.procedure = procedure;
    scopes.locals = locals;
    Ok(())
}

/// Goes back to the module's scope.
fn leave(scopes: &mut Scopes)
    ensures behind { plain_scopes scopes.new ≡ outside (plain_scopes scopes.old) }
    ensures outside { IsOutside (plain_scopes scopes.new) }
{
    scopes.procedure = None;
    scopes.locals = None;
}

/// Says where the name behind END is another one.
pub fn end_name<'a>(name: &Ident, end: &Ident, said: &mut Vec<Said<'a>>) -> Result<(), NoMemory>
    ensures { OnOk result (Adds said.old.items said.new.items (end_row name.now end.now)) }
{
    add_row(said, name.name != end.name, end.span, Code::EndName)
}
