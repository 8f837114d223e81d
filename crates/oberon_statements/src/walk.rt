ghost use Rattle.std.specs.Prelude.{List, OnOk};
ghost use Rattle.oberon_tree.specs.Memory.{statements_tree, statement_tree, if_tree, guarded_tree, elsifs_list, else_option, case_tree, arm_tree, while_tree, repeat_tree, for_tree};
ghost use Rattle.oberon_tree.specs.Trees.{if_statement, case_statement, while_statement, repeat_statement, for_statement};
ghost use Rattle.oberon_rules.specs.Statements.{CaseKind as Kind, Interval as Labelled, statements_say, statement_says, guarded_says, elsifs_say, else_says, arm_says, arm_behind};
ghost use Rattle.oberon_infer.specs.Memory.{plain_scopes};
ghost use Rattle.oberon_infer.specs.Adds.{Adds};
ghost use Rattle.oberon_statements.specs.Labels.{Knows, Judges};

use crate::assigning::assignment;
use crate::calling::call;
use crate::conditions::{bound, condition};
use crate::counting::{control, step};
use crate::judged::{CaseLabels, case_value, judge_labels};
use ob_text::{Name, NoMemory};
use oberon_infer::{Said, Scopes};
use oberon_tree::{Arm, Case, ElsePart, For, Guarded, If, Repeat, Statement, Statements, While};
use std::alloc::Global;

/// What is said of statements (The Programming Language Oberon-07, section 9). `me` is the stem of the module whose
/// text this is.
#[cycle(statement)]
pub fn statements<'a>(
    alloc: Global,
    me: &Name,
    scopes: &Scopes<'a>,
    body: &'a Statements,
    said: &mut Vec<Said<'a>>,
) -> Result<(), NoMemory>
    ensures { OnOk result (Adds said.old.items said.new.items (statements_say me.now (plain_scopes scopes.now) (statements_tree body.now))) }
{
    statement(alloc, me, scopes, &body.first, said)?;
    for next in &body.rest {
        statement(alloc, me, scopes, &next.statement, said)?;
    }
    Ok(())
}

#[cycle(statement)]
fn statement<'a>(
    alloc: Global,
    me: &Name,
    scopes: &Scopes<'a>,
    given: &'a Statement,
    said: &mut Vec<Said<'a>>,
) -> Result<(), NoMemory>
    ensures { OnOk result (Adds said.old.items said.new.items (statement_says me.now (plain_scopes scopes.now) (statement_tree given.now))) }
{
    match given {
        Statement::Empty => Ok(()),
        Statement::Assignment(part) => assignment(me, scopes, part, said),
        Statement::Call(designator) => call(me, scopes, designator, said),
        Statement::If(part) => choice(alloc, me, scopes, part, said),
        Statement::Case(part) => case(alloc, me, scopes, part, said),
        Statement::While(part) => loops(alloc, me, scopes, part, said),
        Statement::Repeat(part) => repeat(alloc, me, scopes, part, said),
        Statement::For(part) => count(alloc, me, scopes, part, said),
    }
}

/// What is said of an IF.
#[cycle(statement)]
fn choice<'a>(
    alloc: Global,
    me: &Name,
    scopes: &Scopes<'a>,
    given: &'a If,
    said: &mut Vec<Said<'a>>,
) -> Result<(), NoMemory>
    ensures { OnOk result (Adds said.old.items said.new.items (statement_says me.now (plain_scopes scopes.now) (if_statement (if_tree given.now)))) }
{
    guarded(alloc, me, scopes, &given.first, said)?;
    elsifs(alloc, me, scopes, given.rest.as_slice(), said)?;
    otherwise(alloc, me, scopes, &given.otherwise, said)
}

/// What is said of a WHILE.
#[cycle(statement)]
fn loops<'a>(
    alloc: Global,
    me: &Name,
    scopes: &Scopes<'a>,
    given: &'a While,
    said: &mut Vec<Said<'a>>,
) -> Result<(), NoMemory>
    ensures { OnOk result (Adds said.old.items said.new.items (statement_says me.now (plain_scopes scopes.now) (while_statement (while_tree given.now)))) }
{
    guarded(alloc, me, scopes, &given.first, said)?;
    elsifs(alloc, me, scopes, given.rest.as_slice(), said)
}

/// What is said of further conditions and the statements under them.
#[cycle(statement)]
fn elsifs<'a>(
    alloc: Global,
    me: &Name,
    scopes: &Scopes<'a>,
    rest: &'a [Guarded],
    said: &mut Vec<Said<'a>>,
) -> Result<(), NoMemory>
    ensures { OnOk result (Adds said.old.items said.new.items (elsifs_say me.now (plain_scopes scopes.now) (elsifs_list rest.now))) }
{
    for next in rest {
        guarded(alloc, me, scopes, next, said)?;
    }
    Ok(())
}

#[cycle(statement)]
fn guarded<'a>(
    alloc: Global,
    me: &Name,
    scopes: &Scopes<'a>,
    given: &'a Guarded,
    said: &mut Vec<Said<'a>>,
) -> Result<(), NoMemory>
    ensures { OnOk result (Adds said.old.items said.new.items (guarded_says me.now (plain_scopes scopes.now) (guarded_tree given.now))) }
{
    condition(me, scopes, &given.condition, said)?;
    statements(alloc, me, scopes, &given.body, said)
}

#[cycle(statement)]
fn otherwise<'a>(
    alloc: Global,
    me: &Name,
    scopes: &Scopes<'a>,
    given: &'a Option<ElsePart>,
    said: &mut Vec<Said<'a>>,
) -> Result<(), NoMemory>
    ensures { OnOk result (Adds said.old.items said.new.items (else_says me.now (plain_scopes scopes.now) (else_option given.now))) }
{
    match given {
        Some(part) => statements(alloc, me, scopes, &part.body, said),
        None => Ok(()),
    }
}

#[cycle(statement)]
fn case<'a>(
    alloc: Global,
    me: &Name,
    scopes: &Scopes<'a>,
    given: &'a Case,
    said: &mut Vec<Said<'a>>,
) -> Result<(), NoMemory>
    ensures { OnOk result (Adds said.old.items said.new.items (statement_says me.now (plain_scopes scopes.now) (case_statement (case_tree given.now)))) }
{
    let mut labels = case_value(alloc, me, scopes, &given.value, said)?;
    arm(alloc, me, scopes, &mut labels, &given.first, said)?;
    for next in &given.rest {
        arm(alloc, me, scopes, &mut labels, &next.arm, said)?;
    }
    Ok(())
}

/// What is said of an arm, by the labels before it, and these with its own.
#[cycle(statement)]
fn arm<'a>(
    alloc: Global,
    me: &Name,
    scopes: &Scopes<'a>,
    labels: &mut CaseLabels,
    given: &'a Arm,
    said: &mut Vec<Said<'a>>,
) -> Result<(), NoMemory>
    ensures { OnOk result ((k : Kind) (earlier : List Labelled) → Knows labels.old k earlier → Judges said.old.items said.new.items labels.new k (arm_says me.now (plain_scopes scopes.now) k earlier (arm_tree given.now)) (arm_behind (plain_scopes scopes.now) k earlier (arm_tree given.now))) }
{
    match given {
        Arm::Empty => Ok(()),
        Arm::Labelled {
            labels: own,
            body,
            ..
        } => {
            judge_labels(scopes, labels, own, said)?;
            statements(alloc, me, scopes, body, said)
        }
    }
}

#[cycle(statement)]
fn repeat<'a>(
    alloc: Global,
    me: &Name,
    scopes: &Scopes<'a>,
    given: &'a Repeat,
    said: &mut Vec<Said<'a>>,
) -> Result<(), NoMemory>
    ensures { OnOk result (Adds said.old.items said.new.items (statement_says me.now (plain_scopes scopes.now) (repeat_statement (repeat_tree given.now)))) }
{
    statements(alloc, me, scopes, &given.body, said)?;
    condition(me, scopes, &given.condition, said)
}

/// What is said of a FOR.
#[cycle(statement)]
fn count<'a>(
    alloc: Global,
    me: &Name,
    scopes: &Scopes<'a>,
    given: &'a For,
    said: &mut Vec<Said<'a>>,
) -> Result<(), NoMemory>
    ensures { OnOk result (Adds said.old.items said.new.items (statement_says me.now (plain_scopes scopes.now) (for_statement (for_tree given.now)))) }
{
    control(scopes, &given.variable, said)?;
    bound(me, scopes, &given.from, said)?;
    bound(me, scopes, &given.limit, said)?;
    step(alloc, me, scopes, &given.step, said)?;
    statements(alloc, me, scopes, &given.body, said)
}
