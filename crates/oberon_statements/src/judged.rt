ghost use Rattle.std.specs.Prelude.{◌≡◌, false, not, List, [], IfOk, OnOk};
ghost use Rattle.ob_text.specs.declared.code.Code.TheVariants as codes_of;
ghost use Rattle.oberon_tree.specs.FirstSpans.{first_of_expr};
ghost use Rattle.oberon_tree.specs.Memory.{expr_tree, labels_tree};
ghost use Rattle.oberon_rules.specs.Scopes.{row};
ghost use Rattle.oberon_rules.specs.Expressions.{expr_is, ty_of};
ghost use Rattle.oberon_rules.specs.ExpressionRules.{value_says};
ghost use Rattle.oberon_rules.specs.Statements.{CaseKind as Kind, Interval as Labelled, case_kind, is_case_type, interval_of, is_empty_interval, is_bad_label, label_rows, with_interval, label_says, label_behind, label_list, labels_say, labels_behind};
ghost use Rattle.oberon_infer.specs.Memory.{plain_scopes, plain_type};
ghost use Rattle.oberon_infer.specs.Adds.{Adds};
ghost use Rattle.oberon_statements.specs.Labels.{plain_kind, plain_meant, plain_interval_option, is_met, Joins, Knows, Judges};

use crate::interval::{CaseKind, Interval, interval_of, is_bad_label};
use crate::label::{Meant, label_value, upper_value};
use case_labels::Numbers;
use ob_text::{Code, Name, NoMemory, Span};
use oberon_infer::{Said, Scopes, TypeRef, add_broken, add_row, value};
use oberon_tree::{Expr, Label, Labels};
use std::alloc::Global;

/// The labels of a CASE so far.
#[derive(Drop)]
pub struct CaseLabels {
    kind: CaseKind,
    wholes: Numbers,
    chars: Numbers,
}

/// What is said of the value of a CASE, and no label yet (The Programming Language Oberon-07, section 9.5).
pub fn case_value<'a>(
    alloc: Global,
    me: &Name,
    scopes: &Scopes<'a>,
    e: &'a Expr,
    said: &mut Vec<Said<'a>>,
) -> Result<CaseLabels, NoMemory>
    ensures knows { IfOk result (λ labels. Knows labels (case_kind (ty_of (expr_is me.now (plain_scopes scopes.now) (expr_tree e.now)))) []) }
    ensures says { OnOk result (Adds said.old.items said.new.items (λ rest. value_says me.now (plain_scopes scopes.now) (expr_tree e.now) (row (not (is_case_type (ty_of (expr_is me.now (plain_scopes scopes.now) (expr_tree e.now))))) (first_of_expr (expr_tree e.now)) codes_of.BadOperand rest))) }
{
    let x = value(me, scopes, e, said)?;
    let ty = x.ty();
    add_row(said, !is_case_type(ty), e.first_span(), Code::BadOperand)?;
    Ok(no_labels(alloc, ty))
}

fn is_case_type(ty: TypeRef) -> bool
    ensures { result ≡ is_case_type (plain_type ty.entry) }
{
    match ty {
        TypeRef::Unknown => true,
        TypeRef::Integer => true,
        TypeRef::Byte => true,
        TypeRef::Char => true,
        _ => false,
    }
}

/// No label of a CASE over a value of the type.
fn no_labels(alloc: Global, ty: TypeRef) -> CaseLabels
    ensures { Knows result (case_kind (plain_type ty.entry)) [] }
{
    CaseLabels {
        kind: case_kind(ty),
        wholes: Numbers::new(alloc),
        chars: Numbers::new(alloc),
    }
}

fn case_kind(ty: TypeRef) -> CaseKind
    ensures { plain_kind result ≡ case_kind (plain_type ty.entry) }
{
    match ty {
        TypeRef::Integer => CaseKind::Whole,
        TypeRef::Byte => CaseKind::Whole,
        TypeRef::Char => CaseKind::Char,
        _ => CaseKind::Any,
    }
}

/// What is said of labels, by those before them, and these with them.
pub fn judge_labels<'a>(
    scopes: &Scopes<'a>,
    labels: &mut CaseLabels,
    given: &'a Labels,
    said: &mut Vec<Said<'a>>,
) -> Result<(), NoMemory>
    ensures { OnOk result ((k : Kind) (earlier : List Labelled) → Knows labels.old k earlier → Judges said.old.items said.new.items labels.new k (labels_say (plain_scopes scopes.now) k earlier (label_list (labels_tree given.now))) (labels_behind (plain_scopes scopes.now) k earlier (label_list (labels_tree given.now)))) }
{
    judge_label(scopes, labels, &given.first, said)?;
    for next in &given.rest {
        judge_label(scopes, labels, &next.label, said)?;
    }
    Ok(())
}

/// The same of one label.
fn judge_label<'a>(
    scopes: &Scopes<'a>,
    labels: &mut CaseLabels,
    given: &'a Label,
    said: &mut Vec<Said<'a>>,
) -> Result<(), NoMemory>
    ensures { OnOk result ((k : Kind) (earlier : List Labelled) → Knows labels.old k earlier → Judges said.old.items said.new.items labels.new k (label_says (plain_scopes scopes.now) k earlier given.now) (label_behind (plain_scopes scopes.now) k earlier given.now)) }
{
    let low = label_value(scopes, &given.first, said)?;
    let high = upper_value(scopes, low, &given.upper, said)?;
    judge(labels, low, high, given.first_span(), said)
}

/// The same of a label with these ends.
fn judge(
    labels: &mut CaseLabels,
    low: Meant,
    high: Meant,
    place: Span,
    said: &mut Vec<Said>,
) -> Result<(), NoMemory>
    ensures { OnOk result ((k : Kind) (earlier : List Labelled) → Knows labels.old k earlier → Judges said.old.items said.new.items labels.new k (label_rows (is_bad_label k (plain_meant low) (plain_meant high)) earlier (interval_of (plain_meant low) (plain_meant high)) place) (with_interval (is_bad_label k (plain_meant low) (plain_meant high)) (interval_of (plain_meant low) (plain_meant high)) earlier)) }
{
    let interval = interval_of(low, high);
    if is_bad_label(labels.kind, low, high, interval) {
        add_broken(said, place, Code::BadCase)
    } else {
        let twice = add_interval(labels, interval)?;
        add_row(said, twice, place, Code::LabelTwice)
    }
}

/// Adds what a label stands for, and says whether some of it was there.
fn add_interval(labels: &mut CaseLabels, interval: Option<Interval>) -> Result<bool, NoMemory>
    requires { is_empty_interval (plain_interval_option interval) ≡ false }
    ensures kind { OnOk result (labels.new.kind ≡ labels.old.kind) }
    ensures twice { IfOk result (λ twice. twice ≡ is_met labels.old (plain_interval_option interval)) }
    ensures adds { OnOk result (Joins labels.old labels.new (plain_interval_option interval)) }
{
    match interval {
        None => Ok(false),
        Some(Interval::Whole(low, high)) => labels.wholes.add(low, high),
        Some(Interval::Char(low, high)) => labels.chars.add(i32::from(low), i32::from(high)),
    }
}
