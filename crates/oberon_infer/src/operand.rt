ghost use Rattle.std.specs.Prelude.{◌≡◌, Some, OnOk, IfOk};
ghost use Rattle.ob_text.specs.declared.code.Code.TheVariants as codes_of;
ghost use Rattle.oberon_tree.specs.Memory.{simple_tree};
ghost use Rattle.oberon_rules.specs.Scopes.{row};
ghost use Rattle.oberon_rules.specs.Operators.{add_fits, mul_fits, not_fits, relation_fits, is_bad};
ghost use Rattle.oberon_rules.specs.Expressions.{class_of, ty_of, outcome_is, signed_is, is_tested, is_whole};
ghost use Rattle.oberon_rules.specs.ExpressionRules.{value_row, sign_row, unless_type, is_bad_test};
ghost use Rattle.oberon_infer.specs.Memory.{plain_scopes, plain_ex, plain_outcomes, plain_type, plain_type_option};
ghost use Rattle.oberon_infer.specs.Parts.{operand_rows, related_is, related_says, end_rows};
ghost use Rattle.oberon_infer.specs.Adds.{Adds};

use crate::bare::bare_type;
use crate::ex::{Ex, outcome_is};
use crate::operator::{Outcome, add_fits, mul_fits, not_fits, relation_fits, sign_fits};
use crate::rows::{add_value_row, add_whole_row};
use crate::said::{Said, add_row};
use crate::scope::Scopes;
use crate::type_ref::{TypeRef, is_or_extends};
use ob_text::{Code, NoMemory, Span};
use oberon_tree::{AddOperator, MulOperator, Relator, Signed, Simple};

/// Says what is broken at the first operand, where it isn't alone.
pub fn add_operand_rows(
    alone: bool,
    x: Ex,
    span: Span,
    said: &mut Vec<Said>,
) -> Result<(), NoMemory>
    ensures { OnOk result (Adds said.old.items said.new.items (operand_rows alone (plain_ex x.entry) span)) }
{
    if !alone {
        add_value_row(x, span, said)?;
    }
    Ok(())
}

/// What a term is behind its sign, and what is said of it (The Programming Language Oberon-07, section 8.2).
pub fn signed<'b>(sign: Option<Signed>, x: Ex<'b>, said: &mut Vec<Said>) -> Result<Ex<'b>, NoMemory>
    ensures is { IfOk result (λ y. plain_ex y ≡ signed_is sign (plain_ex x.entry)) }
    ensures says { OnOk result (Adds said.old.items said.new.items (sign_row sign (plain_ex x.entry))) }
{
    match sign {
        Some(sign) => judged(sign_fits(sign.sign, x.class()), sign.span, said),
        None => Ok(x),
    }
}

/// What an operator makes of operands that fit so, and what is said of it.
fn judged<'b>(
    outcome: Option<Outcome>,
    span: Span,
    said: &mut Vec<Said>,
) -> Result<Ex<'b>, NoMemory>
    ensures is { IfOk result (λ y. plain_ex y ≡ outcome_is (plain_outcomes outcome)) }
    ensures says { OnOk result (Adds said.old.items said.new.items (row (is_bad (plain_outcomes outcome)) span codes_of.BadOperand)) }
{
    add_row(said, outcome.is_none(), span, Code::BadOperand)?;
    Ok(outcome_is(outcome))
}

/// What an addition makes of both sides, and what is said behind the right one, which begins at `at`.
pub fn added<'b>(
    x: Ex,
    operator: AddOperator,
    span: Span,
    y: Ex,
    at: Span,
    said: &mut Vec<Said>,
) -> Result<Ex<'b>, NoMemory>
    ensures is { IfOk result (λ z. plain_ex z ≡ outcome_is (add_fits operator (class_of (plain_ex x.entry)) (class_of (plain_ex y.entry)))) }
    ensures says { OnOk result (Adds said.old.items said.new.items (λ rest. value_row (plain_ex y.entry) at (row (is_bad (add_fits operator (class_of (plain_ex x.entry)) (class_of (plain_ex y.entry)))) span codes_of.BadOperand rest))) }
{
    add_value_row(y, at, said)?;
    judged(add_fits(operator, x.class(), y.class()), span, said)
}

/// What a multiplication makes of both sides, and what is said behind the right one, which begins at `at`.
pub fn multiplied<'b>(
    x: Ex,
    operator: MulOperator,
    span: Span,
    y: Ex,
    at: Span,
    said: &mut Vec<Said>,
) -> Result<Ex<'b>, NoMemory>
    ensures is { IfOk result (λ z. plain_ex z ≡ outcome_is (mul_fits operator (class_of (plain_ex x.entry)) (class_of (plain_ex y.entry)))) }
    ensures says { OnOk result (Adds said.old.items said.new.items (λ rest. value_row (plain_ex y.entry) at (row (is_bad (mul_fits operator (class_of (plain_ex x.entry)) (class_of (plain_ex y.entry)))) span codes_of.BadOperand rest))) }
{
    add_value_row(y, at, said)?;
    judged(mul_fits(operator, x.class(), y.class()), span, said)
}

/// What `~` makes of an operand that begins at `at`, and what is said behind it.
pub fn negated<'b>(x: Ex, tilde: Span, at: Span, said: &mut Vec<Said>) -> Result<Ex<'b>, NoMemory>
    ensures is { IfOk result (λ y. plain_ex y ≡ outcome_is (not_fits (class_of (plain_ex x.entry)))) }
    ensures says { OnOk result (Adds said.old.items said.new.items (λ rest. value_row (plain_ex x.entry) at (row (is_bad (not_fits (class_of (plain_ex x.entry)))) tilde codes_of.BadOperand rest))) }
{
    add_value_row(x, at, said)?;
    judged(not_fits(x.class()), tilde, said)
}

/// What a relation makes of both sides, and what is said behind the right one.
pub fn related<'b>(
    scopes: &'b Scopes,
    x: Ex<'b>,
    relator: Relator,
    span: Span,
    right: &Simple,
    y: Ex<'b>,
    said: &mut Vec<Said>,
) -> Result<Ex<'b>, NoMemory>
    ensures is { IfOk result (λ z. plain_ex z ≡ related_is (plain_scopes scopes.now) (plain_ex x.entry) relator (simple_tree right.now) (plain_ex y.entry)) }
    ensures says { OnOk result (Adds said.old.items said.new.items (related_says (plain_scopes scopes.now) (plain_ex x.entry) relator span (simple_tree right.now) (plain_ex y.entry))) }
{
    match relator {
        Relator::Is => tested(
            x,
            bare_type(scopes, right),
            span,
            y,
            right.first_span(),
            said,
        ),
        Relator::Equal => compared(x, relator, span, y, right.first_span(), said),
        Relator::Unequal => compared(x, relator, span, y, right.first_span(), said),
        Relator::Less => compared(x, relator, span, y, right.first_span(), said),
        Relator::LessEqual => compared(x, relator, span, y, right.first_span(), said),
        Relator::Greater => compared(x, relator, span, y, right.first_span(), said),
        Relator::GreaterEqual => compared(x, relator, span, y, right.first_span(), said),
        Relator::In => compared(x, relator, span, y, right.first_span(), said),
    }
}

fn compared<'b>(
    x: Ex,
    relator: Relator,
    span: Span,
    y: Ex,
    at: Span,
    said: &mut Vec<Said>,
) -> Result<Ex<'b>, NoMemory>
    ensures is { IfOk result (λ z. plain_ex z ≡ outcome_is (relation_fits relator (class_of (plain_ex x.entry)) (class_of (plain_ex y.entry)))) }
    ensures says { OnOk result (Adds said.old.items said.new.items (λ rest. value_row (plain_ex y.entry) at (row (is_bad (relation_fits relator (class_of (plain_ex x.entry)) (class_of (plain_ex y.entry)))) span codes_of.BadOperand rest))) }
{
    add_value_row(y, at, said)?;
    judged(relation_fits(relator, x.class(), y.class()), span, said)
}

/// What a type test makes, and what is said of it; `named` is the type that the right side names.
fn tested<'b>(
    x: Ex,
    named: Option<TypeRef>,
    span: Span,
    y: Ex,
    at: Span,
    said: &mut Vec<Said>,
) -> Result<Ex<'b>, NoMemory>
    ensures is { IfOk result (λ z. plain_ex z ≡ outcome_is (is_tested (plain_ex x.entry) (plain_type_option named.entry))) }
    ensures says { OnOk result (Adds said.old.items said.new.items (λ rest. unless_type (plain_type_option named.entry) (plain_ex y.entry) at (row (is_bad_test (plain_ex x.entry) (plain_type_option named.entry) (plain_ex y.entry)) span codes_of.BadOperand rest))) }
{
    match named {
        Some(named) => judged(is_tested(x, named), span, said),
        None => {
            add_value_row(y, at, said)?;
            add_row(
                said,
                !x.is_unknown() && !y.is_unknown(),
                span,
                Code::BadOperand,
            )?;
            Ok(Ex::Nothing)
        }
    }
}

/// What results of a test for a type; None where it doesn't fit.
fn is_tested(x: Ex, named: TypeRef) -> Option<Outcome>
    ensures { plain_outcomes result ≡ is_tested (plain_ex x.entry) (Some (plain_type named.entry)) }
{
    if named.is_unknown() || x.is_unknown() {
        return Some(Outcome::Nothing);
    }
    if x.is_var_parameter() && is_or_extends(named, x.ty()) {
        Some(Outcome::Boolean)
    } else {
        None
    }
}

/// Whether an end of a set's element is a whole number, and what is said of it.
pub fn judged_end(x: Ex, span: Span, said: &mut Vec<Said>) -> Result<bool, NoMemory>
    ensures is { IfOk result (λ w. w ≡ is_whole (ty_of (plain_ex x.entry))) }
    ensures says { OnOk result (Adds said.old.items said.new.items (end_rows (plain_ex x.entry) span)) }
{
    add_value_row(x, span, said)?;
    add_whole_row(x, span, said)?;
    Ok(x.ty().is_whole())
}
