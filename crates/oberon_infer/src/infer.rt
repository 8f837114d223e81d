ghost use Rattle.std.specs.Prelude.{◌≡◌, OnOk, IfOk};
ghost use Rattle.oberon_tree.specs.Memory.{expr_tree, relation_tree, simple_tree, term_tree, factor_tree, set_tree, element_tree, designator_tree, selector_tree, exprs_tree};
ghost use Rattle.oberon_rules.specs.Expressions.{expr_is, relation_is, simple_is, term_is, factor_is, designator_is, selected, indexed_type, exprs_are};
ghost use Rattle.oberon_rules.specs.ExpressionRules.{expr_says, value_says, relation_says, simple_says, term_says, factor_says, designator_says, selector_says, indices_say, exprs_say, element_says};
ghost use Rattle.oberon_infer.specs.Memory.{plain_scopes, plain_ex, plain_type, plain_type_option, plain_expected};
ghost use Rattle.oberon_infer.specs.Given.{plain_given, none_given, given_behind};
ghost use Rattle.oberon_infer.specs.Sets.{is_whole_set, set_says, is_whole_element};
ghost use Rattle.oberon_infer.specs.Adds.{Adds};

use crate::argument::{Expected, add_argument_rows, argument_count, expectation, or_nothing};
use crate::bare::{has_multipliers, is_alone};
use crate::ex::{Ex, ex_of, value_if};
use crate::names::name;
use crate::operand::{add_operand_rows, added, judged_end, multiplied, negated, related, signed};
use crate::rows::add_value_row;
use crate::said::{Said, add_row};
use crate::scope::Scopes;
use crate::selector::{
    add_call_rows, add_index_rows, called_with, guard_of, indexed, indexed_part, or_unknown,
    select_member,
};
use crate::type_ref::TypeRef;
use crate::word::Given;
use ob_text::{Code, Name, NoMemory, Span};
use oberon_tree::{
    Designator, Element, Expr, Exprs, Factor, Relation, Selector, Set, Simple, Term,
};

/// What an expression is where a type may be meant, and what is said of it (The Programming Language Oberon-07,
/// section 8). `me` is the stem of the module whose text this is.
#[cycle(expression)]
pub fn expression<'b, 'a>(
    me: &Name,
    scopes: &'b Scopes<'a>,
    e: &'a Expr,
    said: &mut Vec<Said<'a>>,
) -> Result<Ex<'b>, NoMemory>
    ensures is { IfOk result (λ x. plain_ex x ≡ expr_is me.now (plain_scopes scopes.now) (expr_tree e.now)) }
    ensures says { OnOk result (Adds said.old.items said.new.items (expr_says me.now (plain_scopes scopes.now) (expr_tree e.now))) }
{
    let x = simple(me, scopes, &e.left, said)?;
    match &e.relation {
        Some(part) => {
            add_value_row(x, e.left.first_span(), said)?;
            relation(me, scopes, x, part, said)
        }
        None => Ok(x),
    }
}

/// What a relation makes of its left side.
#[cycle(expression)]
fn relation<'b, 'a>(
    me: &Name,
    scopes: &'b Scopes<'a>,
    x: Ex<'b>,
    part: &'a Relation,
    said: &mut Vec<Said<'a>>,
) -> Result<Ex<'b>, NoMemory>
    ensures is { IfOk result (λ y. plain_ex y ≡ relation_is me.now (plain_scopes scopes.now) (plain_ex x.entry) (relation_tree part.now)) }
    ensures says { OnOk result (Adds said.old.items said.new.items (relation_says me.now (plain_scopes scopes.now) (plain_ex x.entry) (relation_tree part.now))) }
{
    let y = simple(me, scopes, &part.right, said)?;
    related(scopes, x, part.operator, part.span, &part.right, y, said)
}

/// What an expression is where a value is wanted, and what is said of it.
pub fn value<'b, 'a>(
    me: &Name,
    scopes: &'b Scopes<'a>,
    e: &'a Expr,
    said: &mut Vec<Said<'a>>,
) -> Result<Ex<'b>, NoMemory>
    ensures is { IfOk result (λ x. plain_ex x ≡ expr_is me.now (plain_scopes scopes.now) (expr_tree e.now)) }
    ensures says { OnOk result (Adds said.old.items said.new.items (value_says me.now (plain_scopes scopes.now) (expr_tree e.now))) }
{
    let x = expression(me, scopes, e, said)?;
    add_value_row(x, e.first_span(), said)?;
    Ok(x)
}

#[cycle(expression)]
fn simple<'b, 'a>(
    me: &Name,
    scopes: &'b Scopes<'a>,
    simple: &'a Simple,
    said: &mut Vec<Said<'a>>,
) -> Result<Ex<'b>, NoMemory>
    ensures is { IfOk result (λ x. plain_ex x ≡ simple_is me.now (plain_scopes scopes.now) (simple_tree simple.now)) }
    ensures says { OnOk result (Adds said.old.items said.new.items (simple_says me.now (plain_scopes scopes.now) (simple_tree simple.now))) }
{
    let first = term(me, scopes, &simple.first, said)?;
    let alone = is_alone(simple.sign, simple.rest.as_slice());
    add_operand_rows(alone, first, simple.first.first_span(), said)?;
    let mut x = signed(simple.sign, first, said)?;
    for addend in &simple.rest {
        let y = term(me, scopes, &addend.term, said)?;
        x = added(
            x,
            addend.operator,
            addend.span,
            y,
            addend.term.first_span(),
            said,
        )?;
    }
    Ok(x)
}

#[cycle(expression)]
fn term<'b, 'a>(
    me: &Name,
    scopes: &'b Scopes<'a>,
    term: &'a Term,
    said: &mut Vec<Said<'a>>,
) -> Result<Ex<'b>, NoMemory>
    ensures is { IfOk result (λ x. plain_ex x ≡ term_is me.now (plain_scopes scopes.now) (term_tree term.now)) }
    ensures says { OnOk result (Adds said.old.items said.new.items (term_says me.now (plain_scopes scopes.now) (term_tree term.now))) }
{
    let mut x = factor(me, scopes, &term.first, said)?;
    let alone = !has_multipliers(term.rest.as_slice());
    add_operand_rows(alone, x, term.first.first_span(), said)?;
    for multiplier in &term.rest {
        let y = factor(me, scopes, &multiplier.factor, said)?;
        x = multiplied(
            x,
            multiplier.operator,
            multiplier.span,
            y,
            multiplier.factor.first_span(),
            said,
        )?;
    }
    Ok(x)
}

#[cycle(expression)]
fn factor<'b, 'a>(
    me: &Name,
    scopes: &'b Scopes<'a>,
    factor: &'a Factor,
    said: &mut Vec<Said<'a>>,
) -> Result<Ex<'b>, NoMemory>
    ensures is { IfOk result (λ x. plain_ex x ≡ factor_is me.now (plain_scopes scopes.now) (factor_tree factor.now)) }
    ensures says { OnOk result (Adds said.old.items said.new.items (factor_says me.now (plain_scopes scopes.now) (factor_tree factor.now))) }
{
    match factor {
        Factor::Integer(_) => Ok(Ex::Value(TypeRef::Integer)),
        Factor::Str(string) => Ok(Ex::Value(TypeRef::Str(string.value.as_slice().len()))),
        Factor::True(_) => Ok(Ex::Value(TypeRef::Boolean)),
        Factor::False(_) => Ok(Ex::Value(TypeRef::Boolean)),
        Factor::Set(set) => {
            let whole = elements(me, scopes, set, said)?;
            Ok(value_if(whole, TypeRef::Set))
        }
        Factor::Designator(designator) => self::designator(me, scopes, designator, said),
        Factor::Group { inner, .. } => {
            let x = expression(me, scopes, inner, said)?;
            add_value_row(x, inner.first_span(), said)?;
            Ok(Ex::Value(x.ty()))
        }
        Factor::Not {
            tilde,
            factor: operand,
        } => {
            let x = self::factor(me, scopes, operand, said)?;
            negated(x, *tilde, operand.first_span(), said)
        }
    }
}

/// Whether all ends of the elements are whole numbers, and what is said of them.
#[cycle(expression)]
fn elements<'a>(
    me: &Name,
    scopes: &Scopes<'a>,
    set: &'a Set,
    said: &mut Vec<Said<'a>>,
) -> Result<bool, NoMemory>
    ensures is { IfOk result (λ w. w ≡ is_whole_set me.now (plain_scopes scopes.now) (set_tree set.now)) }
    ensures says { OnOk result (Adds said.old.items said.new.items (set_says me.now (plain_scopes scopes.now) (set_tree set.now))) }
{
    match &set.elements {
        Some(elements) => {
            let mut whole = element(me, scopes, &elements.first, said)?;
            for next in &elements.rest {
                let fits = element(me, scopes, &next.element, said)?;
                whole = whole && fits;
            }
            Ok(whole)
        }
        None => Ok(true),
    }
}

#[cycle(expression)]
fn element<'a>(
    me: &Name,
    scopes: &Scopes<'a>,
    element: &'a Element,
    said: &mut Vec<Said<'a>>,
) -> Result<bool, NoMemory>
    ensures is { IfOk result (λ w. w ≡ is_whole_element me.now (plain_scopes scopes.now) (element_tree element.now)) }
    ensures says { OnOk result (Adds said.old.items said.new.items (element_says me.now (plain_scopes scopes.now) (element_tree element.now))) }
{
    let x = expression(me, scopes, &element.first, said)?;
    let whole = judged_end(x, element.first.first_span(), said)?;
    match &element.upper {
        Some(upper) => {
            let y = expression(me, scopes, &upper.last, said)?;
            let fits = judged_end(y, upper.last.first_span(), said)?;
            Ok(whole && fits)
        }
        None => Ok(whole),
    }
}

/// What a designator is where a type may be meant, and what is said of it.
#[cycle(expression)]
pub fn designator<'b, 'a>(
    me: &Name,
    scopes: &'b Scopes<'a>,
    designator: &'a Designator,
    said: &mut Vec<Said<'a>>,
) -> Result<Ex<'b>, NoMemory>
    ensures is { IfOk result (λ x. plain_ex x ≡ designator_is me.now (plain_scopes scopes.now) (designator_tree designator.now)) }
    ensures says { OnOk result (Adds said.old.items said.new.items (designator_says me.now (plain_scopes scopes.now) (designator_tree designator.now))) }
{
    let mut x = ex_of(name(scopes, &designator.name, said)?);
    for selector in &designator.selectors {
        x = selection(me, scopes, designator.name.span, x, selector, said)?;
    }
    Ok(x)
}

/// What a selector makes of what stands before it; `at` is the designator's first token.
#[cycle(expression)]
fn selection<'b, 'a>(
    me: &Name,
    scopes: &'b Scopes<'a>,
    at: Span,
    x: Ex<'b>,
    selector: &'a Selector,
    said: &mut Vec<Said<'a>>,
) -> Result<Ex<'b>, NoMemory>
    ensures is { IfOk result (λ y. plain_ex y ≡ selected me.now (plain_scopes scopes.now) (plain_ex x.entry) (selector_tree selector.now)) }
    ensures says { OnOk result (Adds said.old.items said.new.items (selector_says me.now (plain_scopes scopes.now) at (plain_ex x.entry) (selector_tree selector.now))) }
{
    match selector {
        Selector::Field(field) => select_member(me, x, field, said),
        Selector::Index {
            opening,
            indices: exprs,
            ..
        } => {
            let ty = indexed(x);
            add_row(said, ty.is_none(), *opening, Code::BadSelector)?;
            let element = indices(me, scopes, *opening, or_unknown(ty), exprs, said)?;
            Ok(indexed_part(x, element))
        }
        Selector::Call {
            opening,
            arguments: given,
            ..
        } => {
            let guard = guard_of(scopes, x, given);
            let wanted = expectation(x, argument_count(given));
            add_call_rows(at, x, *opening, guard, wanted.is_none(), said)?;
            match given {
                Some(exprs) => {
                    let given = arguments(me, scopes, or_nothing(wanted), exprs, said)?;
                    Ok(called_with(x, guard, given))
                }
                None => Ok(called_with(x, guard, Given::Nothing)),
            }
        }
    }
}

/// The type of the elements behind all indices, and what is said of these.
#[cycle(expression)]
fn indices<'b, 'a>(
    me: &Name,
    scopes: &'b Scopes<'a>,
    bracket: Span,
    ty: TypeRef<'b>,
    exprs: &'a Exprs,
    said: &mut Vec<Said<'a>>,
) -> Result<Option<TypeRef<'b>>, NoMemory>
    ensures is { IfOk result (λ t. plain_type_option t ≡ indexed_type (plain_type ty.entry) (exprs_tree exprs.now)) }
    ensures says { OnOk result (Adds said.old.items said.new.items (indices_say me.now (plain_scopes scopes.now) bracket (plain_type ty.entry) (exprs_tree exprs.now))) }
{
    let x = expression(me, scopes, &exprs.first, said)?;
    let mut element = ty.element();
    add_index_rows(element, ty, x, exprs.first.first_span(), bracket, said)?;
    for next in &exprs.rest {
        let x = expression(me, scopes, &next.expr, said)?;
        let array = or_unknown(element);
        element = array.element();
        add_index_rows(element, array, x, next.expr.first_span(), bracket, said)?;
    }
    Ok(element)
}

/// What the arguments are, and what is said of them.
#[cycle(expression)]
fn arguments<'b, 'a>(
    me: &Name,
    scopes: &'b Scopes<'a>,
    expected: Expected<'b>,
    exprs: &'a Exprs,
    said: &mut Vec<Said<'a>>,
) -> Result<Given<'b>, NoMemory>
    ensures is { IfOk result (λ g. plain_given g ≡ given_behind none_given (exprs_are me.now (plain_scopes scopes.now) (exprs_tree exprs.now))) }
    ensures says { OnOk result (Adds said.old.items said.new.items (exprs_say me.now (plain_scopes scopes.now) (plain_expected expected.entry) (exprs_tree exprs.now))) }
{
    let x = expression(me, scopes, &exprs.first, said)?;
    add_argument_rows(expected.first(), x, exprs.first.first_span(), said)?;
    let mut given = Given::One(x);
    let mut expected = expected.later();
    for next in &exprs.rest {
        let x = expression(me, scopes, &next.expr, said)?;
        add_argument_rows(expected.first(), x, next.expr.first_span(), said)?;
        given = given.with(x);
        expected = expected.later();
    }
    Ok(given)
}
