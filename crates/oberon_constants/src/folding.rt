ghost use Rattle.std.specs.Prelude.{◌≡◌, ◌&&◌, IfOk, Some};
ghost use Rattle.oberon_tree.specs.Memory.{expr_tree, relation_tree, simple_tree, term_tree, factor_tree, designator_tree, selector_tree, elements_tree, element_tree, exprs_tree, more_exprs_list};
ghost use Rattle.oberon_tree.specs.Trees.{designator_factor, more_selectors, no_selectors};
ghost use Rattle.oberon_types.specs.Folding.{set_const, parts_built};
ghost use Rattle.oberon_rules.specs.Constants.{add_op, mul_op, folds, expr_const, simple_const, term_const, factor_const, designator_const, elements_const, exprs_const, more_exprs_const};
ghost use Rattle.oberon_infer.specs.Memory.{plain_scopes, plain_named, plain_word};
ghost use Rattle.oberon_constants.specs.Foldings.{folding_of, no_folding, known_folding, unary_folding, binary_folding, signed_folding, relation_folding, related_folding, named_folding, is_folding, call_folding, called_with_one, called_with_two, called_with_more, range_folding, element_folding, set_folding};

use ob_text::{Name, NoMemory};
use oberon_infer::{Meaning, Named, Scopes, Standard, Word, look_up, member};
use oberon_tree::{
    AddOperator, Designator, Element, Elements, Expr, Exprs, Factor, MulOperator, NextExpr,
    Relation, Relator, Selector, Sign, Signed, Simple, Term,
};
use oberon_types::{
    Entity, FoldingFunction, Op, Value, binary_value, call_one, call_two, end_value,
    folding_function, unary_value, with_range,
};
use std::alloc::Global;

/// Of a part of an expression, whether it is built of constants alone, and its value (The Programming Language
/// Oberon-07, section 5). No value is a trap.
#[derive(Drop)]
pub struct Folding {
    pub built: bool,
    pub value: Option<Value>,
}

/// The same of the elements of a set so far.
#[derive(Clone, Copy)]
pub struct SetFolding {
    built: bool,
    set: Option<u32>,
}

/// Folds an expression whose operand types fit, each part of it once. What its value stands for is known where it
/// is built of constants.
#[cycle(folding)]
pub fn fold_expr(alloc: Global, scopes: &Scopes, e: &Expr) -> Result<Folding, NoMemory>
    ensures { IfOk result (λ f. f ≡ folding_of (expr_const (plain_scopes scopes.now) (expr_tree e.now))) }
{
    let left = fold_simple(alloc, scopes, &e.left)?;
    match &e.relation {
        Some(relation) => fold_relation(alloc, scopes, left, relation),
        None => Ok(left),
    }
}

#[cycle(folding)]
fn fold_relation(
    alloc: Global,
    scopes: &Scopes,
    left: Folding,
    relation: &Relation,
) -> Result<Folding, NoMemory>
    ensures { IfOk result (λ f. f ≡ related_folding (plain_scopes scopes.now) left (relation_tree relation.now)) }
{
    let right = fold_simple(alloc, scopes, &relation.right)?;
    Ok(related(relation.operator, left, right))
}

#[cycle(folding)]
fn fold_simple(alloc: Global, scopes: &Scopes, simple: &Simple) -> Result<Folding, NoMemory>
    ensures { IfOk result (λ f. f ≡ folding_of (simple_const (plain_scopes scopes.now) (simple_tree simple.now))) }
{
    let first = fold_term(alloc, scopes, &simple.first)?;
    let mut left = signed(simple.sign, first);
    for addend in simple.rest.iter() {
        let right = fold_term(alloc, scopes, &addend.term)?;
        left = binary(add_op(addend.operator), left, right);
    }
    Ok(left)
}

#[cycle(folding)]
fn fold_term(alloc: Global, scopes: &Scopes, term: &Term) -> Result<Folding, NoMemory>
    ensures { IfOk result (λ f. f ≡ folding_of (term_const (plain_scopes scopes.now) (term_tree term.now))) }
{
    let mut left = fold_factor(alloc, scopes, &term.first)?;
    for multiplier in term.rest.iter() {
        let right = fold_factor(alloc, scopes, &multiplier.factor)?;
        left = binary(mul_op(multiplier.operator), left, right);
    }
    Ok(left)
}

#[cycle(folding)]
fn fold_factor(alloc: Global, scopes: &Scopes, factor: &Factor) -> Result<Folding, NoMemory>
    ensures { IfOk result (λ f. f ≡ folding_of (factor_const (plain_scopes scopes.now) (factor_tree factor.now))) }
{
    match factor {
        Factor::Integer(number) => Ok(known(Value::Integer(number.value))),
        Factor::Str(string) => Ok(known(Value::Str(string.value.copy(alloc)?))),
        Factor::True(_) => Ok(known(Value::Boolean(true))),
        Factor::False(_) => Ok(known(Value::Boolean(false))),
        Factor::Set(set) => match &set.elements {
            Some(elements) => fold_elements(alloc, scopes, elements),
            None => Ok(known(Value::Set(0))),
        },
        Factor::Designator(designator) => fold_designator(alloc, scopes, designator),
        Factor::Group { inner, .. } => fold_expr(alloc, scopes, inner),
        Factor::Not { factor, .. } => {
            let part = fold_factor(alloc, scopes, factor)?;
            Ok(unary(Op::Not, part))
        }
    }
}

/// A name, a member of a module, or a call of a predeclared function.
#[cycle(folding)]
fn fold_designator(
    alloc: Global,
    scopes: &Scopes,
    designator: &Designator,
) -> Result<Folding, NoMemory>
    ensures { IfOk result (λ f. f
        ≡ folding_of (factor_const (plain_scopes scopes.now) (designator_factor (designator_tree designator.now)))) }
{
    let name = &designator.name.name;
    match designator.selectors.as_slice() {
        [] => fold_named(alloc, &look_up(scopes, name)),
        [selector] => fold_selected(alloc, scopes, name, selector),
        _ => Ok(nothing()),
    }
}

/// A name with one selector behind it.
#[cycle(folding)]
fn fold_selected(
    alloc: Global,
    scopes: &Scopes,
    name: &Name,
    selector: &Selector,
) -> Result<Folding, NoMemory>
    ensures { IfOk result (λ f. f
        ≡ folding_of (designator_const (plain_scopes scopes.now) name.now (more_selectors (selector_tree selector.now) no_selectors))) }
{
    let named = look_up(scopes, name);
    match selector {
        Selector::Field(at) => fold_named(alloc, &member(named, &at.name)),
        Selector::Call {
            arguments: Some(arguments),
            ..
        } => {
            if is_folding(&named) {
                fold_call(alloc, scopes, folding_function(name), arguments)
            } else {
                Ok(nothing())
            }
        }
        _ => Ok(nothing()),
    }
}

#[cycle(folding)]
fn fold_call(
    alloc: Global,
    scopes: &Scopes,
    function: Option<FoldingFunction>,
    arguments: &Exprs,
) -> Result<Folding, NoMemory>
    ensures { IfOk result (λ f. f
        ≡ call_folding function (exprs_const (plain_scopes scopes.now) (exprs_tree arguments.now))) }
{
    let first = fold_expr(alloc, scopes, &arguments.first)?;
    match arguments.rest.as_slice() {
        [] => Ok(called_with_one(function, first)),
        [by] => {
            let by = fold_expr(alloc, scopes, &by.expr)?;
            Ok(called_with_two(function, first, by))
        }
        rest => {
            let rest = are_built(alloc, scopes, rest)?;
            Ok(called_with_more(function, first, rest))
        }
    }
}

#[cycle(folding)]
fn are_built(alloc: Global, scopes: &Scopes, rest: &[NextExpr]) -> Result<bool, NoMemory>
    ensures { IfOk result (λ b. b ≡ parts_built (more_exprs_const (plain_scopes scopes.now) (more_exprs_list rest.now))) }
{
    for next in rest {
        let part = fold_expr(alloc, scopes, &next.expr)?;
        if !is_built(part) {
            return Ok(false);
        }
    }
    Ok(true)
}

#[cycle(folding)]
fn fold_elements(alloc: Global, scopes: &Scopes, elements: &Elements) -> Result<Folding, NoMemory>
    ensures { IfOk result (λ f. f
        ≡ folding_of (set_const (elements_const (plain_scopes scopes.now) (elements_tree elements.now)))) }
{
    let none = SetFolding {
        built: true,
        set: Some(0),
    };
    let mut sofar = fold_element(alloc, scopes, none, &elements.first)?;
    for next in elements.rest.iter() {
        sofar = fold_element(alloc, scopes, sofar, &next.element)?;
    }
    Ok(set_of(sofar))
}

#[cycle(folding)]
fn fold_element(
    alloc: Global,
    scopes: &Scopes,
    sofar: SetFolding,
    element: &Element,
) -> Result<SetFolding, NoMemory>
    ensures { IfOk result (λ r. r ≡ element_folding (plain_scopes scopes.now) sofar (element_tree element.now)) }
{
    let first = fold_expr(alloc, scopes, &element.first)?;
    match &element.upper {
        Some(upper) => {
            let last = fold_expr(alloc, scopes, &upper.last)?;
            Ok(with_ends(sofar, first, last))
        }
        None => Ok(with_one(sofar, first)),
    }
}

fn is_built(part: Folding) -> bool
    ensures { result ≡ part.built }
{
    part.built
}

fn called_with_one(function: Option<FoldingFunction>, part: Folding) -> Folding
    ensures { result ≡ called_with_one function part }
{
    Folding {
        built: function.is_some() && part.built,
        value: call_one(function, part.value),
    }
}

fn called_with_two(function: Option<FoldingFunction>, part: Folding, by: Folding) -> Folding
    ensures { result ≡ called_with_two function part by }
{
    Folding {
        built: function.is_some() && part.built && by.built,
        value: call_two(function, part.value, by.value),
    }
}

fn called_with_more(function: Option<FoldingFunction>, part: Folding, rest: bool) -> Folding
    ensures { result ≡ called_with_more function part rest }
{
    Folding {
        built: function.is_some() && part.built && rest,
        value: None,
    }
}

fn with_ends(sofar: SetFolding, first: Folding, last: Folding) -> SetFolding
    ensures { result ≡ range_folding sofar first last }
{
    SetFolding {
        built: sofar.built && first.built && last.built,
        set: with_range(sofar.set, end_value(first.value), end_value(last.value)),
    }
}

fn with_one(sofar: SetFolding, only: Folding) -> SetFolding
    ensures { result ≡ range_folding sofar only only }
{
    let end = end_value(only.value);
    SetFolding {
        built: sofar.built && only.built,
        set: with_range(sofar.set, end, end),
    }
}

fn set_of(sofar: SetFolding) -> Folding
    ensures { result ≡ set_folding sofar }
{
    let value = match sofar.set {
        Some(set) => Some(Value::Set(set)),
        None => None,
    };
    Folding {
        built: sofar.built,
        value,
    }
}

/// What no constant is built of.
fn nothing() -> Folding
    ensures { result ≡ no_folding }
{
    Folding {
        built: false,
        value: None,
    }
}

fn known(value: Value) -> Folding
    ensures { result ≡ known_folding value }
{
    Folding {
        built: true,
        value: Some(value),
    }
}

fn unary(op: Op, part: Folding) -> Folding
    ensures { result ≡ unary_folding op part }
{
    Folding {
        built: part.built,
        value: unary_value(op, part.value),
    }
}

fn binary(op: Op, left: Folding, right: Folding) -> Folding
    ensures { result ≡ binary_folding op left right }
{
    Folding {
        built: left.built && right.built,
        value: binary_value(op, left.value, right.value),
    }
}

fn signed(sign: Option<Signed>, part: Folding) -> Folding
    ensures { result ≡ signed_folding sign part }
{
    match sign {
        Some(signed) => match signed.sign {
            Sign::Plus => unary(Op::Add, part),
            Sign::Minus => unary(Op::Subtract, part),
        },
        None => part,
    }
}

fn related(operator: Relator, left: Folding, right: Folding) -> Folding
    ensures { result ≡ relation_folding operator left right }
{
    match operator {
        Relator::Equal => binary(Op::Equal, left, right),
        Relator::Unequal => binary(Op::Unequal, left, right),
        Relator::Less => binary(Op::Less, left, right),
        Relator::LessEqual => binary(Op::LessEqual, left, right),
        Relator::Greater => binary(Op::Greater, left, right),
        Relator::GreaterEqual => binary(Op::GreaterEqual, left, right),
        Relator::In => binary(Op::In, left, right),
        Relator::Is => nothing(),
    }
}

fn add_op(operator: AddOperator) -> Op
    ensures { result ≡ add_op operator }
{
    match operator {
        AddOperator::Add => Op::Add,
        AddOperator::Subtract => Op::Subtract,
        AddOperator::Or => Op::Or,
    }
}

fn mul_op(operator: MulOperator) -> Op
    ensures { result ≡ mul_op operator }
{
    match operator {
        MulOperator::Multiply => Op::Multiply,
        MulOperator::Divide => Op::Divide,
        MulOperator::Div => Op::Div,
        MulOperator::Mod => Op::Mod,
        MulOperator::And => Op::And,
    }
}

fn fold_named(alloc: Global, named: &Named) -> Result<Folding, NoMemory>
    ensures { IfOk result (λ f. f ≡ named_folding (plain_named named.now)) }
{
    match named {
        Named::Own(Meaning::Constant(value)) => Ok(known(value.copy(alloc)?)),
        Named::Outside(Entity::Constant(value)) => Ok(known(value.copy(alloc)?)),
        Named::Unknown => Ok(nothing()),
        Named::Own(Meaning::Unknown) => Ok(nothing()),
        Named::Own(Meaning::Type(_)) => Ok(nothing()),
        Named::Own(Meaning::Variable { .. }) => Ok(nothing()),
        Named::Own(Meaning::Procedure(_)) => Ok(nothing()),
        Named::Own(Meaning::Word(_)) => Ok(nothing()),
        Named::Own(Meaning::Import(_)) => Ok(nothing()),
        Named::Standard(_) => Ok(nothing()),
        Named::Outside(Entity::TypeName(_)) => Ok(nothing()),
        Named::Outside(Entity::Variable(_)) => Ok(nothing()),
        Named::Outside(Entity::Proc(_)) => Ok(nothing()),
    }
}

/// Whether a call of what a name means may be part of a constant.
fn is_folding(named: &Named) -> bool
    ensures { result ≡ is_folding (plain_named named.now) }
{
    match named {
        Named::Standard(Standard::Word(word)) => folds(*word),
        Named::Own(Meaning::Word(word)) => folds(*word),
        _ => false,
    }
}

fn folds(word: Word) -> bool
    ensures { result ≡ folds (plain_word word) }
{
    match word {
        Word::Abs => true,
        Word::Odd => true,
        Word::Lsl => true,
        Word::Asr => true,
        Word::Ror => true,
        Word::Ord => true,
        Word::Chr => true,
        _ => false,
    }
}
