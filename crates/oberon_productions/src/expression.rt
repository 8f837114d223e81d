//! Expressions and designators (The Programming Language Oberon-07, section 8). Each function is given how
//! many more levels may be opened.
ghost use Rattle.std.specs.Prelude.{◌≡◌, ◌∷◌, ◌++◌, ◌<◌, ◌≤◌, [], List, suc, false, length, MatchOption, MatchResult};
ghost use Rattle.oberon_scan.specs.declared.token.Symbol.TheVariants as symbols;
ghost use Rattle.oberon_tree.specs.Tokens.{symbol_token};
ghost use Rattle.oberon_tree.specs.Print.{print_expr, print_relation, print_simple, print_addends, print_term, print_multipliers, print_factor, print_elements, print_more_elements, print_element, print_upper, print_selectors, print_selector, print_exprs, print_more_exprs};
ghost use Rattle.oberon_tree.specs.Levels.{depth_of_expr, depth_of_relation, depth_of_simple, depth_of_addends, depth_of_term, depth_of_multipliers, depth_of_factor, depth_of_elements, depth_of_more_elements, depth_of_element, depth_of_upper, depth_of_selectors, depth_of_selector, depth_of_exprs, depth_of_more_exprs};
ghost use Rattle.oberon_tree.specs.Memory.{expr_tree, relation_option, simple_tree, addends_list, term_tree, multipliers_list, factor_tree, elements_tree, more_elements_list, element_tree, upper_option, selectors_list, selector_tree, exprs_tree, more_exprs_list};
ghost use Rattle.oberon_productions.specs.Expected as want;
ghost use Rattle.oberon_productions.specs.Tests.{is_symbol, next_is};
ghost use Rattle.oberon_productions.specs.Machine.{term_parts, simple_parts, expr_parts, exprs_parts, element_parts};
ghost use Rattle.oberon_productions.specs.Reading.{ReadsParts, ReadsSome, StopsAt};

use crate::join::{closed, fitting, keeping};
use crate::read::{add_operator, constant, ident, mul_operator, need_ident, relator, sign, symbol};
use crate::stop::Stop;
use ob_text::Span;
use oberon_scan::{Symbol, Token};
use oberon_tree::{
    Addend, Designator, Element, Elements, Expr, Exprs, Factor, Member, Multiplier, NextElement,
    NextExpr, Relation, Selector, Set, Simple, Term, Upper,
};
use std::alloc::Global;

/// `expr = simple [relator simple]`.
#[cycle(expression)]
pub fn expr(alloc: Global, given: &[Token], levels: usize) -> Result<(Expr, &[Token]), Stop>
    ensures { MatchResult result
        (λ x. ReadsParts (expr_parts levels) levels given.now (print_expr (expr_tree x.0)) (depth_of_expr (expr_tree x.0)) x.1.now)
        (λ e. StopsAt (expr_parts levels) given.now e) }
{
    let (left, rest) = simple(alloc, given, levels)?;
    let (relation, rest, left) = keeping(left, relation(alloc, rest, levels))?;
    Ok((Expr { left, relation }, rest))
}

/// `[relator simple]`.
#[cycle(expression)]
fn relation(
    alloc: Global,
    given: &[Token],
    levels: usize,
) -> Result<(Option<Box<Relation>>, &[Token]), Stop>
    ensures { MatchResult result
        (λ x. ReadsParts (want.some_relation levels ∷ []) levels given.now (print_relation (relation_option x.0)) (depth_of_relation (relation_option x.0)) x.1.now)
        (λ e. StopsAt (want.some_relation levels ∷ []) given.now e) }
{
    let Some((operator, span, rest)) = relator(given) else {
        return Ok((None, given));
    };
    let (right, rest) = simple(alloc, rest, levels)?;
    let relation = Relation {
        operator,
        span,
        right,
    };
    let boxed = Box::new(alloc, relation)?;
    Ok((Some(boxed), rest))
}

/// `simple = ["+" | "-"] term {addoperator term}`.
#[cycle(expression)]
fn simple(alloc: Global, given: &[Token], levels: usize) -> Result<(Simple, &[Token]), Stop>
    ensures { MatchResult result
        (λ x. ReadsParts (simple_parts levels) levels given.now (print_simple (simple_tree x.0)) (depth_of_simple (simple_tree x.0)) x.1.now)
        (λ e. StopsAt (simple_parts levels) given.now e) }
{
    let (sign, rest) = sign(given);
    let (first, rest) = term(alloc, rest, levels)?;
    let (terms, rest, first) = keeping(first, addends(alloc, rest, levels))?;
    let simple = Simple {
        sign,
        first,
        rest: terms,
    };
    Ok((simple, rest))
}

/// `{addoperator term}`.
#[cycle(expression)]
fn addends(alloc: Global, given: &[Token], levels: usize) -> Result<(Vec<Addend>, &[Token]), Stop>
    ensures { MatchResult result
        (λ x. ReadsParts (want.addends levels ∷ []) levels given.now (print_addends (addends_list x.0.items))
        (depth_of_addends (addends_list x.0.items)) x.1.now)
        (λ e. StopsAt (want.addends levels ∷ []) given.now e) }
{
    let mut items = Vec::new(alloc);
    let mut rest = given;
    while let Some((operator, span, after)) = add_operator(rest) {
        let (term, after) = term(alloc, after, levels)?;
        items.push(Addend {
            operator,
            span,
            term,
        })?;
        rest = after;
    }
    Ok((fitting(items), rest))
}

/// `term = factor {muloperator factor}`.
#[cycle(expression)]
fn term(alloc: Global, given: &[Token], levels: usize) -> Result<(Term, &[Token]), Stop>
    ensures { MatchResult result
        (λ x. ReadsParts (term_parts levels) levels given.now (print_term (term_tree x.0)) (depth_of_term (term_tree x.0)) x.1.now)
        (λ e. StopsAt (term_parts levels) given.now e) }
{
    let (first, rest) = factor(alloc, given, levels)?;
    let (factors, rest, first) = keeping(first, multipliers(alloc, rest, levels))?;
    let term = Term {
        first,
        rest: factors,
    };
    Ok((term, rest))
}

/// `{muloperator factor}`.
#[cycle(expression)]
fn multipliers(
    alloc: Global,
    given: &[Token],
    levels: usize,
) -> Result<(Vec<Multiplier>, &[Token]), Stop>
    ensures { MatchResult result
        (λ x. ReadsParts (want.multipliers levels ∷ []) levels given.now
        (print_multipliers (multipliers_list x.0.items))
        (depth_of_multipliers (multipliers_list x.0.items)) x.1.now)
        (λ e. StopsAt (want.multipliers levels ∷ []) given.now e) }
{
    let mut items = Vec::new(alloc);
    let mut rest = given;
    while let Some((operator, span, after)) = mul_operator(rest) {
        let (factor, after) = factor(alloc, after, levels)?;
        items.push(Multiplier {
            operator,
            span,
            factor,
        })?;
        rest = after;
    }
    Ok((fitting(items), rest))
}

/// `factor = integer | string | TRUE | FALSE | set | designator | "(" expr ")" | "~" factor`.
#[cycle(expression)]
fn factor(alloc: Global, given: &[Token], levels: usize) -> Result<(Factor, &[Token]), Stop>
    ensures { MatchResult result
        (λ x. ReadsParts (want.factor levels ∷ []) levels given.now (print_factor (factor_tree x.0)) (depth_of_factor (factor_tree x.0)) x.1.now)
        (λ e. StopsAt (want.factor levels ∷ []) given.now e) }
{
    if let Some(found) = constant(alloc, given)? {
        return Ok(found);
    }
    if let Some((name, rest)) = ident(alloc, given)? {
        let (selectors, rest) = selectors(alloc, rest, levels)?;
        return Ok((Factor::Designator(Designator { name, selectors }), rest));
    }
    if levels == 0 {
        return Err(Stop::Left(given.len()));
    }
    if let Some((opening, rest)) = symbol(given, Symbol::OpenParen) {
        return group(alloc, opening, rest, levels - 1);
    }
    if let Some((tilde, rest)) = symbol(given, Symbol::Tilde) {
        return negation(alloc, tilde, rest, levels - 1);
    }
    if let Some((opening, rest)) = symbol(given, Symbol::OpenBrace) {
        return set(alloc, opening, rest, levels - 1);
    }
    Err(Stop::Left(given.len()))
}

/// What stands behind the `(` of a factor.
#[cycle(expression)]
fn group(
    alloc: Global,
    opening: Span,
    given: &[Token],
    levels: usize,
) -> Result<(Factor, &[Token]), Stop>
    ensures { MatchResult result
        (λ x. ReadsParts (want.factor (suc levels) ∷ []) (suc levels) (symbol_token symbols.OpenParen opening ∷ given.now) (print_factor (factor_tree x.0)) (depth_of_factor (factor_tree x.0)) x.1.now)
        (λ e. StopsAt (want.factor (suc levels) ∷ []) (symbol_token symbols.OpenParen opening ∷ given.now) e) }
{
    let (inner, rest) = expr(alloc, given, levels)?;
    let (closing, rest, inner) = closed(alloc, inner, rest, Symbol::CloseParen)?;
    let group = Factor::Group {
        opening,
        inner,
        closing,
    };
    Ok((group, rest))
}

/// What stands behind a `~`.
#[cycle(expression)]
fn negation(
    alloc: Global,
    tilde: Span,
    given: &[Token],
    levels: usize,
) -> Result<(Factor, &[Token]), Stop>
    ensures { MatchResult result
        (λ x. ReadsParts (want.factor (suc levels) ∷ []) (suc levels) (symbol_token symbols.Tilde tilde ∷ given.now) (print_factor (factor_tree x.0)) (depth_of_factor (factor_tree x.0)) x.1.now)
        (λ e. StopsAt (want.factor (suc levels) ∷ []) (symbol_token symbols.Tilde tilde ∷ given.now) e) }
{
    let (negated, rest) = factor(alloc, given, levels)?;
    let boxed = Box::new(alloc, negated)?;
    let negation = Factor::Not {
        tilde,
        factor: boxed,
    };
    Ok((negation, rest))
}

/// What stands behind a `{`: `[element {"," element}] "}"`.
#[cycle(expression)]
fn set(
    alloc: Global,
    opening: Span,
    given: &[Token],
    levels: usize,
) -> Result<(Factor, &[Token]), Stop>
    ensures { MatchResult result
        (λ x. ReadsParts (want.factor (suc levels) ∷ []) (suc levels) (symbol_token symbols.OpenBrace opening ∷ given.now) (print_factor (factor_tree x.0)) (depth_of_factor (factor_tree x.0)) x.1.now)
        (λ e. StopsAt (want.factor (suc levels) ∷ []) (symbol_token symbols.OpenBrace opening ∷ given.now) e) }
{
    if let Some((closing, rest)) = symbol(given, Symbol::CloseBrace) {
        let empty = Set {
            opening,
            elements: None,
            closing,
        };
        return Ok((Factor::Set(empty), rest));
    }
    let (elements, rest) = elements(alloc, given, levels)?;
    let (closing, rest, elements) = closed(alloc, elements, rest, Symbol::CloseBrace)?;
    let set = Set {
        opening,
        elements: Some(elements),
        closing,
    };
    Ok((Factor::Set(set), rest))
}

/// `element {"," element}`.
#[cycle(expression)]
fn elements(alloc: Global, given: &[Token], levels: usize) -> Result<(Elements, &[Token]), Stop>
    ensures { MatchResult result
        (λ x. ReadsParts (element_parts levels ++ want.elements levels ∷ []) levels given.now (print_elements (elements_tree x.0)) (depth_of_elements (elements_tree x.0)) x.1.now)
        (λ e. StopsAt (element_parts levels ++ want.elements levels ∷ []) given.now e) }
{
    let (first, rest) = element(alloc, given, levels)?;
    let (next, rest, first) = keeping(first, more_elements(alloc, rest, levels))?;
    let elements = Elements { first, rest: next };
    Ok((elements, rest))
}

/// `{"," element}`.
#[cycle(expression)]
fn more_elements(
    alloc: Global,
    given: &[Token],
    levels: usize,
) -> Result<(Vec<NextElement>, &[Token]), Stop>
    ensures { MatchResult result
        (λ x. ReadsParts (want.elements levels ∷ []) levels given.now
        (print_more_elements (more_elements_list x.0.items))
        (depth_of_more_elements (more_elements_list x.0.items)) x.1.now)
        (λ e. StopsAt (want.elements levels ∷ []) given.now e) }
{
    let mut items = Vec::new(alloc);
    let mut rest = given;
    while let Some((comma, after)) = symbol(rest, Symbol::Comma) {
        let (element, after) = element(alloc, after, levels)?;
        items.push(NextElement { comma, element })?;
        rest = after;
    }
    Ok((fitting(items), rest))
}

/// `element = expr [".." expr]`.
#[cycle(expression)]
fn element(alloc: Global, given: &[Token], levels: usize) -> Result<(Element, &[Token]), Stop>
    ensures { MatchResult result
        (λ x. ReadsParts (element_parts levels) levels given.now (print_element (element_tree x.0)) (depth_of_element (element_tree x.0)) x.1.now)
        (λ e. StopsAt (element_parts levels) given.now e) }
{
    let (first, rest) = expr(alloc, given, levels)?;
    let (upper, rest, first) = keeping(first, upper(alloc, rest, levels))?;
    Ok((Element { first, upper }, rest))
}

/// `[".." expr]`.
#[cycle(expression)]
fn upper(alloc: Global, given: &[Token], levels: usize) -> Result<(Option<Upper>, &[Token]), Stop>
    ensures { MatchResult result
        (λ x. ReadsParts (want.some_upper levels ∷ []) levels given.now (print_upper (upper_option x.0)) (depth_of_upper (upper_option x.0)) x.1.now)
        (λ e. StopsAt (want.some_upper levels ∷ []) given.now e) }
{
    let Some((dots, rest)) = symbol(given, Symbol::DotDot) else {
        return Ok((None, given));
    };
    let (last, rest) = expr(alloc, rest, levels)?;
    Ok((Some(Upper { dots, last }), rest))
}

/// `{selector}`.
#[cycle(expression)]
pub fn selectors(
    alloc: Global,
    given: &[Token],
    levels: usize,
) -> Result<(Vec<Selector>, &[Token]), Stop>
    ensures { MatchResult result
        (λ x. ReadsParts (want.selectors levels ∷ []) levels given.now
        (print_selectors (selectors_list x.0.items))
        (depth_of_selectors (selectors_list x.0.items)) x.1.now)
        (λ e. StopsAt (want.selectors levels ∷ []) given.now e) }
{
    let mut items = Vec::new(alloc);
    let mut rest = given;
    while let Some((one, after)) = selector(alloc, rest, levels)? {
        items.push(one)?;
        rest = after;
    }
    Ok((fitting(items), rest))
}

/// `selector = "." ident | "[" exprs "]" | "(" [exprs] ")"`, if one stands here.
#[cycle(expression)]
fn selector(
    alloc: Global,
    given: &[Token],
    levels: usize,
) -> Result<Option<(Selector, &[Token])>, Stop>
    ensures { MatchResult result
        (λ o. MatchOption o
        ((next_is (is_symbol symbols.Period) given.now ≡ false)
        × (next_is (is_symbol symbols.OpenBracket) given.now ≡ false)
        × (next_is (is_symbol symbols.OpenParen) given.now ≡ false))
        (λ x. ReadsSome (want.selectors levels) levels given.now
        (print_selector (selector_tree x.0)) (depth_of_selector (selector_tree x.0)) x.1.now
        × (length x.1.now < length given.now)))
        (λ e. StopsAt (want.selectors levels ∷ []) given.now e) }
{
    if let Some((period, rest)) = symbol(given, Symbol::Period) {
        let (name, rest) = need_ident(alloc, rest)?;
        return Ok(Some((Selector::Field(Member { period, name }), rest)));
    }
    if let Some((opening, rest)) = symbol(given, Symbol::OpenBracket) {
        if levels == 0 {
            return Err(Stop::Left(given.len()));
        }
        let found = index(alloc, opening, rest, levels - 1)?;
        return Ok(Some(found));
    }
    if let Some((opening, rest)) = symbol(given, Symbol::OpenParen) {
        if levels == 0 {
            return Err(Stop::Left(given.len()));
        }
        let found = call(alloc, opening, rest, levels - 1)?;
        return Ok(Some(found));
    }
    Ok(None)
}

/// What stands behind a `[`: `exprs "]"`.
#[cycle(expression)]
fn index(
    alloc: Global,
    opening: Span,
    given: &[Token],
    levels: usize,
) -> Result<(Selector, &[Token]), Stop>
    ensures { MatchResult result
        (λ x. ReadsSome (want.selectors (suc levels)) (suc levels)
        (symbol_token symbols.OpenBracket opening ∷ given.now) (print_selector (selector_tree x.0))
        (depth_of_selector (selector_tree x.0)) x.1.now
        × (length x.1.now < suc (length given.now)))
        (λ e. StopsAt (want.selectors (suc levels) ∷ [])
        (symbol_token symbols.OpenBracket opening ∷ given.now) e) }
{
    let (indices, rest) = exprs(alloc, given, levels)?;
    let (closing, rest, indices) = closed(alloc, indices, rest, Symbol::CloseBracket)?;
    let index = Selector::Index {
        opening,
        indices,
        closing,
    };
    Ok((index, rest))
}

/// What stands behind the `(` of a designator: `[exprs] ")"`.
#[cycle(expression)]
fn call(
    alloc: Global,
    opening: Span,
    given: &[Token],
    levels: usize,
) -> Result<(Selector, &[Token]), Stop>
    ensures { MatchResult result
        (λ x. ReadsSome (want.selectors (suc levels)) (suc levels)
        (symbol_token symbols.OpenParen opening ∷ given.now) (print_selector (selector_tree x.0))
        (depth_of_selector (selector_tree x.0)) x.1.now
        × (length x.1.now < suc (length given.now)))
        (λ e. StopsAt (want.selectors (suc levels) ∷ [])
        (symbol_token symbols.OpenParen opening ∷ given.now) e) }
{
    if let Some((closing, rest)) = symbol(given, Symbol::CloseParen) {
        let empty = Selector::Call {
            opening,
            arguments: None,
            closing,
        };
        return Ok((empty, rest));
    }
    let (arguments, rest) = exprs(alloc, given, levels)?;
    let (closing, rest, arguments) = closed(alloc, arguments, rest, Symbol::CloseParen)?;
    let call = Selector::Call {
        opening,
        arguments: Some(arguments),
        closing,
    };
    Ok((call, rest))
}

/// `exprs = expr {"," expr}`.
#[cycle(expression)]
pub fn exprs(alloc: Global, given: &[Token], levels: usize) -> Result<(Exprs, &[Token]), Stop>
    ensures { MatchResult result
        (λ x. ReadsParts (exprs_parts levels) levels given.now (print_exprs (exprs_tree x.0)) (depth_of_exprs (exprs_tree x.0)) x.1.now)
        (λ e. StopsAt (exprs_parts levels) given.now e) }
{
    let (first, rest) = expr(alloc, given, levels)?;
    let (next, rest, first) = keeping(first, more_exprs(alloc, rest, levels))?;
    let exprs = Exprs { first, rest: next };
    Ok((exprs, rest))
}

/// `{"," expr}`.
#[cycle(expression)]
fn more_exprs(
    alloc: Global,
    given: &[Token],
    levels: usize,
) -> Result<(Vec<NextExpr>, &[Token]), Stop>
    ensures { MatchResult result
        (λ x. ReadsParts (want.exprs levels ∷ []) levels given.now
        (print_more_exprs (more_exprs_list x.0.items))
        (depth_of_more_exprs (more_exprs_list x.0.items)) x.1.now)
        (λ e. StopsAt (want.exprs levels ∷ []) given.now e) }
{
    let mut items = Vec::new(alloc);
    let mut rest = given;
    while let Some((comma, after)) = symbol(rest, Symbol::Comma) {
        let (expr, after) = expr(alloc, after, levels)?;
        items.push(NextExpr { comma, expr })?;
        rest = after;
    }
    Ok((fitting(items), rest))
}
