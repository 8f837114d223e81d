//! Labels of CASE (The Programming Language Oberon-07, section 9.5).
ghost use Rattle.std.specs.Prelude.{◌≡◌, ◌∷◌, ◌++◌, [], List, false, MatchOption, MatchResult};
ghost use Rattle.oberon_scan.specs.declared.token.Symbol.TheVariants as symbols;
ghost use Rattle.oberon_scan.specs.declared.token.Token.{Token as AnyToken};
ghost use Rattle.oberon_tree.specs.Tokens.{symbol_token};
ghost use Rattle.oberon_tree.specs.Print.{print_some, print_each, print_value, print_label_upper, print_label, print_next_label};
ghost use Rattle.oberon_productions.specs.Expected as want;
ghost use Rattle.oberon_productions.specs.Tests.{is_literal, is_ident, next_is};
ghost use Rattle.oberon_productions.specs.Machine.{label_parts};
ghost use Rattle.oberon_productions.specs.Reading.{ReadsParts, FirstValue, StopsAt, StopsValue};

use crate::join::keeping;
use crate::name::member;
use crate::read::{ident, label_literal, need_symbol, symbol};
use crate::stop::Stop;
use ob_text::Span;
use oberon_scan::{Symbol, Token};
use oberon_tree::{Label, LabelUpper, LabelValue, Labels, NextLabel, Qualident};
use std::alloc::Global;

/// `integer | string | qualident`, if one stands here.
pub fn first_value(alloc: Global, given: &[Token]) -> Result<Option<(LabelValue, &[Token])>, Stop>
    ensures { MatchResult result
        (λ o. MatchOption o
        ((next_is is_literal given.now ≡ false) × (next_is is_ident given.now ≡ false))
        (λ x. FirstValue given.now (print_value x.0) x.1.now))
        (λ e. StopsValue given.now e) }
{
    if let Some((literal, rest)) = label_literal(alloc, given)? {
        return Ok(Some((literal, rest)));
    }
    let Some((first, rest)) = ident(alloc, given)? else {
        return Ok(None);
    };
    let (member, rest) = member(alloc, rest)?;
    let name = Qualident { first, member };
    Ok(Some((LabelValue::Named(name), rest)))
}

/// `value = integer | string | qualident`.
fn value(alloc: Global, given: &[Token]) -> Result<(LabelValue, &[Token]), Stop>
    ensures { MatchResult result
        (λ x. ReadsParts (want.value ∷ []) 0 given.now (print_value x.0) 0 x.1.now)
        (λ e. StopsAt (want.value ∷ []) given.now e) }
{
    match first_value(alloc, given)? {
        Some((found, rest)) => Ok((found, rest)),
        None => Err(Stop::Left(given.len())),
    }
}

/// `[".." value]`.
fn label_upper(alloc: Global, given: &[Token]) -> Result<(Option<LabelUpper>, &[Token]), Stop>
    ensures { MatchResult result
        (λ x. ReadsParts (want.some_label_upper ∷ []) 0 given.now (print_some print_label_upper x.0) 0 x.1.now)
        (λ e. StopsAt (want.some_label_upper ∷ []) given.now e) }
{
    let Some((dots, rest)) = symbol(given, Symbol::DotDot) else {
        return Ok((None, given));
    };
    let (last, rest) = value(alloc, rest)?;
    Ok((Some(LabelUpper { dots, last }), rest))
}

/// What stands behind the first value of an arm: `[".." value] {"," label} ":"`.
pub fn rest_of_labels(
    alloc: Global,
    first: LabelValue,
    given: &[Token],
) -> Result<((Labels, Span), &[Token]), Stop>
    ensures { MatchResult result
        (λ x. ReadsParts (want.some_label_upper ∷ want.labels ∷ want.symbol symbols.Colon ∷ []) 0 given.now
        (λ (rest : List AnyToken). print_some print_label_upper x.0.0.first.upper
        (print_each print_next_label x.0.0.rest.items (symbol_token symbols.Colon x.0.1 ∷ rest)))
        0 x.1.now
        × (x.0.0.first.first ≡ first))
        (λ e. StopsAt (want.some_label_upper ∷ want.labels ∷ want.symbol symbols.Colon ∷ []) given.now e) }
{
    let (upper, rest, first) = keeping(first, label_upper(alloc, given))?;
    let (next, rest, first) = keeping(Label { first, upper }, more_labels(alloc, rest))?;
    let labels = Labels { first, rest: next };
    let (colon, rest, labels) = keeping(labels, need_symbol(rest, Symbol::Colon))?;
    Ok(((labels, colon), rest))
}

/// `label = value [".." value]`.
fn label(alloc: Global, given: &[Token]) -> Result<(Label, &[Token]), Stop>
    ensures { MatchResult result
        (λ x. ReadsParts label_parts 0 given.now (print_label x.0) 0 x.1.now)
        (λ e. StopsAt label_parts given.now e) }
{
    let (first, rest) = value(alloc, given)?;
    let (upper, rest, first) = keeping(first, label_upper(alloc, rest))?;
    Ok((Label { first, upper }, rest))
}

/// `{"," label}`.
fn more_labels(alloc: Global, given: &[Token]) -> Result<(Vec<NextLabel>, &[Token]), Stop>
    ensures { MatchResult result
        (λ x. ReadsParts (want.labels ∷ []) 0 given.now (print_each print_next_label x.0.items) 0 x.1.now)
        (λ e. StopsAt (want.labels ∷ []) given.now e) }
{
    let mut items = Vec::new(alloc);
    let mut rest = given;
    while let Some((comma, after)) = symbol(rest, Symbol::Comma) {
        let (label, after) = label(alloc, after)?;
        items.push(NextLabel { comma, label })?;
        rest = after;
    }
    Ok((items, rest))
}
