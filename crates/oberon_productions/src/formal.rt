//! Formal parameters (The Programming Language Oberon-07, section 10.1).
ghost use Rattle.std.specs.Prelude.{◌≡◌, ◌∷◌, ◌++◌, [], List, length, map, MatchResult};
ghost use Rattle.std.specs.Option.{option_map};
ghost use Rattle.oberon_scan.specs.declared.token.Symbol.TheVariants as symbols;
ghost use Rattle.oberon_scan.specs.declared.token.Token.{Token as AnyToken};
ghost use Rattle.oberon_tree.specs.Tokens.{symbol_token};
ghost use Rattle.oberon_tree.specs.Print.{print_some, print_each, print_open_array, print_formal_type, print_by_var, print_section, print_next_section, print_sections, print_formals, print_result_type};
ghost use Rattle.oberon_tree.specs.Levels.{depth_of_some, depth_of_each, depth_of_formal_type, depth_of_section, depth_of_next_section, depth_of_sections, depth_of_formals};
ghost use Rattle.oberon_tree.specs.Memory.{formal_type_tree, section_tree, next_section_tree, sections_tree, formals_tree};
ghost use Rattle.oberon_productions.specs.Expected as want;
ghost use Rattle.oberon_productions.specs.Machine.{formal_type_parts, section_parts};
ghost use Rattle.oberon_productions.specs.Reading.{ReadsParts, StopsAt};

use crate::join::keeping;
use crate::name::{idents, qualident};
use crate::read::{need_symbol, need_word, one_less, symbol, word};
use crate::stop::Stop;
use ob_text::Span;
use oberon_scan::{Symbol, Token, Word};
use oberon_tree::{FormalType, Formals, NextSection, OpenArray, ResultType, Section, Sections};
use std::alloc::Global;

/// `[formals]`, where `formals = "(" [section {";" section}] ")" [":" qualident]`.
pub fn formals(
    alloc: Global,
    given: &[Token],
    levels: usize,
) -> Result<(Option<Formals>, &[Token]), Stop>
    ensures { MatchResult result
        (λ x. ReadsParts (want.some_formals levels ∷ []) levels given.now
        (print_some print_formals (option_map formals_tree x.0))
        (depth_of_some depth_of_formals (option_map formals_tree x.0)) x.1.now)
        (λ e. StopsAt (want.some_formals levels ∷ []) given.now e) }
{
    let Some((opening, rest)) = symbol(given, Symbol::OpenParen) else {
        return Ok((None, given));
    };
    let (found, rest) = rest_of_formals(alloc, rest, levels)?;
    let (result_type, rest, found) = keeping(found, result_type(alloc, rest))?;
    let (sections, closing) = found;
    let formals = Formals {
        opening,
        sections,
        closing,
        result_type,
    };
    Ok((Some(formals), rest))
}

/// What stands behind the `(` of formal parameters, with their `)`.
fn rest_of_formals(
    alloc: Global,
    given: &[Token],
    levels: usize,
) -> Result<((Option<Sections>, Span), &[Token]), Stop>
    ensures { MatchResult result
        (λ x. ReadsParts (want.rest_of_formals levels ∷ []) levels given.now
        (λ (rest : List AnyToken). print_some print_sections (option_map sections_tree x.0.0)
        (symbol_token symbols.CloseParen x.0.1 ∷ rest))
        (depth_of_some depth_of_sections (option_map sections_tree x.0.0)) x.1.now)
        (λ e. StopsAt (want.rest_of_formals levels ∷ []) given.now e) }
{
    if let Some((closing, rest)) = symbol(given, Symbol::CloseParen) {
        return Ok(((None, closing), rest));
    }
    let (first, rest) = section(alloc, given, levels)?;
    let (next, rest, first) = keeping(first, more_sections(alloc, rest, levels))?;
    let sections = Sections { first, rest: next };
    let (closing, rest, sections) = keeping(sections, need_symbol(rest, Symbol::CloseParen))?;
    Ok(((Some(sections), closing), rest))
}

/// `{";" section}`.
fn more_sections(
    alloc: Global,
    given: &[Token],
    levels: usize,
) -> Result<(Vec<NextSection>, &[Token]), Stop>
    ensures { MatchResult result
        (λ x. ReadsParts (want.sections levels ∷ []) levels given.now
        (print_each print_next_section (map next_section_tree x.0.items))
        (depth_of_each depth_of_next_section (map next_section_tree x.0.items)) x.1.now)
        (λ e. StopsAt (want.sections levels ∷ []) given.now e) }
{
    let mut items = Vec::new(alloc);
    let mut rest = given;
    while let Some((semicolon, after)) = symbol(rest, Symbol::Semicolon) {
        let (section, after) = section(alloc, after, levels)?;
        items.push(NextSection { semicolon, section })?;
        rest = after;
    }
    Ok((items, rest))
}

/// `section = [VAR] ident {"," ident} ":" {ARRAY OF} qualident`.
fn section(alloc: Global, given: &[Token], levels: usize) -> Result<(Section, &[Token]), Stop>
    ensures { MatchResult result
        (λ x. ReadsParts (section_parts levels) levels given.now (print_section (section_tree x.0))
        (depth_of_section (section_tree x.0)) x.1.now)
        (λ e. StopsAt (section_parts levels) given.now e) }
{
    let (by_var, rest) = by_var(given);
    let (names, rest) = idents(alloc, rest)?;
    let (colon, rest, names) = keeping(names, need_symbol(rest, Symbol::Colon))?;
    let (of_type, rest, names) = keeping(names, formal_type(alloc, rest, levels))?;
    let section = Section {
        by_var,
        names,
        colon,
        of_type,
    };
    Ok((section, rest))
}

/// `[VAR]`.
fn by_var(given: &[Token]) -> (Option<Span>, &[Token])
    ensures { ReadsParts (want.some_by_var ∷ []) 0 given.now (print_some print_by_var result.0) 0 result.1.now }
{
    match word(given, Word::Var) {
        Some((span, rest)) => (Some(span), rest),
        None => (None, given),
    }
}

/// `{ARRAY OF} qualident`.
fn formal_type(
    alloc: Global,
    given: &[Token],
    levels: usize,
) -> Result<(FormalType, &[Token]), Stop>
    ensures { MatchResult result
        (λ x. ReadsParts (formal_type_parts levels) levels given.now
        (print_formal_type (formal_type_tree x.0)) (depth_of_formal_type (formal_type_tree x.0)) x.1.now)
        (λ e. StopsAt (formal_type_parts levels) given.now e) }
{
    let (opens, rest) = opens(alloc, given, levels)?;
    let (name, rest) = qualident(alloc, rest)?;
    Ok((FormalType { opens, name }, rest))
}

/// `{ARRAY OF}`. Each ARRAY opens a level that holds to the end of the type.
fn opens(alloc: Global, given: &[Token], levels: usize) -> Result<(Vec<OpenArray>, &[Token]), Stop>
    ensures { MatchResult result
        (λ x. ReadsParts (want.opens levels ∷ []) levels given.now (print_each print_open_array x.0.items)
        (length x.0.items) x.1.now)
        (λ e. StopsAt (want.opens levels ∷ []) given.now e) }
{
    let mut items = Vec::new(alloc);
    let mut rest = given;
    let mut left = levels;
    while let Some((span, after)) = word(rest, Word::Array) {
        let inner = one_less(rest, left)?;
        let (of, after) = need_word(after, Word::Of)?;
        items.push(OpenArray { word: span, of })?;
        rest = after;
        left = inner;
    }
    Ok((items, rest))
}

/// `[":" qualident]`.
fn result_type(alloc: Global, given: &[Token]) -> Result<(Option<ResultType>, &[Token]), Stop>
    ensures { MatchResult result
        (λ x. ReadsParts (want.some_result ∷ []) 0 given.now (print_some print_result_type x.0) 0 x.1.now)
        (λ e. StopsAt (want.some_result ∷ []) given.now e) }
{
    let Some((colon, rest)) = symbol(given, Symbol::Colon) else {
        return Ok((None, given));
    };
    let (name, rest) = qualident(alloc, rest)?;
    Ok((Some(ResultType { colon, name }), rest))
}
