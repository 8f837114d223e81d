//! Declarations of a procedure (The Programming Language Oberon-07, section 10).
ghost use Rattle.std.specs.Prelude.{◌≡◌, ◌∷◌, ◌++◌, ◌≤◌, [], List, length, map, MatchResult};
ghost use Rattle.std.specs.Option.{option_map};
ghost use Rattle.oberon_tree.specs.Tokens.{ident_token};
ghost use Rattle.oberon_tree.specs.Print.{print_some, print_each, print_local_constant, print_local_constants, print_local_variable, print_local_variables, print_locals};
ghost use Rattle.oberon_tree.specs.Levels.{depth_of_some, depth_of_each, depth_of_local_constant, depth_of_local_constants, depth_of_local_variable, depth_of_local_variables, depth_of_locals};
ghost use Rattle.oberon_tree.specs.Memory.{local_constant_tree, local_constants_tree, local_variable_tree, local_variables_tree, locals_tree};
ghost use Rattle.oberon_productions.specs.Expected as want;
ghost use Rattle.oberon_productions.specs.Machine.{locals_parts};
ghost use Rattle.oberon_productions.specs.Reading.{ReadsParts, ReadsSome, StopsAt};

use crate::expression::expr;
use crate::join::keeping;
use crate::name::more_idents;
use crate::read::{ident, need_symbol, word};
use crate::stop::Stop;
use crate::types::any_type;
use oberon_scan::{Symbol, Token, Word};
use oberon_tree::{
    Ident, Idents, LocalConstant, LocalConstants, LocalVariable, LocalVariables, Locals,
};
use std::alloc::Global;

/// `locals = [localconstants] [localvariables]`.
pub fn locals(alloc: Global, given: &[Token], levels: usize) -> Result<(Locals, &[Token]), Stop>
    ensures { MatchResult result
        (λ x. ReadsParts (locals_parts levels) levels given.now (print_locals (locals_tree x.0))
        (depth_of_locals (locals_tree x.0)) x.1.now)
        (λ e. StopsAt (locals_parts levels) given.now e) }
{
    let (constants, rest) = local_constants(alloc, given, levels)?;
    let (variables, rest) = local_variables(alloc, rest, levels)?;
    let locals = Locals {
        constants,
        variables,
    };
    Ok((locals, rest))
}

/// `[CONST {localconstant}]`.
fn local_constants(
    alloc: Global,
    given: &[Token],
    levels: usize,
) -> Result<(Option<LocalConstants>, &[Token]), Stop>
    ensures { MatchResult result
        (λ x. ReadsParts (want.some_local_constants levels ∷ []) levels given.now
        (print_some print_local_constants (option_map local_constants_tree x.0))
        (depth_of_some depth_of_local_constants (option_map local_constants_tree x.0)) x.1.now)
        (λ e. StopsAt (want.some_local_constants levels ∷ []) given.now e) }
{
    let Some((span, rest)) = word(given, Word::Const) else {
        return Ok((None, given));
    };
    let (items, rest) = more_local_constants(alloc, rest, levels)?;
    Ok((Some(LocalConstants { word: span, items }), rest))
}

fn more_local_constants(
    alloc: Global,
    given: &[Token],
    levels: usize,
) -> Result<(Vec<LocalConstant>, &[Token]), Stop>
    ensures { MatchResult result
        (λ x. ReadsParts (want.local_constants levels ∷ []) levels given.now
        (print_each print_local_constant (map local_constant_tree x.0.items))
        (depth_of_each depth_of_local_constant (map local_constant_tree x.0.items)) x.1.now)
        (λ e. StopsAt (want.local_constants levels ∷ []) given.now e) }
{
    let mut items = Vec::new(alloc);
    let mut rest = given;
    while let Some((name, after)) = ident(alloc, rest)? {
        let (item, after) = local_constant(alloc, name, after, levels)?;
        items.push(item)?;
        rest = after;
    }
    Ok((items, rest))
}

/// What stands behind the first name of `ident "=" expr ";"`.
fn local_constant(
    alloc: Global,
    name: Ident,
    given: &[Token],
    levels: usize,
) -> Result<(LocalConstant, &[Token]), Stop>
    ensures { MatchResult result
        (λ x. ReadsSome (want.local_constants levels) levels (ident_token name ∷ given.now)
        (print_local_constant (local_constant_tree x.0)) (depth_of_local_constant (local_constant_tree x.0)) x.1.now
        × (length x.1.now ≤ length given.now))
        (λ e. StopsAt (want.local_constants levels ∷ []) (ident_token name ∷ given.now) e) }
{
    let (equal, rest, name) = keeping(name, need_symbol(given, Symbol::Equal))?;
    let (value, rest, name) = keeping(name, expr(alloc, rest, levels))?;
    let (semicolon, rest, parts) = keeping((name, value), need_symbol(rest, Symbol::Semicolon))?;
    let (name, value) = parts;
    let item = LocalConstant {
        name,
        equal,
        value,
        semicolon,
    };
    Ok((item, rest))
}

/// `[VAR {localvariable}]`.
fn local_variables(
    alloc: Global,
    given: &[Token],
    levels: usize,
) -> Result<(Option<LocalVariables>, &[Token]), Stop>
    ensures { MatchResult result
        (λ x. ReadsParts (want.some_local_variables levels ∷ []) levels given.now
        (print_some print_local_variables (option_map local_variables_tree x.0))
        (depth_of_some depth_of_local_variables (option_map local_variables_tree x.0)) x.1.now)
        (λ e. StopsAt (want.some_local_variables levels ∷ []) given.now e) }
{
    let Some((span, rest)) = word(given, Word::Var) else {
        return Ok((None, given));
    };
    let (items, rest) = more_local_variables(alloc, rest, levels)?;
    Ok((Some(LocalVariables { word: span, items }), rest))
}

fn more_local_variables(
    alloc: Global,
    given: &[Token],
    levels: usize,
) -> Result<(Vec<LocalVariable>, &[Token]), Stop>
    ensures { MatchResult result
        (λ x. ReadsParts (want.local_variables levels ∷ []) levels given.now
        (print_each print_local_variable (map local_variable_tree x.0.items))
        (depth_of_each depth_of_local_variable (map local_variable_tree x.0.items)) x.1.now)
        (λ e. StopsAt (want.local_variables levels ∷ []) given.now e) }
{
    let mut items = Vec::new(alloc);
    let mut rest = given;
    while let Some((name, after)) = ident(alloc, rest)? {
        let (item, after) = local_variable(alloc, name, after, levels)?;
        items.push(item)?;
        rest = after;
    }
    Ok((items, rest))
}

/// What stands behind the first name of `ident {"," ident} ":" type ";"`.
fn local_variable(
    alloc: Global,
    name: Ident,
    given: &[Token],
    levels: usize,
) -> Result<(LocalVariable, &[Token]), Stop>
    ensures { MatchResult result
        (λ x. ReadsSome (want.local_variables levels) levels (ident_token name ∷ given.now)
        (print_local_variable (local_variable_tree x.0)) (depth_of_local_variable (local_variable_tree x.0)) x.1.now
        × (length x.1.now ≤ length given.now))
        (λ e. StopsAt (want.local_variables levels ∷ []) (ident_token name ∷ given.now) e) }
{
    let (next, rest, first) = keeping(name, more_idents(alloc, given))?;
    let names = Idents { first, rest: next };
    let (colon, rest, names) = keeping(names, need_symbol(rest, Symbol::Colon))?;
    let (of_type, rest, names) = keeping(names, any_type(alloc, rest, levels))?;
    let (semicolon, rest, parts) = keeping((names, of_type), need_symbol(rest, Symbol::Semicolon))?;
    let (names, of_type) = parts;
    let item = LocalVariable {
        names,
        colon,
        of_type,
        semicolon,
    };
    Ok((item, rest))
}
