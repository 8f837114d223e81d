//! Declarations of a module (The Programming Language Oberon-07, sections 5 to 7).
ghost use Rattle.std.specs.Prelude.{◌≡◌, ◌∷◌, ◌++◌, ◌≤◌, [], List, length, map, MatchResult};
ghost use Rattle.std.specs.Option.{option_map};
ghost use Rattle.oberon_tree.specs.Tokens.{ident_token};
ghost use Rattle.oberon_tree.specs.Print.{print_some, print_each, print_constant, print_constants, print_type_declaration, print_types, print_variable, print_variables, print_declarations};
ghost use Rattle.oberon_tree.specs.Levels.{depth_of_some, depth_of_each, depth_of_constant, depth_of_constants, depth_of_type_declaration, depth_of_types, depth_of_variable, depth_of_variables, depth_of_declarations};
ghost use Rattle.oberon_tree.specs.Memory.{constant_tree, constants_tree, type_declaration_tree, types_tree, variable_tree, variables_tree, declarations_tree};
ghost use Rattle.oberon_productions.specs.Expected as want;
ghost use Rattle.oberon_productions.specs.Machine.{declarations_parts};
ghost use Rattle.oberon_productions.specs.Reading.{ReadsParts, ReadsSome, StopsAt};

use crate::expression::expr;
use crate::join::keeping;
use crate::name::{mark, more_ident_defs};
use crate::read::{ident, need_symbol, word};
use crate::stop::Stop;
use crate::types::any_type;
use oberon_scan::{Symbol, Token, Word};
use oberon_tree::{
    Constant, Constants, Declarations, Ident, IdentDef, IdentDefs, TypeDeclaration, Types,
    Variable, Variables,
};
use std::alloc::Global;

/// `decls = [constants] [types] [variables]`.
pub fn declarations(
    alloc: Global,
    given: &[Token],
    levels: usize,
) -> Result<(Declarations, &[Token]), Stop>
    ensures { MatchResult result
        (λ x. ReadsParts (declarations_parts levels) levels given.now
        (print_declarations (declarations_tree x.0))
        (depth_of_declarations (declarations_tree x.0)) x.1.now)
        (λ e. StopsAt (declarations_parts levels) given.now e) }
{
    let (constants, rest) = constants(alloc, given, levels)?;
    let (types, rest, constants) = keeping(constants, types(alloc, rest, levels))?;
    let (variables, rest, others) = keeping((constants, types), variables(alloc, rest, levels))?;
    let (constants, types) = others;
    let declarations = Declarations {
        constants,
        types,
        variables,
    };
    Ok((declarations, rest))
}

/// `[CONST {constant}]`.
fn constants(
    alloc: Global,
    given: &[Token],
    levels: usize,
) -> Result<(Option<Constants>, &[Token]), Stop>
    ensures { MatchResult result
        (λ x. ReadsParts (want.some_constants levels ∷ []) levels given.now
        (print_some print_constants (option_map constants_tree x.0))
        (depth_of_some depth_of_constants (option_map constants_tree x.0)) x.1.now)
        (λ e. StopsAt (want.some_constants levels ∷ []) given.now e) }
{
    let Some((span, rest)) = word(given, Word::Const) else {
        return Ok((None, given));
    };
    let (items, rest) = more_constants(alloc, rest, levels)?;
    Ok((Some(Constants { word: span, items }), rest))
}

fn more_constants(
    alloc: Global,
    given: &[Token],
    levels: usize,
) -> Result<(Vec<Constant>, &[Token]), Stop>
    ensures { MatchResult result
        (λ x. ReadsParts (want.constants levels ∷ []) levels given.now
        (print_each print_constant (map constant_tree x.0.items))
        (depth_of_each depth_of_constant (map constant_tree x.0.items)) x.1.now)
        (λ e. StopsAt (want.constants levels ∷ []) given.now e) }
{
    let mut items = Vec::new(alloc);
    let mut rest = given;
    while let Some((name, after)) = ident(alloc, rest)? {
        let (item, after) = constant(alloc, name, after, levels)?;
        items.push(item)?;
        rest = after;
    }
    Ok((items, rest))
}

/// What stands behind the first name of `identdef "=" expr ";"`.
fn constant(
    alloc: Global,
    name: Ident,
    given: &[Token],
    levels: usize,
) -> Result<(Constant, &[Token]), Stop>
    ensures { MatchResult result
        (λ x. ReadsSome (want.constants levels) levels (ident_token name ∷ given.now)
        (print_constant (constant_tree x.0)) (depth_of_constant (constant_tree x.0)) x.1.now
        × (length x.1.now ≤ length given.now))
        (λ e. StopsAt (want.constants levels ∷ []) (ident_token name ∷ given.now) e) }
{
    let (export, rest) = mark(given);
    let name = IdentDef { name, export };
    let (equal, rest, name) = keeping(name, need_symbol(rest, Symbol::Equal))?;
    let (value, rest, name) = keeping(name, expr(alloc, rest, levels))?;
    let (semicolon, rest, parts) = keeping((name, value), need_symbol(rest, Symbol::Semicolon))?;
    let (name, value) = parts;
    let item = Constant {
        name,
        equal,
        value,
        semicolon,
    };
    Ok((item, rest))
}

/// `[TYPE {typedeclaration}]`.
fn types(alloc: Global, given: &[Token], levels: usize) -> Result<(Option<Types>, &[Token]), Stop>
    ensures { MatchResult result
        (λ x. ReadsParts (want.some_types levels ∷ []) levels given.now
        (print_some print_types (option_map types_tree x.0))
        (depth_of_some depth_of_types (option_map types_tree x.0)) x.1.now)
        (λ e. StopsAt (want.some_types levels ∷ []) given.now e) }
{
    let Some((span, rest)) = word(given, Word::Type) else {
        return Ok((None, given));
    };
    let (items, rest) = more_types(alloc, rest, levels)?;
    Ok((Some(Types { word: span, items }), rest))
}

fn more_types(
    alloc: Global,
    given: &[Token],
    levels: usize,
) -> Result<(Vec<TypeDeclaration>, &[Token]), Stop>
    ensures { MatchResult result
        (λ x. ReadsParts (want.types levels ∷ []) levels given.now
        (print_each print_type_declaration (map type_declaration_tree x.0.items))
        (depth_of_each depth_of_type_declaration (map type_declaration_tree x.0.items)) x.1.now)
        (λ e. StopsAt (want.types levels ∷ []) given.now e) }
{
    let mut items = Vec::new(alloc);
    let mut rest = given;
    while let Some((name, after)) = ident(alloc, rest)? {
        let (item, after) = type_declaration(alloc, name, after, levels)?;
        items.push(item)?;
        rest = after;
    }
    Ok((items, rest))
}

/// What stands behind the first name of `identdef "=" type ";"`.
fn type_declaration(
    alloc: Global,
    name: Ident,
    given: &[Token],
    levels: usize,
) -> Result<(TypeDeclaration, &[Token]), Stop>
    ensures { MatchResult result
        (λ x. ReadsSome (want.types levels) levels (ident_token name ∷ given.now)
        (print_type_declaration (type_declaration_tree x.0)) (depth_of_type_declaration (type_declaration_tree x.0)) x.1.now
        × (length x.1.now ≤ length given.now))
        (λ e. StopsAt (want.types levels ∷ []) (ident_token name ∷ given.now) e) }
{
    let (export, rest) = mark(given);
    let name = IdentDef { name, export };
    let (equal, rest, name) = keeping(name, need_symbol(rest, Symbol::Equal))?;
    let (of_type, rest, name) = keeping(name, any_type(alloc, rest, levels))?;
    let (semicolon, rest, parts) = keeping((name, of_type), need_symbol(rest, Symbol::Semicolon))?;
    let (name, of_type) = parts;
    let item = TypeDeclaration {
        name,
        equal,
        of_type,
        semicolon,
    };
    Ok((item, rest))
}

/// `[VAR {variable}]`.
fn variables(
    alloc: Global,
    given: &[Token],
    levels: usize,
) -> Result<(Option<Variables>, &[Token]), Stop>
    ensures { MatchResult result
        (λ x. ReadsParts (want.some_variables levels ∷ []) levels given.now
        (print_some print_variables (option_map variables_tree x.0))
        (depth_of_some depth_of_variables (option_map variables_tree x.0)) x.1.now)
        (λ e. StopsAt (want.some_variables levels ∷ []) given.now e) }
{
    let Some((span, rest)) = word(given, Word::Var) else {
        return Ok((None, given));
    };
    let (items, rest) = more_variables(alloc, rest, levels)?;
    Ok((Some(Variables { word: span, items }), rest))
}

fn more_variables(
    alloc: Global,
    given: &[Token],
    levels: usize,
) -> Result<(Vec<Variable>, &[Token]), Stop>
    ensures { MatchResult result
        (λ x. ReadsParts (want.variables levels ∷ []) levels given.now
        (print_each print_variable (map variable_tree x.0.items))
        (depth_of_each depth_of_variable (map variable_tree x.0.items)) x.1.now)
        (λ e. StopsAt (want.variables levels ∷ []) given.now e) }
{
    let mut items = Vec::new(alloc);
    let mut rest = given;
    while let Some((name, after)) = ident(alloc, rest)? {
        let (item, after) = variable(alloc, name, after, levels)?;
        items.push(item)?;
        rest = after;
    }
    Ok((items, rest))
}

/// What stands behind the first name of `identlist ":" type ";"`.
fn variable(
    alloc: Global,
    name: Ident,
    given: &[Token],
    levels: usize,
) -> Result<(Variable, &[Token]), Stop>
    ensures { MatchResult result
        (λ x. ReadsSome (want.variables levels) levels (ident_token name ∷ given.now)
        (print_variable (variable_tree x.0)) (depth_of_variable (variable_tree x.0)) x.1.now
        × (length x.1.now ≤ length given.now))
        (λ e. StopsAt (want.variables levels ∷ []) (ident_token name ∷ given.now) e) }
{
    let (export, rest) = mark(given);
    let first = IdentDef { name, export };
    let (next, rest, first) = keeping(first, more_ident_defs(alloc, rest))?;
    let names = IdentDefs { first, rest: next };
    let (colon, rest, names) = keeping(names, need_symbol(rest, Symbol::Colon))?;
    let (of_type, rest, names) = keeping(names, any_type(alloc, rest, levels))?;
    let (semicolon, rest, parts) = keeping((names, of_type), need_symbol(rest, Symbol::Semicolon))?;
    let (names, of_type) = parts;
    let item = Variable {
        names,
        colon,
        of_type,
        semicolon,
    };
    Ok((item, rest))
}
