//! Procedures (The Programming Language Oberon-07, section 10).
ghost use Rattle.std.specs.Prelude.{◌≡◌, ◌∷◌, ◌++◌, ◌≤◌, [], List, length, map, max, suc, MatchResult};
ghost use Rattle.std.specs.Option.{option_map};
ghost use Rattle.oberon_scan.specs.declared.token.Word.TheVariants as words;
ghost use Rattle.oberon_scan.specs.declared.token.Symbol.TheVariants as symbols;
ghost use Rattle.oberon_scan.specs.declared.token.Token.{Token as AnyToken};
ghost use Rattle.oberon_tree.specs.Tokens.{symbol_token, word_token, ident_token};
ghost use Rattle.oberon_tree.specs.Print.{print_some, print_each, print_ident_def, print_formals, print_locals, print_body, print_return, print_procedure_item};
ghost use Rattle.oberon_tree.specs.Levels.{depth_of_some, depth_of_each, depth_of_formals, depth_of_locals, depth_of_body, depth_of_return, depth_of_procedure_item};
ghost use Rattle.oberon_tree.specs.Memory.{formals_tree, locals_tree, body_tree, return_tree, procedure_item_tree};
ghost use Rattle.oberon_productions.specs.Expected as want;
ghost use Rattle.oberon_productions.specs.Machine.{ident_def_parts, locals_parts};
ghost use Rattle.oberon_productions.specs.Reading.{ReadsParts, ReadsSome, StopsAt};

use crate::expression::expr;
use crate::formal::formals;
use crate::join::keeping;
use crate::local::locals;
use crate::name::ident_def;
use crate::read::{need_ident, need_symbol, need_word, one_less, word};
use crate::statement::statements;
use crate::stop::Stop;
use ob_text::Span;
use oberon_scan::{Symbol, Token, Word};
use oberon_tree::{Body, Formals, Ident, IdentDef, Locals, Procedure, ProcedureItem, ReturnPart};
use std::alloc::Global;

/// What stands before the declarations of a procedure, behind PROCEDURE.
type Heading = (IdentDef, Option<Formals>, Span);

/// The rest of a procedure, from its declarations to its name.
type Rest = (Locals, Option<Body>, Option<ReturnPart>, Span, Ident);

/// `{procedure ";"}`.
pub fn procedures(
    alloc: Global,
    given: &[Token],
    levels: usize,
) -> Result<(Vec<ProcedureItem>, &[Token]), Stop>
    ensures { MatchResult result
        (λ x. ReadsParts (want.procedures levels ∷ []) levels given.now
        (print_each print_procedure_item (map procedure_item_tree x.0.items))
        (depth_of_each depth_of_procedure_item (map procedure_item_tree x.0.items)) x.1.now)
        (λ e. StopsAt (want.procedures levels ∷ []) given.now e) }
{
    let mut items = Vec::new(alloc);
    let mut rest = given;
    while let Some((span, after)) = word(rest, Word::Procedure) {
        let inner = one_less(rest, levels)?;
        let (item, after) = procedure(alloc, span, after, inner)?;
        items.push(item)?;
        rest = after;
    }
    Ok((items, rest))
}

/// What stands behind PROCEDURE, with the `;` behind the procedure.
fn procedure(
    alloc: Global,
    span: Span,
    given: &[Token],
    levels: usize,
) -> Result<(ProcedureItem, &[Token]), Stop>
    ensures { MatchResult result
        (λ x. ReadsSome (want.procedures (suc levels)) (suc levels)
        (word_token words.Procedure span ∷ given.now)
        (print_procedure_item (procedure_item_tree x.0))
        (depth_of_procedure_item (procedure_item_tree x.0)) x.1.now
        × (length x.1.now ≤ length given.now))
        (λ e. StopsAt (want.procedures (suc levels) ∷ []) (word_token words.Procedure span ∷ given.now) e) }
{
    let (found, rest) = heading(alloc, given, levels)?;
    let (behind, rest, found) = keeping(found, rest_of_procedure(alloc, rest, levels))?;
    let (separator, rest, parts) = keeping((found, behind), need_symbol(rest, Symbol::Semicolon))?;
    let (found, behind) = parts;
    let (name, formals, semicolon) = found;
    let (locals, body, returns, end, end_name) = behind;
    let procedure = Procedure {
        word: span,
        name,
        formals,
        semicolon,
        locals,
        body,
        returns,
        end,
        end_name,
    };
    let item = ProcedureItem {
        procedure,
        semicolon: separator,
    };
    Ok((item, rest))
}

/// `identdef [formals] ";"`.
fn heading(alloc: Global, given: &[Token], levels: usize) -> Result<(Heading, &[Token]), Stop>
    ensures { MatchResult result
        (λ x. ReadsParts (ident_def_parts ++ want.some_formals levels ∷ want.symbol symbols.Semicolon ∷ []) levels
        given.now
        (λ (rest : List AnyToken). print_ident_def x.0.0
        (print_some print_formals (option_map formals_tree x.0.1)
        (symbol_token symbols.Semicolon x.0.2 ∷ rest)))
        (depth_of_some depth_of_formals (option_map formals_tree x.0.1)) x.1.now)
        (λ e. StopsAt (ident_def_parts ++ want.some_formals levels ∷ want.symbol symbols.Semicolon ∷ [])
        given.now e) }
{
    let (name, rest) = ident_def(alloc, given)?;
    let (formals, rest, name) = keeping(name, formals(alloc, rest, levels))?;
    let (semicolon, rest, parts) = keeping((name, formals), need_symbol(rest, Symbol::Semicolon))?;
    let (name, formals) = parts;
    Ok(((name, formals, semicolon), rest))
}

/// `locals [BEGIN stmts] [RETURN expr] END ident`.
fn rest_of_procedure(
    alloc: Global,
    given: &[Token],
    levels: usize,
) -> Result<(Rest, &[Token]), Stop>
    ensures { MatchResult result
        (λ x. ReadsParts
        (locals_parts levels ++ want.some_body levels ∷ want.some_return levels
        ∷ want.word words.End ∷ want.ident ∷ []) levels given.now
        (λ (rest : List AnyToken). print_locals (locals_tree x.0.0)
        (print_some print_body (option_map body_tree x.0.1)
        (print_some print_return (option_map return_tree x.0.2)
        (word_token words.End x.0.3 ∷ ident_token x.0.4 ∷ rest))))
        (max (depth_of_locals (locals_tree x.0.0))
        (max (depth_of_some depth_of_body (option_map body_tree x.0.1))
        (depth_of_some depth_of_return (option_map return_tree x.0.2)))) x.1.now)
        (λ e. StopsAt
        (locals_parts levels ++ want.some_body levels ∷ want.some_return levels
        ∷ want.word words.End ∷ want.ident ∷ []) given.now e) }
{
    let (locals, rest) = locals(alloc, given, levels)?;
    let (body, rest, locals) = keeping(locals, body(alloc, rest, levels))?;
    let (returns, rest, parts) = keeping((locals, body), returns(alloc, rest, levels))?;
    let (end, rest, parts) = keeping((parts, returns), need_word(rest, Word::End))?;
    let (end_name, rest, parts) = keeping(parts, need_ident(alloc, rest))?;
    let ((locals, body), returns) = parts;
    Ok(((locals, body, returns, end, end_name), rest))
}

/// `[BEGIN stmts]`.
pub fn body(alloc: Global, given: &[Token], levels: usize) -> Result<(Option<Body>, &[Token]), Stop>
    ensures { MatchResult result
        (λ x. ReadsParts (want.some_body levels ∷ []) levels given.now
        (print_some print_body (option_map body_tree x.0))
        (depth_of_some depth_of_body (option_map body_tree x.0)) x.1.now)
        (λ e. StopsAt (want.some_body levels ∷ []) given.now e) }
{
    let Some((span, rest)) = word(given, Word::Begin) else {
        return Ok((None, given));
    };
    let (statements, rest) = statements(alloc, rest, levels)?;
    let body = Body {
        word: span,
        statements,
    };
    Ok((Some(body), rest))
}

/// `[RETURN expr]`.
fn returns(
    alloc: Global,
    given: &[Token],
    levels: usize,
) -> Result<(Option<ReturnPart>, &[Token]), Stop>
    ensures { MatchResult result
        (λ x. ReadsParts (want.some_return levels ∷ []) levels given.now
        (print_some print_return (option_map return_tree x.0))
        (depth_of_some depth_of_return (option_map return_tree x.0)) x.1.now)
        (λ e. StopsAt (want.some_return levels ∷ []) given.now e) }
{
    let Some((span, rest)) = word(given, Word::Return) else {
        return Ok((None, given));
    };
    let (value, rest) = expr(alloc, rest, levels)?;
    Ok((Some(ReturnPart { word: span, value }), rest))
}
