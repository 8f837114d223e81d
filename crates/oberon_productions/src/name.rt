//! Names in a row, and names with a mark or a member (The Programming Language Oberon-07, sections 4 to 6).
ghost use Rattle.std.specs.Prelude.{◌≡◌, ◌∷◌, [], List, MatchResult};
ghost use Rattle.oberon_tree.specs.Print.{print_some, print_each, print_member, print_qualident, print_mark, print_ident_def, print_next_ident_def, print_ident_defs, print_next_ident, print_idents};
ghost use Rattle.oberon_tree.specs.Memory.{ident_defs_tree, idents_tree};
ghost use Rattle.oberon_productions.specs.Expected as want;
ghost use Rattle.oberon_productions.specs.Machine.{qualident_parts, ident_def_parts, ident_defs_parts, idents_parts};
ghost use Rattle.oberon_productions.specs.Reading.{ReadsParts, StopsAt};

use crate::read::{need_ident, symbol};
use crate::stop::Stop;
use ob_text::Span;
use oberon_scan::{Symbol, Token};
use oberon_tree::{Ident, IdentDef, IdentDefs, Idents, Member, NextIdent, NextIdentDef, Qualident};
use std::alloc::Global;

/// `["." ident]`.
pub fn member(alloc: Global, given: &[Token]) -> Result<(Option<Member>, &[Token]), Stop>
    ensures { MatchResult result
        (λ x. ReadsParts (want.some_member ∷ []) 0 given.now (print_some print_member x.0) 0 x.1.now)
        (λ e. StopsAt (want.some_member ∷ []) given.now e) }
{
    let Some((period, rest)) = symbol(given, Symbol::Period) else {
        return Ok((None, given));
    };
    let (name, rest) = need_ident(alloc, rest)?;
    Ok((Some(Member { period, name }), rest))
}

/// `qualident = ident ["." ident]`.
pub fn qualident(alloc: Global, given: &[Token]) -> Result<(Qualident, &[Token]), Stop>
    ensures { MatchResult result
        (λ x. ReadsParts qualident_parts 0 given.now (print_qualident x.0) 0 x.1.now)
        (λ e. StopsAt qualident_parts given.now e) }
{
    let (first, rest) = need_ident(alloc, given)?;
    let (member, rest) = member(alloc, rest)?;
    Ok((Qualident { first, member }, rest))
}

/// `["*"]`.
pub fn mark(given: &[Token]) -> (Option<Span>, &[Token])
    ensures { ReadsParts (want.some_mark ∷ []) 0 given.now (print_some print_mark result.0) 0 result.1.now }
{
    match symbol(given, Symbol::Star) {
        Some((span, rest)) => (Some(span), rest),
        None => (None, given),
    }
}

/// `identdef = ident ["*"]`.
pub fn ident_def(alloc: Global, given: &[Token]) -> Result<(IdentDef, &[Token]), Stop>
    ensures { MatchResult result
        (λ x. ReadsParts ident_def_parts 0 given.now (print_ident_def x.0) 0 x.1.now)
        (λ e. StopsAt ident_def_parts given.now e) }
{
    let (name, rest) = need_ident(alloc, given)?;
    let (export, rest) = mark(rest);
    Ok((IdentDef { name, export }, rest))
}

/// `{"," identdef}`.
pub fn more_ident_defs(
    alloc: Global,
    given: &[Token],
) -> Result<(Vec<NextIdentDef>, &[Token]), Stop>
    ensures { MatchResult result
        (λ x. ReadsParts (want.ident_defs ∷ []) 0 given.now
        (print_each print_next_ident_def x.0.items) 0 x.1.now)
        (λ e. StopsAt (want.ident_defs ∷ []) given.now e) }
{
    let mut items = Vec::new(alloc);
    let mut rest = given;
    while let Some((comma, after)) = symbol(rest, Symbol::Comma) {
        let (ident, after) = ident_def(alloc, after)?;
        items.push(NextIdentDef { comma, ident })?;
        rest = after;
    }
    Ok((items, rest))
}

/// `identlist = identdef {"," identdef}`.
pub fn ident_defs(alloc: Global, given: &[Token]) -> Result<(IdentDefs, &[Token]), Stop>
    ensures { MatchResult result
        (λ x. ReadsParts ident_defs_parts 0 given.now (print_ident_defs (ident_defs_tree x.0)) 0 x.1.now)
        (λ e. StopsAt ident_defs_parts given.now e) }
{
    let (first, rest) = ident_def(alloc, given)?;
    let (rest_names, rest) = more_ident_defs(alloc, rest)?;
    let names = IdentDefs {
        first,
        rest: rest_names,
    };
    Ok((names, rest))
}

/// `{"," ident}`.
pub fn more_idents(alloc: Global, given: &[Token]) -> Result<(Vec<NextIdent>, &[Token]), Stop>
    ensures { MatchResult result
        (λ x. ReadsParts (want.idents ∷ []) 0 given.now
        (print_each print_next_ident x.0.items) 0 x.1.now)
        (λ e. StopsAt (want.idents ∷ []) given.now e) }
{
    let mut items = Vec::new(alloc);
    let mut rest = given;
    while let Some((comma, after)) = symbol(rest, Symbol::Comma) {
        let (ident, after) = need_ident(alloc, after)?;
        items.push(NextIdent { comma, ident })?;
        rest = after;
    }
    Ok((items, rest))
}

/// `ident {"," ident}`.
pub fn idents(alloc: Global, given: &[Token]) -> Result<(Idents, &[Token]), Stop>
    ensures { MatchResult result
        (λ x. ReadsParts idents_parts 0 given.now (print_idents (idents_tree x.0)) 0 x.1.now)
        (λ e. StopsAt idents_parts given.now e) }
{
    let (first, rest) = need_ident(alloc, given)?;
    let (rest_names, rest) = more_idents(alloc, rest)?;
    let names = Idents {
        first,
        rest: rest_names,
    };
    Ok((names, rest))
}
