//! Imports and the module (The Programming Language Oberon-07, section 11).
ghost use Rattle.std.specs.Prelude.{◌≡◌, ◌∷◌, ◌++◌, [], List, MatchResult};
ghost use Rattle.std.specs.Option.{option_map};
ghost use Rattle.oberon_scan.specs.declared.token.Word.TheVariants as words;
ghost use Rattle.oberon_scan.specs.declared.token.Symbol.TheVariants as symbols;
ghost use Rattle.oberon_scan.specs.declared.token.Token.{Token as AnyToken};
ghost use Rattle.oberon_tree.specs.Tokens.{symbol_token, word_token, ident_token};
ghost use Rattle.oberon_tree.specs.Print.{print_some, print_each, print_alias, print_import, print_next_import, print_imports, print_body, print_module};
ghost use Rattle.oberon_tree.specs.Levels.{depth_of_some, depth_of_body, depth_of_module};
ghost use Rattle.oberon_tree.specs.Memory.{imports_tree, body_tree, module_tree};
ghost use Rattle.oberon_productions.specs.Expected as want;
ghost use Rattle.oberon_productions.specs.Machine.{import_parts, module_parts};
ghost use Rattle.oberon_productions.specs.Reading.{ReadsParts, StopsAt};

use ob_text::Span;
use oberon_productions::{
    Stop, body, declarations, keeping, need_ident, need_symbol, need_word, procedures, symbol, word,
};
use oberon_scan::{Symbol, Token, Word};
use oberon_tree::{Alias, Body, Ident, Import, Imports, Module, NextImport};
use std::alloc::Global;

/// What stands before the declarations of a module.
type Heading = (Span, Ident, Span, Option<Imports>);

/// The rest of a module, from its body to its period.
type Rest = (Option<Body>, Span, Ident, Span);

/// `module = MODULE ident ";" [imports] decls {procedure ";"} [BEGIN stmts] END ident "."`.
pub fn any_module(alloc: Global, given: &[Token], levels: usize) -> Result<(Module, &[Token]), Stop>
    ensures { MatchResult result
        (λ x. ReadsParts (module_parts levels) levels given.now (print_module (module_tree x.0))
        (depth_of_module (module_tree x.0)) x.1.now)
        (λ e. StopsAt (module_parts levels) given.now e) }
{
    let (found, rest) = heading(alloc, given)?;
    let (declarations, rest, found) = keeping(found, declarations(alloc, rest, levels))?;
    let (procedures, rest, parts) = keeping(
        (found, declarations),
        procedures(alloc, rest, levels),
    )?;
    let (behind, rest, parts) = keeping((parts, procedures), rest_of_module(alloc, rest, levels))?;
    let ((found, declarations), procedures) = parts;
    let (span, name, semicolon, imports) = found;
    let (body, end, end_name, period) = behind;
    let module = Module {
        word: span,
        name,
        semicolon,
        imports,
        declarations,
        procedures,
        body,
        end,
        end_name,
        period,
    };
    Ok((module, rest))
}

/// `MODULE ident ";" [imports]`.
fn heading(alloc: Global, given: &[Token]) -> Result<(Heading, &[Token]), Stop>
    ensures { MatchResult result
        (λ x. ReadsParts
        (want.word words.Module ∷ want.ident ∷ want.symbol symbols.Semicolon ∷ want.some_imports ∷ []) 0
        given.now
        (λ (rest : List AnyToken). word_token words.Module x.0.0 ∷ ident_token x.0.1
        ∷ symbol_token symbols.Semicolon x.0.2
        ∷ print_some print_imports (option_map imports_tree x.0.3) rest) 0 x.1.now)
        (λ e. StopsAt
        (want.word words.Module ∷ want.ident ∷ want.symbol symbols.Semicolon ∷ want.some_imports ∷ [])
        given.now e) }
{
    let (span, rest) = need_word(given, Word::Module)?;
    let (name, rest) = need_ident(alloc, rest)?;
    let (semicolon, rest, name) = keeping(name, need_symbol(rest, Symbol::Semicolon))?;
    let (imports, rest, name) = keeping(name, imports(alloc, rest))?;
    Ok(((span, name, semicolon, imports), rest))
}

/// `[BEGIN stmts] END ident "."`.
fn rest_of_module(alloc: Global, given: &[Token], levels: usize) -> Result<(Rest, &[Token]), Stop>
    ensures { MatchResult result
        (λ x. ReadsParts
        (want.some_body levels ∷ want.word words.End ∷ want.ident ∷ want.symbol symbols.Period ∷ []) levels
        given.now
        (λ (rest : List AnyToken). print_some print_body (option_map body_tree x.0.0)
        (word_token words.End x.0.1 ∷ ident_token x.0.2 ∷ symbol_token symbols.Period x.0.3 ∷ rest))
        (depth_of_some depth_of_body (option_map body_tree x.0.0)) x.1.now)
        (λ e. StopsAt
        (want.some_body levels ∷ want.word words.End ∷ want.ident ∷ want.symbol symbols.Period ∷ [])
        given.now e) }
{
    let (body, rest) = body(alloc, given, levels)?;
    let (end, rest, body) = keeping(body, need_word(rest, Word::End))?;
    let (end_name, rest, body) = keeping(body, need_ident(alloc, rest))?;
    let (period, rest, parts) = keeping((body, end_name), need_symbol(rest, Symbol::Period))?;
    let (body, end_name) = parts;
    Ok(((body, end, end_name, period), rest))
}

/// `[IMPORT import {"," import} ";"]`.
fn imports(alloc: Global, given: &[Token]) -> Result<(Option<Imports>, &[Token]), Stop>
    ensures { MatchResult result
        (λ x. ReadsParts (want.some_imports ∷ []) 0 given.now
        (print_some print_imports (option_map imports_tree x.0)) 0 x.1.now)
        (λ e. StopsAt (want.some_imports ∷ []) given.now e) }
{
    let Some((span, rest)) = word(given, Word::Import) else {
        return Ok((None, given));
    };
    let (first, rest) = import(alloc, rest)?;
    let (next, rest, first) = keeping(first, more_imports(alloc, rest))?;
    let (semicolon, rest, parts) = keeping((first, next), need_symbol(rest, Symbol::Semicolon))?;
    let (first, next) = parts;
    let imports = Imports {
        word: span,
        first,
        rest: next,
        semicolon,
    };
    Ok((Some(imports), rest))
}

/// `{"," import}`.
fn more_imports(alloc: Global, given: &[Token]) -> Result<(Vec<NextImport>, &[Token]), Stop>
    ensures { MatchResult result
        (λ x. ReadsParts (want.imports ∷ []) 0 given.now (print_each print_next_import x.0.items) 0 x.1.now)
        (λ e. StopsAt (want.imports ∷ []) given.now e) }
{
    let mut items = Vec::new(alloc);
    let mut rest = given;
    while let Some((comma, after)) = symbol(rest, Symbol::Comma) {
        let (import, after) = import(alloc, after)?;
        items.push(NextImport { comma, import })?;
        rest = after;
    }
    Ok((items, rest))
}

/// `import = ident [":=" ident]`.
fn import(alloc: Global, given: &[Token]) -> Result<(Import, &[Token]), Stop>
    ensures { MatchResult result
        (λ x. ReadsParts import_parts 0 given.now (print_import x.0) 0 x.1.now)
        (λ e. StopsAt import_parts given.now e) }
{
    let (name, rest) = need_ident(alloc, given)?;
    let (alias, rest) = alias(alloc, rest)?;
    Ok((Import { name, alias }, rest))
}

/// `[":=" ident]`.
fn alias(alloc: Global, given: &[Token]) -> Result<(Option<Alias>, &[Token]), Stop>
    ensures { MatchResult result
        (λ x. ReadsParts (want.some_alias ∷ []) 0 given.now (print_some print_alias x.0) 0 x.1.now)
        (λ e. StopsAt (want.some_alias ∷ []) given.now e) }
{
    let Some((becomes, rest)) = symbol(given, Symbol::Becomes) else {
        return Ok((None, given));
    };
    let (imported, rest) = need_ident(alloc, rest)?;
    Ok((Some(Alias { becomes, imported }), rest))
}
