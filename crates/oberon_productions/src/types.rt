//! Types (The Programming Language Oberon-07, section 6). Each function is given how many more levels may
//! be opened.
ghost use Rattle.std.specs.Prelude.{◌≡◌, ◌∷◌, ◌++◌, [], List, suc, MatchResult};
ghost use Rattle.oberon_scan.specs.declared.token.Word.TheVariants as words;
ghost use Rattle.oberon_tree.specs.Tokens.{word_token};
ghost use Rattle.oberon_tree.specs.Print.{print_some, print_base, print_type, print_field_lists, print_more_fields, print_fields};
ghost use Rattle.oberon_tree.specs.Levels.{depth_of_type, depth_of_field_lists, depth_of_more_fields, depth_of_fields};
ghost use Rattle.oberon_tree.specs.Memory.{type_tree, field_lists_tree, more_fields_list, fields_tree};
ghost use Rattle.oberon_productions.specs.Expected as want;
ghost use Rattle.oberon_productions.specs.Machine.{fields_parts};
ghost use Rattle.oberon_productions.specs.Reading.{ReadsParts, StopsAt};

use crate::expression::exprs;
use crate::join::keeping;
use crate::name::{ident_defs, member, qualident};
use crate::read::{ident, need_symbol, need_word, symbol, word};
use crate::stop::Stop;
use ob_text::Span;
use oberon_scan::{Symbol, Token, Word};
use oberon_tree::{ArrayType, Base, FieldLists, Fields, NextFields, Qualident, RecordType, Type};
use std::alloc::Global;

/// `type = qualident | array | record`.
#[cycle(type_part)]
pub fn any_type(alloc: Global, given: &[Token], levels: usize) -> Result<(Type, &[Token]), Stop>
    ensures { MatchResult result
        (λ x. ReadsParts (want.type_part levels ∷ []) levels given.now (print_type (type_tree x.0))
        (depth_of_type (type_tree x.0)) x.1.now)
        (λ e. StopsAt (want.type_part levels ∷ []) given.now e) }
{
    if let Some((first, rest)) = ident(alloc, given)? {
        let (member, rest) = member(alloc, rest)?;
        return Ok((Type::Named(Qualident { first, member }), rest));
    }
    if levels == 0 {
        return Err(Stop::Left(given.len()));
    }
    if let Some((span, rest)) = word(given, Word::Array) {
        return array(alloc, span, rest, levels - 1);
    }
    if let Some((span, rest)) = word(given, Word::Record) {
        return record_type(alloc, span, rest, levels - 1);
    }
    Err(Stop::Left(given.len()))
}

/// What stands behind ARRAY: `expr {"," expr} OF type`.
#[cycle(type_part)]
fn array(
    alloc: Global,
    span: Span,
    given: &[Token],
    levels: usize,
) -> Result<(Type, &[Token]), Stop>
    ensures { MatchResult result
        (λ x. ReadsParts (want.type_part (suc levels) ∷ []) (suc levels)
        (word_token words.Array span ∷ given.now) (print_type (type_tree x.0))
        (depth_of_type (type_tree x.0)) x.1.now)
        (λ e. StopsAt (want.type_part (suc levels) ∷ []) (word_token words.Array span ∷ given.now) e) }
{
    let (lengths, rest) = exprs(alloc, given, levels)?;
    let (of, rest, lengths) = keeping(lengths, need_word(rest, Word::Of))?;
    let (element, rest, lengths) = keeping(lengths, any_type(alloc, rest, levels))?;
    let array = ArrayType {
        word: span,
        lengths,
        of,
        element,
    };
    let boxed = Box::new(alloc, array)?;
    Ok((Type::Array(boxed), rest))
}

/// What stands behind RECORD: `["(" qualident ")"] [fields {";" fields}] END`.
#[cycle(type_part)]
fn record_type(
    alloc: Global,
    span: Span,
    given: &[Token],
    levels: usize,
) -> Result<(Type, &[Token]), Stop>
    ensures { MatchResult result
        (λ x. ReadsParts (want.type_part (suc levels) ∷ []) (suc levels)
        (word_token words.Record span ∷ given.now) (print_type (type_tree x.0))
        (depth_of_type (type_tree x.0)) x.1.now)
        (λ e. StopsAt (want.type_part (suc levels) ∷ []) (word_token words.Record span ∷ given.now) e) }
{
    let (base, rest) = base(alloc, given)?;
    if let Some((end, rest)) = word(rest, Word::End) {
        let empty = RecordType {
            word: span,
            base,
            fields: None,
            end,
        };
        let boxed = Box::new(alloc, empty)?;
        return Ok((Type::Record(boxed), rest));
    }
    let (lists, rest, base) = keeping(base, field_lists(alloc, rest, levels))?;
    let (end, rest, parts) = keeping((base, lists), need_word(rest, Word::End))?;
    let (base, lists) = parts;
    let record = RecordType {
        word: span,
        base,
        fields: Some(lists),
        end,
    };
    let filled = Box::new(alloc, record)?;
    Ok((Type::Record(filled), rest))
}

/// `fields {";" fields}`.
#[cycle(type_part)]
fn field_lists(
    alloc: Global,
    given: &[Token],
    levels: usize,
) -> Result<(FieldLists, &[Token]), Stop>
    ensures { MatchResult result
        (λ x. ReadsParts (fields_parts levels ++ want.fields levels ∷ []) levels given.now
        (print_field_lists (field_lists_tree x.0)) (depth_of_field_lists (field_lists_tree x.0)) x.1.now)
        (λ e. StopsAt (fields_parts levels ++ want.fields levels ∷ []) given.now e) }
{
    let (first, rest) = fields(alloc, given, levels)?;
    let (next, rest, first) = keeping(first, more_fields(alloc, rest, levels))?;
    let lists = FieldLists { first, rest: next };
    Ok((lists, rest))
}

/// `{";" fields}`.
#[cycle(type_part)]
fn more_fields(
    alloc: Global,
    given: &[Token],
    levels: usize,
) -> Result<(Vec<NextFields>, &[Token]), Stop>
    ensures { MatchResult result
        (λ x. ReadsParts (want.fields levels ∷ []) levels given.now
        (print_more_fields (more_fields_list x.0.items))
        (depth_of_more_fields (more_fields_list x.0.items)) x.1.now)
        (λ e. StopsAt (want.fields levels ∷ []) given.now e) }
{
    let mut items = Vec::new(alloc);
    let mut rest = given;
    while let Some((semicolon, after)) = symbol(rest, Symbol::Semicolon) {
        let (fields, after) = fields(alloc, after, levels)?;
        items.push(NextFields { semicolon, fields })?;
        rest = after;
    }
    Ok((items, rest))
}

/// `fields = identlist ":" type`.
#[cycle(type_part)]
fn fields(alloc: Global, given: &[Token], levels: usize) -> Result<(Fields, &[Token]), Stop>
    ensures { MatchResult result
        (λ x. ReadsParts (fields_parts levels) levels given.now (print_fields (fields_tree x.0))
        (depth_of_fields (fields_tree x.0)) x.1.now)
        (λ e. StopsAt (fields_parts levels) given.now e) }
{
    let (names, rest) = ident_defs(alloc, given)?;
    let (colon, rest, names) = keeping(names, need_symbol(rest, Symbol::Colon))?;
    let (of_type, rest, names) = keeping(names, any_type(alloc, rest, levels))?;
    let fields = Fields {
        names,
        colon,
        of_type,
    };
    Ok((fields, rest))
}

/// `["(" qualident ")"]`.
fn base(alloc: Global, given: &[Token]) -> Result<(Option<Base>, &[Token]), Stop>
    ensures { MatchResult result
        (λ x. ReadsParts (want.some_base ∷ []) 0 given.now (print_some print_base x.0) 0 x.1.now)
        (λ e. StopsAt (want.some_base ∷ []) given.now e) }
{
    let Some((opening, rest)) = symbol(given, Symbol::OpenParen) else {
        return Ok((None, given));
    };
    let (name, rest) = qualident(alloc, rest)?;
    let (closing, rest) = need_symbol(rest, Symbol::CloseParen)?;
    let base = Base {
        opening,
        name,
        closing,
    };
    Ok((Some(base), rest))
}
