//! Single tokens, read from the front of those that are left.
ghost use Rattle.std.specs.Prelude.{◌≡◌, ◌∷◌, [], List, eqb, false, length, suc, IfSome, IfNone, MatchOption, MatchResult};
ghost use Rattle.oberon_tree.specs.Tokens.{symbol_token, word_token, ident_token, relator_token, sign_token, add_token, mul_token};
ghost use Rattle.oberon_tree.specs.Print.{print_factor, print_value, print_some, print_sign};
ghost use Rattle.oberon_tree.specs.Levels.{depth_of_factor};
ghost use Rattle.oberon_tree.specs.Memory.{factor_tree};
ghost use Rattle.oberon_productions.specs.Expected as want;
ghost use Rattle.oberon_productions.specs.Tests.{is_symbol, is_word, is_ident, is_literal, is_constant, reach, next_is};
ghost use Rattle.oberon_productions.specs.Reading.{ReadsParts, Single, StopsAt};

use crate::stop::Stop;
use ob_text::Span;
use oberon_scan::{Symbol, Token, TokenKind, Word};
use oberon_tree::{
    AddOperator, Factor, Ident, IntegerLiteral, LabelValue, MulOperator, Relator, Sign, Signed,
    StringLiteral,
};
use std::alloc::Global;

/// The next token and those behind it.
fn head(given: &[Token]) -> Option<(&Token, &[Token])>
    ensures some { IfSome result (λ x. given.now ≡ x.0.now ∷ x.1.now) }
    ensures none { IfNone result (given.now ≡ []) }
{
    given.split_first()
}

/// The next token, if it is this symbol.
pub fn symbol(given: &[Token], wanted: Symbol) -> Option<(Span, &[Token])>
    ensures some { IfSome result (λ x. given.now ≡ symbol_token wanted x.0 ∷ x.1.now) }
    ensures none { IfNone result (next_is (is_symbol wanted) given.now ≡ false) }
{
    let (first, rest) = given.split_first()?;
    match &first.kind {
        TokenKind::Symbol(found) if *found == wanted => Some((first.span, rest)),
        _ => None,
    }
}

/// The next token, if it is this reserved word.
pub fn word(given: &[Token], wanted: Word) -> Option<(Span, &[Token])>
    ensures some { IfSome result (λ x. given.now ≡ word_token wanted x.0 ∷ x.1.now) }
    ensures none { IfNone result (next_is (is_word wanted) given.now ≡ false) }
{
    let (first, rest) = given.split_first()?;
    match &first.kind {
        TokenKind::Word(found) if *found == wanted => Some((first.span, rest)),
        _ => None,
    }
}

/// The next token, if it is an identifier.
pub fn ident(alloc: Global, given: &[Token]) -> Result<Option<(Ident, &[Token])>, Stop>
    ensures { MatchResult result
        (λ o. MatchOption o (next_is is_ident given.now ≡ false)
        (λ x. given.now ≡ ident_token x.0 ∷ x.1.now))
        (λ e. e ≡ Stop.NoMemory) }
{
    let Some((first, rest)) = given.split_first() else {
        return Ok(None);
    };
    match &first.kind {
        TokenKind::Ident(name) => {
            let name = name.copy(alloc)?;
            Ok(Some((
                Ident {
                    span: first.span,
                    name,
                },
                rest,
            )))
        }
        _ => Ok(None),
    }
}

/// This symbol, which has to stand here.
pub fn need_symbol(given: &[Token], wanted: Symbol) -> Result<(Span, &[Token]), Stop>
    ensures { MatchResult result (λ x. given.now ≡ symbol_token wanted x.0 ∷ x.1.now)
        (λ e. StopsAt (want.symbol wanted ∷ []) given.now e) }
{
    match symbol(given, wanted) {
        Some(found) => Ok(found),
        None => Err(Stop::Left(given.len())),
    }
}

/// This reserved word, which has to stand here.
pub fn need_word(given: &[Token], wanted: Word) -> Result<(Span, &[Token]), Stop>
    ensures { MatchResult result (λ x. given.now ≡ word_token wanted x.0 ∷ x.1.now)
        (λ e. StopsAt (want.word wanted ∷ []) given.now e) }
{
    match word(given, wanted) {
        Some(found) => Ok(found),
        None => Err(Stop::Left(given.len())),
    }
}

/// An identifier, which has to stand here.
pub fn need_ident(alloc: Global, given: &[Token]) -> Result<(Ident, &[Token]), Stop>
    ensures { MatchResult result (λ x. given.now ≡ ident_token x.0 ∷ x.1.now)
        (λ e. StopsAt (want.ident ∷ []) given.now e) }
{
    match ident(alloc, given)? {
        Some(found) => Ok(found),
        None => Err(Stop::Left(given.len())),
    }
}

/// The next token, if it is a number or a string, as a factor.
pub fn literal(alloc: Global, given: &[Token]) -> Result<Option<(Factor, &[Token])>, Stop>
    ensures { MatchResult result
        (λ o. MatchOption o (next_is is_literal given.now ≡ false)
        (λ x. Single is_literal given.now (print_factor (factor_tree x.0)) x.1.now
        × (depth_of_factor (factor_tree x.0) ≡ 0)))
        (λ e. e ≡ Stop.NoMemory) }
{
    let Some((first, rest)) = head(given) else {
        return Ok(None);
    };
    let span = first.span;
    match &first.kind {
        TokenKind::Integer(value) => {
            let value = *value;
            Ok(Some((Factor::Integer(IntegerLiteral { span, value }), rest)))
        }
        TokenKind::Str(value) => {
            let value = value.copy(alloc)?;
            Ok(Some((Factor::Str(StringLiteral { span, value }), rest)))
        }
        _ => Ok(None),
    }
}

/// The next token, if it is a number or a string, as the value of a label.
pub fn label_literal(alloc: Global, given: &[Token]) -> Result<Option<(LabelValue, &[Token])>, Stop>
    ensures { MatchResult result
        (λ o. MatchOption o (next_is is_literal given.now ≡ false)
        (λ x. Single is_literal given.now (print_value x.0) x.1.now))
        (λ e. e ≡ Stop.NoMemory) }
{
    let Some((first, rest)) = head(given) else {
        return Ok(None);
    };
    let span = first.span;
    match &first.kind {
        TokenKind::Integer(value) => {
            let value = *value;
            Ok(Some((LabelValue::Integer(IntegerLiteral { span, value }), rest)))
        }
        TokenKind::Str(value) => {
            let value = value.copy(alloc)?;
            Ok(Some((LabelValue::Str(StringLiteral { span, value }), rest)))
        }
        _ => Ok(None),
    }
}

/// The next token, if it is a number, a string, TRUE or FALSE, as a factor.
pub fn constant(alloc: Global, given: &[Token]) -> Result<Option<(Factor, &[Token])>, Stop>
    ensures { MatchResult result
        (λ o. MatchOption o (next_is is_constant given.now ≡ false)
        (λ x. Single is_constant given.now (print_factor (factor_tree x.0)) x.1.now
        × (depth_of_factor (factor_tree x.0) ≡ 0)))
        (λ e. e ≡ Stop.NoMemory) }
{
    if let Some((span, rest)) = word(given, Word::True) {
        return Ok(Some((Factor::True(span), rest)));
    }
    if let Some((span, rest)) = word(given, Word::False) {
        return Ok(Some((Factor::False(span), rest)));
    }
    let Some((found, rest)) = literal(alloc, given)? else {
        return Ok(None);
    };
    Ok(Some((found, rest)))
}

/// A sign, which may stand here.
pub fn sign(given: &[Token]) -> (Option<Signed>, &[Token])
    ensures { ReadsParts (want.some_sign ∷ []) 0 given.now (print_some print_sign result.0) 0 result.1.now }
{
    if let Some((span, rest)) = symbol(given, Symbol::Plus) {
        let sign = Sign::Plus;
        return (Some(Signed { sign, span }), rest);
    }
    if let Some((span, rest)) = symbol(given, Symbol::Minus) {
        let sign = Sign::Minus;
        return (Some(Signed { sign, span }), rest);
    }
    (None, given)
}

/// The next token, if it compares.
pub fn relator(given: &[Token]) -> Option<(Relator, Span, &[Token])>
    ensures some { IfSome result (λ x. given.now ≡ relator_token x.0 x.1 ∷ x.2.now) }
    ensures none { IfNone result (next_is (λ k. eqb (reach k) 6) given.now ≡ false) }
{
    if let Some((span, rest)) = symbol(given, Symbol::Equal) {
        return Some((Relator::Equal, span, rest));
    }
    if let Some((span, rest)) = symbol(given, Symbol::Hash) {
        return Some((Relator::Unequal, span, rest));
    }
    if let Some((span, rest)) = symbol(given, Symbol::Less) {
        return Some((Relator::Less, span, rest));
    }
    if let Some((span, rest)) = symbol(given, Symbol::LessEqual) {
        return Some((Relator::LessEqual, span, rest));
    }
    if let Some((span, rest)) = symbol(given, Symbol::Greater) {
        return Some((Relator::Greater, span, rest));
    }
    if let Some((span, rest)) = symbol(given, Symbol::GreaterEqual) {
        return Some((Relator::GreaterEqual, span, rest));
    }
    if let Some((span, rest)) = word(given, Word::In) {
        return Some((Relator::In, span, rest));
    }
    let (span, rest) = word(given, Word::Is)?;
    Some((Relator::Is, span, rest))
}

/// The next token, if it joins terms.
pub fn add_operator(given: &[Token]) -> Option<(AddOperator, Span, &[Token])>
    ensures some { IfSome result (λ x. given.now ≡ add_token x.0 x.1 ∷ x.2.now) }
    ensures none { IfNone result (next_is (λ k. eqb (reach k) 7) given.now ≡ false) }
{
    if let Some((span, rest)) = symbol(given, Symbol::Plus) {
        return Some((AddOperator::Add, span, rest));
    }
    if let Some((span, rest)) = symbol(given, Symbol::Minus) {
        return Some((AddOperator::Subtract, span, rest));
    }
    let (span, rest) = word(given, Word::Or)?;
    Some((AddOperator::Or, span, rest))
}

/// The next token, if it joins factors.
pub fn mul_operator(given: &[Token]) -> Option<(MulOperator, Span, &[Token])>
    ensures some { IfSome result (λ x. given.now ≡ mul_token x.0 x.1 ∷ x.2.now) }
    ensures none { IfNone result (next_is (λ k. eqb (reach k) 8) given.now ≡ false) }
{
    if let Some((span, rest)) = symbol(given, Symbol::Star) {
        return Some((MulOperator::Multiply, span, rest));
    }
    if let Some((span, rest)) = symbol(given, Symbol::Slash) {
        return Some((MulOperator::Divide, span, rest));
    }
    if let Some((span, rest)) = word(given, Word::Div) {
        return Some((MulOperator::Div, span, rest));
    }
    if let Some((span, rest)) = word(given, Word::Mod) {
        return Some((MulOperator::Mod, span, rest));
    }
    let (span, rest) = symbol(given, Symbol::Ampersand)?;
    Some((MulOperator::And, span, rest))
}

/// One level fewer, for a construct that opens one at the front of the tokens given.
pub fn one_less(given: &[Token], levels: usize) -> Result<usize, Stop>
    ensures { MatchResult result (λ n. levels ≡ suc n)
        (λ e. (levels ≡ 0) × (e ≡ Stop.Left (length given.now))) }
{
    if levels == 0 {
        return Err(Stop::Left(given.len()));
    }
    Ok(levels - 1)
}
