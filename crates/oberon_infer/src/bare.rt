ghost use Rattle.std.specs.Prelude.{◌≡◌};
ghost use Rattle.oberon_tree.specs.Memory.{simple_tree, term_tree, factor_tree, exprs_tree, arguments_option, selectors_list, addends_list, multipliers_list, more_exprs_list};
ghost use Rattle.oberon_rules.specs.Expressions.{type_meant, member_meant, bare_type, bare_simple, bare_designator, argument_type};
ghost use Rattle.oberon_infer.specs.Memory.{plain_scopes, plain_named, plain_ex, plain_type_option};
ghost use Rattle.oberon_infer.specs.Bare.{ex_meant, meant_of_module, bare_term, bare_factor, sole_argument, is_alone, has_addends, has_multipliers, has_more};

use crate::ex::{Ex, ex_of};
use crate::names::{Named, look_up, member};
use crate::scope::Scopes;
use crate::type_ref::TypeRef;
use oberon_tree::{
    Addend, Designator, Expr, Exprs, Factor, Ident, Multiplier, NextExpr, Selector, Signed, Simple,
    Term,
};

/// The type that an argument names, where there is one argument and it is a name alone. Where nobody knows, it is
/// unknown; None where it is no type.
pub fn argument_type<'b>(scopes: &'b Scopes, arguments: &Option<Box<Exprs>>) -> Option<TypeRef<'b>>
    ensures { plain_type_option result ≡ argument_type (plain_scopes scopes.now) (arguments_option arguments.now) }
{
    match arguments {
        Some(exprs) => sole_argument(scopes, exprs),
        None => None,
    }
}

fn sole_argument<'b>(scopes: &'b Scopes, exprs: &Exprs) -> Option<TypeRef<'b>>
    ensures { plain_type_option result ≡ bare_type (plain_scopes scopes.now) (sole_argument (exprs_tree exprs.now)) }
{
    if has_more(exprs.rest.as_slice()) {
        return None;
    }
    match &exprs.first.relation {
        Some(_) => None,
        None => bare_type(scopes, &exprs.first.left),
    }
}

/// The type that a simple expression names, where it is a name alone. Where nobody knows, it is unknown; None where it
/// is no type.
pub fn bare_type<'b>(scopes: &'b Scopes, simple: &Simple) -> Option<TypeRef<'b>>
    ensures { plain_type_option result ≡ bare_type (plain_scopes scopes.now) (bare_simple (simple_tree simple.now)) }
{
    if is_alone(simple.sign, simple.rest.as_slice()) {
        bare_term(scopes, &simple.first)
    } else {
        None
    }
}

fn bare_term<'b>(scopes: &'b Scopes, term: &Term) -> Option<TypeRef<'b>>
    ensures { plain_type_option result ≡ bare_type (plain_scopes scopes.now) (bare_term (term_tree term.now)) }
{
    if has_multipliers(term.rest.as_slice()) {
        return None;
    }
    bare_factor(scopes, &term.first)
}

fn bare_factor<'b>(scopes: &'b Scopes, factor: &Factor) -> Option<TypeRef<'b>>
    ensures { plain_type_option result ≡ bare_type (plain_scopes scopes.now) (bare_factor (factor_tree factor.now)) }
{
    match factor {
        Factor::Designator(designator) => bare_designator(scopes, designator),
        Factor::Integer(_) => None,
        Factor::Str(_) => None,
        Factor::True(_) => None,
        Factor::False(_) => None,
        Factor::Set(_) => None,
        Factor::Group { .. } => None,
        Factor::Not { .. } => None,
    }
}

fn bare_designator<'b>(scopes: &'b Scopes, designator: &Designator) -> Option<TypeRef<'b>>
    ensures { plain_type_option result ≡ bare_type (plain_scopes scopes.now) (bare_designator designator.now.name (selectors_list designator.now.selectors.items)) }
{
    let first = look_up(scopes, &designator.name.name);
    match designator.selectors.as_slice() {
        [] => type_meant(first),
        [selector] => match selector {
            Selector::Field(field) => member_meant(first, &field.name),
            Selector::Index { .. } => None,
            Selector::Call { .. } => None,
        },
        [_, _, ..] => None,
    }
}

/// The type that a name means. Where nobody knows, it is unknown; None where it means no type.
pub fn type_meant<'b>(named: Named<'b, '_>) -> Option<TypeRef<'b>>
    ensures { plain_type_option result ≡ type_meant (plain_named named.entry) }
{
    ex_meant(ex_of(named))
}

fn ex_meant<'b>(x: Ex<'b>) -> Option<TypeRef<'b>>
    ensures { plain_type_option result ≡ ex_meant (plain_ex x.entry) }
{
    match x {
        Ex::Type(ty) => Some(ty),
        Ex::Nothing => Some(TypeRef::Unknown),
        _ => None,
    }
}

fn member_meant<'b>(named: Named<'b, '_>, at: &Ident) -> Option<TypeRef<'b>>
    ensures { plain_type_option result ≡ member_meant (plain_named named.entry) at.now }
{
    meant_of_module(ex_of(named), type_meant(member(named, at)))
}

fn meant_of_module<'b>(x: Ex<'b>, meant: Option<TypeRef<'b>>) -> Option<TypeRef<'b>>
    ensures { plain_type_option result ≡ meant_of_module (plain_ex x.entry) (plain_type_option meant.entry) }
{
    match x {
        Ex::Module(_) => meant,
        Ex::Nothing => Some(TypeRef::Unknown),
        _ => None,
    }
}

fn has_addends(addends: &[Addend]) -> bool
    ensures { result ≡ has_addends (addends_list addends.now) }
{
    match addends {
        [] => false,
        [_, ..] => true,
    }
}

/// Whether a term has more than its first factor.
pub fn has_multipliers(multipliers: &[Multiplier]) -> bool
    ensures { result ≡ has_multipliers (multipliers_list multipliers.now) }
{
    match multipliers {
        [] => false,
        [_, ..] => true,
    }
}

/// Whether a term of a simple expression stands alone.
pub fn is_alone(sign: Option<Signed>, addends: &[Addend]) -> bool
    ensures { result ≡ is_alone sign (addends_list addends.now) }
{
    sign.is_none() && !has_addends(addends)
}

fn has_more(exprs: &[NextExpr]) -> bool
    ensures { result ≡ has_more (more_exprs_list exprs.now) }
{
    match exprs {
        [] => false,
        [_, ..] => true,
    }
}
