ghost use Rattle.std.specs.Prelude.{◌≡◌, IfOk, OnOk};
ghost use Rattle.oberon_tree.specs.Memory.{exprs_tree};
ghost use Rattle.oberon_types.specs.Memory.{plain_ty};
ghost use Rattle.oberon_rules.specs.TypeRules.{array_is, array_says, array_of, array_row};
ghost use Rattle.oberon_infer.specs.Memory.{plain_scopes};
ghost use Rattle.oberon_infer.specs.Adds.{Adds};
ghost use Rattle.std.specs.Option.{option_map};
ghost use Rattle.ob_text.specs.declared.code.Code.TheVariants as codes_of;
ghost use Rattle.oberon_rules.specs.Scopes.{row};
ghost use Rattle.oberon_rules.specs.Operators.{is_bad};
ghost use Rattle.oberon_rules.specs.Expressions.{or_unknown};
ghost use Rattle.oberon_declare.specs.Arrays.{lengths_of, lengths_say, arrays_is, arrays_row};

use ob_text::{Code, Name, NoMemory, Span};
use oberon_constants::length;
use oberon_infer::{Said, Scopes, add_row};
use oberon_tree::Exprs;
use oberon_types::{Ty, array_type};
use std::alloc::Global;

/// The array type of these lengths and this element, and what is said of it (The Programming Language Oberon-07,
/// section 6.2). One that is too large is unknown, and said to be so at `word`.
pub fn array<'a>(
    alloc: Global,
    me: &Name,
    scopes: &Scopes<'a>,
    lengths: &'a Exprs,
    element: Ty,
    word: Span,
    said: &mut Vec<Said<'a>>,
) -> Result<Ty, NoMemory>
    ensures is { IfOk result (λ t. plain_ty t ≡ array_is me.now (plain_scopes scopes.now) (exprs_tree lengths.now) (plain_ty element)) }
    ensures says { OnOk result (Adds said.old.items said.new.items (array_says me.now (plain_scopes scopes.now) (exprs_tree lengths.now) (plain_ty element) word)) }
{
    let lengths = all_lengths(alloc, me, scopes, lengths, said)?;
    arrays(alloc, me, lengths, element, word, said)
}

/// The lengths, in the order of the text.
#[tactic(auto, using(oberon_tree::proofs::ExpressionMemory::exprs_out))]
fn all_lengths<'a>(
    alloc: Global,
    me: &Name,
    scopes: &Scopes<'a>,
    lengths: &'a Exprs,
    said: &mut Vec<Said<'a>>,
) -> Result<Vec<Option<u32>>, NoMemory>
    ensures is { IfOk result (λ ns. ns.items ≡ lengths_of me.now (plain_scopes scopes.now) (exprs_tree lengths.now)) }
    ensures says { OnOk result (Adds said.old.items said.new.items (lengths_say me.now (plain_scopes scopes.now) (exprs_tree lengths.now))) }
{
    let mut found = Vec::new(alloc);
    found.push(length(alloc, me, scopes, &lengths.first, said)?)?;
    for next in lengths.rest.iter() {
        found.push(length(alloc, me, scopes, &next.expr, said)?)?;
    }
    Ok(found)
}

/// Arrays of arrays, from the innermost out.
fn arrays<'a>(
    alloc: Global,
    me: &Name,
    lengths: Vec<Option<u32>>,
    element: Ty,
    word: Span,
    said: &mut Vec<Said<'a>>,
) -> Result<Ty, NoMemory>
    ensures is { IfOk result (λ t. plain_ty t ≡ arrays_is me.now lengths.items (plain_ty element)) }
    ensures says { OnOk result (Adds said.old.items said.new.items (arrays_row me.now lengths.items (plain_ty element) word)) }
{
    let mut lengths = lengths;
    let mut ty = element;
    while let Some(length) = lengths.pop() {
        ty = one_array(alloc, me, length, ty, word, said)?;
    }
    Ok(ty)
}

fn one_array<'a>(
    alloc: Global,
    me: &Name,
    length: Option<u32>,
    element: Ty,
    word: Span,
    said: &mut Vec<Said<'a>>,
) -> Result<Ty, NoMemory>
    ensures is { IfOk result (λ t. plain_ty t ≡ array_of me.now length (plain_ty element)) }
    ensures says { OnOk result (Adds said.old.items said.new.items (array_row me.now length (plain_ty element) word)) }
{
    match length {
        Some(length) => {
            let ty = array_type(alloc, me, length, element)?;
            known_or_large(ty, word, said)
        }
        None => Ok(Ty::Unknown),
    }
}

/// A type, or an unknown one where it is too large.
pub fn known_or_large<'a>(
    ty: Option<Ty>,
    place: Span,
    said: &mut Vec<Said<'a>>,
) -> Result<Ty, NoMemory>
    ensures is { IfOk result (λ t. plain_ty t ≡ or_unknown (option_map plain_ty ty)) }
    ensures says { OnOk result (Adds said.old.items said.new.items (row (is_bad (option_map plain_ty ty)) place codes_of.TypeTooLarge)) }
{
    match ty {
        Some(ty) => Ok(ty),
        None => {
            add_row(said, true, place, Code::TypeTooLarge)?;
            Ok(Ty::Unknown)
        }
    }
}
