ghost use Rattle.std.specs.Prelude.{◌≡◌, OnOk};
ghost use Rattle.oberon_types.specs.Memory.{plain_ty, plain_param};
ghost use Rattle.oberon_rules.specs.ExpressionRules.{a_param, word_wants, one_wanted, two_wanted, one_or_two, or_none, first_wanted, later_wanted, var_fits, value_fits, elements_same, is_char, is_array, changed_rows, array_rows, wanted_rows, argument_rows, argument_count};
ghost use Rattle.oberon_tree.specs.Memory.{arguments_option};
ghost use Rattle.oberon_infer.specs.Memory.{plain_ex, plain_type, plain_word, plain_wanted, plain_wanted_option, plain_expected, plain_expected_option};
ghost use Rattle.oberon_infer.specs.Parts.{wants_of};
ghost use Rattle.oberon_infer.specs.Adds.{Adds};

use crate::ex::Ex;
use crate::rows::add_value_row;
use crate::said::{Said, add_broken, add_row};
use crate::standard::Word;
use crate::type_ref::{TypeRef, are_same, borrowed, is_assignable, is_or_extends};
use ob_text::{Code, NoMemory, Span};
use oberon_tree::Exprs;
use oberon_types::{Param, Ty, same_type};

/// What an argument has to be.
#[derive(Clone, Copy)]
pub enum Wanted<'b> {
    Value(TypeRef<'b>),
    Var(TypeRef<'b>),
    Ordinal,
    WholeVariable,
    SetVariable,
    Array,
}

/// What the arguments that are left have to be.
#[derive(Clone, Copy)]
pub enum Expected<'b> {
    /// They aren't compared.
    Nothing,
    One(Wanted<'b>),
    Two(Wanted<'b>, Wanted<'b>),
    Params(&'b [Param]),
}

impl<'b> Expected<'b> {
    /// What the first of them has to be.
    pub fn first(self) -> Option<Wanted<'b>>
        ensures { plain_wanted_option result ≡ first_wanted (plain_expected self.entry) }
    {
        match self {
            Expected::Nothing => None,
            Expected::One(first) => Some(first),
            Expected::Two(first, _) => Some(first),
            Expected::Params(params) => match params.split_first() {
                Some((param, _)) => Some(wanted_for(param)),
                None => None,
            },
        }
    }

    /// What those behind the first have to be.
    pub fn later(self) -> Expected<'b>
        ensures { plain_expected result ≡ later_wanted (plain_expected self.entry) }
    {
        match self {
            Expected::Nothing => Expected::Nothing,
            Expected::One(_) => Expected::Nothing,
            Expected::Two(_, second) => Expected::One(second),
            Expected::Params(params) => match params.split_first() {
                Some((_, later)) => Expected::Params(later),
                None => Expected::Nothing,
            },
        }
    }
}

fn wanted_for<'b>(param: &'b Param) -> Wanted<'b>
    ensures { plain_wanted result ≡ a_param (plain_param param.now) }
{
    if param.by_var {
        Wanted::Var(borrowed(&param.ty))
    } else {
        Wanted::Value(borrowed(&param.ty))
    }
}

/// How many arguments there are.
pub fn argument_count(arguments: &Option<Box<Exprs>>) -> usize
    ensures { result ≡ argument_count (arguments_option arguments.now) }
{
    match arguments {
        Some(exprs) => 1 + exprs.rest.len(),
        None => 0,
    }
}

/// What so many arguments of a call have to be; None where it doesn't take so many.
pub fn expectation<'b>(x: Ex<'b>, count: usize) -> Option<Expected<'b>>
    ensures { plain_expected_option result ≡ wants_of (plain_ex x.entry) count }
{
    match x {
        Ex::Procedure(signature) => {
            if count == signature.params.len() {
                Some(Expected::Params(signature.params.as_slice()))
            } else {
                None
            }
        }
        Ex::Word(word) => expected_by(word, count),
        _ => Some(Expected::Nothing),
    }
}

fn expected_by<'b>(word: Word, count: usize) -> Option<Expected<'b>>
    ensures { plain_expected_option result ≡ word_wants (plain_word word) count }
{
    let whole = Wanted::Value(TypeRef::Integer);
    match word {
        Word::Abs => one_wanted(count, whole),
        Word::Odd => one_wanted(count, whole),
        Word::Chr => one_wanted(count, whole),
        Word::Ord => one_wanted(count, Wanted::Ordinal),
        Word::Len => one_wanted(count, Wanted::Array),
        Word::Lsl => two_wanted(count, whole, whole),
        Word::Asr => two_wanted(count, whole, whole),
        Word::Ror => two_wanted(count, whole, whole),
        Word::Inc => one_or_two(count, Wanted::WholeVariable, whole),
        Word::Dec => one_or_two(count, Wanted::WholeVariable, whole),
        Word::Incl => two_wanted(count, Wanted::SetVariable, whole),
        Word::Excl => two_wanted(count, Wanted::SetVariable, whole),
        Word::Assert => one_wanted(count, Wanted::Value(TypeRef::Boolean)),
    }
}

/// What is expected, or nothing in place of none.
pub fn or_nothing<'b>(expected: Option<Expected<'b>>) -> Expected<'b>
    ensures { plain_expected result ≡ or_none (plain_expected_option expected.entry) }
{
    match expected {
        Some(expected) => expected,
        None => Expected::Nothing,
    }
}

fn one_wanted<'b>(count: usize, first: Wanted<'b>) -> Option<Expected<'b>>
    ensures { plain_expected_option result ≡ one_wanted count (plain_wanted first.entry) }
{
    if count == 1 {
        Some(Expected::One(first))
    } else {
        None
    }
}

fn two_wanted<'b>(count: usize, first: Wanted<'b>, second: Wanted<'b>) -> Option<Expected<'b>>
    ensures { plain_expected_option result ≡ two_wanted count (plain_wanted first.entry) (plain_wanted second.entry) }
{
    if count == 2 {
        Some(Expected::Two(first, second))
    } else {
        None
    }
}

fn one_or_two<'b>(count: usize, first: Wanted<'b>, second: Wanted<'b>) -> Option<Expected<'b>>
    ensures { plain_expected_option result ≡ one_or_two count (plain_wanted first.entry) (plain_wanted second.entry) }
{
    if count == 1 {
        Some(Expected::One(first))
    } else {
        two_wanted(count, first, second)
    }
}

/// Whether a variable of a type may stand for a VAR parameter of another (The Programming Language Oberon-07,
/// section 10.1).
pub fn var_fits(ty: TypeRef, param: TypeRef) -> bool
    ensures { result ≡ var_fits (plain_type ty.entry) (plain_type param.entry) }
{
    match (ty, param) {
        (TypeRef::Unknown, _) => true,
        (_, TypeRef::Unknown) => true,
        (_, TypeRef::Open { element }) => elements_same(ty, element),
        (TypeRef::Record(_), _) => is_or_extends(ty, param),
        _ => are_same(ty, param),
    }
}

/// Whether a value of a type may stand for a value parameter of another (section 10.1).
pub fn value_fits(ty: TypeRef, param: TypeRef) -> bool
    ensures { result ≡ value_fits (plain_type ty.entry) (plain_type param.entry) }
{
    match (ty, param) {
        (TypeRef::Str(_), TypeRef::Open { element }) => is_char(element),
        (_, TypeRef::Open { element }) => elements_same(ty, element),
        _ => is_assignable(ty, param),
    }
}

fn elements_same(ty: TypeRef, element: &Ty) -> bool
    ensures { result ≡ elements_same (plain_type ty.entry) (plain_ty element.now) }
{
    match ty {
        TypeRef::Array { element: own, .. } => same_type(own, element),
        TypeRef::Open { element: own } => same_type(own, element),
        TypeRef::Unknown => true,
        _ => false,
    }
}

fn is_char(ty: &Ty) -> bool
    ensures { result ≡ is_char (plain_ty ty.now) }
{
    match ty {
        Ty::Char => true,
        Ty::Unknown => true,
        _ => false,
    }
}

/// Says what is broken at an argument, or nothing where it isn't compared.
pub fn add_argument_rows(
    wanted: Option<Wanted>,
    x: Ex,
    span: Span,
    said: &mut Vec<Said>,
) -> Result<(), NoMemory>
    ensures { OnOk result (Adds said.old.items said.new.items (argument_rows (plain_wanted_option wanted.entry) (plain_ex x.entry) span)) }
{
    match wanted {
        Some(wanted) => {
            add_value_row(x, span, said)?;
            add_wanted_rows(wanted, x, span, said)
        }
        None => Ok(()),
    }
}

fn add_wanted_rows(wanted: Wanted, x: Ex, span: Span, said: &mut Vec<Said>) -> Result<(), NoMemory>
    ensures { OnOk result (Adds said.old.items said.new.items (wanted_rows (plain_wanted wanted.entry) (plain_ex x.entry) span)) }
{
    let ty = x.ty();
    match wanted {
        Wanted::Value(param) => add_row(said, !value_fits(ty, param), span, Code::BadArgument),
        Wanted::Var(param) => add_changed_rows(x, var_fits(ty, param), span, said),
        Wanted::Ordinal => add_row(
            said,
            !(ty.is_unknown() || ty.is_ordinal()),
            span,
            Code::BadArgument,
        ),
        Wanted::WholeVariable => add_changed_rows(
            x,
            is_assignable(ty, TypeRef::Integer),
            span,
            said,
        ),
        Wanted::SetVariable => add_changed_rows(x, are_same(ty, TypeRef::Set), span, said),
        Wanted::Array => add_array_rows(x, span, said),
    }
}

/// Says what is broken where a variable is changed.
pub fn add_changed_rows(x: Ex, fits: bool, span: Span, said: &mut Vec<Said>) -> Result<(), NoMemory>
    ensures { OnOk result (Adds said.old.items said.new.items (changed_rows (plain_ex x.entry) fits span)) }
{
    match x {
        Ex::Variable { read_only, .. } => {
            add_row(said, read_only, span, Code::ReadOnly)?;
            add_row(said, !fits, span, Code::BadArgument)
        }
        Ex::Value(_) => add_broken(said, span, Code::NotVariable),
        _ => Ok(()),
    }
}

fn add_array_rows(x: Ex, span: Span, said: &mut Vec<Said>) -> Result<(), NoMemory>
    ensures { OnOk result (Adds said.old.items said.new.items (array_rows (plain_ex x.entry) span)) }
{
    match x {
        Ex::Variable { ty, .. } => add_row(said, !is_array(ty), span, Code::BadArgument),
        Ex::Value(_) => add_broken(said, span, Code::NotVariable),
        _ => Ok(()),
    }
}

fn is_array(ty: TypeRef) -> bool
    ensures { result ≡ is_array (plain_type ty.entry) }
{
    match ty {
        TypeRef::Array { .. } => true,
        TypeRef::Open { .. } => true,
        TypeRef::Unknown => true,
        _ => false,
    }
}
