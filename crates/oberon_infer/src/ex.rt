ghost use Rattle.std.specs.Prelude.{◌≡◌};
ghost use Rattle.oberon_rules.specs.Names.{meaning_of};
ghost use Rattle.oberon_rules.specs.Expressions.{ex_of, ty_of, class_of, type_of_value, value_if, outcome_is, is_var_parameter, is_unknown};
ghost use Rattle.oberon_types.specs.Memory.{plain_entity};
ghost use Rattle.oberon_infer.specs.Memory.{plain_type, plain_ex, plain_named, plain_class, plain_meaning, plain_standard, plain_outcomes};

use crate::names::Named;
use crate::operator::{Class, Outcome};
use crate::scope::Meaning;
use crate::standard::{Standard, Word};
use crate::type_ref::{TypeRef, borrowed};
use oberon_types::{Entity, Signature, Value, View};

/// What an expression is (The Programming Language Oberon-07, section 8). It borrows from the scopes and the views,
/// so that to find it takes no memory.
#[derive(Clone, Copy)]
pub enum Ex<'b> {
    /// Unknown: of it nothing more is said.
    Nothing,
    Value(TypeRef<'b>),
    Variable {
        ty: TypeRef<'b>,
        read_only: bool,
        by_var: bool,
    },
    Type(TypeRef<'b>),
    Module(&'b View),
    /// A procedure that isn't called.
    Procedure(&'b Signature),
    /// A predeclared procedure that isn't called.
    Word(Word),
    /// A call of a proper procedure.
    Call,
}

impl<'b> Ex<'b> {
    /// The type of a value or a variable; all else is of an unknown one.
    pub fn ty(self) -> TypeRef<'b>
        ensures { plain_type result ≡ ty_of (plain_ex self.entry) }
    {
        match self {
            Ex::Value(ty) => ty,
            Ex::Variable { ty, .. } => ty,
            Ex::Nothing => TypeRef::Unknown,
            Ex::Type(_) => TypeRef::Unknown,
            Ex::Module(_) => TypeRef::Unknown,
            Ex::Procedure(_) => TypeRef::Unknown,
            Ex::Word(_) => TypeRef::Unknown,
            Ex::Call => TypeRef::Unknown,
        }
    }

    /// What it is as an operand.
    pub fn class(self) -> Class
        ensures { plain_class result ≡ class_of (plain_ex self.entry) }
    {
        self.ty().class()
    }

    /// Whether its type is unknown.
    pub fn is_unknown(self) -> bool
        ensures { result ≡ is_unknown (ty_of (plain_ex self.entry)) }
    {
        self.ty().is_unknown()
    }

    /// Whether it is a VAR parameter, and no part of one.
    pub fn is_var_parameter(self) -> bool
        ensures { result ≡ is_var_parameter (plain_ex self.entry) }
    {
        match self {
            Ex::Variable { by_var, .. } => by_var,
            _ => false,
        }
    }
}

/// A value of the type where it fits, and else unknown.
pub fn value_if<'b>(fits: bool, ty: TypeRef<'b>) -> Ex<'b>
    ensures { plain_ex result ≡ value_if fits (plain_type ty.entry) }
{
    if fits { Ex::Value(ty) } else { Ex::Nothing }
}

/// What an operator makes of operands that fit so.
pub fn outcome_is<'b>(outcome: Option<Outcome>) -> Ex<'b>
    ensures { plain_ex result ≡ outcome_is (plain_outcomes outcome) }
{
    match outcome {
        None => Ex::Nothing,
        Some(Outcome::Nothing) => Ex::Nothing,
        Some(Outcome::Whole) => Ex::Value(TypeRef::Integer),
        Some(Outcome::Boolean) => Ex::Value(TypeRef::Boolean),
        Some(Outcome::Set) => Ex::Value(TypeRef::Set),
    }
}

/// What a name is as an expression.
pub fn ex_of<'b>(named: Named<'b, '_>) -> Ex<'b>
    ensures { plain_ex result ≡ ex_of (plain_named named.entry) }
{
    match named {
        Named::Unknown => Ex::Nothing,
        Named::Own(meaning) => ex_of_own(meaning),
        Named::Standard(standard) => ex_of_standard(standard),
        Named::Outside(entity) => ex_of_entity(entity),
    }
}

fn ex_of_own<'b>(meaning: &'b Meaning) -> Ex<'b>
    ensures { plain_ex result ≡ ex_of (plain_meaning meaning.now) }
{
    match meaning {
        Meaning::Unknown => Ex::Nothing,
        Meaning::Constant(value) => Ex::Value(type_of_value(value)),
        Meaning::Type(ty) => Ex::Type(borrowed(ty)),
        Meaning::Variable {
            ty,
            read_only,
            by_var,
        } => Ex::Variable {
            ty: borrowed(ty),
            read_only: *read_only,
            by_var: *by_var,
        },
        Meaning::Procedure(signature) => Ex::Procedure(signature),
        Meaning::Word(word) => Ex::Word(*word),
        Meaning::Import(view) => Ex::Module(view),
    }
}

fn ex_of_standard<'b>(standard: Standard) -> Ex<'b>
    ensures { plain_ex result ≡ ex_of (plain_standard standard) }
{
    match standard {
        Standard::Integer => Ex::Type(TypeRef::Integer),
        Standard::Byte => Ex::Type(TypeRef::Byte),
        Standard::Char => Ex::Type(TypeRef::Char),
        Standard::Boolean => Ex::Type(TypeRef::Boolean),
        Standard::Set => Ex::Type(TypeRef::Set),
        Standard::Word(word) => Ex::Word(word),
    }
}

fn ex_of_entity<'b>(entity: &'b Entity) -> Ex<'b>
    ensures { plain_ex result ≡ ex_of (meaning_of (plain_entity entity.now)) }
{
    match entity {
        Entity::Constant(value) => Ex::Value(type_of_value(value)),
        Entity::TypeName(ty) => Ex::Type(borrowed(ty)),
        Entity::Variable(ty) => Ex::Variable {
            ty: borrowed(ty),
            read_only: true,
            by_var: false,
        },
        Entity::Proc(signature) => Ex::Procedure(signature),
    }
}

fn type_of_value<'b>(value: &Value) -> TypeRef<'b>
    ensures { plain_type result ≡ type_of_value value.now }
{
    match value {
        Value::Integer(_) => TypeRef::Integer,
        Value::Char(_) => TypeRef::Char,
        Value::Boolean(_) => TypeRef::Boolean,
        Value::Set(_) => TypeRef::Set,
        Value::Str(text) => TypeRef::Str(text.as_slice().len()),
    }
}
