ghost use Rattle.std.specs.Prelude.{◌≡◌};
ghost use Rattle.oberon_types.specs.Types.{same_type, assignable, string_ty, array_ty};
ghost use Rattle.oberon_types.specs.Memory.{plain_ty, known_or_unknown};
ghost use Rattle.oberon_rules.specs.Operators.{operand_class, element_class};
ghost use Rattle.oberon_rules.specs.Expressions.{is_unknown, is_whole, is_ordinal, is_or_extends, is_extension, element_type};
ghost use Rattle.oberon_infer.specs.Memory.{plain_type, plain_type_option, plain_class};

use crate::operator::Class;
use oberon_types::{RecordTy, Ty, extends, same_type};

/// A type, whose parts are borrowed from where they are declared. A string has its number of bytes.
#[derive(Clone, Copy)]
pub enum TypeRef<'b> {
    Unknown,
    Integer,
    Byte,
    Char,
    Boolean,
    Set,
    Str(usize),
    Array { length: u32, element: &'b Ty },
    Open { element: &'b Ty },
    Record(&'b RecordTy),
}

/// The type, in one step.
pub fn borrowed<'b>(ty: &'b Ty) -> TypeRef<'b>
    ensures { plain_type result ≡ plain_ty ty.now }
{
    match ty {
        Ty::Unknown => TypeRef::Unknown,
        Ty::Integer => TypeRef::Integer,
        Ty::Byte => TypeRef::Byte,
        Ty::Char => TypeRef::Char,
        Ty::Boolean => TypeRef::Boolean,
        Ty::Set => TypeRef::Set,
        Ty::Str(count) => TypeRef::Str(*count as usize),
        Ty::Array { length, element } => TypeRef::Array {
            length: *length,
            element,
        },
        Ty::Open { element } => TypeRef::Open { element },
        Ty::Record(record) => TypeRef::Record(record),
    }
}

/// The type of a field; an unknown one in place of none.
pub fn field_type<'b>(ty: Option<&'b Ty>) -> TypeRef<'b>
    ensures { plain_type result ≡ known_or_unknown ty.entry }
{
    match ty {
        Some(ty) => borrowed(ty),
        None => TypeRef::Unknown,
    }
}

impl<'b> TypeRef<'b> {
    pub fn is_unknown(self) -> bool
        ensures { result ≡ is_unknown (plain_type self.entry) }
    {
        match self {
            TypeRef::Unknown => true,
            _ => false,
        }
    }

    /// Whether it is INTEGER or BYTE.
    pub fn is_whole(self) -> bool
        ensures { result ≡ is_whole (plain_type self.entry) }
    {
        match self {
            TypeRef::Integer => true,
            TypeRef::Byte => true,
            _ => false,
        }
    }

    /// Whether ORD takes it.
    pub fn is_ordinal(self) -> bool
        ensures { result ≡ is_ordinal (plain_type self.entry) }
    {
        match self {
            TypeRef::Char => true,
            TypeRef::Str(count) => count == 1,
            TypeRef::Boolean => true,
            TypeRef::Set => true,
            _ => false,
        }
    }

    /// What a value of the type is as an operand.
    pub fn class(self) -> Class
        ensures { plain_class result ≡ operand_class (plain_type self.entry) }
    {
        match self {
            TypeRef::Unknown => Class::Unknown,
            TypeRef::Integer => Class::Whole,
            TypeRef::Byte => Class::Whole,
            TypeRef::Boolean => Class::Boolean,
            TypeRef::Set => Class::Set,
            TypeRef::Char => Class::Char,
            TypeRef::Str(count) => string_class(count),
            TypeRef::Array { element, .. } => element_class(element),
            TypeRef::Open { element } => element_class(element),
            TypeRef::Record(_) => Class::Other,
        }
    }

    /// The type of an array's elements.
    pub fn element(self) -> Option<TypeRef<'b>>
        ensures { plain_type_option result ≡ element_type (plain_type self.entry) }
    {
        match self {
            TypeRef::Array { element, .. } => Some(borrowed(element)),
            TypeRef::Open { element } => Some(borrowed(element)),
            _ => None,
        }
    }
}

fn string_class(count: usize) -> Class
    ensures { plain_class result ≡ operand_class (string_ty count) }
{
    if count == 1 { Class::One } else { Class::Text }
}

fn element_class(element: &Ty) -> Class
    ensures { plain_class result ≡ element_class (plain_ty element.now) }
{
    match element {
        Ty::Char => Class::Text,
        Ty::Unknown => Class::Unknown,
        _ => Class::Other,
    }
}

/// Whether two types are the same.
pub fn are_same(a: TypeRef, b: TypeRef) -> bool
    ensures { result ≡ same_type (plain_type a.entry) (plain_type b.entry) }
{
    match (a, b) {
        (TypeRef::Unknown, _) => true,
        (_, TypeRef::Unknown) => true,
        (TypeRef::Integer, TypeRef::Integer) => true,
        (TypeRef::Byte, TypeRef::Byte) => true,
        (TypeRef::Char, TypeRef::Char) => true,
        (TypeRef::Boolean, TypeRef::Boolean) => true,
        (TypeRef::Set, TypeRef::Set) => true,
        (TypeRef::Str(count), TypeRef::Str(other)) => count == other,
        (
            TypeRef::Array { length, element },
            TypeRef::Array {
                length: count,
                element: other,
            },
        ) => length == count && same_type(element, other),
        (TypeRef::Open { element }, TypeRef::Open { element: other }) => {
            same_type(element, other)
        }
        (TypeRef::Record(record), TypeRef::Record(other)) => record.origin.same(&other.origin),
        _ => false,
    }
}

/// Whether a value of the first type is assignable to a variable of the second.
pub fn is_assignable(value: TypeRef, target: TypeRef) -> bool
    ensures { result ≡ assignable (plain_type value.entry) (plain_type target.entry) }
{
    match (value, target) {
        (_, TypeRef::Unknown) => true,
        (TypeRef::Unknown, _) => true,
        (TypeRef::Integer, TypeRef::Integer) => true,
        (TypeRef::Integer, TypeRef::Byte) => true,
        (TypeRef::Byte, TypeRef::Integer) => true,
        (TypeRef::Byte, TypeRef::Byte) => true,
        (TypeRef::Char, TypeRef::Char) => true,
        (TypeRef::Boolean, TypeRef::Boolean) => true,
        (TypeRef::Set, TypeRef::Set) => true,
        (TypeRef::Str(count), TypeRef::Char) => count == 1,
        (TypeRef::Str(count), TypeRef::Array { length, element }) => {
            takes_string(count, length, element)
        }
        (
            TypeRef::Array { length, element },
            TypeRef::Array {
                length: count,
                element: other,
            },
        ) => length == count && same_type(element, other),
        (TypeRef::Record(given), TypeRef::Record(wanted)) => {
            given.origin.same(&wanted.origin) || extends(given, &wanted.origin)
        }
        _ => false,
    }
}

/// Whether an array of this length and element takes a string of so many bytes.
fn takes_string(count: usize, length: u32, element: &Ty) -> bool
    ensures { result ≡ assignable (string_ty count) (array_ty length (plain_ty element.now)) }
{
    match element {
        Ty::Char => count < length as usize,
        Ty::Unknown => count < length as usize,
        _ => false,
    }
}

/// Whether the first record type is the second or extends it.
pub fn is_or_extends(given: TypeRef, wanted: TypeRef) -> bool
    ensures { result ≡ is_or_extends (plain_type given.entry) (plain_type wanted.entry) }
{
    match (given, wanted) {
        (TypeRef::Record(given), TypeRef::Record(wanted)) => {
            given.origin.same(&wanted.origin) || extends(given, &wanted.origin)
        }
        _ => false,
    }
}

/// Whether the first record type extends the second and is another one.
pub fn is_extension(given: TypeRef, wanted: TypeRef) -> bool
    ensures { result ≡ is_extension (plain_type given.entry) (plain_type wanted.entry) }
{
    match (given, wanted) {
        (TypeRef::Record(given), TypeRef::Record(wanted)) => extends(given, &wanted.origin),
        _ => false,
    }
}
