ghost use Rattle.std.specs.Prelude.{◌≡◌, IfOk};
ghost use Rattle.oberon_types.specs.Types.{same_type, assignable, extends, string_ty, array_ty};
ghost use Rattle.oberon_types.specs.Memory.{plain_ty, plain_record, base_option};

use crate::names::FieldNames;
use crate::origin::Origin;
use ob_text::{Name, NoMemory};
use std::sync::Arc;

/// A type. Its parts are shared with its copies.
#[cycle(ty)]
#[derive(Drop)]
pub enum Ty {
    Unknown,
    Integer,
    Byte,
    Char,
    Boolean,
    Set,
    Str(u32),
    Array { length: u32, element: Arc<Ty> },
    Open { element: Arc<Ty> },
    Record(Arc<RecordTy>),
}

/// A record type: its fields by their names, and the types of those whose type is known.
#[cycle(ty)]
pub struct RecordTy {
    pub origin: Origin,
    pub base: Option<Arc<RecordTy>>,
    pub names: Box<FieldNames>,
    pub types: Vec<Ty>,
    pub size: u32,
}

impl Drop for RecordTy {
    #[cycle(ty)]
    fn drop(self) {
        let Self {
            origin: _,
            base: _,
            names: _,
            types: _,
            size: _,
        } = self;
    }
}

/// A field.
#[derive(Drop)]
pub struct Field {
    pub name: Name,
    pub exported: bool,
    pub ty: Ty,
}

impl Ty {
    /// An equal type, which shares its parts.
    pub fn copy(&self) -> Result<Ty, NoMemory>
        ensures { IfOk result (λ ty. plain_ty ty ≡ plain_ty self.now) }
    {
        Ok(match self {
            Ty::Unknown => Ty::Unknown,
            Ty::Integer => Ty::Integer,
            Ty::Byte => Ty::Byte,
            Ty::Char => Ty::Char,
            Ty::Boolean => Ty::Boolean,
            Ty::Set => Ty::Set,
            Ty::Str(count) => Ty::Str(*count),
            Ty::Array { length, element } => Ty::Array {
                length: *length,
                element: element.clone()?,
            },
            Ty::Open { element } => Ty::Open {
                element: element.clone()?,
            },
            Ty::Record(record) => Ty::Record(record.clone()?),
        })
    }
}

/// Whether two types are the same. Takes no memory.
#[cycle(same)]
pub fn same_type(a: &Ty, b: &Ty) -> bool
    ensures { result ≡ same_type (plain_ty a.now) (plain_ty b.now) }
{
    match (a, b) {
        (Ty::Unknown, _) => true,
        (_, Ty::Unknown) => true,
        (Ty::Integer, Ty::Integer) => true,
        (Ty::Byte, Ty::Byte) => true,
        (Ty::Char, Ty::Char) => true,
        (Ty::Boolean, Ty::Boolean) => true,
        (Ty::Set, Ty::Set) => true,
        (Ty::Str(count), Ty::Str(other)) => count == other,
        (
            Ty::Array { length, element },
            Ty::Array {
                length: count,
                element: other,
            },
        ) => length == count && same_type(element, other),
        (Ty::Open { element }, Ty::Open { element: other }) => same_type(element, other),
        (Ty::Record(record), Ty::Record(other)) => record.origin.same(&other.origin),
        _ => false,
    }
}

/// Whether a record type extends the one of an origin, directly or not. Takes no memory.
#[cycle(extends)]
pub fn extends(given: &RecordTy, origin: &Origin) -> bool
    ensures { result ≡ extends (plain_record given.now) origin.now }
{
    match &given.base {
        Some(base) => base.origin.same(origin) || extends(base, origin),
        None => false,
    }
}

/// Whether a value of the first type is assignable to a variable of the second. Takes no memory.
pub fn assignable(value: &Ty, target: &Ty) -> bool
    ensures { result ≡ assignable (plain_ty value.now) (plain_ty target.now) }
{
    match (value, target) {
        (_, Ty::Unknown) => true,
        (Ty::Unknown, _) => true,
        (Ty::Integer, Ty::Integer) => true,
        (Ty::Integer, Ty::Byte) => true,
        (Ty::Byte, Ty::Integer) => true,
        (Ty::Byte, Ty::Byte) => true,
        (Ty::Char, Ty::Char) => true,
        (Ty::Boolean, Ty::Boolean) => true,
        (Ty::Set, Ty::Set) => true,
        (Ty::Str(count), Ty::Char) => *count == 1,
        (Ty::Str(count), Ty::Array { length, element }) => takes_string(*count, *length, element),
        (
            Ty::Array { length, element },
            Ty::Array {
                length: count,
                element: other,
            },
        ) => length == count && same_type(element, other),
        (Ty::Record(given), Ty::Record(wanted)) => {
            given.origin.same(&wanted.origin) || extends(given, &wanted.origin)
        }
        _ => false,
    }
}

/// Whether an array of this length and element takes a string of so many bytes.
fn takes_string(count: u32, length: u32, element: &Ty) -> bool
    ensures { result ≡ assignable (string_ty count) (array_ty length (plain_ty element.now)) }
{
    match element {
        Ty::Char => count < length,
        Ty::Unknown => count < length,
        _ => false,
    }
}
