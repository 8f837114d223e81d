ghost use Rattle.std.specs.Prelude.{◌≡◌, Some, ◌-◌, ◌^◌, min};
ghost use Rattle.oberon_types.specs.Sizes.{size_of, size_of_record, size_of_base, size_of_fields, weight, weight_of_record, weight_of_base, weight_of_fields, sees, too_large};
ghost use Rattle.oberon_types.specs.Memory.{plain_ty, plain_record, base_option, origin_in, fields_in, types_in, type_at};

use crate::origin::Origin;
use crate::ty::{RecordTy, Ty};
use ob_text::Name;
use std::sync::Arc;

/// The weight that a type may have.
const WEIGHT_LIMIT: u32 = 4096;

/// The size that a type may have.
const SIZE_LIMIT: u32 = 1_048_576;

/// How many scalars a variable of the type has, or 4,294,967,295 where it has more. Takes no memory.
pub fn size_of(ty: &Ty) -> u32
    ensures { result ≡ min (size_of (plain_ty ty.now)) (2 ^ 32 - 1) }
{
    match ty {
        Ty::Unknown => 0,
        Ty::Open { element: _ } => 0,
        Ty::Array { length, element } => length.saturating_mul(size_of(element)),
        Ty::Record(given) => record_size(given),
        Ty::Integer => 1,
        Ty::Byte => 1,
        Ty::Char => 1,
        Ty::Boolean => 1,
        Ty::Set => 1,
        Ty::Str(_) => 1,
    }
}

pub(crate) fn record_size(given: &RecordTy) -> u32
    ensures { result ≡ min (size_of_record (plain_record given.now)) (2 ^ 32 - 1) }
{
    given.size
}

/// Whether the type is above a limit, as far as the module of this stem sees it. Takes no memory. It looks at no
/// more parts than the limit allows.
pub fn too_large(me: &Name, ty: &Ty) -> bool
    ensures { result ≡ too_large me.now (plain_ty ty.now) }
{
    weight_left(me, ty, WEIGHT_LIMIT + 1) == 0 || size_of(ty) > SIZE_LIMIT
}

/// What the weight of the type leaves over.
#[cycle(weight)]
fn weight_left(me: &Name, ty: &Ty, left: u32) -> u32
    ensures { result ≡ left - weight me.now (plain_ty ty.now) }
{
    match ty {
        Ty::Unknown => left,
        Ty::Array { length: _, element } => weight_left(me, element, left.saturating_sub(1)),
        Ty::Open { element } => weight_left(me, element, left.saturating_sub(1)),
        Ty::Record(given) => record_left(me, given, left),
        Ty::Integer => left.saturating_sub(1),
        Ty::Byte => left.saturating_sub(1),
        Ty::Char => left.saturating_sub(1),
        Ty::Boolean => left.saturating_sub(1),
        Ty::Set => left.saturating_sub(1),
        Ty::Str(_) => left.saturating_sub(1),
    }
}

#[cycle(weight)]
fn record_left(me: &Name, given: &RecordTy, left: u32) -> u32
    ensures { result ≡ left - weight_of_record me.now (plain_record given.now) }
{
    let behind = base_left(me, &given.base, left.saturating_sub(1));
    fields_left(me, given, behind)
}

#[cycle(weight)]
fn base_left(me: &Name, base: &Option<Arc<RecordTy>>, left: u32) -> u32
    ensures { result ≡ left - weight_of_base me.now (base_option base.now) }
{
    match base {
        Some(base) => record_left(me, base, left),
        None => left,
    }
}

/// What is left behind the fields. Those of unknown types weigh nothing, and aren't gone over.
#[cycle(weight)]
fn fields_left(me: &Name, given: &RecordTy, left: u32) -> u32
    ensures { result ≡ left - weight_of_fields me.now (origin_in given.now) (fields_in given.now) }
{
    let mut left = left;
    for field in given.names.known() {
        if left == 0 {
            return 0;
        }
        if sees(me, &given.origin, field.exported) {
            left = known_left(me, given, field.ty, left);
        }
    }
    left
}

/// What is left behind the type at an index.
#[cycle(weight)]
fn known_left(me: &Name, given: &RecordTy, at: usize, left: u32) -> u32
    ensures { result ≡ left - weight me.now (type_at (types_in given.now) (Some at)) }
{
    match given.type_at(at) {
        Some(ty) => weight_left(me, ty, left),
        None => left,
    }
}

/// Whether the module of this stem sees a field of a record of this origin, given whether it is exported.
pub fn sees(me: &Name, origin: &Origin, exported: bool) -> bool
    ensures { result ≡ sees me.now origin.now exported }
{
    exported || origin.module == *me
}
