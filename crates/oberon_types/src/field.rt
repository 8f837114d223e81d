ghost use Rattle.std.specs.Prelude.{◌≡◌, ◌<◌, Some, IfSome};
ghost use Rattle.std.specs.Option.{option_map};
ghost use Rattle.oberon_types.specs.Sizes.{field_of, field_of_base};
ghost use Rattle.oberon_types.specs.Memory.{plain_record, known_or_unknown, base_option, type_at, types_in};
ghost use Rattle.oberon_types.specs.declared.ty.RecordTy.{size-RecordTy};
ghost use Rattle.oberon_types.specs.declared.ty.Ty.{size-Ty};

use crate::names::FieldName;
use crate::ty::{RecordTy, Ty};
use ob_text::Name;
use std::sync::Arc;

impl RecordTy {
    /// The type of a field of this record; None where it isn't known. Takes no memory.
    pub fn type_of(&self, field: &FieldName) -> Option<&Ty>
        ensures is { known_or_unknown result ≡ type_at (types_in self.now) field.now.ty }
        ensures falls { IfSome result (λ ty. size-Ty ty.now < size-RecordTy self.now) }
    {
        match field.ty {
            Some(at) => self.type_at(at),
            None => None,
        }
    }

    /// The type that stands at an index among the types that are known, where there is one. Takes no memory.
    pub fn type_at(&self, at: usize) -> Option<&Ty>
        ensures is { known_or_unknown result ≡ type_at (types_in self.now) (Some at) }
        ensures falls { IfSome result (λ ty. size-Ty ty.now < size-RecordTy self.now) }
    {
        self.types.get(at)
    }
}

/// The type of the field of this name that the module of this stem sees in the record, in its own part before
/// its base (The Programming Language Oberon-07, sections 6.3 and 8.1). None stands for no such field, and a None
/// within for a type that isn't known. Takes no memory, and a step for each base.
#[cycle(field)]
pub fn field_of<'a>(me: &Name, name: &Name, given: &'a RecordTy) -> Option<Option<&'a Ty>>
    ensures { option_map known_or_unknown result ≡ field_of me.now name.now (plain_record given.now) }
{
    match given.names.seen(me, &given.origin, name) {
        Some(field) => Some(given.type_of(field)),
        None => field_of_base(me, name, &given.base),
    }
}

#[cycle(field)]
fn field_of_base<'a>(
    me: &Name,
    name: &Name,
    base: &'a Option<Arc<RecordTy>>,
) -> Option<Option<&'a Ty>>
    ensures { option_map known_or_unknown result ≡ field_of_base me.now name.now (base_option base.now) }
{
    match base {
        Some(base) => field_of(me, name, base),
        None => None,
    }
}
