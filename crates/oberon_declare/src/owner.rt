ghost use Rattle.std.specs.Prelude.{◌≡◌, is_some};
ghost use Rattle.oberon_types.specs.Memory.{base_option};
ghost use Rattle.oberon_types.specs.Sizes.{field_of_base};
ghost use Rattle.oberon_declare.specs.Inherited.{Inherits};

use crate::inherited::Inherited;
use ob_text::Name;
use oberon_types::{Origin, RecordTy, field_of};
use std::sync::Arc;

/// Whose fields are declared.
#[derive(Drop)]
pub struct Owner<'o> {
    pub me: &'o Name,
    pub origin: &'o Origin,
    pub base: Option<Arc<RecordTy>>,
    pub inherited: Inherited,
    ghost inherits: { Inherits me.now (base_option base) inherited },
}

/// Whether the base has a visible field of this name. What was asked for is known; for another name the fields are gone
/// through.
pub fn is_in_base(owner: &Owner, name: &Name) -> bool
    ensures { result ≡ is_some (field_of_base owner.now.me.now name.now (base_option owner.now.base)) }
{
    if owner.inherited.asked.contains(name) {
        owner.inherited.found.contains(name)
    } else {
        has_field(owner.me, &owner.base, name)
    }
}

fn has_field(me: &Name, base: &Option<Arc<RecordTy>>, name: &Name) -> bool
    ensures { result ≡ is_some (field_of_base me.now name.now (base_option base.now)) }
{
    match base {
        Some(base) => field_of(me, name, base).is_some(),
        None => false,
    }
}
