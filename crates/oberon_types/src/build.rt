ghost use Rattle.std.specs.Prelude.{◌≡◌, ◌-◌, ◌^◌, ◌++◌, List, min, map, length, IfOk, OnOk};
ghost use Rattle.std.specs.Option.{option_map};
ghost use Rattle.oberon_types.specs.Types.{array_ty, open_ty, record_ty, record_of};
ghost use Rattle.oberon_types.specs.Sizes.{within, record_from, size_of_base, size_of_fields};
ghost use Rattle.oberon_types.specs.Names.{IsWithin, AreWithin, push_field};
ghost use Rattle.oberon_types.specs.declared.ty.Ty.{Ty};
ghost use Rattle.oberon_types.specs.Memory.{plain_ty, plain_record, base_option, named_fields, type_at, fields_list};

use crate::names::{FieldName, FieldNames};
use crate::origin::Origin;
use crate::sizes::{record_size, size_of, too_large};
use crate::ty::{Field, RecordTy, Ty};
use ob_text::{Name, NoMemory};
use std::alloc::Global;
use std::sync::Arc;

/// The array type of this length and element type (The Programming Language Oberon-07, section 6.2) in the
/// module of this stem. None stands for one that is too large.
pub fn array_type(
    alloc: Global,
    me: &Name,
    length: u32,
    element: Ty,
) -> Result<Option<Ty>, NoMemory>
    ensures { IfOk result (λ ty. option_map plain_ty ty ≡ within me.now (array_ty length (plain_ty element))) }
{
    let element = Arc::new(alloc, element)?;
    Ok(unless_large(me, Ty::Array { length, element }))
}

/// The type of a parameter that takes arrays of any length with these elements. None stands for one that is too
/// large.
pub fn open_type(alloc: Global, me: &Name, element: Ty) -> Result<Option<Ty>, NoMemory>
    ensures { IfOk result (λ ty. option_map plain_ty ty ≡ within me.now (open_ty (plain_ty element))) }
{
    let element = Arc::new(alloc, element)?;
    Ok(unless_large(me, Ty::Open { element }))
}

/// The record type of these parts (section 6.3), which has the size of its base and of all its fields. None
/// stands for one that is too large.
pub fn record_type(
    alloc: Global,
    me: &Name,
    origin: Origin,
    base: Option<Arc<RecordTy>>,
    fields: Vec<Field>,
) -> Result<Option<Ty>, NoMemory>
    ensures { IfOk result (λ ty. option_map plain_ty ty ≡ within me.now (record_ty (record_from origin (base_option base) (fields_list fields.items)))) }
{
    let size = base_size(&base).saturating_add(fields_size(fields.as_slice()));
    let ty = assembled(alloc, origin, base, fields, size)?;
    Ok(unless_large(me, ty))
}

fn assembled(
    alloc: Global,
    origin: Origin,
    base: Option<Arc<RecordTy>>,
    fields: Vec<Field>,
    size: u32,
) -> Result<Ty, NoMemory>
    ensures { IfOk result (λ ty. plain_ty ty ≡ record_ty (record_of origin (base_option base) (fields_list fields.items) size)) }
{
    let made = RecordTy::of(alloc, origin, base, fields, size)?;
    Ok(Ty::Record(Arc::new(alloc, made)?))
}

impl RecordTy {
    /// The record type of these parts and of this size.
    pub fn of(
        alloc: Global,
        origin: Origin,
        base: Option<Arc<RecordTy>>,
        fields: Vec<Field>,
        size: u32,
    ) -> Result<RecordTy, NoMemory>
        ensures { IfOk result (λ made. plain_record made ≡ record_of origin (base_option base) (fields_list fields.items) size) }
    {
        let Parts { names, types } = parts_of(alloc, fields)?;
        Ok(RecordTy {
            origin,
            base,
            names: Box::new(alloc, FieldNames::from_vec(alloc, names)?)?,
            types,
            size,
        })
    }
}

fn parts_of(alloc: Global, fields: Vec<Field>) -> Result<Parts, NoMemory>
    ensures { IfOk result (λ parts. named_fields parts.names.items (map plain_ty parts.types.items) ≡ fields_list fields.items) }
{
    let mut parts = Parts {
        names: Vec::new(alloc),
        types: Vec::new(alloc),
    };
    'fields: for field in fields {
        parts.add(field)?;
    }
    Ok(parts)
}

/// The fields of a record that is made, so far.
#[derive(Drop)]
struct Parts {
    names: Vec<FieldName>,
    types: Vec<Ty>,
}

impl Parts {
    fn add(&mut self, field: Field) -> Result<(), NoMemory>
        requires { AreWithin (length self.old.types.items) self.old.names.items }
        ensures within { OnOk result (AreWithin (length self.new.types.items) self.new.names.items) }
        ensures adds { OnOk result (named_fields self.new.names.items (map plain_ty self.new.types.items)
            ≡ push_field (named_fields self.old.names.items (map plain_ty self.old.types.items)) field.name field.exported (plain_ty field.ty)) }
    {
        let Field { name, exported, ty } = field;
        let at = keep(&mut self.types, ty)?;
        self.names.push(FieldName {
            name,
            exported,
            ty: at,
        })?;
        Ok(())
    }
}

/// Keeps a type, if it is known, and says where it stands.
fn keep(types: &mut Vec<Ty>, ty: Ty) -> Result<Option<usize>, NoMemory>
    ensures grows { OnOk result ((more : List Ty) × (types.new.items ≡ types.old.items ++ more)) }
    ensures within { IfOk result (IsWithin (length types.new.items)) }
    ensures is { IfOk result (λ at. type_at (map plain_ty types.new.items) at ≡ plain_ty ty) }
{
    if let Ty::Unknown = ty {
        return Ok(None);
    }
    let at = types.len();
    types.push(ty)?;
    Ok(Some(at))
}

fn unless_large(me: &Name, ty: Ty) -> Option<Ty>
    ensures { option_map plain_ty result ≡ within me.now (plain_ty ty) }
{
    if too_large(me, &ty) { None } else { Some(ty) }
}

fn base_size(base: &Option<Arc<RecordTy>>) -> u32
    ensures { result ≡ min (size_of_base (base_option base.now)) (2 ^ 32 - 1) }
{
    match base {
        Some(base) => record_size(base),
        None => 0,
    }
}

fn fields_size(fields: &[Field]) -> u32
    ensures { result ≡ min (size_of_fields (fields_list fields.now)) (2 ^ 32 - 1) }
{
    let mut size = 0u32;
    for field in fields {
        size = size.saturating_add(size_of(&field.ty));
    }
    size
}
