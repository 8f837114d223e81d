ghost use Rattle.std.specs.Prelude.{◌≡◌, ◌-◌, [], Some, IfOk, OnOk};
ghost use Rattle.oberon_types.specs.Memory.{plain_ty, plain_record, base_option, fields_list, fields_in, types_in, type_at};
ghost use Rattle.oberon_types.specs.Sizes.{size_of_record, weight, weight_of_record, weight_of_base};
ghost use Rattle.oberon_types.specs.Types.{record_of, origin_of, more_fields, FieldsTree};
ghost use Rattle.oberon_rules.specs.Views.{written};
ghost use Rattle.oberon_module.specs.Written.{written_record, written_base, written_fields, weight_of_written, fields_then, field_then};

use ob_text::NoMemory;
use oberon_declare::copy_origin;
use oberon_types::{Field, FieldName, RecordTy, Ty};
use std::alloc::Global;
use std::sync::Arc;

/// The type as a view has it: with its exported fields alone, and the size of all fields.
#[cycle(written)]
pub fn written(alloc: Global, ty: &Ty) -> Result<Ty, NoMemory>
    ensures { IfOk result (λ t. plain_ty t ≡ written (plain_ty ty.now)) }
{
    match ty {
        Ty::Array { length, element } => {
            let element = written(alloc, element)?;
            Ok(Ty::Array {
                length: *length,
                element: Arc::new(alloc, element)?,
            })
        }
        Ty::Open { element } => {
            let element = written(alloc, element)?;
            Ok(Ty::Open {
                element: Arc::new(alloc, element)?,
            })
        }
        Ty::Record(given) => Ok(Ty::Record(written_record(alloc, given)?)),
        Ty::Unknown => Ok(Ty::Unknown),
        Ty::Integer => Ok(Ty::Integer),
        Ty::Byte => Ok(Ty::Byte),
        Ty::Char => Ok(Ty::Char),
        Ty::Boolean => Ok(Ty::Boolean),
        Ty::Set => Ok(Ty::Set),
        Ty::Str(count) => Ok(Ty::Str(*count)),
    }
}

#[cycle(written)]
fn written_record(alloc: Global, given: &RecordTy) -> Result<Arc<RecordTy>, NoMemory>
    ensures { IfOk result (λ r. plain_record r.value ≡ written_record (plain_record given.now)) }
{
    let base = written_base(alloc, &given.base)?;
    let fields = written_fields(alloc, given)?;
    remade(alloc, given, base, fields)
}

/// The record with other fields and another base, of its origin and size.
fn remade(
    alloc: Global,
    given: &RecordTy,
    base: Option<Arc<RecordTy>>,
    fields: Vec<Field>,
) -> Result<Arc<RecordTy>, NoMemory>
    ensures { IfOk result (λ r. plain_record r.value
        ≡ record_of (origin_of (plain_record given.now)) (base_option base) (fields_list fields.items) (size_of_record (plain_record given.now))) }
{
    let origin = copy_origin(alloc, &given.origin)?;
    let made = RecordTy::of(alloc, origin, base, fields, given.size)?;
    Ok(Arc::new(alloc, made)?)
}

#[cycle(written)]
fn written_base(
    alloc: Global,
    base: &Option<Arc<RecordTy>>,
) -> Result<Option<Arc<RecordTy>>, NoMemory>
    ensures { IfOk result (λ b. base_option b ≡ written_base (base_option base.now)) }
{
    match base {
        Some(base) => Ok(Some(written_record(alloc, base)?)),
        None => Ok(None),
    }
}

#[cycle(written)]
fn written_fields(alloc: Global, given: &RecordTy) -> Result<Vec<Field>, NoMemory>
    ensures { IfOk result (λ fs. fields_list fs.items ≡ written_fields (fields_in given.now)) }
{
    let mut kept = Vec::new(alloc);
    for field in given.names.as_slice() {
        let shown = written_field(alloc, given, field)?;
        add_shown(&mut kept, shown)?;
    }
    Ok(kept)
}

/// The field as a view has it, if it is exported.
#[cycle(written)]
fn written_field(
    alloc: Global,
    given: &RecordTy,
    field: &FieldName,
) -> Result<Option<Field>, NoMemory>
    ensures { IfOk result (λ shown. (rest : FieldsTree) → field_then shown (written_fields rest)
        ≡ written_fields (more_fields field.now.name field.now.exported (type_at (types_in given.now) field.now.ty) rest)) }
{
    if !field.exported {
        return Ok(None);
    }
    let ty = written_known(alloc, given, field)?;
    Ok(Some(Field {
        name: field.name.copy(alloc)?,
        exported: true,
        ty,
    }))
}

#[cycle(written)]
fn written_known(alloc: Global, given: &RecordTy, field: &FieldName) -> Result<Ty, NoMemory>
    ensures { IfOk result (λ t. plain_ty t ≡ written (type_at (types_in given.now) field.now.ty)) }
{
    match given.type_of(field) {
        Some(ty) => written(alloc, ty),
        None => Ok(Ty::Unknown),
    }
}

fn add_shown(kept: &mut Vec<Field>, shown: Option<Field>) -> Result<(), NoMemory>
    ensures { OnOk result ((rest : FieldsTree) → fields_then (fields_list kept.new.items) rest
        ≡ fields_then (fields_list kept.old.items) (field_then shown rest)) }
{
    if let Some(field) = shown {
        kept.push(field)?;
    }
    Ok(())
}

/// What the weight of the type as a view has it leaves over. Takes no memory. It looks at no more parts than
/// what is left.
#[cycle(left)]
pub fn weight_left(ty: &Ty, left: u32) -> u32
    ensures { result ≡ left - weight [] (written (plain_ty ty.now)) }
{
    match ty {
        Ty::Unknown => left,
        Ty::Array { length: _, element } => weight_left(element, left.saturating_sub(1)),
        Ty::Open { element } => weight_left(element, left.saturating_sub(1)),
        Ty::Record(given) => record_left(given, left),
        Ty::Integer => left.saturating_sub(1),
        Ty::Byte => left.saturating_sub(1),
        Ty::Char => left.saturating_sub(1),
        Ty::Boolean => left.saturating_sub(1),
        Ty::Set => left.saturating_sub(1),
        Ty::Str(_) => left.saturating_sub(1),
    }
}

#[cycle(left)]
fn record_left(given: &RecordTy, left: u32) -> u32
    ensures { result ≡ left - weight_of_record [] (written_record (plain_record given.now)) }
{
    let behind = base_left(&given.base, left.saturating_sub(1));
    fields_left(given, behind)
}

#[cycle(left)]
fn base_left(base: &Option<Arc<RecordTy>>, left: u32) -> u32
    ensures { result ≡ left - weight_of_base [] (written_base (base_option base.now)) }
{
    match base {
        Some(base) => record_left(base, left),
        None => left,
    }
}

/// What is left behind the fields. Those of unknown types weigh nothing, and aren't gone over.
#[cycle(left)]
fn fields_left(given: &RecordTy, left: u32) -> u32
    ensures { result ≡ left - weight_of_written (fields_in given.now) }
{
    let mut left = left;
    for field in given.names.known() {
        if left == 0 {
            return 0;
        }
        if field.exported {
            left = known_left(given, field.ty, left);
        }
    }
    left
}

/// What is left behind the type at an index.
#[cycle(left)]
fn known_left(given: &RecordTy, at: usize, left: u32) -> u32
    ensures { result ≡ left - weight [] (written (type_at (types_in given.now) (Some at))) }
{
    match given.type_at(at) {
        Some(ty) => weight_left(ty, left),
        None => left,
    }
}
