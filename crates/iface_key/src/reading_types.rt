ghost use Rattle.std.specs.Prelude.{ℕ, List, ◌≡◌, ◌∷◌, ◌<◌, IfOk, MatchOption};
ghost use Rattle.std.specs.Option.{option_map};
ghost use Rattle.oberon_types.specs.Types.{record_of};
ghost use Rattle.oberon_types.specs.Memory.{plain_ty, base_option};
ghost use Rattle.iface_key.specs.Keys.{option_then, type_then, record_then, base_then, fields_then};
ghost use Rattle.iface_key.specs.Read.{Reads};
ghost use Rattle.iface_key.specs.ReadTypes.{record_at, fields_of, plain_field, field_then, IsNestedIn, IsRecordIn, IsBaseIn, IsNextIn, AreFieldsIn};

use crate::fault::Fault;
use crate::reading::{read_bool, read_byte, read_number};
use crate::reading_parts::{read_name, read_origin};
use ob_text::NoMemory;
use oberon_types::{Field, Origin, RecordTy, Ty};
use std::alloc::Global;
use std::sync::Arc;

/// The type of a tag that nothing else follows.
fn simple_type(tag: u8) -> Option<Ty>
    ensures { MatchOption result (5 < tag) (λ ty. (rest : List ℕ) → tag ∷ rest ≡ type_then (plain_ty ty) rest) }
{
    match tag {
        0 => Some(Ty::Unknown),
        1 => Some(Ty::Integer),
        2 => Some(Ty::Byte),
        3 => Some(Ty::Char),
        4 => Some(Ty::Boolean),
        5 => Some(Ty::Set),
        _ => None,
    }
}

/// A type that is nested at most so deep.
#[cycle(read)]
pub(crate) fn read_type(alloc: Global, text: &[u8], depth: u32) -> Result<(Ty, &[u8]), Fault>
    ensures { Reads plain_ty type_then (IsNestedIn depth) text.now result }
{
    let (tag, behind) = read_byte(text)?;
    match simple_type(tag) {
        Some(ty) => Ok((ty, behind)),
        None => read_larger(alloc, tag, behind, depth),
    }
}

/// A type of this tag, behind the tag.
#[cycle(read)]
fn read_larger(alloc: Global, tag: u8, text: &[u8], depth: u32) -> Result<(Ty, &[u8]), Fault>
    requires { 5 < tag }
    ensures { Reads plain_ty type_then (IsNestedIn depth) (tag ∷ text.now) result }
{
    if tag == 6 {
        let (count, behind) = read_number(text)?;
        return Ok((Ty::Str(count), behind));
    }
    if depth == 0 {
        return Err(Fault::NoKey);
    }
    if tag == 7 {
        return read_array(alloc, text, depth);
    }
    if tag == 8 {
        return read_open(alloc, text, depth);
    }
    if tag == 9 {
        let (given, behind) = read_record(alloc, text, depth)?;
        return Ok((Ty::Record(given), behind));
    }
    Err(Fault::NoKey)
}

#[cycle(read)]
#[inline(never)]
fn read_array(alloc: Global, text: &[u8], depth: u32) -> Result<(Ty, &[u8]), Fault>
    requires { 0 < depth }
    ensures { Reads plain_ty type_then (IsNestedIn depth) (7 ∷ text.now) result }
{
    let (length, behind_length) = read_number(text)?;
    let (item, behind) = read_type(alloc, behind_length, depth - 1)?;
    let element = Arc::new(alloc, item)?;
    Ok((Ty::Array { length, element }, behind))
}

#[cycle(read)]
#[inline(never)]
fn read_open(alloc: Global, text: &[u8], depth: u32) -> Result<(Ty, &[u8]), Fault>
    requires { 0 < depth }
    ensures { Reads plain_ty type_then (IsNestedIn depth) (8 ∷ text.now) result }
{
    let (part, behind) = read_type(alloc, text, depth - 1)?;
    let element = Arc::new(alloc, part)?;
    Ok((Ty::Open { element }, behind))
}

#[cycle(read)]
#[inline(never)]
fn read_record(alloc: Global, text: &[u8], depth: u32) -> Result<(Arc<RecordTy>, &[u8]), Fault>
    ensures { Reads record_at record_then (IsRecordIn depth) text.now result }
{
    if depth == 0 {
        return Err(Fault::NoKey);
    }
    let (origin, behind_origin) = read_origin(alloc, text)?;
    let (base, behind_base) = read_base(alloc, behind_origin, depth - 1)?;
    let (fields, behind_fields) = read_fields(alloc, behind_base, depth - 1)?;
    let (size, behind) = read_number(behind_fields)?;
    let given = made_record(alloc, origin, base, fields, size)?;
    Ok((given, behind))
}

/// The record type of these parts. The calls within each other that read types don't hold what this one does.
#[inline(never)]
fn made_record(
    alloc: Global,
    origin: Origin,
    base: Option<Arc<RecordTy>>,
    fields: Vec<Field>,
    size: u32,
) -> Result<Arc<RecordTy>, NoMemory>
    ensures { IfOk result (λ given. record_at given ≡ record_of origin (base_option base) (fields_of fields) size) }
{
    let made = RecordTy::of(alloc, origin, base, fields, size)?;
    Ok(Arc::new(alloc, made)?)
}

#[cycle(read)]
fn read_base(
    alloc: Global,
    text: &[u8],
    depth: u32,
) -> Result<(Option<Arc<RecordTy>>, &[u8]), Fault>
    ensures { Reads base_option base_then (IsBaseIn depth) text.now result }
{
    let (extended, behind_mark) = read_bool(text)?;
    if extended {
        let (base, behind) = read_record(alloc, behind_mark, depth)?;
        return Ok((Some(base), behind));
    }
    Ok((None, behind_mark))
}

#[cycle(read)]
#[inline(never)]
fn next_field(alloc: Global, text: &[u8], depth: u32) -> Result<(Option<Field>, &[u8]), Fault>
    ensures { Reads (option_map plain_field) (option_then field_then) (IsNextIn depth) text.now result }
{
    let (more, behind_mark) = read_bool(text)?;
    if more {
        let (name, behind_name) = read_name(alloc, behind_mark)?;
        let (exported, behind_exported) = read_bool(behind_name)?;
        let (ty, behind) = read_type(alloc, behind_exported, depth)?;
        let field = Field { name, exported, ty };
        return Ok((Some(field), behind));
    }
    Ok((None, behind_mark))
}

#[cycle(read)]
fn read_fields(alloc: Global, text: &[u8], depth: u32) -> Result<(Vec<Field>, &[u8]), Fault>
    ensures { Reads fields_of fields_then (AreFieldsIn depth) text.now result }
{
    let mut fields = Vec::new(alloc);
    let mut left = text;
    'fields: loop {
        let (next, behind) = next_field(alloc, left, depth)?;
        match next {
            Some(field) => fields.push(field)?,
            None => return Ok((fields, behind)),
        }
        left = behind;
    }
}
